//! Long lines, and what the image has when serving has ended, with several numbers of workers and slots. The server is the small one
//! (`SMALL`): one volume of two files of four blocks, and four records in a half of the log.
use crate::assertions::{assert_count, assert_text, assert_true};
use crate::serving_common::{SMALL, Way, serial, serve_lines};
use checkpoint::{OpenFault, inspect};
use disk::MemDisk;
use harness::{Wrong, device_with};
use message::Reply;
use std::alloc::{AllocError, Global};
use std::process::Abort;
use std::sync::Wait;
use std::test::Fail;
use std::thread::Threads;

/// Fails unless these lines are answered so, by the serial server and with several numbers of workers and slots.
fn answers<T: Threads + Wait + Sync + Abort>(
    rt: &T,
    alloc: Global,
    lines: &[u8],
    want: &[u8],
) -> Result<(), Wrong> {
    assert_text(rt, serial(alloc, SMALL, lines)?.as_slice(), want);
    for workers in [1, 2, 8] {
        for slots in [1, 2, 16] {
            // `every: 0`: no checkpoint is due by a count of records.
            let way = Way {
                workers,
                slots,
                every: 0,
            };
            let device = device_with(alloc, SMALL, &[])?;
            let (_, output) = serve_lines(rt, alloc, device, way, lines)?;
            assert_text(rt, output.as_slice(), want);
        }
    }
    Ok(())
}

/// The beginning of a line, and then `count` times this byte.
fn long_line(alloc: Global, line: &[u8], byte: u8, count: usize) -> Result<Vec<u8>, AllocError> {
    let mut long = line.to_vec(alloc)?;
    for _ in 0..count {
        long.push(byte)?;
    }
    Ok(long)
}

/// How a line begins, the byte that follows and how often, and how it ends: too much data, too long a label, a line of the greatest length
/// and one that is a byte longer, and a last line, without a newline, that is longer by far.
const LONG_LINES: [(&[u8], u8, usize, &[u8]); 5] = [
    (b"write 0 0 0 0 ", b'6', 1026, b"\n"),
    (b"setlabel 0 0 ", b'6', 66, b"\n"),
    (b"", b'a', 1100, b"\n"),
    (b"", b'a', 1101, b"\n"),
    (b"", b'a', 1_000_000, b""),
];

#[test]
fn lines_that_are_too_long_are_answered(rt: HostRuntime) -> Result<(), Fail> {
    for (line, byte, count, end) in LONG_LINES {
        let mut lines = long_line(rt.alloc(), line, byte, count)?;
        lines.extend_from_slice(end)?;
        answers(&rt, rt.alloc(), lines.as_slice(), b"error line\n")?;
    }
    Ok(())
}

/// Patches (offset and byte) of a device that was formatted; the lines that are served on it, and after how many records a checkpoint is
/// due (0: only where the log is full); and then the area that is named at last, and how many volumes, files and blocks there are. Opening
/// names area 1, and each checkpoint the other area; one is made at the end of the input.
const LEAVES: [(&[(usize, u8)], &[u8], u64, usize, [u32; 3]); 5] = [
    (&[], b"", 0, 0, [0, 0, 0]),
    (&[], THREE_CHANGES, 0, 0, [1, 1, 1]),
    // A checkpoint is due once two records are logged, not only with a third.
    (&[], TWO_CHANGES, 2, 1, [1, 1, 0]),
    // The image has version 1 (its version lies at 4424); in the second row it has a volume (at 4488).
    (&[(4424, 1)], b"", 0, 0, [0, 0, 0]),
    (&[(4424, 1), (4488, 1)], b"label 0 0\n", 0, 0, [1, 0, 0]),
];

const TWO_CHANGES: &[u8] = b"makevol 0 0\ncreate 0 0 0\n";

const THREE_CHANGES: &[u8] = b"makevol 0 0\ncreate 0 0 0\nwrite 0 0 0 0 61\n";

/// Asserts of a device on which lines were served to their end that this area is named, its image has version 2 and these numbers of
/// volumes, files and blocks, and no record is in force. `Unfit` where the device is refused.
pub(crate) fn assert_left(
    rt: &impl Abort,
    alloc: Global,
    device: MemDisk,
    area: usize,
    counts: [u32; 3],
) -> Result<(), Wrong> {
    let shown = match inspect(alloc, device) {
        Ok((shown, _)) => shown,
        Err(e) => {
            return Err(if e.fault == OpenFault::OutOfMemory {
                Wrong::OutOfMemory
            } else {
                Wrong::Unfit
            });
        }
    };
    let [volumes, files, blocks] = counts;
    let summary = Reply::Summary {
        volumes,
        files,
        blocks,
    };
    assert_count(rt, shown.version as u64, 2);
    assert_count(rt, shown.records as u64, 0);
    assert_count(rt, shown.area as u64, area as u64);
    assert_true(rt, shown.summary == summary);
    Ok(())
}

#[test]
fn all_is_in_the_image_at_the_end(rt: HostRuntime) -> Result<(), Fail> {
    for (patches, lines, every, area, counts) in LEAVES {
        for workers in [1, 2] {
            let way = Way {
                workers,
                slots: 4,
                every,
            };
            let device = device_with(rt.alloc(), SMALL, patches)?;
            let (device, _) = serve_lines(&rt, rt.alloc(), device, way, lines)?;
            assert_left(&rt, rt.alloc(), device, area, counts)?;
        }
    }
    Ok(())
}
