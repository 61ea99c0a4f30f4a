//! How many lines are open, that is read and not answered in the output: no more than there are slots. The server is the small one
//! (`SMALL`), with one volume of two files of four blocks.
use crate::assertions::{assert_at_most, assert_count};
use crate::serving_common::SMALL;
use crate::serving_noting::{Notes, Taking};
use disk::MemDisk;
use harness::{Wrong, device_with};
use message::Msg;
use scheduler::Core;
use serving::{ServeError, ServeFault, serve};
use std::alloc::{AllocError, Global};
use std::sync::Wait;
use std::test::Fail;
use std::thread::Threads;
use workers::OpenGate;

/// How many lines there are; each takes a ticket.
const MANY: usize = 500;

/// `MANY` lines. Neighbors are unrelated. There is no volume, so each is answered `error volume`.
fn reads(alloc: Global) -> Result<Vec<u8>, AllocError> {
    let mut lines = Vec::new(alloc);
    for _ in 0..MANY / 4 {
        lines.extend_from_slice(b"read 0 0 0 0\nread 0 0 0 1\nread 0 0 0 2\nread 0 0 0 3\n")?;
    }
    Ok(lines)
}

/// Serves these lines, with 1 to 1024 slots, to a writer whose n-th call fails. Returns how many were read by then, which is the ticket
/// that the core gives next, and how many of their answers were written and flushed. `Unfit` where the server ended by no write fault.
fn stopped_at<T: Threads + Wait + Sync>(
    rt: &T,
    alloc: Global,
    slots: usize,
    lines: &[u8],
    n: u64,
) -> Result<(u64, u64), Wrong> {
    let notes = Notes::new();
    let mut input = lines;
    // It takes all that is written at once.
    let mut writer = Taking {
        output: Vec::new(alloc),
        size: 70_000,
        fails_at: n,
        notes: &notes,
    };
    let device: MemDisk = device_with(alloc, SMALL, &[])?;
    let Ok(core) = Core::open(alloc, device, slots.min(1024).max(1)) else {
        return Err(Wrong::OutOfMemory);
    };
    // With two workers, without checkpoints by a count of records, and with hooks that do nothing.
    match serve(rt, alloc, core, &mut input, &mut writer, 2, 0, &OpenGate) {
        Err(ServeError { mut core, fault }) => {
            let read = core.arrive(&Msg::Summary);
            let _device = core.into_disk();
            match (fault, read) {
                (ServeFault::Write, Ok(read)) => Ok((read, notes.flushed.get())),
                _ => Err(Wrong::Unfit),
            }
        }
        Ok(core) => {
            let _device = core.into_disk();
            Err(Wrong::Unfit)
        }
    }
}

/// The calls of the writer before this one are made to fail, each in its turn.
const CALLS: u64 = 12;

#[test]
fn no_further_line_is_read_before_an_answer_is_written(rt: HostRuntime) -> Result<(), Fail> {
    let lines = reads(rt.alloc())?;
    for slots in [1, 3, 16] {
        // Before the first answer as many lines are read as there are slots.
        let (read, flushed) = stopped_at(&rt, rt.alloc(), slots, lines.as_slice(), 1)?;
        assert_count(&rt, read, slots as u64);
        assert_count(&rt, flushed, 0);
        for n in 2..CALLS {
            let (read, flushed) = stopped_at(&rt, rt.alloc(), slots, lines.as_slice(), n)?;
            assert_at_most(&rt, read, flushed.saturating_add(slots as u64));
        }
    }
    Ok(())
}
