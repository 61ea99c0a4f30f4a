//! Devices that `format` makes: their bytes, and what a crash leaves.
//!
//! Offsets in the small device: header 0 (its first byte is the format byte), root zone 64; half 0: chain byte 128, gates
//! 192, records (520 bytes each) 196; half 1: the same at 2276, 2340, 2344; image 0: 4424, its version first; image 1: 6632.
//!
//! `SMALL` is the geometry of that device: one volume of two files of four blocks, in two stripes that hold two blocks each, and four
//! records in a half. `KINDS` is how many kinds of crash there are.
ghost use Rattle.std.specs.Prelude.{◌<◌};

use crate::assertions::{assert_equal, assert_true};
use crate::common::SMALL;
use affinity::Geometry;
use checkpoint::{FormatFault, format};
use disk::MemDisk;
use harness::{KINDS, Wrong, torn};
use std::alloc::{AllocError, Global};
use std::process::Abort;
use std::test::Fail;

/// The length of the small device, in bytes.
pub(crate) const LEN: usize = 8840;

/// The header of the small device without the 40 zeros at its end: the format byte, `WAFFSRV`, and the numbers of `SMALL`,
/// two bytes each, the lower one first.
const HEADER: [u8; 24] = [
    1, 0x57, 0x41, 0x46, 0x46, 0x53, 0x52, 0x56, 1, 0, 1, 0, 2, 0, 1, 0, 2, 0, 4, 0, 2, 0, 4, 0,
];

/// The number of each old device (see `old_bytes`), and how many calls `format` makes of it: a sync, a read of the format
/// byte and, where that is 1, a write and a sync; three writes of zeros; the version, the header after its format byte, and
/// the format byte, each a write and a sync.
const CALLS: [(usize, u64); 3] = [(0, 11), (1, 13), (2, 11)];

/// Sets a byte, if there is one.
pub(crate) fn put(bytes: &mut [u8], at: usize, byte: u8) {
    if let Some(there) = bytes.get_mut(at) {
        *there = byte;
    }
}

/// Sets the first bytes.
fn begin(bytes: &mut [u8], row: &[u8]) {
    for (at, byte) in row.iter().enumerate() {
        put(bytes, at, *byte);
    }
}

/// Sets the bytes from one offset up to another to zero.
fn clear(bytes: &mut [u8], from: usize, to: usize) {
    for at in from..to {
        put(bytes, at, 0);
    }
}

/// The bytes of an old device of this length, by its number: 0: zeros; 1: formatted, with a `makevol` in its log, and with a
/// byte in image 1 that isn't 0; 2: the same with the format byte cleared. Bytes after the parts of the small device are 9.
fn old_bytes(alloc: Global, len: usize, which: usize) -> Result<Vec<u8>, AllocError> {
    let mut bytes = vec![in alloc; 0u8; len]?;
    for at in LEN..len {
        put(&mut bytes, at, 9);
    }
    if which > 0 {
        begin(&mut bytes, &HEADER);
        put(&mut bytes, 192, 1);
        put(&mut bytes, 196, 1);
        put(&mut bytes, 4424, 2);
        put(&mut bytes, 6632, 9);
    }
    if which > 1 {
        put(&mut bytes, 0, 0);
    }
    Ok(bytes)
}

/// The bytes of that device once `format` has made an empty one of it: the records, image 1 and what lies after it stay.
pub(crate) fn new_bytes(alloc: Global, len: usize, which: usize) -> Result<Vec<u8>, AllocError> {
    let mut bytes = old_bytes(alloc, len, which)?;
    begin(&mut bytes, &HEADER);
    clear(&mut bytes, 64, 196);
    clear(&mut bytes, 2276, 2344);
    clear(&mut bytes, 4424, 6632);
    put(&mut bytes, 4424, 2);
    Ok(bytes)
}

#[test]
fn an_empty_device_is_made(rt: HostRuntime) -> Result<(), Fail> {
    let g = Geometry::new(SMALL)?;
    for (len, which) in [(LEN, 0), (LEN, 1), (LEN, 2), (LEN + 600, 0), (LEN + 600, 1)] {
        let disk = MemDisk::of_bytes(rt.alloc(), old_bytes(rt.alloc(), len, which)?)?;
        let want = new_bytes(rt.alloc(), len, which)?;
        let disk = format(rt.alloc(), disk, g).map_err(|e| e.fault)?;
        assert_equal(&rt, disk.bytes(), want.as_slice());
    }
    Ok(())
}

/// Where `format` is refused its memory, it has made no call of the device, whose bytes stay, and the next `format` of it
/// succeeds.
#[test]
fn a_device_is_made_at_the_next_try(rt: HostRuntime) -> Result<(), Fail> {
    let alloc = rt.alloc();
    let g = Geometry::new(SMALL)?;
    let old = old_bytes(alloc, LEN, 1)?;
    let want = new_bytes(alloc, LEN, 1)?;
    let disk = MemDisk::of_bytes(alloc, old.to_vec(alloc)?)?;
    let made = match format(alloc, disk, g) {
        Ok(made) => made,
        Err(e) => {
            assert_equal(&rt, e.fault, FormatFault::OutOfMemory);
            assert_equal(&rt, e.disk.calls(), 0);
            assert_equal(&rt, e.disk.bytes(), old.as_slice());
            format(alloc, e.disk, g).map_err(|e| e.fault)?
        }
    };
    assert_equal(&rt, made.bytes(), want.as_slice());
    Ok(())
}

#[test]
fn a_short_device_stays(rt: HostRuntime) -> Result<(), Fail> {
    let g = Geometry::new(SMALL)?;
    let disk = MemDisk::new(rt.alloc(), 8839)?;
    let Err(e) = format(rt.alloc(), disk, g) else {
        return Err(Wrong::Unfit.into());
    };
    assert_equal(&rt, e.fault, FormatFault::TooShort);
    assert_equal(&rt, e.disk.calls(), 0);
    Ok(())
}

/// What is left of old device `which` after a `format` in which the n-th call of the device fails (and all later ones, if it
/// stops there), and then a crash of this kind; and the fault, if `format` failed.
fn left_by_format(
    alloc: Global,
    which: usize,
    stops: bool,
    n: u64,
    kind: usize,
) -> Result<(MemDisk, Option<FormatFault>), Fail>
    requires { 0 < n }
{
    let g = Geometry::new(SMALL)?;
    let mut disk = MemDisk::of_bytes(alloc, old_bytes(alloc, LEN, which)?)?;
    if stops {
        disk.stop_at(n);
    } else {
        disk.fail_at(n);
    }
    let torn = torn(alloc, kind)?;
    Ok(match format(alloc, disk, g) {
        Ok(disk) => (disk.crash(torn), None),
        Err(e) => (e.disk.crash(torn), Some(e.fault)),
    })
}

/// Asserts that these are the bytes of the new device; or, unless `format` succeeded (`made`), those of the old one, or some whose format
/// byte isn't 1.
fn assert_old_or_new(rt: &impl Abort, bytes: &[u8], old: &[u8], new: &[u8], made: bool) {
    let unformatted = match bytes.first() {
        Some(format_byte) => *format_byte != 1,
        None => false,
    };
    assert_true(rt, bytes == new || !made && (bytes == old || unformatted));
}

/// Asserts that where the n-th call fails, `format` reports that exactly if it makes n calls or more, and after each kind of crash the
/// device is one of those of `assert_old_or_new`.
fn assert_fault_reported(
    rt: &impl Abort,
    alloc: Global,
    which: usize,
    stops: bool,
    n: u64,
    calls: u64,
) -> Result<(), Fail>
    requires { 0 < n }
{
    let old = old_bytes(alloc, LEN, which)?;
    let new = new_bytes(alloc, LEN, which)?;
    let want = if n <= calls {
        Some(FormatFault::Device)
    } else {
        None
    };
    for kind in 0..KINDS {
        let (disk, fault) = left_by_format(alloc, which, stops, n, kind)?;
        assert_equal(rt, fault, want);
        assert_old_or_new(rt, disk.bytes(), &old, &new, fault.is_none());
    }
    Ok(())
}

#[test]
fn each_call_may_fail(rt: HostRuntime) -> Result<(), Fail> {
    for &(which, calls) in &CALLS {
        // Call 14 is never made: there are 13 at most.
        for n in 1..15 {
            assert_fault_reported(&rt, rt.alloc(), which, true, n, calls)?;
            assert_fault_reported(&rt, rt.alloc(), which, false, n, calls)?;
        }
    }
    Ok(())
}
