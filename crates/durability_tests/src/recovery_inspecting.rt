//! What `inspect` reports of devices.
//!
//! Offsets in the small device: root byte 64; half 0: chain byte 128, gates 192, records (520 bytes each, the kind first)
//! 196; half 1: gates 2340, records 2344; image 0: version 4424, the volume's piece 4488 and in it the label 4504.
//!
//! That device has `LEN` bytes and the geometry `SMALL`: one volume of two files of four blocks, in two stripes, and four records in a
//! half. `put` sets a byte. `Wrong::Unfit`: a test doesn't go as it was written.
use crate::assertions::assert_equal;
use crate::common::SMALL;
use crate::recovery_formatting::{LEN, new_bytes, put};
use affinity::Geometry;
use checkpoint::{OpenFault, Shown, format, inspect};
use disk::MemDisk;
use harness::Wrong;
use message::Reply;
use std::alloc::{AllocError, Global};
use std::process::Abort;
use std::test::Fail;

/// How many calls `inspect` makes of an empty device, each a read: the header, the root byte, the head of the named image,
/// its three pieces, the chain byte and the gates of the named half.
const CALLS: u64 = 8;

/// The formatted device with other bytes at some places.
fn device(alloc: Global, patches: &[(usize, u8)]) -> Result<MemDisk, AllocError> {
    // 0: a device of zeros was formatted.
    let mut bytes = new_bytes(alloc, LEN, 0)?;
    for (at, byte) in patches {
        put(&mut bytes, *at, *byte);
    }
    MemDisk::of_bytes(alloc, bytes)
}

/// What is reported of a device whose area 0 is named, with this many records in force, volumes and files, no blocks, and an
/// image of this version.
fn shown(records: usize, volumes: u32, files: u32, version: u8) -> Result<Shown, Fail> {
    Ok(Shown {
        geometry: Geometry::new(SMALL)?,
        area: 0,
        records,
        summary: Reply::Summary {
            volumes,
            files,
            blocks: 0,
        },
        version,
    })
}

/// Asserts that the device is reported as empty, by `CALLS` calls of it.
fn assert_empty(rt: &impl Abort, alloc: Global, disk: MemDisk) -> Result<(), Fail> {
    let calls = disk.calls();
    let want = shown(0, 0, 0, 2)?;
    let (report, disk) = inspect(alloc, disk).map_err(|e| e.fault)?;
    assert_equal(rt, report, want);
    assert_equal(rt, Some(disk.calls()), calls.checked_add(CALLS));
    Ok(())
}

#[test]
fn a_new_device_is_empty(rt: HostRuntime) -> Result<(), Fail> {
    let g = Geometry::new(SMALL)?;
    let disk = MemDisk::new(rt.alloc(), LEN as u64)?;
    let disk = format(rt.alloc(), disk, g).map_err(|e| e.fault)?;
    assert_empty(&rt, rt.alloc(), disk)
}

/// Bytes that are set in a formatted device (offset and value), how many records in force, volumes and files are reported
/// then, and the version of the image.
const SHOWN: [(&[(usize, u8)], usize, u32, u32, u8); 7] = [
    (&[(64, 7)], 0, 0, 0, 2),
    (&[(192, 1), (196, 1)], 1, 1, 0, 2),
    (&[(4424, 1)], 0, 0, 0, 1),
    (&[(4424, 1), (4488, 1)], 0, 1, 0, 1),
    (&[(4488, 1), (4504, 1)], 0, 1, 0, 2),
    // Half 1 is in force only if the chain byte of half 0, at 128, is 1.
    (
        &[(128, 1), (192, 1), (196, 1), (2340, 1), (2344, 3)],
        2,
        1,
        1,
        2,
    ),
    (&[(192, 1), (196, 1), (2340, 1), (2344, 3)], 1, 1, 0, 2),
];

#[test]
fn records_and_images_are_reported(rt: HostRuntime) -> Result<(), Fail> {
    for &(patches, records, volumes, files, version) in &SHOWN {
        let want = shown(records, volumes, files, version)?;
        let device = device(rt.alloc(), patches)?;
        let (report, _) = inspect(rt.alloc(), device).map_err(|e| e.fault)?;
        assert_equal(&rt, report, want);
    }
    Ok(())
}

/// A cut was in progress, and the first record of half 1 is bad (zeros): that is reported, and the device stays as it was.
#[test]
fn a_bad_record_behind_a_cut_is_reported(rt: HostRuntime) -> Result<(), Fail> {
    let device = device(rt.alloc(), &[(128, 1), (2340, 1)])?;
    let bytes = device.bytes().to_vec(rt.alloc())?;
    let Err(e) = inspect(rt.alloc(), device) else {
        return Err(Wrong::Unfit.into());
    };
    assert_equal(&rt, e.fault, OpenFault::BadRecord(1, 0));
    assert_equal(&rt, e.disk.bytes(), bytes.as_slice());
    Ok(())
}

/// Where a request of `inspect` for memory is refused, it has made one call of the device, a read of the header, and the
/// next `inspect` succeeds.
#[test]
fn a_device_is_inspected_at_the_next_try(rt: HostRuntime) -> Result<(), Fail> {
    let alloc = rt.alloc();
    let disk = device(alloc, &[(192, 1), (196, 1)])?;
    let bytes = disk.bytes().to_vec(alloc)?;
    let (report, disk) = match inspect(alloc, disk) {
        Ok(report) => report,
        Err(e) => {
            assert_equal(&rt, e.fault, OpenFault::OutOfMemory);
            assert_equal(&rt, e.disk.calls(), 1);
            assert_equal(&rt, e.disk.bytes(), bytes.as_slice());
            inspect(alloc, e.disk).map_err(|e| e.fault)?
        }
    };
    assert_equal(&rt, report, shown(1, 1, 0, 2)?);
    assert_equal(&rt, disk.bytes(), bytes.as_slice());
    Ok(())
}

#[test]
fn each_read_may_fail(rt: HostRuntime) -> Result<(), Fail> {
    for n in 1..CALLS + 2 {
        let mut disk = device(rt.alloc(), &[])?;
        disk.fail_at(n);
        match inspect(rt.alloc(), disk) {
            Ok(_) => assert_equal(&rt, n, CALLS + 1),
            Err(e) => assert_equal(&rt, (n <= CALLS, e.fault), (true, OpenFault::Device)),
        }
    }
    Ok(())
}
