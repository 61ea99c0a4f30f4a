//! What each kind of crash leaves.
ghost use Rattle.disk.specs.CrashImages.{HasPattern};

use crate::assertions::assert_equal;
use crate::disk_calls::{Call, answers};
use disk::{MemDisk, Torn};
use std::alloc::{AllocError, Global};
use std::process::Abort;
use std::test::Fail;

/// A device of the bytes 10 to 15 after some calls: the number of the call that fails (none, if there are fewer calls), what a read gives,
/// and what each kind of crash leaves. At each unsynced offset `Old` leaves the byte of the last sync, `New` that of the last write, even
/// if it failed, `Fill` 7, and `Mixed` 1, 77, 1, and again, in order.
#[derive(Drop)]
struct Row {
    calls: &'static [Call],
    fails: u64,
    now: [u8; 6],
    old: [u8; 6],
    new: [u8; 6],
    filled: [u8; 6],
    mixed: [u8; 6],
}

const ROWS: [Row; 4] = [
    // Written over one another, the last time by a write that fails.
    Row {
        calls: &[
            Call::Write(1, &[1, 2, 3]),
            Call::Sync,
            Call::Write(0, &[21, 22, 23]),
            Call::Write(2, &[31, 32]),
        ],
        fails: 4,
        now: [21, 22, 23, 3, 14, 15],
        old: [10, 1, 2, 3, 14, 15],
        new: [21, 22, 31, 32, 14, 15],
        filled: [7, 7, 7, 7, 14, 15],
        mixed: [1, 77, 1, 1, 14, 15],
    },
    // Offsets that do not lie in a row, and a sync that fails.
    Row {
        calls: &[Call::Write(4, &[8, 9]), Call::Write(1, &[6]), Call::Sync],
        fails: 3,
        now: [10, 6, 12, 13, 8, 9],
        old: [10, 11, 12, 13, 14, 15],
        new: [10, 6, 12, 13, 8, 9],
        filled: [10, 7, 12, 13, 7, 7],
        mixed: [10, 1, 12, 13, 77, 1],
    },
    // The same, synced.
    Row {
        calls: &[Call::Write(4, &[8, 9]), Call::Write(1, &[6]), Call::Sync],
        fails: 9,
        now: [10, 6, 12, 13, 8, 9],
        old: [10, 6, 12, 13, 8, 9],
        new: [10, 6, 12, 13, 8, 9],
        filled: [10, 6, 12, 13, 8, 9],
        mixed: [10, 6, 12, 13, 8, 9],
    },
    // Nothing was written.
    Row {
        calls: &[Call::Read(0, 6)],
        fails: 1,
        now: [10, 11, 12, 13, 14, 15],
        old: [10, 11, 12, 13, 14, 15],
        new: [10, 11, 12, 13, 14, 15],
        filled: [10, 11, 12, 13, 14, 15],
        mixed: [10, 11, 12, 13, 14, 15],
    },
];

fn device_of(alloc: Global, row: &Row) -> Result<MemDisk, AllocError> {
    let mut disk = MemDisk::of_bytes(alloc, vec![in alloc; 10, 11, 12, 13, 14, 15]?)?;
    if row.fails > 0 {
        disk.fail_at(row.fails);
    }
    let _ = answers(alloc, &mut disk, row.calls)?;
    Ok(disk)
}

/// Asserts that a crash of this kind leaves these bytes of the device. A second crash changes none, as nothing is unsynced after the first.
fn assert_left(
    rt: &impl Abort,
    alloc: Global,
    row: &Row,
    torn: Torn,
    want: &[u8],
) -> Result<(), AllocError>
    requires { HasPattern torn }
{
    let disk = device_of(alloc, row)?.crash(torn);
    assert_equal(rt, disk.bytes(), want);
    assert_equal(rt, disk.crash(Torn::Fill(8)).bytes(), want);
    Ok(())
}

/// Asserts that after these calls each kind of crash leaves what the row says.
fn assert_torn(rt: &impl Abort, alloc: Global, row: &Row) -> Result<(), AllocError> {
    assert_equal(rt, device_of(alloc, row)?.bytes(), row.now.as_slice());
    assert_left(rt, alloc, row, Torn::Old, &row.old)?;
    assert_left(rt, alloc, row, Torn::New, &row.new)?;
    assert_left(rt, alloc, row, Torn::Fill(7), &row.filled)?;
    let mixed = Torn::Mixed(vec![in alloc; 1, 77, 1]?);
    assert_left(rt, alloc, row, mixed, &row.mixed)
}

#[test]
fn each_kind_of_crash_tears_what_is_unsynced(rt: HostRuntime) -> Result<(), Fail> {
    for row in &ROWS {
        assert_torn(&rt, rt.alloc(), row)?;
    }
    Ok(())
}
