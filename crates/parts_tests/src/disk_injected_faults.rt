//! Calls that fail by an injected fault, and devices for which there is no memory.
use crate::assertions::{assert_equal, assert_true};
use crate::disk_calls::{Call, FAULT, FINE, OUTSIDE, assert_answers};
use disk::{DiskFault, MemDisk, Torn};
use std::alloc::{AllocError, Global};
use std::test::Fail;

#[derive(Drop)]
enum InjectedFault {
    /// The call of this number, from 1 on, fails alone.
    FailAt(u64),
    /// That call fails, and all after it.
    StopAt(u64),
}

fn set(disk: &mut MemDisk, injected_fault: &InjectedFault) {
    match injected_fault {
        InjectedFault::FailAt(n) if *n > 0 => disk.fail_at(*n),
        InjectedFault::StopAt(n) if *n > 0 => disk.stop_at(*n),
        _ => {}
    }
}

/// Calls of a device of four bytes: the third one is out of range, so it doesn't count as a call.
const CALLS: [Call; 5] = [
    Call::Read(0, 4),
    Call::Write(0, &[1]),
    Call::Read(4, 1),
    Call::Sync,
    Call::Read(0, 1),
];

/// Injected faults, set one after the other, so that the last one replaces the others; and what each of `CALLS` answers then: `FINE`, it
/// succeeds; `FAULT`, the device fails; `OUTSIDE`, the call is out of range.
const WITH_FAULTS: [(&[InjectedFault], [Result<(), DiskFault>; 5]); 5] = [
    (
        &[InjectedFault::FailAt(2)],
        [FINE, FAULT, OUTSIDE, FINE, FINE],
    ),
    (
        &[InjectedFault::FailAt(3)],
        [FINE, FINE, OUTSIDE, FAULT, FINE],
    ),
    (
        &[InjectedFault::StopAt(2)],
        [FINE, FAULT, OUTSIDE, FAULT, FAULT],
    ),
    (
        &[InjectedFault::StopAt(1), InjectedFault::FailAt(2)],
        [FINE, FAULT, OUTSIDE, FINE, FINE],
    ),
    (
        &[InjectedFault::FailAt(1), InjectedFault::StopAt(4)],
        [FINE, FINE, OUTSIDE, FINE, FAULT],
    ),
];

const WITHOUT_FAULT: [Result<(), DiskFault>; 5] = [FINE, FINE, OUTSIDE, FINE, FINE];

#[test]
fn injected_faults_fail_the_calls_that_they_name(rt: HostRuntime) -> Result<(), Fail> {
    for &(injected_faults, wanted) in &WITH_FAULTS {
        let mut disk = MemDisk::new(rt.alloc(), 4)?;
        for injected_fault in injected_faults {
            set(&mut disk, injected_fault);
        }
        assert_answers(&rt, rt.alloc(), &mut disk, &CALLS, &wanted)?;
        // A call that answers `OutOfRange` is not counted.
        assert_equal(&rt, disk.calls(), 4);
        // A crash that leaves the synced bytes (`Torn::Old`) also removes the fault.
        let mut disk = disk.crash(Torn::Old);
        assert_equal(&rt, disk.calls(), 0);
        assert_answers(&rt, rt.alloc(), &mut disk, &CALLS, &WITHOUT_FAULT)?;
    }
    Ok(())
}

/// A device of three bytes, or an error where a request for memory is refused.
fn of_three(alloc: Global) -> Result<MemDisk, AllocError> {
    MemDisk::of_bytes(alloc, vec![in alloc; 1, 2, 3]?)
}

/// The test passes also if any one request for memory in it is refused.
#[test]
fn a_device_in_memory_is_made_at_the_next_try(rt: HostRuntime) -> Result<(), Fail> {
    let alloc = rt.alloc();
    let zeros = match MemDisk::new(alloc, 3) {
        Ok(disk) => disk,
        Err(_) => MemDisk::new(alloc, 3)?,
    };
    assert_equal(&rt, zeros.bytes(), [0; 3].as_slice());
    let given = match of_three(alloc) {
        Ok(disk) => disk,
        Err(_) => of_three(alloc)?,
    };
    assert_equal(&rt, given.bytes(), [1, 2, 3].as_slice());
    Ok(())
}

#[test]
fn a_length_that_no_memory_has_is_refused(rt: HostRuntime) {
    assert_true(&rt, MemDisk::new(rt.alloc(), u64::MAX).is_err());
}
