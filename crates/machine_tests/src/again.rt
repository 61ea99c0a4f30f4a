//! Calls that take memory. `tests/run calls` runs each test once for each allocation, which it refuses. If the call under test made it, the
//! call fails, is made again and succeeds; if the test's setup made it, the test ends with an error. `MADE_AGAIN` in
//! `tests/system/crates.py` has the least number of allocations of each call, counted by hand: raise it where you add one.
//!
//! `SMALL` is a geometry of one volume and four records in a half. `assert_outcomes` makes the steps of rows. The last number of
//! `Core::open` is that of slots.
use crate::assertions::assert_equal;
use crate::steps::Row::{Arrives, Does, Serves};
use crate::steps::{Row, SMALL, assert_outcomes};
use checkpoint::OpenFault;
use disk::MemDisk;
use harness::{Wrong, device_with};
use histories::{Outcome, PointRefusal, Step};
use machine::Machine;
use scheduler::Core;
use std::alloc::Global;
use std::process::Abort;
use std::test::Fail;

/// The bytes of a formatted device that differ where a `makevol` is in its log: at 192 the first gate of half 0 is open, at 196 the
/// kind of its record is 1.
const A_VOLUME: [(usize, u8); 2] = [(192, 1), (196, 1)];

/// What a machine answers on that device from its first step on. `NotRunning`: no cut is in progress, so there is no piece to write.
const ITS_VOLUME: [Row; 4] = [
    Does(Step::Piece, Outcome::PointRefused(PointRefusal::NotRunning)),
    Serves("makevol 0 0", "error exists"),
    Serves("create 0 0 0", "done"),
    Arrives("list 0 0", Outcome::Ticket(2)),
];

/// Opens a device. Where memory is refused, the device is unchanged; if the device was called `most_calls` times or less by then, a second
/// try opens it.
fn opened_again(
    rt: &impl Abort,
    alloc: Global,
    device: MemDisk,
    most_calls: u64,
) -> Result<Core<MemDisk>, Wrong> {
    let bytes = device.bytes().to_vec(alloc)?;
    let refused = match Core::open(alloc, device, 2) {
        Ok(core) => return Ok(core),
        Err(e) => e,
    };
    assert_equal(rt, refused.fault, OpenFault::OutOfMemory);
    assert_equal(rt, refused.disk.bytes(), bytes.as_slice());
    if refused.disk.calls() > most_calls {
        return Err(Wrong::OutOfMemory);
    }
    match Core::open(alloc, refused.disk, 2) {
        Ok(core) => Ok(core),
        Err(_) => Err(Wrong::OutOfMemory),
    }
}

/// A machine with one hand, or the core where memory is refused.
fn machine_of(alloc: Global, core: Core<MemDisk>) -> Result<Machine<MemDisk>, Core<MemDisk>> {
    match Machine::new(alloc, core, 1) {
        Ok(machine) => Ok(machine),
        Err(e) => Err(e.core),
    }
}

/// Asserts that a machine over this core answers as if no memory had been refused. Where the memory of the machine itself is refused, it is
/// made again, if there is to be a second try. The machine is taken apart at the end, as dropping it costs the prover half a minute.
fn assert_serves(
    rt: &impl Abort,
    alloc: Global,
    core: Core<MemDisk>,
    tries_again: bool,
) -> Result<(), Wrong> {
    let made = match machine_of(alloc, core) {
        Err(core) if tries_again => machine_of(alloc, core),
        made => made,
    };
    match made {
        Ok(mut machine) => {
            assert_outcomes(rt, &mut machine, &ITS_VOLUME);
            let _device = machine.into_core().into_disk();
            Ok(())
        }
        Err(core) => {
            let _device = core.into_disk();
            Err(Wrong::OutOfMemory)
        }
    }
}

/// A core over a device with a volume, opened at the second try where memory is refused within `most_calls` calls of the device.
fn core_opened_again(
    rt: &impl Abort,
    alloc: Global,
    most_calls: u64,
) -> Result<Core<MemDisk>, Wrong> {
    let device = device_with(alloc, SMALL, &A_VOLUME)?;
    let core = opened_again(rt, alloc, device, most_calls)?;
    // None: no cut is in progress.
    assert_equal(rt, (core.slots(), core.pieces_left()), (2, None));
    Ok(core)
}

/// The same of a core that is opened at the second try where memory is refused within `most_calls` calls of the device.
fn assert_serves_again(rt: &impl Abort, alloc: Global, most_calls: u64) -> Result<(), Wrong> {
    let core = core_opened_again(rt, alloc, most_calls)?;
    assert_serves(rt, alloc, core, false)
}

#[test]
fn a_core_takes_its_own_memory_before_it_calls_the_device(rt: HostRuntime) -> Result<(), Fail> {
    assert_serves_again(&rt, rt.alloc(), 0)?;
    Ok(())
}

#[test]
fn a_core_is_opened_at_the_next_try(rt: HostRuntime) -> Result<(), Fail> {
    // A sync, and a read of the header.
    assert_serves_again(&rt, rt.alloc(), 2)?;
    Ok(())
}

#[test]
fn a_machine_is_made_at_the_next_try(rt: HostRuntime) -> Result<(), Fail> {
    let device = device_with(rt.alloc(), SMALL, &A_VOLUME)?;
    let Ok(core) = Core::open(rt.alloc(), device, 2) else {
        return Err(Wrong::OutOfMemory.into());
    };
    assert_serves(&rt, rt.alloc(), core, true)?;
    Ok(())
}
