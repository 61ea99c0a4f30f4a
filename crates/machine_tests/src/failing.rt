//! What a machine reports once a call of its device has failed.
//!
//! In an outcome `Device` says that the device fails in this step, and `Failed` that it has failed before; `PointRefused` is that of any
//! step of a checkpoint. `assert_outcomes` makes the steps of rows. Each device is newly formatted, with the geometry `SMALL` of one volume
//! in two stripes (three pieces), and each machine has two slots and two hands.
use crate::assertions::assert_equal;
use crate::steps::Row::{Arrives, Does};
use crate::steps::{Row, SMALL, assert_outcomes, machine_on};
use harness::{Wrong, device_with};
use histories::{ArriveRefusal, CoreFault, Outcome, PointRefusal, Step};
use std::alloc::Global;
use std::process::Abort;
use std::test::Fail;

/// What is done, and the step after it, in which the device fails.
const FAULTS: [(&[Row], Row); 5] = [
    (
        &[
            Arrives("makevol 0 0", Outcome::Ticket(0)),
            Does(Step::Grant, Outcome::Granted(0, 0)),
            Does(Step::Run(0), Outcome::Ran),
            Does(Step::Back(0), Outcome::Back(0)),
        ],
        Does(Step::Log(1), Outcome::LogFault(CoreFault::Device)),
    ),
    (
        &[],
        Does(Step::Point, Outcome::PointRefused(PointRefusal::Device)),
    ),
    (
        &[],
        Does(Step::Cut, Outcome::PointRefused(PointRefusal::Device)),
    ),
    (
        &[Does(Step::Cut, Outcome::Cut)],
        Does(Step::Piece, Outcome::PointRefused(PointRefusal::Device)),
    ),
    (
        &[
            Does(Step::Cut, Outcome::Cut),
            Does(Step::Piece, Outcome::Left(2)),
            Does(Step::Piece, Outcome::Left(1)),
            Does(Step::Piece, Outcome::Left(0)),
        ],
        Does(Step::Flip, Outcome::PointRefused(PointRefusal::Device)),
    ),
];

/// What comes of each step from then on.
const FAILED: [Row; 8] = [
    Arrives("summary", Outcome::ArriveRefused(ArriveRefusal::Failed)),
    Does(Step::Grant, Outcome::Failed),
    Does(Step::Log(1), Outcome::LogFault(CoreFault::Failed)),
    Does(Step::Answer, Outcome::Idle),
    Does(Step::Point, Outcome::PointRefused(PointRefusal::Failed)),
    Does(Step::Cut, Outcome::PointRefused(PointRefusal::Failed)),
    Does(Step::Piece, Outcome::PointRefused(PointRefusal::Failed)),
    Does(Step::Flip, Outcome::PointRefused(PointRefusal::Failed)),
];

/// How many calls of a new device its opening and these rows make.
fn calls_of(rt: &impl Abort, alloc: Global, rows: &[Row]) -> Result<u64, Wrong> {
    let mut machine = machine_on(alloc, device_with(alloc, SMALL, &[])?, 2, 2)?;
    assert_outcomes(rt, &mut machine, rows);
    Ok(machine.into_core().into_disk().calls())
}

/// Asserts: of the calls of the device the first one in step `failing` fails, and no other. From then on each step reports that the device
/// has failed, or is idle, and none calls it.
fn assert_fails(rt: &impl Abort, alloc: Global, before: &[Row], failing: Row) -> Result<(), Wrong> {
    let calls = calls_of(rt, alloc, before)?.saturating_add(1);
    let mut device = device_with(alloc, SMALL, &[])?;
    device.fail_at(calls);
    let mut machine = machine_on(alloc, device, 2, 2)?;
    assert_outcomes(rt, &mut machine, before);
    assert_outcomes(rt, &mut machine, &[failing]);
    assert_outcomes(rt, &mut machine, &FAILED);
    assert_equal(rt, machine.into_core().into_disk().calls(), calls);
    Ok(())
}

#[test]
fn what_has_failed_says_so_at_each_step(rt: HostRuntime) -> Result<(), Fail> {
    for &(before, failing) in &FAULTS {
        assert_fails(&rt, rt.alloc(), before, failing)?;
    }
    Ok(())
}
