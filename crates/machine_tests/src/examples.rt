//! Worked lists of steps, whose outcomes are written by hand.
//!
//! Steps `Run` and `Back` have the number of a hand, and `Log` the most messages to log. Outcomes `Ticket`, `Back` and `Answered` have a
//! ticket, `Granted` a hand and a ticket, and `Left` the number of pieces that are left. `assert_outcomes` makes the steps. `SMALL` is a
//! geometry of one volume of two files of four blocks, in two stripes; a half has four records. `Wrong::Unfit`: a test doesn't go as it was
//! written. Crashes leave the synced bytes (`OLD`), those of the last writes (`NEW`), or 1, 77, 1 at the unsynced offsets in turn
//! (`MIXED`).
use crate::assertions::{assert_equal, assert_true};
use crate::steps::Row::{Arrives, Does, Serves};
use crate::steps::{FLAT, Row, SMALL, assert_outcomes, machine_on};
use disk::MemDisk;
use harness::{MIXED, NEW, OLD, Wrong, assert_shown, device_with, torn};
use histories::{ArriveRefusal, CoreFault, Outcome, PointRefusal, Step};
use message::Reply;
use std::alloc::Global;
use std::process::Abort;
use std::test::Fail;

/// How many slots for messages and how many hands a machine has that was just opened, and the rows that it goes through.
#[derive(Clone, Copy, Drop)]
struct Incarnation {
    slots: usize,
    hands: usize,
    rows: &'static [Row],
}

/// A device that was just formatted, and on which machines then run one after the other.
#[derive(Clone, Copy, Drop)]
struct Incarnations {
    numbers: [u16; 8],
    incarnations: &'static [Incarnation],
}

/// The call of the device that fails, counted from 1, after the first rows.
#[derive(Clone, Copy, Drop)]
enum InjectedFault {
    /// This call alone.
    FailAt(u64),
    /// This call and all after it.
    StopAt(u64),
}

/// A machine does these things on a device, which it gives back.
fn run_incarnation(
    rt: &impl Abort,
    alloc: Global,
    device: MemDisk,
    incarnation: &Incarnation,
) -> Result<MemDisk, Wrong> {
    let mut machine = machine_on(alloc, device, incarnation.slots, incarnation.hands)?;
    assert_outcomes(rt, &mut machine, incarnation.rows);
    Ok(machine.into_core().into_disk())
}

/// The machines of all incarnations do these things on a new device, which is given back.
fn run_all(rt: &impl Abort, alloc: Global, incarnations: &Incarnations) -> Result<MemDisk, Wrong> {
    let mut device = device_with(alloc, incarnations.numbers, &[])?;
    for incarnation in incarnations.incarnations {
        device = run_incarnation(rt, alloc, device, incarnation)?;
    }
    Ok(device)
}

/// How many calls of a new device the opening and the first rows of an incarnation make, where `first` says how many rows.
fn calls_of(
    rt: &impl Abort,
    alloc: Global,
    numbers: [u16; 8],
    incarnation: &Incarnation,
    first: usize,
) -> Result<u64, Wrong> {
    let rows = incarnation.rows.get(..first).unwrap_or(&[]);
    let device = device_with(alloc, numbers, &[])?;
    let beginning = Incarnation {
        slots: incarnation.slots,
        hands: incarnation.hands,
        rows,
    };
    Ok(run_incarnation(rt, alloc, device, &beginning)?.calls())
}

/// The device after an incarnation on a new one with this injected fault, whose call is counted from after row number `first`.
fn left_with(
    rt: &impl Abort,
    alloc: Global,
    numbers: [u16; 8],
    incarnation: &Incarnation,
    first: usize,
    injected_fault: InjectedFault,
) -> Result<MemDisk, Wrong> {
    let calls = calls_of(rt, alloc, numbers, incarnation, first)?;
    let mut device = device_with(alloc, numbers, &[])?;
    match injected_fault {
        InjectedFault::FailAt(n) => device.fail_at(calls.saturating_add(n.max(1))),
        InjectedFault::StopAt(n) => device.stop_at(calls.saturating_add(n.max(1))),
    }
    run_incarnation(rt, alloc, device, incarnation)
}

// ---- outcomes of steps

/// A volume with a file.
const A_FILE: Incarnation = Incarnation {
    slots: 1,
    hands: 1,
    rows: &[
        Serves("makevol 0 0", "done"),
        Serves("create 0 0 0", "done"),
    ],
};

/// A message that is refused has no record in the log.
const REFUSED: Incarnations = Incarnations {
    numbers: SMALL,
    incarnations: &[Incarnation {
        slots: 1,
        hands: 1,
        rows: &[
            Serves("makevol 0 0", "done"),
            Serves("makevol 0 0", "error exists"),
        ],
    }],
};

/// A half of four records is full, and a point makes room.
const FULL_LOG: Incarnations = Incarnations {
    numbers: SMALL,
    incarnations: &[Incarnation {
        slots: 1,
        hands: 1,
        rows: &[
            Serves("makevol 0 0", "done"),
            Serves("create 0 0 0", "done"),
            Serves("create 0 0 1", "done"),
            Serves("write 0 0 0 0 61", "done"),
            Arrives("write 0 0 0 1 62", Outcome::Ticket(4)),
            Does(Step::Grant, Outcome::NoRoom),
            Does(Step::Point, Outcome::Pointed),
            Does(Step::Grant, Outcome::Granted(0, 4)),
        ],
    }],
};

/// One hand, with and without something to do.
const ONE_HAND: Incarnation = Incarnation {
    slots: 1,
    hands: 1,
    rows: &[
        Does(Step::Back(0), Outcome::Idle),
        Does(Step::Run(0), Outcome::Idle),
        Does(Step::Answer, Outcome::Idle),
        Arrives("summary", Outcome::Ticket(0)),
        Does(Step::Grant, Outcome::Granted(0, 0)),
        Does(Step::Back(0), Outcome::Idle),
        Does(Step::Run(0), Outcome::Ran),
        Does(Step::Back(0), Outcome::Back(0)),
        Does(Step::Log(1), Outcome::Logged(1)),
        Does(
            Step::Answer,
            Outcome::Answered(
                0,
                Reply::Summary {
                    volumes: 0,
                    files: 0,
                    blocks: 0,
                },
            ),
        ),
    ],
};

/// The second write goes to another stripe than the first, and doesn't conflict with it, but with the `create` that waits before it. So it
/// isn't granted. While all three slots are taken, a further message is refused as `Full`, and one out of range as `Range`.
const THREE_SLOTS: Incarnations = Incarnations {
    numbers: SMALL,
    incarnations: &[
        A_FILE,
        Incarnation {
            slots: 3,
            hands: 3,
            rows: &[
                Arrives("write 0 0 0 0 61", Outcome::Ticket(0)),
                Arrives("create 0 0 1", Outcome::Ticket(1)),
                Arrives("write 0 0 0 1 62", Outcome::Ticket(2)),
                Does(Step::Grant, Outcome::Granted(0, 0)),
                Does(Step::Grant, Outcome::NoneEligible),
                Does(Step::Run(0), Outcome::Ran),
                Does(Step::Back(0), Outcome::Back(0)),
                Does(Step::Grant, Outcome::NoneEligible),
                Does(Step::Log(1), Outcome::Logged(1)),
                Does(Step::Grant, Outcome::NoneEligible),
                Does(Step::Answer, Outcome::Answered(0, Reply::Done)),
                Does(Step::Grant, Outcome::Granted(0, 1)),
                Arrives("summary", Outcome::Ticket(3)),
                Arrives("summary", Outcome::ArriveRefused(ArriveRefusal::Full)),
                Arrives("read 1 0 0 0", Outcome::ArriveRefused(ArriveRefusal::Range)),
            ],
        },
    ],
};

/// A label and a block go side by side, and the seal after them waits for both.
const LABEL: Incarnations = Incarnations {
    numbers: SMALL,
    incarnations: &[
        A_FILE,
        Incarnation {
            slots: 3,
            hands: 3,
            rows: &[
                Arrives("setlabel 0 0 61", Outcome::Ticket(0)),
                Arrives("write 0 0 0 0 61", Outcome::Ticket(1)),
                Arrives("seal 0 0", Outcome::Ticket(2)),
                Does(Step::Grant, Outcome::Granted(0, 0)),
                Does(Step::Grant, Outcome::Granted(1, 1)),
                Does(Step::Grant, Outcome::NoneEligible),
                Does(Step::Run(1), Outcome::Ran),
                Does(Step::Back(1), Outcome::Back(1)),
                Does(Step::Log(1), Outcome::Logged(1)),
                Does(Step::Answer, Outcome::Answered(1, Reply::Done)),
                Does(Step::Grant, Outcome::NoneEligible),
                Does(Step::Run(0), Outcome::Ran),
                Does(Step::Back(0), Outcome::Back(0)),
                Does(Step::Log(1), Outcome::Logged(1)),
                Does(Step::Grant, Outcome::NoneEligible),
                Does(Step::Answer, Outcome::Answered(0, Reply::Done)),
                Does(Step::Grant, Outcome::Granted(0, 2)),
            ],
        },
    ],
};

/// Two writes of one file, in two stripes, go side by side.
const SIDE_BY_SIDE: Incarnations = Incarnations {
    numbers: SMALL,
    incarnations: &[
        A_FILE,
        Incarnation {
            slots: 2,
            hands: 2,
            rows: &[
                Arrives("write 0 0 0 0 61", Outcome::Ticket(0)),
                Arrives("write 0 0 0 1 62", Outcome::Ticket(1)),
                Does(Step::Grant, Outcome::Granted(0, 0)),
                Does(Step::Grant, Outcome::Granted(1, 1)),
                Does(Step::Point, Outcome::PointRefused(PointRefusal::Held)),
                Does(Step::Run(1), Outcome::Ran),
                Does(Step::Back(1), Outcome::Back(1)),
                Does(Step::Log(1), Outcome::Logged(1)),
                Does(Step::Answer, Outcome::Answered(1, Reply::Done)),
                Does(Step::Run(0), Outcome::Ran),
                Does(Step::Back(0), Outcome::Back(0)),
                Does(Step::Log(4), Outcome::Logged(1)),
                Does(Step::Answer, Outcome::Answered(0, Reply::Done)),
                Does(Step::Point, Outcome::Pointed),
            ],
        },
    ],
};

/// The steps of a cut, in order and out of order.
const CUT_STEPS: Incarnations = Incarnations {
    numbers: SMALL,
    incarnations: &[Incarnation {
        slots: 1,
        hands: 1,
        rows: &[
            Does(Step::Cut, Outcome::Cut),
            Does(Step::Cut, Outcome::PointRefused(PointRefusal::Running)),
            Does(Step::Flip, Outcome::PointRefused(PointRefusal::Unfinished)),
            Does(Step::Piece, Outcome::Left(2)),
            Does(Step::Piece, Outcome::Left(1)),
            Does(Step::Piece, Outcome::Left(0)),
            Does(Step::Piece, Outcome::Left(0)),
            Does(Step::Flip, Outcome::Flipped),
            Does(Step::Flip, Outcome::PointRefused(PointRefusal::NotRunning)),
        ],
    }],
};

#[test]
fn steps_come_out_so(rt: HostRuntime) -> Result<(), Fail> {
    for incarnations in [FULL_LOG, THREE_SLOTS, LABEL, SIDE_BY_SIDE, CUT_STEPS] {
        run_all(&rt, rt.alloc(), &incarnations)?;
    }
    Ok(())
}

/// As `run_incarnation`, but it prints a line before its first step and one after its last. In between no memory may be asked for:
/// `tests/run calls` counts the requests.
fn run_without_memory(
    rt: &(impl Abort + Print),
    alloc: Global,
    device: MemDisk,
    incarnation: &Incarnation,
) -> Result<MemDisk, Wrong> {
    let mut machine = machine_on(alloc, device, incarnation.slots, incarnation.hands)?;
    assert_true(rt, rt.println("no memory from here").is_ok());
    assert_outcomes(rt, &mut machine, incarnation.rows);
    assert_true(rt, rt.println("no memory to here").is_ok());
    Ok(machine.into_core().into_disk())
}

/// The last of these incarnations takes memory only before its first step.
fn takes_memory_before_its_steps_alone(
    rt: &(impl Abort + Print),
    alloc: Global,
    incarnations: &Incarnations,
) -> Result<(), Wrong> {
    let Some((last, earlier)) = incarnations.incarnations.split_last() else {
        return Err(Wrong::Unfit);
    };
    let mut device = device_with(alloc, incarnations.numbers, &[])?;
    for incarnation in earlier {
        device = run_incarnation(rt, alloc, device, incarnation)?;
    }
    run_without_memory(rt, alloc, device, last)?;
    Ok(())
}

#[test]
fn a_full_log_and_its_point_take_no_memory(rt: HostRuntime) -> Result<(), Fail> {
    takes_memory_before_its_steps_alone(&rt, rt.alloc(), &FULL_LOG)?;
    Ok(())
}

#[test]
fn two_writes_side_by_side_take_no_memory(rt: HostRuntime) -> Result<(), Fail> {
    takes_memory_before_its_steps_alone(&rt, rt.alloc(), &SIDE_BY_SIDE)?;
    Ok(())
}

#[test]
fn a_cut_takes_no_memory(rt: HostRuntime) -> Result<(), Fail> {
    takes_memory_before_its_steps_alone(&rt, rt.alloc(), &CUT_STEPS)?;
    Ok(())
}

#[test]
fn a_refusal_is_no_record(rt: HostRuntime) -> Result<(), Fail> {
    let device = run_all(&rt, rt.alloc(), &REFUSED)?;
    assert_shown(rt.alloc(), device, 1, 1, [1, 0, 0])?;
    Ok(())
}

#[test]
fn a_query_leaves_the_device_alone(rt: HostRuntime) -> Result<(), Fail> {
    let opening = calls_of(&rt, rt.alloc(), SMALL, &ONE_HAND, 0)?;
    let calls = calls_of(&rt, rt.alloc(), SMALL, &ONE_HAND, ONE_HAND.rows.len())?;
    assert_equal(&rt, calls, opening);
    Ok(())
}

// ---- what a fault and a crash leave

/// A change that runs, and the device fails where it is logged. From then on nothing is granted, taken in or answered.
const LOG_FAILS: Incarnation = Incarnation {
    slots: 2,
    hands: 1,
    rows: &[
        Arrives("makevol 0 0", Outcome::Ticket(0)),
        Does(Step::Grant, Outcome::Granted(0, 0)),
        Does(Step::Run(0), Outcome::Ran),
        Does(Step::Back(0), Outcome::Back(0)),
        Does(Step::Log(1), Outcome::LogFault(CoreFault::Device)),
        Does(Step::Grant, Outcome::Failed),
        Arrives(
            "create 0 0 0",
            Outcome::ArriveRefused(ArriveRefusal::Failed),
        ),
        Does(Step::Answer, Outcome::Idle),
    ],
};

/// The device is opened, and nothing is done.
const OPENED: Incarnation = Incarnation {
    slots: 1,
    hands: 1,
    rows: &[],
};

/// How many rows of `LOG_FAILS` come before its log step.
const BEFORE_THE_LOG: usize = 4;

/// The device fails in that log step by this injected fault, and a crash of this kind comes, or none. Asserts that what is opened again has
/// this many volumes.
fn assert_volumes_left(
    rt: &impl Abort,
    alloc: Global,
    injected_fault: InjectedFault,
    crash: Option<usize>,
    volumes: u32,
) -> Result<(), Wrong> {
    let mut device = left_with(rt, alloc, SMALL, &LOG_FAILS, BEFORE_THE_LOG, injected_fault)?;
    if let Some(kind) = crash {
        device = device.crash(torn(alloc, kind)?);
    }
    let device = run_incarnation(rt, alloc, device, &OPENED)?;
    assert_shown(alloc, device, 0, 0, [volumes, 0, 0])?;
    Ok(())
}

// A log step makes four calls: it writes the records, syncs them, writes their gates and syncs these.

#[test]
fn a_log_that_stops_at_its_gate_leaves_the_change_only_if_that_was_written(
    rt: HostRuntime,
) -> Result<(), Fail> {
    assert_volumes_left(&rt, rt.alloc(), InjectedFault::StopAt(3), Some(OLD), 0)?;
    assert_volumes_left(&rt, rt.alloc(), InjectedFault::StopAt(3), Some(NEW), 1)?;
    Ok(())
}

#[test]
fn a_log_in_which_one_call_fails_leaves_the_change_only_if_its_gate_was_written(
    rt: HostRuntime,
) -> Result<(), Fail> {
    assert_volumes_left(&rt, rt.alloc(), InjectedFault::FailAt(2), None, 0)?;
    assert_volumes_left(&rt, rt.alloc(), InjectedFault::FailAt(3), None, 0)?;
    assert_volumes_left(&rt, rt.alloc(), InjectedFault::FailAt(4), None, 1)?;
    Ok(())
}

/// Three blocks, each in a stripe of its own (`FLAT`), are written side by side, and the device stops where they are logged, at the write
/// of their gates. The log step comes after the first 15 rows.
const THREE_WRITES: Incarnation = Incarnation {
    slots: 3,
    hands: 3,
    rows: &[
        Serves("makevol 0 0", "done"),
        Serves("create 0 0 0", "done"),
        Does(Step::Point, Outcome::Pointed),
        Arrives("write 0 0 0 0 61", Outcome::Ticket(2)),
        Arrives("write 0 0 0 1 62", Outcome::Ticket(3)),
        Arrives("write 0 0 0 2 63", Outcome::Ticket(4)),
        Does(Step::Grant, Outcome::Granted(0, 2)),
        Does(Step::Grant, Outcome::Granted(1, 3)),
        Does(Step::Grant, Outcome::Granted(2, 4)),
        Does(Step::Run(0), Outcome::Ran),
        Does(Step::Run(1), Outcome::Ran),
        Does(Step::Run(2), Outcome::Ran),
        Does(Step::Back(0), Outcome::Back(2)),
        Does(Step::Back(1), Outcome::Back(3)),
        Does(Step::Back(2), Outcome::Back(4)),
        Does(Step::Log(3), Outcome::LogFault(CoreFault::Device)),
    ],
};

/// The gates are open, shut and open: the first block alone is there. Then another block is written, and
/// the first is punched.
const FIRST_BLOCK: Incarnation = Incarnation {
    slots: 1,
    hands: 1,
    rows: &[
        Serves("read 0 0 0 0", "block 61"),
        Serves("read 0 0 0 1", "hole"),
        Serves("read 0 0 0 2", "hole"),
        Serves("punch 0 0 0 0", "done"),
        Serves("write 0 0 0 3 64", "done"),
    ],
};

/// What lay after the shut gate is gone.
const LAST_BLOCK: Incarnation = Incarnation {
    slots: 1,
    hands: 1,
    rows: &[
        Serves("read 0 0 0 0", "hole"),
        Serves("read 0 0 0 1", "hole"),
        Serves("read 0 0 0 2", "hole"),
        Serves("read 0 0 0 3", "block 64"),
    ],
};

#[test]
fn torn_gates_leave_a_beginning(rt: HostRuntime) -> Result<(), Fail> {
    let alloc = rt.alloc();
    let device = left_with(
        &rt,
        alloc,
        FLAT,
        &THREE_WRITES,
        15,
        InjectedFault::StopAt(3),
    )?;
    let device = device.crash(torn(alloc, MIXED)?);
    let device = run_incarnation(&rt, alloc, device, &FIRST_BLOCK)?;
    let device = device.crash(torn(alloc, OLD)?);
    run_incarnation(&rt, alloc, device, &LAST_BLOCK)?;
    Ok(())
}

/// A change before a cut, and one while it is in progress.
const BEHIND_A_CUT: Incarnations = Incarnations {
    numbers: SMALL,
    incarnations: &[Incarnation {
        slots: 1,
        hands: 1,
        rows: &[
            Serves("makevol 0 0", "done"),
            Does(Step::Cut, Outcome::Cut),
            Serves("create 0 0 0", "done"),
        ],
    }],
};

/// The same, and the cut is ended.
const BEHIND_A_FLIP: Incarnations = Incarnations {
    numbers: SMALL,
    incarnations: &[Incarnation {
        slots: 1,
        hands: 1,
        rows: &[
            Serves("makevol 0 0", "done"),
            Does(Step::Cut, Outcome::Cut),
            Serves("create 0 0 0", "done"),
            Does(Step::Piece, Outcome::Left(2)),
            Does(Step::Piece, Outcome::Left(1)),
            Does(Step::Piece, Outcome::Left(0)),
            Does(Step::Flip, Outcome::Flipped),
        ],
    }],
};

/// Both changes are there.
const BOTH: Incarnation = Incarnation {
    slots: 1,
    hands: 1,
    rows: &[Serves("list 0 0", "files 0")],
};

/// Asserts that after these incarnations and a crash this area and this many records are reported, and that once the device is opened, both
/// changes are there, and area 1 is named.
fn assert_both(
    rt: &impl Abort,
    alloc: Global,
    incarnations: &Incarnations,
    area: usize,
    records: usize,
) -> Result<(), Wrong> {
    let device = run_all(rt, alloc, incarnations)?.crash(torn(alloc, OLD)?);
    let device = assert_shown(alloc, device, area, records, [1, 1, 0])?;
    let device = run_incarnation(rt, alloc, device, &BOTH)?;
    assert_shown(alloc, device, 1, 0, [1, 1, 0])?;
    Ok(())
}

#[test]
fn changes_behind_a_cut_are_there(rt: HostRuntime) -> Result<(), Fail> {
    assert_both(&rt, rt.alloc(), &BEHIND_A_CUT, 1, 2)?;
    assert_both(&rt, rt.alloc(), &BEHIND_A_FLIP, 0, 1)?;
    Ok(())
}

/// Cuts, of which each writes the pieces that have changed since its area was written.
const CHANGED_PIECES: Incarnation = Incarnation {
    slots: 1,
    hands: 1,
    rows: &[
        // Into area 0, of which nothing is known: all three pieces are dirty.
        Does(Step::Cut, Outcome::Cut),
        Does(Step::Piece, Outcome::Left(2)),
        Does(Step::Piece, Outcome::Left(1)),
        Does(Step::Piece, Outcome::Left(0)),
        Does(Step::Flip, Outcome::Flipped),
        Serves("makevol 0 0", "done"),
        Does(Step::Cut, Outcome::Cut),
        Does(Step::Piece, Outcome::Left(0)),
        Does(Step::Flip, Outcome::Flipped),
        Serves("create 0 0 0", "done"),
        Serves("write 0 0 0 0 61", "done"),
        // Into area 0, which lacks the volume too.
        Does(Step::Cut, Outcome::Cut),
        Does(Step::Piece, Outcome::Left(1)),
        Does(Step::Piece, Outcome::Left(0)),
        Does(Step::Flip, Outcome::Flipped),
        // Area 1 lacks the file and its block.
        Does(Step::Cut, Outcome::Cut),
        Does(Step::Piece, Outcome::Left(1)),
        Does(Step::Piece, Outcome::Left(0)),
        Does(Step::Flip, Outcome::Flipped),
        // Area 0 lacks nothing.
        Does(Step::Cut, Outcome::Cut),
        Does(Step::Piece, Outcome::Left(0)),
        Does(Step::Flip, Outcome::Flipped),
    ],
};

/// How many rows of `CHANGED_PIECES` there are up to the end of a cut; the area that is named then; and its volumes, files and blocks.
const NAMED: [(usize, usize, [u32; 3]); 5] = [
    (5, 0, [0, 0, 0]),
    (9, 1, [1, 0, 0]),
    (15, 0, [1, 1, 1]),
    (19, 1, [1, 1, 1]),
    (22, 0, [1, 1, 1]),
];

/// Asserts that what the first rows, `first` of them, leave of a new device is reported so, with no record in force.
fn assert_left_by_cuts(
    rt: &impl Abort,
    alloc: Global,
    first: usize,
    area: usize,
    summary: [u32; 3],
) -> Result<(), Wrong> {
    let beginning = Incarnation {
        slots: CHANGED_PIECES.slots,
        hands: CHANGED_PIECES.hands,
        rows: CHANGED_PIECES.rows.get(..first).unwrap_or(&[]),
    };
    let device = run_incarnation(rt, alloc, device_with(alloc, SMALL, &[])?, &beginning)?;
    assert_shown(alloc, device, area, 0, summary)?;
    Ok(())
}

#[test]
fn cuts_write_what_has_changed(rt: HostRuntime) -> Result<(), Fail> {
    let alloc = rt.alloc();
    for &(first, area, summary) in &NAMED {
        assert_left_by_cuts(&rt, alloc, first, area, summary)?;
    }
    // Row 21, a step `Piece` of the last cut, has nothing to write, and makes no call of the device.
    let last_cut = calls_of(&rt, alloc, SMALL, &CHANGED_PIECES, 20)?;
    let no_piece = calls_of(&rt, alloc, SMALL, &CHANGED_PIECES, 21)?;
    assert_equal(&rt, no_piece, last_cut);
    let device = device_with(alloc, SMALL, &[])?;
    let device = run_incarnation(&rt, alloc, device, &CHANGED_PIECES)?;
    let device = device.crash(torn(alloc, OLD)?);
    let device = run_incarnation(&rt, alloc, device, &OPENED)?;
    assert_shown(alloc, device, 1, 0, [1, 1, 1])?;
    Ok(())
}
