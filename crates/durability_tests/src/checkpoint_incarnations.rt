//! Incarnations of a server, each ended by a fault of the device at one of its calls, and what is found on the device then.
use crate::assertions::assert_equal;
use crate::checkpoint_trials::{Play, Script};
use crate::common::SMALL;
use harness::{Act, Wrong, sweep};
use std::alloc::Global;
use std::process::Abort;
use std::test::Fail;

/// Asserts: whichever call of the device fails, the changes that were answered (logged without a fault) are found after it, and of those
/// being logged a prefix. With no fault the opening and the script make `calls` calls of the device: `sweep` gives how many.
fn assert_script_survives(
    rt: &impl Abort,
    alloc: Global,
    script: &Script,
    calls: u64,
) -> Result<(), Wrong> {
    let play = Play::new(alloc, script)?;
    assert_equal(rt, sweep(alloc, &play)?, calls);
    Ok(())
}

/// Opening syncs, reads the header, the root byte, the head of an image, three pieces, a chain byte and the gates, and makes
/// a point.
const OPENING: u64 = 9 + POINT;

/// A batch is two writes and two syncs.
const BATCH: u64 = 4;

/// A point is three writes and three syncs.
const POINT: u64 = 6;

/// The beginning of a cut is two writes and two syncs.
const CUT: u64 = 4;

/// A piece is one write.
const PIECE: u64 = 1;

/// The flip that ends a cut is a sync, a write and a sync.
const FLIP: u64 = 3;

/// Batches and points (the whole image in one call). `SMALL` has one volume of two files of four blocks, in two stripes.
const POINTS: Script = Script {
    numbers: SMALL,
    patches: &[],
    recovered: &[],
    acts: &[
        Act::Log(&["makevol 0 0"]),
        Act::Log(&["create 0 0 0", "write 0 0 0 0 61", "setlabel 0 0 07"]),
        Act::Point,
        Act::Log(&["write 0 0 0 1 62"]),
        Act::Point,
    ],
};

#[test]
fn points_survive(rt: HostRuntime) -> Result<(), Fail> {
    let calls = OPENING + 3 * BATCH + 2 * POINT;
    Ok(assert_script_survives(&rt, rt.alloc(), &POINTS, calls)?)
}

/// Cuts, and batches logged while the first is in progress; `End` writes the pieces that are left, and flips. Each cut writes all three
/// pieces, the volume's and both stripes': the first one as nothing is known of its area, the second one as `delete` has made all of them
/// dirty.
const CUTS: Script = Script {
    numbers: SMALL,
    patches: &[],
    recovered: &[],
    acts: &[
        Act::Log(&["makevol 0 0"]),
        Act::Cut,
        Act::Log(&["create 0 0 0", "write 0 0 0 1 61"]),
        Act::Piece,
        Act::Log(&["setlabel 0 0 07"]),
        Act::End,
        Act::Log(&["delete 0 0 0"]),
        Act::Cut,
        Act::End,
        Act::Log(&["seal 0 0"]),
    ],
};

#[test]
fn cuts_survive(rt: HostRuntime) -> Result<(), Fail> {
    let calls = OPENING + 5 * BATCH + 2 * (CUT + 3 * PIECE + FLIP);
    Ok(assert_script_survives(&rt, rt.alloc(), &CUTS, calls)?)
}

/// A device with a cut in progress, whose named image, of version 1, has a volume. The record in half 0 makes its file 0, and the one in
/// half 1, which follows, writes a block of that file. `recovered` are lines that lead to the same state. The patches in order: the image's
/// version and the volume's first byte; the chain byte, a gate and a record's kind of half 0; a gate, a record's kind and the first byte of
/// its block in half 1.
const INTERRUPTED: Script = Script {
    numbers: SMALL,
    patches: &[
        (4424, 1),
        (4488, 1),
        (128, 1),
        (192, 1),
        (196, 3),
        (2340, 1),
        (2344, 7),
        (2352, 0x61),
    ],
    recovered: &["makevol 0 0", "create 0 0 0", "write 0 0 0 0 61"],
    acts: &[Act::Log(&["setlabel 0 0 07"])],
};

#[test]
fn an_interrupted_cut_of_version_1_survives(rt: HostRuntime) -> Result<(), Fail> {
    // A record of each half and the chain byte and the gates of half 1 are read too, and the cut is finished: all
    // pieces in one write, and a flip.
    let calls = OPENING + 4 + 4 + BATCH;
    Ok(assert_script_survives(&rt, rt.alloc(), &INTERRUPTED, calls)?)
}

/// A device whose named image, of version 1, has a volume.
const VERSION_1: Script = Script {
    numbers: SMALL,
    patches: &[(4424, 1), (4488, 1)],
    recovered: &["makevol 0 0"],
    acts: &[],
};

#[test]
fn an_image_of_version_1_survives_its_opening(rt: HostRuntime) -> Result<(), Fail> {
    Ok(assert_script_survives(&rt, rt.alloc(), &VERSION_1, OPENING)?)
}
