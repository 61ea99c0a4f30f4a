//! Worked examples of logs, points and cuts.
//!
//! Geometries: `SMALL` has one volume of two files of four blocks, in two stripes; `FLAT`, one file of four blocks, each in a stripe of its
//! own. `End` writes the pieces that are left of a cut, and ends it. `Wrong::Unfit`: a test doesn't go as it was written.
use crate::assertions::{assert_equal, assert_true};
use crate::checkpoint_trials::{FLAT, act_all, left_by_acts};
use crate::common::SMALL;
use affinity::Geometry;
use disk::MemDisk;
use harness::{
    Act, MIXED, OLD, OpenedDevice, Questions, Server, Wrong, assert_shown, device_with, expected,
    messages_of, open_device, torn,
};
use std::alloc::Global;
use std::process::Abort;
use std::test::Fail;

/// The device that these acts leave of a new one, after a crash that leaves what was synced.
fn crashed_after(alloc: Global, numbers: [u16; 8], acts: &[Act]) -> Result<MemDisk, Wrong> {
    let device = left_by_acts(alloc, device_with(alloc, numbers, &[])?, acts)?;
    Ok(device.crash(torn(alloc, OLD)?))
}

/// Asserts that the device holds what these lines lead to. Gives the device as its opening leaves it.
fn assert_found(
    rt: &impl Abort,
    alloc: Global,
    numbers: [u16; 8],
    device: MemDisk,
    lines: &[&str],
) -> Result<MemDisk, Wrong> {
    let Ok(g) = Geometry::new(numbers) else {
        return Err(Wrong::Unfit);
    };
    let questions = Questions::new(alloc, &g)?;
    let (found, device) = open_device(alloc, device, &questions)?;
    let wanted = OpenedDevice::Answers(expected(alloc, &g, lines, &questions)?);
    assert_equal(rt, found, wanted);
    Ok(device)
}

/// A record that is logged while a cut is in progress, so in the other half.
const BEHIND: [Act; 3] = [
    Act::Log(&["makevol 0 0"]),
    Act::Cut,
    Act::Log(&["create 0 0 0"]),
];

/// The same, and the cut is ended.
const ENDED: [Act; 4] = [
    Act::Log(&["makevol 0 0"]),
    Act::Cut,
    Act::Log(&["create 0 0 0"]),
    Act::End,
];

/// Asserts that after these acts and a crash `inspect` reports this area and this many records, one volume and one file, and that once the
/// device is opened, both are there, area `opened` is named, and no record is in force.
fn assert_behind_a_cut(
    rt: &impl Abort,
    alloc: Global,
    acts: &[Act],
    area: usize,
    records: usize,
    opened: usize,
) -> Result<(), Wrong> {
    let device = crashed_after(alloc, SMALL, acts)?;
    let device = assert_shown(alloc, device, area, records, [1, 1, 0])?;
    let lines = ["makevol 0 0", "create 0 0 0"];
    let device = assert_found(rt, alloc, SMALL, device, &lines)?;
    assert_shown(alloc, device, opened, 0, [1, 1, 0])?;
    Ok(())
}

#[test]
fn records_behind_a_cut_are_there(rt: HostRuntime) -> Result<(), Fail> {
    // The first opening has named area 1, so the cut goes into area 0. It is ended by the next opening, or before by `Act::End`. The
    // checkpoint at the end of that opening goes into area 1.
    assert_behind_a_cut(&rt, rt.alloc(), &BEHIND, 1, 2, 1)?;
    assert_behind_a_cut(&rt, rt.alloc(), &ENDED, 0, 1, 1)?;
    Ok(())
}

/// Makes a volume with an empty file, and then a point.
const FILE: [Act; 3] = [
    Act::Log(&["makevol 0 0"]),
    Act::Log(&["create 0 0 0"]),
    Act::Point,
];

const WRITES: [&str; 3] = ["write 0 0 0 0 61", "write 0 0 0 1 62", "write 0 0 0 2 63"];

/// How many calls of a new `FLAT` device its opening and `FILE` take.
fn calls_of_file(alloc: Global) -> Result<u64, Wrong> {
    let device = left_by_acts(alloc, device_with(alloc, FLAT, &[])?, &FILE)?;
    Ok(device.calls())
}

/// This device after `FILE` was done on it and `WRITES` were not logged, as the device failed.
fn left_unlogged(alloc: Global, device: MemDisk) -> Result<MemDisk, Wrong> {
    let messages = messages_of(alloc, &WRITES)?;
    let Ok(mut server) = Server::open(alloc, device) else {
        return Err(Wrong::Unfit);
    };
    let is_made = act_all(alloc, &mut server, &FILE).is_ok();
    let is_unlogged = server.log(messages.as_slice()).is_err() && server.failed();
    let (device, _) = server.into_device();
    if is_made && is_unlogged {
        Ok(device)
    } else {
        Err(Wrong::Unfit)
    }
}

/// What three writes to a file leave where the device stopped at the write of their gates, which were torn: `MIXED` leaves 1, 77, 1 there,
/// so they are open, shut and open.
fn torn_writes(alloc: Global) -> Result<MemDisk, Wrong> {
    let mut device = device_with(alloc, FLAT, &[])?;
    device.stop_at(calls_of_file(alloc)?.saturating_add(3));
    let device = left_unlogged(alloc, device)?;
    Ok(device.crash(torn(alloc, MIXED)?))
}

#[test]
fn a_torn_batch_leaves_its_beginning(rt: HostRuntime) -> Result<(), Fail> {
    let alloc = rt.alloc();
    let lines = ["makevol 0 0", "create 0 0 0", "write 0 0 0 0 61"];
    let device = assert_found(&rt, alloc, FLAT, torn_writes(alloc)?, &lines)?;
    let more = [
        Act::Log(&["punch 0 0 0 0"]),
        Act::Log(&["write 0 0 0 3 64"]),
    ];
    let device = left_by_acts(alloc, device, &more)?;
    // The records behind the shut gate of the first incarnation are never in force, whatever is logged later.
    let device = device.crash(torn(alloc, OLD)?);
    let lines = ["makevol 0 0", "create 0 0 0", "write 0 0 0 3 64"];
    assert_found(&rt, alloc, FLAT, device, &lines)?;
    Ok(())
}

/// Acts, and how many pieces are left after each; none is given where no cut is in progress.
const PIECES: [(Act, Option<usize>); 22] = [
    // Into area 0, of which nothing is known: all three pieces are dirty.
    (Act::Cut, Some(3)),
    (Act::Piece, Some(2)),
    (Act::Piece, Some(1)),
    (Act::Piece, Some(0)),
    (Act::End, None),
    (Act::Log(&["makevol 0 0"]), None),
    (Act::Cut, Some(1)),
    (Act::Piece, Some(0)),
    (Act::End, None),
    (Act::Log(&["create 0 0 0"]), None),
    (Act::Log(&["write 0 0 0 0 61"]), None),
    // Into area 0, which lacks the volume too.
    (Act::Cut, Some(2)),
    (Act::Piece, Some(1)),
    (Act::Piece, Some(0)),
    (Act::End, None),
    // Nothing has changed, but area 1 lacks the file and its block.
    (Act::Cut, Some(2)),
    (Act::Piece, Some(1)),
    (Act::Piece, Some(0)),
    (Act::End, None),
    // Area 0 lacks nothing.
    (Act::Cut, Some(0)),
    (Act::Piece, Some(0)),
    (Act::End, None),
];

/// Whether this act leaves this many pieces. With none left, a piece doesn't call the device.
fn leaves_pieces(
    alloc: Global,
    server: &mut Server<MemDisk>,
    act: Act,
    pieces_left: Option<usize>,
) -> bool {
    let (before, was_left) = (server.counts(), server.pieces_left());
    let is_done = act_all(alloc, server, &[act]).is_ok();
    let is_idle = was_left == Some(0) && pieces_left == Some(0);
    is_done && server.pieces_left() == pieces_left && (!is_idle || server.counts() == before)
}

/// Whether both images have the same bytes. They lie at 4424 and 6632, and have 2208 bytes each.
fn has_equal_images(device: &MemDisk) -> bool {
    let first = device.bytes().get(4424..6632);
    first.is_some() && first == device.bytes().get(6632..8840)
}

#[test]
fn pieces_that_changed_are_left(rt: HostRuntime) -> Result<(), Fail> {
    let alloc = rt.alloc();
    let Ok(mut server) = Server::open(alloc, device_with(alloc, SMALL, &[])?) else {
        return Err(Wrong::Unfit.into());
    };
    for &(act, pieces_left) in &PIECES {
        assert_true(&rt, leaves_pieces(alloc, &mut server, act, pieces_left));
    }
    let (device, _) = server.into_device();
    let device = device.crash(torn(alloc, OLD)?);
    let device = assert_shown(alloc, device, 0, 0, [1, 1, 1])?;
    // No piece is dirty in either image, so each has the bytes of the state; those of image 1 are written anew by the next opening.
    assert_true(&rt, has_equal_images(&device));
    let lines = ["makevol 0 0", "create 0 0 0", "write 0 0 0 0 61"];
    let device = assert_found(&rt, alloc, SMALL, device, &lines)?;
    assert_true(&rt, has_equal_images(&device));
    Ok(())
}
