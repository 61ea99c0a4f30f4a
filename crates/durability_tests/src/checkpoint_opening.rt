//! Devices that are opened, and such as are refused.
//!
//! Where the parts of the small device begin: format byte 0, magic 1, geometry 8 (records in a half: 22), root byte 64; half 0: chain byte
//! 128, gates 192, records (of 520 bytes) 196; half 1: the same at 2276, 2340, 2344; image 0: version 4424, the volume's piece 4488 (files
//! +8, label +16), the stripes' pieces 4552 and 5592; image 1: 6632; end 8840. A new device has no image 1. Version 1 of an image has no
//! labels.
//!
//! `SMALL` is the geometry of that device. `Wrong::Unfit`: a test doesn't go as it was written. `KINDS` is how many kinds of crash there
//! are, of which `torn` gives one by its number.
use crate::assertions::{assert_equal, assert_true};
use crate::checkpoint_trials::left_by_acts;
use crate::common::SMALL;
use affinity::Geometry;
use checkpoint::{OpenFault, inspect};
use disk::MemDisk;
use harness::{
    Act, Ended, KINDS, OpenedDevice, Progress, Questions, Server, Trial, Wrong, assert_shown,
    device_with, expected, open_device, sweep, torn,
};
use std::alloc::Global;
use std::process::Abort;
use std::test::Fail;

/// The bytes of a device that differ from a formatted one (offset and value), and why it is refused.
const REFUSED: [(&[(usize, u8)], OpenFault); 21] = [
    (&[(0, 0)], OpenFault::NotFormatted),
    (&[(1, 0)], OpenFault::NotFormatted),
    (&[(8, 5)], OpenFault::BadGeometry),
    (&[(24, 1)], OpenFault::BadGeometry),
    (&[(22, 5)], OpenFault::TooShort),
    (&[(64, 1)], OpenFault::BadVersion),
    (&[(4424, 0)], OpenFault::BadVersion),
    (&[(4424, 3)], OpenFault::BadVersion),
    (&[(4424, 9)], OpenFault::BadVersion),
    (&[(4425, 1)], OpenFault::BadVersion),
    (&[(4488, 2)], OpenFault::BadPiece(0)),
    (&[(4424, 1), (4488, 1), (4504, 1)], OpenFault::BadPiece(0)),
    (&[(4552, 1)], OpenFault::BadPiece(1)),
    (&[(5592, 2)], OpenFault::BadPiece(2)),
    (&[(128, 1), (2276, 1)], OpenFault::BadChain),
    (&[(192, 1)], OpenFault::BadRecord(0, 0)),
    (&[(192, 1), (196, 9)], OpenFault::BadRecord(0, 0)),
    (&[(192, 1), (196, 2)], OpenFault::BadRecord(0, 0)),
    (
        &[(192, 1), (193, 1), (196, 1), (716, 1)],
        OpenFault::BadRecord(0, 1),
    ),
    // The first fault in the order of the checks is reported.
    (&[(4488, 2), (128, 1), (2276, 1)], OpenFault::BadPiece(0)),
    (&[(128, 1), (2276, 1), (192, 1)], OpenFault::BadChain),
];

/// Asserts that `open` refuses this device with this fault, that `inspect` does so too, and that the bytes stay as they were.
fn assert_refused(
    rt: &impl Abort,
    alloc: Global,
    device: MemDisk,
    fault: OpenFault,
) -> Result<(), Wrong> {
    let bytes = device.bytes().to_vec(alloc)?;
    let device = match Server::open(alloc, device) {
        Ok(server) => {
            let _device = server.into_device();
            return Err(Wrong::Unfit);
        }
        Err((device, reported)) => {
            assert_equal(rt, reported, fault);
            device
        }
    };
    assert_equal(rt, device.bytes(), bytes.as_slice());
    let Err(e) = inspect(alloc, device) else {
        return Err(Wrong::Unfit);
    };
    assert_equal(rt, e.fault, fault);
    assert_equal(rt, e.disk.bytes(), bytes.as_slice());
    Ok(())
}

#[test]
fn damage_is_reported(rt: HostRuntime) -> Result<(), Fail> {
    for &(patches, fault) in &REFUSED {
        let device = device_with(rt.alloc(), SMALL, patches)?;
        assert_refused(&rt, rt.alloc(), device, fault)?;
    }
    Ok(())
}

#[test]
fn a_short_device_is_refused(rt: HostRuntime) -> Result<(), Fail> {
    let whole = device_with(rt.alloc(), SMALL, &[])?;
    for len in [127, 8839] {
        let bytes = whole.bytes().iter().take(len).copied();
        let device = MemDisk::of_bytes(rt.alloc(), bytes.collect(rt.alloc())?)?;
        assert_refused(&rt, rt.alloc(), device, OpenFault::TooShort)?;
    }
    Ok(())
}

/// The length of a device of zeros, the number of the call of it that fails, and what `open` reports. The sync comes before anything is
/// looked at. Then the length is tested, and one read shows that the device isn't formatted.
const SYNCED_FIRST: [(u64, u64, OpenFault); 4] = [
    (127, 1, OpenFault::Device),
    (127, 2, OpenFault::TooShort),
    (8840, 2, OpenFault::Device),
    (8840, 3, OpenFault::NotFormatted),
];

#[test]
fn the_sync_comes_first(rt: HostRuntime) -> Result<(), Fail> {
    for &(len, n, fault) in &SYNCED_FIRST {
        let mut device = MemDisk::new(rt.alloc(), len)?;
        device.fail_at(n.max(1));
        match Server::open(rt.alloc(), device) {
            Ok(server) => {
                let _device = server.into_device();
                return Err(Wrong::Unfit.into());
            }
            Err((_device, reported)) => assert_equal(&rt, reported, fault),
        }
    }
    Ok(())
}

/// Patches of a formatted device, messages that lead to the state to which it recovers, and the area that is named once it is opened. Area
/// 0 is named before (by a root byte other than 1, as in the second row); an opening names the other one, or 0 again if it finishes a cut
/// first.
const OPENED: [(&[(usize, u8)], &[&str], usize); 11] = [
    (&[], &[], 1),
    (&[(64, 7)], &[], 1),
    (&[(4424, 1)], &[], 1),
    (&[(4424, 1), (4488, 1)], &["makevol 0 0"], 1),
    (
        &[(4488, 1), (4504, 1)],
        &["makevol 0 0", "setlabel 0 0 01"],
        1,
    ),
    (&[(192, 1), (196, 1)], &["makevol 0 0"], 1),
    // A gate that isn't open ends the front.
    (&[(192, 77), (193, 1), (196, 1), (716, 1)], &[], 1),
    // The other half counts only if the chain byte of the named one is set.
    (&[(2340, 1), (2344, 1)], &[], 1),
    (&[(128, 1), (2340, 1), (2344, 1)], &["makevol 0 0"], 0),
    (&[(128, 1)], &[], 0),
    (
        &[
            (4424, 1),
            (4488, 1),
            (128, 1),
            (192, 1),
            (196, 3),
            (2340, 1),
            (2344, 5),
        ],
        &["makevol 0 0", "create 0 0 0", "seal 0 0"],
        0,
    ),
];

/// What a server that is opened on a device answers, and the device. Its log has room for all four records.
fn opened(
    rt: &impl Abort,
    alloc: Global,
    device: MemDisk,
    questions: &Questions,
) -> Result<(Vec<u8>, MemDisk), Wrong> {
    let Ok(mut server) = Server::open(alloc, device) else {
        return Err(Wrong::Unfit);
    };
    let answers = server.reply_lines(alloc, questions);
    let numbers = (server.failed(), server.pieces_left(), server.room());
    assert_equal(rt, numbers, (false, None, 4));
    let (device, _) = server.into_device();
    Ok((answers?, device))
}

/// Asserts that a formatted device with these patches is opened. It answers as a server after these lines; this area is named then, with an
/// image of version 2, and no record is in force.
fn assert_opened(
    rt: &impl Abort,
    alloc: Global,
    patches: &[(usize, u8)],
    lines: &[&str],
    area: usize,
) -> Result<(), Wrong> {
    let Ok(g) = Geometry::new(SMALL) else {
        return Err(Wrong::Unfit);
    };
    let questions = Questions::new(alloc, &g)?;
    let wanted = expected(alloc, &g, lines, &questions)?;
    let device = device_with(alloc, SMALL, patches)?;
    let (answers, device) = opened(rt, alloc, device, &questions)?;
    assert_equal(rt, answers, wanted);
    let image = if area == 0 { 4424 } else { 6632 };
    assert_equal(rt, device.bytes().get(64) == Some(&1), area == 1);
    assert_equal(rt, device.bytes().get(image), Some(&2));
    let Ok((shown, _)) = inspect(alloc, device) else {
        return Err(Wrong::Unfit);
    };
    let got = (shown.area, shown.records, shown.version);
    assert_equal(rt, got, (area, 0, 2));
    assert_equal(rt, shown.geometry, g);
    Ok(())
}

#[test]
fn a_recoverable_device_is_opened(rt: HostRuntime) -> Result<(), Fail> {
    for &(patches, lines, area) in &OPENED {
        assert_opened(&rt, rt.alloc(), patches, lines, area)?;
    }
    Ok(())
}

/// Patches that leave a cut in progress with a bad first record behind it; and two bytes of the volume's piece in image 1 after the
/// refusal: its made byte, and the first byte of its bitmap of files.
const BAD_BEHIND: [(&[(usize, u8)], [u8; 2]); 2] = [
    (&[(128, 1), (2340, 1)], [0, 0]),
    // Image 0 has the volume, and the record of half 0 makes its file 1.
    (
        &[(4488, 1), (128, 1), (192, 1), (196, 3), (199, 1), (2340, 1)],
        [1, 2],
    ),
];

/// The opening of such a device.
#[derive(Drop)]
struct RefusedOpening {
    questions: Questions,
    patches: &'static [(usize, u8)],
}

impl Trial for RefusedOpening {
    fn questions(&self) -> &Questions {
        &self.questions
    }

    fn device(&self, alloc: Global) -> Result<MemDisk, Wrong> {
        device_with(alloc, SMALL, self.patches)
    }

    fn run(&self, alloc: Global, device: MemDisk) -> Result<Ended, Wrong> {
        let (found, device) = open_device(alloc, device, &self.questions)?;
        let progress = Progress {
            logged: 0,
            attempted: 0,
            is_faultless: found != OpenedDevice::Refuses(OpenFault::Device),
        };
        Ok(Ended { device, progress })
    }

    fn allows(&self, _progress: &Progress, found: &OpenedDevice) -> bool {
        *found == OpenedDevice::Refuses(OpenFault::BadRecord(1, 0))
    }
}

/// Asserts: whichever call of an opening fails, or stops the device, which is then torn (`sweep` tries each), the next opening refuses the
/// device again. A refusal with no fault leaves area 1 named, with the state at the cut in its image: `volume` is two bytes of the volume's
/// piece there, the made byte and the first one of the bitmap of files.
fn assert_stays_refused(
    rt: &impl Abort,
    alloc: Global,
    trial: &RefusedOpening,
    volume: [u8; 2],
) -> Result<(), Wrong> {
    sweep(alloc, trial)?;
    let Ended { device, progress } = trial.run(alloc, trial.device(alloc)?)?;
    let [made, files] = volume;
    assert_true(rt, progress.is_faultless);
    assert_equal(rt, device.bytes().get(64), Some(&1));
    assert_equal(rt, device.bytes().get(6632), Some(&2));
    assert_equal(rt, device.bytes().get(6632 + 64), Some(&made));
    assert_equal(rt, device.bytes().get(6632 + 72), Some(&files));
    assert_refused(rt, alloc, device, OpenFault::BadRecord(1, 0))
}

#[test]
fn a_bad_record_behind_a_cut_stays_one(rt: HostRuntime) -> Result<(), Fail> {
    for &(patches, volume) in &BAD_BEHIND {
        let questions = Questions::new(rt.alloc(), &Geometry::new(SMALL)?)?;
        let trial = RefusedOpening { questions, patches };
        assert_stays_refused(&rt, rt.alloc(), &trial, volume)?;
    }
    Ok(())
}

/// The test passes also if any one request for memory in it is refused.
#[test]
fn a_device_is_opened_at_the_next_try(rt: HostRuntime) -> Result<(), Fail> {
    let alloc = rt.alloc();
    let device = device_with(alloc, SMALL, &[(192, 1), (196, 1)])?;
    let bytes = device.bytes().to_vec(alloc)?;
    let server = match Server::open(alloc, device) {
        Ok(server) => server,
        Err((device, fault)) => {
            assert_equal(&rt, fault, OpenFault::OutOfMemory);
            assert_equal(&rt, device.bytes(), bytes.as_slice());
            // A sync, and a read of the header.
            assert_true(&rt, device.calls() <= 2);
            match Server::open(alloc, device) {
                Ok(server) => server,
                Err((_, fault)) => return Err(fault.into()),
            }
        }
    };
    let (device, _) = server.into_device();
    assert_shown(alloc, device, 1, 0, [1, 0, 0])?;
    Ok(())
}

/// How many bytes a longer device has behind its parts.
const BEHIND: usize = 600;

/// What is done on a longer device: each kind of call of a journal; `End` writes the pieces that are left of a cut, and ends it.
const ALL_CALLS: [Act; 7] = [
    Act::Log(&["makevol 0 0"]),
    Act::Point,
    Act::Log(&["create 0 0 0", "write 0 0 0 0 61"]),
    Act::Cut,
    Act::Log(&["write 0 0 0 1 62"]),
    Act::Piece,
    Act::End,
];

/// The formatted device, and `BEHIND` bytes of 9 behind it.
fn longer_device(alloc: Global) -> Result<MemDisk, Wrong> {
    let device = device_with(alloc, SMALL, &[])?;
    let mut bytes = device.bytes().to_vec(alloc)?;
    bytes.extend_from_slice(&[9; BEHIND])?;
    Ok(MemDisk::of_bytes(alloc, bytes)?)
}

/// What a longer device has behind its parts stays, whatever is done on it and however it is torn then.
#[test]
fn what_lies_behind_the_parts_stays(rt: HostRuntime) -> Result<(), Fail> {
    let alloc = rt.alloc();
    for kind in 0..KINDS {
        let device = left_by_acts(alloc, longer_device(alloc)?, &ALL_CALLS)?;
        let device = device.crash(torn(alloc, kind)?);
        assert_equal(
            &rt,
            device.bytes().get(8840..),
            Some([9; BEHIND].as_slice()),
        );
    }
    Ok(())
}
