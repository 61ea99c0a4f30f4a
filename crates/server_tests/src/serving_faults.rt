//! Servers on devices that fail at any one call, or stop there and are torn by a crash after that. They are small (`SMALL`: one volume of
//! two files of four blocks in two stripes, and four records in a half of the log). There are `KINDS` kinds of crash; `torn` gives what
//! each leaves at the unsynced offsets, and `expected` what the serial server answers to questions after some changes.
use crate::assertions::assert_true;
use crate::serving_common::{ALL_AT_ONCE, End, Left, SMALL, Way, session};
use crate::serving_noting::Notes;
use affinity::Geometry;
use checkpoint::OpenFault;
use disk::MemDisk;
use harness::{
    Crash, KINDS, OpenedDevice, Questions, Seen, Wrong, device_with, expected, open_device, reopen,
    torn,
};
use serving::ServeFault;
use std::alloc::Global;
use std::sync::Wait;
use std::test::Fail;
use std::thread::Threads;
use workers::OpenGate;

/// Changes, each of which is done after those before it. Two that follow each other are related, but for those at 2 and 3, and at 5 and 6;
/// the one at 4 is related to all of these four.
const CHANGES: [&str; 10] = [
    "makevol 0 0",
    "create 0 0 0",
    "write 0 0 0 0 61",
    "write 0 0 0 1 62",
    "create 0 0 1",
    "write 0 0 1 0 63",
    "write 0 0 0 2 64",
    "delete 0 0 1",
    "seal 0 0",
    "unseal 0 0",
];

/// Orders in which they may be logged. Two more are possible, in which only one of the two pairs is swapped: after each number of changes
/// these have a state that one of the orders here has.
const ORDERS: [[usize; 10]; 2] = [
    [0, 1, 2, 3, 4, 5, 6, 7, 8, 9],
    [0, 1, 3, 2, 4, 6, 5, 7, 8, 9],
];

/// Some changes, and what a server answers to the questions after them.
#[derive(Drop)]
struct Known {
    /// A bit mask of the changes: bit i for the one at i in `CHANGES`.
    changes: u32,
    replies: Vec<u8>,
}

/// A device that recovers to a prefix of the changes and on which the others are served, and what may be found on it.
#[derive(Drop)]
struct Play {
    /// To how many of the changes the device recovers.
    recovered_changes: usize,
    /// The other changes, as the input.
    lines: Vec<u8>,
    /// The device before anything is served on it.
    initial_bytes: Vec<u8>,
    questions: Questions,
    /// What is known after the first 0 to 10 changes, for each of the `ORDERS`.
    known: Vec<Known>,
}

/// What is known after these changes (indices in `CHANGES`) in this order.
fn known_after(
    alloc: Global,
    g: &Geometry,
    order: &[usize],
    questions: &Questions,
) -> Result<Known, Wrong> {
    let mut lines = Vec::new(alloc);
    let mut changes = 0;
    for index in order {
        let Some(line) = CHANGES.get(*index) else {
            return Err(Wrong::Unfit);
        };
        lines.push(*line)?;
        changes |= mask_of_first(*index + 1) ^ mask_of_first(*index);
    }
    let replies = expected(alloc, g, lines.as_slice(), questions)?;
    Ok(Known { changes, replies })
}

/// The bit mask of the first `count` changes.
fn mask_of_first(count: usize) -> u32 {
    let mut sum = 0u32;
    for _ in 0..count {
        sum = (sum << 1) | 1;
    }
    sum
}

impl Play {
    /// A play on a device that was formatted and has these patches set, so that it recovers to as many of the changes.
    fn new(
        alloc: Global,
        patches: &[(usize, u8)],
        recovered_changes: usize,
    ) -> Result<Play, Wrong> {
        let Ok(g) = Geometry::new(SMALL) else {
            return Err(Wrong::Unfit);
        };
        let mut play = Play {
            recovered_changes,
            lines: Vec::new(alloc),
            initial_bytes: device_with(alloc, SMALL, patches)?.bytes().to_vec(alloc)?,
            questions: Questions::new(alloc, &g)?,
            known: Vec::new(alloc),
        };
        for line in CHANGES.iter().skip(recovered_changes) {
            play.lines.extend_from_slice(line.as_bytes())?;
            play.lines.push(b'\n')?;
        }
        for &order in &ORDERS {
            for count in 0..=order.len() {
                let some = order.get(..count).unwrap_or_default();
                let known = known_after(alloc, &g, some, &play.questions)?;
                play.known.push(known)?;
            }
        }
        Ok(play)
    }

    /// Whether this may be found on the device after this many lines were written.
    fn allows(&self, acknowledged: usize, found: &OpenedDevice) -> bool {
        let OpenedDevice::Answers(replies) = found else {
            return false;
        };
        let acknowledged = mask_of_first(self.recovered_changes.saturating_add(acknowledged));
        let mut known = self.known.iter();
        known.any(|known| known.changes & acknowledged == acknowledged && known.replies == *replies)
    }

    /// Serves on a device that fails at the call of this crash (all is read and written at once, the streams don't fail). Returns how that
    /// went, and what the crash leaves.
    fn meet<T: Threads + Wait + Sync>(
        &self,
        rt: &T,
        alloc: Global,
        way: Way,
        crash: Crash,
    ) -> Result<Met, Wrong> {
        let mut device = MemDisk::of_bytes(alloc, self.initial_bytes.to_vec(alloc)?)?;
        let n = set_injected_fault(&mut device, crash);
        let notes = Notes::new();
        let lines = self.lines.as_slice();
        let left = session(
            rt,
            alloc,
            device,
            way,
            lines,
            ALL_AT_ONCE,
            &OpenGate,
            &notes,
        );
        let Left {
            device,
            end,
            output: _output,
        } = left;
        let is_faultless = device.calls() < n;
        // No call of the device follows the one that failed, even where the core that was given back is asked for more.
        let is_last = is_faultless || device.calls() == n;
        let is_reported = is_last
            && is_fault_reported(end, is_faultless)
            && only_synced_are_acknowledged(&notes, way);
        let acknowledged = notes.taken.get() as usize;
        let is_chained = acknowledged >= 2 && is_chained(device.bytes());
        let left = left_of(alloc, device, crash)?;
        if !is_reported {
            return Err(Wrong::Unreported(crash));
        }
        Ok(Met {
            is_faultless,
            is_chained,
            acknowledged,
            left,
        })
    }
}

/// The device that a crash leaves; where there is none (kind `KINDS`), one of the same bytes. No fault is injected into the device
/// returned.
fn left_of(alloc: Global, device: MemDisk, crash: Crash) -> Result<MemDisk, Wrong> {
    if crash.kind < KINDS {
        Ok(device.crash(torn(alloc, crash.kind)?))
    } else {
        Ok(MemDisk::of_bytes(alloc, device.bytes().to_vec(alloc)?)?)
    }
}

/// Makes the device stop at the call of this crash; if its kind is `KINDS`, that call alone fails. Returns the call's number.
fn set_injected_fault(device: &mut MemDisk, crash: Crash) -> u64 {
    let n = crash.call.max(1);
    if crash.kind < KINDS {
        device.stop_at(n);
    } else {
        device.fail_at(n);
    }
    n
}

/// Whether no reply was written before its record was synced, and at the end of the session fewer changes are synced without a written
/// reply than there are workers: each of these has overtaken a change that another worker had, whose reply comes before its own.
fn only_synced_are_acknowledged(notes: &Notes, way: Way) -> bool {
    let unacknowledged = notes.logged.get().saturating_sub(notes.taken.get());
    !notes.is_reply_early.get() && unacknowledged < way.workers as u64
}

/// What came of a session whose device was to fail.
#[derive(Drop)]
struct Met {
    /// It ended before the call that was to fail.
    is_faultless: bool,
    /// Two replies or more were written, and `is_chained` held of the device's bytes before the crash.
    is_chained: bool,
    /// How many replies were written.
    acknowledged: usize,
    /// The device after the crash, if there was one.
    left: MemDisk,
}

/// Whether a cut is in progress, and a record was logged since it began: the chain byte of the named half is 1, and the first gate of the
/// other half is open. Half 1 is named if the root byte, at 64, is 1. The chain bytes lie at 128 and 2276, the gates at 192 and 2340.
fn is_chained(bytes: &[u8]) -> bool {
    let (chain, gate) = if bytes.get(64) == Some(&1) {
        (2276, 192)
    } else {
        (128, 2340)
    };
    bytes.get(chain) == Some(&1) && bytes.get(gate) == Some(&1)
}

/// Whether a server may end so on a device that has not failed (`is_faultless`), or has failed.
fn is_fault_reported(end: End, is_faultless: bool) -> bool {
    match end {
        End::Whole => is_faultless,
        End::Unopened(why) => !is_faultless && why == OpenFault::Device,
        End::Fault(why) => !is_faultless && why == ServeFault::Device,
        End::IgnoresFault => false,
    }
}

/// More calls than a session has.
const MOST_CALLS: u64 = 1000;

/// What was found on the devices that were opened: those with the same bytes are opened once.
#[derive(Drop)]
struct Openings {
    seen: Vec<Seen>,
}

impl Openings {
    /// The index in `seen` of a device of these bytes.
    fn index_of(&self, bytes: &[u8]) -> Option<usize> {
        self.seen
            .iter()
            .position(|seen| seen.bytes.as_slice() == bytes)
    }

    /// Opens the device that a crash left, unless one with its bytes was opened before. That opening is also stopped at each of its calls,
    /// and what a second crash leaves is opened again (`harness::reopen`). Returns the index in `seen`.
    fn open(
        &mut self,
        alloc: Global,
        play: &Play,
        crash: Crash,
        left: MemDisk,
    ) -> Result<usize, Wrong> {
        if let Some(index) = self.index_of(left.bytes()) {
            return Ok(index);
        }
        let bytes = left.bytes().to_vec(alloc)?;
        let (found, _) = open_device(alloc, left, &play.questions)?;
        let seen = Seen { bytes, found };
        let index = self.seen.len();
        reopen(alloc, &play.questions, crash, &seen)?;
        self.seen.push(seen)?;
        Ok(index)
    }

    /// Whether this may be found on the device after this many lines were written.
    fn allows(
        &mut self,
        alloc: Global,
        play: &Play,
        crash: Crash,
        met: Met,
    ) -> Result<bool, Wrong> {
        let index = self.open(alloc, play, crash, met.left)?;
        let seen = self.seen.get(index);
        Ok(seen.is_some_and(|seen| play.allows(met.acknowledged, &seen.found)))
    }
}

/// Serves on a device with a fault at each of its calls in turn: for each kind of crash once with the device stopped there and then
/// crashed, and once with that call failing alone. What is found after that has to be allowed. One session at least has to be
/// `Met::is_chained`, else this fails with `Unfit`.
fn survives<T: Threads + Wait + Sync>(
    rt: &T,
    alloc: Global,
    way: Way,
    play: &Play,
) -> Result<(), Wrong> {
    let mut openings = Openings {
        seen: Vec::new(alloc),
    };
    let mut was_chained = false;
    for call in 1..MOST_CALLS {
        let mut is_faultless = false;
        for kind in 0..=KINDS {
            let crash = Crash { call, kind };
            let met = play.meet(rt, alloc, way, crash)?;
            is_faultless = met.is_faultless;
            was_chained = was_chained || met.is_chained;
            if !openings.allows(alloc, play, crash, met)? {
                return Err(Wrong::Found(crash));
            }
        }
        if is_faultless {
            return if was_chained {
                Ok(())
            } else {
                Err(Wrong::Unfit)
            };
        }
    }
    Err(Wrong::Endless)
}

/// A way with four slots, and a checkpoint after `every` records (0: only where the log is full).
fn way(workers: usize, every: u64) -> Way {
    Way {
        workers,
        slots: 4,
        every,
    }
}

#[test]
fn answers_of_one_worker_survive(rt: HostRuntime) -> Result<(), Fail> {
    let play = Play::new(rt.alloc(), &[], 0)?;
    for (workers, every) in [(1, 0), (1, 1)] {
        survives(&rt, rt.alloc(), way(workers, every), &play)?;
    }
    Ok(())
}

#[test]
fn answers_of_two_workers_survive(rt: HostRuntime) -> Result<(), Fail> {
    let play = Play::new(rt.alloc(), &[], 0)?;
    for (workers, every) in [(2, 0), (2, 1)] {
        survives(&rt, rt.alloc(), way(workers, every), &play)?;
    }
    Ok(())
}

const THREE: &[u8] = b"makevol 0 0\ncreate 0 0 0\nwrite 0 0 0 0 61\n";

const TWO_DONE: &[u8] = b"done\ndone\n";

/// Whether half 1 is named, and a record was logged in half 0 since a cut began: the root byte, the chain byte of half 1 and the first gate
/// of half 0 are 1.
fn is_chained_to_half_0(bytes: &[u8]) -> bool {
    [64, 2276, 192].iter().all(|at| bytes.get(*at) == Some(&1))
}

/// Serves three changes with one worker and a checkpoint (a cut) after each, on a device that stops at its n-th call. Returns whether that
/// call was made, and whether it ended the session after two replies were written, during a cut into area 0 since whose beginning a record
/// was logged.
fn stops_in_a_cut<T: Threads + Wait + Sync>(
    rt: &T,
    alloc: Global,
    n: u64,
) -> Result<(bool, bool), Wrong> {
    let mut device: MemDisk = device_with(alloc, SMALL, &[])?;
    let n = set_injected_fault(&mut device, Crash { call: n, kind: 0 });
    let notes = Notes::new();
    let left = session(
        rt,
        alloc,
        device,
        way(1, 1),
        THREE,
        ALL_AT_ONCE,
        &OpenGate,
        &notes,
    );
    let Left {
        device,
        end,
        output,
    } = left;
    let is_in_a_cut = end == End::Fault(ServeFault::Device) && is_chained_to_half_0(device.bytes());
    let has_sent_two = output.as_slice().starts_with(TWO_DONE);
    Ok((device.calls() >= n, is_in_a_cut && has_sent_two))
}

#[test]
fn a_device_stops_with_records_in_both_halves(rt: HostRuntime) -> Result<(), Fail> {
    let mut is_found = false;
    for n in 1..MOST_CALLS {
        let (is_met, is_in_a_cut) = stops_in_a_cut(&rt, rt.alloc(), n)?;
        is_found = is_found || is_in_a_cut;
        if !is_met {
            assert_true(&rt, is_found);
            return Ok(());
        }
    }
    Err(Wrong::Endless.into())
}

/// Patches of a formatted device, and to how many changes it then recovers. At 4424 lies the version of image 0, at 4488 its first piece,
/// at 128 the chain byte of half 0, at 192 and 2340 the first gates of both halves, at 196 and 2344 their first records. The first device
/// has an empty image of version 1. On the second a cut was in progress: such an image has the volume, half 0 the file, and half 1, which
/// is in force after it, the block.
const OLD_IMAGES: [(&[(usize, u8)], usize); 2] = [
    (&[(4424, 1)], 0),
    (
        &[
            (4424, 1),
            (4488, 1),
            (128, 1),
            (192, 1),
            (196, 3),
            (2340, 1),
            (2344, 7),
            (2352, 0x61),
        ],
        3,
    ),
];

#[test]
fn answers_behind_an_old_image_survive(rt: HostRuntime) -> Result<(), Fail> {
    for &(patches, recovered_changes) in &OLD_IMAGES {
        let play = Play::new(rt.alloc(), patches, recovered_changes)?;
        survives(&rt, rt.alloc(), way(1, 1), &play)?;
    }
    Ok(())
}
