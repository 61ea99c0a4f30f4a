//! Trials on a device that fails, stops and crashes at each of its calls.
ghost use Rattle.std.specs.Prelude.{◌<◌};

use crate::crashes::{KINDS, torn};
use crate::expected_answers::Questions;
use crate::opened_device::{OpenedDevice, open_device};
use checkpoint::{OpenFault, Shown, inspect};
use disk::MemDisk;
use message::{LONGEST_REPLY, write_reply};
use std::alloc::{AllocError, AllocFailed, Global};

/// More calls of the device than a trial makes.
const MOST_CALLS: u64 = 10_000;

/// How far a trial came.
#[derive(Clone, Copy)]
pub struct Progress {
    /// How many of its changes were logged by a call that returned `Ok`: whatever a crash leaves has these.
    pub logged: usize,

    /// How many of its changes a crash may leave: those, and the ones of the call that failed.
    pub attempted: usize,

    /// Whether it ended with no fault of the device.
    pub is_faultless: bool,
}

/// What a trial leaves.
#[derive(Drop)]
pub struct Ended {
    /// The device, in whatever state it is.
    pub device: MemDisk,
    pub progress: Progress,
}

/// Something that is done on a device which may fail at any of its calls.
pub trait Trial {
    /// What the server that is found on the device is asked.
    fn questions(&self) -> &Questions;

    /// The device on which it begins.
    fn device(&self, alloc: Global) -> Result<MemDisk, Wrong>;

    /// Does it on this device, until it ends or a call reports that the device has failed.
    fn run(&self, alloc: Global, device: MemDisk) -> Result<Ended, Wrong>;

    /// Whether this may be found on the device after this much progress, with or without a crash.
    fn allows(&self, progress: &Progress, found: &OpenedDevice) -> bool;
}

/// A fault of a device and the crash after it.
#[derive(Clone, Copy, Debug)]
pub struct Crash {
    /// The number of the call that failed, from 1 on. Before a crash all later calls failed, too: the device stopped.
    pub call: u64,

    /// The kind of crash: a number below `KINDS`, which is how many there are (`torn` gives what each leaves at unsynced offsets). `KINDS`
    /// itself: there was no crash, and later calls worked.
    pub kind: usize,
}

/// What is wrong with a trial.
#[derive(Clone, Copy, Debug)]
pub enum Wrong {
    /// There was no memory.
    OutOfMemory,

    /// The trial didn't go as it was written: a line is no message or isn't done, or a call or an opening was refused though the device
    /// didn't fail. The trial is wrong, or the server is.
    Unfit,

    /// It isn't over after as many calls or tries as a test waits for.
    Endless,

    /// A device fault was not reported, or one was reported that did not happen.
    Unreported(Crash),

    /// After the crash something was found that isn't allowed.
    Found(Crash),

    /// After the crash `inspect` and `open` disagree.
    Shown(Crash),

    /// `inspect` reports this of a device, and should report something else.
    Reported(Shown),

    /// The opening after the first crash was stopped at the call of the second one. It didn't report that, or something else is found after
    /// the second crash than without it.
    Reopened(Crash, Crash),
}

impl From<AllocError> for Wrong {
    fn from(_e: AllocError) -> Wrong {
        Wrong::OutOfMemory
    }
}

impl<T: Drop> From<AllocFailed<T>> for Wrong {
    fn from(_e: AllocFailed<T>) -> Wrong {
        Wrong::OutOfMemory
    }
}

/// A device of these bytes.
fn device_of(alloc: Global, bytes: &[u8]) -> Result<MemDisk, AllocError> {
    MemDisk::of_bytes(alloc, bytes.to_vec(alloc)?)
}

/// Whether the summary that `inspect` reports is what an opened server answers to its first question.
fn agrees(shown: &Shown, reply_lines: &[u8]) -> bool {
    let mut line = [0; LONGEST_REPLY];
    let size = write_reply(&shown.summary, &mut line);
    reply_lines.starts_with(&line[..size])
}

/// What `inspect` reports of a device of these bytes.
fn inspected(alloc: Global, bytes: &[u8]) -> Result<Result<Shown, OpenFault>, AllocError> {
    match inspect(alloc, device_of(alloc, bytes)?) {
        Ok((shown, _)) => Ok(Ok(shown)),
        Err(e) => Ok(Err(e.fault)),
    }
}

/// Whether `inspect` agrees with what `open` found on a device: on its bytes before the opening, and on those after it (`opened`), in
/// which no record may be in force and the image has to have version 2. If the device is refused, it has to be for the same fault.
fn is_shown(
    alloc: Global,
    bytes: &[u8],
    opened: &[u8],
    found: &OpenedDevice,
) -> Result<bool, AllocError> {
    let before = inspected(alloc, bytes)?;
    let after = inspected(alloc, opened)?;
    Ok(match (before, after, found) {
        (Ok(before), Ok(after), OpenedDevice::Answers(reply_lines)) => {
            // The opening has made a checkpoint: then all is in the image.
            let is_new = after.records == 0 && after.version == 2;
            is_new
                && agrees(&before, reply_lines.as_slice())
                && agrees(&after, reply_lines.as_slice())
        }
        (Err(before), _, OpenedDevice::Refuses(fault)) => before == *fault,
        _ => false,
    })
}

/// Fails with `Reopened` unless the same was found again.
fn same_again(is_same: bool, first: Crash, second: Crash) -> Result<(), Wrong> {
    if is_same {
        Ok(())
    } else {
        Err(Wrong::Reopened(first, second))
    }
}

/// Opens a device of the bytes that the first crash left; the device stops at the call of the second crash. Returns it as the opening
/// leaves it. None where the opening was over before that call: then it has to find the same as without a stop.
fn stopped(
    questions: &Questions,
    alloc: Global,
    first: Crash,
    second: Crash,
    seen: &Seen,
) -> Result<Option<MemDisk>, Wrong>
    requires { 0 < second.call }
{
    let mut device = device_of(alloc, seen.bytes.as_slice())?;
    device.stop_at(second.call);
    let (found, device) = open_device(alloc, device, questions)?;
    if device.calls() < second.call {
        same_again(found == seen.found, first, second)?;
        return Ok(None);
    }
    same_again(
        found == OpenedDevice::Refuses(OpenFault::Device),
        first,
        second,
    )?;
    Ok(Some(device))
}

/// Opens the device that the second crash left, unless it has the same bytes as after the first. What is found has to be what was found
/// after the first.
fn reopen_behind(
    questions: &Questions,
    alloc: Global,
    first: Crash,
    second: Crash,
    seen: &Seen,
    device: MemDisk,
) -> Result<(), Wrong> {
    if device.bytes() == seen.bytes.as_slice() {
        return Ok(());
    }
    let (again, _) = open_device(alloc, device, questions)?;
    same_again(again == seen.found, first, second)
}

/// Opens a device of the bytes that the first crash left, stopped at its n-th call, and opens it again after a second crash of each kind.
/// Returns whether the first of these openings was over, with a server or a refusal, before that call.
fn reopen_at(
    alloc: Global,
    questions: &Questions,
    first: Crash,
    seen: &Seen,
    n: u64,
) -> Result<bool, Wrong>
    requires { 0 < n }
{
    for kind in 0..KINDS {
        let second = Crash { call: n, kind };
        let Some(device) = stopped(questions, alloc, first, second, seen)? else {
            return Ok(true);
        };
        let device = device.crash(torn(alloc, kind)?);
        reopen_behind(questions, alloc, first, second, seen, device)?;
    }
    Ok(false)
}

/// Opens a device of the bytes that the first crash left (`seen.bytes`), stopped at each of its calls in turn, and opens it again after a
/// second crash of each kind: `seen.found` has to be found each time.
pub fn reopen(
    alloc: Global,
    questions: &Questions,
    first: Crash,
    seen: &Seen,
) -> Result<(), Wrong> {
    for n in 1..MOST_CALLS {
        if reopen_at(alloc, questions, first, seen, n)? {
            return Ok(());
        }
    }
    Err(Wrong::Endless)
}

/// The bytes that a crash left, and what is found on them.
#[derive(Drop)]
pub struct Seen {
    pub bytes: Vec<u8>,
    pub found: OpenedDevice,
}

/// What is found on the device that a crash left. `inspect` has to agree. The opening is also stopped at each of its calls, and what a
/// second crash leaves is opened again (`reopen`).
fn opened(
    alloc: Global,
    questions: &Questions,
    first: Crash,
    device: MemDisk,
) -> Result<Seen, Wrong> {
    let bytes = device.bytes().to_vec(alloc)?;
    let (found, device) = open_device(alloc, device, questions)?;
    if !is_shown(alloc, bytes.as_slice(), device.bytes(), &found)? {
        return Err(Wrong::Shown(first));
    }
    let seen = Seen { bytes, found };
    reopen(alloc, questions, first, &seen)?;
    Ok(seen)
}

/// A trial, and what was found so far on the devices that its crashes left: those with the same bytes are opened once.
#[derive(Drop)]
struct Stops<'a, T: Trial> {
    alloc: Global,
    trial: &'a T,
    seen: Vec<Seen>,
}

impl<T: Trial> Stops<'_, T> {
    /// Where a device of these bytes was opened already: whether what was found on it is allowed. None where none was.
    fn seen_before(&self, progress: &Progress, bytes: &[u8]) -> Option<bool> {
        let mut seen = self.seen.iter();
        let seen = seen.find(|seen| seen.bytes.as_slice() == bytes)?;
        Some(self.trial.allows(progress, &seen.found))
    }

    /// Fails unless what is found on the device that a crash left is allowed.
    fn look(&mut self, progress: &Progress, first: Crash, device: MemDisk) -> Result<(), Wrong> {
        match self.seen_before(progress, device.bytes()) {
            Some(true) => Ok(()),
            Some(false) => Err(Wrong::Found(first)),
            None => {
                let seen = opened(self.alloc, self.trial.questions(), first, device)?;
                self.judge(progress, first, &seen.found)?;
                Ok(self.seen.push(seen)?)
            }
        }
    }

    /// Fails unless this, which was found, is allowed.
    fn judge(&self, progress: &Progress, first: Crash, found: &OpenedDevice) -> Result<(), Wrong> {
        if self.trial.allows(progress, found) {
            Ok(())
        } else {
            Err(Wrong::Found(first))
        }
    }

    /// Makes the trial on a device of which this call fails. `Unreported` where that isn't reported, or where a fault is
    /// reported though that call was not made.
    fn make(&self, first: Crash) -> Result<Ended, Wrong>
        requires { 0 < first.call }
    {
        let mut device = self.trial.device(self.alloc)?;
        if first.kind < KINDS {
            device.stop_at(first.call);
        } else {
            device.fail_at(first.call);
        }
        let ended = self.trial.run(self.alloc, device)?;
        if ended.progress.is_faultless == (ended.device.calls() < first.call) {
            Ok(ended)
        } else {
            Err(Wrong::Unreported(first))
        }
    }

    /// Makes the trial on a device that stops at this call, and crashes the device. Returns whether the trial was over before that call.
    fn crash(&mut self, first: Crash) -> Result<bool, Wrong>
        requires { 0 < first.call }
    {
        let Ended { device, progress } = self.make(first)?;
        let device = device.crash(torn(self.alloc, first.kind)?);
        self.look(&progress, first, device)?;
        Ok(progress.is_faultless)
    }

    /// Calls `crash` with each kind of crash. Returns whether the trial was over before that call of the device.
    fn stop(&mut self, call: u64) -> Result<bool, Wrong>
        requires { 0 < call }
    {
        let mut is_faultless = false;
        for kind in 0..KINDS {
            is_faultless = self.crash(Crash { call, kind })?;
        }
        Ok(is_faultless)
    }

    /// Makes the trial on a device of which only this call fails, and opens the device without a crash.
    fn fail(&mut self, call: u64) -> Result<(), Wrong>
        requires { 0 < call }
    {
        let first = Crash { call, kind: KINDS };
        let Ended { device, progress } = self.make(first)?;
        let (found, _) = open_device(self.alloc, device, self.trial.questions())?;
        self.judge(&progress, first, &found)
    }
}

/// Makes a trial for each call of the device: once with that call failing alone, and once for each kind of crash, with the device stopped
/// at that call and then crashed. What is left is opened. After a crash the opening is also stopped at each of its calls, and what a second
/// crash of each kind leaves is opened again. Returns how many calls of the device the trial makes without a fault.
pub fn sweep<T: Trial>(alloc: Global, trial: &T) -> Result<u64, Wrong> {
    let mut stops = Stops {
        alloc,
        trial,
        seen: Vec::new(alloc),
    };
    for n in 1..MOST_CALLS {
        if stops.stop(n)? {
            return Ok(n - 1);
        }
        stops.fail(n)?;
    }
    Err(Wrong::Endless)
}
