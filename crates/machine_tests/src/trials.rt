//! A machine on a device that fails, or stops and is torn, at any call of a run: at the opening, before a cut and while that is in
//! progress.
use crate::assertions::assert_equal;
use crate::steps::{SMALL, WHOLE, one, open_machine};
use affinity::Geometry;
use checkpoint::OpenFault;
use disk::MemDisk;
use harness::{
    Ended, OpenedDevice, Progress, Questions, Trial, Wrong, device_with, expected, messages_of,
    sweep,
};
use histories::{ArriveRefusal, CoreFault, Outcome, PointRefusal, Step};
use std::alloc::Global;
use std::test::Fail;

/// The changes (`SMALL` has one volume of two files, in two stripes): the first is logged before the cut, the second one while it is in
/// progress.
const CHANGES: [&str; 2] = ["makevol 0 0", "create 0 0 0"];

/// What follows both: the pieces of the cut, and its end.
const END: [Step; 4] = [Step::Piece, Step::Piece, Step::Piece, Step::Flip];

/// The steps of a machine, and the answers that may be found on its device: those of a server after the first m changes.
#[derive(Drop)]
struct Play {
    steps: Vec<Step>,
    questions: Questions,
    expected_answers: Vec<Vec<u8>>,
}

/// The steps of the whole run. `WHOLE` are those of one message after its arrival, from `Grant` to `Answer`.
fn steps(alloc: Global) -> Result<Vec<Step>, Wrong> {
    let mut steps = Vec::new(alloc);
    for message in messages_of(alloc, &CHANGES)?.as_slice() {
        if !steps.is_empty() {
            steps.push(Step::Cut)?;
        }
        steps.push(Step::Arrive(*message))?;
        steps.extend_from_slice(&WHOLE)?;
    }
    steps.extend_from_slice(&END)?;
    Ok(steps)
}

impl Play {
    fn new(alloc: Global) -> Result<Play, Wrong> {
        let Ok(g) = Geometry::new(SMALL) else {
            return Err(Wrong::Unfit);
        };
        let questions = Questions::new(alloc, &g)?;
        let mut expected_answers = Vec::new(alloc);
        for count in 0..=CHANGES.len() {
            let lines = CHANGES.get(..count).unwrap_or_default();
            expected_answers.push(expected(alloc, &g, lines, &questions)?)?;
        }
        Ok(Play {
            steps: steps(alloc)?,
            questions,
            expected_answers,
        })
    }
}

/// How far a run came in which the device failed at its opening. In a `Progress` the changes that a step logged without a fault are
/// `logged`, and `attempted` are these and the ones of a log step that failed.
const UNOPENED: Progress = Progress {
    logged: 0,
    attempted: 0,
    is_faultless: false,
};

/// How far a run has come after a step with this outcome. A `Log` step logs one change.
fn progress_after(progress: Progress, outcome: &Outcome) -> Progress {
    let Progress {
        logged,
        attempted,
        is_faultless,
    } = progress;
    match outcome {
        Outcome::Logged(1) => Progress {
            logged: logged.saturating_add(1),
            attempted: attempted.saturating_add(1),
            is_faultless,
        },
        Outcome::LogFault(CoreFault::Device) => Progress {
            logged,
            attempted: attempted.saturating_add(1),
            is_faultless: false,
        },
        Outcome::PointRefused(PointRefusal::Device) => Progress {
            logged,
            attempted,
            is_faultless: false,
        },
        _ => progress,
    }
}

/// Whether a step may have this outcome once the device has failed: it says so, or does nothing. No message is in flight then.
fn has_failed_before(outcome: &Outcome) -> bool {
    match outcome {
        Outcome::Failed
        | Outcome::Idle
        | Outcome::ArriveRefused(ArriveRefusal::Failed)
        | Outcome::LogFault(CoreFault::Failed)
        | Outcome::PointRefused(PointRefusal::Failed) => true,
        _ => false,
    }
}

impl Trial for Play {
    fn questions(&self) -> &Questions {
        &self.questions
    }

    fn device(&self, alloc: Global) -> Result<MemDisk, Wrong> {
        device_with(alloc, SMALL, &[])
    }

    fn run(&self, alloc: Global, device: MemDisk) -> Result<Ended, Wrong> {
        // One slot, one hand. `one` gives the outcome of a step.
        match open_machine(alloc, device, 1, 1) {
            Ok(mut machine) => {
                let mut progress = Progress {
                    is_faultless: true,
                    ..UNOPENED
                };
                let mut stays_failed = true;
                for step in self.steps.as_slice() {
                    let outcome = one(&mut machine, *step);
                    stays_failed = stays_failed
                        && (progress.is_faultless || has_failed_before(&outcome));
                    progress = progress_after(progress, &outcome);
                }
                let device = machine.into_core().into_disk();
                if !stays_failed {
                    return Err(Wrong::Unfit);
                }
                Ok(Ended { device, progress })
            }
            Err((device, OpenFault::Device)) => Ok(Ended {
                device,
                progress: UNOPENED,
            }),
            // The trial didn't go as it was written.
            Err(_) => Err(Wrong::Unfit),
        }
    }

    fn allows(&self, progress: &Progress, found: &OpenedDevice) -> bool {
        let OpenedDevice::Answers(found) = found else {
            return false;
        };
        let expected_answers = self.expected_answers.iter().enumerate();
        let mut allowed = expected_answers.filter(|(count, _)| {
            progress.logged <= *count && *count <= progress.attempted
        });
        allowed.any(|(_, answers)| answers == found)
    }
}

/// Opening syncs, reads the header, the root byte, the head of an image, three pieces, a chain byte and the gates, and makes a point, of
/// three writes and three syncs.
const OPENING: u64 = 9 + 6;

/// A log step is two writes and two syncs.
const LOG: u64 = 4;

/// A cut is two writes and two syncs, three pieces, and a sync, a write and a sync at its end.
const CUT: u64 = 4 + 3 + 3;

/// Whichever call of the device fails, the steps after it say so; what was logged is there, and what was being logged may be.
#[test]
fn a_change_behind_a_cut_survives(rt: HostRuntime) -> Result<(), Fail> {
    // `sweep` makes a run for each call that may fail, and gives how many calls one makes without a fault.
    let calls = sweep(rt.alloc(), &Play::new(rt.alloc())?)?;
    assert_equal(&rt, calls, OPENING + 2 * LOG + CUT);
    Ok(())
}
