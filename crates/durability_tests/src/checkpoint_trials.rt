//! Trials of a server over a journal: what is done to it is a script.
use affinity::Geometry;
use checkpoint::OpenFault;
use disk::MemDisk;
use harness::{
    Act, Ended, Halt, OpenedDevice, Progress, Questions, Server, Trial, Wrong, device_with,
    expected, messages_of,
};
use oplog::LogFault;
use std::alloc::Global;

/// One volume of one file of four blocks, each in a stripe of its own, and eight records in a half. In order: aggregates, volumes, stripes,
/// width, files, blocks, quota, records in a half.
pub(crate) const FLAT: [u16; 8] = [1, 1, 4, 1, 1, 4, 1, 8];

/// Does these things to a server, all of which go well. `Wrong::Unfit`, here and below: it didn't go as it was written.
pub(crate) fn act_all(
    alloc: Global,
    server: &mut Server<MemDisk>,
    acts: &[Act],
) -> Result<(), Wrong> {
    for act in acts {
        let messages = messages_of(alloc, act.changes())?;
        if server.act(act, messages.as_slice()).is_err() {
            return Err(Wrong::Unfit);
        }
    }
    Ok(())
}

/// The device after a server on it has done these things. The server is taken apart on each path, since each place where one is dropped
/// costs the prover many seconds.
pub(crate) fn left_by_acts(alloc: Global, device: MemDisk, acts: &[Act]) -> Result<MemDisk, Wrong> {
    let Ok(mut server) = Server::open(alloc, device) else {
        return Err(Wrong::Unfit);
    };
    let end = act_all(alloc, &mut server, acts);
    let (device, _) = server.into_device();
    end?;
    Ok(device)
}

/// A device, what leads to the state to which it recovers, and what is done to a server on it.
#[derive(Drop)]
pub(crate) struct Script {
    /// The geometry, in the order of `FLAT`.
    pub(crate) numbers: [u16; 8],

    /// The bytes that differ from those of a newly formatted device: offset and value.
    pub(crate) patches: &'static [(usize, u8)],

    /// Lines that lead to the state to which the device recovers: they are not run on it.
    pub(crate) recovered: &'static [&'static str],
    pub(crate) acts: &'static [Act],
}

/// A script, and the answers that may be found on its device: those of a server after a prefix of the changes of its acts.
#[derive(Drop)]
pub(crate) struct Play<'a> {
    script: &'a Script,
    questions: Questions,
    expected_answers: Vec<Vec<u8>>,
}

impl Play<'_> {
    pub(crate) fn new(alloc: Global, script: &Script) -> Result<Play<'_>, Wrong> {
        let Ok(g) = Geometry::new(script.numbers) else {
            return Err(Wrong::Unfit);
        };
        let questions = Questions::new(alloc, &g)?;
        let mut lines = script.recovered.to_vec(alloc)?;
        let mut expected_answers = Vec::new(alloc);
        expected_answers.push(expected(alloc, &g, lines.as_slice(), &questions)?)?;
        for act in script.acts {
            for line in act.changes() {
                lines.push(*line)?;
                expected_answers.push(expected(alloc, &g, lines.as_slice(), &questions)?)?;
            }
        }
        Ok(Play {
            script,
            questions,
            expected_answers,
        })
    }
}

/// How far a script came, and whether no call of the device failed. `logged` changes were logged without a fault; `attempted` are these and
/// the ones of the batch that failed.
fn progress_of(logged: usize, attempted: usize, is_faultless: bool) -> Progress {
    Progress {
        logged,
        attempted,
        is_faultless,
    }
}

/// Does all of a script, until the device fails.
fn progress_in(
    alloc: Global,
    server: &mut Server<MemDisk>,
    acts: &[Act],
) -> Result<Progress, Wrong> {
    let mut logged = 0usize;
    for act in acts {
        let messages = messages_of(alloc, act.changes())?;
        let attempted = logged.saturating_add(messages.len());
        match server.act(act, messages.as_slice()) {
            Ok(()) => logged = attempted,
            Err(Halt::Failed(LogFault::Device)) if server.failed() => return Ok(progress_of(
                logged, attempted, false,
            )),
            Err(_) => return Err(Wrong::Unfit),
        }
    }
    Ok(progress_of(logged, logged, true))
}

impl Trial for Play<'_> {
    fn questions(&self) -> &Questions {
        &self.questions
    }

    fn device(&self, alloc: Global) -> Result<MemDisk, Wrong> {
        device_with(alloc, self.script.numbers, self.script.patches)
    }

    fn run(&self, alloc: Global, device: MemDisk) -> Result<Ended, Wrong> {
        match Server::open(alloc, device) {
            Ok(mut server) => {
                let progress = progress_in(alloc, &mut server, self.script.acts);
                let (device, _) = server.into_device();
                Ok(Ended {
                    device,
                    progress: progress?,
                })
            }
            Err((device, OpenFault::Device)) => Ok(Ended {
                device,
                progress: progress_of(0, 0, false),
            }),
            Err(_) => Err(Wrong::Unfit),
        }
    }

    fn allows(&self, progress: &Progress, found: &OpenedDevice) -> bool {
        let OpenedDevice::Answers(found) = found else {
            return false;
        };
        for (count, answers) in self.expected_answers.iter().enumerate() {
            let is_allowed = progress.logged <= count && count <= progress.attempted;
            if is_allowed && answers == found {
                return true;
            }
        }
        false
    }
}
