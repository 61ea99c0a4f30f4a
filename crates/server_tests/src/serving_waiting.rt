//! A job is kept waiting in its worker until the output is written to: what is dispatched meanwhile if a checkpoint is due, and what is
//! still logged if the output fails. One is kept waiting until the dispatcher sleeps. Hooks of the server (`Gate`): a worker calls `before`
//! just before it runs a job, the dispatcher `answered` just after a message is answered.
use crate::assertions::{assert_count, assert_ended, assert_true};
use crate::serving_common::{ALL_AT_ONCE, End, Left, SMALL, Streams, Way, serve_lines, session};
use crate::serving_noting::{Flag, Notes};
use checkpoint::inspect;
use disk::MemDisk;
use harness::{Wrong, device_with};
use serving::ServeFault;
use std::alloc::Global;
use std::process::Abort;
use std::sync::Wait;
use std::test::Fail;
use std::thread::Threads;
use std::{fs, thread};
use workers::Gate;

/// How often a worker looks whether it may go on, before it gives up.
const MOST_TRIES: u32 = 1_000_000;

/// Keeps job 1 waiting in its worker until the output is written to. By then message 0 is answered, and the dispatcher has dispatched what
/// may be dispatched after that.
#[derive(Drop)]
struct Delaying<'a> {
    notes: &'a Notes,
    gave_up: Flag,
    /// Whether job 2 ran before a cut had begun.
    ran_before_cut: Flag,
    /// Whether message 1 was answered.
    answered: Flag,
}

impl Delaying<'_> {
    /// Waits until the output is written to.
    fn wait(&self) {
        for _ in 0..MOST_TRIES {
            if self.notes.writes.get() > 0 {
                return;
            }
            thread::yield_now();
        }
        self.gave_up.set();
    }
}

impl Gate for Delaying<'_> {
    fn before(&self, ticket: u64) {
        match ticket {
            1 => self.wait(),
            2 if self.notes.cuts.get() == 0 => self.ran_before_cut.set(),
            _ => {}
        }
    }

    fn answered(&self, ticket: u64) {
        if ticket == 1 {
            self.answered.set();
        }
    }
}

/// What was seen of three writes: message 1 is unrelated to message 0, and message 2 is related to one of them.
#[derive(Drop)]
struct Seen {
    end: End,
    ran_before_cut: bool,
    /// Whether message 1 was answered.
    answered: bool,
    device: MemDisk,
}

/// Serves three lines with two workers on a device that has volume 0 with file 0 (`SMALL`: neighboring blocks lie in different stripes). A
/// checkpoint is due after `every` records (0: only where the log is full). Call number `fails_at` of the output fails, unless that is 0.
/// The answer to message 0 is written while job 1 is kept waiting.
fn serve_three<T: Threads + Wait + Sync + Abort>(
    rt: &T,
    alloc: Global,
    every: u64,
    lines: &[u8],
    fails_at: u64,
) -> Result<Seen, Wrong> {
    let way = Way {
        workers: 2,
        slots: 4,
        every,
    };
    let device = device_with(alloc, SMALL, &[])?;
    let (device, _) = serve_lines(rt, alloc, device, way, b"makevol 0 0\ncreate 0 0 0\n")?;
    let notes = Notes::new();
    let gate = Delaying {
        notes: &notes,
        gave_up: Flag::new(),
        ran_before_cut: Flag::new(),
        answered: Flag::new(),
    };
    let streams = Streams {
        fails_at,
        ..ALL_AT_ONCE
    };
    let left = session(rt, alloc, device, way, lines, streams, &gate, &notes);
    let Left { device, end, .. } = left;
    assert_true(rt, !gate.gave_up.get() && !notes.is_reply_early.get());
    Ok(Seen {
        end,
        ran_before_cut: gate.ran_before_cut.get(),
        answered: gate.answered.get(),
        device,
    })
}

#[test]
fn nothing_is_dispatched_while_a_checkpoint_is_due(rt: HostRuntime) -> Result<(), Fail> {
    let lines = b"write 0 0 0 0 61\nwrite 0 0 0 1 62\nwrite 0 0 0 0 63\n";
    // Once message 0 is answered, message 2 may be dispatched, unless a checkpoint is due: then a cut begins first.
    for (every, ran_before_cut) in [(0, true), (1, false)] {
        let seen = serve_three(&rt, rt.alloc(), every, lines, 0)?;
        assert_ended(&rt, seen.end, End::Whole);
        assert_true(&rt, seen.ran_before_cut == ran_before_cut);
        assert_true(&rt, seen.answered);
    }
    Ok(())
}

#[test]
fn jobs_in_flight_are_logged_after_the_output_failed(rt: HostRuntime) -> Result<(), Fail> {
    let lines = b"write 0 0 0 0 61\nwrite 0 0 0 1 62\nwrite 0 0 0 1 63\n";
    // No checkpoint is due by a count of records, and the first call of the output fails.
    let seen = serve_three(&rt, rt.alloc(), 0, lines, 1)?;
    assert_ended(&rt, seen.end, End::Fault(ServeFault::Write));
    let Ok((shown, _)) = inspect(rt.alloc(), seen.device) else {
        return Err(Wrong::Unfit.into());
    };
    // Messages 0 and 1 have records. Message 2, which is related to 1, isn't dispatched any more.
    assert_true(&rt, seen.answered);
    assert_count(&rt, shown.records as u64, 2);
    Ok(())
}

/// How often a worker looks whether the dispatcher sleeps, before it gives up.
const MOST_LOOKS: u32 = 10_000;

/// Keeps each job waiting in its worker until the thread of the dispatcher sleeps.
#[derive(Drop)]
struct Watching<'a> {
    rt: &'a HostRuntime,
    /// The system's file on the state of that thread.
    stat: &'a str,
    has_slept: Flag,
}

impl Watching<'_> {
    /// Whether the thread sleeps: its state is the letter two places after the parenthesis behind its name.
    fn is_asleep(&self) -> bool {
        let Ok(stat) = fs::read(self.rt, self.stat) else {
            return false;
        };
        stat.windows(3).any(|part| part == b") S".as_slice())
    }
}

impl Gate for Watching<'_> {
    fn before(&self, _ticket: u64) {
        for _ in 0..MOST_LOOKS {
            if self.is_asleep() {
                self.has_slept.set();
                return;
            }
            thread::yield_now();
        }
    }

    fn answered(&self, _ticket: u64) {}
}

#[test]
fn the_dispatcher_sleeps_while_a_job_runs(rt: HostRuntime) -> Result<(), Fail> {
    let way = Way {
        workers: 1,
        slots: 4,
        every: 0,
    };
    let device = device_with(rt.alloc(), SMALL, &[])?;
    // The dispatcher is this thread.
    let own = fs::read_to_string(&rt, "/proc/thread-self/stat")?;
    let Some((number, _)) = own.split_once(' ') else {
        return Err(Wrong::Unfit.into());
    };
    let stat = format!(in rt.alloc(); "/proc/self/task/{number}/stat")?;
    let gate = Watching {
        rt: &rt,
        stat: stat.as_str(),
        has_slept: Flag::new(),
    };
    let notes = Notes::new();
    let left = session(
        &rt,
        rt.alloc(),
        device,
        way,
        b"makevol 0 0\n",
        ALL_AT_ONCE,
        &gate,
        &notes,
    );
    assert_ended(&rt, left.end, End::Whole);
    assert_true(&rt, gate.has_slept.get());
    Ok(())
}
