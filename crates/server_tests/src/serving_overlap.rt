//! Which messages run at once. Here a `Gate` is a hook of the server: a worker calls `before` just before it runs a job, the dispatcher
//! `answered` just after a message is answered.
use crate::assertions::assert_text;
use crate::serving_common::{ALL_AT_ONCE, End, FLAT, SMALL, Way, serve_lines, session};
use crate::serving_noting::Notes;
use harness::{Wrong, device_with};
use std::alloc::Global;
use std::sync::Wait;
use std::sync::atomic::{AtomicBool, Ordering};
use std::test::Fail;
use std::thread;
use std::thread::Threads;
use workers::Gate;

/// Keeps the jobs with tickets from `first` on and below `last` waiting in their workers, until the message with ticket `last` is answered.
#[derive(Drop)]
struct Delaying {
    first: u64,
    last: u64,
    /// How often a job looks whether it may go on, before it gives up.
    tries: u32,
    answered: AtomicBool,
    gave_up: AtomicBool,
}

impl Gate for Delaying {
    fn before(&self, ticket: u64) {
        if ticket < self.first || ticket >= self.last {
            return;
        }
        for _ in 0..self.tries {
            if self.answered.load(Ordering::SeqCst) {
                return;
            }
            thread::yield_now();
        }
        self.gave_up.store(true, Ordering::SeqCst);
    }

    fn answered(&self, ticket: u64) {
        if ticket == self.last {
            self.answered.store(true, Ordering::SeqCst);
        }
    }
}

/// Messages, some of which are kept waiting in their workers until the one after them is answered.
#[derive(Clone, Copy)]
struct AtOnce {
    /// The geometry of the server, its numbers in the order of `format`'s options.
    numbers: [u16; 8],
    lines: &'static [u8],
    workers: usize,
    slots: usize,
    /// The ticket of the first message that is kept waiting, and of the one after the last such (counted from 0).
    first: u64,
    last: u64,
    tries: u32,
    /// What the lines are answered.
    want: &'static [u8],
}

/// One volume of one file of four blocks, each in a stripe of its own.
const FOUR: [u16; 8] = [1, 1, 4, 1, 1, 4, 1, 8];

/// `SMALL` has one volume, in whose two stripes neighboring blocks alternate; `FLAT` has one file of eight blocks in eight stripes. In each
/// row message `last` is answered while each of those that are kept waiting is in flight with a worker.
const AT_ONCE: [AtOnce; 6] = [
    AtOnce {
        numbers: SMALL,
        lines: b"write 0 0 0 0 61\nwrite 0 0 0 1 62\n",
        workers: 2,
        slots: 2,
        first: 0,
        last: 1,
        tries: 1_000_000,
        want: b"done\ndone\n",
    },
    AtOnce {
        numbers: FOUR,
        lines: b"write 0 0 0 0 61\nwrite 0 0 0 1 62\nwrite 0 0 0 2 63\nwrite 0 0 0 3 64\n",
        workers: 4,
        slots: 4,
        first: 0,
        last: 3,
        tries: 1_000_000,
        want: b"done\ndone\ndone\ndone\n",
    },
    // With three slots message 3 can't be read before the answer to message 0 is sent: so that is sent while messages 1 and 2 are kept
    // waiting.
    AtOnce {
        numbers: FOUR,
        lines: b"punch 0 0 0 0\npunch 0 0 0 1\npunch 0 0 0 2\npunch 0 0 0 3\n",
        workers: 3,
        slots: 3,
        first: 1,
        last: 3,
        tries: 16_000_000,
        want: b"done\ndone\ndone\ndone\n",
    },
    // While seven jobs are kept waiting, busy processors may be slow to answer the eighth message: so each job has more tries.
    AtOnce {
        numbers: FLAT,
        lines: b"punch 0 0 0 0\npunch 0 0 0 1\npunch 0 0 0 2\npunch 0 0 0 3\npunch 0 0 0 4\npunch 0 0 0 5\npunch 0 0 0 6\npunch 0 0 0 7\n",
        workers: 8,
        slots: 8,
        first: 0,
        last: 7,
        tries: 16_000_000,
        want: b"done\ndone\ndone\ndone\ndone\ndone\ndone\ndone\n",
    },
    AtOnce {
        numbers: SMALL,
        lines: b"setlabel 0 0 61\nwrite 0 0 0 0 61\n",
        workers: 2,
        slots: 2,
        first: 0,
        last: 1,
        tries: 1_000_000,
        want: b"done\ndone\n",
    },
    AtOnce {
        numbers: SMALL,
        lines: b"create 0 0 1\nlabel 0 0\n",
        workers: 2,
        slots: 2,
        first: 0,
        last: 1,
        tries: 1_000_000,
        want: b"done\nlabel 00\n",
    },
];

const A_FILE: &[u8] = b"makevol 0 0\ncreate 0 0 0\n";

/// Serves these lines where there is a file, all read at once, and returns their answers. No checkpoint is due by a count of records
/// (`every: 0`). `Endless` where a job gave up waiting for the answer to message `last`, or the session ended with a fault.
fn runs_at_once<T: Threads + Wait + Sync>(
    rt: &T,
    alloc: Global,
    row: AtOnce,
) -> Result<Vec<u8>, Wrong> {
    let way = Way {
        workers: row.workers,
        slots: row.slots,
        every: 0,
    };
    let device = device_with(alloc, row.numbers, &[])?;
    let (device, _) = serve_lines(rt, alloc, device, way, A_FILE)?;
    let gate = Delaying {
        first: row.first,
        last: row.last,
        tries: row.tries,
        answered: AtomicBool::new(false),
        gave_up: AtomicBool::new(false),
    };
    let notes = Notes::new();
    let left = session(
        rt,
        alloc,
        device,
        way,
        row.lines,
        ALL_AT_ONCE,
        &gate,
        &notes,
    );
    if left.end != End::Whole || gate.gave_up.load(Ordering::SeqCst) {
        return Err(Wrong::Endless);
    }
    Ok(left.output)
}

#[test]
fn unrelated_messages_run_at_once(rt: HostRuntime) -> Result<(), Fail> {
    for &row in &AT_ONCE {
        let output = runs_at_once(&rt, rt.alloc(), row)?;
        assert_text(&rt, output.as_slice(), row.want);
    }
    Ok(())
}
