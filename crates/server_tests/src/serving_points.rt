//! When records are logged, and when checkpoints are made. Here *points* are checkpoints of both kinds, in one call or online. Of the
//! servers `SMALL` has four records in a half of the log, and `FLAT` eight, and eight stripes of one block. `OpenGate` is hooks that do
//! nothing.
use crate::assertions::{assert_at_most, assert_count, assert_ended, assert_true};
use crate::serving_common::{
    ALL_AT_ONCE, End, FLAT, Left, SMALL, Streams, Way, serve_lines, session,
};
use crate::serving_noting::Notes;
use checkpoint::inspect;
use harness::{Wrong, device_with};
use std::alloc::{AllocError, Global};
use std::process::Abort;
use std::sync::Wait;
use std::test::Fail;
use std::thread::Threads;
use workers::OpenGate;

/// `count` lines, each a change that is done.
fn changes(alloc: Global, count: usize) -> Result<Vec<u8>, AllocError> {
    let mut lines = Vec::new(alloc);
    for number in 0..count {
        lines.extend_from_slice(match number {
            0 => b"makevol 0 0\n",
            1 => b"create 0 0 0\n",
            _ if number % 2 == 0 => b"write 0 0 0 0 61\n",
            _ => b"punch 0 0 0 1\n",
        })?;
    }
    Ok(lines)
}

/// How many changes there are; after how many a checkpoint is due (0: only where the log is full); and how many checkpoints are made, at
/// least and at most. A half of the log has four records.
const POINTS: [(usize, u64, u64, u64); 10] = [
    // There is a checkpoint where the log is full and at the end.
    (0, 0, 1, 1),
    (4, 0, 1, 1),
    (5, 0, 2, 2),
    (8, 0, 2, 2),
    (9, 0, 3, 3),
    (40, 0, 10, 10),
    // One is due by count, but while one is in progress none becomes so.
    (40, 1, 8, 41),
    (40, 2, 8, 21),
    (40, 3, 8, 14),
    (40, 100, 10, 10),
];

/// Serves changes, read and written `size` bytes at a time (else as `ALL_AT_ONCE`: nothing fails). Each has to be logged, and none may be
/// acknowledged before its record is synced. Returns how many checkpoints were made after that of the opening.
fn points_of<T: Threads + Wait + Sync + Abort>(
    rt: &T,
    alloc: Global,
    count: usize,
    way: Way,
    size: usize,
) -> Result<u64, Wrong> {
    let notes = Notes::new();
    let streams = Streams {
        read: size,
        written: size,
        ..ALL_AT_ONCE
    };
    let device = device_with(alloc, SMALL, &[])?;
    let lines = changes(alloc, count)?;
    let left = session(rt, alloc, device, way, &lines, streams, &OpenGate, &notes);
    let Left { device, end, .. } = left;
    assert_ended(rt, end, End::Whole);
    assert_count(rt, notes.taken.get(), count as u64);
    assert_count(rt, notes.logged.get(), count as u64);
    assert_true(rt, !notes.is_reply_early.get());
    let Ok((shown, _)) = inspect(alloc, device) else {
        return Err(Wrong::Unfit);
    };
    // Opening names area 1, and each checkpoint the other one.
    assert_count(rt, shown.records as u64, 0);
    assert_count(rt, shown.area as u64, notes.root_writes.get() % 2);
    Ok(notes.root_writes.get().saturating_sub(1))
}

#[test]
fn points_are_made_where_they_are_due(rt: HostRuntime) -> Result<(), Fail> {
    for &(count, every, least, most) in &POINTS {
        for (workers, slots, size) in [(1, 1, 5), (1, 16, 70_000), (2, 3, 70_000)] {
            let way = Way {
                workers,
                slots,
                every,
            };
            let points = points_of(&rt, rt.alloc(), count, way, size)?;
            assert_at_most(&rt, least, points);
            assert_at_most(&rt, points, most);
        }
    }
    Ok(())
}

/// One change in each stripe.
const EIGHT: &[u8] = b"punch 0 0 0 0
punch 0 0 0 1
punch 0 0 0 2
punch 0 0 0 3
punch 0 0 0 4
punch 0 0 0 5
punch 0 0 0 6
punch 0 0 0 7
";

/// How many syncs there are where these lines come with one read and one worker runs them, from the opening to the last checkpoint. None is
/// made by a count of records (`every: 0`).
fn syncs_of<T: Threads + Wait + Sync + Abort>(
    rt: &T,
    alloc: Global,
    lines: &[u8],
) -> Result<u64, Wrong> {
    let way = Way {
        workers: 1,
        slots: 8,
        every: 0,
    };
    let device = device_with(alloc, FLAT, &[])?;
    let (device, _) = serve_lines(rt, alloc, device, way, b"makevol 0 0\ncreate 0 0 0\n")?;
    let notes = Notes::new();
    let left = session(
        rt,
        alloc,
        device,
        way,
        lines,
        ALL_AT_ONCE,
        &OpenGate,
        &notes,
    );
    assert_ended(rt, left.end, End::Whole);
    Ok(notes.syncs.get())
}

/// How often these lines are served at most, until they are logged together: where the worker waits for a processor, a result comes too
/// late for the batch of the others.
const TRIES: usize = 100;

#[test]
fn lines_that_come_together_are_logged_together(rt: HostRuntime) -> Result<(), Fail> {
    let one = syncs_of(&rt, rt.alloc(), b"punch 0 0 0 0\n")?;
    for _ in 0..TRIES {
        if syncs_of(&rt, rt.alloc(), EIGHT)? == one {
            return Ok(());
        }
    }
    Err(Wrong::Endless.into())
}
