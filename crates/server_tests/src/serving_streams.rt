//! How input is read and output is written, and what happens if one of them fails. `serial` gives what the serial server writes. `SMALL`
//! has one volume of two files of four blocks, and four records in a half of the log.
use crate::assertions::{assert_at_most, assert_count, assert_ended, assert_text, assert_true};
use crate::serving_common::{
    ALL_AT_ONCE, End, Left, SMALL, Streams, Way, serial, serve_lines, session,
};
use crate::serving_drawing::draw_lines;
use crate::serving_noting::Notes;
use checkpoint::inspect;
use harness::{Wrong, device_with};
use serving::ServeFault;
use std::alloc::Global;
use std::process::Abort;
use std::sync::Wait;
use std::test::Fail;
use std::thread::Threads;
use workers::OpenGate;

/// Serves these lines on a new device. Of `streams`: `read` and `written` are how many bytes are read and written at a time, and `fails_at`
/// is the call of the writer that fails (0: none). `ALL_AT_ONCE` reads and writes all at a time, and nothing fails.
fn serve_new<T: Threads + Wait + Sync>(
    rt: &T,
    alloc: Global,
    way: Way,
    lines: &[u8],
    streams: Streams,
    notes: &Notes,
) -> Result<Left, Wrong> {
    let device = device_with(alloc, SMALL, &[])?;
    Ok(session(rt, alloc, device, way, lines, streams, &OpenGate, notes))
}

/// Ways to run a server: without checkpoints by a count of records, and, the last, with one after each record.
const WAYS: [Way; 3] = [
    Way {
        workers: 1,
        slots: 1,
        every: 0,
    },
    Way {
        workers: 2,
        slots: 16,
        every: 0,
    },
    Way {
        workers: 2,
        slots: 3,
        every: 1,
    },
];

const LINES: &[u8] = b"makevol 0 0
create 0 0 0
no message
write 0 0 0 0 61
write 0 0 0 1 62
read 0 0 0 0
read 0 9 0 0
";

/// These bytes up to the end of their last whole line.
fn whole_lines(bytes: &[u8]) -> &[u8] {
    match bytes.iter().rposition(|byte| *byte == b'\n') {
        Some(last) => bytes.get(..=last).unwrap_or_default(),
        None => b"",
    }
}

/// Serves an input at whose end a read fails: its whole lines have to be answered, and no checkpoint is made at its end. `read` is how many
/// bytes are read at a time.
fn meets_fault<T: Threads + Wait + Sync + Abort>(
    rt: &T,
    alloc: Global,
    way: Way,
    input: &[u8],
    read: usize,
) -> Result<(), Wrong> {
    let notes = Notes::new();
    let streams = Streams {
        read,
        fails: true,
        ..ALL_AT_ONCE
    };
    let want = serial(alloc, SMALL, whole_lines(input))?;
    let Left {
        device,
        end,
        output,
    } = serve_new(rt, alloc, way, input, streams, &notes)?;
    assert_ended(rt, end, End::Fault(ServeFault::Read));
    assert_text(rt, output.as_slice(), want.as_slice());
    let done = want.as_slice().split(|byte| *byte == b'\n');
    let done = done.filter(|line| *line == b"done".as_slice()).count();
    let Ok((shown, _device)) = inspect(alloc, device) else {
        return Err(Wrong::Unfit);
    };
    assert_true(rt, !notes.is_late.get());
    if way.every == 0 {
        assert_count(rt, shown.records as u64, done as u64);
        assert_count(rt, shown.area as u64, 1);
    }
    Ok(())
}

#[test]
fn whole_lines_are_answered_before_a_failed_read(rt: HostRuntime) -> Result<(), Fail> {
    // The input is cut off after each byte. Each way is tried at every third of these lengths, and reads 8, 70,000 or 20 bytes at a time.
    for (way, (read, first)) in WAYS.iter().zip([(8, 0), (70_000, 1), (20, 2)]) {
        for end in (first..=LINES.len()).step_by(WAYS.len()) {
            let input = LINES.get(..end).unwrap_or_default();
            meets_fault(&rt, rt.alloc(), *way, input, read)?;
        }
    }
    Ok(())
}

/// Returns whether the n-th call of the writer failed. Nothing may be read or written after it.
fn fails_to_write<T: Threads + Wait + Sync + Abort>(
    rt: &T,
    alloc: Global,
    way: Way,
    read: usize,
    n: u64,
) -> Result<bool, Wrong> {
    let notes = Notes::new();
    let streams = Streams {
        read,
        fails: false,
        written: 9,
        fails_at: n,
    };
    let left = serve_new(rt, alloc, way, LINES, streams, &notes)?;
    let has_failed = notes.writes.get() >= n;
    let end = if has_failed {
        End::Fault(ServeFault::Write)
    } else {
        End::Whole
    };
    assert_ended(rt, left.end, end);
    let want = serial(alloc, SMALL, LINES)?;
    if has_failed {
        assert_true(rt, want.as_slice().starts_with(left.output.as_slice()));
    } else {
        assert_text(rt, left.output.as_slice(), want.as_slice());
    }
    assert_true(rt, !notes.went_on_after_fault.get());
    Ok(has_failed)
}

/// More calls than a writer has.
const MOST_CALLS: u64 = 1000;

/// Lets each call of the writer fail in turn, until none does.
fn each_call_fails<T: Threads + Wait + Sync + Abort>(
    rt: &T,
    alloc: Global,
    way: Way,
    read: usize,
) -> Result<(), Wrong> {
    for n in 1..MOST_CALLS {
        if !fails_to_write(rt, alloc, way, read, n)? {
            return Ok(());
        }
    }
    Err(Wrong::Endless)
}

#[test]
fn nothing_is_read_or_written_behind_a_failed_write(rt: HostRuntime) -> Result<(), Fail> {
    // So many bytes are read at a time.
    for (way, read) in WAYS.iter().zip([13, 70_000, 40]) {
        each_call_fails(&rt, rt.alloc(), *way, read)?;
    }
    Ok(())
}

/// Serves lines, `read` bytes at a time. They have to be answered as by the serial server, and no answer may wait for a read. Returns how
/// many reads there were, and how many writes and flushes.
fn calls_of<T: Threads + Wait + Sync + Abort>(
    rt: &T,
    alloc: Global,
    way: Way,
    lines: &[u8],
    read: usize,
) -> Result<(u64, u64), Wrong> {
    let notes = Notes::new();
    let streams = Streams {
        read,
        ..ALL_AT_ONCE
    };
    let left = serve_new(rt, alloc, way, lines, streams, &notes)?;
    assert_ended(rt, left.end, End::Whole);
    let want = serial(alloc, SMALL, lines)?;
    assert_text(rt, left.output.as_slice(), want.as_slice());
    assert_true(rt, !notes.is_late.get());
    Ok((notes.reads.get(), notes.writes.get()))
}

#[test]
fn nothing_waits_for_a_read(rt: HostRuntime) -> Result<(), Fail> {
    // 100 lines, drawn from the seed 3, whose numbers are below 4.
    let lines = draw_lines(rt.alloc(), 3, 4, 100)?;
    for &way in &WAYS {
        for read in [1, 12, 100] {
            calls_of(&rt, rt.alloc(), way, lines.as_slice(), read)?;
        }
    }
    Ok(())
}

/// How many lines are piped in.
const MANY: usize = 5000;

/// How many writes and flushes the answers to lines without a ticket take, with 1, 16 and 3 slots: two for each 1, 16 or 3 lines, and for
/// the rest.
const WRITES: [u64; 3] = [10_000, 626, 3334];

#[test]
fn piped_input_takes_few_calls(rt: HostRuntime) -> Result<(), Fail> {
    let mut lines = Vec::new(rt.alloc());
    for _ in 0..MANY {
        lines.extend_from_slice(b"read 9 0 0 0\n")?;
    }
    for (way, want) in WAYS.iter().zip(WRITES) {
        // The input is read in one go.
        let (reads, writes) = calls_of(&rt, rt.alloc(), *way, lines.as_slice(), 70_000)?;
        assert_at_most(&rt, reads, 3);
        assert_count(&rt, writes, want);
    }
    Ok(())
}

const MANY_SLOTS: Way = Way {
    workers: 1,
    slots: 1024,
    every: 0,
};

/// A line, how often it comes after a `makevol`, and how many writes and flushes the answers take at least. The answers of a batch that
/// changed something are written at once, and a batch has one change of a label at most: so there are two calls for each line. Other
/// answers are written once they are half as many as the slots, or up to 63 more, as a batch has 64 lines at most.
const WRITTEN_EARLY: [(&[u8], usize, u64); 2] = [
    (b"setlabel 0 0 61\n", 64, 128),
    (b"label 0 0\n", 4096, 16),
];

#[test]
fn answers_are_written_before_all_slots_are_taken(rt: HostRuntime) -> Result<(), Fail> {
    for &(line, count, least) in &WRITTEN_EARLY {
        let mut lines = Vec::new(rt.alloc());
        lines.extend_from_slice(b"makevol 0 0\n")?;
        for _ in 0..count {
            lines.extend_from_slice(line)?;
        }
        let (_, writes) = calls_of(&rt, rt.alloc(), MANY_SLOTS, lines.as_slice(), 70_000)?;
        assert_at_most(&rt, least, writes);
    }
    Ok(())
}

const NO_WORKERS: Way = Way {
    workers: 0,
    slots: 2,
    every: 0,
};

#[test]
fn no_workers_are_refused(rt: HostRuntime) -> Result<(), Fail> {
    let notes = Notes::new();
    let streams = Streams {
        read: 1,
        fails: true,
        written: 1,
        fails_at: 1,
    };
    let left = serve_new(&rt, rt.alloc(), NO_WORKERS, LINES, streams, &notes)?;
    assert_ended(&rt, left.end, End::Fault(ServeFault::NoWorkers));
    assert_count(&rt, notes.reads.get(), 0);
    assert_count(&rt, notes.writes.get(), 0);
    // The core was given back untouched: its device can be served on as if nothing had been.
    let (_, output) = serve_lines(&rt, rt.alloc(), left.device, WAYS[0], LINES)?;
    let want = serial(rt.alloc(), SMALL, LINES)?;
    assert_text(&rt, output.as_slice(), want.as_slice());
    Ok(())
}
