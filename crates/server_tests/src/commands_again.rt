//! Two services on one device: during the first the device stops at its n-th call, for each n, and crashes; the second is asked what the
//! crash left. The server is the small one (`SMALL`: one volume of two files of four blocks in two stripes). There are
//! `KINDS` kinds of crash; `torn` gives what each leaves at the unsynced offsets.
ghost use Rattle.std.specs.Prelude.{◌<◌};
ghost use Rattle.disk.specs.CrashImages.{HasPattern};

use crate::commands_common::System;
use crate::serving_common::SMALL;
use affinity::Geometry;
use checkpoint::{device_len, format};
use commands::{Fault, ServeOptions, serve_on};
use disk::{MemDisk, Torn};
use harness::{KINDS, torn};
use std::alloc::{AllocError, Global};
use std::test::Fail;

/// More calls than the first incarnation makes of its device.
const CALLS: u64 = 120;

/// The lines of the first incarnation, each with its answer; those of the second; and what the second may answer. Beside each of these
/// answers stands how many lines of the first can have been acknowledged at most where it is given: with more, more would have survived.
type Row<'a> = (&'a [(&'a str, &'a str)], &'a str, &'a [(&'a str, usize)]);

/// Each line is related to (in conflict with) those before it: it survives a crash only with them.
const RELATED: Row<'static> = (
    &[
        ("makevol 0 0\n", "done\n"),
        ("create 0 0 0\n", "done\n"),
        ("write 0 0 0 0 61\n", "done\n"),
    ],
    "summary\n",
    &[
        ("summary 0 0 0\n", 0),
        ("summary 1 0 0\n", 1),
        ("summary 1 1 0\n", 2),
        ("summary 1 1 1\n", 3),
    ],
);

/// Block 1 lies in another stripe than block 0: the write to it may survive without an earlier one to block 0.
const STRIPES: Row<'static> = (
    &[
        ("makevol 0 0\n", "done\n"),
        ("create 0 0 0\n", "done\n"),
        ("write 0 0 0 0 61\n", "done\n"),
        ("write 0 0 0 1 62\n", "done\n"),
        ("write 0 0 0 0 63\n", "done\n"),
    ],
    "summary\nread 0 0 0 0\nread 0 0 0 1\n",
    &[
        ("summary 0 0 0\nerror volume\nerror volume\n", 0),
        ("summary 1 0 0\nerror file\nerror file\n", 1),
        ("summary 1 1 0\nhole\nhole\n", 2),
        ("summary 1 1 1\nhole\nblock 62\n", 2),
        ("summary 1 1 1\nblock 61\nhole\n", 3),
        ("summary 1 1 1\nblock 63\nhole\n", 3),
        ("summary 1 1 2\nblock 61\nblock 62\n", 4),
        ("summary 1 1 2\nblock 63\nblock 62\n", 5),
    ],
);

/// Some lines change nothing; and the label may survive without the file that was created before it.
const UNCHANGED: Row<'static> = (
    &[
        ("makevol 0 0\n", "done\n"),
        ("hello\n", "error line\n"),
        ("create 0 0 0\n", "done\n"),
        ("punch 0 0 9 0\n", "error range\n"),
        ("create 0 0 0\n", "error exists\n"),
        ("setlabel 0 0 6162\n", "done\n"),
        ("label 0 0\n", "label 6162\n"),
    ],
    "summary\nlabel 0 0\n",
    &[
        ("summary 0 0 0\nerror volume\n", 0),
        ("summary 1 0 0\nlabel 00\n", 2),
        ("summary 1 0 0\nlabel 6162\n", 2),
        ("summary 1 1 0\nlabel 00\n", 5),
        ("summary 1 1 0\nlabel 6162\n", 7),
    ],
);

/// What came of two incarnations: how many lines of the first were acknowledged, whether it ended without a fault, and which of the answers
/// of its `Row`, by index, the second gave.
#[derive(Clone, Copy, PartialEq, Eq)]
struct Found {
    acknowledged: usize,
    well: bool,
    state: usize,
}

/// How many of these answers were written, from the first on. None where anything else was written, or a part of an answer.
fn acknowledged(lines: &[(&str, &str)], written: &[u8]) -> Option<usize> {
    let mut rest = written;
    let mut count = 0usize;
    for (_, answer) in lines {
        if rest.is_empty() {
            return Some(count);
        }
        rest = rest.strip_prefix(answer.as_bytes())?;
        count = count.saturating_add(1);
    }
    if rest.is_empty() { Some(count) } else { None }
}

/// The lines that are asked, as one input.
fn asked(alloc: Global, lines: &[(&str, &str)]) -> Result<String, AllocError> {
    let mut input = String::new(alloc);
    for (line, _) in lines {
        input.push_str(line)?;
    }
    Ok(input)
}

/// A device in memory with the empty state.
fn formatted(alloc: Global, geometry: Geometry) -> Result<MemDisk, Fail> {
    let disk = MemDisk::new(alloc, device_len(&geometry))?;
    match format(alloc, disk, geometry) {
        Ok(disk) => Ok(disk),
        Err(error) => Err(Fail::new(format_args!("not formatted: {}", error.fault))),
    }
}

/// Serves the first lines with a device that stops at its n-th call and then crashes, and the next ones with what the crash left. Returns
/// how both services ended.
fn serve_twice<T: System>(
    rt: &T,
    disk: MemDisk,
    n: u64,
    torn: Torn,
    r: &mut &[u8],
    w: &mut Vec<u8>,
    next_r: &mut &[u8],
    next_w: &mut Vec<u8>,
) -> (Result<(), Fault>, Result<(), Fault>)
    requires call { 0 < n }
    requires bytes { HasPattern torn }
{
    let options = ServeOptions::new(1, 4, 0);
    let mut disk = disk;
    disk.stop_at(n);
    let (disk, ended) = serve_on(rt, rt.alloc(), disk, options, r, w);
    let (_disk, next_ended) = serve_on(rt, rt.alloc(), disk.crash(torn), options, next_r, next_w);
    (ended, next_ended)
}

/// Runs both incarnations (with one worker, four slots, and no checkpoint by a count of records): the device of the first stops at its n-th
/// call and is torn by the crash of kind `at` (`harness::torn`). Fails unless the first wrote the answers to its first lines, to all where
/// it had no fault, and the second had no fault and answered as the row allows after that many.
fn expect_incarnations<T: System>(rt: &T, row: &Row<'_>, n: u64, at: usize) -> Result<Found, Fail>
    requires { 0 < n }
{
    let (lines, questions, states) = row;
    let Ok(geometry) = Geometry::new(SMALL) else {
        return Err(Fail::new(format_args!("no geometry")));
    };
    let input = asked(rt.alloc(), lines)?;
    let (mut first, mut second) = (Vec::new(rt.alloc()), Vec::new(rt.alloc()));
    let ends = serve_twice(
        rt,
        formatted(rt.alloc(), geometry)?,
        n,
        torn(rt.alloc(), at)?,
        &mut input.as_bytes(),
        &mut first,
        &mut questions.as_bytes(),
        &mut second,
    );
    let count = acknowledged(lines, first.as_slice());
    let state = states
        .iter()
        .position(|state| state.0.as_bytes() == second.as_slice());
    if let ((ended, Ok(())), Some(count), Some(state)) = (ends, count, state) {
        let most = states.get(state).map(|found| found.1);
        if Some(count) <= most && (ended.is_err() || count == lines.len()) {
            return Ok(Found {
                acknowledged: count,
                well: ended.is_ok(),
                state,
            });
        }
    }
    Err(Fail::new(format_args!(
        "{questions} at call {n}, torn by {at}: {count:?} lines, state {state:?}"
    )))
}

/// What is seen of the incarnations of a `Row`: whether a first one stopped, whether one did so with some lines acknowledged, and whether
/// two tearings at one call left different states.
#[derive(Clone, Copy, Default, PartialEq, Eq)]
struct Seen {
    stopped: bool,
    halfway: bool,
    torn: bool,
}

impl Seen {
    fn or(self, other: Seen) -> Seen {
        Seen {
            stopped: self.stopped || other.stopped,
            halfway: self.halfway || other.halfway,
            torn: self.torn || other.torn,
        }
    }
}

/// What is seen of the incarnations whose device stops at this call, one for each tearing.
fn look<T: System>(rt: &T, row: &Row<'_>, n: u64) -> Result<Seen, Fail>
    requires { 0 < n }
{
    let first = expect_incarnations(rt, row, n, 0)?;
    let mut seen = Seen::default();
    for at in 1..KINDS {
        let found = expect_incarnations(rt, row, n, at)?;
        seen = seen.or(Seen {
            stopped: !found.well,
            halfway: !found.well && 0 < found.acknowledged,
            torn: found.state != first.state,
        });
    }
    Ok(seen)
}

/// Tries each call, up to one that no first incarnation comes to. By then some have to have stopped with lines acknowledged, and two
/// tearings at one call to have left different states.
fn expect_row<T: System>(rt: &T, row: &Row<'_>) -> Result<(), Fail> {
    let mut seen = Seen::default();
    for n in 1..CALLS {
        let found = look(rt, row, n)?;
        if !found.stopped && seen.halfway && seen.torn {
            return Ok(());
        }
        seen = seen.or(found);
    }
    Err(Fail::new(format_args!("{}: not each way to stop was seen", row.1)))
}

#[test]
fn related_lines_are_there_one_after_the_other(rt: HostRuntime) -> Result<(), Fail> {
    expect_row(&rt, &RELATED)
}

#[test]
fn a_block_of_another_stripe_may_be_there_alone(rt: HostRuntime) -> Result<(), Fail> {
    expect_row(&rt, &STRIPES)
}

#[test]
fn lines_that_change_nothing_are_answered_too(rt: HostRuntime) -> Result<(), Fail> {
    expect_row(&rt, &UNCHANGED)
}
