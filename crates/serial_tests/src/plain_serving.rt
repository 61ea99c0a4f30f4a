//! How a session ends: at the end of its input, at a failed read, at a failed write.
//!
//! `room` gives an empty output with room for all that a test writes. `SMALL` is a geometry of one volume of two files of four blocks.
use crate::assertions::{assert_equal, assert_text};
use crate::common::SMALL;
use crate::plain_rows::{room, served_into};
use plain::PlainFault;
use std::alloc::{AllocError, Global};
use std::io;
use std::io::{ErrorKind, Read, Write};
use std::process::Abort;
use std::test::Fail;

/// Gives one byte a read. The read behind the first part fails, that one alone: a session that reads on meets the rest.
#[derive(Drop)]
struct Failing<'a> {
    given: &'a [u8],
    rest: &'a [u8],
    why: ErrorKind,
}

impl<'a> Read for Failing<'a> {
    fn read(&mut self, buf: &mut [u8]) -> io::Result<usize> {
        let Some((first, others)) = self.given.split_first() else {
            self.given = self.rest;
            return Err(io::Error::from(self.why));
        };
        let Some(place) = buf.first_mut() else {
            return Ok(0);
        };
        *place = *first;
        self.given = others;
        Ok(1)
    }
}

/// Takes all bytes, but for the write or flush with this number, which fails.
#[derive(Drop)]
struct FailingOnce<'a> {
    fails: usize,
    calls: usize,
    taken: &'a mut Vec<u8>,
}

impl FailingOnce<'_> {
    // One more call; whether it fails.
    fn is_failing(&mut self) -> bool {
        self.calls = self.calls.saturating_add(1);
        self.calls == self.fails
    }
}

impl Write for FailingOnce<'_> {
    fn write(&mut self, buf: &[u8]) -> io::Result<usize> {
        if self.is_failing() {
            return Err(io::Error::from(ErrorKind::Other));
        }
        self.taken.write(buf)
    }

    fn flush(&mut self) -> io::Result<()> {
        if self.is_failing() {
            return Err(io::Error::from(ErrorKind::Other));
        }
        Ok(())
    }
}

/// Asserts that this is written for an input at the small geometry, and that its session ends so.
fn assert_served<R: Read + Drop>(
    rt: &impl Abort,
    alloc: Global,
    input: R,
    end: Result<(), PlainFault>,
    replies: &[u8],
) -> Result<(), AllocError> {
    let mut output = room(alloc)?;
    assert_equal(rt, served_into(alloc, SMALL, input, &mut output), end);
    assert_text(rt, output.as_slice(), replies);
    Ok(())
}

/// Whole lines and a last one without its newline. Only the first and the third change something.
const LINES: &[u8] = b"makevol 0 0
makevol 0 0
create 0 0 0
what
summary";

/// The replies to them.
const REPLIES: &[u8] = b"done
error exists
done
error line
summary 1 1 0
";

// The first `count` lines, with their newlines.
fn first_lines(lines: &[u8], count: usize) -> &[u8] {
    let mut left = count;
    for (at, byte) in lines.iter().enumerate() {
        if left == 0 {
            return &lines[..at];
        }
        if *byte == b'\n' {
            left -= 1;
        }
    }
    lines
}

// How many lines end in these bytes.
fn count_lines(bytes: &[u8]) -> usize {
    bytes.iter().filter(|byte| **byte == b'\n').count()
}

// Asserts that a session whose read fails so, behind this many bytes, ends there, and has answered the whole lines.
fn assert_read_fault(
    rt: &impl Abort,
    alloc: Global,
    place: usize,
    why: ErrorKind,
) -> Result<(), AllocError> {
    let (given, rest) = LINES.split_at(place.min(LINES.len()));
    let replies = first_lines(REPLIES, count_lines(given));
    let input = Failing { given, rest, why };
    assert_served(rt, alloc, input, Err(PlainFault::Read), replies)
}

#[test]
fn whole_lines_are_answered_before_a_read_that_fails_at_each_place(
    rt: HostRuntime,
) -> Result<(), Fail> {
    for place in 0..=LINES.len() {
        assert_read_fault(&rt, rt.alloc(), place, ErrorKind::Other)?;
        // A read that was interrupted isn't made again.
        assert_read_fault(&rt, rt.alloc(), place, ErrorKind::Interrupted)?;
    }
    assert_served(&rt, rt.alloc(), LINES, Ok(()), REPLIES)?;
    Ok(())
}

/// Gives one byte a read, so that each reply is written before the next line is read.
#[derive(Drop)]
struct ByteByByte<'a>(&'a [u8]);

impl<'a> Read for ByteByByte<'a> {
    fn read(&mut self, buf: &mut [u8]) -> io::Result<usize> {
        let (Some((first, others)), Some(place)) = (self.0.split_first(), buf.first_mut()) else {
            return Ok(0);
        };
        *place = *first;
        self.0 = others;
        Ok(1)
    }
}

// How a session ends whose write or flush with this number fails, and how many of both it made.
fn served_until(
    alloc: Global,
    fails: usize,
    taken: &mut Vec<u8>,
) -> (Result<(), PlainFault>, usize) {
    let mut output = FailingOnce {
        fails,
        calls: 0,
        taken,
    };
    let end = served_into(alloc, SMALL, ByteByByte(LINES), &mut output);
    (end, output.calls)
}

#[test]
fn after_each_write_that_fails_nothing_more_is_written(rt: HostRuntime) -> Result<(), Fail> {
    // The five replies are written and flushed one after the other.
    for fails in 1..=10 {
        let mut taken = room(rt.alloc())?;
        let (end, calls) = served_until(rt.alloc(), fails, &mut taken);
        assert_equal(&rt, end, Err(PlainFault::Write));
        assert_equal(&rt, calls, fails);
        assert_text(&rt, taken.as_slice(), first_lines(REPLIES, fails / 2));
    }
    let mut taken = room(rt.alloc())?;
    let (end, calls) = served_until(rt.alloc(), 11, &mut taken);
    assert_equal(&rt, end, Ok(()));
    assert_equal(&rt, calls, 10);
    assert_text(&rt, taken.as_slice(), REPLIES);
    Ok(())
}

/// Interrupts every other write, beginning with the first, and takes at most three bytes at a time.
#[derive(Drop)]
struct Interrupting<'a> {
    calls: usize,
    taken: &'a mut Vec<u8>,
}

impl Write for Interrupting<'_> {
    fn write(&mut self, buf: &[u8]) -> io::Result<usize> {
        self.calls = self.calls.saturating_add(1);
        if self.calls % 2 == 1 {
            return Err(io::Error::from(ErrorKind::Interrupted));
        }
        self.taken.write(&buf[..buf.len().min(3)])
    }

    fn flush(&mut self) -> io::Result<()> {
        Ok(())
    }
}

#[test]
fn a_write_that_is_interrupted_is_made_again(rt: HostRuntime) -> Result<(), Fail> {
    let mut taken = room(rt.alloc())?;
    let mut output = Interrupting {
        calls: 0,
        taken: &mut taken,
    };
    let end = served_into(rt.alloc(), SMALL, LINES, &mut output);
    assert_equal(&rt, end, Ok(()));
    // Three bytes at a time, the 34 of the first four replies take 12 writes, the 14 of the last one 5, each after one that is interrupted.
    assert_equal(&rt, output.calls, 34);
    assert_text(&rt, taken.as_slice(), REPLIES);
    Ok(())
}

/// Takes nothing, and reports no error.
#[derive(Drop)]
struct Full {
    calls: usize,
}

impl Write for Full {
    fn write(&mut self, _buf: &[u8]) -> io::Result<usize> {
        self.calls = self.calls.saturating_add(1);
        Ok(0)
    }

    fn flush(&mut self) -> io::Result<()> {
        Ok(())
    }
}

#[test]
fn a_writer_that_takes_nothing_has_failed(rt: HostRuntime) -> Result<(), Fail> {
    let mut output = Full { calls: 0 };
    let end = served_into(rt.alloc(), SMALL, LINES, &mut output);
    assert_equal(&rt, end, Err(PlainFault::Write));
    assert_equal(&rt, output.calls, 1);
    Ok(())
}

/// Pairs of lines. The second ones take memory for a volume, for a block and for the number of blocks in its stripe, the first ones none.
const TAKES_MEMORY: &[u8] = b"summary
makevol 0 0
setlabel 0 0 6162
create 0 0 0
list 0 0
write 0 0 0 0 6162
seal 0 0
read 0 0 0 0
";

/// The replies to them.
const MEMORY_REPLIES: &[u8] = b"summary 0 0 0
done
done
done
files 0
done
done
block 6162
";

/// Gives two lines a read, and counts the pairs.
#[derive(Drop)]
struct Pairs<'a> {
    lines: &'a [u8],
    given: &'a mut usize,
}

impl<'a> Read for Pairs<'a> {
    fn read(&mut self, buf: &mut [u8]) -> io::Result<usize> {
        let mut pair = first_lines(self.lines, 2);
        let size = pair.read(buf)?;
        if size > 0 {
            *self.given = self.given.saturating_add(1);
        }
        self.lines = self.lines.get(size..).unwrap_or_default();
        Ok(size)
    }
}

// The replies that are written where memory was refused after this many pairs were given: to the first line of the last pair, too, which
// is answered and not yet written where the second one finds no memory.
fn replies_of_pairs(given: usize) -> &'static [u8] {
    first_lines(MEMORY_REPLIES, given.saturating_mul(2).saturating_sub(1))
}

/// The test passes also if any one request for memory in it is refused.
#[test]
fn lines_are_answered_at_the_next_try(rt: HostRuntime) -> Result<(), Fail> {
    let alloc = rt.alloc();
    let mut first = room(alloc)?;
    let mut output = room(alloc)?;
    let mut given = 0;
    let pairs = Pairs {
        lines: TAKES_MEMORY,
        given: &mut given,
    };
    let end = served_into(alloc, SMALL, pairs, &mut first);
    if end.is_ok() {
        assert_text(&rt, first.as_slice(), MEMORY_REPLIES);
        return Ok(());
    }
    assert_equal(&rt, end, Err(PlainFault::OutOfMemory));
    assert_text(&rt, first.as_slice(), replies_of_pairs(given));
    let end = served_into(alloc, SMALL, TAKES_MEMORY, &mut output);
    assert_equal(&rt, end, Ok(()));
    assert_text(&rt, output.as_slice(), MEMORY_REPLIES);
    Ok(())
}
