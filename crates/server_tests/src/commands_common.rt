//! A call of the program with its streams in memory, and what is expected of it.
use commands::command;
use std::alloc::{AllocError, Global};
use std::cell::Cell;
use std::fs::File;
use std::io;
use std::io::{ErrorKind, Read, Write};
use std::rt::Files;
use std::sync::Wait;
use std::test::Fail;
use std::thread::Threads;

/// The runtime that a call of the program needs, with an allocator for its tests.
pub(crate) trait System: AllocGlobal + Files<File = File> + Threads + Wait + Sync {}

impl<T: AllocGlobal + Files<File = File> + Threads + Wait + Sync> System for T {}

/// What the input gives, and what the output takes.
#[derive(Clone, Copy, Drop)]
pub(crate) enum Streams {
    /// All at once.
    Open,

    /// One byte at a time.
    ByteByByte,

    /// One line a read. A read fails if a line read before it has no answer yet.
    LineByLine,

    /// The read after the end of the input fails.
    FailingInput,

    /// The output takes nothing.
    ClosedOutput,

    /// The output takes all that is written, and each flush fails.
    StuckOutput,

    /// The output and the standard error refuse what is written.
    AllClosed,
}

/// An input that gives its bytes as its `Streams` says.
#[derive(Drop)]
struct Input<'a> {
    left: &'a [u8],
    streams: Streams,
    reads: u64,
    answered: &'a Cell<u64>,
}

impl Input<'_> {
    fn fails(&self) -> bool {
        match self.streams {
            Streams::FailingInput => self.left.is_empty(),
            Streams::LineByLine => self.answered.get() != self.reads,
            _ => false,
        }
    }

    /// How many bytes a read gives at most.
    fn most(&self) -> usize {
        match self.streams {
            Streams::ByteByByte => 1,
            Streams::LineByLine => match self.left.iter().position(|byte| *byte == b'\n') {
                Some(end) => end.saturating_add(1),
                None => 0,
            },
            _ => self.left.len(),
        }
    }
}

impl Read for Input<'_> {
    fn read(&mut self, buf: &mut [u8]) -> io::Result<usize> {
        if self.fails() {
            return Err(io::Error::from(ErrorKind::Other));
        }
        let count = self.most().min(self.left.len()).min(buf.len());
        let (given, rest) = self.left.split_at(count);
        buf[..count].copy_from_slice(given);
        self.left = rest;
        self.reads = self.reads.saturating_add(1);
        Ok(count)
    }
}

/// An output that keeps what it takes, and counts its lines in `answered`, at which the input looks.
#[derive(Drop)]
struct Output<'a> {
    taken: Vec<u8>,
    is_closed: bool,
    is_stuck: bool,
    answered: &'a Cell<u64>,
}

impl Write for Output<'_> {
    fn write(&mut self, buf: &[u8]) -> io::Result<usize> {
        if self.is_closed {
            return Err(io::Error::from(ErrorKind::BrokenPipe));
        }
        for byte in buf {
            if *byte == b'\n' {
                self.answered.set(self.answered.get().saturating_add(1));
            }
        }
        if self.is_stuck {
            return Ok(buf.len());
        }
        self.taken.write(buf)
    }

    fn flush(&mut self) -> io::Result<()> {
        if self.is_closed || self.is_stuck {
            return Err(io::Error::from(ErrorKind::BrokenPipe));
        }
        Ok(())
    }
}

/// A call of the program: its words, among which `@` stands for a path, its input, and its streams.
#[derive(Clone, Copy, Drop)]
pub(crate) struct Call<'a> {
    pub(crate) arguments: &'a str,
    pub(crate) path: &'a str,
    pub(crate) input: &'a [u8],
    pub(crate) streams: Streams,
}

impl<'a> Call<'a> {
    /// A call without a path, whose input is given at once.
    pub(crate) fn of(arguments: &'a str, input: &'a [u8]) -> Call<'a> {
        Call::on("", arguments, input)
    }

    /// A call on the device in the file at this path.
    pub(crate) fn on(path: &'a str, arguments: &'a str, input: &'a [u8]) -> Call<'a> {
        Call {
            arguments,
            path,
            input,
            streams: Streams::Open,
        }
    }
}

/// How a call ended: its status, and what it printed on the output and (`faults`) on the standard error.
#[derive(Drop)]
struct Ended {
    status: u8,
    output: Vec<u8>,
    faults: Vec<u8>,
}

/// The words of a call, which lie between spaces.
fn split(alloc: Global, call: &Call<'_>) -> Result<Vec<String>, AllocError> {
    let mut arguments = Vec::new(alloc);
    for word in call.arguments.split_ascii_whitespace() {
        let word = if word == "@" { call.path } else { word };
        arguments.push(String::from_str(alloc, word)?)?;
    }
    Ok(arguments)
}

/// Makes this call, and gives how it ended.
fn end_of<T: System>(rt: &T, call: &Call<'_>) -> Result<Ended, AllocError> {
    let arguments = split(rt.alloc(), call)?;
    let answered = Cell::new(0);
    let mut input = Input {
        left: call.input,
        streams: call.streams,
        reads: 0,
        answered: &answered,
    };
    let all_closed = matches!(call.streams, Streams::AllClosed);
    let mut output = Output {
        taken: Vec::new(rt.alloc()),
        is_closed: all_closed || matches!(call.streams, Streams::ClosedOutput),
        is_stuck: matches!(call.streams, Streams::StuckOutput),
        answered: &answered,
    };
    let mut faults = Output {
        taken: Vec::new(rt.alloc()),
        is_closed: all_closed,
        is_stuck: false,
        answered: &answered,
    };
    let status = command(
        rt,
        rt.alloc(),
        arguments.as_slice(),
        &mut input,
        &mut output,
        &mut faults,
    );
    Ok(Ended {
        status,
        output: output.taken,
        faults: faults.taken,
    })
}

/// What has to be printed: this text, or one that has this part.
#[derive(Clone, Copy, Drop)]
pub(crate) enum Expected<'a> {
    Is(&'a str),
    Has(&'a str),
}

pub(crate) const NOTHING: Expected<'static> = Expected::Is("");

pub(crate) fn text(bytes: &[u8]) -> &str {
    str::from_utf8(bytes).unwrap_or("no text")
}

fn is_as_expected(printed: &[u8], expected: Expected<'_>) -> bool {
    match expected {
        Expected::Is(whole) => text(printed) == whole,
        Expected::Has(part) => text(printed).contains(part),
    }
}

/// How a call ended that should have ended otherwise.
fn amiss(arguments: &str, ended: &Ended) -> Fail {
    let found = ended.status;
    let printed = text(ended.output.as_slice());
    let error_text = text(ended.faults.as_slice());
    Fail::new(format_args!("{arguments}: {found}, {printed}, {error_text}"))
}

/// Makes a call, and fails unless it ends so: its status, and what it prints on the output and (`faults`) on the standard error.
pub(crate) fn expect<T: System>(
    rt: &T,
    call: Call<'_>,
    status: u8,
    output: Expected<'_>,
    faults: Expected<'_>,
) -> Result<(), Fail> {
    let ended = end_of(rt, &call)?;
    let is_so = ended.status == status
        && is_as_expected(ended.output.as_slice(), output)
        && is_as_expected(ended.faults.as_slice(), faults);
    if is_so {
        Ok(())
    } else {
        Err(amiss(call.arguments, &ended))
    }
}
