//! How far the checkpoint in progress goes on after an answer, while a job is in flight, and before a reply is sent. Here a `Gate` is a
//! hook of the server: a worker calls `before` just before it runs a job, the dispatcher `answered` just after a message is answered.
//! `ALL_AT_ONCE` is streams of which each call takes all, and none fails; `session` serves lines, and what it leaves is the device, the end
//! and the output.
use crate::assertions::{assert_ended, assert_text, assert_true};
use crate::serving_common::{ALL_AT_ONCE, End, Way, serve_lines, serve_on, session};
use crate::serving_noting::{ChunkReader, Count, Flag, Notes, Noting};
use disk::MemDisk;
use harness::{Wrong, device_with};
use std::alloc::{AllocError, Global};
use std::io::{self, Write};
use std::sync::Wait;
use std::test::Fail;
use std::thread;
use std::thread::Threads;
use workers::Gate;

/// One volume of one file of eight blocks, each in a stripe of its own, and 64 records in a half.
const WIDE: [u16; 8] = [1, 1, 8, 1, 1, 8, 1, 64];

/// A checkpoint is due after eight records: while it writes the pieces of eight stripes into an image, the next eight writes come.
const EIGHT: Way = Way {
    workers: 8,
    slots: 8,
    every: 8,
};

/// Looks at the device when a message is answered. Two answers with no sync between them are of messages logged together: at most one
/// piece of an image is written between these.
#[derive(Drop)]
struct Stepwise<'a> {
    /// What the device has noted, by which its syncs and pieces are counted.
    notes: &'a Notes,
    /// How many syncs there were by the last answer, and how many pieces were written.
    syncs: Count,
    pieces: Count,
    /// How often one piece was written between two such answers.
    steps: Count,
    /// Whether there were more between two of them.
    is_amiss: Flag,
}

impl Gate for Stepwise<'_> {
    fn before(&self, _ticket: u64) {}

    fn answered(&self, _ticket: u64) {
        let (syncs, pieces) = (self.notes.syncs.get(), self.notes.pieces.get());
        if syncs == self.syncs.get() {
            match pieces.saturating_sub(self.pieces.get()) {
                0 => {}
                1 => self.steps.add(1),
                _ => self.is_amiss.set(),
            }
        }
        self.syncs.set(syncs);
        self.pieces.set(pieces);
    }
}

/// A write of each block; any two are unrelated.
const EIGHT_WRITES: &[u8] = b"write 0 0 0 0 61
write 0 0 0 1 61
write 0 0 0 2 61
write 0 0 0 3 61
write 0 0 0 4 61
write 0 0 0 5 61
write 0 0 0 6 61
write 0 0 0 7 61
";

/// How often these eight writes come.
const ROUNDS: u64 = 100;

/// The lines that make a file and write its blocks, and their answers.
fn lines(alloc: Global) -> Result<(Vec<u8>, Vec<u8>), AllocError> {
    let mut lines = b"makevol 0 0\ncreate 0 0 0\n".to_vec(alloc)?;
    let mut answers = b"done\ndone\n".to_vec(alloc)?;
    for _ in 0..ROUNDS {
        lines.extend_from_slice(EIGHT_WRITES)?;
        answers.extend_from_slice(b"done\ndone\ndone\ndone\ndone\ndone\ndone\ndone\n")?;
    }
    Ok((lines, answers))
}

#[test]
fn at_most_one_piece_is_written_between_answers(rt: HostRuntime) -> Result<(), Fail> {
    let (lines, answers) = lines(rt.alloc())?;
    let notes = Notes::new();
    let gate = Stepwise {
        notes: &notes,
        syncs: Count::new(),
        pieces: Count::new(),
        steps: Count::new(),
        is_amiss: Flag::new(),
    };
    let device = device_with(rt.alloc(), WIDE, &[])?;
    let left = session(
        &rt,
        rt.alloc(),
        device,
        EIGHT,
        &lines,
        ALL_AT_ONCE,
        &gate,
        &notes,
    );
    assert_ended(&rt, left.end, End::Whole);
    assert_text(&rt, left.output.as_slice(), answers.as_slice());
    assert_true(&rt, gate.steps.get() > 0);
    assert_true(&rt, !gate.is_amiss.get());
    Ok(())
}

const A_FILE: &[u8] = b"makevol 0 0\ncreate 0 0 0\n";

/// A checkpoint is due after each change.
const EACH: Way = Way {
    workers: 2,
    slots: 16,
    every: 1,
};

/// How many pieces the first checkpoint writes after a device was opened, where all are dirty: those of the eight stripes and of the
/// volume.
const PIECES: u64 = 9;

/// A device with an empty file.
fn with_a_file<T: Threads + Wait + Sync>(rt: &T, alloc: Global) -> Result<MemDisk, Wrong> {
    let device = device_with(alloc, WIDE, &[])?;
    let (device, _) = serve_lines(rt, alloc, device, EACH, A_FILE)?;
    Ok(device)
}

/// How often a job looks whether a piece was written, before it goes on.
const LOOKS: u32 = 1_000_000;

/// Keeps job 1 waiting in its worker, and looks whether a piece is written meanwhile.
#[derive(Drop)]
struct Watching<'a> {
    notes: &'a Notes,
    /// How many pieces were written before that.
    pieces: Count,
    is_amiss: Flag,
}

impl Gate for Watching<'_> {
    fn before(&self, ticket: u64) {
        if ticket != 1 {
            return;
        }
        let pieces = self.notes.pieces.get();
        self.pieces.set(pieces);
        for _ in 0..LOOKS {
            if self.notes.pieces.get() != pieces {
                self.is_amiss.set();
                return;
            }
            thread::yield_now();
        }
    }

    fn answered(&self, _ticket: u64) {}
}

/// The second is related to the first, so it runs only after that was answered.
const TWICE: &[u8] = b"punch 0 0 0 0\npunch 0 0 0 0\n";

/// The checkpoint that is due after message 0 is in progress while job 1 is in flight. Nothing is answered meanwhile, so no piece may be
/// written.
#[test]
fn no_piece_is_written_while_a_job_is_out_and_none_is_answered(
    rt: HostRuntime,
) -> Result<(), Fail> {
    let notes = Notes::new();
    let gate = Watching {
        notes: &notes,
        pieces: Count::new(),
        is_amiss: Flag::new(),
    };
    let device = with_a_file(&rt, rt.alloc())?;
    let left = session(
        &rt,
        rt.alloc(),
        device,
        EACH,
        TWICE,
        ALL_AT_ONCE,
        &gate,
        &notes,
    );
    assert_ended(&rt, left.end, End::Whole);
    assert_text(&rt, left.output.as_slice(), b"done\ndone\n");
    let written = notes.pieces.get().saturating_sub(gate.pieces.get());
    assert_true(&rt, written >= PIECES && !gate.is_amiss.get());
    Ok(())
}

/// Remembers how many pieces were written when a message was last answered.
#[derive(Drop)]
struct AtAnswer<'a> {
    notes: &'a Notes,
    pieces: Count,
    /// How many were written when message 0 was answered.
    first: Count,
}

impl Gate for AtAnswer<'_> {
    fn before(&self, _ticket: u64) {}

    fn answered(&self, ticket: u64) {
        let pieces = self.notes.pieces.get();
        self.pieces.set(pieces);
        if ticket == 0 {
            self.first.set(pieces);
        }
    }
}

/// A writer that checks that replies are prompt: at each write, at most one piece may have been written since a message was last answered.
#[derive(Drop)]
struct Prompt<'a> {
    output: Vec<u8>,
    gate: &'a AtAnswer<'a>,
    is_amiss: Flag,
}

impl Write for Prompt<'_> {
    fn write(&mut self, buf: &[u8]) -> io::Result<usize> {
        let before = self.gate.pieces.get();
        if self.gate.notes.pieces.get() > before.saturating_add(1) {
            self.is_amiss.set();
        }
        self.output.write(buf)
    }

    fn flush(&mut self) -> io::Result<()> {
        Ok(())
    }
}

/// Changes of 14 bytes, of which a client sends two at a time.
const PAIRS: &[u8] = b"punch 0 0 0 0\npunch 0 0 0 0\npunch 0 0 0 1\npunch 0 0 0 1\n";

/// A client sends two changes and waits for both replies. The second reply is sent before the rest of the checkpoint that the first change
/// made due.
#[test]
fn no_reply_waits_for_a_whole_checkpoint(rt: HostRuntime) -> Result<(), Fail> {
    let notes = Notes::new();
    let gate = AtAnswer {
        notes: &notes,
        pieces: Count::new(),
        first: Count::new(),
    };
    let device = Noting {
        device: with_a_file(&rt, rt.alloc())?,
        notes: &notes,
    };
    // It gives 28 bytes at a time of what is left, and then ends without a fault.
    let mut reader = ChunkReader {
        left: PAIRS,
        size: 28,
        fails: false,
        notes: &notes,
    };
    let mut writer = Prompt {
        output: Vec::new(rt.alloc()),
        gate: &gate,
        is_amiss: Flag::new(),
    };
    let ended = serve_on(
        &rt,
        rt.alloc(),
        device,
        EACH,
        &mut reader,
        &mut writer,
        &gate,
    );
    assert_ended(&rt, ended.end, End::Whole);
    assert_text(&rt, writer.output.as_slice(), b"done\ndone\ndone\ndone\n");
    let written = notes.pieces.get().saturating_sub(gate.first.get());
    assert_true(&rt, written >= PIECES && !writer.is_amiss.get());
    Ok(())
}
