//! A device, a reader and a writer that note what is done with them.
use disk::{Disk, DiskFault};
use std::io;
use std::io::{ErrorKind, Read, Write};
use std::sync::atomic::{AtomicBool, AtomicU64, Ordering};

/// A number at which every thread may look, and which only one thread changes.
#[derive(Drop)]
pub(crate) struct Count(AtomicU64);

impl Count {
    pub(crate) fn new() -> Count {
        Count(AtomicU64::new(0))
    }

    pub(crate) fn get(&self) -> u64 {
        self.0.load(Ordering::SeqCst)
    }

    pub(crate) fn set(&self, number: u64) {
        self.0.store(number, Ordering::SeqCst);
    }

    pub(crate) fn add(&self, more: u64) {
        self.set(self.get().saturating_add(more));
    }
}

/// Whether something has happened: every thread may look at it.
#[derive(Drop)]
pub(crate) struct Flag(AtomicBool);

impl Flag {
    pub(crate) fn new() -> Flag {
        Flag(AtomicBool::new(false))
    }

    pub(crate) fn get(&self) -> bool {
        self.0.load(Ordering::SeqCst)
    }

    pub(crate) fn set(&self) {
        self.0.store(true, Ordering::SeqCst);
    }
}

/// What a device, a reader and a writer of one server have seen.
#[derive(Drop)]
pub(crate) struct Notes {
    /// Gates of records of the small server (`SMALL`, with four records in a half) that were opened (1 was written to them) since the last
    /// sync.
    unsynced: Count,
    /// Gates that were opened and then synced: the records that count.
    pub(crate) logged: Count,
    /// How often 1 was written to a chain byte of the small server: the cuts that began.
    pub(crate) cuts: Count,
    /// How often the root byte was written: by the opening, and at the end of each checkpoint.
    pub(crate) root_writes: Count,
    /// Calls of `sync`, failed ones included.
    pub(crate) syncs: Count,
    /// Writes at or after `IMAGES`: pieces of images, if the server has 64 records in a half.
    pub(crate) pieces: Count,
    /// Reads of the input.
    pub(crate) reads: Count,
    /// Writes and flushes of the output.
    pub(crate) writes: Count,
    /// Lines that the reader gave.
    given: Count,
    /// Lines that the writer took.
    pub(crate) taken: Count,
    /// Lines that the writer took before its last flush.
    pub(crate) flushed: Count,
    /// Whether the writer has failed.
    failed: Flag,
    /// Whether a line was written before its record was synced, where each line is a change that gets a record.
    pub(crate) is_reply_early: Flag,
    /// Whether the input was read while the answer to a line that the reader had given was missing or not flushed.
    pub(crate) is_late: Flag,
    /// Whether something was read or written after a fault of the writer.
    pub(crate) went_on_after_fault: Flag,
}

/// How many lines end in these bytes.
fn ends_in(bytes: &[u8]) -> u64 {
    bytes.iter().filter(|byte| **byte == b'\n').count() as u64
}

impl Notes {
    pub(crate) fn new() -> Notes {
        Notes {
            unsynced: Count::new(),
            logged: Count::new(),
            cuts: Count::new(),
            root_writes: Count::new(),
            syncs: Count::new(),
            pieces: Count::new(),
            reads: Count::new(),
            writes: Count::new(),
            given: Count::new(),
            taken: Count::new(),
            flushed: Count::new(),
            failed: Flag::new(),
            is_reply_early: Flag::new(),
            is_late: Flag::new(),
            went_on_after_fault: Flag::new(),
        }
    }

    /// Notes that something is read or written, which is wrong once the writer has failed.
    fn note_stream(&self) {
        if self.failed.get() {
            self.went_on_after_fault.set();
        }
    }
}

/// Where the root byte lies.
const ROOT: u64 = 64;

/// Where the images of a server with 64 records in a half lie: after 128 bytes and two halves, each with 64 bytes before its gates and
/// 520 for a record.
const IMAGES: u64 = 128 + 2 * (64 + 64 + 64 * 520);

/// Where the chain bytes of the two halves of the small server (`SMALL`) lie.
const CHAINS: [u64; 2] = [128, 2276];

/// Where the gates of each half of the small server begin, and where they end.
const GATES: [(u64, u64); 2] = [(192, 196), (2340, 2344)];

/// How many gates are opened by writing these bytes from offset `at` on.
fn gates_in(at: u64, bytes: &[u8]) -> u64 {
    let mut count = 0u64;
    for (number, byte) in bytes.iter().enumerate() {
        let here = at.saturating_add(number as u64);
        let is_gate = GATES
            .iter()
            .any(|(start, end)| *start <= here && here < *end);
        if is_gate && *byte == 1 {
            count = count.saturating_add(1);
        }
    }
    count
}

/// Whether a chain byte becomes 1 by writing these bytes from offset `at` on: so a cut begins.
fn opens_chain(at: u64, bytes: &[u8]) -> bool {
    CHAINS.contains(&at) && bytes.first() == Some(&1)
}

/// A device that passes each call on to another one, and notes it. No contract says that it behaves as the device model: its `keeps` is ⊥,
/// so what a contract asks for under `D.keeps → ..` need not be proved here.
#[derive(Drop)]
pub(crate) struct Noting<'a, D: Disk> {
    pub(crate) device: D,
    pub(crate) notes: &'a Notes,
}

impl<D: Disk> Disk for Noting<'_, D> {
    ghost medium = { λ n. D.medium n.device };

    ghost keeps = { ⊥ };

    fn len(&self) -> u64 {
        self.device.len()
    }

    fn read_at(&mut self, at: u64, out: &mut [u8]) -> Result<(), DiskFault> {
        self.device.read_at(at, out)
    }

    fn write_at(&mut self, at: u64, bytes: &[u8]) -> Result<(), DiskFault> {
        self.notes.unsynced.add(gates_in(at, bytes));
        self.notes.root_writes.add(u64::from(at == ROOT));
        self.notes.pieces.add(u64::from(at >= IMAGES));
        self.notes.cuts.add(u64::from(opens_chain(at, bytes)));
        self.device.write_at(at, bytes)
    }

    fn sync(&mut self) -> Result<(), DiskFault> {
        self.notes.syncs.add(1);
        let answer = self.device.sync();
        if answer.is_ok() {
            self.notes.logged.add(self.notes.unsynced.get());
        }
        self.notes.unsynced.set(0);
        answer
    }

    ghost fits = { λ n. D.fits n.device };

    ghost bytes = { λ n. D.bytes n.device };
}

/// A reader that gives its bytes, `size` at a time. At their end a read fails if `fails`, else it gives nothing.
#[derive(Drop)]
pub(crate) struct ChunkReader<'a> {
    pub(crate) left: &'a [u8],
    pub(crate) size: usize,
    pub(crate) fails: bool,
    pub(crate) notes: &'a Notes,
}

impl Read for ChunkReader<'_> {
    fn read(&mut self, buf: &mut [u8]) -> io::Result<usize> {
        self.notes.note_stream();
        self.notes.reads.add(1);
        if self.notes.flushed.get() != self.notes.given.get() {
            self.notes.is_late.set();
        }
        if self.left.is_empty() && self.fails {
            return Err(io::Error::from(ErrorKind::Other));
        }
        let len = self.size.min(buf.len()).min(self.left.len());
        let (chunk, left) = self.left.split_at(len);
        buf[..len].copy_from_slice(chunk);
        self.left = left;
        self.notes.given.add(ends_in(chunk));
        Ok(len)
    }
}

/// A writer that takes at most `size` bytes at a time. Its call number `fails_at`, a write or a flush, fails, unless that is 0.
#[derive(Drop)]
pub(crate) struct Taking<'a> {
    pub(crate) output: Vec<u8>,
    pub(crate) size: usize,
    pub(crate) fails_at: u64,
    pub(crate) notes: &'a Notes,
}

impl Taking<'_> {
    /// Notes one more call, and fails if it is number `fails_at`.
    fn call(&mut self) -> io::Result<()> {
        self.notes.note_stream();
        self.notes.writes.add(1);
        if self.notes.writes.get() == self.fails_at {
            self.notes.failed.set();
            return Err(io::Error::from(ErrorKind::Other));
        }
        Ok(())
    }
}

impl Write for Taking<'_> {
    fn write(&mut self, buf: &[u8]) -> io::Result<usize> {
        self.call()?;
        let chunk = &buf[..self.size.min(buf.len())];
        self.notes.taken.add(ends_in(chunk));
        if self.notes.taken.get() > self.notes.logged.get() {
            self.notes.is_reply_early.set();
        }
        self.output.write(chunk)
    }

    fn flush(&mut self) -> io::Result<()> {
        self.call()?;
        self.notes.flushed.set(self.notes.taken.get());
        Ok(())
    }
}
