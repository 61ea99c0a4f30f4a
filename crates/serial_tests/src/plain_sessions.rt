//! When replies are written: before a read that may wait, and where the buffer is full.
use crate::common::SMALL;
use crate::plain_rows::served_into;
use plain::PlainFault;
use std::alloc::{AllocError, Global};
use std::cell::Cell;
use std::io;
use std::io::{ErrorKind, Read, Write};
use std::test::Fail;

/// Gives a piece of the input at each read, and nothing after the last. With each piece comes how
/// many bytes the client should have got by then.
#[derive(Drop)]
struct Client<'a> {
    reads: &'a [(usize, &'a [u8])],
    next: usize,
    got: &'a Cell<usize>,

    /// Whether the client had got another number of bytes at one of the reads.
    is_amiss: &'a Cell<bool>,
}

impl Read for Client<'_> {
    fn read(&mut self, buf: &mut [u8]) -> io::Result<usize> {
        let Some((due, piece)) = self.reads.get(self.next).copied() else {
            return Ok(0);
        };
        if self.got.get() != due {
            self.is_amiss.set(true);
        }
        self.next = self.next.saturating_add(1);
        let len = piece.len().min(buf.len());
        buf[..len].copy_from_slice(&piece[..len]);
        Ok(len)
    }
}

/// Takes bytes, which the client gets with the next flush.
#[derive(Drop)]
struct Pipe<'a> {
    taken: usize,
    got: &'a Cell<usize>,
}

impl Write for Pipe<'_> {
    fn write(&mut self, buf: &[u8]) -> io::Result<usize> {
        self.taken = self.taken.saturating_add(buf.len());
        Ok(buf.len())
    }

    fn flush(&mut self) -> io::Result<()> {
        self.got.set(self.taken);
        Ok(())
    }
}

/// How many bytes a client got in all, at the small geometry (`SMALL`, of one volume); the error `Read` if it had not got what it should at
/// one of the reads.
fn got_in_time(alloc: Global, reads: &[(usize, &[u8])]) -> Result<usize, PlainFault> {
    let got = Cell::new(0);
    let is_amiss = Cell::new(false);
    let client = Client {
        reads,
        next: 0,
        got: &got,
        is_amiss: &is_amiss,
    };
    let mut pipe = Pipe {
        taken: 0,
        got: &got,
    };
    served_into(alloc, SMALL, client, &mut pipe)?;
    if is_amiss.get() {
        return Err(PlainFault::Read);
    }
    Ok(got.get())
}

/// The replies are `done`, `error exists`, `done` and `summary 1 1 0`: with their newlines 5, 13, 5 and
/// 14 bytes.
const READS: [(usize, &[u8]); 4] = [
    (0, b"makevol 0 0\n"),
    (5, b"makevol 0 0\ncreate 0 "),
    (18, b"0 0\nsummary"),
    (23, b""),
];

#[test]
fn replies_are_written_before_a_read_that_may_wait(rt: HostRuntime) {
    assert_eq!(rt; got_in_time(rt.alloc(), &READS), Ok(37));
}

/// Refuses each write, and counts them and their bytes.
#[derive(Drop)]
struct Refusing<'a> {
    writes: &'a Cell<usize>,
    bytes: &'a Cell<usize>,
}

impl Write for Refusing<'_> {
    fn write(&mut self, buf: &[u8]) -> io::Result<usize> {
        self.writes.set(self.writes.get().saturating_add(1));
        self.bytes.set(self.bytes.get().saturating_add(buf.len()));
        Err(io::Error::from(ErrorKind::Other))
    }

    fn flush(&mut self) -> io::Result<()> {
        Ok(())
    }
}

/// Lines that write a full block and read it 100 times. All but the first three replies have 1,031
/// bytes.
fn long_answers(alloc: Global) -> Result<Vec<u8>, AllocError> {
    let digits = vec![in alloc; b'6'; 1024]?;
    let mut input = Vec::new(alloc);
    input.extend_from_slice(b"makevol 0 0\ncreate 0 0 0\nwrite 0 0 0 0 ")?;
    input.extend_from_slice(digits.as_slice())?;
    input.push(b'\n')?;
    for _ in 0..100 {
        input.extend_from_slice(b"read 0 0 0 0\n")?;
    }
    Ok(input)
}

#[test]
fn a_full_buffer_is_written_once(rt: HostRuntime) -> Result<(), Fail> {
    let input = long_answers(rt.alloc())?;
    let writes = Cell::new(0);
    let bytes = Cell::new(0);
    let mut refusing = Refusing {
        writes: &writes,
        bytes: &bytes,
    };
    let end = served_into(rt.alloc(), SMALL, input.as_slice(), &mut refusing);
    // The buffer of replies, of 64 KiB, has room for three short replies and 63 long ones.
    let seen = (end, writes.get(), bytes.get());
    assert_eq!(rt; seen, (Err(PlainFault::Write), 1, 15 + 63 * 1031));
    Ok(())
}
