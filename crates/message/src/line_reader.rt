//! The lines of an input, one after the other, from a buffer of a fixed length. In clauses `Keeps a b` says that the bytes a, where they
//! are known, stay as they were, and `Consumes a b bs` that they lose bs at their front; `prepend_known bs a` is bs and then a. `unread` is
//! what isn't given yet: the bytes that are held, and then, until a read reports the end, what the reader has left. `LosesLineStart bs a`:
//! a is what is left of bs after some first bytes, none of them a newline. `KnowsEnd`: once a read has reported the end, the reader has
//! nothing left.
ghost use Rattle.std.specs.Prelude.{◌≡◌, ◌≢◌, ℕ, ◌+◌, ◌-◌, ◌<◌, ◌≤◌, ◌↔◌, ◌⊎◌, [], true, false, length, take, drop, slice_index, IsTrue, IsFalse, IsOk, IsErr, is_err, IfSome, IfOk, OnOk, OnErr, Contains, vec_len};
ghost use Rattle.std.specs.Io.KnownBytes.{Keeps, Consumes, IsAtEnd, prepend_known};
ghost use Rattle.protocol.specs.declared.sizes.TheConstants.{LONGEST_LINE};

use crate::LONGEST_LINE;
use memchr::memchr;
use std::io::Read;

/// What was found in an input.
#[derive(Clone, Copy, Debug, PartialEq, Eq)]
pub enum Found {
    /// A line of at most `LONGEST_LINE` bytes.
    Line,
    /// A line of more than `LONGEST_LINE` bytes. It was passed over, and nothing after it is lost.
    TooLong,
    /// The end of the input.
    End,
}

/// A read failed, or more than 2^64 - 1 reads were needed.
#[derive(Clone, Copy, Debug, PartialEq, Eq)]
pub struct ReadFault;

/// The bytes that are read and not yet given, `buffer[start..end]`, and the line that was given last,
/// `buffer[line_start..line_end]`.
#[derive(Drop)]
struct Buffered {
    buffer: Vec<u8>,
    line_start: usize,
    line_end: usize,
    start: usize,

    /// Where the first newline of the bytes not yet given is, or `end`.
    newline: usize,
    end: usize,
    ghost room: { LONGEST_LINE < vec_len buffer },
    ghost line_ordered: { line_start ≤ line_end },
    ghost line_within: { line_end ≤ vec_len buffer },
    ghost starts_before: { start ≤ newline },
    ghost newline_within: { newline ≤ end },
    ghost ends_within: { end ≤ vec_len buffer },
    ghost none_before: { (k : ℕ) → start ≤ k → k < newline → slice_index buffer.items k ≢ 10 },
    ghost newline_there: { newline < end → slice_index buffer.items newline ≡ 10 },
}

/// Where the first newline is, or the length where there is none.
fn find_newline(bytes: &[u8]) -> usize
    ensures within { result ≤ length bytes.now }
    ensures none_before { (k : ℕ) → k < result → slice_index bytes.now k ≢ 10 }
    ensures there { result < length bytes.now → slice_index bytes.now result ≡ 10 }
{
    memchr(b'\n', bytes).unwrap_or(bytes.len())
}

/// Reads once, into the bytes of the buffer from `at` on.
fn read_over<R: Read>(reader: &mut R, buffer: &mut Vec<u8>, at: usize) -> Result<usize, ReadFault>
    requires { at < vec_len buffer.old }
    ensures len { vec_len buffer.new ≡ vec_len buffer.old }
    ensures front { take at buffer.new.items ≡ take at buffer.old.items }
    ensures within { IfOk result (λ n. at + n ≤ vec_len buffer.new) }
    ensures read { IfOk result (λ n.
        Consumes (R.remaining reader.old) (R.remaining reader.new) (take n (drop at buffer.new.items))) }
    ensures end { IfOk result (λ n. n ≡ 0 → IsAtEnd (R.remaining reader.new)) }
    ensures fault { OnErr result (Keeps (R.remaining reader.old) (R.remaining reader.new)) }
{
    match reader.read(&mut buffer.as_mut_slice()[at..]) {
        Ok(n) => Ok(n),
        Err(_) => Err(ReadFault),
    }
}

impl Buffered {
    ghost use Rattle.protocol.specs.FirstLine.{first_line, behind_first_line, IsWithinLine};
    ghost use Rattle.message.specs.Reader.{buffered_bytes, given_line};

    fn new(buffer: Vec<u8>) -> Buffered
        requires { LONGEST_LINE < vec_len buffer }
        ensures bytes { buffered_bytes result ≡ [] }
        ensures line { given_line result ≡ [] }
    {
        Buffered {
            buffer,
            line_start: 0,
            line_end: 0,
            start: 0,
            newline: 0,
            end: 0,
        }
    }

    fn line(&self) -> &[u8]
        ensures { result.now ≡ given_line self.now }
    {
        &self.buffer.as_slice()[self.line_start..self.line_end]
    }

    fn is_empty(&self) -> bool
        ensures { IsTrue result ↔ (buffered_bytes self.now ≡ []) }
    {
        self.start == self.end
    }

    fn has_newline(&self) -> bool
        ensures holds { IsTrue result ↔ Contains (buffered_bytes self.now) 10 }
        ensures none { IsFalse result → IsWithinLine (buffered_bytes self.now) }
    {
        self.newline < self.end
    }

    /// How many bytes of the first line are held.
    fn first_len(&self) -> usize
        ensures { result ≡ length (first_line (buffered_bytes self.now)) }
    {
        self.newline - self.start
    }

    /// Forgets the line that was given last: `line` is empty then.
    fn forget_line(&mut self)
        ensures bytes { buffered_bytes self.new ≡ buffered_bytes self.old }
        ensures line { given_line self.new ≡ [] }
    {
        self.line_start = 0;
        self.line_end = 0;
    }

    /// Drops the first line, with its newline.
    fn pass_line(&mut self)
        ensures bytes { buffered_bytes self.new ≡ behind_first_line (buffered_bytes self.old) }
        ensures line { given_line self.new ≡ given_line self.old }
    {
        self.start = self.end.min(self.newline + 1);
        let behind = &self.buffer.as_slice()[self.start..self.end];
        self.newline = self.start + find_newline(behind);
    }

    /// Makes the first line the one that was given last, and drops it from the bytes not yet given.
    fn take_line(&mut self)
        ensures bytes { buffered_bytes self.new ≡ behind_first_line (buffered_bytes self.old) }
        ensures line { given_line self.new ≡ first_line (buffered_bytes self.old) }
    {
        self.line_start = self.start;
        self.line_end = self.newline;
        self.pass_line();
    }

    /// Drops all bytes that are not yet given.
    fn clear(&mut self)
        ensures bytes { buffered_bytes self.new ≡ [] }
        ensures gone { self.new.start ≡ self.new.end }
        ensures line { given_line self.new ≡ given_line self.old }
    {
        self.start = 0;
        self.newline = 0;
        self.end = 0;
    }

    /// Moves what is held to the front of the buffer.
    fn move_to_front(&mut self)
        requires { given_line self.old ≡ [] }
        ensures bytes { buffered_bytes self.new ≡ buffered_bytes self.old }
        ensures line { given_line self.new ≡ [] }
        ensures front { self.new.start ≡ 0 }
        ensures end { self.new.end + self.old.start ≡ self.old.end }
        ensures newline { self.new.newline + self.old.start ≡ self.old.newline }
    {
        self.buffer.copy_within(self.start..self.end, 0);
        self.newline -= self.start;
        self.end -= self.start;
        self.start = 0;
    }

    /// Reads once, after what is held, and gives how many bytes came.
    fn read_behind<R: Read>(&mut self, reader: &mut R) -> Result<usize, ReadFault>
        requires line { given_line self.old ≡ [] }
        requires no_newline { self.old.newline ≡ self.old.end }
        requires room { self.old.end < vec_len self.old.buffer }
        ensures line { given_line self.new ≡ [] }
        ensures bytes { IfOk result (λ n.
            Keeps (prepend_known (buffered_bytes self.old) (R.remaining reader.old))
            (prepend_known (buffered_bytes self.new) (R.remaining reader.new))) }
        ensures count { IfOk result
            (λ n. length (buffered_bytes self.new) ≡ length (buffered_bytes self.old) + n) }
        ensures end { IfOk result (λ n. n ≡ 0 → IsAtEnd (R.remaining reader.new)) }
        ensures fault { OnErr result (Keeps (R.remaining reader.old) (R.remaining reader.new)) }
        ensures kept { OnErr result (buffered_bytes self.new ≡ buffered_bytes self.old) }
    {
        let at = self.end;
        let count = read_over(reader, &mut self.buffer, at)?;
        let came = &self.buffer.as_slice()[at..at + count];
        self.newline = at + find_newline(came);
        self.end = at + count;
        Ok(count)
    }

    /// Reads once, as much as there is room for after what is held, and gives how many bytes came.
    fn fill<R: Read>(&mut self, reader: &mut R) -> Result<usize, ReadFault>
        requires line { given_line self.old ≡ [] }
        requires within_line { IsWithinLine (buffered_bytes self.old) }
        requires room { length (buffered_bytes self.old) ≤ LONGEST_LINE }
        ensures line { given_line self.new ≡ [] }
        ensures bytes { IfOk result (λ n.
            Keeps (prepend_known (buffered_bytes self.old) (R.remaining reader.old))
            (prepend_known (buffered_bytes self.new) (R.remaining reader.new))) }
        ensures count { IfOk result
            (λ n. length (buffered_bytes self.new) ≡ length (buffered_bytes self.old) + n) }
        ensures end { IfOk result (λ n. n ≡ 0 → IsAtEnd (R.remaining reader.new)) }
        ensures fault { OnErr result (Keeps (R.remaining reader.old) (R.remaining reader.new)) }
        ensures kept { OnErr result (buffered_bytes self.new ≡ buffered_bytes self.old) }
    {
        self.move_to_front();
        self.read_behind(reader)
    }
}

/// Gives the lines of an input one after the other, from a buffer of a fixed length. It allocates no
/// memory.
#[derive(Drop)]
pub struct LineReader<R> {
    reader: R,
    buffered: Buffered,

    /// A read has reported the end. No read follows.
    ended: bool,

    /// A read has failed, or too many reads were needed. No read follows, and nothing is held any more.
    failed: bool,
    ghost nothing_kept: { failed ≡ true → (buffered.start ≡ buffered.end) × (ended ≡ false) },
}

impl<R: Read> LineReader<R> {
    ghost use Rattle.protocol.specs.FirstLine.{first_line, behind_first_line, IsWithinLine, LosesLineStart, HasWholeFirstLine};
    ghost use Rattle.message.specs.Reader.{buffered_bytes, HoldsEnough, unread, line_of, HoldsLine, has_ended, has_failed, source, Finds, Closes, is_drained, KnowsEnd};

    /// A reader of lines over a reader, before its first read. The buffer takes the longest line and its newline.
    /// A read fills it as far as the reader gives, so its length is how much is read at a time.
    pub fn new(reader: R, buffer: Vec<u8>) -> LineReader<R>
        requires { LONGEST_LINE < vec_len buffer }
        ensures unread { unread R.remaining result ≡ R.remaining reader }
        ensures line { line_of result ≡ [] }
        ensures not_failed { IsFalse (has_failed result) }
        ensures open { IsFalse (has_ended result) }
        ensures source { source result ≡ reader }
    {
        LineReader {
            reader,
            buffered: Buffered::new(buffer),
            ended: false,
            failed: false,
        }
    }

    /// The line that was found last, without its newline.
    pub fn line(&self) -> &[u8]
        ensures { result.now ≡ line_of self.now }
    {
        self.buffered.line()
    }

    /// Whether a whole line is held, its newline included. `next_line` then does not read.
    pub fn holds_line(&self) -> bool
        ensures { IsTrue result ↔ HoldsLine self.now }
    {
        self.buffered.has_newline()
    }

    /// Whether the input has ended and all of it was given: what comes next is the end.
    pub fn is_drained(&self) -> bool
        ensures value { result ≡ is_drained self.now }
        ensures nothing { IsTrue result → IfSome (unread R.remaining self.now) (λ bs. bs ≡ []) }
    {
        self.ended && self.buffered.is_empty()
    }

    /// Finds the next line, which `line` then shows. It reads only where no whole line is held. A
    /// line that is too long is passed over up to its newline, or to the end where it has none.
    ///
    /// # Errors
    ///
    /// `ReadFault` where a read fails, also one that was interrupted, and where more than 2^64 - 1
    /// reads are needed. All lines that were read whole were given before. From then on each call
    /// returns `ReadFault`, and none reads.
    pub fn next_line(&mut self) -> Result<Found, ReadFault>
        ensures found { Finds result (unread R.remaining self.old)
            (line_of self.new) (unread R.remaining self.new) }
        // A line that was found ends with a newline, or with the input.
        ensures closes { Closes result (unread R.remaining self.old) (is_drained self.new) }
        ensures short { result ≡ Ok Found.Line → length (line_of self.new) ≤ LONGEST_LINE }
        ensures no_line { result ≢ Ok Found.Line → line_of self.new ≡ [] }

        // After a fault nothing is held, and the fault is permanent.
        ensures failed { has_failed self.new ≡ is_err result }
        ensures lost { OnErr result (unread R.remaining self.new ≡ R.remaining (source self.new)) }
        ensures for_good { IsTrue (has_failed self.old)
            → IsErr result × (source self.new ≡ source self.old) }
        ensures at_once { HoldsLine self.old → source self.new ≡ source self.old }
        ensures ready { HoldsLine self.old → IsFalse (has_failed self.old) → IsOk result }

        // Once a read has reported the end, no other follows.
        ensures end { result ≡ Ok Found.End → IsTrue (has_ended self.new) }
        ensures no_read_after_end { IsTrue (has_ended self.old) → source self.new ≡ source self.old }
        ensures at_end { KnowsEnd R.remaining self.old → KnowsEnd R.remaining self.new }
    {
        self.buffered.forget_line();
        if self.failed {
            return Err(ReadFault);
        }
        self.gather()?;
        self.give()
    }

    /// Gives back the reader. What was read of it and not given is lost.
    pub fn into_inner(self) -> R
        ensures { result ≡ source self }
    {
        self.reader
    }

    /// Whether a read is needed to know what comes next: a line, one that is too long, or the end.
    fn wants_more(&self) -> bool
        ensures open { IsTrue result → IsFalse (has_ended self.now) }
        ensures within_line { IsTrue result → IsWithinLine (buffered_bytes self.now.buffered) }
        ensures room { IsTrue result → length (buffered_bytes self.now.buffered) ≤ LONGEST_LINE }
        ensures enough { IsFalse result → HoldsEnough self.now }
    {
        if self.buffered.has_newline() || self.ended {
            return false;
        }
        self.buffered.first_len() <= LONGEST_LINE
    }

    /// Reads once.
    fn refill(&mut self) -> Result<(), ReadFault>
        requires line { line_of self.old ≡ [] }
        requires not_failed { IsFalse (has_failed self.old) }
        requires open { IsFalse (has_ended self.old) }
        requires within_line { IsWithinLine (buffered_bytes self.old.buffered) }
        requires room { length (buffered_bytes self.old.buffered) ≤ LONGEST_LINE }
        ensures line { line_of self.new ≡ [] }
        ensures bytes { OnOk result
            (Keeps (unread R.remaining self.old) (unread R.remaining self.new)) }
        ensures lost { OnErr result (IfSome (unread R.remaining self.old)
            (λ bs. LosesLineStart bs (unread R.remaining self.new))) }
        ensures failed { has_failed self.new ≡ is_err result }
        ensures at_end { KnowsEnd R.remaining self.new }
        ensures more { OnOk result (IsTrue (has_ended self.new)
            ⊎ (length (buffered_bytes self.old.buffered) < length (buffered_bytes self.new.buffered))) }
    {
        match self.buffered.fill(&mut self.reader) {
            Ok(count) => {
                self.ended = count == 0;
                Ok(())
            }
            Err(fault) => {
                self.buffered.clear();
                self.failed = true;
                Err(fault)
            }
        }
    }

    /// Reads until what is held shows what comes next: a line, one that is too long, or the end.
    fn gather(&mut self) -> Result<(), ReadFault>
        requires line { line_of self.old ≡ [] }
        requires not_failed { IsFalse (has_failed self.old) }
        ensures line { line_of self.new ≡ [] }
        ensures bytes { OnOk result
            (Keeps (unread R.remaining self.old) (unread R.remaining self.new)) }
        ensures lost { OnErr result (IfSome (unread R.remaining self.old)
            (λ bs. LosesLineStart bs (unread R.remaining self.new))) }
        ensures failed { has_failed self.new ≡ is_err result }
        ensures enough { OnOk result (HoldsEnough self.new) }
        ensures at_once { HoldsLine self.old → self.new ≡ self.old }
        ensures no_read_after_end { IsTrue (has_ended self.old) → self.new ≡ self.old }
        ensures at_end { KnowsEnd R.remaining self.old → KnowsEnd R.remaining self.new }
    {
        while self.wants_more() {
            self.refill()?;
        }
        Ok(())
    }

    /// Reads and drops what came, until a newline is held or the end was reported.
    fn skip(&mut self) -> Result<(), ReadFault>
        requires line { line_of self.old ≡ [] }
        requires not_failed { IsFalse (has_failed self.old) }
        requires open { IsFalse (has_ended self.old) }
        requires within_line { IsWithinLine (buffered_bytes self.old.buffered) }
        ensures line { line_of self.new ≡ [] }
        ensures lost { IfSome (unread R.remaining self.old)
            (λ bs. LosesLineStart bs (unread R.remaining self.new)) }
        ensures failed { has_failed self.new ≡ is_err result }
        ensures whole { OnOk result (IsTrue (has_ended self.new) ⊎ HoldsLine self.new) }
        ensures at_end { KnowsEnd R.remaining self.new }
    {
        for _ in 0..u64::MAX {
            self.buffered.clear();
            self.refill()?;
            if self.ended || self.buffered.has_newline() {
                return Ok(());
            }
        }
        self.buffered.clear();
        self.failed = true;
        Err(ReadFault)
    }

    /// Passes over the first line, whatever its length.
    fn skip_line(&mut self) -> Result<(), ReadFault>
        requires line { line_of self.old ≡ [] }
        requires not_failed { IsFalse (has_failed self.old) }
        ensures line { line_of self.new ≡ [] }
        ensures passed { OnOk result (IfSome (unread R.remaining self.old)
            (λ bs. unread R.remaining self.new ≡ Some (behind_first_line bs))) }
        ensures closed { OnOk result (HasWholeFirstLine (unread R.remaining self.old) (is_drained self.new)) }
        ensures lost { OnErr result (IfSome (unread R.remaining self.old)
            (λ bs. LosesLineStart bs (unread R.remaining self.new))) }
        ensures failed { has_failed self.new ≡ is_err result }
        ensures at_once { HoldsLine self.old → source self.new ≡ source self.old }
        ensures ready { HoldsLine self.old → IsOk result }
        ensures no_read_after_end { IsTrue (has_ended self.old) → source self.new ≡ source self.old }
        ensures at_end { KnowsEnd R.remaining self.old → KnowsEnd R.remaining self.new }
    {
        if !self.ended && !self.buffered.has_newline() {
            self.skip()?;
        }
        self.buffered.pass_line();
        Ok(())
    }

    /// Gives what comes next, by what is held. A line that is too long may need more reads, to skip it.
    fn give(&mut self) -> Result<Found, ReadFault>
        requires line { line_of self.old ≡ [] }
        requires not_failed { IsFalse (has_failed self.old) }
        requires enough { HoldsEnough self.old }
        ensures found { Finds result (unread R.remaining self.old)
            (line_of self.new) (unread R.remaining self.new) }
        // A line that was found ends with a newline, or with the input.
        ensures closes { Closes result (unread R.remaining self.old) (is_drained self.new) }
        ensures short { result ≡ Ok Found.Line → length (line_of self.new) ≤ LONGEST_LINE }
        ensures no_line { result ≢ Ok Found.Line → line_of self.new ≡ [] }
        ensures failed { has_failed self.new ≡ is_err result }
        ensures at_once { HoldsLine self.old → source self.new ≡ source self.old }
        ensures ready { HoldsLine self.old → IsOk result }
        ensures end { result ≡ Ok Found.End → IsTrue (has_ended self.new) }
        ensures no_read_after_end { IsTrue (has_ended self.old) → source self.new ≡ source self.old }
        ensures at_end { KnowsEnd R.remaining self.old → KnowsEnd R.remaining self.new }
    {
        if self.buffered.first_len() > LONGEST_LINE {
            self.skip_line()?;
            return Ok(Found::TooLong);
        }
        if self.buffered.is_empty() {
            return Ok(Found::End);
        }
        self.buffered.take_line();
        Ok(Found::Line)
    }
}
