//! The replies that wait to be written, in a buffer of a fixed length. In clauses `all_output` is what the writer holds, where that is
//! known, and then what waits.

ghost use Rattle.std.specs.Prelude.{◌≡◌, ◌+◌, ◌≤◌, ◌⊎◌, ◌↔◌, [], ◌++◌, length, take, vec_len, IsTrue, IsOk, IfOk, OnOk, OnErr};
ghost use Rattle.std.specs.Io.KnownBytes.{Appends};
ghost use Rattle.message.specs.Reader.{HoldsLine};
ghost use Rattle.protocol.specs.Replies.{no_message, reply_line};
ghost use Rattle.message.specs.BufferedOutput.{FitsReply, all_output};
ghost use Rattle.message.specs.AppendsBeginning.{AppendsBeginning};
ghost use Rattle.protocol.specs.declared.replies.Reply.TheVariants.{Done, Refused, Block as block_reply};

use crate::line_reader::LineReader;
use crate::printing::{refusal_line, write_block};
use crate::writing::{WriteFault, write_in_order};
use crate::{LONGEST_REPLY, no_message_line, write_reply};
use protocol::{Block, Refusal, Reply};
use std::alloc::{AllocError, Global};
use std::io::{Read, Write};
use std::marker::Model;

/// How many bytes of replies may wait.
pub const REPLY_BUFFER_SIZE: usize = 65536;

/// Writes the line of a reply to the front of `room`, and gives its length.
#[inline(always)]
fn write_to_front(reply: &Reply, room: &mut [u8]) -> usize
    requires { length room.old ≡ LONGEST_REPLY }
    ensures line { take result room.new ≡ reply_line reply.now }
    ensures bound { result ≤ LONGEST_REPLY }
{
    let Some(out) = room.as_mut_array() else {
        unreachable!()
    };
    write_reply(reply, out)
}

/// Writes the line of a reply over the bytes from `at` on, and gives where it ends.
#[inline(always)]
fn put_reply(reply: &Reply, bytes: &mut [u8], at: usize) -> usize
    requires { at + LONGEST_REPLY ≤ length bytes.old }
    ensures line { take result bytes.new ≡ take at bytes.old ++ reply_line reply.now }
    ensures bound { result ≤ at + LONGEST_REPLY }
{
    at + write_to_front(reply, &mut bytes[at..at + LONGEST_REPLY])
}

/// Writes the line of a block to the front of `room`, and gives its length.
fn write_block_to_front(content: &Block, room: &mut [u8]) -> usize
    requires { length room.old ≡ LONGEST_REPLY }
    ensures line { take result room.new ≡ reply_line (block_reply content.now) }
    ensures bound { result ≤ LONGEST_REPLY }
{
    let Some(out) = room.as_mut_array() else {
        unreachable!()
    };
    write_block(content, out)
}

/// Writes the line of a block over the bytes from `at` on, and gives where it ends.
fn put_block(content: &Block, bytes: &mut [u8], at: usize) -> usize
    requires { at + LONGEST_REPLY ≤ length bytes.old }
    ensures line { take result bytes.new ≡ take at bytes.old ++ reply_line (block_reply content.now) }
    ensures bound { result ≤ at + LONGEST_REPLY }
{
    at + write_block_to_front(content, &mut bytes[at..at + LONGEST_REPLY])
}

/// The lines of replies that wait to be written, in order. A contract sees the bytes that wait.
/// Once made it allocates no more.
#[derive(Drop)]
pub struct ReplyBuffer {
    bytes: Vec<u8>,

    /// How many of them wait, from the front.
    len: usize,
}

impl Model for ReplyBuffer {
    ghost use Rattle.std.specs.Prelude.{◌≡◌, ℕ, ◌≤◌, List, take, vec_len};
    ghost use Rattle.message.specs.declared.reply_buffer.TheConstants.{REPLY_BUFFER_SIZE};

    ghost Value = { List ℕ };

    ghost view = { λ b. take b.len b.bytes.items };

    ghost invariant = { λ b. (vec_len b.bytes ≡ REPLY_BUFFER_SIZE) × (b.len ≤ REPLY_BUFFER_SIZE) };
}

impl ReplyBuffer {
    /// An empty one, of `REPLY_BUFFER_SIZE` bytes.
    pub fn new(alloc: Global) -> Result<ReplyBuffer, AllocError>
        ensures { IfOk result (λ out. out ≡ []) }
    {
        Ok(ReplyBuffer {
            bytes: vec![in alloc; 0; REPLY_BUFFER_SIZE]?,
            len: 0,
        })
    }

    /// Whether nothing waits.
    pub fn is_empty(&self) -> bool
        ensures { IsTrue result ↔ (self.now ≡ []) }
    {
        self.len == 0
    }

    /// Whether the longest reply has room after what waits.
    pub fn has_room(&self) -> bool
        ensures { IsTrue result ↔ FitsReply self.now }
    {
        self.len <= REPLY_BUFFER_SIZE - LONGEST_REPLY
    }

    /// What waits.
    pub fn waiting(&self) -> &[u8]
        ensures { result.now ≡ self.now }
    {
        &self.bytes.as_slice()[..self.len]
    }

    /// Drops all that waits: for a caller that has written it.
    pub fn clear(&mut self)
        ensures { self.new ≡ [] }
    {
        self.len = 0;
    }

    /// Writes all that waits, and flushes the writer. Where nothing waits it does neither.
    ///
    /// # Errors
    ///
    /// `WriteFault` where the writer fails. All that waited waits still, and a beginning of it was written.
    pub fn send<W: Write>(&mut self, w: &mut W) -> Result<(), WriteFault>
        ensures none_waits { OnOk result (self.new ≡ []) }
        ensures kept { OnOk result (Appends (all_output (W.contents w.old) self.old)
            (all_output (W.contents w.new) self.new) []) }
        ensures idle { self.old ≡ [] → IsOk result × (w.new ≡ w.old) }
        ensures begun { AppendsBeginning (W.contents w.old) (W.contents w.new) self.old }
        ensures unchanged { OnErr result (self.new ≡ self.old) }
    {
        if self.len == 0 {
            return Ok(());
        }
        write_in_order(w, self.waiting())?;
        self.clear();
        Ok(())
    }

    /// Writes all that waits before a read that may block. Where the reader holds a whole line nothing
    /// is written: the next line needs no read.
    ///
    /// # Errors
    ///
    /// Those of `send`.
    pub fn send_before_read<R: Read, W: Write>(
        &mut self,
        lines: &LineReader<R>,
        w: &mut W,
    ) -> Result<(), WriteFault>
        ensures none_waits { OnOk result (HoldsLine lines.now ⊎ (self.new ≡ [])) }
        ensures kept { OnOk result (Appends (all_output (W.contents w.old) self.old)
            (all_output (W.contents w.new) self.new) []) }
        ensures idle { HoldsLine lines.now → IsOk result × (self.new ≡ self.old) × (w.new ≡ w.old) }
        ensures begun { AppendsBeginning (W.contents w.old) (W.contents w.new) self.old }
        ensures unchanged { OnErr result (self.new ≡ self.old) }
    {
        if lines.holds_line() {
            Ok(())
        } else {
            self.send(w)
        }
    }

    /// Writes all that waits where the longest reply has no room after it.
    ///
    /// # Errors
    ///
    /// Those of `send`.
    pub fn make_room<W: Write>(&mut self, w: &mut W) -> Result<(), WriteFault>
        ensures room { OnOk result (FitsReply self.new) }
        ensures kept { OnOk result (Appends (all_output (W.contents w.old) self.old)
            (all_output (W.contents w.new) self.new) []) }
        ensures idle { FitsReply self.old → IsOk result × (self.new ≡ self.old) × (w.new ≡ w.old) }
        ensures begun { AppendsBeginning (W.contents w.old) (W.contents w.new) self.old }
        ensures unchanged { OnErr result (self.new ≡ self.old) }
    {
        if self.has_room() {
            Ok(())
        } else {
            self.send(w)
        }
    }

    /// Adds the line of a reply to the waiting ones.
    #[inline(always)]
    pub fn add_reply(&mut self, reply: &Reply)
        requires { FitsReply self.old }
        ensures { self.new ≡ self.old ++ reply_line reply.now }
    {
        self.len = put_reply(reply, &mut self.bytes, self.len);
    }

    /// Adds a block's reply without copying the block.
    pub fn add_block(&mut self, content: &Block)
        requires { FitsReply self.old }
        ensures { self.new ≡ self.old ++ reply_line (block_reply content.now) }
    {
        self.len = put_block(content, &mut self.bytes, self.len);
    }

    /// Adds a line that is not longer than the longest reply.
    fn add_line(&mut self, line: &[u8])
        requires room { FitsReply self.old }
        requires bound { length line.now ≤ LONGEST_REPLY }
        ensures { self.new ≡ self.old ++ line.now }
    {
        let end = self.len + line.len();
        self.bytes.as_mut_slice()[self.len..end].copy_from_slice(line);
        self.len = end;
    }

    /// Adds the line of `done`, without making a `Reply`.
    pub fn add_done(&mut self)
        requires { FitsReply self.old }
        ensures { self.new ≡ self.old ++ reply_line Done }
    {
        self.add_line(b"done\n");
    }

    /// Adds the line of a refusal.
    pub fn add_refusal(&mut self, why: Refusal)
        requires { FitsReply self.old }
        ensures { self.new ≡ self.old ++ reply_line (Refused why) }
    {
        self.add_line(refusal_line(why));
    }

    /// Adds the line that answers a line that is no message.
    pub fn add_no_message(&mut self)
        requires { FitsReply self.old }
        ensures { self.new ≡ self.old ++ no_message }
    {
        self.add_line(no_message_line());
    }
}
