//! The reorder buffer of the lines that were read and not retired yet (taken out, with the answer put into the reply buffer), oldest first.

ghost use Rattle.std.specs.Prelude.{◌≡◌, ◌<◌, ◌≤◌, ◌+◌, ◌++◌, ◌∷◌, [], IfOk, MatchBool, MatchOption, ℕ, drop, length, map};
ghost use Rattle.message.specs.BufferedOutput.{FitsReply};
ghost use Rattle.reorder_buffer.specs.ReorderBuffer.{Line, complete_one, HaveTicketsFrom, AreConsecutive, HasTicket, IsAnsweredAt, can_retire, retired_text, with_tickets};

use message::ReplyBuffer;
use protocol::{Refusal, Reply};
use std::alloc::{AllocError, Global};
use std::collections::VecDeque;
use std::marker::Model;

/// What is known of a line that was read.
#[derive(Clone, Copy)]
pub enum Line {
    /// It is no message.
    NoMessage,
    /// It is a message with a number that is out of range.
    OutOfRange,
    /// It is the message with this ticket, which has no reply yet.
    Pending(u64),
    /// It is the message with this ticket, and this is its reply.
    Completed(u64, Reply),
}

/// Which kind of line it is, for each line of the reorder buffer.
#[derive(Clone, Copy)]
enum LineKind {
    /// A line that is no message.
    NoMessage,
    /// A message with a number that is out of range.
    OutOfRange,
    /// A message with a ticket.
    Ticketed,
}

/// The lines that were read and not retired yet, oldest first. A contract sees them, and how many there is room for. Once made, the reorder
/// buffer takes no more memory.
///
/// A line without a ticket is its kind alone. Those with tickets lie in a queue of their own. Their tickets go up by one, so that a
/// ticket gives the index of its line there.
pub struct ReorderBuffer {
    kinds: VecDeque<LineKind>,
    /// The lines with tickets, oldest first: none of them is `NoMessage` or `OutOfRange`. They are `Line`s all the same, as contracts see
    /// `Line`s, and `front` gives a reference to one. A type of their own would have to be converted in both.
    ticketed: VecDeque<Line>,
    slots: usize,
}

// By hand, as a derived one is proved anew in each crate that drops a reorder buffer.
impl Drop for ReorderBuffer {
    fn drop(self) {
        let ReorderBuffer {
            kinds: _,
            ticketed: _,
            slots: _,
        } = self;
    }
}

impl Model for ReorderBuffer {
    ghost use Rattle.reorder_buffer.specs.ReorderBuffer.{ReorderBufferView};

    ghost Value = { ReorderBufferView };

    ghost use Rattle.reorder_buffer.specs.View.{buffer_view, IsReorderBuffer};

    ghost view = { buffer_view };

    ghost invariant = { IsReorderBuffer };
}

/// Stores the reply to the message with this ticket in a line, if that is the message's line and pending.
fn complete_line(line: &mut Line, ticket: u64, reply: &Reply)
    ensures { line.new ≡ complete_one ticket reply.now line.old }
{
    match line {
        Line::Pending(its) if *its == ticket => *line = Line::Completed(ticket, *reply),
        Line::NoMessage | Line::OutOfRange | Line::Pending(_) | Line::Completed(..) => {}
    }
}

/// The ticket of the oldest of these lines, if it has one.
fn first_ticket(ticketed: &VecDeque<Line>) -> Option<u64>
    ensures { (first : ℕ) → HaveTicketsFrom first ticketed.now.items
        → MatchOption result (ticketed.now.items ≡ []) (λ ticket. ticket ≡ first) }
{
    match ticketed.front()? {
        Line::Pending(ticket) | Line::Completed(ticket, _) => Some(*ticket),
        Line::NoMessage | Line::OutOfRange => None,
    }
}

/// The index of the line with this ticket, if it is there.
fn index_of(ticketed: &VecDeque<Line>, ticket: u64) -> Option<usize>
    requires { AreConsecutive ticketed.now.items }
    ensures { IsAnsweredAt ticket result ticketed.now.items }
{
    let index = ticket.checked_sub(first_ticket(ticketed)?)?;
    if index < ticketed.len() as u64 {
        Some(index as usize)
    } else {
        None
    }
}

impl ReorderBuffer {
    /// An empty reorder buffer, with room for `slots` lines.
    pub fn new(alloc: Global, slots: usize) -> Result<ReorderBuffer, AllocError>
        ensures lines { IfOk result (λ buffer. buffer.lines ≡ []) }
        ensures slots { IfOk result (λ buffer. buffer.slots ≡ slots) }
    {
        Ok(ReorderBuffer {
            kinds: VecDeque::with_capacity(alloc, slots)?,
            ticketed: VecDeque::with_capacity(alloc, slots)?,
            slots,
        })
    }

    /// How many lines there are.
    pub fn len(&self) -> usize
        ensures len { result ≡ length self.now.lines }
        ensures within { result ≤ self.now.slots }
    {
        self.kinds.len()
    }

    /// How many lines there is room for.
    pub fn slots(&self) -> usize
        ensures { result ≡ self.now.slots }
    {
        self.slots
    }

    /// The oldest line.
    fn front(&self) -> Option<&Line>
        ensures { MatchOption result (self.now.lines ≡ []) (λ line. self.now.lines ≡ line.now ∷ drop 1 self.now.lines) }
    {
        match self.kinds.front()? {
            LineKind::NoMessage => Some(&Line::NoMessage),
            LineKind::OutOfRange => Some(&Line::OutOfRange),
            LineKind::Ticketed => self.ticketed.front(),
        }
    }

    /// Puts a line after the others. If it has a ticket, that is the next one after theirs. It is inlined, so that a pending line is not
    /// copied with the unused space of a reply.
    #[inline(always)]
    pub fn push(&mut self, line: Line)
        requires room { length self.old.lines < self.old.slots }
        requires order { (ticket : ℕ) → HasTicket ticket line → AreConsecutive (with_tickets self.old.lines ++ line ∷ []) }
        ensures lines { self.new.lines ≡ self.old.lines ++ line ∷ [] }
        ensures slots { self.new.slots ≡ self.old.slots }
    {
        match line {
            Line::NoMessage => self.kinds.push_back_reserved(LineKind::NoMessage),
            Line::OutOfRange => self.kinds.push_back_reserved(LineKind::OutOfRange),
            Line::Pending(_) | Line::Completed(..) => {
                self.kinds.push_back_reserved(LineKind::Ticketed);
                self.ticketed.push_back_reserved(line);
            }
        }
    }

    /// Removes the oldest line, if there is one.
    fn pop(&mut self)
        ensures lines { self.new.lines ≡ drop 1 self.old.lines }
        ensures slots { self.new.slots ≡ self.old.slots }
    {
        if let Some(LineKind::Ticketed) = self.kinds.pop_front() {
            self.ticketed.pop_front();
        }
    }

    /// Stores the reply to the message with this ticket in its line, if that is in the reorder buffer and pending.
    pub fn answer(&mut self, ticket: u64, reply: Reply)
        ensures lines { self.new.lines ≡ map (complete_one ticket reply) self.old.lines }
        ensures slots { self.new.slots ≡ self.old.slots }
    {
        if let Some(k) = index_of(&self.ticketed, ticket) {
            complete_line(&mut self.ticketed[k], ticket, &reply);
        }
    }

    /// Removes the oldest line and appends its answer to the reply buffer, if the answer is known. Returns whether it did.
    pub fn retire_front(&mut self, reply_buffer: &mut ReplyBuffer) -> bool
        requires { FitsReply reply_buffer.old }
        ensures next { result ≡ can_retire self.old.lines }
        ensures retired { MatchBool result (reply_buffer.new ≡ reply_buffer.old ++ retired_text self.old.lines)
            (reply_buffer.new ≡ reply_buffer.old) }
        ensures lines { MatchBool result (self.new.lines ≡ drop 1 self.old.lines) (self.new ≡ self.old) }
        ensures slots { self.new.slots ≡ self.old.slots }
    {
        match self.front() {
            None | Some(Line::Pending(_)) => return false,
            Some(Line::NoMessage) => reply_buffer.add_no_message(),
            Some(Line::OutOfRange) => reply_buffer.add_refusal(Refusal::Range),
            Some(Line::Completed(_, reply)) => reply_buffer.add_reply(reply),
        }
        self.pop();
        true
    }
}
