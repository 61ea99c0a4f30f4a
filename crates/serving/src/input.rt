//! Reading: takes each line into the reorder buffer, and its message into the core.

ghost use Rattle.std.specs.Prelude.{◌≡◌, ◌≢◌, ◌<◌, ◌≤◌, ◌↔◌, ◌+◌, ◌++◌, List, [], ◌∷◌, IsFalse, IsTrue, Option, None, OnErr, false, is_none, length, true};
ghost use Rattle.histories.specs.Events.{arrive};
ghost use Rattle.histories.specs.Progress.{steps_to_come};
ghost use Rattle.parcel.specs.JobRun.{JobView};
ghost use Rattle.histories.specs.declared.outcomes.ArriveRefusal.TheVariants as arrivals;
ghost use Rattle.histories.specs.declared.outcomes.Outcome.TheVariants as outcomes;
ghost use Rattle.protocol.specs.Grammar.{message_of};
ghost use Rattle.protocol.specs.declared.messages.Msg.{Msg};
ghost use Rattle.scheduler.specs.CoreView.{core_state_of};
ghost use Rattle.scheduler.specs.Machine.{machine_of};
ghost use Rattle.scheduler.specs.declared.hands.HandContent.{HandContent};
ghost use Rattle.serving.specs.Kill.{IsKillSafe};
ghost use Rattle.serving.specs.Lines.{Pending};
ghost use Rattle.serving.specs.TakesLine.{TakesLine};
ghost use Rattle.reorder_buffer.specs.ReorderBuffer.{AreConsecutive, with_tickets};
ghost use Rattle.serving.specs.Runs.{HandsHaveJobs, machine_with_jobs};
ghost use Rattle.serving.specs.Session.{CanReadLine, NoneUnanswered, steps_ahead};
ghost use Rattle.serving.specs.SessionSteps.{HasTakenLines, HasTakenNone};
ghost use Rattle.serving.specs.declared.session.Activity.TheVariants as activities;

use crate::output::ReplySink;
use crate::session::{Activity, ReadEnd, Session};
use disk::Disk;
use histories::ArriveRefusal;
use message::Found;
use reorder_buffer::{Line, ReorderBuffer};
use scheduler::Core;
use std::io::Read;

/// Takes the line of these bytes into the reorder buffer and, if it is a message in range, the message into the core; a message out of
/// range takes no ticket. `Err` is why no more is read: the core refuses the message for another reason than its range, and the line isn't
/// taken in. `hands` are the bench's places with the jobs lent there, whichever these are: they stay as they are.
fn take<D: Disk>(
    core: &mut Core<D>,
    reorder_buffer: &mut ReorderBuffer,
    line: &[u8],
) -> Result<(), ReadEnd>
    requires room { length reorder_buffer.old.lines < reorder_buffer.old.slots }
    requires order { AreConsecutive (with_tickets reorder_buffer.old.lines ++ Pending core.old.next ∷ []) }
    requires a_slot { (m : Msg) → (arrive core.old.geometry (core_state_of core.old) m).0 ≢ outcomes.ArriveRefused arrivals.Full }
    ensures takes { (hands : List HandContent) → HandsHaveJobs (record { core = core.old; hands = hands })
        → TakesLine D.keeps (record { core = core.old; hands = hands }) reorder_buffer.old.lines
        (record { core = core.new; hands = hands }) reorder_buffer.new.lines (message_of line.now) result }
    // Whatever is lent, at most the five steps of its message are added.
    ensures steps { (lent : List (Option JobView)) → steps_to_come (machine_of (machine_with_jobs core.new lent))
        ≤ steps_to_come (machine_of (machine_with_jobs core.old lent)) + 5 }
    ensures geometry { core.new.geometry ≡ core.old.geometry }
    ensures still { OnErr result (core_state_of core.new ≡ core_state_of core.old) }
    ensures slots { reorder_buffer.new.slots ≡ reorder_buffer.old.slots }
    ensures same { OnErr result (reorder_buffer.new ≡ reorder_buffer.old) }
{
    core.know_recovery();
    match core.arrive_line(line) {
        Ok(Some(ticket)) => {
            reorder_buffer.push(Line::Pending(ticket));
            Ok(())
        }
        Ok(None) => {
            reorder_buffer.push(Line::NoMessage);
            Ok(())
        }
        Err(ArriveRefusal::Range) => {
            reorder_buffer.push(Line::OutOfRange);
            Ok(())
        }
        Err(ArriveRefusal::Exhausted) => Err(ReadEnd::TicketsExhausted),
        Err(ArriveRefusal::Full) => unreachable!(),
        Err(ArriveRefusal::Failed) => Err(ReadEnd::DeviceFailed),
    }
}

/// Whether a further line may be read: reading has not ended, and fewer lines are outstanding than there are slots.
fn may_read(read_end: Option<ReadEnd>, outstanding: usize, slots: usize) -> bool
    ensures { IsTrue result ↔ ((read_end ≡ None) × (outstanding < slots)) }
{
    read_end.is_none() && outstanding < slots
}

impl<'c, R: Read, D: Disk, L: ReplySink<D>> Session<'c, R, D, L> {
    /// Reads the next line, if there is one, and takes it in. Returns whether it did. If it didn't, no more is read from now on, and
    /// `read_end` says why. It may be called only while fewer lines are outstanding than there are slots. It waits for input where no line
    /// is buffered: no line may be unanswered then, and a kill so far, or while it waits, has lost nothing of what was sent (`safe`).
    fn read_next(&mut self) -> bool
        requires reads { self.old.read_end ≡ None }
        requires room { self.old.outstanding < self.old.reorder_buffer.slots }
        requires none_unanswered { self.old.holds_line ≡ false → NoneUnanswered self.old }
        requires safe { self.old.holds_line ≡ false → IsKillSafe D.keeps L.start self.old.sent self.old.sent_at self.old.core }
        ensures reads { result ≡ is_none self.new.read_end }
        ensures output_failed { self.new.output_failed ≡ self.old.output_failed }
        ensures slots { self.new.reorder_buffer.slots ≡ self.old.reorder_buffer.slots }
        ensures longer { IsTrue result → length self.new.reorder_buffer.lines ≡ length self.old.reorder_buffer.lines + 1 }
        ensures counted { IsTrue result → self.new.outstanding ≡ self.old.outstanding + 1 }
        ensures steps { IsTrue result → steps_ahead self.new ≤ steps_ahead self.old + 5 }
        ensures none { IsFalse result → HasTakenNone self.old self.new }
    {
        prove!(self.outstanding < self.reorder_buffer.slots());
        if self.line_reader.is_drained() {
            self.read_end = Some(ReadEnd::EndOfInput);
            return false;
        }
        match self.line_reader.next_line() {
            Ok(Found::Line) => match take(
                &mut self.core,
                &mut self.reorder_buffer,
                self.line_reader.line(),
            ) {
                Ok(()) => {
                    self.outstanding += 1;
                    true
                }
                Err(read_end) => {
                    self.read_end = Some(read_end);
                    false
                }
            },
            Ok(Found::TooLong) => {
                self.reorder_buffer.push(Line::NoMessage);
                self.outstanding += 1;
                true
            }
            Ok(Found::End) => {
                self.read_end = Some(ReadEnd::EndOfInput);
                false
            }
            Err(_) => {
                self.read_end = Some(ReadEnd::ReadFailed);
                false
            }
        }
    }

    /// Whether a line in the input buffer may be read.
    pub(crate) fn can_read(&self) -> bool
        ensures { IsTrue result ↔ CanReadLine self.now }
    {
        may_read(self.read_end, self.outstanding, self.reorder_buffer.slots()) && self.holds_line()
    }

    /// Whether a line is in the input buffer: it is read without waiting.
    fn holds_line(&self) -> bool
        ensures { IsTrue result ↔ (self.now.holds_line ≡ true) }
    {
        self.line_reader.holds_line()
    }

    /// Reads a line, unless reading has ended, and waits for input until there is one. No line is unanswered then, so that nobody waits for
    /// this server while it waits.
    fn wait_for_line(&mut self) -> Activity
        requires none_unanswered { NoneUnanswered self.old }
        requires safe { IsKillSafe D.keeps L.start self.old.sent self.old.sent_at self.old.core }
        ensures taken { HasTakenLines self.old self.new result }
        ensures waited { result ≡ activities.Idle → self.new.read_end ≢ None }
        ensures output_failed { self.new.output_failed ≡ self.old.output_failed }
        ensures slots { self.new.reorder_buffer.slots ≡ self.old.reorder_buffer.slots }
    {
        if may_read(self.read_end, self.outstanding, self.reorder_buffer.slots())
            && self.read_next()
        {
            Activity::Busy
        } else {
            Activity::Idle
        }
    }

    /// Reads the lines in the input buffer, while fewer lines are outstanding than there are slots. If `last`, what the loop did in its
    /// last iteration, is `Idle`, it waits for a line first. Lines that the same read brings in are read too, so that their changes are
    /// logged together. None is read once reading has ended, and none is left that can be read (`all_read`). Each iteration of the loop
    /// that never ends calls it: a kill so far has lost nothing of what was sent (`safe`).
    pub(crate) fn read_more(&mut self, last: Activity) -> Activity
        requires none_unanswered { last ≡ activities.Idle → NoneUnanswered self.old }
        requires safe { IsKillSafe D.keeps L.start self.old.sent self.old.sent_at self.old.core }
        ensures output_failed { self.new.output_failed ≡ self.old.output_failed }
        ensures taken { HasTakenLines self.old self.new result }
        ensures waited { last ≡ activities.Idle → result ≡ activities.Idle → self.new.read_end ≢ None }
        ensures all_read { CanReadLine self.new → ⊥ }
    {
        let mut read = match last {
            Activity::Idle => self.wait_for_line(),
            Activity::Busy => Activity::Idle,
        };
        while may_read(self.read_end, self.outstanding, self.reorder_buffer.slots())
            && self.holds_line()
            && self.read_next()
        {
            read = Activity::Busy;
        }
        read
    }
}
