//! Checkpoints of a session: when one is due, how it begins, and how it is carried to its end step by step.

ghost use Rattle.std.specs.Prelude.{◌≡◌, ◌≢◌, ◌↔◌, ◌+◌, ℕ, [], None, Some, IfOk, IsFalse, IsTrue, MatchBool, MatchResult, OnOk, false};
ghost use Rattle.histories.specs.declared.outcomes.PointRefusal.TheVariants.{Held};
ghost use Rattle.histories.specs.CoreState.{held};
ghost use Rattle.scheduler.specs.CoreView.{core_state_of};
ghost use Rattle.histories.specs.Progress.{points_left};
ghost use Rattle.serving.specs.Checkpoints.{IsDue, trigger_after};
ghost use Rattle.serving.specs.SessionSteps.{CheckpointStep, IsSessionStep, StandsStill, StartsAfresh, CallsForCheckpoint};
ghost use Rattle.serving.specs.Session.{steps_ahead};

use crate::output::ReplySink;
use crate::session::{Halted, Session};
use disk::Disk;
use histories::PointRefusal;
use protocol::Reply;
use std::io::Read;

/// When checkpoints are due.
#[derive(Clone, Copy)]
pub(crate) struct CheckpointTrigger {
    /// After how many records a checkpoint is due; 0: none is due by their count.
    every: u64,
    /// Of the messages answered since the last checkpoint began: how many have a record in the log.
    answered_since: u64,
}

impl CheckpointTrigger {
    /// A trigger that has counted nothing yet.
    pub(crate) fn new(every: u64) -> CheckpointTrigger
        ensures { (result.every ≡ every) × (result.answered_since ≡ 0) }
    {
        CheckpointTrigger {
            every,
            answered_since: 0,
        }
    }

    /// Counts a message with this reply, if it was a change that was carried out: it has a record in the log. The count saturates.
    pub(crate) fn count(&mut self, reply: &Reply)
        ensures { self.new ≡ trigger_after self.old reply.now }
    {
        if matches!(reply, Reply::Done) {
            self.answered_since = self.answered_since.saturating_add(1);
        }
    }

    /// How many records were logged since the last checkpoint began, of those whose messages are answered.
    pub(crate) fn answered_since(&self) -> u64
        ensures { result ≡ self.now.answered_since }
    {
        self.answered_since
    }

    /// A checkpoint has begun: the count starts anew.
    fn restart(&mut self)
        ensures { (self.new.every ≡ self.old.every) × (self.new.answered_since ≡ 0) }
    {
        self.answered_since = 0;
    }

    /// Whether a checkpoint is due by the record count. None is due while one is in progress (`pieces_left` is its number of unwritten
    /// pieces; `None` if none is).
    pub(crate) fn is_due(&self, pieces_left: Option<usize>) -> bool
        ensures { IsTrue result ↔ IsDue self.now pieces_left }
    {
        pieces_left.is_none() && self.every != 0 && self.answered_since >= self.every
    }
}

/// What a session makes of a refused cut, where no checkpoint was in progress. `Held`: none can begin while a message is in progress, and
/// the loop goes on. Otherwise the device has failed.
fn wait_or_halt(why: PointRefusal) -> Result<bool, Halted>
    ensures { MatchResult result (λ it. (it ≡ false) × (why ≡ Held)) (λ _. why ≢ Held) }
{
    match why {
        PointRefusal::Held => Ok(false),
        _ => Err(Halted),
    }
}

impl<'c, R: Read, D: Disk, L: ReplySink<D>> Session<'c, R, D, L> {
    /// Takes one step of the checkpoint in progress, if there is one: writes its next piece or, where all are written, ends it. Returns
    /// whether there was one.
    pub(crate) fn advance_checkpoint(&mut self) -> Result<bool, Halted>
        ensures session_step { IsSessionStep self.old self.new result }
        ensures same { (self.new.reorder_buffer ≡ self.old.reorder_buffer) × (self.new.reply_buffer ≡ self.old.reply_buffer)
            × (self.new.core.logged ≡ self.old.core.logged) }
        ensures step { IfOk result
            (λ moved. MatchBool moved (points_left self.new.core.pieces_left + 1 ≡ points_left self.old.core.pieces_left)
            ((self.new.core.pieces_left ≡ None) × (self.old.core.pieces_left ≡ None))) }
        ensures none { IfOk result (λ moved. IsFalse moved → self.new ≡ self.old) }
        ensures steps { OnOk result (steps_ahead self.new ≡ steps_ahead self.old) }
        ensures room { OnOk result (self.new.core.room ≡ self.old.core.room) }
        ensures trigger { self.new.trigger ≡ self.old.trigger }
    {
        let Some(pieces_left) = self.core.pieces_left() else {
            return Ok(false);
        };
        if pieces_left == 0 {
            return match self.core.flip() {
                Ok(()) => Ok(true),
                Err(_) => Err(Halted),
            };
        }
        match self.core.piece() {
            Ok(_) => Ok(true),
            Err(_) => Err(Halted),
        }
    }

    /// Begins a checkpoint if no message is held, else does nothing. Returns whether one has begun. No checkpoint may be in progress, and
    /// there has to be a reason for one: a server that begins them without could make checkpoints for ever, and never read a line.
    pub(crate) fn begin_checkpoint(&mut self) -> Result<bool, Halted>
        requires none { self.old.core.pieces_left ≡ None }
        requires reason { CallsForCheckpoint self.old }
        ensures session_step { IsSessionStep self.old self.new result }
        ensures begun { IfOk result (λ it. MatchBool it ((n : ℕ) × (self.new.core.pieces_left ≡ Some n))
            ((self.new.core.pieces_left ≡ None) × (held (core_state_of self.new.core) ≢ []))) }
        ensures fresh { IfOk result (λ it. IsTrue it → StartsAfresh self.old self.new) }
        ensures stays { IfOk result (λ it. IsFalse it → StandsStill self.old self.new) }
        ensures steps { OnOk result (steps_ahead self.new ≡ steps_ahead self.old) }
        ensures same { (self.new.reorder_buffer ≡ self.old.reorder_buffer) × (self.new.reply_buffer ≡ self.old.reply_buffer) }
    {
        match self.core.cut() {
            Ok(()) => {
                self.trigger.restart();
                Ok(true)
            }
            Err(why) => wait_or_halt(why),
        }
    }

    /// Called where no job is in flight and no message may be dispatched or read. It takes one step of the checkpoint in progress; if there
    /// is none, it begins one where it is due or `is_asked_for`, which takes a reason. Returns whether it did either.
    pub(crate) fn advance_or_begin_checkpoint(&mut self, is_asked_for: bool) -> Result<bool, Halted>
        requires reason { IsTrue is_asked_for → CallsForCheckpoint self.old }
        ensures session_step { IsSessionStep self.old self.new result }
        ensures moved { IfOk result (λ it. IsTrue it → CheckpointStep self.old self.new) }
        ensures same { (self.new.reorder_buffer ≡ self.old.reorder_buffer) × (self.new.reply_buffer ≡ self.old.reply_buffer) }
        ensures steps { OnOk result (steps_ahead self.new ≡ steps_ahead self.old) }
        ensures stays { IfOk result (λ it. IsFalse it → StandsStill self.old self.new × (self.new.core.pieces_left ≡ None)
            × (IsTrue is_asked_for → held (core_state_of self.new.core) ≢ [])) }
    {
        if self.advance_checkpoint()? {
            return Ok(true);
        }
        if is_asked_for || self.trigger.is_due(self.core.pieces_left()) {
            return self.begin_checkpoint();
        }
        Ok(false)
    }
}
