//! What ran is logged by one call, and answered; a checkpoint in progress goes on by one step after each answer.

ghost use Rattle.std.specs.Prelude.{◌≡◌, ◌+◌, ◌≤◌, ◌∷◌, List, [], cond, false, length, true, IfOk, IsFalse, IsTrue, OnErr, OnOk};
ghost use Rattle.histories.specs.CoreState.{Replied};
ghost use Rattle.scheduler.specs.CoreView.{core_state_of};
ghost use Rattle.reorder_buffer.specs.ReorderBuffer.{can_retire};
ghost use Rattle.serving.specs.Checkpoints.{trigger_after};
ghost use Rattle.serving.specs.SessionSteps.{HasLoggedNothing, HasReadNothing, KeepsCoreState, KeepsReadEndAndOutputFailed, IsOutputStep, IsSessionStep};
ghost use Rattle.serving.specs.Session.{steps_ahead};

use crate::output::ReplySink;
use crate::session::{GatedRuntime, Halted, Session, or_halt};
use disk::Disk;
use std::io::Read;

impl<'c, R: Read, D: Disk, L: ReplySink<D>> Session<'c, R, D, L> {
    /// Logs all that ran, by one call of `log`, and returns how many messages these were, reads included. Where nothing ran, it only
    /// reports whether the device has failed.
    pub(crate) fn log_what_ran(&mut self) -> Result<usize, Halted>
        ensures session_step { IsSessionStep self.old self.new result }
        ensures same { (self.new.reorder_buffer ≡ self.old.reorder_buffer) × (self.new.reply_buffer ≡ self.old.reply_buffer)
            × (self.new.dispatch_seat ≡ self.old.dispatch_seat) }
        ensures unread { HasReadNothing self.old self.new }
        ensures pieces_left { self.new.core.pieces_left ≡ self.old.core.pieces_left }
        ensures works { OnOk result ((self.old.core.failed ≡ false) × (self.new.core.failed ≡ false)) }
        ensures logged { OnOk result (self.new.core.ran ≡ []) }
        ensures none { IfOk result (λ count. count ≡ 0 → KeepsCoreState self.old self.new) }
        ensures steps { IfOk result (λ count. steps_ahead self.new + count ≡ steps_ahead self.old) }
        ensures failed { OnErr result (self.new.core.failed ≡ true) }
        ensures trigger { self.new.trigger ≡ self.old.trigger }
    {
        let count = self.core.slots(); // there are never more messages that ran than slots
        or_halt(self.core.log(count))
    }

    /// Answers the oldest logged message that isn't answered, if there is one: its line in the reorder buffer gets the reply. Returns
    /// whether there was one. A change that was carried out is counted towards the next checkpoint, by a count that saturates.
    pub(crate) fn answer_first<W: GatedRuntime>(&mut self, rt: &W) -> bool
        ensures as_before { KeepsReadEndAndOutputFailed self.old self.new }
        ensures unread { HasReadNothing self.old self.new }
        ensures dispatch_seat { self.new.dispatch_seat ≡ self.old.dispatch_seat }
        ensures state_after { core_state_of self.new.core ≡ record (core_state_of self.old.core) { logged = self.new.core.logged } }
        ensures fewer { IsTrue result → length self.new.core.logged + 1 ≡ length self.old.core.logged }
        ensures none { IsFalse result → (self.new.core.logged ≡ []) × KeepsCoreState self.old self.new }
        ensures trigger { IsFalse result → self.new.trigger ≡ self.old.trigger }
        ensures counted { (first : Replied) (later : List Replied) → self.old.core.logged ≡ first ∷ later
            → self.new.trigger ≡ trigger_after self.old.trigger first.2 }
        ensures steps { IsTrue result → steps_ahead self.new + 1 ≡ steps_ahead self.old }
    {
        self.core.know_recovery();
        let first = self.core.answer();
        let Some((ticket, reply)) = first else {
            return false;
        };
        rt.answered(ticket);
        self.trigger.count(&reply);
        self.reorder_buffer.answer(ticket, reply);
        true
    }

    /// Logs what ran in one go, answers it, and retires the lines that are next in order. A checkpoint in progress goes on by one step
    /// after each answer. Where a change was logged, the answers are sent at once, so that the lines read in place of theirs go into the
    /// next batch: else it would be smaller, at the same two syncs. Returns whether anything was logged or answered.
    pub(crate) fn log_and_answer<W: GatedRuntime>(&mut self, rt: &W) -> Result<bool, Halted>
        ensures session_step { IsSessionStep self.old self.new result }
        ensures last { OnOk result (can_retire self.new.reorder_buffer.lines ≡ false) }
        ensures none { IfOk result (λ moved. IsFalse moved → HasLoggedNothing self.old self.new) }
        ensures steps { IfOk result (λ moved. steps_ahead self.new + cond moved 1 0 ≤ steps_ahead self.old) }
    {
        let answered_before = self.trigger.answered_since();
        let mut moved = self.log_what_ran()? > 0;
        while self.answer_first(rt) {
            moved = true;
            self.advance_checkpoint()?;
        }
        self.retire_ready()?;
        let has_answered_change = self.trigger.answered_since() != answered_before;
        if has_answered_change || self.is_half_unsent() {
            self.flush_replies()?;
        }
        Ok(moved)
    }

    /// Answers all messages that are logged, and sends the lines that are next in order.
    pub(crate) fn answer_and_flush<W: GatedRuntime>(&mut self, rt: &W) -> Result<(), Halted>
        ensures step { IsOutputStep self.old self.new result }
        ensures dispatch_seat { self.new.dispatch_seat ≡ self.old.dispatch_seat }
        ensures state_after { core_state_of self.new.core ≡ record (core_state_of self.old.core) { logged = [] } }
        ensures flushed { OnOk result ((self.new.reply_buffer ≡ []) × (self.new.output_failed ≡ false)) }
        ensures last { OnOk result (can_retire self.new.reorder_buffer.lines ≡ false) }
    {
        while self.answer_first(rt) {}
        self.retire_ready()?;
        self.flush_replies()
    }
}
