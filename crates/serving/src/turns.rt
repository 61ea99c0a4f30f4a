//! One turn of a session's loop, and what it tells the next one.

ghost use Rattle.std.specs.Prelude.{◌≡◌, ◌≢◌, IfSome, MatchResult, None, Some, []};
ghost use Rattle.serving.specs.Kill.{IsKillSafe};
ghost use Rattle.serving.specs.Session.{NoneUnanswered};
ghost use Rattle.serving.specs.SessionSteps.{HasHalted, IsOfStart, IsResting};
ghost use Rattle.serving.specs.Turns.{IsInBounds, IsTurned};
ghost use Rattle.serving.specs.declared.session.Activity.TheVariants as activities;

use crate::output::ReplySink;
use crate::session::{Activity, GatedRuntime, Halted, ReadEnd, Session};
use disk::Disk;
use std::io::Read;

/// What a turn is told: what the one before it has done. Only a turn makes one for the next, and `first_told` one for the first. The field
/// is private and there is no copy, so the loop can't tell a turn anything else.
#[derive(Drop)]
pub(crate) struct Told {
    last: Activity,
}

/// What a turn of the loop has come to.
#[derive(Drop)]
pub(crate) enum Turned {
    /// The loop goes on. This is what the next turn is to be told.
    Went(Told),
    /// The loop ends: no more is read, for this reason, and each line that was read is retired.
    Ends(ReadEnd),
}

impl<'c, R: Read, D: Disk, L: ReplySink<D>> Session<'c, R, D, L> {
    /// What the first turn is told. No line is unanswered yet, so it may wait for input, unless a checkpoint is in progress: that goes on
    /// first.
    pub(crate) fn first_told(&self) -> Told
        requires { NoneUnanswered self.now }
        ensures idle { result.last ≡ activities.Idle → IsResting self.now }
        ensures busy { result.last ≡ activities.Busy → self.now.core.pieces_left ≢ None }
    {
        Told {
            last: if self.core.pieces_left().is_none() {
                Activity::Idle
            } else {
                Activity::Busy
            },
        }
    }

    /// Does nothing: its contract states the bounds of a session between two turns.
    fn know_bounds(&self)
        ensures bounds { IsInBounds self.now }
        ensures of_start { IsOfStart L.start self.now }
    {
        self.core.know_recovery();
    }

    /// Why the loop ends, once no more is read, each line that was read is retired, and no checkpoint is in progress. `None`: it goes on.
    fn ended(&self) -> Option<ReadEnd>
        ensures some { IfSome result
            (λ read_end. (self.now.read_end ≡ Some read_end) × (self.now.reorder_buffer.lines ≡ []) × (self.now.core.pieces_left ≡ None)) }
        ensures exact { self.now.reorder_buffer.lines ≡ [] → self.now.core.pieces_left ≡ None → result ≡ self.now.read_end }
    {
        if self.reorder_buffer.len() == 0 && self.core.pieces_left().is_none() {
            self.read_end
        } else {
            None
        }
    }

    /// One turn of the loop: reads lines, and does what can be done. It waits for input only while no line is unanswered (`read_more`). The
    /// law `a_session_gets_on` says what follows from its contract for any number of turns.
    pub(crate) fn turn<W: GatedRuntime>(&mut self, rt: &W, told: Told) -> Result<Turned, Halted>
        requires rested { told.last ≡ activities.Idle → IsResting self.old }
        requires safe { IsKillSafe D.keeps L.start self.old.sent self.old.sent_at self.old.core }
        ensures turned { MatchResult result (IsTurned self.old told.last self.new) (λ _. HasHalted self.new) }
    {
        self.know_bounds();
        let read = self.read_more(told.last);
        if let Some(read_end) = self.ended() {
            return Ok(Turned::Ends(read_end));
        }
        let last = self.advance(rt, read)?;
        self.know_bounds();
        Ok(Turned::Went(Told { last }))
    }
}
