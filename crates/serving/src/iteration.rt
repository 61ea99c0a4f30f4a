//! One iteration of a session. Messages are dispatched; what was collected is logged and answered. Where nothing else can be done, it
//! waits for a result, or advances or begins a checkpoint.

ghost use Rattle.std.specs.Prelude.{◌≡◌, ◌≤◌, ◌&&◌, not, IfOk, Option, IsTrue, OnOk, []};
ghost use Rattle.serving.specs.DispatchesTo.{asks_for_checkpoint};
ghost use Rattle.serving.specs.SessionSteps.{HasGoneOn, HasOnlySent, IsResting, IsSessionStep, CallsForCheckpoint};
ghost use Rattle.serving.specs.SessionEnds.{IsAtRest};
ghost use Rattle.serving.specs.Session.{steps_ahead};
ghost use Rattle.serving.specs.declared.dispatch.Blocked.{Blocked};
ghost use Rattle.serving.specs.declared.session.Activity.TheVariants as activities;

use crate::dispatch::Blocked;
use crate::output::ReplySink;
use crate::session::{Activity, GatedRuntime, Halted, Session, or_halt};
use disk::Disk;
use std::io::Read;

/// Whether a checkpoint is to begin once no message is held: `why` says that one is due (`None`), or that a message lacks only room in the
/// log. Where something was logged or answered since (`moved`), `why` may not hold any more.
fn asks_for_checkpoint(moved: bool, why: Option<Blocked>) -> bool
    ensures { result ≡ (not moved && asks_for_checkpoint why) }
{
    !moved && matches!(why, None | Some(Blocked::NoRoom))
}

impl<'c, R: Read, D: Disk, L: ReplySink<D>> Session<'c, R, D, L> {
    /// Called where nothing was read or collected, or the session has caught up. It sends the answers that wait. If a buffered line may
    /// then be read, it returns. Else, if a job is in flight, it waits for a delivery; if none is, it calls `advance_or_begin_checkpoint`.
    /// `is_asked_for`: a checkpoint is to begin, which takes a reason.
    fn flush_then_wait<W: GatedRuntime>(
        &mut self,
        rt: &W,
        is_asked_for: bool,
    ) -> Result<Activity, Halted>
        requires reason { IsTrue is_asked_for → CallsForCheckpoint self.old }
        ensures session_step { IsSessionStep self.old self.new result }
        ensures idle { IfOk result (λ activity. activity ≡ activities.Idle → HasOnlySent self.old self.new is_asked_for) }
        ensures steps { OnOk result (steps_ahead self.new ≤ steps_ahead self.old) }
        ensures goes_on { IfOk result (λ activity. activity ≡ activities.Busy → HasGoneOn self.old self.new activity) }
    {
        self.flush_replies()?;
        if self.can_read() {
            return Ok(Activity::Busy);
        }
        if self.dispatch_seat.any_lent() {
            self.know_kill_safe();
            self.wait_for_worker(rt);
            return Ok(Activity::Busy);
        }
        let stepped = self.advance_or_begin_checkpoint(is_asked_for)?;
        Ok(if stepped {
            Activity::Busy
        } else {
            Activity::Idle
        })
    }

    /// Does nothing: its contract states that each line that was read is retired where nothing is left to do.
    fn know_rest(&self)
        ensures { (why : Option Blocked) → IsAtRest self.now why → self.now.reorder_buffer.lines ≡ [] }
    {
        let _outstanding = self.outstanding; // for the proof: the session's invariant is known where one of its fields is read
    }

    /// Whether reading goes on, each line that was read is retired, and no further line is buffered: the client may be waiting for the
    /// answers that are still to be sent.
    fn has_caught_up(&self) -> bool
        ensures { IsTrue result → self.now.reorder_buffer.lines ≡ [] }
    {
        self.read_end.is_none() && self.reorder_buffer.len() == 0 && !self.line_reader.holds_line()
    }

    /// One iteration. If lines were just read or results came, it returns without waiting, unless the session has caught up
    /// (`has_caught_up`). Else it flushes, and may wait. It is idle only where no line is unanswered.
    pub(crate) fn advance<W: GatedRuntime>(
        &mut self,
        rt: &W,
        read: Activity,
    ) -> Result<Activity, Halted>
        ensures session_step { IsSessionStep self.old self.new result }
        ensures idle { IfOk result (λ activity. activity ≡ activities.Idle → IsResting self.new) }
        ensures steps { OnOk result (steps_ahead self.new ≤ steps_ahead self.old) }
        ensures goes_on { IfOk result (λ activity. read ≡ activities.Idle → HasGoneOn self.old self.new activity) }
    {
        let why = self.dispatch_and_collect();
        let moved = self.log_and_answer(rt)?;
        let caught_up = self.has_caught_up();
        if (moved || matches!(read, Activity::Busy)) && !caught_up {
            return Ok(Activity::Busy);
        }
        let is_asked_for = asks_for_checkpoint(moved, why);
        let activity = self.flush_then_wait(rt, is_asked_for)?;
        self.know_rest();
        Ok(activity)
    }
}
