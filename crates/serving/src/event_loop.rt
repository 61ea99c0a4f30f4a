//! The loop of a session: lines are read and worked off, until no more is read and each is answered. Where the device or the output has
//! failed, jobs in flight are waited for and their results collected; what ran is logged if the device works, and the answers next in order
//! are sent if the output works.

ghost use Rattle.std.specs.Prelude.{◌≡◌, ◌≢◌, Err, IfSome, MatchResult, None, OnOk, Some, [], false};
ghost use Rattle.oplog.specs.Recovery.{records_in};
ghost use Rattle.serving.specs.SessionEnds.{EndsBy, HasFinished, end_of};
ghost use Rattle.serving.specs.Kill.{IsKillSafe};
ghost use Rattle.serving.specs.Session.{NoneUnanswered};
ghost use Rattle.serving.specs.SessionSteps.{HasHalted, HasReadNothing, IsSessionStep};
ghost use Rattle.serving.specs.declared.session.ReadEnd.TheVariants as ends_of_reading;

use crate::output::ReplySink;
use crate::server::ServeFault;
use crate::session::{GatedRuntime, Halted, ReadEnd, Session, or_halt};
use crate::turns::Turned;
use disk::Disk;
use std::io::Read;
use std::sync::Wait;
use workers::{DispatcherTask, Gate};

/// What a server reports where it read no more for this reason: no fault at the end of the input.
fn reported_for(read_end: ReadEnd) -> Result<(), ServeFault>
    ensures { result ≡ end_of read_end }
{
    match read_end {
        ReadEnd::EndOfInput => Ok(()),
        ReadEnd::ReadFailed => Err(ServeFault::Read),
        ReadEnd::TicketsExhausted => Err(ServeFault::Exhausted),
        ReadEnd::DeviceFailed => Err(ServeFault::Device),
    }
}

impl<'c, R: Read, D: Disk, L: ReplySink<D>> Session<'c, R, D, L> {
    /// Ends where something has failed: jobs in flight are waited for and their results collected. What ran is logged, unless the
    /// device has failed; all that is logged is answered; and the lines next in order are still written, unless the output has
    /// failed. No more is read. Gives why the server ends.
    fn end_early<W: GatedRuntime>(&mut self, rt: &W) -> ServeFault
        requires halted { HasHalted self.old }
        ensures ends { EndsBy self.new (Err result) }
        ensures unread { HasReadNothing self.old self.new }
    {
        self.drain_workers(rt);
        // A device that has failed logs nothing. If it fails only here, the output has failed before, and `Write` is reported all the same.
        let _logged = self.log_what_ran();
        match self.answer_and_flush(rt) {
            Ok(()) => ServeFault::Device,
            Err(_) => ServeFault::Write,
        }
    }

    /// Sends the answers in the reply buffer, and at the end of the input makes the last checkpoint: no message is in the core then, and
    /// the log is empty after the checkpoint. `Halted` where the device or the output has failed.
    fn finish(&mut self, read_end: ReadEnd) -> Result<(), Halted>
        requires all_retired { self.old.reorder_buffer.lines ≡ [] }
        requires none { self.old.core.pieces_left ≡ None }
        requires read_end { self.old.read_end ≡ Some read_end }
        ensures session_step { IsSessionStep self.old self.new result }
        ensures all { OnOk result ((self.new.reorder_buffer.lines ≡ []) × (self.new.reply_buffer ≡ []) × (self.new.output_failed ≡ false)) }
        ensures works { OnOk result (self.new.core.failed ≡ false) }
        ensures emptied { OnOk result (read_end ≡ ends_of_reading.EndOfInput → D.keeps
            → records_in self.new.core.geometry self.new.core.medium.now ≡ []) }
        ensures possible { OnOk result (read_end ≢ ends_of_reading.DeviceFailed) }
    {
        if self.core.failed() {
            return Err(Halted);
        }
        self.flush_replies()?;
        match read_end {
            ReadEnd::EndOfInput => or_halt(self.core.point()),
            ReadEnd::ReadFailed | ReadEnd::TicketsExhausted => Ok(()),
            // The test above has halted.
            ReadEnd::DeviceFailed => unreachable!(),
        }
    }

    /// Reads lines and answers them, until no more is read and the answer to each line that was read is sent: gives why no more is read.
    /// Each turn is told what the one before has done.
    fn run_loop<W: GatedRuntime>(&mut self, rt: &W) -> Result<ReadEnd, Halted>
        requires none_unanswered { NoneUnanswered self.old }
        ensures served { MatchResult result (HasFinished D.keeps self.new) (λ _. HasHalted self.new) }
    {
        let mut told = self.first_told();
        for _ in rt.forever() {
            self.know_kill_safe();
            match self.turn(rt, told)? {
                Turned::Went(did) => told = did,
                Turned::Ends(read_end) => {
                    self.finish(read_end)?;
                    return Ok(read_end);
                }
            }
        }
        unreachable!()
    }
}

impl<'c, R: Read, D: Disk, L: ReplySink<D>> DispatcherTask<Result<(), ServeFault>>
    for Session<'c, R, D, L> {
    ghost use Rattle.std.specs.Prelude.{◌≡◌, [], OnOk, false};
    ghost use Rattle.oplog.specs.Recovery.{records_in};
    ghost use Rattle.serving.specs.Kill.{IsKillSafe};
    ghost use Rattle.serving.specs.Session.{NoneUnanswered};
    ghost use Rattle.serving.specs.SessionEnds.{EndsBy};

    ghost can_begin = { λ s. (s.output_failed ≡ false) × NoneUnanswered s };

    // The threads are waited for after it: a kill so far has lost nothing of what was sent, either.
    ghost gives = { λ old new end. EndsBy new end × OnOk end (D.keeps → records_in new.core.geometry new.core.medium.now ≡ [])
        × IsKillSafe D.keeps L.start new.sent new.sent_at new.core };

    /// Serves line after line until the input ends, with a checkpoint where one is due, and one at the end of the input. When it returns,
    /// the answers are written up to the first line that has none, unless the output failed. If several things fail in one call, an output
    /// failure is reported rather than a device failure, and a device failure rather than any other.
    fn run_task<T: Wait, G: Gate>(&mut self, rt: &T, gate: &G) -> Result<(), ServeFault> {
        let rt = &(rt, gate);
        match self.run_loop(rt) {
            Ok(read_end) => {
                self.know_kill_safe();
                reported_for(read_end)
            }
            Err(_) => {
                let fault = self.end_early(rt);
                self.know_kill_safe();
                Err(fault)
            }
        }
    }

    fn stop_workers(&mut self) {
        self.bench.stop(&mut self.dispatch_seat);
    }
}
