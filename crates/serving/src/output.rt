//! Where a server sends its lines, and what it sends: nothing but what a crash of the device can't take back.

ghost use Rattle.std.specs.Prelude.{◌≡◌, ◌+◌, [], false, length, IfOk, IsFalse, IsTrue, OnOk};
ghost use Rattle.message.specs.BufferedOutput.{FitsReply};
ghost use Rattle.reorder_buffer.specs.ReorderBuffer.{can_retire};
ghost use Rattle.serving.specs.SessionSteps.{IsOutputStep};

use crate::session::{Halted, Session};
use disk::Disk;
use message::WriteFault;
use scheduler::Core;
use std::io::Read;

/// Where a server sends its lines. The condition of `send` is proved wherever `send` is called, even in a function that never returns: what
/// is sent was answered before, and whatever a crash leaves of the device then holds it.
pub trait ReplySink<D: Disk> {
    ghost use Rattle.std.specs.Prelude.{List, ℕ, Option, OnErr, OnOk};
    ghost use Rattle.std.specs.Io.KnownBytes.{Appends};
    ghost use Rattle.std.specs.Prelude.{◌≡◌};
    ghost use Rattle.disk.specs.Device.{Medium};
    ghost use Rattle.message.specs.AppendsBeginning.{AppendsBeginning};
    ghost use Rattle.serving.specs.Kill.{IsKillSafe};
    ghost use Rattle.serving.specs.MaySend.{MaySend};
    ghost use Rattle.serving.specs.Start.{Start};

    /// What the `serve` call whose lines are sent began with (its core, places, checkpoints, input and output); `None` before that call.
    ghost start: { Option Start };

    /// What was sent, if it is known.
    ghost sent: { Self → Option (List ℕ) };

    /// The server's device as it was when the last `send` began; before the first one, as it was at the start of the `serve` call.
    ghost sent_at: { Self → Medium };

    /// Sends lines, each with its newline, after those that were sent before. `core` is the server's core as it is now: the conditions
    /// speak of it. `safe`: a server that was killed at any moment since the last `send` began has kept its promise. `sending`: so has one
    /// that is killed while the lines are sent, when any beginning of them is out.
    ///
    /// # Errors
    ///
    /// `WriteFault` where they could not be sent. Some beginning of them was sent then, perhaps none of them or all.
    fn send(&mut self, lines: &[u8], core: &Core<D>) -> Result<(), WriteFault>
        requires may { MaySend D.keeps start (sent self.old) core.now lines.now }
        requires safe { IsKillSafe D.keeps start (sent self.old) (sent_at self.old) core.now }
        requires sending { (told : Option (List ℕ)) → AppendsBeginning (sent self.old) told lines.now
            → IsKillSafe D.keeps start told core.now.medium core.now }
        ensures at { sent_at self.new ≡ core.now.medium }
        ensures sent { OnOk result (Appends (sent self.old) (sent self.new) lines.now) }
        ensures begun { OnErr result (AppendsBeginning (sent self.old) (sent self.new) lines.now) };
}

// In clauses `read_end` is why no more is read. `IsOutputStep` says that it stays, and that nothing is read; at `Ok` so does
// `output_failed`, and at `Err` the output has failed.
impl<'c, R: Read, D: Disk, L: ReplySink<D>> Session<'c, R, D, L> {
    /// Sends the answers in the reply buffer. `Halted` if that fails, or if an earlier send had failed: then nothing is sent.
    pub(crate) fn flush_replies(&mut self) -> Result<(), Halted>
        ensures step { IsOutputStep self.old self.new result }
        ensures same { (self.new.core ≡ self.old.core) × (self.new.reorder_buffer ≡ self.old.reorder_buffer)
            × (self.new.dispatch_seat ≡ self.old.dispatch_seat) }
        ensures trigger { self.new.trigger ≡ self.old.trigger }
        ensures flushed { OnOk result ((self.new.reply_buffer ≡ []) × (self.new.output_failed ≡ false)) }
    {
        if self.output_failed {
            return Err(Halted);
        }
        if self.reply_buffer.is_empty() {
            return Ok(());
        }
        self.core.know_recovery();
        match self.sink.send(self.reply_buffer.waiting(), &self.core) {
            Ok(()) => {
                self.reply_buffer.clear();
                self.outstanding = self.reorder_buffer.len();
                Ok(())
            }
            Err(_) => {
                self.output_failed = true;
                Err(Halted)
            }
        }
    }

    /// Sends the answers in the reply buffer if there is no room after them for the longest one.
    fn flush_if_full(&mut self) -> Result<(), Halted>
        ensures step { IsOutputStep self.old self.new result }
        ensures same { (self.new.core ≡ self.old.core) × (self.new.reorder_buffer ≡ self.old.reorder_buffer)
            × (self.new.dispatch_seat ≡ self.old.dispatch_seat) }
        ensures trigger { self.new.trigger ≡ self.old.trigger }
        ensures room { OnOk result (FitsReply self.new.reply_buffer) }
    {
        if self.reply_buffer.has_room() {
            Ok(())
        } else {
            self.flush_replies()
        }
    }

    /// Whether the lines with unsent answers are at least half of those that may be outstanding. The answers are sent then, so that new
    /// lines can be read while the other lines are in progress.
    pub(crate) fn is_half_unsent(&self) -> bool {
        let slots = self.reorder_buffer.slots();
        self.outstanding.saturating_sub(self.reorder_buffer.len()) >= slots - slots / 2
    }

    /// Retires the oldest line of the reorder buffer, if its answer is known: the answer goes into the reply buffer. Returns whether it
    /// did.
    fn retire_first(&mut self) -> Result<bool, Halted>
        ensures step { IsOutputStep self.old self.new result }
        ensures same { (self.new.core ≡ self.old.core) × (self.new.dispatch_seat ≡ self.old.dispatch_seat) }
        ensures trigger { self.new.trigger ≡ self.old.trigger }
        ensures fewer { IfOk result (λ it. IsTrue it → length self.new.reorder_buffer.lines + 1 ≡ length self.old.reorder_buffer.lines) }
        ensures last { IfOk result (λ it. IsFalse it → can_retire self.new.reorder_buffer.lines ≡ false) }
    {
        self.flush_if_full()?;
        let retired = self.reorder_buffer.retire_front(&mut self.reply_buffer);
        Ok(retired)
    }

    /// Retires the lines at the front of the reorder buffer, up to the first whose answer isn't known yet.
    pub(crate) fn retire_ready(&mut self) -> Result<(), Halted>
        ensures step { IsOutputStep self.old self.new result }
        ensures same { (self.new.core ≡ self.old.core) × (self.new.dispatch_seat ≡ self.old.dispatch_seat) }
        ensures trigger { self.new.trigger ≡ self.old.trigger }
        ensures last { OnOk result (can_retire self.new.reorder_buffer.lines ≡ false) }
    {
        while self.retire_first()? {}
        Ok(())
    }
}
