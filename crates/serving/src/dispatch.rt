//! Dispatching: the core grants the eligible message with the least ticket, and its job is offered to the workers at the first free place
//! of the bench.

ghost use Rattle.std.specs.Prelude.{◌≡◌, ◌<◌, IfNone, IfSome, Some, is_none, position};
ghost use Rattle.affinity.specs.declared.geometry.Geometry.{Geometry};
ghost use Rattle.histories.specs.CoreState.{CoreState};
ghost use Rattle.scheduler.specs.Calls.{IsGranted};
ghost use Rattle.scheduler.specs.CoreView.{core_state_of};
ghost use Rattle.serving.specs.Checkpoints.{IsDue};
ghost use Rattle.serving.specs.DispatchesTo.{DispatchesTo};
ghost use Rattle.serving.specs.SessionSteps.{HasMoved, IsBlockedIn};
ghost use Rattle.serving.specs.declared.dispatch.Blocked.{Blocked};
ghost use Rattle.workers.specs.Seats.{places_of};

use crate::output::ReplySink;
use crate::session::Session;
use disk::Disk;
use scheduler::Granted;
use std::io::Read;
use workers::{Bench, DispatchSeat};

/// Why no further message is dispatched.
#[derive(Clone, Copy)]
pub(crate) enum Blocked {
    /// No place is free.
    NoPlace,
    /// No message is eligible, and none lacks only room in the log.
    NoneEligible,
    /// No message is eligible, and some message lacks only room in the log.
    NoRoom,
    /// The device has failed.
    Failed,
}

/// Offers a job to the workers at place k of the bench, the first free place, if the core has granted one. It is inlined, so that the job
/// isn't moved once more.
#[inline(always)]
fn offer_granted(
    bench: &Bench,
    dispatch_seat: &mut DispatchSeat,
    k: usize,
    granted: Granted,
) -> Result<(), Blocked>
    requires bench { dispatch_seat.old.bench ≡ bench.now }
    requires place { k < places_of bench.now }
    requires first { position is_none dispatch_seat.old.lent ≡ Some k }
    ensures bench { dispatch_seat.new.bench ≡ dispatch_seat.old.bench }
    ensures dispatches { (g : Geometry) (old new : CoreState) → IsGranted g old new granted
        → DispatchesTo g k old dispatch_seat.old.lent new dispatch_seat.new.lent result }
{
    match granted {
        Granted::Job(job) => match bench.offer(dispatch_seat, k, job) {
            Ok(()) => Ok(()),
            Err(_) => unreachable!(),
        },
        Granted::NoneEligible => Err(Blocked::NoneEligible),
        Granted::NoRoom => Err(Blocked::NoRoom),
        Granted::Failed => Err(Blocked::Failed),
    }
}

impl<'c, R: Read, D: Disk, L: ReplySink<D>> Session<'c, R, D, L> {
    /// Dispatches the eligible message with the least ticket, if there is one, to place k, the first free one. No checkpoint may be due:
    /// where one is, messages wait, so that none is held any more and it can begin. To dispatch a message is one act at four levels, each
    /// of which has its own word for it: the core grants the message (`grant`), the run queue and the session dispatch it, the bench offers
    /// its job to the workers (`offer`), and the tree lends the job its parcels (`lend`).
    fn dispatch_to(&mut self, k: usize) -> Result<(), Blocked>
        requires first { position is_none self.old.dispatch_seat.lent ≡ Some k }
        requires not_due { IsDue self.old.trigger self.old.core.pieces_left → ⊥ }
        ensures moves { HasMoved self.old self.new }
        ensures geometry { self.new.core.geometry ≡ self.old.core.geometry }
        ensures dispatches { DispatchesTo self.old.core.geometry k (core_state_of self.old.core) self.old.dispatch_seat.lent
            (core_state_of self.new.core) self.new.dispatch_seat.lent result }
    {
        self.core.know_recovery();
        let granted = self.core.grant();
        offer_granted(self.bench, &mut self.dispatch_seat, k, granted)
    }

    /// Dispatches eligible messages, the one with the least ticket first, as long as it can. Returns why it ended.
    fn dispatch_all(&mut self) -> Blocked
        requires { IsDue self.old.trigger self.old.core.pieces_left → ⊥ }
        ensures moves { HasMoved self.old self.new }
        ensures ended { IsBlockedIn self.new result }
    {
        while let Some(k) = self.dispatch_seat.first_free() {
            if let Err(why) = self.dispatch_to(k) {
                return why;
            }
        }
        Blocked::NoPlace
    }

    /// Dispatches messages, unless a checkpoint is due by the record count. Returns why it ended; `None` if one is due. Where the device
    /// has failed, none is dispatched: the next call of the core's `log` reports the failure.
    pub(crate) fn dispatch_ready(&mut self) -> Option<Blocked>
        ensures moves { HasMoved self.old self.new }
        ensures ended { IfSome result (IsBlockedIn self.new) }
        ensures due { IfNone result (IsDue self.new.trigger self.new.core.pieces_left) }
    {
        if self.trigger.is_due(self.core.pieces_left()) {
            None
        } else {
            Some(self.dispatch_all())
        }
    }
}
