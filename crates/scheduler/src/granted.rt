//! What a grant (`Core::grant`, the dispatch of a message) gives, and which message it chooses.
ghost use Rattle.std.specs.Prelude.{◌≡◌, IfErr, MatchResult, None, Some, cond, is_some, true};
ghost use Rattle.scheduler.specs.declared.granted.Granted.TheVariants as granted;
ghost use Rattle.run_queue.specs.RunQueue.{next_queued};

use parcel::Job;
use run_queue::{QueuedMessage, RunQueue};

/// What a grant gives.
#[derive(Drop)]
pub enum Granted {
    /// The message was dispatched as this job.
    Job(Job),
    /// No message is eligible, and none lacks only room in the log.
    NoneEligible,
    /// No message is eligible, and some message lacks only room in the log.
    NoRoom,
    /// Nothing is dispatched, since the device has failed.
    Failed,
}

/// The message that is dispatched next, given whether `log_has_room`; or why there is none.
pub(crate) fn choose(queue: &RunQueue, log_has_room: bool) -> Result<QueuedMessage, Granted>
    ensures next { MatchResult result
        (λ queued. next_queued log_has_room queue.now.held queue.now.waiting ≡ Some queued)
        (λ why. next_queued log_has_room queue.now.held queue.now.waiting ≡ None) }
    ensures why { IfErr result (λ why.
        why ≡ cond (is_some (next_queued true queue.now.held queue.now.waiting)) granted.NoRoom granted.NoneEligible) }
{
    if let Some(queued) = queue.next(log_has_room) {
        return Ok(queued);
    }
    if !log_has_room && queue.next(true).is_some() {
        Err(Granted::NoRoom)
    } else {
        Err(Granted::NoneEligible)
    }
}
