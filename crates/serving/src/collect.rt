//! Collecting: the places of the bench are polled for the results of jobs, which go back to the core. A session waits here for a worker.

ghost use Rattle.std.specs.Prelude.{◌≡◌, ◌+◌, ◌<◌, ◌≤◌, ◌↔◌, ◌⊎◌, ◌||◌, false, IfNone, IfSome, IsFalse, IsTrue, length};
ghost use Rattle.serving.specs.Kill.{IsKillSafe};
ghost use Rattle.serving.specs.Checkpoints.{IsDue};
ghost use Rattle.serving.specs.DispatchesTo.{NoneInFlight};
ghost use Rattle.serving.specs.Session.{steps_ahead};
ghost use Rattle.serving.specs.SessionSteps.{HasMoved, HasReadNothing, IsBlockedIn, KeepsReadEndAndOutputFailed};
ghost use Rattle.serving.specs.declared.dispatch.Blocked.{Blocked};

use crate::dispatch::Blocked;
use crate::output::ReplySink;
use crate::session::{GatedRuntime, Session};
use disk::Disk;
use oplog::RECORDS_PER_WRITE;
use protocol::Reply;
use std::hint::spin_loop;
use std::io::Read;
use std::thread::yield_now;
use workers::MOST_PLACES;

/// How many messages may be collected before what ran is logged.
const BATCH: usize = MOST_PLACES;

// A batch is logged by one write of its records and one of their gates.
const _: () = prove!(BATCH <= RECORDS_PER_WRITE);

// A batch has room for a result from each place. With less room a poll could end early, at a full batch, before it has looked at the last
// places. A result at one of these, whose signal the loop has seen already, would stay there, and the loop could sleep in spite of it.
const _: () = prove!(MOST_PLACES <= BATCH);

/// After how many polls in succession that found no result the batch is logged as it is. One poll looks at every place once. So many polls
/// take about ten times as long as a thread takes to wake up, so that a worker which was just woken is still waited for. Each result starts
/// the count anew. In the worst case, therefore, the reply to a collected message waits for this number of polls before each further result
/// of its batch.
const MAX_POLLS: usize = 16384;

/// The thread yields the processor once in this many polls.
const POLLS_PER_YIELD: usize = 32;

/// What was collected in one iteration, `BATCH` messages at most.
#[derive(Clone, Copy)]
struct Batch {
    /// How many messages were collected.
    collected: usize,
    /// Whether one of the collected messages changed something, so that it has to be written to the log.
    changed: bool,
}

impl Batch {
    /// A batch in which nothing was collected yet.
    fn new() -> Batch
        ensures { (result.collected ≡ 0) × (result.changed ≡ false) }
    {
        Batch {
            collected: 0,
            changed: false,
        }
    }

    /// Counts a message that was collected: `changed` is whether it changed something.
    fn add(&mut self, changed: bool)
        requires { self.old.collected < BATCH }
        ensures collected { self.new.collected ≡ self.old.collected + 1 }
        ensures changed { self.new.changed ≡ (self.old.changed || changed) }
    {
        self.collected += 1;
        self.changed = self.changed || changed;
    }

    /// Whether something was collected.
    fn has_results(&self) -> bool
        ensures { IsTrue result ↔ (0 < self.now.collected) }
    {
        self.collected > 0
    }

    /// Whether the batch is full: what ran is to be logged before more is collected.
    fn is_full(&self) -> bool
        ensures { IsTrue result ↔ (BATCH ≤ self.now.collected) }
    {
        self.collected >= BATCH
    }

    /// Whether the batch is to be logged now: it is full, or it has results of which none needs a write to the log. In both cases waiting
    /// gains nothing.
    fn is_ready_to_log(&self) -> bool
        ensures { IsTrue result ↔ ((BATCH ≤ self.now.collected) ⊎ ((0 < self.now.collected) × (self.now.changed ≡ false))) }
    {
        self.is_full() || self.has_results() && !self.changed
    }
}

/// A pause after poll number `polls`: one spin of the processor or, where the number is a multiple of `POLLS_PER_YIELD`, a yield.
fn pause(polls: usize) {
    if polls % POLLS_PER_YIELD == 0 {
        yield_now();
    } else {
        spin_loop();
    }
}

impl<'c, R: Read, D: Disk, L: ReplySink<D>> Session<'c, R, D, L> {
    /// Collects the result of the job at place k, if it was delivered. Returns whether the job changed something; `None` without a result.
    fn collect_one(&mut self, k: usize) -> Option<bool>
        requires place { k < length self.old.dispatch_seat.lent }
        ensures moves { HasMoved self.old self.new }
        ensures places { length self.new.dispatch_seat.lent ≡ length self.old.dispatch_seat.lent }
        ensures failed { self.new.core.failed ≡ self.old.core.failed }
        ensures none { IfNone result (self.new ≡ self.old) }
        ensures some { IfSome result (λ _. steps_ahead self.new < steps_ahead self.old) }
    {
        self.core.know_recovery();
        let Some(done) = self.bench.collect(&mut self.dispatch_seat, k) else {
            return None;
        };
        let changed = matches!(done.reply(), Reply::Done);
        self.core.give_back(done);
        Some(changed)
    }

    /// Polls each place once, and collects the results that were delivered, until the batch is full. Returns whether there was a result.
    fn collect_delivered(&mut self, batch: &mut Batch) -> bool
        ensures moves { HasMoved self.old self.new }
        ensures failed { self.new.core.failed ≡ self.old.core.failed }
        ensures as_many { batch.old.collected ≤ batch.new.collected }
        ensures more { IsTrue result → batch.old.collected < batch.new.collected }
        ensures few { batch.old.collected ≤ BATCH → batch.new.collected ≤ BATCH }
        ensures none { IsFalse result → self.new ≡ self.old }
    {
        let mut came = false;
        let mut k = 0;
        while k < self.dispatch_seat.places() && !batch.is_full() {
            if let Some(changed) = self.collect_one(k) {
                batch.add(changed);
                came = true;
            }
            k += 1;
        }
        came
    }

    /// Waits for a delivery, while a job is in flight: without one no delivery would come.
    pub(crate) fn wait_for_worker<W: GatedRuntime>(&mut self, rt: &W)
        requires in_flight { NoneInFlight self.old.dispatch_seat.lent → ⊥ }
        requires safe { IsKillSafe D.keeps L.start self.old.sent self.old.sent_at self.old.core }
        ensures same { self.new ≡ self.old }
    {
        self.bench.wait(rt, &mut self.dispatch_seat);
    }

    /// Waits for the jobs in flight, and collects their results. Then no job is in flight.
    pub(crate) fn drain_workers<W: GatedRuntime>(&mut self, rt: &W)
        ensures as_before { KeepsReadEndAndOutputFailed self.old self.new }
        ensures unread { HasReadNothing self.old self.new }
        ensures failed { self.new.core.failed ≡ self.old.core.failed }
        ensures none_in_flight { NoneInFlight self.new.dispatch_seat.lent }
    {
        for _ in rt.forever() {
            let mut batch = Batch::new();
            self.collect_delivered(&mut batch);
            let is_lent = self.dispatch_seat.any_lent();
            if !is_lent {
                break;
            }
            self.know_kill_safe();
            self.wait_for_worker(rt);
        }
    }

    /// Dispatches messages and collects results, until the batch is ready to log (`is_ready_to_log`), no job is in flight any more, or
    /// `MAX_POLLS` polls in succession found no result. After a poll that found some, it dispatches more messages. It never blocks.
    /// Returns why no further message is dispatched, as `dispatch_ready` does.
    pub(crate) fn dispatch_and_collect(&mut self) -> Option<Blocked>
        ensures moves { HasMoved self.old self.new }
        ensures ended { IfSome result (IsBlockedIn self.new) }
        ensures due { IfNone result (IsDue self.new.trigger self.new.core.pieces_left) }
    {
        let mut why = self.dispatch_ready();
        let mut batch = Batch::new();
        let mut polls = 0;
        while polls < MAX_POLLS && !batch.is_ready_to_log() && self.dispatch_seat.any_lent() {
            if self.collect_delivered(&mut batch) {
                why = self.dispatch_ready();
                polls = 0;
            } else {
                polls += 1;
                pause(polls);
            }
        }
        why
    }
}
