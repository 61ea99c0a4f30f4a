//! What a worker does.
ghost use Rattle.std.specs.Prelude.{◌≡◌, ◌<◌, [], ◌∷◌, Some, All};
ghost use Rattle.parcel.specs.JobRun.{JobView};
ghost use Rattle.workers.specs.Seats.{IsAtBench, IsBench, idle, places_of};
ghost use Rattle.workers.specs.declared.job_cell.CellContent.TheVariants.{Offered};
ghost use Rattle.workers.specs.declared.seats.SeatRole.TheVariants.{Claimed};

use crate::atomic_steps::{self, Words};
use crate::bench::Bench;
use crate::event_counts::{signal_delivery, sleep, spin_then_sleep, wake_worker};
use crate::gate::Gate;
use crate::seats::{Seat, WorkSeat};
use crate::words::{FIRST_PLACE, OFFER_EVENT, OFFERED, STOP};
use parcel::run;
use std::alloc::AllocError;
use std::sync::Wait;
use std::thread::{Scope, Threads};

/// What came of one try of each place.
#[derive(Clone, Copy, PartialEq, Eq)]
enum Round {
    /// No job could be claimed.
    Idle,
    /// At least one result was delivered. The last delivery didn't have to wake the dispatcher.
    Served,
    /// The last delivery signaled the dispatcher to wake: it slept, or this was the first delivery of all.
    Woke,
}

impl Bench {
    /// Claims jobs, runs them and delivers their results until it sees that the bench is stopped.
    pub fn work<G: Gate, R: Wait>(&self, rt: &R, seat: WorkSeat, gate: &G) -> WorkSeat
        requires { seat ≡ self.now }
        ensures { result ≡ seat }
    {
        let words = &self.table.shared;
        let places = self.table.slot_count();
        let mut worker_seat = seat.into_inner();
        let mut last = Round::Idle;
        for _ in rt.forever() {
            let seen = words.peek(OFFER_EVENT);
            if words.peek(STOP) != 0 {
                break;
            }
            match try_places(words, &mut worker_seat, places, gate) {
                // A worker whose delivery woke the dispatcher doesn't spin: where other threads keep the processors busy, it would wait for
                // their time slices each time it yields.
                Round::Idle if last == Round::Woke => {
                    sleep(words, &mut worker_seat, rt, seen);
                    last = Round::Idle;
                }
                Round::Idle => spin_then_sleep(words, &mut worker_seat, rt, seen),
                round => last = round,
            }
        }
        WorkSeat { seat: worker_seat }
    }

    /// Starts a thread of the scope for each seat, which works until the bench is stopped. Where one can't be started, those before it
    /// work on: they too end when the bench is stopped.
    pub(crate) fn start_all<'s, E, R: Threads + Wait + Sync, G: Gate + Sync>(
        &'s self,
        rt: &'s R,
        scope: &Scope<'s, E>,
        mut seats: Vec<WorkSeat>,
        gate: &'s G,
    ) -> Result<(), AllocError>
        requires { All (λ w. w ≡ self.now) seats.items }
    {
        while let Some(seat) = seats.pop() {
            let started = scope.spawn(
                move || -> WorkSeat
                    requires { seat ≡ self.now }
                { self.work(rt, seat, gate) },
            );
            if started.is_err() {
                return Err(AllocError);
            }
        }
        Ok(())
    }
}

// Wakes another worker where a place after k has a job too. An offer wakes nobody while a worker spins. The worker that spun may be this
// one, which is busy now with the job that it has claimed.
fn wake_another(words: &Words, k: usize, places: usize)
    requires bench { IsBench words.now.table_id }
    requires places { (k < places) × (places ≡ places_of words.now.table_id) }
{
    for other in k + 1..places {
        if words.peek(other + FIRST_PLACE) == OFFERED {
            wake_worker(words);
            return;
        }
    }
}

// Tries each place once, and does the job of each place that it could claim.
fn try_places<G: Gate>(words: &Words, seat: &mut Seat, places: usize, gate: &G) -> Round
    requires bench { IsAtBench words.now.table_id seat.old.table_id }
    requires places { places ≡ places_of words.now.table_id }
    requires idle { seat.old.me ≡ idle }
    ensures { (seat.new.table_id ≡ seat.old.table_id) × (seat.new.me ≡ idle) }
{
    let mut round = Round::Idle;
    for k in 0..places {
        if let Some(woke) = try_place(words, seat, k, places, gate) {
            round = if woke { Round::Woke } else { Round::Served };
        }
    }
    round
}

// Does the job of a place if it can be claimed. Returns `None` if it can't, else whether its delivery signaled the dispatcher to wake.
fn try_place<G: Gate>(
    words: &Words,
    seat: &mut Seat,
    k: usize,
    places: usize,
    gate: &G,
) -> Option<bool>
    requires bench { IsAtBench words.now.table_id seat.old.table_id }
    requires place { (k < places) × (places ≡ places_of words.now.table_id) }
    requires idle { seat.old.me ≡ idle }
    ensures { (seat.new.table_id ≡ seat.old.table_id) × (seat.new.me ≡ idle) }
{
    if words.peek(k + FIRST_PLACE) != OFFERED {
        return None;
    }
    if !atomic_steps::claim(words, seat, k) {
        return None;
    }
    wake_another(words, k, places);
    Some(run_claimed(words, seat, k, gate))
}

// Runs the job of the place that the seat has claimed, and delivers its result. Returns whether that signaled the dispatcher to wake: it
// slept, or this was the first delivery of all.
fn run_claimed<G: Gate>(words: &Words, seat: &mut Seat, k: usize, gate: &G) -> bool
    requires bench { IsAtBench words.now.table_id seat.old.table_id }
    requires place { k < places_of words.now.table_id }
    requires claimed { (job : JobView) × (seat.old.me ≡ (Claimed k job, (k, Some (Offered job)) ∷ [])) }
    ensures { (seat.new.table_id ≡ seat.old.table_id) × (seat.new.me ≡ idle) }
{
    let job = atomic_steps::take_job(words, seat, k);
    gate.before(job.ticket());
    let done = run(job);
    atomic_steps::lay_result(words, seat, k, done);
    atomic_steps::deliver(words, seat, k);
    signal_delivery(words, seat)
}
