//! The kinds of atomic step on the bench's table, each made once, without a retry: six that move seats and slots (split, take_slot, offer,
//! claim, deliver, collect), and three that count a word up or down or record a number in it: a signal, the stop, or that a thread waits.
//! Nothing else changes a word. Between its steps a seat fills or empties a slot that it has.
ghost use Rattle.std.specs.Prelude.{◌≡◌, ◌+◌, ◌<◌, [], ◌∷◌, replicate, slice_set, None, Some, IsTrue, IsFalse};
ghost use Rattle.atomic_table.specs.Table.{rest};
ghost use Rattle.parcel.specs.JobRun.{JobView, IsJobRun};
ghost use Rattle.parcel.specs.declared.job.Done.{Done as TheDone};
ghost use Rattle.workers.specs.Rule.{LentJobs, BenchRule, lent_at};
ghost use Rattle.workers.specs.Seats.{IsAtBench, lent_of, idle, places_of};
ghost use Rattle.workers.specs.Steps.{TakesSlot, Offers, Claims, Delivers, Collects, OfPlace};
ghost use Rattle.workers.specs.declared.job_cell.CellContent.TheVariants.{Offered, Delivered};
ghost use Rattle.workers.specs.declared.seats.SeatRole.TheVariants.{Dispatcher, Idle, Claimed};

use crate::job_cell::JobCell;
use crate::seats::{Seat, SeatRole};
use crate::words::{CLAIMED, DELIVERED, EMPTY, FIRST_PLACE, OFFERED};
use atomic_table::{Play, Shared, Split, TableRule};
use parcel::{Done, Job};

/// The shared part of the table: its words and its slots. A variable of this type is called `words`.
pub type Words = Shared<JobCell, SeatRole, usize, BenchInvariant>;

/// The rule of the bench's table. `first` is the role of its first seat, given the number of places of the table.
pub struct BenchInvariant;

impl TableRule<JobCell, SeatRole, usize> for BenchInvariant {
    ghost holds = { λ _. BenchRule };

    ghost first = { λ places. Dispatcher places (replicate places None) };
}

// What each kind of step makes of its seat's view `me` (its role, and the slots that it has, the one taken last first), and the view of a
// worker's seat split off the dispatcher's. `Split` and `Play` are traits of `atomic_table`, for a split of a seat and for a step. `then`
// relates the step, the view before it (m), the number that it found in the word, and the view after it (w). `OfPlace r` says r of the
// place whose word the step changes.
struct Splitting;

struct TakingSlot;

struct Offering;

struct Claiming;

struct Delivering;

struct Collecting;

struct Bookkeeping;

impl Split<SeatRole> for Splitting {
    ghost left = { λ v. v };

    ghost right = { λ _. Idle };
}

impl Play<JobCell, SeatRole> for TakingSlot {
    ghost then = { OfPlace (λ k m _. TakesSlot k m) };
}

impl Play<JobCell, SeatRole> for Offering {
    ghost then = { OfPlace (λ k m _. Offers k m) };
}

impl Play<JobCell, SeatRole> for Claiming {
    ghost then = { OfPlace Claims };
}

impl Play<JobCell, SeatRole> for Delivering {
    ghost then = { OfPlace (λ _ m _. Delivers m) };
}

impl Play<JobCell, SeatRole> for Collecting {
    ghost then = { OfPlace Collects };
}

impl Play<JobCell, SeatRole> for Bookkeeping {
    ghost then = { λ _ m _ w. w ≡ m };
}

/// Splits a worker's seat off the dispatcher's.
pub fn split(words: &Words, seat: &mut Seat) -> Seat
    requires { IsAtBench words.now.table_id seat.old.table_id }
    ensures dispatcher { (seat.new.table_id ≡ seat.old.table_id) × (seat.new.me ≡ seat.old.me) }
    ensures worker { (result.table_id ≡ seat.old.table_id) × (result.me ≡ idle) }
{
    words.split_seat::<Splitting>(seat)
}

/// Takes the slot of place k, the last place whose slot was not taken yet.
pub fn take_slot(words: &Words, seat: &mut Seat, k: usize)
    requires bench { IsAtBench words.now.table_id seat.old.table_id }
    requires place { k < places_of words.now.table_id }
    requires untaken { (lent : LentJobs) × (slots : _) × (seat.old.me ≡ (Dispatcher (k + 1) lent, slots)) × (lent_at lent k ≡ None) }
    ensures bench { seat.new.table_id ≡ seat.old.table_id }
    ensures take_slot { TakesSlot k seat.old.me seat.new.me }
{
    words.store::<TakingSlot>(seat, k + FIRST_PLACE, EMPTY);
}

/// Offers the job in the slot that the dispatcher's seat took last. The slot goes back to the table.
pub fn offer(words: &Words, seat: &mut Seat, k: usize)
    requires bench { IsAtBench words.now.table_id seat.old.table_id }
    requires place { k < places_of words.now.table_id }
    requires job { (lent : LentJobs) × (job : JobView) × (slots : _) × (seat.old.me ≡ (Dispatcher 0 lent, (k, Some (Offered job)) ∷ slots))
        × (lent_at lent k ≡ None) }
    ensures bench { seat.new.table_id ≡ seat.old.table_id }
    ensures lent { Offers k seat.old.me seat.new.me }
{
    words.store::<Offering>(seat, k + FIRST_PLACE, OFFERED);
}

/// Takes the job of place k, if it still has one that nobody claimed, and returns whether it did. It tries once.
pub fn claim(words: &Words, seat: &mut Seat, k: usize) -> bool
    requires bench { IsAtBench words.now.table_id seat.old.table_id }
    requires place { k < places_of words.now.table_id }
    requires idle { seat.old.me ≡ idle }
    ensures bench { seat.new.table_id ≡ seat.old.table_id }
    ensures won { IsTrue result → (job : JobView) × (seat.new.me ≡ (Claimed k job, (k, Some (Offered job)) ∷ [])) }
    ensures lost { IsFalse result → seat.new.me ≡ seat.old.me }
{
    words.compare_exchange::<Claiming>(seat, k + FIRST_PLACE, OFFERED, CLAIMED) == OFFERED
}

/// Delivers the result in the slot of the place that the seat has claimed.
pub fn deliver(words: &Words, seat: &mut Seat, k: usize)
    requires bench { IsAtBench words.now.table_id seat.old.table_id }
    requires place { k < places_of words.now.table_id }
    requires result { (job : JobView) × (done : TheDone) × (seat.old.me ≡ (Claimed k job, (k, Some (Delivered done)) ∷ []))
        × IsJobRun job done }
    ensures bench { seat.new.table_id ≡ seat.old.table_id }
    ensures idle { seat.new.me ≡ idle }
{
    words.store::<Delivering>(seat, k + FIRST_PLACE, DELIVERED);
}

/// Takes the slot of place k with the result of its job, if that was delivered, and returns whether it did. It tries once.
pub fn collect(words: &Words, seat: &mut Seat, k: usize) -> bool
    requires bench { IsAtBench words.now.table_id seat.old.table_id }
    requires place { k < places_of words.now.table_id }
    requires dispatch_seat { (lent : LentJobs) × (slots : _) × (seat.old.me ≡ (Dispatcher 0 lent, slots)) }
    ensures bench { seat.new.table_id ≡ seat.old.table_id }
    ensures won { IsTrue result → (job : JobView) × (done : TheDone) × (lent_at (lent_of seat.old.me.0) k ≡ Some job) × IsJobRun job done
        × (seat.new.me ≡ (Dispatcher 0 (slice_set (lent_of seat.old.me.0) k None), (k, Some (Delivered done)) ∷ seat.old.me.1)) }
    ensures lost { IsFalse result → seat.new.me ≡ seat.old.me }
{
    words.compare_exchange::<Collecting>(seat, k + FIRST_PLACE, DELIVERED, EMPTY) == DELIVERED
}

/// Adds one to a word that counts: an event count is signaled, or a worker counts itself among those that sleep or spin. Returns the number
/// that it had.
pub fn count_up(words: &Words, seat: &mut Seat, counter: usize) -> u64
    requires bench { IsAtBench words.now.table_id seat.old.table_id }
    requires counter { counter < FIRST_PLACE }
    ensures { (seat.new.table_id ≡ seat.old.table_id) × (seat.new.me ≡ seat.old.me) }
{
    words.fetch_add::<Bookkeeping>(seat, counter, 1)
}

/// Counts the worker out again, of the same word.
pub fn count_down(words: &Words, seat: &mut Seat, counter: usize)
    requires bench { IsAtBench words.now.table_id seat.old.table_id }
    requires counter { counter < FIRST_PLACE }
    ensures { (seat.new.table_id ≡ seat.old.table_id) × (seat.new.me ≡ seat.old.me) }
{
    words.fetch_sub::<Bookkeeping>(seat, counter, 1);
}

/// Records a number in a word: that the bench is stopped, or at which value of the deliveries' event count the dispatcher goes to sleep.
pub fn set_word(words: &Words, seat: &mut Seat, word: usize, number: u64)
    requires bench { IsAtBench words.now.table_id seat.old.table_id }
    requires word { word < FIRST_PLACE }
    ensures { (seat.new.table_id ≡ seat.old.table_id) × (seat.new.me ≡ seat.old.me) }
{
    words.store::<Bookkeeping>(seat, word, number);
}

/// Lays a job into the slot that the seat took last.
#[inline(always)]
pub fn lay_job(words: &Words, seat: &mut Seat, k: usize, job: Job)
    requires { (seat.old.table_id ≡ words.now.table_id) × (seat.old.me.1 ≡ (k, None) ∷ rest seat.old.me.1) }
    ensures bench { seat.new.table_id ≡ seat.old.table_id }
    ensures slot { seat.new.me ≡ (seat.old.me.0, (k, Some (Offered job)) ∷ rest seat.old.me.1) }
{
    let cell = seat.slot_mut(words, k);
    cell.lay_job(job);
}

/// Takes the job out of the slot that the seat took last.
#[inline(always)]
pub fn take_job(words: &Words, seat: &mut Seat, k: usize) -> Job
    requires { (seat.old.table_id ≡ words.now.table_id)
        × ((job : JobView) × (seat.old.me.1 ≡ (k, Some (Offered job)) ∷ rest seat.old.me.1)) }
    ensures bench { seat.new.table_id ≡ seat.old.table_id }
    ensures job { seat.old.me.1 ≡ (k, Some (Offered result)) ∷ rest seat.old.me.1 }
    ensures slot { seat.new.me ≡ (seat.old.me.0, (k, None) ∷ rest seat.old.me.1) }
{
    let cell = seat.slot_mut(words, k);
    cell.take_job()
}

/// Lays a result into the slot that the seat took last.
#[inline(always)]
pub fn lay_result(words: &Words, seat: &mut Seat, k: usize, done: Done)
    requires { (seat.old.table_id ≡ words.now.table_id) × (seat.old.me.1 ≡ (k, None) ∷ rest seat.old.me.1) }
    ensures bench { seat.new.table_id ≡ seat.old.table_id }
    ensures slot { seat.new.me ≡ (seat.old.me.0, (k, Some (Delivered done)) ∷ rest seat.old.me.1) }
{
    let cell = seat.slot_mut(words, k);
    cell.lay_result(done);
}

/// Takes the result out of the slot that the seat took last.
#[inline(always)]
pub fn take_result(words: &Words, seat: &mut Seat, k: usize) -> Done
    requires { (seat.old.table_id ≡ words.now.table_id)
        × ((done : TheDone) × (seat.old.me.1 ≡ (k, Some (Delivered done)) ∷ rest seat.old.me.1)) }
    ensures bench { seat.new.table_id ≡ seat.old.table_id }
    ensures result { seat.old.me.1 ≡ (k, Some (Delivered result)) ∷ rest seat.old.me.1 }
    ensures slot { seat.new.me ≡ (seat.old.me.0, (k, None) ∷ rest seat.old.me.1) }
{
    let cell = seat.slot_mut(words, k);
    cell.take_result()
}
