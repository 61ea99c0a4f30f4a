//! The bench: its table, and what the dispatcher does there.
//!
//! The table has a word (its state) and a slot (a job cell) for each place, and some words before these (`words.rt`). A slot lies in the
//! table or belongs to one seat, which reaches only the first of its slots: so the dispatcher's are rotated (`rotate_to`).
//! In clauses a seat has its table (`table_id`) and `me`. `me.0` is its role: `Dispatcher n lent` says that n slots are still to be taken
//! from the table, and which jobs are lent. `me.1` are the slots that it has, the one taken last first.
ghost use Rattle.std.specs.Prelude.{◌≡◌, ◌+◌, ◌<◌, ◌≤◌, [], ◌∷◌, map, replicate, is_some, slice_set, Option, None, Some, IfOk, IfSome, IfNone, All, MatchOption, IsTrue, IsFalse, length, vec_len, Ok, Err};
ghost use Rattle.atomic_table.specs.Table.{rest};
ghost use Rattle.parcel.specs.JobRun.{JobView, IsJobRun};
ghost use Rattle.workers.specs.Rule.{LentJobs, lent_at};
ghost use Rattle.workers.specs.Seats.{IsAtBench, IsBench, IsDispatchSeat, HasCollected, lent_of, places_of, empty_slots};
ghost use Rattle.workers.specs.declared.job_cell.CellContent.TheVariants.{Delivered};
ghost use Rattle.workers.specs.declared.seats.SeatRole.TheVariants.{Dispatcher};

use crate::atomic_steps::{self, BenchInvariant, Words};
use crate::event_counts::{wait_delivery, wake_worker};
use crate::job_cell::JobCell;
use crate::seats::{DispatchSeat, Seat, SeatRole, WorkSeat, rotate_to};
use crate::words::{DELIVERED, FIRST_PLACE, MOST_PLACES, OFFER_EVENT, STOP};
use atomic_table::Table;
use parcel::{Done, Job};
use std::alloc::{AllocError, Global};
use std::marker::Model;
use std::sync::Wait;

/// The table at which one dispatcher and its workers meet. A contract sees the table's identity, and `places_of` it, the number of places.
pub struct Bench {
    pub(crate) table: Table<JobCell, SeatRole, usize, BenchInvariant, Global>,
}

// Written by hand: a derived `Drop` is proved anew in each crate that drops a bench, with all that a job may hold.
impl Drop for Bench {
    fn drop(self) {
        let Bench { table: _ } = self;
    }
}

impl Model for Bench {
    ghost use Rattle.atomic_table.specs.Seated.{TableId};
    ghost use Rattle.workers.specs.Seats.{IsBench};

    ghost Value = { TableId };

    ghost view = { λ b. b.table.shared.table_id };

    ghost invariant = { λ b. IsBench b.table.shared.table_id };
}

impl Bench {
    /// A bench with `places` free places, the dispatcher's seat and a seat for each worker. It takes all memory that the bench will need.
    pub fn open(
        alloc: Global,
        places: usize,
        workers: usize,
    ) -> Result<(Bench, DispatchSeat, Vec<WorkSeat>), AllocError>
        requires { places ≤ MOST_PLACES }
        ensures places { IfOk result (λ r. places_of r.0 ≡ places) }
        ensures dispatcher { IfOk result (λ r. (r.1.bench ≡ r.0) × (r.1.lent ≡ replicate places None)) }
        ensures workers { IfOk result (λ r. (vec_len r.2 ≡ workers) × All (λ w. w ≡ r.0) r.2.items) }
    {
        let initial_words = vec![in alloc; 0; places + FIRST_PLACE]?;
        let lent = vec![in alloc; false; places]?;
        let (table, mut seat) = lay(alloc, &initial_words, places)?;
        take_slots(&table.shared, &mut seat, places);
        let seats = seat_workers(alloc, &table.shared, &mut seat, workers)?;
        let dispatch_seat = DispatchSeat {
            seat,
            lent,
            seen: 0,
        };
        Ok((Bench { table }, dispatch_seat, seats))
    }

    /// Offers a job to the workers at place k, and wakes one that sleeps if none spins. Hands the job back if the place is taken.
    #[inline(always)]
    pub fn offer(&self, seat: &mut DispatchSeat, k: usize, job: Job) -> Result<(), Job>
        requires { (seat.old.bench ≡ self.now) × (k < places_of self.now) }
        ensures bench { seat.new.bench ≡ seat.old.bench }
        ensures answer { MatchOption (lent_at seat.old.lent k)
            ((result ≡ Ok tt) × (seat.new.lent ≡ slice_set seat.old.lent k (Some job))) (λ _. (result ≡ Err job) × (seat.new ≡ seat.old)) }
    {
        if seat.lent[k] {
            return Err(job);
        }
        let words = &self.table.shared;
        put_offer(words, &mut seat.seat, &mut seat.lent, k, job);
        atomic_steps::count_up(words, &mut seat.seat, OFFER_EVENT);
        wake_worker(words);
        Ok(())
    }

    /// Takes the result of the job that was last offered at place k through this seat, if it was delivered. It tries once and waits for
    /// nobody.
    pub fn collect(&self, seat: &mut DispatchSeat, k: usize) -> Option<Done>
        requires { (seat.old.bench ≡ self.now) × (k < places_of self.now) }
        ensures bench { seat.new.bench ≡ seat.old.bench }
        ensures some { IfSome result (λ done. (job : JobView) × (lent_at seat.old.lent k ≡ Some job) × IsJobRun job done
            × (seat.new.lent ≡ slice_set seat.old.lent k None)) }
        ensures none { IfNone result (seat.new ≡ seat.old) }
    {
        let words = &self.table.shared;
        if !seat.lent[k]
            || words.peek(k + FIRST_PLACE) != DELIVERED
            || !try_collect(words, &mut seat.seat, &seat.lent, k)
        {
            return None;
        }
        Some(take_delivered(words, &mut seat.seat, &mut seat.lent, k))
    }

    /// Sleeps until something was delivered since the last wait returned, or since the start.
    pub fn wait<R: Wait>(&self, rt: &R, seat: &mut DispatchSeat)
        requires { seat.old.bench ≡ self.now }
        ensures { seat.new ≡ seat.old }
    {
        seat.seen = wait_delivery(&self.table.shared, &mut seat.seat, rt, seat.seen);
    }

    /// Signals the workers to end, each once it has delivered what it has claimed.
    pub fn stop(&self, seat: &mut DispatchSeat)
        requires { seat.old.bench ≡ self.now }
        ensures { seat.new ≡ seat.old }
    {
        let words = &self.table.shared;
        atomic_steps::set_word(words, &mut seat.seat, STOP, 1);
        atomic_steps::count_up(words, &mut seat.seat, OFFER_EVENT);
        words.wake_all(OFFER_EVENT);
    }
}

// A table with a word and a slot for each place, all empty, and its first seat, the dispatcher's.
fn lay(
    alloc: Global,
    words: &[u64],
    places: usize,
) -> Result<
    (
        Table<JobCell, SeatRole, usize, BenchInvariant, Global>,
        Seat,
    ),
    AllocError,
>
    requires places { places ≤ MOST_PLACES }
    requires words { words.now ≡ replicate (places + FIRST_PLACE) 0 }
    ensures table { IfOk result (λ r. IsBench r.0.shared.table_id × (places_of r.0.shared.table_id ≡ places)) }
    ensures seat { IfOk result (λ r. (r.1.table_id ≡ r.0.shared.table_id) × (r.1.me ≡ (Dispatcher places (replicate places None), []))) }
{
    let cells = empty_cells(alloc, places)?;
    Table::new(alloc, words, cells, &places).map_err(|_| AllocError)
}

// `places` empty cells.
fn empty_cells(alloc: Global, places: usize) -> Result<Vec<JobCell>, AllocError>
    ensures { IfOk result (λ cells. cells.items ≡ replicate places None) }
{
    let mut cells = Vec::with_capacity(alloc, places)?;
    for _place in 0..places {
        cells.push(JobCell::new(alloc)?)?;
    }
    Ok(cells)
}

// Splits off a seat for each worker.
fn seat_workers(
    alloc: Global,
    words: &Words,
    seat: &mut Seat,
    workers: usize,
) -> Result<Vec<WorkSeat>, AllocError>
    requires { IsAtBench words.now.table_id seat.old.table_id }
    ensures dispatch_seat { (seat.new.table_id ≡ seat.old.table_id) × (seat.new.me ≡ seat.old.me) }
    ensures workers { IfOk result (λ seats. (vec_len seats ≡ workers) × All (λ w. w ≡ words.now.table_id) seats.items) }
{
    let mut seats = Vec::with_capacity(alloc, workers)?;
    for _number in 0..workers {
        let worker = atomic_steps::split(words, seat);
        seats.push(WorkSeat { seat: worker })?;
    }
    Ok(seats)
}

// Takes the slots of all places, from the last one down, so that they are in order.
fn take_slots(words: &Words, seat: &mut Seat, places: usize)
    requires bench { IsAtBench words.now.table_id seat.old.table_id }
    requires places { places ≡ places_of words.now.table_id }
    requires seat { seat.old.me ≡ (Dispatcher places (replicate places None), []) }
    ensures bench { seat.new.table_id ≡ seat.old.table_id }
    ensures seat { seat.new.me ≡ (Dispatcher 0 (replicate places None), empty_slots 0 (replicate places None)) }
{
    let mut k = places;
    while 0 < k {
        k -= 1;
        atomic_steps::take_slot(words, seat, k);
    }
}

// Offers a job at a free place.
#[inline(always)]
fn put_offer(words: &Words, seat: &mut Seat, lent: &mut [bool], k: usize, job: Job)
    requires bench { (seat.old.table_id ≡ words.now.table_id) × (k < places_of words.now.table_id) }
    requires dispatch_seat { IsDispatchSeat words.now.table_id seat.old.me lent.old }
    requires empty { lent_at (lent_of seat.old.me.0) k ≡ None }
    ensures bench { seat.new.table_id ≡ seat.old.table_id }
    ensures dispatch_seat { IsDispatchSeat words.now.table_id seat.new.me lent.new }
    ensures lent { lent_of seat.new.me.0 ≡ slice_set (lent_of seat.old.me.0) k (Some job) }
{
    rotate_to(seat, lent, 0, k);
    atomic_steps::lay_job(words, seat, k, job);
    atomic_steps::offer(words, seat, k);
    lent[k] = true;
    rotate_to(seat, lent, k + 1, lent.len());
}

// Takes the slot of place k, if the result of its job was delivered. Else nothing changes. Returns whether it was.
fn try_collect(words: &Words, seat: &mut Seat, lent: &[bool], k: usize) -> bool
    requires bench { (seat.old.table_id ≡ words.now.table_id) × (k < places_of words.now.table_id) }
    requires dispatch_seat { IsDispatchSeat words.now.table_id seat.old.me lent.now }
    ensures bench { seat.new.table_id ≡ seat.old.table_id }
    ensures won { IsTrue result → HasCollected k (lent_of seat.old.me.0) seat.new.me }
    ensures lost { IsFalse result → seat.new.me ≡ seat.old.me }
{
    rotate_to(seat, lent, 0, k);
    if atomic_steps::collect(words, seat, k) {
        return true;
    }
    rotate_to(seat, lent, k, lent.len());
    false
}

// Takes the result out of the slot of place k, which `try_collect` has just taken.
fn take_delivered(words: &Words, seat: &mut Seat, lent: &mut [bool], k: usize) -> Done
    requires bench { (seat.old.table_id ≡ words.now.table_id) × (k < places_of words.now.table_id) × IsBench words.now.table_id }
    requires won { (jobs : LentJobs) × HasCollected k jobs seat.old.me × (lent.old ≡ map is_some jobs)
        × (length lent.old ≡ places_of words.now.table_id) }
    ensures bench { seat.new.table_id ≡ seat.old.table_id }
    ensures dispatch_seat { IsDispatchSeat words.now.table_id seat.new.me lent.new }
    ensures lent { lent_of seat.new.me.0 ≡ lent_of seat.old.me.0 }
    ensures result { seat.old.me.1 ≡ (k, Some (Delivered result)) ∷ rest seat.old.me.1 }
{
    lent[k] = false;
    let done = atomic_steps::take_result(words, seat, k);
    rotate_to(seat, lent, k, lent.len());
    done
}
