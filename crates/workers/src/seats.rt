//! The seats of the bench: who may do what.
ghost use Rattle.std.specs.Prelude.{◌≡◌, ◌+◌, ◌<◌, ◌≤◌, length, map, position, replicate, Option, None, is_some, is_none, not, IsFalse, ◌↔◌};
ghost use Rattle.std.specs.List.{list_any};
ghost use Rattle.workers.specs.Rule.{lent_at};
ghost use Rattle.workers.specs.Seats.{lent_of, places_of, empty_slots_from};

use crate::job_cell::JobCell;
use parcel::Job;
use std::collections::LinkedList;
use std::marker::Model;

/// What a seat knows, as clauses see it. No value of it is made at run time.
pub enum SeatRole {
    /// How many places have a slot that the seat has not taken from the table yet (none but while the bench is being opened), and the job
    /// that is lent at each place.
    Dispatcher(u64, LinkedList<Option<Job>>),
    /// A worker with no job.
    Idle,
    /// A worker with the job of a place.
    Claimed(u64, Job),
}

/// A seat at the table, whoever has it. Contracts see its table (`table_id`) and `me`: what the seat knows (a `SeatRole`), and the slots
/// that it has, each with its content, the one taken last first.
pub type Seat = atomic_table::Seat<JobCell, SeatRole>;

/// The seat of the thread that offers jobs and collects their results. A clause sees which bench it
/// belongs to and the job that is lent at each place.
pub struct DispatchSeat {
    pub(crate) seat: Seat,
    // Whether something is lent at each place.
    pub(crate) lent: Vec<bool>,
    // The number of the event count of the deliveries when the last wait returned.
    pub(crate) seen: u64,
}

// Written by hand for the reason that stands at the `Drop` of `Bench`.
impl Drop for DispatchSeat {
    fn drop(self) {
        let DispatchSeat {
            seat: _,
            lent: _,
            seen: _,
        } = self;
    }
}

impl Model for DispatchSeat {
    ghost use Rattle.workers.specs.Seats.{DispatchSeatView, IsDispatchSeat, lent_of};

    ghost Value = { DispatchSeatView };

    ghost view = { λ d. record { bench = d.seat.table_id; lent = lent_of d.seat.me.0 } };

    ghost invariant = { λ d. IsDispatchSeat d.seat.table_id d.seat.me d.lent.items };
}

impl DispatchSeat {
    /// How many places its bench has.
    pub fn places(&self) -> usize
        ensures lent_length { result ≡ length self.now.lent }
        ensures bench { result ≡ places_of self.now.bench }
    {
        self.lent.len()
    }

    /// The first free place.
    pub fn first_free(&self) -> Option<usize>
        ensures { result ≡ position is_none self.now.lent }
    {
        first_down(&self.lent)
    }

    /// Whether some place is taken.
    pub fn any_lent(&self) -> bool
        ensures { IsFalse result ↔ (self.now.lent ≡ replicate (length self.now.lent) None) }
    {
        is_any_up(&self.lent)
    }
}

// The first flag that is false.
fn first_down(flags: &[bool]) -> Option<usize>
    ensures { result ≡ position not flags.now }
{
    flags.iter().position(|is_up| !*is_up)
}

// Whether some flag is true.
fn is_any_up(flags: &[bool]) -> bool
    ensures { result ≡ list_any (λ is_up. is_up) flags.now }
{
    flags.iter().any(|is_up| *is_up)
}

/// The seat of a worker that has no job. A clause sees which bench it belongs to.
pub struct WorkSeat {
    pub(crate) seat: Seat,
}

// Written by hand for the reason that stands at the `Drop` of `Bench`.
impl Drop for WorkSeat {
    fn drop(self) {
        let WorkSeat { seat: _ } = self;
    }
}

impl Model for WorkSeat {
    ghost use Rattle.atomic_table.specs.Seated.{TableId};
    ghost use Rattle.std.specs.Prelude.{◌≡◌};
    ghost use Rattle.workers.specs.Seats.{idle};

    ghost Value = { TableId };

    ghost view = { λ w. w.seat.table_id };

    ghost invariant = { λ w. w.seat.me ≡ idle };
}

impl WorkSeat {
    ghost use Rattle.std.specs.Prelude.{◌≡◌};
    ghost use Rattle.workers.specs.Seats.{idle};

    // The seat of the table that is inside.
    pub(crate) fn into_inner(self) -> Seat
        ensures bench { result.table_id ≡ self }
        ensures idle { result.me ≡ idle }
    {
        let WorkSeat { seat } = self;
        seat
    }
}

// Rotates the dispatcher's list of slots: before the call it begins with the slots of the places from `from` on,
// and after it with those from `to` on. A seat can reach only the first slot of its list.
pub fn rotate_to(seat: &mut Seat, lent: &[bool], from: usize, to: usize)
    requires places { (from ≤ to) × (to ≤ length lent.now) }
    requires flags { lent.now ≡ map is_some (lent_of seat.old.me.0) }
    requires slots { seat.old.me.1 ≡ empty_slots_from from (lent_of seat.old.me.0) }
    ensures bench { seat.new.table_id ≡ seat.old.table_id }
    ensures slots { seat.new.me ≡ (seat.old.me.0, empty_slots_from to (lent_of seat.old.me.0)) }
{
    for k in from..to {
        rotate_past(seat, lent[k], k);
    }
}

// Moves the slot of place k behind the others, if the seat has it.
fn rotate_past(seat: &mut Seat, is_lent: bool, k: usize)
    requires place { k < length (lent_of seat.old.me.0) }
    requires flag { is_lent ≡ is_some (lent_at (lent_of seat.old.me.0) k) }
    requires slots { seat.old.me.1 ≡ empty_slots_from k (lent_of seat.old.me.0) }
    ensures bench { seat.new.table_id ≡ seat.old.table_id }
    ensures slots { seat.new.me ≡ (seat.old.me.0, empty_slots_from (k + 1) (lent_of seat.old.me.0)) }
{
    if is_lent {
        return;
    }
    seat.turn();
}
