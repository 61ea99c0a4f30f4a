//! Conflicts: whether a waiting message is kept back by others.
ghost use Rattle.std.specs.Prelude.{◌≡◌, ℕ, true, false};
ghost use Rattle.std.specs.List.{list_any};
ghost use Rattle.affinity.specs.Interval.{IsAffinity, IsAffinityOf, contains, preorder_number};
ghost use Rattle.affinity.specs.Path.{Path, IsPath};
ghost use Rattle.affinity.specs.Place.{path};
ghost use Rattle.run_queue.specs.Invariant.{ArePlacedInOrder};
ghost use Rattle.run_queue.specs.Order.{is_conflict_free};
ghost use Rattle.run_queue.specs.RelatedNumbers.{numbers_above, conflicts_at};

use crate::QueuedMessage;
use crate::holders::Holders;
use crate::waiting::Queues;
use affinity::{Affinity, Geometry, Place};

// The number of the affinity of a place.
fn number_at(g: &Geometry, place: Place) -> u16
    requires { IsPath g.now (path place) }
    ensures { result ≡ preorder_number g.now (path place) }
{
    Affinity::at(g, place).number()
}

/// The numbers of the affinities above this one, first that of the root, which is 0; where they are fewer than four, its own number fills
/// the array up.
pub(crate) fn numbers_above(g: &Geometry, a: Affinity) -> [u16; 4]
    requires { IsAffinity g.now a }
    ensures { (p : Path) → IsAffinityOf g.now p a → result ≡ numbers_above g.now p }
{
    let own = a.number();
    match a.place(g) {
        Place::Serial => [own, own, own, own],
        Place::Aggregate(_) => [0, own, own, own],
        Place::Volume(i, _) => [0, number_at(g, Place::Aggregate(i)), own, own],
        Place::Logical(i, v) => {
            let aggregate = number_at(g, Place::Aggregate(i));
            [0, aggregate, number_at(g, Place::Volume(i, v)), own]
        }
        Place::Label(i, v) => {
            let aggregate = number_at(g, Place::Aggregate(i));
            [0, aggregate, number_at(g, Place::Volume(i, v)), own]
        }
        Place::Stripe(i, v, _) => {
            let aggregate = number_at(g, Place::Aggregate(i));
            let volume = number_at(g, Place::Volume(i, v));
            [0, aggregate, volume, number_at(g, Place::Logical(i, v))]
        }
    }
}

// Whether a message at a number is held, or came before this ticket and still waits.
fn conflicts_at(held: &Holders, waiting: &Queues, ticket: u64, number: usize) -> bool
    ensures { result ≡ conflicts_at held.now.messages waiting.now.messages ticket number }
{
    held.at(number).is_some()
        || matches!(waiting.front(number), Some(front) if front.ticket < ticket)
}

// Whether `conflicts_at` holds at this affinity or at one below it.
fn conflicts_below(held: &Holders, waiting: &Queues, ticket: u64, a: Affinity) -> bool
    ensures some { result ≡ true → (n : ℕ) × (contains a n ≡ true) × (conflicts_at held.now.messages waiting.now.messages ticket n ≡ true) }
    ensures none { result ≡ false → (n : ℕ) → contains a n ≡ true → conflicts_at held.now.messages waiting.now.messages ticket n ≡ false }
{
    for n in a.number()..a.end() {
        if conflicts_at(held, waiting, ticket, usize::from(n)) {
            return true;
        }
    }
    false
}

// Whether `conflicts_at` holds at one of these numbers.
fn conflicts_at_any(held: &Holders, waiting: &Queues, ticket: u64, numbers: &[u16]) -> bool
    ensures { result ≡ list_any (conflicts_at held.now.messages waiting.now.messages ticket) numbers.now }
{
    for n in numbers {
        if conflicts_at(held, waiting, ticket, usize::from(*n)) {
            return true;
        }
    }
    false
}

/// Whether no message at a related affinity is held, or waits with a smaller ticket.
pub(crate) fn is_conflict_free(
    g: &Geometry,
    held: &Holders,
    waiting: &Queues,
    queued: &QueuedMessage,
) -> bool
    requires placed { IsAffinity g.now queued.now.affinity }
    requires messages { ArePlacedInOrder g.now held.now.messages waiting.now.messages }
    ensures { result ≡ is_conflict_free held.now.messages waiting.now.messages queued.now }
{
    let a = queued.affinity;
    !conflicts_below(held, waiting, queued.ticket, a)
        && !conflicts_at_any(held, waiting, queued.ticket, &numbers_above(g, a))
}
