//! The words of the table, each by its number, and the values of a place's word.
//!
//! The words are in groups by who writes them, 16 words (128 bytes) apart, so that none shares a line of a processor's cache with those of
//! another group. Words without a number stay 0.
ghost use Rattle.std.specs.Prelude.{◌≡◌, ◌%◌, ◌^◌};

use affinity::limits::MOST_WORKERS;

/// The word that is 0 at first, and 1 once the bench is stopped.
pub const STOP: usize = 0;

/// The event count of the offers, on which workers sleep: how often it was signaled. It wraps.
pub const OFFER_EVENT: usize = 1;

/// The event count of the deliveries, on which the dispatcher sleeps: how often it was signaled. It wraps.
pub const DELIVERY_EVENT: usize = 32;

/// The word that counts the workers that sleep on the event count of the offers, or are about to.
pub const SLEEPERS: usize = 16;

/// The word that counts the workers that spin on the event count of the offers.
pub const SPINNERS: usize = 17;

/// The word that records at which number of the event count of the deliveries the dispatcher sleeps or slept last. Before its first sleep
/// this is 0, so the first delivery signals it even where it doesn't sleep.
pub const SLEPT_AT: usize = 33;

/// How many words there are before those of the places.
pub const FIRST_PLACE: usize = 48;

/// The most places that a bench may have: one for each worker.
pub const MOST_PLACES: usize = MOST_WORKERS as usize;

/// A place's word: nothing is lent there.
pub const EMPTY: u64 = 0;

/// A place's word: its slot has a job that no worker has claimed.
pub const OFFERED: u64 = 1;

/// A place's word: a worker has its slot.
pub const CLAIMED: u64 = 2;

/// A place's word: its slot has the result of the job that was offered there.
pub const DELIVERED: u64 = 3;

/// The low half of an event count's number: a thread goes to sleep only if the low half of the count is this.
pub fn low_half(number: u64) -> u32
    ensures { result ≡ number % 2 ^ 32 }
{
    (number % (1 << 32)) as u32
}
