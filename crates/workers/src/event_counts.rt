//! How the dispatcher and the workers wait for each other. No contract depends on who waits or is woken.
ghost use Rattle.std.specs.Prelude.{◌≡◌};
ghost use Rattle.workers.specs.Seats.{IsAtBench, IsBench};

use crate::atomic_steps::{self, Words};
use crate::seats::Seat;
use crate::words::{DELIVERY_EVENT, OFFER_EVENT, SLEEPERS, SLEPT_AT, SPINNERS, low_half};
use std::hint::spin_loop;
use std::sync::Wait;
use std::thread::yield_now;

/// How often a worker reads the event count of the offers in one round of spinning.
const SPINS: usize = 64;

/// How many such rounds it makes before it sleeps, yielding after each: for longer
/// than the dispatcher takes to write the replies of 32 lines, after which it offers again.
const SPIN_ROUNDS: usize = 32;

/// Sleeps while the event count of the deliveries is `seen`, and returns its number afterwards.
pub fn wait_delivery<R: Wait>(words: &Words, seat: &mut Seat, rt: &R, seen: u64) -> u64
    requires { IsAtBench words.now.table_id seat.old.table_id }
    ensures { (seat.new.table_id ≡ seat.old.table_id) × (seat.new.me ≡ seat.old.me) }
{
    let mut number = words.peek(DELIVERY_EVENT);
    if number != seen {
        return number;
    }
    atomic_steps::set_word(words, seat, SLEPT_AT, seen);
    for _ in rt.forever() {
        number = words.peek(DELIVERY_EVENT);
        if number != seen {
            break;
        }
        words.park(rt, DELIVERY_EVENT, low_half(seen));
    }
    number
}

/// Adds one to the event count of the deliveries, and wakes the dispatcher if the number before was the one recorded in `SLEPT_AT`. Returns
/// whether it signaled the dispatcher.
pub fn signal_delivery(words: &Words, seat: &mut Seat) -> bool
    requires { IsAtBench words.now.table_id seat.old.table_id }
    ensures { (seat.new.table_id ≡ seat.old.table_id) × (seat.new.me ≡ seat.old.me) }
{
    let found = atomic_steps::count_up(words, seat, DELIVERY_EVENT);
    let sleeps = words.peek(SLEPT_AT) == found;
    if sleeps {
        words.wake_one(DELIVERY_EVENT);
    }
    sleeps
}

/// Wakes a worker that sleeps on the event count of the offers, unless one spins there.
pub fn wake_worker(words: &Words)
    requires { IsBench words.now.table_id }
{
    if words.peek(SLEEPERS) != 0 && words.peek(SPINNERS) == 0 {
        words.wake_one(OFFER_EVENT);
    }
}

// Whether one round of spinning sees that the event count of the offers is no longer `seen`.
fn is_offered_now(words: &Words, seen: u64) -> bool
    requires { IsBench words.now.table_id }
{
    for _ in 0..SPINS {
        if words.peek(OFFER_EVENT) != seen {
            return true;
        }
        spin_loop();
    }
    false
}

// The same for `SPIN_ROUNDS` rounds, with a yield after each of them.
fn is_offered_soon(words: &Words, seen: u64) -> bool
    requires { IsBench words.now.table_id }
{
    for _ in 0..SPIN_ROUNDS {
        if is_offered_now(words, seen) {
            return true;
        }
        yield_now();
    }
    false
}

/// Spins for a while, as long as the event count of the offers is `seen`, and then calls `sleep`, unless the count has changed.
pub fn spin_then_sleep<R: Wait>(words: &Words, seat: &mut Seat, rt: &R, seen: u64)
    requires { IsAtBench words.now.table_id seat.old.table_id }
    ensures { (seat.new.table_id ≡ seat.old.table_id) × (seat.new.me ≡ seat.old.me) }
{
    atomic_steps::count_up(words, seat, SPINNERS);
    let is_signaled = is_offered_soon(words, seen);
    atomic_steps::count_down(words, seat, SPINNERS);
    if !is_signaled {
        sleep(words, seat, rt, seen);
    }
}

/// Sleeps until it is woken, if the event count of the offers is `seen`. It may also return without a wake.
pub fn sleep<R: Wait>(words: &Words, seat: &mut Seat, rt: &R, seen: u64)
    requires { IsAtBench words.now.table_id seat.old.table_id }
    ensures { (seat.new.table_id ≡ seat.old.table_id) × (seat.new.me ≡ seat.old.me) }
{
    atomic_steps::count_up(words, seat, SLEEPERS);
    if words.peek(OFFER_EVENT) == seen {
        words.park(rt, OFFER_EVENT, low_half(seen));
    }
    atomic_steps::count_down(words, seat, SLEEPERS);
}
