//! The ready table: for each affinity number the first message that waits there, if it is conflict-free, whatever room the log has.
ghost use Rattle.std.specs.Prelude.{◌≡◌, ◌+◌, ◌*◌, ◌^◌, ◌<◌, ◌≤◌, ◌==◌, ℕ, true, get_or, length, min, replicate, slice_set, option_copied, IfOk, None};
ghost use Rattle.std.specs.List.{list_any};
ghost use Rattle.affinity.specs.Interval.{IsAffinity, affinity_count, contains};
ghost use Rattle.affinity.specs.declared.geometry.Geometry.{Geometry};
ghost use Rattle.run_queue.specs.ReadyTable.{ready_in, rank_of, IsEntryRight, StayRight, AreRelatedRight};

use crate::QueuedMessage;
use crate::conflicts::numbers_above;
use crate::messages::Messages;
use affinity::Affinity;
use std::alloc::{AllocError, Global};
use std::marker::Model;

/// How many affinity numbers there are in a chunk, a part of the table.
pub(crate) const CHUNK: usize = 8;

/// The rank where no message is ready.
pub(crate) const NO_RANK: u64 = u64::MAX;

/// The last rank that a ready message may have.
pub(crate) const LAST_RANK: u64 = NO_RANK - 1;

/// For each number of an affinity the first message that waits there, if it is conflict-free.
///
/// `RunQueue::next` is called often and looks for the earliest ready message. So each has a rank (its ticket, but
/// `LAST_RANK` at most), and the least rank of each chunk of numbers is kept: a look at that is enough to skip most chunks.
/// Contracts only say that what is kept is no greater than any rank of the chunk (`AreLowerBounds`).
///
/// All memory is taken by `new`.
#[derive(Drop)]
pub(crate) struct ReadyTable {
    ready: Vec<Option<QueuedMessage>>, // by number
    ranks: Vec<u64>, // by number
    least: Vec<u64>, // by chunk
}

impl Model for ReadyTable {
    ghost use Rattle.std.specs.Prelude.{List, Option};
    ghost use Rattle.run_queue.specs.declared.queued_message.QueuedMessage.{QueuedMessage};

    ghost Value = { List (Option QueuedMessage) };

    ghost use Rattle.run_queue.specs.View.{IsReadyTable};

    ghost view = { λ t. t.ready.items };

    ghost invariant = { IsReadyTable };
}

impl ReadyTable {
    /// `numbers` entries, one for each affinity of any geometry, none of them set. `AllocError` where there is no memory.
    pub(crate) fn new(alloc: Global, numbers: usize) -> Result<ReadyTable, AllocError>
        requires few { numbers ≤ 2 ^ 16 }
        requires all { (any : Geometry) → affinity_count any ≤ numbers }
        ensures { IfOk result (λ ready_table. ready_table ≡ replicate numbers None) }
    {
        let mut ready = Vec::with_capacity(alloc, numbers)?;
        for _ in 0..numbers {
            ready.push_reserved(None);
        }
        let ranks = vec![in alloc; NO_RANK; numbers]?;
        let least = vec![in alloc; NO_RANK; numbers / CHUNK + 1]?;
        Ok(ReadyTable {
            ready,
            ranks,
            least,
        })
    }

    /// How many numbers there are.
    pub(crate) fn len(&self) -> usize
        ensures count { result ≡ length self.now }
        ensures all { (any : Geometry) → affinity_count any ≤ result }
    {
        self.ready.len()
    }

    /// The ready message at a number.
    pub(crate) fn at(&self, number: usize) -> Option<&QueuedMessage>
        ensures { option_copied result ≡ ready_in self.now number }
    {
        self.ready.get(number)?.as_ref()
    }

    /// The rank of the ready message at a number, or `NO_RANK` if there is none.
    pub(crate) fn rank(&self, number: usize) -> u64
        ensures { result ≡ rank_of (ready_in self.now number) }
    {
        match self.ranks.get(number) {
            Some(rank) => *rank,
            None => NO_RANK,
        }
    }

    /// The rank at `number`, or the last rank where no message is ready there: a ready message with a greater rank came later.
    pub(crate) fn bound(&self, number: usize) -> u64
        ensures { result ≡ min (rank_of (ready_in self.now number)) LAST_RANK }
    {
        self.rank(number).min(LAST_RANK)
    }

    /// The least rank in a chunk: no ready message there has a lower one.
    pub(crate) fn least(&self, chunk: usize) -> u64
        ensures { (i : ℕ) → i < CHUNK → result ≤ rank_of (ready_in self.now (CHUNK * chunk + i)) }
    {
        match self.least.get(chunk) {
            Some(least) => *least,
            None => 0,
        }
    }

    /// Sets or clears the entry at `number`.
    pub(crate) fn set(&mut self, number: usize, ready: Option<QueuedMessage>)
        requires { number < length self.old }
        ensures { self.new ≡ slice_set self.old number ready }
    {
        let rank = rank_of(&ready);
        let was = self.rank(number);
        self.ready[number] = ready;
        self.ranks[number] = rank;
        if rank != was {
            let chunk = number / CHUNK;
            self.least[chunk] = least_from(&self.ranks, chunk * CHUNK);
        }
    }

    /// Updates the entry of an affinity number.
    pub(crate) fn update(&mut self, messages: &Messages, number: usize)
        ensures right { IsEntryRight messages.now.held messages.now.waiting self.new number }
        ensures others { StayRight messages.now.held messages.now.waiting self.old self.new }
    {
        let ready = messages.ready_at(number);
        if ready.is_none() && self.at(number).is_none() {
            return; // as mostly
        }
        // The table lacks only numbers that no affinity has, where no message waits.
        if number < self.len() {
            self.set(number, ready);
        }
    }

    // Updates the entries of an affinity and of those below it.
    fn update_below(&mut self, messages: &Messages, a: Affinity)
        ensures right { (n : ℕ) → contains a n ≡ true → IsEntryRight messages.now.held messages.now.waiting self.new n }
        ensures others { StayRight messages.now.held messages.now.waiting self.old self.new }
    {
        for n in a.number()..a.end() {
            self.update(messages, usize::from(n));
        }
    }

    // Updates the entries of these numbers.
    fn update_each(&mut self, messages: &Messages, numbers: &[u16])
        ensures right { (n : ℕ) → list_any (λ m. m == n) numbers.now ≡ true
            → IsEntryRight messages.now.held messages.now.waiting self.new n }
        ensures others { StayRight messages.now.held messages.now.waiting self.old self.new }
    {
        for n in numbers {
            self.update(messages, usize::from(*n));
        }
    }

    /// Updates the entries of all affinities that are related to this one.
    pub(crate) fn update_related(&mut self, messages: &Messages, a: Affinity)
        requires { IsAffinity messages.now.geometry a }
        ensures near { AreRelatedRight messages.now.geometry a messages.now.held messages.now.waiting self.new }
        ensures others { StayRight messages.now.held messages.now.waiting self.old self.new }
    {
        self.update_below(messages, a);
        self.update_each(messages, &numbers_above(messages.geometry(), a));
    }
}

// The rank of an entry.
fn rank_of(ready: &Option<QueuedMessage>) -> u64
    ensures { result ≡ rank_of ready.now }
{
    match ready {
        Some(queued) => queued.ticket.min(LAST_RANK),
        None => NO_RANK,
    }
}

// The least of the ranks in a chunk, which begins at this number.
fn least_from(ranks: &[u64], from: usize) -> u64
    requires { from ≤ 2 ^ 16 }
    ensures { (i : ℕ) → i < CHUNK → result ≤ get_or ranks.now (from + i) NO_RANK }
{
    let mut least = NO_RANK;
    for number in from..ranks.len().min(from + CHUNK) {
        least = least.min(ranks[number]);
    }
    least
}
