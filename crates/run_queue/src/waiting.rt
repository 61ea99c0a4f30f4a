//! The waiting messages, in a queue for each number of an affinity.
ghost use Rattle.std.specs.Prelude.{◌≡◌, ℕ, ◌<◌, ◌≤◌, ◌++◌, ◌∷◌, [], length, IfOk};
ghost use Rattle.std.specs.List.{find};
ghost use Rattle.run_queue.specs.RunQueue.{has_number, CameBefore};
ghost use Rattle.run_queue.specs.Slots.{count_in_slot};
ghost use Rattle.run_queue.specs.Order.{Ascend};

use crate::QueuedMessage;
use arena::Arena;
use std::alloc::{AllocError, Global};
use std::marker::Model;

/// The waiting messages, each in the queue of its affinity's number.
///
/// All memory is taken by `new`.
#[derive(Drop)]
pub(crate) struct Queues {
    messages: Arena<QueuedMessage>, // chain `n` is the queue of number `n`
}

impl Model for Queues {
    ghost use Rattle.std.specs.Prelude.{length};
    ghost use Rattle.run_queue.specs.Queues.{Waiting, waiting_in, IsQueued};

    ghost Value = { Waiting };

    ghost view = { λ q. record {
      numbers = length q.messages.chains;
      capacity = length q.messages.values;
      messages = waiting_in q.messages;
    } };

    ghost invariant = { λ q. IsQueued q.messages };
}

impl Queues {
    ghost use Rattle.run_queue.specs.Queues.{IsFirstGone};

    /// `numbers` empty queues that hold `capacity` messages together. `AllocError` where there is no memory.
    pub(crate) fn new(alloc: Global, numbers: usize, capacity: usize) -> Result<Queues, AllocError>
        ensures { IfOk result (λ q. q ≡ record { numbers = numbers; capacity = capacity; messages = [] }) }
    {
        if capacity >= usize::MAX - numbers {
            return Err(AllocError);
        }
        Ok(Queues {
            messages: Arena::with_capacity(alloc, capacity, numbers)?,
        })
    }

    /// The first message that waits at an affinity number.
    pub(crate) fn front(&self, number: usize) -> Option<QueuedMessage>
        ensures first { result ≡ find (has_number number) self.now.messages }
        ensures ascends { Ascend self.now.messages }
    {
        let i = self.messages.front(number)?;
        self.messages.get(i).copied()
    }

    /// One more message waits, in the queue of its affinity's number. Its ticket is above those of all others.
    pub(crate) fn push(&mut self, queued: QueuedMessage)
        requires number { queued.affinity.number < self.old.numbers }
        requires later { CameBefore queued.ticket self.old.messages }
        requires not_full { length self.old.messages < self.old.capacity }
        ensures { self.new ≡ record self.old { messages = self.old.messages ++ queued ∷ [] } }
    {
        let number = usize::from(queued.affinity.number());
        let Ok(i) = self.messages.put(queued) else {
            unreachable!()
        };
        self.messages.move_to(i, number);
    }

    /// Removes the first message that waits at a number. No two waiting messages have the same slot.
    pub(crate) fn pop(&mut self, number: usize)
        requires once { (slot : ℕ) → count_in_slot slot self.old.messages ≤ 1 }
        ensures { IsFirstGone number self.old self.new }
    {
        if let Some(i) = self.messages.front(number) {
            self.messages.take(i);
        }
    }
}
