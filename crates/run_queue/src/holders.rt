//! The held messages, each at the number of its affinity.
ghost use Rattle.std.specs.Prelude.{◌≡◌, ◌<◌, [], IfOk, None};
ghost use Rattle.std.specs.List.{find};
ghost use Rattle.run_queue.specs.RunQueue.{has_number, without_number};

use crate::QueuedMessage;
use std::alloc::{AllocError, Global};
use std::marker::Model;

/// The held messages, at most one for each number of an affinity.
///
/// All memory is taken by `new`.
#[derive(Drop)]
pub(crate) struct Holders {
    entries: Vec<Option<QueuedMessage>>, // by number
}

impl Model for Holders {
    ghost use Rattle.std.specs.Prelude.{length};
    ghost use Rattle.run_queue.specs.Queues.{present};
    ghost use Rattle.run_queue.specs.HeldMessages.{HeldMessages, AreByNumberFrom};

    ghost Value = { HeldMessages };

    ghost view = { λ h. record { numbers = length h.entries.items; messages = present h.entries.items } };

    ghost invariant = { λ h. AreByNumberFrom 0 h.entries.items };
}

impl Holders {
    ghost use Rattle.run_queue.specs.HeldMessages.{HasInserted};

    /// A table for `numbers` affinity numbers, at which no message is held. `AllocError` where there is no memory.
    pub(crate) fn new(alloc: Global, numbers: usize) -> Result<Holders, AllocError>
        ensures { IfOk result (λ h. h ≡ record { numbers = numbers; messages = [] }) }
    {
        let mut entries = Vec::with_capacity(alloc, numbers)?;
        for _ in 0..numbers {
            entries.push_reserved(None);
        }
        Ok(Holders { entries })
    }

    /// The message held at a number. `None` where none is, and so at a number that no affinity has.
    pub(crate) fn at(&self, number: usize) -> Option<QueuedMessage>
        ensures { result ≡ find (has_number number) self.now.messages }
    {
        *self.entries.get(number)?
    }

    /// One more message is held, at a number where none is. `HasInserted`: the new list is the old one with it inserted somewhere.
    pub(crate) fn hold(&mut self, queued: QueuedMessage)
        requires number { queued.affinity.number < self.old.numbers }
        requires free { find (has_number queued.affinity.number) self.old.messages ≡ None }
        ensures rest { self.new ≡ record self.old { messages = self.new.messages } }
        ensures messages { HasInserted queued self.old.messages self.new.messages }
    {
        let number = usize::from(queued.affinity.number());
        self.entries[number] = Some(queued);
    }

    /// The message that is held at a number is held no longer, and is returned. `None` where none is held.
    pub(crate) fn free(&mut self, number: usize) -> Option<QueuedMessage>
        ensures answer { result ≡ find (has_number number) self.old.messages }
        ensures freed { self.new ≡ record self.old { messages = without_number number self.old.messages } }
    {
        let queued = self.at(number)?;
        self.entries[number] = None;
        Some(queued)
    }
}
