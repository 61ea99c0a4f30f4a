//! The waiting and the held messages: what the ready table is made of.
ghost use Rattle.std.specs.Prelude.{◌≡◌, ◌≢◌, ◌<◌, ◌≤◌, ◌++◌, ◌∷◌, ℕ, false, [], IfOk, None};
ghost use Rattle.std.specs.List.{find, list_any};
ghost use Rattle.affinity.specs.Interval.{IsAffinity, affinity_count};
ghost use Rattle.run_queue.specs.RunQueue.{has_slot, has_number, without_slot, without_number};

use crate::QueuedMessage;
use crate::conflicts::is_conflict_free;
use crate::holders::Holders;
use crate::waiting::Queues;
use affinity::Geometry;
use affinity::limits::MOST_AFFINITIES;
use std::alloc::{AllocError, Global};
use std::marker::Model;

/// How many queues serve any geometry: one for each affinity.
pub(crate) const QUEUES: usize = MOST_AFFINITIES as usize;

/// The waiting and the held messages, each with a slot of its own, and the geometry that has their affinities.
///
/// All memory is taken by `new`.
#[derive(Drop)]
pub(crate) struct Messages {
    geometry: Geometry,
    waiting: Queues,
    held: Holders,
    slots: usize,
}

impl Model for Messages {
    ghost use Rattle.run_queue.specs.RunQueue.{RunQueueView};
    ghost use Rattle.run_queue.specs.Invariant.{AreQueued};

    ghost Value = { RunQueueView };

    ghost view = { λ m. record {
      geometry = m.geometry;
      waiting = m.waiting.messages;
      held = m.held.messages;
      slots = m.slots;
    } };

    ghost invariant = { λ m. AreQueued m.geometry m.slots m.waiting m.held };
}

impl Messages {
    ghost use Rattle.run_queue.specs.RunQueue.{queue_at_start, CameBefore, IsNext};
    ghost use Rattle.run_queue.specs.HeldMessages.{HasInserted};
    ghost use Rattle.run_queue.specs.Invariant.{ArePlacedInOrder};
    ghost use Rattle.run_queue.specs.ReadyTable.{ready_at};

    /// No message waits or is held. There is room for any geometry. `AllocError` where there is no memory.
    pub(crate) fn new(
        alloc: Global,
        geometry: &Geometry,
        slots: usize,
    ) -> Result<Messages, AllocError>
        requires { slots < usize.MAX }
        ensures { IfOk result (λ messages. messages ≡ queue_at_start geometry.now slots) }
    {
        let held = Holders::new(alloc, QUEUES)?;
        let waiting = Queues::new(alloc, QUEUES, slots)?;
        Ok(Messages {
            geometry: *geometry,
            waiting,
            held,
            slots,
        })
    }

    /// Goes over to another geometry, while no message waits or is held.
    pub(crate) fn set_geometry(&mut self, geometry: &Geometry)
        requires none_waits { self.old.waiting ≡ [] }
        requires none_held { self.old.held ≡ [] }
        ensures { self.new ≡ queue_at_start geometry.now self.old.slots }
    {
        self.geometry = *geometry;
    }

    /// The geometry, which has the affinity of each message.
    pub(crate) fn geometry(&self) -> &Geometry
        ensures same { result.now ≡ self.now.geometry }
        ensures placed { ArePlacedInOrder self.now.geometry self.now.held self.now.waiting }
    {
        &self.geometry
    }

    /// The first message that waits at an affinity number.
    pub(crate) fn first_at(&self, number: usize) -> Option<QueuedMessage>
        ensures { result ≡ find (has_number number) self.now.waiting }
    {
        self.waiting.front(number)
    }

    /// The message held at an affinity number.
    pub(crate) fn held_at(&self, number: usize) -> Option<QueuedMessage>
        ensures { result ≡ find (has_number number) self.now.held }
    {
        self.held.at(number)
    }

    /// The first message that waits at an affinity number, if it is conflict-free. None waits at a number that no affinity has.
    pub(crate) fn ready_at(&self, number: usize) -> Option<QueuedMessage>
        ensures ready { result ≡ ready_at self.now.held self.now.waiting number }
        ensures none { affinity_count self.now.geometry ≤ number → result ≡ None }
    {
        let front = self.waiting.front(number)?;
        if is_conflict_free(&self.geometry, &self.held, &self.waiting, &front) {
            Some(front)
        } else {
            None
        }
    }

    /// A message joins those that wait, as the last. Its ticket is above theirs, and no waiting or held message has its slot.
    pub(crate) fn arrive(&mut self, queued: QueuedMessage)
        requires placed { IsAffinity self.old.geometry queued.affinity }
        requires later { CameBefore queued.ticket self.old.waiting }
        requires slot { queued.slot < self.old.slots }
        requires new_slot { list_any (has_slot queued.slot) (self.old.waiting ++ self.old.held) ≡ false }
        ensures { self.new ≡ record self.old { waiting = self.old.waiting ++ queued ∷ [] } }
    {
        self.waiting.push(queued);
    }

    /// A message that may be dispatched waits no longer, and is held. No other number gets or loses a ready message.
    pub(crate) fn dispatch(&mut self, queued: QueuedMessage)
        requires { IsNext self.old queued }
        ensures waiting { self.new ≡
            record self.old { waiting = without_slot queued.slot self.old.waiting; held = self.new.held } }
        ensures held { HasInserted queued self.old.held self.new.held }
        ensures others { (n : ℕ) → queued.affinity.number ≢ n
            → ready_at self.new.held self.new.waiting n ≡ ready_at self.old.held self.old.waiting n }
    {
        self.waiting.pop(usize::from(queued.affinity.number()));
        self.held.hold(queued);
    }

    /// The message that is held at a number is held no longer, and is returned. `None` where none is held.
    pub(crate) fn free(&mut self, number: usize) -> Option<QueuedMessage>
        ensures answer { result ≡ find (has_number number) self.old.held }
        ensures freed { self.new ≡ record self.old { held = without_number number self.old.held } }
        ensures placed { ArePlacedInOrder self.old.geometry self.old.held self.old.waiting }
    {
        self.held.free(number)
    }
}
