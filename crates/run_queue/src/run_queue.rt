//! Waiting and held messages, and which of them is dispatched next.
ghost use Rattle.std.specs.Prelude.{◌≡◌, ◌+◌, ◌*◌, ◌^◌, ◌<◌, ◌≤◌, ◌++◌, ◌∷◌, true, false, [], length, IfOk, IfSome, IfNone};
ghost use Rattle.std.specs.List.{list_any};
ghost use Rattle.affinity.specs.Interval.{IsAffinity, affinity_count};
ghost use Rattle.run_queue.specs.RunQueue.{next_queued, has_slot, has_number, without_slot, without_number, holds_at};

use crate::QueuedMessage;
use crate::candidates::best_in;
use crate::messages::{Messages, QUEUES};
use crate::ready_table::{CHUNK, ReadyTable};
use affinity::{Affinity, Geometry, Place};
use std::alloc::{AllocError, Global};
use std::marker::Model;

/// The waiting and the held messages, each with a slot of its own.
///
/// All memory is taken by `new`.
#[derive(Drop)]
pub struct RunQueue {
    messages: Messages,
    ready_table: ReadyTable, // the first message in each queue, if it is conflict-free
}

impl Model for RunQueue {
    ghost use Rattle.run_queue.specs.RunQueue.{RunQueueView};
    ghost use Rattle.run_queue.specs.Invariant.{AreEntriesRight};

    ghost Value = { RunQueueView };

    ghost view = { λ q. q.messages };

    ghost invariant = { λ q. AreEntriesRight q.messages.held q.messages.waiting q.ready_table };
}

/// How many chunks the ready table has for the affinities of a geometry, of which there are `affinity_count`.
fn chunks_of(g: &Geometry) -> usize
    ensures few { CHUNK * result ≤ 2 ^ 16 + CHUNK }
    ensures all { affinity_count g.now ≤ CHUNK * result }
{
    usize::from(Affinity::at(g, Place::Serial).end()) / CHUNK + 1
}

impl RunQueue {
    ghost use Rattle.run_queue.specs.RunQueue.{queue_at_start, CameBefore, IsNext, HasJoined};

    /// A run queue in which no message waits or is held. Arrivals will be at affinities of the geometry, in slots below `slots`, which is
    /// below the greatest `usize`. There is room for any geometry. `AllocError` where there is no memory.
    pub fn new(alloc: Global, geometry: &Geometry, slots: usize) -> Result<RunQueue, AllocError>
        requires { slots < usize.MAX }
        ensures { IfOk result (λ queue. queue ≡ queue_at_start geometry.now slots) }
    {
        let ready_table = ReadyTable::new(alloc, QUEUES)?;
        let messages = Messages::new(alloc, geometry, slots)?;
        Ok(RunQueue {
            messages,
            ready_table,
        })
    }

    /// Goes over to another geometry, while no message waits or is held. Takes no memory.
    pub fn set_geometry(&mut self, geometry: &Geometry)
        requires none_waits { self.old.waiting ≡ [] }
        requires none_held { self.old.held ≡ [] }
        ensures { self.new ≡ queue_at_start geometry.now self.old.slots }
    {
        self.messages.set_geometry(geometry);
    }

    /// The waiting message with the least ticket that may be dispatched: no message at a related affinity is held, or is older and waits;
    /// and if it may change something, `log_has_room`. None if there is no such message.
    pub fn next(&self, log_has_room: bool) -> Option<QueuedMessage>
        ensures { result ≡ next_queued log_has_room self.now.held self.now.waiting }
    {
        let mut best = self.ready_table.len(); // none is ready there
        let mut bound = self.ready_table.bound(best);
        for chunk in 0..chunks_of(self.messages.geometry()) {
            // A rank is a ready message's ticket. A chunk whose least rank is above the best one so far is skipped.
            if self.ready_table.least(chunk) <= bound {
                best = best_in(log_has_room, &self.ready_table, best, chunk);
                bound = self.ready_table.bound(best);
            }
        }
        self.ready_table.at(best).copied()
    }

    /// The slot of the message held at an affinity. None if there is none.
    pub fn holder(&self, a: Affinity) -> Option<usize>
        ensures some { IfSome result (λ slot. list_any (holds_at a.number slot) self.now.held ≡ true) }
        ensures none { IfNone result (list_any (has_number a.number) self.now.held ≡ false) }
    {
        let queued = self.messages.held_at(usize::from(a.number()))?;
        Some(queued.slot)
    }

    /// A message joins those that wait, as the last. Its ticket is above theirs, and no waiting or held message has its slot.
    pub fn arrive(&mut self, queued: QueuedMessage)
        requires placed { IsAffinity self.old.geometry queued.affinity }
        requires later { CameBefore queued.ticket self.old.waiting }
        requires slot { queued.slot < self.old.slots }
        requires new_slot { list_any (has_slot queued.slot) (self.old.waiting ++ self.old.held) ≡ false }
        ensures { self.new ≡ record self.old { waiting = self.old.waiting ++ queued ∷ [] } }
    {
        let number = usize::from(queued.affinity.number());
        let is_first = self.messages.first_at(number).is_none();
        self.messages.arrive(queued);
        if is_first {
            self.ready_table.update(&self.messages, number);
        }
    }

    /// Dispatches the message that `next` gave: it waits no longer, and is held. All others stay.
    pub fn dispatch(&mut self, queued: QueuedMessage)
        requires { IsNext self.old queued }
        ensures waiting { self.new ≡
            record self.old { waiting = without_slot queued.slot self.old.waiting; held = self.new.held } }
        ensures held { HasJoined queued self.old.held self.new.held }
        ensures count { length self.new.held ≡ length self.old.held + 1 }
    {
        let number = usize::from(queued.affinity.number());
        self.messages.dispatch(queued);
        self.ready_table.update(&self.messages, number);
    }

    /// The message that is held at an affinity is held no longer. Nothing changes if none is held there.
    pub fn free(&mut self, a: Affinity)
        ensures { self.new ≡ record self.old { held = without_number a.number self.old.held } }
    {
        let number = usize::from(a.number());
        if let Some(queued) = self.messages.free(number) {
            self.ready_table
                .update_related(&self.messages, queued.affinity);
        }
    }
}
