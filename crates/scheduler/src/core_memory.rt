//! The memory of a core, all of which is taken before a device is touched: slots with messages, and the chains in which they are.
ghost use Rattle.std.specs.Prelude.{◌≡◌, ◌≤◌, [], IfOk, length, vec_capacity};
ghost use Rattle.affinity.specs.Geometry.{default_geometry};
ghost use Rattle.arena.specs.ArenaView.{IsPartitioned, empty_arena};
ghost use Rattle.run_queue.specs.RunQueue.{queue_at_start};
ghost use Rattle.affinity.specs.declared.limits.TheConstants.{MOST_SLOTS};

use affinity::{Affinity, Geometry};
use arena::Arena;
use protocol::{Msg, Reply};
use run_queue::RunQueue;
use std::alloc::{AllocError, Global};

/// How many chains there are: linked lists of the arena's slots.
pub(crate) const CHAINS: usize = 4;

/// The chain of waiting messages.
pub(crate) const WAITING: usize = 0;

/// The chain of messages in flight.
pub(crate) const IN_FLIGHT: usize = 1;

/// The chain of messages that ran.
pub(crate) const RAN: usize = 2;

/// The chain of logged messages.
pub(crate) const LOGGED: usize = 3;

/// A message that was taken in, with its ticket and the affinity where it belongs.
#[derive(Clone, Copy)]
pub(crate) struct Slot {
    pub(crate) ticket: u64,
    pub(crate) message: Msg,
    pub(crate) affinity: Affinity,
}

/// Where the messages of a core lie, and their run queue.
#[derive(Drop)]
pub(crate) struct CoreMemory {
    pub(crate) slots: Arena<Slot>,

    /// By slot: the reply to the message there, once it ran.
    pub(crate) replies: Vec<Reply>,
    pub(crate) queue: RunQueue,

    /// Room for all that may be handed to the journal in one call.
    pub(crate) batch: Vec<Msg>,
}

/// Memory for `slots` messages, with none in it. The device's geometry isn't known yet: the run queue begins with the default
/// geometry (`default_geometry` in clauses), which `set_geometry` replaces, and has room for any. `AllocError` where there is no memory.
pub(crate) fn take_memory(alloc: Global, slots: usize) -> Result<CoreMemory, AllocError>
    requires few { slots ≤ MOST_SLOTS }
    ensures arena { IfOk result (λ m. m.slots ≡ empty_arena slots CHAINS) }
    ensures partitioned { IfOk result (λ m. IsPartitioned m.slots) }
    ensures replies { IfOk result (λ m. length m.replies.items ≡ slots) }
    ensures queue { IfOk result (λ m. m.queue ≡ queue_at_start default_geometry slots) }
    ensures batch { IfOk result (λ m. m.batch.items ≡ []) }
    ensures room { IfOk result (λ m. slots ≤ vec_capacity m.batch) }
{
    // Each `?` drops all that was taken before it, which takes time to prove: so what has most to drop is taken last.
    Ok(CoreMemory {
        batch: Vec::with_capacity(alloc, slots)?,
        replies: vec![in alloc; Reply::Done; slots]?,
        slots: Arena::with_capacity(alloc, slots, CHAINS)?,
        queue: RunQueue::new(alloc, &Geometry::default(), slots)?,
    })
}
