//! The messages that ran: what is to be logged of them, and how they become those that are logged.
ghost use Rattle.std.specs.Prelude.{◌≡◌, ◌≤◌, ◌<◌, ◌+◌, [], ◌∷◌, ◌++◌, length, take, vec_capacity};
ghost use Rattle.arena.specs.ArenaView.{capacity_of, chain_at};
ghost use Rattle.histories.specs.Events.{recorded};
ghost use Rattle.meaning.specs.Step.{is_recorded};
ghost use Rattle.scheduler.specs.HasLogged.{HasLogged, changing_in, recorded_in};
ghost use Rattle.scheduler.specs.Slots.{HasChains};

use crate::core_memory::{LOGGED, RAN, Slot};
use crate::server_core::one_if;
use affinity::changing;
use arena::Arena;
use protocol::{Msg, Reply};

// Whether the log keeps a message with this reply: a change that was carried out.
fn is_recorded(message: &Msg, reply: &Reply) -> bool
    ensures { result ≡ is_recorded message.now reply.now }
{
    changing(message.kind()) && matches!(reply, Reply::Done)
}

// Appends a message that ran to the batch if the log keeps it. The 0 in the clause is for its ticket, which doesn't matter there.
fn push_if_recorded(message: &Msg, reply: &Reply, batch: &mut Vec<Msg>)
    requires room { length batch.old.items < vec_capacity batch.old }
    ensures batch { batch.new.items ≡ batch.old.items ++ recorded ((0, message.now, reply.now) ∷ []) }
    ensures few { length batch.new.items ≤ length batch.old.items + 1 }
    ensures capacity { vec_capacity batch.new ≡ vec_capacity batch.old }
{
    if is_recorded(message, reply) {
        batch.push_reserved(*message);
    }
}

/// Appends to the batch those of the first `count` messages that ran that the log keeps. Returns how many of the `count` are of a changing
/// kind.
pub(crate) fn collect_recorded(
    slots: &Arena<Slot>,
    replies: &[Reply],
    count: usize,
    batch: &mut Vec<Msg>,
) -> usize
    requires chains { HasChains slots.now }
    requires count { count ≤ length (chain_at slots.now RAN) }
    requires replies { length replies.now ≡ capacity_of slots.now }
    requires empty { batch.old.items ≡ [] }
    requires room { capacity_of slots.now ≤ vec_capacity batch.old }
    ensures batch { batch.new.items ≡ recorded_in slots.now replies.now (take count (chain_at slots.now RAN)) }
    ensures capacity { vec_capacity batch.new ≡ vec_capacity batch.old }
    ensures changing { result ≡ changing_in slots.now (take count (chain_at slots.now RAN)) }
{
    let mut at = slots.front(RAN);
    let mut found = 0;
    for _ in 0..count {
        let Some(i) = at else { unreachable!() };
        let Some(slot) = slots.get(i) else {
            unreachable!()
        };
        push_if_recorded(&slot.message, &replies[i], batch);
        found += one_if(changing(slot.message.kind()));
        at = slots.next(i);
    }
    found
}

// Moves the first message that ran to the end of the logged list.
fn move_first(slots: &mut Arena<Slot>)
    requires chains { HasChains slots.old }
    requires some { 0 < length (chain_at slots.old RAN) }
    ensures { HasLogged 1 slots.old slots.new }
{
    let Some(slot) = slots.front(RAN) else {
        unreachable!()
    };
    slots.move_to(slot, LOGGED);
}

/// Moves the first `count` messages that ran to the end of the logged list.
pub(crate) fn move_ran(slots: &mut Arena<Slot>, count: usize)
    requires chains { HasChains slots.old }
    requires count { count ≤ length (chain_at slots.old RAN) }
    ensures { HasLogged count slots.old slots.new }
{
    for _ in 0..count {
        move_first(slots);
    }
}
