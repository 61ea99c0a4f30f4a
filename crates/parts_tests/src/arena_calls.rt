//! A call of an arena with what it must answer, so that a test is a table of calls. A chain is a linked list of slots.
ghost use Rattle.std.specs.Prelude.{◌+◌, ◌<◌};

use arena::Arena;
use std::alloc::{AllocError, Global};
use std::process::Abort;

/// `Front` takes the number of a chain, `MoveTo` that of a slot and then that of a chain, and the others up to `Take`, but
/// for `Put`, that of a slot. What the call must answer comes last.
#[derive(Drop)]
pub enum Call {
    /// Puts a value into a free slot: the slot, or the value where none is free.
    Put(char, Result<usize, char>),

    /// The first slot of the chain.
    Front(usize, Option<usize>),

    /// The slot after this one on its chain.
    Next(usize, Option<usize>),

    /// Makes the slot the last of the chain, and returns whether that could be done.
    MoveTo(usize, usize, bool),
    Get(usize, Option<char>),

    /// Writes where there is a value, and returns whether there was one.
    Write(usize, char, bool),

    /// Gives the value out; the slot waits for `Restore`, and isn't free.
    Lend(usize, Option<char>),

    /// Brings a value back; handed back where none is out.
    Restore(usize, char, Result<(), char>),

    /// Takes the value out, and frees the slot.
    Take(usize, Option<char>),

    /// How many slots are free, and how many there are.
    Counts(usize, usize),
}

fn write(arena: &mut Arena<char>, i: usize, value: char) -> bool {
    match arena.get_mut(i) {
        Some(there) => {
            *there = value;
            true
        }
        None => false,
    }
}

fn is_right(arena: &mut Arena<char>, call: &Call) -> bool {
    match call {
        Call::Put(value, want) => arena.put(*value) == *want,
        Call::Front(c, want) => arena.front(*c) == *want,
        Call::Next(i, want) => arena.next(*i) == *want,
        Call::MoveTo(i, c, want) => arena.move_to(*i, *c) == *want,
        Call::Get(i, want) => arena.get(*i).copied() == *want,
        Call::Write(i, value, want) => write(arena, *i, *value) == *want,
        Call::Lend(i, want) => arena.lend(*i) == *want,
        Call::Restore(i, value, want) => arena.restore(*i, *value) == *want,
        Call::Take(i, want) => arena.take(*i) == *want,
        Call::Counts(free, slots) => arena.free() == *free && arena.capacity() == *slots,
    }
}

/// Makes these calls, one after the other, and asserts that each answers as it must.
pub fn assert_answers(rt: &impl Abort, name: &str, arena: &mut Arena<char>, calls: &[Call]) {
    for (number, call) in calls.iter().enumerate() {
        assert!(rt; is_right(arena, call), "{name}, at call {number}");
    }
}

/// An arena. If memory is refused, the call is made once more, and has to succeed then: `tests/run calls` refuses requests.
pub fn made(alloc: Global, slots: usize, chains: usize) -> Result<Arena<char>, AllocError>
    requires { slots + chains < usize.MAX }
{
    match Arena::with_capacity(alloc, slots, chains) {
        Ok(arena) => Ok(arena),
        Err(_) => Arena::with_capacity(alloc, slots, chains),
    }
}
