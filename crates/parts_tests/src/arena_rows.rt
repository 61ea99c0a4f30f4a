//! An arena at work, slot by slot.
//!
//! A row is a call, whose answer comes last. `Front` takes a chain (a linked list of slots) and answers its first slot; `MoveTo` takes a
//! slot and the chain whose last it becomes; `Restore`, a slot and a value that comes back after `Lend`. `Counts`: how many slots are free,
//! and how many there are.

use crate::arena_calls::Call::{Counts, Front, Get, Lend, MoveTo, Next, Put, Restore, Take, Write};
use crate::arena_calls::{Call, assert_answers, made};
use std::test::Fail;

// Gives the value back. It compiles only for a type that is `Send` (may go to another thread), as an arena is.
fn sent<T: Send>(value: T) -> T {
    value
}

const THREE_SLOTS: [Call; 18] = [
    Counts(3, 3),
    Put('a', Ok(0)),
    Put('b', Ok(1)),
    MoveTo(0, 1, true),
    MoveTo(1, 1, true),
    Put('c', Ok(2)),
    Put('d', Err('d')),
    Front(1, Some(0)),
    Next(0, Some(1)),
    Lend(0, Some('a')),
    Front(1, Some(1)),
    Take(1, Some('b')),
    Front(1, None),
    Put('e', Ok(1)),
    Put('f', Err('f')),
    Restore(0, 'a', Ok(())),
    Get(0, Some('a')),
    Counts(0, 3),
];

#[test]
fn three_slots_and_two_chains(rt: HostRuntime) -> Result<(), Fail> {
    assert_answers(
        &rt,
        "three slots",
        &mut sent(made(rt.alloc(), 3, 2)?),
        &THREE_SLOTS,
    );
    Ok(())
}

const NO_SLOT: [Call; 5] = [
    Put('a', Err('a')),
    Put('b', Err('b')),
    Get(0, None),
    Front(0, None),
    Counts(0, 0),
];

const NO_CHAIN: [Call; 9] = [
    Put('a', Ok(0)),
    MoveTo(0, 0, true),
    MoveTo(0, 2, false),
    MoveTo(0, usize::MAX, false),
    Front(0, Some(0)),
    Front(2, None),
    Front(usize::MAX, None),
    Next(0, None),
    Counts(2, 3),
];

const MIDDLE: [Call; 18] = [
    Put('a', Ok(0)),
    MoveTo(0, 0, true),
    Put('b', Ok(1)),
    MoveTo(1, 0, true),
    Put('c', Ok(2)),
    MoveTo(2, 0, true),
    Take(1, Some('b')),
    Front(0, Some(0)),
    Next(0, Some(2)),
    Next(2, None),
    MoveTo(0, 0, true),
    Front(0, Some(2)),
    Next(2, Some(0)),
    Next(0, None),
    Take(0, Some('a')),
    // of the free slots the one that was freed last is taken first, and one that was never used last
    Put('d', Ok(0)),
    Put('e', Ok(1)),
    Put('f', Ok(3)),
];

const REFUSED: [Call; 16] = [
    Restore(0, 'x', Err('x')), // free
    Restore(2, 'x', Err('x')), // no slot
    Put('a', Ok(0)),
    Restore(0, 'x', Err('x')), // holds a value
    Write(0, 'b', true),
    Write(1, 'b', false),
    Lend(0, Some('b')),
    Get(0, None),
    MoveTo(0, 0, false),
    Lend(0, None),
    Take(0, None),
    Take(1, None),
    Take(2, None),
    Restore(0, 'c', Ok(())),
    Next(0, None),
    Counts(1, 2),
];

/// What the calls of an arena show, how many slots and chains it has, and the calls.
const ROWS: [(&str, u8, u8, &[Call]); 4] = [
    ("an arena without slots", 0, 1, &NO_SLOT),
    ("a chain that is not there", 3, 2, &NO_CHAIN),
    ("the middle of a chain and the free list", 4, 2, &MIDDLE),
    ("what is refused", 2, 1, &REFUSED),
];

#[test]
fn each_call_is_answered(rt: HostRuntime) -> Result<(), Fail> {
    for (name, slots, chains, calls) in &ROWS {
        let mut arena = made(rt.alloc(), usize::from(*slots), usize::from(*chains))?;
        assert_answers(&rt, name, &mut arena, calls);
    }
    Ok(())
}
