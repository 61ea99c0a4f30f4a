//! Lists of slots, doubly linked by index.
ghost use Rattle.std.specs.Prelude.{◌≡◌, ◌+◌, ◌<◌, ◌↔◌, [], ◌∷◌, ◌++◌, map, length, replicate, IsTrue, IfOk, slice_set};
ghost use Rattle.std.specs.List.{concat};
ghost use Rattle.arena.specs.Lists.{count_of, without, numbers_from, first_of, behind_in};
ghost use Rattle.arena.specs.Linked.{list_at, next_at_start, previous_at_start, IsWellLinked};

use std::alloc::{AllocError, Global};
use std::marker::Model;

/// Lists of slots. A slot is on one list, or on none.
///
/// The nodes numbered below `slots` are the slots. Each node from `slots` on is the sentinel of a list:
/// before its first slot and after its last. So a list is a ring, and neither its first nor its last slot
/// is a special case. A slot on no list is its own neighbor.
#[derive(Drop)]
pub(crate) struct Links {
    slots: usize,
    next: Vec<usize>,
    previous: Vec<usize>,
}

impl Model for Links {
    ghost use Rattle.arena.specs.Linked.{Linked};

    ghost Value = { Linked };

    ghost use Rattle.arena.specs.Links.{links_of, AreLinks};

    ghost view = { links_of };

    ghost invariant = { AreLinks };
}

/// The node after a node in new `Links`.
fn next_at_start(slots: usize, node: usize) -> usize
    requires { slots < usize.MAX }
    ensures { result ≡ next_at_start slots node }
{
    if node < slots {
        node + 1
    } else if node == slots {
        0
    } else {
        node
    }
}

/// The node before a node in new `Links`.
fn previous_at_start(slots: usize, node: usize) -> usize
    ensures { result ≡ previous_at_start slots node }
{
    if node == 0 {
        slots
    } else if node <= slots {
        node - 1
    } else {
        node
    }
}

impl Links {
    /// All slots in order on the first list, and `others` more lists, which are empty.
    pub(crate) fn new(alloc: Global, slots: usize, others: usize) -> Result<Links, AllocError>
        requires { slots + others < usize.MAX }
        ensures lists { IfOk result (λ links. links ≡ record { slots = slots; lists = numbers_from 0 slots ∷ replicate others [] }) }
        ensures sound { IfOk result IsWellLinked }
    {
        let nodes = slots + 1 + others;
        let mut next = Vec::with_capacity(alloc, nodes)?;
        let mut previous = Vec::with_capacity(alloc, nodes)?;
        for node in 0..nodes {
            next.push_reserved(next_at_start(slots, node));
            previous.push_reserved(previous_at_start(slots, node));
        }
        Ok(Links {
            slots,
            next,
            previous,
        })
    }

    /// How many lists there are.
    pub(crate) fn lists(&self) -> usize
        ensures count { result ≡ length self.now.lists }
        ensures sound { IsWellLinked self.now }
    {
        self.next.len() - self.slots
    }

    /// The first slot of a list.
    pub(crate) fn first(&self, list: usize) -> Option<usize>
        requires { list < length self.now.lists }
        ensures { result ≡ first_of (list_at self.now list) }
    {
        let first = self.next[self.slots + list];
        if first < self.slots {
            Some(first)
        } else {
            None
        }
    }

    /// The slot after this one on its list.
    pub(crate) fn behind(&self, slot: usize) -> Option<usize>
        requires { slot < self.now.slots }
        ensures { result ≡ behind_in slot self.now.lists }
    {
        let behind = self.next[slot];
        if behind < self.slots && behind != slot {
            Some(behind)
        } else {
            None
        }
    }

    /// Whether a slot is on no list.
    pub(crate) fn is_alone(&self, slot: usize) -> bool
        requires { slot < self.now.slots }
        ensures { IsTrue result ↔ (count_of slot (concat self.now.lists) ≡ 0) }
    {
        self.next[slot] == slot
    }

    /// Takes a slot off its list, if it is on one.
    pub(crate) fn unlink(&mut self, slot: usize)
        requires { slot < self.old.slots }
        ensures lists { self.new ≡ record self.old { lists = map (without slot) self.old.lists } }
        ensures alone { count_of slot (concat self.new.lists) ≡ 0 }
        ensures sound { IsWellLinked self.new }
    {
        let before = self.previous[slot];
        let after = self.next[slot];
        self.next[before] = after;
        self.previous[after] = before;
        self.next[slot] = slot;
        self.previous[slot] = slot;
    }

    /// Makes a slot that is on no list the last of a list.
    pub(crate) fn append(&mut self, list: usize, slot: usize)
        requires slot_is_there { slot < self.old.slots }
        requires list_is_there { list < length self.old.lists }
        requires alone { count_of slot (concat self.old.lists) ≡ 0 }
        ensures lists { self.new ≡ record self.old { lists = slice_set self.old.lists list (list_at self.old list ++ slot ∷ []) } }
        ensures sound { IsWellLinked self.new }
    {
        let end = self.slots + list;
        let before = self.previous[end];
        self.next[before] = slot;
        self.previous[slot] = before;
        self.next[slot] = end;
        self.previous[end] = slot;
    }

    /// Makes a slot the first of a list, wherever it was.
    pub(crate) fn move_first(&mut self, list: usize, slot: usize)
        requires slot_is_there { slot < self.old.slots }
        requires list_is_there { list < length self.old.lists }
        ensures lists { let others = record self.old { lists = map (without slot) self.old.lists } in
            self.new ≡ record others { lists = slice_set others.lists list (slot ∷ list_at others list) } }
        ensures sound { IsWellLinked self.new }
    {
        self.unlink(slot);
        self.prepend(list, slot);
    }

    /// Makes a slot that is on no list the first of a list.
    fn prepend(&mut self, list: usize, slot: usize)
        requires slot_is_there { slot < self.old.slots }
        requires list_is_there { list < length self.old.lists }
        requires alone { count_of slot (concat self.old.lists) ≡ 0 }
        ensures lists { self.new ≡ record self.old { lists = slice_set self.old.lists list (slot ∷ list_at self.old list) } }
        ensures sound { IsWellLinked self.new }
    {
        let end = self.slots + list;
        let after = self.next[end];
        self.next[end] = slot;
        self.previous[slot] = end;
        self.next[slot] = after;
        self.previous[after] = slot;
    }
}
