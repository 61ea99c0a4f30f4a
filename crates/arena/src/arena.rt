//! The arena: its slots, and the chains through them.

ghost use Rattle.std.specs.Prelude.{◌≡◌, ◌+◌, ◌<◌, length, slice_set, slice_index_or, IsTrue, IfOk, Some, option_copied, vec_len};
ghost use Rattle.std.specs.Option.{option_copied_mut};
ghost use Rattle.std.specs.Borrow.{sem};
ghost use Rattle.arena.specs.ArenaView.{IsPartitioned, capacity_of, value_at, holds_value, empty_arena, put_answer, after_put, front_of, next_of, can_move, after_move, after_lend, restore_answer, after_restore, after_take, with_value};

use crate::links::Links;
use std::alloc::{AllocError, Global};
use std::marker::Model;
use std::mem;

/// The number, among the lists of `Links`, of the list of free slots. Chain `c` is list `c + 1`.
const FREE: usize = 0;

/// A fixed array of slots. A slot is free, on exactly one chain, or aside: claimed, and on no chain.
///
/// A claimed slot (one that isn't free) holds a value or has it lent out, and a slot whose value is out is aside.
/// After `with_capacity` no call takes memory, and a call that refuses changes nothing.
#[derive(Drop)]
pub struct Arena<T> {
    values: Vec<Option<T>>,
    links: Links,
    free: usize,
}

impl<T> Model for Arena<T> {
    ghost use Rattle.arena.specs.ArenaView.{ArenaView, arena_view_code};

    ghost Value = { ArenaView T };

    // For the prover alone: the type of the view, as a value.
    ghost coded = { arena_view_code T.code };

    ghost use Rattle.arena.specs.ArenaRule.{arena_view_of, ArenaRule};

    ghost view = { λ a. arena_view_of a.values.items a.links };

    ghost invariant = { λ a. ArenaRule a.values.items a.links a.free };
}

/// Puts a value into a slot that has none.
fn fill<T>(values: &mut Vec<Option<T>>, i: usize, value: T)
    requires is_there { i < vec_len values.old }
    requires empty { slice_index_or values.old.items i None ≡ None }
    ensures { values.new.items ≡ slice_set values.old.items i (Some value) }
{
    // An assignment would drop what the slot had, and a `T` need not be one that may be dropped.
    match mem::replace(&mut values[i], Some(value)) {
        None => {}
        Some(_) => unreachable!(),
    }
}

impl<T> Arena<T> {
    // Of a returned `&mut`: what is written through it is written to the slot. It has nothing to do with `lend`.
    ghost use Rattle.arena.specs.Lends.{lends_get};

    /// `slots` free slots in order, and `chains` empty chains, numbered from 0. `AllocError` where
    /// there is no memory.
    pub fn with_capacity(alloc: Global, slots: usize, chains: usize) -> Result<Arena<T>, AllocError>
        requires { slots + chains < usize.MAX }
        ensures arena { IfOk result (λ arena. arena ≡ empty_arena slots chains) }
        ensures partitioned { IfOk result IsPartitioned }
    {
        let links = Links::new(alloc, slots, chains)?;
        let mut values = Vec::with_capacity(alloc, slots)?;
        for _ in 0..slots {
            values.push_reserved(None);
        }
        Ok(Arena {
            values,
            links,
            free: slots,
        })
    }

    /// How many slots are free.
    pub fn free(&self) -> usize
        ensures partitioned { IsPartitioned self.now }
        ensures count { result ≡ length self.now.free }
    {
        self.free
    }

    /// How many slots there are.
    pub fn capacity(&self) -> usize
        ensures partitioned { IsPartitioned self.now }
        ensures count { result ≡ capacity_of self.now }
    {
        self.values.len()
    }

    /// The value in a slot: none where the slot is free, where its value is out, and where there is
    /// no slot.
    pub fn get(&self, i: usize) -> Option<&T>
        ensures partitioned { IsPartitioned self.now }
        ensures value { option_copied result ≡ value_at self.now i }
    {
        self.values.get(i)?.as_ref()
    }

    /// The value in a slot for writing, where `get` gives one.
    pub fn get_mut(&mut self, i: usize) -> Option<&mut T>
        ensures* writes_back { sem 𝓛 (lends_get T.row self.entry i result) }
        ensures partitioned { IsPartitioned self.old }
        ensures stays_partitioned { IsTrue (holds_value self.old i) → (value : T) → IsPartitioned (with_value self.old i value) }
        ensures value { option_copied_mut result ≡ value_at self.old i }
    {
        if !self.holds(i) {
            return None;
        }
        self.values[i].as_mut()
    }

    /// Whether a slot holds its value.
    fn holds(&self, i: usize) -> bool
        ensures answer { result ≡ holds_value self.now i }
        ensures there { IsTrue result → i < capacity_of self.now }
        ensures partitioned { IsPartitioned self.now }
    {
        matches!(self.values.get(i), Some(Some(_)))
    }

    /// How many chains there are.
    fn chains(&self) -> usize
        ensures { result ≡ length self.now.chains }
    {
        self.links.lists() - 1
    }

    /// Puts a value into the first free slot and gives the slot's number. The slot is aside then. Where
    /// no slot is free it hands the value back.
    pub fn put(&mut self, value: T) -> Result<usize, T>
        ensures answer { result ≡ put_answer self.old value }
        ensures arena { self.new ≡ after_put self.old value }
        ensures partitioned { IsPartitioned self.new }
    {
        let Some(slot) = self.links.first(FREE) else {
            return Err(value);
        };
        self.links.unlink(slot);
        fill(&mut self.values, slot, value);
        self.free -= 1;
        Ok(slot)
    }

    /// The first slot of a chain: none where the chain is empty, and where there is no such chain.
    pub fn front(&self, c: usize) -> Option<usize>
        ensures partitioned { IsPartitioned self.now }
        ensures slot { result ≡ front_of self.now c }
    {
        if c < self.chains() {
            self.links.first(c + 1)
        } else {
            None
        }
    }

    /// The slot after this one on its chain: none where it is the last, and where it is on no
    /// chain.
    pub fn next(&self, i: usize) -> Option<usize>
        ensures partitioned { IsPartitioned self.now }
        ensures slot { result ≡ next_of self.now i }
    {
        if self.holds(i) {
            self.links.behind(i)
        } else {
            None
        }
    }

    /// Makes a slot the last of a chain, whether it was on a chain or aside. Gives `false`, and
    /// changes nothing, where the slot holds no value or there is no such chain.
    pub fn move_to(&mut self, i: usize, c: usize) -> bool
        ensures answer { result ≡ can_move self.old i c }
        ensures arena { self.new ≡ after_move self.old i c }
        ensures partitioned { IsPartitioned self.new }
    {
        if !self.holds(i) || c >= self.chains() {
            return false;
        }
        self.links.unlink(i);
        self.links.append(c + 1, i);
        true
    }

    /// Gives the value of a slot out, and takes the slot off its chain. The slot isn't free then: it waits
    /// for `restore` to bring a value back. Gives `None`, and changes nothing, where `get` gives `None`.
    pub fn lend(&mut self, i: usize) -> Option<T>
        ensures answer { result ≡ value_at self.old i }
        ensures arena { self.new ≡ after_lend self.old i }
        ensures partitioned { IsPartitioned self.new }
    {
        if !self.holds(i) {
            return None;
        }
        self.links.unlink(i); // it stays claimed
        self.values[i].take()
    }

    /// Brings a value into a slot whose value is out. The slot stays aside. For any other slot it hands
    /// the value back, and changes nothing.
    pub fn restore(&mut self, i: usize, value: T) -> Result<(), T>
        ensures answer { result ≡ restore_answer self.old i value }
        ensures arena { self.new ≡ after_restore self.old i value }
        ensures partitioned { IsPartitioned self.new }
    {
        if i >= self.capacity() || self.holds(i) || !self.links.is_alone(i) {
            return Err(value);
        }
        fill(&mut self.values, i, value);
        Ok(())
    }

    /// Takes the value out of a slot, which becomes the first free one. Gives `None`, and changes
    /// nothing, where `get` gives `None`.
    pub fn take(&mut self, i: usize) -> Option<T>
        ensures answer { result ≡ value_at self.old i }
        ensures arena { self.new ≡ after_take self.old i }
        ensures partitioned { IsPartitioned self.new }
    {
        if !self.holds(i) {
            return None;
        }
        self.links.move_first(FREE, i); // it may be inside a chain
        self.free += 1;
        self.values[i].take()
    }
}
