//! A stripe: an array of buffers, and an index of which block lies in which of them.
ghost use Rattle.std.specs.Prelude.{◌≡◌, ◌<◌, ◌≤◌, ◌&&◌, ◌||◌, ◌==◌, true, is_some, length, nat_lt, [], Some, None, IfOk, MatchResult, option_copied, if◌then◌else◌, insert};
ghost use Rattle.std.specs.List.{remove_range};
ghost use Rattle.stripe.specs.Stripe.{StripeRule, HoldsContent, content_at};
ghost use Rattle.stripe.specs.Index.{IsSplit, IsAt, IsGap, rewritten};
ghost use Rattle.affinity.specs.declared.limits.TheConstants.{MOST_QUOTA};

use arena::Arena;
use protocol::Block;
use std::alloc::{AllocError, Global};
use std::marker::Model;

/// The blocks of one stripe of a volume, at most as many as its quota. `new` allocates all memory.
#[derive(Drop)]
pub struct StripeParcel {
    blocks: Arena<Block>,
    index: Vec<IndexEntry>, // ascending by file, then block
}

/// Where a block of a file lies in the array of buffers.
#[derive(Clone, Copy)]
struct IndexEntry {
    file: u16,
    block: u16,
    slot: u16,
}

impl Model for StripeParcel {
    ghost use Rattle.stripe.specs.Stripe.{StripePart};

    ghost Value = { StripePart };

    ghost use Rattle.stripe.specs.View.{stripe_part, IsStripe};

    ghost view = { stripe_part };

    ghost invariant = { IsStripe };
}

impl StripeParcel {
    /// An empty stripe that can hold `quota` blocks.
    pub fn new(alloc: Global, quota: usize) -> Result<StripeParcel, AllocError>
        requires most { quota ≤ MOST_QUOTA }
        ensures { IfOk result (λ s. s ≡ record { quota = quota; entries = [] }) }
    {
        // An arena with 0 chains: the index has the order.
        let blocks = Arena::with_capacity(alloc, quota, 0)?;
        let index = Vec::with_capacity(alloc, quota)?;
        Ok(StripeParcel { blocks, index })
    }

    /// How many blocks there are.
    pub fn len(&self) -> usize
        ensures count { result ≡ length self.now.entries }
        ensures kept { StripeRule self.now }
    {
        self.index.len()
    }

    /// What a block of a file holds, if it is there.
    pub fn get(&self, f: u16, b: u16) -> Option<&Block>
        ensures content { option_copied result ≡ content_at self.now.entries f b }
        ensures kept { StripeRule self.now }
    {
        match self.find(f, b) {
            Ok(n) => self.blocks.get(usize::from(self.index[n].slot)),
            Err(_) => None,
        }
    }

    /// Puts content into a block that is there, or makes the block. There has to be room for it.
    pub fn set(&mut self, f: u16, b: u16, content: &Block)
        requires room { (is_some (content_at self.old.entries f b) || nat_lt (length self.old.entries) self.old.quota) ≡ true }
        ensures holds { HoldsContent self.old self.new
            (λ i j. if (f == i) && (b == j) then Some content.now else content_at self.old.entries i j) }
        ensures kept { StripeRule self.new }
    {
        match self.find(f, b) {
            Ok(n) => self.write(n, content),
            Err(n) => self.insert(n, f, b, content),
        }
    }

    /// Removes a block, if it is there.
    pub fn clear(&mut self, f: u16, b: u16)
        ensures holds { HoldsContent self.old self.new (λ i j. if (f == i) && (b == j) then None else content_at self.old.entries i j) }
        ensures kept { StripeRule self.new }
    {
        if let Ok(n) = self.find(f, b) {
            self.remove_blocks(n, n + 1);
        }
    }

    /// Removes the blocks of a file.
    pub fn drop_file(&mut self, f: u16)
        ensures holds { HoldsContent self.old self.new (λ i j. if f == i then None else content_at self.old.entries i j) }
        ensures kept { StripeRule self.new }
    {
        let first = self.count_before(usize::from(f), 0);
        let end = self.count_before(usize::from(f) + 1, 0);
        self.remove_blocks(first, end);
    }

    /// Removes all blocks.
    pub fn drop_all(&mut self)
        ensures { self.new ≡ record { quota = self.old.quota; entries = [] } }
    {
        let end = self.len();
        self.remove_blocks(0, end);
    }

    /// How many blocks come before block `b` of file `f`.
    fn count_before(&self, f: usize, b: usize) -> usize
        ensures parts { IsSplit self.now.entries f b result }
        ensures most { length self.now.entries ≤ MOST_QUOTA }
        ensures kept { StripeRule self.now }
    {
        self.index.partition_point(|index_entry| {
            let file = usize::from(index_entry.file);
            file < f || file == f && usize::from(index_entry.block) < b
        })
    }

    /// The position of a block in the index, or as `Err` the one at which it would be inserted.
    fn find(&self, f: u16, b: u16) -> Result<usize, usize>
        ensures found { MatchResult result (IsAt self.now.entries f b) (IsGap self.now.entries f b) }
        ensures most { length self.now.entries ≤ MOST_QUOTA }
        ensures kept { StripeRule self.now }
    {
        let n = self.count_before(usize::from(f), usize::from(b));
        match self.index.get(n) {
            Some(index_entry) if index_entry.file == f && index_entry.block == b => Ok(n),
            _ => Err(n),
        }
    }

    /// Puts content into the block at position `n` of the index.
    fn write(&mut self, n: usize, content: &Block)
        requires { n < length self.old.entries }
        ensures { self.new ≡ record self.old { entries = rewritten self.old.entries n content.now } }
    {
        let slot = usize::from(self.index[n].slot);
        match self.blocks.get_mut(slot) {
            Some(there) => *there = *content,
            None => unreachable!(),
        }
    }

    /// Makes a block, at position `n` of the index.
    fn insert(&mut self, n: usize, f: u16, b: u16, content: &Block)
        requires gap { IsGap self.old.entries f b n }
        requires room { length self.old.entries < self.old.quota }
        ensures { self.new ≡ record self.old {
          entries = insert self.old.entries n (record { file = f; block = b; content = content.now });
        } }
    {
        let Ok(slot) = self.blocks.put(*content) else {
            unreachable!()
        };
        let index_entry = IndexEntry {
            file: f,
            block: b,
            slot: slot as u16,
        };
        let Ok(()) = self.index.insert(n, index_entry) else {
            unreachable!()
        };
    }

    /// Removes the blocks from position `from` of the index up to `end`, which stays.
    fn remove_blocks(&mut self, from: usize, end: usize)
        requires order { from ≤ end }
        requires within { end ≤ length self.old.entries }
        ensures { self.new ≡ record self.old { entries = remove_range self.old.entries from end } }
    {
        for index_entry in &self.index[from..end] {
            self.blocks.take(usize::from(index_entry.slot));
        }
        self.index.drain(from..end);
    }
}

mod bytes;
