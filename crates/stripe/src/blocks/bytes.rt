//! A stripe as the bytes of its piece in an image: an entry for each block, and zeros
//! after them.
ghost use Rattle.std.specs.Prelude.{◌≡◌, ◌↔◌, ◌*◌, ◌<◌, ◌==◌, ◌++◌, ◌∷◌, [], IsTrue, IsFalse, get_or, length, take, drop, replicate, slice_index_or};
ghost use Rattle.std.specs.List.{list_all, AllByRecursion};
ghost use Rattle.stripe.specs.Entries.{entry_bytes, entry_in, entries_in, stripe_bytes, fits_stripe, IsStripePiece, IsNextEntry};
ghost use Rattle.stripe.specs.Index.{no_entry};
ghost use Rattle.stripe.specs.Stripe.{PrecedesBlock};

use super::StripeParcel;
use affinity::{Geometry, group_of};
use device_map::BLOCK_ENTRY_SIZE;
use protocol::{BLOCK_SIZE, Block, has_file};

/// How many bytes come before the content of a block in its entry.
const ENTRY_HEAD: usize = BLOCK_ENTRY_SIZE - BLOCK_SIZE;

/// Whether a block can be in stripe `s` of a volume with these files.
fn fits_stripe(g: &Geometry, files: u64, s: u16, file: u16, block: u16) -> bool
    ensures { result ≡ fits_stripe g.now files s file block }
{
    has_file(files, file) && block < g.blocks && group_of(g, file, block) == s
}

/// Whether the bytes that an entry doesn't use are zeros.
fn is_blank_between(row: &[u8]) -> bool
    requires row { length row.now ≡ BLOCK_ENTRY_SIZE }
    ensures { IsTrue result ↔ (take 4 (drop 4 row.now) ≡ replicate 4 0) }
{
    row[4] == 0 && row[5] == 0 && row[6] == 0 && row[7] == 0
}

/// Whether all bytes are zeros.
fn are_zeros(bytes: &[u8]) -> bool
    ensures { result ≡ list_all (λ byte. byte == 0) bytes.now }
{
    bytes.iter().all(|byte| *byte == 0)
}

/// Writes the entry of a block.
fn put_entry(row: &mut [u8], file: u16, block: u16, content: &Block)
    requires row { length row.old ≡ BLOCK_ENTRY_SIZE }
    requires file { file < 256 }
    ensures { row.new ≡ entry_bytes (record { file = file; block = block; content = content.now }) }
{
    let [low, high] = block.to_le_bytes();
    row[..ENTRY_HEAD].copy_from_slice(&[1, file as u8, low, high, 0, 0, 0, 0]);
    row[ENTRY_HEAD..].copy_from_slice(&content.0);
}

impl StripeParcel {
    /// Writes the blocks into `out` in their order, and zeros after them.
    pub fn write_piece(&self, out: &mut [u8])
        requires size { length out.old ≡ self.now.quota * BLOCK_ENTRY_SIZE }
        requires files { AllByRecursion (λ e. e.file < 256) self.now.entries }
        ensures { out.new ≡ stripe_bytes self.now.quota self.now.entries }
    {
        let mut at = 0;
        for n in 0..self.len() {
            self.write_entry(n, &mut out[at..at + BLOCK_ENTRY_SIZE]);
            at += BLOCK_ENTRY_SIZE;
        }
        out[at..].fill(0);
    }

    /// Writes the entry of the block at position `n` of the index.
    fn write_entry(&self, n: usize, row: &mut [u8])
        requires n { n < length self.now.entries }
        requires row { length row.old ≡ BLOCK_ENTRY_SIZE }
        requires file { (slice_index_or self.now.entries n no_entry).file < 256 }
        ensures { row.new ≡ entry_bytes (slice_index_or self.now.entries n no_entry) }
    {
        let index_entry = self.index[n];
        match self.blocks.get(usize::from(index_entry.slot)) {
            Some(content) => put_entry(row, index_entry.file, index_entry.block, content),
            None => unreachable!(),
        }
    }

    /// Reads a piece of stripe `s` of a volume with these files. The stripe has to be empty before.
    /// Returns whether the bytes are such a piece. Where they aren't, it is unspecified which blocks the
    /// stripe has.
    pub fn read_piece(&mut self, g: &Geometry, files: u64, s: u16, bytes: &[u8]) -> bool
        requires empty { self.old.entries ≡ [] }
        requires quota { self.old.quota ≡ g.now.quota }
        requires size { length bytes.now ≡ g.now.quota * BLOCK_ENTRY_SIZE }
        ensures good { IsTrue result → IsStripePiece g.now files s bytes.now
            × (self.new ≡ record self.old { entries = entries_in g.now.quota bytes.now }) }
        ensures bad { IsFalse result → IsStripePiece g.now files s bytes.now → ⊥ }
        ensures quota { self.new.quota ≡ self.old.quota }
    {
        for n in 0..usize::from(g.quota) {
            let at = n * BLOCK_ENTRY_SIZE;
            if bytes[at] != 1 {
                return are_zeros(&bytes[at..]);
            }
            if !self.push(g, files, s, &bytes[at..at + BLOCK_ENTRY_SIZE]) {
                return false;
            }
        }
        true
    }

    /// Appends the block of an entry, if the row is one that can be in stripe `s` and comes after
    /// all blocks that are there. Returns whether it did.
    fn push(&mut self, g: &Geometry, files: u64, s: u16, row: &[u8]) -> bool
        requires row { length row.now ≡ BLOCK_ENTRY_SIZE }
        requires marked { get_or row.now 0 0 ≡ 1 }
        requires room { length self.old.entries < self.old.quota }
        ensures pushed { IsTrue result → IsNextEntry g.now files s self.old.entries row.now
            × (self.new ≡ record self.old { entries = self.old.entries ++ entry_in row.now ∷ [] }) }
        ensures refused { IsFalse result → (self.new ≡ self.old) × (IsNextEntry g.now files s self.old.entries row.now → ⊥) }
    {
        let file = u16::from(row[1]);
        let block = u16::from_le_bytes([row[2], row[3]]);
        if !is_blank_between(row) {
            return false;
        }
        if !fits_stripe(g, files, s, file, block) {
            return false;
        }
        if !self.ends_before(file, block) {
            return false;
        }
        let mut content = Block([0; BLOCK_SIZE]);
        content.0.copy_from_slice(&row[ENTRY_HEAD..]);
        let n = self.len();
        self.insert(n, file, block, &content);
        true
    }

    /// Whether all blocks that are there come before this one.
    fn ends_before(&self, file: u16, block: u16) -> bool
        ensures { IsTrue result ↔ (AllByRecursion (λ e. PrecedesBlock e.file e.block file block) self.now.entries) }
    {
        self.count_before(usize::from(file), usize::from(block)) == self.len()
    }
}
