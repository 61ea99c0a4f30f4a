//! Dirty flags, one for each piece of an image.
ghost use Rattle.std.specs.Prelude.{◌≡◌, ◌<◌, ◌≤◌, ◌^◌, ◌∷◌, [], true, false, get_or, length, replicate, IfSome, IsNone};
ghost use Rattle.image.specs.Pieces.{piece_count, volume_piece_number};
ghost use Rattle.checkpoint.specs.DirtyPieces.{DirtiesTouched, count_dirty, AreCleanBefore};
ghost use Rattle.meaning.specs.State.{key};

use affinity::Geometry;
use image::layout::pieces_of_volume;
use image::touched;
use protocol::Msg;
use std::mem;

/// How many flags are set: of dirty pieces, or of those pending in a cut.
pub(crate) fn count_dirty(dirty: &[bool]) -> usize
    ensures { result ≡ count_dirty dirty.now }
{
    let mut count = 0;
    for is_dirty in dirty {
        if *is_dirty {
            count += 1;
        }
    }
    count
}

/// The first piece whose flag is set, where none before `from` is: those aren't looked at.
pub(crate) fn first_dirty(dirty: &[bool], from: usize) -> Option<usize>
    requires inside { from ≤ length dirty.now }
    requires clear { AreCleanBefore from dirty.now }
    ensures inside { IfSome result (λ n. n < length dirty.now) }
    ensures dirty_at { IfSome result (λ n. get_or dirty.now n false ≡ true) }
    ensures clear { IfSome result (λ n. AreCleanBefore n dirty.now) }
    ensures none { IsNone result → count_dirty dirty.now ≡ 0 }
{
    for n in from..dirty.len() {
        if dirty[n] {
            return Some(n);
        }
    }
    None
}

/// Clears all flags.
pub(crate) fn clear_dirty(dirty: &mut [bool])
    ensures { dirty.new ≡ replicate (length dirty.old) false }
{
    dirty.fill(false);
}

/// The other image was written and is named from now on: none of its pieces is out of date. The one that was named before
/// keeps its flags.
pub(crate) fn swap_and_clear_dirty(named: &mut Vec<bool>, other: &mut Vec<bool>)
    ensures written { named.new.items ≡ replicate (length other.old.items) false }
    ensures kept { other.new ≡ named.old }
{
    mem::swap(named, other);
    clear_dirty(named);
}

/// The number of the first piece of a message's volume. (Clause `most` is not tight: it lets a volume's pieces be added.)
fn first_piece(g: &Geometry, m: &Msg) -> usize
    ensures first { result ≡ volume_piece_number g.now (key m.now).0 (key m.now).1 }
    ensures most { result < 2 ^ 49 }
{
    let [aggregate, volume, _, _] = m.numbers();
    let volume_index = usize::from(aggregate) * usize::from(g.volumes) + usize::from(volume);
    volume_index * pieces_of_volume(g)
}

/// Makes the pieces that a message touches (may change) dirty in both images, and no others. These are of its own volume, so no others
/// are looked at.
fn dirty_one(g: &Geometry, m: &Msg, named: &mut [bool], other: &mut [bool])
    requires { (length named.old ≡ piece_count g.now) × (length other.old ≡ piece_count g.now) }
    ensures sizes { (length named.new ≡ length named.old) × (length other.new ≡ length other.old) }
    ensures named { DirtiesTouched g.now (m.now ∷ []) named.old named.new }
    ensures other { DirtiesTouched g.now (m.now ∷ []) other.old other.new }
{
    let first = first_piece(g, m);
    let end = named.len().min(first + pieces_of_volume(g));
    for n in first..end {
        if touched(g, m, n) {
            named[n] = true;
            other[n] = true;
        }
    }
}

/// Makes the pieces that these messages touch (may change) dirty in both images, and no others.
pub(crate) fn dirty_touched(g: &Geometry, messages: &[Msg], named: &mut [bool], other: &mut [bool])
    requires { (length named.old ≡ piece_count g.now) × (length other.old ≡ piece_count g.now) }
    ensures sizes { (length named.new ≡ length named.old) × (length other.new ≡ length other.old) }
    ensures named { DirtiesTouched g.now messages.now named.old named.new }
    ensures other { DirtiesTouched g.now messages.now other.old other.new }
{
    for m in messages {
        dirty_one(g, m, named, other);
    }
}
