//! A stripe's piece of an image, an entry for each block that it can hold, from the stripe of a volume and into it.
ghost use Rattle.std.specs.Prelude.{◌≡◌, ◌↔◌, ◌*◌, ◌<◌, ◌^◌, ◌==◌, ℕ, length, if◌then◌else◌, IfSome, IsTrue};
ghost use Rattle.device_map.specs.declared.layout.TheConstants.{BLOCK_ENTRY_SIZE};
ghost use Rattle.affinity.specs.Geometry.{stripe_of};
ghost use Rattle.image.specs.Pieces.{block_in, stripe_piece};
ghost use Rattle.meaning.specs.State.{State, IsState};
ghost use Rattle.stripe.specs.Entries.{IsStripePiece};
ghost use Rattle.stripe.specs.Stripe.{StripePart, content_at};
ghost use Rattle.parcel.specs.Fits.{FitsLogical, FitsStripe};
ghost use Rattle.parcel.specs.Whole.{IsWholeChild, IsWholeLogical};
ghost use Rattle.parcel.specs.Pieces.{IsStripeRead};
ghost use Rattle.parcel.specs.Shown.{blocks_of};

use crate::{Logical, StripeParcel};
use affinity::Geometry;

/// Writes the piece of stripe `s` of a volume: the same bytes for every state that has these blocks in
/// that stripe.
pub(super) fn write_stripe(stripe: &StripeParcel, g: &Geometry, s: usize, out: &mut [u8])
    requires fits { FitsStripe g.now s stripe.now }
    requires size { length out.old ≡ g.now.quota * BLOCK_ENTRY_SIZE }
    ensures { (x : State) (a v : ℕ) → IsState g.now x
        → ((f b : ℕ) → stripe_of g.now f b ≡ s
        → x.blocks (a, v, f, b) ≡ content_at stripe.now.entries f b)
        → out.new ≡ stripe_piece g.now x a v s }
{
    // The call of `len` is for the proof: it ensures that the blocks ascend and are within the quota.
    let most = usize::from(g.quota);
    prove!(stripe.len() <= most);
    stripe.write_piece(out);
}

/// Replaces the blocks of stripe `s` of a volume by those in `bytes`. Gives whether the bytes are a piece
/// of that stripe, with blocks only of files that the volume has. Where they aren't, no clause says which
/// blocks the stripe has (the code leaves none).
pub(super) fn read_stripe(logical: &mut Logical, g: &Geometry, s: usize, bytes: &[u8]) -> bool
    requires fits { FitsLogical g.now logical.old }
    requires whole { IsWholeLogical logical.old }
    requires stripe { s < g.now.stripes }
    requires size { length bytes.now ≡ g.now.quota * BLOCK_ENTRY_SIZE }
    ensures piece { IsTrue result ↔ IsStripePiece g.now logical.old.files s bytes.now }
    ensures files { logical.new.files ≡ logical.old.files }
    ensures blocks { IsTrue result → (f b : ℕ) → blocks_of g.now logical.new.stripes.items f b
        ≡ (if stripe_of g.now f b == s then block_in g.now bytes.now f b
        else blocks_of g.now logical.old.stripes.items f b) }
    ensures fits { FitsLogical g.now logical.new }
    ensures whole { IsWholeLogical logical.new }
{
    let files = logical.files;
    read_at(&mut logical.stripes[s], g, files, s as u16, bytes)
}

/// Replaces the blocks of one stripe by those in `bytes`. The bits of `files` are the files of its volume.
fn read_at(node: &mut Option<StripeParcel>, g: &Geometry, files: u64, s: u16, bytes: &[u8]) -> bool
    requires fits { IfSome node.old (FitsStripe g.now s) }
    requires whole { IsWholeChild (λ (p : StripePart). Unit {0}) node.old }
    requires files { files < 2 ^ g.now.files }
    requires size { length bytes.now ≡ g.now.quota * BLOCK_ENTRY_SIZE }
    ensures { IsStripeRead g.now files s bytes.now result node.new }
{
    let Some(stripe) = node else { unreachable!() };
    stripe.drop_all();
    if stripe.read_piece(g, files, s, bytes) {
        return true;
    }
    stripe.drop_all();
    false
}
