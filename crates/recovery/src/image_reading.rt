//! An image, read into a tree piece by piece.
ghost use Rattle.std.specs.Prelude.{◌≡◌, ◌↔◌, ◌+◌, ◌*◌, ◌<◌, ◌≤◌, ℕ, true, None, Some, length, IfErr, IsOk, OnOk};
ghost use Rattle.recovery.specs.declared.fault.OpenFault.TheVariants.{BadPiece};
ghost use Rattle.recovery.specs.OpeningCalls.{IsReadingCall};
ghost use Rattle.recovery.specs.OpenFaults.{IsConsistentFault};
ghost use Rattle.recovery.specs.Refusals.{fault_or_later, first_bad_piece};
ghost use Rattle.image.specs.Image.{has_head, is_version, image_state, version_in};
ghost use Rattle.image.specs.Pieces.{aggregate_of, part_of, piece_count, piece_of, piece_size, volume_of, with_piece};
ghost use Rattle.device_map.specs.Layout.{device_size, image_part, layout_of, part_bytes};
ghost use Rattle.device_map.specs.declared.layout.TheConstants.{BLOCK_ENTRY_SIZE};
ghost use Rattle.parcel.specs.Tree.{IsWholeTree, state_in};
ghost use Rattle.meaning.specs.State.{empty};

use crate::OpenFault;
use crate::device_reads::read_bytes;
use device_map::{IMAGE_HEAD_SIZE, image_at};
use disk::Disk;
use image::layout::{FIRST_VERSION, piece_count, piece_size};
use parcel::{Tree, read_piece, read_piece_1};

/// Decodes these bytes into the tree, as piece `n` of an image of this version. `BadPiece` exactly where encoding piece `n` of the
/// resulting state gives other bytes. Part 0 of a volume is the volume's own piece, the others are its stripes', which come after it: so
/// clause `empty` asks that a volume has no block when its own piece is decoded.
fn take_piece(tree: &mut Tree, version: u8, n: usize, piece: &[u8]) -> Result<(), OpenFault>
    requires whole { IsWholeTree tree.old }
    requires known { is_version version ≡ true }
    requires n { n < piece_count tree.old.geometry }
    requires size { length piece.now ≡ piece_size tree.old.geometry n }
    requires empty { part_of tree.old.geometry n ≡ 0 → (f b : ℕ) → (state_in tree.old).blocks
        (aggregate_of tree.old.geometry n, volume_of tree.old.geometry n, f, b) ≡ None }
    ensures good { IsOk result ↔ (piece.now ≡ piece_of version tree.old.geometry
        (with_piece version tree.old.geometry (state_in tree.old) n piece.now) n) }
    ensures bad { IfErr result (λ e. e ≡ BadPiece n) }
    ensures taken { OnOk result (state_in tree.new
        ≡ with_piece version tree.old.geometry (state_in tree.old) n piece.now) }
    ensures whole { OnOk result (IsWholeTree tree.new) }
    ensures geometry { tree.new.geometry ≡ tree.old.geometry }
{
    let taken = if version == FIRST_VERSION {
        read_piece_1(tree, n, piece)
    } else {
        read_piece(tree, n, piece)
    };
    if taken.is_err() {
        return Err(OpenFault::BadPiece(n));
    }
    Ok(())
}

/// Reads the pieces of image `number` (0 or 1), which has a head, into a new tree, through a buffer. `BadPiece` exactly where one of them
/// differs from the encoding of what the image decodes to, with the first such piece; then the tree isn't of use any more. Any other error
/// is `Device`, which is consistent with any bytes (`IsConsistentFault`). Clause `room` asks that the buffer takes a stripe's piece: the
/// entry of a block for each block that a stripe can hold.
pub(crate) fn read_pieces<D: Disk>(
    disk: &mut D,
    tree: &mut Tree,
    number: usize,
    version: u8,
    buffer: &mut [u8],
) -> Result<(), OpenFault>
    requires whole { IsWholeTree tree.old }
    requires empty { state_in tree.old ≡ empty }
    requires number { number < 2 }
    requires known { is_version version ≡ true }
    requires version { D.keeps → version ≡ version_in
        (part_bytes (layout_of tree.old.geometry) (image_part number) (D.medium disk.old).now) }
    requires head { D.keeps → has_head
        (part_bytes (layout_of tree.old.geometry) (image_part number) (D.medium disk.old).now) ≡ true }
    requires long_enough { device_size (layout_of tree.old.geometry) ≤ length (D.medium disk.old).now }
    requires room { tree.old.geometry.quota * BLOCK_ENTRY_SIZE ≤ length buffer.old }
    ensures read { OnOk result (D.keeps → image_state tree.old.geometry
        (part_bytes (layout_of tree.old.geometry) (image_part number) (D.medium disk.old).now) ≡ Some (state_in tree.new)) }
    ensures good { OnOk result (D.keeps → first_bad_piece tree.old.geometry
        (part_bytes (layout_of tree.old.geometry) (image_part number) (D.medium disk.old).now) ≡ None) }
    ensures refused { IfErr result (λ e. D.keeps → IsConsistentFault (fault_or_later BadPiece (first_bad_piece tree.old.geometry
        (part_bytes (layout_of tree.old.geometry) (image_part number) (D.medium disk.old).now)) None) e) }
    ensures whole { OnOk result (IsWholeTree tree.new) }
    ensures geometry { tree.new.geometry ≡ tree.old.geometry }
    ensures call { IsReadingCall D.keeps result (D.medium disk.old) (D.medium disk.new) }
{
    let g = tree.geometry();
    let mut at = image_at(&g, number) + IMAGE_HEAD_SIZE as u64;
    for n in 0..piece_count(&g) {
        let piece = &mut buffer[..piece_size(&g, n)];
        read_bytes(disk, at, piece)?;
        take_piece(tree, version, n, piece)?;
        at += piece.len() as u64;
    }
    Ok(())
}
