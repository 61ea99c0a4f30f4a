//! A snapshot of the state of a point or a cut, as the bytes of its image.
ghost use Rattle.std.specs.Prelude.{◌≡◌, ◌≤◌, drop, length, take};
ghost use Rattle.image.specs.Image.{image_head, image_of};
ghost use Rattle.image.specs.Pieces.{piece_count};
ghost use Rattle.image.specs.declared.layout.TheConstants.{VERSION};
ghost use Rattle.checkpoint.specs.Extents.{AreCleanExtentsOf};
ghost use Rattle.device_map.specs.Layout.{image_size};
ghost use Rattle.parcel.specs.Tree.{IsWholeTree, state_in};

use device_map::IMAGE_HEAD_SIZE;
use image::layout::{VERSION, head_of, piece_size};
use parcel::{Tree, write_piece};

/// Writes the head of an image.
fn write_head(bytes: &mut [u8])
    requires { IMAGE_HEAD_SIZE ≤ length bytes.old }
    ensures head { take IMAGE_HEAD_SIZE bytes.new ≡ image_head VERSION }
    ensures rest { drop IMAGE_HEAD_SIZE bytes.new ≡ drop IMAGE_HEAD_SIZE bytes.old }
    ensures size { length bytes.new ≡ length bytes.old }
{
    bytes[..IMAGE_HEAD_SIZE].copy_from_slice(&head_of(VERSION));
}

/// Makes `bytes` the image of the state of a tree of which no part is lent, if its clean pieces have the bytes of that image
/// already: only the head and the dirty pieces are written.
pub(crate) fn update_snapshot(tree: &Tree, dirty: &[bool], bytes: &mut [u8])
    requires whole { IsWholeTree tree.now }
    requires dirty { length dirty.now ≡ piece_count tree.now.geometry }
    requires size { length bytes.old ≡ image_size tree.now.geometry }
    ensures image { AreCleanExtentsOf tree.now.geometry (state_in tree.now) dirty.now bytes.old
        → bytes.new ≡ image_of VERSION tree.now.geometry (state_in tree.now) }
    ensures size { length bytes.new ≡ length bytes.old }
{
    let g = tree.geometry();
    write_head(bytes);
    let mut at = IMAGE_HEAD_SIZE;
    for (n, is_dirty) in dirty.iter().enumerate() {
        let end = at + piece_size(&g, n);
        if *is_dirty {
            write_piece(tree, n, &mut bytes[at..end]);
        }
        at = end;
    }
}
