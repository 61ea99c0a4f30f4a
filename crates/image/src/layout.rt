//! The map of an image: how many pieces it has, how long each one is, and what it begins with. The map of a device has the sizes that
//! every image has; which piece is of what is defined in `specs/Pieces.antt`.

ghost use Rattle.std.specs.Prelude.{◌≡◌, ◌*◌, ◌<◌, ◌≤◌};
ghost use Rattle.image.specs.Image.{image_head};
ghost use Rattle.image.specs.Pieces.{aggregate_of, part_of, piece_count, piece_size, pieces_of_volume, volume_of};
ghost use Rattle.device_map.specs.declared.layout.TheConstants.{BLOCK_ENTRY_SIZE};
ghost use Rattle.affinity.specs.declared.limits.TheConstants.{MOST_PIECES, MOST_QUOTA};

use affinity::Geometry;
use device_map::{BLOCK_ENTRY_SIZE, IMAGE_HEAD_SIZE, VOLUME_PIECE_SIZE};

/// The version of the images that are written. An image begins with its version.
pub const VERSION: u8 = 2;

/// The version before it, which is read too: its volumes have no labels.
pub const FIRST_VERSION: u8 = 1;

/// How many pieces a volume has: its own, and one for each of its stripes.
pub fn pieces_of_volume(g: &Geometry) -> usize
    ensures { result ≡ pieces_of_volume g.now }
{
    1 + usize::from(g.stripes)
}

/// How many pieces an image has.
pub fn piece_count(g: &Geometry) -> usize
    ensures count { result ≡ piece_count g.now }
    ensures some { 0 < result }
    ensures most { result ≤ MOST_PIECES }
{
    usize::from(g.aggregates) * usize::from(g.volumes) * pieces_of_volume(g)
}

/// The size of the largest piece of an image, which is one of a stripe.
pub fn largest_piece(g: &Geometry) -> usize
    ensures size { result ≡ g.now.quota * BLOCK_ENTRY_SIZE }
    ensures some { 0 < result }
    ensures most { result ≤ MOST_QUOTA * BLOCK_ENTRY_SIZE }
{
    usize::from(g.quota) * BLOCK_ENTRY_SIZE
}

/// The size of piece `n`.
pub fn piece_size(g: &Geometry, n: usize) -> usize
    ensures size { result ≡ piece_size g.now n }
    ensures within { result ≤ g.now.quota * BLOCK_ENTRY_SIZE }
    ensures most { result ≤ MOST_QUOTA * BLOCK_ENTRY_SIZE }
{
    if n % pieces_of_volume(g) == 0 {
        VOLUME_PIECE_SIZE
    } else {
        largest_piece(g)
    }
}

/// What a piece is of: a part of a volume of an aggregate.
#[derive(Clone, Copy)]
pub struct PiecePlace {
    /// The number of the aggregate.
    pub aggregate: usize,
    /// The number of the volume in its aggregate.
    pub volume: usize,
    /// The part of the volume: 0 is its own piece, `s + 1` that of stripe s.
    pub part: usize,
}

/// What piece `n` is of.
pub fn place_of_piece(g: &Geometry, n: usize) -> PiecePlace
    ensures aggregate { result.aggregate ≡ aggregate_of g.now n }
    ensures volume { result.volume ≡ volume_of g.now n }
    ensures part { result.part ≡ part_of g.now n }
{
    let pieces = pieces_of_volume(g);
    let volumes = usize::from(g.volumes);
    let volume = n / pieces;
    PiecePlace {
        aggregate: volume / volumes,
        volume: volume % volumes,
        part: n % pieces,
    }
}

/// What an image of this version begins with: the version and zeros.
pub fn head_of(version: u8) -> [u8; IMAGE_HEAD_SIZE]
    ensures { result ≡ image_head version }
{
    let mut head = [0u8; IMAGE_HEAD_SIZE];
    head[0] = version;
    head
}
