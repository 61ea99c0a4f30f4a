//! The map of a device: where each of its parts begins and how long it is, all in bytes. The parts lie
//! in a row: header, root zone, half 0, half 1, image 0, image 1.
ghost use Rattle.std.specs.Prelude.{◌≡◌, ◌<◌, ◌≤◌, ◌+◌, ◌*◌};
ghost use Rattle.device_map.specs.Layout.{layout_of, part_at, device_size, half_part, half_size, image_part, image_size};
ghost use Rattle.affinity.specs.declared.limits.TheConstants.{MOST_AGGREGATES, MOST_QUOTA, MOST_RECORDS, MOST_STRIPES, MOST_VOLUMES};

use affinity::Geometry;
use protocol::{BLOCK_SIZE, RECORD_SIZE};

/// The size of the header, with which a device begins.
pub const HEADER_SIZE: usize = 64;

/// The size of the root zone, whose first byte names an area.
pub const ROOT_ZONE_SIZE: usize = 64;

/// Where the root zone begins.
pub const ROOT_ZONE_AT: u64 = HEADER_SIZE as u64;

/// The size of what lies before the gates of a half: its chain byte and the 63 bytes after it.
pub const CHAIN_ZONE_SIZE: usize = 64;

/// The size of what an image begins with.
pub const IMAGE_HEAD_SIZE: usize = 64;

/// The size of a volume's own piece in an image.
pub const VOLUME_PIECE_SIZE: usize = 64;

/// The size of a block's entry in the piece of a stripe: 8 bytes, and the block.
pub const BLOCK_ENTRY_SIZE: usize = 8 + BLOCK_SIZE;

/// The size of each half, which holds `g.half` records.
pub fn half_size(g: &Geometry) -> usize
    ensures size { result ≡ half_size g.now.half }
    ensures most { result ≤ half_size MOST_RECORDS }
{
    let capacity = usize::from(g.half);
    CHAIN_ZONE_SIZE + (capacity + capacity * RECORD_SIZE)
}

/// The size of each image: at most that of 32 volumes with 8 full stripes, some 8.5 million.
pub fn image_size(g: &Geometry) -> usize
    ensures size { result ≡ image_size g.now }
    ensures most { result
        ≤ IMAGE_HEAD_SIZE + MOST_AGGREGATES * MOST_VOLUMES * (VOLUME_PIECE_SIZE + MOST_STRIPES * (MOST_QUOTA * BLOCK_ENTRY_SIZE)) }
{
    let volumes = usize::from(g.aggregates) * usize::from(g.volumes);
    let stripes = usize::from(g.stripes) * (usize::from(g.quota) * BLOCK_ENTRY_SIZE);
    IMAGE_HEAD_SIZE + volumes * (VOLUME_PIECE_SIZE + stripes)
}

/// Where half 0 or 1 begins.
pub fn half_at(g: &Geometry, number: usize) -> u64
    requires { number < 2 }
    ensures { result ≡ part_at (layout_of g.now) (half_part number) }
{
    let halves = (HEADER_SIZE + ROOT_ZONE_SIZE) as u64;
    if number == 0 {
        halves
    } else {
        halves + half_size(g) as u64
    }
}

/// Where image 0 or 1 begins.
pub fn image_at(g: &Geometry, number: usize) -> u64
    requires { number < 2 }
    ensures { result ≡ part_at (layout_of g.now) (image_part number) }
{
    let images = half_at(g, 1) + half_size(g) as u64;
    if number == 0 {
        images
    } else {
        images + image_size(g) as u64
    }
}

/// The size of all parts. A device may be longer.
pub fn device_len(g: &Geometry) -> u64
    ensures { result ≡ device_size (layout_of g.now) }
{
    image_at(g, 1) + image_size(g) as u64
}
