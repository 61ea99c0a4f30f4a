//! An image as the extents in which it is written: its head with the first piece, then each other piece.
ghost use Rattle.std.specs.Prelude.{◌≡◌, ◌+◌, ◌-◌, ◌<◌, ◌≤◌, ◌*◌, ℕ, length, OnOk};
ghost use Rattle.disk.specs.Device.{IsCallInside, Syncs, overlaid};
ghost use Rattle.image.specs.Pieces.{piece_count, piece_size};
ghost use Rattle.checkpoint.specs.Costs.{count_runs};
ghost use Rattle.checkpoint.specs.Extents.{AgreeOnClean, extent_size};
ghost use Rattle.checkpoint.specs.Images.{Imaged, IsPatchedAt, image_in};
ghost use Rattle.disk.specs.CrashImages.{CrashesChangeOnly};
ghost use Rattle.disk.specs.Device.{Costs};
ghost use Rattle.oplog.specs.Changes.{IsReady, IsSameBut};
ghost use Rattle.device_map.specs.Layout.{slice, layout_of, device_size, image_part, image_size};
ghost use Rattle.device_map.specs.declared.layout.TheConstants.{BLOCK_ENTRY_SIZE, IMAGE_HEAD_SIZE};
ghost use Rattle.affinity.specs.declared.limits.TheConstants.{MOST_QUOTA};

use affinity::Geometry;
use device_map::{IMAGE_HEAD_SIZE, image_at};
use disk::writes::write;
use disk::{Disk, DiskFault};
use image::layout::piece_size;

/// How many bytes extent `n` of an image has. (`most`: a head, and the largest piece of any geometry.)
fn extent_size(g: &Geometry, n: usize) -> usize
    ensures size { result ≡ extent_size g.now n }
    ensures most { result ≤ IMAGE_HEAD_SIZE + MOST_QUOTA * BLOCK_ENTRY_SIZE }
{
    if n == 0 {
        IMAGE_HEAD_SIZE + piece_size(g, n)
    } else {
        piece_size(g, n)
    }
}

/// Writes the bytes from `from` to `end` of an image (a caller gives a run: adjacent extents) at their place in the image of this area.
/// Until a sync succeeds, a crash may leave any bytes there. `Device` exactly where the device failed.
fn write_run<D: Disk>(
    disk: &mut D,
    g: &Geometry,
    area: usize,
    bytes: &[u8],
    from: usize,
    end: usize,
) -> Result<(), DiskFault>
    requires area { area < 2 }
    requires order { from ≤ end }
    requires inside { end ≤ length bytes.now }
    requires size { length bytes.now ≡ image_size g.now }
    requires long_enough { device_size (layout_of g.now) ≤ length (D.medium disk.old).now }
    ensures any_moment { D.keeps → CrashesChangeOnly (D.medium disk.old) (D.medium disk.new)
        (IsSameBut (layout_of g.now) (image_part area)) }
    ensures written { OnOk result (D.keeps → image_in g.now area (D.medium disk.new)
        ≡ overlaid (image_in g.now area (D.medium disk.old)) from (slice bytes.now from (end - from))) }
    ensures same { D.keeps → IsSameBut (layout_of g.now) (image_part area) (D.medium disk.old).now (D.medium disk.new).now }
    // If half h has k records and is ready for more, it stays so.
    ensures ready { D.keeps → (h k : ℕ) → h < 2 → IsReady (layout_of g.now) h k (D.medium disk.old)
        → IsReady (layout_of g.now) h k (D.medium disk.new) }
    ensures costs { from < end → D.keeps → Costs result 1 (D.medium disk.old) (D.medium disk.new) }
    ensures none { end ≤ from → disk.new ≡ disk.old }
    ensures call { IsCallInside result (D.medium disk.old) (D.medium disk.new) }
{
    if from == end {
        return Ok(());
    }
    write(disk, image_at(g, area) + from as u64, &bytes[from..end])
}

/// Syncs what was written of an image, before it is named: at `Ok` it survives a crash.
pub(crate) fn sync_image<D: Disk>(disk: &mut D) -> Result<(), DiskFault>
    ensures syncs { D.keeps → Syncs result (D.medium disk.old) (D.medium disk.new) }
    ensures costs { D.keeps → Costs result 1 (D.medium disk.old) (D.medium disk.new) }
    ensures call { IsCallInside result (D.medium disk.old) (D.medium disk.new) }
{
    disk.sync()
}

/// Writes the dirty extents of an image, those side by side in one write, and syncs them. All others are on the device
/// already. `Device` exactly where the device failed.
pub(crate) fn write_image<D: Disk>(
    disk: &mut D,
    g: &Geometry,
    area: usize,
    bytes: &[u8],
    dirty: &[bool],
) -> Result<(), DiskFault>
    requires area { area < 2 }
    requires size { length bytes.now ≡ image_size g.now }
    requires dirty { length dirty.now ≡ piece_count g.now }
    requires long_enough { device_size (layout_of g.now) ≤ length (D.medium disk.old).now }
    requires clean { D.keeps → AgreeOnClean g.now dirty.now (image_in g.now area (D.medium disk.old)) bytes.now }
    ensures any_moment { D.keeps → CrashesChangeOnly (D.medium disk.old) (D.medium disk.new)
        (IsSameBut (layout_of g.now) (image_part area)) }
    ensures written { OnOk result (D.keeps → Imaged g.now area bytes.now (D.medium disk.old) (D.medium disk.new)) }
    ensures costs { D.keeps → Costs result (count_runs dirty.now + 1) (D.medium disk.old) (D.medium disk.new) }
    ensures call { IsCallInside result (D.medium disk.old) (D.medium disk.new) }
{
    let mut from = 0;
    let mut at = 0;
    for (n, is_dirty) in dirty.iter().enumerate() {
        let end = at + extent_size(g, n);
        if !*is_dirty {
            write_run(disk, g, area, bytes, from, at)?;
            from = end;
        }
        at = end;
    }
    write_run(disk, g, area, bytes, from, at)?;
    sync_image(disk)
}

/// Writes extent `n` of an image at its place. Until a sync succeeds, a crash may leave any bytes there. `Device` exactly
/// where the device failed.
pub(crate) fn write_extent<D: Disk>(
    disk: &mut D,
    g: &Geometry,
    area: usize,
    bytes: &[u8],
    n: usize,
) -> Result<(), DiskFault>
    requires area { area < 2 }
    requires n { n < piece_count g.now }
    requires size { length bytes.now ≡ image_size g.now }
    requires long_enough { device_size (layout_of g.now) ≤ length (D.medium disk.old).now }
    ensures any_moment { D.keeps → CrashesChangeOnly (D.medium disk.old) (D.medium disk.new)
        (IsSameBut (layout_of g.now) (image_part area)) }
    ensures written { OnOk result (D.keeps → IsPatchedAt g.now n bytes.now
        (image_in g.now area (D.medium disk.old)) (image_in g.now area (D.medium disk.new))) }
    ensures same { D.keeps → IsSameBut (layout_of g.now) (image_part area) (D.medium disk.old).now (D.medium disk.new).now }
    // If half h has k records and is ready for more, it stays so.
    ensures ready { D.keeps → (h k : ℕ) → h < 2 → IsReady (layout_of g.now) h k (D.medium disk.old)
        → IsReady (layout_of g.now) h k (D.medium disk.new) }
    ensures costs { D.keeps → Costs result 1 (D.medium disk.old) (D.medium disk.new) }
    ensures call { IsCallInside result (D.medium disk.old) (D.medium disk.new) }
{
    let mut at = 0;
    for i in 0..n {
        at += extent_size(g, i);
    }
    write_run(disk, g, area, bytes, at, at + extent_size(g, n))
}
