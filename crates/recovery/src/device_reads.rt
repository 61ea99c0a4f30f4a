//! Reads of a device: any range, a chain byte, and the head of an image.
ghost use Rattle.std.specs.Prelude.{◌≡◌, ◌+◌, ◌<◌, ◌≤◌, ◌==◌, not, true, None, length, IfErr, IfOk, OnOk};
ghost use Rattle.recovery.specs.declared.fault.OpenFault.TheVariants.{BadVersion, Device};
ghost use Rattle.recovery.specs.OpeningCalls.{IsReadingCall};
ghost use Rattle.recovery.specs.OpenFaults.{IsConsistentFault};
ghost use Rattle.recovery.specs.Refusals.{fault_if};
ghost use Rattle.image.specs.Image.{has_head, is_version, version_in};
ghost use Rattle.oplog.specs.HalfContent.{chain};
ghost use Rattle.device_map.specs.Layout.{device_size, image_part, layout_of, part_bytes, slice};

use crate::OpenFault;
use affinity::Geometry;
use device_map::{IMAGE_HEAD_SIZE, half_at, image_at};
use disk::Disk;
use image::layout::{FIRST_VERSION, VERSION, head_of};

/// Fills `out` with bytes of the device, from `at` on.
pub(crate) fn read_bytes<D: Disk>(disk: &mut D, at: u64, out: &mut [u8]) -> Result<(), OpenFault>
    requires { at + length out.old ≤ length (D.medium disk.old).now }
    ensures bytes { OnOk result (D.keeps → out.new ≡ slice (D.medium disk.old).now at (length out.old)) }
    ensures device { IfErr result (λ e. e ≡ Device) }
    ensures call { IsReadingCall D.keeps result (D.medium disk.old) (D.medium disk.new) }
{
    disk.read_at(at, out).map_err(|_| OpenFault::Device)
}

/// Whether the chain byte of this half is 1.
pub(crate) fn is_chained<D: Disk>(
    disk: &mut D,
    g: &Geometry,
    half: usize,
) -> Result<bool, OpenFault>
    requires half { half < 2 }
    requires long_enough { device_size (layout_of g.now) ≤ length (D.medium disk.old).now }
    ensures chained { IfOk result (λ b. D.keeps → b ≡ (chain (layout_of g.now) half (D.medium disk.old).now == 1)) }
    ensures device { IfErr result (λ e. e ≡ Device) }
    ensures call { IsReadingCall D.keeps result (D.medium disk.old) (D.medium disk.new) }
{
    let mut byte = [0u8];
    read_bytes(disk, half_at(g, half), &mut byte)?;
    Ok(byte[0] == 1)
}

fn is_version(version: u8) -> bool
    ensures { result ≡ is_version version }
{
    version == FIRST_VERSION || version == VERSION
}

/// Whether these bytes are the head of an image: a version that can be read, and then zeros.
fn has_head(head: &[u8; IMAGE_HEAD_SIZE]) -> bool
    ensures { result ≡ has_head head.now }
{
    let version = head[0];
    if !is_version(version) {
        return false;
    }
    head[..] == head_of(version)[..]
}

/// The version of this image. `BadVersion` exactly where it doesn't begin with a version and zeros; any other error is `Device`, which is
/// consistent with any bytes (`IsConsistentFault`).
pub(crate) fn version_of<D: Disk>(
    disk: &mut D,
    g: &Geometry,
    number: usize,
) -> Result<u8, OpenFault>
    requires number { number < 2 }
    requires long_enough { device_size (layout_of g.now) ≤ length (D.medium disk.old).now }
    ensures version { IfOk result (λ v. D.keeps →
        v ≡ version_in (part_bytes (layout_of g.now) (image_part number) (D.medium disk.old).now)) }
    ensures known { IfOk result (λ v. is_version v ≡ true) }
    ensures head { OnOk result (D.keeps → has_head (part_bytes (layout_of g.now) (image_part number) (D.medium disk.old).now) ≡ true) }
    ensures refused { IfErr result (λ e. D.keeps → IsConsistentFault (fault_if (not (has_head
        (part_bytes (layout_of g.now) (image_part number) (D.medium disk.old).now))) BadVersion None) e) }
    ensures call { IsReadingCall D.keeps result (D.medium disk.old) (D.medium disk.new) }
{
    let mut head = [0u8; IMAGE_HEAD_SIZE];
    read_bytes(disk, image_at(g, number), &mut head)?;
    if !has_head(&head) {
        return Err(OpenFault::BadVersion);
    }
    Ok(head[0])
}
