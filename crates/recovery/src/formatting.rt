//! How a device is made.
//!
//! Its format byte (the first byte, which is 1 on a formatted device) is cleared first and set last, each with a sync of its own before and
//! after it. So a crash leaves what a crash just before the call could leave, or a device that isn't formatted, or the whole new one.
ghost use Rattle.std.specs.Prelude.{◌≡◌, ◌≢◌, ◌⊎◌, ◌↔◌, ◌+◌, ◌-◌, ◌<◌, ◌≤◌, Some, length, replicate, OnOk, IfOk, IfErr, MatchResult, IsFalse, IsTrue};
ghost use Rattle.affinity.specs.declared.geometry.Geometry.{Geometry};
ghost use Rattle.recovery.specs.Formatting.{FormatCrashImages, IsAllButHeader, HasNoFormatByte, StaysUnformatted};
ghost use Rattle.recovery.specs.Recovery.{recovered_state};
ghost use Rattle.recovery.specs.Version.{named_version};
ghost use Rattle.disk.specs.Device.{IsCallInside, IsSynced, SameOutside, overlaid};
ghost use Rattle.disk.specs.CrashImages.{IsCrashImage, CrashImagesAre, CrashesChangeOnly};
ghost use Rattle.oplog.specs.Beyond.{KeepsBeyond};
ghost use Rattle.device_map.specs.Layout.{Layout, device_size, layout_of};
ghost use Rattle.device_map.specs.declared.layout.TheConstants.{HEADER_SIZE};
ghost use Rattle.image.specs.declared.layout.TheConstants.{VERSION};
ghost use Rattle.meaning.specs.State.{empty};

use crate::header_and_root::{FORMATTED, header_of};
use crate::{FormatError, FormatFault};
use affinity::Geometry;
use device_map::{
    CHAIN_ZONE_SIZE, ROOT_ZONE_AT, ROOT_ZONE_SIZE, device_len, half_at, image_at, image_size,
};
use disk::writes::{store, write};
use disk::{Disk, DiskFault};
use image::layout::VERSION;
use std::alloc::{AllocError, Global};

/// How many zeros are written at a time, at most.
const ZEROS_AT_A_TIME: usize = 65536;

/// Some zeros. `AllocError` where there is no memory.
fn zeros(alloc: Global, count: usize) -> Result<Vec<u8>, AllocError>
    requires { 0 < count }
    ensures zeros { IfOk result (λ z. z.items ≡ replicate (length z.items) 0) }
    ensures some { IfOk result (λ z. 0 < length z.items) }
{
    vec![in alloc; 0u8; count]
}

/// Writes `count` zeros from the byte `at` on, as many at a time as there are in `zeros`.
fn write_zeros<D: Disk>(disk: &mut D, zeros: &[u8], at: u64, count: usize) -> Result<(), DiskFault>
    requires zeros { zeros.now ≡ replicate (length zeros.now) 0 }
    requires some { 0 < length zeros.now }
    requires inside { at + count ≤ length (D.medium disk.old).now }
    ensures any_moment { D.keeps → CrashesChangeOnly (D.medium disk.old) (D.medium disk.new) (SameOutside at count) }
    ensures written { OnOk result (D.keeps → (D.medium disk.new).now ≡ overlaid (D.medium disk.old).now at (replicate count 0)) }
    ensures call { IsCallInside result (D.medium disk.old) (D.medium disk.new) }
{
    let mut done = 0;
    'zeros: while done < count {
        let size = zeros.len().min(count - done);
        write(disk, at + done as u64, &zeros[..size])?;
        done += size;
    }
    Ok(())
}

/// Whether this is the first byte of a formatted device.
fn is_formatted(first_byte: u8) -> bool
    ensures formatted { IsTrue result → first_byte ≡ 1 }
    ensures unformatted { IsFalse result → first_byte ≢ 1 }
{
    first_byte == FORMATTED
}

/// Clears the format byte where it is 1. Any other first byte stays, since a torn write to it might
/// make it 1.
fn clear_format_byte<D: Disk>(disk: &mut D) -> Result<(), DiskFault>
    requires { 0 < length (D.medium disk.old).now }
    ensures any_moment { D.keeps → CrashImagesAre (D.medium disk.old) (D.medium disk.new)
        (λ c. IsCrashImage (D.medium disk.old) c ⊎ HasNoFormatByte (length (D.medium disk.old).now) c) }
    ensures unformatted { OnOk result (D.keeps → StaysUnformatted (length (D.medium disk.old).now) (D.medium disk.new)) }
    ensures beyond { D.keeps → (l : Layout) → KeepsBeyond l (D.medium disk.old) (D.medium disk.new) }
    ensures call { IsCallInside result (D.medium disk.old) (D.medium disk.new) }
{
    disk.sync()?;
    let mut first_byte = [0u8];
    disk.read_at(0, &mut first_byte)?;
    if !is_formatted(first_byte[0]) {
        return Ok(());
    }
    store(disk, 0, &[0])
}

/// Writes what an empty device needs besides its header (`IsAllButHeader`), and syncs.
fn lay_out<D: Disk>(disk: &mut D, zeros: &[u8], g: &Geometry) -> Result<(), DiskFault>
    requires zeros { zeros.now ≡ replicate (length zeros.now) 0 }
    requires some { 0 < length zeros.now }
    requires long_enough { device_size (layout_of g.now) ≤ length (D.medium disk.old).now }
    ensures any_moment { D.keeps → CrashesChangeOnly (D.medium disk.old) (D.medium disk.new)
        (SameOutside HEADER_SIZE (device_size (layout_of g.now) - HEADER_SIZE)) }
    ensures laid { OnOk result (D.keeps → IsAllButHeader g.now (D.medium disk.new).now) }
    ensures synced { OnOk result (D.keeps → IsSynced (D.medium disk.new)) }
    ensures call { IsCallInside result (D.medium disk.old) (D.medium disk.new) }
{
    let chain_and_gates = CHAIN_ZONE_SIZE + usize::from(g.half);
    write_zeros(disk, zeros, ROOT_ZONE_AT, ROOT_ZONE_SIZE + chain_and_gates)?;
    write_zeros(disk, zeros, half_at(g, 1), chain_and_gates)?;
    write_zeros(disk, zeros, image_at(g, 0), image_size(g))?;
    store(disk, image_at(g, 0), &[VERSION])
}

/// Writes the header of a device that has all else, the format byte last.
fn write_header<D: Disk>(disk: &mut D, g: &Geometry) -> Result<(), DiskFault>
    requires long_enough { device_size (layout_of g.now) ≤ length (D.medium disk.old).now }
    requires unformatted { D.keeps → StaysUnformatted (length (D.medium disk.old).now) (D.medium disk.old) }
    requires laid { D.keeps → IsAllButHeader g.now (D.medium disk.old).now }
    ensures any_moment { D.keeps → CrashImagesAre (D.medium disk.old) (D.medium disk.new)
        (λ c. HasNoFormatByte (length (D.medium disk.old).now) c ⊎ (recovered_state g.now c ≡ Some empty)) }
    ensures recovers { OnOk result (D.keeps → recovered_state g.now (D.medium disk.new).now ≡ Some empty) }
    ensures version { OnOk result (D.keeps → named_version g.now (D.medium disk.new).now ≡ VERSION) }
    ensures beyond { D.keeps → KeepsBeyond (layout_of g.now) (D.medium disk.old) (D.medium disk.new) }
    ensures synced { OnOk result (D.keeps → IsSynced (D.medium disk.new)) }
    ensures call { IsCallInside result (D.medium disk.old) (D.medium disk.new) }
{
    let header = header_of(g);
    store(disk, 1, &header[1..])?;
    store(disk, 0, &[FORMATTED])
}

/// Formats a device, which has to be long enough.
fn format_on<D: Disk>(disk: &mut D, zeros: &[u8], g: &Geometry) -> Result<(), DiskFault>
    requires zeros { zeros.now ≡ replicate (length zeros.now) 0 }
    requires some { 0 < length zeros.now }
    requires long_enough { device_size (layout_of g.now) ≤ length (D.medium disk.old).now }
    ensures any_moment { D.keeps → CrashImagesAre (D.medium disk.old) (D.medium disk.new)
        (FormatCrashImages g.now (D.medium disk.old)) }
    ensures recovers { OnOk result (D.keeps → recovered_state g.now (D.medium disk.new).now ≡ Some empty) }
    ensures version { OnOk result (D.keeps → named_version g.now (D.medium disk.new).now ≡ VERSION) }
    ensures beyond { D.keeps → KeepsBeyond (layout_of g.now) (D.medium disk.old) (D.medium disk.new) }
    ensures synced { OnOk result (D.keeps → IsSynced (D.medium disk.new)) }
    ensures call { IsCallInside result (D.medium disk.old) (D.medium disk.new) }
{
    clear_format_byte(disk)?;
    lay_out(disk, zeros, g)?;
    write_header(disk, g)
}

/// Makes a device of this geometry that recovers to the empty state, and hands it back with nothing
/// unsynced. A crash at any moment of the call leaves what one just before it could leave, or a device
/// that isn't formatted, or the new device.
///
/// `TooShort` exactly where the device is shorter than `device_len`, and `OutOfMemory` where there is
/// no memory: then no call of the device was made. `Device` exactly where the device failed.
pub fn format<D: Disk>(alloc: Global, d: D, g: Geometry) -> Result<D, FormatError<D>>
    ensures recovers { IfOk result (λ r. D.keeps → recovered_state g (D.medium r).now ≡ Some empty) }
    ensures version { IfOk result (λ r. D.keeps → named_version g (D.medium r).now ≡ VERSION) }

    // The bytes of the device after its last part stay, even after a crash.
    ensures beyond { D.keeps → MatchResult result
        (λ r. KeepsBeyond (layout_of g) (D.medium d) (D.medium r))
        (λ e. KeepsBeyond (layout_of g) (D.medium d) (D.medium e.disk)) }
    ensures synced { IfOk result (λ r. D.keeps → IsSynced (D.medium r)) }
    ensures any_moment { D.keeps → MatchResult result
        (λ r. CrashImagesAre (D.medium d) (D.medium r) (FormatCrashImages g (D.medium d)))
        (λ e. CrashImagesAre (D.medium d) (D.medium e.disk) (FormatCrashImages g (D.medium d))) }
    ensures long { IfOk result (λ r. device_size (layout_of g) ≤ length (D.medium d).now) }
    ensures short { IfErr result (λ e. e.fault ≡ FormatFault.TooShort
        ↔ length (D.medium d).now < device_size (layout_of g)) }
    ensures untouched { IfErr result (λ e. (e.fault ≡ FormatFault.Device → ⊥) → e.disk ≡ d) }
    ensures device { IfErr result (λ e. e.fault ≡ FormatFault.Device
        ↔ (D.medium e.disk).faults ≡ (D.medium d).faults + 1) }
    ensures no_fault { IfOk result (λ r. (D.medium r).faults ≡ (D.medium d).faults) }
    ensures len { MatchResult result
        (λ r. length (D.medium r).now ≡ length (D.medium d).now)
        (λ e. length (D.medium e.disk).now ≡ length (D.medium d).now) }
{
    let mut disk = d;
    if disk.len() < device_len(&g) {
        return Err(FormatError {
            disk,
            fault: FormatFault::TooShort,
        });
    }
    let Ok(zeros) = zeros(alloc, ZEROS_AT_A_TIME) else {
        return Err(FormatError {
            disk,
            fault: FormatFault::OutOfMemory,
        });
    };
    match format_on(&mut disk, &zeros, &g) {
        Ok(()) => Ok(disk),
        Err(_) => Err(FormatError {
            disk,
            fault: FormatFault::Device,
        }),
    }
}
