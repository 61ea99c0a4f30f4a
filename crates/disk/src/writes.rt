//! Writes over a range of a device, with a sync or without. `CrashesChangeOnly` says what a crash at any moment of the call leaves,
//! `TouchesOnly` which bytes and unsynced flags differ after it.
ghost use Rattle.std.specs.Prelude.{◌≡◌, ◌+◌, ◌≤◌, length, OnOk};
ghost use Rattle.disk.specs.Device.{SameOutside, IsCallInside, overlaid};
ghost use Rattle.disk.specs.Device.{Costs};
ghost use Rattle.disk.specs.CrashImages.{CrashesChangeOnly};
ghost use Rattle.disk.specs.Store.{Stored, TouchesOnly};

use crate::{Disk, DiskFault};

/// Writes these bytes from the byte `at` on. Until a sync succeeds, a crash may leave any bytes there.
/// Returns `Device` exactly if the device failed; then what a read gives there is unspecified.
pub fn write<D: Disk>(disk: &mut D, at: u64, bytes: &[u8]) -> Result<(), DiskFault>
    requires { at + length bytes.now ≤ length (D.medium disk.old).now }
    ensures any_moment { D.keeps → CrashesChangeOnly (D.medium disk.old) (D.medium disk.new) (SameOutside at (length bytes.now)) }
    ensures touched { D.keeps → TouchesOnly at (length bytes.now) (D.medium disk.old) (D.medium disk.new) }
    ensures costs { D.keeps → Costs result 1 (D.medium disk.old) (D.medium disk.new) }
    ensures written { OnOk result (D.keeps → (D.medium disk.new).now ≡ overlaid (D.medium disk.old).now at bytes.now) }
    ensures call { IsCallInside result (D.medium disk.old) (D.medium disk.new) }
{
    disk.write_at(at, bytes)
}

/// Writes these bytes from the byte `at` on, and syncs: then nothing on the device is unsynced. Returns
/// `Device` exactly if the device failed; then what a read gives there is unspecified.
pub fn store<D: Disk>(disk: &mut D, at: u64, bytes: &[u8]) -> Result<(), DiskFault>
    requires { at + length bytes.now ≤ length (D.medium disk.old).now }
    ensures any_moment { D.keeps → CrashesChangeOnly (D.medium disk.old) (D.medium disk.new) (SameOutside at (length bytes.now)) }
    ensures stored { OnOk result (D.keeps → Stored at bytes.now (D.medium disk.old) (D.medium disk.new)) }
    ensures costs { D.keeps → Costs result 2 (D.medium disk.old) (D.medium disk.new) }
    ensures call { IsCallInside result (D.medium disk.old) (D.medium disk.new) }
{
    write(disk, at, bytes)?;
    disk.sync()
}
