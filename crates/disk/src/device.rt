//! The contract of a device of bytes, on which durable code rests.
ghost use Rattle.std.specs.Prelude.{◌≡◌, ◌+◌, ◌<◌, ◌^◌, ◌↔◌, length, IsErrOf};
ghost use Rattle.disk.specs.declared.fault.DiskFault.TheVariants.{OutOfRange};
ghost use Rattle.disk.specs.Device.{Medium, Reads, Writes, Syncs, IsDeviceCall, IsCallInside};
ghost use Rattle.disk.specs.CrashImages.{AreBytes};

use crate::DiskFault;

/// An array of bytes, whose length no call changes, and which a crash may tear.
pub trait Disk {
    /// The device as contracts see it: what a read gives, what a crash may leave now, what it might have left at
    /// each earlier moment, and how often the device has failed.
    ghost medium: { Self → Medium };

    /// Whether the device keeps its bytes as `Reads`, `Writes` and `Syncs` say. Nothing is known of the bytes of
    /// one that does not.
    ghost keeps: { Type 0 };

    /// The number of bytes, which no call changes.
    fn len(&self) -> u64
        ensures { result ≡ length (medium self.now).now };

    /// Reads the bytes from `at` on. After `Device` the bytes of `out` are unspecified.
    fn read_at(&mut self, at: u64, out: &mut [u8]) -> Result<(), DiskFault>
        ensures outside { IsErrOf result OutOfRange ↔ length (medium self.old).now < at + length out.old }
        ensures untouched { IsErrOf result OutOfRange → self.new ≡ self.old }
        ensures unread { IsErrOf result OutOfRange → out.new ≡ out.old }
        ensures call { IsDeviceCall result (medium self.old) (medium self.new) }
        ensures reads { keeps → Reads at out.new result (medium self.old) (medium self.new) };

    /// Writes over the bytes from `at` on. Until a sync succeeds, a crash may leave any bytes there, also after
    /// `Device`.
    fn write_at(&mut self, at: u64, bytes: &[u8]) -> Result<(), DiskFault>
        ensures outside { IsErrOf result OutOfRange ↔ length (medium self.old).now < at + length bytes.now }
        ensures untouched { IsErrOf result OutOfRange → self.new ≡ self.old }
        ensures call { IsDeviceCall result (medium self.old) (medium self.new) }
        ensures writes { keeps → Writes at bytes.now result (medium self.old) (medium self.new) };

    /// Makes what was written durable. At `Ok` a crash leaves what a read gives. After `Device` what was not synced
    /// still is not.
    fn sync(&mut self) -> Result<(), DiskFault>
        ensures call { IsCallInside result (medium self.old) (medium self.new) }
        ensures syncs { keeps → Syncs result (medium self.old) (medium self.new) };

    /// The length is a `u64`.
    ghost fits: { (d : Self) → length (medium d).now < 2 ^ 64 };

    /// Each byte is below 256.
    ghost bytes: { (d : Self) → AreBytes (medium d).now };
}
