//! What a device over a file asks of the file.
ghost use Rattle.std.specs.Prelude.{◌≡◌, ◌+◌, ◌<◌, ◌≤◌, ◌^◌, length};
ghost use Rattle.disk.specs.Device.{Medium, Reads, Writes, Syncs, IsDeviceCall};
ghost use Rattle.disk.specs.CrashImages.{AreBytes};
ghost use Rattle.disk.specs.BackingFile.{device_result};

use std::io;

/// A file of a fixed length with three calls: a read and a write at an offset, and a sync. `medium` shows what the calls that have returned
/// did. What each does is stated by the definitions of the contract of `Disk`: `Reads`, `Writes` and `Syncs`.
pub trait BackingFile {
    /// The file as a device has it: its bytes, which of them are unsynced, its earlier moments, and how often it has failed.
    ghost medium: { Self → Medium };

    /// Whether the file keeps its bytes.
    ghost keeps: { Type 0 };

    /// How many bytes it has. The length never changes.
    fn len(&self) -> u64
        ensures { result ≡ length (medium self.now).now };

    /// Reads all of `out`, from `at` on.
    fn read_exact_at(&mut self, out: &mut [u8], at: u64) -> io::Result<()>
        requires { at + length out.old ≤ length (medium self.old).now }
        ensures call { IsDeviceCall (device_result result) (medium self.old) (medium self.new) }
        ensures reads { keeps → Reads at out.new (device_result result) (medium self.old) (medium self.new) };

    /// Writes all of `bytes`, from `at` on.
    fn write_all_at(&mut self, bytes: &[u8], at: u64) -> io::Result<()>
        requires { at + length bytes.now ≤ length (medium self.old).now }
        ensures call { IsDeviceCall (device_result result) (medium self.old) (medium self.new) }
        ensures writes { keeps → Writes at bytes.now (device_result result) (medium self.old) (medium self.new) };

    /// Syncs what was written so far.
    fn sync_data(&mut self) -> io::Result<()>
        ensures call { IsDeviceCall (device_result result) (medium self.old) (medium self.new) }
        ensures syncs { keeps → Syncs (device_result result) (medium self.old) (medium self.new) };

    /// The length is a u64.
    ghost fits: { (f : Self) → length (medium f).now < 2 ^ 64 };

    /// Each byte is below 256.
    ghost bytes: { (f : Self) → AreBytes (medium f).now };
}
