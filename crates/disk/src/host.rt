//! Trusted: a file of the system.
ghost use Rattle.std.specs.Prelude.{◌≡◌, ◌<◌, ◌^◌, length, replicate};
ghost use Rattle.disk.specs.CrashImages.{AreBytes};
ghost use Rattle.disk.specs.Device.{fresh_synced, fresh_unsynced};

use crate::backing::BackingFile;
use crate::ghost_device::{Call, GhostDevice};
use std::fs::OpenFile;
use std::io;
use std::os::unix::fs::FileExt;

/// An open file of the system.
#[derive(Drop)]
pub struct HostFile<T: FileExt + OpenFile + Drop> {
    file: T,
    size: u64,
    ghost_device: GhostDevice,
    ghost size_is: { length ghost_device.medium.now ≡ size },
    ghost fits: { length ghost_device.medium.now < 2 ^ 64 },
    ghost are_bytes: { AreBytes ghost_device.medium.now },
}

impl<T: FileExt + OpenFile + Drop> HostFile<T> {
    /// A file of this length, which is synced. Contracts see zeros for its bytes, whatever it holds. That does no harm: each clause on the
    /// bytes that a read gives has the condition `FileKeeps`, which is false.
    pub fn opened_synced(file: T, size: u64) -> HostFile<T>
        ensures { result.ghost_device.medium ≡ fresh_synced (replicate size 0) }
    {
        let mut ghost_device = GhostDevice::new();
        ghost_device.note(&Call::OpenedSynced(size), &[]);
        HostFile {
            file,
            size,
            ghost_device,
        }
    }

    /// A file of this length, of which nothing counts as synced.
    pub fn opened_unsynced(file: T, size: u64) -> HostFile<T>
        ensures { result.ghost_device.medium ≡ fresh_unsynced (replicate size 0) }
    {
        let mut ghost_device = GhostDevice::new();
        ghost_device.note(&Call::OpenedUnsynced(size), &[]);
        HostFile {
            file,
            size,
            ghost_device,
        }
    }
}

/// Each method but `len` makes one call of the library. It notes what the call did: a write, a sync or a failure (a read that succeeds
/// changes nothing). No contract states that it makes the call that it notes, and gives the answer that it got: these three methods are
/// trusted.
impl<T: FileExt + OpenFile + Drop> BackingFile for HostFile<T> {
    ghost use Rattle.disk.specs.RealFile.{FileKeeps};

    ghost medium = { λ f. f.ghost_device.medium };

    ghost keeps = { FileKeeps };

    fn len(&self) -> u64 {
        self.size
    }

    fn read_exact_at(&mut self, out: &mut [u8], at: u64) -> io::Result<()> {
        let answer = self.file.read_exact_at(out, at);
        if answer.is_err() {
            self.ghost_device.note(&Call::Failed, &[]);
        }
        answer
    }

    fn write_all_at(&mut self, bytes: &[u8], at: u64) -> io::Result<()> {
        let answer = self.file.write_all_at(bytes, at);
        if answer.is_err() {
            self.ghost_device.note(&Call::FailedWrite(at), bytes);
        } else {
            self.ghost_device.note(&Call::Wrote(at), bytes);
        }
        answer
    }

    fn sync_data(&mut self) -> io::Result<()> {
        let answer = self.file.sync_data();
        if answer.is_err() {
            self.ghost_device.note(&Call::Failed, &[]);
        } else {
            self.ghost_device.note(&Call::Synced, &[]);
        }
        answer
    }

    ghost fits = { λ f. f.fits };

    ghost bytes = { λ f. f.are_bytes };
}
