//! A device over a file.
ghost use Rattle.std.specs.Prelude.{◌≡◌};
ghost use Rattle.disk.specs.BackingFile.{device_result};

use crate::backing::BackingFile;
use crate::ranges::check_range;
use crate::{Disk, DiskFault};
use std::io;

/// A device that is a file. It keeps its bytes if the file does.
#[derive(Drop)]
pub struct FileBacked<F: BackingFile + Drop> {
    pub(crate) file: F,
}

impl<F: BackingFile + Drop> FileBacked<F> {
    /// A device over this file, with its present bytes.
    pub fn new(file: F) -> FileBacked<F>
        ensures { F.BackingFile.medium result.file ≡ F.BackingFile.medium file }
    {
        FileBacked { file }
    }
}

/// The device's result for this result of its file.
fn device_result(answer: io::Result<()>) -> Result<(), DiskFault>
    ensures { result ≡ device_result answer }
{
    answer.map_err(|_| DiskFault::Device)
}

impl<F: BackingFile + Drop> Disk for FileBacked<F> {
    ghost medium = { λ d. F.BackingFile.medium d.file };

    ghost keeps = { F.BackingFile.keeps };

    fn len(&self) -> u64 {
        self.file.len()
    }

    fn read_at(&mut self, at: u64, out: &mut [u8]) -> Result<(), DiskFault> {
        check_range(self.len(), at, out.len())?;
        device_result(self.file.read_exact_at(out, at))
    }

    fn write_at(&mut self, at: u64, bytes: &[u8]) -> Result<(), DiskFault> {
        check_range(self.len(), at, bytes.len())?;
        device_result(self.file.write_all_at(bytes, at))
    }

    fn sync(&mut self) -> Result<(), DiskFault> {
        device_result(self.file.sync_data())
    }

    // The file's length is a u64.
    ghost fits = { λ d. F.BackingFile.fits d.file };

    // Each of its bytes is below 256.
    ghost bytes = { λ d. F.BackingFile.bytes d.file };
}
