//! Trusted: a file of the system as a device.
ghost use Rattle.std.specs.Prelude.{◌≡◌, IfOk, replicate};
ghost use Rattle.std.specs.IoError.{error_kind};
ghost use Rattle.disk.specs.Device.{fresh_synced, fresh_unsynced};
ghost use Rattle.disk.specs.RealFile.{file_medium};

use crate::FileFault;
use crate::backed::FileBacked;
use crate::host::HostFile;
use std::fs::{File, OpenOptions};
use std::io;
use std::path::Path;
use std::rt::Files;

impl From<io::Error> for FileFault {
    ghost use Rattle.disk.specs.RealFile.{fault_of};

    ghost from_gives = { λ e fault. fault ≡ fault_of (error_kind e) };

    fn from(error: io::Error) -> FileFault {
        match error.kind() {
            io::ErrorKind::OutOfMemory => FileFault::OutOfMemory,
            _ => FileFault::Device,
        }
    }
}

/// Syncs the folder of this file, so that a crash leaves the file's name. One that may not be read can't be synced, and is passed over.
fn sync_folder<R: Files<File = File>>(rt: &R, path: &str) -> io::Result<()> {
    let folder = match Path::new(path).parent() {
        Some(parent) if !parent.as_os_str().is_empty() => parent.as_os_str(),
        _ => ".",
    };
    match File::open(rt, folder) {
        Err(error) if error.kind() == io::ErrorKind::PermissionDenied => Ok(()),
        opened => opened?.sync_all(),
    }
}

/// Opens a regular file that is there, and nothing else: the system also opens a folder to be read, may wait where it opens a pipe, and
/// gives 0 as the length of a block device.
fn open_existing<R: Files<File = File>>(
    rt: &R,
    path: &str,
    for_writes: bool,
) -> Result<File, FileFault> {
    if !rt.metadata(path)?.is_file() {
        return Err(FileFault::Device);
    }
    Ok(
        OpenOptions::new()
            .read(true)
            .write(for_writes)
            .open(rt, path)?,
    )
}

/// A file as a device. No contract states that it keeps its bytes. If it does, a read gives what was written, and what was
/// synced is there after a crash.
pub type FileDisk = FileBacked<HostFile<File>>;

impl FileBacked<HostFile<File>> {
    /// Makes the file anew, of `len` zeros, replacing one that is there, and syncs it and its folder. `OutOfMemory` where the
    /// system has no memory for it, and `Device` where it refuses for anything else.
    pub fn create<R: Files<File = File>>(
        rt: &R,
        path: &str,
        len: u64,
    ) -> Result<FileDisk, FileFault>
        ensures { IfOk result (λ d. file_medium d ≡ fresh_synced (replicate len 0)) }
    {
        let file = OpenOptions::new()
            .read(true)
            .write(true)
            .create(true)
            .truncate(true)
            .open(rt, path)?;
        file.set_len(len)?;
        file.sync_all()?;
        sync_folder(rt, path)?;
        Ok(FileBacked::new(HostFile::opened_synced(file, len)))
    }

    /// Opens an existing file, at the length that it has, and syncs it first, so that all its bytes count as synced. `OutOfMemory` where
    /// the system has no memory for it, and `Device` where it refuses for anything else, or the path names something other than a file.
    pub fn open<R: Files<File = File>>(rt: &R, path: &str) -> Result<FileDisk, FileFault>
        ensures { IfOk result (λ d. file_medium d ≡ fresh_synced (file_medium d).now) }
    {
        let file = open_existing(rt, path, true)?;
        file.sync_data()?;
        let size = file.metadata()?.len();
        Ok(FileBacked::new(HostFile::opened_synced(file, size)))
    }

    /// Opens an existing file read-only, at the length that it has. It is not synced, so none of its bytes counts as
    /// synced. Each write of it answers `Device`, as the system refuses it. `OutOfMemory` where the system has no memory for it, and
    /// `Device` where it refuses for anything else, or the path names something other than a file.
    pub fn open_read_only<R: Files<File = File>>(rt: &R, path: &str) -> Result<FileDisk, FileFault>
        ensures { IfOk result (λ d. file_medium d ≡ fresh_unsynced (file_medium d).now) }
    {
        let file = open_existing(rt, path, false)?;
        let size = file.metadata()?.len();
        Ok(FileBacked::new(HostFile::opened_unsynced(file, size)))
    }
}
