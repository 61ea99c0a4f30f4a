//! A device over a file that transfers little at a time, over one whose calls are all refused, and over one in memory.
//!
//! A call answers `FINE` (it succeeds), `FAULT` (the device fails) or `OUTSIDE` (out of range).
ghost use Rattle.std.specs.Prelude.{◌≡◌};
ghost use Rattle.disk.specs.BackingFile.{device_result};

use crate::assertions::{assert_equal, assert_text, assert_true};
use crate::disk_calls::{Call, FAULT, FINE, OUTSIDE, answers, assert_answers};
use crate::disk_files::TestFile;
use disk::{BackingFile, Disk, DiskFault, FileBacked, HostFile, MemDisk};
use std::alloc::{AllocError, Global};
use std::fs::{File, Metadata, OpenFile, OpenOptions};
use std::io;
use std::os::unix::fs::FileExt;
use std::sync::atomic::{AtomicU64, Ordering};
use std::test::Fail;

/// A file that transfers at most three bytes at a time. Every other read or write is interrupted, beginning with the first. It counts the
/// calls of `sync_data`.
#[derive(Drop)]
struct Choppy<'a> {
    file: File,
    calls: AtomicU64,
    syncs: &'a AtomicU64,
}

impl<'a> Choppy<'a> {
    fn begin(&self) -> io::Result<()> {
        if self.calls.fetch_add(1, Ordering::Relaxed) % 2 == 0 {
            return Err(io::Error::from(io::ErrorKind::Interrupted));
        }
        Ok(())
    }
}

impl<'a> FileExt for Choppy<'a> {
    fn read_at(&self, buf: &mut [u8], offset: u64) -> io::Result<usize> {
        self.begin()?;
        let n = buf.len().min(3);
        self.file.read_at(&mut buf[..n], offset)
    }

    fn write_at(&self, buf: &[u8], offset: u64) -> io::Result<usize> {
        self.begin()?;
        let n = buf.len().min(3);
        self.file.write_at(&buf[..n], offset)
    }
}

impl<'a> OpenFile for Choppy<'a> {
    fn metadata(&self) -> io::Result<Metadata> {
        self.file.metadata()
    }

    fn set_len(&self, size: u64) -> io::Result<()> {
        self.file.set_len(size)
    }

    fn sync_all(&self) -> io::Result<()> {
        self.file.sync_all()
    }

    fn sync_data(&self) -> io::Result<()> {
        self.syncs.fetch_add(1, Ordering::Relaxed);
        self.file.sync_data()
    }
}

/// A file of which the system refuses each call.
#[derive(Drop)]
struct Refusing;

fn refused() -> io::Error {
    io::Error::from(io::ErrorKind::Other)
}

impl FileExt for Refusing {
    fn read_at(&self, _buf: &mut [u8], _offset: u64) -> io::Result<usize> {
        Err(refused())
    }

    fn write_at(&self, _buf: &[u8], _offset: u64) -> io::Result<usize> {
        Err(refused())
    }
}

impl OpenFile for Refusing {
    fn metadata(&self) -> io::Result<Metadata> {
        Err(refused())
    }

    fn set_len(&self, _size: u64) -> io::Result<()> {
        Err(refused())
    }

    fn sync_all(&self) -> io::Result<()> {
        Err(refused())
    }

    fn sync_data(&self) -> io::Result<()> {
        Err(refused())
    }
}

/// A file over a device (`FileBacked` is the reverse): it has the device's bytes, and a call of it fails where that of the device does.
#[derive(Drop)]
struct DeviceFile<D: Disk + Drop> {
    disk: D,
}

/// What a file answers where a device answers this.
fn answer(of_device: Result<(), DiskFault>) -> io::Result<()>
    ensures { device_result result ≡ device_result of_device }
{
    of_device.map_err(|_| refused())
}

impl<D: Disk + Drop> BackingFile for DeviceFile<D> {
    ghost medium = { λ f. D.Disk.medium f.disk };

    ghost keeps = { D.Disk.keeps };

    fn len(&self) -> u64 {
        self.disk.len()
    }

    fn read_exact_at(&mut self, out: &mut [u8], at: u64) -> io::Result<()> {
        answer(self.disk.read_at(at, out))
    }

    fn write_all_at(&mut self, bytes: &[u8], at: u64) -> io::Result<()> {
        answer(self.disk.write_at(at, bytes))
    }

    fn sync_data(&mut self) -> io::Result<()> {
        answer(self.disk.sync())
    }

    ghost fits = { λ f. D.Disk.fits f.disk };

    ghost bytes = { λ f. D.Disk.bytes f.disk };
}

/// Calls of a device of twelve bytes.
const CALLS: [Call; 7] = [
    Call::Write(1, b"abcdefgh"),
    Call::Sync,
    Call::Read(0, 12),
    Call::Write(5, b"12345678"),
    Call::Write(11, b"z"),
    Call::Read(11, 1),
    Call::Sync,
];

const ANSWERS: [Result<(), DiskFault>; 7] = [FINE, FINE, FINE, OUTSIDE, FINE, FINE, FINE];

/// A call may transfer less than was asked, and may be interrupted.
#[test]
fn what_a_file_transfers_in_parts_is_whole(rt: HostRuntime) -> Result<(), Fail> {
    let test_file = TestFile::new(&rt, "parts")?;
    test_file.write(&rt, b"000000000000")?;
    let file = OpenOptions::new()
        .read(true)
        .write(true)
        .open(&rt, test_file.path())?;
    let syncs = AtomicU64::new(0);
    let calls = AtomicU64::new(0);
    let file = Choppy {
        file,
        calls,
        syncs: &syncs,
    };
    // The file counts as synced, and as 12 bytes long: `opened_synced` makes no call of it.
    let mut disk = FileBacked::new(HostFile::opened_synced(file, 12));
    assert_answers(&rt, rt.alloc(), &mut disk, &CALLS, &ANSWERS)?;
    assert_text(&rt, &test_file.read(&rt)?, b"0abcdefgh00z");
    let mut whole = [0; 12];
    disk.read_at(0, &mut whole)?;
    assert_text(&rt, &whole, b"0abcdefgh00z");
    assert_equal(&rt, syncs.load(Ordering::Relaxed), 2);
    drop(disk);
    test_file.remove(&rt)
}

#[test]
fn a_call_that_is_refused_is_a_fault(rt: HostRuntime) -> Result<(), Fail> {
    let mut disk = FileBacked::new(HostFile::opened_synced(Refusing, 12));
    let wanted = [FAULT, FAULT, FAULT, OUTSIDE, FAULT, FAULT, FAULT];
    Ok(assert_answers(&rt, rt.alloc(), &mut disk, &CALLS, &wanted)?)
}

/// A device over a file in memory answers each call as the device in memory itself does, also where one call fails.
#[test]
fn a_file_in_memory_answers_as_a_device(rt: HostRuntime) -> Result<(), Fail> {
    for n in 0..7_u64 {
        let mut wanted = failing(rt.alloc(), n)?;
        let wanted = answers(rt.alloc(), &mut wanted, &CALLS)?;
        let disk = failing(rt.alloc(), n)?;
        let mut file = FileBacked::new(DeviceFile { disk });
        assert_answers(&rt, rt.alloc(), &mut file, &CALLS, wanted.as_slice())?;
        // A fault shows in the answers.
        assert_true(&rt, n == 0 || wanted.as_slice() != ANSWERS.as_slice());
    }
    Ok(())
}

/// A device in memory of twelve zeros, of which call n fails, where n is not 0.
fn failing(alloc: Global, n: u64) -> Result<MemDisk, AllocError> {
    let mut disk = MemDisk::new(alloc, 12)?;
    if n > 0 {
        disk.fail_at(n);
    }
    Ok(disk)
}
