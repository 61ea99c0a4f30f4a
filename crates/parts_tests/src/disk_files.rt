//! Files of the system as devices.
//!
//! A call answers `FINE` (it succeeds), `FAULT` (the device fails) or `OUTSIDE` (out of range).
use crate::assertions::{assert_equal, assert_text, assert_true};
use crate::disk_calls::{Call, FAULT, FINE, OUTSIDE, assert_answers};
use disk::{Disk, DiskFault, FileDisk, FileFault};
use std::fs::{self, OpenOptions, Permissions};
use std::os::unix::fs::PermissionsExt;
use std::process::{self, Abort};
use std::test::Fail;

/// A new, empty folder, and the path of a file in it.
#[derive(Drop)]
pub(crate) struct TestFile {
    folder: String,
    path: String,
}

impl TestFile {
    pub(crate) fn new(rt: &HostRuntime, name: &str) -> Result<TestFile, Fail> {
        let id = process::id(rt.process());
        let folder = format!(in rt.alloc(); "/tmp/parts_tests_{name}_{id}")?;
        if fs::exists(rt, folder.as_str())? {
            fs::remove_dir_all(rt, folder.as_str())?;
        }
        fs::create_dir(rt, folder.as_str())?;
        let path = format!(in rt.alloc(); "{folder}/device")?;
        Ok(TestFile { folder, path })
    }

    /// Puts these bytes into the file.
    pub(crate) fn write(&self, rt: &HostRuntime, bytes: &[u8]) -> Result<(), Fail> {
        Ok(fs::write(rt, self.path.as_str(), bytes)?)
    }

    pub(crate) fn path(&self) -> &str {
        self.path.as_str()
    }

    fn create(&self, rt: &HostRuntime, len: u64) -> Result<FileDisk, FileFault> {
        FileDisk::create(rt, self.path.as_str(), len)
    }

    fn open(&self, rt: &HostRuntime) -> Result<FileDisk, FileFault> {
        FileDisk::open(rt, self.path.as_str())
    }

    fn open_read_only(&self, rt: &HostRuntime) -> Result<FileDisk, FileFault> {
        FileDisk::open_read_only(rt, self.path.as_str())
    }

    /// The bytes of the file.
    pub(crate) fn read(&self, rt: &HostRuntime) -> Result<Vec<u8>, Fail> {
        Ok(fs::read(rt, self.path.as_str())?)
    }

    pub(crate) fn remove(self, rt: &HostRuntime) -> Result<(), Fail> {
        Ok(fs::remove_dir_all(rt, self.folder.as_str())?)
    }
}

/// Whether the system lets this process open the file for writing.
fn may_write(rt: &HostRuntime, path: &str) -> bool {
    OpenOptions::new()
        .read(true)
        .write(true)
        .open(rt, path)
        .is_ok()
}

/// Asserts that the file was not created or opened, with `Device` as the reason.
fn assert_fault(rt: &impl Abort, made: Result<FileDisk, FileFault>) {
    assert_equal(rt, made.err(), Some(FileFault::Device));
}

/// Calls of a device of twelve bytes.
const CALLS: [Call; 8] = [
    Call::Write(3, b"abc"),
    Call::Write(11, b"z"),
    Call::Sync,
    Call::Read(0, 12),
    Call::Read(11, 2),
    Call::Write(u64::MAX, b"ab"),
    Call::Write(13, b""),
    Call::Write(12, b""),
];

const ANSWERS: [Result<(), DiskFault>; 8] = [
    FINE, FINE, FINE, FINE, OUTSIDE, OUTSIDE, OUTSIDE, FINE,
];

#[test]
fn a_file_holds_what_was_written(rt: HostRuntime) -> Result<(), Fail> {
    let test_file = TestFile::new(&rt, "written")?;
    test_file.write(&rt, b"something else that was there")?;
    let mut disk = test_file.create(&rt, 12)?;
    assert_answers(&rt, rt.alloc(), &mut disk, &CALLS, &ANSWERS)?;
    assert_text(&rt, &test_file.read(&rt)?, b"\0\0\0abc\0\0\0\0\0z");
    drop(disk);

    let mut disk = test_file.open(&rt)?;
    assert_equal(&rt, disk.len(), 12);
    let mut part = [0; 5];
    disk.read_at(2, &mut part)?;
    assert_text(&rt, &part, b"\0abc\0");
    drop(disk);
    test_file.remove(&rt)
}

/// Reads of a device of eight bytes whose file has six.
const SHORT_READS: [Call; 4] = [
    Call::Read(4, 4),
    Call::Read(2, 4),
    Call::Read(7, 1),
    Call::Read(7, 2),
];

#[test]
fn a_file_that_ends_early_is_a_fault(rt: HostRuntime) -> Result<(), Fail> {
    let test_file = TestFile::new(&rt, "short")?;
    let mut disk = test_file.create(&rt, 8)?;
    test_file.write(&rt, b"\0\0\0\0\0\0")?;
    let wanted = [FAULT, FINE, FAULT, OUTSIDE];
    assert_answers(&rt, rt.alloc(), &mut disk, &SHORT_READS, &wanted)?;
    assert_equal(&rt, disk.len(), 8);
    drop(disk);
    test_file.remove(&rt)
}

#[test]
fn what_the_system_refuses_is_a_fault(rt: HostRuntime) -> Result<(), Fail> {
    let test_file = TestFile::new(&rt, "refused")?;
    let below = format!(in rt.alloc(); "{}/missing/device", test_file.folder)?;
    // There is no such file, nor such a folder, and neither a folder nor `/dev/null` is a regular file.
    assert_fault(&rt, test_file.open(&rt));
    assert_fault(&rt, FileDisk::open(&rt, below.as_str()));
    assert_fault(&rt, FileDisk::open(&rt, test_file.folder.as_str()));
    assert_fault(&rt, test_file.open_read_only(&rt));
    assert_fault(&rt, FileDisk::open_read_only(&rt, below.as_str()));
    assert_fault(
        &rt,
        FileDisk::open_read_only(&rt, test_file.folder.as_str()),
    );
    assert_fault(&rt, FileDisk::open_read_only(&rt, "/dev/null"));
    assert_fault(&rt, FileDisk::create(&rt, below.as_str(), 4));
    assert_fault(&rt, FileDisk::create(&rt, test_file.folder.as_str(), 4));
    // No file is that long.
    assert_fault(&rt, test_file.create(&rt, u64::MAX));
    test_file.remove(&rt)
}

/// Writes that reach past the end of a device of four bytes.
const OUTSIDE_WRITES: [Call; 4] = [
    Call::Write(3, b"xy"),
    Call::Write(4, b"x"),
    Call::Write(0, b"longer"),
    Call::Write(9, b"x"),
];

/// Each write reaches past the end: it is refused, and the file keeps its bytes and its length.
#[test]
fn a_write_out_of_range_changes_nothing(rt: HostRuntime) -> Result<(), Fail> {
    let test_file = TestFile::new(&rt, "outside")?;
    test_file.write(&rt, b"kept")?;
    let mut disk = test_file.open(&rt)?;
    assert_answers(&rt, rt.alloc(), &mut disk, &OUTSIDE_WRITES, &[OUTSIDE; 4])?;
    assert_text(&rt, &test_file.read(&rt)?, b"kept");
    drop(disk);
    test_file.remove(&rt)
}

/// The system opens this file and refuses to sync it.
#[test]
fn a_file_that_cannot_be_synced_is_a_fault(rt: HostRuntime) {
    let path = "/dev/null";
    assert_true(&rt, may_write(&rt, path));
    assert_fault(&rt, FileDisk::open(&rt, path));
}

/// Calls of a device that was opened for reading alone.
const READ_ONLY_CALLS: [Call; 4] = [
    Call::Read(0, 4),
    Call::Write(1, b"x"),
    Call::Read(3, 1),
    Call::Write(3, b"xy"),
];

/// Root, whom no permission keeps from writing, can't write either.
#[test]
fn a_file_opened_for_reading_takes_no_write(rt: HostRuntime) -> Result<(), Fail> {
    let test_file = TestFile::new(&rt, "for_reading")?;
    test_file.write(&rt, b"kept")?;
    fs::set_permissions(&rt, test_file.path.as_str(), Permissions::from_mode(0o444))?;
    let mut disk = test_file.open_read_only(&rt)?;
    assert_equal(&rt, disk.len(), 4);
    let wanted = [FINE, FAULT, FINE, OUTSIDE];
    assert_answers(&rt, rt.alloc(), &mut disk, &READ_ONLY_CALLS, &wanted)?;
    let mut part = [0; 3];
    disk.read_at(1, &mut part)?;
    assert_text(&rt, &part, b"ept");
    assert_text(&rt, &test_file.read(&rt)?, b"kept");
    drop(disk);
    test_file.remove(&rt)
}

/// A regular file (`/dev/null` is none) that the system refuses to write and to sync. Opening it for reading succeeds, so that doesn't
/// sync.
#[test]
fn a_file_opened_for_reading_is_not_synced(rt: HostRuntime) {
    let path = "/proc/version";
    assert_fault(&rt, FileDisk::open(&rt, path));
    assert_true(&rt, FileDisk::open_read_only(&rt, path).is_ok());
}

#[test]
fn a_read_only_file_is_a_fault(rt: HostRuntime) -> Result<(), Fail> {
    let test_file = TestFile::new(&rt, "read_only")?;
    test_file.write(&rt, b"kept")?;
    fs::set_permissions(&rt, test_file.path.as_str(), Permissions::from_mode(0o444))?;
    // Root may write such a file.
    let wanted = if may_write(&rt, test_file.path.as_str()) {
        None
    } else {
        Some(FileFault::Device)
    };
    assert_equal(&rt, test_file.open(&rt).err(), wanted);
    test_file.remove(&rt)
}
