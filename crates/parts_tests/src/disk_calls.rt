//! Calls of a device, and what it answers to them.
use disk::{Disk, DiskFault};
use std::alloc::{AllocError, Global};
use std::process::Abort;

#[derive(Drop)]
pub(crate) enum Call {
    /// Reads this many bytes from this offset on.
    Read(u64, usize),
    /// Writes these bytes from this offset on.
    Write(u64, &'static [u8]),
    Sync,
}

pub(crate) const FINE: Result<(), DiskFault> = Ok(());

pub(crate) const OUTSIDE: Result<(), DiskFault> = Err(DiskFault::OutOfRange);

pub(crate) const FAULT: Result<(), DiskFault> = Err(DiskFault::Device);

/// Makes these calls, and gives what each answered.
pub(crate) fn answers<D: Disk>(
    alloc: Global,
    disk: &mut D,
    calls: &[Call],
) -> Result<Vec<Result<(), DiskFault>>, AllocError> {
    let mut answers = Vec::new(alloc);
    for call in calls {
        let answer = match call {
            Call::Read(at, n) => disk.read_at(*at, &mut vec![in alloc; 0; *n]?),
            Call::Write(at, bytes) => disk.write_at(*at, bytes),
            Call::Sync => disk.sync(),
        };
        answers.push(answer)?;
    }
    Ok(answers)
}

/// Makes these calls, and asserts that they are answered so.
pub(crate) fn assert_answers<D: Disk>(
    rt: &impl Abort,
    alloc: Global,
    disk: &mut D,
    calls: &[Call],
    wanted: &[Result<(), DiskFault>],
) -> Result<(), AllocError> {
    let got = answers(alloc, disk, calls)?;
    assert_eq!(rt; got.as_slice(), wanted);
    Ok(())
}
