//! A device is opened, and a server on it is asked what it holds.

use crate::Wrong;
use crate::expected_answers::{Questions, reply_lines};
use checkpoint::{OpenFault, open};
use disk::MemDisk;
use std::alloc::Global;

/// What is found on a device that is opened.
#[derive(Debug, Drop, PartialEq, Eq)]
pub enum OpenedDevice {
    /// It is opened, and a server on it answers the questions so.
    Answers(Vec<u8>),
    /// It is refused.
    Refuses(OpenFault),
}

/// Opens a device, and gives what is found on it, and the device.
pub fn open_device(
    alloc: Global,
    device: MemDisk,
    questions: &Questions,
) -> Result<(OpenedDevice, MemDisk), Wrong> {
    match open(alloc, device) {
        Ok((journal, mut tree)) => {
            let device = journal.into_disk();
            let reply_lines = reply_lines(alloc, &mut tree, questions)?;
            Ok((OpenedDevice::Answers(reply_lines), device))
        }
        Err(e) if e.fault == OpenFault::OutOfMemory => Err(Wrong::OutOfMemory),
        Err(e) => Ok((OpenedDevice::Refuses(e.fault), e.disk)),
    }
}
