//! What `inspect` reports of a device.

use crate::Wrong;
use checkpoint::{OpenFault, inspect};
use disk::MemDisk;
use message::Reply;
use std::alloc::Global;

/// Asserts that this is reported of a device: the named area, whose image has version 2, how many records are in force, and how many
/// volumes, files and blocks there are. Gives the device; `Reported` where something else is, `Unfit` where the device is refused.
pub fn assert_shown(
    alloc: Global,
    device: MemDisk,
    area: usize,
    records: usize,
    summary: [u32; 3],
) -> Result<MemDisk, Wrong> {
    let (shown, device) = match inspect(alloc, device) {
        Ok(shown) => shown,
        Err(e) if e.fault == OpenFault::OutOfMemory => return Err(Wrong::OutOfMemory),
        Err(_) => return Err(Wrong::Unfit),
    };
    let [volumes, files, blocks] = summary;
    let summary = Reply::Summary {
        volumes,
        files,
        blocks,
    };
    let is_named = shown.area == area && shown.version == 2;
    if is_named && shown.records == records && shown.summary == summary {
        Ok(device)
    } else {
        Err(Wrong::Reported(shown))
    }
}
