//! Trusted: the descriptors of the three standard streams.
use std::fs::File;
use std::io;
use std::rt::Files;

/// What can be opened on each system, and neither read nor written: the root folder.
const UNREADABLE: &str = "/";

/// Occupies the descriptors of those standard streams that are closed, for as long as the result is kept: a file gets the lowest free
/// descriptor, so without this the text for a closed stream could be written into the device. The result holds three descriptors, whichever
/// streams are closed. A read or a write of a stream that was closed fails, as it would without this. Where nothing can be opened, nothing
/// is occupied.
pub fn reserve_standard_descriptors<R: Files>(rt: &R) -> [io::Result<R::File>; 3] {
    [
        File::open(rt, UNREADABLE),
        File::open(rt, UNREADABLE),
        File::open(rt, UNREADABLE),
    ]
}
