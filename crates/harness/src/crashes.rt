//! The kinds of crash that tests try.
ghost use Rattle.std.specs.Prelude.{IfOk};
ghost use Rattle.disk.specs.CrashImages.{HasPattern};

use disk::Torn;
use std::alloc::{AllocError, Global};

/// How many kinds of crash `torn` knows.
pub const KINDS: usize = 7;

/// The number of `Torn::Old`: a crash that leaves at each unsynced offset the byte of the last sync.
pub const OLD: usize = 3;

/// The number of `Torn::New`: a crash that leaves at each unsynced offset the byte last asked to be written there, even by a failed write.
pub const NEW: usize = 4;

/// The number of a `Torn::Mixed`: a crash that leaves the bytes 1, 77, 1 over and over at the unsynced offsets, from the lowest upward.
pub const MIXED: usize = 5;

/// One of the kinds of crash, by its number below `KINDS`. At each unsynced offset kind 0 leaves another byte than kind 1 (`Torn::Fill`
/// leaves its byte at each of them): where both leave the same device, nothing is unsynced, and every kind leaves that device. `HasPattern`
/// says that a `Torn::Mixed` has a byte at least.
pub fn torn(alloc: Global, kind: usize) -> Result<Torn, AllocError>
    ensures { IfOk result HasPattern }
{
    Ok(match kind {
        0 => Torn::Fill(0),
        1 => Torn::Fill(77),
        2 => Torn::Fill(1),
        3 => Torn::Old,
        4 => Torn::New,
        5 => Torn::Mixed(vec![in alloc; 1, 77, 1]?),
        _ => Torn::Mixed(vec![in alloc; 0, 1]?),
    })
}
