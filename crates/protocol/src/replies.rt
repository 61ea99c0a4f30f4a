//! Replies and refusals, as values; and which files a volume has.

ghost use Rattle.std.specs.Prelude.{◌≡◌};
ghost use Rattle.protocol.specs.Replies.{has_file};

use crate::{Block, LABEL_SIZE};
use affinity::limits::MOST_FILES;

/// Why a message was refused.
#[derive(Clone, Copy, Debug, PartialEq, Eq)]
pub enum Refusal {
    /// One of the message's numbers is not below its limit.
    Range,
    /// Its volume is not there.
    Volume,
    /// What the message makes is there already.
    Exists,
    /// Its volume is sealed.
    Sealed,
    /// Its file is not there.
    File,
    /// The stripe of its block is full.
    Space,
}

/// The reply to a message.
#[derive(Clone, Copy, Debug, PartialEq, Eq)]
pub enum Reply {
    /// The message was carried out.
    Done,
    /// The block is not there.
    Hole,
    /// The block.
    Block(Block),
    /// The files of the volume: file `f` is bit `f` of the number.
    Files(u64),
    /// How much the volume holds, and whether it is sealed.
    Usage {
        files: u32,
        blocks: u32,
        sealed: bool,
    },
    /// How much all volumes hold, and how many they are.
    Summary {
        volumes: u32,
        files: u32,
        blocks: u32,
    },
    /// The message was refused, and changed nothing.
    Refused(Refusal),
    /// The label of the volume.
    Label([u8; LABEL_SIZE]),
}

/// Whether a file is one of those that a number encodes: file f by bit f.
pub fn has_file(files: u64, file: u16) -> bool
    ensures { result ≡ has_file files file }
{
    file < MOST_FILES && (files >> file) & 1 == 1
}
