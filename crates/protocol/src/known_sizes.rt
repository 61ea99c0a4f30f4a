//! The sizes of what is in a message, made known to proofs: of a block and of a label.

ghost use Rattle.protocol.specs.Messages.{AreSizedBytes, IsBlock, IsMessage};

use crate::{Block, LABEL_SIZE, Msg};

/// Does nothing: it lets a proof know that a block has `BLOCK_SIZE` bytes.
pub fn know_block(content: &Block)
    ensures { IsBlock content.now }
{
    let bytes = content.0.as_slice();
    let _size = bytes.len();
}

/// Does nothing: it lets a proof know that a label has `LABEL_SIZE` bytes.
pub fn know_label(label: &[u8; LABEL_SIZE])
    ensures { AreSizedBytes LABEL_SIZE label.now }
{
    let bytes = label.as_slice();
    let _size = bytes.len();
}

/// Does nothing: it lets a proof know that what a message carries are bytes, as many as a block or a
/// label has. That follows from the types, but a proof gets it for a `&Msg` only here.
pub fn know_message(m: &Msg)
    ensures { IsMessage m.now }
{
    match m {
        Msg::Write(_, _, _, _, content) => know_block(content),
        Msg::SetLabel(_, _, label) => know_label(label),
        _ => {}
    }
}
