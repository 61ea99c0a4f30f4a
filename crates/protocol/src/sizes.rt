//! The sizes of what messages, replies and records are made of, in bytes.

/// The size of a block, in bytes.
pub const BLOCK_SIZE: usize = 512;

/// The size of a label, in bytes.
pub const LABEL_SIZE: usize = 32;

/// The size of what a message's record begins with: its kind, its numbers and zeros.
pub const RECORD_HEAD_SIZE: usize = 8;

/// The size of a message's record in a log: its head, and room for a block.
pub const RECORD_SIZE: usize = RECORD_HEAD_SIZE + BLOCK_SIZE;

/// How many bytes a line of the input may have, its newline not counted. A longer one is no message.
pub const LONGEST_LINE: usize = 1100;

/// How many bytes the longest text of a reply has: `block `, and two digits for each byte of a block.
pub const LONGEST_TEXT: usize = 6 + 2 * BLOCK_SIZE;

/// How many bytes the longest line of a reply has: its text and a newline.
pub const LONGEST_REPLY: usize = LONGEST_TEXT + 1;
