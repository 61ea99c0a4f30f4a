//! Reads and writes the lines of the protocol: messages as input lines, replies as output lines, and records.
#![tactic(auto)]

mod decoding;
mod heads;
mod lent_reader;
mod line_reader;
mod parsing;
mod printing;
mod records;
mod reply_buffer;
mod writing;

pub use heads::{Head, decode_block, decode_label, head_of_line, parse_line};
pub use protocol::{Block, LONGEST_LINE, LONGEST_REPLY, Msg, Refusal, Reply};
// A reader that is lent to a `LineReader`; its type parameter, a `Loan`, says which one it is.
pub use lent_reader::{LentReader, Loan};
pub use line_reader::{Found, LineReader, ReadFault};
pub use printing::{no_message_line, write_reply};
pub use records::{decode, encode};
pub use reply_buffer::{REPLY_BUFFER_SIZE, ReplyBuffer};
pub use writing::{WriteFault, write_in_order};
