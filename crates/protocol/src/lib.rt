//! The protocol of the server: messages and replies as values, and which line spells which.
//!
//! The definitions are in `specs`. No code runs here but what gives the kind of a message and its numbers, and which
//! files a volume has.
#![tactic(auto)]

mod known_sizes;
mod messages;
mod replies;
mod sizes;

pub use known_sizes::{know_block, know_label, know_message};
pub use messages::{Block, Msg};
pub use replies::{Refusal, Reply, has_file};
pub use sizes::{
    BLOCK_SIZE, LABEL_SIZE, LONGEST_LINE, LONGEST_REPLY, LONGEST_TEXT, RECORD_HEAD_SIZE,
    RECORD_SIZE,
};
