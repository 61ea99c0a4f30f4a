//! The reorder buffer: what is known of each line that was read and not retired yet, in the order in which they were read. A line is
//! retired when it leaves with its answer, which is then to be sent.
#![tactic(auto)]

mod reorder_buffer;

pub use reorder_buffer::{Line, ReorderBuffer};
