//! The serial server: one message after the other, as `meaning` defines it.
#![tactic(auto)]

mod answering;
mod fault;
mod over_streams;
mod server;

pub use fault::PlainFault;
pub use meaning::laws;
pub use over_streams::{serve_from, serve_plain};
