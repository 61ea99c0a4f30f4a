//! The program's arguments: which ones it takes, and what they ask for.
//!
//! Nothing here knows what a command does: the numbers that the arguments give are handed on as they are.
#![tactic(auto)]

mod command_line;

pub use command_line::{ArgumentRefusal, Request, ServiceNumbers, read_arguments};
