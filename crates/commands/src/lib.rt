//! Does what the command-line arguments ask for: serves, makes a device or shows one. Prints faults, and gives their exit statuses.
//!
//! Only `program` and `reports` know the arguments: a command takes what it works on as values.
#![tactic(auto)]

mod faults;
mod format;
mod laws;
mod lines;
mod program;
mod reports;
mod serial;
mod serve;
mod serve_options;
mod show;

pub use faults::Fault;
pub use format::format_device;
pub use program::command;
pub use reports::{WRONG_ARGUMENTS, report, report_unreadable_arguments};
pub use serial::answer_input;
pub use serve::{serve_device, serve_on};
pub use serve_options::ServeOptions;
pub use show::show_device;
