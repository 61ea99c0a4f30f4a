//! The durable part of a server: what was carried out is logged on a device, and checkpoints keep the log short. A crash at any moment
//! leaves a device that recovers to what was logged, with a prefix of what was being logged.
#![tactic(auto)]

mod checkpoint_steps;
mod dirty;
mod extents;
mod journal;
mod opening;
mod snapshot;

pub use device_map::device_len;
pub use journal::Journal;
pub use opening::open;
pub use recovery::{FormatError, FormatFault, OpenError, OpenFault, Shown, format, inspect};
