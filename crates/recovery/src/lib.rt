//! What a device recovers to, how one is made, and what one holds. (Checkpoints are made in `checkpoint`.)
//!
//! A device holds the state of its named image with the records in force run on it: `specs/Recovery.antt` defines that
//! state by its bytes, and `specs/Refusals.antt` which devices are refused and why. `format` makes a device that recovers to the
//! empty state, and a crash at any moment of it leaves the old device, one that isn't formatted, or the new one.
//! `inspect` reports what a device holds, or why it is refused, and only reads it.
#![tactic(auto)]

mod device_reads;
mod fault;
mod formatting;
mod header_and_root;
mod image_reading;
mod inspecting;
pub mod laws;
pub mod loading;
mod replaying;

pub use device_map::device_len;
pub use fault::{FormatError, FormatFault, OpenError, OpenFault};
pub use formatting::format;
pub use inspecting::{Shown, inspect};
