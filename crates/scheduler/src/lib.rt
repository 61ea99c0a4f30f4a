//! The core of a server: messages arrive, are dispatched as jobs so that no two related ones are in progress at
//! once, come back with their results, are logged on a device and answered.
//!
//! What each call does is stated over the core states and events of `histories`. For the crates above, `specs` also says what a machine is,
//! which is a core with hands for the jobs in flight, and what the runs of one on a device are; their laws are in `laws`.
#![tactic(auto)]

mod arrive_line;
mod core_memory;
mod granted;
mod hands;
mod history;
pub mod laws;
mod log_batch;
mod server_core;

pub use checkpoint::{OpenError, OpenFault};
pub use granted::Granted;
pub use hands::HandContent;
pub use histories::{ArriveRefusal, CoreFault, Outcome, PointRefusal, Step};
pub use parcel::Job;
pub use protocol::Reply;
pub use server_core::Core;
