//! The bench: threads meet nowhere else. A job is offered at a place, some worker runs it, and its result
//! is collected there.
#![tactic(auto)]

mod atomic_steps;
mod bench;
mod dispatcher_task;
mod event_counts;
mod gate;
mod job_cell;
mod seats;
mod words;
mod work;

pub use bench::Bench;
// `know_returned` is for proofs alone: it ends a `&mut` borrow, and has nothing to do with jobs.
pub use dispatcher_task::{DispatcherTask, know_returned};
pub use gate::{Gate, OpenGate};
pub use seats::{DispatchSeat, WorkSeat};
pub use words::MOST_PLACES;
