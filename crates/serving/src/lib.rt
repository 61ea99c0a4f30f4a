//! Serving lines: what a server that runs many messages at once has written when it ends, and that it is what the serial
//! server writes.
//!
//! `serve_to` is the whole call, with its memory and its threads, for any sink of lines (`server`); `serve` is the same for a writer
//! (`writer`). The definitions are in `specs/`, and the laws that they obey are the contracts of the functions of `laws`, which do nothing.
//! `session` has what a server holds while it serves, and what is always true of it. `event_loop` has the loop from line to line with its
//! ends, and `turns` one turn of it. In each, `input` reads lines, and `iteration` works them off: `dispatch` hands messages to the
//! workers, `collect` takes their results back, `answering` logs and answers what ran, `output` sends the lines of the reorder buffer that
//! are next in order, under the condition of `ReplySink`, and `checkpoints` makes checkpoints.
#![tactic(auto)]

mod answering;
mod checkpoints;
mod collect;
mod dispatch;
mod event_loop;
mod input;
mod iteration;
pub mod laws;
mod output;
mod server;
mod session;
mod turns;
mod writer;

pub use output::ReplySink;
pub use server::{ServeError, ServeFault, serve_to};
pub use writer::serve;
