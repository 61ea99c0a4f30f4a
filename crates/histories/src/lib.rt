//! Which message may be granted (dispatched) and when: the core states of a server, the events that lead from one to the
//! next, legal runs of them, and what a crash may leave of one.
//!
//! The definitions are in `specs/`. The laws that they obey are the contracts of the functions of `laws`, which do
//! nothing.
#![tactic(auto)]

pub mod laws;
mod outcomes;

pub use outcomes::{ArriveRefusal, CoreFault, Outcome, PointRefusal, Step};
