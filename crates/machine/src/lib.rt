//! A machine: the core of a server with a row of hands for the jobs in flight. It is given a list of steps, carries them out one after the
//! other, and gives each its outcome.
//!
//! The steps and their outcomes are those of `histories`. What any list of them does is stated over the definitions of `scheduler`,
//! whose `laws` state what follows for a device over many incarnations.
#![tactic(auto)]

mod hands;
mod machine;
mod stepping;

pub use machine::{Machine, MachineError};
pub use scheduler::laws;
