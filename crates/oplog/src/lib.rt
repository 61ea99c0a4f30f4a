//! The log of messages on a device: two halves, each with a gate for every record. The records before the first gate
//! that isn't open are the half's front. In force is the front of the named half; if the chain byte of that half is 1, the front of the
//! other half comes after it.
//!
//! `Halves` appends records to the current half. A crash at any moment of an append leaves the front of this half as it was, with a prefix
//! of the new records after it.
//! `laws` state what a crash leaves.
#![tactic(auto)]

mod half;
mod halves;
pub mod laws;
mod staging;

pub use half::RECORDS_PER_WRITE;
pub use halves::{Halves, LogFault, other};
