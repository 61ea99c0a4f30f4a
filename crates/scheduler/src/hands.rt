//! The hands of a machine, each of them empty, with a job or with its result.

use parcel::{Done, Job};

/// What a hand has.
#[derive(Drop)]
pub enum HandContent {
    Empty,
    Job(Job),
    Result(Done),
}
