//! A fixed array of slots with linked lists (chains) through them. All memory is allocated at the start.
#![tactic(auto)]

mod arena;
mod links;

pub use arena::Arena;
