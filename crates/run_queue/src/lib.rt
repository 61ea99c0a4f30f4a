//! The run queue: which of the waiting messages may go, while others are held.
//!
//! Waiting messages are in a queue for each affinity, held ones in a table by the number of their affinity. Only the first one of a
//! queue may go, and a ready entry for each affinity shows whether that one is conflict-free: no message at a related affinity is held,
//! or is older and waits. `next` looks at the least rank (ticket of a ready message) of each chunk of eight entries, at most 45
//! chunks, and into few of them: what it costs grows neither with the slots nor with how many wait. `arrive` and `dispatch` correct one
//! entry, and `free` those of the affinities related to the freed one: five for a stripe. `holder` costs the same however many messages
//! are held.

#![tactic(auto)]

mod candidates;
mod conflicts;
mod holders;
mod messages;
mod queued_message;
mod ready_table;
mod run_queue;
mod waiting;

pub use queued_message::QueuedMessage;
pub use run_queue::RunQueue;
