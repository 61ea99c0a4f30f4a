//! One message that waits or is held.
use affinity::Affinity;

/// A message that waits, or that is held since it was dispatched.
#[derive(Clone, Copy, Debug, PartialEq, Eq)]
pub struct QueuedMessage {
    /// The core's slot, in which the message is kept.
    pub slot: usize,

    /// Where the message belongs.
    pub affinity: Affinity,

    /// Whether it may change what the server holds, so that it needs room in the log.
    pub changing: bool,

    /// Its number in the order of arrival.
    pub ticket: u64,
}
