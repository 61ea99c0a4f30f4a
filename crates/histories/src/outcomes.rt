//! The steps of a machine, their outcomes, and why one is refused.

use protocol::{Msg, Reply};

/// What a machine (the model of a server: a core with hands) is to do. Hands are named by their number, from 0 on.
#[derive(Clone, Copy, Debug, PartialEq, Eq)]
pub enum Step {
    /// A message arrives.
    Arrive(Msg),
    /// The eligible message with the least ticket goes to the first empty hand.
    Grant,
    /// The job in this hand runs.
    Run(usize),
    /// The result in this hand is given back.
    Back(usize),
    /// This many of the messages that ran are logged, or all if fewer did.
    Log(usize),
    /// The message that was logged first is answered.
    Answer,
    /// A checkpoint is made in one call.
    Point,
    /// An online checkpoint begins.
    Cut,
    /// A piece of the online checkpoint in progress is written.
    Piece,
    /// The online checkpoint in progress ends.
    Flip,
}

/// What came of a step.
#[derive(Clone, Copy, Debug, PartialEq, Eq)]
pub enum Outcome {
    /// The message that arrived has this ticket.
    Ticket(u64),
    /// The message may not arrive.
    ArriveRefused(ArriveRefusal),
    /// This hand has the job of the message with this ticket.
    Granted(usize, u64),
    /// No message is eligible, and none lacks only room in the log.
    NoneEligible,
    /// No message is eligible, and some message lacks only room in the log.
    NoRoom,
    /// Nothing is granted, since the device has failed.
    Failed,
    /// The job ran.
    Ran,
    /// The message with this ticket was given back.
    Back(u64),
    /// This many messages were logged.
    Logged(usize),
    /// No message was logged, for this reason of the core's (not an `oplog::LogFault`).
    LogFault(CoreFault),
    /// The message with this ticket has this reply, and is held no more.
    Answered(u64, Reply),
    /// A checkpoint was made in one call.
    Pointed,
    /// An online checkpoint has begun.
    Cut,
    /// This many pieces are left to write.
    Left(usize),
    /// The online checkpoint has ended.
    Flipped,
    /// The step of a checkpoint may not be made, or failed.
    PointRefused(PointRefusal),
    /// There was nothing to do, and nothing changed.
    Idle,
}

/// Why a message may not arrive.
#[derive(Clone, Copy, Debug, PartialEq, Eq)]
pub enum ArriveRefusal {
    /// No slot is free.
    Full,
    /// A number of the message is out of range.
    Range,
    /// There is no ticket left.
    Exhausted,
    /// The device has failed.
    Failed,
}

/// Why no message was logged.
#[derive(Clone, Copy, Debug, PartialEq, Eq)]
pub enum CoreFault {
    /// The device failed during the call.
    Device,
    /// The device has failed before.
    Failed,
}

/// Why a step of a checkpoint was not made: of a point, a cut, a piece or a flip.
#[derive(Clone, Copy, Debug, PartialEq, Eq)]
pub enum PointRefusal {
    /// Some message is held.
    Held,
    /// The device failed during the call.
    Device,
    /// The device has failed before.
    Failed,
    /// An online checkpoint is in progress already.
    Running,
    /// No online checkpoint is in progress.
    NotRunning,
    /// Pieces are left to write.
    Unfinished,
}
