//! A session: the core, the dispatcher's seat, the lines that were read, and the answers that wait, with the input of the call and its
//! sink. Its invariant: from the start of the call a legal run has led to its present state.

ghost use Rattle.std.specs.Prelude.{◌≡◌, MatchResult, OnOk, Ok};
ghost use Rattle.serving.specs.Kill.{IsKillSafe};

use crate::checkpoints::CheckpointTrigger;
use crate::output::ReplySink;
use disk::Disk;
use message::{LineReader, ReplyBuffer};
use reorder_buffer::ReorderBuffer;
use scheduler::Core;
use std::io::Read;
use std::marker::Model;
use std::sync::Wait;
use workers::{Bench, DispatchSeat, Gate};

/// Why a session reads no more.
#[derive(Clone, Copy)]
pub(crate) enum ReadEnd {
    /// The input has ended.
    EndOfInput,
    /// The input could not be read.
    ReadFailed,
    /// A message found no ticket.
    TicketsExhausted,
    /// The device has failed.
    DeviceFailed,
}

/// What a part of the loop has done.
#[derive(Clone, Copy)]
pub(crate) enum Activity {
    /// It did something, or more can be done without waiting.
    Busy,
    /// It did nothing. Where all parts of the loop are idle, the loop may wait for input.
    Idle,
}

/// The session must end before it has answered all that it has read: the device or the output has failed, as its fields show.
#[derive(Clone, Copy)]
pub(crate) struct Halted;

/// The result of a call of the core, with `Halted` for any error. It is used where an error means that the device has failed.
pub(crate) fn or_halt<T, E: Copy>(answer: Result<T, E>) -> Result<T, Halted>
    ensures { MatchResult answer (λ x. result ≡ Ok x) (λ _. OnOk result ⊥) }
{
    match answer {
        Ok(made) => Ok(made),
        Err(_) => Err(Halted),
    }
}

/// What a session is given beside its bench: a runtime, through which it waits, and the `Gate` (hooks for tests) whose hook is called for
/// each answered message.
pub(crate) trait GatedRuntime: Wait {
    /// The message of this ticket was just answered.
    fn answered(&self, ticket: u64);
}

impl<'g, T: Wait, G: Gate> GatedRuntime for (&'g T, &'g G) {
    fn answered(&self, ticket: u64) {
        self.1.answered(ticket);
    }
}

/// What a server has while it serves.
pub(crate) struct Session<'c, R: Read, D: Disk, L: ReplySink<D>> {
    /// The core.
    pub(crate) core: Core<D>,
    /// The dispatcher's seat at the bench.
    pub(crate) dispatch_seat: DispatchSeat,
    /// The lines that were read and not retired yet.
    pub(crate) reorder_buffer: ReorderBuffer,
    /// The answers that wait to be sent.
    pub(crate) reply_buffer: ReplyBuffer,
    /// When checkpoints are due.
    pub(crate) trigger: CheckpointTrigger,
    /// The input.
    pub(crate) line_reader: LineReader<R>,
    /// Why no more of the input is read; `None` while reading goes on.
    pub(crate) read_end: Option<ReadEnd>,
    /// How many lines are outstanding: read, and not answered in the output. They are in the reorder buffer, or their answers wait in the
    /// reply buffer.
    pub(crate) outstanding: usize,
    /// Where it sends the lines.
    pub(crate) sink: L,
    /// Whether the sink has failed. Nothing more is sent then.
    pub(crate) output_failed: bool,
    /// The bench where jobs are offered to the workers.
    pub(crate) bench: &'c Bench,
}

impl<'c, R: Read, D: Disk, L: ReplySink<D>> Model for Session<'c, R, D, L> {
    ghost use Rattle.serving.specs.Session.{SessionView};

    ghost Value = { SessionView };

    ghost use Rattle.serving.specs.View.{IsSession, session_view};

    ghost view = { session_view R.remaining L.sent L.sent_at };

    ghost invariant = { IsSession R.remaining L.sent L.sent_at D.keeps L.start };
}

impl<'c, R: Read, D: Disk, L: ReplySink<D>> Session<'c, R, D, L> {
    /// Does nothing: its contract states that a kill, at any moment since the last `send` began, has lost nothing of what was sent. Each
    /// call that may wait has that as its condition (`send`, `read_next`, `wait_for_worker`), and so has each iteration of the loop
    /// (`read_more`).
    pub(crate) fn know_kill_safe(&self)
        ensures { IsKillSafe D.keeps L.start self.now.sent self.now.sent_at self.now.core }
    {
        self.core.know_recovery();
    }
}
