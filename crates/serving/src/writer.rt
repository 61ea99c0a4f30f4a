//! The whole call of a server that writes its lines to a borrowed writer. Why `Beginning` names the loan: `server`.

ghost use Rattle.std.specs.Prelude.{◌≡◌, ◌≤◌, false, Some};
ghost use Rattle.histories.specs.CoreState.{IsIdle};
ghost use Rattle.scheduler.specs.CoreView.{core_state_of};
ghost use Rattle.serving.specs.Exchange.{exchange};
ghost use Rattle.serving.specs.Serve.{ServePromise, handed_back};
ghost use Rattle.affinity.specs.declared.limits.TheConstants.{MOST_WORKERS};

use crate::output::ReplySink;
use crate::server::{ServeError, serve_to};
use disk::Disk;
use message::{WriteFault, write_in_order};
use scheduler::Core;
use std::alloc::Global;
use std::io::{Read, Write};
use std::marker::{Brand, PhantomData};
use std::snapshot::Snapshot;
use std::sync::Wait;
use std::thread::Threads;
use workers::{Gate, know_returned};

/// What a call that writes its answers to a writer began with (a `Start`: core, places, checkpoints, input, output), and the name by which
/// proofs know its borrow of the writer.
trait Beginning {
    ghost use Rattle.std.specs.Prelude.{Option};
    ghost use Rattle.std.specs.Borrow.{GName};
    ghost use Rattle.serving.specs.Start.{Start};

    /// What it began with; `None` before the call.
    ghost start: { Option Start };

    /// The loan of the writer.
    ghost name: { GName };
}

// For the one call in `serve`, whose proof chooses the start and the loan.
impl Beginning for Brand {
    ghost use Rattle.std.specs.Prelude.{None};

    ghost start = { None };

    ghost name = { 0 };
}

// A writer that is borrowed, to which lines are sent.
struct WriterSink<'w, W, D: Disk, B: Beginning> {
    w: &'w mut W,
    // The core as it was when the last lines were sent, or at the start.
    sent_at: Snapshot<Core<D>>,
    of: PhantomData<B>,
    ghost same: { w.ghost_name ≡ B.name },
}

impl<'w, D: Disk, W: Write, B: Beginning> ReplySink<D> for WriterSink<'w, W, D, B> {
    ghost start = { B.start };

    ghost sent = { λ o. W.contents o.w.now };

    ghost sent_at = { λ o. o.sent_at.value.medium };

    fn send(&mut self, lines: &[u8], core: &Core<D>) -> Result<(), WriteFault> {
        self.sent_at = Snapshot::of(core);
        write_in_order(self.w, lines)
    }
}

// Serves with a borrowed writer as the output, and gives it back.
fn with_writer<
    'w,
    T: Threads + Wait + Sync,
    R: Read,
    W: Write,
    D: Disk + Drop,
    G: Gate + Sync,
    B: Beginning,
>(
    rt: &T,
    alloc: Global,
    core: Core<D>,
    r: &mut R,
    w: &'w mut W,
    workers: usize,
    every: u64,
    gate: &G,
) -> (Result<Core<D>, ServeError<D>>, &'w mut W)
    requires name { w.ghost_name ≡ B.name }
    requires start { B.start
        ≡ Some (record { core = core; places = workers; every = every; input = R.remaining r.old; before = W.contents w.now }) }
    requires idle { IsIdle (core_state_of core) }
    requires works { core.failed ≡ false }
    requires few { workers ≤ MOST_WORKERS }
    ensures same { result.1.ghost_name ≡ w.entry.ghost_name }
    ensures serves { ServePromise D.keeps workers every core (handed_back result.0)
        (exchange (R.remaining r.old) (R.remaining r.new) (W.contents w.entry.now) (W.contents result.1.now)) }
{
    let sink = WriterSink::<W, D, B> {
        w,
        sent_at: Snapshot::of(&core),
        of: PhantomData,
    };
    let (ended, sink) = serve_to(rt, alloc, core, r, sink, workers, every, gate);
    let WriterSink {
        w,
        sent_at: _,
        of: _,
    } = sink;
    (ended, w)
}

/// Reads the lines that a reader still has and writes one line of output for each, while `workers` threads of their own run the messages.
/// At the end of the input the lines that were written are the serial server's, and the core has committed the serial server's state, for
/// every schedule of the workers. A checkpoint is made after each `every` records (0: never by their count), where the log has no room, and
/// at the end of the input. All memory is taken before the first read, and the threads have ended when it returns.
///
/// # Errors
///
/// The core, as it is then, and a fault. `ServeFault::NoWorkers` where there are none, and `ServeFault::OutOfMemory` where there
/// is no memory or a thread can't be started: nothing was read or written. `ServeFault` describes the others.
pub fn serve<T: Threads + Wait + Sync, R: Read, W: Write, D: Disk + Drop, G: Gate + Sync>(
    rt: &T,
    alloc: Global,
    core: Core<D>,
    r: &mut R,
    w: &mut W,
    workers: usize,
    every: u64,
    gate: &G,
) -> Result<Core<D>, ServeError<D>>
    requires idle { IsIdle (core_state_of core) }
    requires works { core.failed ≡ false }
    requires few { workers ≤ MOST_WORKERS }
    ensures { ServePromise D.keeps workers every core (handed_back result)
        (exchange (R.remaining r.old) (R.remaining r.new) (W.contents w.old) (W.contents w.new)) }
{
    let (ended, w) = with_writer::<T, R, W, D, G, Brand>(
        rt, alloc, core, r, w, workers, every, gate,
    );
    know_returned(w);
    ended
}
