//! The whole call of a server: its memory, its workers and its end.
//!
//! The reader and the writer are borrowed, and whoever lent them is to know what is left of the one and what the other holds. A call that
//! is given a struct with such a borrow could put another reader or writer into it. So the type of the struct has a parameter (`N: Loan`,
//! `B: Beginning`) that names the loan, and the struct keeps `ghost_name`, by which proofs know a borrow, equal to that name. It differs
//! from call to call, so no type can have it: the call that lends passes the library's type `Brand`, whose ghost members the proof of the
//! caller chooses (`proofs/server/serve_to/Invariants.antt`, `proofs/writer/serve/Invariants.antt`); the callee is proved for any. An
//! `impl .. for Brand` has to give some values all the same. They are stand-ins: with the start `None` nothing could be served.

ghost use Rattle.std.specs.Prelude.{◌≡◌, ◌≢◌, ◌<◌, ◌≤◌, All, false, [], None, IfOk, Some, replicate, vec_len};
ghost use Rattle.histories.specs.CoreState.{IsIdle};
ghost use Rattle.scheduler.specs.CoreView.{RecoversNow, core_state_of};
ghost use Rattle.protocol.specs.declared.sizes.TheConstants.{LONGEST_LINE};
ghost use Rattle.serving.specs.Exchange.{exchange};
ghost use Rattle.serving.specs.Kill.{IsKillSafe};
ghost use Rattle.serving.specs.Serve.{ServePromise, handed_back};
ghost use Rattle.serving.specs.Start.{CanBegin};
ghost use Rattle.serving.specs.SessionEnds.{reported};
ghost use Rattle.affinity.specs.declared.limits.TheConstants.{MOST_WORKERS};
ghost use Rattle.workers.specs.Seats.{places_of};

use crate::checkpoints::CheckpointTrigger;
use crate::output::ReplySink;
use crate::session::Session;
use disk::Disk;
use message::{LentReader, LineReader, Loan, ReplyBuffer};
use reorder_buffer::ReorderBuffer;
use scheduler::Core;
use std::alloc::{AllocError, Global};
use std::io::Read;
use std::marker::{Brand, PhantomData};
use std::sync::Wait;
use std::thread::Threads;
use workers::{Bench, DispatchSeat, Gate, WorkSeat, know_returned};

/// The size of the input buffer in bytes: some 250 lines with a full block. The buffer is filled again only when it has no whole line and
/// no line is outstanding. So its size also limits how many lines are outstanding, however many slots there are.
const READ_SIZE: usize = 262_144;

/// Why a server ended before the end of its input.
#[derive(Clone, Copy, Debug, PartialEq, Eq)]
pub enum ServeFault {
    /// There are no workers. Nothing was read or written.
    NoWorkers,
    /// The input could not be read. The whole lines that were read before are answered.
    Read,
    /// The output could not be written. Some beginning of what was to be written of it was.
    Write,
    /// The device failed. Only whole lines were written, and a message with a ticket was logged before its reply was written.
    Device,
    /// There was no memory, or a thread could not be started. Nothing was read or written.
    OutOfMemory,
    /// There is no ticket left. The lines before the one whose message found no ticket are answered.
    Exhausted,
}

/// The core of a server that ended before the end of its input, and why it did.
#[derive(Drop)]
pub struct ServeError<D: Disk> {
    /// The core, as the server left it.
    pub core: Core<D>,
    /// Why the server ended.
    pub fault: ServeFault,
}

// What a server has before it reads: room for what is read, for the lines that are not retired and for the answers that wait, and a bench
// with its seats. None of it is used yet. `holds_a_line`: the longest line and its newline.
struct Preallocated {
    input: Vec<u8>,
    reorder_buffer: ReorderBuffer,
    reply_buffer: ReplyBuffer,
    bench: Bench,
    dispatch_seat: DispatchSeat,
    seats: Vec<WorkSeat>,
    ghost holds_a_line: { LONGEST_LINE < vec_len input },
    ghost none_read: { reorder_buffer.lines ≡ [] },
    ghost none_waits: { reply_buffer ≡ [] },
    ghost at_bench: { (dispatch_seat.bench ≡ bench) × All (λ w. w ≡ bench) seats.items },
    ghost none_lent: { dispatch_seat.lent ≡ replicate (places_of bench) None },
}

// Takes the memory for lines of which at most `slots` are outstanding, and opens a bench with a place for each worker.
fn take_memory(alloc: Global, slots: usize, workers: usize) -> Result<Preallocated, AllocError>
    requires { workers ≤ MOST_WORKERS }
    ensures slots { IfOk result (λ memory. memory.reorder_buffer.slots ≡ slots) }
    ensures places { IfOk result (λ memory. places_of memory.bench ≡ workers) }
{
    let input = vec![in alloc; 0; READ_SIZE]?;
    let reorder_buffer = ReorderBuffer::new(alloc, slots)?;
    let reply_buffer = ReplyBuffer::new(alloc)?;
    let (bench, dispatch_seat, seats) = Bench::open(alloc, workers, workers)?;
    Ok(Preallocated {
        input,
        reorder_buffer,
        reply_buffer,
        bench,
        dispatch_seat,
        seats,
    })
}

// What a server hands back: its core, with a fault if it ended before the end of its input, or if a thread could not be started (the outer
// `Err` of `ended`). `RecoversNow`: whatever a crash leaves now recovers to the committed state with a prefix of the messages in `doubt`.
fn hand_back<D: Disk>(
    core: Core<D>,
    ended: Result<Result<(), ServeFault>, AllocError>,
) -> Result<Core<D>, ServeError<D>>
    ensures ended { handed_back result ≡ (core, reported ended) }
    ensures no_doubt { core.failed ≡ false → core.doubt ≡ [] }
    ensures recovers { D.keeps → RecoversNow core }
{
    core.know_recovery();
    let fault = match ended {
        Ok(Ok(())) => return Ok(core),
        Ok(Err(fault)) => fault,
        Err(_) => ServeFault::OutOfMemory,
    };
    Err(ServeError { core, fault })
}

// Serves the lines of a reader that is borrowed, and hands back the reader and the sink, too.
fn run_session<
    'a,
    'c,
    T: Threads + Wait + Sync,
    R: Read,
    L: ReplySink<D>,
    D: Disk,
    G: Gate + Sync,
    N: Loan,
>(
    rt: &'c T,
    core: Core<D>,
    reader: &'a mut R,
    sink: L,
    memory: Preallocated,
    trigger: CheckpointTrigger,
    gate: &'c G,
    of: PhantomData<N>,
) -> (Result<Core<D>, ServeError<D>>, &'a mut R, L)
    requires reader { reader.ghost_name ≡ N.name }
    requires can_begin { CanBegin L.start core (places_of memory.bench) trigger (R.remaining reader.now) (L.sent sink) (L.sent_at sink)
        memory.reorder_buffer }
    requires workers { places_of memory.bench ≢ 0 }
    ensures same { result.1.ghost_name ≡ reader.entry.ghost_name }
    ensures serves { ServePromise D.keeps (places_of memory.bench) trigger.every core (handed_back result.0)
        (exchange (R.remaining reader.entry.now) (R.remaining result.1.now) (L.sent sink) (L.sent result.2)) }
    ensures safe { IsKillSafe D.keeps L.start (L.sent result.2) (L.sent_at result.2) (handed_back result.0).0 }
{
    let Preallocated {
        input,
        reorder_buffer,
        reply_buffer,
        bench,
        dispatch_seat,
        seats,
    } = memory;
    let mut session = Session {
        core,
        dispatch_seat,
        reorder_buffer,
        reply_buffer,
        trigger,
        line_reader: LineReader::new(LentReader { reader, of }, input),
        read_end: None,
        outstanding: 0,
        sink,
        output_failed: false,
        bench: &bench,
    };
    let ended = bench.with_workers(rt, gate, seats, &mut session);
    let Session {
        core,
        dispatch_seat: _,
        reorder_buffer: _,
        reply_buffer: _,
        trigger: _,
        line_reader,
        read_end: _,
        outstanding: _,
        sink,
        output_failed: _,
        bench: _,
    } = session;
    let LentReader { reader, of: _ } = line_reader.into_inner();
    (hand_back(core, ended), reader, sink)
}

/// Reads the lines that a reader still has and sends one line for each, while `workers` threads run the messages. At the end of the input
/// the lines that were sent are the serial server's, and the core has committed the serial server's state, for every schedule of the
/// workers. A checkpoint is made after each `every` records (0: never by their count), where the log has no room, and at the end of the
/// input. All memory is taken before the first read, and the threads have ended when it returns. Lines are sent under the condition of
/// `ReplySink::send` (the device holds already what is sent) and in no other way.
///
/// # Errors
///
/// The core, as it is then, and a fault. `ServeFault::NoWorkers` where there are none, and `ServeFault::OutOfMemory` where there
/// is no memory or a thread can't be started: nothing was read or sent. `ServeFault` describes the others.
pub fn serve_to<T: Threads + Wait + Sync, R: Read, L: ReplySink<D>, D: Disk + Drop, G: Gate + Sync>(
    rt: &T,
    alloc: Global,
    core: Core<D>,
    r: &mut R,
    sink: L,
    workers: usize,
    every: u64,
    gate: &G,
) -> (Result<Core<D>, ServeError<D>>, L)
    requires start { L.start
        ≡ Some (record { core = core; places = workers; every = every; input = R.remaining r.old; before = L.sent sink }) }
    requires at_start { L.sent_at sink ≡ core.medium }
    requires idle { IsIdle (core_state_of core) }
    requires works { core.failed ≡ false }
    requires few { workers ≤ MOST_WORKERS }
    ensures serves { ServePromise D.keeps workers every core (handed_back result.0)
        (exchange (R.remaining r.old) (R.remaining r.new) (L.sent sink) (L.sent result.1)) }
    // A kill at any moment since the last `send` began has lost nothing of what was sent, either.
    ensures safe { IsKillSafe D.keeps L.start (L.sent result.1) (L.sent_at result.1) (handed_back result.0).0 }
{
    core.know_recovery();
    if workers == 0 {
        let fault = ServeFault::NoWorkers;
        return (Err(ServeError { core, fault }), sink);
    }
    let Ok(memory) = take_memory(alloc, core.slots(), workers) else {
        let fault = ServeFault::OutOfMemory;
        return (Err(ServeError { core, fault }), sink);
    };
    let (ended, reader, sink) = run_session::<T, R, L, D, G, Brand>(
        rt,
        core,
        r,
        sink,
        memory,
        CheckpointTrigger::new(every),
        gate,
        PhantomData,
    );
    // For the proof: the borrow of the reader ends here.
    know_returned(reader);
    (ended, sink)
}
