//! Whole calls of a server on a device, and how they end.

use crate::serving_noting::{ChunkReader, Notes, Noting, Taking};
use affinity::Geometry;
use checkpoint::OpenFault;
use disk::{Disk, MemDisk};
use harness::Wrong;
use histories::{ArriveRefusal, CoreFault, PointRefusal};
use message::Msg;
use plain::serve_plain;
use scheduler::{Core, Granted};
use serving::{ServeError, ServeFault, serve};
use std::alloc::Global;
use std::io::{Read, Write};
use std::process::Abort;
use std::sync::Wait;
use std::thread::Threads;
use workers::{Gate, OpenGate};

/// The geometry of the small server, its numbers in the order of `format`'s options: one volume of two files of four blocks, in two stripes
/// that hold two blocks each, and four records in a half. Neighboring blocks of a file lie in different stripes.
pub(crate) const SMALL: [u16; 8] = [1, 1, 2, 1, 2, 4, 2, 4];

/// One volume of one file of eight blocks, each in a stripe of its own, and eight records in a half.
pub(crate) const FLAT: [u16; 8] = [1, 1, 8, 1, 1, 8, 1, 8];

/// How a server is run: its workers and slots, and after how many records a checkpoint is due (`every`; 0: only where the log is full).
#[derive(Clone, Copy)]
pub(crate) struct Way {
    pub(crate) workers: usize,
    pub(crate) slots: usize,
    pub(crate) every: u64,
}

/// How a server ended.
#[derive(Clone, Copy, Debug, PartialEq, Eq)]
pub(crate) enum End {
    /// At the end of its input, with no fault.
    Whole,
    /// Its device was refused.
    Unopened(OpenFault),
    Fault(ServeFault),
    /// Its device failed, and the core that was given back goes on as if it had not.
    IgnoresFault,
}

/// A device that was served on, and how that ended.
#[derive(Drop)]
pub(crate) struct Ended<D: Disk> {
    pub(crate) device: D,
    pub(crate) end: End,
}

/// What the serial server answers to these lines, from the empty state on. `Unfit` where no geometry has these numbers.
pub(crate) fn serial(alloc: Global, numbers: [u16; 8], lines: &[u8]) -> Result<Vec<u8>, Wrong> {
    let Ok(g) = Geometry::new(numbers) else {
        return Err(Wrong::Unfit);
    };
    let mut output = Vec::new(alloc);
    match serve_plain(alloc, &g, lines, &mut output) {
        Ok(()) => Ok(output),
        Err(_) => Err(Wrong::OutOfMemory),
    }
}

/// Whether a core reports that its device has failed, whatever it is asked (`log(1)`: to log at most one message).
fn says_failed<D: Disk>(core: &mut Core<D>) -> bool {
    core.arrive(&Msg::Summary) == Err(ArriveRefusal::Failed)
        && matches!(core.grant(), Granted::Failed)
        && core.log(1) == Err(CoreFault::Failed)
        && core.point() == Err(PointRefusal::Failed)
        && core.cut() == Err(PointRefusal::Failed)
        && core.piece() == Err(PointRefusal::Failed)
        && core.flip() == Err(PointRefusal::Failed)
}

/// How a server ended with this fault. Where its device failed, its core is asked for more, and has to refuse.
fn fault_end<D: Disk>(core: &mut Core<D>, fault: ServeFault) -> End {
    if fault == ServeFault::Device && !says_failed(core) {
        return End::IgnoresFault;
    }
    End::Fault(fault)
}

/// Opens a device and serves on it, with at most 64 workers and 1 to 1024 slots.
pub(crate) fn serve_on<T: Threads + Wait + Sync, R: Read, W: Write, D: Disk + Drop, G: Gate + Sync>(
    rt: &T,
    alloc: Global,
    device: D,
    way: Way,
    r: &mut R,
    w: &mut W,
    gate: &G,
) -> Ended<D> {
    let core = match Core::open(alloc, device, way.slots.min(1024).max(1)) {
        Ok(core) => core,
        Err(e) => {
            return Ended {
                device: e.disk,
                end: End::Unopened(e.fault),
            };
        }
    };
    match serve(rt, alloc, core, r, w, way.workers.min(64), way.every, gate) {
        Ok(core) => Ended {
            device: core.into_disk(),
            end: End::Whole,
        },
        Err(ServeError { mut core, fault }) => {
            let end = fault_end(&mut core, fault);
            Ended {
                device: core.into_disk(),
                end,
            }
        }
    }
}

/// How an input is given and an output is taken.
#[derive(Clone, Copy)]
pub(crate) struct Streams {
    /// How many bytes are read at a time.
    pub(crate) read: usize,
    /// Whether the reader fails at the end of the input.
    pub(crate) fails: bool,
    /// How many bytes are written at a time.
    pub(crate) written: usize,
    /// Which call of the writer fails (a write or a flush), from 1 on. 0: none.
    pub(crate) fails_at: u64,
}

/// All at once, and nothing fails.
pub(crate) const ALL_AT_ONCE: Streams = Streams {
    read: 70_000,
    fails: false,
    written: 70_000,
    fails_at: 0,
};

/// What a session leaves.
#[derive(Drop)]
pub(crate) struct Left {
    pub(crate) device: MemDisk,
    pub(crate) end: End,
    pub(crate) output: Vec<u8>,
}

/// Serves these lines on a device in memory, and notes what is done with it and with the streams: the device is `Noting`, the input a
/// `ChunkReader`, and the output `Taking`. `gate` is the server's hooks, which may hold up its workers.
pub(crate) fn session<T: Threads + Wait + Sync, G: Gate + Sync>(
    rt: &T,
    alloc: Global,
    device: MemDisk,
    way: Way,
    lines: &[u8],
    streams: Streams,
    gate: &G,
    notes: &Notes,
) -> Left {
    let mut reader = ChunkReader {
        left: lines,
        size: streams.read,
        fails: streams.fails,
        notes,
    };
    let mut writer = Taking {
        output: Vec::new(alloc),
        size: streams.written,
        fails_at: streams.fails_at,
        notes,
    };
    let device = Noting { device, notes };
    let Ended { device, end } = serve_on(rt, alloc, device, way, &mut reader, &mut writer, gate);
    Left {
        device: device.device,
        end,
        output: writer.output,
    }
}

/// Serves these lines on a device to their end, with hooks that do nothing (`OpenGate`). Gives the device and the output; `Unfit` where the
/// server ended otherwise.
pub(crate) fn serve_lines<T: Threads + Wait + Sync, D: Disk + Drop>(
    rt: &T,
    alloc: Global,
    device: D,
    way: Way,
    lines: &[u8],
) -> Result<(D, Vec<u8>), Wrong> {
    let mut input = lines;
    let mut output = Vec::new(alloc);
    let ended = serve_on(rt, alloc, device, way, &mut input, &mut output, &OpenGate);
    match ended.end {
        End::Whole => Ok((ended.device, output)),
        _ => Err(Wrong::Unfit),
    }
}
