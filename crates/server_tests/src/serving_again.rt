//! A second call of `serve`, on the core that the first one gave back; and one after a call for which memory was refused. The core has four
//! slots, and is `IsIdle` where no message waits or is held. Of the arguments of `serve` the last three are the workers, after how many
//! records a checkpoint is due (0: only where the log is full), and a hook that does nothing (`OpenGate`). `assert_left` takes the area
//! that the device names, and its numbers of volumes, files and blocks.
ghost use Rattle.std.specs.Prelude.{◌≡◌, false, IfOk, IsTrue};
ghost use Rattle.histories.specs.CoreState.{IsIdle};
ghost use Rattle.scheduler.specs.CoreView.{core_state_of};

use crate::assertions::assert_text;
use crate::serving_common::SMALL;
use crate::serving_images::assert_left;
use crate::serving_noting::{ChunkReader, Notes};
use disk::MemDisk;
use harness::{Wrong, device_with};
use scheduler::Core;
use serving::{ServeError, ServeFault, serve};
use std::alloc::Global;
use std::sync::Wait;
use std::test::Fail;
use std::thread::Threads;
use workers::OpenGate;

const FIRST: &[u8] = b"makevol 0 0\ncreate 0 0 0\nwrite 0 0 0 0 61\n";

const SECOND: &[u8] = b"read 0 0 0 0\nwrite 0 0 0 1 62\nread 0 0 0 1\n";

/// The answers to both inputs.
const ANSWERS: &[u8] = b"done\ndone\ndone\nblock 61\ndone\nblock 62\n";

/// Whether a read fails at the end of the first input, whether a cut is begun after it, and which area is named at last: opening names area
/// 1, and each checkpoint the other area. A checkpoint is made at the end of an input, unless a read failed there.
const TWICE: [(bool, bool, usize); 4] = [
    (false, false, 1),
    (true, false, 0),
    (false, true, 0),
    (true, true, 1),
];

/// Takes a core apart, as its drop costs the prover half a minute wherever it is.
fn unfit(core: Core<MemDisk>) -> Wrong {
    let _device = core.into_disk();
    Wrong::Unfit
}

/// Serves the first input, read at once, at whose end a read fails if `fails`.
fn serve_first<T: Threads + Wait + Sync>(
    rt: &T,
    alloc: Global,
    core: Core<MemDisk>,
    workers: usize,
    fails: bool,
    output: &mut Vec<u8>,
) -> Result<Core<MemDisk>, Wrong>
    requires idle { IsIdle (core_state_of core) }
    requires works { core.failed ≡ false }
    ensures idle { IfOk result (λ core. IsIdle (core_state_of core)) }
    ensures works { IfOk result (λ core. core.failed ≡ false) }
{
    let notes = Notes::new();
    let mut reader = ChunkReader {
        left: FIRST,
        size: 70_000,
        fails,
        notes: &notes,
    };
    match serve(
        rt,
        alloc,
        core,
        &mut reader,
        output,
        workers.min(64),
        0,
        &OpenGate,
    ) {
        Ok(core) => Ok(core),
        Err(
            ServeError {
                core,
                fault: ServeFault::Read,
            },
        ) => Ok(core),
        Err(e) => Err(unfit(e.core)),
    }
}

/// Begins a cut, if `cuts`. Returns false where the core couldn't begin it.
fn begin_cut(core: &mut Core<MemDisk>, cuts: bool) -> bool
    requires idle { IsIdle (core_state_of core.old) }
    requires works { core.old.failed ≡ false }
    ensures idle { IsTrue result → IsIdle (core_state_of core.new) }
    ensures works { IsTrue result → core.new.failed ≡ false }
{
    if !cuts {
        return true;
    }
    match core.cut() {
        Ok(()) => true,
        Err(_) => false,
    }
}

/// Serves both inputs on one core. Returns the device and the answers.
fn serve_twice<T: Threads + Wait + Sync>(
    rt: &T,
    alloc: Global,
    workers: usize,
    fails: bool,
    cuts: bool,
) -> Result<(MemDisk, Vec<u8>), Wrong> {
    let device = device_with(alloc, SMALL, &[])?;
    let Ok(core) = Core::open(alloc, device, 4) else {
        return Err(Wrong::Unfit);
    };
    let mut output = Vec::new(alloc);
    let mut core = serve_first(rt, alloc, core, workers, fails, &mut output)?;
    if !begin_cut(&mut core, cuts) {
        return Err(unfit(core));
    }
    let mut input = SECOND;
    match serve(
        rt,
        alloc,
        core,
        &mut input,
        &mut output,
        workers.min(64),
        0,
        &OpenGate,
    ) {
        Ok(core) => Ok((core.into_disk(), output)),
        Err(e) => Err(unfit(e.core)),
    }
}

#[test]
fn a_core_that_came_back_is_served_on(rt: HostRuntime) -> Result<(), Fail> {
    for &(fails, cuts, area) in &TWICE {
        for workers in [1, 2] {
            let (device, output) = serve_twice(&rt, rt.alloc(), workers, fails, cuts)?;
            assert_text(&rt, output.as_slice(), ANSWERS);
            assert_left(&rt, rt.alloc(), device, area, [1, 1, 2])?;
        }
    }
    Ok(())
}

/// Serves the first input. Where memory is refused, nothing may have been read or written, and the same input is served with the core that
/// was given back.
fn serve_at_next_try<T: Threads + Wait + Sync>(
    rt: &T,
    alloc: Global,
    core: Core<MemDisk>,
    output: &mut Vec<u8>,
) -> Result<Core<MemDisk>, Wrong>
    requires idle { IsIdle (core_state_of core) }
    requires works { core.failed ≡ false }
{
    let mut input = FIRST;
    let core = match serve(rt, alloc, core, &mut input, output, 3, 0, &OpenGate) {
        Ok(core) => return Ok(core),
        Err(
            ServeError {
                core,
                fault: ServeFault::OutOfMemory,
            },
        ) => core,
        Err(e) => return Err(unfit(e.core)),
    };
    if input.len() != FIRST.len() || !output.is_empty() {
        return Err(unfit(core));
    }
    match serve(rt, alloc, core, &mut input, output, 3, 0, &OpenGate) {
        Ok(core) => Ok(core),
        Err(e) => {
            let _device = e.core.into_disk();
            Err(Wrong::OutOfMemory)
        }
    }
}

#[test]
fn lines_are_served_at_the_next_try(rt: HostRuntime) -> Result<(), Fail> {
    let device = device_with(rt.alloc(), SMALL, &[])?;
    let mut output = Vec::with_capacity(rt.alloc(), 4096)?;
    let Ok(core) = Core::open(rt.alloc(), device, 4) else {
        return Err(Wrong::OutOfMemory.into());
    };
    let core = serve_at_next_try(&rt, rt.alloc(), core, &mut output)?;
    assert_text(&rt, output.as_slice(), b"done\ndone\ndone\n");
    assert_left(&rt, rt.alloc(), core.into_disk(), 0, [1, 1, 1])?;
    Ok(())
}
