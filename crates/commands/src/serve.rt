//! `waffd serve`: the lines of the input, answered on the device in a file by workers that run messages at once.
ghost use Rattle.std.specs.Prelude.{◌≡◌, ◌⊎◌, ℕ, false, List, Some, Err};
ghost use Rattle.std.specs.Result.{is_ok};
ghost use Rattle.affinity.specs.declared.geometry.Geometry.{Geometry};
ghost use Rattle.recovery.specs.Recovery.{recovered_state};
ghost use Rattle.recovery.specs.declared.fault.OpenFault.{OpenFault};
ghost use Rattle.recovery.specs.declared.fault.OpenFault.TheVariants as opening;
ghost use Rattle.disk.specs.CrashImages.{IsCrashImage, left_since};
ghost use Rattle.disk.specs.Device.{IsSynced, moment_number};
ghost use Rattle.scheduler.specs.CoreView.{IsJustOpened};
ghost use Rattle.serving.specs.Exchange.{exchange};
ghost use Rattle.serving.specs.Serve.{ServePromise};
ghost use Rattle.meaning.specs.ClosedPart.{are_in_conflict};
ghost use Rattle.serving.specs.AnyRuns.{KeepsPromise, Server};
ghost use Rattle.serving.specs.SerialServer.{server_of, server_on};
ghost use Rattle.commands.specs.Faults.{command_result};
ghost use Rattle.commands.specs.declared.faults.Fault.TheVariants.{Open};
ghost use Rattle.commands.specs.Acknowledged.{HoldsAcknowledged};
ghost use Rattle.commands.specs.Promise.{HoldsOfAll, HoldsRecovered, LeavesRun};
ghost use Rattle.commands.specs.InFile.{EndsInFile};
ghost use Rattle.commands.specs.ServedDevice.{EndsOnDevice, CrashesSafely};

use crate::faults::Fault;
use crate::serve_options::ServeOptions;
use disk::{Disk, FailStop, FileDisk};
use scheduler::Core;
use serving::{ServeError, ServeFault, serve};
use std::alloc::Global;
use std::fs::File;
use std::io::{Read, Write};
use std::rt::Files;
use std::snapshot::Snapshot;
use std::sync::Wait;
use std::thread::Threads;
use workers::OpenGate;

/// How serving ended, with the fault as one of the program's.
fn command_result(end: Result<(), ServeFault>) -> Result<(), Fault>
    ensures { result ≡ command_result end }
{
    match end {
        Ok(()) => Ok(()),
        Err(fault) => Err(Fault::from(fault)),
    }
}

/// Serves with a core that was just opened, on the device as it is in `found`, and hands the core back. If that device held a server, the
/// core has it (`opened`). A run that was killed while it opened the device, and so had written nothing, has kept its promise (`opening`).
fn run_opened<T: Threads + Wait + Sync, R: Read, W: Write, D: Disk + Drop>(
    rt: &T,
    alloc: Global,
    found: Snapshot<D>,
    core: Core<D>,
    service: ServeOptions,
    r: &mut R,
    w: &mut W,
) -> (Core<D>, Result<(), ServeFault>)
    requires opened { D.keeps → (g : Geometry) (server : Server) → server_on g (D.medium found.value).now ≡ Some server
        → (core.geometry ≡ g) × (core.slots ≡ service.slots) × (server_of core ≡ server) }
    requires opening { D.keeps → IsSynced (D.medium found.value) → (g : Geometry) (server : Server) (c : List ℕ)
        → server_on g (D.medium found.value).now ≡ Some server → left_since core.medium (moment_number (D.medium found.value)) c
        → KeepsPromise (server_on g) (are_in_conflict g) server service.slots (R.remaining r.old) false
        (W.contents w.old) (W.contents w.old) c }
    requires fresh { IsJustOpened service.slots core }
    ensures { ServePromise D.keeps service.workers service.every core result
        (exchange (R.remaining r.old) (R.remaining r.new) (W.contents w.old) (W.contents w.new)) }
{
    let _ = found;
    let workers = usize::from(service.workers);
    let every = u64::from(service.every);
    // `OpenGate`: no test holds the workers up.
    match serve(rt, alloc, core, r, w, workers, every, &OpenGate) {
        Ok(core) => (core, Ok(())),
        Err(ServeError { core, fault }) => (core, Err(fault)),
    }
}

/// Opens a device and answers the lines of `r` on `w` with it, from the state to which it recovers. The device is given back as the server
/// left it.
pub fn serve_on<T: Threads + Wait + Sync, R: Read, W: Write, D: Disk + Drop>(
    rt: &T,
    alloc: Global,
    disk: D,
    service: ServeOptions,
    r: &mut R,
    w: &mut W,
) -> (D, Result<(), Fault>)
    ensures ends { EndsOnDevice D.keeps service (D.medium disk) (D.medium result.0) result.1
        (exchange (R.remaining r.old) (R.remaining r.new) (W.contents w.old) (W.contents w.new)) }
    ensures crash_safe { CrashesSafely D.keeps service (D.medium disk) (D.medium result.0) result.1
        (exchange (R.remaining r.old) (R.remaining r.new) (W.contents w.old) (W.contents w.new)) }
    // Whatever a crash leaves at the end holds what was sent, and recovers to a state with it; where a write failed, all that was to be
    // sent by that, too.
    ensures kept { HoldsOfAll result.1 service.slots (W.contents w.old) (W.contents w.new)
        (λ unanswered all. D.keeps → (c : List ℕ) → IsCrashImage (D.medium result.0) c
        → HoldsAcknowledged unanswered (D.medium disk) (R.remaining r.old) (W.contents w.old) all c) }
    ensures recovers { HoldsOfAll result.1 service.slots (W.contents w.old) (W.contents w.new)
        (λ unanswered all. D.keeps → (c : List ℕ) → IsCrashImage (D.medium result.0) c
        → HoldsRecovered unanswered (D.medium disk) (R.remaining r.old) (W.contents w.old) all c) }
    // What a client relies on, for each end and for whatever a crash leaves then.
    ensures promise { D.keeps → IsSynced (D.medium disk) → (g : Geometry) (server : Server) (c : List ℕ)
        → server_on g (D.medium disk).now ≡ Some server → IsCrashImage (D.medium result.0) c
        → KeepsPromise (server_on g) (are_in_conflict g) server service.slots (R.remaining r.old) (is_ok result.1)
        (W.contents w.old) (W.contents w.new) c }
    // A device that holds a server is opened, unless a call of it fails or memory is wanting.
    ensures opens { D.keeps → (g : Geometry) (server : Server) → server_on g (D.medium disk).now ≡ Some server
        → (fault : OpenFault) → result.1 ≡ Err (Open fault) → (fault ≡ opening.Device) ⊎ (fault ≡ opening.OutOfMemory) }
    ensures goes_on { D.keeps → (g : Geometry) → LeavesRun g (recovered_state g) service.slots (D.medium disk) (D.medium result.0) result.1
        (R.remaining r.old) (W.contents w.old) (W.contents w.new) }
{
    let found = Snapshot::of(&disk);
    let core = match Core::open(alloc, disk, usize::from(service.slots)) {
        Ok(core) => core,
        Err(error) => return (error.disk, Err(Fault::from(error.fault))),
    };
    let (core, end) = run_opened(rt, alloc, found, core, service, r, w);
    core.know_recovery();
    (core.into_disk(), command_result(end))
}

/// Answers the lines of `r` on `w` with the device in the file of this path, from the state to which it recovers. The file has to be
/// one that may be written. No contract sees what it then holds: what is promised of its device holds where files keep their bytes.
pub fn serve_device<T: Files<File = File> + Threads + Wait + Sync, R: Read, W: Write>(
    rt: &T,
    alloc: Global,
    path: &str,
    service: ServeOptions,
    r: &mut R,
    w: &mut W,
) -> Result<(), Fault>
    ensures { EndsInFile service result (exchange (R.remaining r.old) (R.remaining r.new) (W.contents w.old) (W.contents w.new)) }
{
    let disk = FailStop::new(FileDisk::open(rt, path)?);
    let (_disk, end) = serve_on(rt, alloc, disk, service, r, w);
    end
}
