//! The program, with its input, output and error output as a reader and two writers.
ghost use Rattle.std.specs.Prelude.{◌≡◌, ◌⊎◌, ℕ, List, [], ◌∷◌, codes, map, string_bytes};
ghost use Rattle.affinity.specs.Geometry.{default_geometry};
ghost use Rattle.serving.specs.Exchange.{exchange};
ghost use Rattle.commands.specs.Exits.{Exits, ExitsHelp, ExitsRefused};
ghost use Rattle.commands.specs.Faults.{status_of_refusal};
ghost use Rattle.commands.specs.Ends.{EndsFormatting, EndsInMemory, EndsShowing, Ends};
ghost use Rattle.commands.specs.Services.{AsksServe, within_limits, options_in_order};
ghost use Rattle.arguments.specs.Arguments.{AsksFormat, AsksHelp, RunsNoCommand, AsksPlain, AsksShow, AsksVersion, AreRefused, service_numbers};
ghost use Rattle.affinity.specs.declared.geometry.Geometry.{Geometry};
ghost use Rattle.commands.specs.InFile.{EndsInFile};
ghost use Rattle.commands.specs.declared.serve_options.ServeOptions.{ServeOptions};

use crate::faults::Fault;
use crate::format::format_device;
use crate::reports::{WRONG_ARGUMENTS, report};
use crate::serial::answer_input;
use crate::serve::serve_device;
use crate::serve_options::ServeOptions;
use crate::show::show_device;
use arguments::{ArgumentRefusal, Request, ServiceNumbers, read_arguments};
use std::alloc::Global;
use std::fs::File;
use std::io::{Read, Write};
use std::rt::Files;
use std::sync::Wait;
use std::thread::Threads;

/// The options of `serve` with these numbers, within their limits.
fn service_of(numbers: ServiceNumbers) -> ServeOptions
    ensures { options_in_order result ≡ within_limits (service_numbers numbers) }
{
    ServeOptions::new(numbers.workers, numbers.slots, numbers.every)
}

/// Does what was asked for: input comes from `r`, output goes to `w`.
pub fn run<T: Files<File = File> + Threads + Wait + Sync, R: Read, W: Write>(
    rt: &T,
    alloc: Global,
    request: Request<'_>,
    r: &mut R,
    w: &mut W,
) -> Result<(), Fault>
    ensures { Ends request.entry result
        (exchange (R.remaining r.old) (R.remaining r.new) (W.contents w.old) (W.contents w.new)) }
{
    match request {
        Request::Help(text) => {
            write!(w, "{text}").map_err(|_| Fault::Write)?;
            w.flush().map_err(|_| Fault::Write)
        }
        Request::Plain(geometry) => answer_input(alloc, &geometry, r, w),
        Request::Format(path, geometry) => format_device(rt, alloc, path, geometry, w),
        Request::Show(path) => show_device(rt, alloc, path, w),
        Request::Serve(path, numbers) => {
            serve_device(rt, alloc, path, service_of(numbers), r, w)
        }
    }
}

/// Prints on `e` why the arguments give no request, and returns the exit status. A write that fails is ignored.
fn report_refusal<E: Write>(refusal: ArgumentRefusal, e: &mut E) -> u8
    ensures { result ≡ status_of_refusal refusal }
{
    match refusal {
        ArgumentRefusal::Words(error) => {
            let _ = write!(e, "{error}");
            WRONG_ARGUMENTS
        }
        ArgumentRefusal::OutOfMemory => report(Fault::OutOfMemory, e),
        ArgumentRefusal::GeometryOutOfRange => report(Fault::GeometryOutOfRange, e),
    }
}

/// Reads the arguments, the program's own name first, does what they ask for (input from `r`, output to `w`), prints a fault on `e`, and
/// returns the exit status. Files are opened by `rt`.
pub fn command<T: Files<File = File> + Threads + Wait + Sync, R: Read, W: Write, E: Write>(
    rt: &T,
    alloc: Global,
    arguments: &[String],
    r: &mut R,
    w: &mut W,
    e: &mut E,
) -> u8
    ensures served_plain { (g : Geometry) → AsksPlain (map string_bytes arguments.now) g
        → Exits result (λ end. EndsInMemory g end
        (exchange (R.remaining r.old) (R.remaining r.new) (W.contents w.old) (W.contents w.new))) }
    ensures plain { (program : List ℕ) → map string_bytes arguments.now ≡ program ∷ codes "plain" ∷ []
        → Exits result (λ end. EndsInMemory default_geometry end
        (exchange (R.remaining r.old) (R.remaining r.new) (W.contents w.old) (W.contents w.new))) }
    ensures formatted { (path : List ℕ) → (g : Geometry) → AsksFormat (map string_bytes arguments.now) path g
        → Exits result (λ end. EndsFormatting g end (W.contents w.old) (W.contents w.new))
        × (R.remaining r.new ≡ R.remaining r.old) }
    ensures shown { (path : List ℕ) → AsksShow (map string_bytes arguments.now) path
        → Exits result (λ end. EndsShowing end (W.contents w.old) (W.contents w.new))
        × (R.remaining r.new ≡ R.remaining r.old) }
    ensures served { (path : List ℕ) → (s : ServeOptions) → AsksServe (map string_bytes arguments.now) path s
        → Exits result (λ end. EndsInFile s end
        (exchange (R.remaining r.old) (R.remaining r.new) (W.contents w.old) (W.contents w.new))) }
    ensures help { AsksHelp (map string_bytes arguments.now)
        → ExitsHelp result × (R.remaining r.new ≡ R.remaining r.old) }
    ensures version { AsksVersion (map string_bytes arguments.now)
        → ExitsHelp result × (R.remaining r.new ≡ R.remaining r.old) }
    ensures refused { AreRefused (map string_bytes arguments.now)
        → ExitsRefused result × (r.new ≡ r.old) × (w.new ≡ w.old) }
    // `RunsNoCommand`: the arguments ask for help or the version, or have mistakes, also where they name a command.
    ensures unserved { RunsNoCommand (map string_bytes arguments.now)
        → (ExitsHelp result × (R.remaining r.new ≡ R.remaining r.old))
        ⊎ (ExitsRefused result × (r.new ≡ r.old) × (w.new ≡ w.old)) }
    ensures quiet { result ≡ 0 → e.new ≡ e.old }
{
    let request = match read_arguments(alloc, arguments) {
        Ok(request) => request,
        Err(refusal) => return report_refusal(refusal, e),
    };
    match run(rt, alloc, request, r, w) {
        Ok(()) => 0,
        Err(fault) => report(fault, e),
    }
}
