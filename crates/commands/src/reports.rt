//! What is printed of a fault, and the exit status.
ghost use Rattle.std.specs.Prelude.{◌≡◌};
ghost use Rattle.std.specs.IoError.{error_kind};
ghost use Rattle.commands.specs.Faults.{status_of, status_of_unreadable_arguments};

use crate::faults::Fault;
use std::io;
use std::io::{ErrorKind, Write};

/// The exit status where the arguments are wrong.
pub const WRONG_ARGUMENTS: u8 = 2;

/// What is printed where an argument is not UTF-8. In ordinary Rust `clap` prints this text; here it never sees such an argument.
const NOT_TEXT: &str = "error: invalid UTF-8 was detected in one or more arguments

For more information, try '--help'.
";

/// Prints a fault on `e`, and returns its exit status. A write that fails is ignored.
pub fn report<E: Write>(fault: Fault, e: &mut E) -> u8
    ensures { result ≡ status_of fault }
{
    let _ = write!(e, "waffd: {fault}\n");
    fault.status()
}

/// Prints on `e` why the arguments could not be read, and returns the exit status: one of them is not UTF-8, or there was no memory for
/// them. A write that fails is ignored.
pub fn report_unreadable_arguments<E: Write>(error: &io::Error, e: &mut E) -> u8
    ensures { result ≡ status_of_unreadable_arguments (error_kind error.now) }
{
    if error.kind() == ErrorKind::OutOfMemory {
        return report(Fault::OutOfMemory, e);
    }
    let _ = write!(e, "{NOT_TEXT}");
    WRONG_ARGUMENTS
}
