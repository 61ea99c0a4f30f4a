//! Why a serial server didn't answer its whole input, or didn't write all answers.

ghost use Rattle.std.specs.Prelude.{◌≡◌};

use message::WriteFault;

/// Why the serial server didn't answer its whole input, or didn't write all answers.
#[derive(Clone, Copy, Debug, PartialEq, Eq)]
pub enum PlainFault {
    /// The input could not be read.
    Read,
    /// The output could not be written. A beginning of the answers was.
    Write,
    /// There was no memory, or there were more than 2^64 - 1 lines.
    OutOfMemory,
}

impl From<WriteFault> for PlainFault {
    ghost use Rattle.plain.specs.declared.fault.PlainFault.TheVariants.{Write};

    ghost from_gives = { λ _ fault. fault ≡ Write };

    fn from(_: WriteFault) -> PlainFault {
        PlainFault::Write
    }
}
