//! What can go wrong once the arguments are parsed: the text that is printed of it, and the exit status.
ghost use Rattle.std.specs.Prelude.{◌≡◌};
ghost use Rattle.commands.specs.Faults.{status_of, fault_of_file, fault_of_plain, fault_of_serve};
ghost use Rattle.commands.specs.declared.faults.Fault.TheVariants.{Format, Open, OutOfMemory};

use checkpoint::{FormatFault, OpenFault};
use disk::FileFault;
use plain::PlainFault;
use serving::ServeFault;
use std::alloc::AllocError;
use thiserror::Error;

/// Why a command ended without having done what was asked for.
#[derive(Clone, Copy, Debug, PartialEq, Eq, Error)]
pub enum Fault {
    /// The input could not be read.
    #[error("read fault")]
    Read,
    /// The output could not be written.
    #[error("write fault")]
    Write,
    /// One of the numbers of the geometry is out of its range.
    #[error("geometry out of range")]
    GeometryOutOfRange,
    /// There was no memory.
    #[error("out of memory")]
    OutOfMemory,
    /// The file of a device could not be made or opened, or the device failed while it was served.
    #[error("device fault")]
    Device,
    /// There are no workers to serve a device with.
    #[error("no workers")]
    NoWorkers,
    /// No ticket is left for a message: all were given out.
    #[error("no ticket left")]
    NoTicketLeft,
    /// The device could not be made in its file.
    #[error(transparent)]
    Format(FormatFault),
    /// The device in the file could not be opened.
    #[error(transparent)]
    Open(OpenFault),
}

impl Fault {
    /// The exit status of the fault.
    pub fn status(self) -> u8
        ensures { result ≡ status_of self }
    {
        match self {
            Fault::GeometryOutOfRange | Fault::NoWorkers => 2,
            Fault::OutOfMemory
            | Fault::Format(FormatFault::OutOfMemory)
            | Fault::Open(OpenFault::OutOfMemory) => 3,
            Fault::Read
            | Fault::Write
            | Fault::Device
            | Fault::NoTicketLeft
            | Fault::Format(_)
            | Fault::Open(_) => 1,
        }
    }
}

impl From<AllocError> for Fault {
    ghost from_gives = { λ _ fault. fault ≡ OutOfMemory };

    fn from(_error: AllocError) -> Fault {
        Fault::OutOfMemory
    }
}

impl From<PlainFault> for Fault {
    ghost from_gives = { λ from fault. fault ≡ fault_of_plain from };

    fn from(fault: PlainFault) -> Fault {
        match fault {
            PlainFault::Read => Fault::Read,
            PlainFault::Write => Fault::Write,
            PlainFault::OutOfMemory => Fault::OutOfMemory,
        }
    }
}

impl From<ServeFault> for Fault {
    ghost from_gives = { λ from fault. fault ≡ fault_of_serve from };

    fn from(fault: ServeFault) -> Fault {
        match fault {
            ServeFault::NoWorkers => Fault::NoWorkers,
            ServeFault::Read => Fault::Read,
            ServeFault::Write => Fault::Write,
            ServeFault::Device => Fault::Device,
            ServeFault::OutOfMemory => Fault::OutOfMemory,
            ServeFault::Exhausted => Fault::NoTicketLeft,
        }
    }
}

impl From<FileFault> for Fault {
    ghost from_gives = { λ from fault. fault ≡ fault_of_file from };

    fn from(fault: FileFault) -> Fault {
        match fault {
            FileFault::Device => Fault::Device,
            FileFault::OutOfMemory => Fault::OutOfMemory,
        }
    }
}

impl From<FormatFault> for Fault {
    ghost from_gives = { λ from fault. fault ≡ Format from };

    fn from(fault: FormatFault) -> Fault {
        Fault::Format(fault)
    }
}

impl From<OpenFault> for Fault {
    ghost from_gives = { λ from fault. fault ≡ Open from };

    fn from(fault: OpenFault) -> Fault {
        Fault::Open(fault)
    }
}
