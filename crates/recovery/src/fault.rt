//! Why a device can't be formatted or opened.
ghost use Rattle.std.specs.Prelude.{◌≡◌};
ghost use Rattle.recovery.specs.declared.fault.OpenFault.TheVariants.{OutOfMemory};
ghost use Rattle.recovery.specs.OpenFaults.{fault_of_log};

use disk::Disk;
use oplog::LogFault;
use std::alloc::AllocError;
use thiserror::Error;

/// Why a device can't be formatted.
#[derive(Clone, Copy, Debug, PartialEq, Eq, Error)]
pub enum FormatFault {
    /// The device failed during the call.
    #[error("device fault")]
    Device,
    /// The device is shorter than `device_len` of the geometry. Nothing was read or written.
    #[error("device too short")]
    TooShort,
    /// There was no memory. Nothing was read or written.
    #[error("out of memory")]
    OutOfMemory,
}

/// The device that can't be formatted, and why.
#[derive(Drop)]
pub struct FormatError<D: Disk> {
    /// The device, as far as it was written.
    pub disk: D,
    /// What was wrong.
    pub fault: FormatFault,
}

/// Why a device can't be opened.
#[derive(Clone, Copy, Debug, PartialEq, Eq, Error)]
pub enum OpenFault {
    /// The device failed during the call.
    #[error("device fault")]
    Device,
    /// The device is shorter than its header and root zone, or than the parts that its header gives.
    #[error("device too short")]
    TooShort,
    /// The device doesn't begin with the magic of a formatted one.
    #[error("not formatted")]
    NotFormatted,
    /// No geometry has this header: one of its numbers is out of range, or the bytes after them aren't all zero.
    #[error("bad geometry")]
    BadGeometry,
    /// There was no memory.
    #[error("out of memory")]
    OutOfMemory,
    /// The named image doesn't begin with a version and zeros.
    #[error("bad version")]
    BadVersion,
    /// This piece of the named image is not that of a state.
    #[error("bad piece {0}")]
    BadPiece(usize),
    /// The chain bytes of both halves are 1.
    #[error("bad chain")]
    BadChain,
    /// This record, given by its half and its number in that half, is in force and can't be run on the state before it.
    #[error("bad record {0} {1}")]
    BadRecord(usize, usize),
}

/// The device that can't be opened, and why.
#[derive(Drop)]
pub struct OpenError<D: Disk> {
    /// The device.
    pub disk: D,
    /// What was wrong.
    pub fault: OpenFault,
}

impl From<AllocError> for OpenFault {
    ghost from_gives = { λ e fault. fault ≡ OutOfMemory };

    fn from(_e: AllocError) -> OpenFault {
        OpenFault::OutOfMemory
    }
}

impl From<LogFault> for OpenFault {
    ghost from_gives = { λ e fault. fault ≡ fault_of_log e };

    fn from(e: LogFault) -> OpenFault {
        match e {
            LogFault::Device => OpenFault::Device,
            LogFault::BadRecord(half, i) => OpenFault::BadRecord(half, i),
        }
    }
}
