//! Faults: why a call of a device or a file failed.
/// Why a call of a device failed. A write that returns `Device` may have changed its range.
#[derive(Clone, Copy, Debug, PartialEq, Eq)]
pub enum DiskFault {
    /// The range leaves the device, which was not touched.
    OutOfRange,
    /// The device failed during the call.
    Device,
}

/// Why a file could not be made or opened as a device.
#[derive(Clone, Copy, Debug, PartialEq, Eq)]
pub enum FileFault {
    /// The system refused.
    Device,
    /// There was no memory for it.
    OutOfMemory,
}
