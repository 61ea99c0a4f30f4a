//! A device of bytes: what a read of it gives, and what a crash may leave.
//!
//! `Disk` is the contract that durable code rests on. `MemDisk` keeps it, and can fail and crash on purpose. `FileBacked` is a device with
//! a file behind it, proved over the three calls of `BackingFile`. `FileDisk` is a `FileBacked` over a file of the system, of which no
//! contract can state that it keeps its bytes. `FailStop` makes no call of a device after one that failed.
#![tactic(auto)]

mod backed;
mod backing;
mod device;
mod fail_stop;
mod fault;
mod file;
mod ghost_device;
mod host;
mod injected_fault;
mod memory;
mod ranges;
mod torn;
mod unsynced_span;
pub mod writes;

pub use backed::FileBacked;
pub use backing::BackingFile;
pub use device::Disk;
pub use fail_stop::FailStop;
pub use fault::{DiskFault, FileFault};
pub use file::FileDisk;
pub use host::HostFile;
pub use memory::MemDisk;
pub use torn::Torn;
