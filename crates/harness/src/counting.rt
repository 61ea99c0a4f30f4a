//! A device that counts the calls of another one.
use disk::{Disk, DiskFault};

/// How often a device was called. A call that was out of range isn't among these.
#[derive(Clone, Copy, PartialEq, Eq)]
pub struct Counts {
    pub reads: u64,
    pub writes: u64,
    pub syncs: u64,

    /// The bytes of all these writes together.
    pub written: u64,
}

/// A device that passes each call on to another one, and counts it.
///
/// No contract says that it behaves as the device model: its `keeps` is ⊥ (false). So a requirement of the form `D.keeps → ..`, such as one
/// on the state to which a device recovers, is void here: tests can call the journal without a proof of what they are about to find out.
#[derive(Drop)]
pub struct Counting<D: Disk> {
    device: D,
    counts: Counts,
}

impl<D: Disk> Counting<D> {
    /// Passes calls on to this device, of which none is counted yet.
    pub fn new(device: D) -> Counting<D> {
        Counting {
            device,
            counts: Counts {
                reads: 0,
                writes: 0,
                syncs: 0,
                written: 0,
            },
        }
    }

    /// The calls since `new`.
    pub fn counts(&self) -> Counts {
        self.counts
    }

    /// The device to which it passes on.
    pub fn into_inner(self) -> D {
        self.device
    }
}

impl<D: Disk> Disk for Counting<D> {
    ghost medium = { λ c. D.medium c.device };

    ghost keeps = { ⊥ };

    fn len(&self) -> u64 {
        self.device.len()
    }

    fn read_at(&mut self, at: u64, out: &mut [u8]) -> Result<(), DiskFault> {
        let answer = self.device.read_at(at, out);
        if answer != Err(DiskFault::OutOfRange) {
            self.counts.reads = self.counts.reads.saturating_add(1);
        }
        answer
    }

    fn write_at(&mut self, at: u64, bytes: &[u8]) -> Result<(), DiskFault> {
        let answer = self.device.write_at(at, bytes);
        if answer != Err(DiskFault::OutOfRange) {
            self.counts.writes = self.counts.writes.saturating_add(1);
            self.counts.written = self.counts.written.saturating_add(bytes.len() as u64);
        }
        answer
    }

    fn sync(&mut self) -> Result<(), DiskFault> {
        self.counts.syncs = self.counts.syncs.saturating_add(1);
        self.device.sync()
    }

    ghost fits = { λ d. D.fits d.device };

    ghost bytes = { λ d. D.bytes d.device };
}
