//! A device of which nothing more is asked once a call of it has failed.
ghost use Rattle.std.specs.Prelude.{◌≡◌, length};
ghost use Rattle.disk.specs.declared.fail_stop.Below.TheVariants.{Open};
ghost use Rattle.disk.specs.FailStop.{medium_below, failures_while_open, fits_either_way, are_bytes_either_way};

use crate::ranges::check_range;
use crate::{Disk, DiskFault};
use std::snapshot::Snapshot;

/// The calls that were refused since one failed, the last one first. It is for contracts alone.
#[derive(Drop)]
pub(crate) enum Refusals {
    Nothing,
    /// A read or a sync.
    Other(Snapshot<Refusals>),
    /// A write from this offset on, of so many bytes.
    Write(u64, usize, Snapshot<Refusals>),
}

/// The device below until a call of it fails. Then it is dropped, and only contracts know how it was.
#[derive(Drop)]
pub(crate) enum Below<D: Disk + Drop> {
    Open(D),
    Shut(Snapshot<D>, Refusals),
}

/// A device that hands each call on to another one, until one of these fails. Then it drops that device, and each later call fails.
#[derive(Drop)]
pub struct FailStop<D: Disk + Drop> {
    len: u64,
    below: Below<D>,
    // The device below as it was handed in.
    first: Snapshot<D>,
    ghost len_is: { length (medium_below D.medium below).now ≡ len },
    // As long as there is a device below, no call of it has failed.
    ghost no_failure: { failures_while_open D.medium first.value below ≡ (D.medium first.value).faults },
}

impl<D: Disk + Drop> FailStop<D> {
    /// The device over this one, of which no call has failed yet.
    pub fn new(disk: D) -> FailStop<D>
        ensures { result.below ≡ Open disk }
    {
        FailStop {
            len: disk.len(),
            first: Snapshot::of(&disk),
            below: Below::Open(disk),
        }
    }
}

impl<D: Disk + Drop> Disk for FailStop<D> {
    ghost medium = { λ d. medium_below D.medium d.below };

    ghost keeps = { D.keeps };

    fn len(&self) -> u64 {
        self.len
    }

    fn read_at(&mut self, at: u64, out: &mut [u8]) -> Result<(), DiskFault> {
        check_range(self.len, at, out.len())?;
        match &mut self.below {
            Below::Open(disk) => {
                let answer = disk.read_at(at, out);
                if answer.is_err() {
                    self.below = Below::Shut(Snapshot::of(disk), Refusals::Nothing);
                }
                answer
            }
            Below::Shut(_, refused) => {
                *refused = Refusals::Other(Snapshot::of(refused));
                Err(DiskFault::Device)
            }
        }
    }

    fn write_at(&mut self, at: u64, bytes: &[u8]) -> Result<(), DiskFault> {
        check_range(self.len, at, bytes.len())?;
        match &mut self.below {
            Below::Open(disk) => {
                let answer = disk.write_at(at, bytes);
                if answer.is_err() {
                    self.below = Below::Shut(Snapshot::of(disk), Refusals::Nothing);
                }
                answer
            }
            Below::Shut(_, refused) => {
                *refused = Refusals::Write(at, bytes.len(), Snapshot::of(refused));
                Err(DiskFault::Device)
            }
        }
    }

    fn sync(&mut self) -> Result<(), DiskFault> {
        match &mut self.below {
            Below::Open(disk) => {
                let answer = disk.sync();
                if answer.is_err() {
                    self.below = Below::Shut(Snapshot::of(disk), Refusals::Nothing);
                }
                answer
            }
            Below::Shut(_, refused) => {
                *refused = Refusals::Other(Snapshot::of(refused));
                Err(DiskFault::Device)
            }
        }
    }

    // The other device's length is a u64.
    ghost fits = { λ d. fits_either_way D.medium d.below D.fits };

    // Each of its bytes is below 256.
    ghost bytes = { λ d. are_bytes_either_way D.medium d.below D.bytes };
}
