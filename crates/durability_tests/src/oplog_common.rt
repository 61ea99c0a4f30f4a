//! What tests share: a small server with its log and its device.
ghost use Rattle.std.specs.Prelude.{◌≡◌, ◌<◌, false, length, OnOk};
ghost use Rattle.disk.specs.Memory.{medium_of};
ghost use Rattle.oplog.specs.Calls.{IsLongEnough, IsReadyFor};

use affinity::Geometry;
use device_map::device_len;
use disk::{Disk, MemDisk};
use harness::{are_changes_in_range, torn};
use message::Msg;
use oplog::{Halves, LogFault};
use std::alloc::{AllocError, Global};
use std::test::Fail;

/// Clears the half that isn't named, and names it.
fn change_halves<D: Disk>(disk: &mut D, log: &mut Halves) -> Result<(), LogFault>
    requires not_failed { log.old.failed ≡ false }
    requires current_is_named { log.old.current ≡ log.old.named }
    requires long_enough { IsLongEnough log.old (D.medium disk.old) }
    ensures ready { OnOk result (D.keeps → IsReadyFor log.new (D.medium disk.new)) }
    ensures geometry { log.new.geometry ≡ log.old.geometry }
    ensures not_failed { OnOk result (log.new.failed ≡ false) }
    ensures len { length (D.medium disk.new).now ≡ length (D.medium disk.old).now }
{
    log.clear_other(disk)?;
    log.flip_root(disk)?;
    Ok(())
}

/// Clears the half that isn't named, and opens the chain to it.
fn chain_halves<D: Disk>(disk: &mut D, log: &mut Halves) -> Result<(), LogFault>
    requires not_failed { log.old.failed ≡ false }
    requires current_is_named { log.old.current ≡ log.old.named }
    requires half { log.old.named < 2 }
    requires long_enough { IsLongEnough log.old (D.medium disk.old) }
    ensures ready { OnOk result (D.keeps → IsReadyFor log.new (D.medium disk.new)) }
    ensures geometry { log.new.geometry ≡ log.old.geometry }
    ensures not_failed { OnOk result (log.new.failed ≡ false) }
    ensures len { length (D.medium disk.new).now ≡ length (D.medium disk.old).now }
{
    log.clear_other(disk)?;
    log.open_chain(disk)?;
    Ok(())
}

/// Appends these, if there is room and they are changes in range, and returns whether that succeeded.
fn appends<D: Disk>(disk: &mut D, log: &mut Halves, messages: &[Msg]) -> bool
    requires not_failed { log.old.failed ≡ false }
    requires long_enough { IsLongEnough log.old (D.medium disk.old) }
    requires ready { D.keeps → IsReadyFor log.old (D.medium disk.old) }
    ensures geometry { log.new.geometry ≡ log.old.geometry }
    ensures len { length (D.medium disk.new).now ≡ length (D.medium disk.old).now }
{
    let g = log.geometry();
    are_changes_in_range(&g, messages)
        && messages.len() <= log.room()
        && log.append(disk, messages).is_ok()
}

/// How the half that isn't named, once it is cleared, becomes current, so that messages go there: it is named, or chained to the named one.
#[derive(Clone, Copy, Drop)]
pub(crate) enum Way {
    Named,
    Chained,
}

/// A call of a log.
#[derive(Clone, Copy, Drop)]
pub(crate) enum Step {
    /// Clears the half that isn't named.
    Clear,
    /// Clears that half, and opens the chain to it.
    Chain,
    /// Names that half.
    Flip,
    /// Takes this half as named and current, without a call of the device.
    Name(usize),
    /// Counts the records in the front of this half.
    Front(usize),
    /// Reads a record, named by its half and its number there.
    Record(usize, usize),
}

/// The answer in place of a call that wasn't made, since the log is not fit for it. No record has these numbers.
pub(crate) const UNFIT: LogFault = LogFault::BadRecord(9, 9);

/// The log of a server of one volume with two stripes, and its device, which is long enough for it.
#[derive(Drop)]
pub(crate) struct Server {
    pub(crate) disk: MemDisk,
    pub(crate) log: Halves,
    ghost long_enough: { IsLongEnough log (medium_of disk) },
}

impl Server {
    /// With `half` records in a half, and a device of zeros.
    pub(crate) fn new(alloc: Global, half: u16) -> Result<Server, Fail> {
        let g = Geometry::new([1, 1, 2, 1, 2, 4, 2, half])?;
        let disk = MemDisk::new(alloc, device_len(&g))?;
        let log = Halves::new(alloc, &g)?;
        Ok(Server { disk, log })
    }

    /// The server after a crash of this kind (`harness::torn`), with a new log, which has read nothing of the device.
    pub(crate) fn crashed(self, alloc: Global, kind: usize) -> Result<Server, AllocError> {
        let Server { disk, log } = self;
        let g = log.geometry();
        let log = Halves::new(alloc, &g)?;
        let disk = disk.crash(torn(alloc, kind)?);
        Ok(Server { disk, log })
    }

    /// Makes the n-th call of the device from now fail, and all later ones if it stops there; none if n is 0.
    pub(crate) fn fails_at(&mut self, n: u64, stops: bool) {
        if n == 0 {
            return;
        }
        if stops {
            self.disk.stop_at(n);
        } else {
            self.disk.fail_at(n);
        }
    }

    /// Writes to the device directly, not by a call of the log, and returns whether that succeeded.
    pub(crate) fn writes(&mut self, at: u64, bytes: &[u8]) -> bool {
        self.disk.write_at(at, bytes).is_ok()
    }

    /// Makes the other half current in this way and appends these messages. Returns whether all of that succeeded.
    pub(crate) fn takes(&mut self, way: Way, messages: &[Msg]) -> bool {
        matches!(self.try_take(way, messages), Ok(true))
    }

    /// As `takes`. `UNFIT` where the log isn't fit for it.
    fn try_take(&mut self, way: Way, messages: &[Msg]) -> Result<bool, LogFault> {
        if self.log.failed() || self.log.current() != self.log.named() {
            return Err(UNFIT);
        }
        match way {
            Way::Named => {
                change_halves(&mut self.disk, &mut self.log)?;
                Ok(appends(&mut self.disk, &mut self.log, messages))
            }
            Way::Chained => {
                chain_halves(&mut self.disk, &mut self.log)?;
                Ok(appends(&mut self.disk, &mut self.log, messages))
            }
        }
    }

    fn clears(&mut self) -> Result<(), LogFault> {
        if self.log.failed() || self.log.current() != self.log.named() {
            return Err(UNFIT);
        }
        self.log.clear_other(&mut self.disk)?;
        Ok(())
    }

    fn chains(&mut self) -> Result<(), LogFault> {
        if self.log.failed() || self.log.current() != self.log.named() {
            return Err(UNFIT);
        }
        chain_halves(&mut self.disk, &mut self.log)?;
        Ok(())
    }

    fn flips(&mut self) -> Result<(), LogFault> {
        if self.log.failed() {
            return Err(UNFIT);
        }
        self.log.flip_root(&mut self.disk)?;
        Ok(())
    }

    fn names(&mut self, half: usize) -> Result<(), LogFault> {
        if self.log.failed() || half >= 2 {
            return Err(UNFIT);
        }
        self.log.name(half);
        Ok(())
    }

    /// How many records the front of a half has.
    pub(crate) fn front(&mut self, half: usize) -> Result<usize, LogFault> {
        if self.log.failed() || half >= 2 {
            return Err(UNFIT);
        }
        let count = self.log.front(&mut self.disk, half)?;
        Ok(count)
    }

    /// Reads a record, by its half and its number there.
    pub(crate) fn record(&mut self, half: usize, i: usize) -> Result<Msg, LogFault> {
        if self.log.failed() || half >= 2 || i >= usize::from(self.log.geometry().half) {
            return Err(UNFIT);
        }
        let message = self.log.record(&mut self.disk, half, i)?;
        Ok(message)
    }

    /// Makes this call of the log, unless the log isn't fit for it (`UNFIT`).
    pub(crate) fn does(&mut self, step: Step) -> Result<(), LogFault> {
        match step {
            Step::Clear => self.clears(),
            Step::Chain => self.chains(),
            Step::Flip => self.flips(),
            Step::Name(half) => self.names(half),
            Step::Front(half) => self.front(half).map(|_| ()),
            Step::Record(half, i) => self.record(half, i).map(|_| ()),
        }
    }

    /// The messages in the front of a half.
    pub(crate) fn messages(&mut self, alloc: Global, half: usize) -> Result<Vec<Msg>, Fail> {
        let mut messages = Vec::new(alloc);
        let count = self.front(half)?;
        for i in 0..count {
            messages.push(self.record(half, i)?)?;
        }
        Ok(messages)
    }

    /// The byte at this offset of the device; 256 if there is none.
    pub(crate) fn byte(&self, at: usize) -> u64 {
        self.disk
            .bytes()
            .get(at)
            .map_or(256, |byte| u64::from(*byte))
    }

    /// How many bytes of the device are not zero.
    pub(crate) fn nonzero(&self) -> u64 {
        let mut count = 0u64;
        for byte in self.disk.bytes() {
            if *byte != 0 {
                count = count.saturating_add(1);
            }
        }
        count
    }
}
