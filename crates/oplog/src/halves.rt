//! The two halves of a log as one value, and what goes wrong with it.
ghost use Rattle.std.specs.Prelude.{◌≡◌, ◌+◌, ◌*◌, ◌<◌, ◌≤◌, true, false, length, IfOk, IfSome, IsNone, OnOk};
ghost use Rattle.disk.specs.Device.{moments};
ghost use Rattle.protocol.specs.Messages.{IsMessage};
ghost use Rattle.message.specs.Records.{record_of};
ghost use Rattle.device_map.specs.Layout.{other};
ghost use Rattle.oplog.specs.ChangeRecords.{AreChangesInRange, IsChangeInRange, IsNoChangeRecord};

use crate::half::{Half, RECORDS_PER_WRITE};
use affinity::limits::MOST_RECORDS;
use affinity::{Geometry, changing};
use device_map::{RECORD_SIZE, ROOT_ZONE_AT};
use disk::Disk;
use disk::writes::store;
use message::decode;
use protocol::Msg;
use std::alloc::{AllocError, Global};
use std::marker::Model;

/// Why a call of a log failed.
#[derive(Clone, Copy, Debug, PartialEq, Eq)]
pub enum LogFault {
    /// The device failed during the call.
    Device,
    /// The bytes of this record, given by its half and its number there, are not the record of a change (a message of a changing kind)
    /// whose numbers are in range.
    BadRecord(usize, usize),
}

/// The other area (image and half) than that of this number.
pub fn other(number: usize) -> usize
    requires { number < 2 }
    ensures { result ≡ other number }
{
    1 - number
}

/// The log of a device: which of its halves is named, which is current (records are appended to it), and how many records the current one
/// holds.
///
/// Only `new` takes memory. After a device fault it has failed: from then on only calls that take `&self` may be made.
#[derive(Drop)]
pub struct Halves {
    geometry: Geometry,
    named: usize,
    current: usize,
    used: usize,

    /// Whether the half that isn't named was cleared since it was last named or current.
    cleared: bool,
    failed: bool,

    /// Where the records of a batch are encoded.
    buffer: Vec<u8>,
}

impl Model for Halves {
    ghost use Rattle.oplog.specs.Log.{Log};

    ghost Value = { Log };

    ghost use Rattle.oplog.specs.Halves.{log_of, AreHalves};

    ghost view = { log_of };

    ghost invariant = { AreHalves };
}

impl Halves {
    ghost use Rattle.oplog.specs.Log.{layout_of_log, IsOfRecord, new_log, with_half_named, flipped, chained, log_after, IsLogCall, ReadsNoRecord, NamesRecord, batch_count};
    ghost use Rattle.disk.specs.Device.{Costs};
    ghost use Rattle.disk.specs.CrashImages.{CrashesChangeOnly};
    ghost use Rattle.oplog.specs.Changes.{Cleared, Chained, Flipped, IsSameButChain, IsSameButChainAndGates, IsSameButRoot};
    ghost use Rattle.oplog.specs.HalfContent.{front, record_at};
    ghost use Rattle.oplog.specs.Calls.{IsUsable, IsReadyFor, Grows, HasAdded};

    /// The log of a device that wasn't read yet: until `name`, half 0 counts as named and current, without room.
    /// `AllocError` where there is no memory.
    pub fn new(alloc: Global, g: &Geometry) -> Result<Halves, AllocError>
        ensures { IfOk result (λ log. log ≡ new_log g.now) }
    {
        let geometry = *g;
        let capacity = usize::from(geometry.half);
        let buffer = vec![in alloc; 0u8; capacity.min(RECORDS_PER_WRITE) * RECORD_SIZE]?;
        Ok(Halves {
            geometry,
            named: 0,
            current: 0,
            used: capacity,
            cleared: false,
            failed: false,
            buffer,
        })
    }

    /// Makes this half named and current, with no room. The device isn't touched. The other half stays cleared only if this half was named
    /// and current already.
    pub fn name(&mut self, half: usize)
        requires not_failed { self.old.failed ≡ false }
        requires half { half < 2 }
        ensures { self.new ≡ with_half_named half self.old }
    {
        self.cleared = self.cleared && half == self.named && self.current == self.named;
        self.named = half;
        self.current = half;
        self.used = usize::from(self.geometry.half);
    }

    /// The geometry of the device.
    pub fn geometry(&self) -> Geometry
        ensures { result ≡ self.now.geometry }
    {
        self.geometry
    }

    /// The half that the root zone names; the image of the same number is named too.
    pub fn named(&self) -> usize
        ensures named { result ≡ self.now.named }
        ensures half { result < 2 }
    {
        self.named
    }

    /// The half that records are appended to.
    pub fn current(&self) -> usize
        ensures current { result ≡ self.now.current }
        ensures half { result < 2 }
    {
        self.current
    }

    /// How many records can still be appended to the current half.
    pub fn room(&self) -> usize
        ensures { result + self.now.used ≡ self.now.geometry.half }
    {
        usize::from(self.geometry.half) - self.used
    }

    /// Whether the device has failed in a call.
    pub fn failed(&self) -> bool
        ensures { result ≡ self.now.failed }
    {
        self.failed
    }

    /// Notes that the device has failed, in a call of this log or in another one.
    pub fn fail(&mut self) -> LogFault
        ensures fault { result ≡ LogFault.Device }
        ensures log { self.new ≡ record self.old { failed = true } }
    {
        self.failed = true;
        LogFault::Device
    }

    /// The half of this number.
    fn half(&self, number: usize) -> Half
        requires { number < 2 }
        ensures geometry { result.geometry ≡ self.now.geometry }
        ensures number { result.number ≡ number }
    {
        Half {
            geometry: self.geometry,
            number,
        }
    }

    /// Appends these messages to the current half, in order: their records, a sync, their gates, a sync, for up to
    /// `RECORDS_PER_WRITE` of them at a time. With no message the device isn't touched.
    pub fn append<D: Disk>(&mut self, disk: &mut D, messages: &[Msg]) -> Result<(), LogFault>
        requires usable { IsUsable self.old (D.medium disk.old) }
        requires changes { AreChangesInRange self.old.geometry messages.now }
        requires room { self.old.used + length messages.now ≤ self.old.geometry.half }
        // The current half's front has `used` records, all gates after it are 0, and nothing in this half is unsynced.
        requires ready { D.keeps → IsReadyFor self.old (D.medium disk.old) }

        // A crash at any moment of the call leaves the current half's front as it was, with the first m messages after it, for some m.
        ensures any_moment { D.keeps → Grows self.old messages.now (D.medium disk.old) (D.medium disk.new) }
        ensures added { OnOk result (D.keeps → HasAdded self.old messages.now (D.medium disk.old) (D.medium disk.new)) }
        ensures none { length messages.now ≡ 0 → disk.new ≡ disk.old }

        // Four device calls for each batch: its records, a sync, its gates, a sync.
        ensures costs { D.keeps → Costs result (4 * batch_count (length messages.now)) (D.medium disk.old) (D.medium disk.new) }
        ensures log { self.new ≡ log_after result self.old
            (record self.old { used = self.old.used + length messages.now }) }
        ensures call { ReadsNoRecord result (D.medium disk.old) (D.medium disk.new) }
    {
        let half = self.half(self.current);
        if half
            .append(disk, self.used, messages, &mut self.buffer)
            .is_err()
        {
            return Err(self.fail());
        }
        self.used += messages.len();
        Ok(())
    }

    /// Clears the half that isn't named: its chain byte, the bytes beside it and its gates become 0. Its records stay.
    /// The named half is the current one.
    pub fn clear_other<D: Disk>(&mut self, disk: &mut D) -> Result<(), LogFault>
        requires usable { IsUsable self.old (D.medium disk.old) }
        requires current_is_named { self.old.current ≡ self.old.named }
        ensures any_moment { D.keeps → CrashesChangeOnly (D.medium disk.old) (D.medium disk.new)
            (IsSameButChainAndGates (layout_of_log self.old) (other self.old.named)) }
        ensures cleared { OnOk result (D.keeps → Cleared (layout_of_log self.old) (other self.old.named) (D.medium disk.old)
            (D.medium disk.new)) }
        ensures costs { D.keeps → Costs result 2 (D.medium disk.old) (D.medium disk.new) }
        ensures log { self.new ≡ log_after result self.old (record self.old { cleared = true }) }
        ensures call { ReadsNoRecord result (D.medium disk.old) (D.medium disk.new) }
    {
        let half = self.half(other(self.named));
        if half.clear(disk).is_err() {
            return Err(self.fail());
        }
        self.cleared = true;
        Ok(())
    }

    /// Puts the records of the other half in force after those of the named one, by the chain byte of the named half.
    /// The other half becomes current, with the room of a whole half. Clause `cleared` asks that it was cleared since it was last named or
    /// current.
    pub fn open_chain<D: Disk>(&mut self, disk: &mut D) -> Result<(), LogFault>
        requires usable { IsUsable self.old (D.medium disk.old) }
        requires current_is_named { self.old.current ≡ self.old.named }
        requires cleared { self.old.cleared ≡ true }
        ensures any_moment { D.keeps → CrashesChangeOnly (D.medium disk.old) (D.medium disk.new)
            (IsSameButChain (layout_of_log self.old) self.old.named) }
        ensures chained { OnOk result (D.keeps → Chained (layout_of_log self.old) self.old.named (D.medium disk.old) (D.medium disk.new)) }
        ensures costs { D.keeps → Costs result 2 (D.medium disk.old) (D.medium disk.new) }
        ensures log { self.new ≡ log_after result self.old (chained self.old) }
        ensures call { ReadsNoRecord result (D.medium disk.old) (D.medium disk.new) }
    {
        let half = self.half(self.named);
        if store(disk, half.start(), &[1]).is_err() {
            return Err(self.fail());
        }
        self.current = other(self.named);
        self.used = 0;
        self.cleared = false;
        Ok(())
    }

    /// Names the other half, by the first byte of the root zone. If the named half was also the current one, the other half becomes
    /// current: with the room of a whole half if it was cleared since it was last named or current, with none if it wasn't. If the other
    /// half was current already, it stays so, with its room.
    pub fn flip_root<D: Disk>(&mut self, disk: &mut D) -> Result<(), LogFault>
        requires usable { IsUsable self.old (D.medium disk.old) }
        ensures any_moment { D.keeps → CrashesChangeOnly (D.medium disk.old) (D.medium disk.new) (IsSameButRoot (layout_of_log self.old)) }
        ensures flipped { OnOk result (D.keeps → Flipped (layout_of_log self.old) (other self.old.named) (D.medium disk.old)
            (D.medium disk.new)) }
        ensures costs { D.keeps → Costs result 2 (D.medium disk.old) (D.medium disk.new) }
        ensures log { self.new ≡ log_after result self.old (flipped self.old) }
        ensures call { ReadsNoRecord result (D.medium disk.old) (D.medium disk.new) }
    {
        let other_half = other(self.named);
        if store(disk, ROOT_ZONE_AT, &[other_half as u8]).is_err() {
            return Err(self.fail());
        }
        if self.current == self.named {
            self.current = other_half;
            self.used = if self.cleared {
                0
            } else {
                usize::from(self.geometry.half)
            };
        }
        self.named = other_half;
        self.cleared = false;
        Ok(())
    }

    /// How many records the front of this half has.
    pub fn front<D: Disk>(&mut self, disk: &mut D, half: usize) -> Result<usize, LogFault>
        requires usable { IsUsable self.old (D.medium disk.old) }
        requires half { half < 2 }
        ensures front { IfOk result (λ n. D.keeps → n ≡ length (front (layout_of_log self.old) half (D.medium disk.old).now)) }
        ensures within { IfOk result (λ n. n ≤ self.old.geometry.half) }
        ensures untouched { D.keeps → moments (D.medium disk.new) ≡ moments (D.medium disk.old) }
        ensures log { self.new ≡ log_after result self.old self.old }
        ensures call { ReadsNoRecord result (D.medium disk.old) (D.medium disk.new) }
    {
        let log_half = self.half(half);
        let mut gates = [0; MOST_RECORDS as usize];
        match log_half.front(disk, &mut gates[..log_half.capacity()]) {
            Ok(count) => Ok(count),
            Err(_) => Err(self.fail()),
        }
    }

    /// Record `i` of this half, whatever its gate is. `BadRecord` comes exactly where its bytes are no changing
    /// message in range.
    pub fn record<D: Disk>(&mut self, disk: &mut D, half: usize, i: usize) -> Result<Msg, LogFault>
        requires usable { IsUsable self.old (D.medium disk.old) }
        requires half { half < 2 }
        requires i { i < self.old.geometry.half }
        ensures record { D.keeps → IsOfRecord self.old.geometry (record_at (layout_of_log self.old) half i (D.medium disk.old).now) result }
        ensures change { IfOk result (λ m. IsMessage m × IsChangeInRange self.old.geometry m) }
        ensures names_record { NamesRecord half i result }
        ensures untouched { D.keeps → moments (D.medium disk.new) ≡ moments (D.medium disk.old) }
        ensures log { self.new ≡ log_after result self.old self.old }
        ensures call { IsLogCall result (D.medium disk.old) (D.medium disk.new) }
    {
        let at = self.half(half).record_at(i);
        let mut bytes = [0; RECORD_SIZE];
        if disk.read_at(at, &mut bytes).is_err() {
            return Err(self.fail());
        }
        match change_in_record(&self.geometry, &bytes) {
            Some(m) => Ok(m),
            None => Err(LogFault::BadRecord(half, i)),
        }
    }
}

/// The changing message in range whose record these bytes are.
fn change_in_record(g: &Geometry, bytes: &[u8; RECORD_SIZE]) -> Option<Msg>
    ensures some { IfSome result (λ m. (bytes.now ≡ record_of m) × IsMessage m × IsChangeInRange g.now m) }
    ensures none { IsNone result → IsNoChangeRecord g.now bytes.now }
{
    decode(bytes, g).filter(|m| changing(m.kind()))
}
