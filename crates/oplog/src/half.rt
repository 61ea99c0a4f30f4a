//! One half of a log: where its parts lie, and how records are added to it.
ghost use Rattle.std.specs.Prelude.{◌≡◌, ◌+◌, ◌*◌, ◌<◌, ◌≤◌, length, IfOk, OnOk, min, replicate};
ghost use Rattle.disk.specs.Device.{IsCallInside, SameOutside, moments};
ghost use Rattle.disk.specs.CrashImages.{CrashesChangeOnly};
ghost use Rattle.disk.specs.Device.{Costs};
ghost use Rattle.disk.specs.Store.{Stored};
ghost use Rattle.oplog.specs.Log.{batch_count};
ghost use Rattle.oplog.specs.HalfContent.{front, count_open};
ghost use Rattle.device_map.specs.Layout.{layout_of, device_size, part_at, half_part};
ghost use Rattle.oplog.specs.Changes.{IsReady};
ghost use Rattle.oplog.specs.ChangeRecords.{AreChangesInRange};

use crate::staging::stage;
use affinity::Geometry;
use affinity::limits::MOST_RECORDS;
use device_map::{CHAIN_ZONE_SIZE, RECORD_SIZE, half_at};
use disk::writes::store;
use disk::{Disk, DiskFault};
use protocol::Msg;

/// How many records are written at a time, at most.
pub const RECORDS_PER_WRITE: usize = 64;

const OPEN_GATES: [u8; RECORDS_PER_WRITE] = [1; RECORDS_PER_WRITE];

/// How many bytes lie before the records of a half, at most: its chain byte, the bytes beside it, and its gates.
const MOST_BYTES_BEFORE_RECORDS: usize = CHAIN_ZONE_SIZE + MOST_RECORDS as usize;

const ZEROS: [u8; MOST_BYTES_BEFORE_RECORDS] = [0; MOST_BYTES_BEFORE_RECORDS];

/// A row of zeros, at most `MOST_BYTES_BEFORE_RECORDS`.
fn zeros(count: usize) -> &'static [u8]
    requires { count ≤ MOST_BYTES_BEFORE_RECORDS }
    ensures { result.now ≡ replicate count 0 }
{
    &ZEROS[..count]
}

/// A row of open gates, at most `RECORDS_PER_WRITE`.
fn ones(count: usize) -> &'static [u8]
    requires { count ≤ RECORDS_PER_WRITE }
    ensures { result.now ≡ replicate count 1 }
{
    &OPEN_GATES[..count]
}

/// A half of a log, by its number and the geometry of the device.
#[derive(Clone, Copy)]
pub(crate) struct Half {
    pub geometry: Geometry,
    pub number: usize,
    ghost number_range: { number < 2 },
}

impl Half {
    ghost use Rattle.oplog.specs.Calls.{HalfGrows, HalfHasAdded};

    /// How many records it can hold.
    pub(crate) fn capacity(self) -> usize
        ensures { result ≡ self.geometry.half }
    {
        usize::from(self.geometry.half)
    }

    /// Where its chain byte lies on the device.
    pub(crate) fn start(self) -> u64
        ensures { result ≡ part_at (layout_of self.geometry) (half_part self.number) }
    {
        half_at(&self.geometry, self.number)
    }

    /// Where this gate lies.
    pub(crate) fn gate_at(self, i: usize) -> u64
        requires { i ≤ self.geometry.half }
        ensures { result ≡ part_at (layout_of self.geometry) (half_part self.number) + (CHAIN_ZONE_SIZE + i) }
    {
        self.start() + (CHAIN_ZONE_SIZE + i) as u64
    }

    /// Where this record lies.
    pub(crate) fn record_at(self, i: usize) -> u64
        requires { i ≤ self.geometry.half }
        ensures { result ≡
            part_at (layout_of self.geometry) (half_part self.number) + (CHAIN_ZONE_SIZE + self.geometry.half + i * RECORD_SIZE) }
    {
        self.start() + (CHAIN_ZONE_SIZE + self.capacity() + i * RECORD_SIZE) as u64
    }

    /// Writes zeros over its chain byte, the bytes beside it and its gates, and syncs. The device is long enough for all its parts, not
    /// only for this half.
    pub(crate) fn clear<D: Disk>(self, disk: &mut D) -> Result<(), DiskFault>
        requires long_enough { device_size (layout_of self.geometry) ≤ length (D.medium disk.old).now }
        ensures any_moment { D.keeps → CrashesChangeOnly (D.medium disk.old) (D.medium disk.new)
            (SameOutside (part_at (layout_of self.geometry) (half_part self.number)) (CHAIN_ZONE_SIZE + self.geometry.half)) }
        ensures cleared { OnOk result (D.keeps →
            Stored (part_at (layout_of self.geometry) (half_part self.number))
            (replicate (CHAIN_ZONE_SIZE + self.geometry.half) 0) (D.medium disk.old) (D.medium disk.new)) }
        ensures costs { D.keeps → Costs result 2 (D.medium disk.old) (D.medium disk.new) }
        ensures call { IsCallInside result (D.medium disk.old) (D.medium disk.new) }
    {
        store(disk, self.start(), zeros(CHAIN_ZONE_SIZE + self.capacity()))
    }

    /// Sets `count` gates to 1, from gate `first` on, and syncs: then their records are in the front, if all before them are.
    fn open_gates<D: Disk>(self, disk: &mut D, first: usize, count: usize) -> Result<(), DiskFault>
        requires batch { count ≤ RECORDS_PER_WRITE }
        requires room { first + count ≤ self.geometry.half }
        requires long_enough { device_size (layout_of self.geometry) ≤ length (D.medium disk.old).now }
        ensures any_moment { D.keeps → CrashesChangeOnly (D.medium disk.old) (D.medium disk.new)
            (SameOutside (part_at (layout_of self.geometry) (half_part self.number) + (CHAIN_ZONE_SIZE + first)) count) }
        ensures opened { OnOk result (D.keeps →
            Stored (part_at (layout_of self.geometry) (half_part self.number) + (CHAIN_ZONE_SIZE + first))
            (replicate count 1) (D.medium disk.old) (D.medium disk.new)) }
        ensures costs { D.keeps → Costs result 2 (D.medium disk.old) (D.medium disk.new) }
        ensures call { IsCallInside result (D.medium disk.old) (D.medium disk.new) }
    {
        store(disk, self.gate_at(first), ones(count))
    }

    /// Writes the records and syncs, then opens their gates.
    fn append_batch<D: Disk>(
        self,
        disk: &mut D,
        used: usize,
        messages: &[Msg],
        buffer: &mut [u8],
    ) -> Result<(), DiskFault>
        requires changes { AreChangesInRange self.geometry messages.now }
        requires batch { length messages.now ≤ RECORDS_PER_WRITE }
        requires room { used + length messages.now ≤ self.geometry.half }
        requires buffer { length messages.now * RECORD_SIZE ≤ length buffer.old }
        requires long_enough { device_size (layout_of self.geometry) ≤ length (D.medium disk.old).now }
        // The front has `used` records, all gates behind it are 0, and nothing in this half is unsynced.
        requires ready { D.keeps → IsReady (layout_of self.geometry) self.number used (D.medium disk.old) }
        ensures any_moment { D.keeps → HalfGrows self messages.now (D.medium disk.old) (D.medium disk.new) }
        ensures added { OnOk result (D.keeps → HalfHasAdded self used messages.now (D.medium disk.old) (D.medium disk.new)) }
        ensures costs { D.keeps → Costs result 4 (D.medium disk.old) (D.medium disk.new) }
        ensures call { IsCallInside result (D.medium disk.old) (D.medium disk.new) }
    {
        let size = messages.len() * RECORD_SIZE;
        stage(messages, buffer);
        store(disk, self.record_at(used), &buffer[..size])?;
        self.open_gates(disk, used, messages.len())
    }

    /// Adds these messages, up to `RECORDS_PER_WRITE` at a time, after the first `used` records, which make up the front.
    pub(crate) fn append<D: Disk>(
        self,
        disk: &mut D,
        used: usize,
        messages: &[Msg],
        buffer: &mut [u8],
    ) -> Result<(), DiskFault>
        requires changes { AreChangesInRange self.geometry messages.now }
        requires room { used + length messages.now ≤ self.geometry.half }
        requires buffer { min self.geometry.half RECORDS_PER_WRITE * RECORD_SIZE ≤ length buffer.old }
        requires long_enough { device_size (layout_of self.geometry) ≤ length (D.medium disk.old).now }
        // The front has `used` records, all gates behind it are 0, and nothing in this half is unsynced.
        requires ready { D.keeps → IsReady (layout_of self.geometry) self.number used (D.medium disk.old) }
        ensures any_moment { D.keeps → HalfGrows self messages.now (D.medium disk.old) (D.medium disk.new) }
        ensures added { OnOk result (D.keeps → HalfHasAdded self used messages.now (D.medium disk.old) (D.medium disk.new)) }
        ensures none { length messages.now ≡ 0 → disk.new ≡ disk.old }
        ensures costs { D.keeps → Costs result (4 * batch_count (length messages.now)) (D.medium disk.old) (D.medium disk.new) }
        ensures call { IsCallInside result (D.medium disk.old) (D.medium disk.new) }
    {
        let mut done = 0;
        while done < messages.len() {
            let end = messages.len().min(done + RECORDS_PER_WRITE);
            self.append_batch(disk, used + done, &messages[done..end], buffer)?;
            done = end;
        }
        Ok(())
    }

    /// How many records its front has. The gates are read into `gates`.
    pub(crate) fn front<D: Disk>(self, disk: &mut D, gates: &mut [u8]) -> Result<usize, DiskFault>
        requires size { length gates.old ≡ self.geometry.half }
        requires long_enough { device_size (layout_of self.geometry) ≤ length (D.medium disk.old).now }
        ensures front { IfOk result (λ n. D.keeps → n ≡ length (front (layout_of self.geometry) self.number (D.medium disk.old).now)) }
        ensures within { IfOk result (λ n. n ≤ self.geometry.half) }
        ensures untouched { D.keeps → moments (D.medium disk.new) ≡ moments (D.medium disk.old) }
        ensures call { IsCallInside result (D.medium disk.old) (D.medium disk.new) }
    {
        disk.read_at(self.gate_at(0), gates)?;
        Ok(count_open(gates))
    }
}

/// How many of these are 1 before the first that isn't.
fn count_open(gates: &[u8]) -> usize
    ensures { result ≡ count_open gates.now }
{
    gates.iter().take_while(|gate| **gate == 1).count()
}
