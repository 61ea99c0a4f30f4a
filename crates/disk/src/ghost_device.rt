//! What contracts know of a device, at no cost in memory: its bytes, which of them are unsynced, its moments so far, and how often it
//! failed. All of it follows from the list of its calls, which a snapshot holds.
ghost use Rattle.std.specs.Prelude.{◌≡◌, []};
ghost use Rattle.disk.specs.Device.{fresh_synced};
ghost use Rattle.disk.specs.GhostDevice.{medium_after, bytes_of};

use std::marker::Model;
use std::mem;
use std::snapshot::Snapshot;

/// A call of a device, as it is noted in the list of its calls.
#[derive(Clone, Copy, Debug)]
pub(crate) enum Call {
    /// A device in memory was made, with the given bytes.
    Created,
    /// The bytes were written from this offset on.
    Wrote(u64),
    /// A write from this offset on failed: in this model a read gives what it gave before.
    FailedWrite(u64),
    Synced,
    /// A read or a sync failed.
    Failed,
    /// A file of this length was opened and synced. Contracts see zeros for its bytes.
    OpenedSynced(u64),
    /// A file of this length was opened read-only, and not synced.
    OpenedUnsynced(u64),
}

/// The bytes that a call was given, the last one first.
#[derive(Drop)]
pub(crate) enum ByteList {
    Empty,
    More(u8, Snapshot<ByteList>),
}

/// The calls so far, the last one first.
#[derive(Drop)]
pub(crate) enum CallList {
    Nothing,
    After(Call, Snapshot<ByteList>, Snapshot<CallList>),
}

/// The calls of a device, for contracts alone: a snapshot takes no memory. By itself it is not tied to a device. `MemDisk` ties its
/// bytes and flags to it by ghost fields, `HostFile` ties its length alone.
#[derive(Drop)]
pub(crate) struct GhostDevice {
    last: Snapshot<CallList>,
}

/// These bytes as a list for contracts. The loop has no effect at run time, so a compiler leaves it out.
fn snapshot_of(bytes: &[u8]) -> Snapshot<ByteList>
    ensures { bytes_of result.value ≡ bytes.now }
{
    let mut list = ByteList::Empty;
    for byte in bytes.iter().copied() {
        let before = Snapshot::of(&list);
        list = ByteList::More(byte, before);
    }
    Snapshot::of(&list)
}

impl Model for GhostDevice {
    ghost use Rattle.disk.specs.GhostDevice.{GhostDeviceView, medium_after_all};

    ghost Value = { GhostDeviceView };

    ghost view = { λ s. record { medium = medium_after_all s.last.value } };
}

impl GhostDevice {
    pub(crate) fn new() -> GhostDevice
        ensures { result.medium ≡ fresh_synced [] }
    {
        GhostDevice {
            last: Snapshot::of(&CallList::Nothing),
        }
    }

    /// Notes a call, with the bytes that it was given.
    pub(crate) fn note(&mut self, call: &Call, bytes: &[u8])
        ensures { self.new.medium ≡ medium_after call.now bytes.now self.old.medium }
    {
        let before = mem::replace(&mut self.last, Snapshot::of(&CallList::Nothing));
        self.last = Snapshot::of(&CallList::After(*call, snapshot_of(bytes), before));
    }
}
