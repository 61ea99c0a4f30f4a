//! The records of a half, run on a tree.
ghost use Rattle.std.specs.Prelude.{◌≡◌, ◌<◌, ◌≤◌, Some, length, IfOk, IfErr, OnOk};
ghost use Rattle.recovery.specs.OpeningCalls.{IsReadingCall};
ghost use Rattle.recovery.specs.OpenFaults.{IsConsistentFault, record_fault, records_fault};
ghost use Rattle.recovery.specs.Recovery.{after_record, decoding};
ghost use Rattle.oplog.specs.Calls.{IsUsable};
ghost use Rattle.oplog.specs.HalfContent.{front, record_at};
ghost use Rattle.oplog.specs.Log.{layout_of_log};
ghost use Rattle.oplog.specs.Recovery.{run};
ghost use Rattle.parcel.specs.Tree.{IsWholeTree, state_in};

use crate::OpenFault;
use disk::Disk;
use oplog::Halves;
use parcel::{Tree, step};
use protocol::Reply;

/// Runs record `i` of this half on the tree. `BadRecord` exactly where it can't be run there; then the tree isn't
/// of use any more. Any other error is `Device`, which is consistent with any bytes (`IsConsistentFault`).
fn replay_record<D: Disk>(
    log: &mut Halves,
    disk: &mut D,
    half: usize,
    i: usize,
    tree: &mut Tree,
) -> Result<(), OpenFault>
    requires usable { IsUsable log.old (D.medium disk.old) }
    requires half { half < 2 }
    requires i { i < log.old.geometry.half }
    requires whole { IsWholeTree tree.old }
    requires geometry { log.old.geometry ≡ tree.old.geometry }
    ensures done { OnOk result (D.keeps →
        after_record tree.old.geometry (state_in tree.old) (record_at (layout_of_log log.old) half i (D.medium disk.old).now)
        ≡ Some (state_in tree.new)) }
    ensures refused { IfErr result (λ e. D.keeps → IsConsistentFault (record_fault tree.old.geometry (state_in tree.old)
        half i (record_at (layout_of_log log.old) half i (D.medium disk.old).now)) e) }
    ensures whole { OnOk result (IsWholeTree tree.new) }
    ensures geometry { OnOk result (tree.new.geometry ≡ tree.old.geometry) }
    ensures log { OnOk result (log.new ≡ log.old) }
    ensures call { IsReadingCall D.keeps result (D.medium disk.old) (D.medium disk.new) }
{
    let m = log.record(disk, half, i)?;
    match step(tree, m) {
        Reply::Done => Ok(()),
        _ => Err(OpenFault::BadRecord(half, i)),
    }
}

/// Runs the records of this half's front on the tree, in order, and gives their number. `BadRecord` exactly where one
/// can't be run, with the first such record; then the tree isn't of use any more.
pub fn replay<D: Disk>(
    log: &mut Halves,
    disk: &mut D,
    half: usize,
    tree: &mut Tree,
) -> Result<usize, OpenFault>
    requires usable { IsUsable log.old (D.medium disk.old) }
    requires half { half < 2 }
    requires whole { IsWholeTree tree.old }
    requires geometry { log.old.geometry ≡ tree.old.geometry }
    ensures count { IfOk result (λ n. D.keeps → n ≡ length (front (layout_of_log log.old) half (D.medium disk.old).now)) }
    ensures few { IfOk result (λ n. n ≤ log.old.geometry.half) }
    ensures done { OnOk result (D.keeps →
        run (decoding tree.old.geometry) (Some (state_in tree.old))
        (front (layout_of_log log.old) half (D.medium disk.old).now) ≡ Some (state_in tree.new)) }
    ensures refused { IfErr result (λ e. D.keeps → IsConsistentFault (records_fault tree.old.geometry
        (state_in tree.old) half (front (layout_of_log log.old) half (D.medium disk.old).now)) e) }
    ensures whole { OnOk result (IsWholeTree tree.new) }
    ensures geometry { OnOk result (tree.new.geometry ≡ tree.old.geometry) }
    ensures log { OnOk result (log.new ≡ log.old) }
    ensures call { IsReadingCall D.keeps result (D.medium disk.old) (D.medium disk.new) }
{
    let count = log.front(disk, half)?;
    for i in 0..count {
        replay_record(log, disk, half, i, tree)?;
    }
    Ok(count)
}
