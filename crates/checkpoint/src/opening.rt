//! Opens a journal over a device that a crash may have left.
ghost use Rattle.std.specs.Prelude.{◌≡◌, ◌≢◌, ◌+◌, ◌*◌, ◌<◌, ◌≤◌, true, false, None, Some, length, IfErr, IfOk, MatchResult, OnOk};
ghost use Rattle.affinity.specs.declared.geometry.Geometry.{Geometry};
ghost use Rattle.recovery.specs.declared.fault.OpenFault.TheVariants.{Device, OutOfMemory};
ghost use Rattle.recovery.specs.Header.{HasHeader};
ghost use Rattle.recovery.specs.OpeningCalls.{IsOpeningCall};
ghost use Rattle.recovery.specs.NamedHolds.{NamedHolds};
ghost use Rattle.recovery.specs.Recovery.{recovered_state};
ghost use Rattle.recovery.specs.Refusals.{HasHeaderAndParts, IsRefused, refused};
ghost use Rattle.disk.specs.Device.{IsSynced};
ghost use Rattle.disk.specs.CrashImages.{IsCrashImage, CrashImagesAre};
ghost use Rattle.disk.specs.Device.{moment_number};
ghost use Rattle.image.specs.Image.{image_of};
ghost use Rattle.image.specs.declared.layout.TheConstants.{VERSION};
ghost use Rattle.checkpoint.specs.Buffers.{KeepsBuffers};
ghost use Rattle.checkpoint.specs.Costs.{finish_cost, opening_cost};
ghost use Rattle.checkpoint.specs.Opening.{IsOpened, IsLeftByRefusal, OpeningCrashImages, RecoversAsBefore};
ghost use Rattle.checkpoint.specs.OpeningSteps.{AreLoaded, AreUnloaded, IsFaultAfterCut, IsMade, IsMadeOf, IsRefusedAlike};
ghost use Rattle.checkpoint.specs.RecoversByArea.{RecoversByNamedAlone};
ghost use Rattle.checkpoint.specs.PointAndCut.{IsCutFinished, IsPointed, finished_log, pointed_log};
ghost use Rattle.checkpoint.specs.Journal.{RecoversStill};
ghost use Rattle.oplog.specs.Beyond.{KeepsBeyond};
ghost use Rattle.disk.specs.Device.{Costs};
ghost use Rattle.device_map.specs.Layout.{Layout, device_size, layout_of, other};
ghost use Rattle.device_map.specs.declared.layout.TheConstants.{BLOCK_ENTRY_SIZE};
ghost use Rattle.oplog.specs.Log.{ReadsNoRecord};
ghost use Rattle.parcel.specs.Tree.{IsWholeTree, state_in};

use crate::Journal;
use crate::checkpoint_steps::{finish_on, point_on};
use crate::journal::Buffers;
use crate::snapshot::update_snapshot;
use affinity::Geometry;
use device_map::image_size;
use disk::Disk;
use image::layout::piece_count;
use oplog::{Halves, LogFault, other};
use parcel::Tree;
use recovery::loading::{load_named, read_header, replay, take_loading_memory};
use recovery::{OpenError, OpenFault};
use std::alloc::Global;

/// What a journal is made of, and the tree beside it.
#[derive(Drop)]
struct Parts {
    tree: Tree,
    halves: Halves,

    /// Their dirty flags are those of the images once the opening's checkpoint is made: none of the named one, all of the other one, of
    /// which nothing is known.
    buffers: Buffers,
}

/// All memory that opening a device takes, with a buffer for the largest piece of an image (that of a stripe: the entry of a
/// block for each block that it can hold).
fn take_memory(alloc: Global, g: &Geometry) -> Result<(Parts, Vec<u8>), OpenFault>
    ensures taken { IfOk result (λ r. AreUnloaded r.0) }
    ensures geometry { IfOk result (λ r. r.0.tree.geometry ≡ g.now) }
    ensures buffer { IfOk result (λ r. length r.1.items ≡ g.now.quota * BLOCK_ENTRY_SIZE) }
    ensures fault { IfErr result (λ e. e ≡ OutOfMemory) }
{
    let (tree, halves, buffer) = take_loading_memory(alloc, g)?;
    let pieces = piece_count(g);
    let buffers = Buffers {
        snapshot: vec![in alloc; 0u8; image_size(g)]?,
        named_dirty: vec![in alloc; false; pieces]?,
        other_dirty: vec![in alloc; true; pieces]?,
        pending: vec![in alloc; false; pieces]?,
    };
    let parts = Parts {
        tree,
        halves,
        buffers,
    };
    Ok((parts, buffer))
}

/// Syncs what was written before the opening, so that a crash leaves it.
fn first_sync<D: Disk>(disk: &mut D) -> Result<(), OpenFault>
    ensures any_moment { D.keeps → CrashImagesAre (D.medium disk.old) (D.medium disk.new) (IsCrashImage (D.medium disk.old)) }
    ensures now { D.keeps → (D.medium disk.new).now ≡ (D.medium disk.old).now }
    ensures beyond { D.keeps → (l : Layout) → KeepsBeyond l (D.medium disk.old) (D.medium disk.new) }
    ensures synced { OnOk result (D.keeps → IsSynced (D.medium disk.new)) }
    ensures costs { D.keeps → Costs result 1 (D.medium disk.old) (D.medium disk.new) }
    ensures device { IfErr result (λ e. e ≡ Device) }
    ensures call { IsOpeningCall result (D.medium disk.old) (D.medium disk.new) }
{
    if disk.sync().is_err() {
        return Err(OpenFault::Device);
    }
    Ok(())
}

/// Finishes a cut that was in progress: an image of its state, which the tree holds, is written into the other area, which is then
/// named. The state of the cut is that of the named image with the records of the named half run on it, without those of the other half.
/// `true`: the named half is chained.
fn finish_cut<D: Disk>(parts: &mut Parts, disk: &mut D) -> Result<(), LogFault>
    requires loaded { AreLoaded parts.old (D.medium disk.old) }
    requires synced { D.keeps → IsSynced (D.medium disk.old) }
    requires recovers { D.keeps →
        NamedHolds parts.old.halves.geometry (D.medium disk.old).now parts.old.halves.named true (state_in parts.old.tree) }
    ensures any_moment { D.keeps → RecoversStill parts.old.halves.geometry (D.medium disk.old) (D.medium disk.new) }
    ensures beyond { D.keeps → KeepsBeyond (layout_of parts.old.halves.geometry) (D.medium disk.old) (D.medium disk.new) }
    ensures alike { D.keeps →
        CrashImagesAre (D.medium disk.old) (D.medium disk.new) (IsRefusedAlike parts.old.halves.geometry (D.medium disk.old).now) }
    ensures finished { OnOk result (D.keeps → IsCutFinished parts.old.halves (D.medium disk.old) (D.medium disk.new)) }
    ensures costs { D.keeps → Costs result 4 (D.medium disk.old) (D.medium disk.new) }
    ensures log { OnOk result (parts.new.halves ≡ finished_log parts.old.halves) }
    ensures tree { parts.new.tree ≡ parts.old.tree }
    ensures buffers { KeepsBuffers parts.old.buffers parts.new.buffers }
    ensures call { ReadsNoRecord result (D.medium disk.old) (D.medium disk.new) }
{
    update_snapshot(
        &parts.tree,
        &parts.buffers.other_dirty,
        &mut parts.buffers.snapshot,
    ); // the other half's records aren't replayed yet
    finish_on(
        &mut parts.halves,
        disk,
        &parts.buffers.snapshot,
        &parts.buffers.other_dirty,
    )
}

/// Finishes a cut that was in progress, and then runs the records after it on the tree, which holds the state of the
/// cut. The other area is then named, and its image and its half alone give the state of the device.
fn finish_cut_and_replay<D: Disk>(parts: &mut Parts, disk: &mut D) -> Result<(), OpenFault>
    requires loaded { AreLoaded parts.old (D.medium disk.old) }
    requires synced { D.keeps → IsSynced (D.medium disk.old) }
    requires recovers { D.keeps →
        NamedHolds parts.old.halves.geometry (D.medium disk.old).now parts.old.halves.named true (state_in parts.old.tree) }
    ensures any_moment { D.keeps → RecoversStill parts.old.halves.geometry (D.medium disk.old) (D.medium disk.new) }
    ensures beyond { D.keeps → KeepsBeyond (layout_of parts.old.halves.geometry) (D.medium disk.old) (D.medium disk.new) }
    ensures alike { D.keeps →
        CrashImagesAre (D.medium disk.old) (D.medium disk.new) (IsRefusedAlike parts.old.halves.geometry (D.medium disk.old).now) }
    ensures costs { D.keeps → Costs result 4 (D.medium disk.old) (D.medium disk.new) }
    ensures alone { OnOk result (D.keeps → RecoversByNamedAlone parts.new.halves (D.medium disk.new)) }
    ensures was { OnOk result (D.keeps →
        recovered_state parts.old.halves.geometry (D.medium disk.old).now ≡ Some (state_in parts.new.tree)) }
    ensures sound { OnOk result (D.keeps → refused parts.old.halves.geometry (D.medium disk.old).now ≡ None) }
    ensures refused { IfErr result (λ e. D.keeps → IsRefused (D.medium disk.old).now e) }
    ensures behind { IfErr result (λ e. D.keeps →
        IsFaultAfterCut parts.old.halves.geometry (other parts.old.halves.named) (D.medium disk.old) (D.medium disk.new) e) }
    ensures loaded { OnOk result (AreLoaded parts.new (D.medium disk.new)) }
    ensures geometry { OnOk result (parts.new.halves.geometry ≡ parts.old.halves.geometry) }
    ensures buffers { OnOk result (KeepsBuffers parts.old.buffers parts.new.buffers) }
    ensures call { IsOpeningCall result (D.medium disk.old) (D.medium disk.new) }
{
    let half = other(parts.halves.named());
    finish_cut(parts, disk)?;
    replay(&mut parts.halves, disk, half, &mut parts.tree)?;
    Ok(())
}

/// Loads what the device recovers to into an empty tree. Where a cut was in progress, it is finished after the records of
/// the named half were run, and before those of the other one are.
fn load_in_order<D: Disk>(
    parts: &mut Parts,
    disk: &mut D,
    buffer: &mut [u8],
) -> Result<(), OpenFault>
    requires taken { AreUnloaded parts.old }
    requires header { D.keeps → HasHeader parts.old.tree.geometry (D.medium disk.old).now }
    requires long_enough { device_size (layout_of parts.old.tree.geometry) ≤ length (D.medium disk.old).now }
    requires buffer { parts.old.tree.geometry.quota * BLOCK_ENTRY_SIZE ≤ length buffer.old }
    requires synced { D.keeps → IsSynced (D.medium disk.old) }
    ensures any_moment { D.keeps → RecoversStill parts.old.tree.geometry (D.medium disk.old) (D.medium disk.new) }
    ensures beyond { D.keeps → KeepsBeyond (layout_of parts.old.tree.geometry) (D.medium disk.old) (D.medium disk.new) }
    ensures alike { D.keeps →
        CrashImagesAre (D.medium disk.old) (D.medium disk.new) (IsRefusedAlike parts.old.tree.geometry (D.medium disk.old).now) }
    ensures costs { D.keeps → Costs result
        (finish_cost parts.old.tree.geometry (D.medium disk.old).now) (D.medium disk.old) (D.medium disk.new) }
    ensures alone { OnOk result (D.keeps → RecoversByNamedAlone parts.new.halves (D.medium disk.new)) }
    ensures was { OnOk result (D.keeps → recovered_state parts.old.tree.geometry (D.medium disk.old).now ≡ Some (state_in parts.new.tree)) }
    ensures sound { OnOk result (D.keeps → refused parts.old.tree.geometry (D.medium disk.old).now ≡ None) }
    ensures refused { IfErr result (λ e. D.keeps → IsRefused (D.medium disk.old).now e) }
    ensures unwritten { IfErr result (λ e. D.keeps → IsLeftByRefusal (D.medium disk.old) e (D.medium disk.new)) }
    ensures synced { IfErr result (λ e. e ≢ Device → D.keeps → IsSynced (D.medium disk.new)) }
    ensures loaded { OnOk result (AreLoaded parts.new (D.medium disk.new)) }
    ensures geometry { OnOk result (parts.new.halves.geometry ≡ parts.old.tree.geometry) }
    ensures buffers { OnOk result (KeepsBuffers parts.old.buffers parts.new.buffers) }
    ensures call { IsOpeningCall result (D.medium disk.old) (D.medium disk.new) }
{
    let named = load_named(disk, &mut parts.tree, &mut parts.halves, buffer)?;
    if !named.chained {
        return Ok(());
    }
    finish_cut_and_replay(parts, disk)
}

/// Makes a checkpoint of the whole state, which the tree holds.
fn checkpoint_recovered<D: Disk>(parts: &mut Parts, disk: &mut D) -> Result<(), OpenFault>
    requires loaded { AreLoaded parts.old (D.medium disk.old) }
    requires alone { D.keeps → RecoversByNamedAlone parts.old.halves (D.medium disk.old) }
    requires recovers { D.keeps → recovered_state parts.old.halves.geometry (D.medium disk.old).now ≡ Some (state_in parts.old.tree) }
    ensures any_moment { D.keeps → RecoversStill parts.old.halves.geometry (D.medium disk.old) (D.medium disk.new) }
    ensures beyond { D.keeps → KeepsBeyond (layout_of parts.old.halves.geometry) (D.medium disk.old) (D.medium disk.new) }
    ensures pointed { OnOk result (D.keeps →
        IsPointed parts.old.halves parts.new.buffers.snapshot.items (D.medium disk.old) (D.medium disk.new)) }
    ensures costs { D.keeps → Costs result 6 (D.medium disk.old) (D.medium disk.new) }
    ensures snapshot { parts.new.buffers.snapshot.items ≡ image_of VERSION parts.old.tree.geometry (state_in parts.old.tree) }
    ensures log { OnOk result (parts.new.halves ≡ pointed_log parts.old.halves) }
    ensures tree { parts.new.tree ≡ parts.old.tree }
    ensures buffers { KeepsBuffers parts.old.buffers parts.new.buffers }
    ensures device { IfErr result (λ e. e ≡ Device) }
    ensures call { IsOpeningCall result (D.medium disk.old) (D.medium disk.new) }
{
    update_snapshot(
        &parts.tree,
        &parts.buffers.other_dirty,
        &mut parts.buffers.snapshot,
    );
    let buffers = &parts.buffers;
    point_on(
        &mut parts.halves,
        disk,
        &buffers.snapshot,
        &buffers.other_dirty,
    )?;
    Ok(())
}

/// Opens a device of which nothing is unsynced.
fn open_synced<D: Disk>(alloc: Global, disk: &mut D) -> Result<Parts, OpenFault>
    requires synced { D.keeps → IsSynced (D.medium disk.old) }
    ensures any_moment { D.keeps → CrashImagesAre (D.medium disk.old) (D.medium disk.new) (RecoversAsBefore (D.medium disk.old).now) }
    ensures beyond { D.keeps → (g : Geometry) → HasHeader g (D.medium disk.old).now
        → KeepsBeyond (layout_of g) (D.medium disk.old) (D.medium disk.new) }
    // Writes and syncs: 6 for the checkpoint, and 4 to finish a cut if one was in progress.
    ensures costs { D.keeps → MatchResult result
        (λ p. moment_number (D.medium disk.new)
        ≡ moment_number (D.medium disk.old) + (finish_cost p.halves.geometry (D.medium disk.old).now + 6))
        (λ e. moment_number (D.medium disk.new) ≤ moment_number (D.medium disk.old) + 10) }
    ensures made_of { IfOk result (λ p. D.keeps → IsMadeOf (D.medium disk.old).now p (D.medium disk.new)) }
    ensures made { IfOk result (λ p. IsMade p (D.medium disk.new)) }
    ensures refused { IfErr result (λ e. D.keeps → IsRefused (D.medium disk.old).now e) }
    ensures unwritten { IfErr result (λ e. D.keeps → IsLeftByRefusal (D.medium disk.old) e (D.medium disk.new)) }
    ensures synced { IfErr result (λ e. e ≢ Device → D.keeps → IsSynced (D.medium disk.new)) }
    ensures memory { IfErr result (λ e. e ≡ OutOfMemory → D.keeps → HasHeaderAndParts (D.medium disk.old).now) }
    ensures call { IsOpeningCall result (D.medium disk.old) (D.medium disk.new) }
{
    let g = read_header(disk)?;
    let (mut parts, mut buffer) = take_memory(alloc, &g)?;
    load_in_order(&mut parts, disk, &mut buffer)?;
    checkpoint_recovered(&mut parts, disk)?;
    Ok(parts)
}

/// Opens any device: the first sync covers what is unsynced.
fn open_on<D: Disk>(alloc: Global, disk: &mut D) -> Result<Parts, OpenFault>
    ensures any_moment { D.keeps → OpeningCrashImages (D.medium disk.old) (D.medium disk.new) }
    ensures beyond { D.keeps → (g : Geometry) → HasHeader g (D.medium disk.old).now
        → KeepsBeyond (layout_of g) (D.medium disk.old) (D.medium disk.new) }
    ensures costs { D.keeps → MatchResult result
        (λ p. moment_number (D.medium disk.new)
        ≡ moment_number (D.medium disk.old) + opening_cost p.halves.geometry (D.medium disk.old).now)
        (λ e. moment_number (D.medium disk.new) ≤ moment_number (D.medium disk.old) + 11) }
    ensures made_of { IfOk result (λ p. D.keeps → IsMadeOf (D.medium disk.old).now p (D.medium disk.new)) }
    ensures made { IfOk result (λ p. IsMade p (D.medium disk.new)) }
    ensures refused { IfErr result (λ e. D.keeps → IsRefused (D.medium disk.old).now e) }
    ensures unwritten { IfErr result (λ e. D.keeps → IsLeftByRefusal (D.medium disk.old) e (D.medium disk.new)) }
    ensures synced { IfErr result (λ e. e ≢ Device → D.keeps → IsSynced (D.medium disk.new)) }
    ensures memory { IfErr result (λ e. e ≡ OutOfMemory → D.keeps → HasHeaderAndParts (D.medium disk.old).now) }
    ensures call { IsOpeningCall result (D.medium disk.old) (D.medium disk.new) }
{
    first_sync(disk)?;
    open_synced(alloc, disk)
}

/// Opens a device: reads what it recovers to into a tree, finishes a cut that was in progress, and makes a checkpoint.
///
/// It is refused for the first fault in this order of checks, and for no other reason: length, magic, geometry, length for that
/// geometry, memory, the head of the named image, its pieces, the chain bytes, the records of the named half, those of the
/// other one. A refusal comes before anything is written. But where a record of the half after the
/// named one is bad, the cut was finished before: then the area of that half is named, nothing is unsynced, and the next
/// call gives the same fault. A device without a header, or too short for its parts, is left as it is, also where it fails
/// meanwhile. `Device` exactly where the device failed.
pub fn open<D: Disk>(alloc: Global, d: D) -> Result<(Journal<D>, Tree), OpenError<D>>
    ensures opened { IfOk result (λ r. D.keeps → IsOpened (D.medium d) r.0 (state_in r.1)) }
    ensures tree { IfOk result (λ r. (r.1.geometry ≡ r.0.geometry) × IsWholeTree r.1) }

    // There is room for as many records as a half holds (`geometry.half`).
    ensures begins { IfOk result (λ r.
        (r.0.room ≡ r.0.geometry.half) × (r.0.pieces_left ≡ None) × (r.0.failed ≡ false)) }

    // Until the first sync of the call is over, a crash leaves what one just before the call might have left. After it, what a
    // crash leaves recovers to the same state, or is refused for the same fault.
    ensures any_moment { D.keeps → MatchResult result
        (λ r. OpeningCrashImages (D.medium d) r.0.medium)
        (λ e. OpeningCrashImages (D.medium d) (D.medium e.disk)) }

    // The bytes of the device after its last part stay, even after a crash.
    ensures beyond { D.keeps → (g : Geometry) → HasHeader g (D.medium d).now → MatchResult result
        (λ r. KeepsBeyond (layout_of g) (D.medium d) r.0.medium)
        (λ e. KeepsBeyond (layout_of g) (D.medium d) (D.medium e.disk)) }

    // How many writes and syncs it takes.
    ensures costs { D.keeps → MatchResult result
        (λ r. moment_number r.0.medium ≡ moment_number (D.medium d) + opening_cost r.0.geometry (D.medium d).now)
        (λ e. moment_number (D.medium e.disk) ≤ moment_number (D.medium d) + 11) }
    ensures refused { IfErr result (λ e. D.keeps → IsRefused (D.medium d).now e.fault) }
    ensures unwritten { IfErr result (λ e. D.keeps → IsLeftByRefusal (D.medium d) e.fault (D.medium e.disk)) }

    // The first sync comes before all else: only a fault of the device leaves something unsynced.
    ensures synced { IfErr result (λ e. e.fault ≢ OpenFault.Device → D.keeps → IsSynced (D.medium e.disk)) }

    // `HasHeaderAndParts`: it has the header of a geometry and the length for all its parts, whatever these hold.
    ensures memory { IfErr result (λ e. e.fault ≡ OpenFault.OutOfMemory → D.keeps → HasHeaderAndParts (D.medium d).now) }
    ensures device { IfErr result (λ e. (e.fault ≡ OpenFault.Device → (D.medium e.disk).faults ≡ (D.medium d).faults + 1)
        × (e.fault ≢ OpenFault.Device → (D.medium e.disk).faults ≡ (D.medium d).faults)) }
    ensures no_fault { IfOk result (λ r. r.0.medium.faults ≡ (D.medium d).faults) }
    ensures len { MatchResult result
        (λ r. length r.0.medium.now ≡ length (D.medium d).now)
        (λ e. length (D.medium e.disk).now ≡ length (D.medium d).now) }
{
    let mut disk = d;
    match open_on(alloc, &mut disk) {
        Ok(parts) => {
            let Parts {
                tree,
                halves,
                buffers,
            } = parts;
            let journal = Journal::new(disk, halves, buffers);
            Ok((journal, tree))
        }
        Err(fault) => Err(OpenError { disk, fault }),
    }
}
