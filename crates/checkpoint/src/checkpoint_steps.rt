//! The steps of a checkpoint on a device. A crash at any moment of one leaves a device that recovers to the same as before.
ghost use Rattle.std.specs.Prelude.{◌≡◌, true, Some, length, OnOk, OnErr};
ghost use Rattle.recovery.specs.NamedHolds.{NamedHolds};
ghost use Rattle.recovery.specs.Recovery.{recovered_state};
ghost use Rattle.disk.specs.CrashImages.{CrashImagesAre};
ghost use Rattle.image.specs.Image.{image_state};
ghost use Rattle.image.specs.Pieces.{piece_count};
ghost use Rattle.checkpoint.specs.Costs.{point_cost};
ghost use Rattle.checkpoint.specs.OpeningSteps.{IsRefusedAlike};
ghost use Rattle.checkpoint.specs.RecoversByArea.{RecoversByNamedAlone};
ghost use Rattle.checkpoint.specs.PointAndCut.{IsCutBegun, IsCutFinished, IsFlipped, IsPointed, IsCutUnfinished, IsCutWritten, finished_log, flipped_log, pointed_log};
ghost use Rattle.checkpoint.specs.Journal.{RecoversStill};
ghost use Rattle.checkpoint.specs.Extents.{AgreeOnClean, AreAllDirty};
ghost use Rattle.checkpoint.specs.Images.{image_in};
ghost use Rattle.oplog.specs.Beyond.{KeepsBeyond};
ghost use Rattle.oplog.specs.Calls.{IsUsable};
ghost use Rattle.disk.specs.Device.{Costs};
ghost use Rattle.device_map.specs.Layout.{image_size, layout_of, other};
ghost use Rattle.oplog.specs.Log.{ReadsNoRecord, chained};
ghost use Rattle.meaning.specs.State.{State};

use crate::extents::{sync_image, write_image};
use disk::Disk;
use oplog::{Halves, LogFault, other};

/// Makes a checkpoint into the area that isn't named, with this image of what the device recovers to. Of the image only the
/// dirty extents (a piece each; the first with the image's head) are written: all others are on the device already.
pub(crate) fn point_on<D: Disk>(
    halves: &mut Halves,
    disk: &mut D,
    bytes: &[u8],
    dirty: &[bool],
) -> Result<(), LogFault>
    requires usable { IsUsable halves.old (D.medium disk.old) }
    requires size { length bytes.now ≡ image_size halves.old.geometry }
    requires dirty { length dirty.now ≡ piece_count halves.old.geometry }
    requires current_is_named { halves.old.current ≡ halves.old.named }
    requires alone { D.keeps → RecoversByNamedAlone halves.old (D.medium disk.old) }
    requires image { D.keeps → image_state halves.old.geometry bytes.now ≡ recovered_state halves.old.geometry (D.medium disk.old).now }
    requires clean { D.keeps → AgreeOnClean halves.old.geometry dirty.now
        (image_in halves.old.geometry (other halves.old.named) (D.medium disk.old)) bytes.now }
    ensures any_moment { D.keeps → RecoversStill halves.old.geometry (D.medium disk.old) (D.medium disk.new) }
    ensures beyond { D.keeps → KeepsBeyond (layout_of halves.old.geometry) (D.medium disk.old) (D.medium disk.new) }
    ensures pointed { OnOk result (D.keeps → IsPointed halves.old bytes.now (D.medium disk.old) (D.medium disk.new)) }
    ensures costs { D.keeps → Costs result (point_cost dirty.now) (D.medium disk.old) (D.medium disk.new) }
    ensures log { OnOk result (halves.new ≡ pointed_log halves.old) }
    ensures geometry { halves.new.geometry ≡ halves.old.geometry }
    ensures used { OnErr result (halves.new.used ≡ halves.old.used) }
    ensures failed { OnErr result (halves.new.failed ≡ true) }
    ensures call { ReadsNoRecord result (D.medium disk.old) (D.medium disk.new) }
{
    let g = halves.geometry();
    let area = other(halves.named());
    halves.clear_other(disk)?;
    if write_image(disk, &g, area, bytes, dirty).is_err() {
        return Err(halves.fail());
    }
    halves.flip_root(disk)
}

/// Begins a cut: the other half is cleared, and put in force after the named one.
pub(crate) fn cut_on<D: Disk>(halves: &mut Halves, disk: &mut D) -> Result<(), LogFault>
    requires usable { IsUsable halves.old (D.medium disk.old) }
    requires current_is_named { halves.old.current ≡ halves.old.named }
    requires alone { D.keeps → RecoversByNamedAlone halves.old (D.medium disk.old) }
    ensures any_moment { D.keeps → RecoversStill halves.old.geometry (D.medium disk.old) (D.medium disk.new) }
    ensures beyond { D.keeps → KeepsBeyond (layout_of halves.old.geometry) (D.medium disk.old) (D.medium disk.new) }
    ensures begun { OnOk result (D.keeps → IsCutBegun halves.old (D.medium disk.old) (D.medium disk.new)) }
    ensures costs { D.keeps → Costs result 4 (D.medium disk.old) (D.medium disk.new) }
    ensures log { OnOk result (halves.new ≡ chained halves.old) }
    ensures geometry { halves.new.geometry ≡ halves.old.geometry }
    ensures used { OnErr result (halves.new.used ≡ halves.old.used) }
    ensures failed { OnErr result (halves.new.failed ≡ true) }
    ensures call { ReadsNoRecord result (D.medium disk.old) (D.medium disk.new) }
{
    halves.clear_other(disk)?; // before it is in force
    halves.open_chain(disk)
}

/// Ends a cut of which the whole image is written: it is synced, and named.
pub(crate) fn flip_on<D: Disk>(
    halves: &mut Halves,
    disk: &mut D,
    bytes: &[u8],
) -> Result<(), LogFault>
    requires usable { IsUsable halves.old (D.medium disk.old) }
    requires apart { halves.old.current ≡ other halves.old.named }
    requires written { D.keeps → IsCutWritten halves.old bytes.now (D.medium disk.old) }
    ensures any_moment { D.keeps → RecoversStill halves.old.geometry (D.medium disk.old) (D.medium disk.new) }
    ensures beyond { D.keeps → KeepsBeyond (layout_of halves.old.geometry) (D.medium disk.old) (D.medium disk.new) }
    ensures flipped { OnOk result (D.keeps → IsFlipped halves.old (D.medium disk.old) (D.medium disk.new)) }
    ensures costs { D.keeps → Costs result 3 (D.medium disk.old) (D.medium disk.new) }
    ensures log { OnOk result (halves.new ≡ flipped_log halves.old) }
    ensures geometry { halves.new.geometry ≡ halves.old.geometry }
    ensures used { OnErr result (halves.new.used ≡ halves.old.used) }
    ensures failed { OnErr result (halves.new.failed ≡ true) }
    ensures call { ReadsNoRecord result (D.medium disk.old) (D.medium disk.new) }
{
    if sync_image(disk).is_err() {
        return Err(halves.fail());
    }
    halves.flip_root(disk)
}

/// Finishes a cut that was in progress when the device was left: `bytes`, the image of what the named area holds without
/// the records of the other half, is written into the other area, which is then named. The records of that area's half
/// were in force behind the others, and stay in force. In clause `alike`, `true` says that the named half is chained.
pub(crate) fn finish_on<D: Disk>(
    halves: &mut Halves,
    disk: &mut D,
    bytes: &[u8],
    dirty: &[bool],
) -> Result<(), LogFault>
    requires usable { IsUsable halves.old (D.medium disk.old) }
    requires size { length bytes.now ≡ image_size halves.old.geometry }
    requires dirty { length dirty.now ≡ piece_count halves.old.geometry }
    requires all { AreAllDirty halves.old.geometry dirty.now }
    requires current_is_named { halves.old.current ≡ halves.old.named }
    requires unfinished { D.keeps → IsCutUnfinished halves.old bytes.now (D.medium disk.old) }
    ensures any_moment { D.keeps → RecoversStill halves.old.geometry (D.medium disk.old) (D.medium disk.new) }
    ensures beyond { D.keeps → KeepsBeyond (layout_of halves.old.geometry) (D.medium disk.old) (D.medium disk.new) }
    ensures alike { D.keeps → (x : State) → image_state halves.old.geometry bytes.now ≡ Some x
        → NamedHolds halves.old.geometry (D.medium disk.old).now halves.old.named true x
        → CrashImagesAre (D.medium disk.old) (D.medium disk.new) (IsRefusedAlike halves.old.geometry (D.medium disk.old).now) }
    ensures finished { OnOk result (D.keeps → IsCutFinished halves.old (D.medium disk.old) (D.medium disk.new)) }
    ensures costs { D.keeps → Costs result 4 (D.medium disk.old) (D.medium disk.new) }
    ensures log { OnOk result (halves.new ≡ finished_log halves.old) }
    ensures call { ReadsNoRecord result (D.medium disk.old) (D.medium disk.new) }
{
    let g = halves.geometry();
    let area = other(halves.named());
    if write_image(disk, &g, area, bytes, dirty).is_err() {
        return Err(halves.fail());
    }
    halves.flip_root(disk)
}
