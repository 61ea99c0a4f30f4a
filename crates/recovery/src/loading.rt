//! A device, loaded: its named image is read into a tree, and the records in force are run on it.
ghost use Rattle.std.specs.Prelude.{◌≡◌, ◌*◌, ◌<◌, ◌≤◌, ◌==◌, false, None, Some, length, IfErr, IfOk, OnOk};
ghost use Rattle.recovery.specs.declared.fault.OpenFault.TheVariants.{BadChain, OutOfMemory};
ghost use Rattle.recovery.specs.Header.{HasHeader};
ghost use Rattle.recovery.specs.OpeningCalls.{IsReadingCall};
ghost use Rattle.recovery.specs.NamedHolds.{NamedHolds, are_both_chained};
ghost use Rattle.recovery.specs.OpenFaults.{IsConsistentFault, IsOfHalf, image_fault};
ghost use Rattle.recovery.specs.Refusals.{IsRefused, fault_if};
ghost use Rattle.image.specs.Image.{image_state, version_in};
ghost use Rattle.oplog.specs.HalfContent.{chain, front};
ghost use Rattle.device_map.specs.Layout.{device_size, image_part, layout_of, part_bytes};
ghost use Rattle.device_map.specs.declared.layout.TheConstants.{BLOCK_ENTRY_SIZE};
ghost use Rattle.oplog.specs.Log.{new_log, with_half_named};
ghost use Rattle.oplog.specs.Recovery.{named_area};
ghost use Rattle.parcel.specs.Tree.{IsWholeTree, state_in};
ghost use Rattle.meaning.specs.State.{empty};

use crate::OpenFault;
use crate::device_reads::{is_chained, version_of};
use crate::header_and_root::named_area;
pub use crate::header_and_root::read_header;
use crate::image_reading::read_pieces;
pub use crate::replaying::replay;
use affinity::Geometry;
use disk::Disk;
use image::layout::largest_piece;
use oplog::{Halves, other};
use parcel::Tree;
use std::alloc::Global;

/// All memory that loading a device of this geometry takes: an empty tree, a log of which nothing is known, and a
/// buffer for the largest piece of an image (that of a stripe: the entry of a block for each block that it can hold).
/// `OutOfMemory` where there isn't so much.
pub fn take_loading_memory(
    alloc: Global,
    g: &Geometry,
) -> Result<(Tree, Halves, Vec<u8>), OpenFault>
    ensures whole { IfOk result (λ r. IsWholeTree r.0) }
    ensures empty { IfOk result (λ r. state_in r.0 ≡ empty) }
    ensures geometry { IfOk result (λ r. r.0.geometry ≡ g.now) }
    ensures log { IfOk result (λ r. r.1 ≡ new_log g.now) }
    ensures buffer { IfOk result (λ r. length r.2.items ≡ g.now.quota * BLOCK_ENTRY_SIZE) }
    ensures fault { IfErr result (λ e. e ≡ OutOfMemory) }
{
    let tree = Tree::new(alloc, *g)?;
    let log = Halves::new(alloc, g)?;
    let buffer = vec![in alloc; 0u8; largest_piece(g)]?;
    Ok((tree, log, buffer))
}

/// Reads the image of this area into an empty tree, and gives its version. An error is the first fault of the image, or `Device`, which is
/// consistent with any bytes (`IsConsistentFault`).
fn read_image<D: Disk>(
    disk: &mut D,
    tree: &mut Tree,
    area: usize,
    buffer: &mut [u8],
) -> Result<u8, OpenFault>
    requires whole { IsWholeTree tree.old }
    requires empty { state_in tree.old ≡ empty }
    requires area { area < 2 }
    requires long_enough { device_size (layout_of tree.old.geometry) ≤ length (D.medium disk.old).now }
    requires room { tree.old.geometry.quota * BLOCK_ENTRY_SIZE ≤ length buffer.old }
    ensures version { IfOk result (λ v. D.keeps →
        v ≡ version_in (part_bytes (layout_of tree.old.geometry) (image_part area) (D.medium disk.old).now)) }
    ensures read { OnOk result (D.keeps → image_state tree.old.geometry
        (part_bytes (layout_of tree.old.geometry) (image_part area) (D.medium disk.old).now) ≡ Some (state_in tree.new)) }
    ensures sound { OnOk result (D.keeps → image_fault tree.old.geometry
        (part_bytes (layout_of tree.old.geometry) (image_part area) (D.medium disk.old).now) ≡ None) }
    ensures refused { IfErr result (λ e. D.keeps → IsConsistentFault (image_fault tree.old.geometry
        (part_bytes (layout_of tree.old.geometry) (image_part area) (D.medium disk.old).now)) e) }
    ensures whole { OnOk result (IsWholeTree tree.new) }
    ensures geometry { OnOk result (tree.new.geometry ≡ tree.old.geometry) }
    ensures call { IsReadingCall D.keeps result (D.medium disk.old) (D.medium disk.new) }
{
    let version = version_of(disk, &tree.geometry(), area)?;
    read_pieces(disk, tree, area, version, buffer)?;
    Ok(version)
}

/// Whether the chain byte of this area's half is 1. `BadChain` if those of both halves are.
fn chain_of<D: Disk>(disk: &mut D, g: &Geometry, area: usize) -> Result<bool, OpenFault>
    requires area { area < 2 }
    requires long_enough { device_size (layout_of g.now) ≤ length (D.medium disk.old).now }
    ensures chained { IfOk result (λ b. D.keeps → b ≡ (chain (layout_of g.now) area (D.medium disk.old).now == 1)) }
    ensures sound { OnOk result (D.keeps → are_both_chained (layout_of g.now) (D.medium disk.old).now ≡ false) }
    ensures refused { IfErr result (λ e. D.keeps →
        IsConsistentFault (fault_if (are_both_chained (layout_of g.now) (D.medium disk.old).now) BadChain None) e) }
    ensures call { IsReadingCall D.keeps result (D.medium disk.old) (D.medium disk.new) }
{
    let named_chained = is_chained(disk, g, area)?;
    if !named_chained {
        return Ok(false);
    }
    let other_chained = is_chained(disk, g, other(area))?;
    if other_chained {
        return Err(OpenFault::BadChain);
    }
    Ok(true)
}

/// What `load_named` reports of the named area.
#[derive(Clone, Copy)]
pub struct Named {
    /// The number of the area, 0 or 1.
    pub area: usize,
    /// The version of its image.
    pub version: u8,
    /// How many records the front of its half has.
    pub records: usize,
    /// Whether the records of the other half are in force after these.
    pub chained: bool,
}

/// Loads what the named area holds by itself: its image is read into an empty tree, and the records of its half are run
/// on it. The log then names that half, with no room. The device is only read.
///
/// The device has a header and all its parts. It is refused for the first of these faults, and for no other: `BadVersion`,
/// `BadPiece`, `BadChain`, `BadRecord` of the named half. `Device` exactly where the device failed.
pub fn load_named<D: Disk>(
    disk: &mut D,
    tree: &mut Tree,
    log: &mut Halves,
    buffer: &mut [u8],
) -> Result<Named, OpenFault>
    requires whole { IsWholeTree tree.old }
    requires empty { state_in tree.old ≡ empty }
    requires log { log.old ≡ new_log tree.old.geometry }
    requires header { D.keeps → HasHeader tree.old.geometry (D.medium disk.old).now }
    requires long_enough { device_size (layout_of tree.old.geometry) ≤ length (D.medium disk.old).now }
    requires room { tree.old.geometry.quota * BLOCK_ENTRY_SIZE ≤ length buffer.old }
    ensures loaded { IfOk result (λ n. D.keeps →
        NamedHolds tree.old.geometry (D.medium disk.old).now n.area n.chained (state_in tree.new)) }
    ensures area { IfOk result (λ n. n.area < 2) }
    ensures version { IfOk result (λ n. D.keeps →
        n.version ≡ version_in (part_bytes (layout_of tree.old.geometry) (image_part n.area) (D.medium disk.old).now)) }
    ensures records { IfOk result (λ n. D.keeps → n.records ≡ length (front (layout_of tree.old.geometry) n.area (D.medium disk.old).now)) }
    ensures few { IfOk result (λ n. n.records ≤ tree.old.geometry.half) }
    ensures log { IfOk result (λ n. log.new ≡ with_half_named n.area (new_log tree.old.geometry)) }
    ensures refused { IfErr result (λ e. D.keeps → IsRefused (D.medium disk.old).now e) }
    ensures half { IfErr result (λ e. D.keeps → IsOfHalf (named_area (layout_of tree.old.geometry) (D.medium disk.old).now) e) }
    ensures whole { OnOk result (IsWholeTree tree.new) }
    ensures geometry { OnOk result (tree.new.geometry ≡ tree.old.geometry) }
    ensures call { IsReadingCall D.keeps result (D.medium disk.old) (D.medium disk.new) }
{
    let g = tree.geometry();
    let area = named_area(disk, &g)?;
    let version = read_image(disk, tree, area, buffer)?;
    let chained = chain_of(disk, &g, area)?;
    log.name(area);
    let records = replay(log, disk, area, tree)?;
    Ok(Named {
        area,
        version,
        records,
        chained,
    })
}
