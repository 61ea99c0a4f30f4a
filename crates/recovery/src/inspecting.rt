//! What a device holds, or why it is refused.
ghost use Rattle.std.specs.Prelude.{◌≡◌, ◌≢◌, ◌+◌, IfErr, IfOk, MatchResult, length};
ghost use Rattle.recovery.specs.OpeningCalls.{IsOpeningCall};
ghost use Rattle.recovery.specs.Refusals.{HasHeaderAndParts, IsRefused};
ghost use Rattle.recovery.specs.Shown.{IsShown};
ghost use Rattle.disk.specs.Device.{moments};

use crate::loading::{load_named, read_header, replay, take_loading_memory};
use crate::{OpenError, OpenFault};
use affinity::Geometry;
use disk::Disk;
use oplog::other;
use parcel::step;
use protocol::{Msg, Reply};
use std::alloc::Global;

/// What a device holds.
#[derive(Clone, Copy, Debug, PartialEq, Eq)]
pub struct Shown {
    /// The geometry of its server.
    pub geometry: Geometry,
    /// The area that is named, 0 or 1: image and half of that number.
    pub area: usize,
    /// How many records are in force.
    pub records: usize,
    /// The reply to `summary` in the state that the device recovers to.
    pub summary: Reply,
    /// The version of the named image.
    pub version: u8,
}

/// Reports what a device holds, which is only read.
fn inspect_on<D: Disk>(alloc: Global, disk: &mut D) -> Result<Shown, OpenFault>
    ensures shown { IfOk result (λ s. D.keeps → IsShown (D.medium disk.old).now s) }
    ensures refused { IfErr result (λ e. D.keeps → IsRefused (D.medium disk.old).now e) }
    ensures memory { IfErr result (λ e. e ≡ OpenFault.OutOfMemory → D.keeps → HasHeaderAndParts (D.medium disk.old).now) }
    ensures untouched { D.keeps → moments (D.medium disk.new) ≡ moments (D.medium disk.old) }
    ensures call { IsOpeningCall result (D.medium disk.old) (D.medium disk.new) }
{
    let geometry = read_header(disk)?;
    let (mut tree, mut log, mut buffer) = take_loading_memory(alloc, &geometry)?;
    let named = load_named(disk, &mut tree, &mut log, &mut buffer)?;
    let more = if named.chained {
        replay(&mut log, disk, other(named.area), &mut tree)?
    } else {
        0
    };
    let summary = step(&mut tree, Msg::Summary);
    Ok(Shown {
        geometry,
        area: named.area,
        records: named.records + more,
        summary,
        version: named.version,
    })
}

/// Reports what a device holds, and hands it back. It is only read: what a read gives, and what a crash may leave now or
/// might have left at any moment, is as before.
///
/// It is refused for the first fault in this order of checks, and for no other reason: length, magic, geometry, length for that
/// geometry, memory, the head of the named image, its pieces, the chain bytes, the records of the named half, those of the
/// other one. `Device` exactly where the device failed.
pub fn inspect<D: Disk>(alloc: Global, d: D) -> Result<(Shown, D), OpenError<D>>
    ensures shown { IfOk result (λ r. D.keeps → IsShown (D.medium d).now r.0) }
    ensures refused { IfErr result (λ e. D.keeps → IsRefused (D.medium d).now e.fault) }

    // `HasHeaderAndParts`: it has the header of a geometry and the length for all its parts, whatever these hold.
    ensures memory { IfErr result (λ e. e.fault ≡ OpenFault.OutOfMemory → D.keeps → HasHeaderAndParts (D.medium d).now) }
    ensures untouched { D.keeps → MatchResult result
        (λ r. moments (D.medium r.1) ≡ moments (D.medium d))
        (λ e. moments (D.medium e.disk) ≡ moments (D.medium d)) }
    ensures device { IfErr result (λ e. (e.fault ≡ OpenFault.Device → (D.medium e.disk).faults ≡ (D.medium d).faults + 1)
        × (e.fault ≢ OpenFault.Device → (D.medium e.disk).faults ≡ (D.medium d).faults)) }
    ensures no_fault { IfOk result (λ r. (D.medium r.1).faults ≡ (D.medium d).faults) }
    ensures len { MatchResult result
        (λ r. length (D.medium r.1).now ≡ length (D.medium d).now)
        (λ e. length (D.medium e.disk).now ≡ length (D.medium d).now) }
{
    let mut disk = d;
    match inspect_on(alloc, &mut disk) {
        Ok(shown) => Ok((shown, disk)),
        Err(fault) => Err(OpenError { disk, fault }),
    }
}
