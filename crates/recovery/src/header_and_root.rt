//! What a device begins with: its header, and the byte that names an area.
ghost use Rattle.std.specs.Prelude.{◌≡◌, IfNone, IfSome, ◌<◌, ◌≤◌, length, IfErr, IfOk};
ghost use Rattle.affinity.specs.declared.geometry.Geometry.{Geometry};
ghost use Rattle.device_map.specs.Layout.{device_size, layout_of};
ghost use Rattle.oplog.specs.Recovery.{named_area};
ghost use Rattle.recovery.specs.Header.{header_of, HasHeader};
ghost use Rattle.recovery.specs.OpeningCalls.{IsReadingCall};
ghost use Rattle.recovery.specs.OpenFaults.{IsOfHeader};
ghost use Rattle.recovery.specs.Refusals.{IsRefused};
ghost use Rattle.recovery.specs.declared.fault.OpenFault.TheVariants.{Device};

use crate::OpenFault;
use crate::device_reads::read_bytes;
use affinity::Geometry;
use byteorder::{ByteOrder, LittleEndian};
use device_map::{HEADER_SIZE, ROOT_ZONE_AT, ROOT_ZONE_SIZE, device_len};
use disk::Disk;

/// The first byte of the magic, which is written last: 1 once the device is formatted.
pub(crate) const FORMATTED: u8 = 1;

/// What a formatted device begins with.
pub(crate) const MAGIC: [u8; 8] = [FORMATTED, b'W', b'A', b'F', b'F', b'S', b'R', b'V'];

/// The size of header and root zone.
const HEADING_SIZE: usize = HEADER_SIZE + ROOT_ZONE_SIZE;

/// The header of a device of this geometry.
pub(crate) fn header_of(g: &Geometry) -> [u8; HEADER_SIZE]
    ensures { result ≡ header_of g.now }
{
    let mut header = [0u8; HEADER_SIZE];
    header[..8].copy_from_slice(&MAGIC);
    LittleEndian::write_u16_into(&g.numbers(), &mut header[8..24]);
    header
}

/// The geometry whose header this is.
pub(crate) fn geometry_in(header: &[u8; HEADER_SIZE]) -> Option<Geometry>
    ensures some { IfSome result (λ g. header.now ≡ header_of g) }
    ensures none { IfNone result ((g : Geometry) → header.now ≡ header_of g → ⊥) }
{
    let mut numbers = [0u16; 8];
    LittleEndian::read_u16_into(&header[8..24], &mut numbers);
    let Ok(g) = Geometry::new(numbers) else {
        return None;
    };
    if header[..] == header_of(&g)[..] {
        Some(g)
    } else {
        None
    }
}

/// The geometry of a device with a header, which is long enough for all its parts.
pub fn read_header<D: Disk>(disk: &mut D) -> Result<Geometry, OpenFault>
    ensures header { IfOk result (λ g. D.keeps → HasHeader g (D.medium disk.old).now) }
    ensures long_enough { IfOk result (λ g. device_size (layout_of g) ≤ length (D.medium disk.old).now) }
    ensures refused { IfErr result (λ e. D.keeps → IsRefused (D.medium disk.old).now e) }
    // `IsOfHeader`: `Device`, `TooShort`, `NotFormatted` or `BadGeometry`.
    ensures by_header { IfErr result (λ e. IsOfHeader e) }
    ensures call { IsReadingCall D.keeps result (D.medium disk.old) (D.medium disk.new) }
{
    if disk.len() < HEADING_SIZE as u64 {
        return Err(OpenFault::TooShort);
    }
    let mut header = [0u8; HEADER_SIZE];
    read_bytes(disk, 0, &mut header)?;
    if header[..8] != MAGIC[..] {
        return Err(OpenFault::NotFormatted);
    }
    let Some(g) = geometry_in(&header) else {
        return Err(OpenFault::BadGeometry);
    };
    if disk.len() < device_len(&g) {
        return Err(OpenFault::TooShort);
    }
    Ok(g)
}

/// The area that the root zone names.
pub(crate) fn named_area<D: Disk>(disk: &mut D, g: &Geometry) -> Result<usize, OpenFault>
    requires { device_size (layout_of g.now) ≤ length (D.medium disk.old).now }
    ensures area { IfOk result (λ n. D.keeps → n ≡ named_area (layout_of g.now) (D.medium disk.old).now) }
    ensures range { IfOk result (λ n. n < 2) }
    ensures device { IfErr result (λ e. e ≡ Device) }
    ensures call { IsReadingCall D.keeps result (D.medium disk.old) (D.medium disk.new) }
{
    let mut byte = [0u8];
    read_bytes(disk, ROOT_ZONE_AT, &mut byte)?;
    if byte[0] == 1 { Ok(1) } else { Ok(0) }
}
