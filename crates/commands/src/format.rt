//! `waffd format`: a device of an empty state, in a file.
ghost use Rattle.std.specs.Prelude.{◌≡◌, ◌≤◌, IfOk, OnOk, Some, length};
ghost use Rattle.recovery.specs.Recovery.{recovered_state};
ghost use Rattle.commands.specs.Ends.{EndsFormatting};
ghost use Rattle.commands.specs.Lines.{formatted_line};
ghost use Rattle.device_map.specs.Layout.{device_size, layout_of};
ghost use Rattle.disk.specs.Device.{IsSynced};
ghost use Rattle.meaning.specs.State.{empty};

use crate::faults::Fault;
use crate::lines::{add_line, write_lines};
use affinity::Geometry;
use checkpoint::{device_len, format};
use disk::{Disk, FailStop, FileDisk};
use std::alloc::{AllocError, Global};
use std::fs::File;
use std::io::Write;
use std::rt::Files;

/// What is printed of a device of this geometry that was made. `AllocError` where there is no memory.
fn formatted_text(alloc: Global, geometry: &Geometry) -> Result<Vec<u8>, AllocError>
    ensures { IfOk result (λ line. line.items ≡ formatted_line geometry.now) }
{
    let mut line = Vec::new(alloc);
    add_line(&mut line, "formatted", &[device_len(geometry)])?;
    Ok(line)
}

/// Formats a device, and prints its line. The device is given back, formatted if that went well.
fn format_on<D: Disk, W: Write>(
    alloc: Global,
    disk: D,
    geometry: Geometry,
    line: &[u8],
    w: &mut W,
) -> (D, Result<(), Fault>)
    requires long { device_size (layout_of geometry) ≤ length (D.medium disk).now }
    requires line { line.now ≡ formatted_line geometry }
    ensures made { OnOk result.1 (D.keeps → (recovered_state geometry (D.medium result.0).now ≡ Some empty)
        × IsSynced (D.medium result.0)) }
    ensures ends { EndsFormatting geometry result.1 (W.contents w.old) (W.contents w.new) }
{
    match format(alloc, disk, geometry) {
        Ok(disk) => (disk, write_lines(line, w)),
        Err(error) => (error.disk, Err(Fault::from(error.fault))),
    }
}

/// Makes a device of this geometry in the file of this path, which replaces a file that is there, and prints its length on `w`. At any
/// fault but a failed write on `w` nothing is printed. No contract sees what the file then holds, since none knows whether a file keeps its
/// bytes.
pub fn format_device<T: Files<File = File>, W: Write>(
    rt: &T,
    alloc: Global,
    path: &str,
    geometry: Geometry,
    w: &mut W,
) -> Result<(), Fault>
    ensures { EndsFormatting geometry result (W.contents w.old) (W.contents w.new) }
{
    let line = formatted_text(alloc, &geometry)?;
    let disk = FailStop::new(FileDisk::create(rt, path, device_len(&geometry))?);
    let (_disk, end) = format_on(alloc, disk, geometry, &line, w);
    end
}
