//! `waffd show`: what the device in a file holds.
ghost use Rattle.std.specs.Prelude.{◌≡◌, IfOk};
ghost use Rattle.affinity.specs.Geometry.{numbers_of};
ghost use Rattle.commands.specs.Ends.{EndsShowing, ShowsBytes};
ghost use Rattle.commands.specs.Lines.{shown_lines};

use crate::faults::Fault;
use crate::lines::{add_line, add_reply, write_lines};
use affinity::Geometry;
use checkpoint::{Shown, inspect};
use disk::{Disk, FileDisk};
use std::alloc::{AllocError, Global};
use std::fs::File;
use std::io::Write;
use std::rt::Files;

/// The eight numbers of a geometry.
fn numbers(geometry: &Geometry) -> [u64; 8]
    ensures { result ≡ numbers_of geometry.now }
{
    geometry.numbers().map(u64::from)
}

/// The five lines that are printed of a device. `AllocError` where there is no memory.
fn shown_text(alloc: Global, shown: &Shown) -> Result<Vec<u8>, AllocError>
    ensures { IfOk result (λ lines. lines.items ≡ shown_lines shown.now) }
{
    let mut lines = Vec::new(alloc);
    add_line(&mut lines, "geometry", &numbers(&shown.geometry))?;
    // The area that is named, 0 or 1, and how many records are in force, also those chained in the other half.
    add_line(&mut lines, "area", &[shown.area as u64])?;
    add_line(&mut lines, "records", &[shown.records as u64])?;
    add_reply(&mut lines, &shown.summary)?;
    // The version of the image's format, 1 or 2.
    add_line(&mut lines, "image", &[u64::from(shown.version)])?;
    Ok(lines)
}

/// Prints on `w` what a device holds. At any fault but a failed write on `w` nothing is printed.
fn show<D: Disk + Drop, W: Write>(alloc: Global, disk: D, w: &mut W) -> Result<(), Fault>
    ensures ends { EndsShowing result (W.contents w.old) (W.contents w.new) }
    ensures shown_text { D.keeps → ShowsBytes (D.medium disk).now result (W.contents w.old) (W.contents w.new) }
{
    let shown = match inspect(alloc, disk) {
        Ok((shown, _disk)) => shown,
        Err(error) => return Err(Fault::from(error.fault)),
    };
    let lines = shown_text(alloc, &shown)?;
    write_lines(&lines, w)
}

/// Prints on `w` what the device in the file of this path holds. The file is only read, and not synced. At any fault but a failed write on
/// `w` nothing is printed.
pub fn show_device<T: Files<File = File>, W: Write>(
    rt: &T,
    alloc: Global,
    path: &str,
    w: &mut W,
) -> Result<(), Fault>
    ensures { EndsShowing result (W.contents w.old) (W.contents w.new) }
{
    let disk = FileDisk::open_read_only(rt, path)?;
    show(alloc, disk, w)
}
