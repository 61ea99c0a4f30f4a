//! Ranges of a device: whether it has one, how one is written and marked as unsynced, and how a sync refreshes and clears one.
ghost use Rattle.std.specs.Prelude.{◌≡◌, false, ◌+◌, ◌-◌, ◌<◌, ◌≤◌, ◌↔◌, length, replicate, IfOk, IsErrOf};
ghost use Rattle.disk.specs.declared.fault.DiskFault.TheVariants.{OutOfRange, Device};
ghost use Rattle.disk.specs.Device.{SameOutside, overlaid, marked};

use crate::DiskFault;
use crate::unsynced_span::Span;

/// `OutOfRange` where a device of this length doesn't have n bytes from `at` on; else `at` as an index.
pub(crate) fn check_range(len: u64, at: u64, n: usize) -> Result<usize, DiskFault>
    ensures outside { IsErrOf result OutOfRange ↔ len < at + n }
    ensures only { IsErrOf result Device → ⊥ }
    ensures start { IfOk result (λ start. start ≡ at) }
    ensures inside { IfOk result (λ start. start + n ≤ len) }
{
    if at > len || n as u64 > len - at {
        return Err(DiskFault::OutOfRange);
    }
    Ok(at as usize)
}

/// Writes these bytes from an offset on.
pub(crate) fn overlay(bytes: &mut [u8], start: usize, new: &[u8])
    requires { start + length new.now ≤ length bytes.old }
    ensures len { length bytes.new ≡ length bytes.old }
    ensures written { bytes.new ≡ overlaid bytes.old start new.now }
{
    bytes[start..start + new.len()].copy_from_slice(new);
}

/// Marks n bytes from this offset on as unsynced.
pub(crate) fn mark_unsynced(marks: &mut [bool], start: usize, n: usize)
    requires { start + n ≤ length marks.old }
    ensures len { length marks.new ≡ length marks.old }
    ensures marked { marks.new ≡ marked marks.old start n }
{
    marks[start..start + n].fill(true);
}

/// Makes one row of bytes equal to another, from which it differs in this range alone.
pub(crate) fn refresh(last_synced: &mut [u8], bytes: &[u8], span: Span)
    requires inside { span.end ≤ length bytes.now }
    requires outside { SameOutside span.start (span.end - span.start) bytes.now last_synced.old }
    ensures { last_synced.new ≡ bytes.now }
{
    last_synced[span.start..span.end].copy_from_slice(&bytes[span.start..span.end]);
}

/// Takes away all marks of unsynced bytes, of which none lies outside this range.
pub(crate) fn clear(marks: &mut [bool], span: Span)
    requires inside { span.end ≤ length marks.old }
    requires outside { SameOutside span.start (span.end - span.start) (replicate (length marks.old) false) marks.old }
    ensures { marks.new ≡ replicate (length marks.old) false }
{
    marks[span.start..span.end].fill(false);
}
