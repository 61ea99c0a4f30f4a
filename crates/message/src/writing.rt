//! Writes bytes so that it is known at a fault what was written.

ghost use Rattle.std.specs.Prelude.{OnErr, OnOk};
ghost use Rattle.std.specs.Io.KnownBytes.{Appends};
ghost use Rattle.message.specs.AppendsBeginning.{AppendsBeginning};

use std::io::{ErrorKind, Write};

/// A writer did not take what was to be written, or could not be flushed.
#[derive(Clone, Copy, Debug, PartialEq, Eq)]
pub struct WriteFault;

/// Writes bytes and flushes them. `write_all` doesn't say what was written at a fault, its calls of `write` do.
///
/// # Errors
///
/// `WriteFault` where the writer fails. Some beginning of the bytes was written then, perhaps none of them or all.
pub fn write_in_order<W: Write>(w: &mut W, bytes: &[u8]) -> Result<(), WriteFault>
    ensures written { OnOk result (Appends (W.contents w.old) (W.contents w.new) bytes.now) }
    ensures begun { OnErr result (AppendsBeginning (W.contents w.old) (W.contents w.new) bytes.now) }
{
    let mut rest = bytes;
    for _ in 0..u64::MAX {
        if rest.is_empty() {
            return if w.flush().is_ok() {
                Ok(())
            } else {
                Err(WriteFault)
            };
        }
        match w.write(rest) {
            Ok(0) => return Err(WriteFault),
            Ok(n) => rest = &rest[n..],
            Err(e) => {
                if e.kind() != ErrorKind::Interrupted {
                    return Err(WriteFault);
                }
            }
        }
    }
    // No run that ends comes here: it would have called the writer 2^64 - 1 times.
    Err(WriteFault)
}
