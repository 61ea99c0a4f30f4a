//! `waffd plain`: the serial server, without a device.
ghost use Rattle.serving.specs.Exchange.{exchange};
ghost use Rattle.commands.specs.Ends.{EndsInMemory};

use crate::faults::Fault;
use affinity::Geometry;
use plain::serve_from;
use std::alloc::Global;
use std::io::{Read, Write};

/// Answers the lines of `r` on `w`, from the empty state on.
pub fn answer_input<R: Read, W: Write>(
    alloc: Global,
    geometry: &Geometry,
    r: &mut R,
    w: &mut W,
) -> Result<(), Fault>
    ensures { EndsInMemory geometry.now result
        (exchange (R.remaining r.old) (R.remaining r.new) (W.contents w.old) (W.contents w.new)) }
{
    Ok(serve_from(alloc, geometry, r, w)?)
}
