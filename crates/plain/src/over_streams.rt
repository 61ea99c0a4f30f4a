//! The serial server over a reader and a writer.

ghost use Rattle.std.specs.Prelude.{◌≡◌, ℕ, List, Option, IfOk, vec_len};
ghost use Rattle.meaning.specs.State.{empty};
ghost use Rattle.plain.specs.Ends.{EndsSerially};

use crate::PlainFault;
use crate::answering::answer_lent;
use affinity::Geometry;
use message::ReplyBuffer;
use std::alloc::{AllocError, Global};
use std::io::{Read, Write};
use std::marker::{Brand, PhantomData};

/// How many bytes are read at a time.
const READ_SIZE: usize = 65536;

/// Room for what is read.
fn read_buffer(alloc: Global) -> Result<Vec<u8>, AllocError>
    ensures { IfOk result (λ buffer. vec_len buffer ≡ READ_SIZE) }
{
    vec![in alloc; 0; READ_SIZE]
}

/// Answers each line that a reader has left with one line of the output, from the empty state on,
/// until the input ends. Waiting replies are written before a read that may block.
///
/// # Errors
///
/// `PlainFault::Read` where a read fails, also one that was interrupted. The answers to all whole
/// lines that were taken from the reader are written before. `PlainFault::OutOfMemory` where there
/// is no memory, or there are more than 2^64 - 1 lines. What was answered until then is written before.
/// `PlainFault::Write` where the output can't be written. A beginning of the answers is written then, and nothing more after the fault.
pub fn serve_from<R: Read, W: Write>(
    alloc: Global,
    g: &Geometry,
    r: &mut R,
    w: &mut W,
) -> Result<(), PlainFault>
    ensures { EndsSerially g.now empty result (R.remaining r.old) (R.remaining r.new) (W.contents w.old) (W.contents w.new)
        (W.contents w.new) }
{
    let Ok(buffer) = read_buffer(alloc) else {
        return Err(PlainFault::OutOfMemory);
    };
    let Ok(mut out) = ReplyBuffer::new(alloc) else {
        return Err(PlainFault::OutOfMemory);
    };
    // `r` is lent to a reader of lines and comes back as `_back`, so that the clauses know what it has left.
    let (answered, _back) = answer_lent::<R, W, Brand>(
        alloc,
        g,
        r,
        buffer,
        &mut out,
        w,
        PhantomData,
    );
    if let Err(PlainFault::Write) = answered {
        return answered;
    }
    out.send(w)?;
    answered
}

/// The same as `serve_from`, over a reader that is taken by value: what a failed read leaves isn't known.
///
/// # Errors
///
/// Those of `serve_from`.
pub fn serve_plain<R: Read + Drop, W: Write>(
    alloc: Global,
    g: &Geometry,
    r: R,
    w: &mut W,
) -> Result<(), PlainFault>
    ensures { (remaining : Option (List ℕ)) × EndsSerially g.now empty result (R.remaining r) remaining (W.contents w.old)
        (W.contents w.new) (W.contents w.new) }
{
    let mut reader = r;
    serve_from(alloc, g, &mut reader, w)
}
