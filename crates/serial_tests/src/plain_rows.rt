//! Lines, each with the reply to it.
use crate::assertions::{assert_equal, assert_named_text};
use affinity::Geometry;
use plain::{PlainFault, serve_plain};
use std::alloc::{AllocError, Global};
use std::io::{Read, Write};
use std::process::Abort;
use std::test::Fail;

/// How a session ends that serves this input at a geometry, given by its eight numbers (as `common::SMALL`). Numbers out of range, which no
/// test has, count as `OutOfMemory`.
pub(crate) fn served_into<R: Read + Drop, W: Write>(
    alloc: Global,
    numbers: [u16; 8],
    input: R,
    output: &mut W,
) -> Result<(), PlainFault> {
    let Ok(geometry) = Geometry::new(numbers) else {
        return Err(PlainFault::OutOfMemory);
    };
    serve_plain(alloc, &geometry, input, output)
}

/// An empty output with room for all that a test writes, so that no write takes memory.
pub(crate) fn room(alloc: Global) -> Result<Vec<u8>, AllocError> {
    Vec::with_capacity(alloc, 4096)
}

/// What a session shows, the geometry that it is served at, and lines with the reply to each.
pub(crate) type Session<'a> = (&'a str, [u16; 8], &'a [(&'a str, &'a str)]);

/// Serves the lines of a session, and asserts that the replies are those of its rows.
pub(crate) fn assert_session(
    rt: &impl Abort,
    alloc: Global,
    session: &Session<'_>,
) -> Result<(), Fail> {
    let (name, numbers, rows) = *session;
    let mut input = Vec::new(alloc);
    let mut replies = Vec::new(alloc);
    for (line, reply) in rows {
        input.extend_from_slice(line.as_bytes())?;
        input.push(b'\n')?;
        replies.extend_from_slice(reply.as_bytes())?;
        replies.push(b'\n')?;
    }
    let mut output = room(alloc)?;
    let end = served_into(alloc, numbers, input.as_slice(), &mut output);
    assert_equal(rt, end, Ok(()));
    assert_named_text(rt, name, output.as_slice(), replies.as_slice());

    Ok(())
}
