//! Lines to a tree, one message at a time: what a message asks for is lent to it, and restored after it.
use crate::assertions::assert_named_text;
use crate::plain_meaning::SESSIONS;
use affinity::{Geometry, place_of};
use message::{Msg, Refusal, Reply, no_message_line, parse_line, write_reply};
use parcel::{Job, Tree, run};
use std::alloc::{AllocError, Global};
use std::process::Abort;
use std::test::Fail;

// The reply to a message; none if what it needs is out, which never happens here. `place_of` gives its affinity (not a `Place`), and each
// job has ticket 0.
fn serve(tree: &mut Tree, message: &Msg) -> Option<Reply> {
    let g = tree.geometry();
    let message = *message;
    let Some(a) = place_of(&g, message.kind(), message.numbers()) else {
        return Some(Reply::Refused(Refusal::Range));
    };
    let (standing, parcels) = tree.lend(a)?;
    let done = run(Job::new(g, 0, message, standing, parcels));
    let reply = *done.reply();
    match tree.restore(a, done.into_parcels()) {
        Ok(()) => Some(reply),
        Err(_) => None,
    }
}

// Appends the reply of a tree to a line to the output. The longest reply has 1,031 bytes.
fn append_reply(
    rt: &impl Abort,
    tree: &mut Tree,
    line: &str,
    output: &mut Vec<u8>,
) -> Result<(), AllocError> {
    let Some(message) = parse_line(line.as_bytes()) else {
        return output.extend_from_slice(no_message_line());
    };
    let reply = serve(tree, &message).expect(rt, "nothing is out");
    let mut out = [0; 1031];
    let size = write_reply(&reply, &mut out);
    output.extend_from_slice(&out[..size])
}

/// Asserts that a tree answers each row's line with the row's reply. `name` says what the rows show.
pub(crate) fn assert_replies(
    rt: &impl Abort,
    alloc: Global,
    tree: &mut Tree,
    name: &str,
    rows: &[(&str, &str)],
) -> Result<(), AllocError> {
    let mut output = Vec::new(alloc);
    let mut replies = Vec::new(alloc);
    for (line, reply) in rows {
        append_reply(rt, tree, line, &mut output)?;
        replies.extend_from_slice(reply.as_bytes())?;
        replies.push(b'\n')?;
    }
    assert_named_text(rt, name, output.as_slice(), replies.as_slice());

    Ok(())
}

#[test]
fn each_session_is_answered_as_by_the_serial_server(rt: HostRuntime) -> Result<(), Fail> {
    // What each shows, the numbers of its geometry, and lines with the replies to them.
    for &(name, numbers, rows) in &SESSIONS {
        let mut tree = Tree::new(rt.alloc(), Geometry::new(numbers)?)?;
        assert_replies(&rt, rt.alloc(), &mut tree, name, rows)?;
    }
    Ok(())
}
