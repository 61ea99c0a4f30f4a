//! The lines of replies.

use crate::assertions::assert_text;
use crate::common::{block_of, padded};
use message::{Refusal, Reply, no_message_line, write_reply};
use std::process::Abort;

// Asserts that this reply is this line. The longest line has 1,031 bytes; 7 is a byte that `write_reply` has to overwrite.
fn assert_spelled(rt: &impl Abort, reply: &Reply, line: &[u8]) {
    let mut out = [7; 1031];
    let size = write_reply(reply, &mut out);
    assert_text(rt, &out[..size], line);
}

/// Replies and their lines. `Files` has a number whose bit f is 1 if file f is there.
const REPLIES: [(Reply, &str); 14] = [
    (Reply::Done, "done\n"),
    (Reply::Hole, "hole\n"),
    (Reply::Refused(Refusal::Range), "error range\n"),
    (Reply::Refused(Refusal::Volume), "error volume\n"),
    (Reply::Refused(Refusal::Exists), "error exists\n"),
    (Reply::Refused(Refusal::Sealed), "error sealed\n"),
    (Reply::Refused(Refusal::File), "error file\n"),
    (Reply::Refused(Refusal::Space), "error space\n"),
    (Reply::Files(0), "files\n"),
    (Reply::Files(3), "files 0 1\n"),
    (Reply::Files(1 << 63), "files 63\n"),
    (
        Reply::Usage {
            files: 2,
            blocks: 1,
            sealed: false,
        },
        "usage 2 1 open\n",
    ),
    (
        Reply::Usage {
            files: 64,
            blocks: 4294967295,
            sealed: true,
        },
        "usage 64 4294967295 sealed\n",
    ),
    (
        Reply::Summary {
            volumes: 1,
            files: 2,
            blocks: 10,
        },
        "summary 1 2 10\n",
    ),
];

/// The first bytes of blocks, which zeros follow, and the reply line of each.
const BLOCKS: [(&[u8], &str); 5] = [
    (b"ab", "block 6162\n"),
    (b"", "block 00\n"),
    (&[0, 0, 10], "block 00000a\n"),
    (&[171, 0, 205, 0], "block ab00cd\n"),
    (&[255], "block ff\n"),
];

#[test]
fn writes_replies(rt: HostRuntime) {
    for (reply, line) in REPLIES.iter() {
        assert_spelled(&rt, reply, line.as_bytes());
    }
    for (first, line) in BLOCKS.iter() {
        assert_spelled(&rt, &Reply::Block(block_of(first)), line.as_bytes());
    }
    assert_spelled(&rt, &Reply::Label([0; 32]), b"label 00\n");
    assert_spelled(&rt, &Reply::Label(padded(b"ab")), b"label 6162\n");
    assert_text(&rt, no_message_line(), b"error line\n");
}
