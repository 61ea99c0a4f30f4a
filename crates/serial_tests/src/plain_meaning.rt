//! What messages mean, one after the other: tables of lines, each with the reply to it.
//!
//! Geometries: `SMALL` has one volume of two files of four blocks, in two stripes that hold two blocks each; `DEFAULTS` is the program's
//! own.

use crate::common::{DEFAULTS, SMALL};
use crate::plain_borders::{SMALL_ROWS, WIDE, WIDE_ROWS};
use crate::plain_rows::{Session, assert_session};
use std::test::Fail;

/// Each kind of message, in range and out of it, and a line that is no message.
const EACH_KIND: [(&str, &str); 33] = [
    ("usage 0 0", "error volume"),
    ("makevol 0 0", "done"),
    ("create 0 0 0", "done"),
    ("write 0 0 0 0 6162", "done"),
    ("read 0 0 0 0", "block 6162"),
    ("write 0 0 0 0 00", "done"),
    ("read 0 0 0 0", "block 00"),
    ("read 0 0 0 3", "hole"),
    ("read 0 0 1 0", "error file"),
    ("read 0 0 0 4", "error range"),
    ("write 0 0 0 4 61", "error range"),
    ("makevol 0 1", "error range"),
    ("read 00 0 0 0", "error line"),
    ("list 0 0", "files 0"),
    ("usage 0 0", "usage 1 1 open"),
    ("summary", "summary 1 1 1"),
    ("label 0 0", "label 00"),
    ("setlabel 0 0 6162", "done"),
    ("label 0 0", "label 6162"),
    ("seal 0 0", "done"),
    ("usage 0 0", "usage 1 1 sealed"),
    ("punch 0 0 0 0", "error sealed"),
    ("setlabel 0 0 63", "error sealed"),
    ("unseal 0 0", "done"),
    ("punch 0 0 0 0", "done"),
    ("read 0 0 0 0", "hole"),
    ("delete 0 0 0", "done"),
    ("delete 0 0 0", "error file"),
    ("list 0 0", "files"),
    ("dropvol 0 0", "done"),
    ("dropvol 0 0", "error volume"),
    ("label 0 0", "error volume"),
    ("summary", "summary 0 0 0"),
];

const READ_BACK: [(&str, &str); 10] = [
    ("makevol 0 0", "done"),
    ("create 0 0 0", "done"),
    ("write 0 0 0 0 6162", "done"),
    ("read 0 0 0 0", "block 6162"),
    ("read 0 0 0 3", "hole"),
    ("read 0 0 1 0", "error file"),
    ("write 0 0 0 4 61", "error range"),
    ("makevol 0 1", "error range"),
    ("makevol 0 0", "error exists"),
    ("create 0 0 0", "error exists"),
];

const READ_BACK_BY_DEFAULT: [(&str, &str); 4] = [
    ("makevol 0 0", "done"),
    ("create 0 0 0", "done"),
    ("write 0 0 0 0 6162", "done"),
    ("read 0 0 0 0", "block 6162"),
];

const ZERO_BLOCK: [(&str, &str); 4] = [
    ("makevol 0 0", "done"),
    ("create 0 0 0", "done"),
    ("write 0 0 0 0 00", "done"),
    ("read 0 0 0 0", "block 00"),
];

const DEFAULT_LIMITS: [(&str, &str); 6] = [
    ("makevol 0 4", "error range"),
    ("write 0 0 0 0 61", "error volume"),
    ("makevol 0 0", "done"),
    ("create 0 0 0", "done"),
    ("read 0 0 0 63", "hole"),
    ("read 0 0 0 64", "error range"),
];

// Stripe 0 can hold two blocks. The even blocks of file 0 and the odd ones of file 1 belong there.
const FULL_STRIPE: [(&str, &str); 13] = [
    ("makevol 0 0", "done"),
    ("create 0 0 0", "done"),
    ("create 0 0 1", "done"),
    ("write 0 0 0 0 61", "done"),
    ("write 0 0 0 2 61", "done"),
    ("write 0 0 1 1 61", "error space"),
    ("write 0 0 1 0 61", "done"),
    ("write 0 0 0 2 62", "done"),
    ("read 0 0 0 2", "block 62"),
    ("read 0 0 1 1", "hole"),
    ("delete 0 0 0", "done"),
    ("write 0 0 1 1 61", "done"),
    ("read 0 0 1 1", "block 61"),
];

const FIRST_CHECKS: [(&str, &str); 14] = [
    ("makevol 0 1", "error range"),
    ("makevol 65535 0", "error range"),
    ("create 0 0 2", "error range"),
    ("create 0 0 0", "error volume"),
    ("write 0 0 0 0 01", "error volume"),
    ("read 0 0 0 0", "error volume"),
    ("makevol 0 0", "done"),
    ("create 0 0 0", "done"),
    ("read 0 0 0 3", "hole"),
    ("read 0 0 0 4", "error range"),
    ("seal 0 0", "done"),
    ("create 0 0 0", "error sealed"),
    ("delete 0 0 1", "error sealed"),
    ("write 0 0 1 0 01", "error sealed"),
];

const SEALED_VOLUME: [(&str, &str); 22] = [
    ("seal 0 0", "error volume"),
    ("makevol 0 0", "done"),
    ("create 0 0 0", "done"),
    ("write 0 0 0 0 6162", "done"),
    ("read 0 0 0 0", "block 6162"),
    ("seal 0 0", "done"),
    ("write 0 0 0 1 61", "error sealed"),
    ("create 0 0 0", "error sealed"),
    ("dropvol 0 0", "error sealed"),
    ("punch 0 0 0 0", "error sealed"),
    ("delete 0 0 0", "error sealed"),
    ("setlabel 0 0 63", "error sealed"),
    ("read 0 0 0 0", "block 6162"),
    ("seal 0 0", "done"),
    ("unseal 0 0", "done"),
    ("dropvol 0 0", "done"),
    ("makevol 0 0", "done"),
    ("list 0 0", "files"),
    ("dropvol 0 0", "done"),
    ("list 0 0", "error volume"),
    ("makevol 0 0", "done"),
    ("makevol 0 0", "error exists"),
];

const LABELS: [(&str, &str); 15] = [
    ("makevol 0 0", "done"),
    ("create 0 0 0", "done"),
    ("write 0 0 0 0 6162", "done"),
    ("read 0 0 0 0", "block 6162"),
    ("label 0 0", "label 00"),
    ("setlabel 0 0 6162", "done"),
    ("label 0 0", "label 6162"),
    ("seal 0 0", "done"),
    ("setlabel 0 0 63", "error sealed"),
    ("label 0 0", "label 6162"),
    // 33 bytes
    (
        "setlabel 0 0 616161616161616161616161616161616161616161616161616161616161616161",
        "error line",
    ),
    ("unseal 0 0", "done"),
    ("dropvol 0 0", "done"),
    ("makevol 0 0", "done"),
    ("label 0 0", "label 00"),
];

const ROOM_AGAIN: [(&str, &str); 14] = [
    ("makevol 0 0", "done"),
    ("create 0 0 0", "done"),
    ("create 0 0 1", "done"),
    ("write 0 0 0 0 01", "done"),
    ("write 0 0 0 2 02", "done"),
    ("write 0 0 1 1 03", "error space"),
    ("punch 0 0 0 2", "done"),
    ("punch 0 0 0 2", "done"),
    ("read 0 0 0 2", "hole"),
    ("write 0 0 0 2 02", "done"),
    ("delete 0 0 0", "done"),
    ("delete 0 0 0", "error file"),
    ("write 0 0 1 1 03", "done"),
    ("punch 0 0 0 0", "error file"),
];

const COUNTS: [(&str, &str); 10] = [
    ("summary", "summary 0 0 0"),
    ("list 0 0", "error volume"),
    ("makevol 0 0", "done"),
    ("create 0 0 0", "done"),
    ("create 0 0 1", "done"),
    ("write 0 0 1 0 01", "done"),
    ("list 0 0", "files 0 1"),
    ("usage 0 0", "usage 2 1 open"),
    ("summary", "summary 1 2 1"),
    ("usage 0 1", "error range"),
];

/// The serial server gives these replies, and so does a tree that lends each message the parcels at its affinity.
pub(crate) const SESSIONS: [Session<'static>; 15] = [
    ("each kind of message", SMALL, &EACH_KIND),
    ("a block is read back", SMALL, &READ_BACK),
    ("a block of zeros is read back", SMALL, &ZERO_BLOCK),
    (
        "a block is read back by default",
        DEFAULTS,
        &READ_BACK_BY_DEFAULT,
    ),
    (
        "a block of zeros is read back by default",
        DEFAULTS,
        &ZERO_BLOCK,
    ),
    ("numbers at the default limits", DEFAULTS, &DEFAULT_LIMITS),
    ("no line", DEFAULTS, &[]),
    (
        "a stripe is full until a file is deleted",
        SMALL,
        &FULL_STRIPE,
    ),
    ("the first check that fails counts", SMALL, &FIRST_CHECKS),
    ("a sealed volume stays as it is", SMALL, &SEALED_VOLUME),
    ("a label stays until another is set", SMALL, &LABELS),
    ("what is removed makes room", SMALL, &ROOM_AGAIN),
    ("files and blocks are counted", SMALL, &COUNTS),
    ("each kind is in range up to its limits", SMALL, &SMALL_ROWS),
    ("each kind is in range up to wider limits", WIDE, &WIDE_ROWS),
];

#[test]
fn each_session_is_answered(rt: HostRuntime) -> Result<(), Fail> {
    for session in &SESSIONS {
        assert_session(&rt, rt.alloc(), session)?;
    }
    Ok(())
}
