//! Which lines are messages, and which message each of them is.

use crate::common::{block_of, padded};
use message::{Msg, parse_line};
use std::process::Abort;

// Asserts that this line is this message; none: that it is no message.
fn assert_parsed(rt: &impl Abort, line: &[u8], message: Option<Msg>) {
    assert_eq!(rt; parse_line(line), message, "at {line:?}");
}

const MESSAGES: [(&str, Msg); 17] = [
    ("makevol 0 0", Msg::MakeVol(0, 0)),
    ("makevol 65535 10", Msg::MakeVol(65535, 10)),
    ("create 0 0 0", Msg::Create(0, 0, 0)),
    ("create 1 20 300", Msg::Create(1, 20, 300)),
    ("read 0 0 0 63", Msg::Read(0, 0, 0, 63)),
    ("read 0 0 0 65535", Msg::Read(0, 0, 0, 65535)),
    (
        "read 65535 65535 65535 65535",
        Msg::Read(65535, 65535, 65535, 65535),
    ),
    ("read 10 100 1000 10000", Msg::Read(10, 100, 1000, 10000)),
    ("dropvol 1 2", Msg::DropVol(1, 2)),
    ("delete 1 2 3", Msg::Delete(1, 2, 3)),
    ("seal 1 2", Msg::Seal(1, 2)),
    ("unseal 1 2", Msg::Unseal(1, 2)),
    ("punch 1 2 3 4", Msg::Punch(1, 2, 3, 4)),
    ("list 1 2", Msg::List(1, 2)),
    ("usage 1 2", Msg::Usage(1, 2)),
    ("summary", Msg::Summary),
    ("label 3 4", Msg::Label(3, 4)),
];

/// Lines that write, their numbers, and the bytes that the block begins with.
const WRITES: [(&str, [u16; 4], &[u8]); 4] = [
    ("write 0 0 0 0 6162", [0, 0, 0, 0], b"ab"),
    ("write 1 2 3 4 00", [1, 2, 3, 4], b""),
    ("write 1 2 3 4 000A", [1, 2, 3, 4], &[0, 10]),
    ("write 9 8 7 6 aAfF09", [9, 8, 7, 6], &[170, 255, 9]),
];

#[test]
fn reads_messages(rt: HostRuntime) {
    for (line, message) in MESSAGES.iter() {
        assert_parsed(&rt, line.as_bytes(), Some(*message));
    }
    for (line, numbers, first) in WRITES.iter() {
        let [a, v, f, b] = *numbers;
        let message = Msg::Write(a, v, f, b, block_of(first));
        assert_parsed(&rt, line.as_bytes(), Some(message));
    }
    let label = Msg::SetLabel(0, 0, padded(b"ab"));
    assert_parsed(&rt, b"setlabel 0 0 6162", Some(label));
}

/// Lines that are no messages.
const OTHER_LINES: [&str; 52] = [
    "",
    " ",
    "read",
    "read ",
    "read 0 0 0",
    "read 0 0 0 0 0",
    "read 0 0 0 0 ",
    " read 0 0 0 0",
    "read  0 0 0 0",
    "read 0 0  0 0",
    "read\t0 0 0 0",
    "read\t0\t0\t0\t0",
    "read 0 0 0 0\r",
    "READ 0 0 0 0",
    "Read 0 0 0 0",
    "reads 0 0 0 0",
    "rea 0 0 0 0",
    "read 00 0 0 0",
    "read 01 0 0 0",
    "read 0 0 0 65536",
    "read 0 0 0 99999",
    "read 0 0 0 100000",
    "read 0 0 0 4294967296",
    "read 0 0 0 18446744073709551616",
    "read 0 0 0 -1",
    "read 0 0 0 +1",
    "read 0 0 0 1.0",
    "read 0 0 0 0x1",
    "read 0 0 0 a",
    "makevol 0",
    "makevol 0 0 0",
    "create 0 0",
    "create 0 0 0 0",
    "write 0 0 0 0",
    "write 0 0 0 0 ",
    "write 0 0 0 0 6",
    "write 0 0 0 0 616",
    "write 0 0 0 0 6g",
    "write 0 0 0 0 61 62",
    "write 0 0 0 0 6162 ",
    "write 0 0 0 6162",
    "error line",
    "done",
    "summary 0",
    "summary ",
    "list 0",
    "seal 0 0 0",
    "setlabel 0 0",
    "setlabel 0 0 6",
    "setlabel 0 0 ",
    "label 0 0 61",
    "Summary",
];

#[test]
fn refuses_other_lines(rt: HostRuntime) {
    for line in OTHER_LINES.iter() {
        assert_parsed(&rt, line.as_bytes(), None);
    }
    for byte in [0, 0xff] {
        assert_parsed(&rt, &[byte], None);
    }
}
