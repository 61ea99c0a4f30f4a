//! What the program prints of its arguments and of faults, where, and with which status.
use crate::commands_common::{Call, Expected, NOTHING, Streams, expect, text};
use commands::{Fault, report, report_unreadable_arguments};
use std::io;
use std::io::ErrorKind;
use std::test::Fail;

/// The options of a geometry, as help prints them.
const OPTIONS: &str = "
      --aggregates <N>  Aggregates, 1 to 4 [default: 1]
      --volumes <N>     Volumes of each aggregate, 1 to 8 [default: 4]
      --stripes <N>     Stripes of each volume, 1 to 8 [default: 4]
      --width <N>       Blocks in a row in one stripe, 1 to 64 [default: 4]
      --files <N>       Files of each volume, 1 to 64 [default: 16]
      --blocks <N>      Blocks of each file, 1 to 256 [default: 64]
      --quota <N>       Blocks that a stripe can hold, 1 to 64 [default: 64]
      --half <N>        Records in each half of the log of a device, 4 to 1024 [default: 256]
";

/// The options of `serve`, as help prints them.
const SERVICE: &str = "
      --workers <N>  Threads that run messages, 0 to 64 [default: 2]
      --slots <N>    Lines that are read and whose reply is not sent, 1 to 1024 [default: 16]
      --every <N>    Changes between checkpoints, 0 to 1024; 0 makes them where the log is full [default: 0]
";

/// Arguments that ask for help or the version, and a part of what is printed. `tests/run` tests which kit and which logic the version
/// names.
const HELP: [(&str, &str); 24] = [
    ("waffd --help", "Usage: waffd "),
    ("waffd -h", "Usage: waffd "),
    ("waffd help", "Usage: waffd "),
    ("waffd plain --help", "Usage: waffd "),
    ("waffd help plain", "Usage: waffd "),
    ("waffd format -h", "Usage: waffd "),
    ("waffd help format", "Usage: waffd "),
    ("waffd show --help", "Usage: waffd "),
    ("waffd help show", "Usage: waffd "),
    ("waffd serve -h", "Usage: waffd "),
    ("waffd help serve", "Usage: waffd "),
    ("waffd --version", "waffd 0.1.0 (rattle-kit-"),
    ("waffd -V", ", logic "),
    (
        "waffd --help",
        "A server for messages about files of 512-byte blocks: docs/protocol.md has the messages\n",
    ),
    ("waffd --help", "  plain   Answers the messages"),
    ("waffd --help", "  format  Makes an empty device"),
    ("waffd --help", "  serve   Answers the messages"),
    ("waffd --help", "  show    Tells what the device"),
    ("waffd format -h", "  <DEVICE>  The file of the device"),
    ("waffd show -h", "  <DEVICE>  The file of the device"),
    ("waffd serve -h", "  <DEVICE>  The file of the device"),
    ("waffd serve -h", SERVICE),
    ("waffd plain -h", OPTIONS),
    ("waffd format -h", OPTIONS),
];

#[test]
fn help_goes_to_the_output(rt: HostRuntime) -> Result<(), Fail> {
    for &(arguments, part) in &HELP {
        expect(
            &rt,
            Call::of(arguments, b""),
            0,
            Expected::Has(part),
            NOTHING,
        )?;
    }
    Ok(())
}

/// The fault of a call that leaves out the device's path.
const UNMET: Expected<'static> = Expected::Has(
    "error: the following required arguments were not provided",
);

const OUT_OF_RANGE: Expected<'static> = Expected::Is("waffd: geometry out of range\n");

/// Wrong arguments, and what is printed of them. The last rows give each number of a geometry a value below its range, one above it, and
/// 65535.
const WRONG: [(&str, Expected<'static>); 48] = [
    (
        "waffd plain --version",
        Expected::Has("error: unexpected argument '--version'"),
    ),
    ("waffd serve", UNMET),
    (
        "waffd serve d e",
        Expected::Has("error: unexpected argument 'e'"),
    ),
    (
        "waffd serve d --files 2",
        Expected::Has("error: unexpected argument '--files'"),
    ),
    (
        "waffd serve d --workers 65",
        Expected::Has("error: invalid value '65'"),
    ),
    (
        "waffd serve d --slots 0",
        Expected::Has("error: invalid value '0'"),
    ),
    (
        "waffd serve d --slots=1025",
        Expected::Has("error: invalid value '1025'"),
    ),
    (
        "waffd serve --every 1025 d",
        Expected::Has("error: invalid value '1025'"),
    ),
    ("", Expected::Has("Usage: waffd")),
    ("waffd", Expected::Has("Usage: waffd")),
    (
        "waffd flat",
        Expected::Has("error: unrecognized subcommand 'flat'"),
    ),
    (
        "waffd help flat",
        Expected::Has("error: unrecognized subcommand 'flat'"),
    ),
    (
        "waffd --plain",
        Expected::Has("error: unexpected argument '--plain'"),
    ),
    (
        "waffd plain x",
        Expected::Has("error: unexpected argument 'x'"),
    ),
    (
        "waffd plain --files",
        Expected::Has("error: a value is required"),
    ),
    (
        "waffd plain --files two",
        Expected::Has("error: invalid value 'two'"),
    ),
    (
        "waffd plain --files 65536",
        Expected::Has("error: invalid value '65536'"),
    ),
    (
        "waffd plain --files=-1",
        Expected::Has("error: invalid value '-1'"),
    ),
    (
        "waffd plain --files 2 --files 2",
        Expected::Has("error: the argument '--files <N>' cannot be used multiple times"),
    ),
    (
        "waffd plain --files 0 --blocks x",
        Expected::Has("error: invalid value 'x'"),
    ),
    ("waffd format", UNMET),
    ("waffd show", UNMET),
    (
        "waffd show d e",
        Expected::Has("error: unexpected argument 'e'"),
    ),
    (
        "waffd show d --files 2",
        Expected::Has("error: unexpected argument '--files'"),
    ),
    ("waffd plain --aggregates 0", OUT_OF_RANGE),
    ("waffd plain --aggregates 5", OUT_OF_RANGE),
    ("waffd plain --aggregates 65535", OUT_OF_RANGE),
    ("waffd plain --volumes 0", OUT_OF_RANGE),
    ("waffd plain --volumes 9", OUT_OF_RANGE),
    ("waffd plain --volumes 65535", OUT_OF_RANGE),
    ("waffd plain --stripes 0", OUT_OF_RANGE),
    ("waffd plain --stripes 9", OUT_OF_RANGE),
    ("waffd plain --stripes 65535", OUT_OF_RANGE),
    ("waffd plain --width 0", OUT_OF_RANGE),
    ("waffd plain --width 65", OUT_OF_RANGE),
    ("waffd plain --width 65535", OUT_OF_RANGE),
    ("waffd plain --files 0", OUT_OF_RANGE),
    ("waffd plain --files 65", OUT_OF_RANGE),
    ("waffd plain --files 65535", OUT_OF_RANGE),
    ("waffd plain --blocks 0", OUT_OF_RANGE),
    ("waffd plain --blocks 257", OUT_OF_RANGE),
    ("waffd plain --blocks 65535", OUT_OF_RANGE),
    ("waffd plain --quota 0", OUT_OF_RANGE),
    ("waffd plain --quota 65", OUT_OF_RANGE),
    ("waffd plain --quota 65535", OUT_OF_RANGE),
    ("waffd plain --half 3", OUT_OF_RANGE),
    ("waffd plain --half 1025", OUT_OF_RANGE),
    ("waffd plain --half 65535", OUT_OF_RANGE),
];

/// With wrong arguments no line of the input is answered.
#[test]
fn wrong_arguments_are_reported_on_standard_error(rt: HostRuntime) -> Result<(), Fail> {
    for &(arguments, error_text) in &WRONG {
        expect(
            &rt,
            Call::of(arguments, b"makevol 0 0\n"),
            2,
            NOTHING,
            error_text,
        )?;
    }
    Ok(())
}

/// Calls whose output refuses what is written, their status, and what is printed on the standard error, where that takes it.
const UNWRITTEN: [(&str, Streams, u8, &str); 6] = [
    (
        "waffd --help",
        Streams::ClosedOutput,
        1,
        "waffd: write fault\n",
    ),
    (
        "waffd --help",
        Streams::StuckOutput,
        1,
        "waffd: write fault\n",
    ),
    (
        "waffd --version",
        Streams::ClosedOutput,
        1,
        "waffd: write fault\n",
    ),
    (
        "waffd plain",
        Streams::ClosedOutput,
        1,
        "waffd: write fault\n",
    ),
    ("waffd --help", Streams::AllClosed, 1, ""),
    ("waffd --what", Streams::AllClosed, 2, ""),
];

#[test]
fn what_cannot_be_written_is_a_write_fault(rt: HostRuntime) -> Result<(), Fail> {
    for &(arguments, streams, status, error_text) in &UNWRITTEN {
        let call = Call {
            arguments,
            path: "",
            input: b"summary\n",
            streams,
        };
        expect(&rt, call, status, NOTHING, Expected::Is(error_text))?;
    }
    Ok(())
}

/// Fails unless a fault that was met outside a command is reported by this status and this text.
fn expect_report(found: u8, faults: &[u8], status: u8, error_text: &str) -> Result<(), Fail> {
    if found == status && text(faults) == error_text {
        return Ok(());
    }
    let faults = text(faults);
    Err(Fail::new(format_args!("{error_text}: {found}, {faults}")))
}

/// The fault of arguments that aren't text.
const NO_TEXT: &str = "error: invalid UTF-8 was detected in one or more arguments

For more information, try '--help'.
";

#[test]
fn unreadable_arguments_are_reported(rt: HostRuntime) -> Result<(), Fail> {
    let rows = [
        (ErrorKind::InvalidData, 2, NO_TEXT),
        (ErrorKind::OutOfMemory, 3, "waffd: out of memory\n"),
    ];
    for (kind, status, error_text) in rows {
        let mut faults = Vec::new(rt.alloc());
        let found = report_unreadable_arguments(&io::Error::from(kind), &mut faults);
        expect_report(found, faults.as_slice(), status, error_text)?;
    }
    Ok(())
}

/// How it is reported that no ticket was left. No test can use up 2^64 - 1 tickets, so the fault is handed to `report`.
#[test]
fn that_no_ticket_is_left_has_its_text(rt: HostRuntime) -> Result<(), Fail> {
    let mut faults = Vec::new(rt.alloc());
    let found = report(Fault::NoTicketLeft, &mut faults);
    expect_report(found, faults.as_slice(), 1, "waffd: no ticket left\n")
}
