//! Calls of the commands for devices, on files of the system. `expect` makes a call, and fails the test unless it ends with this status,
//! output and standard error (`NOTHING`: empty).
use crate::commands_common::{Call, Expected, NOTHING, Streams, System, expect};
use std::alloc::{AllocError, Global};
use std::fs::{self, OpenOptions, Permissions};
use std::os::unix::fs::PermissionsExt;
use std::process;
use std::test::Fail;

/// Makes a small device in the file whose path takes the place of `@`: one volume of two files of four blocks, in two stripes that hold two
/// blocks each, and four records in a half.
pub(crate) const FORMAT: &str =
    "waffd format @ --volumes 1 --stripes 2 --width 1 --files 2 --blocks 4 --quota 2 --half 4";

pub(crate) const SHOW: &str = "waffd show @";

pub(crate) const SERVE: &str = "waffd serve @";

/// The length of the small device, in bytes.
pub(crate) const LEN: usize = 8840;

/// Its header, but for the zeros after: 1 and WAFFSRV, and the eight numbers of the geometry in two bytes each.
const HEADER: [u8; 24] = [
    1, 0x57, 0x41, 0x46, 0x46, 0x53, 0x52, 0x56, 1, 0, 1, 0, 2, 0, 1, 0, 2, 0, 4, 0, 2, 0, 4, 0,
];

/// What `show` prints of it once it was made.
pub(crate) const MADE: &str =
    "geometry 1 1 2 1 2 4 2 4\narea 0\nrecords 0\nsummary 0 0 0\nimage 2\n";

const DEVICE_FAULT: &str = "waffd: device fault\n";

const TOO_SHORT: &str = "waffd: device too short\n";

/// A path at which there is no file: one that is there is removed.
pub(crate) fn new_path(rt: &HostRuntime, name: &str) -> Result<String, Fail> {
    let id = process::id(rt.process());
    let path = format!(in rt.alloc(); "/tmp/waffd_tests_{name}_{id}")?;
    if fs::exists(rt, path.as_str())? {
        fs::remove_file(rt, path.as_str())?;
    }
    Ok(path)
}

/// Sets a byte, if there is one.
fn put(bytes: &mut [u8], at: usize, byte: u8) {
    if let Some(there) = bytes.get_mut(at) {
        *there = byte;
    }
}

/// Bytes that are set in the small device after it was made: each is an offset and a byte. Where the parts of this device begin:
/// - 0: the header; 64: the root byte, which names area 1 if it is 1, else area 0
/// - 128: the chain byte of half 0; 192: its four gates; 196: its records of 520 bytes
/// - 2276: the chain byte of half 1; 2340: its gates; 2344: its records
/// - 4424: the version of image 0; 4488: its piece 0 (of the volume; 4504: the label); 4552, 5592: its pieces 1 and 2 (of the stripes)
/// - 6632: the version of image 1; 6696: its piece 0 (6704: the files); 6760: its piece 1
pub(crate) type Patches<'a> = &'a [(usize, u8)];

/// The bytes of the small device, just made, with these set. A new one has its header and, in image 0, the version 2.
pub(crate) fn made_bytes(alloc: Global, patches: Patches<'_>) -> Result<Vec<u8>, AllocError> {
    let mut bytes = vec![in alloc; 0u8; LEN]?;
    for (at, byte) in HEADER.iter().enumerate() {
        put(&mut bytes, at, *byte);
    }
    put(&mut bytes, 4424, 2);
    for (at, byte) in patches {
        put(&mut bytes, *at, *byte);
    }
    Ok(bytes)
}

/// Makes the file a small device with these bytes set.
pub(crate) fn write_made<T: System>(rt: &T, path: &str, patches: Patches<'_>) -> Result<(), Fail> {
    let bytes = made_bytes(rt.alloc(), patches)?;
    Ok(fs::write(rt, path, bytes.as_slice())?)
}

/// What is in the file of a device after a call.
#[derive(Clone, Copy, Drop)]
pub(crate) enum Left<'a> {
    /// It isn't looked at.
    Any,

    /// What was there before.
    Same,

    /// The small device, just made, with these bytes set.
    Made(Patches<'a>),
}

/// Makes a call on the device in a file, and fails unless it ends so (`faults`: on the standard error), and leaves this.
pub(crate) fn expect_left<T: System>(
    rt: &T,
    call: Call<'_>,
    status: u8,
    output: Expected<'_>,
    faults: Expected<'_>,
    left: Left<'_>,
) -> Result<(), Fail> {
    let wanted = match left {
        Left::Any => None,
        Left::Same => Some(fs::read(rt, call.path)?),
        Left::Made(patches) => Some(made_bytes(rt.alloc(), patches)?),
    };
    expect(rt, call, status, output, faults)?;
    let Some(wanted) = wanted else {
        return Ok(());
    };
    if fs::read(rt, call.path)?.as_slice() == wanted.as_slice() {
        return Ok(());
    }
    let arguments = call.arguments;
    Err(Fail::new(format_args!("{arguments}: other bytes")))
}

/// Fails unless `show` prints this of the device in a file, and leaves the file as it was.
pub(crate) fn expect_shown<T: System>(rt: &T, path: &str, output: &str) -> Result<(), Fail> {
    let call = Call::on(path, SHOW, b"");
    expect_left(rt, call, 0, Expected::Is(output), NOTHING, Left::Same)
}

/// Calls that make a device and show it, what they print, and what they leave. What was in the file before is gone, also where it was
/// longer.
const MAKING: [(&str, &str, Left<'static>); 4] = [
    (FORMAT, "formatted 8840\n", Left::Made(&[])),
    (SHOW, MADE, Left::Same),
    ("waffd format @", "formatted 1332608\n", Left::Any),
    (FORMAT, "formatted 8840\n", Left::Made(&[])),
];

#[test]
fn a_device_is_made_and_shown(rt: HostRuntime) -> Result<(), Fail> {
    let path = new_path(&rt, "made")?;
    for &(arguments, output, left) in &MAKING {
        let call = Call::on(path.as_str(), arguments, b"");
        expect_left(&rt, call, 0, Expected::Is(output), NOTHING, left)?;
    }
    fs::remove_file(&rt, path.as_str())?;
    Ok(())
}

/// Lengths, in bytes, to which the file of a device is cut or made longer, and the status, the output and the fault of `show` then.
const LENGTHS: [(u64, u8, &str, &str); 4] = [
    (9000, 0, MADE, ""),
    (8839, 1, "", TOO_SHORT),
    (127, 1, "", TOO_SHORT),
    (0, 1, "", TOO_SHORT),
];

#[test]
fn a_device_may_be_longer_and_not_shorter(rt: HostRuntime) -> Result<(), Fail> {
    let path = new_path(&rt, "longer")?;
    write_made(&rt, path.as_str(), &[])?;
    for &(len, status, output, error_text) in &LENGTHS {
        let file = OpenOptions::new().write(true).open(&rt, path.as_str())?;
        file.set_len(len)?;
        let call = Call::on(path.as_str(), SHOW, b"");
        let (output, error_text) = (Expected::Is(output), Expected::Is(error_text));
        expect_left(&rt, call, status, output, error_text, Left::Same)?;
    }
    fs::remove_file(&rt, path.as_str())?;
    Ok(())
}

/// Damage to a device that was just made, and how it is reported.
pub(crate) type Damage<'a> = (Patches<'a>, &'a str);

/// What `show` and `serve` refuse alike.
pub(crate) const DAMAGED: [Damage<'static>; 18] = [
    (&[(0, 0)], "waffd: not formatted\n"),
    (&[(1, 0)], "waffd: not formatted\n"),
    (&[(8, 5)], "waffd: bad geometry\n"),
    (&[(24, 1)], "waffd: bad geometry\n"),
    (&[(64, 1)], "waffd: bad version\n"),
    (&[(4424, 0)], "waffd: bad version\n"),
    (&[(4424, 3)], "waffd: bad version\n"),
    (&[(4424, 9)], "waffd: bad version\n"),
    (&[(4425, 1)], "waffd: bad version\n"),
    (&[(4488, 2)], "waffd: bad piece 0\n"),
    // An image of the first version has no labels.
    (&[(4424, 1), (4488, 1), (4504, 1)], "waffd: bad piece 0\n"),
    (&[(4552, 1)], "waffd: bad piece 1\n"),
    (&[(5592, 2)], "waffd: bad piece 2\n"),
    (&[(192, 1)], "waffd: bad record 0 0\n"),
    (&[(192, 1), (196, 9)], "waffd: bad record 0 0\n"),
    (&[(192, 1), (196, 2)], "waffd: bad record 0 0\n"),
    (
        &[(192, 1), (193, 1), (196, 1), (716, 1)],
        "waffd: bad record 0 1\n",
    ),
    (&[(128, 1), (2276, 1)], "waffd: bad chain\n"),
];

/// Fails unless a call on a small device with the bytes `before` set ends by this fault, with no output, and leaves it with those of
/// `after` set. Where the device is refused (status 1), a second such call has to do the same.
fn expect_refusal<T: System>(
    rt: &T,
    path: &str,
    arguments: &str,
    before: Patches<'_>,
    status: u8,
    error_text: &str,
    after: Patches<'_>,
) -> Result<(), Fail> {
    write_made(rt, path, before)?;
    let times = if status == 1 { 2 } else { 1 };
    for _ in 0..times {
        let call = Call::on(path, arguments, b"makevol 0 0\nsummary\n");
        let left = Left::Made(after);
        expect_left(rt, call, status, NOTHING, Expected::Is(error_text), left)?;
    }
    Ok(())
}

/// The chain byte of half 0 is 1: a cut was in progress. The first record of half 1, which is in force then, is bad: zeros. `serve`
/// finishes the cut before it reports the record.
const BAD_BEHIND: Patches<'static> = &[(128, 1), (2340, 1)];

const BAD_RECORD: &str = "waffd: bad record 1 0\n";

const NO_WORKERS: &str = "waffd: no workers\n";

const WITHOUT_WORKERS: &str = "waffd serve @ --workers 0";

/// A call, what is set in its device, with which status and fault it ends, and what is set afterwards.
type Refused<'a> = (&'a str, Patches<'a>, u8, &'a str, Patches<'a>);

/// First `BAD_BEHIND`, with `show` and with `serve`. Then calls without workers: the device is opened before its workers are counted, and
/// opening makes a checkpoint of its state, the empty one, in area 1. So it is with a new device and with one whose image has version 1;
/// one that is refused stays as it is.
const REFUSED: [Refused<'static>; 5] = [
    (SHOW, BAD_BEHIND, 1, BAD_RECORD, BAD_BEHIND),
    (
        SERVE,
        BAD_BEHIND,
        1,
        BAD_RECORD,
        &[(64, 1), (128, 1), (2340, 1), (6632, 2)],
    ),
    (WITHOUT_WORKERS, &[], 2, NO_WORKERS, &[(64, 1), (6632, 2)]),
    (
        WITHOUT_WORKERS,
        &[(4424, 1)],
        2,
        NO_WORKERS,
        &[(64, 1), (4424, 1), (6632, 2)],
    ),
    (
        WITHOUT_WORKERS,
        &[(0, 0)],
        1,
        "waffd: not formatted\n",
        &[(0, 0)],
    ),
];

#[test]
fn each_refusal_has_its_text_and_leaves_the_file_so(rt: HostRuntime) -> Result<(), Fail> {
    let path = new_path(&rt, "refused")?;
    for &(patches, error_text) in &DAMAGED {
        for arguments in [SHOW, SERVE] {
            expect_refusal(
                &rt,
                path.as_str(),
                arguments,
                patches,
                1,
                error_text,
                patches,
            )?;
        }
    }
    for &(arguments, before, status, error_text, after) in &REFUSED {
        expect_refusal(
            &rt,
            path.as_str(),
            arguments,
            before,
            status,
            error_text,
            after,
        )?;
    }
    fs::remove_file(&rt, path.as_str())?;
    Ok(())
}

/// A root byte of 7, which names area 0, since only 1 names area 1; an image of version 1; a volume in the log, by its gate and its record;
/// and area 1 named, whose image has a volume with file 0, of which block 0 is there.
const SHOWN: [(Patches<'static>, &str); 4] = [
    (&[(64, 7)], MADE),
    (
        &[(4424, 1)],
        "geometry 1 1 2 1 2 4 2 4\narea 0\nrecords 0\nsummary 0 0 0\nimage 1\n",
    ),
    (
        &[(192, 1), (196, 1)],
        "geometry 1 1 2 1 2 4 2 4\narea 0\nrecords 1\nsummary 1 0 0\nimage 2\n",
    ),
    (
        &[(64, 1), (6632, 2), (6696, 1), (6704, 1), (6760, 1)],
        "geometry 1 1 2 1 2 4 2 4\narea 1\nrecords 0\nsummary 1 1 1\nimage 2\n",
    ),
];

#[test]
fn what_a_device_holds_is_shown(rt: HostRuntime) -> Result<(), Fail> {
    let path = new_path(&rt, "shown")?;
    for &(patches, output) in &SHOWN {
        write_made(&rt, path.as_str(), patches)?;
        expect_shown(&rt, path.as_str(), output)?;
    }
    fs::remove_file(&rt, path.as_str())?;
    Ok(())
}

#[test]
fn no_file_is_made_for_a_geometry_out_of_range(rt: HostRuntime) -> Result<(), Fail> {
    let path = new_path(&rt, "range")?;
    let call = Call::on(path.as_str(), "waffd format @ --half 3", b"");
    let error_text = Expected::Is("waffd: geometry out of range\n");
    expect(&rt, call, 2, NOTHING, error_text)?;
    if fs::exists(&rt, path.as_str())? {
        return Err(Fail::new(format_args!("a file was made")));
    }
    Ok(())
}

/// First paths of no file, in no folder, and of a folder. Then the running program, which the system lets nobody write, and a file that the
/// system refuses to sync: `show` reads both, so it neither writes nor syncs.
const UNOPENED: [(&str, &str); 11] = [
    ("waffd serve /tmp/waffd_tests_nothing", DEVICE_FAULT),
    (
        "waffd serve /tmp/waffd_tests_nothing --workers 0",
        DEVICE_FAULT,
    ),
    ("waffd serve /tmp", DEVICE_FAULT),
    ("waffd show /tmp/waffd_tests_nothing", DEVICE_FAULT),
    ("waffd show /tmp/waffd_tests_nothing/device", DEVICE_FAULT),
    ("waffd show /tmp", DEVICE_FAULT),
    ("waffd format /tmp/waffd_tests_nothing/device", DEVICE_FAULT),
    ("waffd format /tmp", DEVICE_FAULT),
    ("waffd show /proc/self/exe", "waffd: not formatted\n"),
    ("waffd serve /proc/self/exe", DEVICE_FAULT),
    ("waffd show /proc/version", TOO_SHORT),
];

#[test]
fn what_the_system_refuses_is_a_device_fault(rt: HostRuntime) -> Result<(), Fail> {
    for &(arguments, error_text) in &UNOPENED {
        expect(
            &rt,
            Call::of(arguments, b""),
            1,
            NOTHING,
            Expected::Is(error_text),
        )?;
    }
    Ok(())
}

/// The administrator may write such a file nevertheless: then `serve` and `format` are not tried.
#[test]
fn a_device_that_may_only_be_read_is_shown(rt: HostRuntime) -> Result<(), Fail> {
    let path = new_path(&rt, "read_only")?;
    write_made(&rt, path.as_str(), &[])?;
    fs::set_permissions(&rt, path.as_str(), Permissions::from_mode(0o444))?;
    let may_write = OpenOptions::new()
        .write(true)
        .open(&rt, path.as_str())
        .is_ok();
    for arguments in [SERVE, FORMAT] {
        if !may_write {
            let call = Call::on(path.as_str(), arguments, b"");
            expect_left(
                &rt,
                call,
                1,
                NOTHING,
                Expected::Is(DEVICE_FAULT),
                Left::Same,
            )?;
        }
    }
    expect_shown(&rt, path.as_str(), MADE)?;
    fs::remove_file(&rt, path.as_str())?;
    Ok(())
}

/// Calls, and outputs that fail at once or at the flush.
const UNWRITTEN: [(&str, Streams); 4] = [
    (FORMAT, Streams::ClosedOutput),
    (FORMAT, Streams::StuckOutput),
    (SHOW, Streams::ClosedOutput),
    (SHOW, Streams::StuckOutput),
];

#[test]
fn a_report_of_a_device_may_fail_to_be_written(rt: HostRuntime) -> Result<(), Fail> {
    let path = new_path(&rt, "closed")?;
    for &(arguments, streams) in &UNWRITTEN {
        let call = Call {
            arguments,
            path: path.as_str(),
            input: b"",
            streams,
        };
        expect(&rt, call, 1, NOTHING, Expected::Is("waffd: write fault\n"))?;
    }
    fs::remove_file(&rt, path.as_str())?;
    Ok(())
}
