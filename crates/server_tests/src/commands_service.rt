//! Calls of the command `serve`, on files of the system. `SERVE` is `waffd serve @`, where the device's path takes the place of `@`, and
//! the device is the small one, `LEN` bytes long, just made (`made_bytes`, `write_made`) with some bytes set. `expect` makes a call, and
//! fails the test unless it ends with this status, output and standard error (`NOTHING`: empty).
use crate::commands_common::{Call, Expected, NOTHING, Streams, System, expect};
use crate::commands_devices::{
    LEN, MADE as JUST_MADE, Patches, SERVE, expect_shown, made_bytes, new_path, write_made,
};
use std::alloc::{AllocError, Global};
use std::fs;
use std::test::Fail;

/// Lines that make a volume and a file, write a block of it, and read that. (`JUST_MADE` is what `show` prints of a device just made.)
const MADE: &str = "makevol 0 0\ncreate 0 0 0\nwrite 0 0 0 0 6162\nread 0 0 0 0\n";

const MADE_REPLY: &str = "done\ndone\ndone\nblock 6162\n";

/// What `show` prints of the small device: the area that is named, and how many records in force, volumes, files and blocks there are.
fn shown(alloc: Global, area: u8, records: u8, summary: &str) -> Result<String, AllocError> {
    format!(in alloc;
        "geometry 1 1 2 1 2 4 2 4\narea {area}\nrecords {records}\nsummary {summary}\nimage 2\n"
    )
}

/// What is set in a device that was made, the call that serves it, the input and the output, and the area and the summary that `show`
/// prints of it afterwards.
type Incarnation<'a> = (Patches<'a>, &'a str, &'a str, &'a str, u8, &'a str);

const THREE_CHANGES: &str = "makevol 0 0\ncreate 0 0 0\nwrite 0 0 0 0 61\n";

const THREE_DONE: &str = "done\ndone\ndone\n";

const TWO_WRITES: &str = "makevol 0 0\ncreate 0 0 0\nwrite 0 0 0 0 61\nwrite 0 0 0 1 62\n";

/// First new devices. Then, with bytes set (`Patches` explains the offsets): a root byte that isn't 1 and so names area 0; a torn gate in
/// the log, after which no record counts; area 1 named, a cut in progress (the chain byte of half 1 is 1), and a record in each half; an
/// image of version 1 with a volume; and one of version 2, whose volume has a label.
const INCARNATIONS: [Incarnation<'static>; 11] = [
    (&[], SERVE, "", "", 0, "0 0 0"),
    (
        &[],
        "waffd serve @ --workers=1 --slots=1",
        MADE,
        MADE_REPLY,
        0,
        "1 1 1",
    ),
    (
        &[],
        SERVE,
        "makevol 0 0\nmakevol 0 0\n",
        "done\nerror exists\n",
        0,
        "1 0 0",
    ),
    (
        &[],
        "waffd serve @ --every 2",
        THREE_CHANGES,
        THREE_DONE,
        1,
        "1 1 1",
    ),
    (
        &[],
        "waffd serve @ --every 0",
        THREE_CHANGES,
        THREE_DONE,
        0,
        "1 1 1",
    ),
    (
        &[],
        "waffd serve @ --slots 2",
        TWO_WRITES,
        "done\ndone\ndone\ndone\n",
        0,
        "1 1 2",
    ),
    (
        &[(64, 7)],
        SERVE,
        "summary\n",
        "summary 0 0 0\n",
        0,
        "0 0 0",
    ),
    (
        &[(192, 1), (193, 77), (194, 1), (196, 1), (716, 3), (1236, 5)],
        SERVE,
        "list 0 0\nusage 0 0\n",
        "files\nusage 0 0 open\n",
        0,
        "1 0 0",
    ),
    (
        &[
            (64, 1),
            (6632, 2),
            (2276, 1),
            (2340, 1),
            (2344, 1),
            (192, 1),
            (196, 3),
        ],
        SERVE,
        "list 0 0\n",
        "files 0\n",
        0,
        "1 1 0",
    ),
    (
        &[(4424, 1), (4488, 1)],
        SERVE,
        "label 0 0\nsetlabel 0 0 6162\nlabel 0 0\n",
        "label 00\ndone\nlabel 6162\n",
        0,
        "1 0 0",
    ),
    (
        &[(4488, 1), (4504, 1)],
        SERVE,
        "label 0 0\n",
        "label 01\n",
        0,
        "1 0 0",
    ),
];

/// Fails unless `show` prints this of the device in a file, the next run goes on from there, and so does one after a run whose output was
/// closed.
fn expect_next<T: System>(
    rt: &T,
    path: &str,
    area: u8,
    records: u8,
    summary: &str,
) -> Result<(), Fail> {
    expect_shown(
        rt,
        path,
        shown(rt.alloc(), area, records, summary)?.as_str(),
    )?;
    let mut call = Call::on(path, SERVE, b"summary");
    let reply_line = format!(in rt.alloc(); "summary {summary}\n")?;
    expect(rt, call, 0, Expected::Is(reply_line.as_str()), NOTHING)?;
    call.streams = Streams::ClosedOutput;
    expect(rt, call, 1, NOTHING, Expected::Is("waffd: write fault\n"))?;
    call.streams = Streams::Open;
    expect(rt, call, 0, Expected::Is(reply_line.as_str()), NOTHING)
}

#[test]
fn each_incarnation_goes_on_from_the_last(rt: HostRuntime) -> Result<(), Fail> {
    let path = new_path(&rt, "incarnation")?;
    for &(before, arguments, input, output, area, summary) in &INCARNATIONS {
        write_made(&rt, path.as_str(), before)?;
        let call = Call::on(path.as_str(), arguments, input.as_bytes());
        expect(&rt, call, 0, Expected::Is(output), NOTHING)?;
        expect_next(&rt, path.as_str(), area, 0, summary)?;
    }
    fs::remove_file(&rt, path.as_str())?;
    Ok(())
}

/// Lines before a read that fails, what is answered, how many records are in force then, and the summary.
const CUT_SHORT: [(&str, &str, u8, &str); 2] = [
    (
        "makevol 0 0\ncreate 0 0 0\nread 0 0 0 0",
        "done\ndone\n",
        2,
        "1 1 0",
    ),
    (
        "makevol 0 0\nmakevol 0 0\n",
        "done\nerror exists\n",
        1,
        "1 0 0",
    ),
];

#[test]
fn a_fault_of_the_input_leaves_the_changes_in_the_log(rt: HostRuntime) -> Result<(), Fail> {
    let path = new_path(&rt, "input")?;
    for &(lines, output, records, summary) in &CUT_SHORT {
        write_made(&rt, path.as_str(), &[])?;
        let mut call = Call::on(path.as_str(), SERVE, lines.as_bytes());
        call.streams = Streams::FailingInput;
        let error_text = Expected::Is("waffd: read fault\n");
        expect(&rt, call, 1, Expected::Is(output), error_text)?;
        expect_next(&rt, path.as_str(), 1, records, summary)?;
    }
    fs::remove_file(&rt, path.as_str())?;
    Ok(())
}

/// Messages of each kind, with each refusal, and lines that are no messages, with their answers. Each part begins and ends with no volume.
const LINES: [(&[u8], &str); 9] = [
    (b"list 0 0\nsummary\n", "error volume\nsummary 0 0 0\n"),
    (
        b"makevol 0 0\ncreate 0 0 0\nwrite 0 0 0 0 00\nread 0 0 0 0\ndropvol 0 0\n",
        "done\ndone\ndone\nblock 00\ndone\n",
    ),
    (
        b"makevol 0 0
create 0 0 0
write 0 0 0 0 6162
read 0 0 0 0
read 0 0 0 3
read 0 0 1 0
write 0 0 0 4 61
makevol 0 1
dropvol 0 0
",
        "done
done
done
block 6162
hole
error file
error range
error range
done
",
    ),
    (
        b"makevol 0 0
create 0 0 0
create 0 0 1
write 0 0 0 0 61
write 0 0 0 2 61
write 0 0 1 1 61
write 0 0 1 0 61
write 0 0 0 2 62
delete 0 0 0
write 0 0 1 1 61
dropvol 0 0
",
        "done
done
done
done
done
error space
done
done
done
done
done
",
    ),
    (
        b"makevol 0 0
create 0 0 0
write 0 0 0 0 6162
seal 0 0
write 0 0 0 1 61
create 0 0 0
dropvol 0 0
read 0 0 0 0
seal 0 0
unseal 0 0
dropvol 0 0
makevol 0 0
list 0 0
makevol 0 0
dropvol 0 0
",
        "done
done
done
done
error sealed
error sealed
error sealed
block 6162
done
done
done
done
files
error exists
done
",
    ),
    (
        b"makevol 0 0
create 0 0 0
create 0 0 1
write 0 0 0 0 61
list 0 0
usage 0 0
summary
punch 0 0 0 0
read 0 0 0 0
dropvol 0 0
",
        "done
done
done
done
files 0 1
usage 2 1 open
summary 1 2 1
done
hole
done
",
    ),
    (
        b"makevol 0 0
create 0 0 0
write 0 0 0 0 6162
read 0 0 0 0
label 0 0
setlabel 0 0 6162
label 0 0
seal 0 0
setlabel 0 0 63
label 0 0
unseal 0 0
dropvol 0 0
",
        "done
done
done
block 6162
label 00
done
label 6162
done
error sealed
label 6162
done
done
",
    ),
    (
        b"read 00 0 0 0\nread 0 0 0 0\r\nread  0 0 0 0\n\nread 0 0 0 65536\nread 0 0 0 65535\n",
        "error line\nerror line\nerror line\nerror line\nerror line\nerror range\n",
    ),
    (
        b"READ 0 0 0 0\nsummary 0\nwrite 0 0 0 0 6\nwrite 0 0 0 0 6g\nwrite 0 0 0 0\nread 0 0 0 -1\nread\t0\t0\t0\t0\n\0\n\xff\n",
        "error line\nerror line\nerror line\nerror line\nerror line\nerror line\nerror line\nerror line\nerror line\n",
    ),
];

/// Lines that are too long to be written out here: the beginning of each, how often the text after it is repeated, that text, and the
/// answer.
const LONG: [(&str, usize, &str, &str); 5] = [
    ("write 0 0 0 0 ", 513, "61", "error line\n"),
    ("setlabel 0 0 ", 33, "61", "error line\n"),
    ("", 1100, "a", "error line\n"),
    ("", 1101, "a", "error line\n"),
    // The last line needs no newline.
    ("summary", 0, "", "summary 0 0 0\n"),
];

/// The lines of `LINES` and `LONG`, as one input.
fn all_lines(alloc: Global) -> Result<Vec<u8>, AllocError> {
    let mut lines = Vec::new(alloc);
    for &(part, _) in &LINES {
        lines.extend_from_slice(part)?;
    }
    for (at, (start, times, text, _)) in LONG.iter().enumerate() {
        lines.extend_from_slice(start.as_bytes())?;
        for _ in 0..*times {
            lines.extend_from_slice(text.as_bytes())?;
        }
        if at + 1 < LONG.len() {
            lines.push(b'\n')?;
        }
    }
    Ok(lines)
}

/// The answers to them.
fn all_replies(alloc: Global) -> Result<String, AllocError> {
    let mut replies = String::new(alloc);
    for &(_, reply_text) in &LINES {
        replies.push_str(reply_text)?;
    }
    for &(_, _, _, reply_text) in &LONG {
        replies.push_str(reply_text)?;
    }
    Ok(replies)
}

/// The serial server, and servers on a device with several numbers of workers, slots and records between checkpoints.
const SERVERS: [&str; 12] = [
    "waffd plain --volumes 1 --stripes 2 --width 1 --files 2 --blocks 4 --quota 2",
    "waffd serve @ --workers 1 --slots 1",
    "waffd serve @ --workers 1 --slots 2",
    "waffd serve @ --workers 1 --slots 16",
    "waffd serve @ --workers 2 --slots 1",
    "waffd serve @ --workers 2 --slots 2",
    "waffd serve @ --workers 2 --slots 16",
    "waffd serve @ --workers 8 --slots 1",
    "waffd serve @ --workers 8 --slots 2",
    "waffd serve @ --workers 8 --slots 16",
    "waffd serve @ --workers 2 --slots 2 --every 3",
    "waffd serve @ --workers 8 --slots 16 --every 1",
];

#[test]
fn each_server_answers_the_same(rt: HostRuntime) -> Result<(), Fail> {
    let input = all_lines(rt.alloc())?;
    let output = all_replies(rt.alloc())?;
    let output = Expected::Is(output.as_str());
    let path = new_path(&rt, "servers")?;
    for &arguments in &SERVERS {
        write_made(&rt, path.as_str(), &[])?;
        let call = Call::on(path.as_str(), arguments, input.as_slice());
        expect(&rt, call, 0, output, NOTHING)?;
    }
    fs::remove_file(&rt, path.as_str())?;
    Ok(())
}

/// What a longer file has after the bytes of the device.
const BEHIND: &[u8] = b"these bytes are not of the device";

#[test]
fn what_lies_behind_a_device_stays(rt: HostRuntime) -> Result<(), Fail> {
    let path = new_path(&rt, "behind")?;
    let mut bytes = made_bytes(rt.alloc(), &[])?;
    bytes.extend_from_slice(BEHIND)?;
    fs::write(&rt, path.as_str(), bytes.as_slice())?;
    expect_shown(&rt, path.as_str(), JUST_MADE)?;
    let arguments = "waffd serve @ --every 2";
    let call = Call::on(path.as_str(), arguments, THREE_CHANGES.as_bytes());
    expect(&rt, call, 0, Expected::Is(THREE_DONE), NOTHING)?;
    let shown_text = shown(rt.alloc(), 1, 0, "1 1 1")?;
    expect_shown(&rt, path.as_str(), shown_text.as_str())?;
    let left = fs::read(&rt, path.as_str())?;
    fs::remove_file(&rt, path.as_str())?;
    if left.get(LEN..) == Some(BEHIND) {
        return Ok(());
    }
    Err(Fail::new(format_args!("other bytes behind the device")))
}
