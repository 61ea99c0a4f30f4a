//! Calls of the command `plain` on messages. `expect` makes a call (`Call::of`: these arguments, this input), and fails the test unless it
//! ends with this status, output and standard error (`NOTHING`: empty).
use crate::commands_common::{Call, Expected, NOTHING, Streams, expect};
use std::test::Fail;

const PLAIN: &str = "waffd plain";

/// Lines that make a volume and a file, write a block of it, and read that.
const MADE: &str = "makevol 0 0\ncreate 0 0 0\nwrite 0 0 0 0 6162\nread 0 0 0 0\n";

const MADE_REPLY: &str = "done\ndone\ndone\nblock 6162\n";

const EACH_KIND: &str = "makevol 0 0
create 0 0 0
create 0 0 1
write 0 0 0 0 6162
list 0 0
usage 0 0
summary
setlabel 0 0 6162
label 0 0
seal 0 0
write 0 0 0 1 61
usage 0 0
unseal 0 0
punch 0 0 0 0
read 0 0 0 0
delete 0 0 1
list 0 0
dropvol 0 0
label 0 0
summary";

const EACH_REPLY: &str = "done
done
done
done
files 0 1
usage 2 1 open
summary 1 2 1
done
label 6162
done
error sealed
usage 2 1 sealed
done
done
hole
done
files 0
done
error volume
summary 0 0 0
";

/// The arguments, the input's lines and the answers. Rows without options come first, then some with one option, each with a line that is
/// beyond its limit; the last two give every option its least and its greatest value.
const ANSWERED: [(&str, &str, &str); 15] = [
    (PLAIN, "", ""),
    (PLAIN, MADE, MADE_REPLY),
    (
        PLAIN,
        "makevol 0 0\ncreate 0 0 0\nwrite 0 0 0 0 00\nread 0 0 0 0\n",
        "done\ndone\ndone\nblock 00\n",
    ),
    (PLAIN, "makevol 0 4\n", "error range\n"),
    (PLAIN, "write 0 0 0 0 61\n", "error volume\n"),
    (
        PLAIN,
        "makevol 0 0\ncreate 0 0 0\nread 0 0 0 63\nread 0 0 0 64\n",
        "done\ndone\nhole\nerror range\n",
    ),
    (PLAIN, "makevol 0 0\nmakevol 0 0", "done\nerror exists\n"),
    (PLAIN, EACH_KIND, EACH_REPLY),
    (
        "waffd plain --aggregates 2",
        "makevol 1 0\nmakevol 2 0\n",
        "done\nerror range\n",
    ),
    (
        "waffd plain --volumes 5",
        "makevol 0 4\nmakevol 0 5\n",
        "done\nerror range\n",
    ),
    (
        "waffd plain --files 2",
        "makevol 0 0\ncreate 0 0 2\n",
        "done\nerror range\n",
    ),
    (
        "waffd plain --blocks 256",
        "makevol 0 0\ncreate 0 0 0\nread 0 0 0 255\nread 0 0 0 256\n",
        "done\ndone\nhole\nerror range\n",
    ),
    (
        "waffd plain --quota 1",
        "makevol 0 0\ncreate 0 0 0\nwrite 0 0 0 0 61\nwrite 0 0 0 1 61\nwrite 0 0 0 4 61\n",
        "done\ndone\ndone\nerror space\ndone\n",
    ),
    (
        "waffd plain --aggregates 1 --volumes 1 --stripes 1 --width 1 --files 1 --blocks 1 --quota 1 --half 4",
        "",
        "",
    ),
    (
        "waffd plain --aggregates 4 --volumes 8 --stripes 8 --width 64 --files 64 --blocks 256 --quota 64 --half 1024",
        "",
        "",
    ),
];

#[test]
fn answers_each_line_with_a_line(rt: HostRuntime) -> Result<(), Fail> {
    for &(arguments, input, output) in &ANSWERED {
        let call = Call::of(arguments, input.as_bytes());
        expect(&rt, call, 0, Expected::Is(output), NOTHING)?;
    }
    Ok(())
}

/// How many bytes a line has, what comes after it, and the answers.
const LONG: [(usize, &[u8], &str); 4] = [
    (1100, b"\nmakevol 0 0\n", "error line\ndone\n"),
    (1101, b"\nmakevol 0 0\n", "error line\ndone\n"),
    (3000, b"\nmakevol 0 0\n", "error line\ndone\n"),
    (1_000_000, b"", "error line\n"),
];

#[test]
fn long_lines_are_one_line(rt: HostRuntime) -> Result<(), Fail> {
    for &(length, behind, output) in &LONG {
        let mut input = vec![in rt.alloc(); b'a'; length]?;
        input.extend_from_slice(behind)?;
        let call = Call::of(PLAIN, input.as_slice());
        expect(&rt, call, 0, Expected::Is(output), NOTHING)?;
    }
    Ok(())
}

/// How lines are given, the lines, the status, the answers, and how a fault is reported: reads of one byte change nothing, each reply is
/// written before the next read, and the whole lines before a read that fails are answered.
const GIVEN: [(Streams, &str, u8, &str, &str); 3] = [
    (Streams::ByteByByte, MADE, 0, MADE_REPLY, ""),
    (Streams::LineByLine, MADE, 0, MADE_REPLY, ""),
    (
        Streams::FailingInput,
        "makevol 0 0\ncreate 0 0 0\nread 0 0 0 0",
        1,
        "done\ndone\n",
        "waffd: read fault\n",
    ),
];

#[test]
fn answers_however_the_lines_are_given(rt: HostRuntime) -> Result<(), Fail> {
    for &(streams, input, status, output, error_text) in &GIVEN {
        let call = Call {
            arguments: PLAIN,
            path: "",
            input: input.as_bytes(),
            streams,
        };
        expect(
            &rt,
            call,
            status,
            Expected::Is(output),
            Expected::Is(error_text),
        )?;
    }
    Ok(())
}
