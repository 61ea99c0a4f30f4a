//! The lines that commands print: a word and numbers after it, or a reply.
ghost use Rattle.std.specs.Prelude.{◌≡◌, ◌++◌, IfErr, OnErr, OnOk};
ghost use Rattle.std.specs.Io.KnownBytes.{Appends};
ghost use Rattle.std.specs.List.{flat_map};
ghost use Rattle.protocol.specs.Replies.{reply_line, spaced};
ghost use Rattle.message.specs.AppendsBeginning.{AppendsBeginning};
ghost use Rattle.commands.specs.Lines.{number_line};

use crate::faults::Fault;
use itoa::Buffer;
use message::{LONGEST_REPLY, write_in_order, write_reply};
use protocol::Reply;
use std::alloc::AllocError;
use std::io::Write;

/// Adds a space and the decimal digits of each number. `AllocError` where there is no memory.
fn add_numbers(lines: &mut Vec<u8>, numbers: &[u64]) -> Result<(), AllocError>
    ensures { OnOk result (lines.new.items ≡ lines.old.items ++ flat_map spaced numbers.now) }
{
    'numbers: for number in numbers {
        lines.push(b' ')?;
        lines.extend_from_slice(Buffer::new().format(*number).as_bytes())?;
    }
    Ok(())
}

/// Adds a line of a word and numbers. `AllocError` where there is no memory.
pub fn add_line(lines: &mut Vec<u8>, word: &str, numbers: &[u64]) -> Result<(), AllocError>
    ensures { OnOk result (lines.new.items ≡ lines.old.items ++ number_line word.now numbers.now) }
{
    lines.extend_from_slice(word.as_bytes())?;
    add_numbers(lines, numbers)?;
    lines.push(b'\n')?;
    Ok(())
}

/// Adds the line of a reply. `AllocError` where there is no memory.
pub fn add_reply(lines: &mut Vec<u8>, reply: &Reply) -> Result<(), AllocError>
    ensures { OnOk result (lines.new.items ≡ lines.old.items ++ reply_line reply.now) }
{
    let mut line = [0; LONGEST_REPLY];
    let length = write_reply(reply, &mut line);
    lines.extend_from_slice(&line[..length])
}

/// Writes lines, and flushes the writer. At a fault a beginning of them was written.
pub fn write_lines<W: Write>(lines: &[u8], w: &mut W) -> Result<(), Fault>
    ensures written { OnOk result (Appends (W.contents w.old) (W.contents w.new) lines.now) }
    ensures begun { OnErr result (AppendsBeginning (W.contents w.old) (W.contents w.new) lines.now) }
    ensures fault { IfErr result (λ fault. fault ≡ Fault.Write) }
{
    write_in_order(w, lines).map_err(|_| Fault::Write)
}
