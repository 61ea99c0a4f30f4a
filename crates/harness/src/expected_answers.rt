//! Questions by which a server reports all that it holds, and the answers that it should give.
ghost use Rattle.std.specs.Prelude.{◌≡◌};
ghost use Rattle.parcel.specs.Tree.{IsWholeTree};

use crate::Wrong;
use affinity::{Geometry, is_in_range};
use message::{LONGEST_REPLY, parse_line, write_reply};
use parcel::{Tree, step};
use plain::serve_plain;
use protocol::{Msg, Refusal, Reply};
use std::alloc::{AllocError, Global};

/// What a server is asked, so that its answers show all that it holds: `summary` first, then of each volume `usage`, `list` and
/// `label`, and each block of each of its files.
#[derive(Drop)]
pub struct Questions {
    // The same questions as lines and as messages.
    lines: Vec<u8>,
    messages: Vec<Msg>,
}

impl Questions {
    /// Those for a server of this geometry.
    pub fn new(alloc: Global, g: &Geometry) -> Result<Questions, AllocError> {
        let mut questions = Questions {
            lines: Vec::new(alloc),
            messages: Vec::new(alloc),
        };
        questions.ask("summary")?;
        for a in 0..g.aggregates {
            for v in 0..g.volumes {
                questions.ask_volume(alloc, g, a, v)?;
            }
        }
        Ok(questions)
    }

    /// What is asked, one after the other.
    pub fn messages(&self) -> &[Msg] {
        self.messages.as_slice()
    }

    /// Adds the questions about one volume.
    fn ask_volume(
        &mut self,
        alloc: Global,
        g: &Geometry,
        a: u16,
        v: u16,
    ) -> Result<(), AllocError> {
        for keyword in &["usage", "list", "label"] {
            let line = format!(in alloc; "{keyword} {a} {v}")?;
            self.ask(line.as_str())?;
        }
        for f in 0..g.files {
            self.ask_file(alloc, g, [a, v, f])?;
        }
        Ok(())
    }

    /// Adds those about one file, which is given by its aggregate, its volume and its number.
    fn ask_file(&mut self, alloc: Global, g: &Geometry, file: [u16; 3]) -> Result<(), AllocError> {
        let [a, v, f] = file;
        for b in 0..g.blocks {
            let line = format!(in alloc; "read {a} {v} {f} {b}")?;
            self.ask(line.as_str())?;
        }
        Ok(())
    }

    /// Adds a question; no server is asked yet. A line that is no message would be left out.
    fn ask(&mut self, line: &str) -> Result<(), AllocError> {
        if let Some(message) = parse_line(line.as_bytes()) {
            self.lines.extend_from_slice(line.as_bytes())?;
            self.lines.push(b'\n')?;
            self.messages.push(message)?;
        }
        Ok(())
    }
}

/// The messages that these lines spell. `Unfit` where one is no message.
pub fn messages_of(alloc: Global, lines: &[&str]) -> Result<Vec<Msg>, Wrong> {
    let mut messages = Vec::new(alloc);
    for line in lines {
        let Some(message) = parse_line(line.as_bytes()) else {
            return Err(Wrong::Unfit);
        };
        messages.push(message)?;
    }
    Ok(messages)
}

/// What a whole tree (no part of it is lent) replies to a message, which runs on it (by `step`), unless a number of it is out of range.
fn reply_of(tree: &mut Tree, m: Msg) -> Reply
    requires whole { IsWholeTree tree.old }
    ensures whole { IsWholeTree tree.new }
    ensures geometry { tree.new.geometry ≡ tree.old.geometry }
{
    let g = tree.geometry();
    if !is_in_range(&g, m.kind(), m.numbers()) {
        return Reply::Refused(Refusal::Range);
    }
    step(tree, m)
}

/// The reply lines of a whole tree to these questions.
pub fn reply_lines(
    alloc: Global,
    tree: &mut Tree,
    questions: &Questions,
) -> Result<Vec<u8>, AllocError>
    requires whole { IsWholeTree tree.old }
    ensures whole { IsWholeTree tree.new }
    ensures geometry { tree.new.geometry ≡ tree.old.geometry }
{
    let mut reply_lines = Vec::new(alloc);
    let mut line = [0; LONGEST_REPLY];
    for m in questions.messages.as_slice() {
        let reply = reply_of(tree, *m);
        let size = write_reply(&reply, &mut line);
        reply_lines.extend_from_slice(&line[..size])?;
    }
    Ok(reply_lines)
}

/// How many bytes the first `count` lines of an output take; 0 if there are fewer lines.
fn end_of(output: &[u8], count: usize) -> usize {
    let mut left = count;
    for (at, byte) in output.iter().enumerate() {
        if left == 0 {
            return at;
        }
        if *byte == b'\n' {
            left -= 1;
        }
    }
    if left == 0 { output.len() } else { 0 }
}

/// What the serial server answers to these lines, from the empty state on, and what it then answers to these questions.
pub fn answers_and_replies(
    alloc: Global,
    g: &Geometry,
    lines: &[&str],
    questions: &Questions,
) -> Result<(Vec<u8>, Vec<u8>), Wrong> {
    let mut input = Vec::new(alloc);
    for line in lines {
        input.extend_from_slice(line.as_bytes())?;
        input.push(b'\n')?;
    }
    input.extend_from_slice(questions.lines.as_slice())?;
    let mut output = Vec::new(alloc);
    if serve_plain(alloc, g, input.as_slice(), &mut output).is_err() {
        return Err(Wrong::OutOfMemory);
    }
    let end = end_of(output.as_slice(), lines.len());
    let answers = output.as_slice().get(..end).unwrap_or_default();
    let reply_lines = output.as_slice().get(end..).unwrap_or_default();
    Ok((answers.to_vec(alloc)?, reply_lines.to_vec(alloc)?))
}

/// What the serial server answers to these questions once it has carried out these lines, from the empty state on. `Unfit` where the reply
/// to one of the lines isn't `done`.
pub fn expected(
    alloc: Global,
    g: &Geometry,
    lines: &[&str],
    questions: &Questions,
) -> Result<Vec<u8>, Wrong> {
    let (answers, reply_lines) = answers_and_replies(alloc, g, lines, questions)?;
    let mut done = Vec::new(alloc);
    for _ in 0..lines.len() {
        done.extend_from_slice(b"done\n")?;
    }
    if answers == done {
        Ok(reply_lines)
    } else {
        Err(Wrong::Unfit)
    }
}
