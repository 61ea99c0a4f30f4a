//! A session of the serial server: line after line is answered. In clauses `all_output` is what the writer holds (if known),
//! followed by the replies that wait; `unread` is what a reader of lines hasn't given yet: the bytes that it holds, followed by what its
//! source has left (nothing once a read has reported the end).

ghost use Rattle.std.specs.Prelude.{◌≡◌, ◌<◌, ◌++◌, ℕ, List, [], Option, Some, true, false, is_ok, option_map, IfOk, OnOk, IsErrOf, IsFalse, MatchBool, unwrap_or, vec_len};
ghost use Rattle.std.specs.Io.KnownBytes.{Appends, IsAtEnd};
ghost use Rattle.protocol.specs.declared.sizes.TheConstants.{LONGEST_LINE};
ghost use Rattle.protocol.specs.Grammar.{message_of};
ghost use Rattle.message.specs.Reader.{unread, is_drained, source, KnowsEnd};
ghost use Rattle.message.specs.BufferedOutput.{FitsReply, all_output};
ghost use Rattle.message.specs.AppendsBeginning.{AppendsBeginning};
ghost use Rattle.protocol.specs.Words.{block_in_word, label_in_word};
ghost use Rattle.message.specs.Heads.{IsWithoutData, labeling, message_without_data, writing};
ghost use Rattle.affinity.specs.Kind.{is_changing};
ghost use Rattle.affinity.specs.declared.kinds.Kind.TheVariants as kinds;
ghost use Rattle.meaning.specs.Step.{done_or_refused, accepted_reply, no_label};
ghost use Rattle.meaning.specs.State.{State, empty};
ghost use Rattle.plain.specs.Answering.{AnswersLine};
ghost use Rattle.plain.specs.Ends.{EndsSerially};
ghost use Rattle.plain.specs.Server.{server_state, IsConsistent};
ghost use Rattle.protocol.specs.Replies.{reply_line};
ghost use Rattle.protocol.specs.declared.messages.Msg.{Msg};
ghost use Rattle.protocol.specs.declared.replies.Reply.TheVariants.{Label as shows_label};
ghost use Rattle.meaning.specs.Progress.{HasAnswered};
ghost use Rattle.meaning.specs.Output.{serial_output, AnswersWholeLines, IsBeginning, WritesOutput};

use crate::PlainFault;
use crate::server::Server;
use affinity::{Geometry, Kind, changing};
use message::{
    Found, Head, LentReader, LineReader, Loan, ReplyBuffer, WriteFault, decode_block, decode_label,
    head_of_line,
};
use protocol::{BLOCK_SIZE, Block, Refusal, Reply};
use std::alloc::{AllocError, Global};
use std::io::{Read, Write};
use std::marker::PhantomData;

/// Adds the reply to a message that changes something.
fn add_outcome(why: Option<Refusal>, out: &mut ReplyBuffer)
    requires { FitsReply out.old }
    ensures { out.new ≡ out.old ++ reply_line (done_or_refused why) }
{
    match why {
        Some(why) => out.add_refusal(why),
        None => out.add_done(),
    }
}

/// Answers a `summary`. Not inlined, nor is `add_label`: a whole reply on the stack of each question costs a tenth of its instructions.
#[inline(never)]
fn add_summary(g: &Geometry, server: &Server, out: &mut ReplyBuffer)
    requires sound { IsConsistent g.now server.now }
    requires room { FitsReply out.old }
    ensures { out.new ≡ out.old ++ reply_line (accepted_reply g.now (server_state server.now) Msg.Summary) }
{
    out.add_reply(&server.summary_of(g));
}

/// Adds the label of a volume.
#[inline(never)]
fn add_label(a: u16, v: u16, server: &Server, out: &mut ReplyBuffer)
    requires room { FitsReply out.old }
    ensures { out.new ≡ out.old ++ reply_line (shows_label (unwrap_or ((server_state server.now).labels (a, v)) no_label)) }
{
    out.add_reply(&server.label_of(a, v));
}

/// Answers a `read`.
fn answer_read(g: &Geometry, numbers: [u16; 4], server: &Server, out: &mut ReplyBuffer)
    requires asked { IsWithoutData kinds.Read numbers (Some (message_without_data kinds.Read numbers)) }
    requires sound { IsConsistent g.now server.now }
    requires room { FitsReply out.old }
    ensures { AnswersLine g.now (Some (message_without_data kinds.Read numbers)) true server.now server.now out.old out.new }
{
    if let Some(content) = server.block_at(g, numbers) {
        out.add_block(content);
        return;
    }
    match server.refusal_by(g, Kind::Read, numbers) {
        Some(why) => out.add_refusal(why),
        None => out.add_reply(&Reply::Hole),
    }
}

/// Answers a message that changes nothing.
#[inline(never)]
fn answer_question(
    g: &Geometry,
    kind: Kind,
    numbers: [u16; 4],
    server: &Server,
    out: &mut ReplyBuffer,
)
    // Kind and numbers fit each other: a number that the kind doesn't have is 0.
    requires asked { IsWithoutData kind numbers (Some (message_without_data kind numbers)) }
    requires asks { is_changing kind ≡ false }
    requires sound { IsConsistent g.now server.now }
    requires room { FitsReply out.old }
    ensures { AnswersLine g.now (Some (message_without_data kind numbers)) true server.now server.now out.old out.new }
{
    if let Kind::Read = kind {
        answer_read(g, numbers, server, out);
        return;
    }
    if let Some(why) = server.refusal_by(g, kind, numbers) {
        out.add_refusal(why);
        return;
    }
    let [a, v, _, _] = numbers;
    match kind {
        Kind::List => out.add_reply(&server.list_files(g, a, v)),
        Kind::Usage => out.add_reply(&server.usage_of(g, a, v)),
        Kind::Summary => add_summary(g, server, out),
        Kind::Label => add_label(a, v, server, out),
        _ => unreachable!(),
    }
}

/// Answers a line that begins as a `write` with these numbers. `digits` is the rest of the line: if it
/// encodes no block, the line is no message. The block is decoded into `content`, whose bytes are unspecified before and afterwards.
#[inline(never)]
fn answer_write(
    g: &Geometry,
    numbers: [u16; 4],
    digits: &[u8],
    content: &mut Block,
    server: &mut Server,
    out: &mut ReplyBuffer,
) -> Result<(), AllocError>
    requires sound { IsConsistent g.now server.old }
    requires room { FitsReply out.old }
    ensures { AnswersLine g.now (option_map (writing numbers) (block_in_word digits.now)) (is_ok result)
        server.old server.new out.old out.new }
{
    if decode_block(digits, content).is_none() {
        out.add_no_message();
        return Ok(());
    }
    let why = server.write(g, numbers, content)?;
    add_outcome(why, out);
    Ok(())
}

/// Answers a line that begins as a `setlabel` with these numbers. `digits` is the rest of the line: if it encodes no label, the line is no
/// message.
#[inline(never)]
fn answer_set_label(
    g: &Geometry,
    numbers: [u16; 4],
    digits: &[u8],
    server: &mut Server,
    out: &mut ReplyBuffer,
)
    requires sound { IsConsistent g.now server.old }
    requires room { FitsReply out.old }
    ensures { AnswersLine g.now (option_map (labeling numbers) (label_in_word digits.now)) true
        server.old server.new out.old out.new }
{
    match &decode_label(digits) {
        Some(label) => {
            let why = server.put_label(g, numbers, label);
            add_outcome(why, out);
        }
        None => out.add_no_message(),
    }
}

/// Answers a message without data.
fn answer_without_data(
    g: &Geometry,
    kind: Kind,
    numbers: [u16; 4],
    server: &mut Server,
    out: &mut ReplyBuffer,
) -> Result<(), AllocError>
    requires asked { IsWithoutData kind numbers (Some (message_without_data kind numbers)) }
    requires sound { IsConsistent g.now server.old }
    requires room { FitsReply out.old }
    ensures { AnswersLine g.now (Some (message_without_data kind numbers)) (is_ok result) server.old server.new out.old out.new }
{
    if changing(kind) {
        let why = server.carry_out(g, kind, numbers)?;
        add_outcome(why, out);
        return Ok(());
    }
    answer_question(g, kind, numbers, server, out);
    Ok(())
}

/// Answers one line. The block of a `write` is decoded into `content`.
fn answer_line(
    g: &Geometry,
    line: &[u8],
    content: &mut Block,
    server: &mut Server,
    out: &mut ReplyBuffer,
) -> Result<(), AllocError>
    requires sound { IsConsistent g.now server.old }
    requires room { FitsReply out.old }
    ensures { AnswersLine g.now (message_of line.now) (is_ok result) server.old server.new out.old out.new }
{
    match head_of_line(line) {
        Head::NoMessage => {
            out.add_no_message();
            Ok(())
        }
        Head::WithoutData(kind, numbers) => answer_without_data(g, kind, numbers, server, out),
        Head::Writes(numbers, digits) => answer_write(g, numbers, digits, content, server, out),
        Head::SetsLabel(numbers, digits) => {
            answer_set_label(g, numbers, digits, server, out);
            Ok(())
        }
    }
}

/// Writes the replies that wait, if no whole line is buffered (the next read may block), or if the longest reply would not fit behind them.
fn send_before_line<R: Read, W: Write>(
    lines: &LineReader<R>,
    out: &mut ReplyBuffer,
    w: &mut W,
) -> Result<(), WriteFault>
    ensures room { OnOk result (FitsReply out.new) }
    ensures kept { OnOk result (Appends (all_output (W.contents w.old) out.old)
        (all_output (W.contents w.new) out.new) []) }
    ensures begun { AppendsBeginning (W.contents w.old) (W.contents w.new) out.old }
{
    out.send_before_read(lines, w)?;
    out.make_room(w)
}

/// Answers the next line, if there is one. Returns whether there was one.
fn answer_next<R: Read + Drop, W: Write>(
    g: &Geometry,
    lines: &mut LineReader<R>,
    content: &mut Block,
    server: &mut Server,
    out: &mut ReplyBuffer,
    w: &mut W,
) -> Result<bool, PlainFault>
    requires { IsConsistent g.now server.old }
    ensures sound { IsConsistent g.now server.new }
    // `start`, `input` and `before`: the state, what was unread and the output when the session began.
    ensures answered { (start : State) (input before : Option (List ℕ)) →
        HasAnswered g.now start input (unread R.remaining lines.old) (is_drained lines.old)
        (server_state server.old) before (all_output (W.contents w.old) out.old) →
        IfOk result (λ more. MatchBool more
        (HasAnswered g.now start input (unread R.remaining lines.new) (is_drained lines.new)
        (server_state server.new) before (all_output (W.contents w.new) out.new))
        (WritesOutput input before (all_output (W.contents w.new) out.new)
        (λ bytes written. written ≡ serial_output g.now start bytes))) }
    ensures read { (start : State) (input before : Option (List ℕ)) →
        HasAnswered g.now start input (unread R.remaining lines.old) (is_drained lines.old)
        (server_state server.old) before (all_output (W.contents w.old) out.old) →
        IsErrOf result PlainFault.Read → WritesOutput input before (all_output (W.contents w.new) out.new)
        (AnswersWholeLines g.now start (R.remaining (source lines.new))) }
    ensures out_of_memory { (start : State) (input before : Option (List ℕ)) →
        HasAnswered g.now start input (unread R.remaining lines.old) (is_drained lines.old)
        (server_state server.old) before (all_output (W.contents w.old) out.old) →
        IsErrOf result PlainFault.OutOfMemory → WritesOutput input before
        (all_output (W.contents w.new) out.new) (IsBeginning g.now start) }
    ensures begun { AppendsBeginning (W.contents w.old) (W.contents w.new) out.old }
    // `KnowsEnd`: once a read has reported the end, the reader has nothing left.
    ensures knows { KnowsEnd R.remaining lines.old → KnowsEnd R.remaining lines.new }
    ensures end { KnowsEnd R.remaining lines.old → IfOk result (λ more. IsFalse more → IsAtEnd (R.remaining (source lines.new))) }
{
    if lines.is_drained() {
        return Ok(false);
    }
    send_before_line(lines, out, w)?;
    match lines.next_line() {
        Ok(Found::Line) => match answer_line(g, lines.line(), content, server, out) {
            Ok(()) => Ok(true),
            Err(_) => Err(PlainFault::OutOfMemory),
        },
        Ok(Found::TooLong) => {
            out.add_no_message();
            Ok(true)
        }
        Ok(Found::End) => Ok(false),
        Err(_) => Err(PlainFault::Read),
    }
}

/// Answers each line that is left, from the server's state on, and leaves the last answers waiting.
fn answer_all<R: Read + Drop, W: Write>(
    g: &Geometry,
    lines: &mut LineReader<R>,
    server: &mut Server,
    out: &mut ReplyBuffer,
    w: &mut W,
) -> Result<(), PlainFault>
    requires sound { IsConsistent g.now server.old }
    requires not_drained { is_drained lines.old ≡ false }
    requires knows { KnowsEnd R.remaining lines.old }
    requires none_waits { out.old ≡ [] }
    ensures ends { EndsSerially g.now (server_state server.old) result (unread R.remaining lines.old) (R.remaining (source lines.new))
        (all_output (W.contents w.old) out.old) (all_output (W.contents w.new) out.new) (W.contents w.new) }
    // What was written is not taken back.
    ensures written { (written : List ℕ) × Appends (W.contents w.old) (W.contents w.new) written }
{
    // The one block into which each line's digits are decoded: to make one for each line takes a twentieth of a short line's instructions.
    let mut content = Block([0; BLOCK_SIZE]);
    for _ in 0..u64::MAX {
        if !answer_next(g, lines, &mut content, server, out, w)? {
            return Ok(());
        }
    }
    if lines.is_drained() {
        return Ok(());
    }
    // Not reached in practice: more than 2^64 - 1 lines. What is promised for `OutOfMemory` holds after any number of lines.
    Err(PlainFault::OutOfMemory)
}

/// Answers each line that a lent reader has left, from the empty state on, leaves the last answers
/// waiting, and gives the reader back. The buffer takes the longest line and its newline.
pub(crate) fn answer_lent<'a, R: Read, W: Write, L: Loan>(
    alloc: Global,
    g: &Geometry,
    reader: &'a mut R,
    buffer: Vec<u8>,
    out: &mut ReplyBuffer,
    w: &mut W,
    of: PhantomData<L>,
) -> (Result<(), PlainFault>, &'a mut R)
    requires name { reader.ghost_name ≡ L.name }
    requires room { LONGEST_LINE < vec_len buffer }
    requires none_waits { out.old ≡ [] }
    ensures same { result.1.ghost_name ≡ reader.entry.ghost_name }
    ensures ends { EndsSerially g.now empty result.0 (R.remaining reader.old) (R.remaining result.1.now)
        (all_output (W.contents w.old) out.old) (all_output (W.contents w.new) out.new) (W.contents w.new) }
    ensures written { (written : List ℕ) × Appends (W.contents w.old) (W.contents w.new) written }
{
    let mut lines = LineReader::new(LentReader { reader, of }, buffer);
    let mut server = Server::new(alloc);
    let answered = answer_all(g, &mut lines, &mut server, out, w);
    let LentReader { reader, of: _ } = lines.into_inner();
    (answered, reader)
}
