//! The line of a reply.

ghost use Rattle.std.specs.Prelude.{◌≡◌, ◌<◌, ◌≤◌, ◌+◌, ◌*◌, length, take, drop};
ghost use Rattle.hex.specs.Hex.{encode_lower};
ghost use Rattle.protocol.specs.Replies.{AppendsText, at_least_one, no_message, reply_line, reply_text, shown, spaced, without_trailing_zeros};
ghost use Rattle.protocol.specs.declared.replies.Reply.TheVariants.{Block as block_reply, Files as files_reply, Usage as usage_reply, Summary as summary_reply, Refused};

use affinity::limits::MOST_FILES;
use itoa::Buffer;
use protocol::{Block, LONGEST_REPLY, LONGEST_TEXT, Refusal, Reply};

/// How many bytes a space and a number of 32 bits have at most: the number has up to ten digits.
const LONGEST_NUMBER: usize = 11;

/// Writes the line of a reply, its newline included, into the front of `out`, and gives the
/// line's length in bytes. What lies after the line stays as it was. It has at most `LONGEST_REPLY` bytes.
#[inline(always)]
pub fn write_reply(reply: &Reply, out: &mut [u8; LONGEST_REPLY]) -> usize
    ensures length { result ≡ length (reply_line reply.now) }
    ensures line { take result out.new ≡ reply_line reply.now }
    ensures rest { drop result out.new ≡ drop result out.old }
    ensures bound { result ≤ LONGEST_REPLY }
{
    let end = write_text(reply, out);
    append(b"\n", out, end)
}

/// The same for the reply `Block`, from a borrowed block: no `Reply` is made.
pub(crate) fn write_block(content: &Block, out: &mut [u8; LONGEST_REPLY]) -> usize
    ensures length { result ≡ length (reply_line (block_reply content.now)) }
    ensures line { take result out.new ≡ reply_line (block_reply content.now) }
    ensures rest { drop result out.new ≡ drop result out.old }
    ensures bound { result ≤ LONGEST_REPLY }
{
    let end = write_block_text(content, out);
    append(b"\n", out, end)
}

/// The line, its newline included, that answers a line that is no message.
pub fn no_message_line() -> &'static [u8]
    ensures line { result.now ≡ no_message }
    ensures bound { length result.now ≤ LONGEST_REPLY }
{
    b"error line\n"
}

/// Writes the text of a reply into the front of `out`, and gives its length.
#[inline(always)]
fn write_text(reply: &Reply, out: &mut [u8; LONGEST_REPLY]) -> usize
    ensures text { AppendsText out.old out.new 0 result (reply_text reply.now) }
    ensures bound { result ≤ LONGEST_TEXT }
{
    match reply {
        Reply::Done => append(b"done", out, 0),
        Reply::Hole => append(b"hole", out, 0),
        Reply::Block(content) => write_block_text(content, out),
        Reply::Files(files) => write_files(*files, out),
        Reply::Usage {
            files,
            blocks,
            sealed,
        } => write_usage(*files, *blocks, *sealed, out),
        Reply::Summary {
            volumes,
            files,
            blocks,
        } => write_summary(*volumes, *files, *blocks, out),
        Reply::Label(label) => {
            let end = append(b"label ", out, 0);
            append_shown(label, out, end)
        }
        Reply::Refused(why) => append(refusal_text(*why), out, 0),
    }
}

/// Writes the text of the reply `Block`, and gives its length.
fn write_block_text(content: &Block, out: &mut [u8; LONGEST_REPLY]) -> usize
    ensures text { AppendsText out.old out.new 0 result (reply_text (block_reply content.now)) }
    ensures bound { result ≤ LONGEST_TEXT }
{
    let end = append(b"block ", out, 0);
    append_shown(&content.0, out, end)
}

/// The line of a refusal, its newline included.
pub(crate) fn refusal_line(why: Refusal) -> &'static [u8]
    ensures line { result.now ≡ reply_line (Refused why) }
    ensures some { 1 ≤ length result.now }
    ensures bound { length result.now ≤ LONGEST_REPLY }
{
    match why {
        Refusal::Range => b"error range\n",
        Refusal::Volume => b"error volume\n",
        Refusal::Exists => b"error exists\n",
        Refusal::Sealed => b"error sealed\n",
        Refusal::File => b"error file\n",
        Refusal::Space => b"error space\n",
    }
}

/// The text of a refusal: its line without the newline.
fn refusal_text(why: Refusal) -> &'static [u8]
    ensures text { result.now ≡ reply_text (Refused why) }
    ensures bound { length result.now ≤ LONGEST_TEXT }
{
    let line = refusal_line(why);
    &line[..line.len() - 1]
}

/// Writes the text of the reply that lists files, and gives its length. It goes from each file that
/// there is straight to the next.
fn write_files(files: u64, out: &mut [u8; LONGEST_REPLY]) -> usize
    ensures text { AppendsText out.old out.new 0 result (reply_text (files_reply files)) }
    ensures bound { result ≤ LONGEST_TEXT }
{
    let mut end = append(b"files", out, 0);
    let mut from = 0u32;
    while from < u32::from(MOST_FILES) {
        let left = files >> from;
        if left == 0 {
            return end;
        }
        let file = from + left.trailing_zeros();
        end = append_number(file, out, end);
        from = file + 1;
    }
    end
}

fn write_usage(files: u32, blocks: u32, sealed: bool, out: &mut [u8; LONGEST_REPLY]) -> usize
    ensures text { AppendsText out.old out.new 0 result (reply_text (usage_reply files blocks sealed)) }
    ensures bound { result ≤ LONGEST_TEXT }
{
    let end = append(b"usage", out, 0);
    let end = append_number(files, out, end);
    let end = append_number(blocks, out, end);
    if sealed {
        append(b" sealed", out, end)
    } else {
        append(b" open", out, end)
    }
}

fn write_summary(volumes: u32, files: u32, blocks: u32, out: &mut [u8; LONGEST_REPLY]) -> usize
    ensures text { AppendsText out.old out.new 0 result (reply_text (summary_reply volumes files blocks)) }
    ensures bound { result ≤ LONGEST_TEXT }
{
    let end = append(b"summary", out, 0);
    let end = append_number(volumes, out, end);
    let end = append_number(files, out, end);
    append_number(blocks, out, end)
}

/// Writes a text after the first `at` bytes, and gives where it ends.
fn append(text: &[u8], out: &mut [u8; LONGEST_REPLY], at: usize) -> usize
    requires { at + length text.now ≤ LONGEST_REPLY }
    ensures { AppendsText out.old out.new at result text.now }
{
    let end = at + text.len();
    out[at..end].copy_from_slice(text);
    end
}

/// Writes a space and a number after the first `at` bytes, and gives where they end. One or two digits,
/// as the numbers of all files have, are made here.
fn append_number(n: u32, out: &mut [u8; LONGEST_REPLY], at: usize) -> usize
    requires { at + LONGEST_NUMBER ≤ LONGEST_REPLY }
    ensures text { AppendsText out.old out.new at result (spaced n) }
    ensures bound { result ≤ at + LONGEST_NUMBER }
{
    if n < 10 {
        return append(&[b' ', b'0' + n as u8], out, at);
    }
    if n < 100 {
        let n = n as u8;
        return append(&[b' ', b'0' + n / 10, b'0' + n % 10], out, at);
    }
    append_digits(n, out, at)
}

/// The same as `append_number`, for any number.
fn append_digits(n: u32, out: &mut [u8; LONGEST_REPLY], at: usize) -> usize
    requires { at + LONGEST_NUMBER ≤ LONGEST_REPLY }
    ensures text { AppendsText out.old out.new at result (spaced n) }
    ensures bound { result ≤ at + LONGEST_NUMBER }
{
    let mut digits = Buffer::new();
    let end = append(b" ", out, at);
    append(digits.format(n).as_bytes(), out, end)
}

/// Writes `bytes` as hexadecimal digits after the first `at` bytes of `out`, and gives where the
/// digits end. Zeros at the end of `bytes` are left out, as `shown_size` says.
fn append_shown(bytes: &[u8], out: &mut [u8; LONGEST_REPLY], at: usize) -> usize
    requires some { 1 ≤ length bytes.now }
    requires room { at + 2 * length bytes.now ≤ LONGEST_TEXT }
    ensures text { AppendsText out.old out.new at result (shown bytes.now) }
    ensures bound { result ≤ LONGEST_TEXT }
{
    let bytes = &bytes[..shown_size(bytes)];
    let end = at + 2 * bytes.len();
    put_digits(bytes, &mut out[at..end]);
    end
}

/// Writes two hexadecimal digits for each byte over `digits`. Not inlined: so `append_shown` is small enough to be inlined where it is
/// called, and the search for the last byte that isn't 0 is compiled for the size of a block, which saves a sixth of what a read takes.
#[inline(never)]
fn put_digits(bytes: &[u8], digits: &mut [u8])
    requires { length digits.old ≡ 2 * length bytes.now }
    ensures { digits.new ≡ encode_lower bytes.now }
{
    hex::encode_to_slice(bytes, digits).unwrap();
}

/// How many of the bytes are shown: those up to the last that isn't 0, and one where all are 0.
fn shown_size(bytes: &[u8]) -> usize
    requires { 1 ≤ length bytes.now }
    ensures shown { take result bytes.now ≡ at_least_one (without_trailing_zeros bytes.now) }
    ensures some { 1 ≤ result }
    ensures bound { result ≤ length bytes.now }
{
    let mut size = bytes.len();
    while size > 1 && bytes[size - 1] == 0 {
        size -= 1;
    }
    size
}
