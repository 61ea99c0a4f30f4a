//! The head of a line: the kind and the numbers of its message, the data not decoded; the message of a head; and its data, decoded where it
//! is to be. In functions that work behind the keyword the argument `line` is the rest of the line.

ghost use Rattle.std.specs.Prelude.{◌≡◌, ◌↔◌, [], Option, MatchOption, Some, None, unwrap_or};
ghost use Rattle.protocol.specs.declared.messages.Msg.{Msg};
ghost use Rattle.protocol.specs.declared.messages.Msg.TheVariants.{Write as write, SetLabel as set_label};
ghost use Rattle.protocol.specs.Words.{words, block_in_word, bytes_in_word, label_in_word};
ghost use Rattle.protocol.specs.Grammar.{message_of, Spells, of_kind, of_data, of_label};
ghost use Rattle.message.specs.Heads.{IsHead};
ghost use Rattle.message.specs.declared.heads.Head.TheVariants.{NoMessage};

use crate::LONGEST_LINE;
use crate::decoding::decode_to_slice;
use crate::parsing::{
    block_numbers, bytes_in_word, file_numbers, kind_named, number_before_space, split_keyword,
    volume_numbers,
};
use crate::records::assembled;
use affinity::Kind;
use protocol::{BLOCK_SIZE, Block, LABEL_SIZE, Msg};

/// What a line is, its data not decoded. It is a few bytes, where a `Msg` has room for a block.
#[derive(Clone, Copy)]
pub enum Head<'a> {
    /// The line is no message.
    NoMessage,
    /// The line is a message without data, of this kind and with these numbers, with 0 for each
    /// number that the kind doesn't have.
    WithoutData(Kind, [u16; 4]),
    /// The line is a `write` with these numbers, if these bytes are the digits of a block.
    Writes([u16; 4], &'a [u8]),
    /// The line is a `setlabel` with the first two of these numbers, if these bytes are the digits of a label. The others say nothing: they
    /// are there so that the numbers and the digits of each head lie in the same place, and a head is made without a copy.
    SetsLabel([u16; 4], &'a [u8]),
}

/// The message that a line spells, the line given without its newline; `None` where it spells none.
pub fn parse_line(line: &[u8]) -> Option<Msg>
    ensures value { result ≡ message_of line.now }
    ensures exact { (m : Msg) → (result ≡ Some m) ↔ Spells line.now m }
{
    head_of_line(line).message()
}

impl Head<'_> {
    /// The message of the line with this head, its data decoded; `None` where the line is no message.
    pub fn message(self) -> Option<Msg>
        requires { (m : Option Msg) × IsHead self m }
        ensures { (m : Option Msg) → IsHead self.entry m → result ≡ m }
    {
        match self {
            Head::NoMessage => None,
            Head::WithoutData(kind, numbers) => Some(assembled(kind, numbers, &[])),
            Head::Writes(numbers, digits) => {
                let [a, v, f, b] = numbers;
                let mut content = Block([0; BLOCK_SIZE]);
                decode_block(digits, &mut content)?;
                Some(Msg::Write(a, v, f, b, content))
            }
            Head::SetsLabel(numbers, digits) => {
                let [a, v, _, _] = numbers;
                Some(Msg::SetLabel(a, v, decode_label(digits)?))
            }
        }
    }
}

/// The head of the message that a line spells, the line given without its newline. It and what it calls are inlined: a head that is handed
/// through memory costs a tenth of what a short line takes.
#[inline(always)]
pub fn head_of_line(line: &[u8]) -> Head<'_>
    ensures { IsHead result (message_of line.now) }
{
    if line.len() > LONGEST_LINE {
        return Head::NoMessage;
    }
    match split_keyword(line) {
        Some((word, arguments)) => match kind_named(word) {
            Some(kind) => head_of_kind(kind, arguments).unwrap_or(Head::NoMessage),
            None => Head::NoMessage,
        },
        None => match kind_named(line) {
            Some(kind) => head_of_word(kind),
            None => Head::NoMessage,
        },
    }
}

/// The head of the message of a kind, where nothing comes after its keyword.
fn head_of_word(kind: Kind) -> Head<'static>
    ensures { IsHead result (of_kind kind []) }
{
    match kind {
        Kind::Summary => Head::WithoutData(Kind::Summary, [0, 0, 0, 0]),
        _ => Head::NoMessage,
    }
}

/// The head of the message of a kind and what comes after its keyword and a space.
#[inline(always)]
fn head_of_kind(kind: Kind, line: &[u8]) -> Option<Head<'_>>
    ensures { IsHead (unwrap_or result NoMessage) (of_kind kind (words line.now)) }
{
    match kind {
        Kind::MakeVol
        | Kind::DropVol
        | Kind::Seal
        | Kind::Unseal
        | Kind::List
        | Kind::Usage
        | Kind::Label => Some(Head::WithoutData(kind, volume_numbers(line)?)),
        Kind::Create | Kind::Delete => Some(Head::WithoutData(kind, file_numbers(line)?)),
        Kind::Punch | Kind::Read => Some(Head::WithoutData(kind, block_numbers(line)?)),
        Kind::Write => head_of_write(line),
        Kind::SetLabel => head_of_label(line),
        Kind::Summary => None,
    }
}

/// The head of a `write`.
#[inline(always)]
fn head_of_write(line: &[u8]) -> Option<Head<'_>>
    ensures { IsHead (unwrap_or result NoMessage) (of_data write (words line.now)) }
{
    let (aggregate, behind) = number_before_space(line)?;
    let (volume, behind) = number_before_space(behind)?;
    let (file, behind) = number_before_space(behind)?;
    let (block, digits) = number_before_space(behind)?;
    Some(Head::Writes([aggregate, volume, file, block], digits))
}

/// The head of a `setlabel`.
#[inline(always)]
fn head_of_label(line: &[u8]) -> Option<Head<'_>>
    ensures { IsHead (unwrap_or result NoMessage) (of_label set_label (words line.now)) }
{
    let (aggregate, behind) = number_before_space(line)?;
    let (volume, digits) = number_before_space(behind)?;
    Some(Head::SetsLabel([aggregate, volume, 0, 0], digits))
}

/// The label that digits encode.
pub fn decode_label(digits: &[u8]) -> Option<[u8; LABEL_SIZE]>
    ensures { result ≡ label_in_word digits.now }
{
    bytes_in_word(digits)
}

/// Decodes digits into a buffer of one block, and fills the rest with zeros.
#[inline(always)]
fn decode_bytes(digits: &[u8], out: &mut [u8; BLOCK_SIZE]) -> Option<()>
    ensures { MatchOption result (bytes_in_word BLOCK_SIZE digits.now ≡ None)
        (λ _. bytes_in_word BLOCK_SIZE digits.now ≡ Some out.new) }
{
    let size = digits.len() / 2;
    if size == 0 || size > BLOCK_SIZE {
        return None;
    }
    *out = [0; BLOCK_SIZE];
    decode_to_slice(digits, &mut out[..size])?;
    Some(())
}

/// Decodes digits into a block, in place, without a copy. Where they encode none, `content` is unspecified afterwards.
#[inline(always)]
pub fn decode_block(digits: &[u8], content: &mut Block) -> Option<()>
    ensures { MatchOption result (block_in_word digits.now ≡ None)
        (λ _. block_in_word digits.now ≡ Some content.new) }
{
    decode_bytes(digits, &mut content.0)
}
