//! What the words of a line encode: its keyword, its numbers, its digits. In functions that work behind the keyword the argument `line` is
//! the rest of the line.

ghost use Rattle.std.specs.Prelude.{◌≡◌, ◌≢◌, ℕ, ◌<◌, ◌≤◌, ◌∷◌, [], true, ◌↔◌, length, slice_index, IsTrue, IfSome, MatchOption, option_map};
ghost use Rattle.std.specs.Str.{all_ascii_digits, bytes_eq};
ghost use Rattle.std.specs.Str.Parse.{digits_value};
ghost use Rattle.protocol.specs.declared.messages.Msg.{Msg};
ghost use Rattle.protocol.specs.Words.{words, number_in_word, bytes_in_word};
ghost use Rattle.protocol.specs.Grammar.{first_number, of_volume, of_file, of_block, kind_named};
ghost use Rattle.message.specs.Numbers.{AreInFront, HasTooMuchInFront};

use crate::LONGEST_LINE;
use affinity::Kind;
use protocol::{Block, Msg};

/// The greatest number that a line may have.
const GREATEST_NUMBER: u32 = u16::MAX as u32;

/// How many bytes the longest keyword has.
const LONGEST_KEYWORD: usize = 8;

/// Splits a line at its first space: what is before it, and what is after it. `None` if there is no space among the first nine
/// bytes. No keyword is longer than eight, so the rest of the line need not be searched.
pub(crate) fn split_keyword(line: &[u8]) -> Option<(&[u8], &[u8])>
    ensures { MatchOption result
        ((k : ℕ) → k ≤ LONGEST_KEYWORD → k < length line.now → slice_index line.now k ≢ 32)
        (λ p. words line.now ≡ p.0.now ∷ words p.1.now) }
{
    let most = line.len().min(LONGEST_KEYWORD + 1);
    for end in 0..most {
        if line[end] == b' ' {
            return Some((&line[..end], &line[end + 1..]));
        }
    }
    None
}

/// The kind that a word names. The keywords that lines have most often stand first.
pub(crate) fn kind_named(word: &[u8]) -> Option<Kind>
    ensures { result ≡ kind_named word.now }
{
    if is_keyword(word, b"write") {
        Some(Kind::Write)
    } else if is_keyword(word, b"read") {
        Some(Kind::Read)
    } else if is_keyword(word, b"punch") {
        Some(Kind::Punch)
    } else if is_keyword(word, b"create") {
        Some(Kind::Create)
    } else if is_keyword(word, b"delete") {
        Some(Kind::Delete)
    } else if is_keyword(word, b"list") {
        Some(Kind::List)
    } else if is_keyword(word, b"usage") {
        Some(Kind::Usage)
    } else if is_keyword(word, b"label") {
        Some(Kind::Label)
    } else if is_keyword(word, b"seal") {
        Some(Kind::Seal)
    } else if is_keyword(word, b"unseal") {
        Some(Kind::Unseal)
    } else if is_keyword(word, b"makevol") {
        Some(Kind::MakeVol)
    } else if is_keyword(word, b"dropvol") {
        Some(Kind::DropVol)
    } else if is_keyword(word, b"summary") {
        Some(Kind::Summary)
    } else if is_keyword(word, b"setlabel") {
        Some(Kind::SetLabel)
    } else {
        None
    }
}

/// Whether a word is a keyword. Bytes are compared one by one: the compiled code of `==` is longer at these lengths, or a call.
#[inline(always)]
fn is_keyword<const N: usize>(word: &[u8], keyword: &[u8; N]) -> bool
    ensures { result ≡ bytes_eq word.now keyword.now }
{
    if word.len() != N {
        return false;
    }
    for place in 0..N {
        if word[place] != keyword[place] {
            return false;
        }
    }
    true
}

/// The numbers of an aggregate and a volume, and zeros.
pub(crate) fn volume_numbers(line: &[u8]) -> Option<[u16; 4]>
    ensures value { (make : ℕ → ℕ → Msg) → of_volume make (words line.now)
        ≡ option_map (λ ns. make (slice_index ns 0) (slice_index ns 1)) result }
    ensures zeros { IfSome result (λ ns. slice_index ns 0 ∷ slice_index ns 1 ∷ 0 ∷ 0 ∷ [] ≡ ns) }
{
    let (aggregate, behind) = number_before_space(line)?;
    Some([aggregate, number(behind)?, 0, 0])
}

/// The numbers of an aggregate, a volume and a file, and a zero.
pub(crate) fn file_numbers(line: &[u8]) -> Option<[u16; 4]>
    ensures value { (make : ℕ → ℕ → ℕ → Msg) → of_file make (words line.now)
        ≡ option_map (λ ns. make (slice_index ns 0) (slice_index ns 1) (slice_index ns 2)) result }
    ensures zeros { IfSome result (λ ns. slice_index ns 0 ∷ slice_index ns 1 ∷ slice_index ns 2 ∷ 0 ∷ [] ≡ ns) }
{
    let (aggregate, behind) = number_before_space(line)?;
    let [volume, file, _, _] = volume_numbers(behind)?;
    Some([aggregate, volume, file, 0])
}

/// The numbers of an aggregate, a volume, a file and a block.
pub(crate) fn block_numbers(line: &[u8]) -> Option<[u16; 4]>
    ensures value { (make : ℕ → ℕ → ℕ → ℕ → Msg) → of_block make (words line.now)
        ≡ option_map (λ ns. make (slice_index ns 0) (slice_index ns 1) (slice_index ns 2) (slice_index ns 3)) result }
    ensures zeros { IfSome result (λ ns. slice_index ns 0 ∷ slice_index ns 1 ∷ slice_index ns 2 ∷ slice_index ns 3 ∷ [] ≡ ns) }
{
    let (aggregate, behind) = number_before_space(line)?;
    let [volume, file, block, _] = file_numbers(behind)?;
    Some([aggregate, volume, file, block])
}

/// If a line begins with one digit and a space, which is the usual case: the number, and what comes
/// after the space. Else `None`, also where the first word is a longer number.
fn digit_before_space(line: &[u8]) -> Option<(u16, &[u8])>
    ensures { IfSome result (λ p. first_number (words line.now) ≡ Some (p.0, words p.1.now)) }
{
    if line.len() < 2 || line[1] != b' ' || !line[0].is_ascii_digit() {
        return None;
    }
    Some((u16::from(line[0] - b'0'), &line[2..]))
}

/// If a line begins with a number of two digits and a space: the number, and what comes after the space. Else `None`.
fn two_digits_before_space(line: &[u8]) -> Option<(u16, &[u8])>
    ensures { IfSome result (λ p. first_number (words line.now) ≡ Some (p.0, words p.1.now)) }
{
    if line.len() < 3 || line[2] != b' ' || line[0] == b'0' {
        return None;
    }
    if !line[0].is_ascii_digit() || !line[1].is_ascii_digit() {
        return None;
    }
    let number = 10 * (line[0] - b'0') + (line[1] - b'0');
    Some((u16::from(number), &line[3..]))
}

/// The number before the first space of a line, and what comes after that space. One digit is the usual case: it is looked at inline.
#[inline(always)]
pub(crate) fn number_before_space(line: &[u8]) -> Option<(u16, &[u8])>
    ensures { first_number (words line.now) ≡ option_map (λ p. (p.0, words p.1.now)) result }
{
    if let Some(found) = digit_before_space(line) {
        return Some(found);
    }
    longer_number_before_space(line)
}

/// The same, where the number has two digits or more.
#[inline(never)]
fn longer_number_before_space(line: &[u8]) -> Option<(u16, &[u8])>
    ensures { first_number (words line.now) ≡ option_map (λ p. (p.0, words p.1.now)) result }
{
    if let Some(found) = two_digits_before_space(line) {
        return Some(found);
    }
    let (value, size) = digits_in_front(line)?;
    if size == line.len() {
        return None;
    }
    if line[size] != b' ' {
        return None;
    }
    let number = plain_number(value, &line[..size])?;
    Some((number, &line[size + 1..]))
}

/// The number that a word encodes.
fn number(word: &[u8]) -> Option<u16>
    ensures { result ≡ number_in_word word.now }
{
    let (value, size) = digits_in_front(word)?;
    if size < word.len() {
        return None;
    }
    plain_number(value, word)
}

/// The value of the decimal digits at the front of a line, and how many they are. `None` where the value is past 65,535.
fn digits_in_front(line: &[u8]) -> Option<(u16, usize)>
    ensures { MatchOption result (HasTooMuchInFront line.now) (λ p. AreInFront line.now p.0 p.1) }
{
    let mut value = 0u32;
    for size in 0..line.len() {
        let byte = line[size];
        if !byte.is_ascii_digit() {
            return Some((value as u16, size));
        }
        value = 10 * value + u32::from(byte - b'0');
        if value > GREATEST_NUMBER {
            return None;
        }
    }
    Some((value as u16, line.len()))
}

/// The number that a word of decimal digits encodes, given the value of the digits.
fn plain_number(value: u16, word: &[u8]) -> Option<u16>
    requires digits { all_ascii_digits word.now ≡ true }
    requires value { value ≡ digits_value 10 word.now }
    ensures { result ≡ number_in_word word.now }
{
    if word.is_empty() {
        return None;
    }
    if has_leading_zero(word) {
        return None;
    }
    Some(value)
}

/// Whether there is a zero in front of other digits.
fn has_leading_zero(word: &[u8]) -> bool
    ensures { IsTrue result ↔ ((1 < length word.now) × (slice_index word.now 0 ≡ 48)) }
{
    word.len() > 1 && word[0] == b'0'
}

/// The bytes that a word encodes in hexadecimal digits, and zeros after them.
pub(crate) fn bytes_in_word<const N: usize>(digits: &[u8]) -> Option<[u8; N]>
    ensures { result ≡ bytes_in_word N digits.now }
{
    let size = digits.len() / 2;
    if size == 0 || size > N {
        return None;
    }
    let mut bytes = [0; N];
    hex::decode_to_slice(digits, &mut bytes[..size]).ok()?;
    Some(bytes)
}
