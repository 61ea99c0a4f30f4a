//! Decodes the digits of a block, 32 digits (16 bytes) at a time. No loop ends early at a byte that is no digit, so that the compiler can
//! use vector instructions: `hex`, which ends at the first such byte, takes many times as long.

ghost use Rattle.std.specs.Prelude.{◌≡◌, ◌+◌, ◌*◌, ◌%◌, ◌<◌, ◌≤◌, ℕ, length, slice_index, Ok, Some, None, IsErr, MatchResult};
ghost use Rattle.std.specs.Option.{unwrap_or};
ghost use Rattle.hex.specs.Hex.{decode_sized, hex_digit_value, decode_pairs};
ghost use Rattle.message.specs.Digits.{AreDecoded, HasNonDigit, value_of};

/// The value of a byte that is no digit: more than any digit's.
const NO_DIGIT: u8 = 255;

/// How many bytes are decoded at once: so few that the compiler unrolls the loops over them, and uses vector instructions.
const LANES: usize = 16;

/// The value of a digit, in either case, or `NO_DIGIT`.
fn digit_value(digit: u8) -> u8
    ensures { result ≡ unwrap_or (hex_digit_value digit) NO_DIGIT }
{
    let decimal = digit.wrapping_sub(b'0');
    // Bit 5 alone tells the two cases of a letter apart: without it, they are compared at once.
    let letter = (digit / 64 * 64 + digit % 32).wrapping_sub(b'A');
    if decimal < 10 {
        decimal
    } else if letter < 6 {
        letter + 10
    } else {
        NO_DIGIT
    }
}

/// Puts the values of the `2 * LANES` digits from `at` on into `values`, in order, and gives the greatest of them.
#[inline(always)]
fn values_at(digits: &[u8], at: usize, values: &mut [u8; 2 * LANES]) -> u8
    requires { at + 2 * LANES ≤ length digits.now }
    ensures each { (k : ℕ) → k < 2 * LANES → slice_index values.new k ≡ value_of (slice_index digits.now (at + k)) }
    ensures bound { (k : ℕ) → k < 2 * LANES → slice_index values.new k ≤ result }
    ensures met { 16 ≤ result → HasNonDigit digits.now }
{
    let mut greatest = 0u8;
    for k in 0..2 * LANES {
        let value = digit_value(digits[at + k]);
        values[k] = value;
        greatest = greatest.max(value);
    }
    greatest
}

/// Puts the byte of each pair of values into `out`, from `at` on. Where a value is no digit's, its byte is unspecified.
#[inline(always)]
fn put_pairs(values: &[u8; 2 * LANES], out: &mut [u8], at: usize)
    requires { at + LANES ≤ length out.old }
    ensures size { length out.new ≡ length out.old }
    ensures before { (i : ℕ) → i < at → slice_index out.new i ≡ slice_index out.old i }
    ensures pairs { (k : ℕ) → k < LANES → slice_index out.new (at + k)
        ≡ (slice_index values.now (2 * k) * 16 % 256 + slice_index values.now (2 * k + 1)) % 256 }
{
    for k in 0..LANES {
        out[at + k] = values[2 * k]
            .wrapping_mul(16)
            .wrapping_add(values[2 * k + 1]);
    }
}

/// Decodes the pairs of digits from pair `from` on into bytes, and gives the greatest value of these digits. Where that is no digit's
/// value, the bytes are unspecified.
fn decode_from(digits: &[u8], out: &mut [u8], from: usize) -> u8
    requires { length digits.now ≡ 2 * length out.old }
    ensures before { (i : ℕ) → i < from → slice_index out.new i ≡ slice_index out.old i }
    ensures size { length out.new ≡ length out.old }
    ensures read { result < 16 → AreDecoded digits.now out.new from (length out.new) }
    ensures other { 16 ≤ result → HasNonDigit digits.now }
{
    let mut greatest = 0u8;
    for i in from..out.len() {
        let high = digit_value(digits[2 * i]);
        let low = digit_value(digits[2 * i + 1]);
        greatest = greatest.max(high).max(low);
        out[i] = high.wrapping_mul(16).wrapping_add(low);
    }
    greatest
}

/// Decodes pairs of digits into as many bytes, and gives the greatest value of these digits. Where
/// that is no digit's value, the bytes are unspecified. `decode_pairs 0` is the result of `hex` for
/// the pairs from the first one on.
fn decode_all(digits: &[u8], out: &mut [u8]) -> u8
    requires { length digits.now ≡ 2 * length out.old }
    ensures digits { result < 16 → decode_pairs 0 digits.now ≡ Ok out.new }
    ensures other { 16 ≤ result → IsErr (decode_pairs 0 digits.now) }
{
    let mut greatest = 0u8;
    let groups = out.len() / LANES;
    for n in 0..groups {
        let mut values = [0; 2 * LANES];
        let most = values_at(digits, 2 * LANES * n, &mut values);
        put_pairs(&values, out, LANES * n);
        greatest = greatest.max(most);
    }
    let most = decode_from(digits, out, LANES * groups);
    greatest.max(most)
}

/// Decodes digits into bytes, two into each, as `hex::decode_to_slice` does. It takes the same time whatever the digits are: they are
/// tested once, at the end. Where one of them is no digit, the bytes of `out` are unspecified.
pub(crate) fn decode_to_slice(digits: &[u8], out: &mut [u8]) -> Option<()>
    ensures value { MatchResult (decode_sized digits.now (length out.old))
        (λ bytes. (result ≡ Some tt) × (out.new ≡ bytes))
        (λ e. result ≡ None) }
{
    if digits.len() % 2 != 0 || digits.len() / 2 != out.len() {
        return None;
    }
    if decode_all(digits, out) < 16 {
        Some(())
    } else {
        None
    }
}
