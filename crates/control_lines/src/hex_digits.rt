//! Bytes from hex digits, and hex digits of bytes. No branch and no lookup depends on a digit, so that many pairs are read
//! or written in a few steps of vectors.

ghost use Rattle.std.specs.Prelude.{◌≡◌, ◌*◌, ◌+◌, ◌<◌, ◌≤◌, ℕ, length, slice_index, unwrap_or, Ok, Err};
ghost use Rattle.std.specs.Bool.{MatchBool};
ghost use Rattle.hex.specs.Hex.{decode_of, encode_lower, hex_digit_value, lower_digits};
ghost use Rattle.frame_core.specs.declared.refusal.Refusal.TheVariants.{BadLine};
ghost use Rattle.control_lines.specs.Numbers.{decoded};
ghost use Rattle.control_lines.specs.HexDigits.{IsReadTo};

use std::simd::prelude::*;

/// What a byte is told as that is no hex digit.
const NO_DIGIT: u8 = 255;

/// The value of a hex digit, or `NO_DIGIT`.
#[inline(always)]
fn digit(c: u8) -> u8
    ensures { result ≡ unwrap_or (hex_digit_value c) NO_DIGIT }
{
    let number = c.wrapping_sub(b'0');
    let upper = c.wrapping_sub(b'A');
    let lower = c.wrapping_sub(b'a');
    let letter = if upper < 6 { upper + 10 } else { NO_DIGIT };
    let letter = if lower < 6 { lower + 10 } else { letter };
    if number < 10 { number } else { letter }
}

/// The first and the second digits of 32 pairs.
#[inline(always)]
fn digits_of_pairs(text: &[u8], from: usize) -> ([u8; 32], [u8; 32])
    requires { from + 64 ≤ length text.now }
    ensures first { (k : ℕ) → k < 32 →
        slice_index result.0 k ≡ slice_index text.now (from + 2 * k) }
    ensures second { (k : ℕ) → k < 32 →
        slice_index result.1 k ≡ slice_index text.now (from + 2 * k + 1) }
{
    let front = u8x32::from_slice(&text[from..]);
    let back = u8x32::from_slice(&text[from + 32..]);
    let (first, second) = front.deinterleave(back);
    (first.to_array(), second.to_array())
}

/// Reads 32 pairs of digits, and answers the greatest value so far.
fn read_pairs(text: &[u8], out: &mut [u8], from: usize, worst: u8) -> u8
    requires long { length text.now ≡ 2 * length out.old }
    requires room { from + 32 ≤ length out.old }
    requires read { IsReadTo text.now out.old from worst }
    ensures read { IsReadTo text.now out.new (from + 32) result }
    ensures long { length out.new ≡ length out.old }
{
    let (first, second) = digits_of_pairs(text, 2 * from);
    let mut worst = worst;
    for k in 0..32 {
        let high = digit(first[k]);
        let low = digit(second[k]);
        worst = worst.max(high).max(low);
        out[from + k] = high.wrapping_mul(16).wrapping_add(low);
    }
    worst
}

/// Reads the pairs of digits that stand behind the first ones, and answers the greatest value of all.
fn read_last(text: &[u8], out: &mut [u8], from: usize, worst: u8) -> u8
    requires long { length text.now ≡ 2 * length out.old }
    requires room { from ≤ length out.old }
    requires read { IsReadTo text.now out.old from worst }
    ensures read { IsReadTo text.now out.new (length out.new) result }
    ensures long { length out.new ≡ length out.old }
{
    let mut worst = worst;
    for i in from..out.len() {
        let high = digit(text[2 * i]);
        let low = digit(text[2 * i + 1]);
        worst = worst.max(high).max(low);
        out[i] = high.wrapping_mul(16).wrapping_add(low);
    }
    worst
}

/// Puts the bytes whose hex digits a text is over `out`, and answers whether it is all digits; else what `out` then has
/// is not said. Costs a step for each 32 bytes.
pub(crate) fn decode_over(text: &[u8], out: &mut [u8]) -> bool
    requires { length text.now ≡ 2 * length out.old }
    ensures { MatchBool result
        (decode_of text.now ≡ Ok out.new)
        (decoded (decode_of text.now) ≡ Err BadLine) }
{
    let mut worst = 0;
    let mut from = 0;
    while out.len() - from >= 32 {
        worst = read_pairs(text, out, from, worst);
        from += 32;
    }
    read_last(text, out, from, worst) < 16
}

/// The digit of a value, in lower case.
#[inline(always)]
fn lower_digit(value: u8) -> u8
    requires { value < 16 }
    ensures { result ≡ slice_index lower_digits value }
{
    let number = value + b'0';
    let letter = value + (b'a' - 10);
    if value < 10 { number } else { letter }
}

/// Puts the hex digits of bytes over `out`, in lower case. Costs the bytes' number.
pub(crate) fn encode_over(bytes: &[u8], out: &mut [u8])
    requires { length out.old ≡ 2 * length bytes.now }
    ensures { out.new ≡ encode_lower bytes.now }
{
    for i in 0..bytes.len() {
        let byte = bytes[i];
        let high = lower_digit(byte >> 4);
        let low = lower_digit(byte & 0x0f);
        out[2 * i] = high;
        out[2 * i + 1] = low;
    }
}
