//! Numbers of few digits, whose bytes are looked at all at once.
ghost use Rattle.std.specs.Prelude.{◌≡◌, ◌≤◌, ◌<◌, ◌+◌, ◌-◌, ◌==◌, ◌||◌, ◌&&◌, true, Some, length, nat_lt, nat_le, slice_index, slice_range, take, IfSome};
ghost use Rattle.std.specs.List.{list_all, position_or_len};
ghost use Rattle.tc_units.specs.Decimal.{is_digit, value_from, number_of};
ghost use Rattle.trace_text.specs.Lines.{is_space};

use std::simd::prelude::*;

/// Bytes that are looked at in one step.
const BLOCK: usize = 8;

/// What the digits of a number are worth, and nothing for what is behind them. The window of a block that begins so many places
/// before the first nothing fits a number of so many digits.
static WORTHS: [u32; 15] = [
    1_000_000, 100_000, 10_000, 1000, 100, 10, 1, 0, 0, 0, 0, 0, 0, 0, 0,
];

/// How many lanes stand before the first one above nine. `None` where there is none.
#[inline(always)]
fn length_to_nine(values: u8x8) -> Option<usize>
    requires { length values ≡ BLOCK }
    ensures { IfSome result (λ n. n ≡ position_or_len (nat_lt 9) values) }
{
    let others = values.simd_gt(u8x8::splat(9)).to_bitmask();
    if others == 0 {
        return None;
    }
    Some(others.trailing_zeros() as usize)
}

/// What the digits at the front of a block spell, and how many they are. `None` where none is there, and where all bytes are
/// digits.
#[inline(always)]
fn digits_in_block(bytes: &[u8]) -> Option<(u32, usize)>
    requires { BLOCK ≤ length bytes.now }
    ensures digits { IfSome result (λ n. list_all is_digit (take n.1 bytes.now) ≡ true) }
    ensures value { IfSome result (λ n. n.0 ≡ value_from 0 (take n.1 bytes.now)) }
    ensures few { IfSome result (λ n. (0 < n.1) × (n.1 < BLOCK)) }
{
    let values = u8x8::from_slice(bytes) - u8x8::splat(b'0');
    let count = length_to_nine(values)?;
    if count == 0 || count >= BLOCK {
        return None;
    }
    let worths = u32x8::from_slice(&WORTHS[BLOCK - 1 - count..]);
    let value = (values.cast::<u32>() * worths).reduce_sum();
    Some((value, count))
}

/// Whether a field ends before a place, in a line that ends at `end`.
#[inline(always)]
fn ends_at(text: &[u8], place: usize, end: usize) -> bool
    requires { end ≤ length text.now }
    ensures { result ≡ (place == end || (nat_lt place end && is_space (slice_index text.now place))) }
{
    place == end || (place < end && text[place] == b' ')
}

/// The number of the first field of a line's rest, where it has one digit. `None` where it has not.
#[inline(always)]
pub fn only_digit(rest: &[u8]) -> Option<u64>
    ensures number { IfSome result (λ n. number_of n (take 1 rest.now) ≡ Some n) }
    ensures length { IfSome result (λ _. position_or_len is_space rest.now ≡ 1) }
{
    match rest {
        [digit] | [digit, b' ', ..] if digit.is_ascii_digit() => Some(u64::from(digit - b'0')),
        _ => None,
    }
}

/// The number of the field that begins at `start` in a line that ends at `end`, and how many bytes that field has.
/// `None` where it is no canonical decimal of at most `most`, and also where it is `0`, where it has too many digits, and
/// where too little text is left.
#[inline(always)]
pub fn few_digits(text: &[u8], start: usize, end: usize, most: u64) -> Option<(u64, usize)>
    requires order { start ≤ end }
    requires within { end ≤ length text.now }
    ensures number { IfSome result (λ n. number_of most (take n.1 (slice_range text.now start end)) ≡ Some n.0) }
    ensures length { IfSome result (λ n. n.1 ≡ position_or_len is_space (slice_range text.now start end)) }
{
    if text.len() - start < BLOCK {
        return None;
    }
    let (value, count) = digits_in_block(&text[start..])?;
    let value = u64::from(value);
    if text[start] == b'0' || value > most || !ends_at(text, start + count, end) {
        return None;
    }
    Some((value, count))
}
