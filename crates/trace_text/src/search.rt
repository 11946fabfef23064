//! Where a byte first stands.
ghost use Rattle.std.specs.Prelude.{◌≡◌, ◌≤◌, ◌==◌, length, take};
ghost use Rattle.std.specs.List.{position, position_or_len};

use std::simd::prelude::*;

/// Bytes that are looked at in one step.
const BLOCK: usize = 32;

/// How many of the first bytes, a block of them, stand before the first one that is `wanted`.
#[inline(always)]
fn length_in_block(bytes: &[u8], wanted: u8) -> usize
    requires { BLOCK ≤ length bytes.now }
    ensures { result ≡ position_or_len (λ b. b == wanted) (take BLOCK bytes.now) }
{
    let is_wanted = u8x32::from_slice(bytes).simd_eq(u8x32::splat(wanted));
    let places = is_wanted.to_bitmask();
    if places == 0 {
        return BLOCK;
    }
    places.trailing_zeros() as usize
}

/// The place of the first byte that is `wanted`.
fn find(bytes: &[u8], wanted: u8) -> Option<usize>
    ensures { result ≡ position (λ b. b == wanted) bytes.now }
{
    bytes.iter().position(|byte| *byte == wanted)
}

/// How many bytes stand before the first one that is `wanted`: all of them where there is none.
pub fn length_before(bytes: &[u8], wanted: u8) -> usize
    ensures first { result ≡ position_or_len (λ b. b == wanted) bytes.now }
    ensures within { result ≤ length bytes.now }
{
    match find(bytes, wanted) {
        Some(place) => place,
        None => bytes.len(),
    }
}

/// The same, where there is likely one in the first block.
pub fn length_before_near(bytes: &[u8], wanted: u8) -> usize
    ensures first { result ≡ position_or_len (λ b. b == wanted) bytes.now }
    ensures within { result ≤ length bytes.now }
{
    if bytes.len() >= BLOCK {
        let place = length_in_block(bytes, wanted);
        if place < BLOCK {
            return place;
        }
    }
    length_before(bytes, wanted)
}
