//! How many places of a row are used, a word at a time.
ghost use Rattle.std.specs.Prelude.{◌≡◌, ◌↔◌, true, if◌then◌else◌, ◌+◌, ◌-◌, ◌*◌, ◌/◌, ◌^◌, ◌<◌, ◌≤◌, length, take, drop};
ghost use Rattle.range_bits.specs.Ranges.{used_count};
ghost use Rattle.range_bits.specs.Words.{row_of};

use crate::words::ones;

/// How many of the places before a place are used, from the begin of its word on.
fn used_in_word(words: &[u64], place: usize) -> u32
    requires fits { 64 * length words.now < 2 ^ 32 }
    requires inside { place ≤ 64 * length words.now }
    ensures { result + used_count (take (64 * (place / 64)) (row_of words.now))
        ≡ used_count (take place (row_of words.now)) }
{
    let bits = (place % 64) as u32;
    if bits == 0 {
        return 0;
    }
    (words[place / 64] & ones(bits)).count_ones()
}

/// How many of the places from `start` up to `end` are used.
pub fn used_between(words: &[u64], start: usize, end: usize) -> u32
    requires fits { 64 * length words.now < 2 ^ 32 }
    requires order { start ≤ end }
    requires inside { end ≤ 64 * length words.now }
    ensures { result ≡ used_count (take (end - start) (drop start (row_of words.now))) }
{
    let mut used = 0;
    for index in start / 64..end / 64 {
        used += words[index].count_ones();
    }
    used + used_in_word(words, end) - used_in_word(words, start)
}

/// A word whose places are all used, or free.
fn whole(used: bool) -> u64
    ensures { result ≡ (if used then 2 ^ 64 - 1 else 0) }
{
    if used { u64::MAX } else { 0 }
}

/// Whether all places of words are used, or all are free.
pub fn are_all(words: &[u64], used: bool) -> bool
    ensures { (result ≡ true) ↔ (used_count (row_of words.now) ≡ (if used then 64 * length words.now else 0)) }
{
    for index in 0..words.len() {
        if words[index] != whole(used) {
            return false;
        }
    }
    true
}
