//! Rows of four words in which each free range loses its last place, again and again, all at once.
ghost use Rattle.std.specs.Prelude.{◌≡◌, ◌<◌, ◌↔◌, true};
ghost use Rattle.range_bits.specs.Ranges.{longest, best};
ghost use Rattle.range_bits.specs.Words.{row_of, IsJoined, IsNarrowed};

use crate::ranges::{best_range, longest_range};

/// How many places free ranges lose before those that are left are looked at one by one: most have fewer.
const FEW: u32 = 8;

/// A word with a 0 for each bit of a word that is 0 with the bit behind it. Behind the last one stands the next word's first.
fn joined(word: u64, next: u64) -> u64
    ensures { IsJoined word next result }
{
    word | word >> 1 | next << 63
}

/// Four words in which each free range has lost its last place.
fn narrowed(words: [u64; 4]) -> [u64; 4]
    ensures { IsNarrowed (row_of words) (row_of result) }
{
    let [first, second, third, last] = words;
    [
        joined(first, second),
        joined(second, third),
        joined(third, last),
        joined(last, 1),
    ]
}

/// Whether all places of four words are used.
fn are_used(words: [u64; 4]) -> bool
    ensures { (result ≡ true) ↔ (longest (row_of words) ≡ 0) }
{
    let [first, second, third, last] = words;
    first & second & third & last == u64::MAX
}

/// The greatest number of free places of four words that follow each other.
pub fn longest_of_four(words: [u64; 4]) -> u32
    ensures { result ≡ longest (row_of words) }
{
    let mut rest = words;
    for lost in 0..FEW {
        if are_used(rest) {
            return lost;
        }
        rest = narrowed(rest);
    }
    FEW + longest_range(&rest)
}

/// Where the shortest maximal free range of at least `n` places of four words begins, the first one where several are as
/// short.
pub fn best_of_four(words: [u64; 4], n: u32) -> Option<u32>
    requires { 0 < n }
    ensures { result ≡ best (row_of words) n }
{
    let mut rest = words;
    let lost = FEW.min(n - 1);
    for _place in 0..lost {
        rest = narrowed(rest);
    }
    best_range(&rest, n - lost).map(|range| range.start)
}
