//! The free ranges of a row, each found by the next free place and the next used one behind it.
ghost use Rattle.std.specs.Prelude.{◌≡◌, ◌↔◌, None, IfSome, ◌*◌, ◌+◌, ◌<◌, ◌≤◌, ◌^◌, length, option_map};
ghost use Rattle.range_bits.specs.FreeRanges.{shorter_of};
ghost use Rattle.range_bits.specs.Ranges.{free_from, longest, best};
ghost use Rattle.range_bits.specs.Words.{row_of, IsNextRange};

use crate::narrowing::{best_of_four, longest_of_four};
use crate::words::next_place;

/// Free places that follow each other.
#[derive(Clone, Copy)]
pub struct FreeRange {
    pub start: u32,
    pub len: u32,
}

/// The first maximal free range from a place on. At the row's end, and there alone, it is empty.
fn next_range(words: &[u64], from: u32) -> FreeRange
    requires fits { 64 * length words.now < 2 ^ 32 }
    requires inside { from < 64 * length words.now }
    ensures next { IsNextRange (row_of words.now) from result.start result.len }
    ensures inside { result.start + result.len ≤ 64 * length words.now }
{
    let start = next_place(words, from as usize, false);
    let end = next_place(words, start, true);
    FreeRange {
        start: start as u32,
        len: (end - start) as u32,
    }
}

/// The greatest number of free places that follow each other, by each free range.
pub fn longest_range(words: &[u64]) -> u32
    requires { 64 * length words.now < 2 ^ 32 }
    ensures { result ≡ longest (row_of words.now) }
{
    let mut longest = 0;
    let mut from = 0;
    while (from as usize) < words.len() * 64 {
        let range = next_range(words, from);
        longest = range.len.max(longest);
        from = range.start + range.len;
    }
    longest
}

/// The shorter of two ranges: the earlier one where both are as short.
fn shorter(earlier: Option<FreeRange>, range: FreeRange) -> FreeRange
    ensures { result ≡ shorter_of earlier range }
{
    match earlier {
        Some(other) if other.len <= range.len => other,
        _ => range,
    }
}

/// The shortest maximal free range of at least `n` places, the first one where several are as short.
pub fn best_range(words: &[u64], n: u32) -> Option<FreeRange>
    requires fits { 64 * length words.now < 2 ^ 32 }
    requires some { 0 < n }
    ensures { option_map (λ range. range.start) result ≡ best (row_of words.now) n }
{
    let mut found: Option<FreeRange> = None;
    let mut from = 0;
    while (from as usize) < words.len() * 64 {
        let range = next_range(words, from);
        if range.len == n {
            // None is shorter.
            return Some(range);
        }
        if n < range.len {
            found = Some(shorter(found, range));
        }
        from = range.start + range.len;
    }
    found
}

/// The words of a row of four, where each has a used place: its free ranges are short then.
fn four(words: &[u64]) -> Option<[u64; 4]>
    ensures { IfSome result (λ all. all ≡ words.now) }
{
    match *words {
        [first, second, third, last] if first != 0 && second != 0 && third != 0 && last != 0 => {
            Some([first, second, third, last])
        }
        _ => None,
    }
}

/// The greatest number of free places that follow each other.
pub fn longest(words: &[u64]) -> u32
    requires { 64 * length words.now < 2 ^ 32 }
    ensures { result ≡ longest (row_of words.now) }
{
    match four(words) {
        Some(all) => longest_of_four(all),
        None => longest_range(words),
    }
}

/// Where the shortest maximal free range of at least `n` places begins, the first one where several
/// are as short.
pub fn best(words: &[u64], n: u32) -> Option<u32>
    requires fits { 64 * length words.now < 2 ^ 32 }
    requires some { 1 ≤ n }
    ensures value { result ≡ best (row_of words.now) n }
    ensures none { (result ≡ None) ↔ (longest (row_of words.now) < n) }
{
    match four(words) {
        Some(all) => best_of_four(all, n),
        None => best_range(words, n).map(|range| range.start),
    }
}
