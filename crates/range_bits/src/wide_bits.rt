//! Rows of as many places as a list of words has bits.
#![tactic(auto, using(crate::proofs::RowFacts::places_of, crate::proofs::Parts::row_of_part))]

ghost use Rattle.std.specs.Prelude.{◌≡◌, ◌+◌, ◌*◌, ◌≤◌, ◌<◌, ◌↔◌, false, true, None, if◌then◌else◌, length, take, drop, replicate, IfOk};
ghost use Rattle.std.specs.List.{slice_index_or};
ghost use Rattle.range_bits.specs.Fills.{IsEnd, StaysUsed};
ghost use Rattle.range_bits.specs.Ranges.{used_count, longest, best, with_places};
ghost use Rattle.range_bits.specs.Words.{IsNext};

use crate::counting::{are_all, used_between};
use crate::ranges;
use crate::words::{end_place, keep_used, next_place, set_place, set_places};
use std::alloc::{AllocError, Global};
use std::marker::Model;

/// The most words of a row, so that its places are numbered by a `u32`.
const MOST_WORDS: usize = 67_108_863;

/// Which of 64 places a word are used. Contracts see a truth value for each place, in order.
#[derive(Drop)]
pub struct WideBits {
    words: Vec<u64>,
}

impl Model for WideBits {
    ghost use Rattle.std.specs.Prelude.{◌*◌, ◌^◌, ◌<◌, List, Bool, length};
    ghost use Rattle.range_bits.specs.Words.{row_of};

    ghost Value = { List Bool };

    ghost view = { λ b. row_of b.words.items };

    ghost invariant = { λ b. 64 * length b.words.items < 2 ^ 32 };
}

impl WideBits {
    /// A row of 64 places a word, all of them free. Want of memory is answered for more than
    /// 67,108,863 words too.
    pub fn open(alloc: Global, words: usize) -> Result<Self, AllocError>
        ensures { IfOk result (λ bits. bits ≡ replicate (64 * words) false) }
    {
        if words > MOST_WORDS {
            return Err(AllocError);
        }
        Ok(WideBits {
            words: vec![in alloc; 0; words]?,
        })
    }

    /// Where the shortest maximal free range of at least `n` places begins, the first one where several
    /// are as short.
    pub fn best(&self, n: u32) -> Option<u32>
        requires { 1 ≤ n }
        ensures value { result ≡ best self.now n }
        ensures none { (result ≡ None) ↔ (longest self.now < n) }
    {
        ranges::best(&self.words, n)
    }

    /// The greatest number of free places that follow each other.
    pub fn longest(&self) -> u32
        ensures { result ≡ longest self.now }
    {
        ranges::longest(&self.words)
    }

    /// How many places there are.
    pub fn places(&self) -> u32
        ensures { result ≡ length self.now }
    {
        self.words.len() as u32 * 64
    }

    /// Whether a place is used.
    pub fn is_used(&self, place: u32) -> bool
        requires { place < length self.now }
        ensures { result ≡ slice_index_or self.now place true }
    {
        self.words[place as usize / 64] >> (place % 64) & 1 == 1
    }

    /// Where the last used place before a place ends; 0 where there is none.
    pub fn used_end(&self, before: u32) -> u32
        requires { before ≤ length self.now }
        ensures { IsEnd self.now before true result }
    {
        end_place(&self.words, before as usize, true) as u32
    }

    /// Where the last free place before a place ends; 0 where there is none.
    pub fn free_end(&self, before: u32) -> u32
        requires { before ≤ length self.now }
        ensures { IsEnd self.now before false result }
    {
        end_place(&self.words, before as usize, false) as u32
    }

    /// The first used place from a place on; the number of places where there is none.
    pub fn next_used(&self, from: u32) -> u32
        requires { from ≤ length self.now }
        ensures { IsNext self.now from true result }
    {
        next_place(&self.words, from as usize, true) as u32
    }

    /// How many of `n` places are used, from `start` on.
    pub fn used_in(&self, start: u32, n: u32) -> u32
        requires { start + n ≤ length self.now }
        ensures { result ≡ used_count (take n (drop start self.now)) }
    {
        let from = start as usize;
        used_between(&self.words, from, from + n as usize)
    }

    /// Whether all places of `words` words are used, or all are free, from word `first` on.
    pub fn are_all(&self, first: usize, words: usize, used: bool) -> bool
        requires { 64 * (first + words) ≤ length self.now }
        ensures { (result ≡ true) ↔ (used_count (take (64 * words) (drop (64 * first) self.now))
            ≡ (if used then 64 * words else 0)) }
    {
        are_all(&self.words[first..first + words], used)
    }

    /// The greatest number of free places that follow each other in `words` words, from word `first` on.
    pub fn longest_in(&self, first: usize, words: usize) -> u32
        requires { 64 * (first + words) ≤ length self.now }
        ensures { result ≡ longest (take (64 * words) (drop (64 * first) self.now)) }
    {
        ranges::longest(&self.words[first..first + words])
    }

    /// Makes `n` places used or free, from `start` on, whatever they were.
    pub fn put(&mut self, start: u32, n: u32, used: bool)
        requires { start + n ≤ length self.old }
        ensures { self.new ≡ with_places self.old start n used }
    {
        let from = start as usize;
        set_places(&mut self.words, from, from + n as usize, used);
    }

    /// Makes a place used or free.
    pub fn set(&mut self, place: u32, used: bool)
        requires { place < length self.old }
        ensures { self.new ≡ with_places self.old place 1 used }
    {
        set_place(&mut self.words, place as usize, used);
    }

    /// Where the shortest maximal free range of at least `n` places begins in `words` words, from word
    /// `first` on, the first one where several are as short. Places are counted from that word on.
    pub fn best_in(&self, first: usize, words: usize, n: u32) -> Option<u32>
        requires inside { 64 * (first + words) ≤ length self.now }
        requires some { 0 < n }
        ensures { result ≡ best (take (64 * words) (drop (64 * first) self.now)) n }
    {
        ranges::best(&self.words[first..first + words], n)
    }

    /// Frees those places of `words` words, from word `first` on, that are free in another row.
    pub fn keep_used(&mut self, other: &WideBits, first: usize, words: usize)
        requires inside { 64 * (first + words) ≤ length self.old }
        requires other { 64 * (first + words) ≤ length other.now }
        ensures { StaysUsed self.old other.now self.new (64 * first) (64 * (first + words)) }
    {
        keep_used(&mut self.words, &other.words, first, words);
    }
}
