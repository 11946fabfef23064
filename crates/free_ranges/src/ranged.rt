//! A row of places with its free ranges in the order of their lengths, and in that of their places.
ghost use Rattle.std.specs.Prelude.{◌≡◌, ◌+◌, ◌*◌, ◌<◌, ◌≤◌, ◌↔◌, ◌==◌, ◌^◌, ℕ, true, false, None, length, take, drop, replicate, IfOk, IfSome};
ghost use Rattle.std.specs.List.{slice_index_or};
ghost use Rattle.range_bits.specs.Fills.{IsEnd};
ghost use Rattle.range_bits.specs.Ranges.{free_from, used_from, used_count, longest, best, with_places};
ghost use Rattle.range_bits.specs.Words.{IsNext};
ghost use Rattle.free_ranges.specs.Ranges.{IsRange, IsLastRange};

use crate::bounds::RangeBounds;
use crate::listing::RangeList;
use crate::range::FreeRange;
use range_bits::WideBits;
use std::alloc::{AllocError, Global};
use std::marker::Model;

/// Which of 64 places a word are used. Contracts see a truth value for each place, in order. The free range
/// beside a place is found by where ranges begin and stop. The tightest and the longest one are found by a
/// search among the free ranges, and without a look at the places, as long as there never were more ranges
/// than there was room for; else by a look at all places.
#[derive(Drop)]
pub struct RangedBits {
    bits: WideBits,
    bounds: RangeBounds,
    ranges: RangeList,
}

impl Model for RangedBits {
    ghost use Rattle.std.specs.Prelude.{List, Bool};
    ghost use Rattle.free_ranges.specs.Bounds.{Tells};
    ghost use Rattle.free_ranges.specs.Ranges.{IsListed};

    ghost Value = { List Bool };

    ghost view = { λ r. r.bits };

    ghost invariant = { λ r. IsListed r.bits r.ranges × Tells r.bits r.bounds };
}

impl RangedBits {
    /// A row of 64 places a word, all of them free, with room for `ranges` free ranges. Want of memory is
    /// answered for more than 67,108,863 words or 65,536 ranges too.
    pub fn open(alloc: Global, words: usize, ranges: usize) -> Result<Self, AllocError>
        ensures { IfOk result (λ bits. bits ≡ replicate (64 * words) false) }
    {
        let bits = WideBits::open(alloc, words)?;
        let places = bits.places();
        let mut bounds = RangeBounds::open(alloc, places)?;
        if places > 0 {
            bounds.note(0, places, false, true, true);
        }
        let mut ranges = RangeList::open(alloc, ranges)?;
        ranges.add(0, places);
        Ok(RangedBits {
            bits,
            bounds,
            ranges,
        })
    }

    /// Where the shortest maximal free range of at least `n` places begins, the first one where several
    /// are as short.
    pub fn best(&self, n: u32) -> Option<u32>
        requires { 1 ≤ n }
        ensures value { result ≡ best self.now n }
        ensures none { (result ≡ None) ↔ (longest self.now < n) }
    {
        if !self.ranges.is_complete() {
            return self.bits.best(n);
        }
        match self.ranges.tightest(n) {
            Some(range) => Some(range.start),
            None => None,
        }
    }

    /// The greatest number of free places that follow each other.
    pub fn longest(&self) -> u32
        ensures { result ≡ longest self.now }
    {
        if !self.ranges.is_complete() {
            return self.bits.longest();
        }
        match self.ranges.longest() {
            Some(range) => range.len,
            None => 0,
        }
    }

    /// Whether no place is used.
    #[tactic(auto, using(range_bits::proofs::Scan::whole_free))]
    pub fn is_free(&self) -> bool
        ensures { result ≡ (used_count self.now == 0) }
    {
        self.longest() == self.bits.places()
    }

    /// The last maximal free range that begins at a place or before it.
    pub fn last_range(&self, place: u32) -> Option<FreeRange>
        requires { place < length self.now }
        ensures found { IfSome result (IsLastRange self.now place) }
        ensures none { result ≡ None → (p : ℕ) → p ≤ place → slice_index_or self.now p true ≡ true }
        ensures places { IfSome result (λ range. range.start + range.len < 2 ^ 32) }
    {
        // The places are numbered by a `u32`.
        let _ = self.bits.places();
        self.bounds.last_upto(place)
    }

    /// Where the last used place before a place ends; 0 where there is none.
    fn used_end(&self, before: u32) -> u32
        requires { before ≤ length self.now }
        ensures { IsEnd self.now before true result }
    {
        if before == 0 || self.bits.is_used(before - 1) {
            return before;
        }
        match self.last_range(before - 1) {
            Some(range) if before <= range.start + range.len => range.start,
            _ => before,
        }
    }

    /// The first used place from a place on; the number of places where there is none.
    fn next_used(&self, from: u32) -> u32
        requires { from ≤ length self.now }
        ensures { IsNext self.now from true result }
    {
        if from == self.bits.places() || self.bits.is_used(from) {
            return from;
        }
        match self.last_range(from) {
            Some(range) if from < range.start + range.len => range.start + range.len,
            _ => from,
        }
    }

    /// Makes `n` places of a free range used, from `start` on.
    fn part(&mut self, range: FreeRange, start: u32, n: u32)
        requires some { 1 ≤ n }
        requires maximal { IsRange self.old range }
        requires order { range.start ≤ start }
        requires within { start + n ≤ range.start + range.len }
        ensures { self.new ≡ with_places self.old start n true }
    {
        // The places are numbered by a `u32`.
        let _ = self.bits.places();
        let left = FreeRange {
            len: start - range.start,
            start: range.start,
        };
        let right = FreeRange {
            len: range.start + range.len - (start + n),
            start: start + n,
        };
        self.bits.put(start, n, true);
        self.bounds
            .note(start, n, true, left.len == 0, right.len == 0);
        self.ranges.split(range, left, right);
    }

    /// Makes `n` free places used, from `start` on.
    pub fn mark(&mut self, start: u32, n: u32)
        requires some { 1 ≤ n }
        requires free { n ≤ free_from self.old start }
        ensures { self.new ≡ with_places self.old start n true }
    {
        match self.last_range(start) {
            Some(range) => self.part(range, start, n),
            None => unreachable!(),
        }
    }

    /// Makes `n` used places free, from `start` on.
    pub fn unmark(&mut self, start: u32, n: u32)
        requires some { 1 ≤ n }
        requires used { n ≤ used_from self.old start }
        ensures { self.new ≡ with_places self.old start n false }
    {
        // The places are numbered by a `u32`.
        let _ = self.bits.places();
        let begin = self.used_end(start);
        let end = self.next_used(start + n);
        let left = FreeRange {
            len: start - begin,
            start: begin,
        };
        let right = FreeRange {
            len: end - (start + n),
            start: start + n,
        };
        self.bits.put(start, n, false);
        self.bounds
            .note(start, n, false, left.len == 0, right.len == 0);
        let whole = FreeRange {
            len: end - begin,
            start: begin,
        };
        self.ranges.join(left, right, whole);
    }

    /// Makes `n` places used, from `start` on, whatever they were: one free range after another, the last
    /// first.
    pub fn fill(&mut self, start: u32, n: u32)
        requires { start + n ≤ length self.old }
        ensures { self.new ≡ with_places self.old start n true }
    {
        // The places are numbered by a `u32`.
        let _ = self.bits.places();
        let mut end = start + n;
        while start < end {
            match self.last_range(end - 1) {
                Some(range) if start < range.start + range.len => {
                    let low = start.max(range.start);
                    let high = end.min(range.start + range.len);
                    self.part(range, low, high - low);
                    end = low;
                }
                _ => return,
            }
        }
    }

    /// How many of `n` places are used, from `start` on.
    pub fn used_in(&self, start: u32, n: u32) -> u32
        requires { start + n ≤ length self.now }
        ensures { result ≡ used_count (take n (drop start self.now)) }
    {
        self.bits.used_in(start, n)
    }

    /// How many places there are.
    pub fn places(&self) -> u32
        ensures { result ≡ length self.now }
    {
        self.bits.places()
    }

    /// Whether a place is used.
    pub fn is_used(&self, place: u32) -> bool
        requires { place < length self.now }
        ensures { result ≡ slice_index_or self.now place true }
    {
        self.bits.is_used(place)
    }
}
