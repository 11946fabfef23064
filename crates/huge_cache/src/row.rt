//! A row of any number of places, in words of 64: places behind its own are used. Its free ranges are kept
//! in order, so that none of the questions looks at the places.
ghost use Rattle.std.specs.Prelude.{◌≡◌, ℕ, ◌+◌, ◌-◌, ◌<◌, ◌≤◌, true, false, None, length, take, drop, replicate, IfOk, IfSome, if◌then◌else◌};
ghost use Rattle.std.specs.List.{slice_index_or};
ghost use Rattle.free_ranges.specs.Ranges.{IsLastRange};
ghost use Rattle.range_bits.specs.Fills.{free_count};
ghost use Rattle.range_bits.specs.Ranges.{best, used_count, used_from, with_places};

use free_ranges::{FreeRange, RangedBits};
use std::alloc::{AllocError, Global};
use std::marker::Model;

/// Places that are used or free. Contracts see a truth value for each, in order.
#[derive(Drop)]
pub struct Row {
    bits: RangedBits,
    len: u32,
    /// How many of them are used.
    used: u32,
}

impl Model for Row {
    ghost use Rattle.std.specs.Prelude.{◌≡◌, List, Bool, take};
    ghost use Rattle.range_bits.specs.Ranges.{used_count};
    ghost use Rattle.huge_cache.specs.Rows.{IsPadded};

    ghost Value = { List Bool };

    ghost view = { λ r. take r.len r.bits };

    ghost invariant = { λ r. IsPadded r.len r.bits × (r.used ≡ used_count (take r.len r.bits)) };
}

/// How many of `n` places are used that are all in one state.
fn used_of(n: u32, used: bool) -> u32
    ensures { result ≡ (if used then n else 0) }
{
    if used { n } else { 0 }
}

/// Makes `n` places used, whatever they were, or used ones free. Says how many of them were used.
fn change(bits: &mut RangedBits, start: u32, n: u32, used: bool) -> u32
    requires some { 0 < n }
    requires inside { start + n ≤ length bits.old }
    requires taken { used ≡ false → n ≤ used_from bits.old start }
    ensures places { bits.new ≡ with_places bits.old start n used }
    ensures was { result ≡ used_count (take n (drop start bits.old)) }
{
    if used {
        let was = bits.used_in(start, n);
        bits.fill(start, n);
        was
    } else {
        bits.unmark(start, n);
        n
    }
}

impl Row {
    /// A row of `len` places, all of them used, or all free.
    pub fn open(alloc: Global, len: u32, used: bool) -> Result<Self, AllocError>
        ensures { IfOk result (λ row. row ≡ replicate len used) }
    {
        let words = (len as usize).div_ceil(64);
        // Between two free ranges there is a used place.
        let mut bits = RangedBits::open(alloc, words, (len as usize).div_ceil(2))?;
        let places = bits.places();
        let first = len - used_of(len, used);
        bits.fill(first, places - first);
        Ok(Row {
            bits,
            len,
            used: used_of(len, used),
        })
    }

    /// Where the shortest maximal free range of at least `n` places begins, the first one where several
    /// are as short.
    pub fn best(&self, n: u32) -> Option<u32>
        requires { 0 < n }
        ensures { result ≡ best self.now n }
    {
        self.bits.best(n)
    }

    /// Makes `n` places used, from `start` on, whatever they were, or used ones free.
    pub fn put(&mut self, start: u32, n: u32, used: bool)
        requires some { 0 < n }
        requires inside { start + n ≤ length self.old }
        requires taken { used ≡ false → n ≤ used_from self.old start }
        ensures { self.new ≡ with_places self.old start n used }
    {
        let was = change(&mut self.bits, start, n, used);
        self.used = self.used - was + used_of(n, used);
    }

    /// How many places are used.
    pub fn used(&self) -> u32
        ensures { result ≡ used_count self.now }
    {
        self.used
    }

    /// How many places are free.
    pub fn free(&self) -> u32
        ensures { result ≡ free_count self.now }
    {
        self.len - self.used
    }

    /// The last maximal free range.
    pub fn last_free(&self) -> Option<FreeRange>
        ensures found { IfSome result (IsLastRange self.now (length self.now - 1)) }
        ensures none { result ≡ None → (p : ℕ) → slice_index_or self.now p true ≡ true }
    {
        if self.len == 0 {
            return None;
        }
        self.bits.last_range(self.len - 1)
    }
}
