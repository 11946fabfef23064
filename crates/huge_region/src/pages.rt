//! One region: its first hugepage, and which of its pages are used.
ghost use Rattle.std.specs.Prelude.{◌≡◌, ◌<◌, ◌≤◌, ◌↔◌, None, IfOk};
ghost use Rattle.range_bits.specs.Ranges.{best, longest, free_from, used_from};

use crate::key::RegionKey;
use free_ranges::RangedBits;
use std::alloc::{AllocError, Global};
use std::marker::Model;
use tc_units::Huge;

/// A region.
#[derive(Drop)]
pub struct RegionPages {
    first: Huge,
    used: RangedBits,
}

impl Model for RegionPages {
    ghost use Rattle.heap_rules.specs.RegionRows.{RegionRow};

    ghost Value = { RegionRow };

    ghost view = { λ r. record { first = r.first.0; used = r.used } };
}

impl RegionPages {
    ghost use Rattle.huge_region.specs.Regions.{unused, joined, left, is_unused};
    ghost use Rattle.huge_region.specs.Kept.{key_of};

    /// A region of `width` hugepages that has no place yet.
    pub fn open(alloc: Global, width: u32) -> Result<Self, AllocError>
        requires { width ≤ 512 }
        ensures { IfOk result (λ r. r ≡ unused width 0) }
    {
        Ok(RegionPages {
            first: Huge(0),
            used: RangedBits::open(alloc, 4 * width as usize, width as usize)?,
        })
    }

    /// Gives it its place.
    pub fn begin(&mut self, first: Huge)
        ensures { self.new ≡ record self.old { first = first.0 } }
    {
        self.first = first;
    }

    /// Its first hugepage.
    pub fn first(&self) -> Huge
        ensures { result.0 ≡ self.now.first }
    {
        self.first
    }

    /// Its measures.
    pub fn key(&self) -> RegionKey
        ensures { result ≡ key_of self.now }
    {
        RegionKey {
            longest: self.used.longest(),
            first: self.first,
        }
    }

    /// Where the shortest unused range of at least `n` pages begins.
    pub fn best(&self, n: u32) -> Option<u32>
        requires { 0 < n }
        ensures value { result ≡ best self.now.used n }
        ensures none { (result ≡ None) ↔ (longest self.now.used < n) }
    {
        self.used.best(n)
    }

    /// A run of `n` pages comes.
    pub fn join(&mut self, start: u32, n: u32)
        requires some { 0 < n }
        requires free { n ≤ free_from self.old.used start }
        ensures { self.new ≡ joined start n self.old }
    {
        self.used.mark(start, n);
    }

    /// A run of `n` pages leaves.
    pub fn leave(&mut self, start: u32, n: u32)
        requires some { 0 < n }
        requires used { n ≤ used_from self.old.used start }
        ensures { self.new ≡ left start n self.old }
    {
        self.used.unmark(start, n);
    }

    /// Whether none of its pages is used.
    pub fn is_unused(&self) -> bool
        ensures { result ≡ is_unused self.now }
    {
        self.used.is_free()
    }
}
