//! Where the maximal free ranges of a row begin and stop, as sets of places.
ghost use Rattle.std.specs.Prelude.{◌≡◌, ℕ, ◌+◌, ◌^◌, ◌<◌, ◌≤◌, ◌&&◌, not, true, None, List, Bool, length, replicate, slice_set, IfOk, IfSome};
ghost use Rattle.std.specs.List.{slice_index_or};
ghost use Rattle.free_ranges.specs.Ranges.{IsLastRange};
ghost use Rattle.free_ranges.specs.Bounds.{Tells, IsPut, IsBetween};

use crate::range::FreeRange;
use place_set::PlaceSet;
use std::alloc::{AllocError, Global};
use std::marker::Model;

/// The places with which free ranges begin, and those behind their last ones.
#[derive(Drop)]
pub struct RangeBounds {
    begins: PlaceSet,
    stops: PlaceSet,
}

impl Model for RangeBounds {
    ghost use Rattle.std.specs.Prelude.{◌≤◌, ◌^◌, length};
    ghost use Rattle.free_ranges.specs.Bounds.{Bounds};

    ghost Value = { Bounds };

    ghost view = { λ b. record { begins = b.begins; stops = b.stops } };

    ghost invariant = { λ b. length b.stops ≤ 2 ^ 32 };
}

/// Puts a place into a set, or takes it out. Most places are as they shall be.
#[inline(always)]
fn put(set: &mut PlaceSet, place: u32, is_in: bool)
    requires { place < length set.old }
    ensures { set.new ≡ slice_set set.old place is_in }
{
    if set.has(place as usize) == is_in {
        return;
    }
    if is_in {
        set.insert(place as usize);
    } else {
        set.remove(place as usize);
    }
}

impl RangeBounds {
    /// The bounds of a row whose places are all used: none.
    pub fn open(alloc: Global, places: u32) -> Result<Self, AllocError>
        ensures { IfOk result (Tells (replicate places true)) }
    {
        let words = places as usize / 64 + 1;
        Ok(RangeBounds {
            begins: PlaceSet::open(alloc, words)?,
            stops: PlaceSet::open(alloc, words)?,
        })
    }

    /// Notes of a place whether the one before it is used, and whether it is.
    #[inline(always)]
    fn tell(&mut self, place: u32, used_before: bool, used: bool)
        requires begins { place < length self.old.begins }
        requires stops { place < length self.old.stops }
        ensures begins { self.new.begins ≡ slice_set self.old.begins place (not used && used_before) }
        ensures stops { self.new.stops ≡ slice_set self.old.stops place (not used_before && used) }
    {
        put(&mut self.begins, place, !used && used_before);
        put(&mut self.stops, place, !used_before && used);
    }

    /// Tells of a row of which `n` places, from `start` on, were all used or all free, and are so now: whether they are used,
    /// and whether the place before them and the one behind them are, as all beyond the row are.
    #[inline(always)]
    pub fn note(&mut self, start: u32, n: u32, used: bool, used_before: bool, used_behind: bool)
        requires begins { start + n < length self.old.begins }
        requires stops { start + n < length self.old.stops }
        requires fits { start + n < 2 ^ 32 }
        ensures { (row new : List Bool) → Tells row self.old → IsPut row new start n → IsBetween new start n used used_before used_behind → Tells new self.new }
    {
        self.tell(start, used_before, used);
        self.tell(start + n, used, used_behind);
    }

    /// The last maximal free range that begins at a place or before it.
    pub fn last_upto(&self, place: u32) -> Option<FreeRange>
        requires begins { place < length self.now.begins }
        requires stops { place + 1 < length self.now.stops }
        ensures found { (row : List Bool) → Tells row self.now → IfSome result (IsLastRange row place) }
        ensures none { (row : List Bool) → Tells row self.now → result ≡ None → (p : ℕ) → p ≤ place
            → slice_index_or row p true ≡ true }
    {
        let start = self.begins.last_at_or_before(place as usize)?;
        let stop = self.stops.first_at_or_after(start + 1)?;
        Some(FreeRange {
            len: (stop - start) as u32,
            start: start as u32,
        })
    }
}
