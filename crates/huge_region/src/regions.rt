//! The regions in the order of their numbers, and a list of them in the order of preference.
ghost use Rattle.std.specs.Prelude.{◌≡◌, ℕ, ◌+◌, ◌*◌, ◌/◌, ◌<◌, ◌≤◌, ◌↔◌, true, false, not, Some, None, [], length, find, option_map, IfOk, IfSome, IfNone, IsSome, IsNone, MatchOption};
ghost use Rattle.std.specs.List.{slice_index_or, list_all};
ghost use Rattle.tc_units.specs.Units.{huge_pages};
ghost use Rattle.heap_rules.specs.Heap.{spans};
ghost use Rattle.heap_rules.specs.RegionRows.{RegionRow, has_room, region_place};
ghost use Rattle.huge_region.specs.Regions.{region_with, with_changed, with_region, without_region, joined, left, start_in, AreFreeIn, AreUsedIn, is_unused};
ghost use Rattle.huge_region.specs.Kept.{IsSound, AreApartFrom};

use crate::key::RegionKey;
use crate::pages::RegionPages;
use sorted_list::SortedList;
use std::alloc::{AllocError, Global};
use std::marker::Model;
use tc_units::{HUGE_PAGES, Huge, Page, Run, huge_of};

/// The regions of an arena. Contracts see them in the order of their first hugepages.
#[derive(Drop)]
pub struct HugeRegions {
    huge: u32,
    /// Hugepages of a region.
    width: u32,
    regions: Vec<RegionPages>,
    /// The pages of regions to come.
    spare: Vec<RegionPages>,
    /// The measures of the regions, the preferred first.
    keys: SortedList<RegionKey>,
}

impl Model for HugeRegions {
    ghost use Rattle.huge_region.specs.Regions.{Regions};
    ghost use Rattle.huge_region.specs.Kept.{IsInside, regions_of};

    ghost Value = { Regions };

    ghost view = { regions_of };

    ghost invariant = { IsInside };
}

/// How many regions begin at a hugepage or before it.
fn begun_by(regions: &[RegionPages], width: u32, huge: Huge) -> usize
    requires { AreApartFrom width 1 regions.now }
    ensures before { (i : ℕ) (d : RegionRow) → i < result → (slice_index_or regions.now i d).first ≤ huge.0 }
    ensures behind { (i : ℕ) (d : RegionRow) → result ≤ i → i < length regions.now
        → huge.0 < (slice_index_or regions.now i d).first }
    ensures within { result ≤ length regions.now }
{
    regions.partition_point(|region| region.first().0 <= huge.0)
}

/// Where the region of a hugepage stands, if one has it.
fn index_in(regions: &[RegionPages], width: u32, huge: Huge) -> Option<usize>
    requires { AreApartFrom width 1 regions.now }
    ensures found { IfSome result (λ index. (index < length regions.now) × ((d : RegionRow)
        → find (λ r. spans width huge.0 r.first) regions.now ≡ Some (slice_index_or regions.now index d))) }
    ensures none { IfNone result (find (λ r. spans width huge.0 r.first) regions.now ≡ None) }
{
    let index = begun_by(regions, width, huge).checked_sub(1)?;
    let first = regions[index].first();
    if u32::from(huge.0 - first.0) < width {
        Some(index)
    } else {
        None
    }
}

impl HugeRegions {
    /// No region, with room for as many of `width` hugepages as `huge` hugepages hold.
    pub fn open(alloc: Global, huge: u32, width: u32) -> Result<Self, AllocError>
        requires huge { huge ≤ 4096 }
        requires wide { 2 ≤ width }
        requires narrow { width ≤ 512 }
        ensures { IfOk result (λ r. r ≡ record { huge = huge; width = width; rows = [] }) }
    {
        let room = (huge / width) as usize;
        let mut spare = Vec::with_capacity(alloc, room)?;
        for _made in 0..room {
            spare.push(RegionPages::open(alloc, width)?)?;
        }
        Ok(HugeRegions {
            huge,
            width,
            regions: Vec::with_capacity(alloc, room)?,
            spare,
            keys: SortedList::open(alloc, room)?,
        })
    }

    /// Where the region of a hugepage stands, if one has it.
    fn index_of(&self, huge: Huge) -> Option<usize>
        ensures found { IfSome result (λ index. (index < length self.now.rows)
            × ((d : RegionRow) → region_with self.now huge.0 ≡ Some (slice_index_or self.now.rows index d))) }
        ensures none { IfNone result (region_with self.now huge.0 ≡ None) }
        ensures sound { IsSound self.now }
    {
        index_in(&self.regions, self.width, huge)
    }

    /// Where the region of a hugepage stands.
    fn place_of(&self, huge: Huge) -> usize
        requires { IsSome (region_with self.now huge.0) }
        ensures within { result < length self.now.rows }
        ensures found { (d : RegionRow) → region_with self.now huge.0 ≡ Some (slice_index_or self.now.rows result d) }
        ensures sound { IsSound self.now }
    {
        match self.index_of(huge) {
            Some(index) => index,
            None => unreachable!(),
        }
    }

    /// The last hugepage of a region that isn't behind hugepage `above`.
    pub fn last_upto(&self, above: Huge) -> Option<Huge>
        ensures found { IfSome result (λ h. (r : RegionRow) × (region_with self.now h.0 ≡ Some r)) }
        ensures within { IfSome result (λ h. h.0 ≤ above.0) }
        ensures behind { IfSome result (λ h. (k : ℕ) → h.0 < k → k ≤ above.0 → region_with self.now k ≡ None) }
        ensures none { IfNone result ((k : ℕ) → k ≤ above.0 → region_with self.now k ≡ None) }
    {
        let index = begun_by(&self.regions, self.width, above).checked_sub(1)?;
        let first = self.regions[index].first();
        let last = u32::from(first.0) + self.width - 1;
        Some(Huge(u32::from(above.0).min(last) as u16))
    }

    /// Where a run of `n` pages goes: into the region of least longest unused range among those with so
    /// many adjacent unused pages, ties by least first hugepage; there at the start of the shortest unused
    /// range that is long enough. `None` exactly where no region has such a range.
    pub fn place(&self, n: u32) -> Option<Page>
        requires { 0 < n }
        ensures place { option_map (λ p. p.0) result ≡ region_place self.now.rows n }
        ensures none { IsNone result ↔ (list_all (λ row. not (has_room n row)) self.now.rows ≡ true) }
        ensures free { IfSome result (λ p. (r : RegionRow) × AreFreeIn self.now p.0 n r) }
    {
        let key = self.keys.first_at_or_after(RegionKey {
            longest: n,
            first: Huge(0),
        })?;
        let index = self.place_of(key.first);
        let start = self.regions[index].best(n).unwrap();
        Some(Page(HUGE_PAGES * u32::from(key.first.0) + start))
    }

    /// A run comes into a region.
    pub fn join(&mut self, first: Page, n: u32)
        requires some { 0 < n }
        requires free { (r : RegionRow) × AreFreeIn self.old first.0 n r }
        ensures { (r : RegionRow) → region_with self.old (first.0 / huge_pages) ≡ Some r
            → self.new ≡ with_changed self.old r.first (joined (start_in r first.0) n) }
    {
        // The pages are in the arena.
        let _ = &self.regions;
        let huge = huge_of(first);
        let index = self.place_of(huge);
        let region = &mut self.regions[index];
        let before = region.key();
        region.join(first.0 - HUGE_PAGES * u32::from(before.first.0), n);
        self.keys.rekey(before, region.key());
    }

    /// A run leaves a region. Answers the region's first hugepage exactly where no page of it is used any
    /// more.
    pub fn leave(&mut self, run: Run) -> Option<Huge>
        requires some { 0 < run.pages }
        requires used { (r : RegionRow) × AreUsedIn self.old run.first.0 run.pages r }
        ensures left { (r : RegionRow) → region_with self.old (run.first.0 / huge_pages) ≡ Some r
            → self.new ≡ with_changed self.old r.first (left (start_in r run.first.0) run.pages) }
        ensures answer { (r : RegionRow) → region_with self.old (run.first.0 / huge_pages) ≡ Some r
            → MatchOption result (is_unused (left (start_in r run.first.0) run.pages r) ≡ false)
            (λ first. (first.0 ≡ r.first) × (is_unused (left (start_in r run.first.0) run.pages r) ≡ true)) }
    {
        // The run is in the arena.
        let _ = &self.regions;
        let huge = huge_of(run.first);
        let index = self.place_of(huge);
        let region = &mut self.regions[index];
        let before = region.key();
        region.leave(
            run.first.0 - HUGE_PAGES * u32::from(before.first.0),
            run.pages,
        );
        let unused = region.is_unused();
        self.keys.rekey(before, region.key());
        if unused { Some(before.first) } else { None }
    }

    /// Opens a region, which has no used page yet.
    pub fn open_region(&mut self, first: Huge)
        requires low { 0 < first.0 }
        requires high { first.0 + self.old.width ≤ self.old.huge + 1 }
        requires free { (h : ℕ) → first.0 ≤ h → h < first.0 + self.old.width → region_with self.old h ≡ None }
        ensures { self.new ≡ with_region self.old first.0 }
    {
        let index = begun_by(&self.regions, self.width, first);
        let mut region = self.spare.pop().unwrap();
        region.begin(first);
        self.keys.insert(region.key());
        // There is room, so it is there afterwards.
        let _ = self.regions.insert(index, region);
    }

    /// Ends a region without used pages.
    pub fn close_region(&mut self, first: Huge)
        requires { (r : RegionRow) × (region_with self.old first.0 ≡ Some r) × (r.first ≡ first.0) × (is_unused r ≡ true) }
        ensures { self.new ≡ without_region self.old first.0 }
    {
        let index = self.place_of(first);
        let region = self.regions.remove(index);
        self.keys.remove(region.key());
        let _ = self.spare.push(region);
    }
}
