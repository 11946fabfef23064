//! Runs in regions.
ghost use Rattle.std.specs.Prelude.{◌≡◌, ℕ, ◌+◌, ◌*◌, ◌<◌, ◌≤◌, nat_le, not, true, false, length, if◌then◌else◌, Some, None, IfNone, Contains, option_map};
ghost use Rattle.std.specs.List.{list_all};
ghost use Rattle.tc_units.specs.Units.{huge_pages};
ghost use Rattle.heap_rules.specs.Heap.{Heap, run_at, is_free};
ghost use Rattle.heap_rules.specs.Choice.{run_choice, region_rows};
ghost use Rattle.heap_rules.specs.RegionRows.{has_room, region_place};
ghost use Rattle.heap_rules.specs.New.{in_region, in_new_region, slack};
ghost use Rattle.heap_rules.specs.Free.{given_back};
ghost use Rattle.page_heap.specs.Routes.{IsInRegion};
ghost use Rattle.page_heap.specs.Told.{IsTold, answered};
ghost use Rattle.page_heap.specs.Freed.{AreFreed};
ghost use Rattle.huge_table.specs.Table.{IsSpan};
ghost use Rattle.huge_cache.specs.Cache.{holds};

use crate::heap::PageHeap;
use crate::told::give_emptied;
use huge_cache::HugeCache;
use huge_table::HugeTable;
use tc_units::{HUGE_PAGES, Huge, Page, Run, first_page};

/// Gives the cache the hugepages of a region that has ended, which are free now.
fn give_freed(cache: &mut HugeCache, table: &HugeTable, first: Huge, width: u32)
    requires span { IsSpan table.now first.0 width is_free }
    requires taken { length cache.old.taken ≡ length table.now.pages }
    requires unready { length cache.old.unready ≡ length table.now.pages }
    requires out { (h : ℕ) → first.0 ≤ h → h < first.0 + width → holds cache.old h ≡ false }
    requires told { (heap : Heap) × IsTold table.now heap }
    ensures { (heap : Heap) → IsTold table.now heap → AreFreed cache.old cache.new heap first.0 width }
{
    // The arena has at most 4,096 hugepages.
    let _huge = table.huge();
    for place in 0..width {
        let huge = Huge(first.0 + place as u16);
        give_emptied(cache, huge, table.row(huge));
    }
}

impl PageHeap {
    /// A run comes where a region has a place for it.
    fn join_region(&mut self, first: Page, n: u32) -> Run
        requires some { 0 < n }
        requires place { region_place (region_rows self.old) n ≡ Some first.0 }
        ensures heap { self.new ≡ (in_region self.old n first.0).heap }
        ensures run { result ≡ run_at first.0 n }
    {
        self.table.join_region(first, n);
        // There is a bit for each page.
        let _huge = self.table.huge();
        self.regions.join(first, n);
        self.used += u64::from(n);
        Run { first, pages: n }
    }

    /// Places a run in a region that has room.
    pub(crate) fn new_in_region(&mut self, n: u32) -> Option<Run>
        requires { 0 < n }
        ensures new { option_map (in_region self.old n) (region_place (region_rows self.old) n)
            ≡ answered self.new result }
        ensures same { IfNone result (self.new ≡ self.old) }
        ensures none { IfNone result (list_all (λ row. not (has_room n row)) (region_rows self.old) ≡ true) }
    {
        let first = self.regions.place(n)?;
        Some(self.join_region(first, n))
    }

    /// A region opens on free hugepages, for a run.
    fn open_for(&mut self, first: Huge, n: u32) -> Run
        requires some { 0 < n }
        requires fits { n ≤ huge_pages * self.old.config.region }
        requires place { run_choice self.old self.old.config.region ≡ Some first.0 }
        ensures heap { self.new ≡ (in_new_region self.old n first.0).heap }
        ensures run { result ≡ (in_new_region self.old n first.0).run }
    {
        let width = self.config.region;
        self.table.open_region(first, width);
        self.cache.take_out(first, width);
        self.regions.open_region(first);
        let page = first_page(first);
        self.table.join_region(page, n);
        // There is a bit for each page.
        let _huge = self.table.huge();
        self.regions.join(page, n);
        self.used += u64::from(n);
        Run {
            first: page,
            pages: n,
        }
    }

    /// Places a run in a new region, where the slack is large enough.
    pub(crate) fn new_in_new_region(&mut self, n: u32) -> Option<Run>
        requires some { 0 < n }
        requires fits { n ≤ huge_pages * self.old.config.region }
        ensures new { (if nat_le self.old.config.slack (slack self.old n)
            then option_map (in_new_region self.old n) (run_choice self.old self.old.config.region)
            else None) ≡ answered self.new result }
        ensures same { IfNone result (self.new ≡ self.old) }
    {
        let left = (HUGE_PAGES - n % HUGE_PAGES) % HUGE_PAGES;
        if self.filler.donated_free() + u64::from(left) < self.config.slack {
            return None;
        }
        let first = self.cache.find_run(self.config.region)?;
        Some(self.open_for(first, n))
    }

    /// Frees a run in a region, which ends when it has no used page left.
    pub(crate) fn free_in_region(&mut self, run: Run)
        requires live { Contains self.old.runs run }
        requires route { IsInRegion self.old run }
        ensures { self.new ≡ given_back self.old run }
    {
        self.table.leave_region(run);
        // There is a bit for each page.
        let _huge = self.table.huge();
        self.used -= u64::from(run.pages);
        let Some(first) = self.regions.leave(run) else {
            return;
        };
        let width = self.config.region;
        self.table.end_region(first, width);
        let _huge = self.table.huge();
        self.regions.close_region(first);
        give_freed(&mut self.cache, &self.table, first, width);
    }
}
