//! Runs that take free hugepages, and what leaves hugepages that are no region's.
ghost use Rattle.std.specs.Prelude.{◌≡◌, ◌<◌, ◌≤◌, ◌⊎◌, Some, IfNone, Contains, option_map};
ghost use Rattle.tc_units.specs.Units.{huge_pages};
ghost use Rattle.heap_rules.specs.Choice.{hugepages_for, run_choice};
ghost use Rattle.heap_rules.specs.New.{in_fresh, new_whole};
ghost use Rattle.heap_rules.specs.Free.{given_back};
ghost use Rattle.huge_table.specs.Means.{taken};
ghost use Rattle.page_heap.specs.Routes.{IsInOneHugepage, IsInHugepages};
ghost use Rattle.page_heap.specs.Told.{answered};

use crate::heap::PageHeap;
use crate::told::{measure, tell_left};
use tc_units::{HUGE_PAGES, Huge, Page, Run, first_page, huge_of};

impl PageHeap {
    /// A run takes free hugepages. The last one is the filler's where the run has only a part of it.
    fn take_free(&mut self, first: Huge, n: u32) -> Run
        requires some { 0 < n }
        requires place { run_choice self.old (hugepages_for n) ≡ Some first.0 }
        ensures heap { self.new ≡ (taken self.old n first.0).heap }
        ensures run { result ≡ (taken self.old n first.0).run }
    {
        let many = n.div_ceil(HUGE_PAGES);
        self.table.take_run(first, n);
        self.cache.take_out(first, many);
        let last = Huge((u32::from(first.0) + many - 1) as u16);
        measure(&mut self.filler, &self.table, last);
        self.used += u64::from(n);
        Run {
            first: first_page(first),
            pages: n,
        }
    }

    /// Places a run in free hugepages.
    fn new_in_free(&mut self, n: u32) -> Option<Run>
        requires { 0 < n }
        ensures new { option_map (taken self.old n) (run_choice self.old (hugepages_for n)) ≡ answered self.new result }
        ensures same { IfNone result (self.new ≡ self.old) }
    {
        let first = self.cache.find_run(n.div_ceil(HUGE_PAGES))?;
        Some(self.take_free(first, n))
    }

    /// Places a run below a hugepage's pages in a free hugepage, which is the filler's then.
    pub(crate) fn new_in_fresh(&mut self, n: u32) -> Option<Run>
        requires some { 0 < n }
        requires below { n < huge_pages }
        ensures new { option_map (in_fresh self.old n) (run_choice self.old 1) ≡ answered self.new result }
        ensures same { IfNone result (self.new ≡ self.old) }
    {
        self.new_in_free(n)
    }

    /// Places a larger run in free hugepages. What it leaves of the last one is donated to the filler.
    pub(crate) fn new_whole(&mut self, n: u32) -> Option<Run>
        requires { huge_pages ≤ n }
        ensures new { new_whole self.old n ≡ answered self.new result }
        ensures same { IfNone result (self.new ≡ self.old) }
    {
        self.new_in_free(n)
    }

    /// Frees a run of the hugepages that it has whole, which are free and backed then, and of what it has of one
    /// more, which is free when its last run has left.
    pub(crate) fn free_in_hugepages(&mut self, run: Run)
        requires live { Contains self.old.runs run }
        requires route { IsInOneHugepage self.old run ⊎ IsInHugepages self.old run }
        ensures { self.new ≡ given_back self.old run }
    {
        self.table.give_run(run);
        let first = huge_of(run.first);
        let last = huge_of(Page(run.first.0 + run.pages - 1));
        tell_left(&mut self.filler, &mut self.cache, &self.table, first, last);
        self.used -= u64::from(run.pages);
    }
}
