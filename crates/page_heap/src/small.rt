//! Runs below a hugepage's pages, in a hugepage of the filler.
ghost use Rattle.std.specs.Prelude.{◌≡◌, ◌<◌, not, true, Some, IfNone, option_map};
ghost use Rattle.std.specs.List.{list_all};
ghost use Rattle.tc_units.specs.Units.{huge_pages};
ghost use Rattle.heap_rules.specs.Heap.{run_at};
ghost use Rattle.heap_rules.specs.Choice.{filler_rows};
ghost use Rattle.heap_rules.specs.FillerRows.{has_room, filler_place};
ghost use Rattle.heap_rules.specs.New.{in_filler};
ghost use Rattle.page_heap.specs.Told.{answered};

use crate::heap::PageHeap;
use crate::told::measure;
use tc_units::{HUGE_PAGES, Page, Run, huge_of};

impl PageHeap {
    /// Where a run goes in a hugepage of the filler that has room.
    fn find_in_filler(&self, n: u32) -> Option<Page>
        requires { 0 < n }
        ensures place { option_map (λ p. p.0) result ≡ filler_place (filler_rows self.now) n }
        ensures none { IfNone result (list_all (λ row. not (has_room n row)) (filler_rows self.now) ≡ true) }
    {
        let huge = self.filler.preferred(n)?;
        let start = self.table.best(huge, n).unwrap();
        Some(Page(HUGE_PAGES * u32::from(huge.0) + start))
    }

    /// A run comes where the filler has a place for it.
    fn join_filler(&mut self, first: Page, n: u32) -> Run
        requires some { 0 < n }
        requires below { n < huge_pages }
        requires place { filler_place (filler_rows self.old) n ≡ Some first.0 }
        ensures heap { self.new ≡ (in_filler self.old n first.0).heap }
        ensures run { result ≡ run_at first.0 n }
    {
        self.table.join(first, n);
        measure(&mut self.filler, &self.table, huge_of(first));
        self.used += u64::from(n);
        Run { first, pages: n }
    }

    /// Places a run below a hugepage's pages in a hugepage of the filler that has room.
    pub(crate) fn new_in_filler(&mut self, n: u32) -> Option<Run>
        requires some { 0 < n }
        requires below { n < huge_pages }
        ensures new { option_map (in_filler self.old n) (filler_place (filler_rows self.old) n)
            ≡ answered self.new result }
        ensures same { IfNone result (self.new ≡ self.old) }
        ensures none { IfNone result (list_all (λ row. not (has_room n row)) (filler_rows self.old) ≡ true) }
    {
        let first = self.find_in_filler(n)?;
        Some(self.join_filler(first, n))
    }
}
