//! How a page heap is shown: hugepage by hugepage, and what is backed.
ghost use Rattle.std.specs.Prelude.{◌≡◌, ◌*◌, ◌+◌, ◌<◌, ◌≤◌};
ghost use Rattle.tc_units.specs.Units.{huge_pages};
ghost use Rattle.heap_rules.specs.Heap.{is_backed, used_pages, backed_pages, row_of};

use crate::heap::PageHeap;
use tc_units::{Huge, Page, RowView};

impl PageHeap {
    /// Whether a page is backed.
    pub fn is_backed(&self, page: Page) -> bool
        requires from { huge_pages ≤ page.0 }
        requires to { page.0 < huge_pages * (self.now.config.huge + 1) }
        ensures { result ≡ is_backed self.now page.0 }
    {
        self.table.is_backed(page)
    }

    /// Pages that are backed.
    pub fn backed_pages(&self) -> u64
        ensures value { result ≡ backed_pages self.now }
        ensures covers { used_pages self.now ≤ result }
        ensures most { result ≤ huge_pages * self.now.config.huge }
    {
        let mut pages = 0;
        for place in 0..self.config.huge {
            pages += u64::from(self.row(Huge(place as u16 + 1)).backed);
        }
        pages
    }

    /// The measures of a hugepage.
    pub fn row(&self, huge: Huge) -> RowView
        requires from { 0 < huge.0 }
        requires to { huge.0 ≤ self.now.config.huge }
        ensures { result ≡ row_of self.now huge.0 }
    {
        self.table.row(huge)
    }
}
