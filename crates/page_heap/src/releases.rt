//! How many free hugepages stay backed, and who gives pages up.
ghost use Rattle.std.specs.Prelude.{◌≡◌, ℕ, ◌-◌, ◌*◌, ◌<◌, ◌≤◌, ◌↔◌, ◌&&◌, ◌==◌, true, false, IfSome, IfNone};
ghost use Rattle.tc_units.specs.Units.{huge_pages};
ghost use Rattle.tc_units.specs.declared.rows.RowKind.TheVariants as kind;
ghost use Rattle.heap_rules.specs.Heap.{is_kind};
ghost use Rattle.heap_rules.specs.Settle.{settled};
ghost use Rattle.heap_rules.specs.Release.{is_idle, release, free_given, idle_given, spare_given, givable_pages};
ghost use Rattle.heap_rules.specs.Laws.{IsReleased, BacksNone};
ghost use Rattle.heap_rules.specs.Sound.{IsHugepageOf, IsSound};
ghost use Rattle.page_heap.specs.Gives.{noted, over_limit, behind, given_by, IsLast, IsFirstGiver, IsNext, IsPast};
ghost use Rattle.page_heap.specs.declared.source.Source.TheVariants as source;

use crate::heap::PageHeap;
use crate::source::Source;
use crate::told::{measure, tells_runs};
use huge_cache::Stretch;
use tc_units::{HUGE_PAGES, Huge, RowKind, RowView};

/// Whether a row shows a region's hugepage that is backed and has no used page.
fn shows_idle(row: RowView) -> bool
    ensures { result ≡ (is_kind kind.Region row.kind && row.used == 0 && row.backed == huge_pages) }
{
    match row.kind {
        RowKind::Region => row.used == 0 && row.backed == HUGE_PAGES,
        RowKind::Free | RowKind::Filler | RowKind::Run => false,
    }
}

/// One hugepage that gives pages up alone.
fn alone(huge: Huge) -> Stretch
    ensures { result ≡ record { first = huge; many = 1 } }
{
    Stretch {
        first: huge,
        many: 1,
    }
}

impl PageHeap {
    /// Notes how many hugepages aren't free. Answers how many pages of free ones are backed above the limit.
    fn note_use(&mut self) -> u64
        ensures noted { self.new ≡ noted self.old }
        ensures over { result ≡ huge_pages * over_limit self.new }
    {
        let in_use = self.cache.in_use();
        self.cache.note_use(in_use);
        u64::from(HUGE_PAGES) * u64::from(self.cache.over())
    }

    /// Notes how many hugepages aren't free, and unbacks the free ones that are above the limit.
    pub(crate) fn settle(&mut self)
        ensures settled { self.new ≡ settled self.old }
        ensures sound { IsSound self.new }
    {
        let over = self.note_use();
        let _pages = self.release_from(Source::Free, over);
    }

    /// Adjacent free hugepages lose their backing.
    fn unback_free(&mut self, stretch: Stretch)
        requires { IsNext source.Free self.old stretch }
        ensures given { (n : ℕ) → huge_pages * (stretch.many - 1) < n → free_given self.old n
            ≡ behind (huge_pages * stretch.many) (free_given self.new (n - huge_pages * stretch.many)) }
        ensures few { stretch.many ≤ 4096 }
    {
        self.table.unback(stretch.first, stretch.many);
        tells_runs(&self.table);
        self.cache.unback(stretch.first, stretch.many);
    }

    /// The last free and backed hugepages that follow each other: as many as there are, or as `n` pages need.
    fn last_backed(&self, n: u64) -> Option<Stretch>
        requires { 0 < n }
        ensures last { IfSome result (IsNext source.Free self.now) }
        ensures few { IfSome result (λ stretch. huge_pages * (stretch.many - 1) < n) }
        ensures none { IfNone result ((n : ℕ) → free_given self.now n ≡ record { heap = self.now; pages = 0 }) }
    {
        self.cache.last_stretch(n.div_ceil(u64::from(HUGE_PAGES)))
    }

    /// Whether a hugepage of the arena is a region's, is backed, and has no used page.
    fn is_idle(&self, huge: Huge) -> bool
        requires { IsHugepageOf self.now.config.huge huge.0 }
        ensures { result ≡ is_idle self.now huge.0 }
    {
        shows_idle(self.table.row(huge))
    }

    /// The hugepage of greatest number that is a region's and backed, and has no used page. None behind number
    /// `most` is.
    fn last_idle(&self, most: u32) -> Option<Huge>
        requires behind { IsPast source.Regions self.now most }
        requires small { most < 65536 }
        ensures last { IfSome result (IsLast self.now (is_idle self.now)) }
        ensures none { IfNone result ((n : ℕ) → idle_given self.now n ≡ record { heap = self.now; pages = 0 }) }
    {
        let mut above = most;
        while above > 0 {
            let huge = self.regions.last_upto(Huge(above as u16))?;
            if self.is_idle(huge) {
                return Some(huge);
            }
            above = u32::from(huge.0) - 1;
        }
        None
    }

    /// An unused hugepage of a region loses its backing.
    fn unback_idle(&mut self, huge: Huge)
        requires { IsLast self.old (is_idle self.old) huge }
        ensures given { (n : ℕ) → 0 < n → idle_given self.old n ≡ behind huge_pages (idle_given self.new (n - huge_pages)) }
        ensures past { IsPast source.Regions self.new (huge.0 - 1) }
    {
        self.table.unback(huge, 1);
        tells_runs(&self.table);
    }

    /// The hugepage of the filler that gives pages up first.
    fn candidate(&mut self) -> Option<Huge>
        ensures same { self.new ≡ self.old }
        ensures found { IfSome result (IsFirstGiver self.new) }
        ensures none { IfNone result ((n : ℕ) → spare_given self.new n ≡ record { heap = self.new; pages = 0 }) }
    {
        self.filler.candidate()
    }

    /// A hugepage of the filler backs its used pages alone. Answers how many pages lose their backing.
    fn give_spare(&mut self, huge: Huge) -> u32
        requires { IsFirstGiver self.old huge }
        ensures given { (n : ℕ) → 0 < n → spare_given self.old n ≡ behind result (spare_given self.new (n - result)) }
        ensures some { 0 < result }
    {
        let pages = self.table.only_used(huge);
        measure(&mut self.filler, &self.table, huge);
        pages
    }

    /// The hugepages of a source that give pages up next, together while `n` pages are wanted. None of its hugepages
    /// behind number `most` does.
    fn next_givers(&mut self, source: Source, most: u32, n: u64) -> Option<Stretch>
        requires behind { IsPast source self.old most }
        requires small { most < 65536 }
        requires some { 0 < n }
        ensures same { self.new ≡ self.old }
        ensures next { IfSome result (IsNext source self.new) }
        ensures few { IfSome result (λ givers. huge_pages * (givers.many - 1) < n) }
        ensures none { IfNone result ((n : ℕ) → given_by source self.new n ≡ record { heap = self.new; pages = 0 }) }
    {
        match source {
            Source::Free => self.last_backed(n),
            Source::Regions => Some(alone(self.last_idle(most)?)),
            Source::Filler => Some(alone(self.candidate()?)),
        }
    }

    /// The next ones give their pages up. Answers how many lose their backing.
    fn give_up(&mut self, source: Source, givers: Stretch) -> u32
        requires { IsNext source self.old givers }
        ensures given { (n : ℕ) → huge_pages * (givers.many - 1) < n
            → given_by source self.old n ≡ behind result (given_by source self.new (n - result)) }
        ensures some { 0 < result }
        ensures past { IsPast source self.new (givers.first.0 - 1) }
    {
        match source {
            Source::Free => {
                self.unback_free(givers);
                HUGE_PAGES * givers.many
            }
            Source::Regions => {
                self.unback_idle(givers.first);
                HUGE_PAGES
            }
            Source::Filler => self.give_spare(givers.first),
        }
    }

    /// Unbacks what a source gives while fewer than `n` pages are unbacked. Answers how many are.
    fn release_from(&mut self, source: Source, n: u64) -> u64
        ensures given { given_by source self.old n ≡ record { heap = self.new; pages = result } }
        ensures few { result ≤ 1048576 }
        ensures sound { IsSound self.old }
    {
        let mut most = self.config.huge;
        let mut given = 0;
        while given < n {
            let Some(givers) = self.next_givers(source, most, n - given) else {
                return given;
            };
            given += u64::from(self.give_up(source, givers));
            most = u32::from(givers.first.0) - 1;
        }
        given
    }

    /// Unbacks pages that no live run has while fewer than `n` are unbacked. Answers how many are: `n` or more
    /// exactly where there are so many to unback.
    pub fn release(&mut self, n: u64) -> u64
        ensures released { release self.old n ≡ record { heap = self.new; pages = result } }
        ensures kept { IsReleased self.old (record { heap = self.new; pages = result }) }
        ensures backs_none { BacksNone self.old self.new }
        ensures enough { n ≤ result ↔ n ≤ givable_pages self.old }
    {
        let free = self.release_from(Source::Free, n);
        let idle = self.release_from(Source::Regions, n.saturating_sub(free));
        let spare = self.release_from(Source::Filler, n.saturating_sub(free + idle));
        free + idle + spare
    }
}
