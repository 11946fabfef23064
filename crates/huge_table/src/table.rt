//! The one table of hugepages: bitmaps for what they are, with the pages that runs have beside them.
#![tactic(auto, using(crate::proofs::Sizes::arena))]

ghost use Rattle.std.specs.Prelude.{◌≡◌, ℕ, ◌+◌, ◌-◌, ◌*◌, ◌/◌, ◌%◌, ◌<◌, ◌≤◌, ◌==◌, ◌||◌, ◌⊎◌, true, false, not, ◌&&◌, length, take, drop, IfOk, Contains, if◌then◌else◌};
ghost use Rattle.range_bits.specs.Ranges.{best};
ghost use Rattle.range_bits.specs.Ranges as ranges;
ghost use Rattle.tc_units.specs.Units.{huge_pages};
ghost use Rattle.tc_units.specs.declared.rows.RowKind.TheVariants as kind;
ghost use Rattle.heap_rules.specs.declared.config.HeapConfig.{HeapConfig};
ghost use Rattle.heap_rules.specs.Heap.{Heap, hugepage, opened, is_free, is_filler, is_region, run_at, used_row, used_count, longest_range, allocation_count, backed_count, is_backed, row_of};
ghost use Rattle.heap_rules.specs.New.{run_page, filler_page, region_page, more_backed, in_filler, in_region, with_new_region};
ghost use Rattle.heap_rules.specs.Free.{emptied, left, given_back, without_unused_regions};
ghost use Rattle.heap_rules.specs.Sound.{AreRunsSound, IsSound};
ghost use Rattle.heap_rules.specs.Choice.{hugepages_for};
ghost use Rattle.heap_rules.specs.Release.{spare_pages};
ghost use Rattle.huge_table.specs.Table.{at, kind_by, of_kind, IsSpan, IsNoted, HasBits, over_span, free_page, is_even, with_backing, region_freed, reached_by, noted_row, emptied_where};
ghost use Rattle.huge_table.specs.Runs.{TellsRuns};
ghost use Rattle.huge_table.specs.Means.{Means, AllUsed, IsEnding, taken, is_run, is_shared, unbacked_span, used_alone};

use range_bits::WideBits;
use std::alloc::{AllocError, Global};
use std::marker::Model;
use tc_units::{HUGE_PAGES, Huge, Page, RowKind, RowView, Run, huge_of};

/// What each hugepage of an arena is.
#[derive(Drop)]
pub struct HugeTable {
    huge: u32,
    /// By hugepage: whether it is one of a run's or of a region's.
    grouped: WideBits,
    /// By hugepage: whether it is the filler's or a region's.
    shared: WideBits,
    /// By hugepage of the filler: whether it is the tail of a larger run.
    donated: WideBits,
    /// By hugepage that is free or a region's: whether it is backed.
    backed: WideBits,
    /// By page of the filler's hugepages: whether it is backed.
    page_backed: WideBits,
    /// By page of hugepages that aren't one run's: whether a run has it.
    used: WideBits,
    /// By page: whether a run begins there, and whether one ends there.
    begins: WideBits,
    ends: WideBits,
}

impl Model for HugeTable {
    ghost use Rattle.huge_table.specs.Table.{Table, AreKept, table_of};

    ghost Value = { Table };

    ghost view = { table_of };

    ghost invariant = { AreKept };
}

/// What a hugepage serves, by whether it is one of a group, and whether it is shared.
fn kind_of(grouped: bool, shared: bool) -> RowKind
    ensures { result ≡ kind_by grouped shared }
{
    match (grouped, shared) {
        (false, false) => RowKind::Free,
        (true, false) => RowKind::Run,
        (false, true) => RowKind::Filler,
        (true, true) => RowKind::Region,
    }
}

/// What holds of a hugepage that one run has, of one that is free or a region's, or of one of the filler.
fn by_kind<T: Copy + Drop>(kind: RowKind, run: T, even: T, own: T) -> T
    ensures { result ≡ of_kind kind run even own }
{
    match kind {
        RowKind::Run => run,
        RowKind::Filler => own,
        RowKind::Free | RowKind::Region => even,
    }
}

/// How many runs reach into a hugepage, by whether its first page is used, and whether a run begins there.
fn reaching_in(used: bool, begins: bool) -> u32
    ensures { result ≡ (if used && not begins then 1 else 0) }
{
    u32::from(used && !begins)
}

/// How many pages a hugepage has that is backed whole or not at all.
fn whole_pages(backed: bool) -> u32
    ensures { result ≡ (if backed then huge_pages else 0) }
{
    if backed { HUGE_PAGES } else { 0 }
}

/// How many pages of a hugepage a row of bits marks, where it mostly marks them all.
fn count_mostly_all(bits: &WideBits, huge: Huge) -> u32
    requires { huge_pages * (huge.0 + 1) ≤ length bits.now }
    ensures { result ≡ ranges.used_count (take huge_pages (drop (huge_pages * huge.0) bits.now)) }
{
    if bits.are_all(4 * usize::from(huge.0), 4, true) {
        HUGE_PAGES
    } else {
        bits.used_in(HUGE_PAGES * u32::from(huge.0), HUGE_PAGES)
    }
}

/// Whether a row of bits marks no page of a hugepage.
fn has_none(bits: &WideBits, place: u32) -> bool
    requires { huge_pages * (place + 1) ≤ length bits.now }
    ensures { result ≡ (ranges.used_count (take huge_pages (drop (huge_pages * place) bits.now)) == 0) }
{
    bits.are_all(4 * place as usize, 4, false)
}

/// How a hugepage is shown that one run has whole.
fn run_row() -> RowView
    ensures { result ≡ record { kind = kind.Run; used = huge_pages; allocs = 1; backed = huge_pages; longest = 0; donated = false } }
{
    RowView {
        kind: RowKind::Run,
        used: HUGE_PAGES,
        allocs: 1,
        backed: HUGE_PAGES,
        longest: 0,
        donated: false,
    }
}

impl HugeTable {
    /// A table whose hugepages are free and unbacked.
    pub fn open(alloc: Global, huge: u32) -> Result<Self, AllocError>
        requires { huge ≤ 4096 }
        ensures { IfOk result (λ table. (config : HeapConfig) → config.huge ≡ huge
            → Means table (opened config)) }
    {
        let words = huge as usize / 64 + 1;
        let page_words = HUGE_PAGES as usize / 64 * (huge as usize + 1);
        Ok(HugeTable {
            huge,
            grouped: WideBits::open(alloc, words)?,
            shared: WideBits::open(alloc, words)?,
            donated: WideBits::open(alloc, words)?,
            backed: WideBits::open(alloc, words)?,
            page_backed: WideBits::open(alloc, page_words)?,
            used: WideBits::open(alloc, page_words)?,
            begins: WideBits::open(alloc, page_words)?,
            ends: WideBits::open(alloc, page_words)?,
        })
    }

    /// A run of `n` pages comes into a hugepage of the filler, whose pages are then backed.
    pub fn join(&mut self, first: Page, n: u32)
        requires place { IsSpan self.old (first.0 / huge_pages) 1 is_filler }
        requires some { 0 < n }
        requires ends { first.0 % huge_pages + n ≤ huge_pages }
        ensures { (heap : Heap) → Means self.old heap → Means self.new (in_filler heap n first.0).heap }
    {
        self.back_pages(first.0, n);
        self.note(first.0, n, 0, true);
    }

    /// A run of `n` pages comes into a region. The hugepages that it reaches are backed whole.
    pub fn join_region(&mut self, first: Page, n: u32)
        requires place { IsSpan self.old (first.0 / huge_pages) (reached_by first.0 n) is_region }
        requires some { 0 < n }
        ensures { (heap : Heap) → Means self.old heap → Means self.new (in_region heap n first.0).heap }
    {
        // The pages are in the arena.
        let _ = &self.used;
        let huge = first.0 / HUGE_PAGES;
        let end = (first.0 + n).div_ceil(HUGE_PAGES);
        self.back(huge, end - huge, true);
        self.note(first.0, n, 0, true);
    }

    /// A run of `n` pages takes free hugepages. The last one is the filler's where the run has only a part of it,
    /// and is marked as donated where the run has others whole.
    pub fn take_run(&mut self, first: Huge, n: u32)
        requires free { IsSpan self.old first.0 (hugepages_for n) is_free }
        requires some { 0 < n }
        ensures { (heap : Heap) → IsSound heap → Means self.old heap
            → Means self.new (taken heap n first.0).heap }
    {
        let place = u32::from(first.0);
        let whole = n / HUGE_PAGES;
        let tails = n.div_ceil(HUGE_PAGES) - whole;
        self.take(place, whole);
        self.adopt(place + whole, tails, whole > 0);
        self.note(HUGE_PAGES * place, n, HUGE_PAGES * whole, true);
    }

    /// A run leaves the hugepages that it has whole, which are free and backed then, and what it has of one more,
    /// which becomes free with its last run.
    pub fn give_run(&mut self, run: Run)
        requires lies { (run.first.0 % huge_pages ≡ 0) ⊎ (run.first.0 % huge_pages + run.pages ≤ huge_pages) }
        requires some { 0 < run.pages }
        requires whole { IsSpan self.old (run.first.0 / huge_pages) (run.pages / huge_pages) is_run }
        requires tail { IsSpan self.old (run.first.0 / huge_pages + run.pages / huge_pages)
            (hugepages_for run.pages - run.pages / huge_pages) is_filler }
        ensures { (heap : Heap) → IsSound heap → Means self.old heap → Contains heap.runs run
            → Means self.new (given_back heap run) }
    {
        let place = run.first.0 / HUGE_PAGES;
        let whole = run.pages / HUGE_PAGES;
        let tails = run.pages.div_ceil(HUGE_PAGES) - whole;
        self.note(run.first.0, run.pages, HUGE_PAGES * whole, false);
        self.give(place, whole);
        self.empty_tail(place + whole, tails);
    }

    /// A run leaves a region, which stays.
    pub fn leave_region(&mut self, run: Run)
        requires place { IsSpan self.old (run.first.0 / huge_pages) (reached_by run.first.0 run.pages) is_region }
        requires some { 0 < run.pages }
        ensures left { (heap : Heap) → IsSound heap → Means self.old heap → Contains heap.runs run
            → Means self.new (left heap run) }
        ensures given { (heap : Heap) → IsSound heap → Means self.old heap → Contains heap.runs run
            → AllUsed (left heap run) → Means self.new (given_back heap run) }
    {
        self.note(run.first.0, run.pages, 0, false);
    }

    /// Free hugepages become a region, and stay backed where they are.
    #[tactic(auto, using(crate::proofs::Stays::opened_means))]
    pub fn open_region(&mut self, first: Huge, width: u32)
        requires { IsSpan self.old first.0 width is_free }
        ensures { (heap : Heap) → heap.config.region ≡ width → Means self.old heap
            → Means self.new (with_new_region heap first.0) }
    {
        self.gather(u32::from(first.0), width);
    }

    /// The one region without a used page ends. Its hugepages are free, with their backing.
    #[tactic(auto, using(crate::proofs::Stays::ended_means))]
    pub fn end_region(&mut self, first: Huge, width: u32)
        requires { IsSpan self.old first.0 width is_region }
        ensures { (heap : Heap) → heap.config.region ≡ width → AreRunsSound heap → IsEnding heap first.0
            → Means self.old heap → Means self.new (without_unused_regions heap) }
    {
        self.scatter(u32::from(first.0), width);
    }

    /// Hugepages that are free or a region's lose their backing.
    pub fn unback(&mut self, first: Huge, many: u32)
        requires { IsSpan self.old first.0 many is_even }
        ensures { (heap : Heap) → Means self.old heap → Means self.new (unbacked_span heap first.0 many) }
    {
        self.back(u32::from(first.0), many, false);
    }

    /// A hugepage of the filler backs its used pages alone. Answers how many pages lose their backing.
    pub fn only_used(&mut self, huge: Huge) -> u32
        requires { IsSpan self.old huge.0 1 is_filler }
        ensures heap { (heap : Heap) → Means self.old heap → Means self.new (used_alone heap huge.0) }
        ensures pages { (heap : Heap) → Means self.old heap → result ≡ spare_pages heap huge.0 }
    {
        let place = u32::from(huge.0);
        let before = self.page_backed.used_in(HUGE_PAGES * place, HUGE_PAGES);
        self.page_backed
            .keep_used(&self.used, 4 * usize::from(huge.0), 4);
        before - self.page_backed.used_in(HUGE_PAGES * place, HUGE_PAGES)
    }

    /// How many hugepages the arena has.
    #[tactic(auto, using(crate::proofs::Sizes::arena, crate::proofs::Told::tells))]
    pub fn huge(&self) -> u32
        ensures value { result ≡ length self.now.pages }
        ensures most { result ≤ 4096 }
        ensures runs { TellsRuns self.now }
    {
        self.huge
    }

    /// What a hugepage serves.
    pub fn kind(&self, huge: Huge) -> RowKind
        requires low { 0 < huge.0 }
        requires high { huge.0 ≤ length self.now.pages }
        ensures kind { result ≡ (at self.now huge.0).kind }
        ensures heap { (heap : Heap) → Means self.now heap → result ≡ (hugepage heap huge.0).kind }
    {
        let place = u32::from(huge.0);
        kind_of(self.grouped.is_used(place), self.shared.is_used(place))
    }

    /// How many pages of a hugepage runs have, where it isn't one run's.
    pub fn used(&self, huge: Huge) -> u32
        requires low { 0 < huge.0 }
        requires high { huge.0 ≤ length self.now.pages }
        ensures { (heap : Heap) → Means self.now heap → is_shared (hugepage heap huge.0) ≡ true
            → result ≡ used_count heap.runs huge.0 }
    {
        self.used
            .used_in(HUGE_PAGES * u32::from(huge.0), HUGE_PAGES)
    }

    /// How many pages of a hugepage that follow each other no run has, at most, where it isn't one run's.
    pub fn longest(&self, huge: Huge) -> u32
        requires low { 0 < huge.0 }
        requires high { huge.0 ≤ length self.now.pages }
        ensures { (heap : Heap) → Means self.now heap → is_shared (hugepage heap huge.0) ≡ true
            → result ≡ longest_range heap.runs huge.0 }
    {
        self.used.longest_in(4 * usize::from(huge.0), 4)
    }

    /// Where the shortest maximal free range of at least `n` pages begins in a hugepage that isn't one run's.
    /// Pages are counted from the hugepage's first.
    pub fn best(&self, huge: Huge, n: u32) -> Option<u32>
        requires low { 0 < huge.0 }
        requires high { huge.0 ≤ length self.now.pages }
        requires some { 0 < n }
        ensures { (heap : Heap) → Means self.now heap → is_shared (hugepage heap huge.0) ≡ true
            → result ≡ best (used_row heap.runs huge.0) n }
    {
        self.used.best_in(4 * usize::from(huge.0), 4, n)
    }

    /// How many live runs have a page of a hugepage, where it isn't one run's.
    pub fn allocs(&self, huge: Huge) -> u32
        requires low { 0 < huge.0 }
        requires high { huge.0 ≤ length self.now.pages }
        ensures { (heap : Heap) → IsSound heap → Means self.now heap → is_shared (hugepage heap huge.0) ≡ true
            → result ≡ allocation_count heap.runs huge.0 }
    {
        let first = HUGE_PAGES * u32::from(huge.0);
        let begin = self.begins.used_in(first, HUGE_PAGES);
        begin + reaching_in(self.used.is_used(first), self.begins.is_used(first))
    }

    /// Whether one run has a hugepage whole.
    #[tactic(auto, using(crate::proofs::Pages::run_is))]
    fn is_run(&self, huge: Huge) -> bool
        requires low { 0 < huge.0 }
        requires high { huge.0 ≤ length self.now.pages }
        ensures { result ≡ is_run (at self.now huge.0) }
    {
        by_kind(self.kind(huge), true, false, false)
    }

    /// Whether a hugepage is the donated tail of a larger run.
    fn is_donated(&self, huge: Huge) -> bool
        requires low { 0 < huge.0 }
        requires high { huge.0 ≤ length self.now.pages }
        ensures { result ≡ (at self.now huge.0).donated }
    {
        let own = self.donated.is_used(u32::from(huge.0));
        by_kind(self.kind(huge), false, false, own)
    }

    /// How many pages of a hugepage are backed.
    fn backed_pages(&self, huge: Huge) -> u32
        requires low { 0 < huge.0 }
        requires high { huge.0 ≤ length self.now.pages }
        ensures { result ≡ backed_count (at self.now huge.0) }
    {
        let place = u32::from(huge.0);
        let even = whole_pages(self.backed.is_used(place));
        let own = count_mostly_all(&self.page_backed, huge);
        by_kind(self.kind(huge), HUGE_PAGES, even, own)
    }

    /// The measures of a hugepage.
    pub fn row(&self, huge: Huge) -> RowView
        requires low { 0 < huge.0 }
        requires high { huge.0 ≤ length self.now.pages }
        ensures { (heap : Heap) → IsSound heap → Means self.now heap → result ≡ row_of heap huge.0 }
    {
        if self.is_run(huge) {
            return run_row();
        }
        RowView {
            kind: self.kind(huge),
            used: self.used(huge),
            allocs: self.allocs(huge),
            backed: self.backed_pages(huge),
            longest: self.longest(huge),
            donated: self.is_donated(huge),
        }
    }

    /// Whether a page is backed.
    pub fn is_backed(&self, page: Page) -> bool
        requires low { huge_pages ≤ page.0 }
        requires high { page.0 < huge_pages * (length self.now.pages + 1) }
        ensures { (heap : Heap) → Means self.now heap → result ≡ is_backed heap page.0 }
    {
        let whole = self.backed.is_used(page.0 / HUGE_PAGES);
        let own = self.page_backed.is_used(page.0);
        by_kind(self.kind(huge_of(page)), true, whole, own)
    }

    /// Hugepages become one run's, whatever they were.
    fn take(&mut self, first: u32, many: u32)
        requires low { 0 < first }
        requires high { first + many ≤ length self.old.pages + 1 }
        ensures { self.new ≡ over_span first many (λ _. run_page) self.old }
    {
        self.grouped.put(first, many, true);
        self.shared.put(first, many, false);
    }

    /// Hugepages become free and backed, whatever they were.
    fn give(&mut self, first: u32, many: u32)
        requires low { 0 < first }
        requires high { first + many ≤ length self.old.pages + 1 }
        ensures { self.new ≡ over_span first many (λ _. free_page true) self.old }
    {
        self.grouped.put(first, many, false);
        self.shared.put(first, many, false);
        self.backed.put(first, many, true);
    }

    /// Hugepages become the filler's and are backed, whatever they were.
    fn adopt(&mut self, first: u32, many: u32, donated: bool)
        requires low { 0 < first }
        requires high { first + many ≤ length self.old.pages + 1 }
        ensures { self.new ≡ over_span first many (λ _. filler_page donated) self.old }
    {
        self.grouped.put(first, many, false);
        self.shared.put(first, many, true);
        self.donated.put(first, many, donated);
        self.page_backed
            .put(HUGE_PAGES * first, HUGE_PAGES * many, true);
    }

    /// Free hugepages become a region's, with their backing.
    fn gather(&mut self, first: u32, many: u32)
        requires { IsSpan self.old first many is_free }
        ensures { self.new ≡ over_span first many region_page self.old }
    {
        self.grouped.put(first, many, true);
        self.shared.put(first, many, true);
    }

    /// A region's hugepages become free, with their backing.
    fn scatter(&mut self, first: u32, many: u32)
        requires { IsSpan self.old first many is_region }
        ensures { self.new ≡ over_span first many region_freed self.old }
    {
        self.grouped.put(first, many, false);
        self.shared.put(first, many, false);
    }

    /// Hugepages that are free or a region's are backed, or lose their backing.
    fn back(&mut self, first: u32, many: u32, state: bool)
        requires { IsSpan self.old first many is_even }
        ensures { self.new ≡ over_span first many (with_backing state) self.old }
    {
        self.backed.put(first, many, state);
    }

    /// Pages of a hugepage of the filler are backed.
    fn back_pages(&mut self, first: u32, n: u32)
        requires place { IsSpan self.old (first / huge_pages) 1 is_filler }
        requires ends { first % huge_pages + n ≤ huge_pages }
        ensures { self.new ≡ over_span (first / huge_pages) 1 (more_backed (run_at first n) (first / huge_pages)) self.old }
    {
        self.page_backed.put(first, n, true);
    }

    /// A hugepage of the filler becomes free. It stays backed where all of it is.
    fn empty(&mut self, place: u32)
        requires { IsSpan self.old place 1 is_filler }
        ensures { self.new ≡ over_span place 1 emptied self.old }
    {
        let backed = self.page_backed.used_in(HUGE_PAGES * place, HUGE_PAGES);
        self.grouped.put(place, 1, false);
        self.shared.put(place, 1, false);
        self.backed.put(place, 1, backed == HUGE_PAGES);
    }

    /// A hugepage of the filler becomes free where no run has a page of it.
    fn empty_unused(&mut self, place: u32)
        requires { IsSpan self.old place 1 is_filler }
        ensures table { self.new ≡ over_span place 1
            (emptied_where (ranges.used_count (noted_row self.old place) == 0)) self.old }
        ensures room { HasBits self.old }
    {
        if has_none(&self.used, place) {
            self.empty(place);
        }
    }

    /// The tail of a run, if it has one, becomes free where no run has a page of it.
    fn empty_tail(&mut self, place: u32, many: u32)
        requires filler { IsSpan self.old place many is_filler }
        requires one { many ≤ 1 }
        ensures table { self.new ≡ over_span place many
            (emptied_where (ranges.used_count (noted_row self.old place) == 0)) self.old }
        ensures room { HasBits self.old }
    {
        // There is a bit for each page.
        let _ = &self.used;
        if many == 1 {
            self.empty_unused(place);
        }
    }

    /// Notes a run of `n` pages, or notes that it has left. Its first `skipped` pages are whole hugepages.
    fn note(&mut self, first: u32, n: u32, skipped: u32, state: bool)
        requires some { 0 < n }
        requires part { skipped ≤ n }
        requires high { first + n ≤ huge_pages * (length self.old.pages + 1) }
        ensures pages { self.new.pages ≡ self.old.pages }
        ensures noted { IsNoted self.old self.new first n skipped state }
    {
        // The pages are in the arena.
        let _ = &self.used;
        self.used.put(first + skipped, n - skipped, state);
        self.begins.set(first, state);
        self.ends.set(first + n - 1, state);
    }
}
