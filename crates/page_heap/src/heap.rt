//! The page heap: where each run goes, and what it leaves.
ghost use Rattle.std.specs.Prelude.{◌≡◌, ◌≢◌, ℕ, ◌*◌, ◌<◌, ◌≤◌, ◌↔◌, true, None, IfSome, IfNone, IfOk, IsNone, Contains, sum_by, option_map};
ghost use Rattle.tc_units.specs.Units.{huge_pages};
ghost use Rattle.tc_units.specs.declared.spans.Run.{Run};
ghost use Rattle.heap_rules.specs.Heap.{opened, used_pages};
ghost use Rattle.heap_rules.specs.New.{new_small, by_regions, new_unsettled, new, none_fits};
ghost use Rattle.heap_rules.specs.Free.{given_back, freed};
ghost use Rattle.heap_rules.specs.Laws.{IsGiven, IsRid, BacksNone};
ghost use Rattle.heap_rules.specs.Sound.{AreLimits, IsSound};
ghost use Rattle.page_heap.specs.Told.{answered};

use crate::told::tells_runs;
use heap_rules::HeapConfig;
use huge_cache::HugeCache;
use huge_filler::HugeFiller;
use huge_region::HugeRegions;
use huge_table::HugeTable;
use std::alloc::{AllocError, Global};
use std::marker::Model;
use tc_units::{HUGE_PAGES, RowKind, Run, huge_of};

/// A page heap: it places runs of pages and frees them.
#[derive(Drop)]
pub struct PageHeap {
    pub(crate) config: HeapConfig,
    /// What each hugepage is, and which pages runs have.
    pub(crate) table: HugeTable,
    pub(crate) filler: HugeFiller,
    pub(crate) cache: HugeCache,
    pub(crate) regions: HugeRegions,
    /// Pages of all live runs.
    pub(crate) used: u64,
}

impl Model for PageHeap {
    ghost use Rattle.heap_rules.specs.Heap.{Heap};
    ghost use Rattle.page_heap.specs.Inside.{heap_of, IsKept};

    ghost Value = { Heap };

    ghost view = { heap_of };

    ghost invariant = { IsKept };
}

impl PageHeap {
    /// A heap with no live run, whose hugepages are free and unbacked. All room is taken here.
    pub fn open(alloc: Global, config: &HeapConfig) -> Result<Self, AllocError>
        requires { AreLimits config.now }
        ensures opened { IfOk result (λ heap. heap ≡ opened config.now) }
        ensures sound { IfOk result IsSound }
    {
        let table = HugeTable::open(alloc, config.huge)?;
        tells_runs(&table);
        Ok(PageHeap {
            config: *config,
            table,
            filler: HugeFiller::open(alloc, config.huge)?,
            cache: HugeCache::open(alloc, config.huge, config.cache, config.window)?,
            regions: HugeRegions::open(alloc, config.huge, config.region)?,
            used: 0,
        })
    }

    /// Places a run below a hugepage's pages.
    fn new_small(&mut self, n: u32) -> Option<Run>
        requires some { 0 < n }
        requires below { n < huge_pages }
        ensures new { new_small self.old n ≡ answered self.new result }
        ensures same { IfNone result (self.new ≡ self.old) }
    {
        match self.new_in_filler(n) {
            Some(run) => Some(run),
            None => self.new_in_fresh(n),
        }
    }

    /// Places a run of more than a hugepage that suits a region.
    fn new_by_regions(&mut self, n: u32) -> Option<Run>
        requires large { huge_pages ≤ n }
        requires fits { n ≤ huge_pages * self.old.config.region }
        ensures new { by_regions self.old n ≡ answered self.new result }
        ensures same { IfNone result (self.new ≡ self.old) }
    {
        if let Some(run) = self.new_in_region(n) {
            return Some(run);
        }
        if let Some(run) = self.new_in_new_region(n) {
            return Some(run);
        }
        self.new_whole(n)
    }

    /// Places a run by its route. The heap doesn't settle yet.
    fn place(&mut self, n: u32) -> Option<Run>
        requires { 0 < n }
        ensures new { new_unsettled self.old n ≡ answered self.new result }
        ensures same { IfNone result (self.new ≡ self.old) }
        ensures sound { IsSound self.old }
        ensures wide { 2 ≤ self.old.config.region }
    {
        let most = HUGE_PAGES * self.config.region;
        if n < HUGE_PAGES {
            self.new_small(n)
        } else if n % HUGE_PAGES != 0 && n <= most {
            self.new_by_regions(n)
        } else {
            self.new_whole(n)
        }
    }

    /// Places a run of `n` pages. `None` exactly where no route finds a place, and then nothing changes.
    pub fn new_run(&mut self, n: u32) -> Option<Run>
        requires { 0 < n }
        ensures new { new self.old n
            ≡ option_map (λ run. record { run = run; heap = self.new }) result }
        ensures none_fits { IsNone result ↔ (none_fits self.old n ≡ true) }
        ensures same { IfNone result (self.new ≡ self.old) }
        ensures given { IfSome result (λ run. IsGiven self.old n (record { run = run; heap = self.new })) }
        ensures live { IfSome result (λ run. Contains self.new.runs run) }
        ensures stay { (run : Run) → Contains self.old.runs run → Contains self.new.runs run }
        ensures config { self.new.config ≡ self.old.config }
        ensures sound { IsSound self.new }
    {
        let run = self.place(n)?;
        self.settle();
        Some(run)
    }

    /// Gives a run back by the route that placed it. The heap doesn't settle yet.
    fn give_back(&mut self, run: Run)
        requires { Contains self.old.runs run }
        ensures given { self.new ≡ given_back self.old run }
        ensures sound { IsSound self.old }
    {
        match self.table.kind(huge_of(run.first)) {
            RowKind::Region => self.free_in_region(run),
            RowKind::Free | RowKind::Run | RowKind::Filler => self.free_in_hugepages(run),
        }
    }

    /// Frees a live run, and settles.
    pub fn free_run(&mut self, run: Run)
        requires { Contains self.old.runs run }
        ensures freed { self.new ≡ freed self.old run }
        ensures rid { IsRid self.old run self.new }
        ensures backs_none { BacksNone self.old self.new }
        ensures stay { (other : Run) → Contains self.old.runs other → other.first.0 ≢ run.first.0
            → Contains self.new.runs other }
    {
        self.give_back(run);
        self.settle();
    }

    /// Pages of all live runs.
    pub fn used_pages(&self) -> u64
        ensures value { result ≡ used_pages self.now }
        ensures runs { result ≡ sum_by (λ run. run.pages) self.now.runs }
    {
        self.used
    }
}
