//! What the choosers are told of a hugepage, as the table has it.
ghost use Rattle.std.specs.Prelude.{◌≡◌, ◌+◌, ◌-◌, ◌<◌, ◌≤◌, ◌==◌, false, length, if◌then◌else◌, IfSome};
ghost use Rattle.tc_units.specs.Units.{huge_pages};
ghost use Rattle.heap_rules.specs.Heap.{Heap, hugepage};
ghost use Rattle.huge_table.specs.Runs.{TellsRuns};
ghost use Rattle.range_bits.specs.Ranges.{used_from};
ghost use Rattle.huge_cache.specs.Cache.{holds, with_backed_run};
ghost use Rattle.page_heap.specs.Told.{IsTold, measures_by, remeasured, with_shown, with_freed};

use huge_cache::HugeCache;
use huge_filler::{HugeFiller, Measures};
use huge_table::HugeTable;
use tc_units::{HUGE_PAGES, Huge, RowKind, RowView};

/// The tier of a hugepage of the filler.
fn tier_of(backed: u32, donated: bool) -> u8
    ensures tier { result ≡ (if backed == huge_pages then (if donated then 1 else 0) else 2) }
    ensures few { result ≤ 2 }
{
    match (backed == HUGE_PAGES, donated) {
        (true, true) => 1,
        (true, false) => 0,
        (false, _) => 2,
    }
}

/// What the filler is told of a hugepage, by how it is shown.
fn measures_of(row: RowView) -> Option<Measures>
    requires { row.used ≤ row.backed }
    ensures measures { result ≡ measures_by row }
    ensures tier { IfSome result (λ its. its.tier ≤ 2) }
{
    match row.kind {
        RowKind::Filler => Some(Measures {
            tier: tier_of(row.backed, row.donated),
            longest: row.longest,
            allocs: row.allocs,
            used: row.used,
            spare: row.backed - row.used,
            donated: row.donated,
        }),
        RowKind::Free | RowKind::Run | RowKind::Region => None,
    }
}

/// A table tells which runs live.
pub(crate) fn tells_runs(table: &HugeTable)
    ensures { TellsRuns table.now }
{
    let _huge = table.huge();
}

/// Tells the filler what a hugepage is now.
pub(crate) fn measure(filler: &mut HugeFiller, table: &HugeTable, huge: Huge)
    requires low { 0 < huge.0 }
    requires high { huge.0 ≤ length table.now.pages }
    requires same { length filler.old ≡ length table.now.pages }
    requires told { (heap : Heap) × IsTold table.now heap }
    ensures told { (heap : Heap) → IsTold table.now heap → filler.new ≡ remeasured filler.old heap huge.0 }
    ensures runs { TellsRuns table.now }
{
    tells_runs(table);
    let row = table.row(huge);
    filler.set(huge, measures_of(row));
}

/// Gives the cache a hugepage that a run has left, where it is free as its row shows it.
pub(crate) fn give_emptied(cache: &mut HugeCache, huge: Huge, row: RowView)
    requires low { 0 < huge.0 }
    requires high { huge.0 ≤ length cache.old.taken }
    requires out { holds cache.old huge.0 ≡ false }
    ensures { cache.new ≡ with_shown cache.old huge.0 row }
{
    match row.kind {
        RowKind::Free => cache.give(huge, row.backed == HUGE_PAGES),
        RowKind::Filler | RowKind::Run | RowKind::Region => {}
    }
}

/// Gives the cache hugepages that a run had whole, if there are any.
fn give_whole(cache: &mut HugeCache, first: Huge, many: u32)
    requires low { 0 < first.0 }
    requires out { many ≤ used_from cache.old.taken (first.0 - 1) }
    ensures { cache.new ≡ with_backed_run cache.old first.0 many }
{
    if many != 0 {
        cache.give_run(first, many);
    }
}

/// Gives the cache what a run has left: hugepages that it had whole, if there are any, and the last one behind them, where
/// that is free as its row shows it.
fn give_left(cache: &mut HugeCache, first: Huge, many: u32, last: Huge, row: RowView)
    requires low { 0 < first.0 }
    requires behind { first.0 + many ≡ last.0 }
    requires high { last.0 ≤ length cache.old.taken }
    requires out { many ≤ used_from cache.old.taken (first.0 - 1) }
    requires last { holds cache.old last.0 ≡ false }
    ensures { cache.new ≡ with_shown (with_backed_run cache.old first.0 many) last.0 row }
{
    match row.kind {
        RowKind::Free => cache.give_left(first, many, last, row.backed == HUGE_PAGES),
        RowKind::Filler | RowKind::Run | RowKind::Region => give_whole(cache, first, many),
    }
}

/// Tells the filler and the cache what hugepages are now that a run has left them: those that it had whole, and the last one.
pub(crate) fn tell_left(
    filler: &mut HugeFiller,
    cache: &mut HugeCache,
    table: &HugeTable,
    first: Huge,
    last: Huge,
)
    requires low { 0 < first.0 }
    requires order { first.0 ≤ last.0 }
    requires high { last.0 ≤ length table.now.pages }
    requires same { length filler.old ≡ length table.now.pages }
    requires taken { length cache.old.taken ≡ length table.now.pages }
    requires out { last.0 - first.0 ≤ used_from cache.old.taken (first.0 - 1) }
    requires last { holds cache.old last.0 ≡ false }
    requires told { (heap : Heap) × IsTold table.now heap }
    ensures filler { (heap : Heap) → IsTold table.now heap → filler.new ≡ remeasured filler.old heap last.0 }
    ensures cache { (heap : Heap) → IsTold table.now heap
        → cache.new ≡ with_freed (with_backed_run cache.old first.0 (last.0 - first.0)) last.0 (hugepage heap last.0) }
    ensures runs { TellsRuns table.now }
{
    tells_runs(table);
    let row = table.row(last);
    filler.set(last, measures_of(row));
    give_left(cache, first, u32::from(last.0 - first.0), last, row);
}
