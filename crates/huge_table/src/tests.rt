//! Tables whose hugepages were worked out by hand.
ghost use Rattle.std.specs.Prelude.{◌≡◌, ◌+◌, ◌-◌, ◌/◌, ◌%◌, ◌<◌, ◌≤◌, ◌⊎◌, true};
ghost use Rattle.tc_units.specs.Units.{huge_pages};
ghost use Rattle.tc_units.specs.declared.rows.RowKind.TheVariants as kind;
ghost use Rattle.heap_rules.specs.Heap.{is_free, is_filler, is_region, run_at};
ghost use Rattle.heap_rules.specs.Choice.{hugepages_for};
ghost use Rattle.huge_table.specs.Table.{IsSpan, is_even, reached_by};
ghost use Rattle.huge_table.specs.Means.{is_run};

use crate::HugeTable;
use std::process::Abort;
use std::test::Fail;
use tc_units::{HUGE_PAGES, Huge, Page, RowKind, RowView, Run};

/// Whether adjacent hugepages are in the arena, and all serve one kind.
fn are(table: &HugeTable, first: u32, many: u32, wanted: RowKind) -> bool
    ensures free { result ≡ true → wanted ≡ kind.Free → IsSpan table.now first many is_free }
    ensures filler { result ≡ true → wanted ≡ kind.Filler → IsSpan table.now first many is_filler }
    ensures run { result ≡ true → wanted ≡ kind.Run → IsSpan table.now first many is_run }
    ensures region { result ≡ true → wanted ≡ kind.Region → IsSpan table.now first many is_region }
{
    if first == 0 || first > table.huge() + 1 || many > table.huge() + 1 - first {
        return false;
    }
    for place in first..first + many {
        if table.kind(Huge(place as u16)) != wanted {
            return false;
        }
    }
    true
}

/// Whether `n` pages from one on lie in one hugepage of the filler.
fn fits(table: &HugeTable, first: u32, n: u32) -> bool
    ensures some { result ≡ true → 0 < n }
    ensures ends { result ≡ true → first % huge_pages + n ≤ huge_pages }
    ensures filler { result ≡ true → IsSpan table.now (first / huge_pages) 1 is_filler }
{
    let left = HUGE_PAGES - first % HUGE_PAGES;
    n > 0 && n <= left && are(table, first / HUGE_PAGES, 1, RowKind::Filler)
}

/// Whether `n` pages from one on lie in regions.
fn spans(table: &HugeTable, first: u32, n: u32) -> bool
    requires { 0 < n }
    ensures { result ≡ true → IsSpan table.now (first / huge_pages) (reached_by first n) is_region }
{
    if first > HUGE_PAGES * 4097 || n > HUGE_PAGES * 4097 {
        return false;
    }
    let huge = first / HUGE_PAGES;
    are(
        table,
        huge,
        (first + n).div_ceil(HUGE_PAGES) - huge,
        RowKind::Region,
    )
}

/// Whether `n` pages from one on begin a hugepage, or lie in one.
fn lies(first: u32, n: u32) -> bool
    ensures { result ≡ true → (first % huge_pages ≡ 0) ⊎ (first % huge_pages + n ≤ huge_pages) }
{
    first % HUGE_PAGES == 0 || n <= HUGE_PAGES - first % HUGE_PAGES
}

/// Whether a run of `n` pages has whole hugepages from one on, and its tail in one of the filler.
fn has_whole(table: &HugeTable, huge: u32, n: u32) -> bool
    ensures run { result ≡ true → IsSpan table.now huge (n / huge_pages) is_run }
    ensures tail { result ≡ true → IsSpan table.now (huge + n / huge_pages) (hugepages_for n - n / huge_pages) is_filler }
{
    if huge > 4096 {
        return false;
    }
    let whole = n / HUGE_PAGES;
    let tails = n.div_ceil(HUGE_PAGES) - whole;
    are(table, huge, whole, RowKind::Run) && are(table, huge + whole, tails, RowKind::Filler)
}

/// Whether adjacent hugepages are all free or all a region's.
fn are_even(table: &HugeTable, first: u32, many: u32) -> bool
    ensures { result ≡ true → IsSpan table.now first many is_even }
{
    are(table, first, many, RowKind::Free) || are(table, first, many, RowKind::Region)
}

/// What is done with a table. A run is given by its first page and its pages.
#[derive(Clone, Copy, Debug)]
enum Step {
    Join(u32, u32),
    TakeRun(u16, u32),
    OpenRegion(u16, u32),
    JoinRegion(u32, u32),
    GiveRun(u32, u32),
    LeaveRegion(u32, u32),
    EndRegion(u16, u32),
    Unback(u16, u32),
    OnlyUsed(u16),
    /// A hugepage serves a kind, with these measures: used, allocs, backed, longest.
    Row(u16, RowKind, [u32; 4]),
    /// A hugepage is the donated tail of a run, with these measures.
    Tail(u16, [u32; 4]),
    /// The best range of a hugepage for so many pages begins at this page of it, or there is none: 256.
    Best(u16, u32, u32),
    /// Whether a page is backed.
    Backed(u32, bool),
}

/// A run by its first page and its pages.
fn run(first: u32, pages: u32) -> Run
    ensures { result ≡ run_at first pages }
{
    Run {
        first: Page(first),
        pages,
    }
}

/// A run comes, where it may.
fn comes(table: &mut HugeTable, step: Step) -> bool {
    match step {
        Step::Join(first, n) => {
            if !fits(table, first, n) {
                return false;
            }
            table.join(Page(first), n);
        }
        Step::TakeRun(huge, n) => {
            if n == 0
                || !are(
                    table,
                    u32::from(huge),
                    n.div_ceil(HUGE_PAGES),
                    RowKind::Free,
                )
            {
                return false;
            }
            table.take_run(Huge(huge), n);
        }
        Step::JoinRegion(first, n) => {
            if n == 0 || !spans(table, first, n) {
                return false;
            }
            table.join_region(Page(first), n);
        }
        _ => return false,
    }
    true
}

/// A run leaves, where it may.
fn leaves(table: &mut HugeTable, step: Step) -> bool {
    match step {
        Step::GiveRun(first, n) => {
            if n == 0 || !lies(first, n) || !has_whole(table, first / HUGE_PAGES, n) {
                return false;
            }
            table.give_run(run(first, n));
        }
        Step::LeaveRegion(first, n) => {
            if n == 0 || !spans(table, first, n) {
                return false;
            }
            table.leave_region(run(first, n));
        }
        _ => return false,
    }
    true
}

/// Hugepages change while runs stay, where they may.
fn changes(table: &mut HugeTable, step: Step) -> bool {
    match step {
        Step::OpenRegion(huge, width) => {
            if !are(table, u32::from(huge), width, RowKind::Free) {
                return false;
            }
            table.open_region(Huge(huge), width);
        }
        Step::EndRegion(huge, width) => {
            if !are(table, u32::from(huge), width, RowKind::Region) {
                return false;
            }
            table.end_region(Huge(huge), width);
        }
        Step::Unback(huge, many) => {
            if !are_even(table, u32::from(huge), many) {
                return false;
            }
            table.unback(Huge(huge), many);
        }
        Step::OnlyUsed(huge) => {
            if !are(table, u32::from(huge), 1, RowKind::Filler) {
                return false;
            }
            let _given = table.only_used(Huge(huge));
        }
        _ => return false,
    }
    true
}

/// The measures of a hugepage: used, allocs, backed, longest.
fn row(kind: RowKind, measures: [u32; 4], donated: bool) -> RowView {
    let [used, allocs, backed, longest] = measures;
    RowView {
        kind,
        used,
        allocs,
        backed,
        longest,
        donated,
    }
}

/// The measures of a hugepage of the arena, and free ones of any other.
fn row_of(table: &HugeTable, huge: u16) -> RowView {
    if huge == 0 || u32::from(huge) > table.huge() {
        return row(RowKind::Free, [0, 0, 0, HUGE_PAGES], false);
    }
    table.row(Huge(huge))
}

/// Where the best range of a hugepage begins.
fn best(table: &HugeTable, huge: u16, n: u32) -> Option<u32> {
    if huge == 0 || u32::from(huge) > table.huge() || n == 0 {
        return None;
    }
    table.best(Huge(huge), n)
}

/// Whether a page of the arena is backed.
fn is_backed(table: &HugeTable, page: u32) -> bool {
    page >= HUGE_PAGES && page < HUGE_PAGES * (table.huge() + 1) && table.is_backed(Page(page))
}

/// Does a step, which has to be one that may be done, or asserts what it says.
fn done(rt: &impl Abort, table: &mut HugeTable, step: Step) {
    match step {
        Step::Row(huge, kind, measures) => {
            assert_eq!(rt; row_of(table, huge), row(kind, measures, false), "{step:?}");
        }
        Step::Tail(huge, measures) => {
            let tail = row(RowKind::Filler, measures, true);
            assert_eq!(rt; row_of(table, huge), tail, "{step:?}");
        }
        Step::Best(huge, n, start) => {
            assert_eq!(rt;
                best(table, huge, n).unwrap_or(HUGE_PAGES),
                start,
                "{step:?}"
            );
        }
        Step::Backed(page, backed) => {
            assert_eq!(rt; is_backed(table, page), backed, "{step:?}");
        }
        _ => {
            let may = comes(table, step) || leaves(table, step) || changes(table, step);
            assert!(rt; may, "{step:?}");
        }
    }
}

/// Does steps one after another.
fn play(rt: &impl Abort, table: &mut HugeTable, steps: &[Step]) {
    for step in steps {
        done(rt, table, *step);
    }
}

/// An arena of one hugepage.
const ONE: [Step; 24] = [
    Step::Row(1, RowKind::Free, [0, 0, 0, 256]),
    Step::TakeRun(1, 3),
    Step::Row(1, RowKind::Filler, [3, 1, 256, 253]),
    Step::Join(256 + 10, 5),
    // Free are 3 to 9 and 15 to 255: 7 and 241 pages.
    Step::Row(1, RowKind::Filler, [8, 2, 256, 241]),
    Step::GiveRun(256, 3),
    Step::OnlyUsed(1),
    Step::Row(1, RowKind::Filler, [5, 1, 5, 241]),
    // Free are 0 to 9 and 15 to 255.
    Step::Best(1, 10, 0),
    Step::Best(1, 11, 15),
    Step::Best(1, 242, 256),
    Step::Backed(256 + 9, false),
    Step::Backed(256 + 10, true),
    Step::Join(256 + 250, 6),
    // Free are 0 to 9 and 15 to 249: 10 and 235 pages.
    Step::Row(1, RowKind::Filler, [11, 2, 11, 235]),
    Step::GiveRun(256 + 10, 5),
    Step::GiveRun(256 + 250, 6),
    // Not all of its pages were backed, so it keeps no backing.
    Step::Row(1, RowKind::Free, [0, 0, 0, 256]),
    Step::TakeRun(1, 256),
    Step::Row(1, RowKind::Run, [256, 1, 256, 0]),
    Step::GiveRun(256, 256),
    Step::Backed(511, true),
    Step::Unback(1, 1),
    Step::Row(1, RowKind::Free, [0, 0, 0, 256]),
];

/// Runs at both ends of an arena of 4,096 hugepages.
const ENDS: [Step; 24] = [
    Step::TakeRun(1, 300),
    Step::Row(1, RowKind::Run, [256, 1, 256, 0]),
    // 300 = 256 + 44, and 256 - 44 = 212.
    Step::Tail(2, [44, 1, 256, 212]),
    Step::Join(2 * 256 + 44, 212),
    Step::Tail(2, [256, 2, 256, 0]),
    Step::TakeRun(4095, 512),
    Step::Row(4096, RowKind::Run, [256, 1, 256, 0]),
    // The tail stays with the run that came into it, and keeps its mark.
    Step::GiveRun(256, 300),
    Step::Row(1, RowKind::Free, [0, 0, 256, 256]),
    Step::Tail(2, [212, 1, 256, 44]),
    Step::GiveRun(2 * 256 + 44, 212),
    Step::Row(2, RowKind::Free, [0, 0, 256, 256]),
    Step::GiveRun(4095 * 256, 512),
    Step::Row(4096, RowKind::Free, [0, 0, 256, 256]),
    // A tail that nothing else uses is free with its run.
    Step::TakeRun(4095, 257),
    Step::Tail(4096, [1, 1, 256, 255]),
    Step::GiveRun(4095 * 256, 257),
    Step::Row(4096, RowKind::Free, [0, 0, 256, 256]),
    // The whole arena: 4,096 times 256 pages.
    Step::TakeRun(1, 1_048_576),
    Step::Row(2048, RowKind::Run, [256, 1, 256, 0]),
    Step::Row(4096, RowKind::Run, [256, 1, 256, 0]),
    Step::GiveRun(256, 1_048_576),
    Step::Row(3, RowKind::Free, [0, 0, 256, 256]),
    Step::Row(4096, RowKind::Free, [0, 0, 256, 256]),
];

/// A region of 64 hugepages at the end of an arena of 4,096.
const REGION: [Step; 24] = [
    Step::TakeRun(4033, 256),
    Step::GiveRun(4033 * 256, 256),
    Step::OpenRegion(4033, 64),
    // The one that was backed stays so.
    Step::Row(4033, RowKind::Region, [0, 0, 256, 256]),
    Step::Row(4034, RowKind::Region, [0, 0, 0, 256]),
    // Pages 200 to 499: 56 in the first hugepage, and 244 in the next one, of which 12 are free.
    Step::JoinRegion(4033 * 256 + 200, 300),
    Step::Row(4033, RowKind::Region, [56, 1, 256, 200]),
    Step::Row(4034, RowKind::Region, [244, 1, 256, 12]),
    Step::JoinRegion(4033 * 256 + 500, 12),
    Step::Row(4034, RowKind::Region, [256, 2, 256, 0]),
    Step::JoinRegion(4096 * 256 + 255, 1),
    Step::Row(4096, RowKind::Region, [1, 1, 256, 255]),
    Step::LeaveRegion(4033 * 256 + 200, 300),
    Step::Row(4033, RowKind::Region, [0, 0, 256, 256]),
    Step::Row(4034, RowKind::Region, [12, 1, 256, 244]),
    Step::LeaveRegion(4033 * 256 + 500, 12),
    Step::LeaveRegion(4096 * 256 + 255, 1),
    Step::Unback(4034, 1),
    Step::Row(4034, RowKind::Region, [0, 0, 0, 256]),
    Step::EndRegion(4033, 64),
    Step::Row(4033, RowKind::Free, [0, 0, 256, 256]),
    Step::Row(4034, RowKind::Free, [0, 0, 0, 256]),
    Step::Row(4035, RowKind::Free, [0, 0, 0, 256]),
    Step::Row(4096, RowKind::Free, [0, 0, 256, 256]),
];

/// A region of both hugepages of an arena of two.
const BOTH: [Step; 7] = [
    Step::OpenRegion(1, 2),
    Step::JoinRegion(256, 512),
    Step::Row(1, RowKind::Region, [256, 1, 256, 0]),
    Step::Row(2, RowKind::Region, [256, 1, 256, 0]),
    Step::LeaveRegion(256, 512),
    Step::EndRegion(1, 2),
    Step::Row(2, RowKind::Free, [0, 0, 256, 256]),
];

#[test]
fn tables_by_hand(rt: HostRuntime) -> Result<(), Fail> {
    play(&rt, &mut HugeTable::open(rt.alloc(), 1)?, &ONE);
    play(&rt, &mut HugeTable::open(rt.alloc(), 4096)?, &ENDS);
    play(&rt, &mut HugeTable::open(rt.alloc(), 4096)?, &REGION);
    play(&rt, &mut HugeTable::open(rt.alloc(), 2)?, &BOTH);
    Ok(())
}

/// Made to be tried with each of its allocations refused in turn: a table begins with all its room, or
/// there is none.
#[test]
fn memory_that_runs_out(rt: HostRuntime) -> Result<(), Fail> {
    if let Ok(mut table) = HugeTable::open(rt.alloc(), 4096) {
        play(&rt, &mut table, &ENDS);
    }
    Ok(())
}
