//! Runs and measures that were worked out by hand, as steps of a heap.
ghost use Rattle.std.specs.Prelude.{◌≡◌, ◌<◌, ◌≤◌, None, IfSome, Contains};
ghost use Rattle.tc_units.specs.declared.spans.Run.{Run};

use crate::{HeapConfig, PageHeap};
use std::process::Abort;
use std::test::Fail;
use tc_units::{Huge, Page, RowKind, RowView, Run};

/// Room for so many hugepages, with regions of `region` of them that open at a slack.
fn limits(huge: u32, region: u32, slack: u64) -> HeapConfig
    ensures { result ≡ record { huge = huge; cache = 4096; region = region; slack = slack; window = 0 } }
{
    HeapConfig {
        huge,
        cache: 4096,
        region,
        slack,
        window: 0,
    }
}

/// What is done with a heap, and what has to come of it.
#[derive(Clone, Copy)]
enum Step {
    /// A run of so many pages begins at this page, or at 0 where there is none.
    New(u32, u32),
    /// The same, and the run is held.
    Hold(u32, u32),
    /// The run that is held is freed.
    Free,
    /// So many pages are asked for, and so many are unbacked.
    Release(u64, u64),
    /// So many pages are used, and so many are backed.
    Pages(u64, u64),
}

/// A heap, and a live run of it that is freed later, if one is held.
#[derive(Drop)]
struct Play {
    heap: PageHeap,
    held: Option<Run>,
}

/// The first page of a run, or 0.
fn page_of(run: Option<Run>) -> u32 {
    match run {
        Some(run) => run.first.0,
        None => 0,
    }
}

/// Does a step, and asserts what comes of it.
fn done(rt: &impl Abort, play: Play, step: Step) -> Play
    requires { IfSome play.held (λ run. Contains play.heap.runs run) }
    ensures { IfSome result.held (λ run. Contains result.heap.runs run) }
{
    let Play { mut heap, held } = play;
    match step {
        Step::New(pages, page) => {
            assert!(rt; pages > 0);
            assert_eq!(rt; page_of(heap.new_run(pages)), page);
            Play { heap, held }
        }
        Step::Hold(pages, page) => {
            assert!(rt; pages > 0);
            let held = heap.new_run(pages);
            assert_eq!(rt; page_of(held), page);
            Play { heap, held }
        }
        Step::Free => {
            if let Some(run) = held {
                heap.free_run(run);
            }
            Play { heap, held: None }
        }
        Step::Release(asked, pages) => {
            assert_eq!(rt; heap.release(asked), pages);
            Play { heap, held: None }
        }
        Step::Pages(used, backed) => {
            assert_eq!(rt; heap.used_pages(), used);
            assert_eq!(rt; heap.backed_pages(), backed);
            Play { heap, held }
        }
    }
}

/// Does steps, and asserts what comes of each.
fn all_done(rt: &impl Abort, play: Play, steps: &[Step])
    requires { IfSome play.held (λ run. Contains play.heap.runs run) }
{
    if let Some((step, rest)) = steps.split_first() {
        all_done(rt, done(rt, play, *step), rest);
    }
}

/// A heap of which no run is held.
fn started(heap: PageHeap) -> Play
    ensures { result.held ≡ None }
{
    Play { heap, held: None }
}

/// A run of so many pages, which has to begin at this page.
fn placed(rt: &impl Abort, heap: &mut PageHeap, pages: u32, page: u32) -> Run
    requires { 0 < pages }
    ensures at { result.first.0 ≡ page }
    ensures live { Contains heap.new.runs result }
    ensures stay { (run : Run) → Contains heap.old.runs run → Contains heap.new.runs run }
{
    match heap.new_run(pages) {
        Some(run) => {
            assert_eq!(rt; run.first.0, page);
            run
        }
        None => panic!(rt; "there is no room"),
    }
}

#[test]
fn each_route_by_its_edges(rt: HostRuntime) -> Result<(), Fail> {
    let heap = PageHeap::open(rt.alloc(), &limits(8, 2, 1_048_576))?;
    all_done(
        &rt,
        started(heap),
        &[
            // One page, and what it leaves of its hugepage.
            Step::New(1, 256),
            Step::New(255, 257),
            // One hugepage, and two, the second of which is donated.
            Step::New(256, 512),
            Step::New(257, 768),
            Step::New(511, 1280),
            Step::New(512, 1792),
            // What the donated ones have left.
            Step::New(255, 1025),
            Step::New(1, 1791),
            Step::New(1, 0),
            Step::Pages(2048, 2048),
        ],
    );
    Ok(())
}

#[test]
fn regions_of_two_and_of_four_hugepages(rt: HostRuntime) -> Result<(), Fail> {
    let heap = PageHeap::open(rt.alloc(), &limits(4, 2, 0))?;
    all_done(
        &rt,
        started(heap),
        &[
            Step::New(300, 256),
            // A small run is of the filler.
            Step::New(212, 768),
            // The region has 212 pages left, and one hugepage is free.
            Step::New(257, 0),
            Step::Pages(512, 768),
        ],
    );
    let heap = PageHeap::open(rt.alloc(), &limits(8, 4, 0))?;
    let steps = [
        Step::New(300, 256),
        Step::New(300, 556),
        Step::Pages(600, 768),
    ];
    all_done(&rt, started(heap), steps.as_slice());
    Ok(())
}

#[test]
fn regions_fill_the_arena_to_its_last_page(rt: HostRuntime) -> Result<(), Fail> {
    // Two regions of 64 hugepages, 16,384 pages each: the second begins at page 65 * 256.
    let heap = PageHeap::open(rt.alloc(), &limits(128, 64, 0))?;
    let steps = [
        Step::New(16_383, 256),
        Step::Hold(16_383, 16_640),
        Step::New(257, 0),
        Step::Pages(32_766, 32_768),
        Step::Free,
        Step::New(511, 16_640),
        // Places 511 to 16,383 of that region are free: 15,873 pages, up to the last one of the arena.
        Step::New(15_873, 17_151),
        Step::Pages(32_767, 32_768),
    ];
    all_done(&rt, started(heap), steps.as_slice());
    // The last two of 4,096 hugepages, from page 4,095 * 256 on.
    let heap = PageHeap::open(rt.alloc(), &limits(4096, 2, 0))?;
    let steps = [
        Step::New(1_048_064, 256),
        Step::Hold(511, 1_048_320),
        Step::New(1, 0),
        Step::Pages(1_048_575, 1_048_576),
        Step::Free,
        Step::Release(1, 256),
        Step::New(512, 1_048_320),
        Step::Pages(1_048_576, 1_048_576),
    ];
    all_done(&rt, started(heap), steps.as_slice());
    Ok(())
}

#[test]
fn a_region_is_shown_by_its_hugepages(rt: HostRuntime) -> Result<(), Fail> {
    let mut heap = PageHeap::open(rt.alloc(), &limits(4, 2, 0))?;
    assert_eq!(rt; page_of(heap.new_run(300)), 256);
    let first = RowView {
        kind: RowKind::Region,
        used: 256,
        allocs: 1,
        backed: 256,
        longest: 0,
        donated: false,
    };
    assert_eq!(rt; heap.row(Huge(1)), first);
    assert_eq!(rt; heap.row(Huge(2)).longest, 212);
    Ok(())
}

#[test]
fn a_new_heap_backs_no_page(rt: HostRuntime) -> Result<(), Fail> {
    let heap = PageHeap::open(rt.alloc(), &limits(4, 2, 0))?;
    assert_eq!(rt; heap.is_backed(Page(256)), false);
    assert_eq!(rt; heap.is_backed(Page(1279)), false);
    Ok(())
}

#[test]
fn the_tightest_hugepage_serves(rt: HostRuntime) -> Result<(), Fail> {
    for steps in [
        // The tail of a longer run serves a small one.
        [
            Step::New(257, 256),
            Step::New(1, 513),
            Step::Pages(258, 512),
            Step::Free,
        ],
        // The shorter longest range wins.
        [
            Step::New(253, 256),
            Step::New(254, 512),
            Step::New(2, 766),
            Step::Free,
        ],
        // More runs win.
        [
            Step::New(254, 256),
            Step::New(127, 512),
            Step::New(127, 639),
            Step::New(2, 766),
        ],
    ] {
        let heap = PageHeap::open(rt.alloc(), &limits(1024, 512, 1_048_576))?;
        all_done(&rt, started(heap), steps.as_slice());
    }
    Ok(())
}

#[test]
fn the_whole_arena(rt: HostRuntime) -> Result<(), Fail> {
    let heap = PageHeap::open(rt.alloc(), &limits(1, 2, 0))?;
    all_done(&rt, started(heap), &[Step::New(256, 256), Step::New(1, 0)]);
    let heap = PageHeap::open(rt.alloc(), &limits(4, 512, 0))?;
    all_done(
        &rt,
        started(heap),
        &[Step::New(1025, 0), Step::New(1024, 256)],
    );
    let heap = PageHeap::open(rt.alloc(), &limits(4096, 512, 0))?;
    all_done(
        &rt,
        started(heap),
        &[
            Step::New(131_071, 256),
            Step::New(917_504, 131_328),
            Step::Pages(1_048_575, 1_048_576),
        ],
    );
    Ok(())
}

#[test]
fn a_release_breaks_a_hugepage(rt: HostRuntime) -> Result<(), Fail> {
    let heap = PageHeap::open(rt.alloc(), &limits(1024, 512, 1_048_576))?;
    all_done(
        &rt,
        started(heap),
        &[
            Step::Hold(2, 256),
            Step::New(254, 258),
            Step::Free,
            Step::Release(100, 2),
            Step::Pages(254, 254),
            // The intact hugepage is preferred to the broken one with the better range.
            Step::New(3, 512),
            Step::New(2, 515),
            Step::Pages(259, 510),
        ],
    );
    Ok(())
}

#[test]
fn a_freed_hugepage_is_kept_to_the_limit(rt: HostRuntime) -> Result<(), Fail> {
    let heap = PageHeap::open(rt.alloc(), &limits(1024, 512, 1_048_576))?;
    all_done(
        &rt,
        started(heap),
        &[
            Step::Hold(256, 256),
            Step::Free,
            Step::Pages(0, 256),
            Step::Release(1, 256),
            Step::Release(1, 0),
        ],
    );
    let none = HeapConfig {
        cache: 0,
        ..limits(1024, 512, 1_048_576)
    };
    let heap = PageHeap::open(rt.alloc(), &none)?;
    all_done(
        &rt,
        started(heap),
        &[Step::Hold(768, 256), Step::Free, Step::Pages(0, 0)],
    );
    Ok(())
}

#[test]
fn a_release_takes_the_last_stretches(rt: HostRuntime) -> Result<(), Fail> {
    let heap = PageHeap::open(rt.alloc(), &limits(8, 2, 1_048_576))?;
    let steps = [
        // Hugepage 4 is a run's. 1 to 3 and 5 to 8 are free and backed then.
        Step::Hold(768, 256),
        Step::New(256, 1024),
        Step::Free,
        Step::Hold(1024, 1280),
        Step::Free,
        Step::Pages(256, 2048),
        // 8 to 6 of a stretch of four, and then 5 and 3, which are of two.
        Step::Release(513, 768),
        Step::Pages(256, 1280),
        Step::Release(257, 512),
        Step::Pages(256, 768),
        Step::New(512, 256),
        Step::Pages(768, 768),
        Step::Release(10_000, 0),
    ];
    all_done(&rt, started(heap), steps.as_slice());
    Ok(())
}

#[test]
fn the_limit_follows_the_window(rt: HostRuntime) -> Result<(), Fail> {
    // Two hugepages come and go. With a window of 1 the newest count is the greatest one, so none stays backed;
    // with 2 the greatest is 1 above the newest.
    for (window, backed) in [(0, 512), (1, 0), (2, 256)] {
        let config = HeapConfig {
            window,
            ..limits(1024, 512, 1_048_576)
        };
        let mut heap = PageHeap::open(rt.alloc(), &config)?;
        let first = placed(&rt, &mut heap, 256, 256);
        let second = placed(&rt, &mut heap, 256, 512);
        heap.free_run(first);
        heap.free_run(second);
        assert_eq!(rt; heap.used_pages(), 0);
        assert_eq!(rt; heap.backed_pages(), backed);
    }
    Ok(())
}

#[test]
fn a_run_settles_at_the_peak_of_the_window(rt: HostRuntime) -> Result<(), Fail> {
    let config = HeapConfig {
        window: 2,
        ..limits(1024, 512, 1_048_576)
    };
    let mut heap = PageHeap::open(rt.alloc(), &config)?;
    let first = placed(&rt, &mut heap, 256, 256);
    let _second = placed(&rt, &mut heap, 256, 512);
    let third = placed(&rt, &mut heap, 256, 768);
    heap.free_run(first);
    heap.free_run(third);
    // It takes hugepages 3 and 4. The use is at its peak again, so hugepage 1 loses its backing.
    let _last = placed(&rt, &mut heap, 512, 768);
    assert_eq!(rt; heap.used_pages(), 768);
    assert_eq!(rt; heap.backed_pages(), 768);
    assert_eq!(rt; heap.is_backed(Page(256)), false);
    Ok(())
}

#[test]
fn a_release_takes_an_idle_hugepage_of_a_region(rt: HostRuntime) -> Result<(), Fail> {
    let heap = PageHeap::open(rt.alloc(), &limits(8, 3, 0))?;
    all_done(
        &rt,
        started(heap),
        &[
            // Pages 256 to 555 and 556 to 955 of a region from hugepage 1 to 3: hugepage 1 is idle after the free.
            Step::Hold(300, 256),
            Step::New(400, 556),
            Step::Free,
            Step::Pages(400, 768),
            Step::Release(1, 256),
            Step::Pages(400, 512),
            Step::Release(1, 0),
        ],
    );
    Ok(())
}

/// Made to be tried with each of its allocations refused in turn: a heap begins with all its room, or there
/// is none.
#[test]
fn memory_that_runs_out(rt: HostRuntime) -> Result<(), Fail> {
    let config = HeapConfig {
        window: 2,
        ..limits(3, 2, 0)
    };
    if let Ok(heap) = PageHeap::open(rt.alloc(), &config) {
        let steps = [
            Step::Hold(300, 256),
            Step::New(212, 768),
            Step::Free,
            Step::Pages(212, 256 * 3),
            Step::Release(1, 256),
        ];
        all_done(&rt, started(heap), steps.as_slice());
    }
    Ok(())
}
