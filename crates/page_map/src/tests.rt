//! The page map on cases worked by hand, beside a search of all spans.
ghost use Rattle.std.specs.Prelude.{◌≡◌, ◌≤◌};
ghost use Rattle.tc_units.specs.declared.spans.SpanKind.TheVariants.{Small, Large};

use crate::PageMap;
use std::test::Fail;
use tc_units::{Class, Page, SpanKind, SpanRef};

fn small(first: u32, pages: u32, class: u8) -> SpanRef
    ensures { result ≡ record { first = record { 0 = first }; pages = pages; kind = Small (record { 0 = class }) } }
{
    SpanRef {
        first: Page(first),
        pages,
        kind: SpanKind::Small(Class(class)),
    }
}

fn large(first: u32, pages: u32) -> SpanRef
    ensures { result ≡ record { first = record { 0 = first }; pages = pages; kind = Large } }
{
    SpanRef {
        first: Page(first),
        pages,
        kind: SpanKind::Large,
    }
}

/// Which of these spans holds a page: the plain body.
fn searched(spans: &[SpanRef], page: u32) -> Option<SpanRef> {
    spans
        .iter()
        .find(|span| span.first.0 <= page && page - span.first.0 < span.pages)
        .copied()
}

/// Whether a map tells of each page of the first `huge` hugepages and of the next one as the plain body does.
fn agrees(map: &PageMap, spans: &[SpanRef], huge: u32) -> bool
    requires { huge ≤ 4096 }
{
    (0..(huge + 2) * 256).all(|page| map.get(Page(page)) == searched(spans, page))
}

#[test]
fn spans_of_one_hugepage(rt: HostRuntime) -> Result<(), Fail> {
    let block = large(256, 40);
    let objects = small(300, 2, 3);
    let mut map = PageMap::open(rt.alloc(), 1)?;
    map.set(objects)?;
    map.set(block)?;
    let cases = [
        (255, None),
        (256, Some(block)),
        (295, Some(block)),
        (296, None),
        (300, Some(objects)),
        (301, Some(objects)),
        (302, None),
    ];
    for (page, span) in cases {
        assert_eq!(rt; map.get(Page(page)), span);
    }
    map.clear(block);
    assert!(rt; agrees(&map, &[objects], 1));
    Ok(())
}

#[test]
fn spans_at_the_borders_of_hugepages(rt: HostRuntime) -> Result<(), Fail> {
    // From hugepage 1 into hugepage 2, the whole of hugepage 3, and the last page of hugepage 4.
    let across = large(500, 24);
    let whole = large(768, 256);
    let last = small(1279, 1, 0);
    let mut map = PageMap::open(rt.alloc(), 4)?;
    map.set(whole)?;
    map.set(across)?;
    map.set(last)?;
    let cases = [
        (499, None),
        (500, Some(across)),
        (511, Some(across)),
        (512, Some(across)),
        (523, Some(across)),
        (524, None),
        (767, None),
        (768, Some(whole)),
        (1023, Some(whole)),
        (1024, None),
        (1278, None),
        (1279, Some(last)),
        (1280, None),
    ];
    for (page, span) in cases {
        assert_eq!(rt; map.get(Page(page)), span);
    }
    map.clear(across);
    assert!(rt; agrees(&map, &[last, whole], 4));
    map.clear(whole);
    assert!(rt; agrees(&map, &[last], 4));
    Ok(())
}

#[test]
fn a_hugepage_in_parts_and_whole_in_turn(rt: HostRuntime) -> Result<(), Fail> {
    let part = small(600, 8, 1);
    let whole = large(512, 256);
    let mut map = PageMap::open(rt.alloc(), 2)?;
    map.set(part)?;
    assert!(rt; agrees(&map, &[part], 2));
    map.clear(part);
    map.set(whole)?;
    assert!(rt; agrees(&map, &[whole], 2));
    map.clear(whole);
    map.set(part)?;
    assert!(rt; agrees(&map, &[part], 2));
    Ok(())
}

#[test]
fn a_span_of_many_hugepages(rt: HostRuntime) -> Result<(), Fail> {
    // 2^19 pages from place 100 of hugepage 1 on, which end in hugepage 2049.
    let span = large(356, 524_288);
    let mut map = PageMap::open(rt.alloc(), 2049)?;
    map.set(span)?;
    assert!(rt; agrees(&map, &[span], 2049));
    map.clear(span);
    assert!(rt; agrees(&map, &[], 2049));
    Ok(())
}

#[test]
fn spans_at_the_ends_of_the_largest_arena(rt: HostRuntime) -> Result<(), Fail> {
    // Pages 256 to 1,048,831: the first, the last, and all between them.
    let first = small(256, 1, 2);
    let between = large(257, 1_048_574);
    let last = small(1_048_831, 1, 2);
    let mut map = PageMap::open(rt.alloc(), 4096)?;
    map.set(last)?;
    map.set(first)?;
    map.set(between)?;
    let cases = [
        (0, None),
        (255, None),
        (256, Some(first)),
        (257, Some(between)),
        (600_000, Some(between)),
        (1_048_830, Some(between)),
        (1_048_831, Some(last)),
        (1_048_832, None),
    ];
    for (page, span) in cases {
        assert_eq!(rt; map.get(Page(page)), span);
    }
    map.clear(between);
    assert_eq!(rt; map.get(Page(256)), Some(first));
    assert_eq!(rt; map.get(Page(257)), None);
    assert_eq!(rt; map.get(Page(1_048_830)), None);
    assert_eq!(rt; map.get(Page(1_048_831)), Some(last));
    Ok(())
}

/// Made to be tried with each of its allocations refused in turn: a map begins with all its room, or there is
/// none; and a span is set, or the map is as it was.
#[test]
fn memory_that_runs_out(rt: HostRuntime) -> Result<(), Fail> {
    let Ok(mut map) = PageMap::open(rt.alloc(), 4) else {
        return Ok(());
    };
    let across = large(500, 24);
    let last = small(1279, 1, 0);
    if map.set(across).is_err() {
        assert!(rt; agrees(&map, &[], 4));
        return Ok(());
    }
    assert!(rt; agrees(&map, &[across], 4));
    if map.set(last).is_err() {
        assert!(rt; agrees(&map, &[across], 4));
        return Ok(());
    }
    assert!(rt; agrees(&map, &[across, last], 4));
    Ok(())
}
