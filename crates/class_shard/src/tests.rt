//! Each public function, with answers that were worked out by hand.
ghost use Rattle.std.specs.Prelude.{◌≡◌};

use crate::{ClassShard, Fetched};
use std::test::Fail;
use tc_units::{Addr, Bag, Class, ClassRow, Page, SpanKind, SpanRef};

fn span_at(first: u32, pages: u32) -> SpanRef
    ensures { result.pages ≡ pages }
{
    SpanRef {
        first: Page(first),
        pages,
        kind: SpanKind::Small(Class(2)),
    }
}

const ROW: ClassRow = ClassRow {
    size: 1024,
    pages: 1,
    batch: 32,
};

#[test]
fn nothing_comes_from_an_empty_shard(rt: HostRuntime) -> Result<(), Fail> {
    let mut out = Bag::open(rt.alloc(), 12)?;
    let mut shard = ClassShard::open(rt.alloc(), Class(2), ROW, 4)?;
    assert_eq!(rt; shard.fetch(3, &mut out), Fetched::Miss);
    shard.add_fetch(span_at(256, 1), 3, &mut out)?;
    assert_eq!(rt; shard.fetch(2, &mut out), Fetched::Got);
    assert_eq!(rt;
        out.as_slice(),
        [
            Addr(2097152),
            Addr(2098176),
            Addr(2099200),
            Addr(2100224),
            Addr(2101248)
        ]
        .as_slice()
    );

    // The span has eight objects: three are left.
    assert_eq!(rt; shard.fetch(4, &mut out), Fetched::Got);
    assert_eq!(rt; out.as_slice().len(), 8);
    assert_eq!(rt; shard.fetch(1, &mut out), Fetched::Miss);
    Ok(())
}

#[test]
fn a_list_that_fits_waits_in_the_transfer_cache(rt: HostRuntime) -> Result<(), Fail> {
    let span = span_at(256, 1);
    let mut out = Bag::open(rt.alloc(), 4)?;
    let mut freed = Bag::open(rt.alloc(), 4)?;
    let mut shard = ClassShard::open(rt.alloc(), Class(2), ROW, 3)?;
    shard.add_fetch(span, 3, &mut out)?;
    shard.give(out.as_slice(), &mut freed);
    assert_eq!(rt; freed.as_slice().len(), 0);
    out.clear();
    assert_eq!(rt; shard.fetch(2, &mut out), Fetched::Got);
    assert_eq!(rt; out.as_slice(), [Addr(2099200), Addr(2098176)].as_slice());
    out.clear();

    // One object is left there, though the span has more.
    assert_eq!(rt; shard.fetch(4, &mut out), Fetched::Got);
    assert_eq!(rt; out.as_slice(), [Addr(2097152)].as_slice());
    out.clear();
    assert_eq!(rt; shard.fetch(1, &mut out), Fetched::Got);
    assert_eq!(rt; out.as_slice(), [Addr(2100224)].as_slice());
    Ok(())
}

#[test]
fn a_list_that_is_too_long_goes_to_its_span(rt: HostRuntime) -> Result<(), Fail> {
    let span = span_at(256, 1);
    let mut out = Bag::open(rt.alloc(), 4)?;
    let mut freed = Bag::open(rt.alloc(), 4)?;
    let mut shard = ClassShard::open(rt.alloc(), Class(2), ROW, 2)?;
    shard.add_fetch(span, 3, &mut out)?;
    shard.give(out.as_slice(), &mut freed);
    assert_eq!(rt; freed.as_slice(), [span].as_slice());
    out.clear();
    assert_eq!(rt; shard.fetch(1, &mut out), Fetched::Miss);
    Ok(())
}

#[test]
fn a_batch_of_128_from_one_page(rt: HostRuntime) -> Result<(), Fail> {
    // 170 objects of 48 bytes fill 8160 of the 8192 bytes.
    let row = ClassRow {
        size: 48,
        pages: 1,
        batch: 128,
    };
    let mut out = Bag::open(rt.alloc(), 128)?;
    let mut freed = Bag::open(rt.alloc(), 128)?;
    let mut shard = ClassShard::open(rt.alloc(), Class(2), row, 128)?;
    shard.add_fetch(span_at(256, 1), 128, &mut out)?;
    assert_eq!(rt; out.as_slice().len(), 128);

    // The transfer cache has room for exactly these, and gives the last one first.
    shard.give(out.as_slice(), &mut freed);
    assert_eq!(rt; freed.as_slice().len(), 0);
    out.clear();
    assert_eq!(rt; shard.fetch(128, &mut out), Fetched::Got);
    assert_eq!(rt; out.as_slice().len(), 128);
    assert_eq!(rt;
        out.as_slice().first().copied(),
        Some(Addr(2097152 + 48 * 127))
    );
    assert_eq!(rt; out.as_slice().last().copied(), Some(Addr(2097152)));
    out.clear();

    // The other 42 come from the span.
    assert_eq!(rt; shard.fetch(128, &mut out), Fetched::Got);
    assert_eq!(rt; out.as_slice().len(), 42);
    assert_eq!(rt;
        out.as_slice().first().copied(),
        Some(Addr(2097152 + 48 * 128))
    );
    assert_eq!(rt;
        out.as_slice().last().copied(),
        Some(Addr(2097152 + 48 * 169))
    );
    out.clear();
    assert_eq!(rt; shard.fetch(1, &mut out), Fetched::Miss);
    Ok(())
}
