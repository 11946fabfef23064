//! Each public function, with answers that were worked out by hand.
ghost use Rattle.std.specs.Prelude.{◌≡◌, ◌≢◌, ℕ, ◌+◌, ◌<◌, ◌≤◌, ◌⊎◌, All, length};
ghost use Rattle.std.specs.Bool.{OnTrue};
ghost use Rattle.std.specs.List.{slice_index_or};
ghost use Rattle.tc_units.specs.declared.units.Addr.{Addr};
ghost use Rattle.central_free.specs.Central.{AreDifferent, IsApartFrom};

use super::{CentralFree, weight};
use std::test::Fail;
use tc_units::{Addr, Bag, Class, ClassRow, Page, SpanKind, SpanRef};

fn span_at(first: u32, pages: u32) -> SpanRef
    ensures { result.pages ≡ pages }
{
    SpanRef {
        first: Page(first),
        pages,
        kind: SpanKind::Small(Class(2)),
    }
}

#[test]
fn all_objects_of_a_span(rt: HostRuntime) -> Result<(), Fail> {
    let row = ClassRow {
        size: 48,
        pages: 1,
        batch: 128,
    };
    let mut central = CentralFree::new(rt.alloc(), row);
    let mut out = Bag::open(rt.alloc(), 256)?;
    assert_eq!(rt; central.take(3, &mut out), 0);

    // 170 objects of 48 bytes: 128 at once, then the other 42.
    assert_eq!(rt; central.add_take(span_at(256, 1), 128, &mut out)?, 128);
    assert_eq!(rt; central.take(0, &mut out), 0);
    assert_eq!(rt; central.take(60, &mut out), 42);
    assert_eq!(rt; central.take(1, &mut out), 0);
    assert_eq!(rt; out.as_slice().len(), 170);
    assert_eq!(rt;
        out.as_slice().last().copied(),
        Some(Addr(2097152 + 48 * 169))
    );
    Ok(())
}

#[test]
fn a_span_whose_objects_are_all_back_leaves(rt: HostRuntime) -> Result<(), Fail> {
    let row = ClassRow {
        size: 48,
        pages: 1,
        batch: 32,
    };
    let span = span_at(300, 1);
    let mut out = Bag::open(rt.alloc(), 3)?;
    let mut freed = Bag::open(rt.alloc(), 3)?;
    let mut central = CentralFree::new(rt.alloc(), row);
    let came = central.add_take(span, 3, &mut out)?;
    central.put(out.as_slice(), &mut freed);
    assert_eq!(rt; came, 3);
    assert_eq!(rt;
        out.as_slice(),
        [Addr(2457600), Addr(2457648), Addr(2457696)].as_slice()
    );
    assert_eq!(rt; freed.as_slice(), [span].as_slice());
    out.clear();
    assert_eq!(rt; central.take(1, &mut out), 0);
    Ok(())
}

/// Whether two spans have no page in common.
fn are_apart(span: SpanRef, other: SpanRef) -> bool
    ensures { OnTrue result ((span.first.0 + span.pages ≤ other.first.0) ⊎ (other.first.0 + other.pages ≤ span.first.0)) }
{
    let (first, other_first) = (u64::from(span.first.0), u64::from(other.first.0));
    first + u64::from(span.pages) <= other_first || other_first + u64::from(other.pages) <= first
}

/// Whether a span has no page of those of the list.
fn is_clear(central: &CentralFree, span: SpanRef) -> bool
    ensures { OnTrue result (All (IsApartFrom span) central.now.spans) }
{
    for slot in 0..central.ranking.len() {
        if let Some(other) = central.slots.get(slot) {
            if !are_apart(span, other.span()) {
                return false;
            }
        }
    }
    true
}

/// Whether the object at a place of a list stands nowhere else in it.
fn stands_once(list: &[Addr], place: usize) -> bool
    requires { place < length list.now }
    ensures { OnTrue result ((k : ℕ) (d : Addr) → k < length list.now → k ≢ place → slice_index_or list.now k d ≢ slice_index_or list.now place d) }
{
    let object = list[place];
    for (k, other) in list.iter().enumerate() {
        if k != place && other.0 == object.0 {
            return false;
        }
    }
    true
}

/// Whether no object of a list stands in it twice.
fn are_different(list: &[Addr]) -> bool
    ensures { OnTrue result (AreDifferent list.now) }
{
    for place in 0..list.len() {
        if !stands_once(list, place) {
            return false;
        }
    }
    true
}

#[test]
fn spans_leave_in_the_order_of_their_last_objects(rt: HostRuntime) -> Result<(), Fail> {
    // Two objects of 4 KiB in a span.
    let row = ClassRow {
        size: 4096,
        pages: 1,
        batch: 32,
    };
    let low = span_at(300, 1);
    let high = span_at(310, 1);
    let mut out = Bag::open(rt.alloc(), 4)?;
    let mut freed = Bag::open(rt.alloc(), 4)?;
    let mut central = CentralFree::new(rt.alloc(), row);
    let one = central.add_take(low, 1, &mut out)?;
    assert!(rt; is_clear(&central, high));
    let two = central.add_take(high, 2, &mut out)?;
    let last = central.take(1, &mut out);
    let list = out.as_slice();
    let listed = list.len();
    let different = are_different(list);
    assert!(rt; different && listed <= 4);
    central.put(list, &mut freed);
    assert_eq!(rt; (one, two, last), (1, 2, 1));
    assert_eq!(rt;
        list,
        [Addr(2457600), Addr(2539520), Addr(2543616), Addr(2461696)].as_slice()
    );

    // The lower span's last object comes behind the higher one's.
    assert_eq!(rt; freed.as_slice(), [high, low].as_slice());
    out.clear();
    assert_eq!(rt; central.take(1, &mut out), 0);
    Ok(())
}

/// The slot of the span that serves next, by looking at every span in the order of first bytes.
fn scanned(central: &CentralFree) -> Option<usize> {
    let mut best = None;
    let mut most = 0;
    for (_, slot) in &central.order {
        let slot = *slot as usize;
        if let Some(span) = central.slots.get(slot) {
            let heavy = weight(span);
            if heavy > most {
                most = heavy;
                best = Some(slot);
            }
        }
    }
    best
}

#[test]
fn the_most_taken_span_serves_and_the_lowest_of_equals(rt: HostRuntime) -> Result<(), Fail> {
    // Four objects of 2 KiB in a span. The spans are added in falling order, but for one.
    let row = ClassRow {
        size: 2048,
        pages: 1,
        batch: 32,
    };
    let mut central = CentralFree::new(rt.alloc(), row);
    for (first, n) in [(340, 1), (330, 2), (320, 4), (310, 2), (300, 1), (305, 2)] {
        let span = span_at(first, u32::from(central.row.pages));
        assert!(rt; is_clear(&central, span));
        let mut out = Bag::open(rt.alloc(), 4)?;
        central.add_take(span, n, &mut out)?;
        assert_eq!(rt; central.ranking.best(), scanned(&central));
    }

    // Of the spans with two taken objects the one at 305 begins first; then it has three and goes on.
    for page in [305, 305, 310, 310, 330, 330, 300, 300, 300, 340, 340, 340] {
        let mut out = Bag::open(rt.alloc(), 1)?;
        assert_eq!(rt; central.ranking.best(), scanned(&central));
        assert_eq!(rt; central.take(1, &mut out), 1);
        assert_eq!(rt;
            out.as_slice().first().map(|object| object.0 / 8192),
            Some(page)
        );
    }
    let mut out = Bag::open(rt.alloc(), 1)?;
    assert_eq!(rt; central.ranking.best(), None);
    assert_eq!(rt; central.take(1, &mut out), 0);
    Ok(())
}
