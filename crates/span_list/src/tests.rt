//! Each public function, with answers that were worked out by hand.
ghost use Rattle.std.specs.Prelude.{◌≡◌};

use crate::Span;
use std::test::Fail;
use tc_units::{Addr, Class, Page, SpanKind, SpanRef};

fn span_at(first: u32, pages: u32) -> SpanRef
    ensures { result.pages ≡ pages }
{
    SpanRef {
        first: Page(first),
        pages,
        kind: SpanKind::Small(Class(2)),
    }
}

#[test]
fn objects_that_do_not_fill_their_page(rt: HostRuntime) -> Result<(), Fail> {
    // 170 objects of 48 bytes fill 8160 of the 8192 bytes.
    let mut span = Span::new(rt.alloc(), span_at(256, 1), 48)?;
    assert_eq!(rt; span.span(), span_at(256, 1));
    assert_eq!(rt; span.free(), 170);
    assert_eq!(rt; span.taken(), 0);
    for i in 0..170 {
        assert_eq!(rt; span.take(), Some(Addr(2097152 + 48 * i)));
    }
    assert_eq!(rt; span.take(), None);
    assert_eq!(rt; span.free(), 0);
    assert_eq!(rt; span.taken(), 170);
    Ok(())
}

#[test]
fn one_object_as_large_as_its_span(rt: HostRuntime) -> Result<(), Fail> {
    let mut span = Span::new(rt.alloc(), span_at(300, 2), 16384)?;
    assert_eq!(rt; span.free(), 1);
    assert_eq!(rt; span.take(), Some(Addr(2457600)));
    assert_eq!(rt; span.take(), None);
    Ok(())
}

#[test]
fn the_least_free_object_comes_first(rt: HostRuntime) -> Result<(), Fail> {
    // Three objects of 2720 bytes fill 8160 of the 8192 bytes.
    let mut span = Span::new(rt.alloc(), span_at(512, 1), 2720)?;
    assert_eq!(rt; span.free(), 3);
    if let Some(first) = span.take() {
        assert_eq!(rt; first, Addr(4194304));
        if let Some(second) = span.take() {
            assert_eq!(rt; second, Addr(4197024));
            assert_eq!(rt; span.taken(), 2);
            assert!(rt; !span.put(first));
            assert_eq!(rt; span.free(), 2);
            assert_eq!(rt; span.take(), Some(Addr(4194304)));
            assert_eq!(rt; span.take(), Some(Addr(4199744)));
            assert_eq!(rt; span.take(), None);
        }
    }
    Ok(())
}

#[test]
fn all_are_back(rt: HostRuntime) -> Result<(), Fail> {
    // 130 objects of 63 bytes fill 8190 of the 8192 bytes, and take three words of bits.
    let mut span = Span::new(rt.alloc(), span_at(256, 1), 63)?;
    for _ in 0..129 {
        assert!(rt; span.take().is_some());
    }
    if let Some(last) = span.take() {
        assert_eq!(rt; last, Addr(2097152 + 63 * 129));
        assert_eq!(rt; span.free(), 0);
        assert!(rt; !span.put(last));
        assert_eq!(rt; span.take(), Some(last));
    }
    let mut one = Span::new(rt.alloc(), span_at(300, 255), 2088960)?;
    if let Some(object) = one.take() {
        assert_eq!(rt; object, Addr(2457600));
        assert!(rt; one.put(object));
        assert_eq!(rt; one.free(), 1);
    }
    Ok(())
}
