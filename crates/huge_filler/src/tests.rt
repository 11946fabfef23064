//! Choices that were worked out by hand.
ghost use Rattle.std.specs.Prelude.{◌≤◌, IfSome};

use crate::{HugeFiller, Measures};
use std::test::Fail;
use tc_units::Huge;

/// A hugepage whose pages are all backed: its longest range of unused pages, its runs, its used pages.
fn backed(longest: u32, allocs: u32, used: u32) -> Option<Measures>
    ensures { IfSome result (λ its. its.tier ≤ 2) }
{
    Some(Measures {
        tier: 0,
        longest,
        allocs,
        used,
        spare: 256_u32.saturating_sub(used),
        donated: false,
    })
}

/// The donated tail of a larger run that has so many of its pages.
fn tail(used: u32) -> Option<Measures>
    ensures { IfSome result (λ its. its.tier ≤ 2) }
{
    Some(Measures {
        tier: 1,
        longest: 256_u32.saturating_sub(used),
        allocs: 1,
        used,
        spare: 256_u32.saturating_sub(used),
        donated: true,
    })
}

/// A hugepage that backs its used pages alone.
fn broken(longest: u32, used: u32, donated: bool) -> Option<Measures>
    ensures { IfSome result (λ its. its.tier ≤ 2) }
{
    Some(Measures {
        tier: 2,
        longest,
        allocs: 1,
        used,
        spare: 0,
        donated,
    })
}

#[test]
fn the_tightest_range_serves(rt: HostRuntime) -> Result<(), Fail> {
    let mut filler = HugeFiller::open(rt.alloc(), 4)?;
    assert_eq!(rt; filler.preferred(1), None);
    filler.set(Huge(4), backed(156, 1, 100));
    filler.set(Huge(2), backed(56, 1, 200));
    filler.set(Huge(1), backed(56, 2, 200));
    filler.set(Huge(3), backed(56, 2, 199));
    // The shortest range that is long enough, of equal ones most runs, of these the first.
    assert_eq!(rt; filler.preferred(50), Some(Huge(1)));
    assert_eq!(rt; filler.preferred(57), Some(Huge(4)));
    assert_eq!(rt; filler.preferred(157), None);
    filler.set(Huge(1), backed(6, 3, 250));
    assert_eq!(rt; filler.preferred(56), Some(Huge(3)));
    filler.set(Huge(3), None);
    assert_eq!(rt; filler.preferred(56), Some(Huge(2)));
    Ok(())
}

#[test]
fn a_donated_tail_serves_behind_others(rt: HostRuntime) -> Result<(), Fail> {
    let mut filler = HugeFiller::open(rt.alloc(), 3)?;
    filler.set(Huge(1), broken(10, 200, true));
    filler.set(Huge(2), tail(100));
    filler.set(Huge(3), backed(200, 1, 56));
    assert_eq!(rt; filler.preferred(10), Some(Huge(3)));
    assert_eq!(rt; filler.donated_free(), 212);
    filler.set(Huge(3), backed(9, 1, 247));
    assert_eq!(rt; filler.preferred(10), Some(Huge(2)));
    filler.set(Huge(2), tail(250));
    assert_eq!(rt; filler.preferred(10), Some(Huge(1)));
    assert_eq!(rt; filler.donated_free(), 62);
    filler.set(Huge(2), None);
    assert_eq!(rt; filler.donated_free(), 56);
    Ok(())
}

#[test]
fn the_fewest_used_pages_give_first(rt: HostRuntime) -> Result<(), Fail> {
    let mut filler = HugeFiller::open(rt.alloc(), 4)?;
    assert_eq!(rt; filler.candidate(), None);
    filler.set(Huge(1), backed(56, 1, 200));
    filler.set(Huge(2), backed(56, 1, 200));
    filler.set(Huge(3), backed(156, 1, 100));
    filler.set(Huge(4), broken(255, 1, false));
    assert_eq!(rt; filler.candidate(), Some(Huge(3)));
    filler.set(Huge(3), broken(156, 100, false));
    assert_eq!(rt; filler.candidate(), Some(Huge(2)));
    filler.set(Huge(2), broken(56, 200, false));
    assert_eq!(rt; filler.candidate(), Some(Huge(1)));
    filler.set(Huge(1), None);
    assert_eq!(rt; filler.candidate(), None);
    Ok(())
}

#[test]
fn the_first_and_the_last_of_4096(rt: HostRuntime) -> Result<(), Fail> {
    let mut filler = HugeFiller::open(rt.alloc(), 4096)?;
    filler.set(Huge(4096), backed(56, 1, 200));
    assert_eq!(rt; filler.preferred(56), Some(Huge(4096)));
    filler.set(Huge(1), backed(56, 1, 200));
    assert_eq!(rt; filler.preferred(56), Some(Huge(1)));
    assert_eq!(rt; filler.candidate(), Some(Huge(4096)));
    let mut one = HugeFiller::open(rt.alloc(), 1)?;
    one.set(Huge(1), tail(255));
    assert_eq!(rt; one.preferred(1), Some(Huge(1)));
    assert_eq!(rt; one.candidate(), Some(Huge(1)));
    assert_eq!(rt; one.donated_free(), 1);
    Ok(())
}

#[test]
fn no_hugepages(rt: HostRuntime) -> Result<(), Fail> {
    let mut filler = HugeFiller::open(rt.alloc(), 0)?;
    assert_eq!(rt; filler.preferred(0), None);
    assert_eq!(rt; filler.candidate(), None);
    assert_eq!(rt; filler.donated_free(), 0);
    Ok(())
}
