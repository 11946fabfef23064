//! Regions whose runs were worked out by hand.
ghost use Rattle.std.specs.Prelude.{◌≤◌};

use crate::HugeRegions;
use std::test::Fail;
use tc_units::{Huge, Run};

/// What is done to regions, or asked of them.
#[derive(Clone, Copy, Debug)]
enum Step {
    Take(u32),
    Last(u16),
}

/// The first page of a run that comes, or 0.
fn take(regions: &mut HugeRegions, n: u32) -> u32 {
    if n == 0 {
        return 0;
    }
    match regions.place(n) {
        Some(page) => {
            regions.join(page, n);
            page.0
        }
        None => 0,
    }
}

/// A hugepage, or 0.
fn number(huge: Option<Huge>) -> u32
    ensures { result ≤ 65535 }
{
    match huge {
        Some(huge) => u32::from(huge.0),
        None => 0,
    }
}

fn answer(regions: &mut HugeRegions, step: Step) -> u32 {
    match step {
        Step::Take(n) => take(regions, n),
        Step::Last(huge) => number(regions.last_upto(Huge(huge))),
    }
}

/// Whether each step gives its answer.
fn all_answer(regions: &mut HugeRegions, steps: &[(Step, u32)]) -> bool {
    for (step, expected) in steps {
        if answer(regions, *step) != *expected {
            return false;
        }
    }
    true
}

#[test]
fn two_regions_of_two_hugepages(rt: HostRuntime) -> Result<(), Fail> {
    let mut regions = HugeRegions::open(rt.alloc(), 9, 2)?;
    regions.open_region(Huge(6));
    regions.open_region(Huge(3));
    let steps = [
        (Step::Last(9), 7),
        (Step::Last(6), 6),
        (Step::Last(5), 4),
        (Step::Last(2), 0),
        (Step::Take(513), 0),
        // Both have 512 unused pages: the first one gets the run, from page 768 on.
        (Step::Take(200), 768),
        // It has 312 left, which is tighter.
        (Step::Take(100), 968),
        // 212 are left: these go to the other one, from page 1536 on.
        (Step::Take(213), 1536),
        (Step::Take(300), 0),
        (Step::Take(212), 1068),
        (Step::Take(1), 1749),
        (Step::Last(u16::MAX), 7),
    ];
    assert!(rt; all_answer(&mut regions, &steps));
    Ok(())
}

#[test]
fn the_last_64_hugepages(rt: HostRuntime) -> Result<(), Fail> {
    let mut regions = HugeRegions::open(rt.alloc(), 4096, 64)?;
    regions.open_region(Huge(4033));
    let steps = [
        (Step::Last(4032), 0),
        (Step::Last(4033), 4033),
        (Step::Last(4096), 4096),
        // 16,384 pages, from page 4033 * 256 on.
        (Step::Take(16_385), 0),
        (Step::Take(16_383), 1_032_448),
        (Step::Take(2), 0),
        (Step::Take(1), 1_048_831),
        (Step::Take(1), 0),
    ];
    assert!(rt; all_answer(&mut regions, &steps));
    Ok(())
}

/// A run that comes and leaves at once: 1, and more where its region has no used page then.
fn pass_through(regions: &mut HugeRegions, n: u32) -> u32 {
    if n == 0 {
        return 0;
    }
    match regions.place(n) {
        Some(first) => {
            regions.join(first, n);
            1 + number(regions.leave(Run { first, pages: n }))
        }
        None => 0,
    }
}

#[test]
fn what_comes_may_leave(rt: HostRuntime) -> Result<(), Fail> {
    let mut regions = HugeRegions::open(rt.alloc(), 4096, 512)?;
    regions.open_region(Huge(2));
    assert_eq!(rt; pass_through(&mut regions, 131_073), 0);
    assert_eq!(rt; pass_through(&mut regions, 131_072), 3);
    assert_eq!(rt; take(&mut regions, 1), 512);
    assert_eq!(rt; pass_through(&mut regions, 131_072), 0);
    assert_eq!(rt; pass_through(&mut regions, 131_071), 1);
    assert_eq!(rt; take(&mut regions, 131_071), 513);
    Ok(())
}

#[test]
fn regions_open_and_close(rt: HostRuntime) -> Result<(), Fail> {
    let mut regions = HugeRegions::open(rt.alloc(), 4, 2)?;
    regions.open_region(Huge(2));
    assert_eq!(rt; number(regions.last_upto(Huge(4))), 3);
    regions.close_region(Huge(2));
    assert_eq!(rt; number(regions.last_upto(Huge(4))), 0);
    assert_eq!(rt; take(&mut regions, 1), 0);
    Ok(())
}
