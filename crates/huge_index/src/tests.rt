//! Keys whose order was worked out by hand.
ghost use Rattle.std.specs.Prelude.{◌≡◌, ◌<◌};

use crate::{HugeIndex, Key, Steps};
use std::marker::Brand;
use std::sync::ledger::{Blank, Ledger};
use std::test::Fail;
use tc_units::Huge;

/// Asks for the first of a tier from `n` pages on.
fn first<L: Ledger>(index: &HugeIndex, tier: u8, n: u32, blank: Blank) -> Option<Huge>
    requires name { blank.name ≡ L.name }
    requires parts { blank.parts ≡ L.parts }
    requires some { 0 < L.parts }
{
    index.first_from(tier, n, &mut Steps::<L>::new(blank))
}

#[test]
fn the_first_of_a_tier(rt: HostRuntime) -> Result<(), Fail> {
    let mut index = HugeIndex::open(rt.alloc(), 5)?;
    assert_eq!(rt; first::<Brand>(&index, 0, 1, Blank::new(1)), None);
    index.insert(0, 10, 3, Huge(5));
    index.insert(0, 10, 7, Huge(2));
    index.insert(1, 200, 1, Huge(7));
    index.insert(0, 4, 1, Huge(9));
    index.insert(0, 10, 7, Huge(1));
    // The shortest range of tier 0 has 4 pages. Two of 10 pages have most runs.
    assert_eq!(rt; first::<Brand>(&index, 0, 1, Blank::new(1)), Some(Huge(9)));
    assert_eq!(rt; first::<Brand>(&index, 0, 5, Blank::new(1)), Some(Huge(1)));
    assert_eq!(rt; first::<Brand>(&index, 0, 11, Blank::new(1)), None);
    assert_eq!(rt;
        first::<Brand>(&index, 1, 200, Blank::new(1)),
        Some(Huge(7))
    );
    assert_eq!(rt; first::<Brand>(&index, 1, 201, Blank::new(1)), None);
    assert_eq!(rt; first::<Brand>(&index, 2, 1, Blank::new(1)), None);
    // Behind all tiers that serve.
    let first_key = |tier, longest, allocs| Key {
        tier,
        longest,
        allocs,
        huge: Huge(1),
    };
    index.rekey(first_key(0, 10, 7), first_key(3, 0, 0));
    assert_eq!(rt; first::<Brand>(&index, 0, 5, Blank::new(1)), Some(Huge(2)));
    Ok(())
}

#[test]
fn more_runs_come_first_among_equal_ranges(rt: HostRuntime) -> Result<(), Fail> {
    let mut index = HugeIndex::open(rt.alloc(), 3)?;
    index.insert(0, 2, 2, Huge(2));
    index.insert(0, 2, 1, Huge(1));
    index.insert(1, 9, 1, Huge(3));
    assert_eq!(rt; first::<Brand>(&index, 0, 2, Blank::new(1)), Some(Huge(2)));
    assert_eq!(rt; first::<Brand>(&index, 0, 3, Blank::new(1)), None);
    assert_eq!(rt; first::<Brand>(&index, 1, 3, Blank::new(1)), Some(Huge(3)));
    Ok(())
}

#[test]
fn new_measures_move_a_hugepage(rt: HostRuntime) -> Result<(), Fail> {
    let mut index = HugeIndex::open(rt.alloc(), 3)?;
    index.insert(0, 10, 1, Huge(1));
    index.insert(0, 20, 1, Huge(2));
    index.insert(0, 15, 1, Huge(3));
    let third = |longest| Key {
        tier: 0,
        longest,
        allocs: 1,
        huge: Huge(3),
    };
    // From the middle to the front, and from there to the end.
    index.rekey(third(15), third(5));
    assert_eq!(rt; first::<Brand>(&index, 0, 1, Blank::new(1)), Some(Huge(3)));
    assert_eq!(rt; first::<Brand>(&index, 0, 6, Blank::new(1)), Some(Huge(1)));
    index.rekey(third(5), third(30));
    assert_eq!(rt; first::<Brand>(&index, 0, 1, Blank::new(1)), Some(Huge(1)));
    assert_eq!(rt; first::<Brand>(&index, 0, 11, Blank::new(1)), Some(Huge(2)));
    assert_eq!(rt; first::<Brand>(&index, 0, 21, Blank::new(1)), Some(Huge(3)));
    Ok(())
}
