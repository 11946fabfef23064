//! Growth and capacities, with numbers that were worked out by hand.
ghost use Rattle.std.specs.Prelude.{◌≡◌, ◌<◌, ◌≤◌, length, IfOk};

use crate::{CapFault, Slab};
use std::alloc::{AllocError, Global};
use std::process::Abort;
use std::test::Fail;
use tc_units::{Addr, Class, ClassRow};

/// Three classes of 16, 32 and 40 bytes, which grow by 4, 2 and 1.
fn three(alloc: Global, most: u32, limit: u64) -> Result<Slab, AllocError>
    requires some { 0 < most }
    requires most { most ≤ 2048 }
    requires limit { limit ≤ 268435456 }
    ensures classes { IfOk result (λ slab. length slab.rows ≡ 3) }
    ensures slots { IfOk result (λ slab. slab.most ≡ most) }
{
    let rows = [(16, 4), (32, 2), (40, 1)].map(|(size, batch)| ClassRow {
        size,
        pages: 1,
        batch,
    });
    Slab::open(alloc, &rows, most, limit)
}

/// Whether a class grows, and all capacities then.
fn grows(rt: &impl Abort, slab: &mut Slab, class: u8, grew: bool, caps: [u32; 3])
    requires class { class < 3 }
    requires classes { length slab.old.rows ≡ 3 }
    ensures { length slab.new.rows ≡ 3 }
{
    assert_eq!(rt; slab.grow(Class(class)), grew, "class {class}");
    let found = [slab.cap(Class(0)), slab.cap(Class(1)), slab.cap(Class(2))];
    assert_eq!(rt; found, caps, "class {class}");
}

#[test]
fn grows_from_the_budget_or_a_victim(rt: HostRuntime) -> Result<(), Fail> {
    let mut slab = three(rt.alloc(), 8, 128)?;
    grows(&rt, &mut slab, 0, true, [4, 0, 0]);
    grows(&rt, &mut slab, 1, true, [4, 2, 0]);
    // Both others have 64 bytes unused: the least class gives 48 of the 40 that are short.
    grows(&rt, &mut slab, 2, true, [1, 2, 1]);
    // The second has most, and gives one place.
    grows(&rt, &mut slab, 2, true, [1, 1, 2]);
    // Its place is in use, and the first has 16 bytes of the 40.
    slab.set_top(Class(1), slab.cap(Class(1)));
    grows(&rt, &mut slab, 2, false, [1, 1, 2]);
    Ok(())
}

#[test]
fn grows_up_to_its_slots(rt: HostRuntime) -> Result<(), Fail> {
    let mut slab = three(rt.alloc(), 5, 1000)?;
    grows(&rt, &mut slab, 0, true, [4, 0, 0]);
    grows(&rt, &mut slab, 0, true, [5, 0, 0]);
    grows(&rt, &mut slab, 0, false, [5, 0, 0]);
    Ok(())
}

/// The answer to a capacity of a class without objects, and the capacity then.
fn sets(
    rt: &impl Abort,
    slab: &mut Slab,
    class: Class,
    n: u32,
    answer: Result<(), CapFault>,
    cap: u32,
)
    requires class { class.0 < length slab.old.rows }
    ensures classes { length slab.new.rows ≡ length slab.old.rows }
    ensures slots { slab.new.most ≡ slab.old.most }
{
    assert_eq!(rt; slab.top(class), 0);
    assert_eq!(rt; slab.set_cap(class, n), answer, "{n}");
    assert_eq!(rt; slab.cap(class), cap, "{n}");
}

#[test]
fn sets_and_refuses_capacities(rt: HostRuntime) -> Result<(), Fail> {
    let mut slab = three(rt.alloc(), 5, 64)?;
    let first = Class(0);
    let over = CapFault::OverStatic { cap: 5 };
    sets(&rt, &mut slab, first, 6, Err(over), 0);
    sets(&rt, &mut slab, first, 3000, Err(over), 0);
    sets(
        &rt,
        &mut slab,
        first,
        5,
        Err(CapFault::OverLimit { sum: 80 }),
        0,
    );
    sets(&rt, &mut slab, first, 4, Ok(()), 4);
    sets(
        &rt,
        &mut slab,
        Class(1),
        1,
        Err(CapFault::OverLimit { sum: 96 }),
        0,
    );
    sets(&rt, &mut slab, first, 2, Ok(()), 2);
    sets(&rt, &mut slab, Class(1), 1, Ok(()), 1);
    Ok(())
}

#[test]
fn stores_one_place(rt: HostRuntime) -> Result<(), Fail> {
    let mut slab = three(rt.alloc(), 2, 1000)?;
    sets(&rt, &mut slab, Class(1), 2, Ok(()), 2);
    assert!(rt; slab.cap(Class(1)) == 2);
    slab.set_slot(Class(1), 1, Addr(96));
    slab.set_top(Class(1), 2);
    for (class, i, addr) in [(0, 1, 0), (1, 0, 0), (1, 1, 96), (2, 0, 0)] {
        assert_eq!(rt; slab.slot(Class(class), i), Addr(addr), "{class} {i}");
    }
    assert_eq!(rt; slab.top(Class(1)), 2);
    assert_eq!(rt; slab.top(Class(2)), 0);
    Ok(())
}

/// Stores an address in a slot of the second class, and compares what all its slots hold then.
fn stores(rt: &impl Abort, slab: &mut Slab, i: u32, addr: u64, slots: [u64; 6])
    requires classes { length slab.old.rows ≡ 3 }
    requires slots { slab.old.most ≡ 6 }
    ensures classes { length slab.new.rows ≡ 3 }
    ensures slots { slab.new.most ≡ 6 }
{
    let class = Class(1);
    assert!(rt; i < slab.cap(class));
    slab.set_slot(class, i, Addr(addr));
    for place in 0..6 {
        assert_eq!(rt;
            slab.slot(class, place),
            Addr(slots[place as usize]),
            "{i} {place}"
        );
    }
}

#[test]
fn stores_above_what_was_written(rt: HostRuntime) -> Result<(), Fail> {
    let mut slab = three(rt.alloc(), 6, 1000)?;
    sets(&rt, &mut slab, Class(1), 3, Ok(()), 3);
    stores(&rt, &mut slab, 1, 64, [0, 64, 0, 0, 0, 0]);
    sets(&rt, &mut slab, Class(1), 6, Ok(()), 6);
    stores(&rt, &mut slab, 4, 96, [0, 64, 0, 0, 96, 0]);
    stores(&rt, &mut slab, 3, 128, [0, 64, 0, 128, 96, 0]);
    stores(&rt, &mut slab, 5, 32, [0, 64, 0, 128, 96, 32]);
    stores(&rt, &mut slab, 1, 160, [0, 160, 0, 128, 96, 32]);
    assert_eq!(rt; slab.slot(Class(0), 1), Addr(0));
    assert_eq!(rt; slab.slot(Class(2), 4), Addr(0));
    Ok(())
}
