//! What a cache and its rows answer, worked out by hand.
ghost use Rattle.std.specs.Prelude.{◌≡◌, ◌<◌, All, IfOk, length};
ghost use Rattle.thread_cache.specs.Cache.{opened};

use crate::{CachePart, CacheRow, CacheSeat, act_cache};
use call_steps::{Asking, Freeing, Giving, Next, Serving};
use rseq_core::Regs;
use size_classes::ClassTable;
use std::alloc::{AllocError, Global};
use std::test::Fail;
use tc_units::{Addr, Class, ClassRow, Label, ThreadNo};

/// A free of the object at 8.
const FREEING: Freeing = Freeing {
    label: Label(0),
    addr: Addr(8),
};

/// Two classes, of 16 and of 40 bytes.
fn rows() -> [ClassRow; 2]
    ensures sizes { All (λ row. 0 < row.size) result }
    ensures two { length result ≡ 2 }
{
    let row = ClassRow {
        size: 16,
        pages: 1,
        batch: 2,
    };
    [row, ClassRow { size: 40, ..row }]
}

/// An empty cache for a table.
fn cache_of(alloc: Global, table: &ClassTable, limit: u64) -> Result<CachePart, AllocError>
    ensures { IfOk result (λ cache. cache ≡ opened table.now limit) }
{
    CachePart::open(alloc, table.rows(), limit)
}

#[test]
fn adds_what_fits(rt: HostRuntime) -> Result<(), Fail> {
    let mut cache = CachePart::open(rt.alloc(), rows().as_slice(), 100)?;
    let list = [Addr(8), Addr(16), Addr(24), Addr(32)];

    // Two of 40 bytes leave 20 of 100 bytes, into which one of 16 goes, and then none.
    assert_eq!(rt; cache.add(Class(1), list.as_slice()), Ok(2));
    assert_eq!(rt; cache.bytes(), 80);
    assert_eq!(rt; cache.add(Class(0), list.as_slice()), Ok(1));
    assert_eq!(rt; cache.bytes(), 96);
    assert_eq!(rt; cache.add(Class(0), list.as_slice()), Ok(0));
    Ok(())
}

#[test]
fn takes_the_last(rt: HostRuntime) -> Result<(), Fail> {
    let mut cache = CachePart::open(rt.alloc(), rows().as_slice(), 100)?;
    assert_eq!(rt; cache.pop(Class(1)), None);
    assert_eq!(rt; cache.add(Class(1), [Addr(8), Addr(16)].as_slice()), Ok(2));
    assert_eq!(rt; cache.pop(Class(1)), Some(Addr(16)));
    assert_eq!(rt; cache.bytes(), 40);
    Ok(())
}

#[test]
fn gives_up_what_it_does_not_use(rt: HostRuntime) -> Result<(), Fail> {
    let mut cache = CachePart::open(rt.alloc(), rows().as_slice(), 100)?;
    assert_eq!(rt; cache.add(Class(1), [Addr(8)].as_slice()), Ok(1));
    assert_eq!(rt; cache.give_up(32), 32);
    assert_eq!(rt; cache.limit(), 68);
    assert_eq!(rt; cache.give_up(32), 28);
    assert_eq!(rt; cache.limit(), 40);
    assert_eq!(rt; cache.give_up(32), 0);
    cache.raise(16);
    assert_eq!(rt; cache.limit(), 56);
    Ok(())
}

#[test]
fn victims_are_asked_in_turn(rt: HostRuntime) -> Result<(), Fail> {
    // Of four threads the third asks the fourth, the first, the second, and begins again.
    let mut seat = CacheSeat::new(ThreadNo(2), 4);
    assert_eq!(rt; seat.place(CacheRow::Add(FREEING)), 2);
    for victim in [3, 0, 1, 3] {
        assert_eq!(rt; seat.place(CacheRow::Ask(FREEING)), victim);
        seat.pass();
    }
    Ok(())
}

#[test]
fn what_was_fetched_is_added_as_it_fits(rt: HostRuntime) -> Result<(), Fail> {
    let table = ClassTable::read(rt.alloc(), b"16,1,4\n").expect(&rt, "a table");
    let mut cache = cache_of(rt.alloc(), &table, 16)?;
    let mut seat = CacheSeat::new(ThreadNo(0), 2);
    let mut regs = Regs::open(rt.alloc(), ThreadNo(0))?;
    regs.hand.push(Addr(8));
    regs.hand.push(Addr(24));
    let serving = Serving {
        label: Label(0),
        addr: Addr(40),
    };
    let row = CacheRow::Stock(serving);
    let next = act_cache(&table, &mut cache, &mut seat, &mut regs, row)?;
    assert_eq!(rt; next, Next::Give(Giving::Rest(serving)));
    assert_eq!(rt; regs.hand.as_slice(), [Addr(24)].as_slice());
    assert_eq!(rt; cache.bytes(), 16);
    Ok(())
}

#[test]
fn a_free_takes_limit_from_another_thread(rt: HostRuntime) -> Result<(), Fail> {
    let table = ClassTable::read(rt.alloc(), b"16,1,4\n").expect(&rt, "a table");
    let mut other = cache_of(rt.alloc(), &table, 20)?;
    let mut seat = CacheSeat::new(ThreadNo(0), 2);
    let mut regs = Regs::open(rt.alloc(), ThreadNo(0))?;
    regs.hand.push(Addr(8));
    let row = CacheRow::Ask(FREEING);
    let next = act_cache(&table, &mut other, &mut seat, &mut regs, row)?;
    let raise = CacheRow::Raise {
        freeing: FREEING,
        given: 20,
    };
    assert_eq!(rt; next, Next::Row(raise));
    assert_eq!(rt; other.limit(), 0);

    let mut own = cache_of(rt.alloc(), &table, 8)?;
    let next = act_cache(&table, &mut own, &mut seat, &mut regs, raise)?;
    let again = CacheRow::AddAgain(FREEING);
    assert_eq!(rt; next, Next::Row(again));
    assert_eq!(rt; own.limit(), 28);
    let next = act_cache(&table, &mut own, &mut seat, &mut regs, again)?;
    assert_eq!(rt; next, Next::Freed(FREEING));
    assert_eq!(rt; own.bytes(), 16);
    Ok(())
}

#[test]
fn a_batch_goes_with_an_object_that_does_not_fit(rt: HostRuntime) -> Result<(), Fail> {
    let table = ClassTable::read(rt.alloc(), b"16,1,2\n").expect(&rt, "a table");
    let mut cache = cache_of(rt.alloc(), &table, 50)?;
    let list = [Addr(24), Addr(40), Addr(56)];
    assert_eq!(rt; cache.add(Class(0), list.as_slice()), Ok(3));
    let mut seat = CacheSeat::new(ThreadNo(0), 1);
    let mut regs = Regs::open(rt.alloc(), ThreadNo(0))?;
    regs.hand.push(Addr(8));
    let next = act_cache(
        &table,
        &mut cache,
        &mut seat,
        &mut regs,
        CacheRow::Trim(FREEING),
    )?;
    assert_eq!(rt; next, Next::Give(Giving::Freed(FREEING)));
    assert_eq!(rt;
        regs.hand.as_slice(),
        [Addr(8), Addr(56), Addr(40)].as_slice()
    );
    assert_eq!(rt; cache.bytes(), 16);
    Ok(())
}

#[test]
fn an_allocation_pops(rt: HostRuntime) -> Result<(), Fail> {
    let table = ClassTable::read(rt.alloc(), b"16,1,2\n").expect(&rt, "a table");
    let mut cache = cache_of(rt.alloc(), &table, 50)?;
    assert_eq!(rt; cache.add(Class(0), [Addr(8), Addr(24)].as_slice()), Ok(2));
    let mut seat = CacheSeat::new(ThreadNo(0), 1);
    let mut regs = Regs::open(rt.alloc(), ThreadNo(0))?;
    let asking = Asking {
        label: Label(1),
        size: 16,
    };
    let next = act_cache(
        &table,
        &mut cache,
        &mut seat,
        &mut regs,
        CacheRow::Pop(asking),
    )?;
    assert_eq!(rt; next, Next::Serve(asking));
    assert_eq!(rt; regs.hand.as_slice(), [Addr(24)].as_slice());
    Ok(())
}
