//! The acts at a cache, and what comes behind them.
ghost use Rattle.std.specs.Prelude.{◌≡◌, ◌<◌, ◌≤◌, ◌^◌, false, [], length, IfOk, OnOk, OnErr};
ghost use Rattle.call_steps.specs.Fits.{FitsBatch};
ghost use Rattle.call_steps.specs.Follows.{ComesWith, HasObject};
ghost use Rattle.rseq_core.specs.Bags.{appended};
ghost use Rattle.transfer_cache.specs.Transfer.{last_first};
ghost use Rattle.call_steps.specs.Local.{row_of};
ghost use Rattle.thread_cache.specs.Cache.{objects_of, trimmed};
ghost use Rattle.thread_cache.specs.Rows.{about_row, stocked, left_in, popped, after_stock, after_add, after_again, after_ask, cache_acts};
ghost use Rattle.call_steps.specs.declared.step.Giving.TheVariants.{Freed};
ghost use Rattle.call_steps.specs.declared.step.Next.TheVariants.{Give};
ghost use Rattle.thread_cache.specs.declared.row.CacheRow.TheVariants.{Ask};
ghost use Rattle.thread_cache.specs.Fits.{FitsCache};

use crate::cache::CachePart;
use crate::row::CacheRow;
use crate::seat::CacheSeat;
use call_steps::{Asking, Freeing, Giving, Next, Serving};
use rseq_core::Regs;
use size_classes::ClassTable;
use std::alloc::AllocError;

/// The act of a row at a cache, and what comes behind it. Want of memory changes nothing.
pub fn act_cache(
    table: &ClassTable,
    cache: &mut CachePart,
    seat: &mut CacheSeat,
    regs: &mut Regs,
    row: CacheRow,
) -> Result<Next<CacheRow>, AllocError>
    requires { FitsCache table.now cache.old seat.old regs.old row }
    ensures cache { OnOk result (cache.new ≡ (cache_acts table.now cache.old seat.old regs.old row).part) }
    ensures seat { OnOk result (seat.new ≡ (cache_acts table.now cache.old seat.old regs.old row).seat) }
    ensures regs { OnOk result (regs.new ≡ (cache_acts table.now cache.old seat.old regs.old row).regs) }
    ensures next { IfOk result (λ n. n ≡ (cache_acts table.now cache.old seat.old regs.old row).next) }
    ensures may { IfOk result (ComesWith about_row (λ r answer. false) (HasObject table.now) row regs.new) }
    ensures err { OnErr result ((cache.new ≡ cache.old) × (seat.new ≡ seat.old) × (regs.new ≡ regs.old)) }
{
    match row {
        CacheRow::Pop(asking) => Ok(pop(cache, regs, asking)),
        CacheRow::Stock(serving) => {
            stock(cache, regs)?;
            Ok(after_stock(regs, serving))
        }
        CacheRow::Add(freeing) => {
            stock(cache, regs)?;
            Ok(after_add(seat, regs, freeing))
        }
        CacheRow::Ask(freeing) => Ok(ask(table, cache, seat, regs, freeing)),
        CacheRow::Raise { freeing, given } => {
            cache.raise(given);
            Ok(Next::Row(CacheRow::AddAgain(freeing)))
        }
        CacheRow::AddAgain(freeing) => {
            stock(cache, regs)?;
            Ok(after_again(regs, freeing))
        }
        CacheRow::Trim(freeing) => Ok(trim(table, cache, regs, freeing)),
    }
}

/// An allocation pops an object, or is to fetch.
fn pop(cache: &mut CachePart, regs: &mut Regs, asking: Asking) -> Next<CacheRow>
    requires class { regs.old.class.0 < length cache.old.stacks }
    requires room { 0 < regs.old.hand.spare }
    ensures cache { cache.new ≡ trimmed cache.old regs.old.class.0 1 }
    ensures regs { regs.new ≡ (popped cache.old regs.old asking (last_first 1 (objects_of cache.old regs.old.class.0))).1 }
    ensures next { result ≡ (popped cache.old regs.old asking (last_first 1 (objects_of cache.old regs.old.class.0))).2 }
{
    match cache.pop(regs.class) {
        Some(object) => {
            regs.hand.push(object);
            Next::Serve(asking)
        }
        None => Next::Fetch(asking),
    }
}

/// As much of the hand's begin as fits goes to the cache.
fn stock(cache: &mut CachePart, regs: &mut Regs) -> Result<(), AllocError>
    requires class { regs.old.class.0 < length cache.old.stacks }
    requires short { length regs.old.hand.items < 2 ^ 32 }
    ensures cache { OnOk result (cache.new ≡ stocked cache.old regs.old) }
    ensures regs { OnOk result (regs.new ≡ left_in cache.old regs.old) }
    ensures err { OnErr result ((cache.new ≡ cache.old) × (regs.new ≡ regs.old)) }
{
    let count = cache.add(regs.class, regs.hand.as_slice())?;
    regs.hand.drop_front(count as usize);
    Ok(())
}

/// An allocation publishes, where all went, and else gives the rest to the shard.
fn after_stock(regs: &Regs, serving: Serving) -> Next<CacheRow>
    ensures { result ≡ after_stock regs.now.hand.items serving }
{
    if regs.hand.as_slice().is_empty() {
        Next::Publish(serving)
    } else {
        Next::Give(Giving::Rest(serving))
    }
}

/// A free ends, where its object went, and else asks a victim, where there is one.
fn after_add(seat: &CacheSeat, regs: &Regs, freeing: Freeing) -> Next<CacheRow>
    ensures { result ≡ after_add seat.now.caches regs.now.hand.items freeing }
{
    if regs.hand.as_slice().is_empty() {
        Next::Freed(freeing)
    } else if seat.caches > 1 {
        Next::Row(CacheRow::Ask(freeing))
    } else {
        Next::Row(CacheRow::Trim(freeing))
    }
}

/// A free ends, where its object went, and else takes a batch out.
fn after_again(regs: &Regs, freeing: Freeing) -> Next<CacheRow>
    ensures { result ≡ after_again regs.now.hand.items freeing }
{
    if regs.hand.as_slice().is_empty() {
        Next::Freed(freeing)
    } else {
        Next::Row(CacheRow::Trim(freeing))
    }
}

/// A victim gives up the bytes of a batch at most. Where it has none unused, the free takes a batch out.
fn ask(
    table: &ClassTable,
    victim: &mut CachePart,
    seat: &mut CacheSeat,
    regs: &Regs,
    freeing: Freeing,
) -> Next<CacheRow>
    requires { regs.now.class.0 < length table.now }
    ensures cache { victim.new ≡ (cache_acts table.now victim.old seat.old regs.now (Ask freeing)).part }
    ensures seat { seat.new ≡ (cache_acts table.now victim.old seat.old regs.now (Ask freeing)).seat }
    ensures next { result ≡ (cache_acts table.now victim.old seat.old regs.now (Ask freeing)).next }
{
    let row = table.row(regs.class);
    let given = victim.give_up(u64::from(row.batch) * u64::from(row.size));
    seat.pass();
    if given == 0 {
        Next::Row(CacheRow::Trim(freeing))
    } else {
        Next::Row(CacheRow::Raise { freeing, given })
    }
}

/// A batch is taken out, behind the object of the free, and all of the hand is to be given to the shard.
fn trim(
    table: &ClassTable,
    cache: &mut CachePart,
    regs: &mut Regs,
    freeing: Freeing,
) -> Next<CacheRow>
    requires class { regs.old.class.0 < length cache.old.stacks }
    requires batch { FitsBatch table.now regs.old }
    ensures cache { cache.new ≡ trimmed cache.old regs.old.class.0 (row_of table.now regs.old.class).batch }
    ensures regs { regs.new ≡ record regs.old { hand = appended regs.old.hand (last_first (row_of table.now regs.old.class).batch (objects_of cache.old regs.old.class.0)) } }
    ensures next { result ≡ Give (Freed freeing) }
{
    let batch = u32::from(table.row(regs.class).batch);
    cache.trim(regs.class, batch, &mut regs.hand);
    Next::Give(Giving::Freed(freeing))
}
