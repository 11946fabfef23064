//! The acts at the transfer cache of the thread's class in the domain of its CPU.
ghost use Rattle.std.specs.Prelude.{◌≡◌, ◌<◌, ◌-◌, ◌^◌, []};
ghost use Rattle.transfer_cache.specs.Transfer.{last_first, without_last};
ghost use Rattle.call_steps.specs.Local.{row_of};
ghost use Rattle.cpu_rows.specs.CpuActs.{takes, puts, domain_acts};
ghost use Rattle.call_steps.specs.Fits.{FitsBatch};
ghost use Rattle.cpu_rows.specs.CpuFits.{FitsDomain};

use crate::row::{CpuRow, CpuStep, DomainStep};
use crate::seat::{CpuSeat, as_row};
use call_steps::{Asking, Giving, Next};
use rseq_core::Regs;
use size_classes::ClassTable;
use transfer_cache::TransferCache;

/// The act of a row at the transfer cache of its class and domain, and what comes behind it.
pub fn act_domain(
    table: &ClassTable,
    cache: &mut TransferCache,
    seat: &CpuSeat,
    regs: &mut Regs,
    row: DomainStep,
) -> Next<CpuRow>
    requires { FitsDomain table.now regs.old row }
    ensures cache { cache.new ≡ (domain_acts table.now cache.old seat.now regs.old row).part }
    ensures seat { seat.now ≡ (domain_acts table.now cache.old seat.now regs.old row).seat }
    ensures regs { regs.new ≡ (domain_acts table.now cache.old seat.now regs.old row).regs }
    ensures next { result ≡ (domain_acts table.now cache.old seat.now regs.old row).next }
{
    match row {
        DomainStep::Take(asking) => take(table, cache, regs, asking),
        DomainStep::Put(giving) => put(cache, regs, giving),
    }
}

/// An allocation takes a batch, or looks in the shard.
fn take(
    table: &ClassTable,
    cache: &mut TransferCache,
    regs: &mut Regs,
    asking: Asking,
) -> Next<CpuRow>
    requires batch { FitsBatch table.now regs.old }
    requires empty { regs.old.hand.items ≡ [] }
    ensures cache { cache.new ≡ record cache.old { objects = without_last (row_of table.now regs.old.class).batch cache.old.objects } }
    ensures regs { regs.new ≡ (takes regs.old asking (last_first (row_of table.now regs.old.class).batch cache.old.objects)).0 }
    ensures next { result ≡ (takes regs.old asking (last_first (row_of table.now regs.old.class).batch cache.old.objects)).1 }
{
    let batch = u32::from(table.row(regs.class).batch);
    cache.take(batch, &mut regs.hand);
    if regs.hand.as_slice().is_empty() {
        Next::Fetch(asking)
    } else {
        Next::Serve(asking)
    }
}

/// The hand is put there where it fits, and else it goes to the shard.
fn put(cache: &mut TransferCache, regs: &mut Regs, giving: Giving<CpuStep>) -> Next<CpuRow>
    ensures cache { cache.new ≡ (puts cache.old regs.old giving).0 }
    ensures regs { regs.new ≡ (puts cache.old regs.old giving).1 }
    ensures next { result ≡ (puts cache.old regs.old giving).2 }
{
    if cache.put(regs.hand.as_slice()) {
        regs.hand.clear();
        Next::Gave(as_row(giving))
    } else {
        Next::Give(as_row(giving))
    }
}
