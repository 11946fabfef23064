//! What a thread has at the per-CPU caches beside its registers.
ghost use Rattle.std.specs.Prelude.{◌≡◌, ◌+◌, ◌*◌, ◌<◌, ◌≤◌, Some, None};
ghost use Rattle.cpu_rows.specs.CpuRows.{as_row, domain_of, cpu_of, at_cpu, cpu_place};
ghost use Rattle.cpu_rows.specs.CpuCalls.{with_move, stop_row, leave_row};
ghost use Rattle.cpu_rows.specs.CpuActs.{looks_on, gives};

use crate::row::{CpuRow, CpuStep, DomainStep, Draining, Resizing, Stopping};
use call_steps::{Asking, Giving, Next};
use rseq_core::Regs;
use tc_model::{Call, MoveTo, Planned};
use tc_units::{Class, CpuNo};

/// A thread's seat at the per-CPU caches.
#[derive(Clone, Copy, Debug, PartialEq, Eq)]
pub struct CpuSeat {
    /// The CPU that the thread is at.
    pub cpu: CpuNo,
    /// The move of the call under way that is still to come.
    pub moved: Option<MoveTo>,
    /// Domains of CPUs; with 0 there are none.
    pub domains: u8,
}

impl CpuSeat {
    /// The domain of the thread's CPU.
    pub(crate) fn domain(&self) -> u8
        ensures { result ≡ domain_of self.now }
    {
        if self.domains == 0 {
            0
        } else {
            self.cpu.0 % self.domains
        }
    }

    /// The call that is planned next begins: its move is to come.
    pub fn begin(&mut self, planned: Option<Planned>)
        ensures { self.new ≡ with_move self.old planned }
    {
        self.moved = match planned {
            Some(planned) => planned.moved,
            None => None,
        };
    }

    /// With a move pending the thread is to leave before it comes to the next call.
    pub fn last(&self) -> Option<CpuRow>
        ensures { result ≡ leave_row self.now.moved }
    {
        match self.moved {
            Some(_) => Some(CpuRow::Cpu(CpuStep::Leave)),
            None => None,
        }
    }

    /// An allocation that found nothing at its CPU looks in the cache of its domain, or in the shard.
    pub(crate) fn look_on(&self, asking: Asking) -> Next<CpuRow>
        ensures { result ≡ looks_on self.now asking }
    {
        if self.domains == 0 {
            Next::Fetch(asking)
        } else {
            Next::Row(CpuRow::Domain(DomainStep::Take(asking)))
        }
    }

    /// The hand is to be given away: to the cache of the domain, or to the shard.
    pub(crate) fn give_away(&self, giving: Giving<CpuStep>) -> Next<CpuRow>
        ensures { result ≡ gives self.now giving }
    {
        if self.domains == 0 {
            Next::Give(as_row(giving))
        } else {
            Next::Row(CpuRow::Domain(DomainStep::Put(giving)))
        }
    }

    /// The thread goes on at the CPU of its move, which has taken place then.
    pub(crate) fn arrive(&mut self, cpu: CpuNo)
        ensures { self.new ≡ record self.old { cpu = cpu; moved = None } }
    {
        self.cpu = cpu;
        self.moved = None;
    }
}

/// A drain or a resize stops its CPU first.
pub fn stop_row(call: Call) -> Option<CpuRow>
    ensures { result ≡ stop_row call }
{
    let stopping = match call {
        Call::Drain { cpu } => Stopping::Drain(Draining { cpu, taken: 0 }),
        Call::Resize { cpu, class, cap } => Stopping::Resize(Resizing { cpu, class, cap }),
        _ => return None,
    };
    Some(CpuRow::Cpu(CpuStep::Stop(stopping)))
}

/// What is given away, behind which a row at a CPU may come, as the calls have it.
pub(crate) fn as_row(giving: Giving<CpuStep>) -> Giving<CpuRow>
    ensures { result ≡ as_row giving }
{
    match giving {
        Giving::Rest(serving) => Giving::Rest(serving),
        Giving::Freed(freeing) => Giving::Freed(freeing),
        Giving::Row { class, row } => {
            let row = CpuRow::Cpu(row);
            Giving::Row { class, row }
        }
        Giving::End => Giving::End,
    }
}

/// The part that a row is at, where there are so many CPUs and classes: a CPU, or behind all of them the
/// cache of a class in a domain.
pub fn place(cpus: u8, classes: u32, seat: &CpuSeat, regs: &Regs, row: &CpuRow) -> u16
    requires { classes ≤ 120 }
    ensures place { result ≡ cpu_place cpus classes seat.now regs.now row.now }
    ensures low { result < 32768 }
{
    match row {
        CpuRow::Cpu(row) => u16::from(at_cpu(seat.cpu, row).0),
        CpuRow::Domain(_) => cache_place(cpus, classes, seat.domain(), regs.class),
    }
}

/// The number of the cache of a class in a domain, behind so many CPUs.
fn cache_place(cpus: u8, classes: u32, domain: u8, class: Class) -> u16
    requires { classes ≤ 120 }
    ensures place { result ≡ cpus + domain * classes + class.0 }
    ensures low { result < 32768 }
{
    u16::from(cpus) + u16::from(domain) * classes as u16 + u16::from(class.0)
}

/// The CPU that an act is at: the thread's own, or the one that its call stops.
fn at_cpu(own: CpuNo, row: &CpuStep) -> CpuNo
    ensures { result ≡ at_cpu own row.now }
{
    match row {
        CpuStep::Stop(stopping)
        | CpuStep::Fence(stopping)
        | CpuStep::Take(stopping)
        | CpuStep::Start(stopping) => cpu_of(stopping),
        CpuStep::SetCap(resizing) => resizing.cpu,
        _ => own,
    }
}

/// The CPU that a call stops.
fn cpu_of(stopping: &Stopping) -> CpuNo
    ensures { result ≡ cpu_of stopping.now }
{
    match stopping {
        Stopping::Drain(draining) => draining.cpu,
        Stopping::Resize(resizing) => resizing.cpu,
    }
}
