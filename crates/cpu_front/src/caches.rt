//! The per-CPU caches with the domains' transfer caches, as a front-end.
ghost use Rattle.std.specs.Prelude.{◌≡◌, ◌<◌};

use crate::opening::{caches_of, cpus_of};
use call_steps::{Asking, Came, Freeing, FrontEnd, Local, Next, Serving, Setting};
use cpu_rows::{
    CpuFrontPart, CpuRow, CpuSeat, CpuStep, act_cpu, act_domain, place, stay_at_cpu, stop_row,
    yields,
};
use rseq_core::{Regs, Seq};
use std::alloc::{AllocError, Global};
use tc_model::{Call, Planned};
use tc_units::{Class, CpuNo, ThreadNo};

/// A slab of objects at each CPU, restartable sequences on it, and behind it a transfer cache for each class in
/// each domain of CPUs, where there are domains. Drains and resizes are calls of its own.
pub struct CpuCaches;

/// A thread over the per-CPU caches.
pub type CpuLocal = Local<CpuCaches>;

impl FrontEnd for CpuCaches {
    type Part = CpuFrontPart;

    type Seat = CpuSeat;

    type Row = CpuRow;

    ghost use Rattle.cpu_rows.specs.CpuFront.{cpu_front};
    ghost use Rattle.cpu_rows.specs.CpuRows.{about_row};
    ghost use Rattle.cpu_rows.specs.CpuHolds.{cpu_fits};
    ghost use Rattle.cpu_rows.specs.Laws.{AreCpuLimits};
    ghost use Rattle.cpu_rows.proofs.Start.{split_first};
    ghost use Rattle.std.proofs.Common.{refl};

    ghost rules = { λ u. cpu_front u.table u.config };

    ghost about = { about_row };

    ghost same_rows = { λ u. refl };

    ghost split_is_within = { λ u. split_first u.table u.config };

    ghost can_open = { λ u. AreCpuLimits u.config };

    ghost fits = { λ u. cpu_fits u.table };

    fn split(setting: &Setting) -> u8 {
        setting.config.cpus
    }

    fn first_parts(setting: &Setting, alloc: Global) -> Result<Vec<CpuFrontPart>, AllocError> {
        cpus_of(setting, alloc)
    }

    fn later_parts(setting: &Setting, alloc: Global) -> Result<Vec<CpuFrontPart>, AllocError> {
        caches_of(setting, alloc)
    }

    fn seat(setting: &Setting, thread: ThreadNo) -> CpuSeat {
        CpuSeat {
            cpu: CpuNo(thread.0 % setting.config.cpus),
            moved: None,
            domains: setting.config.domains,
        }
    }

    fn begin(_setting: &Setting, seat: &mut CpuSeat, planned: Option<Planned>) {
        seat.begin(planned);
    }

    fn first(
        _setting: &Setting,
        _seat: &CpuSeat,
        regs: &mut Regs,
        asking: Asking,
    ) -> Option<CpuRow> {
        regs.start(regs.class, Seq::Pop);
        Some(CpuRow::Cpu(CpuStep::Pop(asking)))
    }

    fn rest(
        _setting: &Setting,
        _seat: &CpuSeat,
        regs: &mut Regs,
        serving: Serving,
    ) -> Option<CpuRow> {
        regs.start(regs.class, Seq::PushBatch);
        Some(CpuRow::Cpu(CpuStep::Stock(serving)))
    }

    fn free(
        _setting: &Setting,
        _seat: &CpuSeat,
        regs: &mut Regs,
        freeing: Freeing,
    ) -> Option<CpuRow> {
        regs.start(regs.class, Seq::Push);
        Some(CpuRow::Cpu(CpuStep::Push(freeing)))
    }

    fn other(_setting: &Setting, _seat: &CpuSeat, regs: &mut Regs, call: Call) -> Option<CpuRow> {
        match call {
            Call::Drain { .. } => regs.start(Class(0), Seq::Pop),
            Call::Resize { class, .. } => regs.start(class, Seq::Pop),
            _ => {}
        }
        stop_row(call)
    }

    fn last(_setting: &Setting, seat: &CpuSeat) -> Option<CpuRow> {
        seat.last()
    }

    fn place(setting: &Setting, seat: &CpuSeat, regs: &Regs, row: &CpuRow) -> u16 {
        place(setting.config.cpus, setting.table.len(), seat, regs, row)
    }

    fn act(
        setting: &Setting,
        part: &mut CpuFrontPart,
        seat: &mut CpuSeat,
        regs: &mut Regs,
        row: &mut CpuRow,
        next: &mut Next<CpuRow>,
    ) -> Result<Came, AllocError> {
        let table = &setting.table;
        match part {
            CpuFrontPart::Cpu(cpu) => match row {
                CpuRow::Cpu(row) => Ok(act_cpu(table, cpu, seat, regs, row, next)),
                CpuRow::Domain(_) => unreachable!(),
            },
            CpuFrontPart::Domain { class: _, cache } => match row {
                CpuRow::Domain(row) => {
                    *next = act_domain(table, cache, seat, regs, *row);
                    Ok(Came::Next)
                }
                CpuRow::Cpu(_) => unreachable!(),
            },
        }
    }

    #[inline(always)]
    fn stay(
        setting: &Setting,
        part: &mut CpuFrontPart,
        seat: &CpuSeat,
        regs: &mut Regs,
        row: &CpuRow,
    ) -> bool {
        match part {
            CpuFrontPart::Cpu(cpu) => match row {
                CpuRow::Cpu(row) => stay_at_cpu(&setting.table, cpu, seat, regs, row),
                CpuRow::Domain(_) => false,
            },
            CpuFrontPart::Domain { .. } => false,
        }
    }

    fn yields(
        _setting: &Setting,
        part: &CpuFrontPart,
        seat: &CpuSeat,
        regs: &Regs,
        row: CpuRow,
    ) -> bool {
        match part {
            CpuFrontPart::Cpu(cpu) => match row {
                CpuRow::Cpu(row) => yields(cpu, seat, regs, row),
                CpuRow::Domain(_) => true,
            },
            CpuFrontPart::Domain { .. } => true,
        }
    }
}
