//! The per-CPU caches meet the law of a front-end; the allocator over them, and its states.
ghost use Rattle.std.specs.Prelude.{true};

use crate::caches::CpuCaches;
use alloc_rules::LawfulFront;
use tc_machine::{AllocMachine, State};
use tc_model::Call;

impl LawfulFront for CpuCaches {
    ghost use Rattle.cpu_rows.specs.CpuHolds.{CpuHolds};
    ghost use Rattle.cpu_rows.specs.Law.{HoldsAfter};
    ghost use Rattle.cpu_rows.proofs.Afterwards.{cpu_in_every_order};
    ghost use Rattle.cpu_rows.proofs.CpuLaw.{cpu_limits};

    ghost takes = { λ call. true };

    fn can_take(_call: Call) -> bool {
        true
    }

    ghost keeps = { λ setting. CpuHolds setting.table setting.config };

    ghost after = { HoldsAfter };

    ghost shared = { λ input order holds. holds.all };

    ghost opens = { λ setting limits. cpu_limits setting.config limits };

    ghost lawful = { λ input valid taken. cpu_in_every_order input valid };
}

/// The allocator over the per-CPU caches.
pub type CpuMachine = AllocMachine<CpuCaches>;

/// Its parts and its threads, after the picks of an order.
pub type CpuState = State<CpuMachine>;
