//! Memory nodes are opened, and tell a finished run.
ghost use Rattle.std.specs.Prelude.{◌≡◌};

use crate::finish::{pages_of, rows_of_nodes};
use crate::local::NumaLocal;
use crate::machine::{NumaMachine, NumaPart};
use crate::nodes::Nodes;
use crate::opening::open_nodes;
use alloc_rules::LawfulFront;
use call_steps::Setting;
use no_caches::NoCaches;
use size_classes::ClassTable;
use std::alloc::{AllocError, Global};
use std::snapshot::Snapshot;
use tc_machine::{Allocator, Listener, Opened, Recalls, Teller, Totals, tell_all};
use tc_model::{Call, CallLine};
use tc_units::{Listed, ThreadNo};
use trace_reader::Trace;

impl Teller for NumaLocal {
    ghost answers = { λ l. l.answers };

    fn act_of(&self, i: usize) -> Option<u64> {
        match self.answers.get(i) {
            Some(told) => Some(told.act),
            None => None,
        }
    }

    fn line_of(&self, thread: ThreadNo, i: usize) -> CallLine {
        let told = &self.answers[i];
        CallLine {
            thread,
            call: told.call,
            answer: told.answer,
        }
    }
}

impl Allocator for NumaMachine {
    ghost use Rattle.std.specs.Prelude.{◌≡◌};
    ghost use Rattle.std.proofs.Common.{refl};
    ghost use Rattle.alloc_rules.proofs.Orders.{lawful_order};
    ghost use Rattle.tc_machine.specs.Inputs.{input_under};
    ghost use Rattle.alloc_rules.specs.Inputs.{is_common};
    ghost use Rattle.node_rules.specs.Numa.{numa_rules};
    ghost use Rattle.node_rules.specs.NumaLaw.{AreLawful, HoldsAfter};
    ghost use Rattle.node_rules.proofs.NodesLaw.{nodes_are_lawful, threads_count};
    ghost use Rattle.numa_heaps.specs.Machine.{arena, finished_in, IsLawful};

    type Options = Nodes;

    ghost input = { λ m. input_under m.setting m.trace.value };

    ghost options = { λ m. m.nodes };

    ghost rules_of = { λ options. numa_rules options.count };

    ghost arena = { λ options. arena options.count };

    ghost same_rules = { λ m. refl };

    ghost same_turns = { λ m. refl };

    ghost as_many = { λ m. threads_count m.nodes.count (input_under m.setting m.trace.value) };

    ghost takes = { is_common };

    ghost lawful = { λ options. IsLawful options.count };

    ghost is_lawful = { λ m order moves few. (let input = input_under m.setting m.trace.value in let laws = nodes_are_lawful m.nodes.count input m.nodes.some m.valid m.taken in lawful_order (numa_rules m.nodes.count input) order moves (AreLawful m.nodes.count input) (HoldsAfter m.nodes.count input) laws laws.holds input.asked.config.events m.few few) };

    ghost is_few = { λ options input order law. law.few };

    ghost told = { λ options. finished_in options.count };

    fn can_take(call: Call) -> bool {
        NoCaches::can_take(call)
    }

    fn open(
        alloc: Global,
        chosen: Nodes,
        table: ClassTable,
        trace: Trace,
    ) -> Result<Opened<NumaMachine>, AllocError> {
        let seen = Snapshot::of(&trace);
        let setting = Setting {
            table,
            config: trace.config,
        };
        let (parts, locals) = open_nodes(alloc, &setting, chosen, &trace)?;
        let Trace { turns, .. } = trace;
        let machine = NumaMachine {
            setting,
            nodes: chosen,
            turns,
            trace: seen,
        };
        Ok(Opened {
            machine,
            parts,
            locals,
        })
    }

    fn threads(&self) -> u8 {
        self.setting.config.threads
    }

    fn most_picks(&self) -> u64 {
        self.setting.config.events
    }
}

impl Recalls for NumaMachine {
    fn tell<L: Listener>(
        &self,
        alloc: Global,
        parts: &[NumaPart],
        locals: &[NumaLocal],
        order: &[u16],
        listener: L,
    ) -> Result<(L, Totals), AllocError> {
        let (listener, standing) = tell_all(alloc, locals, order, listener)?;
        let pages = pages_of(&self.setting, self.nodes, parts);
        let rows = rows_of_nodes(alloc, &self.setting, self.nodes, parts)?;
        let totals = Totals {
            calls: standing.calls,
            live: standing.count,
            live_bytes: standing.live_bytes(),
            used: pages.used,
            resident: pages.resident,
            rows: Listed::new(rows),
        };
        Ok((listener, totals))
    }
}
