//! The machine of memory nodes: at each one the allocator without caches, for the calls that act there.
ghost use Rattle.std.specs.Prelude.{◌≡◌, ◌≤◌, map};
ghost use Rattle.tc_units.specs.declared.units.ThreadNo.{ThreadNo as Number};
ghost use Rattle.alloc_rules.specs.Inputs.{IsValidInput, is_common, not_taken};
ghost use Rattle.alloc_rules.specs.Machine.{turns as turns_of};
ghost use Rattle.alloc_rules.proofs.ValidProp.{valid_prop};
ghost use Rattle.tc_machine.specs.Inputs.{input_under};

use crate::local::NumaLocal;
use crate::nodes::Nodes;
use alloc_rules::Part;
use call_steps::Setting;
use no_caches::{NoCaches, NoPart};
use std::alloc::{AllocError, Global};
use std::snapshot::Snapshot;
use tc_machine::waits_at;
use tc_model::{Acted, Machine, PartNo, Serial};
use tc_units::{Listed, ThreadNo};
use trace_reader::Trace;

/// A part of a node: the shard of a class, its page heap, its page map or its names.
pub type NumaPart = Part<NoPart>;

/// The allocators of memory nodes side by side, under a class table, for the calls of a trace.
#[derive(Drop)]
pub struct NumaMachine {
    pub setting: Setting,
    pub nodes: Nodes,
    /// The thread of each call, in trace order.
    pub turns: Listed<ThreadNo>,
    /// What the trace asked for, which contracts alone see.
    pub trace: Snapshot<Trace>,
    pub ghost few: { setting.config.events ≤ 40000000 },
    pub ghost same_turns: { map (λ (t : Number). t.0) turns ≡ turns_of (input_under setting trace.value).asked },
    pub ghost valid: { IsValidInput (input_under setting trace.value) } by { valid_prop (input_under setting trace.value) },
    pub ghost taken: { not_taken is_common (input_under setting trace.value).asked.calls ≡ 0 },
}

impl Machine for NumaMachine {
    type Part = NumaPart;

    type Local = NumaLocal;

    ghost use Rattle.node_rules.specs.Numa.{numa_rules};
    ghost use Rattle.node_rules.specs.NumaLaw.{FitsThread};
    ghost use Rattle.node_rules.proofs.NodesLaw.{nodes_are_lawful};
    ghost use Rattle.tc_machine.specs.Inputs.{input_under};

    ghost rules = { λ m. numa_rules m.nodes.count (input_under m.setting m.trace.value) };

    ghost fits = { λ m. FitsThread m.setting.table };

    fn want(&self, local: &NumaLocal) -> Option<PartNo> {
        local.want(&self.setting)
    }

    fn done(&self, local: &NumaLocal) -> u64 {
        local.done()
    }

    fn waits(&self, part: &NumaPart, local: &NumaLocal) -> bool {
        local.waits(part)
    }

    fn yields(&self, _part: &NumaPart, _local: &NumaLocal) -> bool {
        true
    }

    fn act(
        &self,
        _alloc: Global,
        part: &mut NumaPart,
        local: &mut NumaLocal,
    ) -> Result<Acted, AllocError> {
        local.act(&self.setting, part)
    }

    ghost sound = { λ m. (nodes_are_lawful m.nodes.count (input_under m.setting m.trace.value) m.nodes.some m.valid m.taken).sound };
}

impl Serial for NumaMachine {
    ghost use Rattle.alloc_rules.specs.Machine as allocator;
    ghost use Rattle.node_rules.proofs.NodesLaw.{nodes_are_lawful};
    ghost use Rattle.tc_machine.specs.Inputs.{input_under};

    ghost turns = { λ m. allocator.turns (input_under m.setting m.trace.value).asked };

    fn calls(&self) -> usize {
        self.turns.as_slice().len()
    }

    fn turn(&self, call: usize) -> u16 {
        u16::from(self.turns.as_slice()[call].0)
    }

    ghost threads = { λ m. (nodes_are_lawful m.nodes.count (input_under m.setting m.trace.value) m.nodes.some m.valid m.taken).threads };

    ghost never_waits = { λ m. (nodes_are_lawful m.nodes.count (input_under m.setting m.trace.value) m.nodes.some m.valid m.taken).never_waits };

    ghost rises = { λ m. (nodes_are_lawful m.nodes.count (input_under m.setting m.trace.value) m.nodes.some m.valid m.taken).rises };

    ghost ends = { λ m. (nodes_are_lawful m.nodes.count (input_under m.setting m.trace.value) m.nodes.some m.valid m.taken).ends };
}
