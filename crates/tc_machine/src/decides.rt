//! What a machine tells of a run while it runs: each call as it is decided.
ghost use Rattle.std.specs.Prelude.{◌≡◌, ℕ, ◌*◌, ◌<◌, ◌≤◌, List, ◌∷◌, ◌++◌, [], length, map, replicate, Option, Some, IfOk};
ghost use Rattle.tc_units.specs.Units.{page_bytes, huge_pages};
ghost use Rattle.tc_units.specs.Classes.{length_of};
ghost use Rattle.tc_model.specs.declared.answers.CallLine.{CallLine as Line};
ghost use Rattle.tc_model.specs.Blocks.{IsBlockRun};
ghost use Rattle.tc_model.specs.Replays.{HaveEnded};
ghost use Rattle.tc_model.specs.Run.{run};
ghost use Rattle.tc_model.specs.Sound.{IsOrder};
ghost use Rattle.alloc_rules.specs.Told.{TellsScripts};
ghost use Rattle.tc_machine.specs.Arena.{most_huge_of_nodes};
ghost use Rattle.alloc_rules.specs.Decided.{IsToldNext};
ghost use Rattle.tc_machine.specs.Finish.{totals_of};
ghost use Rattle.tc_machine.specs.Standing.{AreStanding};

use crate::allocator::Allocator;
use crate::finish::{heap_of, rows_of};
use crate::machine::AllocMachine;
use crate::standing::Standing;
use crate::totals::Totals;
use alloc_rules::{LawfulFront, Part};
use call_steps::{Answers, Local};
use std::alloc::{AllocError, Global};
use tc_model::CallLine;
use tc_units::Listed;

/// A machine of which each thread knows the call that it decided last.
pub trait Decides: Allocator {
    // How many calls a thread decided, and how the last one is told.
    ghost count: { Self.Local → ℕ };

    ghost last: { Self.Local → Option Line };

    /// How many calls a thread decided.
    fn decided(local: &Self::Local) -> usize
        ensures { result ≡ count local.now };

    /// The call that a thread decided last.
    fn last_line(local: &Self::Local) -> CallLine
        requires { 0 < count local.now }
        ensures { Some result ≡ last local.now };

    /// What the run of an order has to tell beside its calls, of which the number and the blocks that they leave are known.
    fn totals(
        &self,
        alloc: Global,
        parts: &[Self::Part],
        order: &[u16],
        standing: &Standing,
    ) -> Result<Totals, AllocError>
        requires run { parts.now ≡ (run (Self.rules self.now) order.now).parts }
        requires order { IsOrder (Self.rules self.now) order.now }
        requires standing { AreStanding (Self.told (Self.options self.now) (Self.input self.now) order.now).calls standing.now }
        ensures totals { IfOk result (λ t. t ≡ totals_of (Self.told (Self.options self.now) (Self.input self.now) order.now)) }

        // A live block's bytes are backed, and no more is backed than the arena has.
        ensures covered { IfOk result (λ t. t.live_bytes ≤ t.resident * page_bytes) }
        ensures most { IfOk result (λ t. t.resident ≤ huge_pages * Self.arena (Self.options self.now) (Self.input self.now)) };

    // At the start no thread has decided a call.
    ghost none_first: { (machine : Self) → map count (Self.rules machine).locals ≡ replicate (length (Self.rules machine).locals) 0 };

    // Before the first pick nothing is told.
    ghost none_told: { (machine : Self) → (Self.told (Self.options machine) (Self.input machine) []).calls ≡ [] };

    // A pick decides no call, or one that its thread knows as the last one then, and that is told behind the others.
    ghost tells_next: { (machine : Self) (order : List ℕ) (t : ℕ) → IsOrder (Self.rules machine) (order ++ t ∷ []) → IsToldNext count last (λ o. (Self.told (Self.options machine) (Self.input machine) o).calls) (Self.rules machine) order t };

    // What is told is a run on disjoint blocks.
    ghost on_blocks: { (machine : Self) (order : List ℕ) → IsOrder (Self.rules machine) order → IsBlockRun (Self.arena (Self.options machine) (Self.input machine)) (length_of (Self.input machine).rows) (Self.told (Self.options machine) (Self.input machine) order).calls };

    // Its arena is no larger than that of all nodes together.
    ghost low_arena: { (machine : Self) → Self.arena (Self.options machine) (Self.input machine) ≤ most_huge_of_nodes };

    // Where all scripts have ended, the whole script of each thread is told.
    ghost tells_scripts: { (machine : Self) (order : List ℕ) → IsOrder (Self.rules machine) order → HaveEnded (Self.rules machine) (run (Self.rules machine) order) → TellsScripts (Self.input machine).asked (Self.told (Self.options machine) (Self.input machine) order).calls };
}

impl<F: LawfulFront, A: Answers> Decides for AllocMachine<F, A> {
    ghost use Rattle.std.proofs.Common.{refl};
    ghost use Rattle.tc_machine.specs.Inputs.{input_under};
    ghost use Rattle.alloc_rules.specs.Decided.{count_of, last_of};
    ghost use Rattle.alloc_rules.proofs.Decided.{none_first, tells_next, blocks_there, scripts_there, low_huge};

    ghost count = { count_of };

    ghost last = { last_of };

    ghost none_first = { λ m. none_first (F.rules m.setting) F.about (input_under m.setting m.trace.value).asked };

    ghost none_told = { λ m. refl };

    ghost tells_next = { λ m. tells_next (F.rules m.setting) F.about (input_under m.setting m.trace.value).asked (F.lawful (input_under m.setting m.trace.value) m.valid m.taken) (F.shared (input_under m.setting m.trace.value)) };

    ghost on_blocks = { λ m order of. blocks_there (F.rules m.setting) F.about (input_under m.setting m.trace.value).asked (F.lawful (input_under m.setting m.trace.value) m.valid m.taken) (F.shared (input_under m.setting m.trace.value)) order of (F.same_rows m.setting) };

    ghost low_arena = { λ m. low_huge m.valid };

    ghost tells_scripts = { λ m. scripts_there (F.rules m.setting) F.about (input_under m.setting m.trace.value).asked (F.lawful (input_under m.setting m.trace.value) m.valid m.taken) (F.shared (input_under m.setting m.trace.value)) };

    fn decided(local: &Local<F, A>) -> usize {
        local.decided()
    }

    fn last_line(local: &Local<F, A>) -> CallLine {
        local.last_line()
    }

    fn totals(
        &self,
        alloc: Global,
        parts: &[Part<F::Part>],
        _order: &[u16],
        standing: &Standing,
    ) -> Result<Totals, AllocError> {
        let heap = heap_of(parts, self.heap_place());
        let rows = rows_of(alloc, heap, self.setting.config.huge)?;
        Ok(Totals {
            calls: standing.calls,
            live: standing.count,
            live_bytes: standing.live_bytes(),
            used: heap.used_pages(),
            resident: heap.backed_pages(),
            rows: Listed::new(rows),
        })
    }
}
