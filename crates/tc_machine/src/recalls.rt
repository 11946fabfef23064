//! What a machine tells of a finished run, where its threads keep what they answered.
ghost use Rattle.std.specs.Prelude.{◌≡◌, ◌*◌, ◌≤◌, [], length, IfOk};
ghost use Rattle.tc_units.specs.Units.{page_bytes, huge_pages};
ghost use Rattle.tc_units.specs.Classes.{length_of};
ghost use Rattle.tc_model.specs.Blocks.{IsBlockRun};
ghost use Rattle.tc_model.specs.Run.{world_of, start, run};
ghost use Rattle.tc_model.specs.Steps.{moving};
ghost use Rattle.tc_model.specs.Replays.{HaveEnded};
ghost use Rattle.alloc_rules.specs.Told.{TellsScripts};
ghost use Rattle.tc_machine.specs.Arena.{most_huge_of_nodes};
ghost use Rattle.tc_machine.specs.Finish.{totals_of};
ghost use Rattle.tc_machine.specs.Telling.{HearsEach};

use crate::allocator::Allocator;
use crate::decides::Decides;
use crate::listener::Listener;
use crate::machine::AllocMachine;
use crate::telling::tell_all;
use crate::totals::Totals;
use alloc_rules::{LawfulFront, Part};
use call_steps::Local;
use std::alloc::{AllocError, Global};

/// A machine whose threads keep all their answers, so that a run is told from them.
pub trait Recalls: Allocator {
    /// Tells a listener the calls of a run in the order in which they were decided, and gives what the run has to tell beside
    /// them: how many there are, the blocks that they leave, and the heap's pages. The parts and the locals are those of the run
    /// of the order, each pick of which moved, and all scripts have ended.
    fn tell<L: Listener>(
        &self,
        alloc: Global,
        parts: &[Self::Part],
        locals: &[Self::Local],
        order: &[u16],
        listener: L,
    ) -> Result<(L, Totals), AllocError>
        requires run { world_of parts.now locals.now ≡ run (Self.rules_of (Self.options self.now) (Self.input self.now)) order.now }
        requires moves { moving (Self.rules_of (Self.options self.now) (Self.input self.now)) (start (Self.rules_of (Self.options self.now) (Self.input self.now))) order.now ≡ order.now }
        requires few { length order.now ≤ (Self.input self.now).asked.config.events }
        requires ended { HaveEnded (Self.rules_of (Self.options self.now) (Self.input self.now)) (run (Self.rules_of (Self.options self.now) (Self.input self.now)) order.now) }
        requires first { L.heard listener listener [] }
        requires may { HearsEach (L.may_hear listener) (Self.told (Self.options self.now) (Self.input self.now) order.now).calls }
        ensures heard { IfOk result (λ r. L.heard listener r.0 (Self.told (Self.options self.now) (Self.input self.now) order.now).calls) }
        ensures totals { IfOk result (λ r. r.1 ≡ totals_of (Self.told (Self.options self.now) (Self.input self.now) order.now)) }
        ensures blocks { IfOk result (λ _. IsBlockRun (Self.arena (Self.options self.now) (Self.input self.now)) (length_of (Self.input self.now).rows) (Self.told (Self.options self.now) (Self.input self.now) order.now).calls) }
        ensures scripts { IfOk result (λ _. TellsScripts (Self.input self.now).asked (Self.told (Self.options self.now) (Self.input self.now) order.now).calls) }

        // A live block's bytes are backed, and no more is backed than the arena has.
        ensures covered { IfOk result (λ r. r.1.live_bytes ≤ r.1.resident * page_bytes) }
        ensures most { IfOk result (λ r. r.1.resident ≤ huge_pages * Self.arena (Self.options self.now) (Self.input self.now)) }
        ensures arena { IfOk result (λ r. r.1.resident ≤ huge_pages * most_huge_of_nodes) };
}

impl<F: LawfulFront> Recalls for AllocMachine<F> {
    fn tell<L: Listener>(
        &self,
        alloc: Global,
        parts: &[Part<F::Part>],
        locals: &[Local<F>],
        order: &[u16],
        listener: L,
    ) -> Result<(L, Totals), AllocError> {
        let (listener, standing) = tell_all(alloc, locals, order, listener)?;
        let totals = self.totals(alloc, parts, order, &standing)?;
        Ok((listener, totals))
    }
}
