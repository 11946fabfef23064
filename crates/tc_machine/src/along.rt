//! A run of which each call is told as it is decided.
ghost use Rattle.std.specs.Prelude.{◌≡◌, ◌*◌, ◌<◌, ◌≤◌, List, [], ◌∷◌, ◌++◌, length, replicate, All, IfOk, IfErr, IfSome, IsErr, OnOk, None, Some};
ghost use Rattle.tc_units.specs.Units.{page_bytes, huge_pages};
ghost use Rattle.tc_units.specs.Classes.{length_of};
ghost use Rattle.tc_model.specs.declared.answers.CallLine.{CallLine as Line};
ghost use Rattle.tc_model.specs.Blocks.{IsBlockRun};
ghost use Rattle.tc_model.specs.Replays.{HaveEnded};
ghost use Rattle.tc_model.specs.Serial.{completed, followed};
ghost use Rattle.tc_machine.specs.Along.{IsStopped};
ghost use Rattle.tc_machine.specs.Arena.{most_huge_of_nodes};
ghost use Rattle.alloc_rules.specs.Machine.{turns};
ghost use Rattle.alloc_rules.specs.Told.{TellsScripts};
ghost use Rattle.tc_machine.specs.Finish.{totals_of};
ghost use Rattle.tc_machine.specs.Standing.{AreStanding};
ghost use Rattle.tc_machine.specs.Played.{told_at, world};

use crate::decides::Decides;
use crate::listener::{Both, Listener};
use crate::standing::Standing;
use crate::state::State;
use crate::totals::Totals;
use std::alloc::{AllocError, Global};
use std::snapshot::Snapshot;
use tc_model::{CallLine, StepFault, Watch};

/// For how many picks of a call the order has room from the start. Most calls have fewer.
const PICKS_OF_A_CALL: usize = 8;

/// Tells a listener each call as it is decided.
#[derive(Drop)]
pub struct Along<L: Listener> {
    /// The listener as it was before them all, which contracts alone see.
    pub first: Snapshot<L>,
    /// How many calls each thread has decided.
    pub decided: Vec<usize>,
    /// It is gone once memory was wanting.
    pub heard: Option<L>,
}

impl<L: Listener> Along<L> {
    /// Before the first pick of so many threads.
    fn new(alloc: Global, threads: usize, listener: L) -> Result<Self, AllocError>
        ensures first { IfOk result (λ along. along.first.value ≡ listener) }
        ensures decided { IfOk result (λ along. along.decided.items ≡ replicate threads 0) }
        ensures heard { IfOk result (λ along. along.heard ≡ Some listener) }
    {
        Ok(Along {
            first: Snapshot::of(&listener),
            decided: vec![in alloc; 0; threads]?,
            heard: Some(listener),
        })
    }

    /// The next call was decided.
    #[inline(never)]
    fn hear(&mut self, line: &CallLine)
        requires may { IfSome self.old.heard (λ l. (earlier : List Line) × L.heard self.old.first.value l earlier × L.may_hear self.old.first.value earlier line.now) }
        ensures first { self.new.first ≡ self.old.first }
        ensures decided { self.new.decided ≡ self.old.decided }
        ensures heard { (earlier : List Line) → IfSome self.old.heard (λ l. L.heard self.old.first.value l earlier × L.may_hear self.old.first.value earlier line.now) → IfSome self.new.heard (λ l. L.heard self.old.first.value l (earlier ++ line.now ∷ [])) }
    {
        if let Some(listener) = &mut self.heard {
            if listener.hear(line).is_err() {
                self.heard = None;
            }
        }
    }
}

impl<M: Decides, L: Listener> Watch<M> for Along<L> {
    type Origin = L;

    ghost use Rattle.tc_machine.specs.Along.{IsAlong};

    ghost origin = { λ along. along.first.value };

    ghost behind = { λ m order along. IsAlong L.heard L.may_hear M.count (λ o. (M.told (M.options m) (M.input m) o).calls) (M.rules m) order along.first.value along.decided.items along.heard };

    #[inline(always)]
    fn pass(&mut self, _machine: &M, _order: &[u16], thread: u16, local: &M::Local) {
        let decided = M::decided(local);
        let before = &mut self.decided[thread as usize];
        if decided != *before {
            *before = decided;
            self.hear(&M::last_line(local));
        }
    }
}

impl<M: Decides> State<M> {
    /// Picks the threads of an order file, one after another, and then ends every call, and tells a listener each call as it is
    /// decided. It gives what the run has to tell beside the calls, too: how many there are, the blocks that they leave, and the
    /// heap's pages. Where it stands at its limit the state is that of the picks before.
    pub fn tell_order<L: Listener>(
        &mut self,
        picks: &[u16],
        listener: L,
    ) -> Result<(L, Totals), StepFault>
        requires threads { All (λ t. t < self.old.input.asked.config.threads) picks.now }
        requires start { self.old.order ≡ [] }
        requires first { L.heard listener listener [] }
        requires hears { (earlier : List Line) (line : Line) → L.may_hear listener earlier line }
        ensures options { self.new.options ≡ self.old.options }
        ensures input { self.new.input ≡ self.old.input }
        ensures order { OnOk result (self.new.order ≡ completed (M.rules_of self.old.options self.old.input) (turns self.old.input.asked) self.old.input.asked.config.events (followed (M.rules_of self.old.options self.old.input) self.old.input.asked.config.events [] picks.now)) }
        ensures ended { OnOk result (HaveEnded (M.rules_of self.new.options self.new.input) (world M.rules_of self.new)) }
        ensures heard { IfOk result (λ r. L.heard listener r.0 (told_at M.told self.new).calls) }
        ensures totals { IfOk result (λ r. r.1 ≡ totals_of (told_at M.told self.new)) }
        ensures blocks { OnOk result (IsBlockRun (M.arena self.new.options self.new.input) (length_of self.new.input.rows) (told_at M.told self.new).calls) }
        ensures scripts { OnOk result (TellsScripts self.new.input.asked (told_at M.told self.new).calls) }
        ensures full { IfErr result (IsStopped (M.rules_of self.old.options self.old.input) self.old.input.asked.config.events (completed (M.rules_of self.old.options self.old.input) (turns self.old.input.asked) self.old.input.asked.config.events (followed (M.rules_of self.old.options self.old.input) self.old.input.asked.config.events [] picks.now)) self.new.order) }

        // A live block's bytes are backed, and no more is backed than the arena has.
        ensures covered { IfOk result (λ r. r.1.live_bytes ≤ r.1.resident * page_bytes) }
        ensures most { IfOk result (λ r. r.1.resident ≤ huge_pages * M.arena self.new.options self.new.input) }
        ensures arena { IfOk result (λ r. r.1.resident ≤ huge_pages * most_huge_of_nodes) }
    {
        let both = Both {
            first: Standing::new(self.alloc),
            second: listener,
        };
        let Ok(mut along) = self.ready(picks.len(), both) else {
            return Err(StepFault::Memory);
        };
        match self.replay.run_order(picks, &mut along) {
            Ok(()) => {}
            Err(fault) => return Err(fault),
        }
        let Along { heard, .. } = along;
        match self.heard(heard) {
            Ok(told) => Ok(told),
            Err(AllocError) => Err(StepFault::Memory),
        }
    }

    /// Takes the room for an order that follows so many picks, and what tells a listener along it.
    fn ready<L: Listener>(&mut self, picks: usize, listener: L) -> Result<Along<L>, AllocError>
        ensures same { self.new ≡ self.old }
        ensures first { IfOk result (λ along. along.first.value ≡ listener) }
        ensures decided { IfOk result (λ along. along.decided.items ≡ replicate (length (world M.rules_of self.old).locals) 0) }
        ensures heard { IfOk result (λ along. along.heard ≡ Some listener) }
    {
        let calls = self.replay.machine.calls().saturating_mul(PICKS_OF_A_CALL);
        let most = self.replay.limit as usize;
        self.replay.reserve(calls.saturating_add(picks).min(most))?;
        Along::new(self.alloc, self.replay.locals.len(), listener)
    }

    /// What a run tells that has ended.
    fn heard<L: Listener>(
        &self,
        heard: Option<Both<Standing, L>>,
    ) -> Result<(L, Totals), AllocError>
        requires ended { HaveEnded (M.rules_of self.now.options self.now.input) (world M.rules_of self.now) }
        requires standing { IfSome heard (λ both. AreStanding (told_at M.told self.now).calls both.first) }
        ensures listener { IfOk result (λ r. IfSome heard (λ both. r.0 ≡ both.second)) }
        ensures memory { heard ≡ None → IsErr result }
        ensures totals { IfOk result (λ r. r.1 ≡ totals_of (told_at M.told self.now)) }
        ensures blocks { OnOk result (IsBlockRun (M.arena self.now.options self.now.input) (length_of self.now.input.rows) (told_at M.told self.now).calls) }
        ensures scripts { OnOk result (TellsScripts self.now.input.asked (told_at M.told self.now).calls) }

        // A live block's bytes are backed, and no more is backed than the arena has.
        ensures covered { IfOk result (λ r. r.1.live_bytes ≤ r.1.resident * page_bytes) }
        ensures most { IfOk result (λ r. r.1.resident ≤ huge_pages * M.arena self.now.options self.now.input) }
        ensures arena { IfOk result (λ r. r.1.resident ≤ huge_pages * most_huge_of_nodes) }
    {
        let Some(Both { first, second }) = heard else {
            return Err(AllocError);
        };
        let replay = &self.replay;
        let totals = replay
            .machine
            .totals(self.alloc, &replay.parts, &replay.order, &first)?;
        Ok((second, totals))
    }
}
