//! The state of the allocator: its parts and its threads, after the picks of an order.
ghost use Rattle.std.specs.Prelude.{◌≡◌, ℕ, ◌*◌, ◌<◌, ◌≤◌, ◌↔◌, [], length, All, IfOk, IfErr, OnErr, OnOk, IsTrue};
ghost use Rattle.tc_units.specs.Units.{page_bytes, huge_pages};
ghost use Rattle.tc_units.specs.Classes.{length_of};
ghost use Rattle.tc_model.specs.Blocks.{IsBlockRun};
ghost use Rattle.tc_model.specs.Input.{Asked};
ghost use Rattle.tc_model.specs.Run.{world_of, start, run};
ghost use Rattle.tc_model.specs.Steps.{stepped, order_with, moving};
ghost use Rattle.tc_model.specs.Replays.{IsFaultAt, is_polite, done_in, HaveEnded};
ghost use Rattle.tc_model.specs.Serial.{completed, followed, IsCutShort};
ghost use Rattle.tc_model.specs.declared.steps.Stepped.TheVariants as step;
ghost use Rattle.alloc_rules.specs.Inputs.{not_taken};
ghost use Rattle.alloc_rules.specs.Machine.{turns};
ghost use Rattle.alloc_rules.specs.Told.{TellsScripts};
ghost use Rattle.tc_machine.specs.Arena.{most_huge_of_nodes};
ghost use Rattle.tc_machine.specs.Finish.{totals_of};
ghost use Rattle.tc_machine.specs.Inputs.{IsRead, asked_of, input_of};
ghost use Rattle.tc_machine.specs.Played.{told_at, world};
ghost use Rattle.tc_machine.specs.Telling.{HearsEach};

use crate::allocator::{Allocator, Opened};
use crate::listener::{Listener, Noted};
use crate::recalls::Recalls;
use crate::totals::Totals;
use size_classes::ClassTable;
use std::alloc::{AllocError, Global};
use std::marker::Model;
use tc_model::{Finished, Replay, Serial, StepFault, Stepped, Unwatched};
use tc_units::{Listed, ThreadNo};
use trace_reader::Trace;

/// The allocator's parts and its threads, after the picks of an order. Contracts see what it is a run of
/// and that order: no other state can be made. A pick that doesn't move isn't entered.
#[derive(Drop)]
pub struct State<M: Allocator> {
    pub(crate) replay: Replay<M>,
    pub(crate) alloc: Global,
}

impl<M: Allocator> Model for State<M> {
    ghost use Rattle.std.specs.Prelude.{◌≡◌};
    ghost use Rattle.tc_machine.specs.Played.{Played};

    ghost Value = { Played M.Options };

    ghost view = { λ s. record { options = M.options s.replay.machine; input = M.input s.replay.machine; order = s.replay.order.items } };

    ghost invariant = { λ s. s.replay.limit ≡ (M.input s.replay.machine).asked.config.events };
}

impl<M: Allocator> State<M> {
    /// The start of a run under these options. Its condition is that the reader answers this trace for some text, and that the machine takes its
    /// calls.
    pub fn open(
        alloc: Global,
        options: M::Options,
        table: ClassTable,
        trace: Trace,
    ) -> Result<State<M>, AllocError>
        requires read { (asked : Asked) × IsRead (length table) trace asked }
        requires taken { not_taken M.takes (asked_of trace).calls ≡ 0 }
        ensures options { IfOk result (λ s. s.options ≡ options) }
        ensures input { IfOk result (λ s. s.input ≡ input_of table trace) }
        ensures asked { IfOk result (λ s. (asked : Asked) → IsRead (length table) trace asked → s.input ≡ record { rows = table; asked = asked }) }
        ensures order { IfOk result (λ s. s.order ≡ []) }
    {
        let Opened {
            machine,
            parts,
            locals,
        } = M::open(alloc, options, table, trace)?;
        let limit = machine.most_picks();
        let order = Vec::new(alloc);
        let replay = Replay::gather(alloc, machine, parts, locals, order, limit);
        Ok(State { replay, alloc })
    }

    /// How many threads there are.
    pub fn threads(&self) -> u8
        ensures { result ≡ self.now.input.asked.config.threads }
    {
        self.replay.machine.threads()
    }

    /// How many calls the trace has.
    pub fn calls(&self) -> usize
        ensures { result ≡ length (turns self.now.input.asked) }
    {
        self.replay.machine.calls()
    }

    /// Picks a thread. Its act and its entry in the order are done both or neither.
    ///
    /// `Ended` comes exactly where its script has ended, `NotYet` exactly where its next act waits, and
    /// `Full` exactly where it would move and the order has as many picks as may move. None of these
    /// changes anything, nor does want of memory.
    pub fn step(&mut self, thread: ThreadNo) -> Result<Stepped, StepFault>
        requires { thread.0 < self.old.input.asked.config.threads }
        ensures options { self.new.options ≡ self.old.options }
        ensures input { self.new.input ≡ self.old.input }
        ensures answer { IfOk result (λ s. s ≡ stepped (M.rules_of self.old.options self.old.input) (world M.rules_of self.old) thread.0) }
        ensures order { IfOk result (λ s. self.new.order ≡ order_with self.old.order thread.0 s) }
        ensures room { IfOk result (λ s. s ≡ step.Moved → length self.old.order < self.old.input.asked.config.events) }
        ensures fault { IfErr result (IsFaultAt (M.rules_of self.old.options self.old.input) self.old.input.asked.config.events self.old.order thread.0) }
        ensures same { OnErr result (self.new ≡ self.old) }
        ensures lawful { M.lawful self.new.options self.new.input self.new.order }
    {
        self.replay.step(u16::from(thread.0), &mut Unwatched)
    }

    /// Ends every call: the thread of the earliest call in trace order that hasn't ended is picked, again
    /// and again. It waits for nobody, since the allocation that a free needs is earlier and has ended.
    /// After a fault the state is that of the picks before it.
    pub fn run_serial(&mut self) -> Result<(), StepFault>
        ensures options { self.new.options ≡ self.old.options }
        ensures input { self.new.input ≡ self.old.input }
        ensures ok { OnOk result (self.new.order ≡ completed (M.rules_of self.old.options self.old.input) (turns self.old.input.asked) self.old.input.asked.config.events self.old.order) }
        ensures ended { OnOk result (HaveEnded (M.rules_of self.new.options self.new.input) (world M.rules_of self.new)) }
        ensures fault { IfErr result (IsCutShort (M.rules_of self.old.options self.old.input) self.old.input.asked.config.events (completed (M.rules_of self.old.options self.old.input) (turns self.old.input.asked) self.old.input.asked.config.events self.old.order) self.new.order) }
        ensures lawful { M.lawful self.new.options self.new.input self.new.order }
    {
        self.replay.run_serial(&mut Unwatched)
    }

    /// Picks the threads of an order file, one after another, and then ends every call. A pick of a thread
    /// whose script has ended, or that waits, changes nothing and isn't entered. After a fault the state is
    /// that of the picks before it.
    pub fn run_order(&mut self, picks: &[u16]) -> Result<(), StepFault>
        requires { All (λ t. t < self.old.input.asked.config.threads) picks.now }
        ensures options { self.new.options ≡ self.old.options }
        ensures input { self.new.input ≡ self.old.input }
        ensures ok { OnOk result (self.new.order ≡ completed (M.rules_of self.old.options self.old.input) (turns self.old.input.asked) self.old.input.asked.config.events (followed (M.rules_of self.old.options self.old.input) self.old.input.asked.config.events self.old.order picks.now)) }
        ensures ended { OnOk result (HaveEnded (M.rules_of self.new.options self.new.input) (world M.rules_of self.new)) }
        ensures fault { IfErr result (IsCutShort (M.rules_of self.old.options self.old.input) self.old.input.asked.config.events (completed (M.rules_of self.old.options self.old.input) (turns self.old.input.asked) self.old.input.asked.config.events (followed (M.rules_of self.old.options self.old.input) self.old.input.asked.config.events self.old.order picks.now)) self.new.order) }
        ensures lawful { M.lawful self.new.options self.new.input self.new.order }
    {
        self.replay.run_order(picks, &mut Unwatched)
    }

    /// The threads of the picks that moved.
    pub fn order(&self) -> &[u16]
        ensures order { result.now ≡ self.now.order }
        ensures lawful { M.lawful self.now.options self.now.input self.now.order }
    {
        self.replay.order()
    }

    /// The order, without the rest.
    pub fn into_order(self) -> Vec<u16>
        ensures order { result.items ≡ self.order }
        ensures lawful { M.lawful self.options self.input self.order }
    {
        let State { replay, alloc: _ } = self;
        replay.into_order()
    }

    /// The threads, as the picks so far left them.
    pub fn locals(&self) -> &[M::Local]
        ensures { result.now ≡ (world M.rules_of self.now).locals }
    {
        &self.replay.locals
    }

    /// Whether all scripts have ended.
    pub fn ended(&self) -> bool
        ensures { IsTrue result ↔ HaveEnded (M.rules_of self.now.options self.now.input) (world M.rules_of self.now) }
    {
        self.replay.ended()
    }

    /// How many calls of a thread have ended.
    pub fn done(&self, thread: ThreadNo) -> u64
        requires { thread.0 < self.now.input.asked.config.threads }
        ensures { result ≡ done_in (M.rules_of self.now.options self.now.input) (world M.rules_of self.now) thread.0 }
    {
        self.replay.done(u16::from(thread.0))
    }

    /// Whether it is polite to pick a thread now. It is where the thread's script has ended.
    pub fn yields(&self, thread: ThreadNo) -> bool
        requires { thread.0 < self.now.input.asked.config.threads }
        ensures { result ≡ is_polite (M.rules_of self.now.options self.now.input) (world M.rules_of self.now) thread.0 }
    {
        self.replay.yields(u16::from(thread.0))
    }

    /// The machine with its parts and locals, at its start.
    pub fn split(self) -> (M, Vec<M::Part>, Vec<M::Local>)
        requires { self.order ≡ [] }
        ensures options { M.options result.0 ≡ self.options }
        ensures input { M.input result.0 ≡ self.input }
        ensures start { world_of result.1.items result.2.items ≡ start (M.rules_of self.options self.input) }
        ensures rules { M.rules result.0 ≡ M.rules_of self.options self.input }
        ensures all { length result.2.items ≡ self.input.asked.config.threads }
    {
        let State { replay, alloc: _ } = self;
        replay.split()
    }

    /// The state that the picks of an order left.
    pub fn gather(
        alloc: Global,
        machine: M,
        parts: Vec<M::Part>,
        locals: Vec<M::Local>,
        order: Vec<u16>,
    ) -> State<M>
        requires run { world_of parts.items locals.items ≡ run (M.rules_of (M.options machine) (M.input machine)) order.items }
        requires moves { moving (M.rules_of (M.options machine) (M.input machine)) (start (M.rules_of (M.options machine) (M.input machine))) order.items ≡ order.items }
        requires few { length order.items ≤ (M.input machine).asked.config.events }
        ensures options { result.options ≡ M.options machine }
        ensures input { result.input ≡ M.input machine }
        ensures order { result.order ≡ order.items }
    {
        let most = machine.most_picks();
        let replay = Replay::gather(alloc, machine, parts, locals, order, most);
        State { replay, alloc }
    }
}

impl<M: Recalls> State<M> {
    /// Tells a listener the calls of a run whose scripts have all ended, in the order in which they were decided, and gives
    /// what the run has to tell beside them: how many there are, the blocks that they leave, and the heap's pages.
    pub fn tell<L: Listener>(&self, listener: L) -> Result<(L, Totals), AllocError>
        requires ended { HaveEnded (M.rules_of self.now.options self.now.input) (world M.rules_of self.now) }
        requires first { L.heard listener listener [] }
        requires may { HearsEach (L.may_hear listener) (told_at M.told self.now).calls }
        ensures heard { IfOk result (λ r. L.heard listener r.0 (told_at M.told self.now).calls) }
        ensures totals { IfOk result (λ r. r.1 ≡ totals_of (told_at M.told self.now)) }
        ensures blocks { IfOk result (λ _. IsBlockRun (M.arena self.now.options self.now.input) (length_of self.now.input.rows) (told_at M.told self.now).calls) }
        ensures scripts { IfOk result (λ _. TellsScripts self.now.input.asked (told_at M.told self.now).calls) }

        // A live block's bytes are backed, and no more is backed than the arena has.
        ensures covered { IfOk result (λ r. r.1.live_bytes ≤ r.1.resident * page_bytes) }
        ensures most { IfOk result (λ r. r.1.resident ≤ huge_pages * M.arena self.now.options self.now.input) }
        ensures arena { IfOk result (λ r. r.1.resident ≤ huge_pages * most_huge_of_nodes) }
    {
        let replay = &self.replay;
        replay.machine.tell(
            self.alloc,
            &replay.parts,
            &replay.locals,
            &replay.order,
            listener,
        )
    }

    /// All that a run has to tell once all scripts have ended, with the list of its calls.
    pub fn finish(&self) -> Result<Finished, AllocError>
        requires { HaveEnded (M.rules_of self.now.options self.now.input) (world M.rules_of self.now) }
        ensures value { IfOk result (λ f. f ≡ M.told self.now.options self.now.input self.now.order) }
        ensures blocks { IfOk result (λ f. IsBlockRun (M.arena self.now.options self.now.input) (length_of self.now.input.rows) f.calls) }
        ensures scripts { IfOk result (λ f. TellsScripts self.now.input.asked f.calls) }

        // A live block's bytes are backed, and no more is backed than the arena has.
        ensures covered { IfOk result (λ f. f.live_bytes ≤ f.resident * page_bytes) }
        ensures most { IfOk result (λ f. f.resident ≤ huge_pages * M.arena self.now.options self.now.input) }
        ensures arena { IfOk result (λ f. f.resident ≤ huge_pages * most_huge_of_nodes) }
    {
        let (noted, totals) = self.tell(Noted::new(self.alloc))?;
        Ok(Finished {
            calls: Listed::new(noted.calls),
            live: totals.live,
            live_bytes: totals.live_bytes,
            used: totals.used,
            resident: totals.resident,
            rows: totals.rows,
        })
    }
}
