//! What a machine of the allocator offers beside its acts: an opening from its options, a class table and a trace, and
//! what a run of it tells.
ghost use Rattle.std.specs.Prelude.{◌≡◌, ℕ, Bool, ◌≤◌, List, length, IfOk};
ghost use Rattle.tc_model.specs.declared.calls.Call.{Call as Asking};
ghost use Rattle.tc_model.specs.declared.answers.Finished.{Finished as Told};
ghost use Rattle.tc_model.specs.Input.{Asked, Input};
ghost use Rattle.tc_model.specs.Run.{Rules, world_of, start, run};
ghost use Rattle.tc_model.specs.Steps.{moving};
ghost use Rattle.alloc_rules.specs.Inputs.{not_taken};
ghost use Rattle.alloc_rules.specs.Machine.{turns as turns_of};
ghost use Rattle.tc_machine.specs.Inputs.{IsRead, asked_of, input_of};

use size_classes::ClassTable;
use std::alloc::{AllocError, Global};
use tc_model::{Call, Machine, Serial};
use trace_reader::Trace;

/// A machine with the parts and the locals of its start.
#[derive(Drop)]
pub struct Opened<M: Machine> {
    pub machine: M,
    pub parts: Vec<M::Part>,
    pub locals: Vec<M::Local>,
}

/// A machine that is opened from its options, a class table and a trace. What a run of it tells is a function of these and its
/// order; a machine tells it behind the run (`Recalls`) or along it (`Decides`).
pub trait Allocator: Serial + Drop {
    /// What a command says of its machine beside the trace; `()` where there is nothing to say.
    type Options: Copy;

    // What it is a run of: its input, under its options. Its rules are a function of both.
    ghost input: { Self → Input };

    ghost options: { Self → Self.Options };

    ghost rules_of: { Self.Options → Input → Rules Self.Part Self.Local };

    // The hugepages in which its blocks lie.
    ghost arena: { Self.Options → Input → ℕ };

    // The calls that it takes: a trace with others is none of its traces.
    ghost takes: { Asking → Bool };

    // Its law, for an order each of whose picks moves, and what its run tells.
    ghost lawful: { Self.Options → Input → List ℕ → Type 0 };

    ghost told: { Self.Options → Input → List ℕ → Told };

    /// Whether it takes a call.
    fn can_take(call: Call) -> bool
        ensures { result ≡ takes call };

    /// The machine with the chosen options for the calls of a trace. Its condition is that the reader answers this trace
    /// for some text, and that it takes each call.
    fn open(
        alloc: Global,
        chosen: Self::Options,
        table: ClassTable,
        trace: Trace,
    ) -> Result<Opened<Self>, AllocError>
        requires read { (asked : Asked) × IsRead (length table) trace asked }
        requires taken { not_taken takes (asked_of trace).calls ≡ 0 }
        ensures input { IfOk result (λ o. input o.machine ≡ input_of table trace) }
        ensures options { IfOk result (λ o. options o.machine ≡ chosen) }
        ensures start { IfOk result (λ o. world_of o.parts.items o.locals.items ≡ start (rules_of chosen (input o.machine))) };

    /// How many threads there are.
    fn threads(&self) -> u8
        ensures { result ≡ (input self.now).asked.config.threads };

    /// How many picks of a run may move.
    fn most_picks(&self) -> u64
        ensures is { result ≡ (input self.now).asked.config.events }
        ensures few { result ≤ 40000000 };

    // Its rules, its turns and its threads are those of its options and its input.
    ghost same_rules: { (machine : Self) → Self.rules machine ≡ rules_of (options machine) (input machine) };

    ghost same_turns: { (machine : Self) → Self.turns machine ≡ turns_of (input machine).asked };

    ghost as_many: { (machine : Self) → length (Self.rules machine).locals ≡ (input machine).asked.config.threads };

    // It is lawful in every order whose picks move.
    ghost is_lawful: { (machine : Self) (order : List ℕ) → moving (rules_of (options machine) (input machine)) (start (rules_of (options machine) (input machine))) order ≡ order → length order ≤ (input machine).asked.config.events → lawful (options machine) (input machine) order };

    // A lawful order has at most as many picks as may move.
    ghost is_few: { (options : Self.Options) (input : Input) (order : List ℕ) → lawful options input order → length order ≤ input.asked.config.events };
}
