//! The whole generated trace.
ghost use Rattle.std.specs.Prelude.{◌≡◌, ℕ, ◌<◌, ◌≤◌, ◌++◌, IfOk, OnOk, IsOkAnd};
ghost use Rattle.std.specs.List.{flat_map};
ghost use Rattle.trace_gen.specs.Generated.{cpus_of, heads_of, lines_of, after_call, next_kind, at_call};
ghost use Rattle.trace_gen.specs.Said.{none_said, said_by, with_lines, AreGood};
ghost use Rattle.trace_gen.specs.TraceText.{line_text, trace_text};
ghost use Rattle.trace_reader.specs.Reading.{asked_by};
ghost use Rattle.trace_reader.specs.Steps.{IsReading};
ghost use Rattle.trace_reader.specs.Traces.{trace_of};
ghost use Rattle.trace_reader.specs.Valid.{IsAsked};

use crate::draft::Draft;
use crate::state::Generator;
use std::alloc::{AllocError, Global};
use tc_model::Head;
use trace_reader::{Form, Trace};

/// A generated trace.
#[derive(Drop)]
pub struct Generated {
    pub text: Vec<u8>,
    /// What the text asks for.
    pub trace: Trace,
}

/// The heads alone: CPUs, threads, and 1024 hugepages.
fn heads(alloc: Global, cpus: u64, threads: u64) -> Result<Draft, AllocError>
    requires cpus { cpus ≡ cpus_of threads }
    requires good { AreGood none_said (heads_of threads) }
    ensures text { IfOk result (λ draft. draft.text.items ≡ flat_map line_text (heads_of threads)) }
    ensures said { IfOk result (λ draft. said_by draft ≡ with_lines none_said (heads_of threads)) }
    ensures reading { IfOk result (λ draft. IsReading draft.reader) }
{
    let mut draft = Draft::new(alloc)?;
    draft.push(Form::Head {
        head: Head::Cpus,
        value: cpus,
    })?;
    draft.push(Form::Head {
        head: Head::Threads,
        value: threads,
    })?;
    draft.push(Form::Head {
        head: Head::Huge,
        value: 1024,
    })?;
    Ok(draft)
}

/// Appends the lines of call `i`.
fn push_call(
    draft: &mut Draft,
    generator: &mut Generator,
    i: u64,
    cpus: u64,
    threads: u64,
) -> Result<(), AllocError>
    requires threads { 0 < threads }
    requires cpus { cpus ≡ cpus_of threads }
    requires next { generator.old.next < 4294967295 }
    requires good { AreGood (said_by draft.old) (lines_of threads i generator.old) }
    requires reading { IsReading draft.old.reader }
    ensures text { OnOk result
        (draft.new.text.items ≡ draft.old.text.items ++ flat_map line_text (lines_of threads i generator.old)) }
    ensures said { OnOk result (said_by draft.new ≡ with_lines (said_by draft.old) (lines_of threads i generator.old)) }
    ensures reading { OnOk result (IsReading draft.new.reader) }
    ensures after { OnOk result (generator.new
        ≡ after_call (next_kind generator.old) (at_call i generator.old)) }
{
    let (preemption, call) = generator.step(i, cpus, threads)?;
    if let Some(form) = preemption {
        draft.push(form)?;
    }
    draft.push(call)
}

/// A trace of so many calls of so many threads, on half as many CPUs, rounded up, and on 1024
/// hugepages. The same seed gives the same trace. Always a valid trace, however many size classes there are:
/// what it asks for comes with it, as reading its text would give it.
pub fn generate(alloc: Global, seed: u64, calls: u64, threads: u8) -> Result<Generated, AllocError>
    requires seed { seed ≤ 2147483647 }
    requires some_calls { 1 ≤ calls }
    requires calls { calls ≤ 500000 }
    requires some_threads { 1 ≤ threads }
    requires threads { threads ≤ 64 }
    ensures text { IfOk result (λ generated. generated.text.items ≡ trace_text seed calls threads) }
    ensures trace { IfOk result (λ generated. (classes : ℕ)
        → IsOkAnd (asked_by classes generated.text.items) (λ asked. generated.trace ≡ trace_of asked)) }
    ensures valid { IfOk result (λ generated. (classes : ℕ)
        → IsOkAnd (asked_by classes generated.text.items) (IsAsked classes)) }
{
    let threads = u64::from(threads);
    let cpus = (threads + 1) / 2;
    let mut draft = heads(alloc, cpus, threads)?;
    let mut generator = Generator::new(alloc, seed as u32);
    for i in 0..calls {
        push_call(&mut draft, &mut generator, i, cpus, threads)?;
    }
    let Draft { text, reader, .. } = draft;
    let trace = reader.into_trace(alloc)?;
    Ok(Generated { text, trace })
}
