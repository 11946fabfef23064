//! Running a job by threads, under one lock or under a lock for each part, and then what they left in
//! trace order.
ghost use Rattle.std.specs.Prelude.{ℕ, ◌≡◌, ◌≤◌, ◌↔◌, [], length, Some, IfOk, IsErr};
ghost use Rattle.tc_model.specs.declared.board.Halt.TheVariants as halts;
ghost use Rattle.tc_model.specs.Run.{start};
ghost use Rattle.tc_model.specs.Chains.{IsPolite};
ghost use Rattle.cpu_rows.specs.Machine as allocator;
ghost use Rattle.relay.specs.Ends.{IsRun};
ghost use Rattle.trace_reader.specs.Valid.{IsAsked};
ghost use Rattle.alloc_rules.specs.Inputs.{not_taken};
ghost use Rattle.tc_machine.specs.Inputs.{asked_of};
ghost use Rattle.tcreplay.specs.Reads.{seen_job, IsRunnable};
ghost use Rattle.tcreplay.specs.Came.{IsLeft};
ghost use Rattle.tcreplay.specs.Ran.{HasStep, IsRanByThreads, IsRunByThreads};
ghost use Rattle.tcreplay.specs.Machines.{per_cpu};
ghost use Rattle.tcreplay.specs.declared.task.Locks.TheVariants.{One, Parts};

use crate::input::Job;
use crate::run::{Ran, Telling, come_to};
use crate::task::Locks;
use cpu_front::{CpuMachine, CpuState};
use part_lock::Closed;
use relay::Finish;
use std::alloc::{AllocError, Global};
use std::sync::Wait;
use std::thread::Threads;
use tc_machine::{Allocator, Recalls, State};
use tc_model::{Halt, Turn};
use tc_ports::Gate;
use world_lock::Left;

/// A worker that was halted for want of memory ends the run for want of memory. One that was halted at the
/// limit doesn't: what is left is tried in trace order, and that tells whether a pick would move.
fn unless_memory(halt: Option<Halt>) -> Result<(), AllocError>
    ensures { IsErr result ↔ (halt ≡ Some halts.Memory) }
{
    match halt {
        Some(Halt::Memory) => Err(AllocError),
        Some(Halt::Full) | None => Ok(()),
    }
}

/// What worker threads left of a state: under which locks they ran, the last answer of each, and why one was halted, if
/// one was.
#[derive(Drop)]
struct Came<M: Allocator> {
    state: State<M>,
    locks: Locks,
    lasts: Vec<Turn>,
    halt: Option<Halt>,
}

/// Runs the threads of a state of the per-CPU caches under one lock.
fn run_under_one_lock<R: Threads + Wait + Sync, G: Gate + Sync>(
    rt: &R,
    alloc: Global,
    gate: &G,
    state: CpuState,
) -> Result<Came<CpuMachine>, AllocError>
    requires start { state.order ≡ [] }
    ensures left { IfOk result (λ came. IsLeft allocator.rules state.input One came.state came.locks came.lasts.items came.halt) }
{
    let Left { state, lasts, halt } = world_lock::run_all(rt, alloc, gate, state)?;
    unless_memory(halt)?;
    Ok(Came {
        state,
        locks: Locks::One,
        lasts,
        halt,
    })
}

/// What threads left under a lock for each part: their acts in order, or want of memory where a worker lacked it.
fn gathered<M: Allocator>(alloc: Global, left: Finish<M>) -> Result<Came<M>, AllocError>
    requires run { IsRun (M.rules_of (M.options left.closed.machine) (M.input left.closed.machine)) left.closed.parts.items left.locals.items left.order.items }
    requires few { length left.order.items ≤ (M.input left.closed.machine).asked.config.events }
    ensures memory { left.halt ≡ Some halts.Memory → IsErr result }
    ensures enough { IfOk result (λ came. came.halt ≡ Some halts.Memory → ⊥) }
    ensures options { IfOk result (λ came. came.state.options ≡ M.options left.closed.machine) }
    ensures input { IfOk result (λ came. came.state.input ≡ M.input left.closed.machine) }
    ensures order { IfOk result (λ came. came.state.order ≡ left.order.items) }
    ensures locks { IfOk result (λ came. came.locks ≡ Parts) }
    ensures lasts { IfOk result (λ came. came.lasts.items ≡ left.lasts.items) }
    ensures halt { IfOk result (λ came. came.halt ≡ left.halt) }
{
    let Finish {
        closed,
        locals,
        order,
        lasts,
        halt,
    } = left;
    unless_memory(halt)?;
    let Closed {
        machine,
        parts,
        entries: _,
    } = closed;
    let state = State::gather(alloc, machine, parts, locals, order);
    Ok(Came {
        state,
        locks: Locks::Parts,
        lasts,
        halt,
    })
}

/// Runs a state's threads under a lock for each part. Of its picks at most `events` may move.
fn run_under_part_locks<R: Threads + Wait + Sync, M: Allocator + Sync, G: Gate + Sync>(
    rt: &R,
    alloc: Global,
    gate: &G,
    state: State<M>,
    events: u64,
) -> Result<Came<M>, AllocError>
where
    M::Part: Send,
    M::Local: Send,
    requires start { state.order ≡ [] }
    requires events { events ≡ state.input.asked.config.events }
    requires most { events ≤ 40000000 }
    ensures options { IfOk result (λ came. came.state.options ≡ state.options) }
    ensures left { IfOk result (λ came. IsLeft (M.rules_of state.options) state.input Parts came.state came.locks came.lasts.items came.halt) }
{
    let _threads = state.threads();
    let (machine, parts, locals) = state.split();
    let Some(left) = relay::run_all(rt, alloc, gate, machine, parts, locals, events) else {
        return Err(AllocError);
    };
    gathered(alloc, left)
}

/// Ends every call of what threads left, in trace order.
fn complete<M: Recalls>(alloc: Global, came: Came<M>, telling: Telling) -> Result<Ran, AllocError>
    requires left { IsLeft (M.rules_of came.state.options) came.state.input came.locks came.state came.locks came.lasts.items came.halt }
    requires valid { (classes : ℕ) × IsAsked classes came.state.input.asked }
    requires step { HasStep telling }
    ensures { IfOk result (IsRunByThreads (M.rules_of came.state.options) (M.arena came.state.options) (M.told came.state.options) (M.lawful came.state.options) came.locks telling came.state.input) }
{
    let Came {
        mut state,
        locks,
        ..
    } = came;
    let completed = state.run_serial();
    let ran = come_to(alloc, state, completed, telling)?;
    let under = Some(locks);
    Ok(Ran { under, ..ran })
}

/// Runs a job on a machine with these options by a thread for each of its threads, under a lock for each part, and then
/// what they left.
pub fn run_by_part_locks<R: Threads + Wait + Sync, M: Recalls + Sync, G: Gate + Sync>(
    rt: &R,
    alloc: Global,
    gate: &G,
    options: M::Options,
    job: Job,
    telling: Telling,
) -> Result<Ran, AllocError>
where
    M::Part: Send,
    M::Local: Send,
    requires runs { IsRunnable job }
    requires step { HasStep telling }
    requires taken { not_taken M.takes (asked_of job.trace).calls ≡ 0 }
    ensures { IfOk result (IsRunByThreads (M.rules_of options) (M.arena options) (M.told options) (M.lawful options) Parts telling (seen_job job).input) }
{
    let Job {
        table,
        trace,
        picks: _,
        room,
    } = job;
    drop(room);
    let events = trace.config.events;
    let state = State::<M>::open(alloc, options, table, trace)?;
    let came = run_under_part_locks(rt, alloc, gate, state, events)?;
    complete(alloc, came, telling)
}

/// Runs a job on the per-CPU caches by a thread for each of its threads, under one lock, and then what they left.
pub fn run_by_one_lock<R: Threads + Wait + Sync, G: Gate + Sync>(
    rt: &R,
    alloc: Global,
    gate: &G,
    job: Job,
    telling: Telling,
) -> Result<Ran, AllocError>
    requires runs { IsRunnable job }
    requires step { HasStep telling }
    ensures { IfOk result (IsRanByThreads per_cpu One telling (seen_job job).input) }
{
    let Job {
        table,
        trace,
        picks: _,
        room,
    } = job;
    drop(room);
    let state = CpuState::open(alloc, (), table, trace)?;
    let came = run_under_one_lock(rt, alloc, gate, state)?;
    complete(alloc, came, telling)
}
