//! Threads at large blocks under one lock. The numbers were worked out by hand: an allocation has three
//! acts and a free has four. A block of 254 pages leaves room for none other in its hugepage.
ghost use Rattle.std.specs.Prelude.{◌≡◌, ◌<◌, [], All, IfOk};

use crate::{Left, Named, World, run_all};
use cpu_front::CpuState;
use size_classes::ClassTable;
use std::alloc::{AllocError, Global};
use std::marker::Brand;
use std::process::Abort;
use std::sync::Wait;
use std::test::Fail;
use std::thread::Threads;
use tc_model::{CallLine, Halt, StepFault, Turn};
use tc_ports::OpenGate;
use tc_units::ThreadNo;
use trace_reader::read_trace;

const FULL: Turn = Turn::Halted { cause: Halt::Full };

const NO_MEMORY: Turn = Turn::Halted {
    cause: Halt::Memory,
};

/// Thread 1 frees what thread 0 allocates.
const HANDED_OVER: &[u8] = b"threads 2\na 0 0 2080768\nf 1 0\n";

/// Each of two threads frees the other's block.
const CROSSED: &[u8] = b"threads 2\na 0 0 2080768\na 1 1 2080768\nf 0 1\nf 1 0\n";

/// Two threads at the one CPU, each of which allocates a small object there.
const AT_ONE_CPU: &[u8] = b"threads 2\na 0 0 16\na 1 1 16\n";

/// The state of two threads at the start of a trace.
fn opened(rt: &impl Abort, alloc: Global, text: &[u8]) -> Result<CpuState, Fail>
    ensures threads { IfOk result (λ s. s.input.asked.config.threads ≡ 2) }
    ensures start { IfOk result (λ s. s.order ≡ []) }
{
    let table = ClassTable::read(alloc, b"16,1,4\n64,1,2\n8192,1,2\n").expect(rt, "a table");
    let trace = read_trace(alloc, text, table.len()).expect(rt, "a trace");
    let state = CpuState::open(alloc, (), table, trace)?;
    assert_eq!(rt; state.threads(), 2);
    Ok(state)
}

/// The turns that come of picks, and how many calls of threads 0 and 1 have ended then.
#[derive(Drop)]
struct Steps {
    turns: Vec<Turn>,
    done: (u64, u64),
    state: CpuState,
}

/// Picks threads under the name of the state's input.
fn stepped_in<N: Named>(alloc: Global, state: CpuState, picks: &[u8]) -> Result<Steps, AllocError>
    requires input { state.input ≡ N.input }
    requires start { state.order ≡ [] }
    requires threads { state.input.asked.config.threads ≡ 2 }
    requires picks { All (λ t. t < 2) picks.now }
    ensures input { IfOk result (λ s. s.state.input ≡ N.input) }
{
    let mut world = World::<N>::new(state);
    let mut turns = Vec::new(alloc);
    for thread in picks {
        turns.push(world.step(ThreadNo(*thread)))?;
    }
    let done = (world.done(ThreadNo(0)), world.done(ThreadNo(1)));
    Ok(Steps {
        turns,
        done,
        state: world.into_state(),
    })
}

/// Picks threads from the start of a trace. Where memory ran out, each later step was halted too.
fn stepped(rt: &impl Abort, alloc: Global, text: &[u8], picks: &[u8]) -> Result<Steps, Fail>
    requires { All (λ t. t < 2) picks.now }
{
    let state = opened(rt, alloc, text)?;
    let steps = stepped_in::<Brand>(alloc, state, picks)?;
    let turns = steps.turns.as_slice();
    if let Some(halted) = turns.iter().position(|turn| *turn == NO_MEMORY) {
        assert!(rt; turns.iter().skip(halted).all(|turn| *turn == NO_MEMORY));
        return Err(AllocError.into());
    }
    Ok(steps)
}

/// Runs two workers from the start of a trace.
fn run<R: Threads + Wait + Sync + Abort>(rt: &R, alloc: Global, text: &[u8]) -> Result<Left, Fail> {
    let state = opened(rt, alloc, text)?;
    let left = run_all(rt, alloc, &OpenGate, state)?;
    if left.halt == Some(Halt::Memory) {
        return Err(AllocError.into());
    }
    Ok(left)
}

/// Asserts that calls are the same, in the same order.
fn assert_same(rt: &impl Abort, told: &[CallLine], others: &[CallLine]) {
    assert_eq!(rt; told.len(), others.len());
    for (line, other) in told.iter().zip(others) {
        assert_eq!(rt; *line, *other);
    }
}

/// Asserts that an order of a trace replays to itself and to these calls.
fn assert_replays(
    rt: &impl Abort,
    alloc: Global,
    text: &[u8],
    order: &[u16],
    told: &[CallLine],
) -> Result<(), Fail> {
    let mut again = opened(rt, alloc, text)?;
    assert!(rt; order.iter().all(|thread| *thread < 2));
    assert_eq!(rt; again.run_order(order), Ok(()));
    assert_eq!(rt; again.order(), order);
    assert!(rt; again.ended());
    assert_same(rt, told, again.finish()?.calls.as_slice());
    Ok(())
}

#[test]
fn picks_of_large_calls_are_never_held(rt: HostRuntime) -> Result<(), Fail> {
    let alloc = rt.alloc();
    let picks = [1u8, 0, 0, 0, 0, 1, 1, 1, 1, 1];
    let steps = stepped(&rt, alloc, HANDED_OVER, picks.as_slice())?;
    let moved = Turn::Moved;
    assert_eq!(rt;
        steps.turns.as_slice(),
        [
            Turn::NotYet,
            moved,
            moved,
            moved,
            Turn::Ended,
            moved,
            moved,
            moved,
            moved,
            Turn::Ended,
        ]
        .as_slice()
    );
    assert_eq!(rt; steps.done, (1, 1));
    assert_eq!(rt; steps.state.order(), [0u16, 0, 0, 1, 1, 1, 1].as_slice());
    assert!(rt; steps.state.ended());

    // Thread 0 has ended its call, and thread 1 none.
    let steps = stepped(&rt, alloc, HANDED_OVER, [0u8, 0, 0, 1].as_slice())?;
    assert_eq!(rt; steps.done, (1, 0));
    Ok(())
}

#[test]
fn a_thread_is_held_while_another_has_just_switched_in(rt: HostRuntime) -> Result<(), Fail> {
    let alloc = rt.alloc();
    // Thread 0 switches in and begins its pop. Until that has ended it isn't polite of thread 1 to switch in.
    let steps = stepped(&rt, alloc, AT_ONE_CPU, [0u8, 1, 0, 1].as_slice())?;
    let moved = Turn::Moved;
    assert_eq!(rt;
        steps.turns.as_slice(),
        [moved, Turn::Held, moved, Turn::Held].as_slice()
    );
    assert_eq!(rt; steps.state.order(), [0u16, 0].as_slice());
    assert_eq!(rt; steps.done, (0, 0));
    Ok(())
}

#[test]
fn a_halt_stays_for_its_cause(rt: HostRuntime) -> Result<(), Fail> {
    let alloc = rt.alloc();
    let text = b"threads 2\nevents 4\na 0 0 2080768\nf 1 0\n";
    // Thread 0 has ended, but after the halt it is told so no more.
    let picks = [0u8, 0, 0, 0, 1, 1, 0, 1];
    let steps = stepped(&rt, alloc, text, picks.as_slice())?;
    let moved = Turn::Moved;
    assert_eq!(rt;
        steps.turns.as_slice(),
        [moved, moved, moved, Turn::Ended, moved, FULL, FULL, FULL].as_slice()
    );
    assert_eq!(rt; steps.state.order(), [0u16, 0, 0, 1].as_slice());
    Ok(())
}

#[test]
fn the_order_of_two_workers_replays_to_their_calls(rt: HostRuntime) -> Result<(), Fail> {
    let alloc = rt.alloc();
    let left = run(&rt, alloc, CROSSED)?;
    assert_eq!(rt; left.halt, None);
    assert_eq!(rt;
        left.lasts.as_slice(),
        [Turn::Ended, Turn::Ended].as_slice()
    );
    assert!(rt; left.state.ended());
    let order = left.state.order();
    assert_eq!(rt; order.len(), 14);
    let told = left.state.finish()?;
    assert_eq!(rt; told.live, 0);
    assert_eq!(rt; told.used, 0);
    assert_replays(&rt, alloc, CROSSED, order, told.calls.as_slice())
}

#[test]
fn workers_end_at_the_limit(rt: HostRuntime) -> Result<(), Fail> {
    let text = b"threads 2\nevents 5\na 0 0 2080768\na 1 1 2080768\n";
    let mut left = run(&rt, rt.alloc(), text)?;
    assert_eq!(rt; left.halt, Some(Halt::Full));
    assert_eq!(rt; left.state.order().len(), 5);
    assert_eq!(rt; left.state.run_serial(), Err(StepFault::Full { ticket: 5 }));
    Ok(())
}
