//! A whole run of a state by threads: put under one lock, run, and taken out again.
ghost use Rattle.std.specs.Prelude.{◌≡◌, ℕ, ◌<◌, [], All, length, slice_index_or, None, IfOk};
ghost use Rattle.tc_model.specs.declared.board.Turn.TheVariants as turn;
ghost use Rattle.tc_model.specs.Run.{start};
ghost use Rattle.tc_model.specs.Chains.{IsPolite};
ghost use Rattle.replay_workers.specs.Runs.{IsReady, halt_among};
ghost use Rattle.cpu_rows.specs.Machine as allocator;
ghost use Rattle.cpu_rows.specs.Switches.{SwitchesAreFew};

use crate::board::WorldBoard;
use crate::named::Named;
use crate::world::World;
use cpu_front::CpuState;
use replay_workers::{Worker, halt_of, lasts_of, run_workers};
use std::alloc::{AllocError, Global};
use std::marker::Brand;
use std::sync::Wait;
use std::thread::Threads;
use tc_model::{Halt, Turn};
use tc_ports::Gate;
use tc_units::ThreadNo;

/// What threads left of a state, the last answer of each thread's worker, and why one was halted, if one was.
#[derive(Drop)]
pub struct Left {
    pub state: CpuState,
    pub lasts: Vec<Turn>,
    pub halt: Option<Halt>,
}

/// A worker before its first turn.
fn worker_for<N: Named + Send>(board: &WorldBoard<N>, thread: ThreadNo) -> Worker<WorldBoard<N>>
    ensures thread { result.hand.thread ≡ thread }
    ensures last { result.last ≡ turn.NotYet }
{
    Worker {
        hand: board.hand(thread),
        turns: 0,
        last: Turn::NotYet,
    }
}

/// A worker for each thread.
fn seat_all<N: Named + Send>(
    alloc: Global,
    board: &WorldBoard<N>,
    threads: u8,
) -> Result<Vec<Worker<WorldBoard<N>>>, AllocError>
    requires { threads ≡ N.input.asked.config.threads }
    ensures ready { IfOk result (λ workers. All (IsReady (λ h. h.thread.0 < N.input.asked.config.threads)) workers.items) }
    ensures all { IfOk result (λ workers. length workers.items ≡ threads) }
    ensures threads { IfOk result (λ workers. (t : ℕ) (d : _) → t < threads → (slice_index_or workers.items t d).hand.thread.0 ≡ t) }
{
    let mut workers = Vec::new(alloc);
    for thread in 0..threads {
        workers.push(worker_for(board, ThreadNo(thread)))?;
    }
    Ok(workers)
}

/// Runs a state under the name of its input.
fn run_in<N: Named + Send + Sync, R: Threads + Wait + Sync, G: Gate + Sync>(
    rt: &R,
    alloc: Global,
    gate: &G,
    state: CpuState,
) -> Result<Left, AllocError>
    requires input { state.input ≡ N.input }
    requires start { state.order ≡ [] }
    ensures input { IfOk result (λ left. left.state.input ≡ N.input) }
    ensures polite { IfOk result (λ left. IsPolite (allocator.rules N.input) (start (allocator.rules N.input)) left.state.order) }
    ensures switches { IfOk result (λ left. SwitchesAreFew (allocator.rules N.input) left.state.order) }
    ensures lasts { IfOk result (λ left. length left.lasts.items ≡ N.input.asked.config.threads) }
    ensures halt { IfOk result (λ left. left.halt ≡ halt_among left.lasts.items) }
    ensures over { IfOk result (λ left. left.halt ≡ None → All (λ last. last ≡ turn.Ended) left.lasts.items) }
{
    let threads = state.threads();
    let board = WorldBoard::<N>::new(World::new(state));
    let workers = seat_all(alloc, &board, threads)?;
    let workers = run_workers(rt, alloc, &board, gate, workers);
    let lasts = lasts_of(alloc, workers.as_slice())?;
    let halt = halt_of(workers.as_slice());
    let state = board.into_world().into_state();
    Ok(Left { state, lasts, halt })
}

/// Runs a state from its start, a thread for each of its threads, until each worker was told that its script has
/// ended, or one was halted. The state that is left is of the same input, each pick of its order moved and was
/// polite, and at each CPU few threads switched in. A halt is that of the workers' last answers: for want of memory
/// where one of them lacked it, and else for the limit.
pub fn run_all<R: Threads + Wait + Sync, G: Gate + Sync>(
    rt: &R,
    alloc: Global,
    gate: &G,
    state: CpuState,
) -> Result<Left, AllocError>
    requires start { state.order ≡ [] }
    ensures input { IfOk result (λ left. left.state.input ≡ state.input) }
    ensures polite { IfOk result (λ left. IsPolite (allocator.rules state.input) (start (allocator.rules state.input)) left.state.order) }
    ensures switches { IfOk result (λ left. SwitchesAreFew (allocator.rules state.input) left.state.order) }
    ensures lasts { IfOk result (λ left. length left.lasts.items ≡ state.input.asked.config.threads) }
    ensures halt { IfOk result (λ left. left.halt ≡ halt_among left.lasts.items) }
    ensures over { IfOk result (λ left. left.halt ≡ None → All (λ last. last ≡ turn.Ended) left.lasts.items) }
{
    run_in::<Brand, R, G>(rt, alloc, gate, state)
}
