//! A thread for a worker, which comes back with it.
ghost use Rattle.std.specs.Prelude.{◌≡◌, IfOk, IfErr};
ghost use Rattle.replay_workers.specs.Runs.{patience, Ran, HasRun, IsReady, Stands};

use crate::turns::run_alone;
use crate::worker::Worker;
use std::alloc::Global;
use std::snapshot::Snapshot;
use std::sync::Wait;
use std::sync::atomic::{AtomicUsize, Ordering};
use std::thread::{Promise, PromisedHandle, Scope, Threads};
use tc_model::Board;
use tc_ports::Gate;

/// Runs a worker in its thread, or gives it back unrun where no thread could be had for its place.
fn run_unless_refused<R: Wait, B: Board, G: Gate>(
    rt: &R,
    alloc: Global,
    board: &B,
    gate: &G,
    refused: &AtomicUsize,
    place: usize,
    mut worker: Worker<B>,
) -> Result<Worker<B>, Worker<B>>
    requires { IsReady (B.fits board.now) worker }
    ensures ran { IfOk result (λ w. HasRun (B.turns board.now) (B.thread_of board.now) (B.fits board.now) patience worker w) }
    ensures back { IfErr result (λ w. w ≡ worker) }
{
    if refused.load(Ordering::SeqCst) == place {
        return Err(worker);
    }
    run_alone(rt, alloc, board, gate, &mut worker);
    Ok(worker)
}

/// What a worker's thread will give back: the worker, which has run on this board, or as it was.
#[derive(Drop)]
pub(crate) struct Comes<B: Board> {
    board: Snapshot<B>,
    was: Snapshot<Worker<B>>,
}

impl<B: Board> Promise<Result<Worker<B>, Worker<B>>> for Comes<B> {
    ghost use Rattle.std.specs.Prelude.{◌≡◌, IfOk, IfErr};
    ghost use Rattle.replay_workers.specs.Runs.{patience, HasRun};

    ghost kept_by = { λ p r. IfOk r (HasRun (B.turns p.board.value) (B.thread_of p.board.value) (B.fits p.board.value) patience p.was.value) × IfErr r (λ w. w ≡ p.was.value) };
}

/// A thread of a worker.
pub(crate) type Handle<B> = PromisedHandle<Result<Worker<B>, Worker<B>>, Comes<B>>;

/// Starts a thread for a worker, or gives it back where none can be had.
pub(crate) fn start<'s, E, R: Threads + Wait + Sync, B: Board + Sync, G: Gate + Sync>(
    scope: &Scope<'s, E>,
    rt: &'s R,
    alloc: Global,
    board: &'s B,
    gate: &'s G,
    refused: &'s AtomicUsize,
    place: usize,
    worker: Worker<B>,
) -> Result<Handle<B>, Worker<B>>
where
    B::Hand: Drop,
    requires { IsReady (B.fits board.now) worker }
    ensures ok { IfOk result (λ h. (h.promise.board.value ≡ board.now) × (h.promise.was.value ≡ worker)) }
    ensures err { IfErr result (λ w. Ran (B.turns board.now) (B.thread_of board.now) worker w × Stands (B.fits board.now) w) }
{
    let promise = Comes {
        board: Snapshot::of(board),
        was: Snapshot::of(&worker),
    };
    let run = move || -> Result<Worker<B>, Worker<B>>
        requires { IsReady (B.fits board.now) worker }
        ensures ran { IfOk result (HasRun (B.turns board.entry.now) (B.thread_of board.entry.now) (B.fits board.entry.now) patience worker) }
        ensures back { IfErr result (λ w. w ≡ worker) }
    { run_unless_refused(rt, alloc, board, gate, refused, place, worker) };
    match scope.spawn_with(promise, run) {
        Ok(handle) => Ok(handle),
        Err(none) => {
            refused.store(place, Ordering::SeqCst);
            match (none.value)() {
                Ok(worker) | Err(worker) => Err(worker),
            }
        }
    }
}

/// Waits for a thread, and runs its worker here where that comes back unrun.
pub(crate) fn come<R: Threads + Wait, B: Board, G: Gate>(
    rt: &R,
    alloc: Global,
    board: &B,
    gate: &G,
    handle: Handle<B>,
) -> Worker<B>
    requires board { handle.promise.board.value ≡ board.now }
    requires ready { IsReady (B.fits board.now) handle.promise.was.value }
    ensures { HasRun (B.turns board.now) (B.thread_of board.now) (B.fits board.now) patience handle.promise.was.value result }
{
    match handle.join(rt) {
        Ok(worker) => worker,
        Err(mut worker) => {
            run_alone(rt, alloc, board, gate, &mut worker);
            worker
        }
    }
}
