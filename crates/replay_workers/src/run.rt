//! Each worker takes turns in a thread of its own, those for which no thread can be had take them together in the
//! calling one, and that one ends what all left.
ghost use Rattle.std.specs.Prelude.{◌≡◌, length, All, None, vec_capacity};
ghost use Rattle.tc_model.specs.declared.board.Turn.TheVariants as turn;
ghost use Rattle.replay_workers.specs.Runs.{halt_of, patience, Done, RanBelow, RunEach, IsReady};

use crate::started::{come, start};
use crate::together::{is_done, run_here};
use crate::worker::Worker;
use std::alloc::Global;
use std::sync::Wait;
use std::sync::atomic::AtomicUsize;
use std::thread;
use std::thread::{Scope, Threads};
use tc_model::Board;
use tc_ports::Gate;

/// Runs each worker but the first in a thread of its own, as long as one can be had, and the others in this thread. It
/// comes back when all these threads have ended.
#[cycle(workers)]
fn run_in<'s, E, R: Threads + Wait + Sync, B: Board + Sync, G: Gate + Sync>(
    scope: &Scope<'s, E>,
    rt: &'s R,
    alloc: Global,
    board: &'s B,
    gate: &'s G,
    refused: &'s AtomicUsize,
    mut workers: Vec<Worker<B>>,
) -> Vec<Worker<B>>
where
    B::Hand: Drop,
    requires { All (IsReady (B.fits board.now)) workers.items }
    ensures long { length result.items ≡ length workers.items }
    ensures room { vec_capacity result ≡ vec_capacity workers }
    ensures each { RunEach (B.turns board.now) (B.thread_of board.now) (B.fits board.now) patience workers.items result.items }
{
    let place = workers.len();
    if place < 2 {
        return run_here(rt, alloc, board, gate, workers);
    }
    let Some(worker) = workers.pop() else {
        unreachable!()
    };
    match start(scope, rt, alloc, board, gate, refused, place, worker) {
        Ok(handle) => {
            let mut workers = run_in(scope, rt, alloc, board, gate, refused, workers);
            workers.push_reserved(come(rt, alloc, board, gate, handle));
            workers
        }
        Err(worker) => {
            workers.push_reserved(worker);
            run_here(rt, alloc, board, gate, workers)
        }
    }
}

/// Runs each worker in a thread of its own, and the first and those for which none can be had in this one.
fn run_beside<R: Threads + Wait + Sync, B: Board + Sync, G: Gate + Sync>(
    rt: &R,
    alloc: Global,
    board: &B,
    gate: &G,
    workers: Vec<Worker<B>>,
) -> Vec<Worker<B>>
where
    B::Hand: Drop,
    requires { All (IsReady (B.fits board.now)) workers.items }
    ensures long { length result.items ≡ length workers.items }
    ensures each { RunEach (B.turns board.now) (B.thread_of board.now) (B.fits board.now) patience workers.items result.items }
{
    let no_place = AtomicUsize::new(0);
    let refused = &no_place;
    thread::scope(
        thread::scope_env(),
        rt,
        move |scope| -> Vec<Worker<B>>
            requires { All (IsReady (B.fits board.now)) workers.items }
            ensures long { length result.items ≡ length workers.items }
            ensures each { RunEach (B.turns board.entry.now) (B.thread_of board.entry.now) (B.fits board.entry.now) patience workers.items result.items }
        { run_in(scope, rt, alloc, board, gate, refused, workers) },
    )
}

/// Runs each worker's loop in a thread of its own: it passes the gate and takes a turn of the board, until it has
/// ended, is halted, or took so many turns in a row that moved nothing that some seconds passed. The first worker and
/// those for which no thread can be had run beside them in the calling thread, one after another, each as long as it
/// moves. Then the calling thread does so with all that haven't ended, until each has ended or one is halted. Want of
/// memory stands in `last`.
pub fn run_workers<R: Threads + Wait + Sync, B: Board + Sync, G: Gate + Sync>(
    rt: &R,
    alloc: Global,
    board: &B,
    gate: &G,
    workers: Vec<Worker<B>>,
) -> Vec<Worker<B>>
where
    B::Hand: Drop,
    requires ready { All (IsReady (B.fits board.now)) workers.items }
    ensures long { length result.items ≡ length workers.items }
    ensures each { RanBelow (B.turns board.now) (B.thread_of board.now) (B.fits board.now) (length workers.items) workers.items result.items }
    ensures done { Done result.items }
    ensures over { halt_of result.items ≡ None → All (λ w. w.last ≡ turn.Ended) result.items }
{
    let mut workers = run_beside(rt, alloc, board, gate, workers);
    for _ in rt.forever() {
        if is_done(workers.as_slice()) {
            return workers;
        }
        workers = run_here(rt, alloc, board, gate, workers);
    }
    unreachable!()
}
