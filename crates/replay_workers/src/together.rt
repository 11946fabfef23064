//! Workers that one thread runs in turn.
ghost use Rattle.std.specs.Prelude.{◌≡◌, length, ◌↔◌, IsTrue, All, false, true, vec_capacity};
ghost use Rattle.replay_workers.specs.Runs.{is_over, patience, Done, RanBelow, RunEach, StillBelow, Stands};

use crate::turns::{PATIENCE, give_way, has_ended, run_on};
use crate::worker::Worker;
use std::alloc::Global;
use std::sync::Wait;
use tc_model::{Board, Turn};
use tc_ports::Gate;

/// Has each that isn't over take turns as long as they move, and tells whether one did.
fn give_round<R: Wait, B: Board, G: Gate>(
    rt: &R,
    alloc: Global,
    board: &B,
    gate: &G,
    workers: &mut [Worker<B>],
) -> bool
    requires { All (Stands (B.fits board.now)) workers.old }
    ensures each { RanBelow (B.turns board.now) (B.thread_of board.now) (B.fits board.now) (length workers.old) workers.old workers.new }
    ensures still { result ≡ false → StillBelow (B.turns board.now) (length workers.old) workers.old workers.new }
{
    let mut moved = false;
    for i in 0..workers.len() {
        moved |= run_on(rt, alloc, board, gate, &mut workers[i]);
    }
    moved
}

/// Whether each is over.
fn are_over<B: Board>(workers: &[Worker<B>]) -> bool
    ensures { IsTrue result ↔ All (λ w. is_over w.last ≡ true) workers.now }
{
    workers.iter().all(|worker| has_ended(worker.last))
}

/// Runs workers in this thread, round by round, until each is over or so many rounds in a row moved nothing.
fn run_together<R: Wait, B: Board, G: Gate>(
    rt: &R,
    alloc: Global,
    board: &B,
    gate: &G,
    workers: &mut [Worker<B>],
)
    requires { All (Stands (B.fits board.now)) workers.old }
    ensures { RunEach (B.turns board.now) (B.thread_of board.now) (B.fits board.now) patience workers.old workers.new }
{
    let mut idle = 0;
    for _ in rt.forever() {
        if idle >= PATIENCE || are_over(workers) {
            return;
        }
        if give_round(rt, alloc, board, gate, workers) {
            idle = 0;
        } else {
            idle += 1;
            give_way(rt, idle);
        }
    }
    unreachable!()
}

/// Runs workers in this thread, and gives them back.
pub(crate) fn run_here<R: Wait, B: Board, G: Gate>(
    rt: &R,
    alloc: Global,
    board: &B,
    gate: &G,
    mut workers: Vec<Worker<B>>,
) -> Vec<Worker<B>>
    requires { All (Stands (B.fits board.now)) workers.items }
    ensures long { length result.items ≡ length workers.items }
    ensures room { vec_capacity result ≡ vec_capacity workers }
    ensures each { RunEach (B.turns board.now) (B.thread_of board.now) (B.fits board.now) patience workers.items result.items }
{
    run_together(rt, alloc, board, gate, workers.as_mut_slice());
    workers
}

/// Whether each has ended or one is halted.
pub(crate) fn is_done<B: Board>(workers: &[Worker<B>]) -> bool
    ensures { IsTrue result ↔ Done workers.now }
{
    let mut all = true;
    for i in 0..workers.len() {
        match workers[i].last {
            Turn::Halted { cause: _ } => return true,
            Turn::Ended => {}
            _ => all = false,
        }
    }
    all
}
