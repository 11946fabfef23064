//! The turns of one worker, until it has waited for long.
ghost use Rattle.std.specs.Prelude.{◌≡◌, ◌≤◌, false};
ghost use Rattle.replay_workers.specs.Runs.{is_over, most_nap, patience, Ran, GivesUpAfter, IsStill, IsReady, Stands};

use crate::worker::Worker;
use std::alloc::Global;
use std::sync::Wait;
use std::thread;
use std::thread::Parker;
use std::time::Duration;
use tc_model::{Board, Turn};
use tc_ports::Gate;
use tc_units::ThreadNo;

/// How many turns in a row may move nothing before a worker's thread ends, which are some seconds of naps (this
/// project's own rule).
pub(crate) const PATIENCE: u64 = 30_000;

/// After so many turns in a row that moved nothing a worker naps between two of them. Before it leaves the processor
/// to others, once more each time (this project's own rule).
const FIRST_NAP: u64 = 8;

/// How long it naps, in microseconds (this project's own rule).
const NAP: u64 = 100;

/// Asks the gate before a turn of a worker. What the gate is told is the worker's own: its thread, how many
/// turns it took, and how many of its calls have ended.
fn pass_gate<B: Board, G: Gate>(
    gate: &G,
    board: &B,
    worker: &Worker<B>,
    thread: ThreadNo,
    turn: u64,
    done: u64,
)
    requires thread { thread ≡ B.thread_of board.now worker.now.hand }
    requires turn { turn ≡ worker.now.turns }
    requires done { done ≡ B.done_of board.now worker.now.hand }
    ensures { G.has_let gate.now (B.thread_of board.now worker.now.hand) worker.now.turns (B.done_of board.now worker.now.hand) }
{
    gate.pass(thread, turn, done);
}

/// Takes one turn, after the gate has let the worker's thread take it: the one of its number, when as many of the thread's calls
/// had ended as the board says.
fn turn_once<R: Wait, B: Board, G: Gate>(
    rt: &R,
    alloc: Global,
    board: &B,
    gate: &G,
    worker: &mut Worker<B>,
)
    requires fits { B.fits board.now worker.old.hand }
    requires goes { is_over worker.old.last ≡ false }
    ensures asked { G.has_let gate.now (B.thread_of board.now worker.old.hand) worker.old.turns (B.done_of board.now worker.old.hand) }
    ensures turned { B.turns board.now worker.old.hand worker.new.last worker.new.hand }
    ensures ran { Ran (B.turns board.now) (B.thread_of board.now) worker.old worker.new }
    ensures kept { Stands (B.fits board.now) worker.new }
{
    let thread = board.thread(&worker.hand);
    let done = board.done(&worker.hand);
    pass_gate(gate, board, worker, thread, worker.turns, done);
    worker.last = board.turn(rt, alloc, &mut worker.hand);
    worker.turns = worker.turns.saturating_add(1);
}

/// Naps for so many microseconds.
fn nap<R: Wait>(rt: &R, micros: u64)
    requires { micros ≤ most_nap }
{
    Parker::new().park_timeout(rt, Duration::from_micros(micros));
}

/// Leaves the processor to other threads, for longer the longer nothing moved: what this one waits for is theirs to do,
/// under the same locks. It naps, since yields of many that wait take the time of those that work.
pub(crate) fn give_way<R: Wait>(rt: &R, idle: u64) {
    if FIRST_NAP <= idle {
        nap(rt, NAP);
        return;
    }
    for _ in 0..idle {
        thread::yield_now();
    }
}

pub(crate) fn has_ended(last: Turn) -> bool
    ensures { result ≡ is_over last }
{
    matches!(last, Turn::Ended | Turn::Halted { cause: _ })
}

/// Takes turns as long as they move, unless the worker is over, and tells whether one did.
pub(crate) fn run_on<R: Wait, B: Board, G: Gate>(
    rt: &R,
    alloc: Global,
    board: &B,
    gate: &G,
    worker: &mut Worker<B>,
) -> bool
    requires { Stands (B.fits board.now) worker.old }
    ensures ran { Ran (B.turns board.now) (B.thread_of board.now) worker.old worker.new }
    ensures kept { Stands (B.fits board.now) worker.new }
    ensures still { result ≡ false → IsStill (B.turns board.now) worker.old worker.new }
{
    let mut moved = false;
    for _ in rt.forever() {
        if has_ended(worker.last) {
            return moved;
        }
        turn_once(rt, alloc, board, gate, worker);
        if worker.last != Turn::Moved {
            return moved;
        }
        moved = true;
    }
    unreachable!()
}

/// Takes turns until the worker ended, was halted, or moved nothing for long.
pub(crate) fn run_alone<R: Wait, B: Board, G: Gate>(
    rt: &R,
    alloc: Global,
    board: &B,
    gate: &G,
    worker: &mut Worker<B>,
)
    requires { IsReady (B.fits board.now) worker.old }
    ensures ran { Ran (B.turns board.now) (B.thread_of board.now) worker.old worker.new }
    ensures kept { Stands (B.fits board.now) worker.new }
    ensures patient { GivesUpAfter (B.turns board.now) patience worker.old worker.new }
{
    let mut idle = 0;
    for _ in rt.forever() {
        if idle >= PATIENCE || has_ended(worker.last) {
            return;
        }
        if run_on(rt, alloc, board, gate, worker) {
            idle = 0;
        } else {
            idle += 1;
            give_way(rt, idle);
        }
    }
    unreachable!()
}
