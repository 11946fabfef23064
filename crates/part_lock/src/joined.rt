//! The seats of workers that ended, back to the main one.
ghost use Rattle.std.specs.Prelude.{◌≡◌, ◌≤◌, List, All, [], length, map, IfOk, IfErr, vec_len, vec_capacity};
ghost use Rattle.part_lock.specs.Lock.{IsMain};
ghost use Rattle.part_lock.specs.Joins.{JoinsAll, Fit, Turned};
ghost use Rattle.part_lock.specs.Lock.{one_joined};
ghost use Rattle.part_lock.specs.Turns.{Ready, IsReady};
ghost use Rattle.replay_workers.specs.Runs.{RanBelow};
ghost use Rattle.replay_workers.specs.Runs.{IsReady as IsWorkerReady};

use crate::board::{PartBoard, PartHand};
use crate::moved::turned;
use crate::parts::{Parts, Seat};
use replay_workers::Worker;
use std::alloc::Global;
use tc_model::Machine;

/// Joins the seat of a worker, and gives its local.
fn join_one<M: Machine>(
    parts: &Parts<M>,
    main: &mut Seat<M>,
    worker: Worker<PartBoard<M>>,
) -> M::Local
where
    M::Part: Send,
    M::Local: Send,
    requires seat { main.old.table_id ≡ parts.now.table.shared.table_id }
    requires main { (m : _) × IsMain parts.now.key m main.old.me }
    requires fits { Fit parts.now.table.shared.table_id parts.now.key worker.hand }
    ensures seat { main.new.table_id ≡ main.old.table_id }
    ensures main { (m : _) (w : _) → IsMain parts.now.key m main.old.me
        → IsReady parts.now.key worker.hand.thread.0 worker.hand.local w worker.hand.seat.me → IsMain parts.now.key (one_joined m w) main.new.me }
    ensures local { result ≡ worker.hand.local }
{
    let Worker {
        hand,
        turns: _,
        last: _,
    } = worker;
    let PartHand {
        seat,
        local,
        thread: _,
    } = hand;
    parts.join(main, seat);
    local
}

/// Joins the seats of workers whose hands fit, one after another.
fn join_fitting<M: Machine>(
    parts: &Parts<M>,
    main: &mut Seat<M>,
    workers: Vec<Worker<PartBoard<M>>>,
    mut locals: Vec<M::Local>,
) -> Vec<M::Local>
where
    M::Part: Send,
    M::Local: Send,
    requires seat { main.old.table_id ≡ parts.now.table.shared.table_id }
    requires main { (m : _) × IsMain parts.now.key m main.old.me }
    requires fits { All (λ w. Fit parts.now.table.shared.table_id parts.now.key w.hand) workers.items }
    requires bare { locals.items ≡ [] }
    requires room { vec_len workers ≤ vec_capacity locals }
    ensures seat { main.new.table_id ≡ main.old.table_id }
    ensures main { JoinsAll parts.now.key main.old.me (map (λ w. w.hand) workers.items) main.new.me }
    ensures locals { result.items ≡ map (λ w. w.hand.local) workers.items }
{
    let mut workers = turned(workers);
    while let Some(worker) = workers.pop() {
        locals.push_reserved(join_one(parts, main, worker));
    }
    locals
}

/// Joins the seats of the workers that `run_workers` left, and gives their locals in the same order. Once
/// every thread with a seat is among them, the parts can be closed. Refused only for memory, with all
/// untouched.
pub fn join_all<M: Machine>(
    alloc: Global,
    parts: &Parts<M>,
    main: &mut Seat<M>,
    workers: Vec<Worker<PartBoard<M>>>,
) -> Result<Vec<M::Local>, Vec<Worker<PartBoard<M>>>>
where
    M::Part: Send,
    M::Local: Send,
    requires seat { main.old.table_id ≡ parts.now.table.shared.table_id }
    requires main { (m : _) × IsMain parts.now.key m main.old.me }
    requires ran { (before : List _) × (length before ≡ length workers.items)
        × All (IsWorkerReady (Fit parts.now.table.shared.table_id parts.now.key)) before
        × RanBelow (Turned M.rules parts.now.key) (λ h. h.thread) (Fit parts.now.table.shared.table_id parts.now.key) (length before) before workers.items }
    ensures seat { main.new.table_id ≡ main.old.table_id }
    ensures main { IfOk result (λ _. JoinsAll parts.now.key main.old.me (map (λ w. w.hand) workers.items) main.new.me) }
    ensures locals { IfOk result (λ locals. locals.items ≡ map (λ w. w.hand.local) workers.items) }
    ensures err { IfErr result (λ back. (back ≡ workers) × (main.new ≡ main.old)) }
{
    let Ok(locals) = Vec::with_capacity(alloc, workers.len()) else {
        return Err(workers);
    };
    Ok(join_fitting(parts, main, workers, locals))
}
