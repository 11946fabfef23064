//! A worker with a seat for each thread of a machine.
ghost use Rattle.std.specs.Prelude.{◌≡◌, ◌+◌, ◌<◌, ◌≤◌, Some, All, [], length, map, reverse, slice_get, IfOk, IfErr, vec_len, vec_capacity};
ghost use Rattle.tc_model.specs.Rises.{Has};
ghost use Rattle.part_lock.specs.Lock.{IsMain, first_lead, one_more};
ghost use Rattle.part_lock.specs.Joins.{Fit, lead_of, numbers};
ghost use Rattle.part_lock.specs.Turns.{IsFresh};
ghost use Rattle.replay_workers.specs.Runs.{IsReady as IsWorkerReady};

use crate::board::{PartBoard, PartHand};
use crate::moved::turned;
use crate::parts::{Parts, Seat};
use replay_workers::Worker;
use std::alloc::Global;
use tc_model::{Machine, Turn};
use tc_units::ThreadNo;

/// A worker for a thread that has no seat yet.
fn worker_for<M: Machine>(
    parts: &Parts<M>,
    main: &mut Seat<M>,
    local: M::Local,
    thread: ThreadNo,
) -> Worker<PartBoard<M>>
where
    M::Part: Send,
    M::Local: Send,
    requires seat { main.old.table_id ≡ parts.now.table.shared.table_id }
    requires main { (m : _) × IsMain parts.now.key m main.old.me × (Has m.threads thread.0 → ⊥) }
    requires start { slice_get (M.rules parts.now.key.machine).locals thread.0 ≡ Some local }
    ensures seat { main.new.table_id ≡ main.old.table_id }
    ensures main { (m : _) → IsMain parts.now.key m main.old.me → IsMain parts.now.key (one_more thread.0 m) main.new.me }
    ensures ready { IsWorkerReady (Fit parts.now.table.shared.table_id parts.now.key) result }
    ensures fresh { IsFresh result.hand.seat.me }
    ensures hand { (result.hand.local ≡ local) × (result.hand.thread ≡ thread) }
{
    let seat = parts.seat(main, thread);
    Worker {
        hand: PartHand {
            seat,
            local,
            thread,
        },
        turns: 0,
        last: Turn::NotYet,
    }
}

/// A worker for each local.
fn seat_each<M: Machine>(
    parts: &Parts<M>,
    main: &mut Seat<M>,
    locals: Vec<M::Local>,
    mut workers: Vec<Worker<PartBoard<M>>>,
) -> Vec<Worker<PartBoard<M>>>
where
    M::Part: Send,
    M::Local: Send,
    requires seat { main.old.table_id ≡ parts.now.table.shared.table_id }
    requires main { IsMain parts.now.key (first_lead parts.now.key) main.old.me }
    requires start { locals.items ≡ (M.rules parts.now.key.machine).locals }
    requires few { vec_len locals ≤ 256 }
    requires bare { workers.items ≡ [] }
    requires room { vec_len locals ≤ vec_capacity workers }
    ensures seat { main.new.table_id ≡ main.old.table_id }
    ensures main { IsMain parts.now.key (lead_of parts.now.key (numbers (length locals.items))) main.new.me }
    ensures ready { All (IsWorkerReady (Fit parts.now.table.shared.table_id parts.now.key)) result.items }
    ensures fresh { All (λ w. IsFresh w.hand.seat.me) result.items }
    ensures locals { map (λ w. w.hand.local) result.items ≡ locals.items }
    ensures threads { map (λ w. w.hand.thread.0) result.items ≡ numbers (length locals.items) }
{
    let mut locals = turned(locals);
    let mut thread: usize = 0;
    while let Some(local) = locals.pop() {
        workers.push_reserved(worker_for(parts, main, local, ThreadNo(thread as u8)));
        thread += 1;
    }
    workers
}

/// A worker for each local of the machine's start, with a seat for its thread. Threads are numbered from 0
/// in the order of the locals. Refused only for memory, with all untouched.
pub fn seat_all<M: Machine>(
    alloc: Global,
    parts: &Parts<M>,
    main: &mut Seat<M>,
    locals: Vec<M::Local>,
) -> Result<Vec<Worker<PartBoard<M>>>, Vec<M::Local>>
where
    M::Part: Send,
    M::Local: Send,
    requires seat { main.old.table_id ≡ parts.now.table.shared.table_id }
    requires main { IsMain parts.now.key (first_lead parts.now.key) main.old.me }
    requires start { locals.items ≡ (M.rules parts.now.key.machine).locals }
    requires few { vec_len locals ≤ 256 }
    ensures seat { main.new.table_id ≡ main.old.table_id }
    ensures main { IfOk result (λ _. IsMain parts.now.key (lead_of parts.now.key (numbers (length locals.items))) main.new.me) }
    ensures ready { IfOk result (λ workers. All (IsWorkerReady (Fit parts.now.table.shared.table_id parts.now.key)) workers.items) }
    ensures fresh { IfOk result (λ workers. All (λ w. IsFresh w.hand.seat.me) workers.items) }
    ensures locals { IfOk result (λ workers. map (λ w. w.hand.local) workers.items ≡ locals.items) }
    ensures threads { IfOk result (λ workers. map (λ w. w.hand.thread.0) workers.items ≡ numbers (length locals.items)) }
    ensures err { IfErr result (λ back. (back ≡ locals) × (main.new ≡ main.old)) }
{
    let Ok(workers) = Vec::with_capacity(alloc, locals.len()) else {
        return Err(locals);
    };
    Ok(seat_each(parts, main, locals, workers))
}
