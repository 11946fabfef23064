//! A whole run of a machine by threads: opened, seated, run, joined, closed and merged.
ghost use Rattle.std.specs.Prelude.{◌≡◌, ◌≤◌, All, length, map, None, Some, IfSome, vec_len};
ghost use Rattle.replay_workers.specs.Runs.{halt_among};
ghost use Rattle.tc_model.specs.declared.board.Halt.TheVariants as halts;
ghost use Rattle.merge_journal.specs.Threads.{AreMerged};
ghost use Rattle.relay.specs.Ends.{IsRun, AreLasts};

use merge_journal::merge_threads;
use part_lock::{Closed, PartBoard, Parts, join_all, seat_all};
use replay_workers::{halt_of, lasts_of, run_workers};
use std::alloc::Global;
use std::sync::Wait;
use std::thread::Threads;
use tc_model::{Halt, Machine, Turn};
use tc_ports::Gate;

/// What threads left of a machine: its parts, the locals by their threads, the threads of all acts in their one order, the
/// last answer of each thread's worker, and why a worker was halted, if one was.
#[derive(Drop)]
pub struct Finish<M: Machine> {
    pub closed: Closed<M>,
    pub locals: Vec<M::Local>,
    pub order: Vec<u16>,
    pub lasts: Vec<Turn>,
    pub halt: Option<Halt>,
}

/// Runs a machine from its start, a thread for each local. The order is a run of at most `events` polite
/// picks that move, the threads of the merge of the entries of all parts, and the parts and locals are that run's. Where no
/// worker was halted each script has ended. A halt is that of the workers' last answers: for want of memory
/// where one of them lacked it, and else for the limit, which the order has reached then. `None` where
/// memory ran out beside the acts.
pub fn run_all<R: Threads + Wait + Sync, M: Machine + Drop + Sync, G: Gate + Sync>(
    rt: &R,
    alloc: Global,
    gate: &G,
    machine: M,
    parts: Vec<M::Part>,
    locals: Vec<M::Local>,
    events: u64,
) -> Option<Finish<M>>
where
    M::Part: Send,
    M::Local: Send,
    requires events { events ≤ 40000000 }
    requires parts { parts.items ≡ (M.rules machine).parts }
    requires locals { locals.items ≡ (M.rules machine).locals }
    requires few { vec_len locals ≤ 256 }
    ensures run { IfSome result (λ e. IsRun (M.rules machine) e.closed.parts.items e.locals.items e.order.items) }
    ensures machine { IfSome result (λ e. e.closed.machine ≡ machine) }
    ensures few { IfSome result (λ e. length e.order.items ≤ events) }
    ensures ended { IfSome result (λ e. e.halt ≡ None → All (λ l. (M.rules machine).want l ≡ None) e.locals.items) }
    ensures lasts { IfSome result (λ e. AreLasts (M.rules machine) e.locals.items e.lasts.items) }
    ensures halt { IfSome result (λ e. e.halt ≡ halt_among e.lasts.items) }
    ensures full { IfSome result (λ e. e.halt ≡ Some halts.Full → length e.order.items ≡ events) }
    ensures lists { IfSome result (λ e. length e.closed.entries.items ≡ length e.closed.parts.items) }
    ensures merged { IfSome result (λ e. AreMerged (map (λ v. v.items) e.closed.entries.items) e.order.items) }
{
    let Ok((parts, mut main)) = Parts::open(alloc, machine, parts, events) else {
        return None;
    };
    let Ok(workers) = seat_all(alloc, &parts, &mut main, locals) else {
        return None;
    };
    let board = PartBoard { parts };
    let workers = run_workers(rt, alloc, &board, gate, workers);
    let PartBoard { parts } = board;
    let halt = halt_of(workers.as_slice());
    let Ok(lasts) = lasts_of(alloc, workers.as_slice()) else {
        return None;
    };
    let Ok(locals) = join_all(alloc, &parts, &mut main, workers) else {
        return None;
    };
    let Ok(closed) = parts.close(main) else {
        return None;
    };
    let Ok(order) = merge_threads(alloc, closed.entries.as_slice()) else {
        return None;
    };
    Some(Finish {
        closed,
        locals,
        order,
        lasts,
        halt,
    })
}
