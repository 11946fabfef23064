//! Runs of the relay by two and eight threads, and steps one after another. The numbers were worked out
//! by hand: of two lanes, a runner with an odd number of acts left counts lane 1.
ghost use Rattle.std.specs.Prelude.{◌≡◌, ◌<◌, ◌≤◌, length};

use crate::{Finish, Lane, Relay, Runner, run_all};
use part_lock::{PartBoard, PartHand, Parts, Step};
use std::alloc::{AllocError, Global};
use std::sync::Wait;
use std::sync::atomic::{AtomicU64, Ordering};
use std::test::Fail;
use std::thread::Threads;
use tc_model::{Board, Halt, Turn};
use tc_ports::{Gate, OpenGate};
use tc_units::ThreadNo;

const NO_MEMORY: Turn = Turn::Halted {
    cause: Halt::Memory,
};

/// A runner that neither waits nor yields, with memory for all acts.
fn runner(left: u64) -> Runner
    ensures { result.left ≡ left }
{
    Runner {
        left,
        from: 0,
        shuns: u64::MAX,
        breaks: u64::MAX,
    }
}

fn race<R: Threads + Wait + Sync, G: Gate + Sync>(
    rt: &R,
    alloc: Global,
    gate: &G,
    lanes: u16,
    runners: &[Runner],
    events: u64,
) -> Result<Finish<Relay>, AllocError>
    requires lanes { 0 < lanes }
    requires few { length runners.now ≤ 256 }
    requires events { events ≤ 40000000 }
{
    let (relay, parts, locals) = Relay::open(alloc, lanes, runners)?;
    run_all(rt, alloc, gate, relay, parts, locals, events).ok_or(AllocError)
}

/// An end without want of memory.
fn whole(end: Finish<Relay>) -> Result<Finish<Relay>, AllocError> {
    if end.halt == Some(Halt::Memory) {
        return Err(AllocError);
    }
    Ok(end)
}

/// One step of the one runner, at one lane whose count it leaves.
fn one_step<R: Wait>(
    rt: &R,
    alloc: Global,
    runner: Runner,
    events: u64,
) -> Result<(Step, u64), AllocError>
    requires left { 0 < runner.left }
    requires events { events ≤ 40000000 }
{
    let (relay, lanes, _runners) = Relay::open(alloc, 1, [runner].as_slice())?;
    let Ok((parts, mut main)) = Parts::open(alloc, relay, lanes, events) else {
        return Err(AllocError);
    };
    let mut seat = parts.seat(&mut main, ThreadNo(0));
    let mut local = runner;
    let step = parts.step(rt, &mut seat, ThreadNo(0), &mut local);
    parts.join(&mut main, seat);
    let Ok(closed) = parts.close(main) else {
        return Err(AllocError);
    };
    Ok((step, counted(closed.parts.as_slice())))
}

/// One turn of the one runner's hand, at a board of one lane.
fn one_turn<R: Wait>(rt: &R, alloc: Global, runner: Runner, events: u64) -> Result<Turn, AllocError>
    requires events { events ≤ 40000000 }
{
    let (relay, lanes, _runners) = Relay::open(alloc, 1, [runner].as_slice())?;
    let Ok((parts, mut main)) = Parts::open(alloc, relay, lanes, events) else {
        return Err(AllocError);
    };
    let seat = parts.seat(&mut main, ThreadNo(0));
    let board = PartBoard::new(parts);
    let mut hand = PartHand {
        seat,
        local: runner,
        thread: ThreadNo(0),
    };
    Ok(board.turn(rt, alloc, &mut hand))
}

/// How many acts were done at all lanes.
fn counted(parts: &[Lane]) -> u64 {
    let mut sum: u64 = 0;
    for lane in parts {
        sum = sum.wrapping_add(lane.count);
    }
    sum
}

fn count_at(end: &Finish<Relay>, lane: usize) -> u64 {
    end.closed.parts.get(lane).map_or(0, |lane| lane.count)
}

fn left_at(end: &Finish<Relay>, thread: usize) -> u64 {
    end.locals.get(thread).map_or(0, |local| local.left)
}

/// Holds thread 0 at its first pass until thread 1 took five turns, for so many looks.
#[derive(Drop)]
struct Hold {
    turns: AtomicU64,
}

impl Gate for Hold {
    ghost use Rattle.std.specs.Prelude.{⊤};

    ghost has_let = { λ gate thread turn done. ⊤ };

    fn pass(&self, thread: ThreadNo, turn: u64, _done: u64) {
        if thread.0 == 1 {
            self.turns.store(turn, Ordering::SeqCst);
            return;
        }
        for _ in 0..2_000_000_000u64 {
            if turn > 0 || self.turns.load(Ordering::SeqCst) >= 5 {
                return;
            }
        }
    }
}

#[test]
fn two_and_eight_threads_do_all_acts(rt: HostRuntime) -> Result<(), Fail> {
    let alloc = rt.alloc();
    let end = whole(race(
        &rt,
        alloc,
        &OpenGate,
        2,
        [runner(7), runner(9)].as_slice(),
        100,
    )?)?;
    assert_eq!(rt; count_at(&end, 0), 7);
    assert_eq!(rt; count_at(&end, 1), 9);
    assert_eq!(rt; end.order.len(), 16);
    assert_eq!(rt; left_at(&end, 0), 0);
    assert_eq!(rt; left_at(&end, 1), 0);
    let eight = [runner(6); 8];
    let end = whole(race(&rt, alloc, &OpenGate, 3, eight.as_slice(), 48)?)?;
    for lane in end.closed.parts.as_slice() {
        assert_eq!(rt; lane.count, 16);
    }
    for list in end.closed.entries.as_slice() {
        assert_eq!(rt; list.len(), 16);
    }
    assert_eq!(rt; end.order.len(), 48);
    assert_eq!(rt; end.halt, None);
    assert_eq!(rt; end.lasts.as_slice(), [Turn::Ended; 8].as_slice());
    Ok(())
}

#[test]
fn the_limit_ends_a_run_in_its_midst(rt: HostRuntime) -> Result<(), Fail> {
    let alloc = rt.alloc();
    let end = whole(race(
        &rt,
        alloc,
        &OpenGate,
        2,
        [runner(1000), runner(1000)].as_slice(),
        50,
    )?)?;
    assert_eq!(rt; end.halt, Some(Halt::Full));
    assert_eq!(rt; end.order.len(), 50);
    assert_eq!(rt; counted(end.closed.parts.as_slice()), 50);
    assert_eq!(rt; left_at(&end, 0).wrapping_add(left_at(&end, 1)), 1950);
    Ok(())
}

#[test]
fn want_of_memory_in_one_worker_ends_all(rt: HostRuntime) -> Result<(), Fail> {
    let mut broken = runner(5);
    broken.breaks = 3;
    let mut stuck = runner(10);
    stuck.from = 1000;
    let end = race(
        &rt,
        rt.alloc(),
        &OpenGate,
        2,
        [broken, stuck].as_slice(),
        100,
    )?;
    assert_eq!(rt; end.halt, Some(Halt::Memory));
    assert!(rt; end.lasts.first().is_some_and(|last| *last == NO_MEMORY));
    assert_eq!(rt; end.order.as_slice(), [0, 0].as_slice());
    assert_eq!(rt; left_at(&end, 0), 3);
    assert_eq!(rt; left_at(&end, 1), 10);
    Ok(())
}

#[test]
fn gates_waits_and_manners_order_the_acts(rt: HostRuntime) -> Result<(), Fail> {
    let alloc = rt.alloc();
    let hold = Hold {
        turns: AtomicU64::new(0),
    };
    let end = whole(race(&rt, alloc, &hold, 2, [runner(2), runner(5)].as_slice(), 100)?)?;
    assert_eq!(rt; end.order.as_slice(), [1, 1, 1, 1, 1, 0, 0].as_slice());

    let mut late = runner(2);
    late.from = 3;
    let end = whole(race(&rt, alloc, &OpenGate, 1, [late, runner(3)].as_slice(), 100)?)?;
    assert_eq!(rt; end.order.as_slice(), [1, 1, 1, 0, 0].as_slice());

    let mut shy = runner(2);
    shy.shuns = 0;
    let end = whole(race(&rt, alloc, &OpenGate, 1, [shy, runner(1)].as_slice(), 100)?)?;
    assert_eq!(rt; end.order.as_slice(), [1, 0, 0].as_slice());
    Ok(())
}

#[test]
fn a_step_says_what_came_of_it(rt: HostRuntime) -> Result<(), Fail> {
    let alloc = rt.alloc();
    assert_eq!(rt;
        one_step(&rt, alloc, runner(1), 9)?,
        (Step::Moved { ticket: 0 }, 1)
    );
    assert_eq!(rt;
        one_step(&rt, alloc, runner(1), 0)?,
        (Step::Full { ticket: 0 }, 0)
    );
    let mut late = runner(1);
    late.from = 1;
    assert_eq!(rt; one_step(&rt, alloc, late, 9)?, (Step::NotYet, 0));
    let mut shy = runner(1);
    shy.shuns = 0;
    assert_eq!(rt; one_step(&rt, alloc, shy, 9)?, (Step::Held, 0));
    let mut broken = runner(1);
    broken.breaks = 1;
    assert_eq!(rt; one_step(&rt, alloc, broken, 9)?, (Step::Memory, 0));
    Ok(())
}

#[test]
fn a_turn_of_a_hand_says_what_came_of_it(rt: HostRuntime) -> Result<(), Fail> {
    let alloc = rt.alloc();
    assert_eq!(rt; one_turn(&rt, alloc, runner(1), 9)?, Turn::Moved);
    assert_eq!(rt; one_turn(&rt, alloc, runner(0), 9)?, Turn::Ended);
    let full = Turn::Halted { cause: Halt::Full };
    assert_eq!(rt; one_turn(&rt, alloc, runner(1), 0)?, full);
    let mut late = runner(1);
    late.from = 1;
    assert_eq!(rt; one_turn(&rt, alloc, late, 9)?, Turn::NotYet);
    let mut shy = runner(1);
    shy.shuns = 0;
    assert_eq!(rt; one_turn(&rt, alloc, shy, 9)?, Turn::Held);
    // Where it both waits and is shy, it waits.
    shy.from = 1;
    assert_eq!(rt; one_turn(&rt, alloc, shy, 9)?, Turn::NotYet);
    let mut broken = runner(1);
    broken.breaks = 1;
    assert_eq!(rt; one_turn(&rt, alloc, broken, 9)?, NO_MEMORY);
    Ok(())
}

#[test]
fn parts_come_back_from_their_board(rt: HostRuntime) -> Result<(), Fail> {
    let alloc = rt.alloc();
    let (relay, lanes, _runners) = Relay::open(alloc, 3, [].as_slice())?;
    let Ok((parts, _main)) = Parts::open(alloc, relay, lanes, 9) else {
        return Err(AllocError.into());
    };
    let _parts = PartBoard::new(parts).into_parts();
    Ok(())
}
