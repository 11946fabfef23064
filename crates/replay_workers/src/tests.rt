//! Workers over a board whose turns are a list of answers, with gates that count and hold.
ghost use Rattle.std.specs.Prelude.{◌≡◌};
ghost use Rattle.tc_model.specs.declared.board.Turn.TheVariants.{NotYet};

use crate::{Worker, halt_of, lasts_of, run_workers};
use std::alloc::Global;
use std::sync::Wait;
use std::sync::atomic::{AtomicU64, Ordering};
use std::test::Fail;
use tc_model::{Board, Halt, Turn};
use tc_ports::{Gate, OpenGate};
use tc_units::ThreadNo;

/// How many turns threads 0 and 1 took, and how many turns came after an end.
#[derive(Drop)]
struct Script {
    taken: [AtomicU64; 2],
    late: AtomicU64,
}

/// What comes of a hand's turns: so many that wait, so many that move, and the end.
#[derive(Drop)]
struct Hand {
    thread: u8,
    waits: u64,
    moves: u64,
    end: Turn,
    over: bool,
}

impl Script {
    fn new() -> Script {
        Script {
            taken: [AtomicU64::new(0), AtomicU64::new(0)],
            late: AtomicU64::new(0),
        }
    }

    fn taken(&self, thread: u8) -> u64 {
        if thread == 0 {
            self.taken[0].load(Ordering::SeqCst)
        } else {
            self.taken[1].load(Ordering::SeqCst)
        }
    }

    fn count(&self, thread: u8) {
        if thread == 0 {
            self.taken[0].fetch_add(1, Ordering::SeqCst);
        } else {
            self.taken[1].fetch_add(1, Ordering::SeqCst);
        }
    }
}

impl Board for Script {
    ghost use Rattle.tc_units.specs.declared.units.ThreadNo.{ThreadNo};

    type Hand = Hand;

    ghost fits = { λ b h. Unit {0} };

    ghost thread_of = { λ b h. record { 0 = h.thread } };

    ghost done_of = { λ b h. 0 };

    ghost turns = { λ b h answer k. Unit {0} };

    fn thread(&self, hand: &Hand) -> ThreadNo {
        ThreadNo(hand.thread)
    }

    fn done(&self, _hand: &Hand) -> u64 {
        0
    }

    fn turn<R: Wait>(&self, _rt: &R, _alloc: Global, hand: &mut Hand) -> Turn {
        self.count(hand.thread);
        if hand.over {
            self.late.fetch_add(1, Ordering::SeqCst);
        }
        if hand.waits > 0 {
            hand.waits -= 1;
            return Turn::NotYet;
        }
        if hand.moves > 0 {
            hand.moves -= 1;
            return Turn::Moved;
        }
        hand.over = true;
        hand.end
    }
}

/// Sees that it is passed before each turn, and once for it.
#[derive(Drop)]
struct Watch<'a> {
    script: &'a Script,
    passes: AtomicU64,
    first: AtomicU64,
    wrong: AtomicU64,
}

impl Gate for Watch<'_> {
    ghost use Rattle.std.specs.Prelude.{⊤};

    ghost has_let = { λ gate thread turn done. ⊤ };

    fn pass(&self, thread: ThreadNo, turn: u64, _done: u64) {
        self.passes.fetch_add(1, Ordering::SeqCst);
        if turn == 0 {
            self.first.fetch_add(1, Ordering::SeqCst);
        }
        if self.script.taken(thread.0) != turn {
            self.wrong.fetch_add(1, Ordering::SeqCst);
        }
    }
}

/// Holds each thread at its first pass until so many stand there, for so many looks.
#[derive(Drop)]
struct Hold {
    wanted: u64,
    came: AtomicU64,
    met: AtomicU64,
}

impl Hold {
    fn of(wanted: u64) -> Hold {
        Hold {
            wanted,
            came: AtomicU64::new(0),
            met: AtomicU64::new(0),
        }
    }
}

impl Gate for Hold {
    ghost use Rattle.std.specs.Prelude.{⊤};

    ghost has_let = { λ gate thread turn done. ⊤ };

    fn pass(&self, _thread: ThreadNo, turn: u64, _done: u64) {
        if turn > 0 {
            return;
        }
        self.came.fetch_add(1, Ordering::SeqCst);
        for _ in 0..2_000_000_000u64 {
            if self.came.load(Ordering::SeqCst) == self.wanted {
                self.met.fetch_add(1, Ordering::SeqCst);
                return;
            }
        }
    }
}

fn worker(thread: u8, waits: u64, moves: u64, end: Turn) -> Worker<Script>
    ensures { result.last ≡ NotYet }
{
    Worker {
        hand: Hand {
            thread,
            waits,
            moves,
            end,
            over: false,
        },
        turns: 0,
        last: Turn::NotYet,
    }
}

#[test]
fn each_turn_comes_after_its_gate_and_none_after_the_end(rt: HostRuntime) -> Result<(), Fail> {
    let alloc = rt.alloc();
    let script = Script::new();
    let watch = Watch {
        script: &script,
        passes: AtomicU64::new(0),
        first: AtomicU64::new(0),
        wrong: AtomicU64::new(0),
    };
    let workers = vec![in alloc;
        worker(0, 2, 3, Turn::Ended),
        worker(1, 30_003, 0, Turn::Ended),
    ]?;
    let workers = run_workers(&rt, alloc, &script, &watch, workers);
    assert_eq!(rt; workers[0].turns, 6);
    assert_eq!(rt; workers[0].last, Turn::Ended);
    assert_eq!(rt; workers[1].turns, 30_004);
    assert_eq!(rt; workers[1].last, Turn::Ended);
    assert_eq!(rt; watch.passes.load(Ordering::SeqCst), 30_010);
    assert_eq!(rt; watch.first.load(Ordering::SeqCst), 2);
    assert_eq!(rt; watch.wrong.load(Ordering::SeqCst), 0);
    assert_eq!(rt; script.late.load(Ordering::SeqCst), 0);
    Ok(())
}

#[test]
fn two_threads_stand_at_the_gate_at_once(rt: HostRuntime) -> Result<(), Fail> {
    let alloc = rt.alloc();
    let script = Script::new();
    let hold = Hold::of(2);
    let workers = vec![in alloc; worker(0, 0, 1, Turn::Ended), worker(1, 0, 1, Turn::Ended)]?;
    drop(run_workers(&rt, alloc, &script, &hold, workers));
    assert_eq!(rt; hold.met.load(Ordering::SeqCst), 2);
    Ok(())
}

#[test]
fn five_threads_stand_at_one_gate_at_once(rt: HostRuntime) -> Result<(), Fail> {
    let alloc = rt.alloc();
    let script = Script::new();
    let hold = Hold::of(5);
    let workers = vec![in alloc;
        worker(0, 0, 1, Turn::Ended),
        worker(1, 0, 1, Turn::Ended),
        worker(2, 0, 1, Turn::Ended),
        worker(3, 0, 1, Turn::Ended),
        worker(4, 0, 1, Turn::Ended),
    ]?;
    let workers = run_workers(&rt, alloc, &script, &hold, workers);
    assert_eq!(rt; hold.met.load(Ordering::SeqCst), 5);
    for worker in workers.as_slice() {
        assert_eq!(rt; worker.turns, 2);
        assert_eq!(rt; worker.last, Turn::Ended);
    }
    Ok(())
}

#[test]
fn want_of_memory_stands_before_the_limit(rt: HostRuntime) -> Result<(), Fail> {
    let alloc = rt.alloc();
    let full = Turn::Halted { cause: Halt::Full };
    let memory = Turn::Halted {
        cause: Halt::Memory,
    };
    let script = Script::new();
    let workers = vec![in alloc; worker(0, 0, 1, full), worker(1, 0, 2, memory)]?;
    let workers = run_workers(&rt, alloc, &script, &OpenGate, workers);
    assert_eq!(rt;
        lasts_of(alloc, workers.as_slice())?.as_slice(),
        [full, memory].as_slice()
    );
    assert_eq!(rt; halt_of(workers.as_slice()), Some(Halt::Memory));
    assert_eq!(rt; halt_of(&workers.as_slice()[..1]), Some(Halt::Full));
    assert_eq!(rt; halt_of(&workers.as_slice()[..0]), None);
    Ok(())
}

#[test]
fn a_halt_ends_all(rt: HostRuntime) -> Result<(), Fail> {
    let alloc = rt.alloc();
    let script = Script::new();
    let halted = Turn::Halted { cause: Halt::Full };
    let workers = vec![in alloc;
        worker(0, 0, 5, halted),
        worker(1, u64::MAX, 0, Turn::Ended),
    ]?;
    let workers = run_workers(&rt, alloc, &script, &OpenGate, workers);
    assert_eq!(rt; workers[0].turns, 6);
    assert_eq!(rt; workers[0].last, halted);
    assert_eq!(rt; workers[1].turns, 30_000);
    assert_eq!(rt; workers[1].last, Turn::NotYet);
    let none: Vec<Worker<Script>> = Vec::new(alloc);
    assert_eq!(rt; run_workers(&rt, alloc, &script, &OpenGate, none).len(), 0);
    Ok(())
}
