//! Sequences instruction by instruction, alone and beside other threads, with answers that were
//! worked out by hand.
ghost use Rattle.std.specs.Prelude.{◌≡◌, ℕ, ◌<◌, ◌≤◌, length, false, true, IfOk};
ghost use Rattle.std.specs.Bool.{OnTrue};
ghost use Rattle.cpu_slab.specs.Slots.{row_at};
ghost use Rattle.rseq_core.specs.Bags.{room};
ghost use Rattle.rseq_core.specs.Tables.{is_pop};
ghost use Rattle.rseq_core.specs.Agrees.{IsAble, CanLoad, CanStore};
ghost use Rattle.rseq_core.specs.Acts.{IsCurrent};

use crate::{StopAnswer, fence, set_cap, start, stop, take_class};
use cpu_slab::{CapFault, Slab};
use rseq_core::{CpuPart, Grew, Instructed, Pc, Regs, Reply, Seq, grow_here, instruct, leave};
use std::alloc::{AllocError, Global};
use std::process::Abort;
use std::test::Fail;
use tc_units::{Addr, Bag, Class, ClassRow, ThreadNo};

/// A CPU of two classes.
#[derive(Drop)]
struct Cpu {
    part: CpuPart,
    ghost classes: { length part.slab.rows ≡ 2 },
}

/// The registers of a thread, with all their room, set to one of two classes.
#[derive(Drop)]
struct Thread {
    regs: Regs,
    ghost class: { regs.class.0 < 2 },
    ghost hand: { room regs.hand ≡ 2177 },
    ghost loaded: { room regs.loaded ≡ 128 },
}

/// A CPU of two classes, of 16 and 64 bytes, which grow by 128 and 2.
fn cpu_of_two(alloc: Global) -> Result<Cpu, AllocError> {
    let rows = [(16, 128), (64, 2)].map(|(size, batch)| ClassRow {
        size,
        pages: 1,
        batch,
    });
    Ok(Cpu {
        part: CpuPart::new(Slab::open(alloc, &rows, 200, 1_000_000)?),
    })
}

fn thread_of(alloc: Global, number: u8) -> Result<Thread, AllocError> {
    Ok(Thread {
        regs: Regs::open(alloc, ThreadNo(number))?,
    })
}

/// Whether a thread runs at a CPU and has its epoch.
fn is_current(cpu: &CpuPart, regs: &Regs) -> bool
    ensures { result ≡ false → IsCurrent regs.now.thread cpu.now regs.now → ⊥ }
{
    match cpu.running {
        None => false,
        Some(running) => running.0 == regs.thread.0 && regs.epoch == cpu.epoch,
    }
}

/// Whether the registers of a current thread fit the row, as the next instruction asks.
fn is_able(cpu: &CpuPart, regs: &Regs) -> bool
    requires class { regs.now.class.0 < length cpu.now.slab.rows }
    requires hand { room regs.now.hand ≡ 2177 }
    requires loaded { room regs.now.loaded ≡ 128 }
    ensures { OnTrue result (IsAble (is_pop regs.now.seq) (row_at cpu.now.slab regs.now.class.0) regs.now regs.now.pc) }
{
    let pops = matches!(regs.seq, Seq::Pop | Seq::PopBatch { .. });
    let top = cpu.slab.top(regs.class);
    let cap = cpu.slab.cap(regs.class);
    let in_hand = regs.hand.as_slice().len();
    let loaded = regs.loaded.as_slice().len();
    let count = regs.count;
    if regs.top != top && regs.pc != Pc::Begin && regs.pc != Pc::Header {
        return false;
    }
    let fits = if pops {
        count <= top
    } else {
        count <= cap - top && count as usize <= in_hand
    };
    match regs.pc {
        Pc::Begin | Pc::Header | Pc::Test => true,
        Pc::Copy { done } => fits && done < count && (!pops || loaded < 128),
        Pc::Commit => fits && (!pops || in_hand + loaded <= 2177),
    }
}

/// The next act of a thread with a sequence.
fn act(rt: &impl Abort, cpu: &mut Cpu, thread: &mut Thread) -> Instructed {
    let part = &mut cpu.part;
    let regs = &mut thread.regs;
    assert!(rt; part.epoch < 1_000_000 && regs.ran < 1_000_000);
    let current = is_current(part, regs);
    assert!(rt; !current || is_able(part, regs));
    instruct(part, regs)
}

/// Sets a thread's next sequence.
fn begin(thread: &mut Thread, class: u8, seq: Seq)
    requires { class < 2 }
{
    thread.regs.start(Class(class), seq);
}

/// Puts an object into a thread's hand.
fn put(rt: &impl Abort, thread: &mut Thread, addr: u64) {
    let hand = &mut thread.regs.hand;
    assert!(rt; hand.as_slice().len() < 2177);
    hand.push(Addr(addr));
}

/// Runs a sequence to its end, with no act between its instructions. Tells how many there were, with
/// the switch before them.
fn run(rt: &impl Abort, cpu: &mut Cpu, thread: &mut Thread) -> (u32, Option<Reply>) {
    for n in 1..200 {
        if let Instructed::Done(reply) = act(rt, cpu, thread) {
            return (n, Some(reply));
        }
    }
    (200, None)
}

/// The acts of a whole sequence, its reply, and the hand and the top then.
fn whole(
    rt: &impl Abort,
    cpu: &mut Cpu,
    thread: &mut Thread,
    class: u8,
    seq: Seq,
    ends: (u32, Reply),
    hand: &[Addr],
    top: u32,
)
    requires { class < 2 }
{
    begin(thread, class, seq);
    assert_eq!(rt; run(rt, cpu, thread), (ends.0, Some(ends.1)), "{seq:?}");
    assert_eq!(rt; thread.regs.hand.as_slice(), hand, "{seq:?}");
    assert_eq!(rt; cpu.part.slab.top(Class(class)), top, "{seq:?}");
}

/// Lets a class grow, by a thread that runs there.
fn grow(rt: &impl Abort, cpu: &mut Cpu, thread: &mut Thread, class: u8, cap: u32)
    requires { class < 2 }
{
    begin(thread, class, Seq::Pop);
    let part = &mut cpu.part;
    assert!(rt; part.epoch < 1_000_000);
    assert_eq!(rt; grow_here(part, &mut thread.regs), Grew::Done);
    assert_eq!(rt; part.slab.cap(Class(class)), cap);
    assert!(rt; !part.is_open);
}

#[test]
fn alone(rt: HostRuntime) -> Result<(), Fail> {
    let mut cpu = cpu_of_two(rt.alloc())?;
    let mut one = thread_of(rt.alloc(), 7)?;
    for addr in [16, 32, 48] {
        put(&rt, &mut one, addr);
    }
    let three = [Addr(16), Addr(32), Addr(48)];

    // The first act switches in. A class without capacity is full, one without objects empty.
    whole(
        &rt,
        &mut cpu,
        &mut one,
        1,
        Seq::Push,
        (4, Reply::Full),
        &three,
        0,
    );
    whole(
        &rt,
        &mut cpu,
        &mut one,
        1,
        Seq::Pop,
        (3, Reply::Empty),
        &three,
        0,
    );
    grow(&rt, &mut cpu, &mut one, 1, 2);

    // A push is five instructions; a batch is cut by the capacity.
    let pushed = Reply::Pushed { count: 1 };
    whole(
        &rt,
        &mut cpu,
        &mut one,
        1,
        Seq::Push,
        (5, pushed),
        &three[1..],
        1,
    );
    whole(
        &rt,
        &mut cpu,
        &mut one,
        1,
        Seq::PushBatch,
        (5, pushed),
        &three[2..],
        2,
    );
    whole(
        &rt,
        &mut cpu,
        &mut one,
        1,
        Seq::PushBatch,
        (3, Reply::Full),
        &three[2..],
        2,
    );

    // The last in comes out first, and a batch takes less than it wants.
    let popped = [Addr(48), Addr(32)];
    whole(
        &rt,
        &mut cpu,
        &mut one,
        1,
        Seq::Pop,
        (5, Reply::Popped),
        &popped,
        1,
    );
    let all = [Addr(48), Addr(32), Addr(16)];
    let batch = Seq::PopBatch { want: 9 };
    whole(
        &rt,
        &mut cpu,
        &mut one,
        1,
        batch,
        (5, Reply::Popped),
        &all,
        0,
    );
    whole(
        &rt,
        &mut cpu,
        &mut one,
        1,
        batch,
        (3, Reply::Empty),
        &all,
        0,
    );
    let pushed = Reply::Pushed { count: 2 };
    whole(
        &rt,
        &mut cpu,
        &mut one,
        1,
        Seq::PushBatch,
        (6, pushed),
        &all[2..],
        2,
    );
    let one_wanted = Seq::PopBatch { want: 1 };
    whole(
        &rt,
        &mut cpu,
        &mut one,
        1,
        one_wanted,
        (5, Reply::Popped),
        &[Addr(16), Addr(32)],
        1,
    );
    Ok(())
}

/// A CPU with objects 1 to 128 in its first class, the last on top, which a thread has put there.
fn filled(rt: &impl Abort, alloc: Global, thread: &mut Thread) -> Result<Cpu, AllocError> {
    let mut cpu = cpu_of_two(alloc)?;
    begin(thread, 0, Seq::Push);
    assert_eq!(rt; act(rt, &mut cpu, thread), Instructed::In);
    grow(rt, &mut cpu, thread, 0, 128);
    for addr in 1..129 {
        put(rt, thread, addr);
    }
    let pushed = Reply::Pushed { count: 128 };
    whole(
        rt,
        &mut cpu,
        thread,
        0,
        Seq::PushBatch,
        (132, pushed),
        &[],
        128,
    );
    Ok(cpu)
}

/// So many acts of a thread, each of which is an instruction after which the sequence goes on.
fn steps(rt: &impl Abort, cpu: &mut Cpu, thread: &mut Thread, n: u32) {
    for i in 0..n {
        assert_eq!(rt; act(rt, cpu, thread), Instructed::Ran, "instruction {i}");
    }
}

#[test]
fn switched_out_before_each_instruction(rt: HostRuntime) -> Result<(), Fail> {
    let mut one = thread_of(rt.alloc(), 0)?;
    let mut other = thread_of(rt.alloc(), 1)?;
    let mut cpu = filled(&rt, rt.alloc(), &mut one)?;
    for before in 0..132 {
        begin(&mut one, 0, Seq::PopBatch { want: 128 });
        steps(&rt, &mut cpu, &mut one, before);
        assert_eq!(rt; act(&rt, &mut cpu, &mut other), Instructed::In);

        // Nothing has come to the hand, and all of it is done again.
        assert_eq!(rt; one.regs.hand.as_slice(), [].as_slice());
        assert_eq!(rt;
            run(&rt, &mut cpu, &mut one),
            (133, Some(Reply::Popped)),
            "{before}"
        );
        assert_eq!(rt; one.regs.hand.as_slice().len(), 128);
        assert_eq!(rt; one.regs.hand.as_slice().first(), Some(&Addr(128)));
        let pushed = Reply::Pushed { count: 128 };
        begin(&mut one, 0, Seq::PushBatch);
        assert_eq!(rt; run(&rt, &mut cpu, &mut one), (132, Some(pushed)));
        // The batch lies the other way round now, and so it does again.
        begin(&mut one, 0, Seq::PopBatch { want: 128 });
        assert_eq!(rt; run(&rt, &mut cpu, &mut one), (132, Some(Reply::Popped)));
        begin(&mut one, 0, Seq::PushBatch);
        assert_eq!(rt; run(&rt, &mut cpu, &mut one), (132, Some(pushed)));
    }
    Ok(())
}

#[test]
fn a_stale_commit_is_not_executed(rt: HostRuntime) -> Result<(), Fail> {
    let mut one = thread_of(rt.alloc(), 0)?;
    let mut other = thread_of(rt.alloc(), 1)?;
    let mut cpu = filled(&rt, rt.alloc(), &mut other)?;
    begin(&mut one, 0, Seq::Pop);
    assert_eq!(rt; act(&rt, &mut cpu, &mut one), Instructed::In);
    steps(&rt, &mut cpu, &mut one, 4);
    assert!(rt; one.regs.pc == Pc::Commit);
    assert_eq!(rt; one.regs.loaded.as_slice(), [Addr(128)].as_slice());

    // Two pops and two pushes later the top has its old number, over other objects.
    let two = [Addr(128), Addr(127)];
    whole(
        &rt,
        &mut cpu,
        &mut other,
        0,
        Seq::Pop,
        (6, Reply::Popped),
        &two[..1],
        127,
    );
    whole(
        &rt,
        &mut cpu,
        &mut other,
        0,
        Seq::Pop,
        (5, Reply::Popped),
        &two,
        126,
    );
    let pushed = Reply::Pushed { count: 1 };
    whole(
        &rt,
        &mut cpu,
        &mut other,
        0,
        Seq::Push,
        (5, pushed),
        &two[1..],
        127,
    );
    whole(
        &rt,
        &mut cpu,
        &mut other,
        0,
        Seq::Push,
        (5, pushed),
        &[],
        128,
    );
    assert_eq!(rt; act(&rt, &mut cpu, &mut one), Instructed::In);
    assert_eq!(rt; run(&rt, &mut cpu, &mut one), (5, Some(Reply::Popped)));
    assert_eq!(rt; one.regs.hand.as_slice(), [Addr(127)].as_slice());
    Ok(())
}

/// A thread at the commit of a pop from a CPU of 128 objects.
fn at_commit(rt: &impl Abort, cpu: &mut Cpu, thread: &mut Thread) {
    begin(thread, 0, Seq::Pop);
    steps(rt, cpu, thread, 4);
    assert!(rt; thread.regs.pc == Pc::Commit);
}

#[test]
fn stopped_before_its_commit(rt: HostRuntime) -> Result<(), Fail> {
    let mut one = thread_of(rt.alloc(), 0)?;
    let mut cpu = filled(&rt, rt.alloc(), &mut one)?;
    at_commit(&rt, &mut cpu, &mut one);
    assert!(rt; cpu.part.stopper.is_none());
    assert_eq!(rt; stop(&mut cpu.part, ThreadNo(1)), StopAnswer::Stopped);

    // It still commits, and its next sequence finds the CPU stopped. Nothing grows there.
    let reply = Instructed::Done(Reply::Popped);
    assert_eq!(rt; act(&rt, &mut cpu, &mut one), reply);
    assert_eq!(rt; cpu.part.slab.top(Class(0)), 127);
    whole(
        &rt,
        &mut cpu,
        &mut one,
        0,
        Seq::Pop,
        (2, Reply::Stopped),
        &[Addr(128)],
        127,
    );
    grow(&rt, &mut cpu, &mut one, 1, 0);
    Ok(())
}

#[test]
fn fenced_before_its_commit(rt: HostRuntime) -> Result<(), Fail> {
    let mut one = thread_of(rt.alloc(), 0)?;
    let mut cpu = filled(&rt, rt.alloc(), &mut one)?;
    at_commit(&rt, &mut cpu, &mut one);
    let stopper = ThreadNo(1);
    let part = &mut cpu.part;
    assert!(rt; part.stopper.is_none() && part.epoch < 1_000_000);
    assert_eq!(rt; stop(part, stopper), StopAnswer::Stopped);
    fence(part, stopper);
    assert_eq!(rt; act(&rt, &mut cpu, &mut one), Instructed::Back);
    assert!(rt; !cpu.part.is_open);
    whole(
        &rt,
        &mut cpu,
        &mut one,
        0,
        Seq::Pop,
        (2, Reply::Stopped),
        &[],
        128,
    );
    Ok(())
}

#[test]
fn drained_and_started_again(rt: HostRuntime) -> Result<(), Fail> {
    let mut one = thread_of(rt.alloc(), 0)?;
    let cpu = filled(&rt, rt.alloc(), &mut one)?;
    let mut out = Bag::open(rt.alloc(), 128)?;
    let (stopper, first) = (ThreadNo(1), Class(0));
    let Cpu { mut part } = cpu;
    assert!(rt; part.stopper.is_none() && part.epoch < 1_000_000);
    assert_eq!(rt; stop(&mut part, stopper), StopAnswer::Stopped);
    fence(&mut part, stopper);
    assert!(rt; part.slab.top(first) <= 128);
    take_class(&mut part, stopper, first, &mut out);
    assert_eq!(rt; out.as_slice().len(), 128);
    assert_eq!(rt; out.as_slice().first(), Some(&Addr(128)));
    assert_eq!(rt; out.as_slice().last(), Some(&Addr(1)));
    assert_eq!(rt; part.slab.top(first), 0);
    let over = CapFault::OverStatic { cap: 200 };
    assert_eq!(rt; set_cap(&mut part, stopper, first, 201), Err(over));
    assert_eq!(rt; part.slab.top(first), 0);
    assert_eq!(rt; set_cap(&mut part, stopper, first, 3), Ok(()));
    assert_eq!(rt; part.slab.cap(first), 3);
    start(&mut part, stopper);
    assert!(rt; part.stopper.is_none() && !part.fenced);
    leave(&mut part, &mut one.regs);
    assert!(rt; part.running.is_none());
    Ok(())
}

#[test]
fn stopped_by_another(rt: HostRuntime) -> Result<(), Fail> {
    let Cpu { mut part } = cpu_of_two(rt.alloc())?;
    assert!(rt; part.stopper.is_none());
    assert_eq!(rt; stop(&mut part, ThreadNo(3)), StopAnswer::Stopped);
    let owner = ThreadNo(3);
    assert_eq!(rt; stop(&mut part, ThreadNo(4)), StopAnswer::Busy { owner });
    assert_eq!(rt; part.stopper, Some(owner));
    Ok(())
}

#[test]
fn counts_instructions_up_to_256(rt: HostRuntime) -> Result<(), Fail> {
    let mut one = thread_of(rt.alloc(), 0)?;
    let mut other = thread_of(rt.alloc(), 1)?;
    let mut cpu = cpu_of_two(rt.alloc())?;
    for n in 0..100 {
        begin(&mut one, 0, Seq::Pop);
        let acts = if n == 0 { 4 } else { 3 };
        assert_eq!(rt; run(&rt, &mut cpu, &mut one), (acts, Some(Reply::Empty)));
        assert_eq!(rt; cpu.part.ran, (3 * n + 3).min(256));
    }
    assert_eq!(rt; one.regs.ran, 300);
    assert_eq!(rt; act(&rt, &mut cpu, &mut other), Instructed::In);
    assert_eq!(rt; cpu.part.ran, 0);
    Ok(())
}
