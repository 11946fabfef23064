//! The acts at a CPU: the thread's own, which it may leave for another CPU before an instruction, and those
//! of a thread that stops it.
ghost use Rattle.std.specs.Prelude.{◌≡◌, ◌≢◌, ◌<◌, ◌+◌, ◌-◌, ◌^◌, [], length, None, Some, is_some, true, false};
ghost use Rattle.tc_model.specs.declared.calls.Call.TheVariants.{Drain};
ghost use Rattle.cpu_slab.specs.Caps.{cap_fault};
ghost use Rattle.rseq_core.specs.Acts as rseq;
ghost use Rattle.rseq_core.specs.declared.answers.Instructed.TheVariants as answer;
ghost use Rattle.cpu_drain.specs.Drains as drains;
ghost use Rattle.cpu_rows.specs.declared.row.CpuRow.TheVariants as front;
ghost use Rattle.cpu_rows.specs.declared.row.CpuStep.TheVariants.{Grow, Take, Start};
ghost use Rattle.call_steps.specs.declared.step.Next.TheVariants as next;
ghost use Rattle.call_steps.specs.Follows.{next_of, Stays};
ghost use Rattle.call_steps.specs.Fronts.{leaving};
ghost use Rattle.cpu_rows.specs.declared.row.Draining.{Draining as Drains};
ghost use Rattle.cpu_rows.specs.declared.row.Stopping.TheVariants as stopping;
ghost use Rattle.cpu_rows.specs.CpuActs.{due, leaves_or, cpu_acts, sequence, replied, after_pop, after_stock, after_push, grew_to, stops, drains_on, took, cap_answer, started, at_cpu_next, yields_to_enter, yields_row};
ghost use Rattle.cpu_rows.specs.CpuFits.{FitsCpu, FitsSequence, FitsSetCap, FitsTake, IsSequence, taken_by};

use crate::row::{CpuRow, CpuStep, Draining, Resizing, Stopping};
use crate::seat::CpuSeat;
use call_steps::{Asking, Came, Freeing, Giving, Next, Serving};
use cpu_drain::{StopAnswer, fence, set_cap, start, stop, take_class};
use cpu_slab::CapFault;
use rseq_core::{CpuPart, Grew, Instructed, Regs, Reply, Seq, grow_here, instruct, leave, run_on};
use size_classes::ClassTable;
use tc_model::{Answer, MoveTo};
use tc_units::{Class, ThreadNo};

/// Executed instructions since a switch from which on a thread that runs is polite to be switched out.
const LONG_RUN: u32 = 256;

/// The act of a row at a CPU, and what comes behind it: a row at a CPU in the place of this one, or what is put into `next`.
pub fn act_cpu(
    table: &ClassTable,
    cpu: &mut CpuPart,
    seat: &mut CpuSeat,
    regs: &mut Regs,
    row: &mut CpuStep,
    next: &mut Next<CpuRow>,
) -> Came
    requires { FitsCpu table.now cpu.old seat.old regs.old row.old }
    ensures cpu { cpu.new ≡ (cpu_acts table.now cpu.old seat.old regs.old row.old).part }
    ensures seat { seat.new ≡ (cpu_acts table.now cpu.old seat.old regs.old row.old).seat }
    ensures regs { regs.new ≡ (cpu_acts table.now cpu.old seat.old regs.old row.old).regs }
    ensures next { next_of result (front.Cpu row.new) next.new ≡ (cpu_acts table.now cpu.old seat.old regs.old row.old).next }
    ensures stays { Stays result (front.Cpu row.old) (front.Cpu row.new) }
{
    let thread = regs.thread;
    match *row {
        CpuStep::Grow(asking) => grow(cpu, seat, regs, asking, next),
        CpuStep::Stop(stopping) => stop_cpu(cpu, thread, stopping, row, next),
        CpuStep::Fence(stopping) => {
            fence(cpu, thread);
            *row = CpuStep::Take(stopping);
            Came::Row
        }
        CpuStep::Take(stopping) => {
            let class = regs.class;
            take_class(cpu, thread, class, &mut regs.hand);
            took(table, seat, regs, stopping, row, next)
        }
        CpuStep::SetCap(resizing) => {
            *next = resize(cpu, regs, resizing);
            Came::Next
        }
        CpuStep::Start(stopping) => {
            start(cpu, thread);
            *next = started(seat, regs, stopping);
            Came::Next
        }
        CpuStep::Leave => {
            *next = leave_at_end(cpu, seat, regs);
            Came::Next
        }
        _ => sequence(table, cpu, seat, regs, row, next),
    }
}

/// The act of a row at a CPU, where it can be done at once and the thread stays at that row: a sequence goes on, or a drain passes
/// over a class without objects that isn't the last one. Else nothing is done.
#[inline(always)]
pub fn stay_at_cpu(
    table: &ClassTable,
    cpu: &mut CpuPart,
    seat: &CpuSeat,
    regs: &mut Regs,
    row: &CpuStep,
) -> bool
    requires { FitsCpu table.now cpu.old seat.now regs.old row.now }
    ensures acted { result ≡ true → cpu_acts table.now cpu.old seat.now regs.old row.now ≡ leaving cpu.new seat.now regs.new (at_cpu_next row.now) }
    ensures same { result ≡ false → (cpu.new ≡ cpu.old) × (regs.new ≡ regs.old) }
{
    match *row {
        CpuStep::Pop(_) | CpuStep::Stock(_) | CpuStep::Push(_) | CpuStep::PopBatch(_) => {
            due(seat, regs.ran).is_none() && run_on(cpu, regs)
        }
        CpuStep::Take(Stopping::Drain(_)) => pass_over(table, cpu, regs),
        _ => false,
    }
}

/// A drain passes over a class without objects, if another class comes behind it.
fn pass_over(table: &ClassTable, cpu: &mut CpuPart, regs: &mut Regs) -> bool
    requires fits { (d : Drains) × FitsTake cpu.old regs.old (stopping.Drain d) }
    ensures taken { result ≡ true → cpu.new ≡ drains.taken cpu.old regs.old.class.0 }
    ensures next { result ≡ true → (regs.old.class.0 + 1 < length table.now) × (regs.new ≡ record regs.old { hand = drains.taken_to cpu.old regs.old.class.0 regs.old.hand; class = record { 0 = regs.old.class.0 + 1 } }) }
    ensures empty { result ≡ true → (drains.taken_to cpu.old regs.old.class.0 regs.old.hand).items ≡ [] }
    ensures same { result ≡ false → (cpu.new ≡ cpu.old) × (regs.new ≡ regs.old) }
{
    if u32::from(regs.class.0) + 1 >= table.len() || cpu.slab.top(regs.class) > 0 {
        return false;
    }
    let thread = regs.thread;
    let class = regs.class;
    take_class(cpu, thread, class, &mut regs.hand);
    regs.class = Class(regs.class.0 + 1);
    true
}

/// The thread's move, where it comes before the next instruction.
fn due(seat: &CpuSeat, ran: u32) -> Option<MoveTo>
    requires { ran < 2 ^ 32 - 1 }
    ensures { result ≡ due seat.now.moved ran }
{
    match seat.moved {
        Some(to) if to.before == ran + 1 => Some(to),
        _ => None,
    }
}

/// A thread with a sequence leaves for the CPU of its move, switches in, goes back, or executes one
/// instruction.
fn sequence(
    table: &ClassTable,
    cpu: &mut CpuPart,
    seat: &mut CpuSeat,
    regs: &mut Regs,
    row: &mut CpuStep,
    next: &mut Next<CpuRow>,
) -> Came
    requires fits { FitsSequence table.now cpu.old regs.old }
    requires row { IsSequence row.old }
    ensures cpu { cpu.new ≡ (sequence table.now cpu.old seat.old regs.old row.old).part }
    ensures seat { seat.new ≡ (sequence table.now cpu.old seat.old regs.old row.old).seat }
    ensures regs { regs.new ≡ (sequence table.now cpu.old seat.old regs.old row.old).regs }
    ensures next { next_of result (front.Cpu row.new) next.new ≡ (sequence table.now cpu.old seat.old regs.old row.old).next }
    ensures stays { Stays result (front.Cpu row.old) (front.Cpu row.new) }
{
    if let Some(to) = due(seat, regs.ran) {
        leave(cpu, regs);
        seat.arrive(to.cpu);
        return Came::Row;
    }
    match instruct(cpu, regs) {
        Instructed::Done(reply) => go_on(table, seat, regs, reply, row, next),
        _ => Came::Row,
    }
}

/// The call goes on by what its sequence replied.
fn go_on(
    table: &ClassTable,
    seat: &CpuSeat,
    regs: &mut Regs,
    reply: Reply,
    row: &mut CpuStep,
    next: &mut Next<CpuRow>,
) -> Came
    requires class { regs.old.class.0 < length table.now }
    requires row { IsSequence row.old }
    ensures regs { regs.new ≡ (replied table.now seat.now regs.old (answer.Done reply) row.old).0 }
    ensures next { next_of result (front.Cpu row.new) next.new ≡ (replied table.now seat.now regs.old (answer.Done reply) row.old).1 }
    ensures stays { Stays result (front.Cpu row.old) (front.Cpu row.new) }
{
    match *row {
        CpuStep::Pop(asking) => popped(seat, asking, reply, row, next),
        CpuStep::Stock(serving) => {
            *next = stocked(seat, regs, serving);
            Came::Next
        }
        CpuStep::Push(freeing) => pushed(table, seat, regs, freeing, reply, row, next),
        CpuStep::PopBatch(freeing) => {
            *next = seat.give_away(Giving::Freed(freeing));
            Came::Next
        }
        _ => unreachable!(),
    }
}

/// An allocation has its object, or lets its class grow, or looks elsewhere.
fn popped(
    seat: &CpuSeat,
    asking: Asking,
    reply: Reply,
    row: &mut CpuStep,
    next: &mut Next<CpuRow>,
) -> Came
    ensures next { next_of result (front.Cpu row.new) next.new ≡ after_pop seat.now asking reply }
    ensures stays { Stays result (front.Cpu row.old) (front.Cpu row.new) }
{
    match reply {
        Reply::Popped => {
            *next = Next::Serve(asking);
            Came::Next
        }
        Reply::Empty => {
            *row = CpuStep::Grow(asking);
            Came::Row
        }
        _ => {
            *next = seat.look_on(asking);
            Came::Next
        }
    }
}

/// An allocation has pushed all that it fetched besides, or gives the rest away.
fn stocked(seat: &CpuSeat, regs: &Regs, serving: Serving) -> Next<CpuRow>
    ensures { result ≡ after_stock seat.now serving regs.now.hand.items }
{
    if regs.hand.as_slice().is_empty() {
        Next::Publish(serving)
    } else {
        seat.give_away(Giving::Rest(serving))
    }
}

/// A free has pushed its object, or pops a batch to give it away too, or gives its object away.
fn pushed(
    table: &ClassTable,
    seat: &CpuSeat,
    regs: &mut Regs,
    freeing: Freeing,
    reply: Reply,
    row: &mut CpuStep,
    next: &mut Next<CpuRow>,
) -> Came
    requires class { regs.old.class.0 < length table.now }
    ensures regs { regs.new ≡ (after_push table.now seat.now regs.old freeing reply).0 }
    ensures next { next_of result (front.Cpu row.new) next.new ≡ (after_push table.now seat.now regs.old freeing reply).1 }
    ensures stays { Stays result (front.Cpu row.old) (front.Cpu row.new) }
{
    match reply {
        Reply::Pushed { .. } => {
            *next = Next::Freed(freeing);
            Came::Next
        }
        Reply::Full => {
            let class = regs.class;
            let want = u32::from(table.row(class).batch);
            regs.start(class, Seq::PopBatch { want });
            *row = CpuStep::PopBatch(freeing);
            Came::Row
        }
        _ => {
            *next = seat.give_away(Giving::Freed(freeing));
            Came::Next
        }
    }
}

/// A thread with a growth to do switches in, goes back, or lets its class grow.
fn grow(
    cpu: &mut CpuPart,
    seat: &CpuSeat,
    regs: &mut Regs,
    asking: Asking,
    next: &mut Next<CpuRow>,
) -> Came
    requires class { regs.old.class.0 < length cpu.old.slab.rows }
    requires epoch { cpu.old.epoch < 2 ^ 64 - 1 }
    ensures cpu { cpu.new ≡ (rseq.grew_here cpu.old regs.old).cpu }
    ensures regs { regs.new ≡ (rseq.grew_here cpu.old regs.old).regs }
    ensures next { next_of result (front.Cpu (Grow asking)) next.new ≡ grew_to seat.now asking (rseq.grew_here cpu.old regs.old).answer }
{
    match grow_here(cpu, regs) {
        Grew::Done => {
            *next = seat.look_on(asking);
            Came::Next
        }
        _ => Came::Row,
    }
}

/// A drain or a resize stops a CPU, or ends where another thread has.
fn stop_cpu(
    cpu: &mut CpuPart,
    thread: ThreadNo,
    stopping: Stopping,
    row: &mut CpuStep,
    next: &mut Next<CpuRow>,
) -> Came
    requires { cpu.old.stopper ≢ Some thread }
    ensures cpu { cpu.new ≡ (stops cpu.old thread stopping cpu.old.stopper).0 }
    ensures next { next_of result (front.Cpu row.new) next.new ≡ (stops cpu.old thread stopping cpu.old.stopper).1 }
    ensures stays { Stays result (front.Cpu row.old) (front.Cpu row.new) }
{
    match stop(cpu, thread) {
        StopAnswer::Stopped => {
            *row = CpuStep::Fence(stopping);
            Came::Row
        }
        StopAnswer::Busy { owner } => {
            let answer = Answer::Busy { owner };
            *next = Next::Decide { answer, row: None };
            Came::Next
        }
    }
}

/// A drain gives away what it took of a class, and a resize sets the capacity first.
fn took(
    table: &ClassTable,
    seat: &CpuSeat,
    regs: &mut Regs,
    stopping: Stopping,
    row: &mut CpuStep,
    next: &mut Next<CpuRow>,
) -> Came
    requires row { row.old ≡ Take stopping }
    requires taken { taken_by stopping + length regs.old.hand.items < 2 ^ 64 }
    ensures regs { regs.new ≡ (took table.now seat.now regs.old stopping).0 }
    ensures next { next_of result (front.Cpu row.new) next.new ≡ (took table.now seat.now regs.old stopping).1 }
    ensures stays { Stays result (front.Cpu row.old) (front.Cpu row.new) }
{
    match stopping {
        Stopping::Drain(draining) => drained(table, seat, regs, draining, row, next),
        Stopping::Resize(resizing) => {
            *row = CpuStep::SetCap(resizing);
            Came::Row
        }
    }
}

/// A drain gives away what it took of a class, and counts it. Behind an empty class the same row stands, for the next class.
fn drained(
    table: &ClassTable,
    seat: &CpuSeat,
    regs: &mut Regs,
    draining: Draining,
    row: &mut CpuStep,
    next: &mut Next<CpuRow>,
) -> Came
    requires row { row.old ≡ Take (stopping.Drain draining) }
    requires taken { draining.taken + length regs.old.hand.items < 2 ^ 64 }
    ensures regs { regs.new ≡ (took table.now seat.now regs.old (stopping.Drain draining)).0 }
    ensures next { next_of result (front.Cpu row.new) next.new ≡ (took table.now seat.now regs.old (stopping.Drain draining)).1 }
    ensures stays { Stays result (front.Cpu row.old) (front.Cpu row.new) }
{
    let came = regs.hand.as_slice().len();
    if came == 0 && u32::from(regs.class.0) + 1 < table.len() {
        regs.class = Class(regs.class.0 + 1);
        return Came::Row;
    }
    let taken = draining.taken + came as u64;
    let (class, to) = drain_on(table, regs.class, Draining { taken, ..draining });
    if came == 0 {
        regs.class = class;
        *row = to;
        Came::Row
    } else {
        *next = seat.give_away(Giving::Row { class, row: to });
        Came::Next
    }
}

/// A drain takes the next class, and starts the CPU again behind the last one.
fn drain_on(table: &ClassTable, class: Class, draining: Draining) -> (Class, CpuStep)
    ensures { result ≡ drains_on table.now class draining }
{
    let stopping = Stopping::Drain(draining);
    if u32::from(class.0) + 1 < table.len() {
        (Class(class.0 + 1), CpuStep::Take(stopping))
    } else {
        (class, CpuStep::Start(stopping))
    }
}

/// A resize sets the capacity of the class, or that is refused.
fn resize(cpu: &mut CpuPart, regs: &Regs, resizing: Resizing) -> Next<CpuRow>
    requires { FitsSetCap cpu.old regs.now }
    ensures cpu { cpu.new ≡ drains.capped cpu.old regs.now.class.0 resizing.cap }
    ensures next { result ≡ next.Decide (cap_answer (cap_fault cpu.old.slab regs.now.class.0 resizing.cap)) (Some (front.Cpu (Start (stopping.Resize resizing)))) }
{
    let answer = match set_cap(cpu, regs.thread, regs.class, resizing.cap) {
        Ok(()) => Answer::CapSet,
        Err(CapFault::OverStatic { cap }) => Answer::OverStatic { cap },
        Err(CapFault::OverLimit { sum }) => Answer::OverLimit { sum },
    };
    let row = CpuStep::Start(Stopping::Resize(resizing));
    Next::Decide {
        answer,
        row: Some(CpuRow::Cpu(row)),
    }
}

/// A drain ends, and a resize gives away what it took.
fn started(seat: &CpuSeat, regs: &Regs, stopping: Stopping) -> Next<CpuRow>
    ensures { result ≡ started seat.now regs.now.hand.items stopping }
{
    match stopping {
        Stopping::Drain(draining) => {
            let objects = draining.taken;
            let answer = Answer::Drained { objects };
            Next::Decide { answer, row: None }
        }
        Stopping::Resize(_) if regs.hand.as_slice().is_empty() => Next::End,
        Stopping::Resize(_) => seat.give_away(Giving::End),
    }
}

/// The thread leaves for the CPU of its move, and its call ends.
fn leave_at_end(cpu: &mut CpuPart, seat: &mut CpuSeat, regs: &mut Regs) -> Next<CpuRow>
    requires moved { is_some seat.old.moved ≡ true }
    requires epoch { cpu.old.epoch < 2 ^ 64 - 1 }
    ensures cpu { cpu.new ≡ (leaves_or seat.old.moved cpu.old seat.old regs.old next.End (leaving cpu.old seat.old regs.old next.End)).part }
    ensures seat { seat.new ≡ (leaves_or seat.old.moved cpu.old seat.old regs.old next.End (leaving cpu.old seat.old regs.old next.End)).seat }
    ensures regs { regs.new ≡ (leaves_or seat.old.moved cpu.old seat.old regs.old next.End (leaving cpu.old seat.old regs.old next.End)).regs }
    ensures next { result ≡ next.End }
{
    match seat.moved {
        Some(to) => {
            leave(cpu, regs);
            seat.arrive(to.cpu);
            Next::End
        }
        None => unreachable!(),
    }
}

/// Whether it is polite to let the thread act at a CPU now: not where it would switch in while another
/// thread runs there that has begun something and has executed fewer than 256 instructions.
pub fn yields(cpu: &CpuPart, seat: &CpuSeat, regs: &Regs, row: CpuStep) -> bool
    requires { regs.now.ran < 2 ^ 32 - 1 }
    ensures { result ≡ yields_row cpu.now seat.now regs.now row }
{
    match row {
        CpuStep::Grow(_) => may_enter(cpu, regs.thread),
        CpuStep::Pop(_) | CpuStep::Stock(_) | CpuStep::Push(_) | CpuStep::PopBatch(_) => {
            due(seat, regs.ran).is_some() || may_enter(cpu, regs.thread)
        }
        _ => true,
    }
}

/// Whether the thread runs there, or it is polite to switch it in.
fn may_enter(cpu: &CpuPart, thread: ThreadNo) -> bool
    ensures { result ≡ yields_to_enter cpu.now thread }
{
    match cpu.running {
        Some(running) => { running.0 == thread.0 || !cpu.is_open || cpu.ran >= LONG_RUN }
        None => true,
    }
}
