//! The acts of a thread at its CPU.
ghost use Rattle.std.specs.Prelude.{◌≡◌, ◌-◌, ◌^◌, ◌+◌, ◌<◌, true, false, min, length};
ghost use Rattle.cpu_slab.specs.Slots.{row_at};
ghost use Rattle.rseq_core.specs.Bags.{room};
ghost use Rattle.rseq_core.specs.Tables.{is_pop};
ghost use Rattle.rseq_core.specs.Agrees.{IsAble};
ghost use Rattle.rseq_core.specs.Acts.{IsCurrent, DiffersAtMostOnce, dropped, left, instruction, with_cell, arrival_at, cpu_after, regs_after, instructed, GoesOn, grown_there, grew_here};

use crate::answers::{Arrival, Grew, Instructed};
use crate::cells::{cell, go_on};
use crate::cpu_part::CpuPart;
use crate::regs::Regs;
use crate::sequence::{Pc, Reply};
use tc_units::Class;

/// The executed instructions since a switch from which on they are not counted.
const MOST_RAN: u32 = 256;

/// The CPU has executed one instruction more, and has a sequence that was begun or not.
#[inline(always)]
fn note_ran(cpu: &mut CpuPart, is_open: bool)
    ensures { cpu.new ≡ record cpu.old { ran = min 256 (cpu.old.ran + 1); is_open = is_open } }
{
    cpu.ran = cpu.ran.min(MOST_RAN - 1) + 1;
    cpu.is_open = is_open;
}

/// One instruction of a current thread.
fn step(cpu: &mut CpuPart, regs: &mut Regs) -> Option<Reply>
    requires class { regs.old.class.0 < length cpu.old.slab.rows }
    requires ran { regs.old.ran < 2 ^ 32 - 1 }
    requires able { IsAble (is_pop regs.old.seq) (row_at cpu.old.slab regs.old.class.0) regs.old regs.old.pc }
    ensures cpu { cpu.new ≡ with_cell cpu.old regs.old (instruction cpu.old regs.old) }
    ensures regs { regs.new ≡ (instruction cpu.old regs.old).regs }
    ensures reply { result ≡ (instruction cpu.old regs.old).reply }
{
    let is_open = regs.pc == Pc::Begin || cpu.is_open;
    let reply = cell(cpu.stopper.is_some(), &mut cpu.slab, regs);
    note_ran(cpu, is_open && reply.is_none());
    reply
}

/// The next act of a thread with a sequence: it switches in, goes back to the begin, or executes one
/// instruction. At most one slot is stored.
pub fn instruct(cpu: &mut CpuPart, regs: &mut Regs) -> Instructed
    requires class { regs.old.class.0 < length cpu.old.slab.rows }
    requires epoch { cpu.old.epoch < 2 ^ 64 - 1 }
    requires ran { regs.old.ran < 2 ^ 32 - 1 }

    // Of a current thread: its registers fit the row, and there is room for what it loads or pops.
    requires able { IsCurrent regs.old.thread cpu.old regs.old → IsAble (is_pop regs.old.seq) (row_at cpu.old.slab regs.old.class.0) regs.old regs.old.pc }
    ensures cpu { cpu.new ≡ (instructed cpu.old regs.old).cpu }
    ensures regs { regs.new ≡ (instructed cpu.old regs.old).regs }
    ensures answer { result ≡ (instructed cpu.old regs.old).answer }
    ensures one_place { DiffersAtMostOnce cpu.old.slab cpu.new.slab }
    ensures classes { length cpu.new.slab.rows ≡ length cpu.old.slab.rows }
    ensures class { regs.new.class ≡ regs.old.class }
    ensures hand_room { room regs.new.hand ≡ room regs.old.hand }
    ensures loaded_room { room regs.new.loaded ≡ room regs.old.loaded }
{
    match arrive(cpu, regs) {
        Arrival::In => Instructed::In,
        Arrival::Back => Instructed::Back,
        Arrival::Current => match step(cpu, regs) {
            None => Instructed::Ran,
            Some(reply) => Instructed::Done(reply),
        },
    }
}

/// The next act of a thread with a sequence, where the sequence doesn't end with it: else nothing is done.
#[inline(always)]
pub fn run_on(cpu: &mut CpuPart, regs: &mut Regs) -> bool
    requires class { regs.old.class.0 < length cpu.old.slab.rows }
    requires epoch { cpu.old.epoch < 2 ^ 64 - 1 }
    requires ran { regs.old.ran < 2 ^ 32 - 1 }

    // Of a current thread: its registers fit the row, and there is room for what it loads or pops.
    requires able { IsCurrent regs.old.thread cpu.old regs.old → IsAble (is_pop regs.old.seq) (row_at cpu.old.slab regs.old.class.0) regs.old regs.old.pc }
    ensures cpu { result ≡ true → cpu.new ≡ (instructed cpu.old regs.old).cpu }
    ensures regs { result ≡ true → regs.new ≡ (instructed cpu.old regs.old).regs }
    ensures goes_on { result ≡ true → GoesOn (instructed cpu.old regs.old).answer }
    ensures ends { result ≡ false → GoesOn (instructed cpu.old regs.old).answer → ⊥ }
    ensures same { result ≡ false → (cpu.new ≡ cpu.old) × (regs.new ≡ regs.old) }
{
    match arrive(cpu, regs) {
        Arrival::In | Arrival::Back => true,
        Arrival::Current => {
            let is_open = regs.pc == Pc::Begin || cpu.is_open;
            if !go_on(cpu.stopper.is_some(), &mut cpu.slab, regs) {
                return false;
            }
            note_ran(cpu, is_open);
            true
        }
    }
}

/// The next act of a thread with a growth of its class to do: it switches in, goes back to the begin,
/// or clears the open mark and lets the class grow, unless a stopper stands there.
pub fn grow_here(cpu: &mut CpuPart, regs: &mut Regs) -> Grew
    requires class { regs.old.class.0 < length cpu.old.slab.rows }
    requires epoch { cpu.old.epoch < 2 ^ 64 - 1 }
    ensures cpu { cpu.new ≡ (grew_here cpu.old regs.old).cpu }
    ensures regs { regs.new ≡ (grew_here cpu.old regs.old).regs }
    ensures answer { result ≡ (grew_here cpu.old regs.old).answer }
    ensures classes { length cpu.new.slab.rows ≡ length cpu.old.slab.rows }
    ensures class { regs.new.class ≡ regs.old.class }
    ensures hand_room { room regs.new.hand ≡ room regs.old.hand }
    ensures loaded_room { room regs.new.loaded ≡ room regs.old.loaded }
{
    match arrive(cpu, regs) {
        Arrival::In => Grew::In,
        Arrival::Back => Grew::Back,
        Arrival::Current => {
            grow_class(cpu, regs.class);
            Grew::Done
        }
    }
}

/// Clears the open mark and lets a class grow, unless a stopper stands there.
fn grow_class(cpu: &mut CpuPart, class: Class)
    requires { class.0 < length cpu.old.slab.rows }
    ensures grown { cpu.new ≡ grown_there cpu.old class.0 }
    ensures classes { length cpu.new.slab.rows ≡ length cpu.old.slab.rows }
{
    cpu.is_open = false;
    if cpu.stopper.is_none() {
        cpu.slab.grow(class);
    }
}

/// A thread leaves a CPU. Where it runs there, nobody does then.
pub fn leave(cpu: &mut CpuPart, regs: &mut Regs)
    requires { cpu.old.epoch < 2 ^ 64 - 1 }
    ensures cpu { cpu.new ≡ left cpu.old regs.old.thread }
    ensures regs { regs.new ≡ dropped regs.old }
{
    if cpu.runs(regs.thread) {
        cpu.running = None;
        cpu.epoch += 1;
        cpu.is_open = false;
    }
    regs.restart();
}

/// Switches a thread in where another runs, or none, and else sends it back to the begin of its
/// sequence where its epoch isn't the CPU's.
fn arrive(cpu: &mut CpuPart, regs: &mut Regs) -> Arrival
    requires { cpu.old.epoch < 2 ^ 64 - 1 }
    ensures arrival { result ≡ arrival_at cpu.old regs.old }
    ensures cpu { cpu.new ≡ cpu_after result cpu.old regs.old }
    ensures regs { regs.new ≡ regs_after result cpu.old regs.old }
{
    if !cpu.runs(regs.thread) {
        let epoch = cpu.enter(regs.thread);
        regs.begin_again(epoch);
        return Arrival::In;
    }
    if regs.epoch != cpu.epoch {
        cpu.is_open = false;
        regs.begin_again(cpu.epoch);
        return Arrival::Back;
    }
    Arrival::Current
}
