//! One instruction of a sequence, on the slab and the registers.
ghost use Rattle.std.specs.Prelude.{◌≡◌, ◌+◌, ◌-◌, ◌^◌, ◌<◌, ◌≤◌, ◌↔◌, true, false, is_some, if◌then◌else◌, length, Some, None};
ghost use Rattle.cpu_slab.specs.Slots.{row_at, with_row};
ghost use Rattle.rseq_core.specs.Tables.{is_pop, copy_or_commit, cell};
ghost use Rattle.rseq_core.specs.Agrees.{IsAble};
ghost use Rattle.rseq_core.specs.declared.sequence.Pc.TheVariants.{Header, Test, Copy, Commit};

use crate::bags;
use crate::regs::Regs;
use crate::sequence::{Pc, Reply};
use cpu_slab::Slab;

/// So many objects are to be copied.
fn counted(regs: &mut Regs, count: u32)
    requires { regs.old.ran < 2 ^ 32 - 1 }
    ensures { regs.new ≡ record regs.old { count = count; pc = copy_or_commit 0 count; ran = regs.old.ran + 1 } }
{
    regs.count = count;
    regs.go_on(if count > 0 {
        Pc::Copy { done: 0 }
    } else {
        Pc::Commit
    });
}

/// The most objects that a sequence can copy: for a pop those that there are, for a push the capacity above them.
fn available(slab: &Slab, regs: &Regs) -> u32
    requires class { regs.now.class.0 < length slab.now.rows }
    requires top { regs.now.top ≡ (row_at slab.now regs.now.class.0).top }
    ensures count { result ≡ (if is_pop regs.now.seq then regs.now.top else (row_at slab.now regs.now.class.0).cap - regs.now.top) }
    ensures none { (result ≡ 0) ↔ (is_some (cell false (is_pop regs.now.seq) (row_at slab.now regs.now.class.0) regs.now Test).reply ≡ true) }
{
    if regs.is_pop() {
        regs.top
    } else {
        slab.cap(regs.class) - regs.top
    }
}

/// One more object is copied.
fn copied(regs: &mut Regs, done: u32)
    requires done { done < regs.old.count }
    requires ran { regs.old.ran < 2 ^ 32 - 1 }
    ensures { regs.new ≡ record regs.old { pc = copy_or_commit (done + 1) regs.old.count; ran = regs.old.ran + 1 } }
{
    let count = regs.count;
    regs.go_on(if done + 1 < count {
        Pc::Copy { done: done + 1 }
    } else {
        Pc::Commit
    });
}

/// Copy of a pop: loads the object that lies `done` below the topmost.
fn load(slab: &Slab, regs: &mut Regs, done: u32)
    requires class { regs.old.class.0 < length slab.now.rows }
    requires ran { regs.old.ran < 2 ^ 32 - 1 }
    requires able { IsAble true (row_at slab.now regs.old.class.0) regs.old (Copy done) }
    ensures { regs.new ≡ (cell false true (row_at slab.now regs.old.class.0) regs.old (Copy done)).regs }
{
    let _cap = slab.cap(regs.class);
    let object = slab.slot(regs.class, regs.top - (done + 1));
    bags::append_one(&mut regs.loaded, object);
    copied(regs, done);
}

/// Copy of a push: stores an object of the hand in scratch, `done` above the top.
fn store(slab: &mut Slab, regs: &mut Regs, done: u32)
    requires class { regs.old.class.0 < length slab.old.rows }
    requires ran { regs.old.ran < 2 ^ 32 - 1 }
    requires able { IsAble false (row_at slab.old regs.old.class.0) regs.old (Copy done) }
    ensures slab { slab.new ≡ with_row slab.old regs.old.class.0 (cell false false (row_at slab.old regs.old.class.0) regs.old (Copy done)).row }
    ensures regs { regs.new ≡ (cell false false (row_at slab.old regs.old.class.0) regs.old (Copy done)).regs }
{
    let _cap = slab.cap(regs.class);
    let object = regs.hand.as_slice()[done as usize];
    slab.set_slot(regs.class, regs.top + done, object);
    copied(regs, done);
}

/// Commit of a pop: what is loaded comes to the hand.
fn commit_pop(slab: &mut Slab, regs: &mut Regs) -> Reply
    requires class { regs.old.class.0 < length slab.old.rows }
    requires ran { regs.old.ran < 2 ^ 32 - 1 }
    requires able { IsAble true (row_at slab.old regs.old.class.0) regs.old Commit }
    ensures slab { slab.new ≡ with_row slab.old regs.old.class.0 (cell false true (row_at slab.old regs.old.class.0) regs.old Commit).row }
    ensures regs { regs.new ≡ (cell false true (row_at slab.old regs.old.class.0) regs.old Commit).regs }
    ensures reply { Some result ≡ (cell false true (row_at slab.old regs.old.class.0) regs.old Commit).reply }
{
    let _cap = slab.cap(regs.class);
    bags::append(&mut regs.hand, regs.loaded.as_slice());
    slab.set_top(regs.class, regs.top - regs.count);
    regs.close();
    Reply::Popped
}

/// Commit of a push: what was stored has left the hand.
fn commit_push(slab: &mut Slab, regs: &mut Regs) -> Reply
    requires class { regs.old.class.0 < length slab.old.rows }
    requires ran { regs.old.ran < 2 ^ 32 - 1 }
    requires able { IsAble false (row_at slab.old regs.old.class.0) regs.old Commit }
    ensures slab { slab.new ≡ with_row slab.old regs.old.class.0 (cell false false (row_at slab.old regs.old.class.0) regs.old Commit).row }
    ensures regs { regs.new ≡ (cell false false (row_at slab.old regs.old.class.0) regs.old Commit).regs }
    ensures reply { Some result ≡ (cell false false (row_at slab.old regs.old.class.0) regs.old Commit).reply }
{
    let count = regs.count;
    let _cap = slab.cap(regs.class);
    bags::drop_first(&mut regs.hand, count);
    slab.set_top(regs.class, regs.top + count);
    regs.close();
    Reply::Pushed { count }
}

/// One instruction of the sequence in the registers, where that goes on behind it: else nothing is done.
#[inline(always)]
pub(crate) fn go_on(stopped: bool, slab: &mut Slab, regs: &mut Regs) -> bool
    requires class { regs.old.class.0 < length slab.old.rows }
    requires ran { regs.old.ran < 2 ^ 32 - 1 }
    requires able { IsAble (is_pop regs.old.seq) (row_at slab.old regs.old.class.0) regs.old regs.old.pc }
    ensures slab { result ≡ true → slab.new ≡ with_row slab.old regs.old.class.0 (cell stopped (is_pop regs.old.seq) (row_at slab.old regs.old.class.0) regs.old regs.old.pc).row }
    ensures regs { result ≡ true → regs.new ≡ (cell stopped (is_pop regs.old.seq) (row_at slab.old regs.old.class.0) regs.old regs.old.pc).regs }
    ensures goes_on { result ≡ true → (cell stopped (is_pop regs.old.seq) (row_at slab.old regs.old.class.0) regs.old regs.old.pc).reply ≡ None }
    ensures ends { result ≡ false → is_some (cell stopped (is_pop regs.old.seq) (row_at slab.old regs.old.class.0) regs.old regs.old.pc).reply ≡ true }
    ensures same { result ≡ false → (slab.new ≡ slab.old) × (regs.new ≡ regs.old) }
{
    match regs.pc {
        Pc::Begin => regs.go_on(Pc::Header),
        Pc::Header if stopped => return false,
        Pc::Header => {
            regs.top = slab.top(regs.class);
            regs.go_on(Pc::Test);
        }
        Pc::Test => {
            let most = available(slab, regs);
            if most == 0 {
                return false;
            }
            let count = regs.wanted(most);
            counted(regs, count);
        }
        Pc::Copy { done } if regs.is_pop() => load(slab, regs, done),
        Pc::Copy { done } => store(slab, regs, done),
        Pc::Commit => return false,
    }
    true
}

/// The instruction that ends the sequence in the registers, where the next one does.
fn end(stopped: bool, slab: &mut Slab, regs: &mut Regs) -> Reply
    requires class { regs.old.class.0 < length slab.old.rows }
    requires ran { regs.old.ran < 2 ^ 32 - 1 }
    requires able { IsAble (is_pop regs.old.seq) (row_at slab.old regs.old.class.0) regs.old regs.old.pc }
    requires ends { is_some (cell stopped (is_pop regs.old.seq) (row_at slab.old regs.old.class.0) regs.old regs.old.pc).reply ≡ true }
    ensures slab { slab.new ≡ with_row slab.old regs.old.class.0 (cell stopped (is_pop regs.old.seq) (row_at slab.old regs.old.class.0) regs.old regs.old.pc).row }
    ensures regs { regs.new ≡ (cell stopped (is_pop regs.old.seq) (row_at slab.old regs.old.class.0) regs.old regs.old.pc).regs }
    ensures reply { Some result ≡ (cell stopped (is_pop regs.old.seq) (row_at slab.old regs.old.class.0) regs.old regs.old.pc).reply }
{
    let pops = regs.is_pop();
    let reply = match regs.pc {
        Pc::Commit if pops => return commit_pop(slab, regs),
        Pc::Commit => return commit_push(slab, regs),
        Pc::Test if pops => Reply::Empty,
        Pc::Test => Reply::Full,
        Pc::Header => Reply::Stopped,
        Pc::Begin | Pc::Copy { .. } => unreachable!(),
    };
    regs.close();
    reply
}

/// One instruction of the sequence in the registers.
pub(crate) fn cell(stopped: bool, slab: &mut Slab, regs: &mut Regs) -> Option<Reply>
    requires class { regs.old.class.0 < length slab.old.rows }
    requires ran { regs.old.ran < 2 ^ 32 - 1 }
    requires able { IsAble (is_pop regs.old.seq) (row_at slab.old regs.old.class.0) regs.old regs.old.pc }
    ensures slab { slab.new ≡ with_row slab.old regs.old.class.0 (cell stopped (is_pop regs.old.seq) (row_at slab.old regs.old.class.0) regs.old regs.old.pc).row }
    ensures regs { regs.new ≡ (cell stopped (is_pop regs.old.seq) (row_at slab.old regs.old.class.0) regs.old regs.old.pc).regs }
    ensures reply { result ≡ (cell stopped (is_pop regs.old.seq) (row_at slab.old regs.old.class.0) regs.old regs.old.pc).reply }
{
    if go_on(stopped, slab, regs) {
        None
    } else {
        Some(end(stopped, slab, regs))
    }
}
