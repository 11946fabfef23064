//! The acts of a thread at a CPU where it need not run.
ghost use Rattle.std.specs.Prelude.{◌≡◌, ◌≢◌, ℕ, ◌+◌, ◌-◌, ◌^◌, ◌<◌, ◌≤◌, ◌↔◌, Some, None, Err, length, reverse, true};
ghost use Rattle.std.specs.Result.{result_err};
ghost use Rattle.cpu_slab.specs.Slots.{row_at, held, with_cap};
ghost use Rattle.cpu_slab.specs.Growth.{used};
ghost use Rattle.cpu_slab.specs.Caps.{cap_fault};
ghost use Rattle.rseq_core.specs.Bags.{appended};
ghost use Rattle.cpu_drain.specs.Drains.{stopped, stop_answer, fenced, taken, taken_to, capped, started, IsFencedBy};

use crate::stopping::StopAnswer;
use cpu_slab::{CapFault, Slab};
use rseq_core::CpuPart;
use tc_units::{Addr, Bag, Class, ThreadNo};

/// Stops new sequences at a CPU, for a thread that isn't the stopper. `Busy` exactly where another
/// thread is, and then nothing changes.
pub fn stop(cpu: &mut CpuPart, thread: ThreadNo) -> StopAnswer
    requires { cpu.old.stopper ≢ Some thread }
    ensures cpu { cpu.new ≡ stopped cpu.old thread }
    ensures answer { result ≡ stop_answer cpu.old.stopper }
    ensures free { (result ≡ StopAnswer.Stopped) ↔ (cpu.old.stopper ≡ None) }
    ensures busy { (owner : ThreadNo) → ((result ≡ StopAnswer.Busy owner) ↔ (cpu.old.stopper ≡ Some owner)) }
{
    match cpu.stopper {
        None => {
            cpu.stopper = Some(thread);
            StopAnswer::Stopped
        }
        Some(owner) => StopAnswer::Busy { owner },
    }
}

/// Sends back each sequence that was begun at a CPU and has not committed.
pub fn fence(cpu: &mut CpuPart, thread: ThreadNo)
    requires stopper { cpu.old.stopper ≡ Some thread }
    requires epoch { cpu.old.epoch < 2 ^ 64 - 1 }
    ensures { cpu.new ≡ fenced cpu.old }
{
    cpu.epoch += 1;
    cpu.fenced = true;
}

/// Moves all objects of a class to a bag, top first.
pub fn take_class(cpu: &mut CpuPart, thread: ThreadNo, class: Class, out: &mut Bag<Addr>)
    requires stopper { IsFencedBy thread cpu.old }
    requires class { class.0 < length cpu.old.slab.rows }
    requires room { (row_at cpu.old.slab class.0).top ≤ out.old.spare }
    ensures cpu { cpu.new ≡ taken cpu.old class.0 }
    ensures out { out.new ≡ taken_to cpu.old class.0 out.old }
    ensures empty { (row_at cpu.new.slab class.0).top ≡ 0 }
    ensures classes { length cpu.new.slab.rows ≡ length cpu.old.slab.rows }
{
    copy_out(&cpu.slab, class, out);
    cpu.slab.set_top(class, 0);
}

/// Copies all objects of a class to a bag, top first.
fn copy_out(slab: &Slab, class: Class, out: &mut Bag<Addr>)
    requires class { class.0 < length slab.now.rows }
    requires room { (row_at slab.now class.0).top ≤ out.old.spare }
    ensures { out.new ≡ appended out.old (reverse (held (row_at slab.now class.0))) }
{
    let _cap = slab.cap(class);
    let top = slab.top(class);
    for k in 0..top {
        out.push(slab.slot(class, top - 1 - k));
    }
}

/// Sets the capacity of an empty class. It is refused as by the slab, and then nothing changes.
pub fn set_cap(cpu: &mut CpuPart, thread: ThreadNo, class: Class, n: u32) -> Result<(), CapFault>
    requires stopper { IsFencedBy thread cpu.old }
    requires class { class.0 < length cpu.old.slab.rows }
    requires empty { (row_at cpu.old.slab class.0).top ≡ 0 }
    ensures cpu { cpu.new ≡ capped cpu.old class.0 n }
    ensures fault { result_err result ≡ cap_fault cpu.old.slab class.0 n }
    ensures over_static { (result ≡ Err (CapFault.OverStatic cpu.old.slab.most)) ↔ (cpu.old.slab.most < n) }
    ensures over_limit { (sum : ℕ) → ((result ≡ Err (CapFault.OverLimit sum))
        ↔ ((n ≤ cpu.old.slab.most) × (cpu.old.slab.limit < sum) × (sum ≡ used (with_cap cpu.old.slab class.0 n).rows))) }
    ensures classes { length cpu.new.slab.rows ≡ length cpu.old.slab.rows }
{
    cpu.slab.set_cap(class, n)
}

/// Starts a CPU again.
pub fn start(cpu: &mut CpuPart, thread: ThreadNo)
    requires { IsFencedBy thread cpu.old }
    ensures { cpu.new ≡ started cpu.old }
{
    cpu.stopper = None;
    cpu.fenced = false;
}
