//! The machines on which traces are run, each named here alone: what it takes, and its runs.
ghost use Rattle.std.specs.Prelude.{◌≡◌, IfOk, None};
ghost use Rattle.alloc_rules.specs.Inputs.{not_taken};
ghost use Rattle.tc_machine.specs.Inputs.{asked_of};
ghost use Rattle.tc_machine.specs.Taken.{refused_line};
ghost use Rattle.tcreplay.specs.Machines.{machine_of, locks_for};
ghost use Rattle.tcreplay.specs.Seen.{seen_front};
ghost use Rattle.tcreplay.specs.Verdict.{order_by};
ghost use Rattle.tcreplay.specs.Reads.{seen_job, IsRunnable};
ghost use Rattle.tcreplay.specs.Ran.{HasStep, IsRan, IsRanByThreads};

use crate::input::Job;
use crate::run::{Ran, Telling, run, run_over};
use crate::task::Locks;
use crate::workers::{run_by_one_lock, run_by_part_locks};
use cpu_front::{CpuCaches, CpuMachine};
use numa_heaps::{Nodes, NumaMachine};
use std::alloc::{AllocError, Global};
use std::sync::Wait;
use std::thread::Threads as HasThreads;
use tc_machine::refused_line;
use tc_ports::Gate;
use thread_front::{ThreadCaches, ThreadMachine};
use trace_reader::Trace;

/// What serves small objects. It makes the machine.
#[derive(Clone, Copy, Debug, PartialEq, Eq)]
pub enum Front {
    /// Slabs of CPUs, before the shards.
    Cpus,
    /// A cache for each thread, before the shards.
    Threads,
    /// The shards of a thread's memory node alone, of so many nodes.
    Nodes(Nodes),
}

impl Front {
    /// The line of the first call of a trace that its machine doesn't take. The slabs of CPUs take each call.
    pub fn refused_line(self, trace: &Trace) -> Option<u32>
        ensures line { result ≡ refused_line (machine_of (seen_front self)).takes trace.now.scripts }
        ensures taken { result ≡ None → not_taken (machine_of (seen_front self)).takes (asked_of trace.now).calls ≡ 0 }
    {
        match self {
            Front::Cpus => None,
            Front::Threads => refused_line::<ThreadMachine>(trace),
            Front::Nodes(_) => refused_line::<NumaMachine>(trace),
        }
    }

    /// Runs a job on its machine.
    pub fn run(self, alloc: Global, job: Job, telling: Telling) -> Result<Ran, AllocError>
        requires runs { IsRunnable job }
        requires step { HasStep telling }
        requires taken { not_taken (machine_of (seen_front self)).takes (asked_of job.trace).calls ≡ 0 }
        ensures { IfOk result (IsRan (machine_of (seen_front self)) telling (seen_job job).input (order_by (machine_of (seen_front self)).rules (seen_job job))) }
    {
        match self {
            Front::Cpus => run_over::<CpuCaches>(alloc, job, telling),
            Front::Threads => run_over::<ThreadCaches>(alloc, job, telling),
            Front::Nodes(nodes) => run::<NumaMachine>(alloc, nodes, job, telling),
        }
    }

    /// Runs a job on its machine by a thread for each of its threads, and then what they left. One lock
    /// is known by the slabs of CPUs alone.
    pub fn run_by_threads<R: HasThreads + Wait + Sync, G: Gate + Sync>(
        self,
        rt: &R,
        alloc: Global,
        gate: &G,
        job: Job,
        locks: Locks,
        telling: Telling,
    ) -> Result<Ran, AllocError>
        requires runs { IsRunnable job }
        requires step { HasStep telling }
        requires taken { not_taken (machine_of (seen_front self)).takes (asked_of job.trace).calls ≡ 0 }
        ensures { IfOk result (IsRanByThreads (machine_of (seen_front self)) (locks_for (seen_front self) locks) telling (seen_job job).input) }
    {
        match self {
            Front::Cpus => match locks {
                Locks::One => run_by_one_lock(rt, alloc, gate, job, telling),
                Locks::Parts => run_by_part_locks::<R, CpuMachine, G>(
                    rt,
                    alloc,
                    gate,
                    (),
                    job,
                    telling,
                ),
            },
            Front::Threads => {
                run_by_part_locks::<R, ThreadMachine, G>(rt, alloc, gate, (), job, telling)
            }
            Front::Nodes(nodes) => {
                run_by_part_locks::<R, NumaMachine, G>(rt, alloc, gate, nodes, job, telling)
            }
        }
    }
}
