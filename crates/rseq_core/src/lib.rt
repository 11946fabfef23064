//! Restartable sequences at a CPU, after TCMalloc's per-CPU caches and Linux's rseq: what a thread
//! has done in a sequence counts only with its last store. A thread that was switched out, or whose
//! CPU was fenced, before that begins the sequence again. The instructions are this project's own.
#![tactic(auto)]

mod acts;
mod answers;
mod bags;
mod cells;
mod cpu_part;
mod laws;
mod regs;
mod sequence;

pub use acts::{grow_here, instruct, leave, run_on};
pub use answers::{Arrival, Grew, Instructed};
pub use cpu_part::CpuPart;
pub use laws::sequences_are_whole;
pub use regs::{HAND_ROOM, LOADED_ROOM, Regs};
pub use sequence::{Pc, Reply, Seq};
