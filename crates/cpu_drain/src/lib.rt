//! What other threads do to a CPU, after Linux's expedited membarrier for restartable sequences and
//! TCMalloc's drain of a per-CPU cache: one thread stops new sequences, fences those that were begun,
//! takes objects and starts the CPU again. And what holds of CPUs and threads at every such act.
#![tactic(auto)]

mod drain;
mod laws;
mod stopping;
#[cfg(test)]
mod tests;

pub use drain::{fence, set_cap, start, stop, take_class};
pub use laws::{acts_keep_seats, acts_only_move};
pub use stopping::StopAnswer;
