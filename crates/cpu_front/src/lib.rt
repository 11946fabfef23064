//! The per-CPU caches as a front-end of the allocator: their parts at the start, and the acts of their rows.
#![tactic(auto)]

mod caches;
mod lawful;
mod opening;
#[cfg(test)]
mod state_tests;
#[cfg(test)]
mod tests;

pub use caches::{CpuCaches, CpuLocal};
pub use lawful::{CpuMachine, CpuState};
