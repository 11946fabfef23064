//! Makes traces from a seed: allocations of mixed sizes with frees across threads, and now and then
//! a preemption, a drain or a release. The generator is this project's own.
#![tactic(auto)]

mod draft;
mod kind;
mod state;
#[cfg(test)]
mod tests;
mod trace;
mod writing;

pub use trace::{Generated, generate};
