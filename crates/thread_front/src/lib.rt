//! The caches of threads as a front-end of the allocator, which meets its law.
#![tactic(auto)]

mod caches;
mod opening;
#[cfg(test)]
mod tests;

pub use caches::{CacheLocal, CacheState, ThreadCaches, ThreadMachine};
