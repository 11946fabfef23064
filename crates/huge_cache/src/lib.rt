//! The free hugepages: which adjacent ones serve a run, and how many stay backed.
#![tactic(auto)]

mod cache;
mod row;
mod stretch;
#[cfg(test)]
mod tests;
mod uses;

pub use cache::HugeCache;
pub use stretch::Stretch;
