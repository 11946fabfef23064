//! The regions: adjacent hugepages for runs that would leave much of their last hugepage unused.
#![tactic(auto)]

mod key;
mod pages;
mod regions;
#[cfg(test)]
mod tests;

pub use regions::HugeRegions;
