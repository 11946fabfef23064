//! The transfer cache: a list of free objects of one size class, handed over in batches.
#![tactic(auto)]

mod cache;

pub use cache::TransferCache;
