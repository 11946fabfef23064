//! The one order of journals: the entries of several lists by their tickets.
#![tactic(auto)]

mod halves;
#[cfg(test)]
mod tests;
mod threads;

pub use halves::merge;
pub use threads::{merge_threads, merge_threads_counted};
