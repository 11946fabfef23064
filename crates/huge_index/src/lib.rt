//! Hugepages in the order in which the filler prefers them, found by halving.
#![tactic(auto)]

mod index;
mod key;
#[cfg(test)]
mod tests;

pub use index::HugeIndex;
pub use key::Key;
pub use sorted_list::Steps;
