//! Keys of any type in their order, found by halving, of which one comes or leaves at little cost.
#![tactic(auto)]

mod key;
mod list;
#[cfg(test)]
mod tests;

pub use key::SortKey;
pub use list::SortedList;
pub use tc_units::Steps;
