//! The smallest machine, as an example of one, and to test what runs any machine.
#![tactic(auto)]

mod machine;
#[cfg(test)]
mod tests;

pub use machine::{Counter, Counters, Worker};
