//! Rows of places whose tightest and longest free ranges are kept at hand.
#![tactic(auto)]

mod bounds;
mod listing;
mod range;
mod ranged;
#[cfg(test)]
mod tests;

pub use range::FreeRange;
pub use ranged::RangedBits;
