//! Which hugepage serves a run below a hugepage, and which gives pages up, by measures that it is told.
#![tactic(auto)]

mod filler;
mod giver;
mod giving_order;
mod measures;
mod preferred;
#[cfg(test)]
mod tests;

pub use filler::HugeFiller;
pub use measures::Measures;
