//! A span of one size class, cut into objects, and which of them are free.
#![tactic(auto)]

mod free_set;
mod span;
#[cfg(test)]
mod tests;

pub use span::Span;
