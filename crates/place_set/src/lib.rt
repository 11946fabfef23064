//! A set of places as a tree of words: each of the 64 bits of a word tells of a word below, or of a place.
#![tactic(auto)]

mod level;
mod set;
#[cfg(test)]
mod tests;
mod tree;

pub use set::PlaceSet;
