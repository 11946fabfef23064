//! The page map: which span holds a page.
#![tactic(auto)]

mod leaf;
mod leaves;
mod map;
#[cfg(test)]
mod tests;

pub use map::PageMap;
