//! What each hugepage of an arena is, once: free, the filler's, a run's or a region's, which of its pages
//! are backed and used, and where runs begin and end.
#![tactic(auto)]

mod table;
#[cfg(test)]
mod tests;

pub use table::HugeTable;
