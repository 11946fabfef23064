//! The table of size classes: read from a text of comma-separated values, and asked for the class
//! of a size.
#![tactic(auto)]

mod check;
mod fault;
mod reading;
mod table;
#[cfg(test)]
mod tests;

pub use fault::{RowWhy, TableFault};
pub use table::ClassTable;
