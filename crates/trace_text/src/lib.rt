//! Texts of lines and fields, such as traces and order files: the text is lent line by line and field
//! by field, cut by position, and nothing is copied.
#![tactic(auto)]

mod digits;
mod fields;
mod laws;
mod lines;
mod search;
#[cfg(test)]
mod tests;

pub use fields::{Field, Fields};
pub use laws::{decimals_are_read, joined_lines_are_cut};
pub use lines::Lines;
pub use tc_units::number;
