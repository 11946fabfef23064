//! The printed text of a finished run: a line for each call in the order in which the calls were
//! decided, five lines of summary, and on demand a line for each hugepage.
#![tactic(auto)]

mod lines;
mod rows;
#[cfg(test)]
mod tests;
mod text;
mod totals;
mod words;

pub use lines::push_call_line;
pub use rows::push_rows;
pub use text::{report, roomy_text, summary, text_in};
pub use totals::{Summary, push_summary};
pub use words::{push_counted, push_lettered, push_number};
