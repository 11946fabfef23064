//! The name table: what each label of a trace means.
#![tactic(auto)]

mod table;

pub use table::{NameState, NameTable, Taken};
