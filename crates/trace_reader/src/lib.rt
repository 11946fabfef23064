//! Reading a trace, which says what an allocator is asked by which thread, and an order file, which
//! says which thread is picked when: what they ask for, or the first bad line with the first rule that
//! it fails. Both formats are this project's own. Who makes a trace can tell a `Reader` what each line
//! says, and need not read the text.
#![tactic(auto)]

mod calls;
mod form;
mod limits;
mod order;
mod reader;
#[cfg(test)]
mod tests;
mod trace;
mod turn;
mod why;
mod word;

pub use form::Form;
pub use order::read_order;
pub use reader::Reader;
pub use trace::{Trace, read_trace};
pub use why::{LineWhy, OrderFault, OrderWhy, TraceFault};
