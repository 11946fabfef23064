//! Judges a journal of answered calls, whoever wrote it: whether it tells each call of a trace once, in
//! the order of its thread, and answers that an allocator of disjoint blocks may give.
#![tactic(auto)]

mod answers;
mod books;
mod journal;
mod judging;
mod laws;
mod live;
mod place;
#[cfg(test)]
mod tests;
mod told;
mod verdict;

pub use judging::audit;
pub use laws::journal_law;
pub use verdict::{AuditWhy, Verdict};
