//! The central free list of one size class: its spans, from which objects are taken and to which they
//! are put back.
#![tactic(auto)]

mod central;
mod ranking;
mod runs;

pub use central::CentralFree;
