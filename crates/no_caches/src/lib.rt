//! The allocator without caches before its shards, as the smallest front-end: the law of a front-end asks nothing that
//! only the per-CPU caches could meet.
#![tactic(auto)]

mod front;
mod laws;

pub use front::{NoCaches, NoPart, NoRow, NoSeat, PlainLocal, PlainMachine, PlainState};
pub use laws::{holds_in_every_order, no_caches_are_lawful};
