//! The shard of one size class: its transfer cache in front of its central free list.
#![tactic(auto)]

mod laws;
mod shard;
#[cfg(test)]
mod tests;

pub use laws::{
    adds_move, counted_once_differ, fetches_find, fetches_move, gives_move, spans_are_cut,
};
pub use shard::{ClassShard, Fetched};
