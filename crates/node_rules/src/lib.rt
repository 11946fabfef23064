//! What holds of memory nodes: the allocator without caches once for each node, side by side, with nothing between them.
#![tactic(auto)]

mod laws;

pub use laws::{node_is_its_acts, nodes_are_lawful};
