//! A page heap for each memory node: the allocator without caches once for each node, side by side.
#![tactic(auto)]

mod allocator;
mod finish;
mod local;
mod machine;
#[cfg(test)]
mod machine_tests;
mod nodes;
mod opening;
#[cfg(test)]
mod opening_tests;

pub use local::{NumaLocal, Told};
pub use machine::{NumaMachine, NumaPart};
pub use nodes::{NodeNo, Nodes};
