//! A whole allocator under one lock, at which threads take turns.
#![tactic(auto)]

mod board;
mod named;
mod run;
#[cfg(test)]
mod tests;
mod world;

pub use board::{WorldBoard, WorldHand};
pub use named::Named;
pub use run::{Left, run_all};
pub use world::World;
