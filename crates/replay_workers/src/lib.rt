//! Workers over a board that they share, each in a thread of its own.
#![tactic(auto)]

mod halt;
mod run;
mod started;
#[cfg(test)]
mod tests;
mod together;
mod turns;
mod worker;

pub use halt::{halt_of, lasts_of};
pub use run::run_workers;
pub use worker::Worker;
