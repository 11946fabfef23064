//! The slab of one CPU, TCMalloc's per-CPU cache of free objects: for each size class an array of
//! slots with a top, a capacity that changes, and a static greatest capacity.
#![tactic(auto)]

mod laws;
mod marks;
mod slab;
mod slots;
#[cfg(test)]
mod tests;

pub use laws::{growth_is_exact, victims_are_best};
pub use slab::{CapFault, Slab};
