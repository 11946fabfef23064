//! A cache of free objects for each thread, with a limit in bytes of which other threads may take the unused part.
#![tactic(auto)]

mod acts;
mod cache;
mod laws;
mod row;
mod seat;
mod stack;
#[cfg(test)]
mod tests;

pub use acts::act_cache;
pub use cache::CachePart;
pub use laws::{caches_are_lawful, holds_in_every_order};
pub use row::CacheRow;
pub use seat::CacheSeat;
