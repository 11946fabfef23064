//! A sampled profile of live blocks: which allocations stand for those around them, how many bytes of
//! each length are live by them, and when most were.
#![tactic(auto)]

mod laws;
mod live;
mod printed;
mod profile;
mod rows;
mod sample;
#[cfg(test)]
mod tests;
mod text;
mod whole;

pub use laws::thread_law;
pub use printed::push_profile_of;
pub use profile::Profile;
pub use sample::{Peak, ProfileRow, Sample};
pub use whole::profile_of;
