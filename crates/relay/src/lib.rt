//! A whole run of any machine by threads, from its opening to the one order of all acts, and a small
//! machine whose runs are its test.
#![tactic(auto)]

mod machine;
mod opening;
mod run;
#[cfg(test)]
mod tests;

pub use machine::{Lane, Relay, Runner};
pub use run::{Finish, run_all};
