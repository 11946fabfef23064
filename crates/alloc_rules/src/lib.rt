//! What holds of the allocator over any front-end that meets its law, in every order of its threads' acts: the
//! law of a front-end, the rules of the machine over it, and that they keep all that is said of them. A
//! front-end proves its law once, and has the allocator's by `in_every_order`.
#![tactic(auto)]

mod front;
mod part;

pub use front::LawfulFront;
pub use part::{Part, number_of};
