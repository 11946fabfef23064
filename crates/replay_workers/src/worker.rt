//! A worker: a hand at a board, and how far it came.
use tc_model::{Board, Turn};

/// A hand at a board, how many turns it took, and the answer of the last one.
#[derive(Drop)]
pub struct Worker<B: Board> {
    pub hand: B::Hand,
    /// It rises by one a turn, up to the greatest number of its type.
    pub turns: u64,
    pub last: Turn,
}
