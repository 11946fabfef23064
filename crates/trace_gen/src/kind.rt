//! What a generated call does.

/// A kind of call.
#[derive(Clone, Copy)]
pub enum Kind {
    /// An allocation under the next label.
    Malloc,
    /// The free of a live label.
    Free,
    /// A drain of a CPU.
    Drain,
    /// A release of pages.
    Release,
}
