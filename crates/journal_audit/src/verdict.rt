//! What an audit answers.

/// The first rule that a journal fails. The rules stand in the order in which they are tested.
#[derive(Clone, Copy, Debug, PartialEq, Eq)]
pub enum AuditWhy {
    /// It is line 1,000,001.
    Lines,
    /// It has none of the forms of a call's line.
    Form,
    /// The thread has no such next call.
    Order,
    /// The block hasn't the rounded length of its request.
    Length,
    /// The block doesn't lie in the arena.
    Arena,
    /// The block meets a live one.
    Overlap,
    /// The free isn't of an answered label with that answer.
    Address,
    /// A script has a call left.
    Missing,
}

/// What an audit answers.
#[derive(Clone, Copy, Debug, PartialEq, Eq)]
pub enum Verdict {
    /// The journal is legal and tells so many calls.
    Yes { calls: u64 },
    /// The first line that fails, from 1, with the first rule that it fails.
    No { line: u32, why: AuditWhy },
}
