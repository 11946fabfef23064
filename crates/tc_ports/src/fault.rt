//! What a call of an end answers when it failed.

/// A call failed. The end's count of faults rose in that call.
#[derive(Clone, Copy, Debug, PartialEq, Eq)]
pub struct Failed;
