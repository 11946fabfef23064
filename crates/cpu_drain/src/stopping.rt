//! What a stop answers.
use tc_units::ThreadNo;

/// What a stop answers.
#[derive(Clone, Copy, Debug, PartialEq, Eq)]
pub enum StopAnswer {
    /// The thread is the stopper now.
    Stopped,
    /// Another thread is, and nothing has changed.
    Busy { owner: ThreadNo },
}
