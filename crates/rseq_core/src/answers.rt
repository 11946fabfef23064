//! What an act of a thread at its CPU was.
use crate::sequence::Reply;

/// What an act of a thread with a sequence was.
#[derive(Clone, Copy, Debug, PartialEq, Eq)]
pub enum Instructed {
    /// Another thread ran there, or none: the thread switched in.
    In,
    /// Its epoch was not the CPU's: it goes back to the begin.
    Back,
    /// One instruction, and the sequence goes on.
    Ran,
    /// One instruction, with which the sequence ended.
    Done(Reply),
}

/// What an act of a thread with a growth to do was.
#[derive(Clone, Copy, Debug, PartialEq, Eq)]
pub enum Grew {
    /// Another thread ran there, or none: the thread switched in.
    In,
    /// Its epoch was not the CPU's: it goes back to the begin.
    Back,
    /// The class grew, or could not.
    Done,
}

/// How a thread comes to a CPU where it has something to do.
#[derive(Clone, Copy, Debug, PartialEq, Eq)]
pub enum Arrival {
    /// Another thread ran there, or none: the thread switched in.
    In,
    /// Its epoch was not the CPU's: it goes back to the begin.
    Back,
    /// It is current: it runs there, and its epoch is the CPU's.
    Current,
}
