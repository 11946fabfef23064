//! Sequences, where a thread is in one, and what one replies.

/// A restartable sequence.
#[derive(Clone, Copy, Debug, PartialEq, Eq)]
pub enum Seq {
    /// One object comes to the hand.
    Pop,
    /// The first object of the hand goes to the slab.
    Push,
    /// As many as `want` objects come to the hand.
    PopBatch { want: u32 },
    /// As many objects of the hand as there is capacity for go to the slab.
    PushBatch,
}

/// The next instruction of a sequence.
#[derive(Clone, Copy, Debug, PartialEq, Eq)]
pub enum Pc {
    Begin,
    /// Looks for a stopper, and reads the top.
    Header,
    /// Compares the top with 0, or with the capacity.
    Test,
    /// Copies one object, after `done` others.
    Copy { done: u32 },
    /// Stores the top.
    Commit,
}

/// How a sequence ended.
#[derive(Clone, Copy, Debug, PartialEq, Eq)]
pub enum Reply {
    /// What was loaded is in the hand.
    Popped,
    /// The first `count` objects have left the hand.
    Pushed { count: u32 },
    /// The class had no object.
    Empty,
    /// The class had no capacity left.
    Full,
    /// A stopper stands at the CPU.
    Stopped,
}
