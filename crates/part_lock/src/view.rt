//! What lies in a slot of the table, and what a seat knows.
use std::collections::LinkedList;
use tc_model::{Act, Entry, Halt};

/// What the table is told when it is made: the machine, and how many tickets may be used.
#[derive(Drop)]
pub struct Key<X> {
    pub machine: X,
    pub events: u32,
}

/// A part with the entries of its acts.
#[derive(Drop)]
pub struct Stall<P> {
    pub entries: Vec<Entry>,
    pub part: P,
}

/// A part that is held, as it was found. No value of it is made.
pub struct Hold<P> {
    pub slot: u16,
    pub found: LinkedList<Entry>,
    pub part: P,
}

/// A turn of a part that is over: how many entries were found, the part then, and 1 where an entry was
/// made. No value of it is made.
pub struct Visit<P> {
    pub slot: u16,
    pub found: u64,
    pub part: P,
    pub entered: u64,
}

/// How far a seat is in its turn: it holds nothing, a part, or a part and a ticket. No value of it is
/// made.
pub enum Stage<P> {
    Idle,
    Taken(Hold<P>),
    Drawn(Hold<P>, u64),
}

/// What the seat of a thread knows: the thread's local, its entries with their pairs, and its turns that
/// are over. The cause is 0, 1 where the limit was met, or 2 where memory ran out; `noted` says that the
/// halt word is no less. No value of it is made.
pub struct Work<X, P, L> {
    pub machine: X,
    pub thread: u8,
    pub events: u64,
    pub cause: u64,
    pub noted: bool,
    pub local: L,
    pub made: LinkedList<Act<P, L>>,
    pub visits: LinkedList<Visit<P>>,
    pub stage: Stage<P>,
}

/// What the main seat knows: the threads of which a seat was made, and what the seats knew that were
/// joined. No value of it is made.
pub struct Lead<X, P, L> {
    pub machine: X,
    pub events: u64,
    pub threads: LinkedList<u8>,
    pub kept: LinkedList<Work<X, P, L>>,
}

/// What a seat knows. No value of it is made.
pub enum View<X, P, L> {
    Leads(Lead<X, P, L>),
    Works(Work<X, P, L>),
    Spent,
}

/// What came of one try at one act.
#[derive(Clone, Copy, Debug, PartialEq, Eq)]
pub enum Step {
    /// The act was done, and entered with this ticket.
    Moved { ticket: u64 },
    /// The act waits at this part, and nothing changed.
    NotYet,
    /// It isn't polite to act at this part now, and nothing changed.
    Held,
    /// The ticket that was drawn isn't below the limit, and nothing changed.
    Full { ticket: u64 },
    /// Memory ran out, and nothing changed.
    Memory,
    /// A thread met the limit or want of memory before, and nothing changed.
    Halted { cause: Halt },
}

/// What a look at a part under its lock says.
#[derive(Clone, Copy)]
pub(crate) enum Judged {
    Waits,
    Yields,
    NoRoom,
    Goes,
}
