//! The state of a call: its next act, with what the call has in hand beside the thread's registers.
use tc_model::Answer;
use tc_units::{Addr, Class, Label, Run};

/// The part that an act is on.
#[derive(Clone, Copy, Debug, PartialEq, Eq)]
pub enum Target {
    /// A part of the front-end, by its number among those.
    Front(u16),
    /// The shard of a size class.
    Shard(Class),
    Heap,
    Map,
    Names,
}

/// An allocation of a small object that isn't decided yet.
#[derive(Clone, Copy, Debug, PartialEq, Eq)]
pub struct Asking {
    pub label: Label,
    pub size: u64,
}

/// An allocation that got an object, which is still to be published.
#[derive(Clone, Copy, Debug, PartialEq, Eq)]
pub struct Serving {
    pub label: Label,
    pub addr: Addr,
}

/// A free of a small object that isn't decided yet.
#[derive(Clone, Copy, Debug, PartialEq, Eq)]
pub struct Freeing {
    pub label: Label,
    pub addr: Addr,
}

/// Whose objects a hand gives away, and what comes behind that. `R` is a row of the front-end.
#[derive(Clone, Copy, Debug, PartialEq, Eq)]
pub enum Giving<R> {
    /// What an allocation fetched beside its own object, which it publishes then.
    Rest(Serving),
    /// The object of a free, and what the free popped. This decides the free, which ends.
    Freed(Freeing),
    /// What a call took that goes on with a row of the front-end, for this class.
    Row { class: Class, row: R },
    /// What a call took that was decided before, and ends.
    End,
}

/// What comes once the spans that left a shard are given back.
#[derive(Clone, Copy, Debug, PartialEq, Eq)]
pub enum Onward<R> {
    /// An allocation publishes its object.
    Publish(Serving),
    /// The call goes on with a row of the front-end, for this class.
    Row { class: Class, row: R },
    /// The call ends, which was decided before.
    End,
}

/// A row of the call programs at the shard of the thread's class.
#[derive(Clone, Copy, Debug, PartialEq, Eq)]
pub enum ShardStep<R> {
    /// An allocation fetches a batch.
    Fetch(Asking),
    /// An allocation adds its new span and takes a batch of it.
    AddFetch { asking: Asking, run: Run },
    /// The hand is given to the shard.
    Give(Giving<R>),
}

/// What comes behind an act of the front-end.
#[derive(Clone, Copy, Debug, PartialEq, Eq)]
pub enum Next<R> {
    /// Another row of its own.
    Row(R),
    /// The allocation is decided by the objects in hand: the first is its answer.
    Serve(Asking),
    /// The allocation fetches from the shard.
    Fetch(Asking),
    /// The hand is given to the shard.
    Give(Giving<R>),
    /// The front-end took the hand itself.
    Gave(Giving<R>),
    /// The allocation, which was decided, publishes its object.
    Publish(Serving),
    /// The free is decided and ends.
    Freed(Freeing),
    /// The call is decided, and goes on with a row, or ends.
    Decide { answer: Answer, row: Option<R> },
    /// The call ends, which was decided before.
    End,
}

/// What an act of the front-end came to. A row changes in place, since most acts go on with the same row or the next one;
/// what else may come is put where the act is lent room for it.
#[derive(Clone, Copy, Debug, PartialEq, Eq)]
pub enum Came {
    /// Another row of its own, which stands where the one stood that was done.
    Row,
    /// What was put there; the row that was done still stands.
    Next,
}

/// A row of the call programs at the page heap.
#[derive(Clone, Copy, Debug, PartialEq, Eq)]
pub enum HeapStep<R> {
    /// An allocation asks for a run that holds `size` bytes. This decides it.
    New { label: Label, size: u64 },
    /// An allocation of a small object asks for the run of a span. Where there is none, that decides it.
    NewSpan(Asking),
    /// A free gives the run of its block back. This decides and ends it.
    GiveBack { label: Label, run: Run },
    /// The run of the first span that left a shard is given back.
    FreeSpan(Onward<R>),
    /// A release unbacks `pages` pages, where there are so many. This decides and ends it.
    Unback { pages: u64 },
}

/// A row of the call programs at the page map.
#[derive(Clone, Copy, Debug, PartialEq, Eq)]
pub enum MapStep<R> {
    /// An allocation sets the span of its run.
    Set { label: Label, run: Run },
    /// An allocation of a small object sets its new span.
    SetSpan { asking: Asking, run: Run },
    /// A free looks for the span of its block.
    Lookup { label: Label, addr: Addr },
    /// A free clears the span of its large block.
    Clear { label: Label, run: Run },
    /// The first span that left a shard is cleared.
    ClearSpan(Onward<R>),
}

/// A row of the call programs at the names.
#[derive(Clone, Copy, Debug, PartialEq, Eq)]
pub enum NamesStep {
    /// An allocation publishes its block's address, or null, and ends.
    Publish { label: Label, value: Option<Addr> },
    /// A free takes its label. It waits until the label is published. Null decides and ends the free.
    Take { label: Label },
}

/// The next act of a thread, by the part that it is on.
#[derive(Clone, Copy, Debug, PartialEq, Eq)]
pub enum Step<R> {
    Front(R),
    Shard(ShardStep<R>),
    Heap(HeapStep<R>),
    Map(MapStep<R>),
    Names(NamesStep),
    /// The script has ended.
    Ended,
}
