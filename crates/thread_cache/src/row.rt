//! The rows of the call programs at the caches of threads, with what their calls have under way.
use call_steps::{Asking, Freeing, Serving};

/// A row of the call programs at a cache: the thread's own, but for `Ask`.
#[derive(Clone, Copy, Debug, PartialEq, Eq)]
pub enum CacheRow {
    /// An allocation pops an object of its class.
    Pop(Asking),
    /// An allocation adds what it fetched beside its own object.
    Stock(Serving),
    /// A free adds its object.
    Add(Freeing),
    /// A free whose object didn't fit asks the next victim for a part of its limit.
    Ask(Freeing),
    /// It raises the own limit by what the victim gave up.
    Raise { freeing: Freeing, given: u64 },
    /// It adds its object after all.
    AddAgain(Freeing),
    /// A free whose object doesn't fit takes a batch out, to give it away with its object.
    Trim(Freeing),
}
