//! A law of samples, as the contract of a function.
ghost use Rattle.heap_sample.specs.Law.{ThreadsAreApart};

/// A thread's samples are those of its own calls: how others came between makes no difference.
pub fn thread_law()
    ensures { ThreadsAreApart }
{}
