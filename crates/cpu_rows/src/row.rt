//! The rows of the call programs at the per-CPU caches, with what their calls have under way.
use call_steps::{Asking, Freeing, Giving, Serving};
use tc_units::{Class, CpuNo};

/// A drain of a CPU, and how many objects it has taken.
#[derive(Clone, Copy, Debug, PartialEq, Eq)]
pub struct Draining {
    pub cpu: CpuNo,
    pub taken: u64,
}

/// A resize of a class at a CPU to a capacity of `cap` objects.
#[derive(Clone, Copy, Debug, PartialEq, Eq)]
pub struct Resizing {
    pub cpu: CpuNo,
    pub class: Class,
    pub cap: u32,
}

/// A call that stops a CPU.
#[derive(Clone, Copy, Debug, PartialEq, Eq)]
pub enum Stopping {
    Drain(Draining),
    Resize(Resizing),
}

/// A row of the call programs at a CPU.
#[derive(Clone, Copy, Debug, PartialEq, Eq)]
pub enum CpuStep {
    /// An allocation pops an object of its class.
    Pop(Asking),
    /// An allocation that found none lets its class grow.
    Grow(Asking),
    /// An allocation pushes what it fetched beside its own object.
    Stock(Serving),
    /// A free pushes its object.
    Push(Freeing),
    /// A free that found no capacity pops a batch, to give it away with its object.
    PopBatch(Freeing),
    /// A drain or a resize stops the CPU. Where another thread has, that decides and ends it.
    Stop(Stopping),
    /// It sends back the sequences that were begun.
    Fence(Stopping),
    /// It takes all objects of a class.
    Take(Stopping),
    /// A resize sets the capacity, or that is refused. This decides it.
    SetCap(Resizing),
    /// It starts the CPU again. This decides a drain.
    Start(Stopping),
    /// The thread leaves for the CPU of its pending move, and its call ends.
    Leave,
}

/// A row of the call programs at the transfer cache of the thread's class and domain.
#[derive(Clone, Copy, Debug, PartialEq, Eq)]
pub enum DomainStep {
    /// An allocation takes a batch.
    Take(Asking),
    /// The hand is put there, where it fits.
    Put(Giving<CpuStep>),
}

/// A row of the call programs at the per-CPU caches: at a CPU, or at the transfer cache of a domain.
#[derive(Clone, Copy, Debug, PartialEq, Eq)]
pub enum CpuRow {
    Cpu(CpuStep),
    Domain(DomainStep),
}
