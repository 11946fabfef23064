//! What a command comes to: a trace is replayed, or one is generated and replayed, or a journal of its
//! calls is judged.
ghost use Rattle.std.specs.Prelude.{◌≡◌, option_map, None, Some, IfSome, IfNone};
ghost use Rattle.tcreplay.specs.declared.run.Telling.TheVariants as telling;
ghost use Rattle.tcreplay.specs.declared.task.Task.TheVariants as task;
ghost use Rattle.tcreplay.specs.Tasks.{file_of, locks_in, threads_in};
ghost use Rattle.tcreplay.specs.Seen.{seen_schedule, seen_task};

use crate::machines::Front;
use crate::run::Telling;

/// Whether workers share one lock, or have one for each part.
#[derive(Clone, Copy, Debug, PartialEq, Eq)]
pub enum Locks {
    One,
    Parts,
}

/// Which picks a replay makes before it goes on in trace order.
#[derive(Clone, Copy, Debug)]
pub enum Schedule<'a> {
    /// None.
    InTurn,
    /// Those of an order file.
    ByFile { order: &'a str },
    /// Those of a running thread for each thread of the trace.
    ByThreads { locks: Locks },
}

impl<'a> Schedule<'a> {
    /// The order file, where one is named.
    pub fn file(self) -> Option<&'a str>
        ensures { option_map (λ name. name.now) result ≡ file_of (seen_schedule self.entry) }
    {
        match self {
            Schedule::ByFile { order } => Some(order),
            Schedule::InTurn | Schedule::ByThreads { .. } => None,
        }
    }
}

/// A replay: what serves small objects, the file of the class table, which picks come first, whether a line
/// for each hugepage is printed, and at each how many bytes of requests an allocation is sampled, if any is.
#[derive(Clone, Copy, Debug)]
pub struct Replay<'a> {
    pub front: Front,
    pub classes: &'a str,
    pub schedule: Schedule<'a>,
    pub rows: bool,
    pub sample: Option<u64>,
}

impl<'a> Replay<'a> {
    /// What is told of its run.
    pub fn telling(self) -> Telling
        ensures { result ≡ telling.Whole self.entry.rows self.entry.sample }
    {
        let rows = self.rows;
        let sample = self.sample;
        Telling::Whole { rows, sample }
    }
}

/// The generation of a trace: the file of the class table under which it is replayed, its seed, how many
/// calls it has, and of how many threads.
#[derive(Clone, Copy, Debug)]
pub struct Workload<'a> {
    pub classes: &'a str,
    pub seed: u64,
    pub calls: u64,
    pub threads: u64,
}

/// The audit of a journal: the file of the class table under which it is judged, and its own.
#[derive(Clone, Copy, Debug)]
pub struct Audit<'a> {
    pub classes: &'a str,
    pub journal: &'a str,
}

/// What a command comes to.
#[derive(Clone, Copy, Debug)]
pub enum Task<'a> {
    /// A trace is replayed.
    Replay(Replay<'a>),
    /// A trace is generated, and replayed in serial.
    Generate(Workload<'a>),
    /// A journal of a trace's calls is judged.
    Audit(Audit<'a>),
}

/// The replay by worker threads that is asked for, and its locks, where one is.
pub fn by_threads(asked: Option<Task<'_>>) -> Option<(Replay<'_>, Locks)>
    ensures replay { IfSome result (λ both. asked.entry ≡ Some (task.Replay both.0)) }
    ensures locks { IfSome result (λ both. locks_in (seen_schedule both.0.schedule) ≡ Some both.1) }
    ensures alone { IfNone result (threads_in (option_map seen_task asked.entry) ≡ None) }
{
    match asked {
        Some(Task::Replay(replay)) => match replay.schedule {
            Schedule::ByThreads { locks } => Some((replay, locks)),
            Schedule::InTurn | Schedule::ByFile { .. } => None,
        },
        Some(Task::Generate(_) | Task::Audit(_)) | None => None,
    }
}
