//! The grammar of the command line: this project's own rule.
ghost use Rattle.std.specs.Prelude.{◌≡◌, IfSome, Some, None, map, option_map, option_and_then, string_bytes};
ghost use Rattle.tcreplay.specs.Tasks.{ToReplay, IsTask};
ghost use Rattle.trace_reader.specs.Words.{from_to};
ghost use Rattle.trace_reader.specs.Form.{number_in};
ghost use Rattle.tcreplay.specs.Words.{name_of, locks_of, kind_of, flag_of, takes, taken_flag, is_switch, no_options, once, with_value, with_switch, options_of, schedule_by, task_under, task_by};
ghost use Rattle.numa_heaps.specs.declared.nodes.Nodes.{Nodes as Count};
ghost use Rattle.tcreplay.specs.Seen.{seen, seen_front, seen_schedule, seen_task};

use crate::machines::Front;
use crate::task::{Audit, Locks, Replay, Schedule, Task, Workload};
use numa_heaps::Nodes;
use tc_units::number;

/// What the first word names.
#[derive(Clone, Copy, Debug, PartialEq, Eq)]
pub enum Kind {
    Serial,
    Order,
    Workers,
    PerThread,
    Numa,
    Gen,
    Audit,
}

/// What a word between the others names.
#[derive(Clone, Copy, Debug, PartialEq, Eq)]
pub enum Flag {
    Classes,
    Nodes,
    Order,
    Locks,
    Workers,
    Rows,
    Sample,
    Seed,
    Calls,
    Threads,
    Journal,
}

/// The most memory nodes.
const MOST_NODES: u64 = 8;

/// The greatest seed of a generated trace.
const MOST_SEED: u64 = 2_147_483_647;

/// The greatest step of a sampled profile, in bytes.
const MOST_STEP: u64 = 1_073_741_824;

/// The most calls of a generated trace.
const MOST_CALLS: u64 = 500_000;

/// The most threads.
const MOST_THREADS: u64 = 64;

/// The options that came so far.
#[derive(Clone, Copy, Debug)]
struct Options<'a> {
    classes: Option<&'a str>,
    nodes: Option<Nodes>,
    order: Option<&'a str>,
    locks: Option<Locks>,
    workers: bool,
    rows: bool,
    sample: Option<u64>,
    seed: Option<u64>,
    calls: Option<u64>,
    threads: Option<u64>,
    journal: Option<&'a str>,
}

/// A word that names a file: it is not empty and does not begin as an option does.
fn name_of(word: &str) -> Option<&str>
    ensures { option_map (λ name. name.now) result ≡ name_of word.now }
{
    match word.as_bytes() {
        [] => None,
        [first, ..] if *first == b'-' => None,
        _ => Some(word),
    }
}

/// A canonical decimal from one number to another.
fn number_in(word: &str, least: u64, most: u64) -> Option<u64>
    ensures { result ≡ number_in (from_to least most) word.now }
{
    number(word.as_bytes(), most).filter(|n| least <= *n)
}

/// How many memory nodes a word says.
fn nodes_in(word: &str) -> Option<Nodes>
    ensures { option_map (λ (nodes : Count). nodes.count) result ≡ number_in (from_to 1 8) word.now }
{
    let count = number_in(word, 1, MOST_NODES)?;
    Nodes::new(count as u8)
}

/// An option comes once, with a value that is its own.
fn once<T: Copy>(earlier: Option<T>, value: Option<T>) -> Option<T>
    ensures { result ≡ once earlier value }
{
    match earlier {
        None => value,
        Some(_) => None,
    }
}

impl Locks {
    /// The locks that a word names.
    fn of(word: &str) -> Option<Self>
        ensures { result ≡ locks_of word.now }
    {
        match word {
            "one" => Some(Locks::One),
            "parts" => Some(Locks::Parts),
            _ => None,
        }
    }
}

impl Kind {
    /// The command that a word names.
    fn of(word: &str) -> Option<Self>
        ensures { result ≡ kind_of word.now }
    {
        match word {
            "serial" => Some(Kind::Serial),
            "order" => Some(Kind::Order),
            "workers" => Some(Kind::Workers),
            "perthread" => Some(Kind::PerThread),
            "numa" => Some(Kind::Numa),
            "gen" => Some(Kind::Gen),
            "audit" => Some(Kind::Audit),
            _ => None,
        }
    }

    /// Whether the command takes an option.
    fn takes(self, flag: Flag) -> bool
        ensures { result ≡ takes self flag }
    {
        match flag {
            Flag::Classes => true,
            Flag::Nodes => self == Kind::Numa,
            Flag::Order => { self == Kind::Order || self == Kind::PerThread || self == Kind::Numa }
            Flag::Locks => self == Kind::Workers,
            Flag::Workers => self == Kind::PerThread || self == Kind::Numa,
            Flag::Rows => self != Kind::Gen && self != Kind::Audit,
            Flag::Sample => { self == Kind::Serial || self == Kind::Order || self == Kind::Workers }
            Flag::Seed | Flag::Calls | Flag::Threads => self == Kind::Gen,
            Flag::Journal => self == Kind::Audit,
        }
    }

    /// The option that a word names, where the command takes it.
    fn flag(self, word: &str) -> Option<Flag>
        ensures { result ≡ taken_flag self word.now }
    {
        Flag::of(word).filter(|flag| self.takes(*flag))
    }
}

impl Flag {
    /// The option that a word names.
    fn of(word: &str) -> Option<Self>
        ensures { result ≡ flag_of word.now }
    {
        match word {
            "--classes" => Some(Flag::Classes),
            "--nodes" => Some(Flag::Nodes),
            "--order" => Some(Flag::Order),
            "--locks" => Some(Flag::Locks),
            "--workers" => Some(Flag::Workers),
            "--rows" => Some(Flag::Rows),
            "--sample" => Some(Flag::Sample),
            "--seed" => Some(Flag::Seed),
            "--calls" => Some(Flag::Calls),
            "--threads" => Some(Flag::Threads),
            "--journal" => Some(Flag::Journal),
            _ => None,
        }
    }

    /// Whether the option has no value.
    fn is_switch(self) -> bool
        ensures { result ≡ is_switch self }
    {
        self == Flag::Rows || self == Flag::Workers
    }
}

impl<'a> Options<'a> {
    const NONE: Options<'static> = Options {
        classes: None,
        nodes: None,
        order: None,
        locks: None,
        workers: false,
        rows: false,
        sample: None,
        seed: None,
        calls: None,
        threads: None,
        journal: None,
    };

    /// The options with one more, and its value.
    fn with_value(mut self, flag: Flag, word: &'a str) -> Option<Self>
        ensures { option_map seen result ≡ with_value (seen self.entry) flag word.now }
    {
        match flag {
            Flag::Classes => self.classes = Some(once(self.classes, name_of(word))?),
            Flag::Nodes => self.nodes = Some(once(self.nodes, nodes_in(word))?),
            Flag::Order => self.order = Some(once(self.order, name_of(word))?),
            Flag::Locks => self.locks = Some(once(self.locks, Locks::of(word))?),
            Flag::Workers | Flag::Rows => return None,
            Flag::Sample => self.sample = Some(once(self.sample, number_in(word, 1, MOST_STEP))?),
            Flag::Seed => self.seed = Some(once(self.seed, number_in(word, 0, MOST_SEED))?),
            Flag::Calls => self.calls = Some(once(self.calls, number_in(word, 1, MOST_CALLS))?),
            Flag::Threads => {
                self.threads = Some(once(self.threads, number_in(word, 1, MOST_THREADS))?);
            }
            Flag::Journal => self.journal = Some(once(self.journal, name_of(word))?),
        }
        Some(self)
    }

    /// The options with one more that has no value.
    fn with_switch(mut self, flag: Flag) -> Option<Self>
        ensures { option_map seen result ≡ with_switch (seen self.entry) flag }
    {
        match flag {
            Flag::Workers if !self.workers => self.workers = true,
            Flag::Rows if !self.rows => self.rows = true,
            _ => return None,
        }
        Some(self)
    }

    /// The options behind a command, in any sequence.
    fn of(kind: Kind, words: &'a [String]) -> Option<Self>
        ensures { option_map seen result ≡ options_of kind no_options (map string_bytes words.now) }
    {
        let mut options = Options::NONE;
        let mut rest = words;
        while let Some((word, behind)) = rest.split_first() {
            let flag = kind.flag(word.as_str())?;
            if flag.is_switch() {
                options = options.with_switch(flag)?;
                rest = behind;
            } else {
                let (value, behind) = behind.split_first()?;
                options = options.with_value(flag, value.as_str())?;
                rest = behind;
            }
        }
        Some(options)
    }

    /// The picks that come first on a machine that takes an order file or worker threads, and not both.
    fn schedule(self) -> Option<Schedule<'a>>
        ensures { option_map seen_schedule result ≡ schedule_by (seen self.entry).workers (seen self.entry).order }
    {
        match self.order {
            None if self.workers => Some(Schedule::ByThreads {
                locks: Locks::Parts,
            }),
            None => Some(Schedule::InTurn),
            Some(_) if self.workers => None,
            Some(order) => Some(Schedule::ByFile { order }),
        }
    }

    /// The replay that a command asks for with these options.
    fn replay(self, front: Front, classes: &'a str, schedule: Schedule<'a>) -> Task<'a>
        ensures { seen_task result ≡ ToReplay (record { front = seen_front front; classes = classes.now; schedule = seen_schedule schedule.entry; rows = self.entry.rows; sample = self.entry.sample }) }
    {
        let rows = self.rows;
        let sample = self.sample;
        Task::Replay(Replay {
            front,
            classes,
            schedule,
            rows,
            sample,
        })
    }

    /// What a command with these options asks for: all that it needs are there.
    fn task(self, kind: Kind) -> Option<Task<'a>>
        ensures { option_map seen_task result ≡ option_and_then (task_under kind (seen self.entry)) (seen self.entry).classes }
    {
        let classes = self.classes?;
        match kind {
            Kind::Serial => Some(self.replay(Front::Cpus, classes, Schedule::InTurn)),
            Kind::Order => {
                let order = self.order?;
                Some(self.replay(Front::Cpus, classes, Schedule::ByFile { order }))
            }
            Kind::Workers => {
                let locks = self.locks.unwrap_or(Locks::Parts);
                Some(self.replay(Front::Cpus, classes, Schedule::ByThreads { locks }))
            }
            Kind::PerThread => {
                let schedule = self.schedule()?;
                Some(self.replay(Front::Threads, classes, schedule))
            }
            Kind::Numa => {
                let nodes = self.nodes?;
                let schedule = self.schedule()?;
                Some(self.replay(Front::Nodes(nodes), classes, schedule))
            }
            Kind::Gen => {
                let seed = self.seed?;
                let calls = self.calls?;
                let threads = self.threads?;
                Some(Task::Generate(Workload {
                    classes,
                    seed,
                    calls,
                    threads,
                }))
            }
            Kind::Audit => {
                let journal = self.journal?;
                Some(Task::Audit(Audit { classes, journal }))
            }
        }
    }
}

/// What the words ask for. `None` exactly where they are not in the grammar.
pub fn task_by(words: &[String]) -> Option<Task<'_>>
    ensures task { option_map seen_task result ≡ task_by (map string_bytes words.now) }
    ensures ranges { IfSome result (λ task. IsTask (seen_task task)) }
{
    let (word, rest) = words.split_first()?;
    let kind = Kind::of(word.as_str())?;
    Options::of(kind, rest)?.task(kind)
}
