//! The top calls: from words, files and a trace to bytes, a status and an order.
ghost use Rattle.std.specs.Prelude.{◌≡◌, ◌↔◌, None, Some, map, option_map, IfSome, IfNone, IsSome, string_bytes};
ghost use Rattle.tcreplay.specs.Status.{status_of};
ghost use Rattle.tcreplay.specs.Tasks.{locks_in, threads_in, IsStep, IsTask};
ghost use Rattle.tcreplay.specs.Words.{task_by};
ghost use Rattle.tcreplay.specs.Seen.{seen_schedule, seen_replay, seen_task};
ghost use Rattle.tcreplay.specs.Writes.{IsWritten, IsRunEnd, IsLastEnd};
ghost use Rattle.tcreplay.specs.Replayed.{HasTried};
ghost use Rattle.tcreplay.specs.Outcomes.{IsAnswered, IsOutcome, IsComplete};
ghost use Rattle.tcreplay.specs.declared.outcome.End.TheVariants as end;

use crate::audit::try_audit;
use crate::generate::generate;
use crate::input::read_job;
use crate::notes::note;
use crate::outcome::{End, Outcome};
use crate::run::Ran;
use crate::task::{Locks, Replay, Task, by_threads};
use crate::words::task_by;
use std::alloc::Global;
use std::sync::Wait;
use std::thread::Threads;
use tc_ports::{Failed, Gate, Shelf, Sink, Source};

/// Writes the text of a run that has ended.
fn write<K: Sink>(out: &mut K, ran: Ran) -> Outcome
    requires { IsRunEnd ran.end }
    ensures status { result.status ≡ status_of result.end }
    ensures order { result.order ≡ ran.order.items }
    ensures end { IsLastEnd ran.end result.end }
    ensures written { IsWritten result.end ran.text.items (K.seen out.old) (K.seen out.new) }
{
    let Ran {
        end,
        order,
        text,
        ..
    } = ran;
    if end != End::Done {
        return Outcome::new(end, order);
    }
    match out.put(&text) {
        Ok(()) => Outcome::new(End::Done, order),
        Err(Failed) => Outcome::new(End::WriteFault, order),
    }
}

/// Tries a replay that asks for no worker threads: its inputs are read, what they ask for is run, and the
/// text is written.
fn try_replay<S: Source, F: Shelf, K: Sink>(
    alloc: Global,
    replay: Replay,
    trace: &mut S,
    files: &mut F,
    out: &mut K,
) -> Outcome
    requires alone { locks_in (seen_schedule replay.schedule) ≡ None }
    requires sample { IfSome replay.sample IsStep }
    ensures status { result.status ≡ status_of result.end }
    ensures tried { HasTried (seen_replay replay.entry) (S.seen trace.old) (S.seen trace.new)
        (F.seen files.old) (F.seen files.new) (K.seen out.old) (K.seen out.new) result.end result.order }
{
    let job = match read_job(alloc, replay, trace, files) {
        Ok(job) => job,
        Err(end) => return Outcome::without_run(alloc, end),
    };
    match replay.front.run(alloc, job, replay.telling()) {
        Ok(ran) => write(out, ran),
        Err(_) => Outcome::without_run(alloc, End::Memory),
    }
}

/// Tries a replay by worker threads under these locks.
fn try_threads<R: Threads + Wait + Sync, S: Source, F: Shelf, K: Sink, G: Gate + Sync>(
    rt: &R,
    alloc: Global,
    replay: Replay,
    locks: Locks,
    trace: &mut S,
    files: &mut F,
    out: &mut K,
    gate: &G,
) -> Outcome
    requires threads { locks_in (seen_schedule replay.schedule) ≡ Some locks }
    requires sample { IfSome replay.sample IsStep }
    ensures status { result.status ≡ status_of result.end }
    ensures tried { HasTried (seen_replay replay.entry) (S.seen trace.old) (S.seen trace.new)
        (F.seen files.old) (F.seen files.new) (K.seen out.old) (K.seen out.new) result.end result.order }
{
    let job = match read_job(alloc, replay, trace, files) {
        Ok(job) => job,
        Err(end) => return Outcome::without_run(alloc, end),
    };
    let telling = replay.telling();
    let Ok(ran) = replay
        .front
        .run_by_threads(rt, alloc, gate, job, locks, telling)
    else {
        return Outcome::without_run(alloc, End::Memory);
    };
    write(out, ran)
}

/// Answers what asks for no worker threads: a replay or an audit is tried, or a trace is generated.
fn answer<S: Source, F: Shelf, K: Sink, N: Sink>(
    alloc: Global,
    asked: Option<Task>,
    trace: &mut S,
    files: &mut F,
    out: &mut K,
    notes: &mut N,
) -> Outcome
    requires alone { threads_in (option_map seen_task asked) ≡ None }
    requires ranges { IfSome asked (λ task. IsTask (seen_task task)) }
    ensures status { result.status ≡ status_of result.end }
    ensures answered { IsAnswered (option_map seen_task asked.entry)
        (record { trace = S.seen trace.old; files = F.seen files.old; out = K.seen out.old; notes = N.seen notes.old })
        (record { trace = S.seen trace.new; files = F.seen files.new; out = K.seen out.new; notes = N.seen notes.new })
        result.end result.order }
{
    match asked {
        None => Outcome::without_run(alloc, End::Usage),
        Some(Task::Replay(replay)) => try_replay(alloc, replay, trace, files, out),
        Some(Task::Generate(workload)) => generate(alloc, workload, files, out, notes),
        Some(Task::Audit(audit)) => try_audit(alloc, audit, trace, files, out),
    }
}

/// Answers what is asked for, by worker threads where these are.
fn answer_any<R: Threads + Wait + Sync, S: Source, F: Shelf, K: Sink, N: Sink, G: Gate + Sync>(
    rt: &R,
    alloc: Global,
    asked: Option<Task>,
    trace: &mut S,
    files: &mut F,
    out: &mut K,
    notes: &mut N,
    gate: &G,
) -> Outcome
    requires ranges { IfSome asked (λ task. IsTask (seen_task task)) }
    ensures status { result.status ≡ status_of result.end }
    ensures answered { IsAnswered (option_map seen_task asked.entry)
        (record { trace = S.seen trace.old; files = F.seen files.old; out = K.seen out.old; notes = N.seen notes.old })
        (record { trace = S.seen trace.new; files = F.seen files.new; out = K.seen out.new; notes = N.seen notes.new })
        result.end result.order }
{
    match by_threads(asked) {
        Some((replay, locks)) => try_threads(rt, alloc, replay, locks, trace, files, out, gate),
        None => answer(alloc, asked, trace, files, out, notes),
    }
}

/// Replays a trace, or generates one, without worker threads. `None` exactly where the words ask for such
/// threads, and then nothing was read or written.
///
/// The steps are taken in order: words, class table, trace, order file, run, writing. The whole text is
/// built before its first byte is written, by one `put`; at every status but 0 and 6 `out` is untouched.
/// At every status but 0 one line goes to `notes`, by one `put`. A generation makes its trace and replays it;
/// then the trace goes to `out`, and the summary of the replay to `notes`, each by one `put`.
pub fn replay_alone<S: Source, F: Shelf, K: Sink, N: Sink>(
    alloc: Global,
    words: &[String],
    trace: &mut S,
    files: &mut F,
    out: &mut K,
    notes: &mut N,
) -> Option<Outcome>
    ensures alone { (result ≡ None) ↔ IsSome (threads_in (task_by (map string_bytes words.now))) }
    ensures untouched { IfNone result ((trace.new ≡ trace.old) × (files.new ≡ files.old) × (out.new ≡ out.old) × (notes.new ≡ notes.old)) }
    ensures status { IfSome result (λ outcome. outcome.status ≡ status_of outcome.end) }
    ensures usage { IfSome result (λ outcome. (outcome.end ≡ end.Usage) ↔ (task_by (map string_bytes words.now) ≡ None)) }
    ensures outcome { IfSome result (λ outcome. IsOutcome (task_by (map string_bytes words.now))
        (record { trace = S.seen trace.old; files = F.seen files.old; out = K.seen out.old; notes = N.seen notes.old })
        (record { trace = S.seen trace.new; files = F.seen files.new; out = K.seen out.new; notes = N.seen notes.new })
        outcome.end outcome.order) }
    ensures complete { IfSome result (λ outcome. IsComplete (task_by (map string_bytes words.now))
        (record { trace = S.seen trace.old; files = F.seen files.old; out = K.seen out.old; notes = N.seen notes.old })
        (record { trace = S.seen trace.new; files = F.seen files.new; out = K.seen out.new; notes = N.seen notes.new })
        outcome.end outcome.order) }
{
    let asked = task_by(words);
    if by_threads(asked).is_some() {
        return None;
    }
    let outcome = answer(alloc, asked, trace, files, out, notes);
    note(notes, outcome.end);
    Some(outcome)
}

/// Replays a trace, or generates one, or judges a journal, alone where the words ask for no worker threads. Such threads pass `gate` before each
/// of their turns. With them this may wait, and what it promises holds if it returns.
pub fn tcreplay<R: Threads + Wait + Sync, S: Source, F: Shelf, K: Sink, N: Sink, G: Gate + Sync>(
    rt: &R,
    alloc: Global,
    words: &[String],
    trace: &mut S,
    files: &mut F,
    out: &mut K,
    notes: &mut N,
    gate: &G,
) -> Outcome
    ensures status { result.status ≡ status_of result.end }
    ensures usage { (result.end ≡ end.Usage) ↔ (task_by (map string_bytes words.now) ≡ None) }
    ensures outcome { IsOutcome (task_by (map string_bytes words.now))
        (record { trace = S.seen trace.old; files = F.seen files.old; out = K.seen out.old; notes = N.seen notes.old })
        (record { trace = S.seen trace.new; files = F.seen files.new; out = K.seen out.new; notes = N.seen notes.new })
        result.end result.order }
    ensures complete { IsComplete (task_by (map string_bytes words.now))
        (record { trace = S.seen trace.old; files = F.seen files.old; out = K.seen out.old; notes = N.seen notes.old })
        (record { trace = S.seen trace.new; files = F.seen files.new; out = K.seen out.new; notes = N.seen notes.new })
        result.end result.order }
{
    let outcome = answer_any(rt, alloc, task_by(words), trace, files, out, notes, gate);
    note(notes, outcome.end);
    outcome
}
