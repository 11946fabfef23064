//! Reading what a replay or an audit works on, each input once and in its turn: the class table, the trace,
//! and then the order file or the journal.
ghost use Rattle.std.specs.Prelude.{◌≡◌, ◌<◌, All, IfOk, List, ℕ, Some, None, Vec, length, option_map};
ghost use Rattle.std.specs.Global.{Global as Memory};
ghost use Rattle.tc_units.specs.declared.spans.ClassRow.{ClassRow};
ghost use Rattle.tc_machine.specs.Inputs.{IsRead, asked_of};
ghost use Rattle.tcreplay.specs.Seen.{seen_front, seen_replay};
ghost use Rattle.tcreplay.specs.Verdict.{and_then, file_within, rows_in, asked_of_text, taken_by, picks_in};
ghost use Rattle.tcreplay.specs.Reads.{load_end, IsLoad, ArePicks, IsPure, IsTraceRead, IsTakenBy, IsRunnable, IsJobRead, AreRead};
ghost use Rattle.tcreplay.specs.Auditing.{seen_case, case_in};

use crate::machines::Front;
use crate::outcome::End;
use crate::task::{Audit, Replay};
use size_classes::{ClassTable, TableFault};
use std::alloc::Global;
use tc_ports::{LoadFault, ReadAllFault, Shelf, Source, read_all};
use trace_reader::{LineWhy, OrderFault, Trace, TraceFault, read_order, read_trace};

/// The most bytes of a class table (this project's own limit).
const MOST_TABLE_BYTES: u64 = 65_536;

/// The most bytes of a trace, an order file or a journal (this project's own limit).
const MOST_TRACE_BYTES: u64 = 67_108_864;

/// What is run: a trace under a class table, with an order's picks.
#[derive(Drop)]
pub struct Job {
    pub table: ClassTable,
    pub trace: Trace,
    /// The threads that the order file picks; none where no order is named.
    pub picks: Vec<u16>,
    /// Bytes that nobody needs any more, in whose room the text is written: those of the trace.
    pub room: Vec<u8>,
}

/// What is judged: a journal of the calls of a trace, under a class table.
#[derive(Drop)]
pub struct AuditJob {
    pub table: ClassTable,
    pub trace: Trace,
    pub journal: Vec<u8>,
}

/// The end that a fault of a load is.
fn load_end(fault: LoadFault, limit: u64) -> End
    ensures { result ≡ load_end limit fault }
{
    match fault {
        LoadFault::Failed | LoadFault::Missing => End::FileFault,
        LoadFault::TooLong => End::TooLong { limit },
        LoadFault::Memory => End::Memory,
    }
}

/// The bytes of a file of at most so many.
fn load_file<F: Shelf>(alloc: Global, name: &str, limit: u64, files: &mut F) -> Result<Vec<u8>, End>
    ensures { IsLoad (λ (v : Vec ℕ Memory). v.items) (file_within limit) name.now (F.seen files.old) (F.seen files.new) result }
{
    match files.load(alloc, name, limit) {
        Ok(bytes) => Ok(bytes),
        Err(fault) => Err(load_end(fault, limit)),
    }
}

/// The class table of a file.
pub fn load_table<F: Shelf>(alloc: Global, name: &str, files: &mut F) -> Result<ClassTable, End>
    ensures { IsLoad (λ (rows : List ClassRow). rows) rows_in name.now (F.seen files.old) (F.seen files.new) result }
{
    let bytes = load_file(alloc, name, MOST_TABLE_BYTES, files)?;
    match ClassTable::read(alloc, &bytes) {
        Ok(table) => Ok(table),
        Err(TableFault::BadRow { row, why }) => Err(End::BadTable { row, why }),
        Err(TableFault::Memory) => Err(End::Memory),
    }
}

/// What a text asks for under a class table.
pub fn trace_of(alloc: Global, table: &ClassTable, text: &[u8]) -> Result<Trace, End>
    ensures asked { IsPure asked_of (asked_of_text table.now text.now) result }
    ensures read { IfOk result (λ trace. IsRead (length table.now) trace (asked_of trace)) }
{
    match read_trace(alloc, text, table.len()) {
        Ok(trace) => Ok(trace),
        Err(TraceFault::BadLine { line, why }) => Err(End::BadTrace { line, why }),
        Err(TraceFault::Memory) => Err(End::Memory),
    }
}

/// What a text asks for of the machine that is to run it, where one is.
fn trace_for(
    alloc: Global,
    runner: Option<Front>,
    table: &ClassTable,
    text: &[u8],
) -> Result<Trace, End>
    ensures asked { IsPure asked_of (and_then (taken_by (option_map seen_front runner)) (asked_of_text table.now text.now)) result }
    ensures read { IfOk result (λ trace. IsRead (length table.now) trace (asked_of trace)) }
    ensures taken { IfOk result (IsTakenBy (option_map seen_front runner)) }
{
    let trace = trace_of(alloc, table, text)?;
    let Some(front) = runner else {
        return Ok(trace);
    };
    let why = LineWhy::NotHere;
    match front.refused_line(&trace) {
        None => Ok(trace),
        Some(line) => Err(End::BadTrace { line, why }),
    }
}

/// What the rest of a source asks for under a class table, of the machine that is to run it, where one is. Its bytes are left
/// in the room.
fn load_trace<S: Source>(
    alloc: Global,
    runner: Option<Front>,
    table: &ClassTable,
    source: &mut S,
    room: &mut Vec<u8>,
) -> Result<Trace, End>
    ensures asked { IsTraceRead (option_map seen_front runner) table.now (S.seen source.old) (S.seen source.new) result }
    ensures read { IfOk result (λ trace. IsRead (length table.now) trace (asked_of trace)) }
    ensures taken { IfOk result (IsTakenBy (option_map seen_front runner)) }
{
    match read_all(alloc, source, MOST_TRACE_BYTES) {
        Ok(text) => {
            *room = text;
            trace_for(alloc, runner, table, room)
        }
        Err(ReadAllFault::ReadFault) => Err(End::ReadFault),
        Err(ReadAllFault::TooLong) => {
            let limit = MOST_TRACE_BYTES;
            Err(End::TooLong { limit })
        }
        Err(ReadAllFault::Memory) => Err(End::Memory),
    }
}

/// The picks of an order file.
fn load_order<F: Shelf>(
    alloc: Global,
    name: &str,
    threads: u8,
    files: &mut F,
) -> Result<Vec<u16>, End>
    ensures picks { IsLoad (λ (v : Vec ℕ Memory). v.items) (picks_in threads) name.now (F.seen files.old) (F.seen files.new) result }
    ensures threads { IfOk result (λ picks. All (λ thread. thread < threads) picks.items) }
{
    let bytes = load_file(alloc, name, MOST_TRACE_BYTES, files)?;
    match read_order(alloc, &bytes, threads) {
        Ok(picks) => Ok(picks),
        Err(OrderFault::BadLine { line, why }) => Err(End::BadOrder { line, why }),
        Err(OrderFault::Memory) => Err(End::Memory),
    }
}

/// The picks of the order file, where one is named; else there are none.
fn load_picks<F: Shelf>(
    alloc: Global,
    order: Option<&str>,
    threads: u8,
    files: &mut F,
) -> Result<Vec<u16>, End>
    ensures picks { ArePicks (option_map (λ name. name.now) order.entry) threads (F.seen files.old) (F.seen files.new) result }
    ensures threads { IfOk result (λ picks. All (λ thread. thread < threads) picks.items) }
{
    match order {
        None => Ok(Vec::new(alloc)),
        Some(name) => load_order(alloc, name, threads, files),
    }
}

/// What a replay works on. Each step is taken only where no earlier one refused.
pub fn read_job<S: Source, F: Shelf>(
    alloc: Global,
    replay: Replay,
    source: &mut S,
    files: &mut F,
) -> Result<Job, End>
    ensures read { IsJobRead (seen_replay replay.entry) (S.seen source.old) (S.seen source.new) (F.seen files.old) (F.seen files.new) result }
    ensures runnable { IfOk result IsRunnable }
    ensures taken { IfOk result (λ job. IsTakenBy (Some (seen_front replay.entry.front)) job.trace) }
{
    let table = load_table(alloc, replay.classes, files)?;
    let mut room = Vec::new(alloc);
    let trace = load_trace(alloc, Some(replay.front), &table, source, &mut room)?;
    let picks = load_picks(alloc, replay.schedule.file(), trace.config.threads, files)?;
    Ok(Job {
        table,
        trace,
        picks,
        room,
    })
}

/// What an audit works on. Each step is taken only where no earlier one refused.
pub fn read_audit<S: Source, F: Shelf>(
    alloc: Global,
    audit: Audit,
    source: &mut S,
    files: &mut F,
) -> Result<AuditJob, End>
    ensures read { AreRead None seen_case case_in audit.entry.classes.now (Some audit.entry.journal.now) (S.seen source.old) (S.seen source.new) (F.seen files.old) (F.seen files.new) result }
    ensures valid { IfOk result (λ job. IsRead (length job.table) job.trace (asked_of job.trace)) }
{
    let table = load_table(alloc, audit.classes, files)?;
    let mut room = Vec::new(alloc);
    let trace = load_trace(alloc, None, &table, source, &mut room)?;
    drop(room);
    let journal = load_file(alloc, audit.journal, MOST_TRACE_BYTES, files)?;
    Ok(AuditJob {
        table,
        trace,
        journal,
    })
}
