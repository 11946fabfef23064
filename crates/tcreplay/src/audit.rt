//! The audit of a journal, whoever wrote it: it is judged by the calls of a trace, and the answer is written.
ghost use Rattle.std.specs.Prelude.{◌≡◌, IfOk, length};
ghost use Rattle.tc_machine.specs.Inputs.{IsRead, asked_of};
ghost use Rattle.tcreplay.specs.declared.outcome.End.TheVariants as end;
ghost use Rattle.tcreplay.specs.Status.{status_of};
ghost use Rattle.tcreplay.specs.Seen.{seen_audit};
ghost use Rattle.tcreplay.specs.Writes.{IsWritten, IsLastEnd};
ghost use Rattle.tcreplay.specs.Auditing.{yes_line, ended_by, seen_case, verdict_in, IsJudgedRight, HasAudited};

use crate::input::{AuditJob, read_audit};
use crate::outcome::{End, Outcome};
use crate::task::Audit;
use arrayvec::ArrayString;
use itoa::Buffer;
use journal_audit::{Verdict, audit};
use std::alloc::{AllocError, Global};
use tc_ports::{Failed, Shelf, Sink, Source};

/// Room for `yes` and a number, in bytes.
const MOST_BYTES: usize = 32;

/// The line that tells how many calls a legal journal has.
fn yes_line(calls: u64) -> ArrayString<MOST_BYTES>
    ensures { result.bytes ≡ yes_line calls }
{
    let mut line = ArrayString::new();
    line.push_str("yes ");
    line.push_str(Buffer::new().format(calls));
    line.push_str("\n");
    line
}

/// Judges a journal.
fn judge(alloc: Global, job: &AuditJob) -> Result<Verdict, AllocError>
    requires { IsRead (length job.now.table) job.now.trace (asked_of job.now.trace) }
    ensures verdict { IfOk result (λ verdict. verdict ≡ verdict_in (seen_case job.now)) }
    ensures right { IfOk result (λ _. IsJudgedRight (seen_case job.now)) }
{
    let rows = job.table.rows();
    let scripts = job.trace.scripts.as_slice();
    audit(alloc, &job.trace.config, rows, scripts, &job.journal)
}

/// Writes what a legal journal is answered; of another one nothing is written.
fn write<K: Sink>(out: &mut K, verdict: Verdict) -> End
    ensures end { IsLastEnd (ended_by verdict).end result }
    ensures written { IsWritten result (ended_by verdict).text (K.seen out.old) (K.seen out.new) }
{
    match verdict {
        Verdict::Yes { calls } => match out.put(yes_line(calls).as_bytes()) {
            Ok(()) => End::Done,
            Err(Failed) => End::WriteFault,
        },
        Verdict::No { line, why } => End::AuditNo { line, why },
    }
}

/// Tries an audit: its inputs are read, the journal is judged, and the answer is written.
pub fn try_audit<S: Source, F: Shelf, K: Sink>(
    alloc: Global,
    audit: Audit,
    trace: &mut S,
    files: &mut F,
    out: &mut K,
) -> Outcome
    ensures status { result.status ≡ status_of result.end }
    ensures audited { HasAudited (seen_audit audit.entry) (S.seen trace.old) (S.seen trace.new) (F.seen files.old) (F.seen files.new) (K.seen out.old) (K.seen out.new)
        result.end result.order }
{
    let job = match read_audit(alloc, audit, trace, files) {
        Ok(job) => job,
        Err(end) => return Outcome::without_run(alloc, end),
    };
    match judge(alloc, &job) {
        Ok(verdict) => Outcome::without_run(alloc, write(out, verdict)),
        Err(_) => Outcome::without_run(alloc, End::Memory),
    }
}
