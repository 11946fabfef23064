//! The generation of a trace: it is replayed in serial, and only then it is written, and the summary of that
//! replay behind it.
ghost use Rattle.std.specs.Prelude.{◌≡◌, IfOk, OnOk, OnErr};
ghost use Rattle.tc_ports.specs.Ends.{Reading};
ghost use Rattle.tcreplay.specs.declared.outcome.End.TheVariants as end;
ghost use Rattle.tcreplay.specs.Status.{status_of};
ghost use Rattle.tcreplay.specs.Tasks.{IsWorkload};
ghost use Rattle.tcreplay.specs.Seen.{seen_workload};
ghost use Rattle.tcreplay.specs.Reads.{IsRunnable};
ghost use Rattle.tcreplay.specs.Writes.{IsRunEnd, IsLastEnd};
ghost use Rattle.tcreplay.specs.Generating.{IsMade, AreWritten, HasGenerated};

use crate::input::{Job, load_table};
use crate::outcome::{End, Outcome};
use crate::run::{Ran, Telling, run_over};
use crate::task::Workload;
use cpu_front::CpuCaches;
use std::alloc::Global;
use tc_ports::{Failed, Shelf, Sink};
use trace_gen::Generated;

/// A generated trace, and its serial replay under a class table.
#[derive(Drop)]
pub struct Made {
    pub text: Vec<u8>,
    pub job: Job,
}

/// Makes the trace of a workload, with what it asks for, under the class table of its file.
fn make<F: Shelf>(alloc: Global, workload: Workload, files: &mut F) -> Result<Made, End>
    requires ranges { IsWorkload (seen_workload workload) }
    ensures made { IsMade (seen_workload workload.entry) (F.seen files.old) (F.seen files.new) result }
    ensures runnable { IfOk result (λ made. IsRunnable made.job) }
{
    let table = load_table(alloc, workload.classes, files)?;
    let threads = workload.threads as u8;
    let Ok(generated) = trace_gen::generate(alloc, workload.seed, workload.calls, threads) else {
        return Err(End::Memory);
    };
    let Generated { text, trace } = generated;
    let job = Job {
        table,
        trace,
        picks: Vec::new(alloc),
        room: Vec::new(alloc),
    };
    Ok(Made { text, job })
}

/// Writes a trace, and then a summary, each by one put.
fn put_both<K: Sink, N: Sink>(
    out: &mut K,
    notes: &mut N,
    trace: &[u8],
    summary: &[u8],
) -> Result<(), Failed>
    ensures written { OnOk result (AreWritten end.Done trace.now summary.now (K.seen out.old) (K.seen out.new) (N.seen notes.old) (N.seen notes.new)) }
    ensures failed { OnErr result (AreWritten end.WriteFault trace.now summary.now (K.seen out.old) (K.seen out.new) (N.seen notes.old) (N.seen notes.new)) }
{
    out.put(trace)?;
    notes.put(summary)
}

/// Writes a trace whose replay has ended, and the summary of that.
fn write<K: Sink, N: Sink>(out: &mut K, notes: &mut N, trace: &[u8], ran: Ran) -> Outcome
    requires { IsRunEnd ran.end }
    ensures status { result.status ≡ status_of result.end }
    ensures order { result.order ≡ ran.order.items }
    ensures end { IsLastEnd ran.end result.end }
    ensures written { AreWritten result.end trace.now ran.text.items (K.seen out.old) (K.seen out.new) (N.seen notes.old) (N.seen notes.new) }
{
    let Ran {
        end,
        order,
        text: summary,
        ..
    } = ran;
    if end != End::Done {
        return Outcome::new(end, order);
    }
    match put_both(out, notes, trace, &summary) {
        Ok(()) => Outcome::new(End::Done, order),
        Err(Failed) => Outcome::new(End::WriteFault, order),
    }
}

/// Generates a trace: it is made and replayed, and then it and the summary are written.
pub fn generate<F: Shelf, K: Sink, N: Sink>(
    alloc: Global,
    workload: Workload,
    files: &mut F,
    out: &mut K,
    notes: &mut N,
) -> Outcome
    requires ranges { IsWorkload (seen_workload workload) }
    ensures status { result.status ≡ status_of result.end }
    ensures generated { (source : Reading) → HasGenerated (seen_workload workload.entry)
        (record { trace = source; files = F.seen files.old; out = K.seen out.old; notes = N.seen notes.old })
        (record { trace = source; files = F.seen files.new; out = K.seen out.new; notes = N.seen notes.new })
        result.end result.order }
{
    let Made { text, job } = match make(alloc, workload, files) {
        Ok(made) => made,
        Err(end) => return Outcome::without_run(alloc, end),
    };
    match run_over::<CpuCaches>(alloc, job, Telling::Summary) {
        Ok(ran) => write(out, notes, &text, ran),
        Err(_) => Outcome::without_run(alloc, End::Memory),
    }
}
