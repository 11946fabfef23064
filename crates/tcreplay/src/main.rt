//! Replays a trace of allocator calls over numbered pages.
#![tactic(auto)]

ghost use Rattle.std.specs.Prelude.{◌≡◌};
ghost use Rattle.std.specs.Process.{exit_status};
ghost use Rattle.tcreplay.specs.Status.{status_of};
ghost use Rattle.tcreplay.specs.Writes.{IsNoted};

mod audit;
#[cfg(test)]
mod front_tests;
mod generate;
#[cfg(test)]
mod generate_tests;
mod hearing;
mod input;
mod machines;
mod notes;
#[cfg(test)]
mod numa_tests;
mod outcome;
#[cfg(test)]
mod perthread_tests;
mod replay;
mod run;
mod task;
#[cfg(test)]
mod tests;
mod words;
#[cfg(test)]
mod worker_tests;
mod workers;

use crate::notes::note;
use crate::outcome::End;
use crate::replay::tcreplay;
use std::process::ExitCode;
use std::{env, io};
use tc_ports::{FileShelf, OpenGate, ReaderSource, Sink, WriterSink};

/// The words behind the program's name. Words that are no text are in no grammar.
fn words_of(rt: &HostRuntime) -> Result<Vec<String>, End> {
    let words = match env::args(rt) {
        Ok(words) => words,
        Err(error) if error.kind() == io::ErrorKind::OutOfMemory => return Err(End::Memory),
        Err(_) => return Err(End::Usage),
    };
    words.skip(1).collect(rt.alloc()).map_err(|_| End::Memory)
}

/// The exit code that tells an end.
fn exit_of(end: End) -> ExitCode
    ensures { exit_status result ≡ status_of end }
{
    ExitCode::from(end.status())
}

/// Tells why there are no words.
fn refuse<N: Sink>(notes: &mut N, end: End) -> ExitCode
    ensures noted { IsNoted end (N.seen notes.old) (N.seen notes.new) }
    ensures exit { exit_status result ≡ status_of end }
{
    note(notes, end);
    exit_of(end)
}

/// Standard input is the trace, standard output takes the text, and standard error is for notes.
fn main(rt: HostRuntime) -> ExitCode {
    let mut notes = WriterSink::new(rt.stderr());
    let words = match words_of(&rt) {
        Ok(words) => words,
        Err(end) => return refuse(&mut notes, end),
    };
    let mut trace = ReaderSource::new(rt.reader());
    let mut files = FileShelf::new(&rt);
    let mut out = WriterSink::new(io::writer(&rt));
    let outcome = tcreplay(
        &rt,
        rt.alloc(),
        &words,
        &mut trace,
        &mut files,
        &mut out,
        &mut notes,
        &OpenGate,
    );
    exit_of(outcome.end)
}
