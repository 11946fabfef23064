//! Reading a whole trace.
ghost use Rattle.std.specs.Prelude.{◌≡◌, ◌≤◌, IfOk, IfErr, IsOkAnd};
ghost use Rattle.trace_reader.specs.Reading.{asked_by};
ghost use Rattle.trace_reader.specs.Steps.{so_far, IsReading};
ghost use Rattle.trace_reader.specs.Valid.{IsAsked};
ghost use Rattle.trace_reader.specs.Traces.{trace_of, IsTraceFault};

use crate::reader::Reader;
use crate::why::TraceFault;
use std::alloc::Global;
use tc_model::{Config, Script};
use tc_units::{Listed, ThreadNo};
use trace_text::Lines;

/// What a valid trace asks for.
#[derive(Drop)]
pub struct Trace {
    /// The limits of the run.
    pub config: Config,
    /// The calls of each thread.
    pub scripts: Listed<Script>,
    /// The thread of each call, in trace order.
    pub turns: Listed<ThreadNo>,
    /// The greatest label plus one, or 0.
    pub labels: u32,
}

/// What the text of a trace asks for, where there are so many size classes; a class number is at most
/// 255. Unless memory runs out, a refusal is the first bad line with the first rule that it fails.
pub fn read_trace(alloc: Global, bytes: &[u8], classes: u32) -> Result<Trace, TraceFault>
    ensures trace { IfOk result (λ trace. IsOkAnd (asked_by classes bytes.now) (λ asked. trace ≡ trace_of asked)) }
    ensures valid { IfOk result (λ _. IsOkAnd (asked_by classes bytes.now) (IsAsked classes)) }
    ensures fault { IfErr result (IsTraceFault classes bytes.now) }
{
    let Ok(mut reader) = Reader::new(alloc) else {
        return Err(TraceFault::Memory);
    };
    let mut lines = Lines::new(bytes);
    while let Some(mut line) = lines.next() {
        reader.read_line(classes, &mut line)?;
    }
    reader.into_trace(alloc).map_err(|_| TraceFault::Memory)
}
