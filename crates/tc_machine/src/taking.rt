//! A look through the calls of a trace, for the first that a machine doesn't take.
ghost use Rattle.std.specs.Prelude.{◌≡◌, None};
ghost use Rattle.alloc_rules.specs.Inputs.{not_taken};
ghost use Rattle.tc_machine.specs.Inputs.{asked_of};
ghost use Rattle.tc_machine.specs.Taken.{lesser, refused_at, refused_in, refused_line};

use crate::allocator::Allocator;
use tc_model::{Planned, Script};
use trace_reader::Trace;

/// The lesser of two lines, where there are any.
fn lesser(line: Option<u32>, other: Option<u32>) -> Option<u32>
    ensures { result ≡ lesser line other }
{
    match (line, other) {
        (Some(line), Some(other)) => Some(line.min(other)),
        (Some(line), None) => Some(line),
        (None, other) => other,
    }
}

/// The line of a call that the machine doesn't take.
fn refused_at<M: Allocator>(planned: Planned) -> Option<u32>
    ensures { result ≡ refused_at M.takes planned }
{
    if M::can_take(planned.call) {
        None
    } else {
        Some(planned.line)
    }
}

/// The least line of a call of a script that the machine doesn't take.
fn refused_in<M: Allocator>(script: &Script) -> Option<u32>
    ensures { result ≡ refused_in M.takes script.now.calls }
{
    let mut least = None;
    for place in 0..script.calls.len() {
        least = lesser(least, refused_at::<M>(script.calls.at(place)));
    }
    least
}

/// The least line of a call of these scripts that the machine doesn't take.
fn refused_of<M: Allocator>(scripts: &[Script]) -> Option<u32>
    ensures { result ≡ refused_line M.takes scripts.now }
{
    let mut least = None;
    for script in scripts {
        least = lesser(least, refused_in::<M>(script));
    }
    least
}

/// The line of the first call of a trace that the machine doesn't take. Where there is none, the trace can be
/// run on it.
pub fn refused_line<M: Allocator>(trace: &Trace) -> Option<u32>
    ensures line { result ≡ refused_line M.takes trace.now.scripts }
    ensures taken { result ≡ None → not_taken M.takes (asked_of trace.now).calls ≡ 0 }
{
    refused_of::<M>(trace.scripts.as_slice())
}
