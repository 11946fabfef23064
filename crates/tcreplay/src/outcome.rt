//! How a call ends: its status, its cause, and the order that was run.
ghost use Rattle.std.specs.Prelude.{◌≡◌, []};
ghost use Rattle.tcreplay.specs.Status.{status_of};

use journal_audit::AuditWhy;
use size_classes::RowWhy;
use std::alloc::Global;
use tc_units::Listed;
use trace_reader::{LineWhy, OrderWhy};

/// The end of a call, with its cause.
#[derive(Clone, Copy, Debug, PartialEq, Eq)]
pub enum End {
    /// The run ended and its text was written, or the journal is legal and that was written.
    Done,
    /// The words are not in the grammar.
    Usage,
    /// The class table isn't valid: its first bad record, from 1, with its first failing rule.
    BadTable { row: u32, why: RowWhy },
    /// The trace isn't valid: its first bad line, from 1, with its first failing rule.
    BadTrace { line: u32, why: LineWhy },
    /// A read of the trace failed.
    ReadFault,
    /// A write of the text, of a generated trace or its summary, or of the answer on a journal failed.
    WriteFault,
    /// Memory ran out.
    Memory,
    /// An input has more bytes than its limit.
    TooLong { limit: u64 },
    /// One pick more would move, and as many have moved as may.
    Full { ticket: u64 },
    /// The order file isn't valid: its first bad line, from 1, with its first failing rule.
    BadOrder { line: u32, why: OrderWhy },
    /// A file isn't there, or its load failed.
    FileFault,
    /// The journal isn't legal: its first line that fails, from 1, with its first failing rule.
    AuditNo { line: u32, why: AuditWhy },
}

impl End {
    /// The number by which a process tells this end.
    pub fn status(self) -> u8
        ensures { result ≡ status_of self }
    {
        match self {
            End::Done => 0,
            End::Usage => 2,
            End::BadTable { .. } => 3,
            End::BadTrace { .. } => 4,
            End::ReadFault => 5,
            End::WriteFault => 6,
            End::Memory => 7,
            End::TooLong { .. } => 8,
            End::Full { .. } => 9,
            End::BadOrder { .. } => 10,
            End::FileFault => 11,
            End::AuditNo { .. } => 12,
        }
    }
}

/// What a call answers.
#[derive(Drop)]
pub struct Outcome {
    /// The number of its end.
    pub status: u8,
    pub end: End,
    /// The threads whose picks moved, in order, where there was a run: it ended, its text could not be
    /// written, or it stands at its limit.
    pub order: Listed<u16>,
}

impl Outcome {
    /// An end with the order that was run.
    pub fn new(end: End, order: Vec<u16>) -> Self
        ensures { result ≡ record { status = status_of end; end = end; order = order.items } }
    {
        Outcome {
            status: end.status(),
            end,
            order: Listed::new(order),
        }
    }

    /// An end without a run.
    pub fn without_run(alloc: Global, end: End) -> Self
        ensures { result ≡ record { status = status_of end; end = end; order = [] } }
    {
        Outcome::new(end, Vec::new(alloc))
    }
}
