//! Why a trace or an order file is refused.
use thiserror::Error;

/// The first rule that a line of a trace fails. The rules stand in the order in which they are tested.
#[derive(Clone, Copy, Debug, PartialEq, Eq, Error)]
pub enum LineWhy {
    #[error("it is line 1000001")]
    Lines,
    #[error("its first field names no head, no call and no preemption")]
    Word,
    #[error("it is a head behind a line that is none")]
    HeadLate,
    #[error("it has another number of fields")]
    Fields,
    #[error("a field is no canonical decimal in its range")]
    Number,
    #[error("there is no such thread")]
    Thread,
    #[error("there is no such CPU")]
    Cpu,
    #[error("there is no such size class")]
    Class,
    #[error("an earlier allocation has the label")]
    LabelUsed,
    #[error("no earlier allocation has the label")]
    LabelUnknown,
    #[error("an earlier free has the label")]
    LabelFreed,
    /// No rule of this reader, which never answers it: a machine refuses the line's call, where no line is bad.
    #[error("it has a call that its machine doesn't take")]
    NotHere,
}

/// Why a trace was not read.
#[derive(Clone, Copy, Debug, PartialEq, Eq, Error)]
pub enum TraceFault {
    /// The first bad line, numbered from 1, and the first rule that it fails.
    #[error("line {line}: {why}")]
    BadLine { line: u32, why: LineWhy },
    /// Memory ran out.
    #[error("out of memory")]
    Memory,
}

/// The first rule that a line of an order file fails. The rules stand in the order in which they are
/// tested.
#[derive(Clone, Copy, Debug, PartialEq, Eq, Error)]
pub enum OrderWhy {
    #[error("it is line 1000001")]
    Lines,
    #[error("it has not one field or two")]
    Fields,
    #[error("a field is no canonical decimal in its range")]
    Number,
    #[error("there is no such thread")]
    Thread,
    #[error("there are more than 40000000 picks")]
    Picks,
}

/// Why an order file was not read.
#[derive(Clone, Copy, Debug, PartialEq, Eq, Error)]
pub enum OrderFault {
    /// The first bad line, numbered from 1, and the first rule that it fails.
    #[error("line {line}: {why}")]
    BadLine { line: u32, why: OrderWhy },
    /// Memory ran out.
    #[error("out of memory")]
    Memory,
}
