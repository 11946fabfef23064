//! Why a text is no class table.
use thiserror::Error;

/// The rule that a record breaks.
#[derive(Clone, Copy, Debug, PartialEq, Eq, Error)]
pub enum RowWhy {
    #[error("a record has not three fields")]
    Fields,
    #[error("a field is no canonical decimal of at most 1000000")]
    Number,
    #[error("a size is no multiple of 8 from 8 to 262144")]
    Size,
    #[error("a size is not above the one before")]
    Rise,
    #[error("a span has not 1 to 255 pages")]
    Pages,
    #[error("an object is longer than a span")]
    Fit,
    #[error("a batch is not 1 to 128")]
    Batch,
    #[error("there are more than 120 records")]
    Rows,
    #[error("there is no record")]
    Empty,
}

/// Why a text was not read as a table.
#[derive(Clone, Copy, Debug, PartialEq, Eq, Error)]
pub enum TableFault {
    /// The first bad record, numbered from 1, and the first rule that it breaks.
    #[error("record {row}: {why}")]
    BadRow { row: u32, why: RowWhy },
    /// Memory ran out.
    #[error("out of memory")]
    Memory,
}
