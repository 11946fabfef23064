//! What a finished run has to tell beside its calls.
use tc_units::{Listed, RowView};

/// What a finished run has to tell beside its calls.
#[derive(Drop)]
pub struct Totals {
    /// How many calls were decided.
    pub calls: u64,
    /// Blocks that were allocated and not freed.
    pub live: u64,
    /// The bytes of those blocks.
    pub live_bytes: u64,
    /// Pages of live runs.
    pub used: u64,
    /// Backed pages.
    pub resident: u64,
    /// The arena's hugepages, from number 1 on.
    pub rows: Listed<RowView>,
}
