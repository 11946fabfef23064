//! How long a block has to be, and where it may lie.
ghost use Rattle.std.specs.Prelude.{◌≡◌, ◌*◌, ◌==◌, find};
ghost use Rattle.std.specs.List.{position};
ghost use Rattle.tc_units.specs.Units.{page_bytes, pages_holding};
ghost use Rattle.tc_units.specs.Classes.{serves, length_of};
ghost use Rattle.journal_audit.specs.Rules.{lies_in};

use tc_units::{ClassRow, HUGE_PAGES, PAGE_BYTES};

/// Bytes of a hugepage.
const HUGE_BYTES: u64 = PAGE_BYTES * HUGE_PAGES as u64;

/// The class of a request: the first one whose size holds it.
fn class_of(rows: &[ClassRow], size: u64) -> Option<usize>
    ensures { result ≡ position (serves size) rows.now }
{
    rows.iter().position(|row| size <= u64::from(row.size))
}

/// The row of a request's class.
fn row_of(rows: &[ClassRow], size: u64) -> Option<ClassRow>
    ensures { result ≡ find (serves size) rows.now }
{
    let class = class_of(rows, size)?;
    Some(rows[class])
}

/// Whether these are the bytes of whole pages, as many as hold a request.
fn is_whole_pages(size: u64, len: u64) -> bool
    ensures { result ≡ (len == pages_holding size * page_bytes) }
{
    len % PAGE_BYTES == 0 && len / PAGE_BYTES == size.div_ceil(PAGE_BYTES)
}

/// Whether a block has the length to which its request is rounded: its class's size, or whole pages
/// where it has no class.
pub fn has_length(rows: &[ClassRow], size: u64, len: u64) -> bool
    ensures { result ≡ (len == length_of rows.now size) }
{
    match row_of(rows, size) {
        Some(row) => len == u64::from(row.size),
        None => is_whole_pages(size, len),
    }
}

/// Whether a block has a byte and lies in the arena of so many hugepages, which are numbered from 1.
pub fn lies_in(huge: u32, addr: u64, len: u64) -> bool
    ensures { result ≡ lies_in huge addr len }
{
    let end = HUGE_BYTES * (u64::from(huge) + 1);
    0 < len && HUGE_BYTES <= addr && addr <= end && len <= end - addr
}
