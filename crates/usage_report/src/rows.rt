//! The lines of hugepages.
ghost use Rattle.std.specs.Prelude.{◌≡◌, ◌++◌, OnOk};
ghost use Rattle.usage_report.specs.Report.{spaced, kind_word, measures, row_line, row_lines};

use crate::words::{push_lettered, push_number, push_word};
use std::alloc::AllocError;
use tc_units::{RowKind, RowView};

/// What a hugepage serves.
fn kind_word(kind: RowKind) -> &'static [u8]
    ensures { result.now ≡ kind_word kind }
{
    match kind {
        RowKind::Free => b"free",
        RowKind::Filler => b"filler",
        RowKind::Run => b"run",
        RowKind::Region => b"region",
    }
}

/// Appends the measures of a hugepage, each behind a space.
fn push_measures(text: &mut Vec<u8>, row: &RowView) -> Result<(), AllocError>
    ensures { OnOk result (text.new.items ≡ text.old.items ++ spaced (measures row.now)) }
{
    push_number(text, u64::from(row.used))?;
    push_number(text, u64::from(row.allocs))?;
    push_number(text, u64::from(row.backed))?;
    push_number(text, u64::from(row.longest))?;
    push_number(text, u64::from(row.donated))?;
    Ok(())
}

/// Appends the line of the hugepage with a number.
fn push_row(text: &mut Vec<u8>, number: u64, row: &RowView) -> Result<(), AllocError>
    ensures { OnOk result (text.new.items ≡ text.old.items ++ row_line number row.now) }
{
    push_lettered(text, b'h', number)?;
    push_word(text, kind_word(row.kind))?;
    push_measures(text, row)?;
    text.push(b'\n')?;
    Ok(())
}

/// Appends the lines of the hugepages, which are numbered from 1.
pub fn push_rows(text: &mut Vec<u8>, rows: &[RowView]) -> Result<(), AllocError>
    ensures { OnOk result (text.new.items ≡ text.old.items ++ row_lines rows.now) }
{
    for (i, row) in rows.iter().enumerate() {
        push_row(text, i as u64 + 1, row)?;
    }
    Ok(())
}
