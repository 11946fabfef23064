//! The printed lines of a profile.
ghost use Rattle.std.specs.Prelude.{◌≡◌, [], ◌∷◌, ◌++◌, OnOk, codes, decimal};
ghost use Rattle.std.specs.List.{flat_map};
ghost use Rattle.usage_report.specs.Report.{line_of};
ghost use Rattle.heap_sample.specs.Lines.{profile_line, profile_text};

use crate::sample::{Peak, ProfileRow};
use std::alloc::AllocError;
use usage_report::{push_counted, push_lettered, push_number};

/// Appends the line of a row.
fn push_row(text: &mut Vec<u8>, row: &ProfileRow) -> Result<(), AllocError>
    ensures { OnOk result (text.new.items ≡ text.old.items ++ profile_line row.now) }
{
    push_lettered(text, b's', row.len)?;
    push_number(text, row.blocks)?;
    push_number(text, row.bytes)?;
    text.push(b'\n')?;
    Ok(())
}

/// Appends the line of the peak.
fn push_peak(text: &mut Vec<u8>, peak: Peak) -> Result<(), AllocError>
    ensures { OnOk result (text.new.items ≡ text.old.items
        ++ line_of (codes "peak") (decimal peak.bytes ∷ decimal peak.call ∷ [])) }
{
    push_counted(text, b"peak", peak.bytes)?;
    push_number(text, peak.call)?;
    text.push(b'\n')?;
    Ok(())
}

/// Appends the lines of the rows, and the line of the peak.
pub fn push_profile(text: &mut Vec<u8>, rows: &[ProfileRow], peak: Peak) -> Result<(), AllocError>
    ensures { OnOk result (text.new.items ≡ text.old.items ++ profile_text rows.now peak) }
{
    for row in rows {
        push_row(text, row)?;
    }
    push_peak(text, peak)
}
