//! The five lines of summary.
ghost use Rattle.std.specs.Prelude.{◌≡◌, ◌*◌, ◌≤◌, ◌++◌, [], ◌∷◌, OnOk, codes, decimal, length};
ghost use Rattle.tc_units.specs.Units.{page_bytes};
ghost use Rattle.usage_report.specs.Report.{line_of, fragmentation, summary_of};

use crate::words::{push_count_line, push_counted, push_number};
use std::alloc::AllocError;
use tc_model::Finished;
use tc_units::PAGE_BYTES;

/// How much of the resident memory no live block uses, in thousandths, rounded down.
fn fragmentation(resident: u64, live_bytes: u64) -> u64
    requires few { resident ≤ 8388608 }
    requires within { live_bytes ≤ resident * page_bytes }
    ensures { result ≡ fragmentation resident live_bytes }
{
    if resident == 0 {
        return 0;
    }
    let bytes = resident * PAGE_BYTES;
    (bytes - live_bytes) * 1000 / bytes
}

/// Appends the line of the live blocks and their bytes.
fn push_live(text: &mut Vec<u8>, blocks: u64, bytes: u64) -> Result<(), AllocError>
    ensures { OnOk result (text.new.items
        ≡ text.old.items ++ line_of (codes "live") (decimal blocks ∷ decimal bytes ∷ [])) }
{
    push_counted(text, b"live", blocks)?;
    push_number(text, bytes)?;
    text.push(b'\n')?;
    Ok(())
}

/// The numbers of a summary.
#[derive(Clone, Copy, Debug, PartialEq, Eq)]
pub struct Summary {
    /// How many calls were decided.
    pub calls: u64,
    /// Blocks that were allocated and not freed.
    pub live: u64,
    /// The bytes of those blocks.
    pub live_bytes: u64,
    /// Pages of live runs.
    pub used: u64,
    /// Backed pages.
    pub resident: u64,
}

/// The numbers of a finished run.
pub(crate) fn summary_in(finished: &Finished) -> Summary
    ensures { result ≡ record { calls = length finished.now.calls; live = finished.now.live; live_bytes = finished.now.live_bytes; used = finished.now.used; resident = finished.now.resident } }
{
    Summary {
        calls: finished.calls.as_slice().len() as u64,
        live: finished.live,
        live_bytes: finished.live_bytes,
        used: finished.used,
        resident: finished.resident,
    }
}

/// Appends the five lines of the summary.
pub fn push_summary(text: &mut Vec<u8>, summary: &Summary) -> Result<(), AllocError>
    requires few { summary.now.resident ≤ 8388608 }
    requires within { summary.now.live_bytes ≤ summary.now.resident * page_bytes }
    ensures { OnOk result (text.new.items ≡ text.old.items
        ++ summary_of summary.now.calls summary.now.live summary.now.live_bytes summary.now.used summary.now.resident) }
{
    let fragmented = fragmentation(summary.resident, summary.live_bytes);
    push_count_line(text, b"calls", summary.calls)?;
    push_live(text, summary.live, summary.live_bytes)?;
    push_count_line(text, b"used", summary.used)?;
    push_count_line(text, b"resident", summary.resident)?;
    push_count_line(text, b"frag", fragmented)?;
    Ok(())
}
