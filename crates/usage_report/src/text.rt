//! The whole text of a finished run, and its summary alone.
ghost use Rattle.std.specs.Prelude.{◌≡◌, ◌*◌, ◌≤◌, [], length, All, IfOk, IsTrue, if◌then◌else◌};
ghost use Rattle.std.specs.List.{list_all};
ghost use Rattle.tc_units.specs.Units.{page_bytes};
ghost use Rattle.usage_report.specs.Report.{can_answer, summary_of, text_of, IsTellable};

use crate::lines::push_call_lines;
use crate::rows::push_rows;
use crate::totals::{push_summary, summary_in};
use std::alloc::{AllocError, Global};
use tc_model::Finished;

/// At least the bytes of a call's line.
const CALL_BYTES: usize = 64;

/// At least the bytes of a hugepage's line.
const ROW_BYTES: usize = 80;

/// At least the bytes of the summary.
const SUMMARY_BYTES: usize = 160;

/// An empty text with room for the lines of so many calls and hugepages and for a summary, which is made at once so that the
/// text never moves.
pub fn roomy_text(alloc: Global, calls: usize, rows: usize) -> Result<Vec<u8>, AllocError>
    ensures { IfOk result (λ text. text.items ≡ []) }
{
    text_in(Vec::new(alloc), calls, rows)
}

/// The same, in the room of bytes that nobody needs any more, which are dropped.
pub fn text_in(bytes: Vec<u8>, calls: usize, rows: usize) -> Result<Vec<u8>, AllocError>
    ensures { IfOk result (λ text. text.items ≡ []) }
{
    let calls = calls.checked_mul(CALL_BYTES).ok_or(AllocError)?;
    let rows = rows.checked_mul(ROW_BYTES).ok_or(AllocError)?;
    let lines = calls.checked_add(rows).ok_or(AllocError)?;
    let room = lines.checked_add(SUMMARY_BYTES).ok_or(AllocError)?;
    let mut text = bytes;
    text.clear();
    text.reserve(room)?;
    Ok(text)
}

/// The text of a finished run: its calls' lines in order, the summary, and with `rows` a line for each
/// hugepage. The format is this project's own.
pub fn report(alloc: Global, finished: &Finished, rows: bool) -> Result<Vec<u8>, AllocError>
    requires few { finished.now.resident ≤ 8388608 }
    requires within { finished.now.live_bytes ≤ finished.now.resident * page_bytes }
    requires answered { IsTrue (list_all (λ c. can_answer c.call c.answer) finished.now.calls) }
    ensures text { IfOk result (λ text. text.items
        ≡ text_of finished.now.calls finished.now.live finished.now.live_bytes finished.now.used
        finished.now.resident (if rows then finished.now.rows else [])) }
    ensures tellable { IfOk result (λ _. All IsTellable finished.now.calls) }
{
    let told = if rows { finished.rows.as_slice() } else { &[] };
    let calls = finished.calls.as_slice();
    let mut text = roomy_text(alloc, calls.len(), told.len())?;
    push_call_lines(&mut text, calls)?;
    push_summary(&mut text, &summary_in(finished))?;
    push_rows(&mut text, told)?;
    Ok(text)
}

/// The five lines of summary alone.
pub fn summary(alloc: Global, finished: &Finished) -> Result<Vec<u8>, AllocError>
    requires few { finished.now.resident ≤ 8388608 }
    requires within { finished.now.live_bytes ≤ finished.now.resident * page_bytes }
    requires answered { IsTrue (list_all (λ c. can_answer c.call c.answer) finished.now.calls) }
    ensures { IfOk result (λ text. text.items
        ≡ summary_of (length finished.now.calls) finished.now.live finished.now.live_bytes
        finished.now.used finished.now.resident) }
{
    let mut text = roomy_text(alloc, 0, 0)?;
    push_summary(&mut text, &summary_in(finished))?;
    Ok(text)
}
