//! Judging a whole journal.
ghost use Rattle.std.specs.Prelude.{◌≡◌, [], IfOk};
ghost use Rattle.journal_audit.specs.Rules.{plan_of, journal_of, audited};
ghost use Rattle.journal_audit.specs.Legal.{IsYesOnLegal};

use crate::books::Books;
use crate::journal::next_form;
use crate::verdict::Verdict;
use std::alloc::{AllocError, Global};
use tc_model::{Config, Script};
use tc_units::ClassRow;
use trace_text::Lines;

/// The verdict on the lines of a journal's calls, one after another.
fn judge_lines(
    alloc: Global,
    huge: u32,
    rows: &[ClassRow],
    scripts: &[Script],
    bytes: &[u8],
) -> Result<Verdict, AllocError>
    ensures { IfOk result (λ verdict. verdict ≡ audited (plan_of huge rows.now scripts.now) [] (journal_of bytes.now)) }
{
    let mut books = Books::new(alloc, scripts.len())?;
    let mut lines = Lines::new(bytes);
    while let Some(form) = next_form(&mut lines) {
        if let Some(why) = books.read(huge, rows, scripts, form)? {
            return Ok(Verdict::No {
                line: books.calls + 1,
                why,
            });
        }
    }
    Ok(books.verdict(scripts))
}

/// Judges a journal of the calls of a trace, with these limits, class table and scripts of its threads.
/// Its lines are read up to the first one whose first field is `calls`, and the rest isn't looked at.
/// It is judged by any limits, rows and scripts as the rules say, those of a valid trace or not.
pub fn audit(
    alloc: Global,
    config: &Config,
    rows: &[ClassRow],
    scripts: &[Script],
    bytes: &[u8],
) -> Result<Verdict, AllocError>
    // The first line that fails, with its first failing rule.
    ensures verdict { IfOk result (λ verdict. verdict ≡ audited (plan_of config.now.huge rows.now scripts.now) [] (journal_of bytes.now)) }

    // Yes exactly where the journal is legal.
    ensures legal { IfOk result (IsYesOnLegal (plan_of config.now.huge rows.now scripts.now) (journal_of bytes.now)) }
{
    judge_lines(alloc, config.huge, rows, scripts, bytes)
}
