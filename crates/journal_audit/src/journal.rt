//! The lines of a journal's calls.
ghost use Rattle.std.specs.Prelude.{◌≡◌, ◌+◌, ◌-◌, ◌^◌, ◌<◌, [], ◌∷◌, length, IfSome, MatchOption};
ghost use Rattle.journal_audit.specs.Rules.{ends, forms_in};

use crate::told::{Told, read_told};
use trace_text::Lines;

/// Whether a line's first field is the word with which the lines of calls end.
fn ends(field: &[u8]) -> bool
    ensures { result ≡ ends (field.now ∷ []) }
{
    field == b"calls".as_slice()
}

/// What the next line of calls says: `None` in it where it has none of their forms. `None` exactly
/// where no such line is left.
pub fn next_form(lines: &mut Lines) -> Option<Option<Told>>
    requires { lines.old.given < 2 ^ 32 - 1 }
    ensures form { MatchOption result (forms_in lines.old.lines ≡ []) (λ form. forms_in lines.old.lines ≡ form ∷ forms_in lines.new.lines) }
    ensures given { IfSome result (λ _. lines.new.given ≡ lines.old.given + 1) }
    ensures fewer { IfSome result (λ _. length lines.new.lines < length lines.old.lines) }
{
    let mut line = lines.next()?;
    let Some(first) = line.next() else {
        return Some(None);
    };
    if ends(first.bytes) {
        return None;
    }
    Some(read_told(first.bytes, &mut line))
}
