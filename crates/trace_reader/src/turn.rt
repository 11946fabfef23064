//! What a line of an order file says.
ghost use Rattle.std.specs.Prelude.{◌≡◌, ◌≤◌, IfOk, IfSome};
ghost use Rattle.trace_reader.specs.Orders.{line_turns, has_turn_fields, read_turn_fields};

use crate::form::{end, next_place, next_short_number};
use crate::limits::MOST_TURNS;
use crate::why::OrderWhy;
use trace_text::Fields;

/// Picks of one thread in a row.
#[derive(Clone, Copy, Debug, PartialEq, Eq)]
pub struct Turns {
    pub thread: u16,
    pub picks: u32,
}

/// Picks of a thread: one where their number isn't there. `None` where the fields that are left say no such thing.
fn turns_of(line: &mut Fields) -> Option<Turns>
    ensures turns { result ≡ line_turns line.old.fields }
    ensures range { IfSome result (λ turns. turns.picks ≤ MOST_TURNS) }
{
    let thread = next_place(line)?;
    let picks = if line.is_empty() {
        1
    } else {
        next_short_number(line, 1, MOST_TURNS)?
    };
    end(line)?;
    Some(Turns {
        thread: thread as u16,
        picks: picks as u32,
    })
}

/// Whether one field is left, or two.
fn has_turn_fields(line: &mut Fields) -> bool
    ensures { result ≡ has_turn_fields line.old.fields }
{
    line.next().is_some() && (line.next().is_none() || line.next().is_none())
}

/// What a line says, by the rules `Fields` and `Number`.
pub fn read_turns(line: &mut Fields) -> Result<Turns, OrderWhy>
    ensures turns { result ≡ read_turn_fields line.old.fields }
    ensures range { IfOk result (λ turns. turns.picks ≤ MOST_TURNS) }
{
    let mut all = line.again();
    match turns_of(line) {
        Some(turns) => Ok(turns),
        None if has_turn_fields(&mut all) => Err(OrderWhy::Number),
        None => Err(OrderWhy::Fields),
    }
}
