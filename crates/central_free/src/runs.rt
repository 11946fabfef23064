//! Several objects of one span, taken one after another.
ghost use Rattle.std.specs.Prelude.{◌≡◌, ◌+◌, ◌≤◌, ◌++◌, Bool, All, count_by, length, min};
ghost use Rattle.tc_units.specs.declared.units.Addr.{Addr};
ghost use Rattle.span_list.specs.Span.{free_count, free_objects, IsTaken};
ghost use Rattle.central_free.specs.Central.{AreDifferent};
ghost use Rattle.central_free.specs.Runs.{given_by, span_after};

use span_list::Span;
use tc_units::{Addr, Bag};

/// Takes up to `n` objects of a span, and says how many came.
pub fn take_some(span: &mut Span, n: u32, out: &mut Bag<Addr>) -> u32
    requires { n ≤ out.old.spare }
    ensures count { result ≡ min n (free_count span.old) }
    ensures span { span.new ≡ span_after result span.old }
    ensures out { out.new.items ≡ out.old.items ++ given_by result span.old }
    ensures came { length (given_by result span.old) ≡ result }
    ensures spare { out.new.spare + result ≡ out.old.spare }

    // They are different ones that weren't taken before and are now, as are those that were.
    ensures given { All (IsTaken span.new) (given_by result span.old) }
    ensures fresh { All (λ a. ¬ (IsTaken span.old a)) (given_by result span.old) }
    ensures different { AreDifferent (given_by result span.old) }
    ensures kept { (a : Addr) → IsTaken span.old a → IsTaken span.new a }

    // Objects move from the span to the list.
    ensures moves { (test : Addr → Bool) → count_by test (free_objects span.new) + count_by test out.new.items
        ≡ count_by test (free_objects span.old) + count_by test out.old.items }
{
    let count = n.min(span.free());
    for _came in 0..count {
        if let Some(object) = span.take() {
            out.push(object);
        }
    }
    count
}
