//! A front-end that meets its law: what it keeps, which calls it takes, and what holds of the allocator over it.
ghost use Rattle.std.specs.Prelude.{◌≡◌, ℕ, Bool, List};
ghost use Rattle.tc_model.specs.declared.calls.Call.{Call as Calling};
ghost use Rattle.tc_model.specs.Input.{Input};
ghost use Rattle.call_steps.specs.declared.setting.Setting.{Setting as Under};
ghost use Rattle.alloc_rules.specs.Standings.{Standing};
ghost use Rattle.alloc_rules.specs.Valid.{AreLimits};
ghost use Rattle.alloc_rules.specs.Inputs.{IsValidInput, setting_of, not_taken};
ghost use Rattle.alloc_rules.specs.Law.{HoldsAfter, AreLawful};

use call_steps::FrontEnd;
use tc_model::Call;

/// A front-end over which the allocator is lawful, in every order of its threads' picks.
pub trait LawfulFront: FrontEnd {
    // The calls that it takes. What else a trace asks for is no call of this front-end.
    ghost takes: { Calling → Bool };

    // Its own invariant after so many picks: of its parts, and of the threads as it sees them.
    ghost keeps: { Under → ℕ → List Self.Part → List (Standing Self.Seat Self.Row) → Type 0 };

    // All that holds after the picks of an order: what does over any front-end, and what does over this one alone.
    ghost after: { Input → List ℕ → Type 0 };

    /// Whether it takes a call.
    fn can_take(call: Call) -> bool
        ensures { result ≡ takes call };

    ghost shared: { (input : Input) (order : List ℕ) → after input order → HoldsAfter (Self.rules (setting_of input)) Self.about (keeps (setting_of input)) input.asked order };

    // It opens under the heads of every trace.
    ghost opens: { (setting : Under) → AreLimits setting.config → Self.can_open setting };

    // For every valid input whose calls it takes, the allocator over it is lawful.
    ghost lawful: { (input : Input) → IsValidInput input → not_taken takes input.asked.calls ≡ 0 → AreLawful (Self.rules (setting_of input)) Self.about input.asked (Self.fits (setting_of input)) (after input) };
}
