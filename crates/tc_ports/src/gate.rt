//! Where a run of threads may be held between two turns.
use tc_units::ThreadNo;

/// A gate that each thread passes before each of its turns.
pub trait Gate {
    ghost use Rattle.std.specs.Prelude.{ℕ};
    ghost use Rattle.tc_units.specs.declared.units.ThreadNo.{ThreadNo};

    // It has let a thread take the turn of a number, when so many of its calls had ended. Only `pass` says so.
    ghost has_let: { Self → ThreadNo → ℕ → ℕ → Type 0 };

    /// Called by a thread before a turn, with how many of its calls have ended. A gate may take its time: when it comes
    /// back, it has let the thread take that turn.
    fn pass(&self, thread: ThreadNo, turn: u64, done: u64)
        ensures { has_let self.now thread turn done };
}

/// A gate that holds no one.
#[derive(Clone, Copy, Debug, PartialEq, Eq)]
pub struct OpenGate;

impl Gate for OpenGate {
    ghost use Rattle.std.specs.Prelude.{⊤};

    ghost has_let = { λ gate thread turn done. ⊤ };

    fn pass(&self, _thread: ThreadNo, _turn: u64, _done: u64) {}
}
