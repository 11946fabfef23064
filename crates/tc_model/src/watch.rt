//! What watches a run: it is told of each pick that moves.
ghost use Rattle.std.specs.Prelude.{◌≡◌, ℕ, List, [], ◌∷◌, ◌++◌, Some, slice_get};
ghost use Rattle.tc_model.specs.Run.{run};
ghost use Rattle.tc_model.specs.Sound.{IsOrder};

use crate::machine::Machine;

/// Watches the picks of a run.
pub trait Watch<M: Machine> {
    /// With what it began.
    type Origin;

    ghost origin: { Self → Self.Origin };

    // What it is behind the picks of an order.
    ghost behind: { M → List ℕ → Self → Type 0 };

    /// A thread's pick moves, behind the picks of an order, and leaves this local.
    fn pass(&mut self, machine: &M, order: &[u16], thread: u16, local: &M::Local)
        requires order { IsOrder (M.rules machine.now) (order.now ++ thread ∷ []) }
        requires local { slice_get (run (M.rules machine.now) (order.now ++ thread ∷ [])).locals thread ≡ Some local.now }
        requires behind { behind machine.now order.now self.old }
        ensures origin { origin self.new ≡ origin self.old }
        ensures behind { behind machine.now (order.now ++ thread ∷ []) self.new };
}

/// Watches nothing.
#[derive(Drop)]
pub struct Unwatched;

impl<M: Machine> Watch<M> for Unwatched {
    type Origin = ();

    ghost use Rattle.std.specs.Prelude.{⊤};

    ghost origin = { λ unwatched. tt };

    ghost behind = { λ machine order unwatched. ⊤ };

    #[inline(always)]
    fn pass(&mut self, _machine: &M, _order: &[u16], _thread: u16, _local: &M::Local) {}
}
