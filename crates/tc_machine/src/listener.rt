//! Who hears the calls of a run, one after another in the order in which they were decided.
ghost use Rattle.std.specs.Prelude.{◌≡◌, ◌∷◌, ◌++◌, [], List, OnOk};
ghost use Rattle.tc_model.specs.declared.answers.CallLine.{CallLine as Line};

use std::alloc::{AllocError, Global};
use tc_model::CallLine;

/// Hears the calls of a run. It is handed in before the first of them, and comes back behind the last one.
pub trait Listener: Drop {
    // What it is behind these calls, and what it was before them.
    ghost heard: { Self → Self → List Line → Type 0 };

    // Which call it hears behind which others, by what it was before them all.
    ghost may_hear: { Self → List Line → Line → Type 0 };

    /// Hears the next call.
    fn hear(&mut self, line: &CallLine) -> Result<(), AllocError>
        requires { (before : Self) × (earlier : List Line) × heard before self.old earlier × may_hear before earlier line.now }
        ensures { OnOk result ((before : Self) (earlier : List Line) → heard before self.old earlier → may_hear before earlier line.now → heard before self.new (earlier ++ line.now ∷ [])) };
}

/// Two that hear the same calls.
#[derive(Drop)]
pub(crate) struct Both<A: Listener, B: Listener> {
    pub first: A,
    pub second: B,
}

impl<A: Listener, B: Listener> Listener for Both<A, B> {
    ghost heard = { λ before both calls. A.heard before.first both.first calls × B.heard before.second both.second calls };

    ghost may_hear = { λ before earlier line. A.may_hear before.first earlier line × B.may_hear before.second earlier line };

    #[inline(always)]
    fn hear(&mut self, line: &CallLine) -> Result<(), AllocError> {
        self.first.hear(line)?;
        self.second.hear(line)
    }
}

/// Notes each call.
#[derive(Drop)]
pub(crate) struct Noted {
    pub calls: Vec<CallLine>,
}

impl Noted {
    /// None yet.
    pub fn new(alloc: Global) -> Self
        ensures { result.calls.items ≡ [] }
    {
        Noted {
            calls: Vec::new(alloc),
        }
    }
}

impl Listener for Noted {
    ghost use Rattle.std.specs.Prelude.{◌≡◌, ◌++◌, ⊤};

    ghost heard = { λ before noted calls. noted.calls.items ≡ before.calls.items ++ calls };

    ghost may_hear = { λ before earlier line. ⊤ };

    fn hear(&mut self, line: &CallLine) -> Result<(), AllocError> {
        self.calls.push(*line)?;
        Ok(())
    }
}
