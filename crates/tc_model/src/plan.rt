//! The calls that a thread plans, in little room.
ghost use Rattle.std.specs.Prelude.{◌≡◌, ◌<◌, ◌≤◌, ◌++◌, ◌∷◌, [], List, length, slice_get, Some, OnOk, OnErr, IfOk};
ghost use Rattle.tc_model.specs.declared.calls.MoveTo.{MoveTo as Move};
ghost use Rattle.tc_model.specs.Plans.{move_of, planned_of};

use crate::calls::{Call, MoveTo, Planned};
use std::alloc::{AllocError, Global};
use std::marker::Model;

/// A call as a plan keeps it. Its move lies apart: `moved` is its number among the plan's moves, from 1, or 0 where it has none.
#[derive(Clone, Copy, Debug, PartialEq, Eq)]
pub struct Entered {
    pub call: Call,
    pub line: u32,
    pub moved: u32,
}

/// Planned calls in their order. Few calls have a move, so that moves lie apart.
#[derive(Drop)]
pub struct Plan {
    calls: Vec<Entered>,
    moves: Vec<MoveTo>,
}

impl Model for Plan {
    ghost use Rattle.std.specs.Prelude.{List};
    ghost use Rattle.tc_model.specs.declared.calls.Planned.{Planned};
    ghost use Rattle.tc_model.specs.Plans.{planned_by, AreNumbered};

    ghost Value = { List Planned };

    ghost view = { λ p. planned_by p.moves.items p.calls.items };

    ghost invariant = { λ p. AreNumbered p.moves.items p.calls.items };
}

impl Plan {
    /// No calls.
    pub fn new(alloc: Global) -> Self
        ensures { result ≡ [] }
    {
        Plan {
            calls: Vec::new(alloc),
            moves: Vec::new(alloc),
        }
    }

    /// How many calls there are.
    pub fn len(&self) -> usize
        ensures { result ≡ length self.now }
    {
        self.calls.len()
    }

    /// The call behind so many others. `None` exactly where no more are planned.
    #[inline(always)]
    pub fn get(&self, place: usize) -> Option<Planned>
        ensures { result ≡ slice_get self.now place }
    {
        let entered = self.calls.get(place)?;
        Some(planned_of(self.moves.as_slice(), entered))
    }

    /// The call behind so many others, where there is one.
    #[inline(always)]
    pub fn at(&self, place: usize) -> Planned
        requires { place < length self.now }
        ensures { Some result ≡ slice_get self.now place }
    {
        planned_of(self.moves.as_slice(), &self.calls[place])
    }

    /// Plans one call more. Where memory is wanting, the calls are as before.
    #[inline(always)]
    pub fn push(&mut self, planned: Planned) -> Result<(), AllocError>
        ensures pushed { OnOk result (self.new ≡ self.old ++ planned ∷ []) }
        ensures same { OnErr result (self.new ≡ self.old) }
    {
        let moved = enter_move(&mut self.moves, planned.moved)?;
        self.calls.push(Entered {
            call: planned.call,
            line: planned.line,
            moved,
        })?;
        Ok(())
    }
}

/// The move of this number, where it isn't 0.
#[inline(always)]
fn move_of(moves: &[MoveTo], number: u32) -> Option<MoveTo>
    ensures { result ≡ move_of moves.now number }
{
    if number == 0 {
        None
    } else {
        moves.get(number as usize - 1).copied()
    }
}

/// An entered call with its move.
#[inline(always)]
fn planned_of(moves: &[MoveTo], entered: &Entered) -> Planned
    ensures { result ≡ planned_of moves.now entered.now }
{
    Planned {
        line: entered.line,
        moved: move_of(moves, entered.moved),
        call: entered.call,
    }
}

/// Enters a move, if there is one, and gives its number.
#[inline(always)]
fn enter_move(moves: &mut Vec<MoveTo>, moved: Option<MoveTo>) -> Result<u32, AllocError>
    ensures more { (more : List Move) × (moves.new.items ≡ moves.old.items ++ more) }
    ensures low { IfOk result (λ n. n ≤ length moves.new.items) }
    ensures is { IfOk result (λ n. move_of moves.new.items n ≡ moved) }
{
    let Some(to) = moved else {
        return Ok(0);
    };
    let before = u32::try_from(moves.len()).map_err(|_| AllocError)?;
    let number = before.checked_add(1).ok_or(AllocError)?;
    moves.push(to)?;
    Ok(number)
}
