//! Where the answers of a thread's decided calls are kept.
ghost use Rattle.std.specs.Prelude.{◌≡◌, ◌+◌, ◌-◌, ◌<◌, [], ◌∷◌, ◌++◌, length, slice_get, IfOk};
ghost use Rattle.tc_units.specs.Bag.{Contents};
ghost use Rattle.tc_model.specs.declared.answers.Answered.{Answered as Answering};

use std::alloc::{AllocError, Global};
use tc_model::Answered;
use tc_units::{Bag, Tail};

/// The answers of a thread's decided calls, in their order: all of them, or in memory the last one alone, where each is told
/// before the next one comes.
pub trait Answers: Drop {
    // All of them, and the room for further ones.
    ghost all: { Self → Contents Answering };

    /// None, and room for so many.
    fn open(alloc: Global, room: usize) -> Result<Self, AllocError>
        ensures items { IfOk result (λ a. (all a).items ≡ []) }
        ensures spare { IfOk result (λ a. (all a).spare ≡ room) };

    /// One more.
    fn push(&mut self, answered: Answered)
        requires { 0 < (all self.old).spare }
        ensures items { (all self.new).items ≡ (all self.old).items ++ answered ∷ [] }
        ensures spare { (all self.new).spare + 1 ≡ (all self.old).spare };

    /// How many there are.
    fn count(&self) -> usize
        ensures { result ≡ length (all self.now).items };

    /// The last one.
    fn last(&self) -> Option<Answered>
        ensures { result ≡ slice_get (all self.now).items (length (all self.now).items - 1) };
}

/// All of them.
impl Answers for Bag<Answered> {
    ghost all = { λ answers. answers };

    fn open(alloc: Global, room: usize) -> Result<Self, AllocError> {
        Bag::open(alloc, room)
    }

    fn push(&mut self, answered: Answered) {
        self.push(answered);
    }

    fn count(&self) -> usize {
        self.as_slice().len()
    }

    fn last(&self) -> Option<Answered> {
        self.as_slice().last().copied()
    }
}

/// The last one.
impl Answers for Tail<Answered> {
    ghost all = { λ answers. answers };

    fn open(_alloc: Global, room: usize) -> Result<Self, AllocError> {
        Ok(Tail::open(room))
    }

    fn push(&mut self, answered: Answered) {
        self.push(answered);
    }

    fn count(&self) -> usize {
        self.count()
    }

    fn last(&self) -> Option<Answered> {
        self.last()
    }
}
