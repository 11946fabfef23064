//! What the allocations were answered, by their labels.
ghost use Rattle.std.specs.Prelude.{ℕ, ◌≡◌, ◌==◌, [], OnOk, if◌then◌else◌};
ghost use Rattle.journal_audit.specs.Given.{given_at};

use std::alloc::{AllocError, Global};
use std::marker::Model;
use tc_units::Label;

/// What a label's allocation was answered.
#[derive(Clone, Copy)]
pub enum Given {
    /// Nothing yet.
    Unanswered,
    /// That there is no block.
    Null,
    /// A block at this address.
    At(u64),
    /// What a free has given back.
    Freed,
}

/// What each label's allocation was answered; with a label behind the last one, nothing yet.
#[derive(Drop)]
pub struct Answers {
    given: Vec<Given>,
}

impl Model for Answers {
    ghost use Rattle.std.specs.Prelude.{List};
    ghost use Rattle.journal_audit.specs.declared.answers.Given.{Given as Seen};

    ghost Value = { List Seen };

    ghost view = { λ s. s.given.items };
}

impl Answers {
    /// No answers.
    pub fn new(alloc: Global) -> Self
        ensures { result ≡ [] }
    {
        Answers {
            given: Vec::new(alloc),
        }
    }

    pub fn get(&self, label: Label) -> Given
        ensures { result ≡ given_at self.now label.0 }
    {
        match self.given.get(label.0 as usize) {
            Some(given) => *given,
            None => Given::Unanswered,
        }
    }

    pub fn set(&mut self, label: Label, now: Given) -> Result<(), AllocError>
        ensures { OnOk result ((l : ℕ) → given_at self.new l ≡ (if l == label.0 then now else given_at self.old l)) }
    {
        let place = label.0 as usize;
        if place >= self.given.len() {
            self.given.resize(place + 1, Given::Unanswered)?;
        }
        self.given[place] = now;
        Ok(())
    }
}
