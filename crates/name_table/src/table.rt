//! Labels, each published at most once and taken at most once.
ghost use Rattle.std.specs.Prelude.{◌≡◌, ◌≢◌, ◌<◌, ◌↔◌, false, length, replicate, slice_set, IfOk};
ghost use Rattle.name_table.specs.Names.{state_of, was_published, TakesName};

use std::alloc::{AllocError, Global};
use std::marker::Model;
use tc_units::{Addr, Label};

/// What a label means.
#[derive(Clone, Copy, Debug, PartialEq, Eq)]
pub enum NameState {
    /// Nothing yet.
    Unpublished,
    /// An address, or null.
    Published(Option<Addr>),
    /// Nothing any more.
    Taken,
}

/// What taking a label gave.
#[derive(Clone, Copy, Debug, PartialEq, Eq)]
pub enum Taken {
    /// The value with which it was published.
    Set(Option<Addr>),
    /// It is not published yet.
    NotYet,
}

/// Where a label stands. The address of one that stands at an address lies beside it.
#[derive(Clone, Copy, PartialEq, Eq)]
enum Slot {
    Unpublished,
    Null,
    At,
    Taken,
}

/// The states of the labels from 0 on. They are kept in two lists, of which the small one answers most questions.
#[derive(Drop)]
pub struct NameTable {
    slots: Vec<Slot>,
    addrs: Vec<Addr>,
}

impl Model for NameTable {
    ghost use Rattle.std.specs.Prelude.{◌≡◌, List, length};
    ghost use Rattle.name_table.specs.declared.table.NameState.{NameState};
    ghost use Rattle.name_table.specs.Names.{meanings};

    ghost Value = { List NameState };

    ghost view = { λ t. meanings t.slots.items t.addrs.items };

    ghost invariant = { λ t. length t.addrs.items ≡ length t.slots.items };
}

impl NameTable {
    /// A table of labels below `labels`, none of which is published.
    pub fn open(alloc: Global, labels: u32) -> Result<Self, AllocError>
        ensures { IfOk result (λ names. names ≡ replicate labels NameState.Unpublished) }
    {
        Ok(NameTable {
            slots: vec![in alloc; Slot::Unpublished; labels as usize]?,
            addrs: vec![in alloc; Addr(0); labels as usize]?,
        })
    }

    /// Whether a label was published. It may have been taken since.
    pub fn is_published(&self, label: Label) -> bool
        requires { label.0 < length self.now }
        ensures published { result ≡ was_published (state_of self.now label.0) }
        ensures unpublished { (result ≡ false) ↔ (state_of self.now label.0 ≡ NameState.Unpublished) }
    {
        self.slots[label.0 as usize] != Slot::Unpublished
    }

    /// Gives a label its value.
    pub fn publish(&mut self, label: Label, value: Option<Addr>)
        requires below { label.0 < length self.old }
        requires unpublished { state_of self.old label.0 ≡ NameState.Unpublished }
        ensures { self.new ≡ slice_set self.old label.0 (NameState.Published value) }
    {
        let place = label.0 as usize;
        match value {
            Some(addr) => {
                self.addrs[place] = addr;
                self.slots[place] = Slot::At;
            }
            None => self.slots[place] = Slot::Null,
        }
    }

    /// Takes the value of a label, if it is published.
    pub fn take(&mut self, label: Label) -> Taken
        requires below { label.0 < length self.old }
        requires not_taken { state_of self.old label.0 ≢ NameState.Taken }
        ensures not_yet { (result ≡ Taken.NotYet) ↔ (state_of self.old label.0 ≡ NameState.Unpublished) }
        ensures taken { TakesName self.old self.new label.0 result }
    {
        let place = label.0 as usize;
        let value = match self.slots[place] {
            Slot::At => Some(self.addrs[place]),
            Slot::Null => None,
            Slot::Unpublished | Slot::Taken => return Taken::NotYet,
        };
        self.slots[place] = Slot::Taken;
        Taken::Set(value)
    }
}

#[cfg(test)]
mod tests {
    use super::*;
    use std::test::Fail;

    #[test]
    fn gives_each_value_once(rt: HostRuntime) -> Result<(), Fail> {
        for value in [Some(Addr(8192)), None] {
            let mut names = NameTable::open(rt.alloc(), 2)?;
            assert!(rt; !names.is_published(Label(1)));
            assert_eq!(rt; names.take(Label(1)), Taken::NotYet);
            names.publish(Label(1), value);
            assert!(rt; names.is_published(Label(1)));
            assert_eq!(rt; names.take(Label(1)), Taken::Set(value));
            assert!(rt; names.is_published(Label(1)));
            assert!(rt; !names.is_published(Label(0)));
        }
        Ok(())
    }
}
