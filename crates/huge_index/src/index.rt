//! Keys in the order of preference, in room that is made at the opening.
ghost use Rattle.std.specs.Prelude.{◌≡◌, ◌+◌, ◌-◌, ◌*◌, ◌^◌, ◌<◌, ◌≤◌, ◌↔◌, None, [], ◌∷◌, length, All, Contains, IsPermutation, IfOk, IfSome};

use crate::key::Key;
use sorted_list::{SortedList, Steps};
use std::alloc::{AllocError, Global};
use std::marker::Model;
use std::sync::ledger::Ledger;
use tc_units::Huge;

/// Keys of hugepages. Contracts see them in the order in which they are preferred, and how many more
/// there is room for.
#[derive(Drop)]
pub struct HugeIndex {
    list: SortedList<Key>,
}

impl Model for HugeIndex {
    ghost use Rattle.huge_index.specs.Contents.{Contents, AreCounted};

    ghost Value = { Contents };

    ghost view = { λ i. record { keys = i.list.keys; spare = i.list.spare } };

    ghost invariant = { λ i. AreCounted i.list.keys };
}

impl HugeIndex {
    ghost use Rattle.huge_index.specs.Order.{Serves, IsFirstOf};

    /// An index without keys, with room for `room` of them. Want of memory is answered for more than
    /// 65,536 too.
    pub fn open(alloc: Global, room: usize) -> Result<Self, AllocError>
        ensures keys { IfOk result (λ index. index.keys ≡ []) }
        ensures spare { IfOk result (λ index. index.spare ≡ room) }
    {
        Ok(HugeIndex {
            list: SortedList::open(alloc, room)?,
        })
    }

    /// The first hugepage of a tier whose longest free range has at least `n` pages, in the order of
    /// preference. At most as many keys are read as the number of keys has binary digits.
    pub fn first_from<L: Ledger>(&self, tier: u8, n: u32, steps: &mut Steps<L>) -> Option<Huge>
        ensures found { IfSome result
            (λ huge. (key : Key) × (key.huge ≡ huge) × IsFirstOf self.now.keys tier n key) }
        ensures none { (result ≡ None) ↔ All (λ key. ¬ (Serves tier n key)) self.now.keys }
        ensures counted { steps.old ≤ steps.new }
        ensures cost { 2 ^ (steps.new - steps.old) ≤ 2 * length self.now.keys + 1 }
    {
        let key = self.list.first_from(Key::least(tier, n), steps)?;
        if key.tier == tier {
            Some(key.huge)
        } else {
            None
        }
    }

    /// Adds a hugepage with its measures.
    pub fn insert(&mut self, tier: u8, longest: u32, allocs: u32, huge: Huge)
        requires { 0 < self.old.spare }
        ensures keys { IsPermutation
            (record { tier = tier; longest = longest; allocs = allocs; huge = huge } ∷ self.old.keys)
            self.new.keys }
        ensures held { Contains self.new.keys
            (record { tier = tier; longest = longest; allocs = allocs; huge = huge }) }
        ensures spare { self.new.spare + 1 ≡ self.old.spare }
    {
        self.list.insert(Key {
            tier,
            longest,
            allocs,
            huge,
        });
    }

    /// Puts a hugepage's new measures in place of those that it has here. That is quick where the hugepages were added by
    /// their numbers, from 1 on.
    pub fn rekey(&mut self, from: Key, to: Key)
        requires { Contains self.old.keys from }
        ensures keys { IsPermutation (to ∷ self.old.keys) (from ∷ self.new.keys) }
        ensures held { Contains self.new.keys to }
        ensures spare { self.new.spare ≡ self.old.spare }
    {
        self.list
            .rekey_slot(usize::from(from.huge.0).wrapping_sub(1), from, to);
    }
}
