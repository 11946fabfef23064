//! A list of which only the last item stays in memory.
ghost use Rattle.std.specs.Prelude.{◌≡◌, ◌+◌, ◌-◌, ◌<◌, [], ◌∷◌, ◌++◌, length, slice_get};

use crate::log::Log;
use std::marker::Model;

/// Items in order, oldest first, of which the last one alone is in memory, and room for a number of further ones. Contracts see
/// it as they see a bag.
#[derive(Drop)]
pub struct Tail<T> {
    past: Log<T>,
    last: Option<T>,
    len: usize,
    room: usize,
}

impl<T> Model for Tail<T> {
    ghost use Rattle.std.specs.Prelude.{◌≡◌, ◌-◌, ◌≤◌, ◌++◌, [], length, None};
    ghost use Rattle.std.specs.Option.{option_to_list};
    ghost use Rattle.tc_units.specs.Bag.{Contents};

    ghost Value = { Contents T };

    ghost view = { λ t. record { items = t.past.items ++ option_to_list t.last; spare = t.room - t.len } };

    ghost invariant = { λ t. (t.len ≡ length (t.past.items ++ option_to_list t.last)) × (t.len ≤ t.room) × (t.last ≡ None → t.past.items ≡ []) };
}

impl<T: Copy> Tail<T> {
    /// No item, and room for `room` items, which takes no memory.
    pub fn open(room: usize) -> Self
        ensures items { result.items ≡ [] }
        ensures spare { result.spare ≡ room }
    {
        Tail {
            past: Log::new(),
            last: None,
            len: 0,
            room,
        }
    }

    /// Appends an item.
    pub fn push(&mut self, item: T)
        requires { 0 < self.old.spare }
        ensures items { self.new.items ≡ self.old.items ++ item ∷ [] }
        ensures spare { self.new.spare + 1 ≡ self.old.spare }
    {
        if let Some(last) = &self.last {
            self.past = self.past.with(last);
        }
        self.last = Some(item);
        self.len += 1;
    }

    /// How many items there are.
    pub fn count(&self) -> usize
        ensures { result ≡ length self.now.items }
    {
        self.len
    }

    /// The last item.
    pub fn last(&self) -> Option<T>
        ensures { result ≡ slice_get self.now.items (length self.now.items - 1) }
    {
        self.last
    }
}
