//! The objects of one size class in a cache, last in, first out.
ghost use Rattle.std.specs.Prelude.{◌≡◌, ◌+◌, ◌<◌, ◌≤◌, ◌^◌, [], ◌++◌, length, min, OnOk, OnErr};
ghost use Rattle.std.specs.Option.{option_to_list};
ghost use Rattle.transfer_cache.specs.Transfer.{last_first, without_last};

use std::alloc::{AllocError, Global};
use std::marker::Model;
use tc_units::{Addr, Bag};

/// Objects of one size, oldest first.
#[derive(Drop)]
pub(crate) struct Stack {
    size: u32,
    objects: Vec<Addr>,
}

impl Model for Stack {
    ghost use Rattle.std.specs.Prelude.{◌<◌, ◌^◌};
    ghost use Rattle.thread_cache.specs.Cache.{Stack};

    ghost Value = { Stack };

    ghost view = { λ s. record { size = s.size; objects = s.objects.items } };

    ghost invariant = { λ s. (0 < s.size) × (s.size < 2 ^ 32) };
}

impl Stack {
    /// No objects, of this size.
    pub fn new(alloc: Global, size: u32) -> Self
        requires { 0 < size }
        ensures { result ≡ record { size = size; objects = [] } }
    {
        Stack {
            size,
            objects: Vec::new(alloc),
        }
    }

    /// The bytes of an object.
    pub fn size(&self) -> u64
        ensures size { result ≡ self.now.size }
        ensures some { 0 < result }
        ensures low { result < 2 ^ 32 }
    {
        u64::from(self.size)
    }

    /// Takes the last object out.
    pub fn pop(&mut self) -> Option<Addr>
        ensures popped { option_to_list result ≡ last_first 1 self.old.objects }
        ensures left { self.new ≡ record self.old { objects = without_last 1 self.old.objects } }
        ensures order { self.old.objects ≡ self.new.objects ++ option_to_list result }
    {
        self.objects.pop()
    }

    /// Appends a list in order.
    pub fn append(&mut self, list: &[Addr]) -> Result<(), AllocError>
        ensures ok { OnOk result (self.new ≡ record self.old { objects = self.old.objects ++ list.now }) }
        ensures err { OnErr result (self.new ≡ self.old) }
    {
        self.objects.extend_from_slice(list)
    }

    /// Takes the last `n` objects out, or all where there are fewer, and appends them to `out`, last first.
    /// Says how many came.
    pub fn take(&mut self, n: u32, out: &mut Bag<Addr>) -> u32
        requires { n ≤ out.old.spare }
        ensures count { result ≡ min n (length self.old.objects) }
        ensures left { self.new ≡ record self.old { objects = without_last n self.old.objects } }
        ensures out { out.new.items ≡ out.old.items ++ last_first n self.old.objects }
        ensures spare { out.new.spare + result ≡ out.old.spare }
    {
        let held = self.objects.len();
        let count = held.min(n as usize);
        for taken in 0..count {
            out.push(self.objects[held - 1 - taken]);
        }
        self.objects.truncate(held - count);
        count as u32
    }
}
