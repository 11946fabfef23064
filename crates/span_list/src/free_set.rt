//! Which objects of a span are free, as words of bits.
ghost use Rattle.std.specs.Prelude.{◌≡◌, ◌<◌, ◌^◌, true, false, length, replicate, slice_set, position, IfOk};

use std::alloc::{AllocError, Global};
use std::marker::Model;

/// One truth value for each object: whether it is free. Bit `i % 64` of word `i / 64` is set where
/// object `i` is taken.
#[derive(Drop)]
pub struct FreeSet {
    taken: Vec<u64>,
    len: u32,
}

impl Model for FreeSet {
    ghost use Rattle.std.specs.Prelude.{ℕ, Bool, List, ◌+◌, ◌*◌, ◌≤◌, ◌<◌, ◌^◌, vec_len};
    ghost use Rattle.span_list.specs.Bits.{clear_bits};

    ghost Value = { List Bool };

    ghost view = { λ s. clear_bits s.taken.items s.len };

    ghost invariant = { λ s. (s.len ≤ 64 * vec_len s.taken) × (64 * vec_len s.taken < s.len + 64) × (s.len < 2 ^ 32) };
}

impl FreeSet {
    /// A set of `len` objects, all of them free.
    pub fn all(alloc: Global, len: u32) -> Result<Self, AllocError>
        ensures { IfOk result (λ set. set ≡ replicate len true) }
    {
        Ok(FreeSet {
            taken: vec![in alloc; 0; (len as usize).div_ceil(64)]?,
            len,
        })
    }

    /// How many objects there are, free or not.
    pub fn len(&self) -> u32
        ensures { result ≡ length self.now }
    {
        self.len
    }

    /// The free object of least index.
    pub fn first(&self) -> Option<u32>
        ensures { result ≡ position (λ free. free) self.now }
    {
        for (place, word) in self.taken.iter().enumerate() {
            if *word != u64::MAX {
                let index = 64 * place + word.trailing_ones() as usize;
                return if index < self.len as usize {
                    Some(index as u32)
                } else {
                    None
                };
            }
        }
        None
    }

    /// Marks an object as taken.
    pub fn take(&mut self, index: u32)
        requires { index < length self.old }
        ensures { self.new ≡ slice_set self.old index false }
    {
        self.taken[index as usize / 64] |= 1 << (index % 64);
    }

    /// Marks an object as free.
    pub fn put(&mut self, index: u32)
        requires { index < length self.old }
        ensures { self.new ≡ slice_set self.old index true }
    {
        self.taken[index as usize / 64] &= !(1 << (index % 64));
    }
}
