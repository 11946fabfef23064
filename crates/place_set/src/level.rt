//! One level of the tree: a bit for each place, 64 in a word.
#![tactic(auto, using(crate::proofs::Trees::put_place, crate::proofs::Trees::any_of))]

ghost use Rattle.std.specs.Prelude.{◌≡◌, ℕ, ◌+◌, ◌*◌, ◌/◌, ◌<◌, ◌^◌, ◌==◌, length, replicate, vec_len, if◌then◌else◌, IfOk};
ghost use Rattle.range_bits.specs.Words.{is_marked};
ghost use Rattle.place_set.specs.Places.{HasAny, IsLast, IsFirst};

use range_bits::{end_bit, next_bit, with_bit};
use std::alloc::{AllocError, Global};

/// Places in words.
#[derive(Drop)]
pub(crate) struct Level {
    words: Vec<u64>,
    ghost few: { 64 * vec_len words < 2 ^ 64 },
}

impl Level {
    /// Words none of whose places is in the set.
    pub(crate) fn open(alloc: Global, words: usize) -> Result<Self, AllocError>
        requires { 64 * words < 2 ^ 64 }
        ensures { IfOk result (λ level. level.words.items ≡ replicate words 0) }
    {
        Ok(Level {
            words: vec![in alloc; 0; words]?,
        })
    }

    /// How many words there are.
    pub(crate) fn len(&self) -> usize
        ensures { result ≡ length self.now.words.items }
    {
        self.words.len()
    }

    /// How many places there are.
    pub(crate) fn places(&self) -> usize
        ensures { result ≡ 64 * length self.now.words.items }
    {
        self.words.len() * 64
    }

    /// Whether a place is in the set.
    pub(crate) fn has(&self, place: usize) -> bool
        requires { place < 64 * length self.now.words.items }
        ensures { result ≡ is_marked self.now.words.items place }
    {
        self.words[place / 64] >> (place % 64) & 1 == 1
    }

    /// Whether a place of a word is in the set.
    pub(crate) fn has_any(&self, index: usize) -> bool
        requires { index < length self.now.words.items }
        ensures { HasAny (is_marked self.now.words.items) index result }
    {
        self.words[index] != 0
    }

    /// Puts a place into the set, or takes it out. Says whether a place of its word is in the set then.
    pub(crate) fn put(&mut self, place: usize, is_in: bool) -> bool
        requires { place < 64 * length self.old.words.items }
        ensures size { length self.new.words.items ≡ length self.old.words.items }
        ensures places { (k : ℕ) → is_marked self.new.words.items k
            ≡ (if k == place then is_in else is_marked self.old.words.items k) }
        ensures any { HasAny (is_marked self.new.words.items) (place / 64) result }
    {
        let index = place / 64;
        let bit = (place % 64) as u32;
        self.words[index] = with_bit(self.words[index], bit, is_in);
        self.has_any(index)
    }

    /// The last place of the set in a place's word, at or before it.
    pub(crate) fn last(&self, place: usize) -> Option<usize>
        requires { place < 64 * length self.now.words.items }
        ensures { IsLast (is_marked self.now.words.items) (64 * (place / 64)) place result }
    {
        let index = place / 64;
        let end = end_bit(self.words[index], (place % 64) as u32 + 1, true);
        if end == 0 {
            return None;
        }
        Some(index * 64 + (end as usize - 1))
    }

    /// The first place of the set in a place's word, at or behind it.
    pub(crate) fn first(&self, place: usize) -> Option<usize>
        requires { place < 64 * length self.now.words.items }
        ensures { IsFirst (is_marked self.now.words.items) place (64 * (place / 64) + 63) result }
    {
        let index = place / 64;
        let bit = next_bit(self.words[index], (place % 64) as u32, true);
        if bit == 64 {
            return None;
        }
        Some(index * 64 + bit as usize)
    }
}
