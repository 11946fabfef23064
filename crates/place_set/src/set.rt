//! A set of places below a limit.
#![tactic(auto, using(crate::proofs::Trees::row_size, crate::proofs::Trees::read_in, crate::proofs::Trees::row_put, crate::proofs::Trees::first_as, crate::proofs::Trees::last_as))]

ghost use Rattle.std.specs.Prelude.{◌≡◌, ◌*◌, ◌-◌, ◌<◌, ◌^◌, true, false, length, replicate, slice_set, IfOk};
ghost use Rattle.std.specs.List.{slice_index_or};
ghost use Rattle.place_set.specs.Places.{IsLast, IsFirst};

use crate::level::Level;
use crate::tree::{self, first_in, last_in, put_in};
use std::alloc::{AllocError, Global};
use std::marker::Model;

/// Which of 64 places a word are in the set. Contracts see a truth value for each place, in order. Each
/// call touches at most two words of each level, and there are as many levels as the count of places has
/// digits to the base of 64.
#[derive(Drop)]
pub struct PlaceSet {
    levels: Vec<Level>,
}

impl Model for PlaceSet {
    ghost use Rattle.std.specs.Prelude.{List, Bool};
    ghost use Rattle.place_set.specs.Tree.{row_at, IsTree};

    ghost Value = { List Bool };

    ghost view = { λ s. row_at s.levels.items };

    ghost invariant = { λ s. IsTree s.levels.items };
}

impl PlaceSet {
    /// A set without places, of 64 places a word.
    pub fn open(alloc: Global, words: usize) -> Result<Self, AllocError>
        requires some { 0 < words }
        requires few { 64 * words < 2 ^ 64 }
        ensures { IfOk result (λ set. set ≡ replicate (64 * words) false) }
    {
        Ok(PlaceSet {
            levels: tree::open(alloc, words)?,
        })
    }

    /// How many places there are.
    pub fn places(&self) -> usize
        ensures { result ≡ length self.now }
    {
        tree::places(&self.levels)
    }

    /// Whether a place is in the set.
    pub fn has(&self, place: usize) -> bool
        requires { place < length self.now }
        ensures { result ≡ slice_index_or self.now place false }
    {
        tree::has(&self.levels, place)
    }

    /// Puts a place into the set.
    pub fn insert(&mut self, place: usize)
        requires { place < length self.old }
        ensures { self.new ≡ slice_set self.old place true }
    {
        put_in(&mut self.levels, place, true);
    }

    /// Takes a place out.
    pub fn remove(&mut self, place: usize)
        requires { place < length self.old }
        ensures { self.new ≡ slice_set self.old place false }
    {
        put_in(&mut self.levels, place, false);
    }

    /// The last place of the set at or before a place.
    pub fn last_at_or_before(&self, place: usize) -> Option<usize>
        requires { place < length self.now }
        ensures { IsLast (λ k. slice_index_or self.now k false) 0 place result }
    {
        last_in(&self.levels, place)
    }

    /// The first place of the set at or behind a place.
    pub fn first_at_or_after(&self, place: usize) -> Option<usize>
        requires { place < length self.now }
        ensures { IsFirst (λ k. slice_index_or self.now k false) place (length self.now - 1) result }
    {
        first_in(&self.levels, place)
    }
}
