//! The levels of the tree, the lowest first. A place of a level is in the set where a place of its word
//! below is.
#![tactic(auto, using(crate::proofs::Trees::places_are, crate::proofs::Trees::first_none, crate::proofs::Trees::first_some, crate::proofs::Trees::index_inside, crate::proofs::Trees::last_none, crate::proofs::Trees::last_some, crate::proofs::Trees::open_tree))]

ghost use Rattle.std.specs.Prelude.{◌≡◌, ℕ, ◌*◌, ◌-◌, ◌<◌, ◌^◌, ◌==◌, false, if◌then◌else◌, IfOk};
ghost use Rattle.place_set.specs.Places.{IsLast, IsFirst};
ghost use Rattle.place_set.specs.Tree.{has_at, places_of, IsTree};

use crate::level::Level;
use std::alloc::{AllocError, Global};

/// The levels of a tree without places in the set, the lowest of which has so many words.
pub(crate) fn open(alloc: Global, words: usize) -> Result<Vec<Level>, AllocError>
    requires some { 0 < words }
    requires few { 64 * words < 2 ^ 64 }
    ensures tree { IfOk result (λ levels. IsTree levels.items) }
    ensures places { IfOk result (λ levels. places_of levels.items ≡ 64 * words) }
    ensures none { IfOk result (λ levels. (place : ℕ) → has_at levels.items place ≡ false) }
{
    let own = Level::open(alloc, words)?;
    if words == 1 {
        let mut levels = Vec::new(alloc);
        levels.push(own)?;
        return Ok(levels);
    }
    let mut levels = open(alloc, words.div_ceil(64))?;
    levels.insert(0, own)?;
    Ok(levels)
}

/// How many places there are.
pub(crate) fn places(levels: &[Level]) -> usize
    ensures { result ≡ places_of levels.now }
{
    match levels.first() {
        Some(own) => own.places(),
        None => 0,
    }
}

/// Whether a place is in the set.
pub(crate) fn has(levels: &[Level], place: usize) -> bool
    requires { place < places_of levels.now }
    ensures { result ≡ has_at levels.now place }
{
    levels[0].has(place)
}

/// Puts a place into the set, or takes it out. The level above changes where its word comes to have a place, or has
/// none left.
pub(crate) fn put_in(levels: &mut [Level], place: usize, is_in: bool)
    requires tree { IsTree levels.old }
    requires inside { place < places_of levels.old }
    ensures tree { IsTree levels.new }
    ensures size { places_of levels.new ≡ places_of levels.old }
    ensures places { (k : ℕ) → has_at levels.new k ≡ (if k == place then is_in else has_at levels.old k) }
{
    let had_any = levels[0].has_any(place / 64);
    let has_any = levels[0].put(place, is_in);
    if has_any == had_any {
        return;
    }
    if levels.len() > 1 {
        put_in(&mut levels[1..], place / 64, has_any);
    }
}

/// The last place of the set at or before a place.
pub(crate) fn last_in(levels: &[Level], place: usize) -> Option<usize>
    requires tree { IsTree levels.now }
    requires inside { place < places_of levels.now }
    ensures { IsLast (has_at levels.now) 0 place result }
{
    if let Some(last) = levels[0].last(place) {
        return Some(last);
    }
    if place < 64 {
        return None;
    }
    let index = last_in(&levels[1..], place / 64 - 1)?;
    levels[0].last(index * 64 + 63)
}

/// The first place of the set at or behind a place.
pub(crate) fn first_in(levels: &[Level], place: usize) -> Option<usize>
    requires tree { IsTree levels.now }
    requires inside { place < places_of levels.now }
    ensures { IsFirst (has_at levels.now) place (places_of levels.now - 1) result }
{
    if let Some(first) = levels[0].first(place) {
        return Some(first);
    }
    if place / 64 + 1 == levels[0].len() {
        return None;
    }
    let index = first_in(&levels[1..], place / 64 + 1)?;
    levels[0].first(index * 64)
}
