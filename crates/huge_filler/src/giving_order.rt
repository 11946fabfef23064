//! Which hugepage of the filler gives pages up first: a list that follows what hugepages measure when it is asked.
ghost use Rattle.std.specs.Prelude.{◌≡◌, ℕ, ◌-◌, ◌<◌, ◌≤◌, false, Some, None, length, replicate, slice_set, IfOk, IfSome, IfNone};
ghost use Rattle.std.specs.List.{slice_index_or};
ghost use Rattle.huge_filler.specs.declared.measures.Measures.{Measures};
ghost use Rattle.huge_filler.specs.Measures.{measures_at, with_measures, IsCandidate};
ghost use Rattle.place_set.specs.Places.{IsFirstAt};

use crate::giver::Giver;
use crate::measures::{Measures, giver_of};
use place_set::PlaceSet;
use sorted_list::SortedList;
use std::alloc::{AllocError, Global};
use std::marker::Model;
use tc_units::Huge;

/// What hugepages measure, of hugepage `h` at place `h - 1`, with the order in which they give pages up. Contracts see
/// the measures. Most that a hugepage measures is past before the order is asked for: it follows then.
#[derive(Drop)]
pub(crate) struct GivingOrder {
    rows: Vec<Option<Measures>>,
    /// What they measured when the list was told.
    told: Vec<Option<Measures>>,
    list: SortedList<Giver>,
    /// The places where they may measure something else now.
    stale: PlaceSet,
}

impl Model for GivingOrder {
    ghost use Rattle.huge_filler.specs.Keys.{Giving, IsFollowed};

    ghost Value = { Giving };

    ghost view = { λ g. record { rows = g.rows.items; stale = g.stale } };

    ghost invariant = { λ g. IsFollowed g.rows.items g.told.items g.list.keys g.stale };
}

impl GivingOrder {
    /// None of `huge` hugepages measures anything.
    pub(crate) fn open(alloc: Global, huge: u32) -> Result<Self, AllocError>
        requires { huge ≤ 4096 }
        ensures { IfOk result (λ giving. giving.rows ≡ replicate huge None) }
    {
        let mut list = SortedList::open(alloc, huge as usize)?;
        let mut rows = Vec::with_capacity(alloc, huge as usize)?;
        let mut told = Vec::with_capacity(alloc, huge as usize)?;
        for place in 0..huge {
            list.insert(giver_of(Huge(place as u16 + 1), None));
            rows.push(None)?;
            told.push(None)?;
        }
        Ok(GivingOrder {
            rows,
            told,
            list,
            stale: PlaceSet::open(alloc, huge as usize / 64 + 1)?,
        })
    }

    /// What a hugepage measures.
    pub(crate) fn at(&self, huge: Huge) -> Option<Measures>
        requires low { 0 < huge.0 }
        requires high { huge.0 ≤ length self.now.rows }
        ensures { result ≡ measures_at self.now.rows huge.0 }
    {
        self.rows[usize::from(huge.0) - 1]
    }

    /// Tells what a hugepage measures now.
    pub(crate) fn set(&mut self, huge: Huge, measures: Option<Measures>)
        requires low { 0 < huge.0 }
        requires high { huge.0 ≤ length self.old.rows }
        ensures { self.new.rows ≡ with_measures self.old.rows huge.0 measures }
    {
        let place = usize::from(huge.0) - 1;
        self.rows[place] = measures;
        if !self.stale.has(place) {
            self.stale.insert(place);
        }
    }

    /// The first place from one on where the list doesn't follow yet.
    fn next_stale(&self, from: usize) -> Option<usize>
        requires { from ≤ length self.now.rows }
        ensures found { IfSome result (IsFirstAt (λ k. slice_index_or self.now.stale k false) from (length self.now.rows - 1)) }
        ensures inside { IfSome result (λ place. place < length self.now.rows) }
        ensures few { length self.now.rows ≤ 4096 }
        ensures none { result ≡ None → (k : ℕ) → from ≤ k → slice_index_or self.now.stale k false ≡ false }
    {
        self.stale.first_at_or_after(from)
    }

    /// The list is told what the hugepage at a place measures.
    fn tell(&mut self, place: usize)
        requires { place < length self.old.rows }
        ensures rows { self.new.rows ≡ self.old.rows }
        ensures stale { self.new.stale ≡ slice_set self.old.stale place false }
    {
        let before = self.told[place];
        let after = self.rows[place];
        let huge = Huge(place as u16 + 1);
        self.list
            .rekey(giver_of(huge, before), giver_of(huge, after));
        self.told[place] = after;
        self.stale.remove(place);
    }

    /// The list is told all that it doesn't follow yet.
    fn catch_up(&mut self)
        ensures rows { self.new.rows ≡ self.old.rows }
        ensures stale { (k : ℕ) → slice_index_or self.new.stale k false ≡ false }
    {
        let mut from = 0;
        while let Some(place) = self.next_stale(from) {
            self.tell(place);
            from = place + 1;
        }
    }

    /// The hugepage that gives pages up first: of those with a backed page that isn't used, the one with
    /// fewest used pages, ties by greatest number.
    pub(crate) fn candidate(&mut self) -> Option<Huge>
        ensures rows { self.new.rows ≡ self.old.rows }
        ensures found { IfSome result (IsCandidate self.old.rows) }
        ensures none { IfNone result ((h : ℕ) (its : Measures) → measures_at self.old.rows h ≡ Some its → its.spare ≡ 0) }
    {
        self.catch_up();
        self.first_giver()
    }

    /// The same, where the list follows already.
    fn first_giver(&self) -> Option<Huge>
        requires { (k : ℕ) → slice_index_or self.now.stale k false ≡ false }
        ensures found { IfSome result (IsCandidate self.now.rows) }
        ensures none { IfNone result ((h : ℕ) (its : Measures) → measures_at self.now.rows h ≡ Some its → its.spare ≡ 0) }
    {
        match self.list.first() {
            Some(giver) if !giver.spent => Some(giver.huge),
            _ => None,
        }
    }
}
