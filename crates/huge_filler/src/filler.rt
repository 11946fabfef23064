//! The filler: the measures of each hugepage, and two lists of hugepages in the orders of choice.
ghost use Rattle.std.specs.Prelude.{◌≡◌, ℕ, ◌<◌, ◌≤◌, Some, None, length, replicate, IfOk, IfSome, IfNone};
ghost use Rattle.huge_filler.specs.declared.measures.Measures.{Measures};
ghost use Rattle.huge_filler.specs.Measures.{measures_at, with_measures, donated_free, IsPreferred, IsCandidate};

use crate::giving_order::GivingOrder;
use crate::measures::{Measures, NO_TIER, free_of_donated, key_of};
use crate::preferred::first_of_tier;
use huge_index::HugeIndex;
use std::alloc::{AllocError, Global};
use std::marker::Model;
use tc_units::Huge;

/// The filler of Temeraire: hugepages that serve runs below a hugepage. What each of them is stands
/// elsewhere; the filler is told its measures, and chooses by them. Contracts see the measures of each
/// hugepage of the arena, and none where it isn't the filler's. The order of choice is this project's own.
#[derive(Drop)]
pub struct HugeFiller {
    /// What hugepages of the arena measure, with the order in which they give pages up.
    giving: GivingOrder,
    /// All of them in the order of preference.
    index: HugeIndex,
    /// Free pages of donated hugepages.
    donated_free: u64,
}

impl Model for HugeFiller {
    ghost use Rattle.std.specs.Prelude.{List, Option};
    ghost use Rattle.huge_filler.specs.declared.measures.Measures.{Measures};
    ghost use Rattle.huge_filler.specs.Keys.{IsKept};

    ghost Value = { List (Option Measures) };

    ghost view = { λ f. f.giving.rows };

    ghost invariant = { λ f. IsKept f.giving.rows f.index.keys f.donated_free };
}

impl HugeFiller {
    /// A filler without hugepages, over an arena of `huge` of them, numbered from 1.
    pub fn open(alloc: Global, huge: u32) -> Result<Self, AllocError>
        requires { huge ≤ 4096 }
        ensures { IfOk result (λ f. f ≡ replicate huge None) }
    {
        let mut index = HugeIndex::open(alloc, huge as usize)?;
        for place in 0..huge {
            index.insert(NO_TIER, 0, 0, Huge(place as u16 + 1));
        }
        Ok(HugeFiller {
            giving: GivingOrder::open(alloc, huge)?,
            index,
            donated_free: 0,
        })
    }

    /// Tells what a hugepage measures now, or that it isn't the filler's.
    pub fn set(&mut self, huge: Huge, measures: Option<Measures>)
        requires low { 0 < huge.0 }
        requires high { huge.0 ≤ length self.old }
        requires tier { IfSome measures (λ its. its.tier ≤ 2) }
        ensures { self.new ≡ with_measures self.old huge.0 measures }
    {
        let before = self.giving.at(huge);
        if before.is_none() && measures.is_none() {
            return;
        }
        self.index
            .rekey(key_of(huge, before), key_of(huge, measures));
        self.donated_free = self.donated_free - free_of_donated(before) + free_of_donated(measures);
        self.giving.set(huge, measures);
    }

    /// Free pages of donated hugepages.
    pub fn donated_free(&self) -> u64
        ensures { result ≡ donated_free self.now }
    {
        self.donated_free
    }

    /// The hugepage that is preferred for `n` pages: of those with so many adjacent unused ones by least
    /// tier, then by least longest range, then by most runs, then by least number.
    pub fn preferred(&self, n: u32) -> Option<Huge>
        ensures found { IfSome result (IsPreferred self.now n) }
        ensures none { IfNone result ((h : ℕ) (its : Measures) → measures_at self.now h ≡ Some its → its.longest < n) }
    {
        for tier in 0..NO_TIER {
            if let Some(huge) = first_of_tier(&self.index, tier, n) {
                return Some(huge);
            }
        }
        None
    }

    /// The hugepage that gives pages up first: of those with a backed page that isn't used, the one with
    /// fewest used pages, ties by greatest number.
    pub fn candidate(&mut self) -> Option<Huge>
        ensures same { self.new ≡ self.old }
        ensures found { IfSome result (IsCandidate self.old) }
        ensures none { IfNone result ((h : ℕ) (its : Measures) → measures_at self.old h ≡ Some its → its.spare ≡ 0) }
    {
        self.giving.candidate()
    }
}
