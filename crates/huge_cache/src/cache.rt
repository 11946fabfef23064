//! The free hugepages, a place each, with those that are backed.
ghost use Rattle.std.specs.Prelude.{◌≡◌, ℕ, ◌+◌, ◌-◌, ◌*◌, ◌<◌, ◌≤◌, ◌↔◌, true, false, length, map, count_by, option_map, IsNone, IfNone, IfSome, IfOk};
ghost use Rattle.std.specs.Option.{option_or};
ghost use Rattle.range_bits.specs.Ranges.{best, longest, free_from, used_from, used_count};
ghost use Rattle.heap_rules.specs.CacheFlags.{run_choice};

use crate::row::Row;
use crate::stretch::Stretch;
use crate::uses::UseCounts;
use std::alloc::{AllocError, Global};
use std::marker::Model;
use tc_units::Huge;

/// The free hugepages of an arena. Contracts see for each hugepage whether it isn't among them, and
/// whether it isn't there and backed; and the use counts.
#[derive(Drop)]
pub struct HugeCache {
    limit: u32,
    taken: Row,
    unready: Row,
    uses: UseCounts,
}

impl Model for HugeCache {
    ghost use Rattle.huge_cache.specs.Cache.{Cache};
    ghost use Rattle.huge_cache.specs.Rows.{IsSound};

    ghost Value = { Cache };

    ghost view = { λ c. record { most = c.limit; window = c.uses.window; taken = c.taken; unready = c.unready; counts = c.uses.counts } };

    ghost invariant = { λ c. IsSound (record { most = c.limit; window = c.uses.window; taken = c.taken; unready = c.unready; counts = c.uses.counts }) };
}

/// Where a hugepage stands in a row.
fn place_of(huge: Huge) -> u32
    requires { 0 < huge.0 }
    ensures { result ≡ huge.0 - 1 }
{
    u32::from(huge.0) - 1
}

impl HugeCache {
    ghost use Rattle.huge_cache.specs.Cache.{Cache, opened, holds, is_backed, IsLastStretch, with_run, without_run, with_backed_run, with_huge, ready, noted, over_count, without_backing};
    ghost use Rattle.huge_cache.specs.Rows.{IsSound};

    /// All `huge` hugepages free and unbacked, with a limit of backed ones and room for `window` use
    /// counts.
    pub fn open(alloc: Global, huge: u32, limit: u32, window: u32) -> Result<Self, AllocError>
        requires huge { huge ≤ 4096 }
        requires limit { limit ≤ 4096 }
        requires window { window ≤ 65536 }
        ensures { IfOk result (λ c. c ≡ opened huge limit window) }
    {
        Ok(HugeCache {
            limit,
            taken: Row::open(alloc, huge, false)?,
            unready: Row::open(alloc, huge, true)?,
            uses: UseCounts::open(alloc, window)?,
        })
    }

    /// The place of `many` adjacent free hugepages: backed ones where there are.
    fn find_place(&self, many: u32) -> Option<u32>
        requires { 0 < many }
        ensures place { result ≡ option_or (best self.now.unready many) (best self.now.taken many) }
        ensures none { IsNone result ↔ (longest self.now.taken < many) }
        ensures free { IfSome result (λ place. many ≤ free_from self.now.taken place) }
        ensures inside { IfSome result (λ place. place + many ≤ 4096) }
        ensures sound { IsSound self.now }
    {
        match self.unready.best(many) {
            Some(place) => Some(place),
            None => self.taken.best(many),
        }
    }

    /// The first of `many` adjacent free hugepages: where the shortest run of backed ones that is long
    /// enough begins, or, where there is none, that of free ones, backed or not. The order is this
    /// project's own.
    pub fn find_run(&self, many: u32) -> Option<Huge>
        requires { 0 < many }
        ensures place { option_map (λ h. h.0) result
            ≡ run_choice self.now.taken self.now.unready many }
        ensures none { IsNone result ↔ (longest self.now.taken < many) }
        ensures free { IfSome result (λ h. many ≤ free_from self.now.taken (h.0 - 1)) }
        ensures low { IfSome result (λ h. 0 < h.0) }
        ensures sound { IsSound self.now }
    {
        self.find_place(many).map(|place| Huge(place as u16 + 1))
    }

    /// Says of `many` hugepages whether they are out, and whether they are out or unbacked.
    fn put(&mut self, first: Huge, many: u32, taken: bool, unready: bool)
        requires low { 0 < first.0 }
        requires inside { first.0 - 1 + many ≤ length self.old.taken }
        requires some { 0 < many }
        requires sound { taken ≡ true → unready ≡ true }
        requires out { taken ≡ false → many ≤ used_from self.old.taken (first.0 - 1) }
        ensures run { self.new ≡ with_run self.old first.0 many taken unready }
        ensures lengths { length self.old.unready ≡ length self.old.taken }
    {
        let place = place_of(first);
        self.taken.put(place, many, taken);
        self.unready.put(place, many, unready);
    }

    /// Takes `many` free hugepages out.
    pub fn take_out(&mut self, first: Huge, many: u32)
        requires some { 0 < many }
        requires low { 0 < first.0 }
        requires free { many ≤ free_from self.old.taken (first.0 - 1) }
        ensures { self.new ≡ without_run self.old first.0 many }
    {
        self.put(first, many, true, true);
    }

    /// Adds a hugepage.
    #[tactic(auto, using(crate::proofs::Padded::one_place, crate::proofs::Kept::cache_of))]
    pub fn give(&mut self, huge: Huge, backed: bool)
        requires low { 0 < huge.0 }
        requires high { huge.0 ≤ length self.old.taken }
        requires out { holds self.old huge.0 ≡ false }
        ensures { self.new ≡ with_huge self.old huge.0 backed }
    {
        self.put(huge, 1, false, !backed);
    }

    /// Adds `many` adjacent backed hugepages.
    pub fn give_run(&mut self, first: Huge, many: u32)
        requires some { 0 < many }
        requires low { 0 < first.0 }
        requires out { many ≤ used_from self.old.taken (first.0 - 1) }
        ensures { self.new ≡ with_backed_run self.old first.0 many }
    {
        self.put(first, many, false, false);
    }

    /// Adds what a run leaves: `many` adjacent hugepages that it had whole, which are backed, and the last one behind them.
    pub fn give_left(&mut self, first: Huge, many: u32, last: Huge, backed: bool)
        requires low { 0 < first.0 }
        requires behind { first.0 + many ≡ last.0 }
        requires high { last.0 ≤ length self.old.taken }
        requires out { many ≤ used_from self.old.taken (first.0 - 1) }
        requires last { holds self.old last.0 ≡ false }
        ensures { self.new ≡ with_huge (with_backed_run self.old first.0 many) last.0 backed }
    {
        // Both rows are as long.
        let _ = self.in_use();
        if backed {
            self.give_run(first, many + 1);
            return;
        }
        if many > 0 {
            self.give_run(first, many);
        }
        self.give(last, false);
    }

    /// How many hugepages aren't free.
    pub fn in_use(&self) -> u32
        ensures value { result ≡ used_count self.now.taken }
        ensures sound { IsSound self.now }
    {
        self.taken.used()
    }

    /// How many hugepages are free and backed.
    #[tactic(auto, using(crate::proofs::Kept::ready_is))]
    pub fn backed(&self) -> u32
        ensures { result ≡ count_by (λ b. b) (ready self.now) }
    {
        self.unready.free()
    }

    /// How many of the hugepages that are free and backed are above the limit.
    pub fn over(&self) -> u32
        ensures { result ≡ over_count self.now }
    {
        self.backed().saturating_sub(self.uses.limit(self.limit))
    }

    /// The last hugepages that are free, backed and adjacent: as many as there are, and at most so many.
    pub fn last_stretch(&self, most: u64) -> Option<Stretch>
        requires { 0 < most }
        ensures last { IfSome result (IsLastStretch self.now most) }
        ensures none { IfNone result ((h : ℕ) → is_backed self.now h ≡ false) }
    {
        let range = self.unready.last_free()?;
        let many = u64::from(range.len).min(most) as u32;
        Some(Stretch {
            first: Huge((range.start + (range.len - many)) as u16 + 1),
            many,
        })
    }

    /// Takes the backing of adjacent hugepages that are free and backed.
    pub fn unback(&mut self, first: Huge, many: u32)
        requires some { 0 < many }
        requires backed { (h : ℕ) → first.0 ≤ h → h < first.0 + many → is_backed self.old h ≡ true }
        ensures { self.new ≡ without_backing self.old first.0 many }
    {
        self.unready.put(place_of(first), many, true);
    }

    /// Adds a use count: how many hugepages are in use after a heap call.
    pub fn note_use(&mut self, in_use: u32)
        requires { in_use ≤ length self.old.taken }
        ensures { self.new ≡ noted self.old in_use }
    {
        self.uses.note(in_use);
    }
}
