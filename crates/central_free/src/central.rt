//! The spans of one size class in the order of their first pages, and which of them serves next.
ghost use Rattle.std.specs.Prelude.{◌≡◌, ◌≢◌, ℕ, ◌+◌, ◌-◌, ◌*◌, ◌^◌, ◌/◌, ◌<◌, ◌≤◌, ◌↔◌, ◌⊎◌, Bool, true, [], ◌∷◌, ◌++◌, All, Any, IfOk, IfSome};
ghost use Rattle.std.specs.Prelude.{MatchOption, OnErr, OnOk, Some, None, count_by, drop, length, map, max, min, nat_le, replicate, slice_index, vec_len};
ghost use Rattle.std.specs.Prelude.{vec_capacity, AllPairs};
ghost use Rattle.std.specs.List.{flat_map};
ghost use Rattle.std.specs.Option.{option_to_list};
ghost use Rattle.slab.specs.Slab.{HasRoomFor};
ghost use Rattle.tc_units.specs.Units.{page_bytes};
ghost use Rattle.tc_units.specs.declared.units.Addr.{Addr};
ghost use Rattle.span_list.specs.Span.{all_free, objects_of, free_objects, free_count, first_byte};
ghost use Rattle.central_free.specs.Central.{taken_one, taken, has_free, opened, opening, with_span, put_one, put_all, IsTakenIn, AreDifferent, IsApartFrom, IsBefore, IsSound, free_in};
ghost use Rattle.central_free.specs.Ranking.{standing_at};
ghost use Rattle.central_free.specs.Slots.{least_room, weight, standing_of, slot_at, spans_of, IsKept, IsLastBegun};

use crate::ranking::{Ranking, Standing};
use crate::runs::take_some;
use slab::Slab;
use span_list::Span;
use std::alloc::{AllocError, Global};
use std::collections::BTreeMap;
use std::marker::Model;
use tc_units::{Addr, Bag, ClassRow, SpanRef, addr_of};

/// The least number of slots by which their room grows.
const LEAST_ROOM: usize = 4;

/// The spans of one size class that have a taken object: the central free list of TCMalloc's design
/// document. The order in which spans serve is this project's own rule.
#[derive(Drop)]
pub struct CentralFree {
    alloc: Global,
    row: ClassRow,
    /// Each span in a slot, which it keeps.
    slots: Slab<Span>,
    /// The slot of each span by its first byte.
    order: BTreeMap<u64, u32>,
    /// How each slot stands.
    ranking: Ranking,
}

impl Model for CentralFree {
    ghost use Rattle.central_free.specs.Central.{Central, IsSound};
    ghost use Rattle.central_free.specs.Slots.{spans_of, IsKept};

    ghost Value = { Central };

    ghost view = { λ c. record { row = c.row; spans = spans_of c.slots.slots c.order.entries } };

    ghost invariant = { λ c. IsSound (record { row = c.row; spans = spans_of c.slots.slots c.order.entries }) × IsKept c.slots.slots c.order.entries c.ranking };
}

/// How much a span is to be emptied: its taken objects, and 0 where none is free.
pub fn weight(span: &Span) -> u32
    ensures { result ≡ weight span.now }
{
    if span.free() == 0 { 0 } else { span.taken() }
}

/// How a span stands among the others.
fn standing_of(span: &Span) -> Standing
    ensures { result ≡ standing_of span.now }
{
    Standing {
        weight: weight(span),
        first: span.span().first,
    }
}

/// The slot of the last span that begins by an address.
fn last_begun(order: &BTreeMap<u64, u32>, address: u64) -> usize
    requires { Any (λ e. e.0 ≤ address) order.now.entries }
    ensures { IsLastBegun order.now.entries address result }
{
    match order.range(..=address).next_back() {
        Some((_, slot)) => *slot as usize,
        None => unreachable!(),
    }
}

/// By how many slots their room grows: an eighth of what there is and a few, so to at most twice of it but for the first few.
fn more_for(slots: usize) -> usize
    ensures some { 0 < result }
    ensures few { result ≤ max slots least_room }
{
    slots / 8 + LEAST_ROOM
}

/// Makes room for one more span, and for its standing, if there is none. The number of standings grows to at most twice the
/// number of the slots that were in use, and a few.
fn make_room(slots: &mut Slab<Span>, ranking: &mut Ranking) -> Result<(), AllocError>
    ensures slots { slots.new.slots ≡ slots.old.slots }
    ensures room { OnOk result (HasRoomFor slots.new 1) }
    ensures slot { OnOk result (slots.new.vacant_key < length ranking.new) }
    ensures few { OnOk result (slots.new.vacant_key < 2 ^ 32) }
    ensures longer { length ranking.old ≤ length ranking.new }
    ensures most { length ranking.new ≤ max (length ranking.old) (slots.old.vacant_key + max slots.old.vacant_key least_room) }
    ensures standings { (k : ℕ) → standing_at ranking.new k ≡ standing_at ranking.old k }
{
    if slots.len() == slots.capacity() {
        slots.reserve_exact(more_for(slots.len()))?;
    }
    let slot = slots.vacant_key();
    if slot >= ranking.len() {
        ranking.grow(slot.checked_add(more_for(slot)).ok_or(AllocError)?)?;
    }
    Ok(())
}

impl CentralFree {
    /// A list without spans, for objects of a row of the class table.
    pub fn new(alloc: Global, row: ClassRow) -> Self
        requires some { 0 < row.size }
        requires fits { row.size ≤ row.pages * page_bytes }
        ensures empty { result ≡ record { row = row; spans = [] } }
        ensures sound { IsSound result }
    {
        CentralFree {
            alloc,
            row,
            slots: Slab::new(alloc),
            order: BTreeMap::new(alloc),
            ranking: Ranking::empty(alloc),
        }
    }

    /// Takes up to `n` objects of the span that serves first, and says how many came.
    fn take_run(&mut self, n: u32, out: &mut Bag<Addr>) -> u32
        requires some { 0 < n }
        requires room { n ≤ out.old.spare }
        ensures few { result ≤ n }
        ensures none { result ≡ 0 → taken_one self.old.spans ≡ None }
        ensures spans { self.new ≡ record self.old { spans = (taken result self.old.spans).spans } }
        ensures out { out.new.items ≡ out.old.items ++ (taken result self.old.spans).objects }
        ensures count { length (taken result self.old.spans).objects ≡ result }
        ensures spare { out.new.spare + result ≡ out.old.spare }
        ensures sound { IsSound self.new }
        ensures given { All (IsTakenIn self.new.spans) (taken result self.old.spans).objects }
        ensures fresh { All (λ a. ¬ (IsTakenIn self.old.spans a)) (taken result self.old.spans).objects }
        ensures different { AreDifferent (taken result self.old.spans).objects }
        ensures kept { (a : Addr) → IsTakenIn self.old.spans a → IsTakenIn self.new.spans a }
        ensures moves { (test : Addr → Bool) → count_by test (free_in self.new.spans) + count_by test out.new.items
            ≡ count_by test (free_in self.old.spans) + count_by test out.old.items }
    {
        let Some(slot) = self.ranking.best() else {
            return 0;
        };
        let came = take_some(&mut self.slots[slot], n, out);
        self.ranking.set(slot, standing_of(&self.slots[slot]));
        came
    }

    /// Takes up to `n` objects one by one, each the first free one of the span with most taken objects
    /// among those with a free one, ties by least first page. Appends them to `out`, and says how many
    /// came.
    pub fn take(&mut self, n: u32, out: &mut Bag<Addr>) -> u32
        requires { n ≤ out.old.spare }
        ensures count { result ≡ length (taken n self.old.spans).objects }
        ensures none { (result ≡ 0) ↔ ((n ≡ 0) ⊎ All (λ s. free_count s ≡ 0) self.old.spans) }
        ensures spans { self.new ≡ record self.old { spans = (taken n self.old.spans).spans } }
        ensures out { out.new.items ≡ out.old.items ++ (taken n self.old.spans).objects }
        ensures spare { out.new.spare + result ≡ out.old.spare }
        ensures sound { IsSound self.new }

        // What came can be put back, and so can what was taken before. They are all different.
        ensures given { All (IsTakenIn self.new.spans) (taken n self.old.spans).objects }
        ensures kept { (a : Addr) → IsTakenIn self.old.spans a → IsTakenIn self.new.spans a }
        ensures fresh { All (λ a. ¬ (IsTakenIn self.old.spans a)) (taken n self.old.spans).objects }
        ensures different { AreDifferent (taken n self.old.spans).objects }

        // Objects move from the spans to the list: none is lost, and none comes twice.
        ensures moves { (test : Addr → Bool) → count_by test (free_in self.new.spans) + count_by test out.new.items
            ≡ count_by test (free_in self.old.spans) + count_by test out.old.items }
    {
        let _ = &self.row;
        let mut came = 0;
        while came < n {
            let more = self.take_run(n - came, out);
            if more == 0 {
                return came;
            }
            came += more;
        }
        came
    }

    /// Adds a span of the row's pages, and takes its first `n` objects, or all where it has fewer. Appends
    /// them to `out`, and says how many came. Where memory is wanting, all is as before.
    pub fn add_take(
        &mut self,
        span: SpanRef,
        n: u32,
        out: &mut Bag<Addr>,
    ) -> Result<u32, AllocError>
        requires pages { span.pages ≡ self.old.row.pages }
        requires apart { All (IsApartFrom span) self.old.spans }
        requires some { 0 < n }
        requires room { n ≤ out.old.spare }
        ensures count { IfOk result (λ came. came ≡ length (opening span self.old.row.size n)) }
        ensures any { IfOk result (λ came. 0 < came) }
        ensures spans { OnOk result (self.new ≡ record self.old { spans = with_span (opened span self.old.row.size n) self.old.spans }) }
        ensures out { OnOk result (out.new.items ≡ out.old.items ++ opening span self.old.row.size n) }
        ensures spare { IfOk result (λ came. out.new.spare + came ≡ out.old.spare) }
        ensures err { OnErr result ((self.new ≡ self.old) × (out.new ≡ out.old)) }
        ensures sound { IsSound self.new }

        // What came can be put back, and so can what was taken before. They are all different.
        ensures given { OnOk result (All (IsTakenIn self.new.spans) (opening span self.old.row.size n)) }
        ensures fresh { OnOk result (All (λ a. ¬ (IsTakenIn self.old.spans a)) (opening span self.old.row.size n)) }
        ensures different { OnOk result (AreDifferent (opening span self.old.row.size n)) }
        ensures kept { OnOk result ((a : Addr) → IsTakenIn self.old.spans a → IsTakenIn self.new.spans a) }

        // The span's objects are in the spans and the list then, beside what was there.
        ensures moves { OnOk result ((test : Addr → Bool) → count_by test (free_in self.new.spans) + count_by test out.new.items
            ≡ count_by test (free_in self.old.spans) + count_by test out.old.items + count_by test (objects_of self.old.row.size span)) }
    {
        make_room(&mut self.slots, &mut self.ranking)?;
        let mut added = Span::new(self.alloc, span, self.row.size)?;
        let slot = self.slots.vacant_key();
        self.order.insert(addr_of(span.first).0, slot as u32)?;
        let came = take_some(&mut added, n, out);
        self.ranking.set(slot, standing_of(&added));
        self.slots.insert_reserved(added);
        Ok(came)
    }

    /// Gives an object back to its span. The span comes out where all of its objects are free then.
    fn put_one(&mut self, object: Addr) -> Option<SpanRef>
        requires { IsTakenIn self.old.spans object }
        ensures spans { self.new ≡ record self.old { spans = (put_one object self.old.spans).spans } }
        ensures freed { option_to_list result ≡ (put_one object self.old.spans).freed }
        ensures sound { IsSound self.new }
        ensures kept { (a : Addr) → IsTakenIn self.old.spans a → a ≢ object → IsTakenIn self.new.spans a }
        ensures moves { (test : Addr → Bool) → count_by test (free_in self.new.spans) + count_by test (flat_map (objects_of self.old.row.size) (option_to_list result))
            ≡ count_by test (free_in self.old.spans) + count_by test (object ∷ []) }
    {
        let slot = last_begun(&self.order, object.0);
        if self.slots[slot].put(object) {
            let left = self.slots.remove(slot).span();
            self.order.remove(&addr_of(left.first).0);
            self.ranking.set(slot, Standing::none());
            Some(left)
        } else {
            self.ranking.set(slot, standing_of(&self.slots[slot]));
            None
        }
    }

    /// Gives objects back to their spans, in order. A span all of whose objects are free then leaves the
    /// list, and is appended to `freed`.
    pub fn put(&mut self, list: &[Addr], freed: &mut Bag<SpanRef>)
        requires taken { All (IsTakenIn self.old.spans) list.now }
        requires different { AreDifferent list.now }
        requires room { length list.now ≤ freed.old.spare }
        ensures spans { self.new ≡ record self.old { spans = (put_all list.now self.old.spans).spans } }
        ensures freed { freed.new.items ≡ freed.old.items ++ (put_all list.now self.old.spans).freed }
        ensures spare { freed.new.spare + length (put_all list.now self.old.spans).freed ≡ freed.old.spare }
        ensures sound { IsSound self.new }

        // Any other object that was taken still is.
        ensures kept { (a : Addr) → IsTakenIn self.old.spans a → All (λ b. a ≢ b) list.now → IsTakenIn self.new.spans a }

        // Objects move from the list to the spans, those that stay and those that left.
        ensures moves { (test : Addr → Bool) → count_by test (free_in self.new.spans) + count_by test (flat_map (objects_of self.old.row.size) (put_all list.now self.old.spans).freed)
            ≡ count_by test (free_in self.old.spans) + count_by test list.now }
    {
        let _ = &self.row;
        for object in list {
            if let Some(span) = self.put_one(*object) {
                freed.push(span);
            }
        }
    }
}

#[cfg(test)]
mod tests;
