//! The free ranges of a row by their lengths, as far as there is room for them.
ghost use Rattle.std.specs.Prelude.{◌≡◌, ◌+◌, ◌<◌, ◌≤◌, ◌==◌, ◌&&◌, ◌||◌, Bool, true, nat_lt, None, [], All, Contains, IfOk, IfSome, count_by, if◌then◌else◌};

use crate::range::FreeRange;
use sorted_list::SortedList;
use std::alloc::{AllocError, Global};
use std::marker::Model;

/// Free ranges in the order of their lengths. Contracts see them, whether none was left out, and how many more there is
/// room for.
#[derive(Drop)]
pub struct RangeList {
    by_length: SortedList<FreeRange>,
    /// Whether there was room for all.
    complete: bool,
}

impl Model for RangeList {
    ghost use Rattle.free_ranges.specs.Ranges.{Listing};

    ghost Value = { Listing };

    ghost view = { λ l. record { complete = l.complete; spare = l.by_length.spare; ranges = l.by_length.keys } };
}

impl RangeList {
    ghost use Rattle.sorted_list.specs.Order.{IsFirstFrom, IsLast};
    ghost use Rattle.free_ranges.specs.Ranges.{comes_before, range_count};
    ghost use Rattle.free_ranges.specs.declared.range.FreeRange.{FreeRange};

    /// No range, with room for `room` of them.
    pub fn open(alloc: Global, room: usize) -> Result<Self, AllocError>
        ensures { IfOk result (λ list. list ≡ record { complete = true; spare = room; ranges = [] }) }
    {
        Ok(RangeList {
            by_length: SortedList::open(alloc, room)?,
            complete: true,
        })
    }

    /// Whether no range was left out.
    pub fn is_complete(&self) -> bool
        ensures { result ≡ self.now.complete }
    {
        self.complete
    }

    /// Adds a range that isn't empty. Without room for it, and only then, the list isn't complete any more.
    pub fn add(&mut self, start: u32, len: u32)
        ensures complete { self.new.complete ≡ (self.old.complete && (len == 0 || nat_lt 0 self.old.spare)) }
        ensures spare { self.new.spare + (if nat_lt 0 len && self.new.complete then 1 else 0) ≡ self.old.spare }
        ensures ranges { self.new.complete ≡ true → (test : FreeRange → Bool) → count_by test self.new.ranges
            ≡ count_by test self.old.ranges
            + range_count test (record { len = len; start = start }) }
    {
        if len == 0 || !self.complete {
            return;
        }
        if self.by_length.is_full() {
            self.complete = false;
            return;
        }
        self.by_length.insert(FreeRange { len, start });
    }

    /// Takes a range out, unless it is empty.
    pub fn remove(&mut self, start: u32, len: u32)
        requires { self.old.complete ≡ true → 0 < len → Contains self.old.ranges (record { len = len; start = start }) }
        ensures complete { self.new.complete ≡ self.old.complete }
        ensures spare { self.new.spare ≡ self.old.spare + (if nat_lt 0 len && self.new.complete then 1 else 0) }
        ensures ranges { self.new.complete ≡ true → (test : FreeRange → Bool) → count_by test self.new.ranges
            + range_count test (record { len = len; start = start })
            ≡ count_by test self.old.ranges }
    {
        if len == 0 || !self.complete {
            return;
        }
        self.by_length.remove(FreeRange { len, start });
    }

    /// Puts a range in place of another one. One that is empty counts as none.
    fn replace(&mut self, from: FreeRange, to: FreeRange)
        requires { self.old.complete ≡ true → 0 < from.len → Contains self.old.ranges from }
        ensures complete { self.new.complete ≡ (self.old.complete && (to.len == 0 || nat_lt 0 from.len || nat_lt 0 self.old.spare)) }
        ensures spare { self.new.spare + (if nat_lt 0 to.len && self.new.complete then 1 else 0)
            ≡ self.old.spare + (if nat_lt 0 from.len && self.old.complete then 1 else 0) }
        ensures ranges { self.new.complete ≡ true → (test : FreeRange → Bool) → count_by test self.new.ranges + range_count test from
            ≡ count_by test self.old.ranges + range_count test to }
    {
        if from.len == 0 || to.len == 0 || !self.complete {
            self.remove(from.start, from.len);
            self.add(to.start, to.len);
            return;
        }
        self.by_length.rekey(from, to);
    }

    /// Puts what is left of a range on both sides in its place.
    pub fn split(&mut self, range: FreeRange, left: FreeRange, right: FreeRange)
        requires some { 0 < range.len }
        requires held { self.old.complete ≡ true → Contains self.old.ranges range }
        ensures complete { self.new.complete ≡ (self.old.complete && (left.len == 0 || right.len == 0 || nat_lt 0 self.old.spare)) }
        ensures ranges { self.new.complete ≡ true → (test : FreeRange → Bool) → count_by test self.new.ranges + range_count test range
            ≡ count_by test self.old.ranges + range_count test left + range_count test right }
    {
        if left.len == 0 {
            self.replace(range, right);
        } else {
            self.replace(range, left);
            self.add(right.start, right.len);
        }
    }

    /// Puts a whole range in place of those that it has on both sides.
    pub fn join(&mut self, left: FreeRange, right: FreeRange, whole: FreeRange)
        requires some { 0 < whole.len }
        requires order { left.start < right.start }
        requires left { self.old.complete ≡ true → 0 < left.len → Contains self.old.ranges left }
        requires right { self.old.complete ≡ true → 0 < right.len → Contains self.old.ranges right }
        ensures complete { self.new.complete ≡ (self.old.complete && (nat_lt 0 left.len || nat_lt 0 right.len || nat_lt 0 self.old.spare)) }
        ensures ranges { self.new.complete ≡ true → (test : FreeRange → Bool) → count_by test self.new.ranges + range_count test left + range_count test right
            ≡ count_by test self.old.ranges + range_count test whole }
    {
        if left.len == 0 {
            self.replace(right, whole);
        } else {
            self.remove(right.start, right.len);
            self.replace(left, whole);
        }
    }

    /// The first range that isn't shorter than `n`: of the shortest ones the earliest.
    pub fn tightest(&self, n: u32) -> Option<FreeRange>
        ensures found { IfSome result (IsFirstFrom comes_before self.now.ranges (record { len = n; start = 0 })) }
        ensures none { result ≡ None → All (λ range. comes_before range (record { len = n; start = 0 }) ≡ true) self.now.ranges }
    {
        self.by_length
            .first_at_or_after(FreeRange { len: n, start: 0 })
    }

    /// The longest range.
    pub fn longest(&self) -> Option<FreeRange>
        ensures found { IfSome result (IsLast comes_before self.now.ranges) }
        ensures none { result ≡ None → self.now.ranges ≡ [] }
    {
        self.by_length.last()
    }
}
