//! How many hugepages were in use after the last heap calls, with the greatest count at hand.
ghost use Rattle.std.specs.Prelude.{◌≡◌, ◌+◌, ◌-◌, ◌<◌, ◌≤◌, nat_le, [], length, drop, filter, IfOk};
ghost use Rattle.std.specs.VecDeque.{deque_len, deque_capacity};
ghost use Rattle.heap_rules.specs.CacheFlags.{with_count, limit};
ghost use Rattle.huge_cache.specs.Uses.{greatest_of, IsFalling};

use std::alloc::{AllocError, Global};
use std::collections::VecDeque;
use std::marker::Model;

/// The last use counts. Contracts see how many are kept, and the counts.
#[derive(Drop)]
pub struct UseCounts {
    window: usize,
    counts: VecDeque<u32>,
    greatest: VecDeque<u32>,
}

impl Model for UseCounts {
    ghost use Rattle.std.specs.Prelude.{◌≡◌, ◌≤◌};
    ghost use Rattle.std.specs.VecDeque.{deque_len, deque_capacity};
    ghost use Rattle.huge_cache.specs.Uses.{Uses, greatest_of};

    ghost Value = { Uses };

    ghost view = { λ u. record { window = u.window; counts = u.counts.items } };

    ghost invariant = { λ u. (deque_len u.counts ≤ u.window) × (u.window ≤ deque_capacity u.counts)
        × (u.window ≤ deque_capacity u.greatest) × (u.greatest.items ≡ greatest_of u.counts.items) };
}

/// Lets the oldest count go, and from the greatest ones too where it is among them.
fn drop_oldest(counts: &mut VecDeque<u32>, greatest: &mut VecDeque<u32>)
    requires some { 0 < deque_len counts.old }
    requires kept { greatest.old.items ≡ greatest_of counts.old.items }
    ensures counts { counts.new.items ≡ drop 1 counts.old.items }
    ensures greatest { greatest.new.items ≡ greatest_of counts.new.items }
    ensures len { deque_len counts.new + 1 ≡ deque_len counts.old }
    ensures room { deque_capacity counts.new ≡ deque_capacity counts.old }
    ensures greatest_room { deque_capacity greatest.new ≡ deque_capacity greatest.old }
{
    let oldest = counts.pop_front();
    if oldest == greatest.front().copied() {
        greatest.pop_front();
    }
}

/// Lets the oldest count go where the window is full.
fn make_room(counts: &mut VecDeque<u32>, greatest: &mut VecDeque<u32>, window: usize)
    requires some { 0 < window }
    requires within { deque_len counts.old ≤ window }
    requires kept { greatest.old.items ≡ greatest_of counts.old.items }
    ensures counts { counts.new.items ≡ drop (length counts.old.items + 1 - window) counts.old.items }
    ensures greatest { greatest.new.items ≡ greatest_of counts.new.items }
    ensures len { deque_len counts.new < window }
    ensures room { deque_capacity counts.new ≡ deque_capacity counts.old }
    ensures greatest_room { deque_capacity greatest.new ≡ deque_capacity greatest.old }
{
    if counts.len() == window {
        drop_oldest(counts, greatest);
    }
}

/// Lets go of the greatest counts that are below a newer one.
fn drop_below(greatest: &mut VecDeque<u32>, count: u32)
    requires { IsFalling greatest.old.items }
    ensures kept { greatest.new.items ≡ filter (λ x. nat_le count x) greatest.old.items }
    ensures len { deque_len greatest.new ≤ deque_len greatest.old }
    ensures room { deque_capacity greatest.new ≡ deque_capacity greatest.old }
{
    while let Some(last) = greatest.back() {
        if count <= *last {
            return;
        }
        greatest.pop_back();
    }
}

impl UseCounts {
    /// No count, with room for `window` of them.
    pub fn open(alloc: Global, window: u32) -> Result<Self, AllocError>
        ensures { IfOk result (λ uses. uses ≡ record { window = window; counts = [] }) }
    {
        let window = window as usize;
        Ok(UseCounts {
            window,
            counts: VecDeque::with_capacity(alloc, window)?,
            greatest: VecDeque::with_capacity(alloc, window)?,
        })
    }

    /// Adds a count, and keeps the last ones as far as the window reaches.
    pub fn note(&mut self, count: u32)
        ensures { self.new
            ≡ record self.old { counts = with_count self.old.window self.old.counts count } }
    {
        if self.window == 0 {
            return;
        }
        make_room(&mut self.counts, &mut self.greatest, self.window);
        drop_below(&mut self.greatest, count);
        self.counts.push_back_reserved(count);
        self.greatest.push_back_reserved(count);
    }

    /// How many backed free hugepages may stay: `cache`, and no more than what the greatest count is
    /// above the newest.
    #[tactic(auto, using(crate::proofs::Greatest::first_greatest, crate::proofs::Greatest::newest))]
    pub fn limit(&self, cache: u32) -> u32
        ensures { result ≡ limit cache self.now.counts }
    {
        let Some(newest) = self.counts.back() else {
            return cache;
        };
        let greatest = self.greatest.front().copied().unwrap_or(0);
        cache.min(greatest.saturating_sub(*newest))
    }
}
