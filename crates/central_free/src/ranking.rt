//! Which slot has the best standing, asked and changed in the logarithm of the slots.
ghost use Rattle.std.specs.Prelude.{◌≡◌, ℕ, ◌+◌, ◌*◌, ◌^◌, ◌<◌, ◌≤◌, ◌/◌, ◌↔◌, [], IsTrue, OnErr, OnOk, length, slice_set};
ghost use Rattle.std.specs.List.{slice_index_or};
ghost use Rattle.central_free.specs.Ranking.{better, no_rank, no_standing, standing_at, standings_of, HasLeaves, IsBestSlot, IsJoined, IsJoinedBut};

use std::alloc::{AllocError, Global};
use std::marker::Model;
use tc_units::Page;

/// What decides which span serves: the greater weight is better, and of two equal ones the lower first
/// page.
#[derive(Clone, Copy)]
pub struct Standing {
    /// How much the span is to be emptied.
    pub weight: u32,
    pub first: Page,
}

impl Standing {
    /// That of a slot without a span.
    pub fn none() -> Self
        ensures { result ≡ no_standing }
    {
        Standing {
            weight: 0,
            first: Page(0),
        }
    }
}

/// A slot with its standing.
#[derive(Clone, Copy)]
pub struct Rank {
    standing: Standing,
    slot: u32,
}

/// So many slots have numbers of 32 bits.
const MOST_SLOTS: usize = 1 << 32;

/// Whether so many slots can be numbered.
fn fits(slots: usize) -> bool
    ensures { IsTrue result ↔ (slots ≤ 2 ^ 32) }
{
    slots <= MOST_SLOTS
}

/// A tournament of slots: each inner node has the better of its two children, so the root has the slot of
/// the best standing. The children of node `i` are `2 i` and `2 i + 1`, and the leaves stand behind the
/// inner nodes.
#[derive(Drop)]
pub struct Ranking {
    nodes: Vec<Rank>,
    slots: usize,
}

impl Model for Ranking {
    ghost use Rattle.std.specs.Prelude.{◌≡◌, ◌*◌, ◌^◌, ◌≤◌, List, vec_len};
    ghost use Rattle.central_free.specs.declared.ranking.Standing.{Standing};
    ghost use Rattle.central_free.specs.Ranking.{HasLeaves, IsJoined, standings_of};

    ghost Value = { List Standing };

    ghost view = { λ r. standings_of r.slots r.nodes.items };

    ghost invariant = { λ r. (vec_len r.nodes ≡ 2 * r.slots) × HasLeaves r.slots r.nodes.items × IsJoined r.slots r.nodes.items × (r.slots ≤ 2 ^ 32) };
}

/// The one of greater weight, and of two equal ones the one of the lower first page.
fn better(a: Rank, b: Rank) -> Rank
    ensures { result ≡ better a b }
{
    let (first, second) = (a.standing, b.standing);
    if first.weight < second.weight
        || (first.weight == second.weight && second.first.0 < first.first.0)
    {
        b
    } else {
        a
    }
}

/// Writes standings into the leaves, and that of no span into those behind them.
fn write_leaves(nodes: &mut [Rank], slots: usize, old: &[Rank])
    requires size { length nodes.old ≡ 2 * slots }
    requires room { length old.now ≤ slots }
    requires few { slots ≤ 2 ^ 32 }
    ensures leaves { HasLeaves slots nodes.new }
    ensures standings { (k : ℕ) → k < slots → standing_at (standings_of slots nodes.new) k ≡ (slice_index_or old.now k no_rank).standing }
{
    for slot in 0..slots {
        let standing = if slot < old.len() {
            old[slot].standing
        } else {
            Standing::none()
        };
        nodes[slots + slot] = Rank {
            standing,
            slot: slot as u32,
        };
    }
}

/// Joins all inner nodes, the last first.
fn join_all(nodes: &mut [Rank], slots: usize)
    requires size { length nodes.old ≡ 2 * slots }
    requires leaves { HasLeaves slots nodes.old }
    ensures leaves { HasLeaves slots nodes.new }
    ensures joined { IsJoined slots nodes.new }
    ensures standings { standings_of slots nodes.new ≡ standings_of slots nodes.old }
{
    for above in 1..slots {
        let node = slots - above;
        nodes[node] = better(nodes[2 * node], nodes[2 * node + 1]);
    }
}

/// Joins the inner nodes above one that was written.
fn join_up(nodes: &mut [Rank], slots: usize, written: usize)
    requires size { length nodes.old ≡ 2 * slots }
    requires inside { written < 2 * slots }
    requires leaves { HasLeaves slots nodes.old }
    requires others { IsJoinedBut slots nodes.old (written / 2) }
    ensures leaves { HasLeaves slots nodes.new }
    ensures joined { IsJoined slots nodes.new }
    ensures standings { standings_of slots nodes.new ≡ standings_of slots nodes.old }
{
    let mut node = written;
    while node > 1 {
        node /= 2;
        nodes[node] = better(nodes[2 * node], nodes[2 * node + 1]);
    }
}

impl Ranking {
    /// A ranking without slots.
    pub fn empty(alloc: Global) -> Self
        ensures { result ≡ [] }
    {
        Ranking {
            nodes: Vec::new(alloc),
            slots: 0,
        }
    }

    /// How many slots there are.
    pub fn len(&self) -> usize
        ensures len { result ≡ length self.now }
        ensures few { result ≤ 2 ^ 32 }
    {
        self.slots
    }

    /// Makes it `slots` slots, of which the new ones have no span. Where memory is wanting, and for more
    /// than it can number, all is as before.
    pub fn grow(&mut self, slots: usize) -> Result<(), AllocError>
        requires { length self.old ≤ slots }
        ensures slots { OnOk result (length self.new ≡ slots) }
        ensures few { OnOk result (slots ≤ 2 ^ 32) }
        ensures standings { OnOk result ((k : ℕ) → standing_at self.new k ≡ standing_at self.old k) }
        ensures err { OnErr result (self.new ≡ self.old) }
    {
        let nothing = Rank {
            standing: Standing::none(),
            slot: 0,
        };
        if !fits(slots) {
            return Err(AllocError);
        }
        let mut nodes = vec![in *self.nodes.allocator(); nothing; 2 * slots]?;
        write_leaves(&mut nodes, slots, &self.nodes[self.slots..]);
        join_all(&mut nodes, slots);
        *self = Ranking { nodes, slots };
        Ok(())
    }

    /// Gives a slot another standing.
    pub fn set(&mut self, slot: usize, standing: Standing)
        requires { slot < length self.old }
        ensures { self.new ≡ slice_set self.old slot standing }
    {
        let leaf = self.slots + slot;
        self.nodes[leaf] = Rank {
            standing,
            slot: slot as u32,
        };
        join_up(&mut self.nodes, self.slots, leaf);
    }

    /// The slot of the best standing, if one has a weight.
    pub fn best(&self) -> Option<usize>
        ensures { IsBestSlot self.now result }
    {
        if self.slots == 0 {
            return None;
        }
        let root = self.nodes[1];
        if root.standing.weight == 0 {
            None
        } else {
            Some(root.slot as usize)
        }
    }
}
