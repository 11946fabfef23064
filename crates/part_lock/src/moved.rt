//! Parts on their way into the table and out of it.
ghost use Rattle.std.specs.Prelude.{◌≡◌, ◌≤◌, ◌∷◌, [], All, IfOk, map, replicate, reverse, vec_len, vec_capacity};
ghost use Rattle.std.specs.Slots.{IsFull, slots_len, slots_items};

use crate::view::Stall;
use atomic_table::Closed;
use std::alloc::{AllocError, Global};
use tc_model::Entry;

/// The items with the last one first.
pub(crate) fn turned<T: Drop>(mut items: Vec<T>) -> Vec<T>
    ensures { result.items ≡ reverse items.items }
{
    items.as_mut_slice().reverse();
    items
}

/// Puts each part into a slot of its own, without entries.
pub(crate) fn fill<P: Drop>(
    alloc: Global,
    parts: Vec<P>,
    mut stalls: Vec<Stall<P>>,
) -> Vec<Stall<P>>
    requires bare { stalls.items ≡ [] }
    requires room { vec_len parts ≤ vec_capacity stalls }
    ensures parts { map (λ x. x.part) result.items ≡ parts.items }
    ensures entries { All (λ x. x.entries.items ≡ []) result.items }
{
    let mut parts = turned(parts);
    while let Some(part) = parts.pop() {
        stalls.push_reserved(Stall {
            part,
            entries: Vec::new(alloc),
        });
    }
    stalls
}

/// Takes each part out of its slot again.
pub(crate) fn unfill<P: Drop>(stalls: Vec<Stall<P>>, mut parts: Vec<P>) -> Vec<P>
    requires bare { parts.items ≡ [] }
    requires room { vec_len stalls ≤ vec_capacity parts }
    ensures { result.items ≡ map (λ x. x.part) stalls.items }
{
    let mut stalls = turned(stalls);
    while let Some(stall) = stalls.pop() {
        let Stall { part, entries: _ } = stall;
        parts.push_reserved(part);
    }
    parts
}

/// Takes the parts and their entries out of a table that no thread shares any more.
pub(crate) fn drain<P: Drop>(
    mut closed: Closed<Stall<P>, Global>,
    mut parts: Vec<P>,
    mut entries: Vec<Vec<Entry>>,
) -> (Vec<P>, Vec<Vec<Entry>>)
    requires full { IsFull closed.slots }
    requires bare { (parts.items ≡ []) × (entries.items ≡ []) }
    requires room { (slots_len closed.slots ≤ vec_capacity parts) × (slots_len closed.slots ≤ vec_capacity entries) }
    ensures parts { result.0.items ≡ map (λ x. x.part) (slots_items closed.slots) }
    ensures entries { result.1.items ≡ map (λ x. x.entries) (slots_items closed.slots) }
{
    let mut i = 0;
    while i < closed.slot_count() {
        let Stall {
            part,
            entries: journal,
        } = closed.take(i);
        parts.push_reserved(part);
        entries.push_reserved(journal);
        i += 1;
    }
    closed.free();
    (parts, entries)
}
