//! What a run of memory nodes has to tell of their heaps.
ghost use Rattle.std.specs.Prelude.{◌≡◌, ℕ, ◌*◌, ◌<◌, ◌≤◌, IfOk};
ghost use Rattle.tc_units.specs.Units.{huge_pages};
ghost use Rattle.heap_rules.specs.Heap.{used_pages, backed_pages};
ghost use Rattle.numa_heaps.specs.Machine.{heap_at, over_nodes, runs_to, rows_to, HasHeap};

use crate::machine::NumaPart;
use crate::nodes::Nodes;
use call_steps::Setting;
use page_heap::PageHeap;
use std::alloc::{AllocError, Global};
use tc_machine::{heap_of, rows_of};
use tc_units::RowView;

/// The pages of all nodes: those that live runs have, and those that are backed.
#[derive(Clone, Copy)]
pub(crate) struct NodePages {
    pub used: u64,
    pub resident: u64,
}

/// The page heap of a node.
fn heap_at<'a>(setting: &Setting, parts: &'a [NumaPart], k: u8) -> &'a PageHeap
    requires there { HasHeap setting.now parts.now k }
    ensures is { result.now ≡ heap_at setting.now parts.now k }
    ensures limits { result.now.config.huge ≡ setting.now.config.huge }
{
    let classes = setting.table.len() as usize;
    heap_of(parts, usize::from(k) * (classes + 3) + classes)
}

/// The pages of all nodes.
pub(crate) fn pages_of(setting: &Setting, nodes: Nodes, parts: &[NumaPart]) -> NodePages
    requires heaps { (k : ℕ) → k < nodes.count → HasHeap setting.now parts.now k }
    requires few { setting.now.config.huge ≤ 4096 }
    ensures used { result.used ≡ over_nodes used_pages setting.now parts.now nodes.count }
    ensures runs { result.used ≡ runs_to setting.now parts.now nodes.count }
    ensures resident { result.resident ≡ over_nodes backed_pages setting.now parts.now nodes.count }
    ensures covers { result.used ≤ result.resident }
    ensures most { result.resident ≤ huge_pages * (nodes.count * setting.now.config.huge) }
{
    let mut pages = NodePages {
        used: 0,
        resident: 0,
    };
    for k in 0..nodes.count() {
        let heap = heap_at(setting, parts, k);
        pages.resident += heap.backed_pages();
        pages.used += heap.used_pages();
    }
    pages
}

/// The measures of the hugepages of all nodes, one node behind the other.
pub(crate) fn rows_of_nodes(
    alloc: Global,
    setting: &Setting,
    nodes: Nodes,
    parts: &[NumaPart],
) -> Result<Vec<RowView>, AllocError>
    requires heaps { (k : ℕ) → k < nodes.count → HasHeap setting.now parts.now k }
    requires few { setting.now.config.huge ≤ 4096 }
    ensures { IfOk result (λ rows. rows.items ≡ rows_to setting.now parts.now nodes.count) }
{
    let mut rows = Vec::new(alloc);
    for k in 0..nodes.count() {
        let heap = heap_at(setting, parts, k);
        rows.extend_from_slice(&rows_of(alloc, heap, setting.config.huge)?)?;
    }
    Ok(rows)
}
