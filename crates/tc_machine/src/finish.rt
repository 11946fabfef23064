//! What a run has to tell of its hugepages.
ghost use Rattle.std.specs.Prelude.{◌≡◌, ◌≤◌, map, IfOk, Some, slice_get};
ghost use Rattle.heap_rules.specs.Heap.{Heap, row_of};
ghost use Rattle.alloc_rules.specs.declared.part.Part.TheVariants as part;
ghost use Rattle.std.specs.List.{range_with_len};

use alloc_rules::Part;
use page_heap::PageHeap;
use std::alloc::{AllocError, Global};
use tc_units::{Huge, RowView};

/// The page heap, which is the part with this number.
pub fn heap_of<P: Drop>(parts: &[Part<P>], place: usize) -> &PageHeap
    requires { (heap : Heap) × (slice_get parts.now place ≡ Some (part.Heap heap)) }
    ensures { slice_get parts.now place ≡ Some (part.Heap result.now) }
{
    match &parts[place] {
        Part::Heap(heap) => heap,
        _ => unreachable!(),
    }
}

/// The measures of each hugepage, in order.
pub fn rows_of(alloc: Global, heap: &PageHeap, huge: u32) -> Result<Vec<RowView>, AllocError>
    requires all { huge ≡ heap.now.config.huge }
    requires few { huge ≤ 4096 }
    ensures { IfOk result (λ rows. rows.items ≡ map (row_of heap.now) (range_with_len 1 huge)) }
{
    let mut rows = Vec::new(alloc);
    for place in 0..huge {
        rows.push(heap.row(Huge(place as u16 + 1)))?;
    }
    Ok(rows)
}
