//! The parts of the allocator, each of which one act works on at a time, and their numbers.
ghost use Rattle.std.specs.Prelude.{◌≡◌, ◌≤◌};
ghost use Rattle.call_steps.specs.Kept.{IsLowTarget};
ghost use Rattle.alloc_rules.specs.Machine.{number_of};

use call_steps::Target;
use class_shard::ClassShard;
use name_table::NameTable;
use page_heap::PageHeap;
use page_map::PageMap;
use tc_model::PartNo;

/// A part of the allocator, where `P` is a part of its front-end. The first parts are those of the front-end
/// that stand before the shards; then come the shards by their classes, the page heap, the page map, the
/// names, and what is left of the front-end.
#[derive(Drop)]
pub enum Part<P> {
    /// One of the front-end.
    Front(P),
    /// The shard of a size class: its transfer list and its spans.
    Shard(ClassShard),
    /// The page heap: which pages live runs hold, and which pages are backed.
    Heap(PageHeap),
    /// The page map: which span holds a page.
    Map(PageMap),
    /// The names: what each label of the trace means.
    Names(NameTable),
}

/// The number of a part, where so many parts of the front-end stand before the shards of so many classes.
pub fn number_of(split: u8, classes: u32, target: Target) -> PartNo
    requires classes { classes ≤ 120 }
    requires low { IsLowTarget target }
    ensures { result ≡ number_of split classes target }
{
    let shards = u16::from(split);
    let classes = classes as u16;
    let heap = shards + classes;
    match target {
        Target::Front(place) if place < shards => PartNo(place),
        Target::Front(place) => PartNo(place + classes + 3),
        Target::Shard(class) => PartNo(shards + u16::from(class.0)),
        Target::Heap => PartNo(heap),
        Target::Map => PartNo(heap + 1),
        Target::Names => PartNo(heap + 2),
    }
}
