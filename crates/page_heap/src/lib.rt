//! The page heap: it places runs of pages in an arena of hugepages, as TCMalloc's hugepage-aware
//! back-end (Temeraire) does, by this project's own rule for each choice.
#![tactic(auto)]

mod heap;
mod in_regions;
mod releases;
mod shown;
mod small;
mod source;
#[cfg(test)]
mod tests;
mod told;
mod whole;

pub use heap::PageHeap;
pub use heap_rules::HeapConfig;
