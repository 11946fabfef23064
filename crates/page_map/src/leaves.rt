//! What begins at each page of an arena.
ghost use Rattle.std.specs.Prelude.{◌≡◌, ℕ, ◌+◌, ◌*◌, ◌/◌, ◌<◌, ◌≤◌, ◌==◌, ◌↔◌, None, length, vec_len, if◌then◌else◌, IfOk, IsSome, IsTrue, OnErr, OnOk};
ghost use Rattle.std.specs.List.{slice_index_or};
ghost use Rattle.tc_units.specs.Units.{huge_pages};
ghost use Rattle.page_map.specs.Begins.{begin_at};

use crate::leaf::{Leaf, PLACES};
use std::alloc::{AllocError, Global};
use tc_units::SpanRef;

/// A leaf for each hugepage in which a span has begun.
#[derive(Drop)]
pub(crate) struct Leaves {
    /// By the hugepage's number; there is no hugepage 0.
    leaves: Vec<Option<Leaf>>,
}

impl Leaves {
    /// Those of an arena of `huge` hugepages in which no span has begun.
    pub(crate) fn open(alloc: Global, huge: u32) -> Result<Self, AllocError>
        requires { huge ≤ 4096 }
        ensures size { IfOk result (λ leaves. length leaves.leaves.items ≡ huge + 1) }
        ensures none { IfOk result (λ leaves. (page : ℕ) → begin_at leaves.leaves.items page ≡ None) }
    {
        let count = huge as usize + 1;
        let mut leaves = Vec::with_capacity(alloc, count)?;
        for _huge in 0..count {
            leaves.push(None)?;
        }
        Ok(Leaves { leaves })
    }

    /// Whether a page is one of the arena's, or of the 256 before them.
    pub(crate) fn have(&self, page: usize) -> bool
        ensures { IsTrue result ↔ (page < huge_pages * length self.now.leaves.items) }
    {
        page / PLACES < self.leaves.len()
    }

    /// The span that begins at a page.
    pub(crate) fn get(&self, page: usize) -> Option<SpanRef>
        requires { page < huge_pages * length self.now.leaves.items }
        ensures { result ≡ begin_at self.now.leaves.items page }
    {
        match &self.leaves[page / PLACES] {
            Some(leaf) => leaf.get(page % PLACES),
            None => None,
        }
    }

    /// Makes the leaf of a page's hugepage, if there is none.
    #[tactic(auto, using(crate::proofs::LeafFacts::leaf_made, crate::proofs::LeafFacts::none_by))]
    pub(crate) fn make(&mut self, page: usize) -> Result<(), AllocError>
        requires { page < huge_pages * length self.old.leaves.items }
        ensures ok { OnOk result (IsSome (slice_index_or self.new.leaves.items (page / 256) None)) }
        ensures size { length self.new.leaves.items ≡ length self.old.leaves.items }
        ensures err { OnErr result (self.new ≡ self.old) }
        ensures same { (k : ℕ) → begin_at self.new.leaves.items k ≡ begin_at self.old.leaves.items k }
    {
        let index = page / PLACES;
        if self.leaves[index].is_none() {
            let alloc = *self.leaves.allocator();
            self.leaves[index] = Some(Leaf::open(alloc)?);
        }
        Ok(())
    }

    /// Says which span begins at a page.
    pub(crate) fn put(&mut self, page: usize, begin: Option<SpanRef>)
        requires { IsSome (slice_index_or self.old.leaves.items (page / 256) None) }
        ensures size { length self.new.leaves.items ≡ length self.old.leaves.items }
        ensures begins { (k : ℕ) → begin_at self.new.leaves.items k
            ≡ (if k == page then begin else begin_at self.old.leaves.items k) }
    {
        if let Some(leaf) = &mut self.leaves[page / PLACES] {
            leaf.put(page % PLACES, begin);
        }
    }
}
