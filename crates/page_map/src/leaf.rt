//! A place for each page of a hugepage.
ghost use Rattle.std.specs.Prelude.{◌≡◌, ◌<◌, None, replicate, slice_set, vec_len, IfOk};
ghost use Rattle.std.specs.List.{slice_index_or};

use std::alloc::{AllocError, Global};
use tc_units::{HUGE_PAGES, SpanRef};

/// How many pages a hugepage has.
pub(crate) const PLACES: usize = HUGE_PAGES as usize;

/// Which span begins at each page of a hugepage.
#[derive(Drop)]
pub(crate) struct Leaf {
    begins: Vec<Option<SpanRef>>,
    ghost sized: { vec_len begins ≡ 256 },
}

impl Leaf {
    /// No span begins in the hugepage.
    pub(crate) fn open(alloc: Global) -> Result<Self, AllocError>
        ensures { IfOk result (λ leaf. leaf.begins.items ≡ replicate 256 None) }
    {
        Ok(Leaf {
            begins: vec![in alloc; None; PLACES]?,
        })
    }

    /// The span that begins at the page of a place.
    pub(crate) fn get(&self, place: usize) -> Option<SpanRef>
        requires { place < 256 }
        ensures { result ≡ slice_index_or self.now.begins.items place None }
    {
        self.begins[place]
    }

    /// Says which span begins at the page of a place.
    pub(crate) fn put(&mut self, place: usize, begin: Option<SpanRef>)
        requires { place < 256 }
        ensures { self.new.begins.items ≡ slice_set self.old.begins.items place begin }
    {
        self.begins[place] = begin;
    }
}
