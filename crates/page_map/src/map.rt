//! Spans in the order of their first pages, and the one that holds a page.
ghost use Rattle.std.specs.Prelude.{◌≡◌, ℕ, ◌<◌, ◌≤◌, ◌↔◌, [], false, find, All, Contains, IfOk, IfSome, IsNone, IsTrue, OnErr, OnOk, if◌then◌else◌};
ghost use Rattle.tc_units.specs.Units.{most_huge};
ghost use Rattle.page_map.specs.Spans.{holds, with_span, without_span, IsInside, AreApart, IsWellFormed};

use crate::leaves::Leaves;
use place_set::PlaceSet;
use std::alloc::{AllocError, Global};
use std::marker::Model;
use tc_units::{Page, SpanRef};

/// The spans of an arena, none of which has a page of another.
#[derive(Drop)]
pub struct PageMap {
    /// What begins at each page.
    leaves: Leaves,
    /// The pages at which a span begins.
    begins: PlaceSet,
}

impl Model for PageMap {
    ghost use Rattle.page_map.specs.Spans.{SpanMap};
    ghost use Rattle.page_map.specs.Begins.{map_of, IsKept};

    ghost Value = { SpanMap };

    ghost view = { λ m. map_of m.leaves.leaves.items };

    ghost invariant = { λ m. IsKept m.leaves.leaves.items m.begins };
}

/// Words of 64 places that have the pages of a hugepage.
const HUGE_WORDS: usize = 4;

/// Whether a span holds a page.
fn holds(span: SpanRef, page: Page) -> bool
    ensures { result ≡ holds page.0 span }
{
    span.first.0 <= page.0 && page.0 - span.first.0 < span.pages
}

impl PageMap {
    /// The map of an arena of `huge` hugepages in which no span is set.
    pub fn open(alloc: Global, huge: u32) -> Result<Self, AllocError>
        requires some { 0 < huge }
        requires few { huge ≤ most_huge }
        ensures empty { IfOk result (λ map. map ≡ record { huge = huge; spans = [] }) }
        ensures well_formed { IfOk result IsWellFormed }
    {
        Ok(PageMap {
            leaves: Leaves::open(alloc, huge)?,
            begins: PlaceSet::open(alloc, HUGE_WORDS * (huge as usize + 1))?,
        })
    }

    /// The last span that begins at or before a page, where it holds that page.
    fn find(&self, page: Page) -> Option<SpanRef>
        ensures first { result ≡ find (holds page.0) self.now.spans }
        ensures well_formed { IsWellFormed self.now }
    {
        let place = page.0 as usize;
        if !self.leaves.have(place) {
            return None;
        }
        let begin = self.begins.last_at_or_before(place)?;
        let span = self.leaves.get(begin)?;
        if holds(span, page) { Some(span) } else { None }
    }

    /// The span that holds a page, if one does.
    pub fn get(&self, page: Page) -> Option<SpanRef>
        ensures first { result ≡ find (holds page.0) self.now.spans }
        ensures found { IfSome result (λ span. Contains self.now.spans span × IsTrue (holds page.0 span)) }
        ensures none { IsNone result ↔ All (λ span. holds page.0 span ≡ false) self.now.spans }
        ensures well_formed { IsWellFormed self.now }
    {
        self.find(page)
    }

    /// Sets a span of pages that no span holds.
    pub fn set(&mut self, span: SpanRef) -> Result<(), AllocError>
        requires inside { IsInside self.old.huge span }
        requires apart { All (AreApart span) self.old.spans }
        ensures ok { OnOk result (self.new ≡ record self.old { spans = with_span span self.old.spans }) }
        ensures err { OnErr result (self.new ≡ self.old) }
        ensures well_formed { IsWellFormed self.new }

        // A page of the span is then held by it, and any other page as before.
        ensures reads { OnOk result ((page : ℕ) → find (holds page) self.new.spans
            ≡ (if holds page span then Some span else find (holds page) self.old.spans)) }
    {
        let begin = span.first.0 as usize;
        self.leaves.make(begin)?;
        self.leaves.put(begin, Some(span));
        self.begins.insert(begin);
        Ok(())
    }

    /// Clears a span that is set.
    pub fn clear(&mut self, span: SpanRef)
        requires { Contains self.old.spans span }
        ensures spans { self.new ≡ record self.old { spans = without_span span self.old.spans } }
        ensures well_formed { IsWellFormed self.new }

        // No span then holds a page of it, and any other page is held as before.
        ensures reads { (page : ℕ) → find (holds page) self.new.spans
            ≡ (if holds page span then None else find (holds page) self.old.spans) }
    {
        let begin = span.first.0 as usize;
        self.leaves.put(begin, None);
        self.begins.remove(begin);
    }
}
