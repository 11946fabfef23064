//! A span of one size class, from which objects are taken one by one.
ghost use Rattle.std.specs.Prelude.{◌≡◌, ◌≢◌, ◌+◌, ◌*◌, ◌<◌, ◌≤◌, ◌↔◌, [], ◌∷◌, Bool, length, count_by, IfOk, IfSome, IsNone, IsTrue};
ghost use Rattle.std.specs.Option.{option_to_list};
ghost use Rattle.tc_units.specs.Units.{page_bytes};
ghost use Rattle.tc_units.specs.declared.units.Addr.{Addr};
ghost use Rattle.span_list.specs.Span.{all_free, least, taken_from, after_take, after_put, free_count, taken_count, free_objects, address, index_of, IsTaken};

use crate::free_set::FreeSet;
use std::alloc::{AllocError, Global};
use std::marker::Model;
use tc_units::{Addr, PAGE_BYTES, SpanRef, addr_of};

/// A span cut into objects of one size, each free or taken. Object `i` begins `i` times the size behind
/// the span's first byte. The rest of the span that is too short for one more is no object.
#[derive(Drop)]
pub struct Span {
    span: SpanRef,
    /// Bytes of an object.
    size: u32,
    free: FreeSet,
    /// How many objects are taken.
    taken: u32,
}

impl Model for Span {
    ghost use Rattle.std.specs.Prelude.{◌≡◌, not, count_by};
    ghost use Rattle.span_list.specs.Span.{SpanState, IsCut};

    ghost Value = { SpanState };

    ghost view = { λ s. record { span = s.span; size = s.size; free = s.free } };

    ghost invariant = { λ s. IsCut (record { span = s.span; size = s.size; free = s.free }) × (s.taken ≡ count_by not s.free) };
}

impl Span {
    /// Cuts a span into objects of `size` bytes, all of them free.
    pub fn new(alloc: Global, span: SpanRef, size: u32) -> Result<Self, AllocError>
        requires pages { span.pages ≤ 255 }
        requires some { 0 < size }
        requires fits { size ≤ span.pages * page_bytes }
        ensures { IfOk result (λ s. s ≡ all_free span size) }
    {
        let objects = span.pages * PAGE_BYTES as u32 / size;
        Ok(Span {
            span,
            size,
            free: FreeSet::all(alloc, objects)?,
            taken: 0,
        })
    }

    /// The address of an object by its index.
    fn address(&self, index: u32) -> Addr
        requires { index ≤ length self.now.free }
        ensures { result ≡ address self.now index }
    {
        Addr(addr_of(self.span.first).0 + u64::from(index) * u64::from(self.size))
    }

    /// Takes the free object of least index.
    pub fn take(&mut self) -> Option<Addr>
        ensures taken { result ≡ taken_from self.old (least self.old) }
        ensures after { self.new ≡ after_take self.old (least self.old) }
        ensures none { IsNone result ↔ (free_count self.old ≡ 0) }

        // It can be put back, and so can what was taken before. It wasn't taken then.
        ensures given { IfSome result (IsTaken self.new) }
        ensures kept { (a : Addr) → IsTaken self.old a → IsTaken self.new a }
        ensures fresh { IfSome result (λ a. ¬ (IsTaken self.old a)) }

        // The object isn't free any more, and the others are as before.
        ensures moves { (test : Addr → Bool) → count_by test (free_objects self.new) + count_by test (option_to_list result)
            ≡ count_by test (free_objects self.old) }
    {
        let index = self.free.first()?;
        self.free.take(index);
        self.taken += 1;
        Some(self.address(index))
    }

    /// Takes an object of the span back. Says whether all of its objects are free now.
    pub fn put(&mut self, object: Addr) -> bool
        requires { IsTaken self.old object }
        ensures after { self.new ≡ after_put self.old object }
        ensures all { IsTrue result ↔ (taken_count self.new ≡ 0) }

        // Any other object that was taken still is.
        ensures kept { (a : Addr) → IsTaken self.old a → a ≢ object → IsTaken self.new a }

        // The object is free again, and the others are as before.
        ensures moves { (test : Addr → Bool) → count_by test (free_objects self.new)
            ≡ count_by test (free_objects self.old) + count_by test (object ∷ []) }
    {
        let distance = object.0 - addr_of(self.span.first).0;
        self.free.put((distance / u64::from(self.size)) as u32);
        self.taken -= 1;
        self.taken == 0
    }

    /// How many objects are free.
    pub fn free(&self) -> u32
        ensures { result ≡ free_count self.now }
    {
        self.free.len() - self.taken
    }

    /// How many objects are taken.
    pub fn taken(&self) -> u32
        ensures { result ≡ taken_count self.now }
    {
        self.taken
    }

    /// The pages that it has.
    pub fn span(&self) -> SpanRef
        ensures { result ≡ self.now.span }
    {
        self.span
    }
}
