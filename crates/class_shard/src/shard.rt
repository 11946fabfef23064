//! One class's objects that no cache holds: the transfer cache serves first, then the spans.
ghost use Rattle.std.specs.Prelude.{◌≡◌, ◌≢◌, List, ◌+◌, ◌*◌, ◌<◌, ◌≤◌, ◌↔◌, Bool, [], ◌++◌, All, IfOk, OnErr, OnOk, count_by, length};
ghost use Rattle.std.specs.List.{flat_map};
ghost use Rattle.tc_units.specs.Units.{page_bytes};
ghost use Rattle.tc_units.specs.declared.units.Addr.{Addr};
ghost use Rattle.span_list.specs.Span.{objects_of};
ghost use Rattle.central_free.specs.Central.{opened, opening, with_span, IsTakenIn, AreDifferent, IsApartFrom, IsSound};
ghost use Rattle.class_shard.specs.Shard.{with_spans, fetched, after_fetch, after_give, freed_by, places, IsEmpty, IsOut};

use central_free::CentralFree;
use std::alloc::{AllocError, Global};
use std::marker::Model;
use tc_units::{Addr, Bag, Class, ClassRow, SpanRef};
use transfer_cache::TransferCache;

/// What a fetch gave.
#[derive(Clone, Copy, Debug, PartialEq, Eq)]
pub enum Fetched {
    /// One object or more.
    Got,
    /// Nothing: the shard has no free object.
    Miss,
}

/// The middle-end of one size class, as in TCMalloc's design document: a transfer cache before a central
/// free list.
#[derive(Drop)]
pub struct ClassShard {
    class: Class,
    transfer: TransferCache,
    central: CentralFree,
}

impl Model for ClassShard {
    ghost use Rattle.class_shard.specs.Shard.{Shard};
    ghost use Rattle.central_free.specs.Central.{IsSound};

    ghost Value = { Shard };

    ghost view = { λ s. record { class = s.class; transfer = s.transfer; central = s.central } };

    ghost invariant = { λ s. IsSound s.central };
}

impl ClassShard {
    /// A shard without objects, whose transfer cache has room for `transfer` of them.
    pub fn open(
        alloc: Global,
        class: Class,
        row: ClassRow,
        transfer: u32,
    ) -> Result<Self, AllocError>
        requires some { 0 < row.size }
        requires fits { row.size ≤ row.pages * page_bytes }
        ensures empty { IfOk result (λ shard. shard ≡ record { class = class; transfer = record { objects = []; room = transfer }; central = record { row = row; spans = [] } }) }
        ensures sound { IfOk result (λ shard. IsSound shard.central) }
    {
        Ok(ClassShard {
            class,
            transfer: TransferCache::open(alloc, transfer)?,
            central: CentralFree::new(alloc, row),
        })
    }

    /// Fetches up to `n` objects into `out`: the last ones of the transfer cache, last first, where it holds
    /// any, and else objects of the spans, one by one.
    pub fn fetch(&mut self, n: u32, out: &mut Bag<Addr>) -> Fetched
        requires some { 0 < n }
        requires room { n ≤ out.old.spare }
        ensures miss { (result ≡ Fetched.Miss) ↔ IsEmpty self.old }
        ensures shard { self.new ≡ after_fetch n self.old }
        ensures out { out.new.items ≡ out.old.items ++ fetched n self.old }
        ensures spare { out.new.spare + length (fetched n self.old) ≡ out.old.spare }
        ensures sound { IsSound self.new.central }

        // What came can be given back where what the transfer cache held can, and so can what was taken
        // before.
        ensures given { All (IsTakenIn self.old.central.spans) self.old.transfer.objects → All (IsTakenIn self.new.central.spans) (fetched n self.old) }
        ensures kept { (a : Addr) → IsTakenIn self.old.central.spans a → IsTakenIn self.new.central.spans a }

        // They are different from each other and from all that is out already.
        ensures owned { (others : List Addr) → IsOut self.old others → IsOut self.new (fetched n self.old ++ others) }

        // Objects move from the shard to the list: none is lost, and none comes twice.
        ensures moves { (test : Addr → Bool) → count_by test (places self.new) + count_by test out.new.items
            ≡ count_by test (places self.old) + count_by test out.old.items }
    {
        let came = if self.transfer.held() == 0 {
            self.central.take(n, out)
        } else {
            self.transfer.take(n, out)
        };
        if came == 0 {
            Fetched::Miss
        } else {
            Fetched::Got
        }
    }

    /// Adds a span of the row's pages, and takes its first `n` objects, or all where it has fewer, into
    /// `out`. Where memory is wanting, all is as before.
    pub fn add_fetch(
        &mut self,
        span: SpanRef,
        n: u32,
        out: &mut Bag<Addr>,
    ) -> Result<(), AllocError>
        requires pages { span.pages ≡ self.old.central.row.pages }
        requires apart { All (IsApartFrom span) self.old.central.spans }
        requires some { 0 < n }
        requires room { n ≤ out.old.spare }
        ensures shard { OnOk result (self.new ≡ with_spans self.old (with_span (opened span self.old.central.row.size n) self.old.central.spans)) }
        ensures out { OnOk result (out.new.items ≡ out.old.items ++ opening span self.old.central.row.size n) }
        ensures any { OnOk result (0 < length (opening span self.old.central.row.size n)) }
        ensures spare { OnOk result (out.new.spare + length (opening span self.old.central.row.size n) ≡ out.old.spare) }
        ensures err { OnErr result ((self.new ≡ self.old) × (out.new ≡ out.old)) }
        ensures sound { IsSound self.new.central }

        // What came can be given back, and so can what was taken before.
        ensures given { OnOk result (All (IsTakenIn self.new.central.spans) (opening span self.old.central.row.size n)) }
        ensures different { OnOk result (AreDifferent (opening span self.old.central.row.size n)) }
        ensures kept { OnOk result ((a : Addr) → IsTakenIn self.old.central.spans a → IsTakenIn self.new.central.spans a) }
        ensures owned { OnOk result ((others : List Addr) → IsOut self.old others → IsOut self.new (opening span self.old.central.row.size n ++ others)) }

        // The span's objects are in the shard and the list then, beside what was there.
        ensures moves { OnOk result ((test : Addr → Bool) → count_by test (places self.new) + count_by test out.new.items
            ≡ count_by test (places self.old) + count_by test out.old.items + count_by test (objects_of self.old.central.row.size span)) }
    {
        self.central.add_take(span, n, out)?;
        Ok(())
    }

    /// Gives a list of objects back: the whole list goes into the transfer cache where it fits, and else
    /// each object to its span, in order. A span all of whose objects are free then leaves the shard, and is
    /// appended to `freed`.
    pub fn give(&mut self, list: &[Addr], freed: &mut Bag<SpanRef>)
        requires taken { All (IsTakenIn self.old.central.spans) list.now }
        requires different { AreDifferent list.now }
        requires room { length list.now ≤ freed.old.spare }
        ensures shard { self.new ≡ after_give list.now self.old }
        ensures freed { freed.new.items ≡ freed.old.items ++ freed_by list.now self.old }
        ensures spare { freed.new.spare + length (freed_by list.now self.old) ≡ freed.old.spare }
        ensures sound { IsSound self.new.central }

        // Any other object that was taken still is.
        ensures kept { (a : Addr) → IsTakenIn self.old.central.spans a → All (λ b. a ≢ b) list.now → IsTakenIn self.new.central.spans a }

        // What else is out stays so.
        ensures owned { (others : List Addr) → IsOut self.old (list.now ++ others) → IsOut self.new others }

        // Objects move from the list to the shard and the spans that left it.
        ensures moves { (test : Addr → Bool) → count_by test (places self.new) + count_by test (flat_map (objects_of self.old.central.row.size) (freed_by list.now self.old))
            ≡ count_by test (places self.old) + count_by test list.now }
    {
        if !self.transfer.put(list) {
            self.central.put(list, freed);
        }
    }
}
