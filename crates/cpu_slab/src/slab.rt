//! The slots, tops and capacities of all classes at one CPU.
ghost use Rattle.std.specs.Prelude.{◌≡◌, ℕ, ◌+◌, ◌-◌, ◌<◌, ◌≤◌, ◌↔◌, false, All, IfOk, OnErr, OnOk, Err, length, map, replicate, is_some, unwrap_or};
ghost use Rattle.std.specs.Bool.{OnTrue};
ghost use Rattle.std.specs.Int.{div_ceil};
ghost use Rattle.std.specs.Result.{result_err};
ghost use Rattle.cpu_slab.specs.Slots.{null, row_at, slot_of, with_slot, with_top, with_cap, opened};
ghost use Rattle.cpu_slab.specs.Growth.{used, unused, victim, given_up, roomy, growth, grown};
ghost use Rattle.cpu_slab.specs.Sound.{AreSlabLimits, IsSoundRow, IsSoundSlab};

use crate::marks::{self, ClassMarks, Unused};
use crate::slots::ClassSlots;
use std::alloc::{AllocError, Global};
use std::marker::Model;
use tc_units::{Addr, Class, ClassRow};

/// Why a capacity isn't set.
#[derive(Clone, Copy, Debug, PartialEq, Eq)]
pub enum CapFault {
    /// It is above the static greatest capacity, which is `cap` slots.
    OverStatic { cap: u32 },
    /// With it all capacities would have `sum` bytes, which is above the limit.
    OverLimit { sum: u64 },
}

/// For each class its slots, its top and its capacity.
#[derive(Drop)]
pub struct Slab {
    /// Slots of each class.
    most: u32,
    /// The greatest sum of all capacities, in bytes.
    limit: u64,
    /// The sum of all capacities, in bytes.
    counted: u64,
    marks: Vec<ClassMarks>,
    slots: Vec<ClassSlots>,
}

impl Model for Slab {
    ghost use Rattle.cpu_slab.specs.Slots.{CpuSlab};

    ghost Value = { CpuSlab };

    ghost use Rattle.cpu_slab.specs.Layout.{slab_of, IsLaidOut};

    ghost view = { λ s. slab_of s.most s.limit s.marks.items s.slots.items };

    ghost invariant = { λ s. IsLaidOut s.most s.limit s.counted s.marks.items s.slots.items };
}

impl Slab {
    ghost use Rattle.cpu_slab.specs.Caps.{cap_fault, with_cap_if};
    ghost use Rattle.cpu_slab.specs.Layout.{AreMarksOf};

    /// The slab of the classes of a table, with `most` slots for each and at most `limit` bytes of
    /// capacity. All tops and capacities are 0. All memory of the slab is taken here, and that of the
    /// slots isn't written before something is stored there.
    pub fn open(alloc: Global, rows: &[ClassRow], most: u32, limit: u64) -> Result<Self, AllocError>
        requires limits { AreSlabLimits (length rows.now) most limit }
        requires sizes { All (λ row. 0 < row.size) rows.now }
        ensures opened { IfOk result (λ slab. slab ≡ opened rows.now most limit) }
        ensures sound { IfOk result IsSoundSlab }
    {
        let marks = marks_of(alloc, rows)?;
        let slots = empty_slots(alloc, rows.len(), most as usize)?;
        Ok(Slab {
            most,
            limit,
            counted: 0,
            marks,
            slots,
        })
    }

    /// How many slots of a class hold objects.
    pub fn top(&self, class: Class) -> u32
        requires { class.0 < length self.now.rows }
        ensures top { result ≡ (row_at self.now class.0).top }
        ensures sound { IsSoundSlab self.now }
    {
        self.marks_at(class.0 as usize).top
    }

    /// How many slots of a class may be used.
    pub fn cap(&self, class: Class) -> u32
        requires { class.0 < length self.now.rows }
        ensures cap { result ≡ (row_at self.now class.0).cap }
        ensures sound { IsSoundSlab self.now }
    {
        self.marks_at(class.0 as usize).cap
    }

    /// What a slot of a class holds.
    pub fn slot(&self, class: Class, i: u32) -> Addr
        requires class { class.0 < length self.now.rows }
        requires place { i < self.now.most }
        ensures slot { result ≡ slot_of (row_at self.now class.0) i }
    {
        self.slots[class.0 as usize].get(i as usize)
    }

    /// Stores an address in a slot of a class, and changes no other place.
    pub fn set_slot(&mut self, class: Class, i: u32, a: Addr)
        requires class { class.0 < length self.old.rows }
        requires place { i < (row_at self.old class.0).cap }
        ensures stored { self.new ≡ with_slot self.old class.0 i a }
        ensures sound { IsSoundSlab self.new }
    {
        self.slots[class.0 as usize].set(i as usize, a);
    }

    /// Sets the top of a class.
    pub fn set_top(&mut self, class: Class, n: u32)
        requires class { class.0 < length self.old.rows }
        requires within { n ≤ (row_at self.old class.0).cap }
        ensures top { self.new ≡ with_top self.old class.0 n }
        ensures sound { IsSoundSlab self.new }
    {
        self.marks[class.0 as usize].top = n;
    }

    /// Raises the capacity of a class by its batch, or by what its slots still allow (this project's
    /// own rule, after TCMalloc's growth of a per-CPU cache). Where the budget has no room, the other
    /// class with most unused bytes, the least such class, gives up what is short, if it has that
    /// much. `false` exactly where nothing grew.
    pub fn grow(&mut self, class: Class) -> bool
        requires { class.0 < length self.old.rows }
        ensures grown { self.new ≡ grown self.old class.0 }
        ensures grew { result ≡ is_some (growth self.old class.0) }
        ensures nothing { (result ≡ false) ↔ (self.new ≡ self.old) }
        ensures classes { length self.new.rows ≡ length self.old.rows }
        ensures sound { IsSoundSlab self.new }
    {
        let k = class.0 as usize;
        let marks = self.marks_at(k);
        let rise = marks.batch.min(self.most - marks.cap);
        if rise == 0 {
            return false;
        }
        if !self.make_room(k, u64::from(rise) * u64::from(marks.size)) {
            return false;
        }
        self.put_cap(k, marks.cap + rise);
        true
    }

    /// Sets the capacity of a class without objects. It is refused where the class has fewer slots,
    /// or else where the capacities would pass the limit; then nothing changes.
    pub fn set_cap(&mut self, class: Class, n: u32) -> Result<(), CapFault>
        requires class { class.0 < length self.old.rows }
        requires empty { (row_at self.old class.0).top ≡ 0 }
        ensures set { self.new ≡ with_cap_if self.old class.0 n }
        ensures fault { result_err result ≡ cap_fault self.old class.0 n }
        ensures classes { length self.new.rows ≡ length self.old.rows }
        ensures over_static { (result ≡ Err (CapFault.OverStatic self.old.most)) ↔ (self.old.most < n) }
        ensures over_limit { (sum : ℕ) → ((result ≡ Err (CapFault.OverLimit sum))
            ↔ ((n ≤ self.old.most) × (self.old.limit < sum) × (sum ≡ used (with_cap self.old class.0 n).rows))) }
        ensures sound { IsSoundSlab self.new }
    {
        if n > self.most {
            return Err(CapFault::OverStatic { cap: self.most });
        }
        let k = class.0 as usize;
        let sum = self.counted_with(k, n);
        if sum > self.limit {
            return Err(CapFault::OverLimit { sum });
        }
        self.put_cap(k, n);
        Ok(())
    }

    /// The numbers of a class.
    fn marks_at(&self, k: usize) -> ClassMarks
        requires { k < length self.now.rows }
        ensures marks { AreMarksOf result (row_at self.now k) }
        ensures row { IsSoundRow (row_at self.now k) }
        ensures slots { length (row_at self.now k).slots ≡ self.now.most }
        ensures sound { IsSoundSlab self.now }
    {
        self.marks[k]
    }

    /// The bytes of capacity that the limit still allows.
    fn spare(&self) -> u64
        ensures spare { result ≡ self.now.limit - used self.now.rows }
        ensures sound { IsSoundSlab self.now }
    {
        self.limit - self.counted
    }

    /// The class but `k` with most unused bytes, the least such class.
    fn victim(&self, k: usize) -> Option<Unused>
        ensures { result ≡ victim k 0 (map unused self.now.rows) }
    {
        marks::victim(&self.marks, k)
    }

    /// Sees to `need` spare bytes for a class, at the cost of the victim where the budget has fewer.
    fn make_room(&mut self, k: usize, need: u64) -> bool
        requires class { k < length self.old.rows }
        ensures rows { self.new ≡ record self.old { rows = unwrap_or (roomy self.old k need) self.old.rows } }
        ensures made { result ≡ is_some (roomy self.old k need) }
        ensures room { OnTrue result (used self.new.rows + need ≤ self.old.limit) }
        ensures same { row_at self.new k ≡ row_at self.old k }
        ensures classes { length self.new.rows ≡ length self.old.rows }
        ensures sound { IsSoundSlab self.new }
    {
        let spare = self.spare();
        if need <= spare {
            return true;
        }
        match self.victim(k) {
            None => false,
            Some(victim) => self.give_up(victim.class, need - spare),
        }
    }

    /// Takes so many bytes of unused capacity from a class, in whole places, where it has them.
    fn give_up(&mut self, v: usize, short: u64) -> bool
        requires class { v < length self.old.rows }
        ensures rows { self.new ≡ record self.old { rows = unwrap_or (given_up self.old.rows v (div_ceil short (row_at self.old v).size)) self.old.rows } }
        ensures gave { result ≡ is_some (given_up self.old.rows v (div_ceil short (row_at self.old v).size)) }
        ensures freed { OnTrue result (used self.new.rows + short ≤ used self.old.rows) }
        ensures sound { IsSoundSlab self.new }
    {
        let marks = self.marks_at(v);
        let places = short.div_ceil(u64::from(marks.size));
        if places > u64::from(marks.cap - marks.top) {
            return false;
        }
        self.put_cap(v, marks.cap - places as u32);
        true
    }

    /// The sum of all capacities in bytes, with another capacity of a class.
    fn counted_with(&self, k: usize, n: u32) -> u64
        requires class { k < length self.now.rows }
        ensures sum { result ≡ used (with_cap self.now k n).rows }
        ensures sound { IsSoundSlab self.now }
    {
        let marks = self.marks_at(k);
        let size = u64::from(marks.size);
        self.counted - u64::from(marks.cap) * size + u64::from(n) * size
    }

    /// Sets the capacity of a class.
    fn put_cap(&mut self, k: usize, n: u32)
        requires class { k < length self.old.rows }
        requires above { (row_at self.old k).top ≤ n }
        requires below { n ≤ self.old.most }
        requires budget { used (with_cap self.old k n).rows ≤ self.old.limit }
        ensures cap { self.new ≡ with_cap self.old k n }
        ensures sound { IsSoundSlab self.new }
    {
        self.counted = self.counted_with(k, n);
        self.marks[k].cap = n;
    }
}

/// The numbers of all classes at the opening.
fn marks_of(alloc: Global, rows: &[ClassRow]) -> Result<Vec<ClassMarks>, AllocError>
    ensures { IfOk result (λ marks. marks.items ≡ map (λ row. record { size = row.size; batch = row.batch; cap = 0; top = 0 }) rows.now) }
{
    rows.iter()
        .map(|row| ClassMarks {
            size: row.size,
            batch: u32::from(row.batch),
            cap: 0,
            top: 0,
        })
        .collect(alloc)
}

/// For each of so many classes `most` slots, in which nothing was stored.
fn empty_slots(alloc: Global, classes: usize, most: usize) -> Result<Vec<ClassSlots>, AllocError>
    ensures { IfOk result (λ slots. slots.items ≡ replicate classes (replicate most null)) }
{
    let mut slots = Vec::with_capacity(alloc, classes)?;
    for _class in 0..classes {
        slots.push_reserved(ClassSlots::open(alloc, most)?);
    }
    Ok(slots)
}
