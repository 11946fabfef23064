//! Rows by rising length, each found by halving.
ghost use Rattle.std.specs.Prelude.{◌≡◌, ℕ, ◌+◌, ◌^◌, ◌<◌, ◌≤◌, ◌↔◌, ◌==◌, true, [], OnErr, OnOk, if◌then◌else◌, length, slice_get};
ghost use Rattle.heap_sample.specs.Rows.{blocks_at, bytes_at, AreRows, IsPlaceOf, HasRow, IsRowAt};

use crate::sample::{ProfileRow, Sample};
use std::alloc::{AllocError, Global};
use std::marker::Model;

/// The rows of lengths that have samples. Contracts see them as a list, by rising length.
#[derive(Drop)]
pub struct Rows {
    rows: Vec<ProfileRow>,
}

impl Model for Rows {
    ghost use Rattle.std.specs.Prelude.{List};
    ghost use Rattle.heap_sample.specs.declared.sample.ProfileRow.{ProfileRow};
    ghost use Rattle.heap_sample.specs.Rows.{AreRows};

    ghost Value = { List ProfileRow };

    ghost view = { λ r. r.rows.items };

    ghost invariant = { λ r. AreRows r.rows.items };
}

impl Rows {
    /// No rows.
    pub fn new(alloc: Global) -> Self
        ensures { result ≡ [] }
    {
        Rows {
            rows: Vec::new(alloc),
        }
    }

    /// The rows.
    pub fn as_slice(&self) -> &[ProfileRow]
        ensures same { result.now ≡ self.now }
        ensures rows { AreRows result.now }
    {
        &self.rows
    }

    /// Where a length's row stands, or would.
    fn place(&self, len: u64) -> usize
        ensures rows { AreRows self.now }
        ensures place { IsPlaceOf self.now len result }
    {
        self.rows.partition_point(|row| row.len < len)
    }

    /// Whether the row at a place is of a length.
    fn is_of(&self, place: usize, len: u64) -> bool
        ensures { (result ≡ true) ↔ HasRow self.now place len }
    {
        match self.rows.get(place) {
            Some(row) => row.len == len,
            None => false,
        }
    }

    /// Notes a sample. Where memory is wanting, the rows are as before.
    pub fn note(&mut self, sample: Sample) -> Result<(), AllocError>
        requires blocks { blocks_at sample.len self.old + 1 < 2 ^ 64 }
        requires bytes { bytes_at sample.len self.old + sample.weight < 2 ^ 64 }
        ensures blocks { OnOk result ((len : ℕ) → blocks_at len self.new
            ≡ blocks_at len self.old + (if sample.len == len then 1 else 0)) }
        ensures bytes { OnOk result ((len : ℕ) → bytes_at len self.new
            ≡ bytes_at len self.old + (if sample.len == len then sample.weight else 0)) }
        ensures err { OnErr result (self.new ≡ self.old) }
    {
        let place = self.place(sample.len);
        if self.is_of(place, sample.len) {
            let row = &mut self.rows[place];
            row.blocks += 1;
            row.bytes += sample.weight;
            return Ok(());
        }
        self.rows.insert(
            place,
            ProfileRow {
                len: sample.len,
                blocks: 1,
                bytes: sample.weight,
            },
        )?;
        Ok(())
    }

    /// Where the row of a length stands that has one.
    fn find(&self, len: u64) -> usize
        requires { 0 < blocks_at len self.now }
        ensures { IsRowAt self.now len result }
    {
        self.place(len)
    }

    /// Forgets a sample, and its row where that was the last of its length.
    pub fn forget(&mut self, sample: Sample)
        requires held { 0 < blocks_at sample.len self.old }
        requires within { sample.weight ≤ bytes_at sample.len self.old }
        requires last { blocks_at sample.len self.old ≡ 1 → bytes_at sample.len self.old ≡ sample.weight }
        ensures blocks { (len : ℕ) → blocks_at len self.new
            + (if sample.len == len then 1 else 0) ≡ blocks_at len self.old }
        ensures bytes { (len : ℕ) → bytes_at len self.new
            + (if sample.len == len then sample.weight else 0) ≡ bytes_at len self.old }
    {
        let place = self.find(sample.len);
        let row = self.rows[place];
        if row.blocks == 1 {
            self.rows.remove(place);
        } else {
            self.rows[place] = ProfileRow {
                blocks: row.blocks - 1,
                bytes: row.bytes - sample.weight,
                ..row
            };
        }
    }
}
