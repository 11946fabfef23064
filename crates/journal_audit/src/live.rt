//! The live blocks.
ghost use Rattle.std.specs.Prelude.{◌≡◌, ◌+◌, ◌<◌, ◌^◌, false, [], OnOk};
ghost use Rattle.std.specs.List.{list_any};
ghost use Rattle.tc_model.specs.Blocks.{with_block, without_block, meets};

use std::alloc::{AllocError, Global};
use std::collections::BTreeMap;
use std::marker::Model;

/// Blocks that are apart, each with a byte at least, by their addresses.
#[derive(Drop)]
pub struct Live {
    /// The bytes of each block by its address.
    lens: BTreeMap<u64, u64>,
}

impl Model for Live {
    ghost use Rattle.std.specs.Prelude.{List};
    ghost use Rattle.tc_model.specs.Blocks.{Extent};
    ghost use Rattle.journal_audit.specs.Spread.{IsSpread, extents_of};

    ghost Value = { List Extent };

    ghost view = { λ s. extents_of s.lens.entries };

    ghost invariant = { λ s. IsSpread (extents_of s.lens.entries) };
}

impl Live {
    /// No block.
    pub fn new(alloc: Global) -> Self
        ensures { result ≡ [] }
    {
        Live {
            lens: BTreeMap::new(alloc),
        }
    }

    /// Whether a block meets a live one: the last one that begins before its end alone can reach so far.
    pub fn meets(&self, addr: u64, len: u64) -> bool
        requires some { 0 < len }
        requires fits { addr + len < 2 ^ 64 }
        ensures { result ≡ list_any (meets (record { addr = addr; len = len })) self.now }
    {
        match self.lens.range(..addr + len).next_back() {
            Some((begin, bytes)) => addr.saturating_sub(*begin) < *bytes,
            None => false,
        }
    }

    /// Adds a block that meets none.
    pub fn insert(&mut self, addr: u64, len: u64) -> Result<(), AllocError>
        requires some { 0 < len }
        requires apart { list_any (meets (record { addr = addr; len = len })) self.old ≡ false }
        ensures { OnOk result (self.new ≡ with_block (record { addr = addr; len = len }) self.old) }
    {
        match self.lens.insert(addr, len) {
            Ok(_) => Ok(()),
            Err(_) => Err(AllocError),
        }
    }

    /// Takes the block at an address away.
    pub fn remove(&mut self, addr: u64)
        ensures { self.new ≡ without_block addr self.old }
    {
        let _ = self.lens.remove(&addr);
    }
}
