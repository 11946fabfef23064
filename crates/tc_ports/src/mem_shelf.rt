//! A shelf over files in memory, of which chosen loads fail.
ghost use Rattle.std.specs.Prelude.{◌≡◌, ◌<◌, ◌≤◌, ◌^◌, ◌↔◌, [], length, map, Some, IfOk, OnOk, OnErr, IfErr, IsErrOf, string_bytes};
ghost use Rattle.std.specs.Ordering.{nat_cmp};
ghost use Rattle.std.specs.Cmp.Lexicographic.{slice_cmp};
ghost use Rattle.std.specs.FinMap as map;
ghost use Rattle.std.specs.Option.{option_copied};
ghost use Rattle.tc_ports.specs.Faults.{one_more};
ghost use Rattle.tc_ports.specs.Shelves.{Refused, LoadCounted};
ghost use Rattle.tc_ports.specs.Mem.{FailsNext, after_load, after_load_fault};
ghost use Rattle.tc_ports.specs.Shelved.{entry_of};

use crate::shelf::{LoadFault, Shelf};
use std::alloc::{AllocError, Global};
use std::marker::Model;

// A file on the shelf.
#[derive(Debug, Drop)]
struct Shelved {
    name: String,
    bytes: Vec<u8>,
}

/// Keeps files by name. A load whose number is in a list fails.
#[derive(Debug, Drop)]
pub struct MemShelf {
    files: Vec<Shelved>,
    fails: Vec<u64>,
    calls: u64,
    faults: u64,
}

impl Model for MemShelf {
    ghost use Rattle.std.specs.Prelude.{◌<◌, ◌^◌};
    ghost use Rattle.tc_ports.specs.Mem.{ShelfState, shelf_code};

    ghost Value = { ShelfState };

    ghost coded = { shelf_code };

    ghost use Rattle.tc_ports.specs.Shelved.{files_of};

    ghost view = { λ s. record { files = files_of s.files.items; fails = s.fails.items; calls = s.calls; faults = s.faults } };

    ghost invariant = { λ s. s.faults < 2 ^ 64 };
}

impl MemShelf {
    /// A shelf without files. The loads with the numbers in `fails`, from 1, will fail.
    pub fn new(alloc: Global, fails: Vec<u64>) -> Self
        ensures files { result.files ≡ map.empty }
        ensures fails { result.fails ≡ fails.items }
        ensures calls { result.calls ≡ 0 }
        ensures faults { result.faults ≡ 0 }
    {
        MemShelf {
            files: Vec::new(alloc),
            fails,
            calls: 0,
            faults: 0,
        }
    }

    /// Puts a file on the shelf, in place of one with that name.
    pub fn add(&mut self, name: String, bytes: Vec<u8>) -> Result<(), AllocError>
        ensures ok { OnOk result (self.new ≡ record self.old {
          files = map.insert self.old.files (string_bytes name) bytes.items;
        }) }
        ensures err { OnErr result (self.new ≡ self.old) }
    {
        self.files.insert(0, Shelved { name, bytes })?;
        Ok(())
    }
}

impl Shelf for MemShelf {
    ghost seen = { λ s. record { files = Some s.files; faults = s.faults; loads = s.calls } };

    /// Gives the file, unless the number of the load is one that fails.
    #[tactic(auto, using(crate::proofs::Finds::files_found))]
    fn load(&mut self, alloc: Global, name: &str, limit: u64) -> Result<Vec<u8>, LoadFault>
        // The exact step.
        ensures fails { IsErrOf result LoadFault.Failed ↔ FailsNext self.old.fails self.old.calls }
        ensures after { OnOk result (self.new ≡ after_load self.old) }
        ensures after_fault { IfErr result (λ fault. self.new ≡ after_load_fault self.old fault) }

        // What every shelf keeps.
        ensures within { IfOk result (λ bytes. length bytes.items ≤ limit) }
        ensures whole { IfOk result (λ bytes. map.get self.old.files name.now ≡ Some bytes.items) }
        ensures refused { IfErr result
            (λ fault. Refused (map.get self.old.files name.now) limit fault) }
        ensures same_files { self.new.files ≡ self.old.files }
        ensures counted { self.new.calls ≡ one_more self.old.calls }
        ensures cause { IfErr result (λ fault. LoadCounted fault self.old.faults self.new.faults) }
        ensures count { OnOk result (self.new.faults ≡ self.old.faults) }
        ensures small { self.new.faults < 2 ^ 64 }
    {
        self.calls = self.calls.saturating_add(1);
        if self.fails.contains(&self.calls) {
            self.faults = self.faults.saturating_add(1);
            return Err(LoadFault::Failed);
        }
        let Some(bytes) = bytes_of(&self.files, name) else {
            return Err(LoadFault::Missing);
        };
        if bytes.len() as u64 > limit {
            return Err(LoadFault::TooLong);
        }
        match Vec::from_slice(alloc, bytes) {
            Ok(bytes) => Ok(bytes),
            Err(_) => Err(LoadFault::Memory),
        }
    }
}

// The bytes of the first file with a name.
fn bytes_of<'a>(files: &'a [Shelved], name: &str) -> Option<&'a [u8]>
    ensures { option_copied result ≡ map.find (slice_cmp nat_cmp) name.now (map entry_of files.now) }
{
    for file in files {
        if name == file.name.as_str() {
            return Some(file.bytes.as_slice());
        }
    }
    None
}
