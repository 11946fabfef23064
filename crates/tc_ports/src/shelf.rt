//! Where a program loads its files from.
ghost use Rattle.std.specs.Prelude.{◌≡◌, ◌<◌, ◌≤◌, ◌^◌, length, None, Some, IfOk, OnOk, IfErr, IfSome, IsNone};
ghost use Rattle.std.specs.FinMap as map;
ghost use Rattle.tc_ports.specs.Faults.{one_more};
ghost use Rattle.tc_ports.specs.Ends.{Shelving};
ghost use Rattle.tc_ports.specs.Shelves.{Refused, LoadCounted};

use std::alloc::Global;

/// Why a file was not loaded.
#[derive(Clone, Copy, Debug, PartialEq, Eq)]
pub enum LoadFault {
    /// The call failed, and the shelf's count of faults rose.
    Failed,
    /// There is no such file.
    Missing,
    /// The file is longer than the limit.
    TooLong,
    /// Memory ran out.
    Memory,
}

/// A shelf of files by name.
pub trait Shelf {
    // The files, where it tells them, and the counts of loads and of faults.
    ghost seen: { Self → Shelving };

    /// The whole bytes of a file of at most `limit` bytes.
    fn load(&mut self, alloc: Global, name: &str, limit: u64) -> Result<Vec<u8>, LoadFault>
        ensures within { IfOk result (λ bytes. length bytes.items ≤ limit) }
        ensures whole { IfOk result (λ bytes. IfSome (seen self.old).files
            (λ all. map.get all name.now ≡ Some bytes.items)) }
        ensures refused { IfErr result (λ fault. IfSome (seen self.old).files
            (λ all. Refused (map.get all name.now) limit fault)) }
        ensures untold { IsNone (seen self.old).files → result ≡ Err LoadFault.Missing → ⊥ }
        ensures same_files { (seen self.new).files ≡ (seen self.old).files }
        ensures counted { (seen self.new).loads ≡ one_more (seen self.old).loads }

        // A failed load raised the count of faults, and no other load changes it.
        ensures cause { IfErr result (λ fault. LoadCounted fault (seen self.old).faults (seen self.new).faults) }
        ensures count { OnOk result ((seen self.new).faults ≡ (seen self.old).faults) }
        ensures small { (seen self.new).faults < 2 ^ 64 };
}
