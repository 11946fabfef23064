//! What a program reads its input from.
ghost use Rattle.std.specs.Prelude.{◌≡◌, ◌<◌, ◌≤◌, ◌^◌, [], length, IfOk, OnOk, OnErr, IfSome};
ghost use Rattle.tc_ports.specs.Faults.{Rose, one_more};
ghost use Rattle.tc_ports.specs.Ends.{Reading};
ghost use Rattle.tc_ports.specs.Told.{Gave};

use crate::fault::Failed;

/// A source of bytes.
pub trait Source {
    // The bytes that are left, where it tells them, and the counts of reads and of faults.
    ghost seen: { Self → Reading };

    /// Reads bytes into the front of a buffer, and answers how many. `Ok(0)` for a buffer that is
    /// not empty is the end.
    fn read(&mut self, buf: &mut [u8]) -> Result<usize, Failed>
        ensures within { IfOk result (λ n. n ≤ length buf.new) }
        ensures given { IfOk result (λ n. Gave (seen self.old).left (seen self.new).left n buf.new) }
        ensures end { IfOk result (λ n. n ≡ 0 → 0 < length buf.new →
            IfSome (seen self.old).left (λ bytes. bytes ≡ [])) }
        ensures nothing_lost { OnErr result ((seen self.new).left ≡ (seen self.old).left) }
        ensures counted { (seen self.new).reads ≡ one_more (seen self.old).reads }

        // A failed read raised the count of faults, and no other read changes it.
        ensures cause { OnErr result (Rose (seen self.old).faults (seen self.new).faults) }
        ensures count { OnOk result ((seen self.new).faults ≡ (seen self.old).faults) }
        ensures small { (seen self.new).faults < 2 ^ 64 };
}
