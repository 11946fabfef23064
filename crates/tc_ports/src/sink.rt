//! What a program writes its output to.
ghost use Rattle.std.specs.Prelude.{◌≡◌, ◌<◌, ◌^◌, OnOk, OnErr};
ghost use Rattle.tc_ports.specs.Faults.{Rose, one_more};
ghost use Rattle.tc_ports.specs.Ends.{Writing};
ghost use Rattle.tc_ports.specs.Told.{Took, TookPart};

use crate::fault::Failed;

/// A sink of bytes.
pub trait Sink {
    // The bytes that it took, where it tells them, and the counts of puts and of faults.
    ghost seen: { Self → Writing };

    /// Takes a whole piece, or fails and may have taken a part of it. It takes no memory.
    fn put(&mut self, piece: &[u8]) -> Result<(), Failed>
        ensures whole { OnOk result (Took (seen self.old).taken (seen self.new).taken piece.now) }
        ensures part { OnErr result (TookPart (seen self.old).taken (seen self.new).taken piece.now) }
        ensures counted { (seen self.new).puts ≡ one_more (seen self.old).puts }

        // A failed put raised the count of faults, and no other put changes it.
        ensures cause { OnErr result (Rose (seen self.old).faults (seen self.new).faults) }
        ensures count { OnOk result ((seen self.new).faults ≡ (seen self.old).faults) }
        ensures small { (seen self.new).faults < 2 ^ 64 };
}
