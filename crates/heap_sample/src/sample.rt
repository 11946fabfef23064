//! What a profile counts.
ghost use Rattle.std.specs.Prelude.{◌≡◌, nat_lt, if◌then◌else◌};

/// A sampled block.
#[derive(Clone, Copy, Debug, PartialEq, Eq)]
pub struct Sample {
    /// Bytes of the block, the request rounded up.
    pub len: u64,
    /// How many bytes of requests it stands for.
    pub weight: u64,
}

/// The live samples of one length.
#[derive(Clone, Copy, Debug, PartialEq, Eq)]
pub struct ProfileRow {
    /// Bytes of each block.
    pub len: u64,
    /// How many there are.
    pub blocks: u64,
    /// How many bytes of requests they stand for, together.
    pub bytes: u64,
}

/// The greatest weight that live samples had.
#[derive(Clone, Copy, Debug, PartialEq, Eq)]
pub struct Peak {
    /// How many bytes of requests they stood for.
    pub bytes: u64,
    /// The least number of calls after which they did.
    pub call: u64,
}

impl Peak {
    /// The peak behind one more call, after which so many bytes are live.
    pub(crate) fn after(self, bytes: u64, call: u64) -> Self
        ensures { result ≡ (if nat_lt self.bytes bytes then record { bytes = bytes; call = call } else self) }
    {
        if self.bytes < bytes {
            Peak { bytes, call }
        } else {
            self
        }
    }
}
