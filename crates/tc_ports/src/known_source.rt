//! A source over a reader which tells its bytes, where those of the reader were known at first.
ghost use Rattle.std.specs.Prelude.{◌≡◌, IfOk, OnOk, OnErr};
ghost use Rattle.tc_ports.specs.Loads.{StaysKnown, known_since};

use crate::adapters::ReaderSource;
use crate::fault::Failed;
use crate::source::Source;
use std::io::Read;
use std::snapshot::Snapshot;

/// A source over a reader. Contracts know what the reader was at first, which takes no memory.
#[derive(Drop)]
pub(crate) struct KnownSource<R: Read> {
    source: ReaderSource<R>,
    first: Snapshot<R>,
    ghost stays: { ∥ StaysKnown (R.remaining first.value) (R.remaining source.reader) ∥₁ },
}

impl<R: Read> KnownSource<R> {
    /// A source over a reader, with no read yet.
    pub(crate) fn new(reader: R) -> Self
        ensures reader { result.source.reader ≡ reader }
        ensures first { result.first.value ≡ reader }
    {
        KnownSource {
            first: Snapshot::of(&reader),
            source: ReaderSource::new(reader),
        }
    }
}

impl<R: Read> Source for KnownSource<R> {
    ghost seen = { λ s. record {
      left = known_since (R.remaining s.first.value) (R.remaining s.source.reader);
      faults = s.source.faults;
      reads = s.source.reads;
    } };

    fn read(&mut self, buf: &mut [u8]) -> Result<usize, Failed> {
        self.source.read(buf)
    }
}
