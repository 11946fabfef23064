//! Each public function once, with answers that were worked out by hand.
ghost use Rattle.std.specs.Prelude.{◌<◌, Some};

use crate::{
    Failed, FileShelf, Gate, LoadFault, MemShelf, MemSink, MemSource, OpenGate, ReadAllFault,
    ReaderSource, Shelf, Sink, Source, WriterSink, read_all,
};
use std::alloc::{AllocError, Global};
use std::io;
use std::io::{Read, Write};
use std::test::Fail;
use tc_units::ThreadNo;

#[test]
fn the_ends_over_memory(rt: HostRuntime) -> Result<(), Fail> {
    let alloc = rt.alloc();

    // The second read fails, and loses nothing.
    let mut source = MemSource::new(vec![in alloc; 1u8, 2, 3]?, vec![in alloc; 2u64]?);
    let mut buf = [0u8; 2];
    assert_eq!(rt; source.read(&mut buf), Ok(2));
    assert_eq!(rt; buf, [1, 2]);
    assert_eq!(rt; source.read(&mut buf), Err(Failed));
    assert_eq!(rt; source.read(&mut buf), Ok(1));
    assert_eq!(rt; buf, [3, 2]);
    assert_eq!(rt; source.read(&mut buf), Ok(0));

    // The first put fails by its number, and takes half of the piece; the third has no room.
    let mut sink = MemSink::new(alloc, 4, vec![in alloc; 1u64]?)?;
    assert_eq!(rt; sink.put(&[1, 2, 3]), Err(Failed));
    assert_eq!(rt; sink.put(&[4, 5]), Ok(()));
    assert_eq!(rt; sink.put(&[6, 7]), Err(Failed));
    assert_eq!(rt; sink.put(&[8]), Ok(()));
    assert_eq!(rt; sink.taken(), [1, 4, 5, 8].as_slice());

    // The fourth load fails.
    let mut shelf = MemShelf::new(alloc, vec![in alloc; 4u64]?);
    shelf.add(String::from_str(alloc, "a")?, vec![in alloc; 7u8, 8, 9]?)?;
    assert_eq!(rt; shelf.load(alloc, "b", 9), Err(LoadFault::Missing));
    assert_eq!(rt; shelf.load(alloc, "a", 2), Err(LoadFault::TooLong));
    assert_eq!(rt; shelf.load(alloc, "a", 3)?.as_slice(), [7, 8, 9].as_slice());
    assert_eq!(rt; shelf.load(alloc, "a", 3), Err(LoadFault::Failed));

    OpenGate.pass(ThreadNo(0), 1, 2);
    Ok(())
}

#[test]
fn a_whole_source(rt: HostRuntime) -> Result<(), Fail> {
    let alloc = rt.alloc();
    let mut source = MemSource::new(vec![in alloc; 1u8, 2, 3]?, vec![in alloc]?);
    assert_eq!(rt;
        read_all(alloc, &mut source, 3)?.as_slice(),
        [1, 2, 3].as_slice()
    );

    let mut source = MemSource::new(vec![in alloc; 1u8, 2, 3]?, vec![in alloc]?);
    assert_eq!(rt; read_all(alloc, &mut source, 2), Err(ReadAllFault::TooLong));

    let mut source = MemSource::new(vec![in alloc; 1u8, 2, 3]?, vec![in alloc; 2u64]?);
    assert_eq!(rt;
        read_all(alloc, &mut source, 3),
        Err(ReadAllFault::ReadFault)
    );

    // More than a chunk, read to its end.
    let mut source = MemSource::new(vec![in alloc; 5u8; 40000]?, vec![in alloc]?);
    assert_eq!(rt; read_all(alloc, &mut source, 40000)?.len(), 40000);
    Ok(())
}

fn one_to_five_in(alloc: Global, piece: usize, fails: &[u64]) -> Result<MemSource, AllocError>
    requires { 0 < piece }
{
    let bytes = vec![in alloc; 1u8, 2, 3, 4, 5]?;
    Ok(MemSource::in_pieces(bytes, Vec::from_slice(alloc, fails)?, piece))
}

#[test]
fn a_source_in_pieces(rt: HostRuntime) -> Result<(), Fail> {
    let alloc = rt.alloc();
    let sources = [
        (one_to_five_in(alloc, 1, &[])?, [1usize, 1, 1, 1, 1, 0]),
        (one_to_five_in(alloc, 2, &[])?, [2, 2, 1, 0, 0, 0]),
        (one_to_five_in(alloc, 5, &[])?, [4, 1, 0, 0, 0, 0]),
    ];
    for (mut source, counts) in sources {
        for count in counts {
            assert_eq!(rt; source.read(&mut [0u8; 4]), Ok(count));
        }
    }

    // The fourth read would tell the end.
    let wholes = [
        (one_to_five_in(alloc, 1, &[])?, true),
        (one_to_five_in(alloc, 2, &[5])?, true),
        (one_to_five_in(alloc, 2, &[4])?, false),
    ];
    for (mut source, is_read) in wholes {
        match read_all(alloc, &mut source, 5) {
            Ok(bytes) => {
                assert!(rt; is_read);
                assert_eq!(rt; bytes.as_slice(), [1, 2, 3, 4, 5].as_slice());
            }
            Err(fault) => {
                assert!(rt; !is_read);
                assert_eq!(rt; fault, ReadAllFault::ReadFault);
            }
        }
    }
    Ok(())
}

fn interrupted() -> io::Error {
    io::Error::from(io::ErrorKind::Interrupted)
}

// Gives two bytes a read at most. The call with the number `fails`, from 1, fails.
#[derive(Drop)]
struct Pairs<'a> {
    rest: &'a [u8],
    calls: u64,
    fails: u64,
}

impl Read for Pairs<'_> {
    ghost remaining = { λ s. Some s.rest.now };

    fn read(&mut self, buf: &mut [u8]) -> io::Result<usize> {
        self.calls = self.calls.saturating_add(1);
        if self.calls == self.fails {
            return Err(interrupted());
        }
        let n = self.rest.len().min(buf.len()).min(2);
        buf[..n].copy_from_slice(&self.rest[..n]);
        self.rest = &self.rest[n..];
        Ok(n)
    }
}

// Takes a byte a write. The call with the number `fails`, from 1, fails.
#[derive(Drop)]
struct Singles {
    taken: Vec<u8>,
    calls: u64,
    fails: u64,
}

impl Write for Singles {
    ghost contents = { λ s. Some s.taken.items };

    fn write(&mut self, buf: &[u8]) -> io::Result<usize> {
        self.flush()?;
        if buf.is_empty() {
            return Ok(0);
        }
        self.taken.push(buf[0])?;
        Ok(1)
    }

    fn flush(&mut self) -> io::Result<()> {
        self.calls = self.calls.saturating_add(1);
        if self.calls == self.fails {
            return Err(interrupted());
        }
        Ok(())
    }
}

// Three reads give the bytes, and the fourth tells the end. No failed call is tried again.
#[test]
fn readers(rt: HostRuntime) -> Result<(), Fail> {
    let alloc = rt.alloc();
    let bytes: &[u8] = &[1, 2, 3, 4, 5];
    for fails in 1..6 {
        let reader = Pairs {
            rest: bytes,
            calls: 0,
            fails,
        };
        let whole = read_all(alloc, &mut ReaderSource::new(reader), 5);
        if fails > 4 {
            assert_eq!(rt; whole?.as_slice(), bytes);
        } else {
            assert_eq!(rt; whole, Err(ReadAllFault::ReadFault), "at call {fails}");
        }
    }
    let reader = Pairs {
        rest: bytes,
        calls: 0,
        fails: 9,
    };
    let whole = read_all(alloc, &mut ReaderSource::new(reader), 4);
    assert_eq!(rt; whole, Err(ReadAllFault::TooLong));
    Ok(())
}

// A write for each byte, and then a flush. No failed call is tried again.
#[test]
fn writers(rt: HostRuntime) -> Result<(), Fail> {
    let alloc = rt.alloc();
    for (fails, taken) in [(1u64, 0usize), (2, 1), (3, 2), (4, 2)] {
        let mut writer = Singles {
            taken: Vec::new(alloc),
            calls: 0,
            fails,
        };
        let written = WriterSink::new(&mut writer).put(&[7, 8]);
        assert_eq!(rt; written.is_ok(), fails > 3, "at call {fails}");
        assert_eq!(rt;
            writer.taken.as_slice(),
            &[7, 8][..taken],
            "at call {fails}"
        );
    }
    Ok(())
}

#[test]
fn the_systems_files(rt: HostRuntime) -> Result<(), Fail> {
    let alloc = rt.alloc();
    let mut shelf = FileShelf::new(&rt);
    assert_eq!(rt; shelf.load(alloc, "/dev/null", 3)?.len(), 0);
    assert_eq!(rt; shelf.load(alloc, "/dev/zero", 3), Err(LoadFault::TooLong));
    for missing in ["/no/such/file", "/dev"] {
        assert_eq!(rt; shelf.load(alloc, missing, 3), Err(LoadFault::Failed));
    }
    Ok(())
}
