//! Ends over std's readers, writers and files.
ghost use Rattle.std.specs.Prelude.{◌≡◌, ◌≤◌, ◌<◌, ◌^◌, length, take, None, IfOk, OnOk, OnErr, IfErr};
ghost use Rattle.std.specs.Io.KnownBytes.{Appends, Consumes, IsAtEnd, Keeps};
ghost use Rattle.tc_ports.specs.Faults.{Rose, one_more};
ghost use Rattle.tc_ports.specs.Told.{AppendsPart};
ghost use Rattle.tc_ports.specs.Shelves.{LoadCounted};
ghost use Rattle.tc_ports.specs.Loads.{Loads, load_fault};

use crate::fault::Failed;
use crate::known_source::KnownSource;
use crate::shelf::{LoadFault, Shelf};
use crate::sink::Sink;
use crate::source::Source;
use crate::whole::{ReadAllFault, read_all};
use std::alloc::Global;
use std::fs;
use std::io::{Read, Write};
use std::rt::Files;

/// A source over a reader. Each error of the reader is a fault.
#[derive(Drop)]
pub struct ReaderSource<R> {
    reader: R,
    reads: u64,
    faults: u64,
    ghost small: { faults < 2 ^ 64 },
}

impl<R: Read> ReaderSource<R> {
    /// A source over a reader, with no read yet.
    pub fn new(reader: R) -> Self
        ensures reader { result.reader ≡ reader }
        ensures reads { result.reads ≡ 0 }
        ensures faults { result.faults ≡ 0 }
    {
        ReaderSource {
            reader,
            reads: 0,
            faults: 0,
        }
    }
}

impl<R: Read> Source for ReaderSource<R> {
    ghost seen = { λ s. record { left = None; faults = s.faults; reads = s.reads } };

    /// Gives what one read of the reader gives.
    fn read(&mut self, buf: &mut [u8]) -> Result<usize, Failed>
        // What is known of the reader's bytes.
        ensures consumes { IfOk result (λ n. Consumes (R.remaining self.old.reader)
            (R.remaining self.new.reader) (take n buf.new)) }
        ensures reader_end { IfOk result (λ n. n ≡ 0 → 0 < length buf.new →
            IsAtEnd (R.remaining self.new.reader)) }
        ensures keeps { OnErr result (Keeps (R.remaining self.old.reader)
            (R.remaining self.new.reader)) }

        // What every source keeps.
        ensures within { IfOk result (λ n. n ≤ length buf.new) }
        ensures counted { self.new.reads ≡ one_more self.old.reads }
        ensures cause { OnErr result (Rose self.old.faults self.new.faults) }
        ensures count { OnOk result (self.new.faults ≡ self.old.faults) }
        ensures small { self.new.faults < 2 ^ 64 }
    {
        self.reads = self.reads.saturating_add(1);
        match self.reader.read(buf) {
            Ok(n) => Ok(n),
            Err(_) => {
                self.faults = self.faults.saturating_add(1);
                Err(Failed)
            }
        }
    }
}

/// A sink over a writer. Each error of the writer is a fault, and so is a write that takes
/// nothing.
#[derive(Drop)]
pub struct WriterSink<W> {
    writer: W,
    puts: u64,
    faults: u64,
    ghost small: { faults < 2 ^ 64 },
}

impl<W: Write> WriterSink<W> {
    /// A sink over a writer, with no put yet.
    pub fn new(writer: W) -> Self
        ensures writer { result.writer ≡ writer }
        ensures puts { result.puts ≡ 0 }
        ensures faults { result.faults ≡ 0 }
    {
        WriterSink {
            writer,
            puts: 0,
            faults: 0,
        }
    }
}

impl<W: Write> Sink for WriterSink<W> {
    ghost seen = { λ s. record { taken = None; faults = s.faults; puts = s.puts } };

    /// Writes the piece, and flushes.
    fn put(&mut self, piece: &[u8]) -> Result<(), Failed>
        // What is known of the writer's bytes.
        ensures appends { OnOk result
            (Appends (W.contents self.old.writer) (W.contents self.new.writer) piece.now) }
        ensures appends_part { OnErr result
            (AppendsPart (W.contents self.old.writer) (W.contents self.new.writer) piece.now) }

        // What every sink keeps.
        ensures counted { self.new.puts ≡ one_more self.old.puts }
        ensures cause { OnErr result (Rose self.old.faults self.new.faults) }
        ensures count { OnOk result (self.new.faults ≡ self.old.faults) }
        ensures small { self.new.faults < 2 ^ 64 }
    {
        self.puts = self.puts.saturating_add(1);
        let written = write_piece(&mut self.writer, piece);
        if written.is_err() {
            self.faults = self.faults.saturating_add(1);
        }
        written
    }
}

// Writes until the whole piece is taken, and flushes.
fn write_piece<W: Write>(writer: &mut W, piece: &[u8]) -> Result<(), Failed>
    ensures appends { OnOk result
        (Appends (W.contents writer.old) (W.contents writer.new) piece.now) }
    ensures appends_part { OnErr result
        (AppendsPart (W.contents writer.old) (W.contents writer.new) piece.now) }
{
    let mut rest = piece;
    while !rest.is_empty() {
        match writer.write(rest) {
            Ok(n) if n > 0 => rest = &rest[n..],
            _ => return Err(Failed),
        }
    }
    match writer.flush() {
        Ok(()) => Ok(()),
        Err(_) => Err(Failed),
    }
}

/// A shelf over the system's files. A file that cannot be opened or read is a fault, also one
/// that is not there.
#[derive(Drop)]
pub struct FileShelf<'a, R> {
    rt: &'a R,
    loads: u64,
    faults: u64,
    ghost small: { faults < 2 ^ 64 },
}

impl<'a, R: Files> FileShelf<'a, R> {
    /// A shelf over the files of a runtime, with no load yet.
    pub fn new(rt: &'a R) -> Self
        ensures loads { result.loads ≡ 0 }
        ensures faults { result.faults ≡ 0 }
    {
        FileShelf {
            rt,
            loads: 0,
            faults: 0,
        }
    }
}

impl<'a, R: Files> Shelf for FileShelf<'a, R> {
    ghost seen = { λ s. record { files = None; faults = s.faults; loads = s.loads } };

    fn load(&mut self, alloc: Global, name: &str, limit: u64) -> Result<Vec<u8>, LoadFault>
        // What is known of a file that was opened.
        ensures opened { Loads R.File.remaining limit result }

        // What every shelf keeps.
        ensures within { IfOk result (λ bytes. length bytes.items ≤ limit) }
        ensures untold { result ≡ Err LoadFault.Missing → ⊥ }
        ensures counted { self.new.loads ≡ one_more self.old.loads }
        ensures cause { IfErr result (λ fault. LoadCounted fault self.old.faults self.new.faults) }
        ensures count { OnOk result (self.new.faults ≡ self.old.faults) }
        ensures small { self.new.faults < 2 ^ 64 }
    {
        self.loads = self.loads.saturating_add(1);
        let loaded = load_file(alloc, self.rt, name, limit);
        if let Err(LoadFault::Failed) = &loaded {
            self.faults = self.faults.saturating_add(1);
        }
        loaded
    }
}

// The bytes of a file of at most `limit` bytes. It reads at most one byte more.
fn load_file<R: Files>(alloc: Global, rt: &R, name: &str, limit: u64) -> Result<Vec<u8>, LoadFault>
    ensures opened { Loads R.File.remaining limit result }
    ensures within { IfOk result (λ bytes. length bytes.items ≤ limit) }
    ensures told { result ≡ Err LoadFault.Missing → ⊥ }
{
    match fs::open(rt, name) {
        Ok(file) => answer_of(read_all(alloc, &mut KnownSource::new(file), limit)),
        Err(_) => Err(LoadFault::Failed),
    }
}

// What a load answers for what reading the file gave.
fn answer_of(whole: Result<Vec<u8>, ReadAllFault>) -> Result<Vec<u8>, LoadFault>
    ensures ok { IfOk whole (λ bytes. result ≡ Ok bytes) }
    ensures err { IfErr whole (λ fault. result ≡ Err (load_fault fault)) }
{
    match whole {
        Ok(bytes) => Ok(bytes),
        Err(ReadAllFault::ReadFault) => Err(LoadFault::Failed),
        Err(ReadAllFault::TooLong) => Err(LoadFault::TooLong),
        Err(ReadAllFault::Memory) => Err(LoadFault::Memory),
    }
}
