//! A sink over memory with a room that is made at its opening, of which chosen puts fail.
ghost use Rattle.std.specs.Prelude.{◌≡◌, ◌<◌, ◌≤◌, ◌^◌, [], ◌++◌, length, Some, IfOk, OnOk, OnErr, IsErr};
ghost use Rattle.tc_ports.specs.Faults.{Rose, one_more};
ghost use Rattle.tc_ports.specs.Told.{Took, TookPart};
ghost use Rattle.tc_ports.specs.Mem.{FailsNext, half_of, after_put, after_failed_put};

use crate::fault::Failed;
use crate::sink::Sink;
use std::alloc::{AllocError, Global};
use std::marker::Model;

/// Keeps the bytes that it takes. A put whose number is in a list fails, and so does one that is
/// longer than the room that is left.
#[derive(Debug, Drop)]
pub struct MemSink {
    bytes: Vec<u8>,
    limit: usize,
    fails: Vec<u64>,
    calls: u64,
    faults: u64,
}

impl Model for MemSink {
    ghost use Rattle.std.specs.Prelude.{◌-◌, ◌≤◌, ◌<◌, ◌^◌, vec_len, vec_capacity};
    ghost use Rattle.tc_ports.specs.Mem.{SinkState};

    ghost Value = { SinkState };

    ghost view = { λ s. record { taken = s.bytes.items; room = s.limit - vec_len s.bytes; fails = s.fails.items; calls = s.calls; faults = s.faults } };

    ghost invariant = { λ s. (vec_len s.bytes ≤ s.limit) × (s.limit ≤ vec_capacity s.bytes) × (s.faults < 2 ^ 64) };
}

impl MemSink {
    /// An empty sink with room for `room` bytes. The puts with the numbers in `fails`, from 1,
    /// will fail.
    pub fn new(alloc: Global, room: usize, fails: Vec<u64>) -> Result<Self, AllocError>
        ensures taken { IfOk result (λ sink. sink.taken ≡ []) }
        ensures room { IfOk result (λ sink. sink.room ≡ room) }
        ensures fails { IfOk result (λ sink. sink.fails ≡ fails.items) }
        ensures calls { IfOk result (λ sink. sink.calls ≡ 0) }
        ensures faults { IfOk result (λ sink. sink.faults ≡ 0) }
    {
        Ok(MemSink {
            bytes: Vec::with_capacity(alloc, room)?,
            limit: room,
            fails,
            calls: 0,
            faults: 0,
        })
    }

    /// The bytes that it has taken so far.
    pub fn taken(&self) -> &[u8]
        ensures { result.now ≡ self.now.taken }
    {
        self.bytes.as_slice()
    }
}

impl Sink for MemSink {
    ghost seen = { λ s. record { taken = Some s.taken; faults = s.faults; puts = s.calls } };

    /// Takes the piece, unless there is no room for it or its number is one that fails. Without
    /// room it takes nothing; a put that fails by its number takes the first half.
    fn put(&mut self, piece: &[u8]) -> Result<(), Failed>
        // The exact step.
        ensures no_room { self.old.room < length piece.now →
            IsErr result × (self.new ≡ after_failed_put self.old []) }
        ensures listed { FailsNext self.old.fails self.old.calls → IsErr result }
        ensures ok_room { OnOk result (length piece.now ≤ self.old.room) }
        ensures after { OnOk result (self.new ≡ after_put self.old piece.now) }
        ensures fails { length piece.now ≤ self.old.room →
            OnErr result (FailsNext self.old.fails self.old.calls) }
        ensures after_failure { length piece.now ≤ self.old.room →
            OnErr result (self.new ≡ after_failed_put self.old (half_of piece.now)) }

        // What every sink keeps.
        ensures whole { OnOk result (Took (Some self.old.taken) (Some self.new.taken) piece.now) }
        ensures part { OnErr result (TookPart (Some self.old.taken) (Some self.new.taken) piece.now) }
        ensures counted { self.new.calls ≡ one_more self.old.calls }
        ensures cause { OnErr result (Rose self.old.faults self.new.faults) }
        ensures count { OnOk result (self.new.faults ≡ self.old.faults) }
        ensures small { self.new.faults < 2 ^ 64 }
    {
        self.calls = self.calls.saturating_add(1);
        if piece.len() > self.limit - self.bytes.len() {
            self.faults = self.faults.saturating_add(1);
            return Err(Failed);
        }
        if self.fails.contains(&self.calls) {
            self.faults = self.faults.saturating_add(1);
            let half = &piece[..piece.len() / 2];
            self.bytes.extend_from_slice(half).unwrap();
            return Err(Failed);
        }
        self.bytes.extend_from_slice(piece).unwrap();
        Ok(())
    }
}
