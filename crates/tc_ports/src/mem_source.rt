//! A source over bytes in memory, of which chosen reads fail.
ghost use Rattle.std.specs.Prelude.{◌≡◌, ◌<◌, ◌≤◌, ◌-◌, ◌^◌, ◌↔◌, min, [], length, take, drop, Some, IfOk, OnOk, OnErr, IsErr};
ghost use Rattle.tc_ports.specs.Faults.{Rose, one_more};
ghost use Rattle.tc_ports.specs.Told.{Gave};
ghost use Rattle.tc_ports.specs.Mem.{FailsNext, after_read, after_failed_read};

use crate::fault::Failed;
use crate::source::Source;
use std::marker::Model;

/// Gives its bytes in order. A read whose number is in a list fails.
#[derive(Debug, Drop)]
pub struct MemSource {
    bytes: Vec<u8>,
    at: usize,
    most: usize,
    fails: Vec<u64>,
    calls: u64,
    faults: u64,
}

impl Model for MemSource {
    ghost use Rattle.std.specs.Prelude.{◌≤◌, ◌<◌, ◌^◌, drop, vec_len};
    ghost use Rattle.tc_ports.specs.Mem.{SourceState};

    ghost Value = { SourceState };

    ghost view = { λ s. record { left = drop s.at s.bytes.items; most = s.most; fails = s.fails.items; calls = s.calls; faults = s.faults } };

    ghost invariant = { λ s. (s.at ≤ vec_len s.bytes) × (0 < s.most) × (s.faults < 2 ^ 64) };
}

impl MemSource {
    /// A source of these bytes, of which a read gives as many as fit. The reads with the numbers
    /// in `fails`, from 1, will fail.
    pub fn new(bytes: Vec<u8>, fails: Vec<u64>) -> Self
        ensures left { result.left ≡ bytes.items }
        ensures most { result.most ≡ 2 ^ 64 - 1 }
        ensures fails { result.fails ≡ fails.items }
        ensures calls { result.calls ≡ 0 }
        ensures faults { result.faults ≡ 0 }
    {
        Self::in_pieces(bytes, fails, usize::MAX)
    }

    /// A source of these bytes that gives at most `most` of them in a read. The reads with the
    /// numbers in `fails`, from 1, will fail.
    pub fn in_pieces(bytes: Vec<u8>, fails: Vec<u64>, most: usize) -> Self
        requires { 0 < most }
        ensures left { result.left ≡ bytes.items }
        ensures most { result.most ≡ most }
        ensures fails { result.fails ≡ fails.items }
        ensures calls { result.calls ≡ 0 }
        ensures faults { result.faults ≡ 0 }
    {
        MemSource {
            bytes,
            at: 0,
            most,
            fails,
            calls: 0,
            faults: 0,
        }
    }
}

impl Source for MemSource {
    ghost seen = { λ s. record { left = Some s.left; faults = s.faults; reads = s.calls } };

    /// Gives as many bytes as the buffer holds and are left, and at most `most`, unless its
    /// number is one that fails.
    fn read(&mut self, buf: &mut [u8]) -> Result<usize, Failed>
        // The exact step.
        ensures fails { IsErr result ↔ FailsNext self.old.fails self.old.calls }
        ensures number { IfOk result (λ n. n ≡ min self.old.most (min (length buf.new) (length self.old.left))) }
        ensures bytes { IfOk result (λ n. take n buf.new ≡ take n self.old.left) }
        ensures after { IfOk result (λ n. self.new ≡ after_read self.old n) }
        ensures after_failure { OnErr result (self.new ≡ after_failed_read self.old) }

        // What every source keeps.
        ensures within { IfOk result (λ n. n ≤ length buf.new) }
        ensures given { IfOk result (λ n. Gave (Some self.old.left) (Some self.new.left) n buf.new) }
        ensures end { IfOk result (λ n. n ≡ 0 → 0 < length buf.new → self.old.left ≡ []) }
        ensures nothing_lost { OnErr result (self.new.left ≡ self.old.left) }
        ensures counted { self.new.calls ≡ one_more self.old.calls }
        ensures cause { OnErr result (Rose self.old.faults self.new.faults) }
        ensures count { OnOk result (self.new.faults ≡ self.old.faults) }
        ensures small { self.new.faults < 2 ^ 64 }
    {
        self.calls = self.calls.saturating_add(1);
        if self.fails.contains(&self.calls) {
            self.faults = self.faults.saturating_add(1);
            return Err(Failed);
        }
        let rest = &self.bytes[self.at..];
        let n = rest.len().min(buf.len()).min(self.most);
        buf[..n].copy_from_slice(&rest[..n]);
        self.at += n;
        Ok(n)
    }
}
