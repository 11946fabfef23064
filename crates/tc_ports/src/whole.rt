//! Reading a whole source, up to a limit.
ghost use Rattle.std.specs.Prelude.{◌≡◌, ◌<◌, ◌≤◌, ◌+◌, ◌↔◌, [], length, None, IfOk, OnOk, IfErr, IfSome, IsNone};
ghost use Rattle.tc_ports.specs.Whole.{ReadAllCounted, ReadAllRefused};

use crate::fault::Failed;
use crate::source::Source;
use std::alloc::Global;

/// Why a source was not read to its end.
#[derive(Clone, Copy, Debug, PartialEq, Eq)]
pub enum ReadAllFault {
    /// A read failed.
    ReadFault,
    /// There are more bytes than the limit.
    TooLong,
    /// Memory ran out.
    Memory,
}

/// Bytes that are read at a time.
const CHUNK: usize = 16384;

/// All the bytes of a source that has at most `limit` of them. Each read but the last gives a byte
/// at least. It never reads more than one byte past the limit, and that one byte only where it answers `TooLong`; after a
/// refusal the source has lost what was read and no more.
pub fn read_all<S: Source>(
    alloc: Global,
    source: &mut S,
    limit: u64,
) -> Result<Vec<u8>, ReadAllFault>
    ensures within { IfOk result (λ all. length all.items ≤ limit) }
    ensures whole { IfOk result (λ all. IfSome (S.seen source.old).left (λ bytes. all.items ≡ bytes)) }
    ensures end { OnOk result (IfSome (S.seen source.new).left (λ rest. rest ≡ [])) }
    ensures refused { IfErr result
        (λ fault. ReadAllRefused fault (S.seen source.old).left (S.seen source.new).left limit) }
    ensures reads { (S.seen source.new).reads ≤ (S.seen source.old).reads + limit + 1 }
    ensures each_gives { IfOk result
        (λ all. (S.seen source.new).reads ≤ (S.seen source.old).reads + length all.items + 1) }
    ensures tells { IsNone (S.seen source.new).left ↔ IsNone (S.seen source.old).left }

    // Only a read that failed raises the count of faults.
    ensures cause { IfErr result
        (λ fault. ReadAllCounted fault (S.seen source.old).faults (S.seen source.new).faults) }
    ensures count { OnOk result ((S.seen source.new).faults ≡ (S.seen source.old).faults) }
{
    let mut all = Vec::new(alloc);
    let mut chunk = [0u8; CHUNK];
    loop {
        let room = limit - all.len() as u64;
        let ask = room.saturating_add(1).min(CHUNK as u64) as usize;
        match source.read(&mut chunk[..ask]) {
            Err(Failed) => return Err(ReadAllFault::ReadFault),
            Ok(0) => return Ok(all),
            Ok(n) if n as u64 > room => return Err(ReadAllFault::TooLong),
            Ok(n) => {
                if all.extend_from_slice(&chunk[..n]).is_err() {
                    return Err(ReadAllFault::Memory);
                }
            }
        }
    }
}
