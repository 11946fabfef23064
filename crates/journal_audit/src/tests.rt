//! Journals that were judged by hand.
use crate::AuditWhy::{Address, Arena, Form, Length, Lines, Missing, Order, Overlap};
use crate::{AuditWhy, Verdict, audit, journal_law};
use std::alloc::{AllocError, Global};
use std::test::Fail;
use tc_model::{Call, Config, Plan, Planned, Script};
use tc_units::{Class, ClassRow, CpuNo, Label};

/// An arena of one hugepage: the bytes from 2097152 to 4194303.
fn config() -> Config {
    Config {
        cpus: 2,
        threads: 2,
        huge: 1,
        ..Config::default()
    }
}

const ROWS: [ClassRow; 3] = [
    ClassRow {
        size: 16,
        pages: 1,
        batch: 4,
    },
    ClassRow {
        size: 64,
        pages: 1,
        batch: 2,
    },
    ClassRow {
        size: 8192,
        pages: 1,
        batch: 2,
    },
];

fn malloc(label: u32, size: u64) -> Call {
    Call::Malloc {
        label: Label(label),
        size,
    }
}

fn free(label: u32) -> Call {
    Call::Free {
        label: Label(label),
    }
}

fn script(alloc: Global, calls: &[Call]) -> Result<Script, AllocError> {
    let mut planned = Plan::new(alloc);
    for call in calls {
        planned.push(Planned {
            line: 1,
            call: *call,
            moved: None,
        })?;
    }
    Ok(Script { calls: planned })
}

/// The verdict on a journal of two threads.
fn judged(
    alloc: Global,
    first: &[Call],
    second: &[Call],
    text: &[u8],
) -> Result<Verdict, AllocError> {
    let scripts = vec![in alloc; script(alloc, first)?, script(alloc, second)?]?;
    audit(alloc, &config(), &ROWS, scripts.as_slice(), text)
}

fn no(line: u32, why: AuditWhy) -> Verdict {
    Verdict::No { line, why }
}

fn yes(calls: u64) -> Verdict {
    Verdict::Yes { calls }
}

#[test]
fn two_blocks(rt: HostRuntime) -> Result<(), Fail> {
    let first = [malloc(0, 10), malloc(1, 10)];
    for (text, verdict) in [
        (
            b"a 0 0 2097152 16\na 0 1 2097168 16\ncalls 2\nlive 2 32\nused 1\nresident 256\nfrag 999\n".as_slice(),
            yes(2),
        ),
        (b"a 0 0 2097168 16\r\na 0 1 2097152 16".as_slice(), yes(2)),
        (b"a 0 0 none\na 0 1 none\n".as_slice(), yes(2)),
        (
            b"a 0 0 2097152 16\na 0 1 2097160 16".as_slice(),
            no(2, Overlap),
        ),
        (
            b"a 0 0 2097152 16\na 0 1 2097152 16".as_slice(),
            no(2, Overlap),
        ),
        (
            b"a 0 0 2097168 16\na 0 1 2097153 16".as_slice(),
            no(2, Overlap),
        ),
        (b"a 0 0 2097152 16".as_slice(), no(2, Missing)),
        (
            b"a 0 0 2097152 16\ncalls 1\na 0 1 2097168 16".as_slice(),
            no(2, Missing),
        ),
        (b"calls".as_slice(), no(1, Missing)),
        (b"".as_slice(), no(1, Missing)),
        (b"a 0 0 2097152 10".as_slice(), no(1, Length)),
        (b"a 0 0 2097152 64".as_slice(), no(1, Length)),
        (b"a 0 0 2097152 0".as_slice(), no(1, Length)),

        // 2^64 has 65 bits.
        (b"a 0 0 18446744073709551616 16".as_slice(), no(1, Form)),
        (b"a 0 0 2097152".as_slice(), no(1, Form)),
        (b"a 0 0".as_slice(), no(1, Form)),
        (b"a 0 0 2097152 16 ".as_slice(), no(1, Form)),
        (b"a 0  0 2097152 16".as_slice(), no(1, Form)),
        (b"a 0 00 2097152 16".as_slice(), no(1, Form)),
        (b"a 0 0 nothing".as_slice(), no(1, Form)),
        (b"p 0 1 1".as_slice(), no(1, Form)),
        (b"\n".as_slice(), no(1, Form)),
        (b"a 0 0 2097152 16\n\r".as_slice(), no(2, Form)),

        // No such thread, also where 256 threads more would be thread 0; another thread's call; another
        // label; and a call too many.
        (b"a 2 0 2097152 16".as_slice(), no(1, Order)),
        (b"a 256 0 2097152 16".as_slice(), no(1, Order)),
        (b"a 18446744073709551615 0 none".as_slice(), no(1, Order)),
        (b"a 1 0 2097152 16".as_slice(), no(1, Order)),
        (b"a 0 1 2097152 16".as_slice(), no(1, Order)),
        (b"a 0 4294967296 2097152 16".as_slice(), no(1, Order)),
        (b"f 0 0 2097152".as_slice(), no(1, Order)),
        (
            b"a 0 0 2097152 16\na 0 0 2097168 16".as_slice(),
            no(2, Order),
        ),
        (
            b"a 0 0 none\na 0 1 none\na 0 1 none".as_slice(),
            no(3, Order),
        ),

        // One page before the arena and one behind it, a last byte behind it, and an end that passes 64 bits.
        (b"a 0 0 2088960 16".as_slice(), no(1, Arena)),
        (b"a 0 0 2097151 16".as_slice(), no(1, Arena)),
        (b"a 0 0 4194304 16".as_slice(), no(1, Arena)),
        (b"a 0 0 4194289 16".as_slice(), no(1, Arena)),
        (b"a 0 0 18446744073709551615 16".as_slice(), no(1, Arena)),
        (b"a 0 0 4194288 16\na 0 1 2097152 16".as_slice(), yes(2)),

        // The first of two rules that a line fails, and the first of two lines.
        (b"a 2 0 2097152".as_slice(), no(1, Form)),
        (b"a 2 0 4194304 10".as_slice(), no(1, Order)),
        (b"a 0 0 4194304 10".as_slice(), no(1, Length)),
        (
            b"a 0 0 2097152 16\na 0 1 2097160 10\nx".as_slice(),
            no(2, Length),
        ),
    ] {
        assert_eq!(rt;
            judged(rt.alloc(), &first, &[], text)?,
            verdict,
            "at {text:?}"
        );
    }
    Ok(())
}

#[test]
fn freed_blocks(rt: HostRuntime) -> Result<(), Fail> {
    let first = [malloc(0, 10), malloc(1, 8193), free(0)];
    let second = [free(1), malloc(2, 0)];
    for (text, verdict) in [
        // 8193 bytes are two pages, and the last block stands where the first one was.
        (
            b"a 0 0 2097152 16\na 0 1 2105344 16384\nf 1 1 2105344\nf 0 0 2097152\na 1 2 2097160 16".as_slice(),
            yes(5),
        ),
        (
            b"a 0 0 none\na 0 1 2105344 16384\nf 0 0 none\nf 1 1 2105344\na 1 2 2121712 16".as_slice(),
            yes(5),
        ),

        // Blocks that meet, though both are freed later.
        (
            b"a 0 0 2105344 16\na 0 1 2097160 16384\nf 0 0 2105344\nf 1 1 2097160\na 1 2 none".as_slice(),
            no(2, Overlap),
        ),
        (
            b"a 0 0 2097152 16\na 0 1 2097136 16384".as_slice(),
            no(2, Arena),
        ),
        (
            b"a 0 0 2097152 16\na 0 1 2105344 8192".as_slice(),
            no(2, Length),
        ),

        // Another address, none for a block, a block for none, and before the allocation's line.
        (
            b"a 0 0 2097152 16\na 0 1 2105344 16384\nf 0 0 2097160".as_slice(),
            no(3, Address),
        ),
        (
            b"a 0 0 2097152 16\na 0 1 2105344 16384\nf 0 0 2105344".as_slice(),
            no(3, Address),
        ),
        (
            b"a 0 0 2097152 16\na 0 1 2105344 16384\nf 0 0 none".as_slice(),
            no(3, Address),
        ),
        (
            b"a 0 0 none\na 0 1 2105344 16384\nf 0 0 2097152".as_slice(),
            no(3, Address),
        ),
        (b"f 1 1 2105344".as_slice(), no(1, Address)),
        (b"f 1 1 none".as_slice(), no(1, Address)),
    ] {
        assert_eq!(rt;
            judged(rt.alloc(), &first, &second, text)?,
            verdict,
            "at {text:?}"
        );
    }
    Ok(())
}

#[test]
fn other_calls(rt: HostRuntime) -> Result<(), Fail> {
    let first = [Call::Release { pages: 5 }, Call::Drain { cpu: CpuNo(1) }];
    let second = [Call::Resize {
        cpu: CpuNo(1),
        class: Class(2),
        cap: 7,
    }];
    for (text, verdict) in [
        // Counts, owners and answers may be any.
        (b"r 0 9\nd 0 1 ok 3\nz 1 1 2 7 ok".as_slice(), yes(3)),
        (
            b"z 1 1 2 7 busy 300\nr 0 0\nd 0 1 busy 18446744073709551615".as_slice(),
            yes(3),
        ),
        (
            b"z 1 1 2 7 overstatic 1\nr 0 5\nd 0 1 ok 0".as_slice(),
            yes(3),
        ),
        (
            b"z 1 1 2 7 overlimit 1572872\nr 0 5\nd 0 1 ok 0".as_slice(),
            yes(3),
        ),
        (b"r 0\n".as_slice(), no(1, Form)),
        (b"r 0 5 5\n".as_slice(), no(1, Form)),
        (b"r 0 5\nd 0 1 3".as_slice(), no(2, Form)),
        (b"r 0 5\nd 0 1 ok".as_slice(), no(2, Form)),
        (b"r 0 5\nd 0 1 overstatic 3".as_slice(), no(2, Form)),
        (b"z 1 1 2 7".as_slice(), no(1, Form)),
        (b"z 1 1 2 7 ok 1".as_slice(), no(1, Form)),
        (b"z 1 1 2 7 busy".as_slice(), no(1, Form)),
        (b"d 0 1 ok 3".as_slice(), no(1, Order)),
        (b"r 0 5\nd 0 0 ok 3".as_slice(), no(2, Order)),
        (b"z 1 0 2 7 ok".as_slice(), no(1, Order)),
        (b"z 1 1 258 7 ok".as_slice(), no(1, Order)),
        (b"z 1 1 2 8 ok".as_slice(), no(1, Order)),
        (b"z 1 1 2 7 ok\nr 1 5".as_slice(), no(2, Order)),
    ] {
        assert_eq!(rt;
            judged(rt.alloc(), &first, &second, text)?,
            verdict,
            "at {text:?}"
        );
    }
    Ok(())
}

#[test]
fn a_line_too_many(rt: HostRuntime) -> Result<(), Fail> {
    let alloc = rt.alloc();
    let mut planned = Plan::new(alloc);
    let mut text = Vec::new(alloc);
    for _line in 0..1_000_000 {
        planned.push(Planned {
            line: 1,
            call: Call::Release { pages: 1 },
            moved: None,
        })?;
        text.extend_from_slice(b"r 0 1\n")?;
    }
    let full = text.len();
    let scripts = [Script { calls: planned }];
    for (last, verdict) in [
        (b"calls 1000000\n".as_slice(), yes(1_000_000)),
        (b"".as_slice(), yes(1_000_000)),
        (b"r 0 1\n".as_slice(), no(1_000_001, Lines)),
        (b"\n".as_slice(), no(1_000_001, Lines)),
    ] {
        text.truncate(full);
        text.extend_from_slice(last)?;
        let judged = audit(alloc, &config(), &ROWS, &scripts, text.as_slice())?;
        assert_eq!(rt; judged, verdict, "at {last:?}");
    }
    Ok(())
}

/// The law is a contract: the call does nothing.
#[test]
fn the_law_is_there() {
    journal_law();
}

/// Made to be tried with each of its allocations refused in turn: a verdict comes, and is the right one,
/// or none does.
#[test]
fn memory_that_runs_out(rt: HostRuntime) {
    let first = [malloc(0, 10), malloc(1, 10), free(0)];
    let text = b"a 0 0 2097152 16\na 0 1 2097168 16\nf 0 0 2097152";
    if let Ok(verdict) = judged(rt.alloc(), &first, &[], text) {
        assert_eq!(rt; verdict, yes(3));
    }
}
