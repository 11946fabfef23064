//! Generated traces over ends in memory, with answers that were worked out by hand.
use crate::outcome::End;
use crate::tests::{Case, TABLE, assert_case, open, refused, replay, shelf};
use std::test::Fail;
use tc_ports::MemSink;

/// Three calls of eight threads. Of thread 6 and thread 3 alone there are calls.
const GENERATE: &str = "tcreplay gen --classes T0 --seed 1 --calls 3 --threads 8";

/// What the draws behind seed 1 give.
const TRACE: &[u8] = b"cpus 4\nthreads 8\nhuge 1024\na 6 0 108\nf 3 0\na 3 1 702\n";

/// Each request takes the one object of a page. The first one's is freed at another CPU, whose slab has no
/// capacity yet, so it goes to the transfer list, and serves the second one.
const SUMMARY: &[u8] = b"calls 3\nlive 1 8192\nused 1\nresident 256\nfrag 996\n";

/// The first allocation is a switch in, the three instructions of a pop that finds nothing, a growth, a fetch
/// that misses, a new run, its place in the map, the span's first objects, and the name. The free takes the
/// name and looks it up, is switched in, and finds no room to push to and nothing to pop in three instructions
/// each before it gives the object back. The second allocation's pop finds nothing, the class grows, the fetch
/// gets the object, and the name is published.
const PICKS: &[u16] = &[
    6, 6, 6, 6, 6, 6, 6, 6, 6, 6, 3, 3, 3, 3, 3, 3, 3, 3, 3, 3, 3, 3, 3, 3, 3, 3,
];

/// A generation that ends well.
fn generated<'a>() -> Case<'a> {
    Case {
        command: GENERATE,
        trace: b"what stands here isn't read\n",
        order: b"",
        status: 0,
        end: End::Done,
        text: TRACE,
        note: SUMMARY,
        picks: PICKS,
    }
}

#[test]
fn a_generated_trace(rt: HostRuntime) -> Result<(), Fail> {
    let case = generated();
    let mut ends = open(rt.alloc(), case.trace, case.order)?;
    let outcome = replay(&rt, rt.alloc(), case.command, &mut ends)?;
    assert_case(&rt, &case, &outcome, &ends);
    Ok(())
}

#[test]
fn a_generated_trace_that_is_not_taken(rt: HostRuntime) -> Result<(), Fail> {
    let alloc = rt.alloc();

    // Half of the trace was taken: the summary isn't written.
    let mut ends = open(alloc, b"", b"")?;
    ends.out = MemSink::new(alloc, 1000, vec![in alloc; 1u64]?)?;
    let outcome = replay(&rt, alloc, GENERATE, &mut ends)?;
    let half = Case {
        status: 6,
        end: End::WriteFault,
        text: b"cpus 4\nthreads 8\nhuge 1024",
        note: b"tcreplay: write fault\n",
        ..generated()
    };
    assert_case(&rt, &half, &outcome, &ends);

    // The trace was taken, and half of the summary. The status's line comes behind that.
    let mut ends = open(alloc, b"", b"")?;
    ends.notes = MemSink::new(alloc, 100, vec![in alloc; 1u64]?)?;
    let outcome = replay(&rt, alloc, GENERATE, &mut ends)?;
    let trace = Case {
        status: 6,
        end: End::WriteFault,
        note: b"calls 3\nlive 1 8192\nusedtcreplay: write fault\n",
        ..generated()
    };
    assert_case(&rt, &trace, &outcome, &ends);
    Ok(())
}

#[test]
fn generations_that_are_refused(rt: HostRuntime) -> Result<(), Fail> {
    let alloc = rt.alloc();
    for command in [
        "tcreplay gen --classes T0 --seed 1 --calls 3",
        "tcreplay gen --classes T0 --seed 2147483648 --calls 3 --threads 8",
        "tcreplay gen --classes T0 --seed 1 --calls 0 --threads 8",
        "tcreplay gen --classes T0 --seed 1 --calls 500001 --threads 8",
        "tcreplay gen --classes T0 --seed 1 --calls 3 --threads 65",
        "tcreplay gen --classes T0 --seed 1 --calls 3 --threads 8 --rows",
    ] {
        let mut ends = open(alloc, b"", b"")?;
        let outcome = replay(&rt, alloc, command, &mut ends)?;
        let usage = refused(command, 2, End::Usage, b"tcreplay: usage\n");
        assert_case(&rt, &usage, &outcome, &ends);
    }

    // The one load is that of the class table.
    let mut ends = open(alloc, b"", b"")?;
    ends.files = shelf(alloc, TABLE, b"", &[1])?;
    let outcome = replay(&rt, alloc, GENERATE, &mut ends)?;
    let fault = refused(GENERATE, 11, End::FileFault, b"tcreplay: file fault\n");
    assert_case(&rt, &fault, &outcome, &ends);
    Ok(())
}

/// Made to be tried with each of its allocations refused in turn: either both texts were written, or neither
/// was, and the note tells it. A refusal before the call ends the test.
#[test]
fn memory_that_runs_out(rt: HostRuntime) -> Result<(), Fail> {
    let alloc = rt.alloc();
    let Ok(mut ends) = open(alloc, b"", b"") else {
        return Ok(());
    };
    let Ok(outcome) = replay(&rt, alloc, GENERATE, &mut ends) else {
        return Ok(());
    };
    let memory = refused(GENERATE, 7, End::Memory, b"tcreplay: out of memory\n");
    if outcome.end == End::Memory {
        assert_case(&rt, &memory, &outcome, &ends);
    } else {
        assert_case(&rt, &generated(), &outcome, &ends);
    }
    Ok(())
}
