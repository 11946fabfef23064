//! The top calls with memory nodes, over ends in memory, with answers that were worked out by hand. The first small object
//! of a node takes six acts (Fetch, NewSpan, SetSpan, AddFetch, Give, Publish), one whose node is full three (Fetch,
//! NewSpan, Publish), and one that the shard serves three (Fetch, Give, Publish). A free takes three (Take, Lookup, Give).
use crate::outcome::End;
use crate::perthread_tests::{CROSSED, CROSSED_END};
use crate::tests::{Case, assert_case, check, open, refused, replay};
use crate::worker_tests::{Hold, has, replay_at};
use std::alloc::{AllocError, Global};
use std::process::Abort;
use std::sync::Wait;
use std::test::Fail;
use std::thread::Threads;
use tc_ports::OpenGate;
use trace_reader::LineWhy;

const TWO_NODES: &str = "tcreplay numa --nodes 2 --classes T0";

const BY_ORDER: &str = "tcreplay numa --classes T0 --order O --nodes 2";

const BY_WORKERS: &str = "tcreplay numa --workers --classes T0 --nodes 2";

const ONE_BY_WORKERS: &str = "tcreplay numa --classes T0 --nodes 1 --workers";

/// Each of two threads allocates at its own node. The second node begins behind the four hugepages of the first.
const EACH: Case = Case {
    command: TWO_NODES,
    trace: b"cpus 2\nthreads 2\nhuge 4\na 0 0 10\na 1 1 10\n",
    order: b"",
    status: 0,
    end: End::Done,
    text: b"a 0 0 2097152 16\na 1 1 10485760 16\ncalls 2\nlive 2 32\nused 2\nresident 512\nfrag 999\n",
    note: b"",
    picks: &[0, 0, 0, 0, 0, 0, 1, 1, 1, 1, 1, 1],
};

/// The first node is full, and its thread gets nothing though the second one has room.
const FULL: Case = Case {
    trace: b"cpus 2\nthreads 2\nhuge 1\na 0 0 2097152\na 0 1 10\na 1 2 10\n",
    text: b"a 0 0 2097152 2097152\na 0 1 none\na 1 2 4194304 16\ncalls 3\nlive 2 2097168\nused 257\nresident 512\nfrag 499\n",
    ..EACH
};

#[test]
fn a_thread_allocates_at_its_node(rt: HostRuntime) -> Result<(), Fail> {
    let alloc = rt.alloc();
    for case in [EACH, FULL] {
        check(&rt, alloc, &case)?;
    }

    // The hugepages of nodes are numbered on.
    let rows = Case {
        command: "tcreplay numa --rows --nodes 2 --classes T0",
        text: b"a 0 0 2097152 2097152\na 0 1 none\na 1 2 4194304 16\ncalls 3\nlive 2 2097168\nused 257\nresident 512\nfrag 499\nh 1 run 256 1 256 0 0\nh 2 filler 1 1 256 255 0\n",
        ..FULL
    };
    check(&rt, alloc, &rows)?;

    // The calls of the other node come between, and change nothing but the order of the lines.
    let order = Case {
        command: BY_ORDER,
        order: b"0\n1 6\n",
        text: b"a 1 1 10485760 16\na 0 0 2097152 16\ncalls 2\nlive 2 32\nused 2\nresident 512\nfrag 999\n",
        picks: &[0, 1, 1, 1, 1, 1, 1, 0, 0, 0, 0, 0],
        ..EACH
    };
    check(&rt, alloc, &order)?;

    // Heads of slabs, caches and domains say nothing here, and a preemption causes no act.
    let heads = Case {
        trace: b"cpus 2\nthreads 2\nhuge 4\nslab 1\npercpu 0\ndomains 2\np 0 1 1\na 0 0 10\na 1 1 10\n",
        ..EACH
    };
    check(&rt, alloc, &heads)?;
    Ok(())
}

/// A free acts at the node of its address, so the first node's next object is the one that the other thread freed.
#[test]
fn a_free_acts_at_the_node_of_its_address(rt: HostRuntime) -> Result<(), Fail> {
    let freed = Case {
        trace: b"cpus 2\nthreads 2\nhuge 4\na 0 0 10\nf 1 0\na 1 1 10\na 0 2 10\n",
        text: b"a 0 0 2097152 16\nf 1 0 2097152\na 1 1 10485760 16\na 0 2 2097152 16\ncalls 4\nlive 2 32\nused 2\nresident 512\nfrag 999\n",
        picks: &[0, 0, 0, 0, 0, 0, 1, 1, 1, 1, 1, 1, 1, 1, 1, 0, 0, 0],
        ..EACH
    };
    check(&rt, rt.alloc(), &freed)?;
    Ok(())
}

#[test]
fn calls_of_cpus_are_not_at_nodes(rt: HostRuntime) -> Result<(), Fail> {
    let why = LineWhy::NotHere;
    let end = End::BadTrace { line: 2, why };
    let note = b"tcreplay: trace line 2: nothere\n";
    for trace in [
        b"a 0 0 10\nd 0 0\nz 0 0 0 1\n".as_slice(),
        b"threads 2\nz 1 0 0 1\nd 0 0\n".as_slice(),
    ] {
        // It is told before an order file that isn't there.
        for command in [
            TWO_NODES,
            "tcreplay numa --nodes 2 --order nofile --classes T0",
        ] {
            let case = Case {
                trace,
                ..refused(command, 4, end, note)
            };
            check(&rt, rt.alloc(), &case)?;
        }
    }
    Ok(())
}

#[test]
fn words_of_nodes_that_are_refused(rt: HostRuntime) -> Result<(), Fail> {
    for command in [
        "tcreplay numa",
        "tcreplay numa --classes T0",
        "tcreplay numa --nodes 2",
        "tcreplay numa --classes T0 --nodes",
        "tcreplay numa --classes T0 --nodes 0",
        "tcreplay numa --classes T0 --nodes 9",
        "tcreplay numa --classes T0 --nodes 01",
        "tcreplay numa --classes T0 --nodes 258",
        "tcreplay numa --classes T0 --nodes 2 --nodes 2",
        "tcreplay numa --classes T0 --nodes 2 --order O --workers",
        "tcreplay numa --classes T0 --nodes 2 --locks parts",
        "tcreplay numa --classes T0 --nodes 2 --sample 1",
        "tcreplay serial --classes T0 --nodes 2",
        "tcreplay perthread --classes T0 --nodes 2",
    ] {
        check(
            &rt,
            rt.alloc(),
            &refused(command, 2, End::Usage, b"tcreplay: usage\n"),
        )?;
    }
    Ok(())
}

/// Runs a trace by workers: each of these lines is there, in whichever order, and this is behind them.
fn by_workers<R: Threads + Wait + Sync + Abort>(
    rt: &R,
    alloc: Global,
    trace: &[u8],
    lines: &[&[u8]],
    tail: &[u8],
) -> Result<(), AllocError> {
    let mut ends = open(alloc, trace, b"")?;
    let outcome = replay_at(rt, alloc, BY_WORKERS, &mut ends, &OpenGate)?;
    assert_eq!(rt; outcome.end, End::Done);
    for line in lines {
        assert!(rt; has(ends.out.taken(), line));
    }
    assert!(rt; ends.out.taken().ends_with(tail));
    assert_eq!(rt; outcome.order.as_slice().len(), 12);
    Ok(())
}

#[test]
fn workers_of_two_nodes_have_the_same_blocks_in_every_order(rt: HostRuntime) -> Result<(), Fail> {
    let alloc = rt.alloc();
    by_workers(
        &rt,
        alloc,
        EACH.trace,
        &[b"a 0 0 2097152 16\n", b"a 1 1 10485760 16\n"],
        b"calls 2\nlive 2 32\nused 2\nresident 512\nfrag 999\n",
    )?;
    by_workers(
        &rt,
        alloc,
        FULL.trace,
        &[
            b"a 0 0 2097152 2097152\n",
            b"a 0 1 none\n",
            b"a 1 2 4194304 16\n",
        ],
        b"calls 3\nlive 2 2097168\nused 257\nresident 512\nfrag 499\n",
    )?;
    Ok(())
}

#[test]
fn the_worker_that_comes_first_has_the_one_nodes_first_object(rt: HostRuntime) -> Result<(), Fail> {
    let alloc = rt.alloc();
    for (late, lines) in [
        (0, b"a 1 1 2097152 16\na 0 0 2097200 16\n".as_slice()),
        (1, b"a 0 0 2097152 16\na 1 1 2097200 16\n".as_slice()),
    ] {
        let gate = Hold::new(late);
        let mut ends = open(alloc, CROSSED, b"")?;
        let outcome = replay_at(&rt, alloc, ONE_BY_WORKERS, &mut ends, &gate)?;
        assert_eq!(rt; outcome.end, End::Done);
        assert!(rt; ends.out.taken().starts_with(lines));
        assert!(rt; ends.out.taken().ends_with(CROSSED_END));
        assert_eq!(rt; outcome.order.as_slice().len(), 15);
    }
    Ok(())
}

/// Made to be tried with each of its allocations refused in turn: either the whole text was written, or nothing was, and
/// the note tells it. A refusal before the call ends the test.
#[test]
fn memory_that_runs_out_at_nodes(rt: HostRuntime) -> Result<(), Fail> {
    let alloc = rt.alloc();
    let Ok(mut ends) = open(alloc, FULL.trace, b"") else {
        return Ok(());
    };
    let Ok(outcome) = replay(&rt, alloc, TWO_NODES, &mut ends) else {
        return Ok(());
    };
    if outcome.end == End::Memory {
        let memory = refused(TWO_NODES, 7, End::Memory, b"tcreplay: out of memory\n");
        assert_case(&rt, &memory, &outcome, &ends);
    } else {
        assert_case(&rt, &FULL, &outcome, &ends);
    }
    Ok(())
}
