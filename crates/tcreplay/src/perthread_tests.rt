//! The top calls with a cache for each thread, over ends in memory, with answers that were worked out by hand. The first
//! small object of a class takes seven acts (Pop, Fetch, NewSpan, SetSpan, AddFetch, Stock, Publish), and one that its cache
//! serves takes two. A free takes three (Take, Lookup, Add); where its cache is full, it asks another one first, raises its
//! own limit by what that gave up, and adds again, or trims a batch and gives it to the shard.
use crate::outcome::End;
use crate::replay::replay_alone;
use crate::tests::{Case, assert_case, check, open, refused, replay, words_of};
use crate::worker_tests::{Hold, replay_at};
use std::test::Fail;
use tc_ports::OpenGate;
use trace_reader::LineWhy;

const SERIAL: &str = "tcreplay perthread --classes T0";

const ORDER: &str = "tcreplay perthread --order O --classes T0";

const WORKERS: &str = "tcreplay perthread --workers --classes T0";

/// A trace, its text, and how many picks of thread 0 move.
const TWO: Case = Case {
    command: SERIAL,
    trace: b"a 0 0 10\na 0 1 10\n",
    order: b"",
    status: 0,
    end: End::Done,
    text: b"a 0 0 2097152 16\na 0 1 2097200 16\ncalls 2\nlive 2 32\nused 1\nresident 256\nfrag 999\n",
    note: b"",
    picks: &[0; 9],
};

/// A cache with room for one object: nothing else of the first batch fits, and goes to the shard. The free takes the
/// limit that the other thread doesn't use, and the next allocation has the object again.
const STOLEN: Case = Case {
    trace: b"threads 2\npercpu 16\na 0 0 10\nf 0 0\na 0 1 10\na 0 2 10\n",
    text: b"a 0 0 2097152 16\nf 0 0 2097152\na 0 1 2097152 16\na 0 2 2097168 16\ncalls 4\nlive 2 32\nused 1\nresident 256\nfrag 999\n",
    picks: &[0; 18],
    ..TWO
};

/// The same of a thread alone: the full cache gives its object to the shard behind the freed one.
const TRIMMED: Case = Case {
    trace: b"threads 1\npercpu 16\na 0 0 10\nf 0 0\na 0 1 10\na 0 2 10\n",
    text: b"a 0 0 2097152 16\nf 0 0 2097152\na 0 1 2097168 16\na 0 2 2097152 16\ncalls 4\nlive 2 32\nused 1\nresident 256\nfrag 999\n",
    picks: &[0; 20],
    ..TWO
};

/// Each of two threads frees the small block of the other.
pub(crate) const CROSSED: &[u8] = b"cpus 2\nthreads 2\na 0 0 10\na 1 1 10\nf 1 0\nf 0 1\n";

pub(crate) const CROSSED_END: &[u8] = b"calls 4\nlive 0 0\nused 1\nresident 256\nfrag 1000\n";

#[test]
fn a_cache_serves_steals_and_trims(rt: HostRuntime) -> Result<(), Fail> {
    let alloc = rt.alloc();
    for case in [TWO, STOLEN, TRIMMED] {
        check(&rt, alloc, &case)?;
    }

    // The second thread's calls come between the acts of the first: it makes the span, and the first has what its batch
    // leaves.
    let order = Case {
        command: ORDER,
        trace: b"threads 2\na 0 0 10\na 1 1 10\n",
        order: b"0\n1 7\n",
        text: b"a 1 1 2097152 16\na 0 0 2097216 16\ncalls 2\nlive 2 32\nused 1\nresident 256\nfrag 999\n",
        picks: &[0, 1, 1, 1, 1, 1, 1, 1, 0, 0, 0],
        ..TWO
    };
    check(&rt, alloc, &order)?;
    Ok(())
}

/// Heads of CPUs, slabs and domains say nothing here, and a preemption causes no act.
#[test]
fn what_is_of_cpus_has_no_effect(rt: HostRuntime) -> Result<(), Fail> {
    let alloc = rt.alloc();
    let heads = Case {
        trace: b"cpus 3\nslab 1\ndomains 2\np 0 1 2\na 0 0 10\np 0 3 1\na 0 1 10\n",
        ..TWO
    };
    check(&rt, alloc, &heads)?;
    Ok(())
}

#[test]
fn calls_of_cpus_are_not_here(rt: HostRuntime) -> Result<(), Fail> {
    let alloc = rt.alloc();
    let why = LineWhy::NotHere;
    let drain = Case {
        trace: b"a 0 0 10\nd 0 0\nz 0 0 0 1\n",
        ..refused(
            SERIAL,
            4,
            End::BadTrace { line: 2, why },
            b"tcreplay: trace line 2: nothere\n",
        )
    };
    check(&rt, alloc, &drain)?;

    // The least line is told, whichever thread comes first, and before an order file that isn't there.
    let missing = "tcreplay perthread --order nofile --classes T0";
    let resize = Case {
        trace: b"threads 2\nz 1 0 0 1\nd 0 0\n",
        ..refused(
            missing,
            4,
            End::BadTrace { line: 2, why },
            b"tcreplay: trace line 2: nothere\n",
        )
    };
    check(&rt, alloc, &resize)?;

    // A bad line behind it comes first.
    let why = LineWhy::LabelUnknown;
    let bad = Case {
        trace: b"d 0 0\nf 0 3\n",
        ..refused(
            SERIAL,
            4,
            End::BadTrace { line: 2, why },
            b"tcreplay: trace line 2: labelunknown\n",
        )
    };
    check(&rt, alloc, &bad)?;
    Ok(())
}

#[test]
fn words_that_are_refused(rt: HostRuntime) -> Result<(), Fail> {
    let alloc = rt.alloc();
    for command in [
        "tcreplay perthread",
        "tcreplay perthread --classes T0 --order O --workers",
        "tcreplay perthread --classes T0 --workers --workers",
        "tcreplay perthread --classes T0 --locks parts",
        "tcreplay serial --classes T0 --workers",
    ] {
        check(
            &rt,
            alloc,
            &refused(command, 2, End::Usage, b"tcreplay: usage\n"),
        )?;
    }
    Ok(())
}

#[test]
fn one_worker_has_one_order(rt: HostRuntime) -> Result<(), Fail> {
    let alloc = rt.alloc();
    let mut ends = open(alloc, TRIMMED.trace, b"")?;
    let words = words_of(alloc, WORKERS)?;
    let outcome = replay_alone(
        alloc,
        &words,
        &mut ends.trace,
        &mut ends.files,
        &mut ends.out,
        &mut ends.notes,
    );
    assert!(rt; outcome.is_none());

    // Nothing was read, so the trace is there.
    let outcome = replay_at(&rt, alloc, WORKERS, &mut ends, &OpenGate)?;
    assert_case(&rt, &TRIMMED, &outcome, &ends);

    let why = LineWhy::NotHere;
    let mut ends = open(alloc, b"d 0 0\n", b"")?;
    let outcome = replay_at(&rt, alloc, WORKERS, &mut ends, &OpenGate)?;
    let drain = refused(
        WORKERS,
        4,
        End::BadTrace { line: 1, why },
        b"tcreplay: trace line 1: nothere\n",
    );
    assert_case(&rt, &drain, &outcome, &ends);
    Ok(())
}

#[test]
fn the_worker_that_comes_first_has_the_first_object(rt: HostRuntime) -> Result<(), Fail> {
    let alloc = rt.alloc();
    for (late, lines) in [
        (0, b"a 1 1 2097152 16\na 0 0 2097216 16\n".as_slice()),
        (1, b"a 0 0 2097152 16\na 1 1 2097216 16\n".as_slice()),
    ] {
        let gate = Hold::new(late);
        let mut ends = open(alloc, CROSSED, b"")?;
        let outcome = replay_at(&rt, alloc, WORKERS, &mut ends, &gate)?;
        assert_eq!(rt; outcome.end, End::Done);
        assert!(rt; ends.out.taken().starts_with(lines));
        assert!(rt; ends.out.taken().ends_with(CROSSED_END));
        assert_eq!(rt; outcome.order.as_slice().len(), 17);
    }
    Ok(())
}

/// Made to be tried with each of its allocations refused in turn: either the whole text was written, or nothing was, and
/// the note tells it. A refusal before the call ends the test.
#[test]
fn memory_that_runs_out(rt: HostRuntime) -> Result<(), Fail> {
    let alloc = rt.alloc();
    let Ok(mut ends) = open(alloc, STOLEN.trace, b"") else {
        return Ok(());
    };
    let Ok(outcome) = replay(&rt, alloc, SERIAL, &mut ends) else {
        return Ok(());
    };
    if outcome.end == End::Memory {
        let memory = refused(SERIAL, 7, End::Memory, b"tcreplay: out of memory\n");
        assert_case(&rt, &memory, &outcome, &ends);
    } else {
        assert_case(&rt, &STOLEN, &outcome, &ends);
    }
    Ok(())
}
