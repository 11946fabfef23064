//! The top call with worker threads, over ends in memory and over gates that hold them. The answers were
//! worked out by hand: an allocation of a large block has three acts (New, Set, Publish) and a free has four
//! (Take, Lookup, Clear, Free). 300,000 bytes are 37 pages, which are 303,104 bytes. The first small object
//! of a class takes seventeen acts, and one of its span at another CPU fourteen.
use crate::outcome::{End, Outcome};
use crate::replay::{replay_alone, tcreplay};
use crate::tests::{Case, Ends, ONE, ONE_HALF, ONE_TEXT, assert_case, open, refused, words_of};
use std::alloc::{AllocError, Global};
use std::process::Abort;
use std::sync::Wait;
use std::sync::atomic::{AtomicU64, Ordering};
use std::test::Fail;
use std::thread::Threads;
use tc_ports::{Gate, MemSink, MemSource, OpenGate};
use tc_units::ThreadNo;
use trace_reader::LineWhy;

const ONE_LOCK: &str = "tcreplay workers --classes T0 --locks one";

const PART_LOCKS: &str = "tcreplay workers --classes T0 --locks parts";

/// Each of two threads frees the block of the other.
const CROSSED: &[u8] = b"threads 2\na 0 0 300000\na 1 1 300000\nf 1 0\nf 0 1\n";

/// What comes behind its four calls, whatever order came.
const CROSSED_END: &[u8] = b"calls 4\nlive 0 0\nused 0\nresident 256\nfrag 1000\n";

/// The same with small objects, of one class, at two CPUs.
const CROSSED_SMALL: &[u8] = b"cpus 2\nthreads 2\na 0 0 10\na 1 1 10\nf 1 0\nf 0 1\n";

/// What comes behind its four calls: the second thread takes its batch from the span of the first, and no
/// free asks for another one. Each CPU keeps objects of it.
const CROSSED_SMALL_END: &[u8] = b"\ncalls 4\nlive 0 0\nused 1\nresident 256\nfrag 1000\n";

/// Of that, what holds in every order: where both threads miss at once, each makes a span.
const CROSSED_SMALL_LIVE: &[u8] = b"\ncalls 4\nlive 0 0\nused ";

/// A mix of four threads. In every order each allocation is served: even without a free they need 6 of
/// the 8 hugepages at most.
const MIX: &[u8] =
    b"threads 4\nhuge 8\na 0 0 300000\na 1 1 2097152\na 2 2 16384\na 3 3 2500000\nf 1 0\nf 2 1\nr 3 100\na 0 4 100000\nf 3 2\nf 0 3\na 2 5 50000\n";

/// How many calls it has, and which blocks are live at its end: 13 and 7 pages.
const MIX_LIVE: &[u8] = b"calls 11\nlive 2 163840\n";

/// Holds two threads in their first pass until both stand there, and then one of them until the other has
/// ended a call. It gives up after so many looks.
#[derive(Drop)]
pub(crate) struct Hold {
    late: u8,
    standing: AtomicU64,
    ended: AtomicU64,
    given_up: AtomicU64,
}

const MOST_LOOKS: u64 = 100_000_000;

impl Hold {
    pub(crate) fn new(late: u8) -> Self {
        Hold {
            late,
            standing: AtomicU64::new(0),
            ended: AtomicU64::new(0),
            given_up: AtomicU64::new(0),
        }
    }

    /// Waits until a word has come to a number.
    fn wait_for(&self, word: &AtomicU64, least: u64) {
        for _ in 0..MOST_LOOKS {
            if word.load(Ordering::SeqCst) >= least {
                return;
            }
        }
        self.given_up.store(1, Ordering::SeqCst);
    }
}

impl Gate for Hold {
    ghost use Rattle.std.specs.Prelude.{⊤};

    ghost has_let = { λ gate thread turn done. ⊤ };

    fn pass(&self, thread: ThreadNo, turn: u64, done: u64) {
        if turn == 0 {
            self.standing.fetch_add(1, Ordering::SeqCst);
            self.wait_for(&self.standing, 2);
        }
        if thread.0 != self.late {
            self.ended.store(done, Ordering::SeqCst);
        } else if turn == 0 {
            self.wait_for(&self.ended, 1);
        }
    }
}

/// Runs a command line whose worker threads pass a gate.
pub(crate) fn replay_at<R: Threads + Wait + Sync, G: Gate + Sync>(
    rt: &R,
    alloc: Global,
    command: &str,
    ends: &mut Ends,
    gate: &G,
) -> Result<Outcome, AllocError> {
    let words = words_of(alloc, command)?;
    Ok(tcreplay(
        rt,
        alloc,
        &words,
        &mut ends.trace,
        &mut ends.files,
        &mut ends.out,
        &mut ends.notes,
        gate,
    ))
}

/// Runs a case over ends that don't fail.
fn check<R: Threads + Wait + Sync + Abort>(
    rt: &R,
    alloc: Global,
    case: &Case,
) -> Result<(), AllocError> {
    let mut ends = open(alloc, case.trace, case.order)?;
    let outcome = replay_at(rt, alloc, case.command, &mut ends, &OpenGate)?;
    assert_case(rt, case, &outcome, &ends);
    Ok(())
}

/// The order file of an order of threads below 10.
fn order_file(alloc: Global, order: &[u16]) -> Result<Vec<u8>, AllocError> {
    let mut bytes = Vec::new(alloc);
    for thread in order {
        bytes.push(b'0'.saturating_add((*thread % 10) as u8))?;
        bytes.push(b'\n')?;
    }
    Ok(bytes)
}

/// Whether a text has these bytes somewhere.
pub(crate) fn has(text: &[u8], part: &[u8]) -> bool {
    (0..text.len()).any(|from| text[from..].starts_with(part))
}

/// Runs a trace by threads, and gives the same order to `order`: it prints the same text.
fn again<R: Threads + Wait + Sync + Abort>(
    rt: &R,
    alloc: Global,
    command: &str,
    trace: &[u8],
    tail: &[u8],
) -> Result<(), AllocError> {
    let mut ends = open(alloc, trace, b"")?;
    let outcome = replay_at(rt, alloc, command, &mut ends, &OpenGate)?;
    assert_eq!(rt; outcome.end, End::Done);
    assert!(rt; has(ends.out.taken(), tail));
    let order = order_file(alloc, outcome.order.as_slice())?;
    let mut later = open(alloc, trace, &order)?;
    let replayed = replay_at(
        rt,
        alloc,
        "tcreplay order --classes T0 --order O",
        &mut later,
        &OpenGate,
    )?;
    assert_eq!(rt; replayed.end, End::Done);
    assert_eq!(rt; replayed.order.as_slice(), outcome.order.as_slice());
    assert_eq!(rt; later.out.taken(), ends.out.taken());
    Ok(())
}

/// Whether an order begins with so many picks of these threads, one run after another.
fn begins_with(order: &[u16], runs: &[(u16, usize)]) -> bool {
    let mut rest = order;
    for (thread, count) in runs {
        if rest.len() < *count || rest[..*count].iter().any(|pick| *pick != *thread) {
            return false;
        }
        rest = &rest[*count..];
    }
    true
}

/// A run of two threads that a gate holds: which of them is late, and with what the text and the order
/// begin.
#[derive(Clone, Copy)]
struct HeldRun<'a> {
    trace: &'a [u8],
    late: u8,
    lines: &'a [u8],
    runs: &'a [(u16, usize)],
}

/// Two threads that are held as a gate says: the beginning of the text and of the order follow by hand.
/// The thread that isn't held ends its allocation, and then waits for the label of the other. Gives the
/// text, and the length of the order.
fn held<R: Threads + Wait + Sync + Abort>(
    rt: &R,
    alloc: Global,
    command: &str,
    run: &HeldRun,
) -> Result<(Ends, usize), AllocError> {
    let gate = Hold::new(run.late);
    let mut ends = open(alloc, run.trace, b"")?;
    let outcome = replay_at(rt, alloc, command, &mut ends, &gate)?;
    assert_eq!(rt; gate.standing.load(Ordering::SeqCst), 2);
    assert_eq!(rt; gate.given_up.load(Ordering::SeqCst), 0);
    assert_eq!(rt; outcome.end, End::Done);
    assert!(rt; begins_with(outcome.order.as_slice(), run.runs));
    assert!(rt; ends.out.taken().starts_with(run.lines));
    let picks = outcome.order.as_slice().len();
    Ok((ends, picks))
}

#[test]
fn words_for_threads_are_left_alone(rt: HostRuntime) -> Result<(), Fail> {
    let alloc = rt.alloc();
    for command in [ONE_LOCK, PART_LOCKS, "tcreplay workers --rows --classes T0"] {
        let mut ends = open(alloc, ONE, b"")?;
        let words = words_of(alloc, command)?;
        let outcome = replay_alone(
            alloc,
            &words,
            &mut ends.trace,
            &mut ends.files,
            &mut ends.out,
            &mut ends.notes,
        );
        assert!(rt; outcome.is_none());
        assert_eq!(rt; ends.out.taken(), b"".as_slice());
        assert_eq!(rt; ends.notes.taken(), b"".as_slice());

        // The trace is still there, whole.
        let outcome = replay_at(&rt, alloc, ONE_LOCK, &mut ends, &OpenGate)?;
        assert_eq!(rt; outcome.end, End::Done);
        assert_eq!(rt; ends.out.taken(), ONE_TEXT);
    }
    Ok(())
}

#[test]
fn one_thread_has_one_order(rt: HostRuntime) -> Result<(), Fail> {
    let alloc = rt.alloc();
    for command in [ONE_LOCK, PART_LOCKS, "tcreplay workers --classes T0"] {
        let done = Case {
            command,
            trace: ONE,
            order: b"",
            status: 0,
            end: End::Done,
            text: ONE_TEXT,
            note: b"",
            picks: &[0, 0, 0],
        };
        check(&rt, alloc, &done)?;

        let full = Case {
            trace: b"events 2\na 0 0 300000\n",
            status: 9,
            end: End::Full { ticket: 2 },
            text: b"",
            note: b"tcreplay: events limit 2\n",
            picks: &[0, 0],
            ..done
        };
        check(&rt, alloc, &full)?;
        let enough = Case {
            trace: b"events 3\na 0 0 300000\n",
            ..done
        };
        check(&rt, alloc, &enough)?;
    }
    Ok(())
}

/// The thread that comes first gets the one hugepage, and the other one nothing: so the lines of samples differ, and the
/// peak. A request that got nothing is no sample.
#[test]
fn samples_are_of_the_order_that_came(rt: HostRuntime) -> Result<(), Fail> {
    let alloc = rt.alloc();
    for command in [
        "tcreplay workers --sample 1 --classes T0 --locks one",
        "tcreplay workers --classes T0 --sample 1",
    ] {
        for (late, text) in [
            (
                0,
                b"a 1 1 2097152 2080768\na 0 0 none\ncalls 2\nlive 1 2080768\nused 254\nresident 256\nfrag 7\ns 2080768 1 2080768\npeak 2080768 1\n".as_slice(),
            ),
            (
                1,
                b"a 0 0 2097152 2097152\na 1 1 none\ncalls 2\nlive 1 2097152\nused 256\nresident 256\nfrag 0\ns 2097152 1 2097152\npeak 2097152 1\n".as_slice(),
            ),
        ] {
            let gate = Hold::new(late);
            let trace = b"threads 2\nhuge 1\na 0 0 2097152\na 1 1 2080768\n";
            let mut ends = open(alloc, trace, b"")?;
            let outcome = replay_at(&rt, alloc, command, &mut ends, &gate)?;
            assert_eq!(rt; outcome.end, End::Done);
            assert_eq!(rt; ends.out.taken(), text);
        }
    }
    Ok(())
}

#[test]
fn inputs_and_ends_fail_as_without_threads(rt: HostRuntime) -> Result<(), Fail> {
    let alloc = rt.alloc();
    for command in [ONE_LOCK, PART_LOCKS] {
        let why = LineWhy::LabelUnknown;
        let bad = Case {
            trace: b"f 0 3\n",
            ..refused(
                command,
                4,
                End::BadTrace { line: 1, why },
                b"tcreplay: trace line 1: labelunknown\n",
            )
        };
        check(&rt, alloc, &bad)?;

        let mut ends = open(alloc, b"", b"")?;
        ends.trace = MemSource::new(Vec::from_slice(alloc, ONE)?, vec![in alloc; 2u64]?);
        let outcome = replay_at(&rt, alloc, command, &mut ends, &OpenGate)?;
        let fault = refused(command, 5, End::ReadFault, b"tcreplay: read fault\n");
        assert_case(&rt, &fault, &outcome, &ends);

        let mut ends = open(alloc, ONE, b"")?;
        ends.out = MemSink::new(alloc, 1000, vec![in alloc; 1u64]?)?;
        let outcome = replay_at(&rt, alloc, command, &mut ends, &OpenGate)?;
        let fault = Case {
            text: ONE_HALF,
            picks: &[0, 0, 0],
            ..refused(command, 6, End::WriteFault, b"tcreplay: write fault\n")
        };
        assert_case(&rt, &fault, &outcome, &ends);
    }
    Ok(())
}

/// Runs a trace whose two threads have too few picks: so many moved, whichever they were, and nothing is written.
fn check_full<R: Threads + Wait + Sync + Abort>(
    rt: &R,
    alloc: Global,
    command: &str,
    trace: &[u8],
    ticket: u64,
) -> Result<(), AllocError> {
    let mut ends = open(alloc, trace, b"")?;
    let outcome = replay_at(rt, alloc, command, &mut ends, &OpenGate)?;
    assert_eq!(rt; outcome.end, End::Full { ticket });
    assert_eq!(rt; outcome.status, 9);
    assert_eq!(rt; outcome.order.as_slice().len() as u64, ticket);
    assert_eq!(rt; ends.out.taken(), b"".as_slice());
    Ok(())
}

/// Runs a trace whose picks suffice in every order, and answers how many moved.
fn check_fits<R: Threads + Wait + Sync + Abort>(
    rt: &R,
    alloc: Global,
    command: &str,
    trace: &[u8],
    live: &[u8],
) -> Result<usize, AllocError> {
    let mut ends = open(alloc, trace, b"")?;
    let outcome = replay_at(rt, alloc, command, &mut ends, &OpenGate)?;
    assert_eq!(rt; outcome.end, End::Done);
    assert!(rt; has(ends.out.taken(), live));
    Ok(outcome.order.as_slice().len())
}

#[test]
fn two_threads_meet_the_limit(rt: HostRuntime) -> Result<(), Fail> {
    let alloc = rt.alloc();
    let large = b"\ncalls 2\nlive 2 606208\n";
    let small = b"\ncalls 2\nlive 2 32\n";
    for command in [ONE_LOCK, PART_LOCKS] {
        // Two large blocks have six acts together.
        let trace = b"threads 2\nevents 5\na 0 0 300000\na 1 1 300000\n";
        check_full(&rt, alloc, command, trace, 5)?;
        let trace = b"threads 2\nevents 6\na 0 0 300000\na 1 1 300000\n";
        assert_eq!(rt; check_fits(&rt, alloc, command, trace, large)?, 6);

        // Two small objects at CPUs of their own have 31 acts at least, and 34 at most.
        let trace = b"cpus 2\nthreads 2\nevents 20\na 0 0 10\na 1 1 10\n";
        check_full(&rt, alloc, command, trace, 20)?;
        let trace = b"cpus 2\nthreads 2\nevents 34\na 0 0 10\na 1 1 10\n";
        assert!(rt; check_fits(&rt, alloc, command, trace, small)? >= 31);

        // At one CPU each of them may come there three times, so they have 38 acts at most.
        let trace = b"threads 2\nevents 38\na 0 0 10\na 1 1 10\n";
        assert!(rt; check_fits(&rt, alloc, command, trace, small)? <= 38);
    }
    Ok(())
}

#[test]
fn threads_run_at_once_and_their_order_is_printed(rt: HostRuntime) -> Result<(), Fail> {
    let alloc = rt.alloc();
    for command in [ONE_LOCK, PART_LOCKS] {
        for run in [
            HeldRun {
                trace: CROSSED,
                late: 0,
                lines: b"a 1 1 2097152 303104\na 0 0 2400256 303104\n",
                runs: &[(1, 3), (0, 3)],
            },
            HeldRun {
                trace: CROSSED,
                late: 1,
                lines: b"a 0 0 2097152 303104\na 1 1 2400256 303104\n",
                runs: &[(0, 3), (1, 3)],
            },
        ] {
            let (ends, picks) = held(&rt, alloc, command, &run)?;
            assert_eq!(rt; picks, 14);
            assert!(rt; has(ends.out.taken(), CROSSED_END));
        }
    }
    Ok(())
}

#[test]
fn threads_at_small_objects_run_at_once(rt: HostRuntime) -> Result<(), Fail> {
    let alloc = rt.alloc();
    for command in [ONE_LOCK, PART_LOCKS] {
        for run in [
            HeldRun {
                trace: CROSSED_SMALL,
                late: 0,
                lines: b"a 1 1 2097152 16\na 0 0 2097216 16\n",
                runs: &[(1, 17), (0, 14)],
            },
            HeldRun {
                trace: CROSSED_SMALL,
                late: 1,
                lines: b"a 0 0 2097152 16\na 1 1 2097216 16\n",
                runs: &[(0, 17), (1, 14)],
            },
        ] {
            let (ends, _) = held(&rt, alloc, command, &run)?;
            assert!(rt; has(ends.out.taken(), CROSSED_SMALL_END));
        }
    }
    Ok(())
}

#[test]
fn the_order_that_came_replays_to_the_same_text(rt: HostRuntime) -> Result<(), Fail> {
    let alloc = rt.alloc();
    for command in [ONE_LOCK, PART_LOCKS] {
        for _ in 0..20 {
            again(&rt, alloc, command, MIX, MIX_LIVE)?;
            again(&rt, alloc, command, CROSSED, CROSSED_END)?;
        }
    }
    Ok(())
}

/// Made to be tried with each of its allocations refused in turn: either the whole text was written, or
/// nothing was, and the note tells it. A refusal before the call ends the test.
fn refused_in_turn<R: Threads + Wait + Sync + Abort>(rt: &R, alloc: Global, command: &str) {
    let Ok(mut ends) = open(alloc, CROSSED_SMALL, b"") else {
        return;
    };
    let Ok(outcome) = replay_at(rt, alloc, command, &mut ends, &OpenGate) else {
        return;
    };
    if outcome.end == End::Memory {
        let memory = refused(command, 7, End::Memory, b"tcreplay: out of memory\n");
        assert_case(rt, &memory, &outcome, &ends);
    } else {
        assert_eq!(rt; outcome.end, End::Done);
        assert!(rt; has(ends.out.taken(), CROSSED_SMALL_LIVE));
    }
}

#[test]
fn memory_that_runs_out_under_one_lock(rt: HostRuntime) -> Result<(), Fail> {
    refused_in_turn(&rt, rt.alloc(), ONE_LOCK);
    Ok(())
}

#[test]
fn memory_that_runs_out_under_part_locks(rt: HostRuntime) -> Result<(), Fail> {
    refused_in_turn(&rt, rt.alloc(), PART_LOCKS);
    Ok(())
}
