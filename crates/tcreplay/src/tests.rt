//! The top calls over ends in memory, with answers that were worked out by hand.
use crate::outcome::{End, Outcome};
use crate::replay::{replay_alone, tcreplay};
use std::alloc::{AllocError, Global};
use std::process::Abort;
use std::test::Fail;
use tc_ports::{MemShelf, MemSink, MemSource, OpenGate};

/// A class table, which stands on the shelf as `T0`.
pub(crate) const TABLE: &[u8] = b"16,1,4\n64,1,2\n8192,1,2\n";

/// Command lines whose words are in the grammar. The order file stands on the shelf as `O`.
const SERIAL: &str = "tcreplay serial --classes T0";

const ORDER: &str = "tcreplay order --order O --classes T0";

/// The journal stands on the shelf as `O`, as an order file does.
const AUDIT: &str = "tcreplay audit --journal O --classes T0";

/// 37 pages of 8192 bytes, at the start of the first hugepage.
pub(crate) const ONE: &[u8] = b"a 0 0 300000\n";

/// What comes of it: of 256 pages 219 hold no block, which is 855.4 thousandths.
pub(crate) const ONE_TEXT: &[u8] =
    b"a 0 0 2097152 303104\ncalls 1\nlive 1 303104\nused 37\nresident 256\nfrag 855\n";

/// The first 36 of its 73 bytes.
pub(crate) const ONE_HALF: &[u8] = b"a 0 0 2097152 303104\ncalls 1\nlive 1 ";

/// A small object, which misses everywhere.
const SMALL: &[u8] = b"a 0 0 10\n";

/// What comes of it: 16 bytes of the first page.
const SMALL_TEXT: &[u8] = b"a 0 0 2097152 16\ncalls 1\nlive 1 16\nused 1\nresident 256\nfrag 999\n";

/// Its 10 bytes are past one step of 8.
const SAMPLED: &str = "tcreplay serial --sample 8 --classes T0";

const SAMPLED_TEXT: &[u8] =
    b"a 0 0 2097152 16\ncalls 1\nlive 1 16\nused 1\nresident 256\nfrag 999\ns 16 1 8\npeak 8 1\n";

/// The first 32 of its 64 bytes.
const SMALL_HALF: &[u8] = b"a 0 0 2097152 16\ncalls 1\nlive 1 ";

/// Three threads, of which the last one frees what the first one allocates.
const THREADS: &[u8] = b"threads 3\na 0 0 300000\na 1 1 300000\nf 2 0\n";

/// Small objects of two threads. The first one misses everywhere, and its second call is cut before its pop: the
/// second thread's calls come between, and what it frees last serves that pop.
const OBJECTS: &[u8] = b"threads 2\na 0 0 10\na 0 1 10\na 1 2 10\na 1 3 10\nf 1 2\nf 1 3\n";

const OBJECTS_ORDER: &[u8] = b"0 21\n1 27\n";

/// What comes of it: 2 of the 512 objects of 16 bytes of one page are live, and 256 pages are backed.
const OBJECTS_TEXT: &[u8] =
    b"a 0 0 2097152 16\na 1 2 2097200 16\na 1 3 2097184 16\nf 1 2 2097200\nf 1 3 2097184\na 0 1 2097184 16\ncalls 6\nlive 2 32\nused 1\nresident 256\nfrag 999\n";

/// A call, and what comes of it.
#[derive(Clone, Copy)]
pub(crate) struct Case<'a> {
    pub command: &'a str,
    pub trace: &'a [u8],
    pub order: &'a [u8],
    pub status: u8,
    pub end: End,
    pub text: &'a [u8],
    pub note: &'a [u8],
    pub picks: &'a [u16],
}

/// The ends of a call.
#[derive(Drop)]
pub(crate) struct Ends {
    pub trace: MemSource,
    pub files: MemShelf,
    pub out: MemSink,
    pub notes: MemSink,
}

/// A shelf with a class table and an order file, of which the loads with the numbers in `fails` will
/// fail.
pub(crate) fn shelf(
    alloc: Global,
    table: &[u8],
    order: &[u8],
    fails: &[u64],
) -> Result<MemShelf, AllocError> {
    let mut files = MemShelf::new(alloc, Vec::from_slice(alloc, fails)?);
    let name = String::from_str(alloc, "T0")?;
    files.add(name, Vec::from_slice(alloc, table)?)?;
    let name = String::from_str(alloc, "O")?;
    files.add(name, Vec::from_slice(alloc, order)?)?;
    Ok(files)
}

/// Ends over a trace and an order file, none of which fails.
pub(crate) fn open(alloc: Global, trace: &[u8], order: &[u8]) -> Result<Ends, AllocError> {
    Ok(Ends {
        trace: MemSource::new(Vec::from_slice(alloc, trace)?, Vec::new(alloc)),
        files: shelf(alloc, TABLE, order, &[])?,
        out: MemSink::new(alloc, 1000, Vec::new(alloc))?,
        notes: MemSink::new(alloc, 100, Vec::new(alloc))?,
    })
}

/// The words of a command line behind the program's name.
pub(crate) fn words_of(alloc: Global, command: &str) -> Result<Vec<String>, AllocError> {
    let mut words = Vec::new(alloc);
    for word in command.split(' ').skip(1) {
        words.push(String::from_str(alloc, word)?)?;
    }
    Ok(words)
}

/// Runs a command line that asks for no worker threads.
pub(crate) fn replay(
    rt: &impl Abort,
    alloc: Global,
    command: &str,
    ends: &mut Ends,
) -> Result<Outcome, AllocError> {
    let words = words_of(alloc, command)?;
    let outcome = replay_alone(
        alloc,
        &words,
        &mut ends.trace,
        &mut ends.files,
        &mut ends.out,
        &mut ends.notes,
    );
    Ok(outcome.expect(rt, "no threads"))
}

/// Asserts how a call ended, what it wrote and noted, and its order.
pub(crate) fn assert_case(rt: &impl Abort, case: &Case, outcome: &Outcome, ends: &Ends) {
    assert_eq!(rt; outcome.end, case.end);
    assert_eq!(rt; outcome.status, case.status, "at {:?}", case.end);
    assert_eq!(rt; ends.out.taken(), case.text, "at {:?}", case.end);
    assert_eq!(rt; ends.notes.taken(), case.note, "at {:?}", case.end);
    assert_eq!(rt; outcome.order.as_slice(), case.picks, "at {:?}", case.end);
}

/// Runs a case over ends that don't fail.
pub(crate) fn check(rt: &impl Abort, alloc: Global, case: &Case) -> Result<(), AllocError> {
    let mut ends = open(alloc, case.trace, case.order)?;
    let outcome = replay(rt, alloc, case.command, &mut ends)?;
    assert_case(rt, case, &outcome, &ends);
    Ok(())
}

/// A call that is refused at an end, with its status and its note.
pub(crate) fn refused<'a>(command: &'a str, status: u8, end: End, note: &'a [u8]) -> Case<'a> {
    Case {
        command,
        trace: ONE,
        order: b"",
        status,
        end,
        text: b"",
        note,
        picks: &[],
    }
}

#[test]
fn runs(rt: HostRuntime) -> Result<(), Fail> {
    let alloc = rt.alloc();
    let done = Case {
        command: SERIAL,
        trace: ONE,
        order: b"",
        status: 0,
        end: End::Done,
        text: ONE_TEXT,
        note: b"",
        picks: &[0, 0, 0],
    };
    check(&rt, alloc, &done)?;

    // The last thread waits at first. The second one takes the first place, and then the first one takes
    // the place behind it, which is free again in the end.
    let threads = Case {
        command: ORDER,
        trace: THREADS,
        order: b"1\n2\n0 3\n1 2\n",
        text: b"a 1 1 2097152 303104\na 0 0 2400256 303104\nf 2 0 2400256\ncalls 3\nlive 1 303104\nused 37\nresident 256\nfrag 855\n",
        picks: &[1, 0, 0, 0, 1, 1, 2, 2, 2, 2],
        ..done
    };
    check(&rt, alloc, &threads)?;

    // Without picks the calls run in the order of the trace, and the rows come behind the summary.
    let rows = Case {
        command: "tcreplay order --rows --classes T0 --order O",
        trace: b"huge 2\nthreads 2\na 1 0 300000\na 0 1 2000000\nf 1 1\n",
        order: b"",
        text: b"a 1 0 2097152 303104\na 0 1 4194304 2007040\nf 1 1 4194304\ncalls 3\nlive 1 303104\nused 37\nresident 512\nfrag 927\nh 1 filler 37 1 256 219 0\nh 2 free 0 0 256 256 0\n",
        picks: &[1, 1, 1, 0, 0, 0, 1, 1, 1, 1],
        ..done
    };
    check(&rt, alloc, &rows)?;

    // Two acts may be done: the text is never written.
    let full = Case {
        trace: b"events 2\na 0 0 300000\n",
        status: 9,
        end: End::Full { ticket: 2 },
        text: b"",
        note: b"tcreplay: events limit 2\n",
        picks: &[0, 0],
        ..done
    };
    check(&rt, alloc, &full)?;
    Ok(())
}

#[test]
fn picks_of_a_small_object(rt: HostRuntime) -> Result<(), Fail> {
    let alloc = rt.alloc();
    let whole = Case {
        command: SERIAL,
        trace: SMALL,
        order: b"",
        status: 0,
        end: End::Done,
        text: SMALL_TEXT,
        note: b"",
        picks: &[0; 17],
    };
    check(&rt, alloc, &whole)?;

    // Seventeen picks may move, and then five.
    let enough = Case {
        trace: b"events 17\na 0 0 10\n",
        ..whole
    };
    check(&rt, alloc, &enough)?;
    let full = Case {
        trace: b"events 5\na 0 0 10\n",
        status: 9,
        end: End::Full { ticket: 5 },
        text: b"",
        note: b"tcreplay: events limit 5\n",
        picks: &[0; 5],
        ..whole
    };
    check(&rt, alloc, &full)?;

    // Five picks of the thread that waits aren't entered; its free, at the other CPU, then has ten.
    let waiting = Case {
        command: ORDER,
        trace: b"cpus 2\nthreads 2\na 0 0 10\nf 1 0\n",
        order: b"1 5\n",
        text: b"a 0 0 2097152 16\nf 1 0 2097152\ncalls 2\nlive 0 0\nused 1\nresident 256\nfrag 1000\n",
        picks: &[
            0, 0, 0, 0, 0, 0, 0, 0, 0, 0, 0, 0, 0, 0, 0, 0, 0, 1, 1, 1, 1, 1, 1, 1, 1, 1, 1,
        ],
        ..whole
    };
    check(&rt, alloc, &waiting)?;
    Ok(())
}

/// A text with a profile of samples behind it: the sums of what the thread asks for pass steps.
#[test]
fn profiles_of_samples(rt: HostRuntime) -> Result<(), Fail> {
    let alloc = rt.alloc();

    // The sums 16, 32 and 96 pass 0, 1 and 3 steps of 32: label 1 stands for 32 bytes until it is freed, label 2 for 64.
    let mut ends = open(alloc, b"a 0 0 16\na 0 1 16\na 0 2 64\nf 0 1\n", b"")?;
    let outcome = replay(
        &rt,
        alloc,
        "tcreplay serial --sample 32 --classes T0",
        &mut ends,
    )?;
    let text =
        b"a 0 0 2097152 16\na 0 1 2097200 16\na 0 2 2105344 64\nf 0 1 2097200\ncalls 4\nlive 2 80\nused 2\nresident 256\nfrag 999\ns 64 1 64\npeak 96 3\n";
    assert_eq!(rt; outcome.end, End::Done);
    assert_eq!(rt; ends.out.taken(), text.as_slice());

    // No call reaches no peak.
    let nothing = Case {
        command: "tcreplay serial --classes T0 --sample 1073741824",
        trace: b"",
        order: b"",
        status: 0,
        end: End::Done,
        text: b"calls 0\nlive 0 0\nused 0\nresident 0\nfrag 0\npeak 0 0\n",
        note: b"",
        picks: &[],
    };
    check(&rt, alloc, &nothing)?;

    // The profile comes behind the rows. A length is what the request is rounded to, and a weight is of requests.
    let rows = Case {
        command: "tcreplay order --sample 300000 --rows --order O --classes T0",
        trace: b"huge 1\na 0 0 300000\n",
        text: b"a 0 0 2097152 303104\ncalls 1\nlive 1 303104\nused 37\nresident 256\nfrag 855\nh 1 filler 37 1 256 219 0\ns 303104 1 300000\npeak 300000 1\n",
        picks: &[0, 0, 0],
        ..nothing
    };
    check(&rt, alloc, &rows)?;
    Ok(())
}

#[test]
fn words_that_are_refused(rt: HostRuntime) -> Result<(), Fail> {
    let alloc = rt.alloc();
    for command in [
        "tcreplay",
        "tcreplay serial",
        "tcreplay serial --classes",
        "tcreplay serial --classes -x",
        "tcreplay serial --classes T0 T0",
        "tcreplay serial --classes T0 --classes T0",
        "tcreplay serial --classes T0 --order O",
        "tcreplay serial --rows --classes T0 --rows",
        "tcreplay order --classes T0",
        "tcreplay workers --locks one",
        "tcreplay workers --classes T0 --locks two",
        "tcreplay workers --classes T0 --locks",
        "tcreplay workers --classes T0 --order O",
        "tcreplay serial --classes T0 --locks one",
        "tcreplay serial --classes T0 --sample",
        "tcreplay serial --classes T0 --sample 0",
        "tcreplay serial --classes T0 --sample 1073741825",
        "tcreplay serial --classes T0 --sample 1 --sample 1",
        "tcreplay perthread --classes T0 --sample 1",
    ] {
        check(
            &rt,
            alloc,
            &refused(command, 2, End::Usage, b"tcreplay: usage\n"),
        )?;
    }

    // The put of the note fails, and takes its half.
    let mut ends = open(alloc, ONE, b"")?;
    ends.notes = MemSink::new(alloc, 100, vec![in alloc; 1u64]?)?;
    let outcome = replay(&rt, alloc, "tcreplay serial", &mut ends)?;
    let usage = refused("tcreplay serial", 2, End::Usage, b"tcreplay");
    assert_case(&rt, &usage, &outcome, &ends);
    Ok(())
}

#[test]
fn failing_ends(rt: HostRuntime) -> Result<(), Fail> {
    let alloc = rt.alloc();
    let mut ends = open(alloc, b"", b"")?;
    ends.trace = MemSource::new(Vec::from_slice(alloc, ONE)?, vec![in alloc; 2u64]?);
    let outcome = replay(&rt, alloc, SERIAL, &mut ends)?;
    let fault = refused(SERIAL, 5, End::ReadFault, b"tcreplay: read fault\n");
    assert_case(&rt, &fault, &outcome, &ends);

    // The second load is that of the order file.
    let mut ends = open(alloc, ONE, b"")?;
    ends.files = shelf(alloc, TABLE, b"", &[2])?;
    let outcome = replay(&rt, alloc, ORDER, &mut ends)?;
    let fault = refused(ORDER, 11, End::FileFault, b"tcreplay: file fault\n");
    assert_case(&rt, &fault, &outcome, &ends);

    // The whole text is one put, of which half is taken. The run has ended by then.
    let mut ends = open(alloc, SMALL, b"")?;
    ends.out = MemSink::new(alloc, 1000, vec![in alloc; 1u64]?)?;
    let outcome = replay(&rt, alloc, SERIAL, &mut ends)?;
    let fault = Case {
        text: SMALL_HALF,
        picks: &[0; 17],
        ..refused(SERIAL, 6, End::WriteFault, b"tcreplay: write fault\n")
    };
    assert_case(&rt, &fault, &outcome, &ends);

    // Of the note, too, half is taken: 8 of 16 bytes.
    let mut ends = open(alloc, b"", b"")?;
    ends.notes = MemSink::new(alloc, 100, vec![in alloc; 1u64]?)?;
    let alone = "tcreplay serial";
    let outcome = replay(&rt, alloc, alone, &mut ends)?;
    assert_case(
        &rt,
        &refused(alone, 2, End::Usage, b"tcreplay"),
        &outcome,
        &ends,
    );
    Ok(())
}

#[test]
fn pieces(rt: HostRuntime) -> Result<(), Fail> {
    let alloc = rt.alloc();
    let words = words_of(alloc, SERIAL)?;
    for most in 1..6usize {
        let mut ends = open(alloc, b"", b"")?;
        ends.trace = MemSource::in_pieces(Vec::from_slice(alloc, SMALL)?, Vec::new(alloc), most);
        let outcome = tcreplay(
            &rt,
            alloc,
            &words,
            &mut ends.trace,
            &mut ends.files,
            &mut ends.out,
            &mut ends.notes,
            &OpenGate,
        );
        assert_eq!(rt; outcome.end, End::Done);
        assert_eq!(rt; ends.out.taken(), SMALL_TEXT);
    }
    Ok(())
}

/// Made to be tried with each of its allocations refused in turn: either the whole text was written, or
/// nothing was, and the note tells it. A refusal before the call ends the test.
#[test]
fn memory_that_runs_out(rt: HostRuntime) -> Result<(), Fail> {
    let alloc = rt.alloc();
    for (command, trace, file, text) in [
        (SERIAL, SMALL, b"".as_slice(), SMALL_TEXT),
        (ORDER, OBJECTS, OBJECTS_ORDER, OBJECTS_TEXT),
        (AUDIT, OBJECTS, OBJECTS_TEXT, b"yes 6\n".as_slice()),
        (SAMPLED, SMALL, b"".as_slice(), SAMPLED_TEXT),
    ] {
        let Ok(mut ends) = open(alloc, trace, file) else {
            return Ok(());
        };
        let Ok(outcome) = replay(&rt, alloc, command, &mut ends) else {
            return Ok(());
        };
        if outcome.end == End::Memory {
            let memory = refused(command, 7, End::Memory, b"tcreplay: out of memory\n");
            assert_case(&rt, &memory, &outcome, &ends);
        } else {
            assert_eq!(rt; outcome.end, End::Done, "at {command}");
            assert_eq!(rt; ends.out.taken(), text, "at {command}");
        }
    }
    Ok(())
}
