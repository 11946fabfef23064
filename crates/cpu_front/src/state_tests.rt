//! Runs under a table of three classes, whose answers, addresses and measures were worked out by hand.
ghost use Rattle.std.specs.Prelude.{◌≡◌, [], IfOk};

use crate::CpuState;
use call_steps::{Asking, Freeing, HeapStep, MapStep, NamesStep, Serving, ShardStep, Step};
use cpu_rows::{CpuRow, CpuStep};
use size_classes::ClassTable;
use std::alloc::{AllocError, Global};
use std::process::Abort;
use std::test::Fail;
use tc_model::{Answer, CallLine, Finished, StepFault, Stepped};
use tc_units::{Addr, Label, Page, RowKind, RowView, Run as PageRun, ThreadNo};
use trace_reader::read_trace;

/// The state of so many threads at the start of a trace.
fn opened(rt: &impl Abort, alloc: Global, text: &[u8], threads: u8) -> Result<CpuState, Fail>
    ensures threads { IfOk result (λ s. s.input.asked.config.threads ≡ threads) }
    ensures start { IfOk result (λ s. s.order ≡ []) }
{
    let table = ClassTable::read(alloc, b"16,1,4\n64,1,2\n8192,1,2\n").expect(rt, "a table");
    let trace = read_trace(alloc, text, table.len()).expect(rt, "a trace");
    let state = CpuState::open(alloc, (), table, trace)?;
    assert_eq!(rt; state.threads(), threads);
    Ok(state)
}

fn got(addr: u64, len: u64) -> Answer {
    Answer::Block {
        addr: Addr(addr),
        len,
    }
}

fn freed(addr: u64) -> Answer {
    Answer::Freed { addr: Addr(addr) }
}

fn released(pages: u64) -> Answer {
    Answer::Released { pages }
}

fn drained(objects: u64) -> Answer {
    Answer::Drained { objects }
}

/// A run: its trace with the number of its threads, the picks of an order file as threads with how often
/// each is picked, and each call's thread and answer in the order of their deciding acts.
#[derive(Clone, Copy)]
struct Run<'a> {
    text: &'a [u8],
    threads: u8,
    picks: &'a [(u16, usize)],
    lines: &'a [(u8, Answer)],
}

/// What a run leaves: live blocks and their bytes, used pages, and backed pages.
type Left = (u64, u64, u64, u64);

/// The picks one by one.
fn picks_of(alloc: Global, runs: &[(u16, usize)]) -> Result<Vec<u16>, AllocError> {
    let mut picks = Vec::new(alloc);
    for (thread, count) in runs {
        for _ in 0..*count {
            picks.push(*thread)?;
        }
    }
    Ok(picks)
}

/// Asserts that calls are these.
fn assert_told(rt: &impl Abort, told: &[CallLine], lines: &[(u8, Answer)]) {
    assert_eq!(rt; told.len(), lines.len());
    for ((thread, answer), line) in lines.iter().zip(told) {
        assert_eq!(rt; line.thread, ThreadNo(*thread));
        assert_eq!(rt; line.answer, *answer);
    }
}

/// What a run has to tell, all of whose scripts have ended.
fn told_at_end(rt: &impl Abort, state: &CpuState) -> Result<Finished, Fail> {
    assert!(rt; state.ended());
    Ok(state.finish()?)
}

/// Asserts what comes of a run, and how many picks moved.
fn assert_run(rt: &impl Abort, alloc: Global, run: &Run, left: Left) -> Result<usize, Fail> {
    let threads = u16::from(run.threads);
    let mut state = opened(rt, alloc, run.text, run.threads)?;
    let picks = picks_of(alloc, run.picks)?;
    assert!(rt; picks.iter().all(|thread| *thread < threads));
    assert_eq!(rt; state.run_order(&picks), Ok(()));
    let finished = told_at_end(rt, &state)?;
    assert_told(rt, finished.calls.as_slice(), run.lines);
    let found = (
        finished.live,
        finished.live_bytes,
        finished.used,
        finished.resident,
    );
    assert_eq!(rt; found, left);
    Ok(state.order().len())
}

#[test]
fn small_objects_go_through_every_part(rt: HostRuntime) -> Result<(), Fail> {
    for (run, left) in [
        // Of no size, and an object that comes back through the transfer list: CPU 1 has no capacity.
        (
            Run {
                text: b"a 0 0 0\n",
                threads: 1,
                picks: &[],
                lines: &[(0, got(2_097_152, 16))],
            },
            (1, 16, 1, 256),
        ),
        (
            Run {
                text: b"cpus 2\nthreads 2\na 0 0 10\nf 1 0\na 1 1 10\n",
                threads: 2,
                picks: &[],
                lines: &[
                    (0, got(2_097_152, 16)),
                    (1, freed(2_097_152)),
                    (1, got(2_097_152, 16)),
                ],
            },
            (1, 16, 1, 256),
        ),
        (
            Run {
                text: b"cpus 2\nthreads 2\na 0 0 10\na 1 1 10\nf 1 0\nf 0 1\n",
                threads: 2,
                picks: &[],
                lines: &[
                    (0, got(2_097_152, 16)),
                    (1, got(2_097_216, 16)),
                    (1, freed(2_097_152)),
                    (0, freed(2_097_216)),
                ],
            },
            (0, 0, 1, 256),
        ),
        // Nothing fits.
        (
            Run {
                text: b"huge 1\na 0 0 2097152\na 0 1 10\nf 0 1\n",
                threads: 1,
                picks: &[],
                lines: &[
                    (0, got(2_097_152, 2_097_152)),
                    (0, Answer::NoBlock),
                    (0, Answer::FreedNull),
                ],
            },
            (1, 2_097_152, 256, 256),
        ),
        // The second class can't grow.
        (
            Run {
                text: b"percpu 64\na 0 0 10\na 0 1 64\nd 0 0\n",
                threads: 1,
                picks: &[],
                lines: &[
                    (0, got(2_097_152, 16)),
                    (0, got(2_105_344, 64)),
                    (0, drained(3)),
                ],
            },
            (2, 80, 2, 256),
        ),
        // A pop is aborted before its commit, and then the move comes behind it.
        (
            Run {
                text: b"cpus 2\na 0 0 10\np 0 5 1\na 0 1 10\nd 0 0\nd 0 1\n",
                threads: 1,
                picks: &[],
                lines: &[
                    (0, got(2_097_152, 16)),
                    (0, got(2_097_216, 16)),
                    (0, drained(3)),
                    (0, drained(3)),
                ],
            },
            (2, 32, 1, 256),
        ),
        (
            Run {
                text: b"cpus 2\na 0 0 10\np 0 6 1\na 0 1 10\nd 0 0\nd 0 1\n",
                threads: 1,
                picks: &[],
                lines: &[
                    (0, got(2_097_152, 16)),
                    (0, got(2_097_200, 16)),
                    (0, drained(2)),
                    (0, drained(0)),
                ],
            },
            (2, 32, 1, 256),
        ),
        // The span goes back to the page heap, and with domains to the cache of its own domain.
        (
            Run {
                text: b"transfer 0\npercpu 0\na 0 0 8192\nf 0 0\n",
                threads: 1,
                picks: &[],
                lines: &[(0, got(2_097_152, 8_192)), (0, freed(2_097_152))],
            },
            (0, 0, 0, 256),
        ),
        (
            Run {
                text: b"cpus 2\nthreads 2\ndomains 2\npercpu 0\na 0 0 8192\nf 1 0\na 0 1 8192\n",
                threads: 2,
                picks: &[],
                lines: &[
                    (0, got(2_097_152, 8_192)),
                    (1, freed(2_097_152)),
                    (0, got(2_105_344, 8_192)),
                ],
            },
            (1, 8_192, 2, 256),
        ),
        // Capacities.
        (
            Run {
                text: b"z 0 0 1 3000\n",
                threads: 1,
                picks: &[],
                lines: &[(0, Answer::OverStatic { cap: 2048 })],
            },
            (0, 0, 0, 0),
        ),
        (
            Run {
                text: b"percpu 64\nz 0 0 0 5\n",
                threads: 1,
                picks: &[],
                lines: &[(0, Answer::OverLimit { sum: 80 })],
            },
            (0, 0, 0, 0),
        ),
        (
            Run {
                text: b"percpu 64\nz 0 0 0 4\n",
                threads: 1,
                picks: &[],
                lines: &[(0, Answer::CapSet)],
            },
            (0, 0, 0, 0),
        ),
    ] {
        assert_run(&rt, rt.alloc(), &run, left)?;
    }
    Ok(())
}

#[test]
fn orders_decide_what_calls_answer(rt: HostRuntime) -> Result<(), Fail> {
    for (run, left) in [
        // Thread 0 has loaded an object when thread 1 pops two and pushes them back in the other order.
        (
            Run {
                text: b"threads 2\na 0 0 10\na 0 1 10\na 1 2 10\na 1 3 10\nf 1 2\nf 1 3\n",
                threads: 2,
                picks: &[(0, 21), (1, 27)],
                lines: &[
                    (0, got(2_097_152, 16)),
                    (1, got(2_097_200, 16)),
                    (1, got(2_097_184, 16)),
                    (1, freed(2_097_200)),
                    (1, freed(2_097_184)),
                    (0, got(2_097_184, 16)),
                ],
            },
            (2, 32, 1, 256),
        ),
        // A stop comes before a commit, which still is executed, and a fence before it sends the thread back.
        (
            Run {
                text: b"cpus 2\nthreads 2\na 0 0 10\na 0 1 10\nd 1 0\n",
                threads: 2,
                picks: &[(0, 21), (1, 1), (0, 1)],
                lines: &[
                    (0, got(2_097_152, 16)),
                    (0, got(2_097_200, 16)),
                    (1, drained(2)),
                ],
            },
            (2, 32, 1, 256),
        ),
        (
            Run {
                text: b"cpus 2\nthreads 2\na 0 0 10\na 0 1 10\nd 1 0\n",
                threads: 2,
                picks: &[(0, 21), (1, 2), (0, 4)],
                lines: &[
                    (0, got(2_097_152, 16)),
                    (0, got(2_097_216, 16)),
                    (1, drained(3)),
                ],
            },
            (2, 32, 1, 256),
        ),
        // Of two stoppers the second gives up.
        (
            Run {
                text: b"threads 2\nd 0 0\nd 1 0\n",
                threads: 2,
                picks: &[(0, 1), (1, 1)],
                lines: &[(1, Answer::Busy { owner: ThreadNo(0) }), (0, drained(0))],
            },
            (0, 0, 0, 0),
        ),
        // Large blocks of 254 pages: a free waits for its allocation.
        (
            Run {
                text: b"threads 2\na 0 0 2080768\nf 1 0\n",
                threads: 2,
                picks: &[(1, 5)],
                lines: &[(0, got(2_097_152, 2_080_768)), (1, freed(2_097_152))],
            },
            (0, 0, 0, 256),
        ),
        // One call after another; thread 1 asks first, and then waits behind its New; in turn; thread 1 frees first.
        (
            Run {
                text: b"threads 2\na 0 0 2080768\na 1 1 2080768\nf 0 1\nf 1 0\n",
                threads: 2,
                picks: &[],
                lines: &[
                    (0, got(2_097_152, 2_080_768)),
                    (1, got(4_194_304, 2_080_768)),
                    (0, freed(4_194_304)),
                    (1, freed(2_097_152)),
                ],
            },
            (0, 0, 0, 512),
        ),
        (
            Run {
                text: b"threads 2\na 0 0 2080768\na 1 1 2080768\nf 0 1\nf 1 0\n",
                threads: 2,
                picks: &[(1, 1)],
                lines: &[
                    (1, got(2_097_152, 2_080_768)),
                    (0, got(4_194_304, 2_080_768)),
                    (0, freed(2_097_152)),
                    (1, freed(4_194_304)),
                ],
            },
            (0, 0, 0, 512),
        ),
        (
            Run {
                text: b"threads 2\na 0 0 2080768\na 1 1 2080768\nf 0 1\nf 1 0\n",
                threads: 2,
                picks: &[(1, 1), (0, 1), (1, 1), (0, 3), (1, 1), (0, 1), (1, 1)],
                lines: &[
                    (1, got(2_097_152, 2_080_768)),
                    (0, got(4_194_304, 2_080_768)),
                    (0, freed(2_097_152)),
                    (1, freed(4_194_304)),
                ],
            },
            (0, 0, 0, 512),
        ),
        (
            Run {
                text: b"threads 2\na 0 0 2080768\na 1 1 2080768\nf 0 1\nf 1 0\n",
                threads: 2,
                picks: &[(0, 3), (1, 3), (0, 1), (1, 4)],
                lines: &[
                    (0, got(2_097_152, 2_080_768)),
                    (1, got(4_194_304, 2_080_768)),
                    (1, freed(2_097_152)),
                    (0, freed(4_194_304)),
                ],
            },
            (0, 0, 0, 512),
        ),
        // The second block is asked for when the first one's span is cleared, and its pages aren't given back.
        (
            Run {
                text: b"threads 2\na 0 0 2080768\nf 0 0\na 1 1 2080768\nf 1 1\n",
                threads: 2,
                picks: &[(0, 6), (1, 1), (0, 1)],
                lines: &[
                    (0, got(2_097_152, 2_080_768)),
                    (1, got(4_194_304, 2_080_768)),
                    (0, freed(2_097_152)),
                    (1, freed(4_194_304)),
                ],
            },
            (0, 0, 0, 512),
        ),
        (
            Run {
                text: b"threads 2\nhuge 1\na 0 0 2080768\na 1 1 2080768\nf 0 1\n",
                threads: 2,
                picks: &[(1, 1), (0, 1)],
                lines: &[
                    (1, got(2_097_152, 2_080_768)),
                    (0, Answer::NoBlock),
                    (0, freed(2_097_152)),
                ],
            },
            (0, 0, 0, 256),
        ),
    ] {
        assert_run(&rt, rt.alloc(), &run, left)?;
    }
    Ok(())
}

#[test]
fn backing_follows_frees_and_releases(rt: HostRuntime) -> Result<(), Fail> {
    for (run, left) in [
        // Before anything is backed; behind New, where two pages are beside the run; before that is given back; and behind the free.
        (
            Run {
                text: b"threads 2\na 0 0 2080768\nf 0 0\nr 1 300\n",
                threads: 2,
                picks: &[(1, 1)],
                lines: &[
                    (1, released(0)),
                    (0, got(2_097_152, 2_080_768)),
                    (0, freed(2_097_152)),
                ],
            },
            (0, 0, 0, 256),
        ),
        (
            Run {
                text: b"threads 2\na 0 0 2080768\nf 0 0\nr 1 300\n",
                threads: 2,
                picks: &[(0, 1), (1, 1)],
                lines: &[
                    (0, got(2_097_152, 2_080_768)),
                    (1, released(2)),
                    (0, freed(2_097_152)),
                ],
            },
            (0, 0, 0, 0),
        ),
        (
            Run {
                text: b"threads 2\na 0 0 2080768\nf 0 0\nr 1 300\n",
                threads: 2,
                picks: &[(0, 6), (1, 1)],
                lines: &[
                    (0, got(2_097_152, 2_080_768)),
                    (1, released(2)),
                    (0, freed(2_097_152)),
                ],
            },
            (0, 0, 0, 0),
        ),
        (
            Run {
                text: b"threads 2\na 0 0 2080768\nf 0 0\nr 1 300\n",
                threads: 2,
                picks: &[],
                lines: &[
                    (0, got(2_097_152, 2_080_768)),
                    (0, freed(2_097_152)),
                    (1, released(256)),
                ],
            },
            (0, 0, 0, 0),
        ),
        // A free hugepage is given whole, though one page is asked for.
        (
            Run {
                text: b"huge 4\na 0 0 2097152\nf 0 0\nr 0 1\n",
                threads: 1,
                picks: &[],
                lines: &[
                    (0, got(2_097_152, 2_097_152)),
                    (0, freed(2_097_152)),
                    (0, released(256)),
                ],
            },
            (0, 0, 0, 0),
        ),
        // An intact hugepage is preferred to a broken one with the better range.
        (
            Run {
                text: b"a 0 0 16384\na 0 1 2080768\nf 0 0\nr 0 100\na 0 2 24576\na 0 3 16384\n",
                threads: 1,
                picks: &[],
                lines: &[
                    (0, got(2_097_152, 16_384)),
                    (0, got(2_113_536, 2_080_768)),
                    (0, freed(2_097_152)),
                    (0, released(2)),
                    (0, got(4_194_304, 24_576)),
                    (0, got(4_218_880, 16_384)),
                ],
            },
            (3, 2_121_728, 259, 510),
        ),
        // Two hugepages are used and then none, in four heap calls; the last two calls left one in use, and the last one none.
        (
            Run {
                text: b"a 0 0 2097152\na 0 1 2097152\nf 0 0\nf 0 1\n",
                threads: 1,
                picks: &[],
                lines: &[
                    (0, got(2_097_152, 2_097_152)),
                    (0, got(4_194_304, 2_097_152)),
                    (0, freed(2_097_152)),
                    (0, freed(4_194_304)),
                ],
            },
            (0, 0, 0, 512),
        ),
        (
            Run {
                text: b"window 2\na 0 0 2097152\na 0 1 2097152\nf 0 0\nf 0 1\n",
                threads: 1,
                picks: &[],
                lines: &[
                    (0, got(2_097_152, 2_097_152)),
                    (0, got(4_194_304, 2_097_152)),
                    (0, freed(2_097_152)),
                    (0, freed(4_194_304)),
                ],
            },
            (0, 0, 0, 256),
        ),
        (
            Run {
                text: b"window 1\na 0 0 2097152\na 0 1 2097152\nf 0 0\nf 0 1\n",
                threads: 1,
                picks: &[],
                lines: &[
                    (0, got(2_097_152, 2_097_152)),
                    (0, got(4_194_304, 2_097_152)),
                    (0, freed(2_097_152)),
                    (0, freed(4_194_304)),
                ],
            },
            (0, 0, 0, 0),
        ),
    ] {
        assert_run(&rt, rt.alloc(), &run, left)?;
    }
    Ok(())
}

/// Asserts that a run of these calls, of which so many picks may move, ends so.
fn assert_limited(
    rt: &impl Abort,
    alloc: Global,
    text: &[u8],
    ended: Result<(), StepFault>,
    picks: usize,
) -> Result<(), Fail> {
    let mut state = opened(rt, alloc, text, 1)?;
    assert_eq!(rt; state.run_serial(), ended);
    assert_eq!(rt; state.order().len(), picks);
    Ok(())
}

#[test]
fn picks_end_at_the_limit(rt: HostRuntime) -> Result<(), Fail> {
    let full = Err(StepFault::Full { ticket: 5 });
    assert_limited(&rt, rt.alloc(), b"events 5\na 0 0 10\n", full, 5)?;
    // The span is of one page: the batch of four leaves three in the slab, and a second object comes from there.
    assert_limited(&rt, rt.alloc(), b"events 17\na 0 0 10\n", Ok(()), 17)?;
    assert_limited(&rt, rt.alloc(), b"a 0 0 10\na 0 1 10\n", Ok(()), 23)?;
    let full = Err(StepFault::Full { ticket: 6 });
    assert_limited(
        &rt,
        rt.alloc(),
        b"events 6\na 0 0 2080768\nf 0 0\n",
        full,
        6,
    )?;
    assert_limited(
        &rt,
        rt.alloc(),
        b"events 7\na 0 0 2080768\nf 0 0\n",
        Ok(()),
        7,
    )
}

/// A hugepage of a region.
fn in_region(used: u32, allocs: u32, backed: u32, longest: u32) -> RowView {
    RowView {
        kind: RowKind::Region,
        used,
        allocs,
        backed,
        longest,
        donated: false,
    }
}

/// Asserts what a run of one thread leaves of each hugepage.
fn assert_rows(rt: &impl Abort, alloc: Global, text: &[u8], rows: &[RowView]) -> Result<(), Fail> {
    let mut state = opened(rt, alloc, text, 1)?;
    assert_eq!(rt; state.run_serial(), Ok(()));
    let told = told_at_end(rt, &state)?;
    assert_eq!(rt; told.rows.as_slice(), rows);
    Ok(())
}

#[test]
fn a_state_is_split_gathered_and_stepped(rt: HostRuntime) -> Result<(), Fail> {
    let text = b"threads 2\na 0 0 2080768\nf 1 0\n";
    let state = opened(&rt, rt.alloc(), text, 2)?;
    let (machine, parts, locals) = state.split();
    assert_eq!(rt; parts.len(), 7);
    assert_eq!(rt; locals.len(), 2);
    let order = Vec::new(rt.alloc());
    let mut state = CpuState::gather(rt.alloc(), machine, parts, locals, order);
    assert_eq!(rt; state.step(ThreadNo(1)), Ok(Stepped::NotYet));
    assert!(rt; state.yields(ThreadNo(1)));
    assert_eq!(rt; state.order().len(), 0);
    assert_eq!(rt; state.step(ThreadNo(0)), Ok(Stepped::Moved));
    assert_eq!(rt; state.done(ThreadNo(0)), 0);
    assert_eq!(rt; state.run_serial(), Ok(()));
    assert_eq!(rt; state.step(ThreadNo(0)), Ok(Stepped::Ended));
    assert_eq!(rt; state.done(ThreadNo(0)), 1);
    let order = state.into_order();
    assert_eq!(rt; order.as_slice(), [0u16, 0, 0, 1, 1, 1, 1].as_slice());

    let text = b"huge 4\nregion 4\nslack 0\na 0 0 2457600\na 0 1 2457600\n";
    let rows = [
        in_region(256, 1, 256, 0),
        in_region(256, 2, 256, 0),
        in_region(88, 1, 256, 168),
        in_region(0, 0, 0, 256),
    ];
    assert_rows(&rt, rt.alloc(), text, &rows)
}

/// The next act of the first thread.
fn next_act(state: &CpuState) -> Option<Step<CpuRow>> {
    Some(state.locals().first()?.step())
}

#[test]
fn an_object_comes_and_goes_act_by_act(rt: HostRuntime) -> Result<(), Fail> {
    let label = Label(0);
    let addr = Addr(2_097_152);
    let run = PageRun {
        first: Page(256),
        pages: 1,
    };
    let asking = Asking { label, size: 10 };
    let serving = Serving { label, addr };
    let value = Some(addr);
    let pop = Step::Front(CpuRow::Cpu(CpuStep::Pop(asking)));
    let stock = Step::Front(CpuRow::Cpu(CpuStep::Stock(serving)));
    let push = Step::Front(CpuRow::Cpu(CpuStep::Push(Freeing { label, addr })));
    let steps = [
        // It switches in, begins, reads the header and finds no object there, nor in the shard.
        pop,
        pop,
        pop,
        Step::Front(CpuRow::Cpu(CpuStep::Grow(asking))),
        Step::Shard(ShardStep::Fetch(asking)),
        // A new span gives a batch of four, three of which are pushed.
        Step::Heap(HeapStep::NewSpan(asking)),
        Step::Map(MapStep::SetSpan { asking, run }),
        Step::Shard(ShardStep::AddFetch { asking, run }),
        stock,
        stock,
        stock,
        stock,
        stock,
        stock,
        stock,
        Step::Names(NamesStep::Publish { label, value }),
        // The free pushes its object.
        Step::Names(NamesStep::Take { label }),
        Step::Map(MapStep::Lookup { label, addr }),
        push,
        push,
        push,
        push,
        push,
        Step::Ended,
    ];
    let mut state = opened(&rt, rt.alloc(), b"a 0 0 10\nf 0 0\n", 1)?;
    assert_eq!(rt; next_act(&state), Some(pop));
    for (picks, step) in steps.iter().enumerate() {
        assert_eq!(rt; state.threads(), 1);
        assert_eq!(rt;
            state.step(ThreadNo(0)),
            Ok(Stepped::Moved),
            "behind {picks} picks"
        );
        assert_eq!(rt; next_act(&state), Some(*step), "behind {picks} picks");
    }
    assert!(rt; state.ended());
    Ok(())
}
