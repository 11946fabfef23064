//! The program's run on other machines, in serial, in other orders and by worker threads under part locks: the allocator
//! without caches, and over caches of threads. Texts and picks were worked out by hand. Without caches, the first
//! allocation of a class has Fetch, NewSpan, SetSpan, AddFetch and Publish, a later one of its span Fetch and Publish; each
//! gives what it fetched besides back by a Give, where there is a rest. A free has Take, Lookup and Give, and behind them
//! ClearSpan and FreeSpan where its span leaves the shard. Over caches of threads an allocation pops first, and is done with
//! Publish where that finds an object; what it fetches besides is stocked, and a free adds its object to the cache.
ghost use Rattle.std.specs.Prelude.{◌≡◌, IfOk};
ghost use Rattle.alloc_rules.specs.Inputs.{not_taken};
ghost use Rattle.tc_machine.specs.Inputs.{asked_of};
ghost use Rattle.tcreplay.specs.Reads.{IsRunnable};

use crate::input::{Job, trace_of};
use crate::outcome::End;
use crate::run::{Ran, Telling, run};
use crate::worker_tests::Hold;
use crate::workers::run_by_part_locks;
use no_caches::PlainMachine;
use size_classes::ClassTable;
use std::alloc::Global;
use std::process::Abort;
use std::sync::Wait;
use std::test::Fail;
use std::thread::Threads;
use tc_machine::{Allocator, Recalls, refused_line};
use tc_ports::{Gate, OpenGate};
use thread_front::ThreadMachine;

/// A trace, with the text of its run and, where they were counted by hand, its picks that move.
struct Row {
    trace: &'static [u8],
    text: &'static [u8],
    picks: Option<usize>,
}

const ROWS: &[Row] = &[
    Row {
        trace: b"",
        text: b"calls 0\nlive 0 0\nused 0\nresident 0\nfrag 0\n",
        picks: Some(0),
    },
    Row {
        trace: b"a 0 0 10\n",
        text: b"a 0 0 2097152 16\ncalls 1\nlive 1 16\nused 1\nresident 256\nfrag 999\n",
        picks: Some(6),
    },
    Row {
        trace: b"a 0 0 10\na 0 1 10\n",
        text: b"a 0 0 2097152 16\na 0 1 2097200 16\ncalls 2\nlive 2 32\nused 1\nresident 256\nfrag 999\n",
        picks: Some(9),
    },
    Row {
        trace: b"a 0 0 0\n",
        text: b"a 0 0 2097152 16\ncalls 1\nlive 1 16\nused 1\nresident 256\nfrag 999\n",
        picks: None,
    },
    Row {
        trace: b"a 0 0 262145\n",
        text: b"a 0 0 2097152 270336\ncalls 1\nlive 1 270336\nused 33\nresident 256\nfrag 871\n",
        picks: Some(3),
    },
    Row {
        trace: b"a 0 0 2097153\na 0 1 8192\n",
        text: b"a 0 0 2097152 2105344\na 0 1 4202496 8192\ncalls 2\nlive 2 2113536\nused 258\nresident 512\nfrag 496\n",
        picks: None,
    },
    Row {
        trace: b"a 0 0 2072576\na 0 1 2080768\na 0 2 16384\n",
        text: b"a 0 0 2097152 2072576\na 0 1 4194304 2080768\na 0 2 6275072 16384\ncalls 3\nlive 3 4169728\nused 509\nresident 512\nfrag 5\n",
        picks: None,
    },
    Row {
        trace: b"a 0 0 2080768\na 0 1 1040384\na 0 2 1040384\na 0 3 16384\n",
        text: b"a 0 0 2097152 2080768\na 0 1 4194304 1040384\na 0 2 5234688 1040384\na 0 3 6275072 16384\ncalls 4\nlive 4 4177920\nused 510\nresident 512\nfrag 3\n",
        picks: None,
    },
    Row {
        trace: b"huge 1\na 0 0 2097152\na 0 1 10\nf 0 1\n",
        text: b"a 0 0 2097152 2097152\na 0 1 none\nf 0 1 none\ncalls 3\nlive 1 2097152\nused 256\nresident 256\nfrag 0\n",
        picks: None,
    },
    Row {
        trace: b"huge 4\na 0 0 8388608\n",
        text: b"a 0 0 2097152 8388608\ncalls 1\nlive 1 8388608\nused 1024\nresident 1024\nfrag 0\n",
        picks: None,
    },
    Row {
        trace: b"huge 4\na 0 0 8388609\n",
        text: b"a 0 0 none\ncalls 1\nlive 0 0\nused 0\nresident 0\nfrag 0\n",
        picks: None,
    },
    Row {
        trace: b"a 0 0 16384\na 0 1 2080768\nf 0 0\nr 0 100\na 0 2 24576\na 0 3 16384\n",
        text: b"a 0 0 2097152 16384\na 0 1 2113536 2080768\nf 0 0 2097152\nr 0 2\na 0 2 4194304 24576\na 0 3 4218880 16384\ncalls 6\nlive 3 2121728\nused 259\nresident 510\nfrag 492\n",
        picks: None,
    },
    Row {
        trace: b"a 0 0 2097152\nf 0 0\n",
        text: b"a 0 0 2097152 2097152\nf 0 0 2097152\ncalls 2\nlive 0 0\nused 0\nresident 256\nfrag 1000\n",
        picks: None,
    },
    Row {
        trace: b"transfer 0\na 0 0 8192\nf 0 0\n",
        text: b"a 0 0 2097152 8192\nf 0 0 2097152\ncalls 2\nlive 0 0\nused 0\nresident 256\nfrag 1000\n",
        picks: Some(10),
    },
];

/// Two regions, told with a line for each hugepage.
const REGIONS: &[u8] = b"huge 8\nregion 4\nslack 0\na 0 0 2457600\na 0 1 2457600\n";

const REGIONS_TEXT: &[u8] =
    b"a 0 0 2097152 2457600\na 0 1 4554752 2457600\ncalls 2\nlive 2 4915200\nused 600\nresident 768\nfrag 218\nh 1 region 256 1 256 0 0\nh 2 region 256 2 256 0 0\nh 3 region 88 1 256 168 0\nh 4 region 0 0 0 256 0\nh 5 free 0 0 0 256 0\nh 6 free 0 0 0 256 0\nh 7 free 0 0 0 256 0\nh 8 free 0 0 0 256 0\n";

/// Each of two threads at two CPUs frees the small block of the other.
const CROSSED: &[u8] = b"cpus 2\nthreads 2\na 0 0 10\na 1 1 10\nf 1 0\nf 0 1\n";

/// Its text in serial: the second thread's block is of the same span, behind the batch that the first one fetched.
const CROSSED_TEXT: &[u8] =
    b"a 0 0 2097152 16\na 1 1 2097200 16\nf 1 0 2097152\nf 0 1 2097200\ncalls 4\nlive 0 0\nused 1\nresident 256\nfrag 1000\n";

/// What comes behind its four calls.
const CROSSED_END: &[u8] = b"calls 4\nlive 0 0\nused 1\nresident 256\nfrag 1000\n";

/// A trace as a job of a machine that takes its calls, with first picks.
fn job_of<M: Allocator>(
    rt: &impl Abort,
    alloc: Global,
    text: &[u8],
    picks: &[u16],
) -> Result<Job, Fail>
    ensures runs { IfOk result (λ job. IsRunnable job) }
    ensures taken { IfOk result (λ job. not_taken M.takes (asked_of job.trace).calls ≡ 0) }
{
    let table = ClassTable::read(alloc, b"16,1,4\n64,1,2\n8192,1,2\n").expect(rt, "a table");
    let Ok(trace) = trace_of(alloc, &table, text) else {
        panic!(rt; "no trace");
    };
    let refused = refused_line::<M>(&trace);
    assert!(rt; refused.is_none());
    let threads = u16::from(trace.config.threads);
    assert!(rt; picks.iter().all(|thread| *thread < threads));
    let picks = Vec::from_slice(alloc, picks)?;
    Ok(Job {
        table,
        trace,
        picks,
        room: Vec::new(alloc),
    })
}

/// What comes of a trace on a machine, behind first picks.
fn ran_on<M: Allocator<Options = ()> + Recalls>(
    rt: &impl Abort,
    alloc: Global,
    text: &[u8],
    picks: &[u16],
) -> Result<Ran, Fail> {
    let job = job_of::<M>(rt, alloc, text, picks)?;
    Ok(run::<M>(
        alloc,
        (),
        job,
        Telling::Whole {
            rows: false,
            sample: None,
        },
    )?)
}

/// Asserts a run's text and how many picks moved.
fn assert_ran(rt: &impl Abort, ran: &Ran, text: &[u8], picks: usize) {
    assert_eq!(rt; ran.end, End::Done);
    assert_eq!(rt; ran.text.as_slice(), text);
    assert_eq!(rt; ran.order.len(), picks);
}

#[test]
fn rows_without_caches_have_their_texts(rt: HostRuntime) -> Result<(), Fail> {
    let alloc = rt.alloc();
    for row in ROWS {
        let ran = ran_on::<PlainMachine>(&rt, alloc, row.trace, &[])?;
        assert_eq!(rt; ran.end, End::Done);
        assert_eq!(rt; ran.text.as_slice(), row.text);
        if let Some(picks) = row.picks {
            assert_eq!(rt; ran.order.len(), picks);
        }
    }
    Ok(())
}

#[test]
fn a_row_for_each_hugepage_is_told_without_caches(rt: HostRuntime) -> Result<(), Fail> {
    let alloc = rt.alloc();
    let job = job_of::<PlainMachine>(&rt, alloc, REGIONS, &[])?;
    let ran = run::<PlainMachine>(
        alloc,
        (),
        job,
        Telling::Whole {
            rows: true,
            sample: None,
        },
    )?;
    assert_eq!(rt; ran.text.as_slice(), REGIONS_TEXT);
    Ok(())
}

#[test]
fn objects_go_from_thread_to_thread_by_the_shard(rt: HostRuntime) -> Result<(), Fail> {
    let ran = ran_on::<PlainMachine>(&rt, rt.alloc(), CROSSED, &[])?;
    assert_ran(&rt, &ran, CROSSED_TEXT, 15);
    Ok(())
}

#[test]
fn a_cache_serves_what_it_stocked(rt: HostRuntime) -> Result<(), Fail> {
    let text =
        b"a 0 0 2097152 16\na 0 1 2097200 16\ncalls 2\nlive 2 32\nused 1\nresident 256\nfrag 999\n";
    let ran = ran_on::<ThreadMachine>(&rt, rt.alloc(), b"a 0 0 10\na 0 1 10\n", &[])?;
    assert_ran(&rt, &ran, text, 9);
    Ok(())
}

/// A cache with room for one object: nothing of the first batch but one object fits, and the others go to the shard. The
/// free takes the place that the other thread doesn't use.
const STOLEN: &[u8] = b"threads 2\npercpu 16\na 0 0 10\nf 0 0\na 0 1 10\na 0 2 10\n";

#[test]
fn a_full_cache_takes_the_limit_of_another(rt: HostRuntime) -> Result<(), Fail> {
    let text =
        b"a 0 0 2097152 16\nf 0 0 2097152\na 0 1 2097152 16\na 0 2 2097168 16\ncalls 4\nlive 2 32\nused 1\nresident 256\nfrag 999\n";
    let ran = ran_on::<ThreadMachine>(&rt, rt.alloc(), STOLEN, &[])?;
    assert_ran(&rt, &ran, text, 18);
    Ok(())
}

#[test]
fn threads_with_caches_in_three_orders(rt: HostRuntime) -> Result<(), Fail> {
    let alloc = rt.alloc();

    // In trace order: the second thread's batch is behind that of the first.
    let text =
        b"a 0 0 2097152 16\na 1 1 2097216 16\nf 1 0 2097152\nf 0 1 2097216\ncalls 4\nlive 0 0\nused 1\nresident 256\nfrag 1000\n";
    let ran = ran_on::<ThreadMachine>(&rt, alloc, CROSSED, &[])?;
    assert_ran(&rt, &ran, text, 17);

    // The second thread allocates first.
    let text =
        b"a 1 1 2097152 16\na 0 0 2097216 16\nf 1 0 2097216\nf 0 1 2097152\ncalls 4\nlive 0 0\nused 1\nresident 256\nfrag 1000\n";
    let ran = ran_on::<ThreadMachine>(&rt, alloc, CROSSED, &[1; 7])?;
    assert_ran(&rt, &ran, text, 17);

    // Both miss before either has a span, so that each makes one: at pages 256 and 257.
    let text =
        b"a 0 0 2097152 16\na 1 1 2105344 16\nf 1 0 2097152\nf 0 1 2105344\ncalls 4\nlive 0 0\nused 2\nresident 256\nfrag 1000\n";
    let picks = [0, 1, 0, 1, 0, 1, 0, 1, 0, 1];
    let ran = ran_on::<ThreadMachine>(&rt, alloc, CROSSED, &picks)?;
    assert_ran(&rt, &ran, text, 20);
    Ok(())
}

/// What comes of a trace whose threads run on a machine under part locks, at a gate.
fn by_threads<
    R: Threads + Wait + Sync + Abort,
    M: Allocator<Options = ()> + Recalls + Sync,
    G: Gate + Sync,
>(rt: &R, alloc: Global, gate: &G, text: &[u8]) -> Result<Ran, Fail>
where
    M::Part: Send,
    M::Local: Send,
{
    let job = job_of::<M>(rt, alloc, text, &[])?;
    let telling = Telling::Whole {
        rows: false,
        sample: None,
    };
    let ran = run_by_part_locks::<R, M, G>(rt, alloc, gate, (), job, telling)?;
    Ok(ran)
}

#[test]
fn the_thread_that_comes_first_has_the_first_object(rt: HostRuntime) -> Result<(), Fail> {
    let alloc = rt.alloc();
    let firsts = [
        (
            0,
            b"a 1 1 2097152 16\na 0 0 2097200 16\n".as_slice(),
            b"a 1 1 2097152 16\na 0 0 2097216 16\n".as_slice(),
        ),
        (
            1,
            b"a 0 0 2097152 16\na 1 1 2097200 16\n".as_slice(),
            b"a 0 0 2097152 16\na 1 1 2097216 16\n".as_slice(),
        ),
    ];
    for (late, plain, cached) in firsts {
        let gate = Hold::new(late);
        let ran = by_threads::<_, PlainMachine, _>(&rt, alloc, &gate, CROSSED)?;
        assert_eq!(rt; ran.end, End::Done);
        assert!(rt; ran.text.starts_with(plain));
        assert!(rt; ran.text.ends_with(CROSSED_END));
        assert_eq!(rt; ran.order.len(), 15);

        let gate = Hold::new(late);
        let ran = by_threads::<_, ThreadMachine, _>(&rt, alloc, &gate, CROSSED)?;
        assert!(rt; ran.text.starts_with(cached));
        assert!(rt; ran.text.ends_with(CROSSED_END));
        assert_eq!(rt; ran.order.len(), 17);
    }
    Ok(())
}

#[test]
fn worker_threads_without_caches_end_every_call(rt: HostRuntime) -> Result<(), Fail> {
    let alloc = rt.alloc();
    for row in ROWS {
        let ran = by_threads::<_, PlainMachine, _>(&rt, alloc, &OpenGate, row.trace)?;
        assert_eq!(rt; ran.text.as_slice(), row.text);
    }
    Ok(())
}
