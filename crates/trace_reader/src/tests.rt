//! Traces and order files that were read by hand.
use crate::{LineWhy, OrderFault, OrderWhy, TraceFault, read_order, read_trace};
use std::alloc::{AllocError, Global};
use std::process::Abort;
use std::test::Fail;
use tc_model::{Call, Config, MoveTo, Plan, Planned};
use tc_units::{Class, CpuNo, Label, ThreadNo};

/// The size classes of the traces.
const CLASSES: u32 = 3;

/// A line, again and again.
fn repeated(alloc: Global, line: &[u8], times: u32) -> Result<Vec<u8>, AllocError> {
    let mut text = Vec::new(alloc);
    for _ in 0..times {
        text.extend_from_slice(line)?;
    }
    Ok(text)
}

/// These calls are planned, and no others.
fn assert_plan(rt: &impl Abort, plan: &Plan, calls: &[Planned]) {
    assert_eq!(rt; plan.len(), calls.len());
    for place in 0..calls.len() {
        assert_eq!(rt; plan.get(place), Some(calls[place]));
    }
    assert_eq!(rt; plan.get(calls.len()), None);
}

#[test]
fn a_trace(rt: HostRuntime) -> Result<(), Fail> {
    let text = b"threads 3\ncpus 3\ncpus 2\r\n\
        p 2 7 0\np 2 8 1\na 2 5 1099511627776\na 0 999999 0\nf 2 999999\nz 0 1 2 9\n\
        p 0 1 1\nr 0 1048576\nd 0 0\np 1 1 0\nf 0 5";
    let trace = read_trace(rt.alloc(), text, CLASSES)?;
    let config = Config {
        cpus: 2,
        threads: 3,
        ..Config::default()
    };
    assert_eq!(rt; trace.config, config);
    assert_eq!(rt; trace.labels, 1000000);
    let turns = [2, 0, 2, 0, 0, 0, 0].map(ThreadNo);
    assert_eq!(rt; trace.turns.as_slice(), turns.as_slice());

    let planned = |line, call| Planned {
        line,
        call,
        moved: None,
    };
    let first = Call::Malloc {
        label: Label(5),
        size: 1099511627776,
    };
    let moved = MoveTo {
        before: 8,
        cpu: CpuNo(1),
    };
    let second = Call::Malloc {
        label: Label(999999),
        size: 0,
    };
    let resize = Call::Resize {
        cpu: CpuNo(1),
        class: Class(2),
        cap: 9,
    };
    let release = Planned {
        line: 11,
        call: Call::Release { pages: 1048576 },
        moved: Some(MoveTo {
            before: 1,
            cpu: CpuNo(1),
        }),
    };
    let scripts = trace.scripts.as_slice();
    assert_eq!(rt; scripts.len(), 3);
    let calls = [
        planned(7, second),
        planned(9, resize),
        release,
        planned(12, Call::Drain { cpu: CpuNo(0) }),
        planned(14, Call::Free { label: Label(5) }),
    ];
    assert_plan(&rt, &scripts[0].calls, calls.as_slice());
    assert_plan(&rt, &scripts[1].calls, [].as_slice());
    let calls = [
        Planned {
            line: 6,
            call: first,
            moved: Some(moved),
        },
        planned(
            8,
            Call::Free {
                label: Label(999999),
            },
        ),
    ];
    assert_plan(&rt, &scripts[2].calls, calls.as_slice());
    Ok(())
}

#[test]
fn heads(rt: HostRuntime) -> Result<(), Fail> {
    let text = b"cpus 64\nthreads 64\nhuge 4096\ncache 0\nregion 2\nslack 1048576\n\
        transfer 4096\nslab 1\npercpu 0\nevents 1\nwindow 65536\ndomains 64\n";
    let trace = read_trace(rt.alloc(), text, CLASSES)?;
    let config = Config {
        cpus: 64,
        threads: 64,
        huge: 4096,
        cache: 0,
        region: 2,
        slack: 1048576,
        transfer: 4096,
        slab: 1,
        percpu: 0,
        events: 1,
        window: 65536,
        domains: 64,
        ..Config::default()
    };
    assert_eq!(rt; trace.config, config);
    assert_eq!(rt; trace.scripts.as_slice().len(), 64);
    assert_eq!(rt; trace.labels, 0);
    Ok(())
}

#[test]
fn domains(rt: HostRuntime) -> Result<(), Fail> {
    for (text, domains) in [
        (b"".as_slice(), 0),
        (b"cpus 64\na 0 0 1\n".as_slice(), 0),
        (b"domains 0\n".as_slice(), 0),
        (b"domains 64".as_slice(), 64),

        // The last one counts.
        (b"domains 64\ndomains 0\n".as_slice(), 0),
        (b"domains 2\ncpus 4\ndomains 3\na 0 0 1\n".as_slice(), 3),
    ] {
        let trace = read_trace(rt.alloc(), text, CLASSES)?;
        assert_eq!(rt; trace.config.domains, domains, "at {text:?}");
    }
    Ok(())
}

#[test]
fn bad_lines(rt: HostRuntime) {
    for (text, line, why) in [
        (b"a 0 0".as_slice(), 1, LineWhy::Fields),
        (b"a  0 0 10".as_slice(), 1, LineWhy::Fields),
        (b"a 0 0 10 ".as_slice(), 1, LineWhy::Fields),
        (b"a 0 0 1099511627777".as_slice(), 1, LineWhy::Number),
        (b"window 65537".as_slice(), 1, LineWhy::Number),
        (b"domains 65".as_slice(), 1, LineWhy::Number),
        (b"a 0 0 01".as_slice(), 1, LineWhy::Number),
        (b"a 0 1000000 1".as_slice(), 1, LineWhy::Number),
        (b"huge 18446744073709551616".as_slice(), 1, LineWhy::Number),
        (b"huge 0".as_slice(), 1, LineWhy::Number),
        (b"region 1".as_slice(), 1, LineWhy::Number),
        (b"p 0 0 0".as_slice(), 1, LineWhy::Number),
        (b"a 65536 0 10".as_slice(), 1, LineWhy::Number),
        (b"a 65535 0 10".as_slice(), 1, LineWhy::Thread),
        (b"a 64 0 10".as_slice(), 1, LineWhy::Thread),
        (b"p 0 1 1".as_slice(), 1, LineWhy::Cpu),
        (b"z 0 0 3 1".as_slice(), 1, LineWhy::Class),
        (b"a 0 0 10\nhuge 4".as_slice(), 2, LineWhy::HeadLate),
        (b"p 0 1 0\nhuge 4".as_slice(), 2, LineWhy::HeadLate),
        (b"a 0 0 10\na 0 0 10".as_slice(), 2, LineWhy::LabelUsed),
        (b"a 0 0 1\nf 0 0\na 0 0 1".as_slice(), 3, LineWhy::LabelUsed),
        (b"f 0 7".as_slice(), 1, LineWhy::LabelUnknown),
        (
            b"a 0 7 1\nf 0 7\nf 0 7\n".as_slice(),
            3,
            LineWhy::LabelFreed,
        ),
        (b"\n".as_slice(), 1, LineWhy::Word),
        (b"\xFF".as_slice(), 1, LineWhy::Word),
        (b"A 0 0 10".as_slice(), 1, LineWhy::Word),

        // Carriage returns: one is dropped, and one alone is an empty line.
        (b"a 0 0 10\r\r\n".as_slice(), 1, LineWhy::Number),
        (b"a 0 0 10\r\n\r".as_slice(), 2, LineWhy::Word),

        // The first of two rules that a line fails.
        (b"x 1 2 3 4 5".as_slice(), 1, LineWhy::Word),
        (b"a 0 0 10\nhuge".as_slice(), 2, LineWhy::HeadLate),
        (b"a x".as_slice(), 1, LineWhy::Fields),
        (b"a 9 0 01".as_slice(), 1, LineWhy::Number),
        (b"d 9 9".as_slice(), 1, LineWhy::Thread),
        (b"f 9 7".as_slice(), 1, LineWhy::Thread),
        (b"a 0 0 1\na 9 0 1".as_slice(), 2, LineWhy::Thread),
        (b"z 0 9 9 1".as_slice(), 1, LineWhy::Cpu),

        // The first of two bad lines.
        (
            b"a 0 0 1\nf 0 1\nhuge 4".as_slice(),
            2,
            LineWhy::LabelUnknown,
        ),
    ] {
        let read = read_trace(rt.alloc(), text, CLASSES).map(|trace| trace.labels);
        let bad = Err(TraceFault::BadLine { line, why });
        assert_eq!(rt; read, bad, "at {text:?}");
    }
}

#[test]
fn classes_past_their_type(rt: HostRuntime) -> Result<(), Fail> {
    let read = read_trace(rt.alloc(), b"z 0 0 256 1", 70000).map(|trace| trace.labels);
    let why = LineWhy::Class;
    assert_eq!(rt; read, Err(TraceFault::BadLine { line: 1, why }));
    let trace = read_trace(rt.alloc(), b"z 0 0 255 1", 70000)?;
    assert_eq!(rt; trace.turns.as_slice().len(), 1);
    Ok(())
}

#[test]
fn a_line_too_many(rt: HostRuntime) -> Result<(), Fail> {
    let mut text = repeated(rt.alloc(), b"huge 4\n", 1_000_000)?;
    assert_eq!(rt;
        read_trace(rt.alloc(), text.as_slice(), CLASSES)?
            .config
            .huge,
        4
    );
    text.extend_from_slice(b"x")?;
    let read = read_trace(rt.alloc(), text.as_slice(), CLASSES).map(|trace| trace.labels);
    let line = 1_000_001;
    let why = LineWhy::Lines;
    assert_eq!(rt; read, Err(TraceFault::BadLine { line, why }));
    Ok(())
}

#[test]
fn an_order(rt: HostRuntime) -> Result<(), Fail> {
    let picks = read_order(rt.alloc(), b"1\n0 3\r\n1 2", 2)?;
    assert_eq!(rt; picks.as_slice(), [1, 0, 0, 0, 1, 1].as_slice());
    assert_eq!(rt; read_order(rt.alloc(), b"", 2)?.len(), 0);
    Ok(())
}

#[test]
fn bad_order_lines(rt: HostRuntime) {
    for (text, line, why) in [
        (b"0 0".as_slice(), 1, OrderWhy::Number),
        (b"0 1 1".as_slice(), 1, OrderWhy::Fields),
        (b"0 1000001".as_slice(), 1, OrderWhy::Number),
        (b"00".as_slice(), 1, OrderWhy::Number),
        (b"\n".as_slice(), 1, OrderWhy::Number),
        (b"65536".as_slice(), 1, OrderWhy::Number),
        (b"65535".as_slice(), 1, OrderWhy::Thread),
        (b"1\n2".as_slice(), 2, OrderWhy::Thread),

        // The first of two rules that a line fails.
        (b"x 1 1".as_slice(), 1, OrderWhy::Fields),
        (b"9 0".as_slice(), 1, OrderWhy::Number),
    ] {
        let read = read_order(rt.alloc(), text, 2).map(|picks| picks.len());
        let bad = Err(OrderFault::BadLine { line, why });
        assert_eq!(rt; read, bad, "at {text:?}");
    }
}

#[test]
fn picks_too_many(rt: HostRuntime) -> Result<(), Fail> {
    let mut text = repeated(rt.alloc(), b"0 1000000\n", 40)?;
    assert_eq!(rt;
        read_order(rt.alloc(), text.as_slice(), 1)?.len(),
        40_000_000
    );
    let full = text.len();
    text.extend_from_slice(b"0 1\n")?;
    let read = read_order(rt.alloc(), text.as_slice(), 1).map(|picks| picks.len());
    let line = 41;
    let why = OrderWhy::Picks;
    assert_eq!(rt; read, Err(OrderFault::BadLine { line, why }));

    // The thread is tested before the picks.
    text.truncate(full);
    text.extend_from_slice(b"9 1000000")?;
    let read = read_order(rt.alloc(), text.as_slice(), 1).map(|picks| picks.len());
    let why = OrderWhy::Thread;
    assert_eq!(rt; read, Err(OrderFault::BadLine { line, why }));
    Ok(())
}

#[test]
fn an_order_line_too_many(rt: HostRuntime) -> Result<(), Fail> {
    let mut text = repeated(rt.alloc(), b"0\n", 1_000_000)?;
    assert_eq!(rt;
        read_order(rt.alloc(), text.as_slice(), 1)?.len(),
        1_000_000
    );
    text.extend_from_slice(b"0 1 1")?;
    let read = read_order(rt.alloc(), text.as_slice(), 1).map(|picks| picks.len());
    let line = 1_000_001;
    let why = OrderWhy::Lines;
    assert_eq!(rt; read, Err(OrderFault::BadLine { line, why }));
    Ok(())
}

/// Made to be tried with each of its allocations refused in turn: a trace or an order comes whole, or
/// not at all.
#[test]
fn memory_that_runs_out(rt: HostRuntime) {
    match read_trace(rt.alloc(), b"a 0 3 1\nf 0 3\nr 0 1", CLASSES) {
        Ok(trace) => {
            assert_eq!(rt; trace.labels, 4);
            assert_eq!(rt; trace.turns.as_slice().len(), 3);
        }
        Err(fault) => assert_eq!(rt; fault, TraceFault::Memory),
    }
    match read_order(rt.alloc(), b"0 3\n1", 2) {
        Ok(picks) => assert_eq!(rt; picks.as_slice(), [0, 0, 0, 1].as_slice()),
        Err(fault) => assert_eq!(rt; fault, OrderFault::Memory),
    }
}
