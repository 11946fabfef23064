//! Texts that were worked out by hand.
ghost use Rattle.std.specs.Prelude.{◌≡◌, ◌≤◌, ◌*◌, IfOk};

use crate::{report, summary};
use std::alloc::{AllocError, Global};
use std::process::Abort;
use std::test::Fail;
use tc_model::{Answer, Call, CallLine, Finished};
use tc_units::{Addr, Class, CpuNo, Label, Listed, RowKind, RowView, ThreadNo};

/// A finished run of 509 used pages of 512, of which live blocks take all but three.
fn finished(alloc: Global, calls: &[CallLine], rows: &[RowView]) -> Result<Finished, AllocError>
    ensures calls { IfOk result (λ f. f.calls ≡ calls.now) }
    ensures resident { IfOk result (λ f. f.resident ≡ 512) }
    ensures live { IfOk result (λ f. f.live_bytes ≡ 4169728) }
{
    Ok(Finished {
        calls: Listed::new(Vec::from_slice(alloc, calls)?),
        live: 2,
        live_bytes: 4169728,
        used: 509,
        resident: 512,
        rows: Listed::new(Vec::from_slice(alloc, rows)?),
    })
}

fn line(thread: u8, call: Call, answer: Answer) -> CallLine
    ensures { result ≡ record { thread = record { 0 = thread }; call = call; answer = answer } }
{
    CallLine {
        thread: ThreadNo(thread),
        call,
        answer,
    }
}

fn malloc(label: u32) -> Call
    ensures { result ≡ Call.Malloc (record { 0 = label }) 5 }
{
    Call::Malloc {
        label: Label(label),
        size: 5,
    }
}

fn free(label: u32) -> Call
    ensures { result ≡ Call.Free (record { 0 = label }) }
{
    Call::Free {
        label: Label(label),
    }
}

fn resize(cap: u32) -> Call
    ensures { result ≡ Call.Resize (record { 0 = 1 }) (record { 0 = 15 }) cap }
{
    Call::Resize {
        cpu: CpuNo(1),
        class: Class(15),
        cap,
    }
}

fn row(kind: RowKind, used: u32, allocs: u32, backed: u32, longest: u32, donated: bool) -> RowView {
    RowView {
        kind,
        used,
        allocs,
        backed,
        longest,
        donated,
    }
}

const DRAIN: Call = Call::Drain { cpu: CpuNo(2) };

#[test]
fn every_kind_of_line(rt: HostRuntime) -> Result<(), Fail> {
    let addr = Addr(2097152);
    let busy = Answer::Busy { owner: ThreadNo(5) };
    let most = Answer::Block {
        addr: Addr(u64::MAX),
        len: u64::MAX,
    };
    let calls = [
        line(0, malloc(0), Answer::Block { addr, len: 16 }),
        line(3, malloc(999999), Answer::NoBlock),
        line(0, free(0), Answer::Freed { addr }),
        line(63, free(999999), Answer::FreedNull),
        line(
            1,
            Call::Release { pages: 1000 },
            Answer::Released { pages: 256 },
        ),
        line(1, DRAIN, Answer::Drained { objects: 40 }),
        line(4, DRAIN, busy),
        line(2, resize(7), Answer::CapSet),
        line(2, resize(8), busy),
        line(2, resize(2049), Answer::OverStatic { cap: 2048 }),
        line(2, resize(600), Answer::OverLimit { sum: 1572872 }),
        line(255, malloc(u32::MAX), most),
    ];
    let rows = [
        row(RowKind::Free, 0, 0, 0, 256, false),
        row(RowKind::Filler, 88, 3, 200, 100, true),
        row(RowKind::Run, 256, 1, 256, 0, false),
        row(RowKind::Region, 168, 2, 256, 88, false),
    ];
    let finished = finished(rt.alloc(), &calls, &rows)?;

    let lines =
        "a 0 0 2097152 16\na 3 999999 none\nf 0 0 2097152\nf 63 999999 none\nr 1 256\nd 1 2 ok 40\nd 4 2 busy 5\nz 2 1 15 7 ok\nz 2 1 15 8 busy 5\nz 2 1 15 2049 overstatic 2048\nz 2 1 15 600 overlimit 1572872\na 255 4294967295 18446744073709551615 18446744073709551615\n";
    let counts = "calls 12\nlive 2 4169728\nused 509\nresident 512\nfrag 5\n";
    let hugepages =
        "h 1 free 0 0 0 256 0\nh 2 filler 88 3 200 100 1\nh 3 run 256 1 256 0 0\nh 4 region 168 2 256 88 0\n";
    let text = format!(in rt.alloc(); "{lines}{counts}")?;
    assert_eq!(rt;
        report(rt.alloc(), &finished, false)?.as_slice(),
        text.as_bytes()
    );
    let text = format!(in rt.alloc(); "{lines}{counts}{hugepages}")?;
    assert_eq!(rt;
        report(rt.alloc(), &finished, true)?.as_slice(),
        text.as_bytes()
    );
    assert_eq!(rt;
        summary(rt.alloc(), &finished)?.as_slice(),
        counts.as_bytes()
    );
    Ok(())
}

/// Asserts how a summary of so many backed pages and live bytes ends.
fn assert_fragmentation(
    rt: &impl Abort,
    alloc: Global,
    resident: u64,
    live_bytes: u64,
    text: &str,
) -> Result<(), AllocError>
    requires few { resident ≤ 8388608 }
    requires within { live_bytes ≤ resident * 8192 }
{
    let finished = Finished {
        calls: Listed::new(Vec::new(alloc)),
        live: 0,
        live_bytes,
        used: 0,
        resident,
        rows: Listed::new(Vec::new(alloc)),
    };
    let counts = summary(alloc, &finished)?;
    assert!(rt;
        counts.ends_with(text.as_bytes()),
        "at {resident} {live_bytes}"
    );
    Ok(())
}

#[test]
fn fragmentation(rt: HostRuntime) -> Result<(), Fail> {
    let alloc = rt.alloc();
    assert_fragmentation(&rt, alloc, 0, 0, "\nfrag 0\n")?;
    assert_fragmentation(&rt, alloc, 1, 0, "\nfrag 1000\n")?;
    assert_fragmentation(&rt, alloc, 1, 1, "\nfrag 999\n")?;
    assert_fragmentation(&rt, alloc, 1, 8183, "\nfrag 1\n")?;
    assert_fragmentation(&rt, alloc, 1, 8184, "\nfrag 0\n")?;
    assert_fragmentation(&rt, alloc, 8388608, 68719476736, "\nfrag 0\n")?;
    Ok(())
}

/// Made to be tried with each of its allocations refused in turn: a text comes whole, or not at all.
#[test]
fn memory_that_runs_out(rt: HostRuntime) -> Result<(), Fail> {
    let alloc = rt.alloc();
    let Ok(finished) = finished(alloc, &[], &[]) else {
        return Ok(());
    };
    let counts = "calls 0\nlive 2 4169728\nused 509\nresident 512\nfrag 5\n";
    if let Ok(text) = report(alloc, &finished, true) {
        assert_eq!(rt; text.as_slice(), counts.as_bytes());
    }
    if let Ok(text) = summary(alloc, &finished) {
        assert_eq!(rt; text.as_slice(), counts.as_bytes());
    }
    Ok(())
}
