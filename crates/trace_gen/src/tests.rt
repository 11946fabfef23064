//! Traces that were worked out by hand.
use crate::generate;
use std::test::Fail;

#[test]
fn three_calls(rt: HostRuntime) -> Result<(), Fail> {
    let text = generate(rt.alloc(), 1, 3, 8)?.text;
    let lines = b"cpus 4\nthreads 8\nhuge 1024\na 6 0 108\nf 3 0\na 3 1 702\n";
    assert_eq!(rt; text.as_slice(), lines.as_slice());
    Ok(())
}

#[test]
fn many_calls(rt: HostRuntime) -> Result<(), Fail> {
    let text = generate(rt.alloc(), 1, 20000, 8)?.text;
    let lines =
        b"cpus 4\nthreads 8\nhuge 1024\na 6 0 108\nf 3 0\na 3 1 702\na 7 2 32225\na 7 3 402192\n";
    assert!(rt; text.starts_with(lines));
    Ok(())
}

/// Seed 118 gives each kind of line in ten calls. The draws were worked out from the rule.
#[test]
fn every_kind_of_line(rt: HostRuntime) -> Result<(), Fail> {
    let text = generate(rt.alloc(), 118, 10, 63)?.text;
    let lines =
        b"cpus 32\nthreads 63\nhuge 1024\na 50 0 356\na 43 1 355\nf 16 0\nf 12 1\nr 24 445\na 59 2 634\na 9 3 173408\na 5 4 978\na 32 5 739\np 54 3 6\nd 54 10\n";
    assert_eq!(rt; text.as_slice(), lines.as_slice());
    Ok(())
}

/// Made to be tried with each of its allocations refused in turn: a trace comes whole, or not at all.
#[test]
fn memory_that_runs_out(rt: HostRuntime) -> Result<(), Fail> {
    if let Ok(generated) = generate(rt.alloc(), 2147483647, 1, 1) {
        let lines = b"cpus 1\nthreads 1\nhuge 1024\na 0 0 95\n";
        assert_eq!(rt; generated.text.as_slice(), lines.as_slice());
    }
    Ok(())
}
