//! Whole runs at two nodes, worked out by hand.
use crate::machine::NumaMachine;
use crate::nodes::Nodes;
use size_classes::ClassTable;
use std::alloc::Global;
use std::process::Abort;
use std::test::Fail;
use tc_machine::{Allocator, State, refused_line};
use tc_model::{Answer, Finished};
use tc_units::Addr;
use trace_reader::read_trace;

/// What a trace at two nodes comes to, in trace order.
fn finished(rt: &impl Abort, alloc: Global, text: &[u8]) -> Result<Finished, Fail> {
    let table = ClassTable::read(alloc, b"16,1,4\n64,1,2\n8192,1,2\n").expect(rt, "a table");
    let trace = read_trace(alloc, text, table.len())?;
    let refused = refused_line::<NumaMachine>(&trace);
    assert!(rt; refused.is_none());
    let nodes = Nodes::new(2).expect(rt, "two nodes");
    let mut state = State::<NumaMachine>::open(alloc, nodes, table, trace)?;
    let Ok(()) = state.run_serial() else {
        panic!(rt; "not completed");
    };
    Ok(state.finish()?)
}

#[test]
fn a_node_that_is_full_gets_nothing_of_the_other(rt: HostRuntime) -> Result<(), Fail> {
    let text = b"cpus 2\nthreads 2\nhuge 1\na 0 0 2097152\na 0 1 10\na 1 2 10\n";
    let told = finished(&rt, rt.alloc(), text)?;
    let block = |addr, len| Answer::Block {
        addr: Addr(addr),
        len,
    };
    let answers = [
        block(2_097_152, 2_097_152),
        Answer::NoBlock,
        block(4_194_304, 16),
    ];
    assert!(rt;
        told.calls
            .as_slice()
            .iter()
            .map(|line| line.answer)
            .eq(answers)
    );
    assert_eq!(rt; (told.live, told.live_bytes), (2, 2_097_168));
    assert_eq!(rt; (told.used, told.resident), (257, 512));
    assert_eq!(rt; told.rows.as_slice().len(), 2);
    Ok(())
}

#[test]
fn a_free_is_at_its_blocks_node(rt: HostRuntime) -> Result<(), Fail> {
    let text = b"cpus 2\nthreads 2\nhuge 4\na 1 5 9000\na 0 6 9000\nf 0 5\n";
    let told = finished(&rt, rt.alloc(), text)?;
    let freed = Answer::Freed {
        addr: Addr(10_485_760),
    };
    let last = told.calls.as_slice().last().map(|line| line.answer);
    assert_eq!(rt; last, Some(freed));
    assert_eq!(rt; (told.live, told.used, told.resident), (1, 2, 512));
    let used = told.rows.as_slice().iter().map(|row| row.used);
    assert!(rt; used.eq([2, 0, 0, 0, 0, 0, 0, 0]));
    Ok(())
}
