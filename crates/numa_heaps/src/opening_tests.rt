//! A small trace at two nodes: the routes of its threads, the parts that they want first, and how many parts there are.
use crate::nodes::Nodes;
use crate::opening::open_nodes;
use alloc_rules::Part;
use call_steps::{Setting, Target};
use size_classes::ClassTable;
use std::test::Fail;
use tc_units::Class;
use trace_reader::read_trace;

/// Threads 0, 2 and 3 begin at node 0, since CPU 0 is there and CPU 2 is; thread 1 begins at CPU 1, and so at node 1.
const TRACE: &[u8] = b"threads 4\ncpus 3\n\
    a 1 6 100\na 0 2 9000\nf 0 6\nf 1 2\na 3 4 8\nr 3 1\na 2 3 16\nf 3 3\n";

#[test]
fn each_call_is_at_its_node(rt: HostRuntime) -> Result<(), Fail> {
    let alloc = rt.alloc();
    let table = ClassTable::read(alloc, b"16,1,4\n64,1,2\n8192,1,2\n").expect(&rt, "a table");
    let trace = read_trace(alloc, TRACE, table.len())?;
    let setting = Setting {
        table,
        config: trace.config,
    };
    let nodes = Nodes::new(2).expect(&rt, "two nodes");
    let (parts, locals) = open_nodes(alloc, &setting, nodes, &trace)?;
    let wants = [
        [Some(Target::Heap), Some(Target::Names)],
        [Some(Target::Names), Some(Target::Shard(Class(2)))],
        [Some(Target::Shard(Class(0))), None],
        [Some(Target::Shard(Class(0))), None],
    ];
    let routes: [&[u8]; 4] = [&[0, 1], &[1, 0], &[0], &[0, 0, 0]];
    assert_eq!(rt; locals.len(), 4);
    for (local, (wants, route)) in locals.iter().zip(wants.iter().zip(routes)) {
        assert_eq!(rt; local.here.len(), 2);
        for (here, want) in local.here.iter().zip(wants) {
            assert_eq!(rt; here.want(&setting), *want);
        }
        let places = local.route.as_slice().iter().map(|node| node.0);
        assert!(rt; places.eq(route.iter().copied()));
    }
    assert_eq!(rt; parts.len(), 12);
    for place in [5, 11] {
        assert!(rt; matches!(parts[place], Part::Names(_)));
    }
    Ok(())
}
