//! The parts of all memory nodes, and the threads, before any act.
ghost use Rattle.std.specs.Prelude.{◌≡◌, ◌<◌, ◌≤◌, ◌^◌, ℕ, length, map, IfOk, OnOk};
ghost use Rattle.std.specs.List.{range_with_len};
ghost use Rattle.tc_model.specs.Input.{Asked, label_end};
ghost use Rattle.tc_model.specs.Run.{world_of, start};
ghost use Rattle.size_classes.specs.Rows.{IsTable};
ghost use Rattle.trace_reader.specs.Valid.{IsConfig};
ghost use Rattle.alloc_rules.specs.Inputs.{IsValidInput};
ghost use Rattle.tc_machine.specs.Inputs.{IsRead, input_under, script_at};
ghost use Rattle.node_rules.specs.Numa.{numa_rules};
ghost use Rattle.numa_heaps.specs.Opening.{owners_with, owners_behind, node_by, route_by, calls_by, end_of, end_at, owners_of, labels_by, locals_by, thread_by, parts_by};

use crate::local::NumaLocal;
use crate::nodes::{NodeNo, Nodes};
use alloc_rules::Part;
use call_steps::Setting;
use no_caches::{NoCaches, NoPart, PlainLocal};
use std::alloc::{AllocError, Global};
use tc_machine::parts_of;
use tc_model::{Call, Config, Plan, Script};
use tc_units::ThreadNo;
use trace_reader::Trace;

/// Notes the label that a call of a thread of this node allocates.
fn note_label(here: NodeNo, call: Call, owners: &mut [NodeNo])
    ensures { owners.new ≡ owners_with here owners.old call }
{
    if let Call::Malloc { label, .. } = call {
        let place = label.0 as usize;
        if place < owners.len() {
            owners[place] = here;
        }
    }
}

/// Notes the labels that a thread of this node allocates.
fn note_labels(here: NodeNo, calls: &Plan, owners: &mut [NodeNo])
    ensures { owners.new ≡ owners_behind here owners.old calls.now }
{
    for place in 0..calls.len() {
        note_label(here, calls.at(place).call, owners);
    }
}

/// The node of each label's block: that of the thread which allocates it.
fn owners_of(
    alloc: Global,
    nodes: Nodes,
    config: &Config,
    scripts: &[Script],
    labels: u32,
) -> Result<Vec<NodeNo>, AllocError>
    requires cpus { 0 < config.now.cpus }
    requires few { length scripts.now ≤ 64 }
    ensures { IfOk result (λ owners. owners.items ≡ owners_of nodes.count config.now (script_at scripts.now) labels (length scripts.now)) }
{
    let mut owners = vec![in alloc; NodeNo(0); labels as usize]?;
    for thread in 0..scripts.len() {
        let here = nodes.home(config, ThreadNo(thread as u8));
        note_labels(here, &scripts[thread].calls, &mut owners);
    }
    Ok(owners)
}

/// The node at which a call of a thread of this node acts.
fn node_of(here: NodeNo, owners: &[NodeNo], call: Call) -> NodeNo
    ensures { result ≡ node_by here owners.now call }
{
    match call {
        Call::Free { label } => *owners.get(label.0 as usize).unwrap_or(&here),
        _ => here,
    }
}

/// The node of each call of a script.
fn route_of(
    alloc: Global,
    here: NodeNo,
    owners: &[NodeNo],
    calls: &Plan,
) -> Result<Vec<NodeNo>, AllocError>
    ensures { IfOk result (λ route. route.items ≡ route_by here owners.now calls.now) }
{
    let mut route = Vec::with_capacity(alloc, calls.len())?;
    for place in 0..calls.len() {
        route.push(node_of(here, owners, calls.at(place).call))?;
    }
    Ok(route)
}

/// The calls of a script at a node.
fn calls_at(
    alloc: Global,
    node: NodeNo,
    here: NodeNo,
    owners: &[NodeNo],
    calls: &Plan,
) -> Result<Plan, AllocError>
    ensures { IfOk result (λ kept. kept ≡ calls_by here owners.now node.0 calls.now) }
{
    let mut kept = Plan::new(alloc);
    for place in 0..calls.len() {
        let planned = calls.at(place);
        if node_of(here, owners, planned.call) == node {
            kept.push(planned)?;
        }
    }
    Ok(kept)
}

/// What a thread has at each node.
fn here_of(
    alloc: Global,
    setting: &Setting,
    nodes: Nodes,
    thread: ThreadNo,
    owners: &[NodeNo],
    calls: &Plan,
) -> Result<Vec<PlainLocal>, AllocError>
    requires { 0 < setting.now.config.cpus }
    ensures { IfOk result (λ here. here.items ≡ locals_by setting.now nodes.count thread.0 owners.now calls.now nodes.count) }
{
    let home = nodes.home(&setting.config, thread);
    let mut here = Vec::new(alloc);
    for node in 0..nodes.count() {
        let calls = calls_at(alloc, NodeNo(node), home, owners, calls)?;
        let script = Script { calls };
        here.push(PlainLocal::new(alloc, setting, thread, script)?)?;
    }
    Ok(here)
}

/// A thread, with the nodes of its calls and what it has at each node.
fn thread_of(
    alloc: Global,
    setting: &Setting,
    nodes: Nodes,
    thread: ThreadNo,
    owners: &[NodeNo],
    calls: &Plan,
) -> Result<NumaLocal, AllocError>
    requires { 0 < setting.now.config.cpus }
    ensures { IfOk result (λ local. local ≡ thread_by setting.now nodes.count thread.0 owners.now calls.now) }
{
    let home = nodes.home(&setting.config, thread);
    let here = here_of(alloc, setting, nodes, thread, owners, calls)?;
    let route = route_of(alloc, home, owners, calls)?;
    Ok(NumaLocal::new(alloc, here, route))
}

/// A thread for each script.
fn threads_of(
    alloc: Global,
    setting: &Setting,
    nodes: Nodes,
    owners: &[NodeNo],
    scripts: &[Script],
) -> Result<Vec<NumaLocal>, AllocError>
    requires cpus { 0 < setting.now.config.cpus }
    requires few { length scripts.now ≤ 64 }
    ensures { IfOk result (λ locals. locals.items ≡ map (λ t. thread_by setting.now nodes.count t owners.now (script_at scripts.now t)) (range_with_len 0 (length scripts.now))) }
{
    let mut locals = Vec::new(alloc);
    for thread in 0..scripts.len() {
        let calls = &scripts[thread].calls;
        let thread = ThreadNo(thread as u8);
        locals.push(thread_of(alloc, setting, nodes, thread, owners, calls)?)?;
    }
    Ok(locals)
}

/// The label plus one that a call allocates, or 0.
fn label_end(call: Call) -> u64
    ensures { result ≡ label_end call }
{
    match call {
        Call::Malloc { label, .. } => u64::from(label.0) + 1,
        _ => 0,
    }
}

/// The greatest label plus one that a script allocates, or 0.
fn end_of(calls: &Plan) -> u64
    ensures { result ≡ end_of calls.now }
{
    let mut end = 0;
    for place in 0..calls.len() {
        end = end.max(label_end(calls.at(place).call));
    }
    end
}

/// The same of a thread at this node, where that is the node asked for, and else 0.
fn end_at(here: NodeNo, node: NodeNo, calls: &Plan) -> u64
    ensures { result ≡ end_at here.0 node.0 calls.now }
{
    if here == node { end_of(calls) } else { 0 }
}

/// The greatest label plus one that is allocated at a node, or 0.
fn labels_at(nodes: Nodes, config: &Config, scripts: &[Script], node: NodeNo) -> u64
    requires cpus { 0 < config.now.cpus }
    requires few { length scripts.now ≤ 64 }
    ensures { result ≡ labels_by nodes.count config.now (script_at scripts.now) node.0 (length scripts.now) }
{
    let mut end = 0;
    for thread in 0..scripts.len() {
        let home = nodes.home(config, ThreadNo(thread as u8));
        end = end.max(end_at(home, node, &scripts[thread].calls));
    }
    end
}

/// The parts of all nodes, one node behind the other.
fn parts_of_nodes(
    alloc: Global,
    setting: &Setting,
    nodes: Nodes,
    scripts: &[Script],
) -> Result<Vec<Part<NoPart>>, AllocError>
    requires config { IsConfig setting.now.config }
    requires few { length scripts.now ≤ 64 }
    requires labels { (k : ℕ) → labels_by nodes.count setting.now.config (script_at scripts.now) k (length scripts.now) < 2 ^ 32 }
    ensures table { OnOk result (IsTable setting.now.table) }
    ensures parts { IfOk result (λ parts. parts.items ≡ parts_by setting.now (λ k. labels_by nodes.count setting.now.config (script_at scripts.now) k (length scripts.now)) nodes.count) }
{
    let mut parts = Vec::new(alloc);
    for node in 0..nodes.count() {
        let labels = labels_at(nodes, &setting.config, scripts, NodeNo(node));
        let mut more = parts_of::<NoCaches>(setting, alloc, labels as u32)?;
        parts.append(&mut more)?;
    }
    Ok(parts)
}

/// The parts of all nodes, one node behind the other, and the threads, before any act.
pub(crate) fn open_nodes(
    alloc: Global,
    setting: &Setting,
    nodes: Nodes,
    trace: &Trace,
) -> Result<(Vec<Part<NoPart>>, Vec<NumaLocal>), AllocError>
    requires read { (asked : Asked) × IsRead (length setting.now.table) trace.now asked }
    requires config { setting.now.config ≡ trace.now.config }
    ensures start { IfOk result (λ r. world_of r.0.items r.1.items ≡ start (numa_rules nodes.count (input_under setting.now trace.now))) }
    ensures valid { OnOk result (IsValidInput (input_under setting.now trace.now)) }
{
    let scripts = trace.scripts.as_slice();
    let parts = parts_of_nodes(alloc, setting, nodes, scripts)?;
    let owners = owners_of(alloc, nodes, &setting.config, scripts, trace.labels)?;
    let locals = threads_of(alloc, setting, nodes, &owners, scripts)?;
    Ok((parts, locals))
}
