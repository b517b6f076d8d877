//! The first part in which the head of a pack differs from a graph's.
ghost use Rattle.std.specs.Prelude.{◌≡◌, ◌↔◌, IfNone, IfOk, IfSome, IsTrue, length, map};
ghost use Rattle.cpg_base.specs.Graph.{process_count};
ghost use Rattle.cpg_head.specs.GraphHead.{extra_of, head_of};
ghost use Rattle.cpg_violation.specs.Heads.{AreProcessesOf, IsFirstDifference, IsHeadFor};

use cpg_base::{OutOfMemory, Problem, Process, are_same_names};
use cpg_head::{Extra, Head, HeadProcess, head_of};
use std::alloc::Global;

/// A part of a pack's head, in the order in which they are compared with the graph's. The first that differs is
/// reported.
#[derive(Clone, Copy, Debug, PartialEq, Eq)]
pub enum HeadPart {
    /// The number of faults.
    Faults,
    /// The names of the nodes.
    Nodes,
    /// The processes: names, nodes, whether they have conditions, durations and, in version 2, releases and own deadlines.
    Processes,
    /// The ends of the edges.
    Edges,
}

/// Whether two processes of heads are the same: in name, node, whether they have a condition, and how long they take.
fn is_same_process(process: &HeadProcess, other: &HeadProcess) -> bool
    ensures { IsTrue result ↔ (process.now ≡ other.now) }
{
    if process.name != other.name {
        return false;
    }
    if process.node != other.node {
        return false;
    }
    if process.condition != other.condition {
        return false;
    }
    process.times.times() == other.times.times()
}

/// Whether two lists of processes of heads are the same, place by place.
fn are_same_processes(processes: &[HeadProcess], others: &[HeadProcess]) -> bool
    ensures { IsTrue result ↔ (processes.now ≡ others.now) }
{
    if processes.len() != others.len() {
        return false;
    }
    for place in 0..processes.len() {
        if !is_same_process(&processes[place], &others[place]) {
            return false;
        }
    }
    true
}

/// Whether two edges, given by their source and target, have the same ends.
fn is_same_edge(edge: (u32, u32), other: (u32, u32)) -> bool
    ensures { IsTrue result ↔ (edge ≡ other) }
{
    edge.0 == other.0 && edge.1 == other.1
}

/// Whether the edges of two lists have the same ends, place by place.
fn are_same_edges(edges: &[(u32, u32)], others: &[(u32, u32)]) -> bool
    ensures { IsTrue result ↔ (edges.now ≡ others.now) }
{
    if edges.len() != others.len() {
        return false;
    }
    for place in 0..edges.len() {
        if !is_same_edge(edges[place], others[place]) {
            return false;
        }
    }
    true
}

/// Whether the release and the deadline that version 2 adds are those of a process.
fn is_same_extra(extra: &Extra, process: &Process) -> bool
    ensures { IsTrue result ↔ (extra.now ≡ extra_of process.now) }
{
    extra.release == process.release && extra.deadline == process.deadline
}

/// Whether a head has the graph's releases and own deadlines, which only version 2 has. A head of version 1 passes.
fn are_same_extras(problem: &Problem, head: &Head) -> bool
    requires { length head.now.processes ≡ process_count problem.now }
    ensures { IsTrue result ↔ IfSome head.now.extras (λ extras. extras ≡ map extra_of problem.now.processes) }
{
    let processes = problem.processes();
    // called for its clause `within` alone: a head that has extras has one for each process
    let _described = head.processes();
    for process in 0..processes.len() {
        // a head of version 1 has none; there are at most 128 processes, so the cast keeps the number
        let Some(extra) = head.extra(process as u32) else {
            return true;
        };
        if !is_same_extra(extra, &processes[process]) {
            return false;
        }
    }
    true
}

/// Whether a head says of the processes what the graph does. `own` is the graph's own head.
fn are_processes_of(problem: &Problem, own: &Head, head: &Head) -> bool
    requires { own.now ≡ head_of problem.now }
    ensures { IsTrue result ↔ AreProcessesOf problem.now head.now }
{
    if !are_same_processes(head.processes(), own.processes()) {
        return false;
    }
    are_same_extras(problem, head)
}

/// The first part in which a head differs from the graph's, and `None` exactly if it is the graph's. The one error is
/// `OutOfMemory`.
pub fn first_difference(
    alloc: Global,
    problem: &Problem,
    head: &Head,
) -> Result<Option<HeadPart>, OutOfMemory>
    ensures none { IfOk result (λ r. IfNone r (IsHeadFor problem.now head.now)) }
    ensures first { IfOk result (λ r. IfSome r (IsFirstDifference problem.now head.now)) }
{
    let own = head_of(alloc, problem)?;
    if head.faults() != own.faults() {
        return Ok(Some(HeadPart::Faults));
    }
    if !are_same_names(head.nodes(), own.nodes()) {
        return Ok(Some(HeadPart::Nodes));
    }
    if !are_processes_of(problem, &own, head) {
        return Ok(Some(HeadPart::Processes));
    }
    if !are_same_edges(head.edges(), own.edges()) {
        return Ok(Some(HeadPart::Edges));
    }
    Ok(None)
}
