//! Generated graphs, against what another program worked out from the rule of their draws.

use cpg_base::{Problem, Process};
use cpg_gen::generate;
use std::alloc::Global;

/// A process's number, with its wcet, parts, alpha, chi and mu.
type DrawnCosts = (usize, [u64; 5]);

/// An edge's number, with its source, its target and its `when`.
type DrawnEnds = (usize, u32, u32, Option<bool>);

/// Returns the wcet, parts, alpha, chi and mu of a process.
fn costs_of(process: &Process) -> [u64; 5] {
    let parts = u64::from(process.parts);
    [process.wcet, parts, process.alpha, process.chi, process.mu]
}

/// Whether there is such a process, with these costs.
fn has_costs(problem: &Problem, costs: DrawnCosts) -> bool {
    match problem.processes().get(costs.0) {
        Some(process) => costs_of(process) == costs.1,
        None => false,
    }
}

/// Whether there is such an edge, with these ends and this `when`.
fn has_edge(problem: &Problem, ends: DrawnEnds) -> bool {
    match problem.edges().get(ends.0) {
        Some(edge) => edge.from == ends.1 && edge.to == ends.2 && edge.when == ends.3,
        None => false,
    }
}

/// Whether edges 39 and 40 lead from p10 to the join, p40, one for each value. The 39 edges before them lead to p1 to
/// p39.
fn has_join(problem: &Problem) -> bool {
    has_edge(problem, (39, 10, 40, Some(true))) && has_edge(problem, (40, 10, 40, Some(false)))
}

/// Whether a graph has the counts, faults and deadline of all generated graphs, and so many conditions.
fn are_counts(problem: &Problem, conditions: u32) -> bool {
    problem.nodes().len() == 4
        && problem.slots().len() == 4
        && problem.processes().len() == 60
        && problem.edges().len() == 60
        && problem.faults() == 2
        && problem.deadline() == 1_000_000_000
        && problem.conditions() == conditions
}

/// Whether a graph has the join, and these processes and edges.
fn has_drawn(problem: &Problem, costs: &[DrawnCosts], edges: &[DrawnEnds]) -> bool {
    has_join(problem)
        && costs.iter().all(|costs| has_costs(problem, *costs))
        && edges.iter().all(|ends| has_edge(problem, *ends))
}

/// Whether the graph generated of a number has these processes and edges, and so many conditions. False at an error, too.
fn is_generated(
    alloc: Global,
    number: u64,
    costs: &[DrawnCosts],
    edges: &[DrawnEnds],
    conditions: u32,
) -> bool {
    match generate(alloc, number) {
        Ok(problem) => { are_counts(&problem, conditions) && has_drawn(&problem, costs, edges) }
        Err(_) => false,
    }
}

#[test]
fn generates_of_0(rt: HostRuntime) {
    let costs = [
        (0, [8, 1, 1, 1, 0]),
        (1, [42, 3, 2, 0, 4]),
        (40, [7, 3, 0, 0, 0]),
        (59, [41, 3, 1, 0, 1]),
    ];
    let edges = [(10, 7, 11, None), (59, 58, 59, None)];
    assert!(rt; is_generated(rt.alloc(), 0, &costs, &edges, 1));
}

#[test]
fn generates_of_7(rt: HostRuntime) {
    let costs = [
        (0, [29, 3, 0, 2, 0]),
        (40, [11, 3, 2, 1, 2]),
        (59, [14, 2, 0, 0, 0]),
    ];
    let edges = [
        (12, 10, 13, Some(true)),
        (14, 10, 15, Some(true)),
        (59, 55, 59, None),
    ];
    assert!(rt; is_generated(rt.alloc(), 7, &costs, &edges, 1));
}

#[test]
fn generates_of_12345(rt: HostRuntime) {
    let costs = [
        (0, [15, 2, 1, 1, 0]),
        (40, [18, 3, 1, 1, 1]),
        (59, [5, 3, 1, 0, 0]),
    ];
    let edges = [(22, 20, 23, Some(true)), (59, 54, 59, None)];
    assert!(rt; is_generated(rt.alloc(), 12345, &costs, &edges, 2));
}

#[test]
fn generates_of_the_greatest(rt: HostRuntime) {
    let costs = [
        (0, [39, 3, 1, 2, 4]),
        (40, [13, 2, 0, 2, 0]),
        (59, [15, 3, 1, 1, 1]),
    ];
    let edges = [
        (15, 10, 16, Some(false)),
        (21, 20, 22, Some(false)),
        (59, 57, 59, None),
    ];
    assert!(rt; is_generated(rt.alloc(), u64::MAX, &costs, &edges, 2));
}
