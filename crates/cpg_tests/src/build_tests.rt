//! The pair, built over a list of all scenarios, against what was worked out by hand; and both builders against each
//! other on a graph of two nodes with a choice, two faults, releases, deadlines and frozen items.

use crate::claims::{Claim, holds};
use crate::columns::are_rows;
use crate::fixtures::{MIXED, PAIR};
use crate::list_tests::listed;
use cpg_all_runs::has_few_scenarios;
use cpg_base::Scenario;
use cpg_core::expand;
use cpg_list::list;
use cpg_rules::Admitted;
use cpg_run::Built;
use cpg_table::{NodeTable, Row};
use std::alloc::Global;

/// Returns what is built under the urgency order over a list of all scenarios, or `None` if these are too many to list
/// or memory runs out.
#[tactic(auto, using(crate::proofs::Unfrozen::urgent_topological))]
fn built_by_list(alloc: Global, admitted: &Admitted) -> Option<Built> {
    if !has_few_scenarios(admitted.problem()) {
        return None;
    }
    list(alloc, admitted, admitted.order()).ok()
}

/// Returns what is built under the urgency order by trees, or `None` if an item is too wide or memory runs out.
#[tactic(auto, using(crate::proofs::Unfrozen::urgent_topological))]
fn built_by_trees(alloc: Global, admitted: &Admitted) -> Option<Built> {
    expand(alloc, admitted, admitted.order()).ok()
}

/// Whether B (process 1) ends last, at 105, which is 5 past the deadline, in the scenario with a fault in A (process
/// 0).
fn has_peaks(built: &Built) -> bool {
    built.worst == 105
        && built.worst_by == Some(1)
        && built.excess == 5
        && built.excess_by == Some(1)
        && built.excess_in.number(0) == 1
        && built.excess_in.total() == 1
}

/// Returns the tables of the two nodes, or `None` if there aren't two.
fn both(built: &Built) -> Option<(&NodeTable, &NodeTable)> {
    if built.tables.head().nodes().len() != 2 {
        return None;
    }
    Some((built.tables.node(0), built.tables.node(1)))
}

/// Whether the message is sent at 40 and heard at 50 or, after a fault of A, sent at 80 and heard at 90.
fn has_rows(built: &Built) -> bool {
    let Some((first, second)) = both(built) else {
        return false;
    };
    let sent = [(40, 0, 0), (80, 1, 1)];
    let heard = [(50, 0, 0), (90, 1, 1)];
    are_rows(first.sends(), &[sent.as_slice()]) && are_rows(second.hears(), &[heard.as_slice()])
}

/// Whether what is built of a graph over a list of all scenarios is what was worked out for the pair.
pub fn is_pair(alloc: Global, admitted: &Admitted) -> bool {
    match built_by_list(alloc, admitted) {
        Some(built) => has_peaks(&built) && has_rows(&built),
        None => false,
    }
}

#[test]
fn the_pair_is_listed(rt: HostRuntime) {
    assert!(rt; holds(rt.alloc(), PAIR, Claim::Pair));
}

/// Returns the time of the first column that matches a scenario, or `None` if none does.
fn time_in(row: &Row, scenario: &Scenario) -> Option<u64> {
    for column in row.columns() {
        if column.cube.matches(scenario) {
            return Some(column.time);
        }
    }
    None
}

/// Whether two lists of rows are of the same items, in order, with the same times in a scenario.
fn rows_agree(first: &[Row], second: &[Row], scenario: &Scenario) -> bool {
    if first.len() != second.len() {
        return false;
    }
    for at in 0..first.len() {
        if first[at].item() != second[at].item() {
            return false;
        }
        if time_in(&first[at], scenario) != time_in(&second[at], scenario) {
            return false;
        }
    }
    true
}

/// Whether two tables of a node agree, row by row, in a scenario.
fn nodes_agree(first: &NodeTable, second: &NodeTable, scenario: &Scenario) -> bool {
    rows_agree(first.starts(), second.starts(), scenario)
        && rows_agree(first.sends(), second.sends(), scenario)
        && rows_agree(first.hears(), second.hears(), scenario)
}

/// Whether in two builds of two nodes each all items have the same times in a scenario.
fn agree_in(first: &Built, second: &Built, scenario: &Scenario) -> bool {
    match (both(first), both(second)) {
        (Some((a, b)), Some((c, d))) => {
            nodes_agree(a, c, scenario) && nodes_agree(b, d, scenario)
        }
        _ => false,
    }
}

/// Whether two builds have the same greatest finish and the same greatest excess, and some process is late. A graph
/// with no late process would compare less.
fn are_measured_alike(first: &Built, second: &Built) -> bool {
    first.worst == second.worst
        && first.worst_by == second.worst_by
        && first.excess == second.excess
        && first.excess_by == second.excess_by
        && first.excess > 0
}

/// Whether two builds have the same measures, with some process late, and the same times in each of these scenarios.
fn agree(first: &Built, second: &Built, scenarios: &[Scenario]) -> bool {
    are_measured_alike(first, second)
        && scenarios
            .iter()
            .all(|scenario| agree_in(first, second, scenario))
}

/// Whether what trees build has the same measures and times as `listed`, which a list built, in these scenarios.
fn trees_agree(alloc: Global, admitted: &Admitted, scenarios: &[Scenario], listed: &Built) -> bool {
    match built_by_trees(alloc, admitted) {
        Some(built) => agree(listed, &built, scenarios),
        None => false,
    }
}

/// Whether both builders give the same measures and times in these scenarios. False at an error, too.
fn builders_agree_in(alloc: Global, admitted: &Admitted, scenarios: &[Scenario]) -> bool {
    match built_by_list(alloc, admitted) {
        Some(built) => trees_agree(alloc, admitted, scenarios, &built),
        None => false,
    }
}

/// Whether both builders give the same measures and times for a graph in all scenarios. False at an error, too.
pub fn builders_agree(alloc: Global, admitted: &Admitted) -> bool {
    match listed(alloc, admitted) {
        Ok(scenarios) => builders_agree_in(alloc, admitted, scenarios.as_slice()),
        Err(_) => false,
    }
}

#[test]
fn trees_tell_what_lists_tell(rt: HostRuntime) {
    assert!(rt; holds(rt.alloc(), MIXED, Claim::Agreement));
}
