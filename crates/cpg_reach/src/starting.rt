//! What the start of a process may depend on.
ghost use Rattle.std.specs.Prelude.{◌≡◌, ◌<◌, ◌≤◌, ◌++◌, length};
ghost use Rattle.std.specs.List.{flat_map};
ghost use Rattle.cpg_base.specs.Graph.{process_count, edge_count, condition_count, item_count, node_of, inputs};
ghost use Rattle.cpg_order.specs.Deciding.{conditions_of};
ghost use Rattle.cpg_order.specs.Reach.{end_reach, hearing_reach, input_reach, source_value};
ghost use Rattle.cpg_order.specs.Elements.{SameElements};
ghost use Rattle.cpg_reach.specs.Variables.{Adds};
ghost use Rattle.cpg_reach.specs.Tested.{AreDecidingValues};
ghost use Rattle.cpg_reach.specs.Walked.{heard_by, start_by};

use crate::variables::{FIRST_VALUE, Variables};
use cpg_base::Problem;

/// Adds to `reach` what the end of a process depends on: what its start depends on, and its fault count.
pub fn add_end(reaches: &[Variables], process: u32, reach: &mut Variables)
    requires process { process < length reaches.now }
    requires variable { process < 128 }
    ensures { Adds reach.old (end_reach reaches.now process) reach.new }
{
    reach.add(&reaches[process as usize]);
    reach.insert(process);
}

/// Adds to `reach` the value that an edge asks for, that of its source's condition. An edge without a `when`, or of a
/// source without a condition, asks for none.
pub fn add_source_value(problem: &Problem, edge: u32, reach: &mut Variables)
    requires { edge < edge_count problem.now }
    ensures { Adds reach.old (source_value problem.now edge) reach.new }
{
    let ends = problem.edges()[edge as usize];
    if ends.when.is_none() {
        return;
    }
    if let Some(condition) = problem.condition_of(ends.from) {
        reach.insert(FIRST_VALUE + condition);
    }
}

/// Adds to `reach` what the time depends on at which a node hears a condition.
fn add_hearing(
    problem: &Problem,
    reaches: &[Variables],
    node: u32,
    condition: u32,
    reach: &mut Variables,
)
    requires condition { condition < condition_count problem.now }
    requires items { length reaches.now ≡ item_count problem.now }
    ensures { Adds reach.old (hearing_reach problem.now reaches.now node condition) reach.new }
{
    let process = problem.process_of(condition);
    let first_broadcast = problem.processes().len() + problem.edges().len();
    // the node hears its own condition when the process ends, and another one by its broadcast
    if problem.node_of(process) == node {
        add_end(reaches, process, reach);
    } else {
        reach.add(&reaches[first_broadcast + condition as usize]);
    }
}

/// Adds to `reach` the values of the conditions that decide a process, and what the times depend on at which the node
/// hears them.
pub fn add_heard(
    problem: &Problem,
    deciding: &[Variables],
    reaches: &[Variables],
    node: u32,
    process: u32,
    reach: &mut Variables,
)
    requires process { process < process_count problem.now }
    requires deciding { AreDecidingValues problem.now deciding.now }
    requires items { length reaches.now ≡ item_count problem.now }
    ensures { Adds reach.old (heard_by problem.now reaches.now node (conditions_of problem.now process)) reach.new }
{
    for condition in 0..problem.conditions() {
        if deciding[process as usize].has(FIRST_VALUE + condition) {
            reach.insert(FIRST_VALUE + condition);
            add_hearing(problem, reaches, node, condition, reach);
        }
    }
}

/// Adds to `reach` what the time depends on at which an input is there, and the value that its edge asks for.
fn add_input(problem: &Problem, reaches: &[Variables], edge: u32, reach: &mut Variables)
    requires edge { edge < edge_count problem.now }
    requires items { length reaches.now ≡ item_count problem.now }
    ensures { Adds reach.old (input_reach problem.now reaches.now edge) reach.new }
{
    let ends = problem.edges()[edge as usize];
    // within a node the input is there when its source ends, and otherwise when the message arrives
    if problem.node_of(ends.from) == problem.node_of(ends.to) {
        add_end(reaches, ends.from, reach);
    } else {
        let message = problem.processes().len() + edge as usize;
        reach.add(&reaches[message]);
    }
    add_source_value(problem, edge, reach);
}

/// Adds to `reach` what the times depend on at which the inputs of a process are there, and the values that their edges
/// ask for.
fn add_inputs(problem: &Problem, reaches: &[Variables], process: u32, reach: &mut Variables)
    requires { length reaches.now ≡ item_count problem.now }
    ensures { Adds reach.old (flat_map (input_reach problem.now reaches.now) (inputs problem.now process)) reach.new }
{
    for edge in 0..problem.edges().len() as u32 {
        if problem.edges()[edge as usize].to == process {
            add_input(problem, reaches, edge, reach);
        }
    }
}

/// Returns what the start of a process depends on. `known` has, by node, what its earlier processes make it wait for.
pub fn start_of(
    problem: &Problem,
    deciding: &[Variables],
    reaches: &[Variables],
    known: &[Variables],
    process: u32,
) -> Variables
    requires process { process < process_count problem.now }
    requires deciding { AreDecidingValues problem.now deciding.now }
    requires items { length reaches.now ≡ item_count problem.now }
    requires nodes { length known.now ≡ length problem.now.nodes }
    ensures { SameElements result (start_by problem.now reaches.now known.now process) }
{
    // a frozen process starts at one time, so only what decides it counts
    if problem.processes()[process as usize].frozen {
        return deciding[process as usize].copy();
    }
    let node = problem.node_of(process);
    let mut reach = known[node as usize].copy();
    add_heard(problem, deciding, reaches, node, process, &mut reach);
    add_inputs(problem, reaches, process, &mut reach);
    reach
}
