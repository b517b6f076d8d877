//! What the time of a message or broadcast may depend on.
ghost use Rattle.std.specs.Prelude.{◌≡◌, ◌<◌, ◌++◌, [], length, get_or};
ghost use Rattle.cpg_base.specs.Graph.{edge_count, condition_count, item_count};
ghost use Rattle.cpg_base.specs.declared.item.Item.TheVariants.{Message, Broadcast};
ghost use Rattle.cpg_order.specs.Reach.{end_reach};
ghost use Rattle.cpg_order.specs.Elements.{SameElements};
ghost use Rattle.cpg_reach.specs.Tested.{AreDecidingValues};
ghost use Rattle.cpg_reach.specs.Walked.{send_by};

use crate::starting::{add_end, add_source_value};
use crate::variables::Variables;
use cpg_base::Problem;

/// Returns what the time of a message depends on. `sent` has, by node, what its earlier sends depend on. An edge
/// within a node depends on nothing, since it is never sent.
pub fn message_of(
    problem: &Problem,
    deciding: &[Variables],
    reaches: &[Variables],
    sent: &[Variables],
    edge: u32,
) -> Variables
    requires edge { edge < edge_count problem.now }
    requires deciding { AreDecidingValues problem.now deciding.now }
    requires items { length reaches.now ≡ item_count problem.now }
    requires nodes { length sent.now ≡ length problem.now.nodes }
    ensures { SameElements result (send_by problem.now reaches.now sent.now (Message edge)) }
{
    let ends = problem.edges()[edge as usize];
    let node = problem.node_of(ends.from);
    // the edge stays within the node
    if node == problem.node_of(ends.to) {
        return Variables::none();
    }
    // a frozen message has one time, so only what decides its producer counts, and below the value that sends it
    let mut reach = if ends.frozen {
        deciding[ends.from as usize].copy()
    } else {
        after_end(reaches, sent, ends.from, node)
    };
    add_source_value(problem, edge, &mut reach);
    reach
}

/// Returns what the end of a process and the earlier sends of a node depend on.
fn after_end(reaches: &[Variables], sent: &[Variables], process: u32, node: u32) -> Variables
    requires process { process < length reaches.now }
    requires variable { process < 128 }
    requires node { node < length sent.now }
    ensures { SameElements result (end_reach reaches.now process ++ get_or sent.now node []) }
{
    let mut reach = sent[node as usize].copy();
    add_end(reaches, process, &mut reach);
    reach
}

/// Returns what the time of a broadcast depends on. `sent` has, by node, what its earlier sends depend on. With one
/// node it depends on nothing, since it is never sent.
pub fn broadcast_of(
    problem: &Problem,
    reaches: &[Variables],
    sent: &[Variables],
    condition: u32,
) -> Variables
    requires condition { condition < condition_count problem.now }
    requires items { length reaches.now ≡ item_count problem.now }
    requires nodes { length sent.now ≡ length problem.now.nodes }
    ensures { SameElements result (send_by problem.now reaches.now sent.now (Broadcast condition)) }
{
    // there is no other node that could hear it
    if problem.nodes().len() <= 1 {
        return Variables::none();
    }
    let process = problem.process_of(condition);
    let node = problem.node_of(process);
    after_end(reaches, sent, process, node)
}
