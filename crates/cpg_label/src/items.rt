//! The texts of items. Each function that writes fails only if memory runs out.
ghost use Rattle.std.specs.Prelude.{◌≡◌, ◌<◌, ◌++◌, OnErr, OnOk, codes, string_bytes};
ghost use Rattle.cpg_base.specs.Graph.{condition_count, item_at, item_count};
ghost use Rattle.cpg_base.specs.Called.{name_of, node_name};
ghost use Rattle.cpg_label.specs.Front.{IsFrontOf};
ghost use Rattle.cpg_label.specs.ItemText.{act_text, edge_text, hear_text, done_text, item_among};
ghost use Rattle.cpg_label.specs.Labels.{condition_name, labels_of, process_name};

use crate::labels::Labels;
use crate::text::{write_both, write_number};
use cpg_base::{Item, Problem};
use std::alloc::AllocError;

/// Returns the item with this number in a graph with `processes` processes and `edges` edges. A number beyond those of
/// the graph gives a broadcast.
pub fn item_among(processes: usize, edges: usize, number: u32) -> Item
    ensures { result ≡ item_among processes edges number }
{
    let place = number as usize;
    // the first numbers are those of starts, the next ones those of messages, and the last ones those of broadcasts
    if place < processes {
        return Item::Start(number);
    }
    // what is left of the number is no greater than it, so it fits a `u32` again
    let beyond = place - processes;
    if beyond < edges {
        return Item::Message(beyond as u32);
    }
    Item::Broadcast((beyond - edges) as u32)
}

/// Writes the names of an edge's source and target.
fn write_ends(out: &mut String, from: &str, to: &str) -> Result<(), AllocError>
    ensures text { OnOk result (string_bytes out.new ≡ string_bytes out.old ++ from.now ++ codes ">" ++ to.now) }
    ensures front { OnErr result (IsFrontOf (string_bytes out.old) (string_bytes out.new)) }
{
    out.push_str(from)?;
    write_both(out, ">", to)
}

/// Writes an edge: its number, and the names of its source and target.
fn write_edge(out: &mut String, labels: &Labels<'_>, edge: u32) -> Result<(), AllocError>
    ensures text { OnOk result (string_bytes out.new ≡ string_bytes out.old ++ edge_text labels.now edge) }
    ensures front { OnErr result (IsFrontOf (string_bytes out.old) (string_bytes out.new)) }
{
    let (from, to) = labels.ends(edge);
    out.push_str("e")?;
    write_number(out, u64::from(edge))?;
    out.push_str(" ")?;
    write_ends(out, labels.process(from), labels.process(to))
}

/// Writes what the node of an item does with it: `start` a process, `send` a message, or `tell` a condition.
pub fn write_act(out: &mut String, labels: &Labels<'_>, item: Item) -> Result<(), AllocError>
    ensures text { OnOk result (string_bytes out.new ≡ string_bytes out.old ++ act_text labels.now item) }
    ensures front { OnErr result (IsFrontOf (string_bytes out.old) (string_bytes out.new)) }
{
    match item {
        Item::Start(process) => write_both(out, "start ", labels.process(process)),
        Item::Message(edge) => {
            out.push_str("send ")?;
            write_edge(out, labels, edge)
        }
        Item::Broadcast(condition) => write_both(out, "tell ", labels.condition(condition)),
    }
}

/// Writes what another node hears of an item.
pub fn write_heard(out: &mut String, labels: &Labels<'_>, item: Item) -> Result<(), AllocError>
    ensures text { OnOk result (string_bytes out.new ≡ string_bytes out.old ++ hear_text labels.now item) }
    ensures front { OnErr result (IsFrontOf (string_bytes out.old) (string_bytes out.new)) }
{
    out.push_str("hear ")?;
    match item {
        // no node hears a start, but a text is defined for it
        Item::Start(process) => out.push_str(labels.process(process)),
        Item::Message(edge) => write_edge(out, labels, edge),
        Item::Broadcast(condition) => out.push_str(labels.condition(condition)),
    }
}

/// Returns the name of a process; empty if there is no such process.
pub fn name_of(problem: &Problem, process: u32) -> &str
    ensures name { result.now ≡ name_of problem.now process }
    ensures label { result.now ≡ process_name (labels_of problem.now) process }
{
    match problem.processes().get(process as usize) {
        Some(process) => process.name.as_str(),
        None => "",
    }
}

/// Returns the name of a node; empty if there is no such node.
pub fn node_name(problem: &Problem, node: u32) -> &str
    ensures { result.now ≡ node_name problem.now node }
{
    match problem.nodes().get(node as usize) {
        Some(name) => name.as_str(),
        None => "",
    }
}

/// Returns the name of the process of a condition.
fn condition_name(problem: &Problem, condition: u32) -> &str
    requires { condition < condition_count problem.now }
    ensures { result.now ≡ condition_name (labels_of problem.now) condition }
{
    name_of(problem, problem.process_of(condition))
}

/// Writes what is done with an item of a graph, as a trace says it: a message has only the number of its edge there.
pub fn write_item(out: &mut String, problem: &Problem, item: u32) -> Result<(), AllocError>
    requires { item < item_count problem.now }
    ensures text { OnOk result (string_bytes out.new ≡ string_bytes out.old ++ done_text (labels_of problem.now) (item_at problem.now item)) }
    ensures front { OnErr result (IsFrontOf (string_bytes out.old) (string_bytes out.new)) }
{
    match problem.item(item) {
        Item::Start(process) => write_both(out, "start ", name_of(problem, process)),
        Item::Message(edge) => {
            out.push_str("send e")?;
            write_number(out, u64::from(edge))
        }
        Item::Broadcast(condition) => write_both(out, "tell ", condition_name(problem, condition)),
    }
}
