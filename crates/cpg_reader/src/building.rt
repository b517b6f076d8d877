//! Building a graph from what a document says.
ghost use Rattle.std.specs.Prelude.{◌≡◌, ◌≤◌, length, Ok, IfOk, option_map};
ghost use Rattle.cpg_reader.specs.Reading.{Gives, each};
ghost use Rattle.cpg_reader.specs.Shape.{raw_view};
ghost use Rattle.cpg_reader.specs.Ranges.{limits};
ghost use Rattle.cpg_base.specs.Natural.{natural};
ghost use Rattle.cpg_reader.specs.Names.{slot_of, process_of, edge_of, ordered, slot_names, process_names, apart, graph_with, order_apart, order_of, resolved, named, graph_of};

use crate::names::Names;
use crate::place::{Key, Place, ReadFault, Table};
use crate::shape::{RawEdge, RawProblem, RawProcess, RawSlot};
use cpg_base::{Edge, Name, Problem, Process, Slot};
use std::alloc::Global;

/// Returns the number, or 0 if it is negative.
fn natural(number: i64) -> u64
    ensures { result ≡ natural number }
{
    // a document within the limits has no negative number, but the conversion is total
    if number < 0 { 0 } else { number as u64 }
}

/// Returns the number, which is at most 65,535, or 0 if it is negative.
fn small(number: i64) -> u32
    requires { natural number ≤ 65535 }
    ensures { result ≡ natural number }
{
    // at most 65,535, so the cast keeps it
    natural(number) as u32
}

/// Returns the numbers of the names of an order. An error is the first unknown name, or that memory runs out.
fn numbers_of(alloc: Global, order: &[Name], processes: &Names<'_>) -> Result<Vec<u32>, ReadFault>
    requires few { length processes.now ≤ 128 }
    ensures { Gives (λ v. v.items) result (each (ordered processes.now) 0 order.now) }
{
    // an unknown name is shown at the key `order`, so each name has this place
    let place = Place::of_name(Table::Top, 0, Key::Order);
    let mut numbers = Vec::with_capacity(alloc, order.len())?;
    for name in order {
        numbers.push(processes.number(place, name.as_str())?)?;
    }
    Ok(numbers)
}

/// Returns the number, 0 if it is negative, or `None` if it is absent.
fn optional_natural(number: Option<i64>) -> Option<u64>
    ensures { result ≡ option_map natural number }
{
    match number {
        Some(number) => Some(natural(number)),
        None => None,
    }
}

/// Returns the slot that the document's slot says, with the number of its node. An error is that no node has this name.
#[tactic(auto, unfolding(crate::specs::Names::slot_of))]
fn slot_of(raw: &RawSlot, index: u64, nodes: &Names<'_>) -> Result<Slot, ReadFault>
    requires few { length nodes.now ≤ 128 }
    requires bytes { natural raw.now.bytes ≤ 65535 }
    ensures { Gives (λ s. s) result (slot_of nodes.now index raw.now) }
{
    // shown if the name is unknown
    let place = Place {
        table: Table::Slot,
        index,
        key: Key::Node,
    };
    let node = nodes.number(place, raw.node.as_str())?;
    Ok(Slot {
        node,
        length: natural(raw.length),
        bytes: small(raw.bytes),
    })
}

/// Returns the process that the document's process says, with the number of its node. An error is that no node has this
/// name, or that memory runs out.
#[tactic(auto, unfolding(crate::specs::Names::process_of))]
fn process_of(raw: &RawProcess, index: u64, nodes: &Names<'_>) -> Result<Process, ReadFault>
    requires few { length nodes.now ≤ 128 }
    requires parts { natural raw.now.parts ≤ 65535 }
    ensures { Gives (λ p. p) result (process_of nodes.now index raw.now) }
{
    // shown if the name is unknown
    let place = Place {
        table: Table::Process,
        index,
        key: Key::Node,
    };
    let node = nodes.number(place, raw.node.as_str())?;
    Ok(Process {
        name: raw.name.copy()?,
        node,
        wcet: natural(raw.wcet),
        parts: small(raw.parts),
        alpha: natural(raw.alpha),
        chi: natural(raw.chi),
        mu: natural(raw.mu),
        join: raw.join,
        frozen: raw.frozen,
        release: natural(raw.release),
        deadline: optional_natural(raw.deadline),
    })
}

/// Returns the edge that the document's edge says, with the numbers of its two processes. An error is the first of the
/// two names that no process has.
#[tactic(auto, unfolding(crate::specs::Names::edge_of))]
fn edge_of(raw: &RawEdge, index: u64, processes: &Names<'_>) -> Result<Edge, ReadFault>
    requires few { length processes.now ≤ 128 }
    requires bytes { natural raw.now.bytes ≤ 65535 }
    ensures { Gives (λ e. e) result (edge_of processes.now index raw.now) }
{
    // shown if the first name is unknown, and the one below if the second is
    let place = Place {
        table: Table::Edge,
        index,
        key: Key::From,
    };
    let from = processes.number(place, raw.from.as_str())?;
    let place = Place {
        table: Table::Edge,
        index,
        key: Key::To,
    };
    let to = processes.number(place, raw.to.as_str())?;
    Ok(Edge {
        from,
        to,
        size: small(raw.bytes),
        when: raw.when,
        frozen: raw.frozen,
    })
}

/// Returns the slots that a document says. An error is the first unknown name, or that memory runs out.
fn slots_of(alloc: Global, raw: &RawProblem, nodes: &Names<'_>) -> Result<Vec<Slot>, ReadFault>
    requires limits { limits (raw_view raw.now) ≡ Ok tt }
    requires nodes { nodes.now ≡ (raw_view raw.now).nodes }
    ensures { Gives (λ v. v.items) result (each (slot_of nodes.now) 0 (raw_view raw.now).slots) }
{
    let mut slots = Vec::with_capacity(alloc, raw.slots.len())?;
    for (index, slot) in raw.slots.iter().enumerate() {
        slots.push(slot_of(slot, index as u64, nodes)?)?;
    }
    Ok(slots)
}

/// Returns the processes that a document says. An error is the first unknown name, or that memory runs out.
fn processes_of(
    alloc: Global,
    raw: &RawProblem,
    nodes: &Names<'_>,
) -> Result<Vec<Process>, ReadFault>
    requires limits { limits (raw_view raw.now) ≡ Ok tt }
    requires nodes { nodes.now ≡ (raw_view raw.now).nodes }
    ensures { Gives (λ v. v.items) result (each (process_of nodes.now) 0 (raw_view raw.now).processes) }
{
    let mut processes = Vec::with_capacity(alloc, raw.processes.len())?;
    for (index, process) in raw.processes.iter().enumerate() {
        processes.push(process_of(process, index as u64, nodes)?)?;
    }
    Ok(processes)
}

/// Returns the edges that a document says. An error is the first unknown name, or that memory runs out.
fn edges_of(alloc: Global, raw: &RawProblem, processes: &Names<'_>) -> Result<Vec<Edge>, ReadFault>
    requires limits { limits (raw_view raw.now) ≡ Ok tt }
    requires processes { processes.now ≡ process_names (raw_view raw.now).processes }
    ensures { Gives (λ v. v.items) result (each (edge_of processes.now) 0 (raw_view raw.now).edges) }
{
    let mut edges = Vec::with_capacity(alloc, raw.edges.len())?;
    for (index, edge) in raw.edges.iter().enumerate() {
        edges.push(edge_of(edge, index as u64, processes)?)?;
    }
    Ok(edges)
}

/// Returns the order as numbers of processes, or `None` if the document has none. An error is the first unknown name,
/// or that memory runs out.
#[tactic(auto, unfolding(crate::specs::Names::order_of))]
fn order_of(
    alloc: Global,
    raw: &RawProblem,
    processes: &Names<'_>,
) -> Result<Option<Vec<u32>>, ReadFault>
    requires limits { limits (raw_view raw.now) ≡ Ok tt }
    requires processes { processes.now ≡ process_names (raw_view raw.now).processes }
    ensures { Gives (λ order. option_map (λ v. v.items) order) result (order_of processes.now (raw_view raw.now).order) }
{
    match &raw.order {
        Some(names) => Ok(Some(numbers_of(alloc, names.as_slice(), processes)?)),
        None => Ok(None),
    }
}

/// Those parts of a graph that have numbers where the document has names.
#[derive(Drop)]
struct NumberedParts {
    /// The slots, each with the number of its node.
    slots: Vec<Slot>,
    /// The processes, each with the number of its node.
    processes: Vec<Process>,
    /// The edges, each with the numbers of its two processes.
    edges: Vec<Edge>,
    /// The numbers of the processes in their order, or `None` if the document gives none.
    order: Option<Vec<u32>>,
}

/// Returns the parts of the graph, given the names of its nodes and processes. An error is the first name that names
/// nothing, or that memory runs out.
#[tactic(auto, unfolding(crate::specs::Names::resolved))]
fn resolved(
    alloc: Global,
    raw: &RawProblem,
    nodes: &Names<'_>,
    names: &Names<'_>,
) -> Result<NumberedParts, ReadFault>
    requires limits { limits (raw_view raw.now) ≡ Ok tt }
    requires nodes { nodes.now ≡ (raw_view raw.now).nodes }
    requires names { names.now ≡ process_names (raw_view raw.now).processes }
    ensures { Gives (λ p. graph_with (raw_view raw.now) p.slots.items p.processes.items p.edges.items (option_map (λ v. v.items) p.order)) result (resolved (raw_view raw.now)) }
{
    // unknown names are refused in this order
    let slots = slots_of(alloc, raw, nodes)?;
    let processes = processes_of(alloc, raw, nodes)?;
    let edges = edges_of(alloc, raw, names)?;
    let order = order_of(alloc, raw, names)?;
    Ok(NumberedParts {
        slots,
        processes,
        edges,
        order,
    })
}

/// Returns the names of the nodes. An error is the first that stands twice, or that memory runs out.
fn node_names<'a>(alloc: Global, raw: &'a RawProblem) -> Result<Names<'a>, ReadFault>
    ensures apart { Gives (λ _. tt) result (apart Table.Node Key.Name (raw_view raw.now).nodes) }
    ensures names { IfOk result (λ names. names ≡ (raw_view raw.now).nodes) }
{
    Names::of(alloc, Table::Node, Key::Name, raw.nodes.as_slice())
}

/// Refuses a document in which a node has two slots. The place is that of its second slot.
fn slots_differ(alloc: Global, raw: &RawProblem) -> Result<(), ReadFault>
    ensures { Gives (λ _. tt) result (apart Table.Slot Key.Node (slot_names (raw_view raw.now).slots)) }
{
    Names::of(alloc, Table::Slot, Key::Node, raw.slots.as_slice())?;
    Ok(())
}

/// Returns the names of the processes. An error is the first that stands twice, or that memory runs out.
fn process_names<'a>(alloc: Global, raw: &'a RawProblem) -> Result<Names<'a>, ReadFault>
    ensures apart { Gives (λ _. tt) result (apart Table.Process Key.Name (process_names (raw_view raw.now).processes)) }
    ensures names { IfOk result (λ names. names ≡ process_names (raw_view raw.now).processes) }
{
    Names::of(alloc, Table::Process, Key::Name, raw.processes.as_slice())
}

/// Refuses an order in which a name stands twice. A document without an order is fine.
#[tactic(auto, unfolding(crate::specs::Names::order_apart))]
fn order_differs(alloc: Global, raw: &RawProblem) -> Result<(), ReadFault>
    ensures { Gives (λ _. tt) result (order_apart (raw_view raw.now).order) }
{
    if let Some(order) = &raw.order {
        Names::of(alloc, Table::Top, Key::Order, order.as_slice())?;
    }
    Ok(())
}

/// Returns the parts of the graph, given the names of its nodes. An error is the first double name of a process or of
/// the order, then the first unknown name, or that memory runs out.
#[tactic(auto, unfolding(crate::specs::Names::named))]
fn parts_on(alloc: Global, raw: &RawProblem, nodes: &Names<'_>) -> Result<NumberedParts, ReadFault>
    requires limits { limits (raw_view raw.now) ≡ Ok tt }
    requires nodes { nodes.now ≡ (raw_view raw.now).nodes }
    ensures { Gives (λ p. graph_with (raw_view raw.now) p.slots.items p.processes.items p.edges.items (option_map (λ v. v.items) p.order)) result (named (raw_view raw.now)) }
{
    // double names of processes are refused before those of the order
    let names = process_names(alloc, raw)?;
    order_differs(alloc, raw)?;
    resolved(alloc, raw, nodes, &names)
}

/// Returns the parts of the graph that a document says. An error is the first double name, then the first unknown one,
/// or that memory runs out.
#[tactic(auto, unfolding(crate::specs::Names::graph_of, crate::specs::Names::named))]
fn parts_of(alloc: Global, raw: &RawProblem) -> Result<NumberedParts, ReadFault>
    requires { limits (raw_view raw.now) ≡ Ok tt }
    ensures { Gives (λ p. graph_with (raw_view raw.now) p.slots.items p.processes.items p.edges.items (option_map (λ v. v.items) p.order)) result (graph_of (raw_view raw.now)) }
{
    // double names are refused in this order: nodes, slots, then processes and the order
    let nodes = node_names(alloc, raw)?;
    slots_differ(alloc, raw)?;
    parts_on(alloc, raw, &nodes)
}

/// Returns the most faults in one cycle.
fn faults_of(raw: &RawProblem) -> u8
    requires { limits (raw_view raw.now) ≡ Ok tt }
    ensures { result ≡ natural raw.now.faults }
{
    // within the limits it is at most 8, so the cast keeps it
    natural(raw.faults) as u8
}

/// Returns the graph that a document within the limits says. An error is the first double name, then the first unknown
/// one, or that memory runs out.
pub fn problem_of(alloc: Global, raw: RawProblem) -> Result<Problem, ReadFault>
    requires { limits (raw_view raw) ≡ Ok tt }
    ensures { Gives (λ p. p) result (graph_of (raw_view raw)) }
{
    let parts = parts_of(alloc, &raw)?;
    let faults = faults_of(&raw);
    let deadline = natural(raw.deadline);
    let problem = Problem::of(
        faults,
        deadline,
        raw.nodes,
        parts.slots,
        parts.processes,
        parts.edges,
    );
    Ok(problem.with_order(parts.order))
}
