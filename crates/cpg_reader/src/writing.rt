//! Writing a graph file.
ghost use Rattle.std.specs.Prelude.{◌≡◌, ◌<◌, IfOk, Ok, All, map, length, get_or, [], string_bytes};
ghost use Rattle.toml.specs.Data.{string, table};
ghost use Rattle.toml.specs.View.{view, table_view};
ghost use Rattle.cpg_base.specs.Name.{IsName};
ghost use Rattle.cpg_reader.specs.Document.{problem_of};
ghost use Rattle.cpg_reader.specs.WrittenTree.{with_member, tables, node_members, slot_members, process_members, edge_members, with_order, last_members, list_members, graph_members};

use crate::written_rows::{edge_table, node_table, process_table, slot_table};
use crate::written_tables::{push, with_array, with_number};
use cpg_base::{OutOfMemory, Problem, Process};
use std::alloc::Global;
use toml::value::Array;
use toml::{Table, Value};

/// Returns a table for each node. The one error here and below is that memory runs out.
fn node_tables(alloc: Global, problem: &Problem) -> Result<Array, OutOfMemory>
    ensures tables { IfOk result (λ a. map view a.items ≡ map (λ n. table (node_members n)) problem.now.nodes) }
    ensures named { IfOk result (λ _. All IsName problem.now.nodes) }
{
    let mut made = Vec::new(alloc);
    for name in problem.nodes() {
        push(&mut made, node_table(alloc, name)?)?;
    }
    Ok(made)
}

/// Returns a table for each slot.
fn slot_tables(alloc: Global, problem: &Problem) -> Result<Array, OutOfMemory>
    ensures { IfOk result (λ a. map view a.items ≡ map (λ s. table (slot_members problem.now.nodes s)) problem.now.slots) }
{
    let mut made = Vec::new(alloc);
    for slot in problem.slots() {
        push(&mut made, slot_table(alloc, slot, problem.nodes())?)?;
    }
    Ok(made)
}

/// Returns a table for each process.
fn process_tables(alloc: Global, problem: &Problem) -> Result<Array, OutOfMemory>
    ensures tables { IfOk result (λ a. map view a.items ≡ map (λ p. table (process_members problem.now.nodes p)) problem.now.processes) }
    ensures named { IfOk result (λ _. All (λ p. IsName p.name) problem.now.processes) }
{
    let mut made = Vec::new(alloc);
    for process in problem.processes() {
        push(&mut made, process_table(alloc, process, problem.nodes())?)?;
    }
    Ok(made)
}

/// Returns a table for each edge.
fn edge_tables(alloc: Global, problem: &Problem) -> Result<Array, OutOfMemory>
    ensures { IfOk result (λ a. map view a.items ≡ map (λ e. table (edge_members problem.now.processes e)) problem.now.edges) }
{
    let mut made = Vec::new(alloc);
    for edge in problem.edges() {
        push(&mut made, edge_table(alloc, edge, problem.processes())?)?;
    }
    Ok(made)
}

/// Returns the end of the document: the processes and the slots.
fn last_lists(alloc: Global, problem: &Problem) -> Result<Table, OutOfMemory>
    ensures table { IfOk result (λ t. table_view t ≡ last_members problem.now) }
    ensures processes { IfOk result (λ _. All (λ p. IsName p.name) problem.now.processes) }
{
    let slots = slot_tables(alloc, problem)?;
    let table = with_array(alloc, Table::new(alloc), "slot", slots)?;
    let processes = process_tables(alloc, problem)?;
    with_array(alloc, table, "process", processes)
}

/// Returns the names of the processes of an order.
fn order_names(alloc: Global, order: &[u32], processes: &[Process]) -> Result<Array, OutOfMemory>
    requires { All (λ p. p < length processes.now) order.now }
    ensures { IfOk result (λ a. map view a.items ≡ map (λ p. string (get_or (map (λ q. q.name) processes.now) p [])) order.now) }
{
    let mut names = Vec::new(alloc);
    for process in order {
        let name = &processes[*process as usize].name;
        names.push(Value::string(alloc, name.as_str())?)?;
    }
    Ok(names)
}

/// Returns the document from the given order on, if there is one: the order, the processes and the slots.
fn order_and_last(alloc: Global, problem: &Problem) -> Result<Table, OutOfMemory>
    ensures table { IfOk result (λ t. table_view t ≡ with_order problem.now.processes problem.now.order (last_members problem.now)) }
    ensures processes { IfOk result (λ _. All (λ p. IsName p.name) problem.now.processes) }
{
    let table = last_lists(alloc, problem)?;
    match problem.given_order() {
        Some(order) => {
            let names = order_names(alloc, order, problem.processes())?;
            with_array(alloc, table, "order", names)
        }
        None => Ok(table),
    }
}

/// Returns the document from the nodes on: nodes, the order, processes and slots.
fn lists(alloc: Global, problem: &Problem) -> Result<Table, OutOfMemory>
    ensures table { IfOk result (λ t. table_view t ≡ list_members problem.now) }
    ensures nodes { IfOk result (λ _. All IsName problem.now.nodes) }
    ensures processes { IfOk result (λ _. All (λ p. IsName p.name) problem.now.processes) }
{
    let table = order_and_last(alloc, problem)?;
    let nodes = node_tables(alloc, problem)?;
    with_array(alloc, table, "node", nodes)
}

/// Returns the whole document of a graph.
fn document(alloc: Global, problem: &Problem) -> Result<Table, OutOfMemory>
    ensures table { IfOk result (λ t. table_view t ≡ graph_members problem.now) }
    ensures nodes { IfOk result (λ _. All IsName problem.now.nodes) }
    ensures processes { IfOk result (λ _. All (λ p. IsName p.name) problem.now.processes) }
{
    let table = lists(alloc, problem)?;
    let table = with_number(alloc, table, "faults", u64::from(problem.faults()))?;
    let edges = edge_tables(alloc, problem)?;
    let table = with_array(alloc, table, "edge", edges)?;
    with_number(alloc, table, "deadline", problem.deadline())
}

/// Returns the text of a graph file that says the graph, with each key that has a value. The one error is that memory
/// runs out.
pub fn graph_text(alloc: Global, problem: &Problem) -> Result<String, OutOfMemory>
    ensures { IfOk result (λ text. problem_of (string_bytes text) ≡ Ok problem.now) }
{
    // asked only for its clause that the graph is within its limits: a graph file can say such a graph
    let _faults = problem.faults();
    let table = document(alloc, problem)?;
    match toml::table_to_string(alloc, &table) {
        Ok(text) => Ok(text),
        // writing fails only if memory runs out
        Err(_) => Err(OutOfMemory),
    }
}
