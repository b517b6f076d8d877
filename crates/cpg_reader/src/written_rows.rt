//! The tables that are written for nodes, slots, processes and edges. Keys are added from the last to the first, so
//! that each comes before all others.
ghost use Rattle.std.specs.Prelude.{◌≡◌, ◌<◌, length, IfOk, All};
ghost use Rattle.toml.specs.View.{table_view};
ghost use Rattle.cpg_base.specs.Name.{IsName};
ghost use Rattle.cpg_base.specs.Limits.{IsSlotWithin, IsProcessWithin, IsEdgeWithin};
ghost use Rattle.cpg_reader.specs.WrittenTree.{node_members, slot_members, process_low, process_middle, with_deadline, process_members, when_members, edge_members};

use crate::written_tables::{with_flag, with_name, with_number};
use cpg_base::{Edge, Name, OutOfMemory, Process, Slot};
use std::alloc::Global;
use toml::Table;

/// Returns the table of a node. The one error here and below is that memory runs out.
pub fn node_table(alloc: Global, name: &Name) -> Result<Table, OutOfMemory>
    ensures table { IfOk result (λ t. table_view t ≡ node_members name.now) }
    ensures named { IfOk result (λ _. IsName name.now) }
{
    with_name(alloc, Table::new(alloc), "name", name)
}

/// Returns the table of a slot.
pub fn slot_table(alloc: Global, slot: &Slot, nodes: &[Name]) -> Result<Table, OutOfMemory>
    requires { IsSlotWithin (length nodes.now) slot.now }
    ensures { IfOk result (λ t. table_view t ≡ slot_members nodes.now slot.now) }
{
    let table = with_name(alloc, Table::new(alloc), "node", &nodes[slot.node as usize])?;
    let table = with_number(alloc, table, "length", slot.length)?;
    with_number(alloc, table, "bytes", u64::from(slot.bytes))
}

/// Returns a process's table from the key `node` on.
fn process_low(alloc: Global, process: &Process, nodes: &[Name]) -> Result<Table, OutOfMemory>
    requires { IsProcessWithin (length nodes.now) process.now }
    ensures { IfOk result (λ t. table_view t ≡ process_low nodes.now process.now) }
{
    let table = with_number(alloc, Table::new(alloc), "wcet", process.wcet)?;
    let table = with_number(alloc, table, "release", process.release)?;
    let table = with_number(alloc, table, "parts", u64::from(process.parts))?;
    with_name(alloc, table, "node", &nodes[process.node as usize])
}

/// Returns a process's table from the key `frozen` on.
fn process_middle(alloc: Global, process: &Process, nodes: &[Name]) -> Result<Table, OutOfMemory>
    requires { IsProcessWithin (length nodes.now) process.now }
    ensures table { IfOk result (λ t. table_view t ≡ process_middle nodes.now process.now) }
    ensures named { IfOk result (λ _. IsName process.now.name) }
{
    let table = process_low(alloc, process, nodes)?;
    let table = with_name(alloc, table, "name", &process.name)?;
    let table = with_number(alloc, table, "mu", process.mu)?;
    let table = with_flag(alloc, table, "join", process.join)?;
    with_flag(alloc, table, "frozen", process.frozen)
}

/// Returns a process's table from the key `deadline` on, which it has if the process has its own deadline.
fn process_due(alloc: Global, process: &Process, nodes: &[Name]) -> Result<Table, OutOfMemory>
    requires { IsProcessWithin (length nodes.now) process.now }
    ensures table { IfOk result (λ t. table_view t ≡ with_deadline process.now.deadline (process_middle nodes.now process.now)) }
    ensures named { IfOk result (λ _. IsName process.now.name) }
{
    let table = process_middle(alloc, process, nodes)?;
    match process.deadline {
        Some(deadline) => with_number(alloc, table, "deadline", deadline),
        None => Ok(table),
    }
}

/// Returns the table of a process.
pub fn process_table(alloc: Global, process: &Process, nodes: &[Name]) -> Result<Table, OutOfMemory>
    requires { IsProcessWithin (length nodes.now) process.now }
    ensures table { IfOk result (λ t. table_view t ≡ process_members nodes.now process.now) }
    ensures named { IfOk result (λ _. IsName process.now.name) }
{
    let table = process_due(alloc, process, nodes)?;
    let table = with_number(alloc, table, "chi", process.chi)?;
    with_number(alloc, table, "alpha", process.alpha)
}

/// Returns a table with the value for which an edge is live, or an empty one if the edge has no `when`.
fn when_table(alloc: Global, when: Option<bool>) -> Result<Table, OutOfMemory>
    ensures { IfOk result (λ t. table_view t ≡ when_members when) }
{
    match when {
        Some(value) => with_flag(alloc, Table::new(alloc), "when", value),
        None => Ok(Table::new(alloc)),
    }
}

/// Returns the table of an edge.
pub fn edge_table(alloc: Global, edge: &Edge, processes: &[Process]) -> Result<Table, OutOfMemory>
    requires { IsEdgeWithin (length processes.now) edge.now }
    ensures { IfOk result (λ t. table_view t ≡ edge_members processes.now edge.now) }
{
    let table = when_table(alloc, edge.when)?;
    let table = with_name(alloc, table, "to", &processes[edge.to as usize].name)?;
    let table = with_flag(alloc, table, "frozen", edge.frozen)?;
    let table = with_name(alloc, table, "from", &processes[edge.from as usize].name)?;
    with_number(alloc, table, "bytes", u64::from(edge.size))
}
