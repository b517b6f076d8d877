//! The graph that a number generates.
ghost use Rattle.std.specs.Prelude.{◌≡◌, IfOk, map};
ghost use Rattle.std.specs.List.{flat_map};
ghost use Rattle.cpg_base.specs.Numbers.{numbers_below};
ghost use Rattle.cpg_gen.specs.Generated.{generated, generated_edges, generated_process, node_name, slot_of};

use crate::draws::Draws;
use crate::parts::{numbered, process, push_edges, slot};
use cpg_base::{Edge, Name, OutOfMemory, Problem, Process, Slot};
use std::alloc::Global;

/// The processes and edges of a generated graph, which come from draws.
#[derive(Drop)]
struct Drawn {
    /// The processes, by number.
    processes: Vec<Process>,
    /// The edges, by the process that they lead to.
    edges: Vec<Edge>,
}

/// Returns the names of the four nodes: N0 to N3.
fn nodes(alloc: Global) -> Result<Vec<Name>, OutOfMemory>
    ensures { IfOk result (λ nodes. nodes.items ≡ map node_name (numbers_below 4)) }
{
    let mut nodes = Vec::new(alloc);
    for node in 0..4 {
        nodes.push(numbered(alloc, "N", node)?)?;
    }
    Ok(nodes)
}

/// Returns the slots of the four nodes, one each in the order of the nodes.
fn slots(alloc: Global) -> Result<Vec<Slot>, OutOfMemory>
    ensures { IfOk result (λ slots. slots.items ≡ map slot_of (numbers_below 4)) }
{
    let mut slots = Vec::new(alloc);
    for node in 0..4 {
        slots.push(slot(node))?;
    }
    Ok(slots)
}

/// Returns the 60 processes of the graph and its edges. Each process takes its draws, and then one for the edge to it if it
/// has a predecessor.
fn draw_all(alloc: Global, number: u64) -> Result<Drawn, OutOfMemory>
    ensures processes { IfOk result (λ drawn. drawn.processes.items ≡ map (generated_process number) (numbers_below 60)) }
    ensures edges { IfOk result (λ drawn. drawn.edges.items ≡ flat_map (generated_edges number) (numbers_below 60)) }
{
    let mut draws = Draws { number };
    let mut processes = Vec::new(alloc);
    let mut edges = Vec::new(alloc);
    for process_number in 0..60 {
        processes.push(process(alloc, &mut draws, process_number)?)?;
        push_edges(&mut edges, &mut draws, process_number)?;
    }
    Ok(Drawn { processes, edges })
}

/// Returns the graph that a number generates: 60 processes on four nodes with at most two conditions, for two faults, with a
/// deadline of 10^9 time units. The one error is `OutOfMemory`.
pub fn generate(alloc: Global, number: u64) -> Result<Problem, OutOfMemory>
    ensures { IfOk result (λ problem. problem ≡ generated number) }
{
    let nodes = nodes(alloc)?;
    let slots = slots(alloc)?;
    let drawn = draw_all(alloc, number)?;
    Ok(Problem::of(2, 1_000_000_000, nodes, slots, drawn.processes, drawn.edges))
}
