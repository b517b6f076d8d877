//! The parts of a generated graph: its names, slots, processes and edges.
ghost use Rattle.std.specs.Prelude.{◌≡◌, ◌<◌, ◌+◌, ◌++◌, if◌then◌else◌, IfOk, OnOk};
ghost use Rattle.cpg_base.specs.Name.{IsName};
ghost use Rattle.cpg_base.specs.Draws.{next_number};
ghost use Rattle.cpg_gen.specs.Draws.{number_after, nth_draw};
ghost use Rattle.cpg_gen.specs.Generated.{numbered, process_from, predecessor_by, has_predecessor, when_of, edge_of, edges_by, slot_of};

use crate::draws::Draws;
use cpg_base::{Edge, Name, OutOfMemory, Process, Slot};
use std::alloc::Global;

/// What is drawn for the executions of a process; the fields are those of `Process`.
#[derive(Clone, Copy)]
struct Costs {
    /// The longest time of its work alone.
    wcet: u64,
    /// Into how many parts an execution is cut.
    parts: u32,
    /// The time to detect a fault, in each part.
    alpha: u64,
    /// The time to save a checkpoint, in each part.
    chi: u64,
    /// The time to recover from a fault.
    mu: u64,
}

/// Returns the name of a letter with a number behind it. The one error is `OutOfMemory`.
pub(crate) fn numbered(alloc: Global, letter: &str, number: u32) -> Result<Name, OutOfMemory>
    requires { IsName (numbered letter.now number) }
    ensures { IfOk result (λ name. name ≡ numbered letter.now number) }
{
    let mut text = String::new(alloc);
    write!(text, "{letter}{number}")?;
    match Name::new(alloc, text.as_str())? {
        Some(name) => Ok(name),
        // a letter and digits always make a name
        None => unreachable!(),
    }
}

/// Returns the slot of a node: it lasts 10 time units and takes messages of up to 8 bytes.
pub(crate) fn slot(node: u32) -> Slot
    ensures { result ≡ slot_of node }
{
    Slot {
        node,
        length: 10,
        bytes: 8,
    }
}

/// Returns the costs of a process, by the next five draws.
fn draw_costs(draws: &mut Draws) -> Costs
    ensures costs { result ≡ record {
      wcet = 1 + nth_draw draws.old.number 1 50;
      parts = 1 + nth_draw draws.old.number 2 3;
      alpha = nth_draw draws.old.number 3 3;
      chi = nth_draw draws.old.number 4 3;
      mu = nth_draw draws.old.number 5 5;
    } }
    ensures number { draws.new.number ≡ number_after draws.old.number 5 }
{
    Costs {
        wcet: 1 + draws.next(50),
        // a draw below 3, so the cast keeps it
        parts: 1 + draws.next(3) as u32,
        alpha: draws.next(3),
        chi: draws.next(3),
        mu: draws.next(5),
    }
}

/// Returns the process of a number, by the next five draws. The one error is `OutOfMemory`.
pub(crate) fn process(alloc: Global, draws: &mut Draws, number: u32) -> Result<Process, OutOfMemory>
    requires { number < 60 }
    ensures process { IfOk result (λ process. process ≡ process_from draws.old.number number) }
    ensures number { draws.new.number ≡ number_after draws.old.number 5 }
{
    let costs = draw_costs(draws);
    let name = numbered(alloc, "p", number)?;
    Ok(Process {
        name,
        // processes go around the four nodes
        node: number % 4,
        wcet: costs.wcet,
        parts: costs.parts,
        alpha: costs.alpha,
        chi: costs.chi,
        mu: costs.mu,
        // the one join is process 40
        join: number == 40,
        frozen: false,
        release: 0,
        deadline: None,
    })
}

/// Returns the value of its source's condition that an edge depends on; `None` if the source has no condition. Processes 10 and
/// 20 have one: targets with an odd number need it true, those with an even number false.
fn when(source: u32, target: u32) -> Option<bool>
    ensures { result ≡ when_of source target }
{
    if source == 10 || source == 20 {
        return Some(target % 2 == 1);
    }
    None
}

/// Returns an edge whose message, if it has one, is one byte long and frozen.
fn edge(source: u32, target: u32, when: Option<bool>) -> Edge
    ensures { result ≡ edge_of source target when }
{
    Edge {
        from: source,
        to: target,
        size: 1,
        when,
        frozen: true,
    }
}

/// Returns the edge to a process from its predecessor, by the next draw.
fn drawn_edge(draws: &mut Draws, target: u32) -> Edge
    requires { 0 < target }
    ensures edge { result ≡ edge_of (predecessor_by (next_number draws.old.number) target) target
        (when_of (predecessor_by (next_number draws.old.number) target) target) }
    ensures number { draws.new.number ≡ next_number draws.old.number }
{
    // one of the six processes before the target, or of all if there are fewer; a draw below 6, so the cast keeps it
    let source = target - 1 - draws.next(u64::from(target.min(6))) as u32;
    edge(source, target, when(source, target))
}

/// Adds the edges to a process: none to the first, two to the join, and one to each other, which takes a draw. The one error is
/// `OutOfMemory`.
pub(crate) fn push_edges(
    edges: &mut Vec<Edge>,
    draws: &mut Draws,
    target: u32,
) -> Result<(), OutOfMemory>
    ensures edges { OnOk result (edges.new.items ≡ edges.old.items ++ edges_by (next_number draws.old.number) target) }
    ensures number { OnOk result (draws.new.number ≡ (if has_predecessor target then next_number draws.old.number else draws.old.number)) }
{
    // the first process has no predecessor
    if target == 0 {
        return Ok(());
    }
    // the join of the two edges of process 10, one for each value
    if target == 40 {
        edges.push(edge(10, 40, Some(true)))?;
        edges.push(edge(10, 40, Some(false)))?;
        return Ok(());
    }
    edges.push(drawn_edge(draws, target))?;
    Ok(())
}
