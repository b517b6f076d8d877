//! The edges of all instances of all parts, and how many processes, edges and conditions there are.
ghost use Rattle.std.specs.Prelude.{◌≡◌, ◌<◌, ◌≤◌, ◌+◌, ◌*◌, ◌/◌, ◌++◌, ◌↔◌, IsTrue, IfOk, OnOk, length, map, filter};
ghost use Rattle.cpg_base.specs.Numbers.{numbers_below};
ghost use Rattle.cpg_base.specs.Conditions.{has_conditional_output};
ghost use Rattle.cpg_hyper.specs.Refusals.{IsInRange, HoldsOfEach};
ghost use Rattle.cpg_hyper.specs.Unrolled.{copied_edge, size_of, processes_from, edges_of, edges_from};

use crate::Part;
use cpg_base::{Edge, LONGEST, MOST_PROCESSES, OutOfMemory};
use std::alloc::Global;

/// Returns how many processes there are in all instances. The counts can't overflow: there are at most 4 parts, and the whole is
/// at most 10^9.
pub fn process_total(whole: u64, parts: &[Part]) -> u64
    requires ranges { HoldsOfEach (λ p part. IsInRange part) parts.now }
    requires few { length parts.now ≤ 4 }
    requires short { whole ≤ LONGEST }
    ensures { result ≡ length (processes_from whole 0 parts.now) }
{
    let mut total = 0u64;
    for part in parts {
        total += whole / part.period * part.problem.processes().len() as u64;
    }
    total
}

/// Returns how many edges there are in all instances. The counts can't overflow: there are at most 4 parts, and the whole is at
/// most 10^9.
pub fn edge_total(whole: u64, parts: &[Part]) -> u64
    requires ranges { HoldsOfEach (λ p part. IsInRange part) parts.now }
    requires few { length parts.now ≤ 4 }
    requires short { whole ≤ LONGEST }
    ensures { result ≡ length (edges_from whole 0 parts.now) }
{
    let mut total = 0u64;
    for part in parts {
        total += whole / part.period * part.problem.edges().len() as u64;
    }
    total
}

/// Adds the edges of an instance whose first process has the number `first`.
fn add_instance(out: &mut Vec<Edge>, part: &Part, first: u32) -> Result<(), OutOfMemory>
    requires { first + size_of part.now ≤ MOST_PROCESSES }
    ensures { OnOk result (out.new.items ≡ out.old.items ++ map (copied_edge first) part.now.problem.edges) }
{
    for edge in part.problem.edges() {
        out.push(Edge {
            from: first + edge.from,
            to: first + edge.to,
            size: edge.size,
            when: edge.when,
            frozen: edge.frozen,
        })?;
    }
    Ok(())
}

/// Adds the edges of all instances of a part whose first process has the number `first`.
fn add_part(out: &mut Vec<Edge>, whole: u64, part: &Part, first: u32) -> Result<(), OutOfMemory>
    requires range { IsInRange part.now }
    requires short { whole ≤ LONGEST }
    requires few { first + whole / part.now.period * size_of part.now ≤ MOST_PROCESSES }
    ensures { OnOk result (out.new.items ≡ out.old.items ++ edges_of whole first part.now) }
{
    // a graph has at most 128 processes, so their number fits a `u32`
    let size = part.problem.processes().len() as u32;
    // without processes the part has no edges, and its instances may be too many to count in a `u32`
    if size == 0 {
        return Ok(());
    }
    // each instance has at least one process, and there are at most 128 in all
    let count = (whole / part.period) as u32;
    for instance in 0..count {
        add_instance(out, part, first + instance * size)?;
    }
    Ok(())
}

/// Returns the edges of all instances of all parts. The one error is `OutOfMemory`.
pub fn unrolled_edges(alloc: Global, whole: u64, parts: &[Part]) -> Result<Vec<Edge>, OutOfMemory>
    requires ranges { HoldsOfEach (λ p part. IsInRange part) parts.now }
    requires short { whole ≤ LONGEST }
    requires few { length (processes_from whole 0 parts.now) ≤ MOST_PROCESSES }
    ensures { IfOk result (λ edges. edges.items ≡ edges_from whole 0 parts.now) }
{
    let mut edges = Vec::new(alloc);
    let mut first = 0u32;
    for part in parts {
        add_part(&mut edges, whole, part, first)?;
        // the next part's processes are numbered behind those of all instances of this one; the whole is at most 10^9, so
        // both factors fit a `u32`
        first += (whole / part.period) as u32 * part.problem.processes().len() as u32;
    }
    Ok(edges)
}

/// Whether some edge from a process has a `when`, so that the process has a condition.
fn is_conditional(edges: &[Edge], process: u32) -> bool
    ensures { result ≡ has_conditional_output edges.now process }
{
    edges
        .iter()
        .any(|edge| edge.from == process && edge.when.is_some())
}

/// Returns how many of the first `processes` processes have a condition.
pub fn condition_total(edges: &[Edge], processes: u32) -> u32
    ensures { result ≡ length (filter (has_conditional_output edges.now) (numbers_below processes)) }
{
    let mut total = 0u32;
    for process in 0..processes {
        if is_conditional(edges, process) {
            total += 1;
        }
    }
    total
}
