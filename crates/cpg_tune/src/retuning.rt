//! A graph with other numbers of parts and another fault number.
ghost use Rattle.std.specs.Prelude.{◌≡◌, ◌≤◌, IfOk};
ghost use Rattle.cpg_base.specs.declared.limits.TheConstants.{MOST_FAULTS};
ghost use Rattle.cpg_tune.specs.Best.{in_parts};
ghost use Rattle.cpg_tune.specs.Retuned.{retuned, in_parts_each, ArePartsOf};

use cpg_base::{OutOfMemory, Problem, Process};
use std::alloc::Global;

/// Returns a copy of the process that is cut into this many parts.
fn in_parts(process: &Process, parts: u32) -> Result<Process, OutOfMemory>
    ensures { IfOk result (λ copy. copy ≡ in_parts process.now parts) }
{
    let mut copy = process.copy()?;
    copy.parts = parts;
    Ok(copy)
}

/// Returns a copy of each process that is cut into the number of parts at its place in `parts`. If one list is longer, the
/// rest of it is left out.
fn in_parts_each(
    alloc: Global,
    processes: &[Process],
    parts: &[u32],
) -> Result<Vec<Process>, OutOfMemory>
    ensures { IfOk result (λ copies. copies.items ≡ in_parts_each processes.now parts.now) }
{
    let mut copies = Vec::new(alloc);
    for (process, count) in processes.iter().zip(parts) {
        copies.push(in_parts(process, *count)?)?;
    }
    Ok(copies)
}

/// Returns a copy of the graph with another fault number, and each process cut into the number of parts at its place.
pub fn retuned(
    alloc: Global,
    problem: &Problem,
    parts: &[u32],
    faults: u8,
) -> Result<Problem, OutOfMemory>
    requires parts { ArePartsOf problem.now parts.now }
    requires faults { faults ≤ MOST_FAULTS }
    ensures graph { IfOk result (λ made. made ≡ retuned problem.now parts.now faults) }
{
    let nodes = Vec::from_clones(alloc, problem.nodes())?;
    let slots = Vec::from_slice(alloc, problem.slots())?;
    let processes = in_parts_each(alloc, problem.processes(), parts)?;
    let edges = Vec::from_slice(alloc, problem.edges())?;
    let order = problem.order_copy()?;
    // made anew without an order, which is then put back
    let retuned = Problem::of(faults, problem.deadline(), nodes, slots, processes, edges);
    Ok(retuned.with_order(order))
}
