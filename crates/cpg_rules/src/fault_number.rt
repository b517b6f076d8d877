//! A graph with another fault number.
ghost use Rattle.std.specs.Prelude.{◌≡◌, ◌≤◌, IfOk};
ghost use Rattle.cpg_base.specs.declared.limits.TheConstants.{MOST_FAULTS};
ghost use Rattle.cpg_rules.specs.FaultNumber.{with_fault_number};

use cpg_base::{OutOfMemory, Problem};
use std::alloc::Global;

/// Returns a copy of the graph that has this fault number in place of its own.
pub fn with_fault_number(
    alloc: Global,
    problem: &Problem,
    faults: u8,
) -> Result<Problem, OutOfMemory>
    requires { faults ≤ MOST_FAULTS }
    ensures { IfOk result (λ made. made ≡ with_fault_number problem.now faults) }
{
    let nodes = Vec::from_clones(alloc, problem.nodes())?;
    let slots = Vec::from_slice(alloc, problem.slots())?;
    let processes = Vec::from_clones(alloc, problem.processes())?;
    let edges = Vec::from_slice(alloc, problem.edges())?;
    let order = problem.order_copy()?;
    // made anew without an order, which is then put back
    let made = Problem::of(faults, problem.deadline(), nodes, slots, processes, edges);
    Ok(made.with_order(order))
}
