//! Makes the graph of all instances of several parts over their hyperperiod, or refuses it.
ghost use Rattle.std.specs.Prelude.{◌≡◌, ◌≤◌, IfOk, length};
ghost use Rattle.cpg_base.specs.Limits.{IsWithinLimits};
ghost use Rattle.cpg_hyper.specs.Refusals.{HoldsOfEach, HasFewEnough, HasShortNames, AreOver, ShowsUnrolled};
ghost use Rattle.cpg_hyper.specs.Unrolled.{unrolled, processes_from, edges_from};

use crate::edges::{condition_total, edge_total, process_total, unrolled_edges};
use crate::fitting::{first_different, first_out_of_range, first_over, first_with_order};
use crate::period::hyperperiod;
use crate::processes::unrolled_processes;
use crate::{HyperFault, Part};
use cpg_base::{Edge, OutOfMemory, Problem, Process};
use cpg_reader::What;
use std::alloc::Global;

/// How many processes a graph may have.
const MOST_PROCESSES: u64 = cpg_base::MOST_PROCESSES as u64;

/// How many edges a graph may have.
const MOST_EDGES: u64 = cpg_base::MOST_EDGES as u64;

/// How many conditions a graph may have.
const MOST_CONDITIONS: u32 = cpg_base::MOST_CONDITIONS as u32;

/// Returns the graph of the processes and edges of all instances. The one error is `OutOfMemory`.
fn built(
    alloc: Global,
    whole: u64,
    parts: &[Part],
    processes: Vec<Process>,
    edges: Vec<Edge>,
) -> Result<Problem, OutOfMemory>
    requires some { 1 ≤ length parts.now }
    requires few { length parts.now ≤ 4 }
    requires over { AreOver parts.now whole }
    requires within { HoldsOfEach (λ p part. IsWithinLimits part.problem) parts.now }
    requires counts { HasFewEnough (unrolled whole parts.now) }
    requires short { HoldsOfEach (HasShortNames whole) parts.now }
    requires processes { processes.items ≡ processes_from whole 0 parts.now }
    requires edges { edges.items ≡ edges_from whole 0 parts.now }
    ensures { IfOk result (λ g. g ≡ unrolled whole parts.now) }
{
    // all parts have the faults, nodes and slots of the first
    let first = &parts[0].problem;
    let nodes = Vec::from_clones(alloc, first.nodes())?;
    let slots = Vec::from_slice(alloc, first.slots())?;
    Ok(Problem::of(first.faults(), whole, nodes, slots, processes, edges))
}

/// Returns the graph over a hyperperiod. It fails if the graph has too many processes, edges or conditions, if a name made for it
/// is too long, or if a part gives an order.
fn over(alloc: Global, whole: u64, parts: &[Part]) -> Result<Problem, HyperFault>
    requires some { 1 ≤ length parts.now }
    requires few { length parts.now ≤ 4 }
    requires over { AreOver parts.now whole }
    requires within { HoldsOfEach (λ p part. IsWithinLimits part.problem) parts.now }
    ensures { ShowsUnrolled parts.now result }
{
    // the counts are taken before anything is made
    let process_count = process_total(whole, parts);
    if process_count > MOST_PROCESSES {
        return Err(HyperFault::Count(What::Processes));
    }
    if edge_total(whole, parts) > MOST_EDGES {
        return Err(HyperFault::Count(What::Edges));
    }
    let edges = unrolled_edges(alloc, whole, parts)?;
    // conditions are counted on the edges that are made; the processes are few enough for a `u32`
    if condition_total(edges.as_slice(), process_count as u32) > MOST_CONDITIONS {
        return Err(HyperFault::Count(What::Conditions));
    }
    match unrolled_processes(alloc, whole, parts) {
        Ok(processes) => {
            // all else is right, so an order is the last thing to refuse
            if let Some(part) = first_with_order(parts) {
                return Err(HyperFault::Order(part));
            }
            Ok(built(alloc, whole, parts, processes, edges)?)
        }
        Err(fault) => Err(fault),
    }
}

/// Returns one graph of one to four parts: each part has one instance for each of its periods in the hyperperiod, which is the
/// graph's deadline. A process is named by the numbers of its part and its instance and its name in the part, with points
/// between. Its release and its own deadline are later by the beginning of its instance.
///
/// The refusals come in this order: a period out of its range; other faults, nodes or slots than the first part's; a
/// deadline or a release above its period; a hyperperiod above 10^9; too many processes, edges or conditions; too long a
/// made name; an order to compile under, since it names no copies. A refusal with a number shows the first part of which it is
/// true. `OutOfMemory` may come in place of any answer.
pub fn unroll(alloc: Global, parts: &[Part]) -> Result<Problem, HyperFault>
    requires some { 1 ≤ length parts.now }
    requires few { length parts.now ≤ 4 }
    ensures { ShowsUnrolled parts.now result }
{
    // each check relies on those before it: the hyperperiod, for one, is that of periods above 0
    if let Some(part) = first_out_of_range(parts) {
        return Err(HyperFault::Range(part));
    }
    if let Some(part) = first_different(&parts[0].problem, parts) {
        return Err(HyperFault::Differ(part));
    }
    if let Some(part) = first_over(parts) {
        return Err(HyperFault::Over(part));
    }
    let Some(whole) = hyperperiod(parts) else {
        return Err(HyperFault::Period);
    };
    over(alloc, whole, parts)
}
