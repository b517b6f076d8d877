//! The parts of the head that a pack for a graph has.
ghost use Rattle.std.specs.Prelude.{◌≡◌, ◌<◌, ◌+◌, IfOk, map, option_map};
ghost use Rattle.std.specs.List.{list_all};
ghost use Rattle.cpg_base.specs.Numbers.{numbers_below};
ghost use Rattle.cpg_base.specs.Graph.{process_count};
ghost use Rattle.cpg_base.specs.Duration.{duration};
ghost use Rattle.cpg_head.specs.GraphHead.{head_process, extra_of, extras_of, is_plain};

use crate::{Durations, Extra, HeadProcess};
use cpg_base::{Edge, Name, OutOfMemory, Problem, Process};
use std::alloc::Global;

/// Returns how long an execution of a process lasts at most with 0, 1, .. faults, up to the most that the graph allows.
fn durations_of(alloc: Global, problem: &Problem, process: u32) -> Result<Durations, OutOfMemory>
    requires { process < process_count problem.now }
    ensures { IfOk result (λ times. times ≡ map (duration problem.now process) (numbers_below (problem.now.faults + 1))) }
{
    // there is a duration for no fault too
    let end = problem.faults() + 1;
    let mut times = Vec::new(alloc);
    times.reserve(end as usize)?;
    for faults in 0..end {
        times.push(problem.duration(process, faults))?;
    }
    Ok(Durations::new(times))
}

/// Returns what the head for a graph says of one of its processes.
fn head_process(alloc: Global, problem: &Problem, process: u32) -> Result<HeadProcess, OutOfMemory>
    requires { process < process_count problem.now }
    ensures { IfOk result (λ p. p ≡ head_process problem.now process) }
{
    let in_graph = &problem.processes()[process as usize];
    Ok(HeadProcess {
        name: in_graph.name.copy()?,
        node: in_graph.node,
        condition: problem.condition_of(process).is_some(),
        times: durations_of(alloc, problem, process)?,
    })
}

/// Returns what the head for a graph says of each process, by number. The one error is `OutOfMemory`.
pub fn head_processes(alloc: Global, problem: &Problem) -> Result<Vec<HeadProcess>, OutOfMemory>
    ensures { IfOk result (λ v. v.items ≡ map (head_process problem.now) (numbers_below (process_count problem.now))) }
{
    let count = problem.processes().len();
    let mut processes = Vec::new(alloc);
    processes.reserve(count)?;
    // there are at most 128 processes, so the cast keeps their count
    for process in 0..count as u32 {
        processes.push(head_process(alloc, problem, process)?)?;
    }
    Ok(processes)
}

/// Returns a copy of the nodes' names. The one error is `OutOfMemory`.
pub fn head_nodes(alloc: Global, names: &[Name]) -> Result<Vec<Name>, OutOfMemory>
    ensures { IfOk result (λ v. v.items ≡ names.now) }
{
    Ok(Vec::from_clones(alloc, names)?)
}

/// Returns for each edge the processes that it leads from and to. The one error is `OutOfMemory`.
pub fn head_edges(alloc: Global, edges: &[Edge]) -> Result<Vec<(u32, u32)>, OutOfMemory>
    ensures { IfOk result (λ v. v.items ≡ map (λ e. (e.from, e.to)) edges.now) }
{
    let mut ends = Vec::new(alloc);
    ends.reserve(edges.len())?;
    for edge in edges {
        ends.push((edge.from, edge.to))?;
    }
    Ok(ends)
}

/// Whether each process is released at 0 and has no deadline of its own.
fn are_plain(processes: &[Process]) -> bool
    ensures { result ≡ list_all is_plain processes.now }
{
    processes.iter().all(|process| process.release == 0 && process.deadline.is_none())
}

/// Returns what version 2 adds for each of these processes, in their order. The one error is `OutOfMemory`.
fn extras_of(alloc: Global, processes: &[Process]) -> Result<Vec<Extra>, OutOfMemory>
    ensures { IfOk result (λ v. v.items ≡ map extra_of processes.now) }
{
    let mut extras = Vec::new(alloc);
    extras.reserve(processes.len())?;
    for process in processes {
        extras.push(Extra {
            release: process.release,
            deadline: process.deadline,
        })?;
    }
    Ok(extras)
}

/// Returns what version 2 adds for each process; `None` exactly if no process has a release above 0 or a deadline of its own.
/// The one error is `OutOfMemory`.
pub fn head_extras(alloc: Global, problem: &Problem) -> Result<Option<Vec<Extra>>, OutOfMemory>
    ensures { IfOk result (λ o. option_map (λ v. v.items) o ≡ extras_of problem.now) }
{
    if are_plain(problem.processes()) {
        return Ok(None);
    }
    let extras = extras_of(alloc, problem.processes())?;
    Ok(Some(extras))
}
