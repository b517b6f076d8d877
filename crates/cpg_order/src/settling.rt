//! Processes settled one after another, each once the sources of all its inputs are.
ghost use Rattle.std.specs.Prelude.{◌≡◌, ◌<◌, ◌≤◌, ◌+◌, ◌-◌, ◌++◌, ℕ, Contains, List, IfOk, OnOk, length, get_or, map, slice_set, filter, ◌==◌};
ghost use Rattle.cpg_base.specs.Numbers.{numbers_below};
ghost use Rattle.cpg_base.specs.Graph.{process_count, edge_count, inputs, outputs, target};
ghost use Rattle.cpg_base.specs.Limits.{IsWithinLimits};
ghost use Rattle.cpg_order.specs.Links.{links_of};
ghost use Rattle.cpg_order.specs.Settling.{AreReady, AreSettled};

use crate::Links;
use cpg_base::{OutOfMemory, Problem};
use std::alloc::Global;

/// What `settle` returns: the processes that could be settled, and how many inputs each process still waits for.
#[derive(Drop)]
pub(crate) struct Settled {
    /// The processes that are settled, in the order in which they were. Each comes after the sources of its inputs.
    pub(crate) ready: Vec<u32>,
    /// By process, how many of its inputs have a source that isn't settled.
    pub(crate) waiting: Vec<u32>,
}

/// Returns how many inputs each process has, by number.
fn input_counts(alloc: Global, problem: &Problem, links: &Links) -> Result<Vec<u32>, OutOfMemory>
    requires { links.now ≡ links_of problem.now }
    ensures counts { IfOk result (λ counts. counts.items ≡ map (λ p. length (inputs problem.now p)) (numbers_below (process_count problem.now))) }
    ensures within { IsWithinLimits problem.now }
{
    let count = problem.processes().len();
    let mut counts = Vec::new(alloc);
    counts.reserve(count)?;
    // there are at most 128 processes and 256 edges, so the casts keep their counts
    for process in 0..count as u32 {
        counts.push(links.inputs(process).len() as u32)?;
    }
    Ok(counts)
}

/// Returns the processes that wait for no input, the lowest first.
fn ready(alloc: Global, waiting: &[u32]) -> Result<Vec<u32>, OutOfMemory>
    requires { length waiting.now ≤ 128 }
    ensures { IfOk result (λ ready. AreReady waiting.now ready.items) }
{
    let mut ready = Vec::new(alloc);
    ready.reserve(waiting.len())?;
    for (process, waits_for) in waiting.iter().enumerate() {
        if *waits_for == 0 {
            // below 128, so the cast keeps it
            ready.push(process as u32)?;
        }
    }
    Ok(ready)
}

/// Counts one input of a process as settled. If that is the last one that it waits for, the process is added to `ready`.
fn release(process: u32, waiting: &mut Vec<u32>, ready: &mut Vec<u32>) -> Result<(), OutOfMemory>
    requires waits { 0 < get_or waiting.old.items process 0 }
    // the list has exactly the processes that wait for no input
    requires ready { AreReady waiting.old.items ready.old.items }
    ensures ready { OnOk result (AreReady waiting.new.items ready.new.items) }
    ensures waiting { OnOk result (waiting.new.items ≡ slice_set waiting.old.items process (get_or waiting.old.items process 0 - 1)) }
    // the list only gets longer
    ensures longer { OnOk result ((more : List ℕ) × (ready.new.items ≡ ready.old.items ++ more)) }
{
    // how many inputs it still waits for
    let waits_for = waiting[process as usize] - 1;
    waiting[process as usize] = waits_for;
    if waits_for == 0 {
        ready.push(process)?;
    }
    Ok(())
}

/// Counts each of these edges as a settled input of its target, and adds the targets that become ready to the list.
fn release_all(
    problem: &Problem,
    edges: &[u32],
    waiting: &mut Vec<u32>,
    ready: &mut Vec<u32>,
) -> Result<(), OutOfMemory>
    // the edges are edges of the graph
    requires edges { (e : ℕ) → Contains edges.now e → e < edge_count problem.now }
    // each process waits for at least as many inputs as there are edges to it among these
    requires wait { (p : ℕ) → length (filter (λ e. target problem.now e == p) edges.now) ≤ get_or waiting.old.items p 0 }
    // `ready` lists the processes that wait for no input
    requires ready { AreReady waiting.old.items ready.old.items }
    ensures ready { OnOk result (AreReady waiting.new.items ready.new.items) }
    // there are as many counts as before
    ensures long { OnOk result (length waiting.new.items ≡ length waiting.old.items) }
    // for each edge among these, its target waits for one input less
    ensures waiting { OnOk result ((p : ℕ) →
        get_or waiting.new.items p 0 + length (filter (λ e. target problem.now e == p) edges.now) ≡ get_or waiting.old.items p 0) }
    // the list only gets longer
    ensures longer { OnOk result ((more : List ℕ) × (ready.new.items ≡ ready.old.items ++ more)) }
{
    for edge in edges {
        release(problem.target(*edge), waiting, ready)?;
    }
    Ok(())
}

/// Settles all processes that can be settled, each after the sources of its inputs. If the graph has a cycle, not all can.
pub(crate) fn settle(
    alloc: Global,
    problem: &Problem,
    links: &Links,
) -> Result<Settled, OutOfMemory>
    requires { links.now ≡ links_of problem.now }
    // all ready processes are settled, and each process waits for its inputs from others
    ensures { IfOk result (λ s. AreSettled problem.now (length s.ready.items) s.waiting.items s.ready.items) }
{
    let mut waiting = input_counts(alloc, problem, links)?;
    let mut ready = ready(alloc, waiting.as_slice())?;
    // the first `settled` of the ready processes are settled
    let mut settled = 0;
    // each turn settles the next ready process, which may make others ready
    while settled < ready.len() {
        let process = ready[settled];
        release_all(problem, links.outputs(process), &mut waiting, &mut ready)?;
        settled += 1;
    }
    Ok(Settled { ready, waiting })
}
