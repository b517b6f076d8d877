//! The tail of each process: the longest way from its start to an end.
ghost use Rattle.std.specs.Prelude.{◌≡◌, ◌<◌, ◌≤◌, ◌+◌, ◌^◌, if◌then◌else◌, ℕ, Contains, IfOk, length, get_or, map};
ghost use Rattle.cpg_base.specs.Numbers.{greatest, numbers_below};
ghost use Rattle.cpg_base.specs.Graph.{process_count, edge_count, source, target, is_message};
ghost use Rattle.cpg_base.specs.Limits.{IsWithinLimits};
ghost use Rattle.cpg_base.specs.Bus.{round};
ghost use Rattle.cpg_order.specs.Urgency.{tail, IsTopological};
ghost use Rattle.cpg_order.specs.Links.{links_of};

use crate::Links;
use cpg_base::{Order, OutOfMemory, Problem};
use std::alloc::Global;

/// Returns how long an edge takes: a round if it is a message, and 0 within a node.
fn delay(problem: &Problem, edge: u32, round: u64) -> u64
    requires { edge < edge_count problem.now }
    ensures { result ≡ (if is_message problem.now edge then round else 0) }
{
    let processes = problem.processes();
    let from = processes[problem.source(edge) as usize].node;
    let to = processes[problem.target(edge) as usize].node;
    if from == to { 0 } else { round }
}

/// Returns the longest way over one of these edges and on, and 0 if there are none. `round` is how long a round lasts, and
/// `tails` has the tails of the edges' targets.
fn longest(problem: &Problem, round: u64, outputs: &[u32], tails: &[u64]) -> u64
    requires outputs { (e : ℕ) → Contains outputs.now e → e < edge_count problem.now }
    // a round and a tail together don't overflow
    requires round { round ≤ 2 ^ 60 }
    requires long { length tails.now ≡ process_count problem.now }
    requires low { (p : ℕ) → get_or tails.now p 0 ≤ 2 ^ 60 }
    ensures { result ≡ greatest (map (λ e. (if is_message problem.now e then round else 0) + get_or tails.now (target problem.now e) 0) outputs.now) }
{
    let mut longest = 0;
    for edge in outputs {
        let way = delay(problem, *edge, round) + tails[problem.target(*edge) as usize];
        longest = longest.max(way);
    }
    longest
}

/// Returns the tail of each process, by number. The order may be any topological one.
pub(crate) fn tails(
    alloc: Global,
    problem: &Problem,
    links: &Links,
    order: &Order,
) -> Result<Vec<u64>, OutOfMemory>
    requires links { links.now ≡ links_of problem.now }
    requires order { IsTopological problem.now order.now }
    ensures { IfOk result (λ tails. tails.items ≡ map (tail problem.now) (numbers_below (process_count problem.now))) }
{
    let count = problem.processes().len();
    let round = problem.round();
    let mut tails = vec![in alloc; 0u64; count]?;
    // from the last process of the order back, so that the tails of all targets are known by then
    for done in 0..count {
        // a place below 128, so the cast keeps it
        let process = order.at((count - 1 - done) as u32);
        let way = longest(problem, round, links.outputs(process), tails.as_slice());
        tails[process as usize] = problem.duration(process, 0) + way;
    }
    Ok(tails)
}

/// Returns the length of the longest way from the start of a process to an end, in time units: executions without faults,
/// and a round of the bus for each message. The order may be any topological one.
pub fn tail(
    alloc: Global,
    problem: &Problem,
    order: &Order,
    process: u32,
) -> Result<u64, OutOfMemory>
    requires process { process < process_count problem.now }
    requires order { IsTopological problem.now order.now }
    ensures { IfOk result (λ length. length ≡ tail problem.now process) }
{
    let links = Links::of(alloc, problem)?;
    let tails = tails(alloc, problem, &links, order)?;
    Ok(tails[process as usize])
}
