//! A cycle of edges, found among processes that all wait for each other.
ghost use Rattle.std.specs.Prelude.{◌≡◌, ◌<◌, ◌≤◌, ℕ, IsTrue, IfOk, length, get_or, drop, position, ◌==◌};
ghost use Rattle.cpg_base.specs.Graph.{Graph, process_count};
ghost use Rattle.cpg_order.specs.Links.{links_of};
ghost use Rattle.cpg_order.specs.Cycle.{IsCycle, has_edge};
ghost use Rattle.cpg_order.specs.Settling.{AreStuck, IsCycleBack};

use crate::Links;
use cpg_base::{OutOfMemory, Problem};
use std::alloc::Global;

/// Returns the least process that waits for an input.
fn waiting_process(problem: &Problem, waiting: &[u32]) -> u32
    // some process waits, and each that waits does so for one that waits
    requires { AreStuck problem.now waiting.now }
    ensures within { result < process_count problem.now }
    ensures waits { 0 < get_or waiting.now result 0 }
{
    // there are at most 128 processes, so the cast keeps their count
    for process in 0..problem.processes().len() as u32 {
        // processes are met by number, so this is the least
        if waiting[process as usize] > 0 {
            return process;
        }
    }
    // some process waits, so the loop has come to one
    unreachable!()
}

/// Returns the source of the first input of a waiting process that comes from a waiting process.
fn waiting_source(problem: &Problem, links: &Links, waiting: &[u32], process: u32) -> u32
    requires links { links.now ≡ links_of problem.now }
    // some process waits, and each that waits does so for one that waits
    requires stuck { AreStuck problem.now waiting.now }
    requires within { process < process_count problem.now }
    requires waits { 0 < get_or waiting.now process 0 }
    // the source is a process that waits, with an edge to this one
    ensures within { result < process_count problem.now }
    ensures waits { 0 < get_or waiting.now result 0 }
    ensures edge { IsTrue (has_edge problem.now result process) }
{
    for edge in links.inputs(process) {
        let source = problem.source(*edge);
        if waiting[source as usize] > 0 {
            return source;
        }
    }
    // a process that waits does so for one that waits too, so the loop has come to such a source
    unreachable!()
}

/// Returns the place of a process in a walk, and `None` exactly if it isn't there.
fn place_in(walk: &[u32], process: u32) -> Option<usize>
    ensures { result ≡ position (λ p. p == process) walk.now }
{
    walk.iter().position(|p| *p == process)
}

/// A walk against the edges that has met itself.
#[derive(Drop)]
struct WalkBack {
    /// The processes of the walk, each with an edge from the next. They are all different.
    walk: Vec<u32>,
    /// The place of the process to which one more step would lead. The cycle is the walk from here on.
    from: usize,
}

/// Returns the walk against the edges from the least waiting process, always on to a waiting source, until the next
/// process is in it already.
fn walk_back(
    alloc: Global,
    problem: &Problem,
    links: &Links,
    waiting: &[u32],
) -> Result<WalkBack, OutOfMemory>
    requires links { links.now ≡ links_of problem.now }
    // some process waits, and each that waits does so for one that waits
    requires stuck { AreStuck problem.now waiting.now }
    ensures within { IfOk result (λ w. w.from < length w.walk.items) }
    // the walk from that place on is a cycle, listed against its edges
    ensures cycle { IfOk result (λ w. IsCycleBack problem.now (drop w.from w.walk.items)) }
{
    let mut walk = Vec::new(alloc);
    // the processes of a walk are different, so there are no more than these
    walk.reserve(waiting.len())?;
    let mut process = waiting_process(problem, waiting);
    loop {
        // the walk meets itself here
        if let Some(from) = place_in(walk.as_slice(), process) {
            return Ok(WalkBack { walk, from });
        }
        walk.push(process)?;
        process = waiting_source(problem, links, waiting, process);
    }
}

/// Returns the place of the least of these numbers, and the first such place if there are several.
fn least_place(numbers: &[u32]) -> usize
    requires { 0 < length numbers.now }
    ensures within { result < length numbers.now }
    ensures least { (k : ℕ) → k < length numbers.now → get_or numbers.now result 0 ≤ get_or numbers.now k 0 }
{
    let mut least = 0;
    for (place, number) in numbers.iter().enumerate() {
        // an equal number doesn't count, so the first place stays
        if *number < numbers[least] {
            least = place;
        }
    }
    least
}

/// Returns the cycle that `back` lists against its edges, now in their direction and from its least process on.
fn forwards(alloc: Global, back: &[u32]) -> Result<Vec<u32>, OutOfMemory>
    requires { 0 < length back.now }
    // if the list is a cycle of a graph, listed against its edges, the walk is a cycle of that graph
    ensures { IfOk result (λ walk. (g : Graph) → IsCycleBack g back.now → IsCycle g walk.items) }
{
    let mut walk = Vec::new(alloc);
    walk.reserve(back.len())?;
    let mut place = least_place(back);
    for _ in 0..back.len() {
        walk.push(back[place])?;
        // along the edges is backwards in the list, and from its first process around to the last
        place = if place == 0 {
            back.len() - 1
        } else {
            place - 1
        };
    }
    Ok(walk)
}

/// Returns a cycle of a graph in which some processes wait, each for the source of an input that waits too. The cycle
/// follows the edges and begins with its least process.
pub(crate) fn cycle(
    alloc: Global,
    problem: &Problem,
    links: &Links,
    waiting: &[u32],
) -> Result<Vec<u32>, OutOfMemory>
    requires links { links.now ≡ links_of problem.now }
    // some process waits, and each that waits does so for one that waits
    requires stuck { AreStuck problem.now waiting.now }
    ensures { IfOk result (λ walk. IsCycle problem.now walk.items) }
{
    let found = walk_back(alloc, problem, links, waiting)?;
    // what the walk has before this place leads to the cycle, but isn't part of it
    forwards(alloc, &found.walk[found.from..])
}
