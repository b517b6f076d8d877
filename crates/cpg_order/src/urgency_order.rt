//! The urgency order of a graph.
ghost use Rattle.std.specs.Prelude.{◌≡◌, ◌≤◌, ℕ, List, IfOk, IfErr, length, map};
ghost use Rattle.cpg_base.specs.Numbers.{numbers_below};
ghost use Rattle.cpg_base.specs.Limits.{IsWithinLimits};
ghost use Rattle.cpg_order.specs.Urgency.{IsUrgencyOrder, IsTopological};
ghost use Rattle.cpg_order.specs.Cycle.{HasCycle};
ghost use Rattle.cpg_order.specs.OrderFault.{ShowsCycle};
ghost use Rattle.cpg_order.specs.Links.{links_of};
ghost use Rattle.cpg_order.specs.Ranking.{AreRanked};
ghost use Rattle.cpg_order.specs.Ranks.{rank_of};

use crate::cycle::cycle;
use crate::settling::settle;
use crate::tails::tails;
use crate::{Links, OrderFault, Walk};
use cpg_base::{Order, OutOfMemory, Problem};
use std::alloc::Global;
use std::cmp::Reverse;

/// What the processes are sorted by: the longer tail first, and of equal ones the lower number.
#[derive(Clone, Copy, Debug, PartialEq, Eq, PartialOrd, Ord)]
struct UrgencyRank {
    /// The tail, turned around so that the longer one comes first.
    tail: Reverse<u64>,
    /// The number of the process.
    process: u32,
}

/// Returns the rank of each process, by number.
fn ranks(alloc: Global, tails: &[u64]) -> Result<Vec<UrgencyRank>, OutOfMemory>
    requires { length tails.now ≤ 128 }
    ensures { IfOk result (λ ranks. ranks.items ≡ map (rank_of tails.now) (numbers_below (length tails.now))) }
{
    let mut ranks = Vec::new(alloc);
    ranks.reserve(tails.len())?;
    for (process, tail) in tails.iter().enumerate() {
        ranks.push(UrgencyRank {
            tail: Reverse(*tail),
            // below 128, so the cast keeps it
            process: process as u32,
        })?;
    }
    Ok(ranks)
}

/// Returns the processes of these ranks, in the same order.
fn processes(alloc: Global, ranks: &[UrgencyRank]) -> Result<Vec<u32>, OutOfMemory>
    ensures { IfOk result (λ processes. processes.items ≡ map (λ r. r.process) ranks.now) }
{
    let mut processes = Vec::new(alloc);
    processes.reserve(ranks.len())?;
    for rank in ranks {
        processes.push(rank.process)?;
    }
    Ok(processes)
}

/// Returns the processes, numbered by their places in `tails`, by falling tails, and for equal tails by number.
pub fn ranked(alloc: Global, tails: &[u64]) -> Result<Vec<u32>, OutOfMemory>
    requires { length tails.now ≤ 128 }
    ensures { IfOk result (λ order. AreRanked tails.now order.items) }
{
    let mut ranks = ranks(alloc, tails)?;
    // no two ranks are equal, since each has another process, so the sort needn't be stable
    ranks.sort_unstable();
    let order = processes(alloc, ranks.as_slice())?;
    Ok(order)
}

/// Returns some topological order of the graph. The fault `Cycle` comes only if there is none, and shows a cycle.
fn topological(alloc: Global, problem: &Problem, links: &Links) -> Result<Order, OrderFault>
    requires { links.now ≡ links_of problem.now }
    ensures within { IsWithinLimits problem.now }
    ensures order { IfOk result (IsTopological problem.now) }
    ensures cycle { IfErr result (ShowsCycle problem.now) }
{
    let count = problem.processes().len();
    let settled = settle(alloc, problem, links)?;
    // not all processes could be settled: those that are left wait for each other
    if settled.ready.len() < count {
        let walk = cycle(alloc, problem, links, settled.waiting.as_slice())?;
        return Err(OrderFault::Cycle(Walk::through(walk)));
    }
    // all processes are settled, each after the sources of its inputs
    Ok(Order::new(settled.ready)?)
}

/// Returns the urgency order: by falling tails, and for equal ones by number. A tail is the longest way to an end: its
/// executions without faults, and a round of the bus for each of its messages.
///
/// The fault `Cycle` shows a cycle of the edges. It comes only if there is one, and `Ok` only if there is none.
pub fn urgency(alloc: Global, problem: &Problem) -> Result<Order, OrderFault>
    ensures urgent { IfOk result (IsUrgencyOrder problem.now) }
    ensures topological { IfOk result (IsTopological problem.now) }
    ensures acyclic { IfOk result (λ _. HasCycle problem.now → ⊥) }
    ensures cycle { IfErr result (ShowsCycle problem.now) }
{
    let links = Links::of(alloc, problem)?;
    // any topological order does: along it, from the end, each tail follows from those of the targets
    let order = topological(alloc, problem, &links)?;
    let tails = tails(alloc, problem, &links, &order)?;
    // a tail is longer than those of the targets, so this order is topological too
    let processes = ranked(alloc, tails.as_slice())?;
    Ok(Order::new(processes)?)
}
