//! The plan of a graph, which is found once for many runs.
ghost use Rattle.std.specs.Prelude.{◌≡◌, ◌<◌, ◌==◌, IfOk, ℕ, length, map};
ghost use Rattle.std.specs.List.{list_any};
ghost use Rattle.cpg_base.specs.Bus.{round};
ghost use Rattle.cpg_bus.specs.Share.{HasSlot, share_of};
ghost use Rattle.cpg_base.specs.Numbers.{numbers_below};
ghost use Rattle.cpg_base.specs.Graph.{process_count, inputs, condition_of};
ghost use Rattle.cpg_order.specs.Links.{links_of};
ghost use Rattle.cpg_bus.specs.Plan.{broadcasts_of, queue_of, share_if, plan_of};

use crate::Share;
use cpg_base::{OutOfMemory, Problem};
use cpg_order::Links;
use std::alloc::Global;
use std::marker::Model;

/// The items that a process sends, in their order.
#[derive(Drop)]
struct ItemList {
    /// The numbers of the items: the broadcast, if there is one, and then the messages by number.
    items: Vec<u32>,
}

impl Model for ItemList {
    ghost use Rattle.std.specs.Prelude.{List, ℕ};

    ghost Value = { List ℕ };

    ghost view = { λ q. q.items.items };
}

impl ItemList {
    /// Returns the items as a slice.
    fn as_slice(&self) -> &[u32]
        ensures { result.now ≡ self.now }
    {
        self.items.as_slice()
    }
}

/// The edges of each process, the items that it sends in their order, and the nodes' shares of the bus, found once for many
/// runs.
#[derive(Drop)]
pub struct Plan {
    /// The edges of each process.
    links: Links,
    /// By process, the items that it sends, as its node's queue has them.
    queues: Vec<ItemList>,
    /// By node, its share of the bus, if it has a slot.
    shares: Vec<Option<Share>>,
    /// The length of the round, in time units.
    round: u64,
}

impl Model for Plan {
    ghost use Rattle.cpg_bus.specs.Plan.{PlanState};

    ghost Value = { PlanState };

    ghost view = { λ p. record { links = p.links; queues = p.queues.items; shares = p.shares.items; round = p.round } };
}

/// Returns the broadcast of a process's condition; an empty list if it has none, or there is no other node to hear it.
fn broadcasts(alloc: Global, problem: &Problem, process: u32) -> Result<Vec<u32>, OutOfMemory>
    requires { process < process_count problem.now }
    ensures { IfOk result (λ items. items.items ≡ broadcasts_of problem.now (condition_of problem.now process)) }
{
    let mut items = Vec::new(alloc);
    // a process without a condition broadcasts nothing
    let Some(condition) = problem.condition_of(process) else {
        return Ok(items);
    };
    // with one node there is no other to hear it
    if problem.nodes().len() <= 1 {
        return Ok(items);
    }
    items.push(problem.broadcast_item(condition))?;
    Ok(items)
}

/// Returns the items that a process sends: its broadcast first, then its messages by number.
fn queue(
    alloc: Global,
    problem: &Problem,
    links: &Links,
    process: u32,
) -> Result<ItemList, OutOfMemory>
    requires process { process < process_count problem.now }
    requires links { links.now ≡ links_of problem.now }
    ensures { IfOk result (λ queue. queue ≡ queue_of problem.now process) }
{
    let mut items = broadcasts(alloc, problem, process)?;
    for edge in links.outputs(process) {
        // an edge within a node isn't sent
        if problem.is_message(*edge) {
            items.push(problem.message_item(*edge))?;
        }
    }
    Ok(ItemList { items })
}

/// Returns the items that each process sends, by process.
fn queues(alloc: Global, problem: &Problem, links: &Links) -> Result<Vec<ItemList>, OutOfMemory>
    requires { links.now ≡ links_of problem.now }
    ensures { IfOk result (λ queues. queues.items ≡ map (queue_of problem.now) (numbers_below (process_count problem.now))) }
{
    let mut queues = Vec::new(alloc);
    queues.reserve(problem.processes().len())?;
    // there are at most 128 processes, so the cast keeps their count
    for process in 0..problem.processes().len() as u32 {
        queues.push(queue(alloc, problem, links, process)?)?;
    }
    Ok(queues)
}

/// Whether a node has a slot.
fn has_slot(problem: &Problem, node: u32) -> bool
    ensures { result ≡ list_any (λ s. s.node == node) problem.now.slots }
{
    problem.slots().iter().any(|slot| slot.node == node)
}

/// Returns the share of a node, and `None` exactly if it has no slot.
fn share_if(problem: &Problem, node: u32) -> Option<Share>
    ensures { result ≡ share_if problem.now node }
{
    if has_slot(problem, node) {
        Some(Share::of(problem, node))
    } else {
        None
    }
}

/// Returns the share of each node, by number, and `None` for a node without a slot.
fn shares(alloc: Global, problem: &Problem) -> Result<Vec<Option<Share>>, OutOfMemory>
    ensures { IfOk result (λ shares. shares.items ≡ map (share_if problem.now) (numbers_below (length problem.now.nodes))) }
{
    let mut shares = Vec::new(alloc);
    shares.reserve(problem.nodes().len())?;
    // there are at most 16 nodes, so the cast keeps their count
    for node in 0..problem.nodes().len() as u32 {
        shares.push(share_if(problem, node))?;
    }
    Ok(shares)
}

impl Plan {
    /// Returns the plan of a graph.
    pub fn of(alloc: Global, problem: &Problem) -> Result<Plan, OutOfMemory>
        ensures { IfOk result (λ plan. plan ≡ plan_of problem.now) }
    {
        let links = Links::of(alloc, problem)?;
        let queues = queues(alloc, problem, &links)?;
        Ok(Plan {
            links,
            queues,
            shares: shares(alloc, problem)?,
            round: problem.round(),
        })
    }

    /// Returns the edges that lead to a process, the lowest first. Only the contract uses `problem`.
    pub fn inputs(&self, problem: &Problem, process: u32) -> &[u32]
        requires plan { self.now ≡ plan_of problem.now }
        requires process { process < process_count problem.now }
        ensures { result.now ≡ inputs problem.now process }
    {
        // bound to a name, so that the prover closes the clause by itself
        let inputs = self.links.inputs(process);
        inputs
    }

    /// Returns the items that a process sends, as its node's queue has them. Only the contract uses `problem`.
    pub fn queue(&self, problem: &Problem, process: u32) -> &[u32]
        requires plan { self.now ≡ plan_of problem.now }
        requires process { process < process_count problem.now }
        ensures { result.now ≡ queue_of problem.now process }
    {
        let queue = &self.queues[process as usize];
        queue.as_slice()
    }

    /// Returns the share of a node that has a slot.
    pub fn share(&self, problem: &Problem, node: u32) -> Share
        requires plan { self.now ≡ plan_of problem.now }
        requires node { node < length problem.now.nodes }
        requires slot { HasSlot problem.now node }
        ensures { result ≡ share_of problem.now node }
    {
        match self.shares[node as usize] {
            Some(share) => share,
            // the node has a slot, so the plan has its share; this one is equal, so the contract holds here too
            None => Share::of(problem, node),
        }
    }

    /// Returns the length of the round, in time units. Only the contract uses `problem`.
    pub fn round(&self, problem: &Problem) -> u64
        requires { self.now ≡ plan_of problem.now }
        ensures { result ≡ round problem.now }
    {
        // asked only for its clause: the graph is within its limits
        let _slots = problem.slots();
        self.round
    }
}
