//! The reach of each item, which is the variables that its time may depend on, found along an order.
ghost use Rattle.std.specs.Prelude.{◌≡◌, ◌<◌, ◌+◌, ◌*◌, List, ℕ, [], IfOk, length, get_or, slice_set};
ghost use Rattle.cpg_base.specs.Graph.{process_count, edge_count};
ghost use Rattle.cpg_order.specs.Urgency.{IsTopological};
ghost use Rattle.cpg_base.specs.Order.{place};
ghost use Rattle.cpg_order.proofs.Moments.{phases};
ghost use Rattle.cpg_reach.specs.Variables.{Adds};
ghost use Rattle.cpg_reach.specs.Tested.{AreDecidingValues};
ghost use Rattle.cpg_reach.specs.Walked.{AreEmpty, AreReaches, IsWalkedTo};

use crate::conditions::deciding_values;
use crate::sending::{broadcast_of, message_of};
use crate::starting::{add_heard, start_of};
use crate::variables::Variables;
use cpg_base::{Order, OutOfMemory, Problem};
use cpg_rules::Admitted;
use std::alloc::Global;

/// What is found on a walk along an order, so far.
#[derive(Drop)]
pub struct OrderWalk {
    /// By item, the variables that its time may depend on; none if it isn't reached yet.
    reaches: Vec<Variables>,
    /// By node, what its later processes wait for because of those so far.
    known: Vec<Variables>,
    /// By node, what its sends so far depend on.
    sent: Vec<Variables>,
}

/// Returns `count` empty sets of variables.
fn empty_sets(alloc: Global, count: usize) -> Result<Vec<Variables>, OutOfMemory>
    ensures { IfOk result (λ sets. AreEmpty count sets.items) }
{
    let mut sets = Vec::new(alloc);
    sets.reserve(count)?;
    for _ in 0..count {
        sets.push(Variables::none())?;
    }
    Ok(sets)
}

/// Adds to the walk the reach of the start of a process, and what the process makes later ones on its node wait for.
/// The contract alone names `order`.
fn settle_start(
    problem: &Problem,
    order: &Order,
    deciding: &[Variables],
    process: u32,
    walk: &mut OrderWalk,
)
    requires order { IsTopological problem.now order.now }
    requires process { process < process_count problem.now }
    requires deciding { AreDecidingValues problem.now deciding.now }
    requires walked { IsWalkedTo problem.now order.now (place order.now process) (place order.now process * phases problem.now) walk.old }
    ensures { IsWalkedTo problem.now order.now (place order.now process + 1) (place order.now process * phases problem.now + 2) walk.new }
{
    // called for its contract: the graph is within its limits
    let _processes = problem.processes();
    let node = problem.node_of(process);
    let reach = start_of(
        problem,
        deciding,
        walk.reaches.as_slice(),
        walk.known.as_slice(),
        process,
    );
    // processes after this one on the node wait for what it hears, for its start, and for its end
    let mut known = walk.known[node as usize].copy();
    add_heard(
        problem,
        deciding,
        walk.reaches.as_slice(),
        node,
        process,
        &mut known,
    );
    known.add(&reach);
    known.insert(process);
    walk.known[node as usize] = known;
    walk.reaches[process as usize] = reach;
}

/// Sets the reach of an item in the walk, and adds it to what the sends of its node depend on.
fn settle(item: usize, node: u32, reach: Variables, walk: &mut OrderWalk)
    requires item { item < length walk.old.reaches.items }
    requires node { node < length walk.old.sent.items }
    ensures reaches { walk.new.reaches.items ≡ slice_set walk.old.reaches.items item reach }
    ensures known { walk.new.known.items ≡ walk.old.known.items }
    ensures sent { (sent : List ℕ) × (walk.new.sent.items ≡ slice_set walk.old.sent.items node sent) × Adds (get_or walk.old.sent.items node []) reach sent }
{
    let mut sent = walk.sent[node as usize].copy();
    sent.add(&reach);
    walk.sent[node as usize] = sent;
    walk.reaches[item] = reach;
}

/// Adds to the walk the reach of the broadcast of a process's condition, if the process has one. The contract alone
/// names `order`.
fn settle_broadcast(problem: &Problem, order: &Order, process: u32, walk: &mut OrderWalk)
    requires order { IsTopological problem.now order.now }
    requires process { process < process_count problem.now }
    requires walked { IsWalkedTo problem.now order.now (place order.now process + 1) (place order.now process * phases problem.now + 2) walk.old }
    ensures { IsWalkedTo problem.now order.now (place order.now process + 1) (place order.now process * phases problem.now + 3) walk.new }
{
    // the process computes no condition
    let Some(condition) = problem.condition_of(process) else {
        return;
    };
    let reach = broadcast_of(
        problem,
        walk.reaches.as_slice(),
        walk.sent.as_slice(),
        condition,
    );
    // items are the starts, then the edges, then the conditions
    let item = problem.processes().len() + problem.edges().len() + condition as usize;
    settle(item, problem.node_of(process), reach, walk);
}

/// Adds to the walk the reach of the message of an edge, if the edge comes from the process. The contract alone names
/// `order`.
fn settle_message(
    problem: &Problem,
    order: &Order,
    deciding: &[Variables],
    process: u32,
    edge: u32,
    walk: &mut OrderWalk,
)
    requires order { IsTopological problem.now order.now }
    requires process { process < process_count problem.now }
    requires edge { edge < edge_count problem.now }
    requires deciding { AreDecidingValues problem.now deciding.now }
    requires walked { IsWalkedTo problem.now order.now (place order.now process + 1) (place order.now process * phases problem.now + 3 + edge) walk.old }
    ensures { IsWalkedTo problem.now order.now (place order.now process + 1) (place order.now process * phases problem.now + 3 + (edge + 1)) walk.new }
{
    // the edge comes from another process
    if problem.edges()[edge as usize].from != process {
        return;
    }
    let reach = message_of(
        problem,
        deciding,
        walk.reaches.as_slice(),
        walk.sent.as_slice(),
        edge,
    );
    // items are the starts, then the edges
    let item = problem.processes().len() + edge as usize;
    settle(item, problem.node_of(process), reach, walk);
}

/// Adds to the walk the reaches of the start of a process and of all that it sends.
fn settle_process(
    problem: &Problem,
    order: &Order,
    deciding: &[Variables],
    process: u32,
    walk: &mut OrderWalk,
)
    requires order { IsTopological problem.now order.now }
    requires process { process < process_count problem.now }
    requires deciding { AreDecidingValues problem.now deciding.now }
    requires walked { IsWalkedTo problem.now order.now (place order.now process) (place order.now process * phases problem.now) walk.old }
    ensures { IsWalkedTo problem.now order.now (place order.now process + 1) ((place order.now process + 1) * phases problem.now) walk.new }
{
    settle_start(problem, order, deciding, process, walk);
    settle_broadcast(problem, order, process, walk);
    for edge in 0..problem.edges().len() as u32 {
        settle_message(problem, order, deciding, process, edge, walk);
    }
}

/// Returns, for each item, the variables that its time may depend on under the order. The one error is `OutOfMemory`.
pub fn reaches(
    alloc: Global,
    admitted: &Admitted,
    order: &Order,
) -> Result<Vec<Variables>, OutOfMemory>
    requires { IsTopological admitted.now.graph order.now }
    ensures { IfOk result (λ reaches. AreReaches admitted.now.graph order.now reaches.items) }
{
    let problem = admitted.problem();
    let deciding = deciding_values(alloc, admitted)?;
    let items = problem.processes().len() + problem.edges().len() + problem.conditions() as usize;
    let nodes = problem.nodes().len();
    let mut walk = OrderWalk {
        reaches: empty_sets(alloc, items)?,
        known: empty_sets(alloc, nodes)?,
        sent: empty_sets(alloc, nodes)?,
    };
    for process in order.processes() {
        settle_process(problem, order, deciding.as_slice(), *process, &mut walk);
    }
    Ok(walk.reaches)
}
