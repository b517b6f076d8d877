//! The starts of processes: what they wait for on their nodes, and how a frozen one is set.
ghost use Rattle.std.specs.Prelude.{◌≡◌, ◌<◌, ◌≤◌, All, IfErr, IfOk, length};
ghost use Rattle.cpg_expand.specs.Freezing.{IsFrozenBy, set_if};
ghost use Rattle.cpg_base.specs.Graph.{condition_count, edge_count, item_count, process_at, process_count};
ghost use Rattle.cpg_tree.specs.GraphTrees.{IsTree};
ghost use Rattle.cpg_expand.specs.Forest.{HasTrees, IsWait, ready_by};
ghost use Rattle.cpg_expand.specs.Guarded.{IsActiveTree, IsStartTree, LeadsBelow};
ghost use Rattle.cpg_expand.specs.Large.{IsLarge, IsLargeStart, IsLargeWait, ShowsLarge};
ghost use Rattle.cpg_expand.specs.Waiting.{IsWaitTree, ready_of, wait_of};
ghost use Rattle.cpg_rules.specs.Trees.{TestsBelow};

use crate::bounding::few;
use crate::forest::{Forest, Ready};
use crate::guarded::{heard, start};
use cpg_base::{OutOfMemory, Problem};
use cpg_rules::{GuardTop, GuardTree};
use cpg_run::{BuildFault, FrozenTimes};
use cpg_tree::{OptionalTime, Tree};
use cpg_tree_times::fixed;
use std::alloc::Global;

/// Refuses the tree of when a node is ready if it has too many leaves: `TooWide` names the forest's item, if it has
/// one. The ends of a process were counted when they were made. The contract alone names `problem`.
fn few_ready(problem: &Problem, forest: &Forest, node: u32) -> Result<(), BuildFault>
    requires forest { HasTrees problem.now forest.now }
    requires node { node < length problem.now.nodes }
    ensures { IfErr result (ShowsLarge forest.now.wide (IsLarge (ready_of problem.now forest.now node))) }
{
    match &forest.ready[node as usize] {
        Ready::After(_) => Ok(()),
        Ready::At(tree) => few(tree, forest.wide),
    }
}

/// Returns from when on a node is ready for a process and has heard what its guard tests. `None` exactly if the guard
/// tests nothing: then the process waits until its node is ready. `TooWide` names the forest's item if a tree on the
/// way has too many leaves.
pub fn waiting(
    alloc: Global,
    problem: &Problem,
    forest: &Forest,
    node: u32,
    guard: &GuardTree,
) -> Result<Option<Ready>, BuildFault>
    requires few { condition_count problem.now ≤ 32 }
    requires forest { HasTrees problem.now forest.now }
    requires node { node < length problem.now.nodes }
    requires tests { TestsBelow (condition_count problem.now) guard.now }
    ensures of { IfOk result (λ heard. IsWait problem.now (wait_of problem.now forest.now node heard)) }
    ensures wait { IfOk result (λ heard.
        IsWaitTree problem.now forest.now node guard.now (ready_by problem.now forest.now (wait_of problem.now forest.now node heard))) }
    ensures fault { IfErr result (ShowsLarge forest.now.wide (IsLargeWait problem.now forest.now node guard.now)) }
{
    few_ready(problem, forest, node)?;
    match guard.top() {
        GuardTop::Leaf(_) => Ok(None),
        GuardTop::Test {
            condition: _,
            no: _,
            yes: _,
        } => {
            let heard = heard(alloc, problem, forest, node, guard)?;
            let wait = forest.ready_and(problem, &forest.ready[node as usize], &heard)?;
            few(&wait, forest.wide)?;
            Ok(Some(Ready::At(wait)))
        }
    }
}

/// Returns what a process waits for on its node: `heard`, which says when its node is ready and has heard what is
/// tested; without that, what says when the node is ready. The contract alone names `problem`.
pub fn wait_for<'a>(
    problem: &Problem,
    forest: &'a Forest,
    node: u32,
    heard: &'a Option<Ready>,
) -> &'a Ready
    requires forest { HasTrees problem.now forest.now }
    requires node { node < length problem.now.nodes }
    ensures { result.now ≡ wait_of problem.now forest.now node heard.now }
{
    match heard {
        Some(wait) => wait,
        None => &forest.ready[node as usize],
    }
}

/// Returns the starts of a process that isn't frozen; no time where it is inactive. `wait` says what it waits for on
/// its node, `inputs` are the edges that lead to it, `guard` is its guard, and `active` says where it is active.
/// `TooWide` names the forest's item if a tree on the way has too many leaves.
pub fn unfrozen_start(
    problem: &Problem,
    forest: &Forest,
    wait: &Ready,
    inputs: &[u32],
    guard: &GuardTree,
    process: u32,
    active: &Tree<bool>,
) -> Result<Tree<OptionalTime>, BuildFault>
    requires process { process < process_count problem.now }
    requires forest { HasTrees problem.now forest.now }
    requires wait { IsWait problem.now wait.now }
    requires few { condition_count problem.now ≤ 32 }
    requires tests { TestsBelow (condition_count problem.now) guard.now }
    requires inputs { All (λ e. e < edge_count problem.now) inputs.now }
    requires leaves { LeadsBelow (edge_count problem.now) guard.now }
    requires active { IsTree problem.now active.now }
    requires actives { IsActiveTree problem.now.faults guard.now active.now }
    ensures tree { IfOk result (IsTree problem.now) }
    ensures start { IfOk result (IsStartTree problem.now forest.now (ready_by problem.now forest.now wait.now)
        (process_at problem.now process).release inputs.now guard.now) }
    ensures fault { IfErr result (ShowsLarge forest.now.wide
        (IsLargeStart problem.now forest.now (ready_by problem.now forest.now wait.now) (process_at problem.now process).release inputs.now guard.now)) }
{
    start(
        problem,
        forest,
        wait,
        problem.release(process),
        inputs,
        guard,
        active,
    )
}

/// Sets `latest` as the frozen time of an item; with `None` nothing changes.
fn set_if(frozen: &mut FrozenTimes, item: u32, latest: Option<u64>)
    requires { item < length frozen.old }
    ensures { frozen.new ≡ set_if frozen.old item latest }
{
    if let Some(time) = latest {
        frozen.set(item, time);
    }
}

/// Sets `latest` as the frozen time of an item, and returns the tree that has this time where `goes` is true, and no
/// time elsewhere. With `None`, which is right only if the item never goes, no time is set. The contract alone names
/// `problem`.
pub fn freeze(
    problem: &Problem,
    frozen: &mut FrozenTimes,
    item: u32,
    goes: &Tree<bool>,
    latest: Option<u64>,
) -> Result<Tree<OptionalTime>, OutOfMemory>
    requires item { item < item_count problem.now }
    requires places { length frozen.old ≡ item_count problem.now }
    requires goes { IsTree problem.now goes.now }
    ensures tree { IfOk result (IsTree problem.now) }
    ensures frozen { IfOk result (IsFrozenBy item latest goes.now frozen.old frozen.new) }
{
    // if there is no latest time, `goes` is nowhere true, so 0 isn't read
    let one = fixed(goes, latest.unwrap_or(0))?;
    set_if(frozen, item, latest);
    Ok(one)
}
