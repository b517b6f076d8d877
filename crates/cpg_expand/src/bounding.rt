//! The limit on the leaves of a tree, which counts only if there is an item to name.
ghost use Rattle.std.specs.Prelude.{◌≡◌, ◌<◌, IfErr, length};
ghost use Rattle.cpg_base.specs.Graph.{process_count};
ghost use Rattle.cpg_bus.specs.Plan.{plan_of};
ghost use Rattle.cpg_expand.specs.Forest.{HasTrees};
ghost use Rattle.cpg_expand.specs.Large.{HasLargeFree, HasLargeSend, IsLarge, IsLargeLeft, ShowsLarge};

use crate::forest::Forest;
use crate::waited::is_queued_from;
use cpg_base::{Order, Problem};
use cpg_bus::Plan;
use cpg_run::BuildFault;
use cpg_tree::Tree;

/// The most leaves that a tree may have, if they are counted: nine for each of the 16,384 columns of a row, since with
/// eight faults an end has up to nine leaves for each leaf of its start.
const MOST_LEAVES: u64 = 147_456;

/// States `MOST_LEAVES` as a number, so that definitions that cite the constant can be read with it.
pub fn leaf_limit_is_this()
    ensures { MOST_LEAVES ≡ 147456 }
{}

/// Answers `TooWide` of the item in `wide` if the tree has more than `MOST_LEAVES` leaves. If `wide` is `None`, nothing
/// is counted or refused.
pub(crate) fn few<T: Copy>(tree: &Tree<T>, wide: Option<u32>) -> Result<(), BuildFault>
    ensures { IfErr result (ShowsLarge wide (IsLarge tree.now)) }
{
    // no item is too wide by its views, so no tree needs counting
    let Some(item) = wide else {
        return Ok(());
    };
    if tree.leaves() > MOST_LEAVES {
        return Err(BuildFault::TooWide(item));
    }
    Ok(())
}

/// Answers `TooWide` of the forest's item if the tree of an item that the process sends has too many leaves.
fn few_sent(problem: &Problem, plan: &Plan, forest: &Forest, process: u32) -> Result<(), BuildFault>
    requires plan { plan.now ≡ plan_of problem.now }
    requires process { process < process_count problem.now }
    requires forest { HasTrees problem.now forest.now }
    ensures { IfErr result (ShowsLarge forest.now.wide (HasLargeSend problem.now process forest.now)) }
{
    for item in plan.queue(problem, process) {
        few(&forest.times[*item as usize], forest.wide)?;
    }
    Ok(())
}

/// Answers `TooWide` of the forest's item if the tree of when the node's slots are free has too many leaves and an
/// item of a process at the place `at` or later waits for it.
fn few_free(
    problem: &Problem,
    order: &Order,
    forest: &Forest,
    node: u32,
    at: u32,
) -> Result<(), BuildFault>
    requires order { length order.now ≡ process_count problem.now }
    requires node { node < length problem.now.nodes }
    requires forest { HasTrees problem.now forest.now }
    ensures { IfErr result (ShowsLarge forest.now.wide (HasLargeFree problem.now order.now at node forest.now)) }
{
    // without an item to name nothing is counted, and the look-up is spared
    if forest.wide.is_none() {
        return Ok(());
    }
    // no later item reads the tree
    if !is_queued_from(problem, order, node, at) {
        return Ok(());
    }
    few(&forest.free[node as usize], forest.wide)
}

/// Answers `TooWide` of the forest's item if a tree that the process leaves behind has too many leaves: one of what it
/// sends, or that of when its node's slots are free.
pub fn few_left(
    problem: &Problem,
    plan: &Plan,
    order: &Order,
    forest: &Forest,
    process: u32,
) -> Result<(), BuildFault>
    requires plan { plan.now ≡ plan_of problem.now }
    requires order { length order.now ≡ process_count problem.now }
    requires process { process < process_count problem.now }
    requires forest { HasTrees problem.now forest.now }
    ensures { IfErr result (ShowsLarge forest.now.wide (IsLargeLeft problem.now order.now process forest.now)) }
{
    few_sent(problem, plan, forest, process)?;
    let node = problem.node_of(process);
    few_free(problem, order, forest, node, order.place(process) + 1)?;
    Ok(())
}
