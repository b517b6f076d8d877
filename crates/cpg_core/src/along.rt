//! One step along the order: the trees of one process and of what it sends.
ghost use Rattle.std.specs.Prelude.{ℕ, ◌≡◌, ◌<◌, IfErr, IfOk, List, length};
ghost use Rattle.cpg_base.specs.Graph.{item_count, process_count};
ghost use Rattle.cpg_bus.specs.Plan.{plan_of};
ghost use Rattle.cpg_expand.specs.Begun.{IsBegun, IsBegunFrozen, IsBegunThawed};
ghost use Rattle.cpg_tree.specs.GraphTrees.{IsTree};
ghost use Rattle.cpg_expand.specs.Ending.{IsReadyAfter, goes_on};
ghost use Rattle.cpg_expand.specs.Forest.{HasTrees};
ghost use Rattle.cpg_expand.specs.Grown.{IsGrownBy};
ghost use Rattle.cpg_expand.specs.Large.{IsLargeBegun, IsLargeFrozen, IsLargeThawed, ShowsLarge};
ghost use Rattle.cpg_expand.specs.Waited.{IsReadyIfWaited};
ghost use Rattle.cpg_rules.specs.Guards.{tree_of};

use cpg_base::Order;
use cpg_bus::Plan;
use cpg_expand::{
    Forest, PlannedCourse, Ready, active, end, end_and_ready, freeze, is_waited_for, latest_start,
    put_begun, ready, send, span_before, unfrozen_start, wait_for, waiting,
};
use cpg_rules::Admitted;
use cpg_run::{BuildFault, FrozenTimes};
use cpg_tree::{OptionalTime, Tree};
use std::alloc::Global;

/// Adds to the forest the start and the end of a process that isn't frozen, and when its node goes on after it. Returns
/// the tree of where it is active. `TooWide` names the forest's item if a tree on the way has too many leaves.
fn begin_thawed(
    alloc: Global,
    admitted: &Admitted,
    plan: &Plan,
    forest: &mut Forest,
    process: u32,
) -> Result<Tree<bool>, BuildFault>
    requires plan { plan.now ≡ plan_of admitted.now.graph }
    requires process { process < process_count admitted.now.graph }
    requires forest { HasTrees admitted.now.graph forest.old }
    ensures trees { IfOk result (λ active. HasTrees admitted.now.graph forest.new) }
    ensures begun { IfOk result (λ active. (order : List ℕ) →
        IsBegunThawed admitted.now.graph order process (tree_of admitted.now.guards process) forest.old forest.new active) }
    ensures fault { IfErr result (ShowsLarge forest.old.wide (IsLargeThawed admitted.now.graph process forest.old (tree_of admitted.now.guards process))) }
{
    let problem = admitted.problem();
    let guard = admitted.guards().guard_of(process);
    let node = problem.node_of(process);
    let inputs = plan.inputs(problem, process);
    // where it is active, what it waits for, its start, and what follows from that
    let active = active(alloc, problem, guard)?;
    let heard = waiting(alloc, problem, forest, node, guard)?;
    let wait = wait_for(problem, forest, node, &heard);
    let start = unfrozen_start(problem, forest, wait, inputs, guard, process, &active)?;
    let next = end_and_ready(alloc, problem, forest, &active, &start, wait, process)?;
    put_begun(forest, process, start, next.end, node, next.ready);
    Ok(active)
}

/// Returns from when on the node of a frozen process goes on after it. `active` says where the process is active, and
/// `end` has its ends. The right tree is made only if a later process that isn't frozen waits for the node, since a
/// tree of all that the guard tests can be far wider than the row; otherwise some tree is returned. `TooWide` names the
/// forest's item if a tree on the way has too many leaves.
fn ready_after(
    alloc: Global,
    admitted: &Admitted,
    order: &Order,
    forest: &Forest,
    active: &Tree<bool>,
    end: &Tree<OptionalTime>,
    process: u32,
) -> Result<Ready, BuildFault>
    requires process { process < process_count admitted.now.graph }
    requires order { length order.now ≡ process_count admitted.now.graph }
    requires forest { HasTrees admitted.now.graph forest.now }
    requires active { IsTree admitted.now.graph active.now }
    requires end { IsTree admitted.now.graph end.now }
    ensures of { IfOk result (IsReadyAfter admitted.now.graph process) }
    ensures ready { IfOk result (λ ready.
        IsReadyIfWaited admitted.now.graph order.now forest.now process (tree_of admitted.now.guards process) active.now end.now (goes_on end.now ready)) }
    ensures fault { IfErr result (ShowsLarge forest.now.wide (IsLargeFrozen admitted.now.graph order.now process forest.now (tree_of admitted.now.guards process))) }
{
    let problem = admitted.problem();
    // an always active process has ended before the node goes on, whatever was waited for
    if active.is_true() {
        return Ok(Ready::After(process));
    }
    // no later process reads this tree, so any tree will do
    if !is_waited_for(problem, order, process) {
        let never = Tree::constant(alloc, 0, problem.faults())?;
        return Ok(Ready::At(never));
    }
    let guard = admitted.guards().guard_of(process);
    let node = problem.node_of(process);
    let heard = waiting(alloc, problem, forest, node, guard)?;
    let wait = wait_for(problem, forest, node, &heard);
    let ready = ready(problem, forest, active, end, wait, process)?;
    Ok(ready)
}

/// Adds to the forest the start and the end of a frozen process, and when its node goes on after it, and to `frozen`
/// its frozen time, if it is ever active. Returns the tree of where it is active. `TooWide` names the forest's item if
/// a tree of what it would wait for has too many leaves.
fn begin_frozen(
    alloc: Global,
    admitted: &Admitted,
    plan: &Plan,
    order: &Order,
    frozen: &mut FrozenTimes,
    forest: &mut Forest,
    process: u32,
) -> Result<Tree<bool>, BuildFault>
    requires plan { plan.now ≡ plan_of admitted.now.graph }
    requires process { process < process_count admitted.now.graph }
    requires order { length order.now ≡ process_count admitted.now.graph }
    requires frozen { length frozen.old ≡ item_count admitted.now.graph }
    requires forest { HasTrees admitted.now.graph forest.old }
    ensures trees { IfOk result (λ active. HasTrees admitted.now.graph forest.new) }
    ensures count { IfOk result (λ active. length frozen.new ≡ item_count admitted.now.graph) }
    ensures begun { IfOk result (IsBegunFrozen admitted.now.graph order.now admitted.now.guards process forest.old forest.new frozen.old frozen.new) }
    ensures fault { IfErr result (ShowsLarge forest.old.wide (IsLargeFrozen admitted.now.graph order.now process forest.old (tree_of admitted.now.guards process))) }
{
    let problem = admitted.problem();
    let guards = admitted.guards();
    let node = problem.node_of(process);
    let inputs = plan.inputs(problem, process);
    let active = active(alloc, problem, guards.guard_of(process))?;
    // a frozen process starts at one time: the latest that it would have in any scenario
    let span = span_before(problem, guards, order, node, order.place(process));
    let latest = latest_start(alloc, &span, forest, inputs, &active, process)?;
    let start = freeze(problem, frozen, process, &active, latest)?;
    let end = end(alloc, problem, &start, process)?;
    let ready = ready_after(alloc, admitted, order, forest, &active, &end, process)?;
    put_begun(forest, process, start, end, node, ready);
    Ok(active)
}

/// Adds to the forest the start and the end of a process, and when its node goes on after it, and to `frozen` its
/// frozen time if it is frozen and ever active. Returns the tree of where it is active. `TooWide` names the forest's
/// item if a tree on the way has too many leaves.
fn begin(
    alloc: Global,
    admitted: &Admitted,
    plan: &Plan,
    order: &Order,
    frozen: &mut FrozenTimes,
    forest: &mut Forest,
    process: u32,
) -> Result<Tree<bool>, BuildFault>
    requires plan { plan.now ≡ plan_of admitted.now.graph }
    requires process { process < process_count admitted.now.graph }
    requires order { length order.now ≡ process_count admitted.now.graph }
    requires frozen { length frozen.old ≡ item_count admitted.now.graph }
    requires forest { HasTrees admitted.now.graph forest.old }
    ensures trees { IfOk result (λ active. HasTrees admitted.now.graph forest.new) }
    ensures count { IfOk result (λ active. length frozen.new ≡ item_count admitted.now.graph) }
    ensures begun { IfOk result (IsBegun admitted.now.graph order.now admitted.now.guards process forest.old forest.new frozen.old frozen.new) }
    ensures fault { IfErr result (ShowsLarge forest.old.wide (IsLargeBegun admitted.now.graph order.now admitted.now.guards process forest.old)) }
{
    // a frozen process has one start, any other one start in each scenario
    if admitted.problem().is_frozen(process) {
        let active = begin_frozen(alloc, admitted, plan, order, frozen, forest, process)?;
        return Ok(active);
    }
    let active = begin_thawed(alloc, admitted, plan, forest, process)?;
    Ok(active)
}

/// Adds to the forest the trees of a process and of what it sends, and to `frozen` the frozen times of those of them
/// that are frozen. `TooWide` names the forest's item if a tree on the way to the start and the end has too many
/// leaves.
pub(crate) fn step(
    alloc: Global,
    admitted: &Admitted,
    plan: &Plan,
    order: &Order,
    frozen: &mut FrozenTimes,
    forest: &mut Forest,
    process: u32,
) -> Result<(), BuildFault>
    requires plan { plan.now ≡ plan_of admitted.now.graph }
    requires process { process < process_count admitted.now.graph }
    requires order { length order.now ≡ process_count admitted.now.graph }
    requires frozen { length frozen.old ≡ item_count admitted.now.graph }
    requires forest { HasTrees admitted.now.graph forest.old }
    ensures trees { IfOk result (λ u. HasTrees admitted.now.graph forest.new) }
    ensures count { IfOk result (λ u. length frozen.new ≡ item_count admitted.now.graph) }
    ensures grown { IfOk result (λ u. IsGrownBy admitted.now.graph order.now process frozen.old forest.old frozen.new forest.new) }
    ensures wide { IfOk result (λ u. forest.new.wide ≡ forest.old.wide) }
    ensures fault { IfErr result (ShowsLarge forest.old.wide (IsLargeBegun admitted.now.graph order.now admitted.now.guards process forest.old)) }
{
    let problem = admitted.problem();
    // first the process itself, then what it sends
    let active = begin(alloc, admitted, plan, order, frozen, forest, process)?;
    let course = PlannedCourse {
        problem,
        plan,
        order,
    };
    send(alloc, &course, frozen, forest, &active, process)?;
    Ok(())
}
