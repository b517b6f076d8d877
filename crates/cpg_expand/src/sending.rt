//! What a process sends: in which scenarios, when, and when the slots of its node are free after that.
ghost use Rattle.std.specs.Prelude.{◌≡◌, ◌<◌, ◌≤◌, IfOk, IfSome, length, slice_set, true};
ghost use Rattle.cpg_base.specs.Bus.{round};
ghost use Rattle.cpg_base.specs.Order.{place};
ghost use Rattle.cpg_base.specs.WellFormed.{HasSenderSlots};
ghost use Rattle.cpg_expand.specs.Waited.{IsQueuedFor};
ghost use Rattle.cpg_bus.specs.Share.{share_of};
ghost use Rattle.cpg_expand.specs.Waiting.{free_of};
ghost use Rattle.cpg_base.specs.Graph.{condition_count, edge_count, home, is_sent, item_count, process_count, producer, source};
ghost use Rattle.cpg_bus.specs.Plan.{plan_of, queue_of};
ghost use Rattle.cpg_tree.specs.GraphTrees.{IsTree};
ghost use Rattle.cpg_expand.specs.Forest.{HasTrees, ends_of};
ghost use Rattle.cpg_expand.specs.Latest.{IsLatestSend};
ghost use Rattle.cpg_expand.specs.Sent.{AreItemsAdded, IsItemAdded, IsSentFor};
ghost use Rattle.cpg_expand.specs.Sending.{IsFreeTree, IsGoesTree, IsLiveTree, IsSentTree, IsTestedTree, asked};

use crate::forest::{Forest, never};
use crate::latest::{Sent, latest_send};
use crate::starting::freeze;
use crate::waited::is_queued_for;
use cpg_base::{Item, Order, OutOfMemory, Problem};
use cpg_bus::{Plan, Share};
use cpg_run::FrozenTimes;
use cpg_tree::{OptionalTime, Tree, value};
use cpg_tree_times::{later, pick_later, same_as, slots};
use std::alloc::Global;

/// Returns a tree that is true where `active` is and the condition has the value `wanted`, and false elsewhere.
fn tested(
    alloc: Global,
    problem: &Problem,
    active: &Tree<bool>,
    condition: u32,
    wanted: bool,
) -> Result<Tree<bool>, OutOfMemory>
    requires few { condition_count problem.now ≤ 32 }
    requires condition { condition < condition_count problem.now }
    requires active { IsTree problem.now active.now }
    ensures tree { IfOk result (IsTree problem.now) }
    ensures tested { IfOk result (IsTestedTree problem.now.faults condition wanted active.now) }
{
    let never = Tree::constant(alloc, false, problem.faults())?;
    let value = value(alloc, condition, problem.faults())?;
    let alike = same_as(&value, wanted)?;
    let both = Tree::pick(active, &alike, &never)?;
    Ok(both)
}

/// Returns the condition that an edge asks for, with the value that it wants; `None` if the edge is live wherever its
/// source is active.
fn asked(problem: &Problem, edge: u32) -> Option<(u32, bool)>
    requires { edge < edge_count problem.now }
    ensures asked { result ≡ asked problem.now edge }
    ensures condition { IfSome result (λ question. question.0 < condition_count problem.now) }
    ensures within { source problem.now edge < process_count problem.now }
{
    let source = problem.source(edge);
    match problem.edges()[edge as usize].when {
        Some(wanted) => match problem.condition_of(source) {
            // the edge asks for a value of its source's condition
            Some(condition) => Some((condition, wanted)),
            // its source has no condition, so the edge is live wherever the source is active
            None => None,
        },
        // the edge asks for no value
        None => None,
    }
}

/// Returns a tree that is true where an edge is live, and false elsewhere. `active` says where its source is active.
fn live(
    alloc: Global,
    problem: &Problem,
    active: &Tree<bool>,
    edge: u32,
) -> Result<Tree<bool>, OutOfMemory>
    requires edge { edge < edge_count problem.now }
    requires few { condition_count problem.now ≤ 32 }
    requires active { IsTree problem.now active.now }
    ensures tree { IfOk result (IsTree problem.now) }
    ensures live { IfOk result (IsLiveTree problem.now edge active.now) }
{
    match asked(problem, edge) {
        // the edge is live where the source is active and the condition has the value
        Some(question) => {
            let tested = tested(alloc, problem, active, question.0, question.1)?;
            Ok(tested)
        }
        // the edge is live exactly where its source is active
        None => {
            let same = same_as(active, true)?;
            Ok(same)
        }
    }
}

/// Returns a tree that is true where an item is sent, and false elsewhere. `active` says where its producer is active.
pub(crate) fn goes(
    alloc: Global,
    problem: &Problem,
    active: &Tree<bool>,
    item: u32,
) -> Result<Tree<bool>, OutOfMemory>
    requires item { item < item_count problem.now }
    requires sent { is_sent problem.now item ≡ true }
    requires few { condition_count problem.now ≤ 32 }
    requires active { IsTree problem.now active.now }
    ensures tree { IfOk result (IsTree problem.now) }
    ensures goes { IfOk result (IsGoesTree problem.now item active.now) }
{
    match problem.item(item) {
        // a message goes where its edge is live
        Item::Message(edge) => {
            let live = live(alloc, problem, active, edge)?;
            Ok(live)
        }
        // a broadcast goes wherever its producer is active
        _ => {
            let same = same_as(active, true)?;
            Ok(same)
        }
    }
}

/// Returns a tree with the times of an item: the first free slot at `end` or later where `goes` is true, and no time
/// elsewhere. `share` says which slots its node has, `end` when its producer ends, and `free` from when on slots are
/// free.
fn unfrozen_sent(
    alloc: Global,
    problem: &Problem,
    share: Share,
    goes: &Tree<bool>,
    end: &Tree<OptionalTime>,
    free: &Tree<u64>,
) -> Result<Tree<OptionalTime>, OutOfMemory>
    requires goes { IsTree problem.now goes.now }
    requires end { IsTree problem.now end.now }
    requires free { IsTree problem.now free.now }
    ensures tree { IfOk result (IsTree problem.now) }
    ensures sent { IfOk result (IsSentTree problem.now.faults share goes.now end.now free.now) }
{
    let slots = slots(share, end, free)?;
    // the item goes in each scenario, so what was free before doesn't matter
    if goes.is_true() {
        return Ok(slots);
    }
    let never = never(alloc, problem)?;
    let sent = Tree::pick(goes, &slots, &never)?;
    Ok(sent)
}

/// Returns from when on the slots are free after an item: `round` after its time in `sent` where `goes` is true, and as
/// `free` says elsewhere. That holds only if some item that isn't frozen waits for it; otherwise any tree is returned,
/// since the right one can be far wider than a frozen item's row.
fn freed(
    problem: &Problem,
    order: &Order,
    round: u64,
    goes: &Tree<bool>,
    sent: &Tree<OptionalTime>,
    free: &Tree<u64>,
    item: u32,
) -> Result<Tree<u64>, OutOfMemory>
    requires order { length order.now ≡ process_count problem.now }
    requires goes { IsTree problem.now goes.now }
    requires sent { IsTree problem.now sent.now }
    requires free { IsTree problem.now free.now }
    requires item { item < item_count problem.now }
    ensures tree { IfOk result (IsTree problem.now) }
    ensures free { IfOk result (λ t.
        IsQueuedFor problem.now order.now (place order.now (producer problem.now item)) (home problem.now item) →
        IsFreeTree problem.now.faults round goes.now sent.now free.now t) }
{
    // the item goes in each scenario
    if goes.is_true() {
        let after = later(sent, round)?;
        return Ok(after);
    }
    // nothing reads the tree, so any tree is right, and this one has no fork on what was free before
    if !is_queued_for(problem, order, item) {
        let after = later(sent, round)?;
        return Ok(after);
    }
    // where the item goes, a round after it; elsewhere as before
    let freed = pick_later(goes, sent, round, free)?;
    Ok(freed)
}

/// Returns a tree with the times of an item that isn't frozen: the first free slot of its node at its producer's end or
/// later where `goes` is true, and no time elsewhere.
fn unfrozen_times_of(
    alloc: Global,
    problem: &Problem,
    plan: &Plan,
    forest: &Forest,
    goes: &Tree<bool>,
    item: u32,
) -> Result<Tree<OptionalTime>, OutOfMemory>
    requires plan { plan.now ≡ plan_of problem.now }
    requires slots { HasSenderSlots problem.now }
    requires item { item < item_count problem.now }
    requires sent { is_sent problem.now item ≡ true }
    requires forest { HasTrees problem.now forest.now }
    requires goes { IsTree problem.now goes.now }
    ensures tree { IfOk result (IsTree problem.now) }
    ensures slots { IfOk result (IsSentTree problem.now.faults (share_of problem.now (home problem.now item)) goes.now
        (ends_of problem.now forest.now (producer problem.now item)) (free_of problem.now forest.now (home problem.now item))) }
{
    let node = problem.home(item);
    let end = &forest.ends[problem.producer(item) as usize];
    let free = &forest.free[node as usize];
    let share = plan.share(problem, node);
    let sent = unfrozen_sent(alloc, problem, share, goes, end, free)?;
    Ok(sent)
}

/// Returns from when on the slots of an item's node are free after it, if some item that isn't frozen waits for that;
/// otherwise any tree. `goes` says where the item goes, and `sent` has its times.
fn free_then(
    problem: &Problem,
    plan: &Plan,
    order: &Order,
    forest: &Forest,
    goes: &Tree<bool>,
    sent: &Tree<OptionalTime>,
    item: u32,
) -> Result<Tree<u64>, OutOfMemory>
    requires plan { plan.now ≡ plan_of problem.now }
    requires order { length order.now ≡ process_count problem.now }
    requires item { item < item_count problem.now }
    requires forest { HasTrees problem.now forest.now }
    requires goes { IsTree problem.now goes.now }
    requires sent { IsTree problem.now sent.now }
    ensures tree { IfOk result (IsTree problem.now) }
    ensures free { IfOk result (λ t.
        IsQueuedFor problem.now order.now (place order.now (producer problem.now item)) (home problem.now item) →
        IsFreeTree problem.now.faults (round problem.now) goes.now sent.now (free_of problem.now forest.now (home problem.now item)) t) }
{
    let free = &forest.free[problem.home(item) as usize];
    let freed = freed(problem, order, plan.round(problem), goes, sent, free, item)?;
    Ok(freed)
}

/// Puts into the forest the times of an item, and `free`, from when on the slots of its node are free.
fn put(forest: &mut Forest, item: u32, times: Tree<OptionalTime>, node: u32, free: Tree<u64>)
    requires item { item < length forest.old.times }
    requires node { node < length forest.old.free }
    ensures { forest.new ≡ record {
      times = slice_set forest.old.times item times;
      ends = forest.old.ends;
      ready = forest.old.ready;
      free = slice_set forest.old.free node free;
      wide = forest.old.wide;
    } }
{
    forest.times[item as usize] = times;
    forest.free[node as usize] = free;
}

/// A graph, its plan of inputs, queues and slots, and an order of its processes.
#[derive(Clone, Copy)]
pub struct PlannedCourse<'a> {
    /// The graph.
    pub problem: &'a Problem,
    /// The plan of the graph.
    pub plan: &'a Plan,
    /// The order of the processes.
    pub order: &'a Order,
}

/// Returns the latest time at which a frozen item would be sent if it weren't frozen. `goes` says where it goes; `None`
/// exactly if its producer has no end there.
fn latest_of(
    course: &PlannedCourse<'_>,
    forest: &Forest,
    goes: &Tree<bool>,
    item: u32,
) -> Option<u64>
    requires plan { course.now.plan.now ≡ plan_of course.now.problem.now }
    requires order { length course.now.order.now ≡ process_count course.now.problem.now }
    requires slots { HasSenderSlots course.now.problem.now }
    requires item { item < item_count course.now.problem.now }
    requires sent { is_sent course.now.problem.now item ≡ true }
    requires forest { HasTrees course.now.problem.now forest.now }
    requires goes { IsTree course.now.problem.now goes.now }
    ensures { IsLatestSend course.now.problem.now course.now.order.now forest.now (share_of course.now.problem.now
        (home course.now.problem.now item)) goes.now (ends_of course.now.problem.now forest.now (producer course.now.problem.now item)) item result }
{
    let problem = course.problem;
    let plan = course.plan;
    let end = &forest.ends[problem.producer(item) as usize];
    let share = plan.share(problem, problem.home(item));
    let sent = Sent {
        item,
        goes,
        round: plan.round(problem),
    };
    latest_send(problem, course.order, forest, share, &sent, end)
}

/// Returns the times of an item where it goes, which `goes` says, and no time elsewhere. If it is frozen, they are one
/// time, the latest that it would have, which is set in `frozen`; if it never goes, no time is set.
fn sent_of(
    alloc: Global,
    course: &PlannedCourse<'_>,
    frozen: &mut FrozenTimes,
    forest: &Forest,
    goes: &Tree<bool>,
    item: u32,
) -> Result<Tree<OptionalTime>, OutOfMemory>
    requires plan { course.now.plan.now ≡ plan_of course.now.problem.now }
    requires order { length course.now.order.now ≡ process_count course.now.problem.now }
    requires slots { HasSenderSlots course.now.problem.now }
    requires item { item < item_count course.now.problem.now }
    requires sent { is_sent course.now.problem.now item ≡ true }
    requires frozen { length frozen.old ≡ item_count course.now.problem.now }
    requires forest { HasTrees course.now.problem.now forest.now }
    requires goes { IsTree course.now.problem.now goes.now }
    ensures tree { IfOk result (IsTree course.now.problem.now) }
    ensures sent { IfOk result (IsSentFor course.now.problem.now course.now.order.now goes.now item forest.now frozen.old frozen.new) }
{
    let problem = course.problem;
    // a frozen item is sent at one time, the latest that it would have
    if problem.is_frozen(item) {
        let latest = latest_of(course, forest, goes, item);
        let sent = freeze(problem, frozen, item, goes, latest)?;
        return Ok(sent);
    }
    let sent = unfrozen_times_of(alloc, problem, course.plan, forest, goes, item)?;
    Ok(sent)
}

/// Adds an item that a process sends: to the forest its times, and from when on the slots of its node are free after
/// it, and to `frozen` its frozen time if it is frozen and ever goes. `active` says where the process is active.
fn add(
    alloc: Global,
    course: &PlannedCourse<'_>,
    frozen: &mut FrozenTimes,
    forest: &mut Forest,
    active: &Tree<bool>,
    item: u32,
) -> Result<(), OutOfMemory>
    requires plan { course.now.plan.now ≡ plan_of course.now.problem.now }
    requires order { length course.now.order.now ≡ process_count course.now.problem.now }
    requires few { condition_count course.now.problem.now ≤ 32 }
    requires slots { HasSenderSlots course.now.problem.now }
    requires item { item < item_count course.now.problem.now }
    requires sent { is_sent course.now.problem.now item ≡ true }
    requires frozen { length frozen.old ≡ item_count course.now.problem.now }
    requires forest { HasTrees course.now.problem.now forest.old }
    requires active { IsTree course.now.problem.now active.now }
    ensures trees { IfOk result (λ u. HasTrees course.now.problem.now forest.new) }
    ensures count { IfOk result (λ u. length frozen.new ≡ item_count course.now.problem.now) }
    ensures added { IfOk result (λ u. IsItemAdded course.now.problem.now course.now.order.now active.now item forest.old forest.new frozen.old frozen.new) }
{
    let problem = course.problem;
    // where the item goes, when it is sent, and when slots are free behind it
    let goes = goes(alloc, problem, active, item)?;
    let sent = sent_of(alloc, course, frozen, forest, &goes, item)?;
    let free = free_then(
        problem,
        course.plan,
        course.order,
        forest,
        &goes,
        &sent,
        item,
    )?;
    put(forest, item, sent, problem.home(item), free);
    Ok(())
}

/// Adds the items that a process sends, in the order of its queue: to the forest their times, and from when on the
/// slots of its node are free after them, and to `frozen` the frozen times. `active` says where the process is active.
pub fn send(
    alloc: Global,
    course: &PlannedCourse<'_>,
    frozen: &mut FrozenTimes,
    forest: &mut Forest,
    active: &Tree<bool>,
    process: u32,
) -> Result<(), OutOfMemory>
    requires plan { course.now.plan.now ≡ plan_of course.now.problem.now }
    requires order { length course.now.order.now ≡ process_count course.now.problem.now }
    requires few { condition_count course.now.problem.now ≤ 32 }
    requires slots { HasSenderSlots course.now.problem.now }
    requires process { process < process_count course.now.problem.now }
    requires frozen { length frozen.old ≡ item_count course.now.problem.now }
    requires forest { HasTrees course.now.problem.now forest.old }
    requires active { IsTree course.now.problem.now active.now }
    ensures trees { IfOk result (λ u. HasTrees course.now.problem.now forest.new) }
    ensures count { IfOk result (λ u. length frozen.new ≡ item_count course.now.problem.now) }
    ensures added { IfOk result (λ u.
        AreItemsAdded course.now.problem.now course.now.order.now active.now (queue_of course.now.problem.now process)
        forest.old forest.new frozen.old frozen.new) }
{
    for item in course.plan.queue(course.problem, process) {
        add(alloc, course, frozen, forest, active, *item)?;
    }
    Ok(())
}
