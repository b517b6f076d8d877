//! The latest time that a frozen item would have. Each thing that it waits for is looked at alone, since a tree of all
//! of them can be far wider than the item's row.
ghost use Rattle.std.specs.Prelude.{◌≡◌, ◌<◌, ◌≤◌, All, IfOk, length};
ghost use Rattle.cpg_base.specs.Bus.{round, slot_length};
ghost use Rattle.cpg_base.specs.Graph.{condition_count, edge_count, home, item_count, process_at, process_count};
ghost use Rattle.cpg_base.specs.Order.{place};
ghost use Rattle.cpg_expand.specs.Earlier.{AreAlong, IsBothTree};
ghost use Rattle.cpg_tree.specs.GraphTrees.{IsTree};
ghost use Rattle.cpg_expand.specs.Forest.{HasTrees, ends_of, heard_delay, heard_tree, times_of};
ghost use Rattle.cpg_expand.specs.Latest.{HasEnded, HasEndedOf, HasHeard, HasHeardOf, HasInput, HasInputOf, HasLater, HasQueued, HasQueuedOf, IsLatestSend, IsLatestStart, IsRaised, or_later};
ghost use Rattle.cpg_tree_columns.specs.Tops.{IsTop};
ghost use Rattle.cpg_tree_columns.specs.Meeting.{HasWhere};

use crate::earlier::{NodeSpan, asked, stands_between};
use crate::forest::Forest;
use crate::waited::stands_before;
use cpg_base::{Order, OutOfMemory, Problem};
use cpg_bus::Share;
use cpg_tree::{OptionalTime, Tree, time_later};
use cpg_tree_times::slot_at;
use std::alloc::Global;

/// Returns the greatest time that `tree` has in a scenario in which `wanted` is true; `None` exactly if there is none.
fn most_where(problem: &Problem, tree: &Tree<OptionalTime>, wanted: &Tree<bool>) -> Option<u64>
    requires tree { IsTree problem.now tree.now }
    requires wanted { IsTree problem.now wanted.now }
    ensures { IsTop problem.now (HasWhere tree.now wanted.now) result }
{
    // called for its contract: the graph is within its limits
    let _processes = problem.processes();
    cpg_tree_columns::most_where(tree, wanted)
}

/// Returns the greater of `latest` and the time with the delay; `latest` if there is no time.
fn or_later(latest: u64, time: Option<u64>, delay: u64) -> u64
    ensures { result ≡ or_later latest delay time }
{
    match time {
        Some(time) => latest.max(time_later(Some(time), delay)),
        None => latest,
    }
}

/// Returns `latest`, raised to the latest arrival of an item's frame in a scenario in which `wanted` is true; `latest`
/// if there is none.
fn after_frame(
    problem: &Problem,
    forest: &Forest,
    item: u32,
    wanted: &Tree<bool>,
    latest: u64,
) -> u64
    requires forest { HasTrees problem.now forest.now }
    requires item { item < item_count problem.now }
    requires wanted { IsTree problem.now wanted.now }
    // a frame arrives at the end of its slot, so a slot's length after its time
    ensures { IsRaised problem.now (HasLater (times_of problem.now forest.now item) wanted.now
        (slot_length problem.now (home problem.now item))) latest result }
{
    let time = most_where(problem, &forest.times[item as usize], wanted);
    or_later(latest, time, problem.slot_length(problem.home(item)))
}

/// Returns `latest`, raised to the latest end of a process in a scenario in which `wanted` is true; `latest` if there
/// is none.
fn after_end(
    problem: &Problem,
    forest: &Forest,
    process: u32,
    wanted: &Tree<bool>,
    latest: u64,
) -> u64
    requires forest { HasTrees problem.now forest.now }
    requires process { process < process_count problem.now }
    requires wanted { IsTree problem.now wanted.now }
    ensures { IsRaised problem.now (HasLater (ends_of problem.now forest.now process) wanted.now 0) latest result }
{
    let time = most_where(problem, &forest.ends[process as usize], wanted);
    or_later(latest, time, 0)
}

/// Returns `latest`, raised to the latest time at which a node hears a condition in a scenario in which `wanted` is
/// true; `latest` if there is none.
fn after_condition(
    problem: &Problem,
    forest: &Forest,
    node: u32,
    condition: u32,
    wanted: &Tree<bool>,
    latest: u64,
) -> u64
    requires forest { HasTrees problem.now forest.now }
    requires condition { condition < condition_count problem.now }
    requires wanted { IsTree problem.now wanted.now }
    ensures { IsRaised problem.now (HasLater (heard_tree problem.now forest.now node condition) wanted.now
        (heard_delay problem.now node condition)) latest result }
{
    // an own condition is heard when its process ends, any other at the end of its broadcast
    let process = problem.process_of(condition);
    if problem.node_of(process) == node {
        return after_end(problem, forest, process, wanted, latest);
    }
    after_frame(
        problem,
        forest,
        problem.broadcast_item(condition),
        wanted,
        latest,
    )
}

/// Returns `latest`, raised to the latest end of process `other` where `active` is true. If `other` isn't in the span
/// or not before `to`, `latest` stays.
fn after_one(
    span: &NodeSpan<'_>,
    forest: &Forest,
    active: &Tree<bool>,
    to: u32,
    other: u32,
    latest: u64,
) -> u64
    requires along { AreAlong span.now.problem.now span.now.guards.now span.now.order.now }
    requires forest { HasTrees span.now.problem.now forest.now }
    requires active { IsTree span.now.problem.now active.now }
    requires other { other < process_count span.now.problem.now }
    ensures { IsRaised span.now.problem.now
        (HasEnded span.now.problem.now span.now.order.now forest.now active.now span.now.node span.now.from to other) latest result }
{
    // this process isn't in the span or not before `to`, so it isn't waited for
    if !stands_between(span, span.from, to, other) {
        return latest;
    }
    after_end(span.problem, forest, other, active, latest)
}

/// Returns `floor`, raised to the latest end, where `active` is true, of any process in the span and before `to`.
fn after_ends(span: &NodeSpan<'_>, forest: &Forest, active: &Tree<bool>, to: u32, floor: u64) -> u64
    requires along { AreAlong span.now.problem.now span.now.guards.now span.now.order.now }
    requires forest { HasTrees span.now.problem.now forest.now }
    requires active { IsTree span.now.problem.now active.now }
    ensures { IsRaised span.now.problem.now
        (HasEndedOf span.now.problem.now span.now.order.now forest.now active.now span.now.node span.now.from to
        (process_count span.now.problem.now)) floor result }
{
    let mut latest = floor;
    for other in 0..span.problem.processes().len() as u32 {
        latest = after_one(span, forest, active, to, other, latest);
    }
    latest
}

/// Returns a tree that is true where the trees `one` and `other` both are, and false elsewhere.
fn both(
    alloc: Global,
    problem: &Problem,
    one: &Tree<bool>,
    other: &Tree<bool>,
) -> Result<Tree<bool>, OutOfMemory>
    requires one { IsTree problem.now one.now }
    requires other { IsTree problem.now other.now }
    ensures tree { IfOk result (IsTree problem.now) }
    ensures both { IfOk result (IsBothTree problem.now.faults one.now other.now) }
{
    let never = Tree::constant(alloc, false, problem.faults())?;
    let both = Tree::pick(one, other, &never)?;
    Ok(both)
}

/// Returns `latest`, raised to the latest time at which the span's node hears the condition, where `active` is true
/// and the guard of some process in the span and before `to` tests it.
fn after_asked(
    alloc: Global,
    span: &NodeSpan<'_>,
    forest: &Forest,
    active: &Tree<bool>,
    to: u32,
    condition: u32,
    latest: u64,
) -> Result<u64, OutOfMemory>
    requires along { AreAlong span.now.problem.now span.now.guards.now span.now.order.now }
    requires forest { HasTrees span.now.problem.now forest.now }
    requires active { IsTree span.now.problem.now active.now }
    requires condition { condition < condition_count span.now.problem.now }
    ensures { IfOk result (IsRaised span.now.problem.now
        (HasHeard span.now.problem.now span.now.order.now span.now.guards.now forest.now active.now span.now.node span.now.from to condition) latest) }
{
    let problem = span.problem;
    // where `active` is true it is never heard later than `latest`, so it doesn't matter which guards test it
    if after_condition(problem, forest, span.node, condition, active, latest) == latest {
        return Ok(latest);
    }
    let asked = asked(alloc, span, to, condition)?;
    let wanted = both(alloc, problem, &asked, active)?;
    let heard = after_condition(problem, forest, span.node, condition, &wanted, latest);
    Ok(heard)
}

/// Returns `floor`, raised to the latest time at which the span's node hears any condition where `active` is true and
/// the guard of some process in the span and before `to` tests it.
fn after_hearing(
    alloc: Global,
    span: &NodeSpan<'_>,
    forest: &Forest,
    active: &Tree<bool>,
    to: u32,
    floor: u64,
) -> Result<u64, OutOfMemory>
    requires along { AreAlong span.now.problem.now span.now.guards.now span.now.order.now }
    requires forest { HasTrees span.now.problem.now forest.now }
    requires active { IsTree span.now.problem.now active.now }
    ensures { IfOk result (IsRaised span.now.problem.now
        (HasHeardOf span.now.problem.now span.now.order.now span.now.guards.now forest.now active.now span.now.node span.now.from to
        (condition_count span.now.problem.now)) floor) }
{
    let mut latest = floor;
    for condition in 0..span.problem.conditions() {
        latest = after_asked(alloc, span, forest, active, to, condition, latest)?;
    }
    Ok(latest)
}

/// Returns `latest`, raised to the latest arrival of an input where `active` is true. If the input comes from the node
/// itself, `latest` stays.
fn after_input(
    problem: &Problem,
    forest: &Forest,
    active: &Tree<bool>,
    edge: u32,
    latest: u64,
) -> u64
    requires forest { HasTrees problem.now forest.now }
    requires active { IsTree problem.now active.now }
    requires edge { edge < edge_count problem.now }
    ensures { IsRaised problem.now (HasInput problem.now forest.now active.now edge) latest result }
{
    // an input from the node itself is there once the node is ready
    if !problem.is_message(edge) {
        return latest;
    }
    after_frame(problem, forest, problem.message_item(edge), active, latest)
}

/// Returns `floor`, raised to the latest arrival, where `active` is true, of any of these inputs that comes from
/// another node.
fn after_inputs(
    problem: &Problem,
    forest: &Forest,
    active: &Tree<bool>,
    edges: &[u32],
    floor: u64,
) -> u64
    requires forest { HasTrees problem.now forest.now }
    requires active { IsTree problem.now active.now }
    requires edges { All (λ e. e < edge_count problem.now) edges.now }
    ensures { IsRaised problem.now (HasInputOf problem.now forest.now active.now edges.now) floor result }
{
    let mut latest = floor;
    for edge in edges {
        latest = after_input(problem, forest, active, *edge, latest);
    }
    latest
}

/// Returns the latest start of a process in any scenario. It waits for its release, for the inputs `edges`, and for the
/// processes in the span before it to end; and its node must have heard what the guards of these and its own test.
/// `active` says where the process is active. `None` exactly if it is never active.
pub fn latest_start(
    alloc: Global,
    span: &NodeSpan<'_>,
    forest: &Forest,
    edges: &[u32],
    active: &Tree<bool>,
    process: u32,
) -> Result<Option<u64>, OutOfMemory>
    requires along { AreAlong span.now.problem.now span.now.guards.now span.now.order.now }
    requires forest { HasTrees span.now.problem.now forest.now }
    requires edges { All (λ e. e < edge_count span.now.problem.now) edges.now }
    requires active { IsTree span.now.problem.now active.now }
    requires process { process < process_count span.now.problem.now }
    ensures { IfOk result (IsLatestStart span.now.problem.now span.now.order.now span.now.guards.now forest.now span.now.node span.now.from
        (place span.now.order.now process) (process_at span.now.problem.now process).release edges.now active.now) }
{
    let problem = span.problem;
    let at = span.order.place(process);
    let ready = Tree::constant(
        alloc,
        OptionalTime::of(Some(problem.release(process))),
        problem.faults(),
    )?;
    // the release has a time everywhere, so without one here the process is never active
    let Some(released) = most_where(problem, &ready, active) else {
        return Ok(None);
    };
    // each step may raise the latest start; `at + 1` also takes in the guard of the process itself
    let ended = after_ends(span, forest, active, at, released);
    let heard = after_hearing(alloc, span, forest, active, at + 1, ended)?;
    Ok(Some(after_inputs(problem, forest, active, edges, heard)))
}

/// An item that is sent.
#[derive(Clone, Copy)]
pub(crate) struct Sent<'a> {
    /// Its number.
    pub(crate) item: u32,
    /// In which scenarios it goes.
    pub(crate) goes: &'a Tree<bool>,
    /// The length of a round of the bus.
    pub(crate) round: u64,
}

/// Returns `latest`, raised to a round after the latest time of item `other` in a scenario in which `sent` goes. If
/// `other` doesn't stand before `sent` in the queue of its node, `latest` stays.
fn after_queued(
    problem: &Problem,
    order: &Order,
    forest: &Forest,
    sent: &Sent<'_>,
    other: u32,
    latest: u64,
) -> u64
    requires order { length order.now ≡ process_count problem.now }
    requires forest { HasTrees problem.now forest.now }
    requires item { sent.now.item < item_count problem.now }
    requires goes { IsTree problem.now sent.now.goes.now }
    requires round { sent.now.round ≡ round problem.now }
    requires other { other < item_count problem.now }
    ensures { IsRaised problem.now (HasQueued problem.now order.now forest.now sent.now.goes.now sent.now.item other) latest result }
{
    // the other item isn't before this one in a queue, so this one doesn't wait for it
    if !stands_before(problem, order, other, sent.item) {
        return latest;
    }
    let time = most_where(problem, &forest.times[other as usize], sent.goes);
    or_later(latest, time, sent.round)
}

/// Returns `floor`, raised to a round after the latest time of each item that stands before `sent` in the queue of its
/// node, in a scenario in which `sent` goes.
fn after_queue(
    problem: &Problem,
    order: &Order,
    forest: &Forest,
    sent: &Sent<'_>,
    floor: u64,
) -> u64
    requires order { length order.now ≡ process_count problem.now }
    requires forest { HasTrees problem.now forest.now }
    requires item { sent.now.item < item_count problem.now }
    requires goes { IsTree problem.now sent.now.goes.now }
    requires round { sent.now.round ≡ round problem.now }
    ensures { IsRaised problem.now (HasQueuedOf problem.now order.now forest.now sent.now.goes.now sent.now.item (item_count problem.now)) floor result }
{
    let mut latest = floor;
    for other in 0..problem.item_count() {
        latest = after_queued(problem, order, forest, sent, other, latest);
    }
    latest
}

/// Returns the latest time at which the item `sent` would go in any scenario: in the first slot from its producer's
/// latest end on, or a round after an item before it in the queue, whichever is later. `share` says which slots its
/// node has, and `end` has the ends of its producer. `None` exactly if the producer has no end where the item goes.
pub(crate) fn latest_send(
    problem: &Problem,
    order: &Order,
    forest: &Forest,
    share: Share,
    sent: &Sent<'_>,
    end: &Tree<OptionalTime>,
) -> Option<u64>
    requires order { length order.now ≡ process_count problem.now }
    requires forest { HasTrees problem.now forest.now }
    requires item { sent.now.item < item_count problem.now }
    requires goes { IsTree problem.now sent.now.goes.now }
    requires round { sent.now.round ≡ round problem.now }
    requires end { IsTree problem.now end.now }
    ensures { IsLatestSend problem.now order.now forest.now share sent.now.goes.now end.now sent.now.item result }
{
    // where the item goes its producer has ended, so without an end it never goes
    let last = most_where(problem, end, sent.goes)?;
    let slot = slot_at(share, Some(last));
    Some(after_queue(problem, order, forest, sent, slot))
}
