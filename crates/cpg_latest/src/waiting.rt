//! When what a start waits for is there, in a course.
ghost use Rattle.std.specs.Prelude.{◌≡◌, ◌<◌, true, max, ℕ, [], Contains, length, map};
ghost use Rattle.cpg_base.specs.Numbers.{greatest};
ghost use Rattle.cpg_base.specs.Graph.{process_count, edge_count, condition_count, node_of, home, inputs, process_at};
ghost use Rattle.cpg_base.specs.WellFormed.{HasSenderSlots};
ghost use Rattle.cpg_bus.specs.Plan.{plan_of};
ghost use Rattle.cpg_bus.specs.Share.{HasSlot};
ghost use Rattle.cpg_latest.specs.Course.{IsAsked, IsReadyFor};
ghost use Rattle.cpg_latest.specs.Latest.{with_faults};
ghost use Rattle.cpg_order.specs.Deciding.{decides};
ghost use Rattle.cpg_run.specs.Known.{AreSmall};
ghost use Rattle.cpg_run.specs.Most.{IsMost};
ghost use Rattle.cpg_run.specs.Run.{frame_there, input_there, heard_there, input_bounds};
ghost use Rattle.cpg_run.specs.Setting.{IsSetting};

use crate::asking::Asked;
use crate::course::LatestCourse;
use cpg_base::Problem;
use cpg_bus::Plan;
use cpg_run::Setting;

/// Returns when the frame of an item arrives, at the end of its slot. `node` is the node that sends it.
fn frame_there(problem: &Problem, plan: &Plan, course: &LatestCourse, node: u32, item: u32) -> u64
    requires plan { plan.now ≡ plan_of problem.now }
    requires node { node < length problem.now.nodes }
    requires slot { HasSlot problem.now node }
    requires home { home problem.now item ≡ node }
    requires small { AreSmall course.now.known }
    ensures { result ≡ frame_there problem.now course.now.known item }
{
    // the sum doesn't overflow, since known times are below 2^59
    course.time(item) + plan.share(problem, node).length()
}

/// Returns when a live input is there: when its message arrives or, on one node, when its source ends.
fn input_there(problem: &Problem, plan: &Plan, course: &LatestCourse, edge: u32) -> u64
    requires plan { plan.now ≡ plan_of problem.now }
    requires slots { HasSenderSlots problem.now }
    requires edge { edge < edge_count problem.now }
    requires small { AreSmall course.now.known }
    ensures { result ≡ input_there problem.now course.now.known edge }
{
    let sender = problem.source(edge);
    // an input that isn't a message comes from the same node, and is there at once
    if problem.is_message(edge) {
        frame_there(
            problem,
            plan,
            course,
            problem.node_of(sender),
            problem.message_item(edge),
        )
    } else {
        course.end(sender)
    }
}

/// Returns when a node has heard a condition, given that the condition's process is active: when that process ends if it is
/// on the node, and otherwise when the broadcast arrives.
fn heard_there(
    problem: &Problem,
    plan: &Plan,
    course: &LatestCourse,
    node: u32,
    condition: u32,
) -> u64
    requires plan { plan.now ≡ plan_of problem.now }
    requires slots { HasSenderSlots problem.now }
    requires node { node < length problem.now.nodes }
    requires condition { condition < condition_count problem.now }
    requires small { AreSmall course.now.known }
    ensures { result ≡ heard_there problem.now course.now.known node condition }
{
    let process = problem.process_of(condition);
    let sender = problem.node_of(process);
    // a node needs no broadcast of its own conditions
    if sender == node {
        course.end(process)
    } else {
        frame_there(
            problem,
            plan,
            course,
            sender,
            problem.broadcast_item(condition),
        )
    }
}

/// Returns when all of these inputs are there, or 0 if there are none.
fn latest_there(problem: &Problem, plan: &Plan, course: &LatestCourse, edges: &[u32]) -> u64
    requires plan { plan.now ≡ plan_of problem.now }
    requires slots { HasSenderSlots problem.now }
    requires edges { (e : ℕ) → Contains edges.now e → e < edge_count problem.now }
    requires small { AreSmall course.now.known }
    ensures { result ≡ greatest (map (input_there problem.now course.now.known) edges.now) }
{
    let mut latest = 0;
    for edge in edges {
        latest = latest.max(input_there(problem, plan, course, *edge));
    }
    latest
}

/// Returns when a node has heard each of these conditions, or 0 if there are none.
fn latest_heard(
    problem: &Problem,
    plan: &Plan,
    course: &LatestCourse,
    node: u32,
    conditions: &[u32],
) -> u64
    requires plan { plan.now ≡ plan_of problem.now }
    requires slots { HasSenderSlots problem.now }
    requires node { node < length problem.now.nodes }
    requires conditions { (c : ℕ) → Contains conditions.now c → c < condition_count problem.now }
    requires small { AreSmall course.now.known }
    ensures { result ≡ greatest (map (heard_there problem.now course.now.known node) conditions.now) }
{
    let mut latest = 0;
    for condition in conditions {
        latest = latest.max(heard_there(problem, plan, course, node, *condition));
    }
    latest
}

/// Returns when the node of a process has heard each condition that decides the process, or 0 if none does. `asked` is what
/// the course's track says of the process.
fn heard(setting: &Setting<'_>, course: &LatestCourse, asked: &Asked<'_>, process: u32) -> u64
    requires setting { IsSetting setting.now }
    requires process { process < process_count setting.now.problem.now }
    requires asked { IsAsked setting.now.problem.now setting.now.guards.now process asked.now }
    requires small { AreSmall course.now.known }
    ensures { IsMost (λ c. (c < condition_count setting.now.problem.now) ×
        (decides setting.now.problem.now asked.now.scenario.now.values process c ≡ true))
        (heard_there setting.now.problem.now course.now.known (node_of setting.now.problem.now process)) result }
{
    let problem = setting.problem;
    let node = problem.node_of(process);
    latest_heard(
        problem,
        setting.plan,
        course,
        node,
        asked.conditions.as_slice(),
    )
}

/// Returns when the node of a process is ready for it: its active earlier processes have ended, and it has heard each
/// condition that decides this process or an earlier one of the node. `asked` is what the course's track says of the
/// process.
pub(crate) fn ready(
    setting: &Setting<'_>,
    course: &LatestCourse,
    asked: &Asked<'_>,
    process: u32,
) -> u64
    requires setting { IsSetting setting.now }
    requires process { process < process_count setting.now.problem.now }
    requires asked { IsAsked setting.now.problem.now setting.now.guards.now process asked.now }
    requires ready { length course.now.ready ≡ length setting.now.problem.now.nodes }
    requires small { AreSmall course.now.known }
    ensures { IsReadyFor setting.now.problem.now asked.now.scenario.now.values process course.now result }
{
    let was_ready = course.ready(setting.problem.node_of(process));
    was_ready.max(heard(setting, course, asked, process))
}

/// Returns when an active process could start if it were not frozen, given when its node is ready for it: not before its
/// release and its live inputs. `asked` is what the course's track says of the process.
pub(crate) fn unfrozen_start(
    setting: &Setting<'_>,
    course: &LatestCourse,
    asked: &Asked<'_>,
    process: u32,
    ready: u64,
) -> u64
    requires setting { IsSetting setting.now }
    requires process { process < process_count setting.now.problem.now }
    requires asked { IsAsked setting.now.problem.now setting.now.guards.now process asked.now }
    requires small { AreSmall course.now.known }
    ensures { result ≡ max (max ready (process_at setting.now.problem.now process).release)
        (greatest (input_bounds setting.now.problem.now (with_faults asked.now.scenario.now.values []) course.now.known process)) }
{
    let problem = setting.problem;
    let inputs = latest_there(problem, setting.plan, course, asked.inputs.as_slice());
    ready.max(problem.release(process)).max(inputs)
}
