//! When what a start waits for is there.
ghost use Rattle.std.specs.Prelude.{◌≡◌, ◌<◌, IfOk, if◌then◌else◌, true, ℕ, Contains, length, map};
ghost use Rattle.cpg_base.specs.Numbers.{greatest};
ghost use Rattle.cpg_base.specs.Graph.{process_count, edge_count, condition_count, node_of, home};
ghost use Rattle.cpg_base.specs.Activity.{live};
ghost use Rattle.cpg_base.specs.Scenario.{IsScenario};
ghost use Rattle.cpg_base.specs.WellFormed.{HasSenderSlots};
ghost use Rattle.cpg_bus.specs.Share.{HasSlot};
ghost use Rattle.cpg_order.specs.Deciding.{decides};
ghost use Rattle.cpg_run.specs.Run.{frame_there, input_there, heard_there, input_bounds};
ghost use Rattle.cpg_rules.specs.Admitted.{AreAdmitted};
ghost use Rattle.cpg_run.specs.Known.{AreSmall, frozen_in};
ghost use Rattle.cpg_run.specs.Setting.{IsSetting, start_at};
ghost use Rattle.cpg_run.specs.Most.{IsMost};
ghost use Rattle.cpg_bus.specs.Plan.{plan_of};

use crate::activity::{deciding, is_live};
use crate::known::Known;
use crate::{FrozenTimes, Setting};
use cpg_base::{OutOfMemory, Problem, Scenario};
use cpg_bus::Plan;
use cpg_rules::GuardTrees;
use std::alloc::Global;

/// Returns when a frame that a node sends arrives: at the end of its slot.
fn frame_there(problem: &Problem, plan: &Plan, known: &Known, node: u32, item: u32) -> u64
    requires plan { plan.now ≡ plan_of problem.now }
    requires node { node < length problem.now.nodes }
    requires slot { HasSlot problem.now node }
    requires home { home problem.now item ≡ node }
    requires small { AreSmall known.now }
    ensures { result ≡ frame_there problem.now known.now item }
{
    // the sum doesn't overflow, since known times are below 2^59
    known.time(item) + plan.share(problem, node).length()
}

/// Returns when an input is there, given that it is live: when its message arrives or, on one node, when its source ends.
fn input_there(problem: &Problem, plan: &Plan, known: &Known, edge: u32) -> u64
    requires plan { plan.now ≡ plan_of problem.now }
    requires slots { HasSenderSlots problem.now }
    requires edge { edge < edge_count problem.now }
    requires small { AreSmall known.now }
    ensures { result ≡ input_there problem.now known.now edge }
{
    let sender = problem.source(edge);
    // an input that isn't a message comes from the same node, and is there at once
    if problem.is_message(edge) {
        frame_there(
            problem,
            plan,
            known,
            problem.node_of(sender),
            problem.message_item(edge),
        )
    } else {
        known.end(sender)
    }
}

/// Returns when a node has heard a condition, given that the condition's process is active: when that process ends if it is
/// on the node, and otherwise when the broadcast arrives.
fn heard_there(problem: &Problem, plan: &Plan, known: &Known, node: u32, condition: u32) -> u64
    requires plan { plan.now ≡ plan_of problem.now }
    requires slots { HasSenderSlots problem.now }
    requires node { node < length problem.now.nodes }
    requires condition { condition < condition_count problem.now }
    requires small { AreSmall known.now }
    ensures { result ≡ heard_there problem.now known.now node condition }
{
    let process = problem.process_of(condition);
    let sender = problem.node_of(process);
    // a node needs no broadcast of its own conditions
    if sender == node {
        known.end(process)
    } else {
        frame_there(
            problem,
            plan,
            known,
            sender,
            problem.broadcast_item(condition),
        )
    }
}

/// Returns when an input is there, or 0 if it isn't live, since a start doesn't wait for such an input.
fn live_there(
    problem: &Problem,
    guards: &GuardTrees,
    plan: &Plan,
    known: &Known,
    scenario: &Scenario,
    edge: u32,
) -> u64
    requires admitted { AreAdmitted problem.now guards.now }
    requires plan { plan.now ≡ plan_of problem.now }
    requires scenario { IsScenario problem.now scenario.now }
    requires edge { edge < edge_count problem.now }
    requires small { AreSmall known.now }
    ensures { result ≡ (if live problem.now scenario.now.values edge then input_there problem.now known.now edge else 0) }
{
    if is_live(problem, guards, scenario, edge) {
        input_there(problem, plan, known, edge)
    } else {
        0
    }
}

/// Returns when all live inputs among these edges are there, or 0 if none is live.
fn latest_there(
    problem: &Problem,
    guards: &GuardTrees,
    plan: &Plan,
    known: &Known,
    scenario: &Scenario,
    edges: &[u32],
) -> u64
    requires admitted { AreAdmitted problem.now guards.now }
    requires plan { plan.now ≡ plan_of problem.now }
    requires scenario { IsScenario problem.now scenario.now }
    requires edges { (e : ℕ) → Contains edges.now e → e < edge_count problem.now }
    requires small { AreSmall known.now }
    ensures { result ≡ greatest (map (λ e. if live problem.now scenario.now.values e then input_there problem.now known.now e else 0) edges.now) }
{
    let mut latest = 0;
    for edge in edges {
        latest = latest.max(live_there(problem, guards, plan, known, scenario, *edge));
    }
    latest
}

/// Returns when all live inputs of a process are there, or 0 if it has none.
fn inputs_there(
    problem: &Problem,
    guards: &GuardTrees,
    plan: &Plan,
    known: &Known,
    scenario: &Scenario,
    process: u32,
) -> u64
    requires admitted { AreAdmitted problem.now guards.now }
    requires plan { plan.now ≡ plan_of problem.now }
    requires scenario { IsScenario problem.now scenario.now }
    requires process { process < process_count problem.now }
    requires small { AreSmall known.now }
    ensures { result ≡ greatest (input_bounds problem.now scenario.now known.now process) }
{
    latest_there(
        problem,
        guards,
        plan,
        known,
        scenario,
        plan.inputs(problem, process),
    )
}

/// Returns when a node has heard each of these conditions, or 0 if there are none.
fn latest_heard(problem: &Problem, plan: &Plan, known: &Known, node: u32, conditions: &[u32]) -> u64
    requires plan { plan.now ≡ plan_of problem.now }
    requires slots { HasSenderSlots problem.now }
    requires node { node < length problem.now.nodes }
    requires conditions { (c : ℕ) → Contains conditions.now c → c < condition_count problem.now }
    requires small { AreSmall known.now }
    ensures { result ≡ greatest (map (heard_there problem.now known.now node) conditions.now) }
{
    let mut latest = 0;
    for condition in conditions {
        latest = latest.max(heard_there(problem, plan, known, node, *condition));
    }
    latest
}

/// Returns when the node of a process has heard each condition that decides the process in a scenario, or 0 if none does.
pub(crate) fn decided_there(
    alloc: Global,
    problem: &Problem,
    guards: &GuardTrees,
    plan: &Plan,
    known: &Known,
    scenario: &Scenario,
    process: u32,
) -> Result<u64, OutOfMemory>
    requires admitted { AreAdmitted problem.now guards.now }
    requires plan { plan.now ≡ plan_of problem.now }
    requires scenario { IsScenario problem.now scenario.now }
    requires process { process < process_count problem.now }
    requires small { AreSmall known.now }
    // the greatest time at which the node hears a condition that decides the process, or 0 if none does
    ensures { IfOk result (IsMost (λ c. (c < condition_count problem.now) ×
        (decides problem.now scenario.now.values process c ≡ true)) (heard_there problem.now known.now (node_of problem.now process))) }
{
    // the conditions on the scenario's way through the guard of the process
    let conditions = deciding(alloc, problem, guards, scenario, process)?;
    let heard = latest_heard(
        problem,
        plan,
        known,
        problem.node_of(process),
        conditions.as_slice(),
    );
    Ok(heard)
}

/// Returns the frozen time of an item, or 0 if none is set.
pub(crate) fn frozen_time(frozen: &FrozenTimes, item: u32) -> u64
    requires { item < length frozen.now }
    ensures { result ≡ frozen_in frozen.now item }
{
    frozen.time_of(item).unwrap_or(0)
}

/// Returns when an active process starts, given the time `ready` at which its node is ready for it: at the latest of that, its
/// release, the arrival of its live inputs and its frozen time.
pub(crate) fn start(
    setting: &Setting<'_>,
    frozen: &FrozenTimes,
    known: &Known,
    scenario: &Scenario,
    process: u32,
    ready: u64,
) -> u64
    requires setting { IsSetting setting.now }
    requires frozen { process < length frozen.now }
    requires scenario { IsScenario setting.now.problem.now scenario.now }
    requires process { process < process_count setting.now.problem.now }
    requires small { AreSmall known.now }
    ensures { result ≡ start_at setting.now.problem.now scenario.now known.now frozen.now process ready }
{
    let (problem, plan) = (setting.problem, setting.plan);
    let inputs = inputs_there(problem, setting.guards, plan, known, scenario, process);
    let released = ready.max(problem.release(process));
    released.max(inputs).max(frozen_time(frozen, process))
}
