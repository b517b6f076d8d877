//! What the guards of a graph say of a process in a track.
ghost use Rattle.std.specs.Prelude.{◌≡◌, ◌<◌, ℕ, List, Contains, IfOk, true, filter, length};
ghost use Rattle.cpg_base.specs.Activity.{active, live, item_active};
ghost use Rattle.cpg_base.specs.Graph.{condition_count, edge_count, inputs, item_at, process_count};
ghost use Rattle.cpg_bus.specs.Plan.{queue_of};
ghost use Rattle.cpg_latest.specs.Course.{AreAsked, HaveValues, IsAsked, outcomes_asked, outcomes_of};
ghost use Rattle.cpg_order.specs.Guard.{deciding_along};
ghost use Rattle.cpg_rules.specs.Admission.{IsAdmitted};
ghost use Rattle.cpg_rules.specs.Admitted.{AreAdmitted};
ghost use Rattle.cpg_run.specs.Setting.{IsSetting};

use cpg_base::{OutOfMemory, Problem, Scenario};
use cpg_rules::GuardTrees;
use cpg_run::Setting;
use smallvec::SmallVec;
use std::alloc::Global;

/// How many live inputs of a process are kept without an allocation. Few processes have more.
const INPUTS_IN_PLACE: usize = 4;

/// What the outcome of a track says of a process. It is found once for all courses of the track.
#[derive(Drop)]
pub(crate) struct Asked<'a> {
    /// The outcome of the track, without faults.
    pub(crate) scenario: &'a Scenario,
    /// Whether the process is active.
    pub(crate) acts: bool,
    /// The conditions that decide it, in the urgency order of their processes.
    pub(crate) conditions: Vec<u32>,
    /// The live edges that lead to it.
    pub(crate) inputs: SmallVec<u32, INPUTS_IN_PLACE>,
}

/// Whether a process is active in the outcome of a scenario. Only the contract names `problem`, whose guards these are.
fn is_active(problem: &Problem, guards: &GuardTrees, scenario: &Scenario, process: u32) -> bool
    requires admitted { AreAdmitted problem.now guards.now }
    requires values { length scenario.now.values ≡ condition_count problem.now }
    requires process { process < process_count problem.now }
    ensures { result ≡ active problem.now scenario.now.values process }
{
    let active = guards.active(process, scenario);
    active
}

/// Whether an edge is live in the outcome of a scenario. Only the contract names `problem`, whose guards these are.
fn is_live(problem: &Problem, guards: &GuardTrees, scenario: &Scenario, edge: u32) -> bool
    requires admitted { AreAdmitted problem.now guards.now }
    requires values { length scenario.now.values ≡ condition_count problem.now }
    requires edge { edge < edge_count problem.now }
    ensures { result ≡ live problem.now scenario.now.values edge }
{
    let live = guards.live(edge, scenario);
    live
}

/// Returns the conditions that decide a process in the outcome of a scenario, in the urgency order of their processes. Only
/// the contract names `problem`, whose guards these are.
fn deciding(
    alloc: Global,
    problem: &Problem,
    guards: &GuardTrees,
    scenario: &Scenario,
    process: u32,
) -> Result<Vec<u32>, OutOfMemory>
    requires admitted { AreAdmitted problem.now guards.now }
    requires values { length scenario.now.values ≡ condition_count problem.now }
    requires process { process < process_count problem.now }
    ensures { IfOk result (λ conditions. (urgency : List ℕ) → IsAdmitted problem.now urgency guards.now →
        conditions.items ≡ deciding_along problem.now urgency scenario.now.values process) }
{
    let conditions = guards.deciding(alloc, process, scenario)?;
    Ok(conditions)
}

/// Whether an item in the queue of a process that is active in the outcome of a scenario is active too: a broadcast always
/// is, and a message is if its edge is live. `guards` are those of the graph. Only the contract names `process`.
pub(crate) fn is_item_active(
    problem: &Problem,
    guards: &GuardTrees,
    scenario: &Scenario,
    process: u32,
    item: u32,
) -> bool
    requires admitted { AreAdmitted problem.now guards.now }
    requires values { length scenario.now.values ≡ condition_count problem.now }
    requires process { process < process_count problem.now }
    requires active { active problem.now scenario.now.values process ≡ true }
    requires item { Contains (queue_of problem.now process) item }
    ensures { result ≡ item_active problem.now scenario.now.values (item_at problem.now item) }
{
    let processes = problem.processes().len() as u32;
    // items are numbered in the order starts, messages, broadcasts, so these are the broadcasts
    if item >= processes + problem.edges().len() as u32 {
        return true;
    }
    // what is sent and no broadcast is a message, whose number is that of its edge after the starts
    is_live(problem, guards, scenario, item - processes)
}

/// Returns the edges to a process that are live in the outcome of a scenario.
fn live_inputs(
    alloc: Global,
    setting: &Setting<'_>,
    scenario: &Scenario,
    process: u32,
) -> Result<SmallVec<u32, INPUTS_IN_PLACE>, OutOfMemory>
    requires setting { IsSetting setting.now }
    requires values { length scenario.now.values ≡ condition_count setting.now.problem.now }
    requires process { process < process_count setting.now.problem.now }
    ensures { IfOk result (λ edges. edges.items ≡ filter (live setting.now.problem.now scenario.now.values) (inputs setting.now.problem.now process)) }
{
    let mut edges = SmallVec::new(alloc);
    for edge in setting.plan.inputs(setting.problem, process) {
        if is_live(setting.problem, setting.guards, scenario, *edge) {
            edges.push(*edge)?;
        }
    }
    Ok(edges)
}

/// Returns what the outcome of a scenario says of a process.
fn ask<'a>(
    alloc: Global,
    setting: &Setting<'_>,
    scenario: &'a Scenario,
    process: u32,
) -> Result<Asked<'a>, OutOfMemory>
    requires setting { IsSetting setting.now }
    requires values { length scenario.now.values ≡ condition_count setting.now.problem.now }
    requires process { process < process_count setting.now.problem.now }
    ensures asked { IfOk result (IsAsked setting.now.problem.now setting.now.guards.now process) }
    ensures values { IfOk result (λ a. a.scenario.now.values ≡ scenario.now.values) }
{
    let (problem, guards) = (setting.problem, setting.guards);
    let conditions = deciding(alloc, problem, guards, scenario, process)?;
    let inputs = live_inputs(alloc, setting, scenario, process)?;
    Ok(Asked {
        scenario,
        acts: is_active(problem, guards, scenario, process),
        conditions,
        inputs,
    })
}

/// Returns what each track says of a process, in the order of the tracks.
pub(crate) fn ask_each<'a>(
    alloc: Global,
    setting: &Setting<'_>,
    tracks: &'a [Scenario],
    process: u32,
) -> Result<Vec<Asked<'a>>, OutOfMemory>
    requires setting { IsSetting setting.now }
    requires tracks { HaveValues setting.now.problem.now tracks.now }
    requires process { process < process_count setting.now.problem.now }
    ensures asked { IfOk result (λ asked. AreAsked setting.now.problem.now setting.now.guards.now process asked.items) }
    ensures outcomes { IfOk result (λ asked. outcomes_asked asked.items ≡ outcomes_of tracks.now) }
{
    let mut asked = Vec::new(alloc);
    asked.reserve(tracks.len())?;
    for track in tracks {
        asked.push(ask(alloc, setting, track, process)?)?;
    }
    Ok(asked)
}
