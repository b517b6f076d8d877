//! What is active in a scenario, by the guards of an admitted graph.
ghost use Rattle.std.specs.Prelude.{◌≡◌, ◌<◌, IfOk, true, ℕ, List, Contains};
ghost use Rattle.cpg_base.specs.Graph.{process_count, edge_count, item_at};
ghost use Rattle.cpg_base.specs.Activity.{active, live, item_active};
ghost use Rattle.cpg_base.specs.Scenario.{IsScenario};
ghost use Rattle.cpg_order.specs.Guard.{deciding_along};
ghost use Rattle.cpg_rules.specs.Admission.{IsAdmitted};
ghost use Rattle.cpg_rules.specs.Admitted.{AreAdmitted};
ghost use Rattle.cpg_bus.specs.Plan.{queue_of};

use cpg_base::{OutOfMemory, Problem, Scenario};
use cpg_rules::GuardTrees;
use std::alloc::Global;

/// Whether a process is active in a scenario. Only the contract names `problem`, whose guards these are.
pub fn is_active(problem: &Problem, guards: &GuardTrees, scenario: &Scenario, process: u32) -> bool
    requires admitted { AreAdmitted problem.now guards.now }
    requires scenario { IsScenario problem.now scenario.now }
    requires process { process < process_count problem.now }
    ensures { result ≡ active problem.now scenario.now.values process }
{
    let active = guards.active(process, scenario);
    active
}

/// Whether an edge is live in a scenario. Only the contract names `problem`, whose guards these are.
pub(crate) fn is_live(
    problem: &Problem,
    guards: &GuardTrees,
    scenario: &Scenario,
    edge: u32,
) -> bool
    requires admitted { AreAdmitted problem.now guards.now }
    requires scenario { IsScenario problem.now scenario.now }
    requires edge { edge < edge_count problem.now }
    ensures { result ≡ live problem.now scenario.now.values edge }
{
    let live = guards.live(edge, scenario);
    live
}

/// Returns the conditions that decide a process in a scenario, in the urgency order of their processes. Only the contract
/// names `problem`, whose guards these are.
pub(crate) fn deciding(
    alloc: Global,
    problem: &Problem,
    guards: &GuardTrees,
    scenario: &Scenario,
    process: u32,
) -> Result<Vec<u32>, OutOfMemory>
    requires admitted { AreAdmitted problem.now guards.now }
    requires scenario { IsScenario problem.now scenario.now }
    requires process { process < process_count problem.now }
    ensures { IfOk result (λ conditions. (urgency : List ℕ) → IsAdmitted problem.now urgency guards.now →
        conditions.items ≡ deciding_along problem.now urgency scenario.now.values process) }
{
    let conditions = guards.deciding(alloc, process, scenario)?;
    Ok(conditions)
}

/// Whether an item in the queue of an active process is active: a broadcast always is, and a message is if its edge is
/// live. Only the contract names `process`.
pub(crate) fn is_item_active(
    problem: &Problem,
    guards: &GuardTrees,
    scenario: &Scenario,
    process: u32,
    item: u32,
) -> bool
    requires admitted { AreAdmitted problem.now guards.now }
    requires scenario { IsScenario problem.now scenario.now }
    requires process { process < process_count problem.now }
    requires active { active problem.now scenario.now.values process ≡ true }
    requires item { Contains (queue_of problem.now process) item }
    ensures { result ≡ item_active problem.now scenario.now.values (item_at problem.now item) }
{
    let processes = problem.processes().len() as u32;
    // items are numbered in the order starts, messages, broadcasts, so these are the broadcasts
    if item >= processes + problem.edges().len() as u32 {
        return true;
    }
    // what is sent and no broadcast is a message, whose number is that of its edge after the starts
    is_live(problem, guards, scenario, item - processes)
}
