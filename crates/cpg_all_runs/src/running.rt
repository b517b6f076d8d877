//! Finds the runs of all scenarios of a graph.
ghost use Rattle.std.specs.Prelude.{◌≡◌, ◌<◌, All, IfOk, get_or, length};
ghost use Rattle.cpg_base.specs.Graph.{item_count};
ghost use Rattle.cpg_base.specs.Scenario.{Scenario, IsScenario};
ghost use Rattle.cpg_order.specs.Urgency.{IsTopological};
ghost use Rattle.cpg_run.specs.Known.{AreEarly};
ghost use Rattle.cpg_bus.specs.Plan.{plan_of};
ghost use Rattle.cpg_run.specs.Run.{IsRun};
ghost use Rattle.cpg_run.specs.Setting.{IsSetting};
ghost use Rattle.cpg_all_runs.specs.Active.{HaveSameRuns};
ghost use Rattle.cpg_all_runs.specs.FirstAlike.{scenario_at, AreFirstAlike};
ghost use Rattle.cpg_all_runs.specs.Runs.{AreFirstRuns, AreRuns};

use cpg_base::{Order, OutOfMemory, Scenario};
use cpg_bus::Plan;
use cpg_rules::Admitted;
use cpg_run::{FrozenTimes, RunTimes, Setting, run_by};
use std::alloc::Global;

/// Returns the run of the scenario at the place `at` of a list, given the runs of those before it and the place `first` of
/// one with the same runs, which may be `at` itself.
fn run_at(
    alloc: Global,
    setting: &Setting<'_>,
    frozen: &FrozenTimes,
    scenarios: &[Scenario],
    runs: &[RunTimes],
    first: usize,
    at: usize,
) -> Result<RunTimes, OutOfMemory>
    requires setting { IsSetting setting.now }
    requires frozen { length frozen.now ≡ item_count setting.now.problem.now }
    requires early { AreEarly frozen.now }
    requires scenarios { All (IsScenario setting.now.problem.now) scenarios.now }
    requires at { at < length scenarios.now }
    requires runs { AreFirstRuns setting.now.problem.now setting.now.order.now frozen.now at scenarios.now runs.now }
    requires first { HaveSameRuns setting.now.problem.now (scenario_at setting.now.problem.now scenarios.now first)
        (scenario_at setting.now.problem.now scenarios.now at) }
    ensures { IfOk result (λ times. (s : Scenario) → IsRun setting.now.problem.now setting.now.order.now frozen.now (get_or scenarios.now at s) times) }
{
    // an earlier scenario has the same run, which is known; otherwise the one at `at` is the first that has it
    if first < at {
        let run = runs[first].copy()?;
        return Ok(run);
    }
    let run = run_by(alloc, setting, frozen, &scenarios[at])?;
    Ok(run)
}

/// Returns the run of each scenario of a list, in its order, given the result of `first_alike` for the list. Scenarios
/// with the same active numbers have one run, which is found once.
pub fn runs(
    alloc: Global,
    admitted: &Admitted,
    order: &Order,
    plan: &Plan,
    frozen: &FrozenTimes,
    scenarios: &[Scenario],
    firsts: &[usize],
) -> Result<Vec<RunTimes>, OutOfMemory>
    requires topological { IsTopological admitted.now.graph order.now }
    requires plan { plan.now ≡ plan_of admitted.now.graph }
    requires frozen { length frozen.now ≡ item_count admitted.now.graph }
    requires early { AreEarly frozen.now }
    requires scenarios { All (IsScenario admitted.now.graph) scenarios.now }
    requires firsts { AreFirstAlike admitted.now.graph scenarios.now firsts.now }
    ensures { IfOk result (λ runs. AreRuns admitted.now.graph order.now frozen.now scenarios.now runs.items) }
{
    // called for its contract: the graph is admitted
    let _problem = admitted.problem();
    let setting = Setting::of(admitted, order, plan);
    let mut runs = Vec::new(alloc);
    runs.reserve(scenarios.len())?;
    for at in 0..scenarios.len() {
        let times = run_at(
            alloc,
            &setting,
            frozen,
            scenarios,
            runs.as_slice(),
            firsts[at],
            at,
        )?;
        runs.push(times)?;
    }
    Ok(runs)
}
