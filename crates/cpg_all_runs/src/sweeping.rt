//! Finds the runs of many scenarios along an order, all at one place before any at the next.
ghost use Rattle.std.specs.Prelude.{◌≡◌, ◌+◌, ◌<◌, ◌≤◌, All, ℕ, IfOk, OnOk, List, Option, length};
ghost use Rattle.cpg_base.specs.Graph.{process_count, item_count};
ghost use Rattle.cpg_base.specs.Scenario.{IsScenario};
ghost use Rattle.cpg_run.specs.Known.{AreEarly};
ghost use Rattle.cpg_run.specs.Setting.{IsSetting};
ghost use Rattle.cpg_all_runs.specs.Sweep.{AreAlong};

use cpg_base::{OutOfMemory, Problem, Scenario};
use cpg_run::{FrozenTimes, RunProgress, Setting};
use std::alloc::Global;

/// Returns for each of these scenarios the progress before the first place, at which nothing of its run is known.
pub(crate) fn beginnings(
    alloc: Global,
    problem: &Problem,
    scenarios: &[Scenario],
) -> Result<Vec<RunProgress>, OutOfMemory>
    ensures { IfOk result (λ found. (order : List ℕ) (frozen : List (Option ℕ)) → AreAlong problem.now order frozen 0 scenarios.now found.items) }
{
    let mut found = Vec::new(alloc);
    found.reserve(scenarios.len())?;
    for _ in 0..scenarios.len() {
        found.push(RunProgress::none(alloc, problem)?)?;
    }
    Ok(found)
}

/// For each scenario, finds the times of the process at a place and of what it sends. `found` has what is found of the run of
/// each, before the place and then before the next.
fn step_each(
    alloc: Global,
    setting: &Setting<'_>,
    frozen: &FrozenTimes,
    scenarios: &[Scenario],
    found: &mut Vec<RunProgress>,
    place: u32,
) -> Result<(), OutOfMemory>
    requires setting { IsSetting setting.now }
    requires frozen { length frozen.now ≡ item_count setting.now.problem.now }
    requires early { AreEarly frozen.now }
    requires scenarios { All (IsScenario setting.now.problem.now) scenarios.now }
    requires place { place < process_count setting.now.problem.now }
    requires along { AreAlong setting.now.problem.now setting.now.order.now frozen.now place scenarios.now found.old.items }
    ensures { OnOk result (AreAlong setting.now.problem.now setting.now.order.now frozen.now (place + 1) scenarios.now found.new.items) }
{
    for at in 0..scenarios.len() {
        found[at].step(alloc, setting, frozen, &scenarios[at], place)?;
    }
    Ok(())
}

/// For each scenario, finds its run on from the place `from` up to the place `to`, which isn't before it: then `found` has what
/// is found of each run before `to`.
pub(crate) fn advance(
    alloc: Global,
    setting: &Setting<'_>,
    frozen: &FrozenTimes,
    scenarios: &[Scenario],
    found: &mut Vec<RunProgress>,
    from: u32,
    to: u32,
) -> Result<(), OutOfMemory>
    requires setting { IsSetting setting.now }
    requires frozen { length frozen.now ≡ item_count setting.now.problem.now }
    requires early { AreEarly frozen.now }
    requires scenarios { All (IsScenario setting.now.problem.now) scenarios.now }
    requires ahead { from ≤ to }
    requires place { to ≤ process_count setting.now.problem.now }
    requires along { AreAlong setting.now.problem.now setting.now.order.now frozen.now from scenarios.now found.old.items }
    ensures { OnOk result (AreAlong setting.now.problem.now setting.now.order.now frozen.now to scenarios.now found.new.items) }
{
    for place in from..to {
        step_each(alloc, setting, frozen, scenarios, found, place)?;
    }
    Ok(())
}
