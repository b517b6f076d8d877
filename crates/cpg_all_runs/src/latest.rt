//! Finds the greatest time over all scenarios that an item would have if it were not frozen.
ghost use Rattle.std.specs.Prelude.{◌≡◌, ◌<◌, ℕ, IfOk, None, get_or, length};
ghost use Rattle.cpg_base.specs.Graph.{process_count, item_count};
ghost use Rattle.cpg_base.specs.Scenario.{IsScenario};
ghost use Rattle.cpg_run.specs.Known.{AreEarly};
ghost use Rattle.cpg_run.specs.Run.{Times, IsRun};
ghost use Rattle.cpg_run.specs.Progress.{IsAlong};
ghost use Rattle.cpg_run.specs.Setting.{IsSetting};
ghost use Rattle.cpg_all_runs.specs.Active.{AreExamples};
ghost use Rattle.cpg_run.specs.Latest.{IsUnfrozenTime};
ghost use Rattle.cpg_all_runs.specs.Sweep.{AreAlong, place_of_item};

use cpg_base::{OutOfMemory, Scenario};
use cpg_run::{FrozenTimes, RunProgress, Setting, later};
use std::alloc::Global;

/// Returns the time of an item in the run of a scenario, or `None` if it is inactive there. The item comes from the process
/// at `place`, and `progress` is what is found of the scenario's run before that place.
fn time_there(
    alloc: Global,
    setting: &Setting<'_>,
    frozen: &FrozenTimes,
    scenario: &Scenario,
    progress: &RunProgress,
    place: u32,
    item: u32,
) -> Result<Option<u64>, OutOfMemory>
    requires setting { IsSetting setting.now }
    requires frozen { length frozen.now ≡ item_count setting.now.problem.now }
    requires early { AreEarly frozen.now }
    requires scenario { IsScenario setting.now.problem.now scenario.now }
    requires place { place < process_count setting.now.problem.now }
    requires along { IsAlong setting.now.problem.now setting.now.order.now frozen.now scenario.now place progress.now }
    requires item { item < item_count setting.now.problem.now }
    requires there { place_of_item setting.now.problem.now setting.now.order.now item ≡ place }
    ensures { IfOk result (λ time. (t : Times) → IsRun setting.now.problem.now setting.now.order.now frozen.now scenario.now t
        → time ≡ get_or t.times item None) }
{
    // a copy, since the frozen time of the item isn't set yet and the progress is needed again once it is
    let mut next = progress.copy()?;
    next.step(alloc, setting, frozen, scenario, place)?;
    Ok(next.time(item))
}

/// Returns the greatest time over all scenarios that an item would have if it were not frozen, in time units, or `None`
/// if it is active in none. `scenarios` show all runs, `found` has what is found of the run of each before `place`, that of
/// the item's process, and the frozen times leave the item out.
pub(crate) fn unfrozen_time(
    alloc: Global,
    setting: &Setting<'_>,
    frozen: &FrozenTimes,
    scenarios: &[Scenario],
    found: &[RunProgress],
    place: u32,
    item: u32,
) -> Result<Option<u64>, OutOfMemory>
    requires setting { IsSetting setting.now }
    requires frozen { length frozen.now ≡ item_count setting.now.problem.now }
    requires early { AreEarly frozen.now }
    requires scenarios { AreExamples setting.now.problem.now scenarios.now }
    requires place { place < process_count setting.now.problem.now }
    requires along { AreAlong setting.now.problem.now setting.now.order.now frozen.now place scenarios.now found.now }
    requires item { item < item_count setting.now.problem.now }
    requires there { place_of_item setting.now.problem.now setting.now.order.now item ≡ place }
    requires unset { get_or frozen.now item None ≡ None }
    ensures { IfOk result (IsUnfrozenTime setting.now.problem.now setting.now.order.now frozen.now item) }
{
    let mut latest = None;
    for at in 0..scenarios.len() {
        let time = time_there(
            alloc,
            setting,
            frozen,
            &scenarios[at],
            &found[at],
            place,
            item,
        )?;
        latest = later(latest, time);
    }
    Ok(latest)
}
