//! The run of one scenario.
ghost use Rattle.std.specs.Prelude.{◌≡◌, IfOk, length};
ghost use Rattle.cpg_base.specs.Graph.{item_count};
ghost use Rattle.cpg_base.specs.Scenario.{IsScenario};
ghost use Rattle.cpg_order.specs.Urgency.{IsTopological};
ghost use Rattle.cpg_run.specs.Run.{IsRun};
ghost use Rattle.cpg_run.specs.Known.{AreEarly};
ghost use Rattle.cpg_run.specs.Setting.{IsRunOf, IsSetting};

use crate::{FrozenTimes, RunProgress, RunTimes, Setting};
use cpg_base::{Order, OutOfMemory, Scenario};
use cpg_bus::Plan;
use cpg_rules::Admitted;
use std::alloc::Global;

/// Returns the run of a scenario, as `run` does, in a setting that is made once for many scenarios.
pub fn run_by(
    alloc: Global,
    setting: &Setting<'_>,
    frozen: &FrozenTimes,
    scenario: &Scenario,
) -> Result<RunTimes, OutOfMemory>
    requires setting { IsSetting setting.now }
    requires frozen { length frozen.now ≡ item_count setting.now.problem.now }
    requires early { AreEarly frozen.now }
    requires scenario { IsScenario setting.now.problem.now scenario.now }
    ensures { IfOk result (IsRunOf setting.now frozen.now scenario.now) }
{
    let mut progress = RunProgress::none(alloc, setting.problem)?;
    // along the order, since a process waits only for processes before it
    for place in 0..setting.problem.processes().len() as u32 {
        progress.step(alloc, setting, frozen, scenario, place)?;
    }
    Ok(progress.finished())
}

/// Returns the run of a scenario under a topological order and these frozen times: when each active item starts or is
/// sent, and when each active process ends, in time units.
pub fn run(
    alloc: Global,
    admitted: &Admitted,
    order: &Order,
    frozen: &FrozenTimes,
    scenario: &Scenario,
) -> Result<RunTimes, OutOfMemory>
    requires topological { IsTopological admitted.now.graph order.now }
    requires frozen { length frozen.now ≡ item_count admitted.now.graph }
    requires early { AreEarly frozen.now }
    requires scenario { IsScenario admitted.now.graph scenario.now }
    ensures { IfOk result (IsRun admitted.now.graph order.now frozen.now scenario.now) }
{
    let plan = Plan::of(alloc, admitted.problem())?;
    let setting = Setting::of(admitted, order, &plan);
    let times = run_by(alloc, &setting, frozen, scenario)?;
    Ok(times)
}
