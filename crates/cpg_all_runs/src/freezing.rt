//! Finds the times of frozen items from the runs of all scenarios.
ghost use Rattle.std.specs.Prelude.{◌≡◌, ◌≢◌, ◌<◌, ◌++◌, ◌∷◌, [], ℕ, IfOk, None, filter, get_or, length};
ghost use Rattle.cpg_base.specs.Graph.{process_count, item_count, is_frozen};
ghost use Rattle.cpg_order.specs.Urgency.{IsTopological};
ghost use Rattle.cpg_run.specs.Frozen.{AreFrozenTimes};
ghost use Rattle.cpg_run.specs.Known.{AreEarly};
ghost use Rattle.cpg_bus.specs.Plan.{plan_of};
ghost use Rattle.cpg_run.specs.FrozenItems.{frozen_items_of, frozen_along};
ghost use Rattle.cpg_run.specs.Latest.{IsUnfrozenTime};
ghost use Rattle.cpg_run.specs.Setting.{IsSetting};
ghost use Rattle.cpg_all_runs.specs.Active.{AreExamples};
ghost use Rattle.cpg_all_runs.specs.FirstAlike.{AreFirstAlike};
ghost use Rattle.cpg_all_runs.specs.Listing.{AreScenarios};
ghost use Rattle.cpg_all_runs.specs.Sweep.{AreAlong, place_of_item};

use crate::examples::examples;
use crate::latest::unfrozen_time;
use crate::sweeping::{advance, beginnings};
use cpg_base::{Order, OutOfMemory, Problem, Scenario};
use cpg_bus::Plan;
use cpg_rules::Admitted;
use cpg_run::{FrozenTimes, RunProgress, Setting};
use std::alloc::Global;

/// Adds an item to `items`, if it is frozen.
fn add_if_frozen(problem: &Problem, item: u32, items: &mut Vec<u32>) -> Result<(), OutOfMemory>
    requires { item < item_count problem.now }
    ensures { IfOk result (λ _. items.new.items ≡ items.old.items ++ filter (is_frozen problem.now) (item ∷ [])) }
{
    if problem.is_frozen(item) {
        items.push(item)?;
    }
    Ok(())
}

/// Adds to `items` the frozen items of a process: its start, and then what it sends, in the order of its queue.
fn add_frozen_of(
    problem: &Problem,
    plan: &Plan,
    process: u32,
    items: &mut Vec<u32>,
) -> Result<(), OutOfMemory>
    requires plan { plan.now ≡ plan_of problem.now }
    requires process { process < process_count problem.now }
    ensures { IfOk result (λ _. items.new.items ≡ items.old.items ++ frozen_items_of problem.now process) }
{
    add_if_frozen(problem, process, items)?;
    for item in plan.queue(problem, process) {
        add_if_frozen(problem, *item, items)?;
    }
    Ok(())
}

/// Returns the frozen items of all processes, along an order.
fn frozen_items(
    alloc: Global,
    problem: &Problem,
    order: &Order,
    plan: &Plan,
) -> Result<Vec<u32>, OutOfMemory>
    requires order { length order.now ≡ process_count problem.now }
    requires plan { plan.now ≡ plan_of problem.now }
    ensures { IfOk result (λ items. items.items ≡ frozen_along problem.now order.now) }
{
    let mut items = Vec::new(alloc);
    for process in order.processes() {
        add_frozen_of(problem, plan, *process, &mut items)?;
    }
    Ok(items)
}

/// Finds the time of a frozen item of the process at a place, and sets it in `frozen`. An item that is active in no scenario
/// gets none. `scenarios` show all runs, and `found` has what is found of the run of each before the place.
fn settle(
    alloc: Global,
    setting: &Setting<'_>,
    frozen: &mut FrozenTimes,
    scenarios: &[Scenario],
    found: &[RunProgress],
    place: u32,
    item: u32,
) -> Result<(), OutOfMemory>
    requires setting { IsSetting setting.now }
    requires frozen { length frozen.old ≡ item_count setting.now.problem.now }
    requires early { AreEarly frozen.old }
    requires scenarios { AreExamples setting.now.problem.now scenarios.now }
    requires place { place < process_count setting.now.problem.now }
    requires along { AreAlong setting.now.problem.now setting.now.order.now frozen.old place scenarios.now found.now }
    requires item { item < item_count setting.now.problem.now }
    requires there { place_of_item setting.now.problem.now setting.now.order.now item ≡ place }
    requires unset { get_or frozen.old item None ≡ None }
    ensures item { IfOk result (λ _. IsUnfrozenTime setting.now.problem.now setting.now.order.now frozen.old item (get_or frozen.new item None)) }
    ensures others { IfOk result (λ _. (other : ℕ) → other ≢ item → get_or frozen.new other None ≡ get_or frozen.old other None) }
    ensures count { IfOk result (λ _. length frozen.new ≡ length frozen.old) }
{
    let time = unfrozen_time(alloc, setting, frozen, scenarios, found, place, item)?;
    if let Some(time) = time {
        frozen.set(item, time);
    }
    Ok(())
}

/// Returns the times of the frozen items under an order, given these items along the order and scenarios that show all runs.
/// The time of an item is the greatest that it would have in any scenario if it were not frozen. The runs are found along
/// the order together, as far as the place of the last frozen item, and the time of each frozen item is found at its place.
fn sweep(
    alloc: Global,
    setting: &Setting<'_>,
    scenarios: &[Scenario],
    items: &[u32],
) -> Result<FrozenTimes, OutOfMemory>
    requires setting { IsSetting setting.now }
    requires scenarios { AreExamples setting.now.problem.now scenarios.now }
    requires items { items.now ≡ frozen_along setting.now.problem.now setting.now.order.now }
    ensures frozen { IfOk result (λ frozen. AreFrozenTimes setting.now.problem.now setting.now.order.now frozen) }
    ensures early { IfOk result (λ frozen. AreEarly frozen) }
{
    let problem = setting.problem;
    let mut frozen = FrozenTimes::none(alloc, problem)?;
    let mut found = beginnings(alloc, problem, scenarios)?;
    // the place up to which the runs are found
    let mut place = 0;
    for item in items {
        // what came before `next` has its frozen times, so the runs up to there can be found
        let next = setting.order.place(problem.producer(*item));
        advance(alloc, setting, &frozen, scenarios, &mut found, place, next)?;
        settle(
            alloc,
            setting,
            &mut frozen,
            scenarios,
            found.as_slice(),
            next,
            *item,
        )?;
        place = next;
    }
    Ok(frozen)
}

/// Returns the times of the frozen items under an order, in time units, given all scenarios and the result of
/// `first_alike` for them. The time of an item is the greatest that it would have in any scenario if it were not frozen.
/// An item that is active in no scenario has none.
pub fn frozen_times(
    alloc: Global,
    admitted: &Admitted,
    order: &Order,
    plan: &Plan,
    scenarios: &[Scenario],
    firsts: &[usize],
) -> Result<FrozenTimes, OutOfMemory>
    requires topological { IsTopological admitted.now.graph order.now }
    requires plan { plan.now ≡ plan_of admitted.now.graph }
    requires scenarios { AreScenarios admitted.now.graph scenarios.now }
    requires firsts { AreFirstAlike admitted.now.graph scenarios.now firsts.now }
    ensures frozen { IfOk result (λ frozen. AreFrozenTimes admitted.now.graph order.now frozen) }
    ensures early { IfOk result (λ frozen. AreEarly frozen) }
{
    let problem = admitted.problem();
    let items = frozen_items(alloc, problem, order, plan)?;
    // if nothing is frozen, no scenario has to be looked at
    if items.is_empty() {
        let frozen = FrozenTimes::none(alloc, problem)?;
        return Ok(frozen);
    }
    let examples = examples(alloc, scenarios, firsts)?;
    let setting = Setting::of(admitted, order, plan);
    let frozen = sweep(alloc, &setting, examples.as_slice(), items.as_slice())?;
    Ok(frozen)
}
