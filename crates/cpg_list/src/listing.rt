//! Builds the tables of a graph under an order, by going over all scenarios.
ghost use Rattle.std.specs.Prelude.{◌≡◌, ◌≤◌, IfOk, IfErr, length};
ghost use Rattle.cpg_order.specs.Urgency.{IsTopological};
ghost use Rattle.cpg_order.specs.Scenario.{scenarios};
ghost use Rattle.cpg_reach.specs.Wide.{IsLeastWide, IsNarrow};
ghost use Rattle.cpg_bus.specs.Plan.{plan_of};
ghost use Rattle.cpg_run.specs.Built.{IsBuiltFor, ShowsBuildFault};
ghost use Rattle.cpg_run.specs.Frozen.{AreFrozenTimes};
ghost use Rattle.cpg_run.specs.Known.{AreEarly};
ghost use Rattle.cpg_all_runs.specs.Listing.{AreScenarios};
ghost use Rattle.cpg_list.specs.Found.{AreTablesOfRows};
ghost use Rattle.cpg_all_runs.specs.Runs.{AreRuns};

use crate::making::rows;
use cpg_all_runs::{MOST_SCENARIOS, excess, first_alike, frozen_times, runs, scenarios, worst};
use cpg_base::{Order, OutOfMemory, Scenario};
use cpg_bus::Plan;
use cpg_reach::too_wide;
use cpg_rules::Admitted;
use cpg_run::{BuildFault, Built, FrozenTimes, RunTimes};
use cpg_table::{Tables, tables_of};
use std::alloc::Global;

/// Returns the tables of the rows of all items under an order, given the graph's plan, the frozen times of the order, all
/// scenarios and their runs.
fn tables(
    alloc: Global,
    admitted: &Admitted,
    order: &Order,
    plan: &Plan,
    frozen: &FrozenTimes,
    scenarios: &[Scenario],
    runs: &[RunTimes],
) -> Result<Tables, OutOfMemory>
    requires topological { IsTopological admitted.now.graph order.now }
    requires narrow { IsNarrow admitted.now.graph order.now }
    requires plan { plan.now ≡ plan_of admitted.now.graph }
    requires frozen { AreFrozenTimes admitted.now.graph order.now frozen.now }
    requires early { AreEarly frozen.now }
    requires scenarios { AreScenarios admitted.now.graph scenarios.now }
    requires runs { AreRuns admitted.now.graph order.now frozen.now scenarios.now runs.now }
    ensures { IfOk result (AreTablesOfRows admitted.now.graph admitted.now.order order.now frozen.now) }
{
    let problem = admitted.problem();
    let rows = rows(alloc, admitted, order, plan, frozen, scenarios, runs)?;
    let tables = tables_of(alloc, problem, rows)?;
    Ok(tables)
}

/// Returns the tables and the frozen times of an order with the greatest finish and the greatest excess of all runs. Only
/// the contract names `order`.
fn measured(
    alloc: Global,
    admitted: &Admitted,
    order: &Order,
    frozen: FrozenTimes,
    tables: Tables,
    scenarios: &[Scenario],
    runs: &[RunTimes],
) -> Result<Built, OutOfMemory>
    requires topological { IsTopological admitted.now.graph order.now }
    requires scenarios { AreScenarios admitted.now.graph scenarios.now }
    requires runs { AreRuns admitted.now.graph order.now frozen scenarios.now runs.now }
    requires tables { AreTablesOfRows admitted.now.graph admitted.now.order order.now frozen tables }
    ensures { IfOk result (λ built. IsBuiltFor admitted.now.graph admitted.now.order order.now built) }
{
    // called for its contract: the graph is admitted
    let _problem = admitted.problem();
    let worst = worst(alloc, admitted, scenarios, runs)?;
    let excess = excess(alloc, admitted, scenarios, runs)?;
    Ok(Built {
        tables,
        frozen,
        worst: worst.time,
        worst_in: worst.scenario,
        worst_by: worst.process,
        excess: excess.time,
        excess_in: excess.scenario,
        excess_by: excess.process,
    })
}

/// Returns the tables, the frozen times, the greatest finish and the greatest excess under an order in which no item is too
/// wide, given all scenarios and the graph's plan.
fn swept(
    alloc: Global,
    admitted: &Admitted,
    order: &Order,
    plan: &Plan,
    scenarios: &[Scenario],
) -> Result<Built, OutOfMemory>
    requires topological { IsTopological admitted.now.graph order.now }
    requires narrow { IsNarrow admitted.now.graph order.now }
    requires plan { plan.now ≡ plan_of admitted.now.graph }
    requires scenarios { AreScenarios admitted.now.graph scenarios.now }
    ensures { IfOk result (λ built. IsBuiltFor admitted.now.graph admitted.now.order order.now built) }
{
    // called for its contract: the graph is admitted
    let _problem = admitted.problem();
    let firsts = first_alike(alloc, admitted, scenarios)?;
    let firsts = firsts.as_slice();
    let frozen = frozen_times(alloc, admitted, order, plan, scenarios, firsts)?;
    let runs = runs(alloc, admitted, order, plan, &frozen, scenarios, firsts)?;
    let runs = runs.as_slice();
    let tables = tables(alloc, admitted, order, plan, &frozen, scenarios, runs)?;
    measured(alloc, admitted, order, frozen, tables, scenarios, runs)
}

/// Returns the tables, the frozen times, the greatest finish and the greatest excess under an order in which no item is too
/// wide, for a graph of at most 16,384 scenarios.
fn build(alloc: Global, admitted: &Admitted, order: &Order) -> Result<Built, OutOfMemory>
    requires topological { IsTopological admitted.now.graph order.now }
    requires few { length (scenarios admitted.now.graph) ≤ MOST_SCENARIOS }
    requires narrow { IsNarrow admitted.now.graph order.now }
    ensures { IfOk result (λ built. IsBuiltFor admitted.now.graph admitted.now.order order.now built) }
{
    let problem = admitted.problem();
    let plan = Plan::of(alloc, problem)?;
    let scenarios = scenarios(alloc, problem)?;
    swept(alloc, admitted, order, &plan, scenarios.as_slice())
}

/// Returns the exact tables of a graph of at most 16,384 scenarios under an order, with the frozen times and, in time units,
/// the greatest finish and the greatest excess of all runs, each with its least scenario by the urgency order. The error is
/// `TooWide` with the least item that is too wide, if there is one, or `OutOfMemory`.
pub fn list(alloc: Global, admitted: &Admitted, order: &Order) -> Result<Built, BuildFault>
    requires topological { IsTopological admitted.now.graph order.now }
    requires few { length (scenarios admitted.now.graph) ≤ MOST_SCENARIOS }
    ensures built { IfOk result (λ built. IsBuiltFor admitted.now.graph admitted.now.order order.now built) }
    ensures narrow { IfOk result (λ _. IsNarrow admitted.now.graph order.now) }
    ensures fault { IfErr result (ShowsBuildFault (IsLeastWide admitted.now.graph order.now)) }
{
    // this is asked before any scenario is listed
    if let Some(item) = too_wide(alloc, admitted, order)? {
        return Err(BuildFault::TooWide(item));
    }
    let built = build(alloc, admitted, order)?;
    Ok(built)
}
