//! What is computed over a list of all scenarios of the pair, call by call, against what was worked out by hand.
ghost use Rattle.std.specs.Prelude.{◌≡◌, IfOk, length};
ghost use Rattle.cpg_base.specs.Graph.{item_count};
ghost use Rattle.cpg_bus.specs.Plan.{plan_of};
ghost use Rattle.cpg_run.specs.Frozen.{AreFrozenTimes};
ghost use Rattle.cpg_run.specs.Known.{AreEarly};
ghost use Rattle.cpg_all_runs.specs.FirstAlike.{AreFirstAlike};
ghost use Rattle.cpg_all_runs.specs.Listing.{AreScenarios};
ghost use Rattle.cpg_all_runs.specs.Runs.{AreRuns};

use crate::claims::{Claim, holds};
use crate::columns::{ColumnParts, are_rows};
use crate::fixtures::{FROZEN, PAIR};
use cpg_all_runs::{
    Peak, excess, first_alike, frozen_times, has_few_scenarios, runs, scenarios, worst,
};
use cpg_base::{OutOfMemory, Scenario};
use cpg_bus::Plan;
use cpg_list::rows;
use cpg_rules::Admitted;
use cpg_run::{FrozenTimes, RunTimes};
use cpg_table::Row;
use std::alloc::Global;

/// Returns all scenarios of a graph. An error is that they are too many to list, or that memory runs out.
pub fn listed(alloc: Global, admitted: &Admitted) -> Result<Vec<Scenario>, OutOfMemory>
    ensures { IfOk result (λ list. AreScenarios admitted.now.graph list.items) }
{
    let problem = admitted.problem();
    if has_few_scenarios(problem) {
        scenarios(alloc, problem)
    } else {
        Err(OutOfMemory)
    }
}

/// A peak: its time, its process, and in its scenario the fault count of B and the faults of all processes together.
pub type Told = (u64, Option<u32>, u8, u32);

/// What is computed of a graph over a list of all its scenarios.
pub struct Found {
    /// The frozen time of the message, if it is frozen.
    message: Option<u64>,
    /// The greatest finish.
    worst: Told,
    /// The greatest excess.
    excess: Told,
    /// The columns of the starts of A and of B, and of the message.
    rows: [&'static [ColumnParts]; 3],
}

/// What the pair has: B ends last, 5 past the deadline, in the scenario with a fault in A.
const OF_PAIR: Found = Found {
    message: None,
    worst: (105, Some(1), 0, 1),
    excess: (5, Some(1), 0, 1),
    rows: [
        &[(0, 9, 9)],
        &[(50, 0, 0), (90, 1, 1)],
        &[(40, 0, 0), (80, 1, 1)],
    ],
};

/// What the pair with a frozen message has: B always starts at 90, and ends last with a fault of its own.
const OF_FROZEN: Found = Found {
    message: Some(80),
    worst: (122, Some(1), 1, 1),
    excess: (0, None, 0, 0),
    rows: [&[(0, 9, 9)], &[(90, 9, 9)], &[(80, 9, 9)]],
};

/// Returns a peak as numbers.
fn told(peak: &Peak) -> Told {
    (
        peak.time,
        peak.process,
        peak.scenario.number(1),
        peak.scenario.total(),
    )
}

/// Whether the greatest finish of runs is `want`. False at an error, too.
fn is_worst(
    alloc: Global,
    admitted: &Admitted,
    scenarios: &[Scenario],
    runs: &[RunTimes],
    want: Told,
) -> bool
    requires scenarios { AreScenarios admitted.now.graph scenarios.now }
    requires runs { length runs.now ≡ length scenarios.now }
{
    match worst(alloc, admitted, scenarios, runs) {
        Ok(peak) => told(&peak) == want,
        Err(_) => false,
    }
}

/// Whether the greatest excess of runs is `want`. False at an error, too.
fn is_excess(
    alloc: Global,
    admitted: &Admitted,
    scenarios: &[Scenario],
    runs: &[RunTimes],
    want: Told,
) -> bool
    requires scenarios { AreScenarios admitted.now.graph scenarios.now }
    requires runs { length runs.now ≡ length scenarios.now }
{
    match excess(alloc, admitted, scenarios, runs) {
        Ok(peak) => told(&peak) == want,
        Err(_) => false,
    }
}

/// Whether the rows of runs are those of `want`. False at an error, too.
#[tactic(auto, using(crate::proofs::Unfrozen::urgent_topological))]
fn has_rows(
    alloc: Global,
    admitted: &Admitted,
    plan: &Plan,
    frozen: &FrozenTimes,
    scenarios: &[Scenario],
    runs: &[RunTimes],
    want: &[&[ColumnParts]],
) -> bool
    requires plan { plan.now ≡ plan_of admitted.now.graph }
    requires frozen { AreFrozenTimes admitted.now.graph admitted.now.order frozen.now }
    requires early { AreEarly frozen.now }
    requires scenarios { AreScenarios admitted.now.graph scenarios.now }
    requires runs { AreRuns admitted.now.graph admitted.now.order frozen.now scenarios.now runs.now }
{
    let order = admitted.order();
    match rows(alloc, admitted, order, plan, frozen, scenarios, runs) {
        Ok(rows) => are_rows(rows.as_slice(), want),
        Err(_) => false,
    }
}

/// Whether the runs under these frozen times have the peaks and rows of `want`. `firsts` has for each scenario the place of the
/// first one with the same active numbers. False at an error, too.
#[tactic(auto, using(crate::proofs::Unfrozen::urgent_topological))]
fn has_runs(
    alloc: Global,
    admitted: &Admitted,
    plan: &Plan,
    frozen: &FrozenTimes,
    scenarios: &[Scenario],
    firsts: &[usize],
    want: &Found,
) -> bool
    requires plan { plan.now ≡ plan_of admitted.now.graph }
    requires frozen { AreFrozenTimes admitted.now.graph admitted.now.order frozen.now }
    requires early { AreEarly frozen.now }
    requires scenarios { AreScenarios admitted.now.graph scenarios.now }
    requires firsts { AreFirstAlike admitted.now.graph scenarios.now firsts.now }
{
    let order = admitted.order();
    match runs(alloc, admitted, order, plan, frozen, scenarios, firsts) {
        Ok(runs) => {
            let runs = runs.as_slice();
            is_worst(alloc, admitted, scenarios, runs, want.worst)
                && is_excess(alloc, admitted, scenarios, runs, want.excess)
                && has_rows(
                    alloc,
                    admitted,
                    plan,
                    frozen,
                    scenarios,
                    runs,
                    want.rows.as_slice(),
                )
        }
        Err(_) => false,
    }
}

/// Whether the start of A (item 0) isn't frozen, and the message (item 2) is frozen at this time, or isn't frozen.
fn are_times(frozen: &FrozenTimes, message: Option<u64>) -> bool
    requires { length frozen.now ≡ 3 }
{
    frozen.time_of(0).is_none() && frozen.time_of(2) == message
}

/// Whether the frozen times under the urgency order, and the peaks and rows of the runs, are those of `want`. False at an
/// error, too.
#[tactic(auto, using(crate::proofs::Unfrozen::urgent_topological))]
fn is_found_by_plan(
    alloc: Global,
    admitted: &Admitted,
    plan: &Plan,
    scenarios: &[Scenario],
    firsts: &[usize],
    want: &Found,
) -> bool
    requires items { item_count admitted.now.graph ≡ 3 }
    requires plan { plan.now ≡ plan_of admitted.now.graph }
    requires scenarios { AreScenarios admitted.now.graph scenarios.now }
    requires firsts { AreFirstAlike admitted.now.graph scenarios.now firsts.now }
{
    let order = admitted.order();
    match frozen_times(alloc, admitted, order, plan, scenarios, firsts) {
        Ok(frozen) => {
            are_times(&frozen, want.message)
                && has_runs(alloc, admitted, plan, &frozen, scenarios, firsts, want)
        }
        Err(_) => false,
    }
}

/// Whether all that is computed over these scenarios is `want`, and there are three of them with different active numbers, so
/// that each has its own run. False at an error, too.
fn is_found_over(
    alloc: Global,
    admitted: &Admitted,
    scenarios: &[Scenario],
    firsts: &[usize],
    want: &Found,
) -> bool
    requires items { item_count admitted.now.graph ≡ 3 }
    requires scenarios { AreScenarios admitted.now.graph scenarios.now }
    requires firsts { AreFirstAlike admitted.now.graph scenarios.now firsts.now }
{
    if firsts != [0, 1, 2].as_slice() {
        return false;
    }
    match Plan::of(alloc, admitted.problem()) {
        Ok(plan) => is_found_by_plan(alloc, admitted, &plan, scenarios, firsts, want),
        Err(_) => false,
    }
}

/// Whether all that is computed over these scenarios is `want`. False at an error, too.
fn is_found_in(alloc: Global, admitted: &Admitted, scenarios: &[Scenario], want: &Found) -> bool
    requires items { item_count admitted.now.graph ≡ 3 }
    requires scenarios { AreScenarios admitted.now.graph scenarios.now }
{
    match first_alike(alloc, admitted, scenarios) {
        Ok(firsts) => is_found_over(alloc, admitted, scenarios, firsts.as_slice(), want),
        Err(_) => false,
    }
}

/// Whether a graph has three items, and all that is computed over its scenarios is `want`. False at an error, too.
pub fn is_found(alloc: Global, admitted: &Admitted, want: &Found) -> bool {
    if admitted.problem().item_count() != 3 {
        return false;
    }
    match listed(alloc, admitted) {
        Ok(scenarios) => is_found_in(alloc, admitted, scenarios.as_slice(), want),
        Err(_) => false,
    }
}

#[test]
fn a_message_by_faults(rt: HostRuntime) {
    assert!(rt; holds(rt.alloc(), PAIR, Claim::Finds(&OF_PAIR)));
}

#[test]
fn a_frozen_message(rt: HostRuntime) {
    assert!(rt; holds(rt.alloc(), FROZEN, Claim::Finds(&OF_FROZEN)));
}
