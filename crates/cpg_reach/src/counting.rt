//! Counting the views of a set of variables, outcome by outcome.
ghost use Rattle.std.specs.Prelude.{◌≡◌, ◌<◌, ◌≤◌, All, IfOk, length, min, sum_by};
ghost use Rattle.cpg_base.specs.Graph.{process_count, condition_count};
ghost use Rattle.cpg_order.specs.Urgency.{IsTopological};
ghost use Rattle.cpg_order.specs.Reach.{views};
ghost use Rattle.cpg_order.specs.Counting.{conditions_along, chosen, free_counts, is_count_free, is_value_free, views_of_outcome};
ghost use Rattle.cpg_reach.specs.WaysTable.{AreWays};
ghost use Rattle.cpg_reach.specs.Counter.{IsCounterFor};

use crate::variables::{FIRST_VALUE, Variables};
use crate::ways::{WaysTable, ways_of};
use cpg_base::{Order, OutOfMemory, Problem, Scenario};
use cpg_rules::Admitted;
use std::alloc::Global;

/// What is needed to count the views of any set of variables.
#[derive(Drop)]
pub struct Counter {
    /// For each number of fault counts, in how many ways they add up to at most k.
    ways: WaysTable,
    /// The conditions, in the order of their processes.
    conditions: Vec<u32>,
    /// A scenario in which every value is false; values are set in it and reset while views are counted.
    scenario: Scenario,
}

/// Returns the conditions, in the order of their processes.
fn conditions_along(
    alloc: Global,
    problem: &Problem,
    order: &Order,
) -> Result<Vec<u32>, OutOfMemory>
    requires { length order.now ≡ process_count problem.now }
    ensures { IfOk result (λ conditions. conditions.items ≡ conditions_along problem.now order.now) }
{
    let mut conditions = Vec::new(alloc);
    for process in order.processes() {
        if let Some(condition) = problem.condition_of(*process) {
            conditions.push(condition)?;
        }
    }
    Ok(conditions)
}

/// Whether a process may have faults: its count is among the variables, and it is active.
fn is_count_free(
    admitted: &Admitted,
    reached: &Variables,
    process: u32,
    scenario: &Scenario,
) -> bool
    requires process { process < process_count admitted.now.graph }
    requires values { length scenario.now.values ≡ condition_count admitted.now.graph }
    ensures { result ≡ is_count_free admitted.now.graph reached.now scenario.now.values process }
{
    let guards = admitted.guards();
    if !reached.has(process) {
        return false;
    }
    guards.active(process, scenario)
}

/// Whether a condition may be true: its value is among the variables, and its process is active.
fn is_value_free(
    admitted: &Admitted,
    reached: &Variables,
    condition: u32,
    scenario: &Scenario,
) -> bool
    requires condition { condition < condition_count admitted.now.graph }
    requires values { length scenario.now.values ≡ condition_count admitted.now.graph }
    ensures { result ≡ is_value_free admitted.now.graph reached.now scenario.now.values condition }
{
    let guards = admitted.guards();
    if !reached.has(FIRST_VALUE + condition) {
        return false;
    }
    let process = admitted.problem().process_of(condition);
    guards.active(process, scenario)
}

/// Returns how many processes may have faults with the values of the scenario (`is_count_free`).
fn free_counts(admitted: &Admitted, reached: &Variables, scenario: &Scenario) -> usize
    requires { length scenario.now.values ≡ condition_count admitted.now.graph }
    ensures counts { result ≡ free_counts admitted.now.graph reached.now scenario.now.values }
    ensures few { result ≤ 128 }
{
    let count = admitted.problem().processes().len() as u32;
    let mut counts = 0;
    for process in 0..count {
        if is_count_free(admitted, reached, process, scenario) {
            counts += 1;
        }
    }
    counts
}

/// Returns how many views an outcome has: the ways in which the counts that are free add up to at most k.
fn views_of_outcome(
    admitted: &Admitted,
    ways: &[u64],
    reached: &Variables,
    scenario: &Scenario,
) -> u64
    requires ways { AreWays admitted.now.graph.faults ways.now }
    requires values { length scenario.now.values ≡ condition_count admitted.now.graph }
    ensures { result ≡ views_of_outcome admitted.now.graph reached.now scenario.now.values }
{
    // no count may be above 0, so the outcome itself is the only view
    if admitted.problem().faults() == 0 {
        return 1;
    }
    ways[free_counts(admitted, reached, scenario)]
}

/// Returns how many views there are with the values set so far, if the values of `conditions` are still to be chosen;
/// `most` if there are more. The scenario is as before in the end.
fn views_from(
    admitted: &Admitted,
    ways: &[u64],
    reached: &Variables,
    conditions: &[u32],
    scenario: &mut Scenario,
    most: u64,
) -> u64
    requires ways { AreWays admitted.now.graph.faults ways.now }
    requires conditions { All (λ c. c < condition_count admitted.now.graph) conditions.now }
    requires values { length scenario.old.values ≡ condition_count admitted.now.graph }
    ensures views { result ≡ min most (sum_by (views_of_outcome admitted.now.graph reached.now)
        (chosen admitted.now.graph reached.now conditions.now scenario.old.values)) }
    ensures same { scenario.new ≡ scenario.old }
{
    let Some((condition, left)) = conditions.split_first() else {
        return views_of_outcome(admitted, ways, reached, scenario).min(most);
    };
    let as_set = views_from(admitted, ways, reached, left, scenario, most);
    // the most that is returned is reached, so the rest doesn't matter
    if as_set == most {
        return as_set;
    }
    // the value can't be true, so there are no views with it
    if !is_value_free(admitted, reached, *condition, scenario) {
        return as_set;
    }
    let was = scenario.value(*condition);
    scenario.set_value(*condition, true);
    let with_true = views_from(admitted, ways, reached, left, scenario, most - as_set);
    scenario.set_value(*condition, was);
    as_set + with_true
}

impl Counter {
    /// Returns a counter of views under the order. The one error is `OutOfMemory`.
    pub fn of(alloc: Global, problem: &Problem, order: &Order) -> Result<Counter, OutOfMemory>
        requires { length order.now ≡ process_count problem.now }
        ensures { IfOk result (IsCounterFor problem.now order.now) }
    {
        Ok(Counter {
            ways: ways_of(problem.faults()),
            conditions: conditions_along(alloc, problem, order)?,
            scenario: Scenario::zero(alloc, problem)?,
        })
    }

    /// Returns how many views a set of variables has; `most` if there are more. The contract alone names `order`.
    pub fn views(
        &mut self,
        admitted: &Admitted,
        order: &Order,
        reached: &Variables,
        most: u64,
    ) -> u64
        requires order { IsTopological admitted.now.graph order.now }
        requires few { process_count admitted.now.graph ≤ 128 }
        requires counter { IsCounterFor admitted.now.graph order.now self.old }
        ensures views { result ≡ min most (views admitted.now.graph reached.now) }
        ensures counter { IsCounterFor admitted.now.graph order.now self.new }
    {
        views_from(
            admitted,
            &self.ways,
            reached,
            self.conditions.as_slice(),
            &mut self.scenario,
            most,
        )
    }
}
