//! Lists all scenarios of a graph: first those with faults alone, and then each of them with all values of the conditions.
ghost use Rattle.std.specs.Prelude.{◌≡◌, ◌<◌, ◌≤◌, ◌++◌, ◌∷◌, [], All, IfOk, length};
ghost use Rattle.std.specs.List.{flat_map};
ghost use Rattle.cpg_base.specs.Graph.{process_count, condition_count};
ghost use Rattle.cpg_base.specs.Scenario.{IsScenario};
ghost use Rattle.cpg_order.specs.Scenario.{scenarios};
ghost use Rattle.cpg_all_runs.specs.Listing.{AreScenarios, HasValue, with_each_fault, with_both, with_faults_below, with_values_below};

use crate::few::MOST_SCENARIOS;
use cpg_base::{OutOfMemory, Problem, Scenario};
use std::alloc::Global;

/// Adds to `scenarios` the scenario with each fault count of a process that the faults left by the other processes allow.
/// The process has no fault in `scenario`.
fn add_faults(
    problem: &Problem,
    process: u32,
    scenario: &Scenario,
    scenarios: &mut Vec<Scenario>,
) -> Result<(), OutOfMemory>
    requires process { process < process_count problem.now }
    requires scenario { IsScenario problem.now scenario.now }
    ensures { IfOk result (λ _. scenarios.new.items ≡ scenarios.old.items ++ with_each_fault problem.now process scenario.now) }
{
    // a scenario has no more faults in all than the graph, so the total fits and the difference isn't negative
    let spare = problem.faults() - scenario.total() as u8;
    for faults in 0..spare + 1 {
        let mut other = scenario.copy()?;
        other.set_fault(process, faults);
        scenarios.push(other)?;
    }
    Ok(())
}

/// Adds to `scenarios` the scenario as it is, and the one with the condition true. The condition is false in `scenario`.
fn add_values(
    condition: u32,
    scenario: &Scenario,
    scenarios: &mut Vec<Scenario>,
) -> Result<(), OutOfMemory>
    requires condition { condition < length scenario.now.values }
    ensures { IfOk result (λ _. scenarios.new.items ≡ scenarios.old.items ++ with_both condition scenario.now) }
{
    let mut other = scenario.copy()?;
    other.set_value(condition, true);
    scenarios.push(scenario.copy()?)?;
    scenarios.push(other)?;
    Ok(())
}

/// Returns each of the scenarios with each fault count of a process that the faults left by the other processes allow.
fn spread_faults(
    alloc: Global,
    problem: &Problem,
    process: u32,
    scenarios: &[Scenario],
) -> Result<Vec<Scenario>, OutOfMemory>
    requires process { process < process_count problem.now }
    requires scenarios { All (IsScenario problem.now) scenarios.now }
    ensures { IfOk result (λ more. more.items ≡ flat_map (with_each_fault problem.now process) scenarios.now) }
{
    let mut more = Vec::new(alloc);
    more.reserve(scenarios.len())?;
    for scenario in scenarios {
        add_faults(problem, process, scenario, &mut more)?;
    }
    Ok(more)
}

/// Returns each of the scenarios as it is, and with the condition true.
fn spread_values(
    alloc: Global,
    condition: u32,
    scenarios: &[Scenario],
) -> Result<Vec<Scenario>, OutOfMemory>
    requires scenarios { All (HasValue condition) scenarios.now }
    ensures { IfOk result (λ more. more.items ≡ flat_map (with_both condition) scenarios.now) }
{
    let mut more = Vec::new(alloc);
    more.reserve(scenarios.len())?;
    for scenario in scenarios {
        add_values(condition, scenario, &mut more)?;
    }
    Ok(more)
}

/// Returns the scenarios in which every value is false, with faults in all processes.
fn faulty(alloc: Global, problem: &Problem) -> Result<Vec<Scenario>, OutOfMemory>
    ensures { IfOk result (λ list. list.items ≡ with_faults_below problem.now (process_count problem.now)) }
{
    let mut list = Vec::new(alloc);
    // first the one without faults; then each process in turn gets each count that is left
    list.push(Scenario::zero(alloc, problem)?)?;
    for process in 0..problem.processes().len() as u32 {
        list = spread_faults(alloc, problem, process, list.as_slice())?;
    }
    Ok(list)
}

/// Returns all scenarios of a graph, each once. The graph has at most 16,384 of them.
pub fn scenarios(alloc: Global, problem: &Problem) -> Result<Vec<Scenario>, OutOfMemory>
    requires { length (scenarios problem.now) ≤ MOST_SCENARIOS }
    ensures { IfOk result (λ list. AreScenarios problem.now list.items) }
{
    let mut list = faulty(alloc, problem)?;
    // each condition in turn doubles the list
    for condition in 0..problem.conditions() {
        list = spread_values(alloc, condition, list.as_slice())?;
    }
    Ok(list)
}
