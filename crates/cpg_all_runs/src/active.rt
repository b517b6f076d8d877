//! What is active in a scenario, as a list of numbers: the fault counts of active processes and the values of their
//! conditions.
ghost use Rattle.std.specs.Prelude.{◌≡◌, ◌<◌, IfOk, map};
ghost use Rattle.cpg_base.specs.Numbers.{numbers_below};
ghost use Rattle.cpg_base.specs.Graph.{process_count, condition_count};
ghost use Rattle.cpg_base.specs.Scenario.{IsScenario};
ghost use Rattle.cpg_rules.specs.Admitted.{AreAdmitted};
ghost use Rattle.cpg_all_runs.specs.Active.{active_fault, active_value, active_numbers};

use cpg_base::{OutOfMemory, Problem, Scenario};
use cpg_rules::GuardTrees;
use cpg_run::is_active;
use std::alloc::Global;

/// Returns one more than the fault count of a process in a scenario if it is active there, and 0 otherwise.
fn active_fault(problem: &Problem, guards: &GuardTrees, scenario: &Scenario, process: u32) -> u16
    requires admitted { AreAdmitted problem.now guards.now }
    requires scenario { IsScenario problem.now scenario.now }
    requires process { process < process_count problem.now }
    ensures { result ≡ active_fault problem.now scenario.now process }
{
    if is_active(problem, guards, scenario, process) {
        u16::from(scenario.fault(process)) + 1
    } else {
        0
    }
}

/// Returns 1 if a condition is false in a scenario and 2 if it is true, or 0 if its process is inactive there.
fn active_value(problem: &Problem, guards: &GuardTrees, scenario: &Scenario, condition: u32) -> u16
    requires admitted { AreAdmitted problem.now guards.now }
    requires scenario { IsScenario problem.now scenario.now }
    requires condition { condition < condition_count problem.now }
    ensures { result ≡ active_value problem.now scenario.now condition }
{
    let process = problem.process_of(condition);
    if is_active(problem, guards, scenario, process) {
        u16::from(scenario.value(condition)) + 1
    } else {
        0
    }
}

/// Returns `active_fault` of each process, in the order of their numbers.
fn active_faults(
    alloc: Global,
    problem: &Problem,
    guards: &GuardTrees,
    scenario: &Scenario,
) -> Result<Vec<u16>, OutOfMemory>
    requires admitted { AreAdmitted problem.now guards.now }
    requires scenario { IsScenario problem.now scenario.now }
    ensures { IfOk result (λ numbers. numbers.items ≡ map (active_fault problem.now scenario.now) (numbers_below (process_count problem.now))) }
{
    let processes = problem.processes().len();
    let mut numbers = Vec::new(alloc);
    numbers.reserve(processes)?;
    for process in 0..processes as u32 {
        numbers.push(active_fault(problem, guards, scenario, process))?;
    }
    Ok(numbers)
}

/// Returns `active_fault` of each process and then `active_value` of each condition. Scenarios in which these are equal
/// differ only in faults and values of inactive processes, so they have the same runs.
pub(crate) fn active_numbers(
    alloc: Global,
    problem: &Problem,
    guards: &GuardTrees,
    scenario: &Scenario,
) -> Result<Vec<u16>, OutOfMemory>
    requires admitted { AreAdmitted problem.now guards.now }
    requires scenario { IsScenario problem.now scenario.now }
    ensures { IfOk result (λ numbers. numbers.items ≡ active_numbers problem.now scenario.now) }
{
    let mut numbers = active_faults(alloc, problem, guards, scenario)?;
    for condition in 0..problem.conditions() {
        numbers.push(active_value(problem, guards, scenario, condition))?;
    }
    Ok(numbers)
}
