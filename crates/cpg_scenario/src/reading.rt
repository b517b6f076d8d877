//! Reading a scenario file.
ghost use Rattle.std.specs.Prelude.{◌≡◌, ◌≢◌, ◌<◌, ◌≤◌, ◌⊎◌, Err, IfOk, IfSome, IfNone, length, map, true, false, pos};
ghost use Rattle.std.specs.Bool.{OnTrue};
ghost use Rattle.toml.specs.View.{table_view};
ghost use Rattle.cpg_base.specs.Numbers.{numbers_below};
ghost use Rattle.cpg_base.specs.Graph.{process_count, condition_count};
ghost use Rattle.cpg_base.specs.Duration.{duration};
ghost use Rattle.cpg_base.specs.Limits.{IsWithinLimits};
ghost use Rattle.cpg_base.specs.Natural.{natural};
ghost use Rattle.cpg_scenario.specs.File.{value_given, may_have_value, has_conditions, values_of, count_given, count_of, is_natural, keeps_budget, length_given, length_or, is_length_if, keeps_lengths, lengths_of, played_of, file_of, IsPlayed};

use crate::entries::{flag_at, has_fields, has_names, integer_at};
use crate::fault::{Cause, ScenarioFault};
use cpg_base::{Lengths, OutOfMemory, Problem, Scenario};
use std::alloc::Global;
use toml::Table;

/// A scenario to play, and how long each execution takes in it.
#[derive(Drop)]
pub struct Played {
    /// The value of each condition and the fault count of each process.
    pub scenario: Scenario,
    /// The length of each process's execution, in time units.
    pub lengths: Lengths,
}

/// Returns the value that a process is given, or `None` if it is given none.
fn value_given(problem: &Problem, document: &Table, process: u32) -> Option<bool>
    requires { process < process_count problem.now }
    ensures { result ≡ value_given problem.now (table_view document.now) process }
{
    let name = problem.processes()[process as usize].name.as_str();
    flag_at(document, "values", name)
}

/// Whether a process is given no value, or has a condition.
fn may_have_value(problem: &Problem, document: &Table, process: u32) -> bool
    requires { process < process_count problem.now }
    ensures { result ≡ may_have_value problem.now (table_view document.now) process }
{
    // without a value no condition is needed
    if value_given(problem, document, process).is_none() {
        return true;
    }
    problem.condition_of(process).is_some()
}

/// Whether each process that is given a value has a condition.
fn has_conditions(problem: &Problem, document: &Table) -> bool
    ensures { result ≡ has_conditions problem.now (table_view document.now) }
{
    // there are at most 128 processes, so the cast keeps their count
    for process in 0..problem.processes().len() as u32 {
        if !may_have_value(problem, document, process) {
            return false;
        }
    }
    true
}

/// Sets the value of each condition to the given one, or to false if none is given.
fn set_values(problem: &Problem, document: &Table, scenario: &mut Scenario)
    requires { length scenario.old.values ≡ condition_count problem.now }
    ensures { scenario.new ≡ record scenario.old { values = values_of problem.now (table_view document.now) } }
{
    for condition in 0..problem.conditions() {
        let given = value_given(problem, document, problem.process_of(condition));
        scenario.set_value(condition, given.unwrap_or(false));
    }
}

/// Returns the fault count that a process is given, or 0 if it is given none.
fn count_given(problem: &Problem, document: &Table, process: u32) -> i64
    requires { process < process_count problem.now }
    ensures { result ≡ count_given problem.now (table_view document.now) process }
{
    let name = problem.processes()[process as usize].name.as_str();
    integer_at(document, "faults", name).unwrap_or(0)
}

/// Returns a fault count if it is from 0 to `left`, the faults that earlier processes leave of the most in one cycle; `None`
/// otherwise.
fn count_within(count: i64, left: u8) -> Option<u8>
    requires { left ≤ 8 }
    ensures some { IfSome result (λ n. (count ≡ pos n) × (n ≤ left)) }
    ensures none { IfNone result ((is_natural count ≡ false) ⊎ (left < natural count)) }
{
    if count < 0 {
        return None;
    }
    if count > i64::from(left) {
        return None;
    }
    // it is from 0 to `left`, so the cast keeps it
    Some(count as u8)
}

/// Sets the fault count of each process to the given one, or to 0. Returns false if a count is below 0 or all together
/// are more than the graph allows; then some may not be set.
fn set_faults(problem: &Problem, document: &Table, scenario: &mut Scenario) -> bool
    requires { length scenario.old.faults ≡ process_count problem.now }
    ensures kept { result ≡ keeps_budget problem.now (table_view document.now) }
    ensures faults { OnTrue result (scenario.new ≡ record scenario.old {
      faults = map (count_of problem.now (table_view document.now))
          (numbers_below (process_count problem.now));
    }) }
{
    let mut left = problem.faults();
    // there are at most 128 processes, so the cast keeps their count
    for process in 0..problem.processes().len() as u32 {
        let Some(count) = count_within(count_given(problem, document, process), left) else {
            return false;
        };
        left -= count;
        scenario.set_fault(process, count);
    }
    true
}

/// Returns the length that is given, `longest` if none is, or `None` if the given one isn't from 1 to `longest`.
fn length_within(given: Option<i64>, longest: u64) -> Option<u64>
    ensures some { IfSome result (λ n. (n ≡ length_or longest given) × (is_length_if longest given ≡ true)) }
    ensures none { IfNone result (is_length_if longest given ≡ false) }
{
    // an execution that is given no length takes its longest time
    let Some(given) = given else {
        return Some(longest);
    };
    if given < 1 {
        return None;
    }
    // at least 1, so the cast keeps it
    let length = given as u64;
    if length > longest {
        return None;
    }
    Some(length)
}

/// Returns the length that the execution of a process is given, or `None` if it is given none.
fn length_given(problem: &Problem, document: &Table, process: u32) -> Option<i64>
    requires { process < process_count problem.now }
    ensures { result ≡ length_given problem.now (table_view document.now) process }
{
    let name = problem.processes()[process as usize].name.as_str();
    integer_at(document, "lengths", name)
}

/// Sets each length that is given; before, each is the longest of its process. Returns false if a given one is below 1 or above
/// the longest; then some may not be set.
fn set_lengths(problem: &Problem, document: &Table, lengths: &mut Lengths) -> bool
    requires { lengths.old ≡ map (λ p. duration problem.now p (count_of problem.now (table_view document.now) p)) (numbers_below (process_count problem.now)) }
    ensures kept { result ≡ keeps_lengths problem.now (table_view document.now) }
    ensures within { IsWithinLimits problem.now }
    ensures lengths { OnTrue result (lengths.new ≡ lengths_of problem.now (table_view document.now)) }
{
    // there are at most 128 processes, so the cast keeps their count
    for process in 0..problem.processes().len() as u32 {
        let longest = lengths.length_of(process);
        let Some(length) = length_within(length_given(problem, document, process), longest) else {
            return false;
        };
        lengths.set(process, length);
    }
    true
}

/// Returns the scenario and the lengths that a document gives. An error is the first cause that is there, or that
/// memory runs out.
fn read_played(alloc: Global, problem: &Problem, document: &Table) -> Result<Played, ScenarioFault>
    ensures document { result ≢ Err ScenarioFault.OutOfMemory → result ≡ played_of problem.now (table_view document.now) }
    ensures played { IfOk result (λ p. IsPlayed problem.now p) }
{
    // each cause is looked for in the whole document before the next one
    if !has_fields(document) {
        return Err(ScenarioFault::Bad(Cause::Field));
    }
    if !has_names(problem, document) {
        return Err(ScenarioFault::Bad(Cause::Unknown));
    }
    if !has_conditions(problem, document) {
        return Err(ScenarioFault::Bad(Cause::Condition));
    }
    // the last two tests are done while counts and lengths are set
    let mut scenario = Scenario::zero(alloc, problem)?;
    if !set_faults(problem, document, &mut scenario) {
        return Err(ScenarioFault::Bad(Cause::Budget));
    }
    set_values(problem, document, &mut scenario);
    let mut lengths = Lengths::full(alloc, problem, &scenario)?;
    if !set_lengths(problem, document, &mut lengths) {
        return Err(ScenarioFault::Bad(Cause::Length));
    }
    Ok(Played { scenario, lengths })
}

/// Reads the bytes of a scenario file for a graph and returns its scenario and the lengths of its executions. A process
/// that isn't named has no faults, its value is false, and it takes its longest time. An error is the first cause that
/// is there, each looked for in the whole file before the next, or that memory runs out.
pub fn read_scenario(
    alloc: Global,
    problem: &Problem,
    bytes: &[u8],
) -> Result<Played, ScenarioFault>
    ensures file { result ≢ Err ScenarioFault.OutOfMemory → result ≡ file_of problem.now bytes.now }
    ensures played { IfOk result (λ p. IsPlayed problem.now p) }
{
    match toml::table_from_slice(alloc, bytes) {
        Ok(document) => read_played(alloc, problem, &document),
        // memory ran out, or the bytes spell no document
        Err(error) => {
            if error.is_memory() {
                Err(ScenarioFault::OutOfMemory)
            } else {
                Err(ScenarioFault::Bad(Cause::Toml))
            }
        }
    }
}
