//! Whether a scenario is the least that a cube matches. An entry is a column that isn't merged yet; each is taken once, in
//! the least scenario of its cube.
ghost use Rattle.std.specs.Prelude.{◌≡◌, ◌<◌, ◌≤◌, ◌↔◌, ◌++◌, ℕ, IsTrue, IfOk, OnOk};
ghost use Rattle.std.specs.Option.{option_to_list};
ghost use Rattle.cpg_base.specs.Scenario.{IsScenario, number_of};
ghost use Rattle.cpg_cube.specs.Cube.{IsRising, low_in};
ghost use Rattle.cpg_cube.specs.Fit.{lows};
ghost use Rattle.cpg_list.specs.Narrowing.{from_variable, front_low, as_number, IsEntryWith};

use cpg_base::{FIRST_VALUE, OutOfMemory, Problem, Scenario};
use cpg_cube::{Column, Cube, Literal};

/// Returns the literals from the first on whose variable is `variable` or above.
fn from_variable(variable: u8, literals: &[Literal]) -> &[Literal]
    ensures { result.now ≡ from_variable variable literals.now }
{
    match literals.split_first() {
        Some((first, rest)) if first.variable < variable => from_variable(variable, rest),
        _ => literals,
    }
}

/// Returns the low of the first literal if it is on the variable, and 0 otherwise.
fn front_low(variable: u8, literals: &[Literal]) -> u8
    ensures { result ≡ front_low variable literals.now }
{
    match literals.split_first() {
        Some((first, _)) if first.variable == variable => first.low,
        _ => 0,
    }
}

/// Returns a low as a number that the variable can have: a fault count as it is, and a value as 0 or 1.
fn as_number(variable: u8, low: u8) -> u8
    ensures { result ≡ as_number variable low }
{
    if variable < FIRST_VALUE {
        low
    } else {
        low.min(1)
    }
}

/// Whether each variable from `first` on and below `end` has in a scenario the least number that the literals allow.
fn has_lows(scenario: &Scenario, literals: &[Literal], first: u8, end: u8) -> bool
    requires { IsRising literals.now }
    ensures { IsTrue result ↔ ((v : ℕ) → first ≤ v → v < end → number_of scenario.now v ≡ as_number v (low_in literals.now v)) }
{
    // the literals are in the order of their variables, so one walk down them is enough: what is below `variable` is
    // passed for good
    let mut rest = literals;
    for variable in first..end {
        rest = from_variable(variable, rest);
        if scenario.number(variable) != as_number(variable, front_low(variable, rest)) {
            return false;
        }
    }
    true
}

/// Whether a scenario has the least number of each variable that a cube allows.
fn is_least(problem: &Problem, cube: &Cube, scenario: &Scenario) -> bool
    requires { IsScenario problem.now scenario.now }
    ensures { IsTrue result ↔ (lows problem.now cube.now ≡ scenario.now) }
{
    let literals = cube.literals();
    // there are at most 128 processes and 32 conditions, so these casts fit
    let processes = problem.processes().len() as u8;
    // the fault counts of the processes first, and then the values of the conditions
    if !has_lows(scenario, literals, 0, processes) {
        return false;
    }
    let end = FIRST_VALUE + problem.conditions() as u8;
    has_lows(scenario, literals, FIRST_VALUE, end)
}

/// Returns the entry of a time and a cube, which is the column of both, or `None` if the scenario isn't the least of the cube.
pub(crate) fn kept(
    problem: &Problem,
    scenario: &Scenario,
    time: u64,
    cube: &Cube,
) -> Result<Option<Column>, OutOfMemory>
    requires { IsScenario problem.now scenario.now }
    ensures { IfOk result (IsEntryWith problem.now scenario.now time cube.now) }
{
    if !is_least(problem, cube, scenario) {
        return Ok(None);
    }
    let cube = cube.copy()?;
    Ok(Some(Column { time, cube }))
}

/// Adds `entry` to `entries`, if it is one.
pub(crate) fn push_entry(
    entries: &mut Vec<Column>,
    entry: Option<Column>,
) -> Result<(), OutOfMemory>
    ensures { OnOk result (entries.new.items ≡ entries.old.items ++ option_to_list entry) }
{
    if let Some(entry) = entry {
        entries.push(entry)?;
    }
    Ok(())
}
