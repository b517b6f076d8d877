//! The parts of columns' cubes in which what they begin tells a bound.
ghost use Rattle.std.specs.Prelude.{◌≡◌, ◌+◌, ◌≤◌, ◌<◌, ◌++◌, ◌||◌, ℕ, All, IfOk, IfSome, nat_le, nat_lt, option_to_list, true};
ghost use Rattle.std.specs.List.{list_any};
ghost use Rattle.cpg_base.specs.Duration.{duration};
ghost use Rattle.cpg_base.specs.Graph.{IsVariable, process_count};
ghost use Rattle.cpg_base.specs.Limits.{IsWithinLimits};
ghost use Rattle.cpg_base.specs.Scenario.{Scenario, IsScenario};
ghost use Rattle.cpg_cube.specs.Cube.{matches};
ghost use Rattle.cpg_cube.specs.Fit.{IsKnown};
ghost use Rattle.cpg_violation.specs.SievedRows.{IsSievedRow};
ghost use Rattle.cpg_check_heard.specs.Bounds.{variable_of};
ghost use Rattle.cpg_check_heard.specs.TellingRows.{CanTell, IsPart, is_telling, is_telling_at, is_value, row_tells};
ghost use Rattle.cpg_check_heard.specs.declared.telling_rows.Means.TheVariants.{End, Frame};

use crate::arrivals::may_have_come;
use crate::bound::LiteralBound;
use crate::telling_rows::{Means, TellingRow};
use cpg_base::{FIRST_VALUE, OutOfMemory, Problem};
use cpg_cube::{Column, Cube, Literal};
use cpg_violation::has_come;
use std::alloc::Global;

/// With how many of the fault counts, from 0 on, an execution that starts at `start` ends by `time`: with fewer faults
/// than the result it does, and with as many or more it doesn't.
fn counts_by(problem: &Problem, process: u32, start: u64, time: u64) -> u8
    requires { process < process_count problem.now }
    ensures limits { IsWithinLimits problem.now }
    ensures counts { (n : ℕ) → n ≤ problem.now.faults → nat_le (start + duration problem.now process n) time ≡ nat_lt n result }
{
    // the counts from 0 to the most faults, of which there are at most 8
    let all = problem.faults() + 1;
    // it ends later with any count
    if start > time {
        return 0;
    }
    let left = time - start;
    // the more faults, the longer it lasts, so all counts behind the first that takes too long do, too
    for count in 0..all {
        if problem.duration(process, count) > left {
            return count;
        }
    }
    all
}

/// The part of a column's cube in which the process that it starts has ended by a time, and its count or value is
/// within a bound. `None` only if there is no such scenario.
fn end_part(
    problem: &Problem,
    process: u32,
    column: &Column,
    time: u64,
    bound: LiteralBound,
) -> Result<Option<Cube>, OutOfMemory>
    requires can { CanTell problem.now bound (End process) }
    requires variable { IsVariable problem.now (variable_of bound) }
    requires cube { IsKnown problem.now column.now.cube }
    ensures part { IfOk result (IsPart problem.now (λ s. is_telling problem.now (End process) time bound s column.now)) }
    ensures known { IfOk result (λ r. IfSome r (IsKnown problem.now)) }
{
    let counts = counts_by(problem, process, column.time, time);
    // even without faults it ends later
    if counts == 0 {
        return Ok(None);
    }
    // the counts with which it has ended by then; their variable has the number of the process, which is below 128
    let come = Literal {
        variable: process as u8,
        low: 0,
        high: counts - 1,
    };
    // the column leaves none of these counts
    let Some(part) = column.cube.with(come)? else {
        return Ok(None);
    };
    let told = part.with(bound.range(problem.faults()))?;
    Ok(told)
}

/// Whether a variable is the value of a condition; false if there is no condition.
fn is_value(condition: Option<u32>, variable: u8) -> bool
    ensures { result ≡ is_value condition variable }
{
    match condition {
        Some(condition) => u64::from(FIRST_VALUE) + u64::from(condition) == u64::from(variable),
        None => false,
    }
}

/// The part of a column's cube in which its frame has come by a time and tells a bound: the whole cube if one of the
/// column's literals tells it, or else the part in which the value that the frame carries is within the bound. `None`
/// only if there is no such scenario.
fn frame_part(
    problem: &Problem,
    delay: u64,
    condition: Option<u32>,
    column: &Column,
    time: u64,
    bound: LiteralBound,
) -> Result<Option<Cube>, OutOfMemory>
    requires variable { IsVariable problem.now (variable_of bound) }
    requires cube { IsKnown problem.now column.now.cube }
    ensures part { IfOk result (IsPart problem.now (λ s. is_telling problem.now (Frame delay condition) time bound s column.now)) }
    ensures known { IfOk result (λ r. IfSome r (IsKnown problem.now)) }
{
    if !has_come(column.time, delay, time) {
        return Ok(None);
    }
    // a literal of the column tells it wherever the column matches
    if bound.is_told_by_any(column.cube.literals()) {
        let cube = column.cube.copy()?;
        return Ok(Some(cube));
    }
    // the frame doesn't carry the value that the bound is about
    if !is_value(condition, bound.variable()) {
        return Ok(None);
    }
    // the value tells the bound only where it is within it
    let told = column.cube.with(bound.range(problem.faults()))?;
    Ok(told)
}

/// The part of a column's cube in which its end or frame has come by a time and tells a bound. `None` only if there is
/// no such scenario.
pub(crate) fn part_of(
    problem: &Problem,
    means: Means,
    column: &Column,
    time: u64,
    bound: LiteralBound,
) -> Result<Option<Cube>, OutOfMemory>
    requires can { CanTell problem.now bound means }
    requires variable { IsVariable problem.now (variable_of bound) }
    requires cube { IsKnown problem.now column.now.cube }
    ensures part { IfOk result (IsPart problem.now (λ s. is_telling problem.now means time bound s column.now)) }
    ensures known { IfOk result (λ r. IfSome r (IsKnown problem.now)) }
{
    match means {
        Means::End { process } => {
            let part = end_part(problem, process, column, time, bound)?;
            Ok(part)
        }
        Means::Frame { delay, condition } => {
            let part = frame_part(problem, delay, condition, column, time, bound)?;
            Ok(part)
        }
    }
}

/// The part of the cube of the column at `place` in which its end or frame has come by a time and tells a bound. `None`
/// only if there is no such scenario, or no column is there.
fn part_at(
    problem: &Problem,
    means: Means,
    columns: &[Column],
    place: u32,
    time: u64,
    bound: LiteralBound,
) -> Result<Option<Cube>, OutOfMemory>
    requires can { CanTell problem.now bound means }
    requires variable { IsVariable problem.now (variable_of bound) }
    requires columns { All (λ c. IsKnown problem.now c.cube) columns.now }
    ensures part { IfOk result (IsPart problem.now (λ s. is_telling_at problem.now means time bound columns.now s place)) }
    ensures known { IfOk result (λ r. IfSome r (IsKnown problem.now)) }
{
    let Some(column) = columns.get(place as usize) else {
        return Ok(None);
    };
    let part = part_of(problem, means, column, time, bound)?;
    Ok(part)
}

/// Adds a part to `told`; nothing if it is `None`.
pub(crate) fn add(told: &mut Vec<Cube>, part: Option<Cube>) -> Result<(), OutOfMemory>
    ensures { IfOk result (λ _. told.new.items ≡ told.old.items ++ option_to_list part) }
{
    if let Some(cube) = part {
        told.push(cube)?;
    }
    Ok(())
}

/// Adds to `told` for each column of a row that may match together with a cube the part in which it tells a bound by a
/// time. So where the cube matches, one of `told` does exactly where one did before, or the row tells the bound
/// (`told`).
pub(crate) fn add_row(
    alloc: Global,
    problem: &Problem,
    row: &TellingRow<'_>,
    cube: &Cube,
    time: u64,
    bound: LiteralBound,
    told: &mut Vec<Cube>,
) -> Result<(), OutOfMemory>
    requires can { CanTell problem.now bound row.now.means }
    requires variable { IsVariable problem.now (variable_of bound) }
    requires columns { All (λ c. IsKnown problem.now c.cube) row.now.sieved.now.columns.now }
    requires row { IsSievedRow row.now.sieved.now.columns.now row.now.sieved.now }
    requires told { All (IsKnown problem.now) told.old.items }
    ensures known { IfOk result (λ _. All (IsKnown problem.now) told.new.items) }
    ensures told { IfOk result (λ _. (s : Scenario) → IsScenario problem.now s → matches cube.now s ≡ true
        → list_any (λ b. matches b s) told.new.items
        ≡ (list_any (λ b. matches b s) told.old.items
        || row_tells problem.now row.now.means time bound row.now.sieved.now.columns.now s)) }
{
    let sieved = row.sieved;
    // even the first column comes too late
    if !may_have_come(row.means, sieved.first, time) {
        return Ok(());
    }
    // each column that matches together with the cube is at one of these places
    let places = sieved.sieve.candidates(alloc, sieved.columns, cube)?;
    for place in places.as_slice() {
        let part = part_at(problem, row.means, sieved.columns, *place, time, bound)?;
        add(told, part)?;
    }
    Ok(())
}
