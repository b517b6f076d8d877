//! Scenarios in which an execution ends after a time. The more faults it has, the later it ends.
ghost use Rattle.std.specs.Prelude.{◌≡◌, ◌≤◌, ◌<◌, ◌+◌, ◌^◌, ◌&&◌, ℕ, IfNone, IfOk, IfSome, List, false, nat_lt};
ghost use Rattle.cpg_base.specs.Duration.{duration};
ghost use Rattle.cpg_base.specs.Graph.{process_count};
ghost use Rattle.cpg_base.specs.First.{IsFirst};
ghost use Rattle.cpg_base.specs.Scenario.{Scenario, IsScenario, fault_of};
ghost use Rattle.cpg_cube.specs.Cube.{matches};
ghost use Rattle.cpg_cube.specs.Fit.{IsKnown};
ghost use Rattle.cpg_violation.specs.Room.{HasRoom};
ghost use Rattle.cpg_check_time.specs.Columns.{IsColumn};
ghost use Rattle.cpg_check_time.specs.Lateness.{IsLeastCount, ends_after};

use cpg_base::{OutOfMemory, Problem, Scenario};
use cpg_cube::{Column, Cube, Literal};
use cpg_violation::met;

/// The least count of faults with which an execution that starts at `start` ends after `time`. `None` exactly if it
/// ends by `time` with each number of faults that the graph allows.
fn least_count(problem: &Problem, process: u32, start: u64, time: u64) -> Option<u8>
    requires process { process < process_count problem.now }
    requires start { start < 2 ^ 60 }
    ensures some { IfSome result (IsLeastCount problem.now process start time) }
    ensures few { IfSome result (λ f. f ≤ problem.now.faults) }
    ensures none { IfNone result ((n : ℕ) → n ≤ problem.now.faults → start + duration problem.now process n ≤ time) }
{
    // one more than the most faults, of which there are at most 8
    let end = problem.faults() + 1;
    for faults in 0..end {
        if start + problem.duration(process, faults) > time {
            return Some(faults);
        }
    }
    None
}

/// The part of a cube in whose scenarios an execution of a process that starts at `start` ends after `time`. `None`
/// only if it does in no scenario that the cube matches.
pub(crate) fn late_part(
    problem: &Problem,
    cube: &Cube,
    process: u32,
    start: u64,
    time: u64,
) -> Result<Option<Cube>, OutOfMemory>
    requires process { process < process_count problem.now }
    requires start { start < 2 ^ 60 }
    requires cube { IsKnown problem.now cube.now }
    ensures part { IfOk result (λ r. IfSome r (λ part. (s : Scenario) → IsScenario problem.now s
        → matches part s ≡ (matches cube.now s && ends_after problem.now process start time s))) }
    ensures known { IfOk result (λ r. IfSome r (IsKnown problem.now)) }
    ensures none { IfOk result (λ r. IfNone r ((s : Scenario) → IsScenario problem.now s
        → (matches cube.now s && ends_after problem.now process start time s) ≡ false)) }
{
    let Some(low) = least_count(problem, process, start, time) else {
        return Ok(None);
    };
    let high = problem.faults();
    // the variable of a fault count has the number of its process
    let part = cube.with(Literal {
        variable: process as u8,
        low,
        high,
    })?;
    Ok(part)
}

/// The least scenario that a cube and a column match, and in which the execution that the column starts ends after
/// `time`. `None` exactly if there is none. `process` is the column's. Any scenario of the graph may be passed as
/// `room`, and is overwritten.
pub(crate) fn least_late(
    problem: &Problem,
    cube: &Cube,
    column: &Column,
    process: u32,
    time: u64,
    room: &mut Scenario,
) -> Result<Option<Scenario>, OutOfMemory>
    requires cube { IsKnown problem.now cube.now }
    requires column { IsColumn problem.now column.now }
    requires process { process < process_count problem.now }
    requires room { HasRoom problem.now room.old }
    ensures room { HasRoom problem.now room.new }
    ensures first { IfOk result (λ r. (order : List ℕ) → IsFirst problem.now order (λ s. matches cube.now s
        && (matches column.now.cube s && ends_after problem.now process column.now.time time s)) r) }
{
    // most pairs match no scenario together, and then no part need be made
    if !cube.meets(&column.cube, problem, room) {
        return Ok(None);
    }
    // the execution always ends by then
    let Some(part) = late_part(problem, &column.cube, process, column.time, time)? else {
        return Ok(None);
    };
    let found = met(problem, cube, &part, room)?;
    Ok(found)
}
