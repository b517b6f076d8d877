//! The quick test of V9, which asks nothing of other items: every execution ends by its due.
ghost use Rattle.std.specs.Prelude.{◌≡◌, ◌≤◌, ◌<◌, ◌+◌, All, IfOk, true};
ghost use Rattle.std.specs.Bool.{OnTrue};
ghost use Rattle.cpg_base.specs.Duration.{duration, due};
ghost use Rattle.cpg_base.specs.Graph.{item_count, process_count};
ghost use Rattle.cpg_base.specs.Scenario.{Scenario, IsScenario, fault_of};
ghost use Rattle.cpg_cube.specs.Cube.{matches};
ghost use Rattle.cpg_table.specs.declared.rule.Rule.{Rule};
ghost use Rattle.cpg_violation.specs.Sure.{AreSure, IsSure};

use crate::longest::longest;
use crate::marks::tested_marks;
use cpg_base::{OutOfMemory, Problem};
use cpg_cube::Column;
use cpg_rules::Admitted;
use cpg_table::Tables;
use cpg_tree::Space;
use std::alloc::Global;

/// Whether an execution that a column starts ends by its process's due in every scenario that the column matches. False
/// guarantees nothing.
fn ends_in_time(problem: &Problem, process: u32, column: &Column) -> bool
    requires { process < process_count problem.now }
    ensures { OnTrue result ((s : Scenario) → IsScenario problem.now s → matches column.now.cube s ≡ true →
        column.now.time + duration problem.now process (fault_of s process) ≤ due problem.now process) }
{
    // a column that matches no scenario starts nothing
    let Some(space) = Space::of(problem.faults(), column.cube.literals()) else {
        return true;
    };
    // if the sum is too great for 64 bits, it is past every due
    let end = column
        .time
        .saturating_add(longest(problem, process, &space));
    end <= problem.due(process)
}

/// Whether an execution ends by its process's due, whichever of these columns starts it. False guarantees nothing.
fn all_end_in_time(problem: &Problem, process: u32, columns: &[Column]) -> bool
    requires { process < process_count problem.now }
    ensures { OnTrue result (All (λ c. (s : Scenario) → IsScenario problem.now s → matches c.cube s ≡ true →
        c.time + duration problem.now process (fault_of s process) ≤ due problem.now process) columns.now) }
{
    let most = longest(problem, process, &Space::whole(problem.faults()));
    let due = problem.due(process);
    for column in columns {
        // most columns are early enough for the greatest number of faults, and need no space
        if column.time.saturating_add(most) <= due {
            continue;
        }
        if !ends_in_time(problem, process, column) {
            return false;
        }
    }
    true
}

/// Whether V9 is known to hold at an item.
fn is_sure(problem: &Problem, tables: &Tables, item: u32) -> bool
    requires { item < item_count problem.now }
    ensures { OnTrue result (IsSure problem.now tables.now.nodes Rule.Due item) }
{
    // messages and broadcasts have no due
    if item as usize >= problem.processes().len() {
        return true;
    }
    all_end_in_time(problem, item, tables.columns_of(item))
}

/// A mark for each item, by number: whether V9 is known to hold there. It may hold at one that isn't marked, too. The
/// one error is `OutOfMemory`.
pub fn due_marks(
    alloc: Global,
    admitted: &Admitted,
    tables: &Tables,
) -> Result<Vec<bool>, OutOfMemory>
    ensures { IfOk result (λ marks. AreSure admitted.now.graph tables.now.nodes Rule.Due marks.items) }
{
    let problem = admitted.problem();
    let items = problem.item_count();
    let marks = tested_marks(alloc, items, |item| is_sure(problem, tables, item))?;
    Ok(marks)
}
