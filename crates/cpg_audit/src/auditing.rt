//! The least scenario that gives a log.
ghost use Rattle.std.specs.Prelude.{◌≡◌, ◌++◌, ℕ, All, IfNone, IfOk, IfSome, map};
ghost use Rattle.std.specs.List.{flat_map, list_any};
ghost use Rattle.cpg_base.specs.Graph.{item_count};
ghost use Rattle.cpg_base.specs.Numbers.{numbers_below};
ghost use Rattle.cpg_base.specs.Scenario.{Scenario, IsScenario, IsLeast};
ghost use Rattle.cpg_cube.specs.Cube.{matches};
ghost use Rattle.cpg_cube.specs.Fit.{IsKnown};
ghost use Rattle.cpg_table.specs.Table.{columns_of};
ghost use Rattle.cpg_table.specs.Valid.{IsValid};
ghost use Rattle.cpg_tree.specs.Space.{IsInSpace};
ghost use Rattle.cpg_violation.specs.Heads.{IsHeadFor};
ghost use Rattle.cpg_audit.specs.Excluded.{excluded_cubes, excluded_of, is_excluded};
ghost use Rattle.cpg_audit.specs.Gives.{Gives};
ghost use Rattle.cpg_log.specs.Log.{IsLog};
ghost use Rattle.cpg_audit.specs.Narrowing.{Leaves};

use crate::idle::all_idle;
use crate::log_order::in_log_order;
use crate::narrowing::{cube_of, narrow, take_off_all};
use cpg_base::{OutOfMemory, Problem, Scenario};
use cpg_cover::uncovered;
use cpg_cube::{Column, Cube};
use cpg_log::Log;
use cpg_rules::Admitted;
use cpg_table::Tables;
use cpg_tree::Space;
use std::alloc::Global;

/// Whether a log until `until` excludes that an item is due at `time`. `logged` is when the log names the item, if it
/// does.
fn is_excluded(until: u64, logged: Option<u64>, time: u64) -> bool
    ensures { result ≡ is_excluded until logged time }
{
    match logged {
        // what isn't logged isn't due up to the log's end
        None => time <= until,
        // what is logged is due at that time
        Some(logged) => time != logged,
    }
}

/// The cubes of those of an item's columns whose times a log until `until` excludes. `logged` is when the log names the item,
/// if it does. The one error is `OutOfMemory`.
fn excluded_cubes<'a>(
    alloc: Global,
    until: u64,
    logged: Option<u64>,
    columns: &'a [Column],
) -> Result<Vec<&'a Cube>, OutOfMemory>
    ensures { IfOk result (λ by. map (λ b. b.now) by.items ≡ excluded_cubes until logged columns.now) }
{
    let mut by = Vec::new(alloc);
    for column in columns {
        if is_excluded(until, logged, column.time) {
            by.push(&column.cube)?;
        }
    }
    Ok(by)
}

/// The cubes of those columns of all items whose times a log excludes. A scenario that one of them matches doesn't give
/// the log. `space` is narrowed, item by item, to what they leave of it, as far as ranges can say; cubes that are found
/// to match nothing of the rest are left out. The one error is `OutOfMemory`.
fn excluded<'a>(
    alloc: Global,
    problem: &Problem,
    tables: &'a Tables,
    log: &Log,
    space: &mut Space,
) -> Result<Vec<&'a Cube>, OutOfMemory>
    requires { (x : ℕ) → All (λ c. IsKnown problem.now c.cube) (columns_of tables.now.nodes x) }
    ensures same { IfOk result (λ kept. (s : Scenario) → IsInSpace space.old s → list_any (λ b. matches b.now s) kept.items ≡ list_any (λ b.
        matches b s) (flat_map (excluded_of tables.entry.now.nodes log.now) (numbers_below (item_count problem.now)))) }
    ensures space { IfOk result (λ kept. (s : Scenario) → IsInSpace space.old s → Leaves space.new kept.items s) }
    ensures known { IfOk result (λ kept. All (λ b. IsKnown problem.now b.now) kept.items) }
{
    let ordered = in_log_order(alloc, problem, log)?;
    let mut kept = Vec::new(alloc);
    for timed in ordered.as_slice() {
        let columns = tables.columns_of(timed.item);
        let by = excluded_cubes(alloc, log.until(), log.time_of(timed.item), columns)?;
        let first = kept.len();
        // the two passes go over the item's cubes in opposite directions, and take numbers off the two ends of ranges
        take_off_all(space, by.as_slice(), &mut kept)?;
        narrow(space, &kept[first..]);
    }
    Ok(kept)
}

/// Adds the cubes of these columns to `by`. The one error is `OutOfMemory`.
fn push_cubes<'a>(columns: &'a [Column], by: &mut Vec<&'a Cube>) -> Result<(), OutOfMemory>
    ensures { IfOk result (λ _. map (λ b. b.now) by.new.items ≡ map (λ b. b.now) by.old.items ++ map (λ c. c.cube) columns.now) }
{
    for column in columns {
        by.push(&column.cube)?;
    }
    Ok(())
}

/// The least scenario in the urgency order that gives a log: what is due on all nodes up to the log's time is just what
/// the log names, each at its time. `None` exactly if no scenario of at most the graph's faults gives it. Scenarios
/// aren't gone over one by one. The one error is `OutOfMemory`.
pub fn audit(
    alloc: Global,
    admitted: &Admitted,
    tables: &Tables,
    log: &Log,
) -> Result<Option<Scenario>, OutOfMemory>
    requires head { IsHeadFor admitted.now.graph tables.now.head }
    requires valid { IsValid admitted.now.graph tables.now.nodes }
    requires log { IsLog admitted.now.graph log.now }
    ensures least { IfOk result (λ r. IfSome r (IsLeast admitted.now.graph admitted.now.order (Gives admitted.now.graph tables.now.nodes log.now))) }
    ensures none { IfOk result (λ r. IfNone r ((s : Scenario) → IsScenario admitted.now.graph s → ¬ Gives admitted.now.graph tables.now.nodes log.now s)) }
{
    let problem = admitted.problem();
    let order = admitted.order();
    // called for its clause alone that the tables are lawful under their head
    let _head = tables.head();
    let idle = all_idle(alloc, admitted, log.acts())?;
    let mut space = Space::whole(problem.faults());
    let mut by = excluded(alloc, problem, tables, log, &mut space)?;
    push_cubes(idle.as_slice(), &mut by)?;
    // what is left is the least scenario of the space that none of the cubes matches
    let cube = cube_of(alloc, problem, &space)?;
    let found = uncovered(alloc, problem, order, &cube, by.as_slice())?;
    Ok(found)
}
