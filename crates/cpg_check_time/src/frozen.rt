//! V8: a frozen item has one time.
ghost use Rattle.std.specs.Prelude.{◌≡◌, ◌<◌, All, IfNone, IfOk, IfSome, map};
ghost use Rattle.std.proofs.Common.{refl};
ghost use Rattle.cpg_base.specs.Graph.{item_count};
ghost use Rattle.cpg_base.specs.Numbers.{numbers_below};
ghost use Rattle.cpg_rules.specs.Admission.{IsAdmitted};
ghost use Rattle.cpg_table.specs.declared.rule.Rule.{Rule};
ghost use Rattle.cpg_violation.specs.Heads.{IsHeadFor};
ghost use Rattle.cpg_violation.specs.Sure.{AreSure};
ghost use Rattle.cpg_violation.specs.Violation.{Holds, IsFirstViolation};
ghost use Rattle.cpg_check_time.specs.Columns.{IsColumn};
ghost use Rattle.cpg_check_time.specs.Frozen.{frozen_time, possible_time};

use crate::judge::{TimeJudge, first_violation};
use cpg_base::{OutOfMemory, Problem, Scenario};
use cpg_cube::Column;
use cpg_rules::Admitted;
use cpg_table::{Fault, Rule, Tables};
use std::alloc::Global;

/// The time of the first column that matches in some scenario; `None` exactly if none does.
fn possible_time(problem: &Problem, columns: &[Column]) -> Option<u64>
    requires { All (IsColumn problem.now) columns.now }
    ensures { result ≡ possible_time problem.now columns.now }
{
    for column in columns {
        // a column that asks for too many faults matches in no scenario
        if column.cube.is_met(problem.faults()) {
            return Some(column.time);
        }
    }
    None
}

/// The time that an item has to have if it is frozen: that of its first column that matches in some scenario. `None`
/// exactly if it isn't frozen, or no column matches in any.
fn frozen_time(admitted: &Admitted, tables: &Tables, item: u32) -> Option<u64>
    requires head { IsHeadFor admitted.now.graph tables.now.head }
    requires item { item < item_count admitted.now.graph }
    ensures { result ≡ frozen_time admitted.now.graph tables.now.nodes item }
{
    let problem = admitted.problem();
    // an item that isn't frozen may have many times
    if !problem.is_frozen(item) {
        return None;
    }
    possible_time(problem, tables.columns_of(item))
}

/// Judges V8, by the one time that each frozen item has to have.
#[derive(Drop)]
struct FrozenItems {
    /// For each item, by number, the time that it has to have; `None` if it isn't frozen, or no column of it ever
    /// matches.
    times: Vec<Option<u64>>,
}

/// For each item, by number, the time that it has to have; `None` if it isn't frozen, or no column of it ever matches.
fn frozen_times(
    alloc: Global,
    admitted: &Admitted,
    tables: &Tables,
) -> Result<Vec<Option<u64>>, OutOfMemory>
    requires { IsHeadFor admitted.now.graph tables.now.head }
    ensures { IfOk result (λ times. times.items ≡ map (frozen_time admitted.now.graph tables.now.nodes) (numbers_below (item_count admitted.now.graph))) }
{
    let count = admitted.problem().item_count();
    let mut times = Vec::new(alloc);
    times.reserve(count as usize)?;
    for item in 0..count {
        times.push(frozen_time(admitted, tables, item))?;
    }
    Ok(times)
}

impl TimeJudge for FrozenItems {
    ghost rule = { Rule.Frozen };

    // the times are those of the graph and its tables
    ghost suits = { λ judge g tables. judge.times.items ≡ map (frozen_time g tables) (numbers_below (item_count g)) };

    /// The least scenario that a column of an item matches, if its time isn't the one that the item has to have. `None`
    /// exactly if the column keeps V8. Only the contract names `tables`.
    fn least(
        &self,
        alloc: Global,
        admitted: &Admitted,
        tables: &Tables,
        item: u32,
        column: &Column,
    ) -> Result<Option<Scenario>, OutOfMemory> {
        // the item isn't frozen, or none of its columns matches in any scenario
        let Some(time) = self.times[item as usize] else {
            return Ok(None);
        };
        if time == column.time {
            return Ok(None);
        }
        // it breaks the rule in each scenario that it matches
        let least = column.cube.least(alloc, admitted.problem())?;
        Ok(least)
    }

    // V8 is neither V2 nor V3
    ghost alone = { refl };
}

/// The first violation of V8, by item and column, with the least scenario in the urgency order in which it occurs: the
/// item is frozen, the column matches, and its time isn't that of the row's first column that matches in any scenario.
/// `None` exactly if the rule holds. Items at which it is marked as sure are left out.
pub(crate) fn check_frozen(
    alloc: Global,
    admitted: &Admitted,
    tables: &Tables,
    marks: &[bool],
) -> Result<Option<Fault>, OutOfMemory>
    requires head { IsHeadFor admitted.now.graph tables.now.head }
    requires marks { AreSure admitted.now.graph tables.now.nodes Rule.Frozen marks.now }
    ensures none { IfOk result (λ r. IfNone r (Holds admitted.now.graph tables.now.nodes Rule.Frozen)) }
    ensures first { IfOk result (λ r. IfSome r (IsFirstViolation admitted.now.graph admitted.now.order tables.now.nodes Rule.Frozen)) }
{
    let times = frozen_times(alloc, admitted, tables)?;
    let found = first_violation(
        alloc,
        admitted,
        tables,
        Rule::Frozen,
        &FrozenItems { times },
        marks,
    )?;
    Ok(found)
}
