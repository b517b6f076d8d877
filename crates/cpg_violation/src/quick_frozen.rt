//! The quick test of V8, which asks nothing of other items: a frozen item has one time.
ghost use Rattle.std.specs.Prelude.{◌≡◌, ◌<◌, ℕ, All, IfOk};
ghost use Rattle.std.specs.Bool.{OnTrue};
ghost use Rattle.cpg_base.specs.Graph.{item_count};
ghost use Rattle.cpg_table.specs.declared.rule.Rule.{Rule};
ghost use Rattle.cpg_violation.specs.Sure.{AreSure, IsSure};

use crate::marks::tested_marks;
use cpg_base::{OutOfMemory, Problem};
use cpg_cube::Column;
use cpg_rules::Admitted;
use cpg_table::Tables;
use std::alloc::Global;

/// Whether all these columns have one time, also those that match in no scenario.
fn is_one_time(columns: &[Column]) -> bool
    ensures { OnTrue result ((time : ℕ) × All (λ c. c.time ≡ time) columns.now) }
{
    // no column has another time than the others
    let Some(first) = columns.first() else {
        return true;
    };
    let time = first.time;
    for column in columns {
        if column.time != time {
            return false;
        }
    }
    true
}

/// Whether V8 is known to hold at an item.
fn is_sure(problem: &Problem, tables: &Tables, item: u32) -> bool
    requires { item < item_count problem.now }
    ensures { OnTrue result (IsSure problem.now tables.now.nodes Rule.Frozen item) }
{
    // the rule is about frozen items alone
    if !problem.is_frozen(item) {
        return true;
    }
    is_one_time(tables.columns_of(item))
}

/// A mark for each item, by number: whether V8 is known to hold there. It may hold at one that isn't marked, too. The
/// one error is `OutOfMemory`.
pub fn frozen_marks(
    alloc: Global,
    admitted: &Admitted,
    tables: &Tables,
) -> Result<Vec<bool>, OutOfMemory>
    ensures { IfOk result (λ marks. AreSure admitted.now.graph tables.now.nodes Rule.Frozen marks.items) }
{
    let problem = admitted.problem();
    let items = problem.item_count();
    let marks = tested_marks(alloc, items, |item| is_sure(problem, tables, item))?;
    Ok(marks)
}
