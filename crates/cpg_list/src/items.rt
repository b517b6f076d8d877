//! The rows of items, by number.
ghost use Rattle.std.specs.Prelude.{◌≡◌, ◌<◌, [], IfOk, length, map};
ghost use Rattle.cpg_base.specs.Numbers.{numbers_below};
ghost use Rattle.cpg_base.specs.Graph.{item_count};
ghost use Rattle.cpg_run.specs.Carried.{row_at};
ghost use Rattle.cpg_run.specs.Found.{columns_of_rows};

use crate::timed::TimedRow;
use cpg_base::{OutOfMemory, Problem};
use std::alloc::Global;

/// Returns the row of an item from the rows of all items, in which it is at the place of its number.
pub(crate) fn row_of(rows: &[TimedRow], item: u32) -> &TimedRow
    requires { item < length rows.now }
    ensures { result.now.columns ≡ row_at (columns_of_rows rows.now) item }
{
    &rows[item as usize]
}

/// Returns a row without columns for each item of a graph.
pub(crate) fn empty_rows(alloc: Global, problem: &Problem) -> Result<Vec<TimedRow>, OutOfMemory>
    ensures { IfOk result (λ rows. rows.items ≡ map (λ x. record { item = x; columns = [] }) (numbers_below (item_count problem.now))) }
{
    let count = problem.item_count();
    let mut rows = Vec::new(alloc);
    rows.reserve(count as usize)?;
    for item in 0..count {
        let row = TimedRow::new(alloc, item, Vec::new(alloc))?;
        rows.push(row)?;
    }
    Ok(rows)
}
