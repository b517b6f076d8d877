//! The rows of the items, made from the trees of their times.
ghost use Rattle.std.specs.Prelude.{◌+◌, ◌*◌, ◌≡◌, ◌≤◌, ◌<◌, ◌⊎◌, All, IfErr, IfOk, IfSome, IsPermutation, Some, length};
ghost use Rattle.cpg_base.specs.Graph.{item_at, item_count, process_count};
ghost use Rattle.cpg_base.specs.Numbers.{numbers_below};
ghost use Rattle.cpg_tree.specs.GraphTrees.{IsTree};
ghost use Rattle.cpg_tree_columns.specs.MadeRows.{AreRowsOf};
ghost use Rattle.cpg_expand.specs.Large.{ShowsLarge};
ghost use Rattle.cpg_core.specs.WideRows.{AreFewIf, HaveWideRows, IsLoadIf};
ghost use Rattle.cpg_order.specs.Reach.{rows_of_item};
ghost use Rattle.cpg_run.specs.Found.{DoRowsFit};

use cpg_base::{MOST_COLUMNS, MOST_LOAD, Order, OutOfMemory, Problem};
use cpg_reach::rows_of_item;
use cpg_run::BuildFault;
use cpg_tree::{OptionalTime, Tree};
use cpg_tree_columns::{MadeRow, row};
use std::alloc::Global;

/// Returns how many columns the rows have in all tables together: `load`, those of the rows so far, with those of one
/// more row, which is that of `item`. If `wide` has an item, `TooWide` names it if that row has more than 16,384
/// columns, or all rows together more than 524,288. If it is `None`, nothing is counted, and `load` is returned.
fn load_with(
    problem: &Problem,
    wide: Option<u32>,
    row: &MadeRow,
    item: u32,
    load: u64,
) -> Result<u64, BuildFault>
    requires item { item < item_count problem.now }
    requires load { load ≤ MOST_LOAD }
    ensures load { IfOk result (IsLoadIf wide problem.now row.now item load) }
    ensures few { IfOk result (λ sum. sum ≤ MOST_LOAD) }
    ensures fault { IfErr result (ShowsLarge wide ((MOST_COLUMNS < length row.now.columns)
        ⊎ (MOST_LOAD < load + length row.now.columns * rows_of_item problem.now (item_at problem.now item)))) }
{
    // without an item to name columns aren't counted
    let Some(name) = wide else {
        return Ok(load);
    };
    let columns = row.count() as u64;
    if columns > MOST_COLUMNS {
        return Err(BuildFault::TooWide(name));
    }
    // a row stands in several tables: its sender's and its hearers'
    let sum = load + columns * rows_of_item(problem, item);
    if sum > MOST_LOAD {
        return Err(BuildFault::TooWide(name));
    }
    Ok(sum)
}

/// Returns a row for each item, by number, made from the tree of its times in `times`. A row keeps that tree, or lists
/// the columns, and the tree is dropped. If `wide` has an item, columns are counted: `TooWide` names it if a row has
/// more than 16,384, or all rows of all tables more than 524,288. If it is `None`, nothing is counted.
pub(crate) fn rows(
    alloc: Global,
    problem: &Problem,
    urgency: &Order,
    times: Vec<Tree<OptionalTime>>,
    wide: Option<u32>,
) -> Result<Vec<MadeRow>, BuildFault>
    requires order { IsPermutation (numbers_below (process_count problem.now)) urgency.now }
    requires count { length times.items ≡ item_count problem.now }
    requires trees { All (IsTree problem.now) times.items }
    ensures rows { IfOk result (λ rows. AreRowsOf problem.now urgency.now times.items rows.items) }
    ensures few { IfOk result (λ rows. IfSome wide (λ _. DoRowsFit problem.now rows.items)) }
    ensures fault { IfErr result (ShowsLarge wide (HaveWideRows problem.now urgency.now times.items)) }
{
    let count = problem.item_count();
    let mut rows = Vec::new(alloc);
    rows.reserve(count as usize)?;
    let mut item = 0;
    let mut load = 0;
    for tree in times {
        let row = row(alloc, problem, urgency, tree, item)?;
        load = load_with(problem, wide, &row, item, load)?;
        rows.push(row)?;
        item += 1;
    }
    Ok(rows)
}
