//! The rows of items, each made from the tree of the item's times.
ghost use Rattle.std.specs.Prelude.{◌≡◌, IfOk, IfSome, IsPermutation, length};
ghost use Rattle.cpg_base.specs.Graph.{process_count};
ghost use Rattle.cpg_base.specs.Numbers.{numbers_below};
ghost use Rattle.cpg_tree.specs.GraphTrees.{IsTree};
ghost use Rattle.cpg_tree_columns.specs.Columns.{columns_of_paths};
ghost use Rattle.cpg_tree_columns.specs.MadeRows.{AreEntriesOf, AreMergedOf, IsRowOf};

use crate::along::stand_along;
use crate::demanding::{column_count, demands_along};
use crate::listing::{columns, columns_are_tidy, listing_along};
use crate::made_row::MadeRow;
use cpg_base::{Order, OutOfMemory, Problem};
use cpg_cube::Column;
use cpg_merging::{do_demands_differ, merged_tidy};
use cpg_tree::{OptionalTime, Tree};
use std::alloc::Global;

/// Returns the columns of a start, merged.
fn start_columns(
    alloc: Global,
    problem: &Problem,
    urgency: &Order,
    tree: &Tree<OptionalTime>,
) -> Result<Vec<Column>, OutOfMemory>
    requires order { IsPermutation (numbers_below (process_count problem.now)) urgency.now }
    requires tree { IsTree problem.now tree.now }
    ensures { IfOk result (λ columns. AreMergedOf problem.now urgency.now tree.now columns.items) }
{
    // called for its contract: the graph is within its limits
    let _processes = problem.processes();
    let listing = listing_along(tree, problem, urgency)?;
    let columns = merged_tidy(alloc, problem, urgency, listing)?;
    Ok(columns)
}

/// Returns how many columns the tree of a start has, if they are its row as they are found: they stand by their least
/// scenarios, and none of them touch.
fn start_as_found(
    problem: &Problem,
    urgency: &Order,
    tree: &Tree<OptionalTime>,
) -> Result<Option<usize>, OutOfMemory>
    requires order { IsPermutation (numbers_below (process_count problem.now)) urgency.now }
    requires tree { IsTree problem.now tree.now }
    ensures count { IfOk result (λ r. IfSome r (λ count. count ≡ length (columns_of_paths tree.now.paths))) }
    ensures merged { IfOk result (λ r. IfSome r (λ _. AreMergedOf problem.now urgency.now tree.now (columns_of_paths tree.now.paths))) }
{
    // called for their contracts: the graph is within its limits, and the columns are of it
    let _processes = problem.processes();
    columns_are_tidy(tree, problem);
    let Some(demands) = demands_along(tree, problem, urgency)? else {
        return Ok(None);
    };
    let count = demands.len();
    if do_demands_differ(demands) {
        return Ok(None);
    }
    Ok(Some(count))
}

/// Returns the row of a start, its columns merged.
fn start_row(
    alloc: Global,
    problem: &Problem,
    urgency: &Order,
    tree: Tree<OptionalTime>,
    item: u32,
) -> Result<MadeRow, OutOfMemory>
    requires order { IsPermutation (numbers_below (process_count problem.now)) urgency.now }
    requires tree { IsTree problem.now tree }
    ensures item { IfOk result (λ row. row.item ≡ item) }
    ensures columns { IfOk result (λ row. AreMergedOf problem.now urgency.now tree row.columns) }
{
    if let Some(count) = start_as_found(problem, urgency, &tree)? {
        return Ok(MadeRow::kept(item, tree, count));
    }
    let columns = start_columns(alloc, problem, urgency, &tree)?;
    Ok(MadeRow::listed(item, columns))
}

/// Returns the row of a send, its columns in the order of their least scenarios.
fn send_row(
    problem: &Problem,
    urgency: &Order,
    tree: Tree<OptionalTime>,
    item: u32,
) -> Result<MadeRow, OutOfMemory>
    requires order { IsPermutation (numbers_below (process_count problem.now)) urgency.now }
    requires tree { IsTree problem.now tree }
    ensures item { IfOk result (λ row. row.item ≡ item) }
    ensures columns { IfOk result (λ row. AreEntriesOf problem.now urgency.now tree row.columns) }
{
    // called for its contract: the columns are of the graph
    columns_are_tidy(&tree, problem);
    if stand_along(&tree, problem, urgency)? {
        let count = column_count(&tree);
        return Ok(MadeRow::kept(item, tree, count));
    }
    let columns = columns(&tree, problem, urgency)?;
    Ok(MadeRow::listed(item, columns))
}

/// Returns the row of an item: the columns of a tree, merged if the item is a start, and else in the order of their least
/// scenarios.
pub fn row(
    alloc: Global,
    problem: &Problem,
    urgency: &Order,
    tree: Tree<OptionalTime>,
    item: u32,
) -> Result<MadeRow, OutOfMemory>
    requires order { IsPermutation (numbers_below (process_count problem.now)) urgency.now }
    requires tree { IsTree problem.now tree }
    ensures { IfOk result (IsRowOf problem.now urgency.now tree item) }
{
    // a graph has at most 128 processes, so their numbers fit a `u32`
    let processes = problem.processes().len() as u32;
    if item < processes {
        let row = start_row(alloc, problem, urgency, tree, item)?;
        return Ok(row);
    }
    let row = send_row(problem, urgency, tree, item)?;
    Ok(row)
}
