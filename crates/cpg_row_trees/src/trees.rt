//! The tree of a row's columns, and those of all rows.
ghost use Rattle.std.specs.Prelude.{◌≤◌, IfOk, IfSome, length};
ghost use Rattle.cpg_base.specs.declared.limits.TheConstants.{MOST_LOAD};
ghost use Rattle.cpg_row_trees.specs.Trees.{AreRowTrees, IsRowTree};

use crate::Places;
use cpg_base::{OutOfMemory, Problem};
use cpg_cube::{Column, cubes_of};
use cpg_table::Tables;
use std::alloc::Global;

/// Returns the tree of a row's columns. `None` guarantees nothing: two columns may match together, or the tree would be too
/// large. The one error is `OutOfMemory`.
pub fn tree_of(
    alloc: Global,
    problem: &Problem,
    columns: &[Column],
) -> Result<Option<Places>, OutOfMemory>
    requires { length columns.now ≤ MOST_LOAD }
    ensures { IfOk result (λ r. IfSome r (IsRowTree problem.now columns.now)) }
{
    let cubes = cubes_of(alloc, columns)?;
    let places = Places::of(alloc, problem.faults(), cubes.as_slice())?;
    Ok(places)
}

/// Returns for each item the tree of its row, or `None` if none is found. A tree leads each scenario to the place of the one
/// column that matches. The one error is `OutOfMemory`.
pub fn row_trees(
    alloc: Global,
    problem: &Problem,
    tables: &Tables,
) -> Result<Vec<Option<Places>>, OutOfMemory>
    ensures { IfOk result (λ trees. AreRowTrees problem.now tables.now.nodes trees.items) }
{
    let count = problem.item_count();
    let mut trees = Vec::new(alloc);
    trees.reserve(count as usize)?;
    for item in 0..count {
        let tree = tree_of(alloc, problem, tables.columns_of(item))?;
        trees.push(tree)?;
    }
    Ok(trees)
}
