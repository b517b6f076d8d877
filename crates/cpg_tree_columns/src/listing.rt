//! The columns of trees of times: one for each leaf with a time.
ghost use Rattle.std.specs.Prelude.{◌≡◌, ◌++◌, ℕ, Option, All, IfOk, IsPermutation, OnOk};
ghost use Rattle.std.specs.Bool.{OnTrue};
ghost use Rattle.cpg_base.specs.Graph.{process_count};
ghost use Rattle.cpg_base.specs.Numbers.{numbers_below};
ghost use Rattle.cpg_cube.specs.Fit.{IsKnown};
ghost use Rattle.cpg_cube.specs.Keys.{AreByLows};
ghost use Rattle.cpg_tree_columns.specs.Columns.{columns_from, columns_of_paths, IsTidyColumn};
ghost use Rattle.cpg_tree.specs.Decision.{HasCuts};
ghost use Rattle.cpg_tree.specs.Flat.{IsFlat, flat};
ghost use Rattle.cpg_tree.specs.TreeNode.{TreeNode};

use crate::along::stand_along;
use cpg_base::{Order, OutOfMemory, Problem, top};
use cpg_cube::{Column, Cube, Listing, Literal};
use cpg_tree::{OptionalTime, Top, Tree, TreeItem, top_of};

/// Adds the columns of a tree that is entered with a cube, from left to right. The cube is narrowed on the way down
/// and restored on the way up; at an error it may be any.
fn push_columns(
    items: &[TreeItem<OptionalTime>],
    k: u8,
    cube: &mut Cube,
    columns: &mut Vec<Column>,
) -> Result<(), OutOfMemory>
    requires flat { IsFlat items.now }
    requires cuts { (n : TreeNode (Option ℕ)) → items.now ≡ flat n → HasCuts k n }
    ensures columns { OnOk result ((n : TreeNode (Option ℕ)) → items.now ≡ flat n → columns.new.items ≡ columns.old.items ++ columns_from k cube.old n) }
    ensures cube { OnOk result (cube.new ≡ cube.old) }
{
    match top_of(items) {
        Top::Value(time) => {
            if let Some(time) = time.get() {
                columns.push(Column {
                    time,
                    cube: cube.copy()?,
                })?;
            }
            Ok(())
        }
        Top::Cut {
            variable,
            cut,
            below,
            above,
        } => {
            let upper = Literal {
                variable,
                low: cut + 1,
                high: top(k, variable),
            };
            let step = cube.narrow(Literal {
                variable,
                low: 0,
                high: cut,
            })?;
            match step {
                // the cube has numbers up to the cut
                Some(step) => {
                    push_columns(below, k, cube, columns)?;
                    // the same literal is narrowed anew, for the other side, which is less work than to restore it and
                    // narrow again
                    if cube.exchange(step, upper) {
                        push_columns(above, k, cube, columns)?;
                        cube.restore(step);
                    }
                }
                // the cube has only numbers above the cut
                None => {
                    let upper_step = cube.narrow(upper)?;
                    if let Some(upper_step) = upper_step {
                        push_columns(above, k, cube, columns)?;
                        cube.restore(upper_step);
                    }
                }
            }
            Ok(())
        }
    }
}

/// Returns the columns of a tree from left to right; they are tidy. The one error is `OutOfMemory`.
pub(crate) fn listed(
    tree: &Tree<OptionalTime>,
    problem: &Problem,
) -> Result<Vec<Column>, OutOfMemory>
    requires faults { tree.now.faults ≡ problem.now.faults }
    requires known { All (λ p. IsKnown problem.now p.0) tree.now.paths }
    ensures tidy { IfOk result (λ r. All (IsTidyColumn problem.now) r.items) }
    ensures all { IfOk result (λ r. r.items ≡ columns_of_paths tree.now.paths) }
{
    // called for its contract: the columns are of the graph, and tidy
    columns_are_tidy(tree, problem);
    // a tree has no more columns than leaves
    let columns = columns_as_found(tree, tree.leaves() as usize)?;
    Ok(columns)
}

/// Does nothing: its contract says that the columns of a tree over a graph's scenarios are tidy.
pub(crate) fn columns_are_tidy(tree: &Tree<OptionalTime>, problem: &Problem)
    requires faults { tree.now.faults ≡ problem.now.faults }
    requires known { All (λ p. IsKnown problem.now p.0) tree.now.paths }
    ensures { All (IsTidyColumn problem.now) (columns_of_paths tree.now.paths) }
{
    // their clauses tell that the graph is within its limits, and that the paths are those of a good list
    let _processes = problem.processes();
    let _items = tree.items();
}

/// Returns the columns of a tree from left to right. Memory for `room` of them is taken before the walk. The one error is
/// `OutOfMemory`.
pub(crate) fn columns_as_found(
    tree: &Tree<OptionalTime>,
    room: usize,
) -> Result<Vec<Column>, OutOfMemory>
    ensures { IfOk result (λ r. r.items ≡ columns_of_paths tree.now.paths) }
{
    let mut whole = Cube::whole(tree.alloc());
    let mut columns = Vec::new(tree.alloc());
    columns.reserve(room)?;
    push_columns(tree.items(), tree.faults(), &mut whole, &mut columns)?;
    Ok(columns)
}

/// Returns the columns of a tree from left to right, and whether they are known to stand by their least scenarios
/// along the order. The one error is `OutOfMemory`.
pub(crate) fn listing_along(
    tree: &Tree<OptionalTime>,
    problem: &Problem,
    order: &Order,
) -> Result<Listing, OutOfMemory>
    requires faults { tree.now.faults ≡ problem.now.faults }
    requires known { All (λ p. IsKnown problem.now p.0) tree.now.paths }
    requires order { IsPermutation (numbers_below (process_count problem.now)) order.now }
    ensures tidy { IfOk result (λ r. All (IsTidyColumn problem.now) r.columns.items) }
    ensures all { IfOk result (λ r. r.columns.items ≡ columns_of_paths tree.now.paths) }
    ensures sorted { IfOk result (λ r. OnTrue r.is_sorted (AreByLows (λ c. c.cube) problem.now order.now r.columns.items)) }
{
    let is_sorted = stand_along(tree, problem, order)?;
    let columns = listed(tree, problem)?;
    Ok(Listing { columns, is_sorted })
}

/// Returns the columns of a tree, sorted by the least scenario that each matches along the order. The one error is
/// `OutOfMemory`.
pub fn columns(
    tree: &Tree<OptionalTime>,
    problem: &Problem,
    order: &Order,
) -> Result<Vec<Column>, OutOfMemory>
    requires faults { tree.now.faults ≡ problem.now.faults }
    requires known { All (λ p. IsKnown problem.now p.0) tree.now.paths }
    requires order { IsPermutation (numbers_below (process_count problem.now)) order.now }
    ensures tidy { IfOk result (λ r. All (IsTidyColumn problem.now) r.items) }
    ensures all { IfOk result (λ r. IsPermutation (columns_of_paths tree.now.paths) r.items) }
    ensures by_lows { IfOk result (λ r. AreByLows (λ c. c.cube) problem.now order.now r.items) }
{
    let listing = listing_along(tree, problem, order)?;
    listing.sorted(tree.alloc(), problem, order)
}
