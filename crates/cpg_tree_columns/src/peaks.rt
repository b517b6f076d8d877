//! The greatest number of a tree, and the least scenario that has it.
ghost use Rattle.std.specs.Prelude.{◌≡◌, ◌≢◌, ℕ, Bool, Option, None, Some, All, IfNone, IfOk, IfSome, IsPermutation};
ghost use Rattle.std.specs.Bool.{OnFalse, OnTrue};
ghost use Rattle.std.specs.Option.{option_map};
ghost use Rattle.cpg_base.specs.Graph.{process_count};
ghost use Rattle.cpg_base.specs.Numbers.{numbers_below};
ghost use Rattle.cpg_cube.specs.Fit.{IsKnown, lows};
ghost use Rattle.cpg_base.specs.Scenario.{IsLeast};
ghost use Rattle.cpg_tree_columns.specs.Columns.{columns_from, columns_of_paths, first_with};
ghost use Rattle.cpg_tree_columns.specs.Counted.{leaf_number};
ghost use Rattle.cpg_tree_columns.specs.Greatest.{HasNumberAt, HasValueAt, IsGreatestOf, IsLeastWhereSorted, IsGreatestNumber, greater, if_wanted, most_of};
ghost use Rattle.cpg_tree.specs.Decision.{HasCuts};
ghost use Rattle.cpg_tree.specs.Flat.{IsFlat, flat};
ghost use Rattle.cpg_tree.specs.TreeNode.{TreeNode};
ghost use Rattle.cpg_tree.specs.Tree.{HasOnePathEach, DoPathsPass, IsMap};

use crate::along::stand_along;
use crate::listing::listed;
use cpg_base::{Order, OutOfMemory, Problem, Scenario, top};
use cpg_cube::{Cube, Literal, first_by_least_scenario};
use cpg_tree::{OptionalTime, Top, Tree, TreeItem, top_of};

/// Returns the greater of two numbers, the only one if the other is missing, and `None` if both are.
fn greater(first: Option<u64>, second: Option<u64>) -> Option<u64>
    ensures { result ≡ greater first second }
{
    let Some(first) = first else {
        return second;
    };
    let Some(second) = second else {
        return Some(first);
    };
    Some(first.max(second))
}

/// Returns the number if it is the wanted one, and `None` otherwise.
fn if_wanted(wanted: u64, number: OptionalTime) -> Option<u64>
    ensures { result ≡ if_wanted wanted number }
{
    let number = number.get()?;
    if number == wanted { Some(number) } else { None }
}

/// Returns the number of an item of a tree's list, if it is a leaf with one; `None` otherwise.
fn leaf_number(item: TreeItem<OptionalTime>) -> Option<u64>
    ensures { result ≡ leaf_number item }
{
    match item {
        TreeItem::Value(number) => number.get(),
        TreeItem::Cut { .. } => None,
    }
}

/// Returns the greatest number of the leaves; `None` if no leaf has one. Forks don't matter, so one pass over the list
/// finds it.
fn most_of(items: &[TreeItem<OptionalTime>]) -> Option<u64>
    requires { IsFlat items.now }
    ensures { (n : TreeNode (Option ℕ)) → items.now ≡ flat n → result ≡ most_of n }
{
    let mut most = None;
    for item in items {
        most = greater(most, leaf_number(*item));
    }
    most
}

/// Returns the tree that has `wanted` where `tree` has it, and no number elsewhere.
fn only_wanted(tree: &Tree<OptionalTime>, wanted: u64) -> Result<Tree<OptionalTime>, OutOfMemory>
    ensures is { IfOk result (IsMap (λ x z. z ≡ if_wanted wanted x) tree.now) }
    ensures each { IfOk result (λ t. HasOnePathEach t.faults t.paths) }
    ensures pass { IfOk result (λ t. (test : ℕ → Bool) → DoPathsPass test tree.now.paths → DoPathsPass test t.paths) }
{
    tree.map(&|number: OptionalTime| OptionalTime::of(if_wanted(wanted, number)))
}

/// Returns the least scenario along the order that has some number; `None` exactly if none has one. The one error is
/// `OutOfMemory`.
fn first_with_number(
    tree: &Tree<OptionalTime>,
    problem: &Problem,
    order: &Order,
) -> Result<Option<Scenario>, OutOfMemory>
    requires faults { tree.now.faults ≡ problem.now.faults }
    requires known { All (λ p. IsKnown problem.now p.0) tree.now.paths }
    requires order { IsPermutation (numbers_below (process_count problem.now)) order.now }
    ensures none { IfOk result (λ r. IfNone r (All (λ p. p.1 ≡ None) tree.now.paths)) }
    ensures some { IfOk result (λ r. IfSome r (IsLeast problem.now order.now (HasNumberAt tree.now.paths))) }
{
    // called for its contract: the graph is within its limits
    let _processes = problem.processes();
    let columns = listed(tree, problem)?;
    let columns = columns.as_slice();
    let Some(place) = first_by_least_scenario(tree.alloc(), problem, order, columns)? else {
        return Ok(None);
    };
    match columns[place].cube.least(tree.alloc(), problem)? {
        Some(least) => Ok(Some(least)),
        // each column of a tree matches some scenario
        None => unreachable!(),
    }
}

/// Returns the least scenario along the order that has the number, by a list of the columns that have it; `None`
/// exactly if no path has it. The one error is `OutOfMemory`.
fn least_listed(
    tree: &Tree<OptionalTime>,
    problem: &Problem,
    order: &Order,
    wanted: u64,
) -> Result<Option<Scenario>, OutOfMemory>
    requires faults { tree.now.faults ≡ problem.now.faults }
    requires known { All (λ p. IsKnown problem.now p.0) tree.now.paths }
    requires order { IsPermutation (numbers_below (process_count problem.now)) order.now }
    ensures none { IfOk result (λ r. IfNone r (All (λ p. p.1 ≢ Some wanted) tree.now.paths)) }
    ensures some { IfOk result (λ r. IfSome r (IsLeast problem.now order.now (HasValueAt tree.now.paths (Some wanted)))) }
{
    // called for its contract: the graph is within its limits
    let _processes = problem.processes();
    // called for its contract too: the tree fits, so that each scenario has its path
    let _items = tree.items();
    // a tree of this number alone has few columns
    let alone = only_wanted(tree, wanted)?;
    first_with_number(&alone, problem, order)
}

/// Narrows the cube to that of the first leaf from the left that has the number, and returns true. If no leaf has it,
/// returns false and leaves the cube as it was.
fn narrow_to_first(
    items: &[TreeItem<OptionalTime>],
    k: u8,
    cube: &mut Cube,
    wanted: u64,
) -> Result<bool, OutOfMemory>
    requires flat { IsFlat items.now }
    requires cuts { (n : TreeNode (Option ℕ)) → items.now ≡ flat n → HasCuts k n }
    ensures some { IfOk result (λ r. OnTrue r ((n : TreeNode (Option ℕ)) → items.now ≡ flat n → first_with wanted (columns_from k cube.old n) ≡ Some cube.new)) }
    ensures none { IfOk result (λ r. OnFalse r ((n : TreeNode (Option ℕ)) → items.now ≡ flat n → first_with wanted (columns_from k cube.old n) ≡ None)) }
    ensures same { IfOk result (λ r. OnFalse r (cube.new ≡ cube.old)) }
{
    match top_of(items) {
        Top::Value(number) => Ok(if_wanted(wanted, number).is_some()),
        Top::Cut {
            variable,
            cut,
            below,
            above,
        } => {
            let upper = Literal {
                variable,
                low: cut + 1,
                high: top(k, variable),
            };
            let step = cube.narrow(Literal {
                variable,
                low: 0,
                high: cut,
            })?;
            match step {
                // the cube has numbers up to the cut
                Some(step) => {
                    if narrow_to_first(below, k, cube, wanted)? {
                        return Ok(true);
                    }
                    // the same literal is narrowed anew, for the other side, which is less work than to restore it and
                    // narrow again
                    if cube.exchange(step, upper) {
                        if narrow_to_first(above, k, cube, wanted)? {
                            return Ok(true);
                        }
                        cube.restore(step);
                    }
                }
                // the cube has only numbers above the cut
                None => {
                    let upper_step = cube.narrow(upper)?;
                    if let Some(upper_step) = upper_step {
                        if narrow_to_first(above, k, cube, wanted)? {
                            return Ok(true);
                        }
                        cube.restore(upper_step);
                    }
                }
            }
            Ok(false)
        }
    }
}

/// Returns the least scenario of the first column from the left that has the number; `None` exactly if no column has it. If
/// columns stand by their least scenarios along an order, no scenario that is earlier along it has the number. The one error
/// is `OutOfMemory`.
fn least_found(
    tree: &Tree<OptionalTime>,
    problem: &Problem,
    wanted: u64,
) -> Result<Option<Scenario>, OutOfMemory>
    requires faults { tree.now.faults ≡ problem.now.faults }
    requires known { All (λ p. IsKnown problem.now p.0) tree.now.paths }
    ensures is { IfOk result (λ r. r ≡ option_map (lows problem.now) (first_with wanted (columns_of_paths tree.now.paths))) }
    ensures least { IfOk result (λ r. IfSome r (IsLeastWhereSorted problem.now tree.now.paths wanted)) }
{
    // called for its contract: the graph is within its limits
    let _processes = problem.processes();
    let mut cube = Cube::whole(tree.alloc());
    if !narrow_to_first(tree.items(), tree.faults(), &mut cube, wanted)? {
        return Ok(None);
    }
    let least = cube.least(tree.alloc(), problem)?;
    Ok(least)
}

/// Returns the least scenario along the order that has the number; `None` exactly if no path has it. The one error is
/// `OutOfMemory`.
fn least_with(
    tree: &Tree<OptionalTime>,
    problem: &Problem,
    order: &Order,
    wanted: u64,
) -> Result<Option<Scenario>, OutOfMemory>
    requires faults { tree.now.faults ≡ problem.now.faults }
    requires known { All (λ p. IsKnown problem.now p.0) tree.now.paths }
    requires order { IsPermutation (numbers_below (process_count problem.now)) order.now }
    ensures none { IfOk result (λ r. IfNone r (All (λ p. p.1 ≢ Some wanted) tree.now.paths)) }
    ensures some { IfOk result (λ r. IfSome r (IsLeast problem.now order.now (HasValueAt tree.now.paths (Some wanted)))) }
{
    // if the columns stand by their least scenarios, the first one with the number has the least, and no list is
    // needed
    if stand_along(tree, problem, order)? {
        return least_found(tree, problem, wanted);
    }
    least_listed(tree, problem, order, wanted)
}

/// Returns the greatest number of the paths; `None` exactly if no path has one.
pub fn most(tree: &Tree<OptionalTime>) -> Option<u64>
    ensures none { IfNone result (All (λ p. p.1 ≡ None) tree.now.paths) }
    ensures some { IfSome result (IsGreatestNumber tree.now) }
{
    most_of(tree.items())
}

/// Returns the greatest number with the least scenario along the order that has it; `None` exactly if no path has a
/// number. The one error is `OutOfMemory`.
pub fn greatest(
    tree: &Tree<OptionalTime>,
    problem: &Problem,
    order: &Order,
) -> Result<Option<(u64, Scenario)>, OutOfMemory>
    requires faults { tree.now.faults ≡ problem.now.faults }
    requires known { All (λ p. IsKnown problem.now p.0) tree.now.paths }
    requires order { IsPermutation (numbers_below (process_count problem.now)) order.now }
    ensures none { IfOk result (λ r. IfNone r (All (λ p. p.1 ≡ None) tree.now.paths)) }
    ensures some { IfOk result (λ r. IfSome r (λ x. IsGreatestOf problem.now order.now tree.now.paths x.0 x.1)) }
{
    let Some(most) = most_of(tree.items()) else {
        return Ok(None);
    };
    match least_with(tree, problem, order, most)? {
        Some(least) => Ok(Some((most, least))),
        // a leaf has the greatest number, so some path has it
        None => unreachable!(),
    }
}
