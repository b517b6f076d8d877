//! Whether the columns of a tree stand by their least scenarios as they are found.
ghost use Rattle.std.specs.Prelude.{◌≡◌, IfOk, IsPermutation};
ghost use Rattle.std.specs.Bool.{OnTrue};
ghost use Rattle.cpg_base.specs.Graph.{process_count};
ghost use Rattle.cpg_base.specs.Numbers.{numbers_below};
ghost use Rattle.cpg_cube.specs.Keys.{AreByLows};
ghost use Rattle.cpg_tree.specs.Flat.{IsFlat, flat};
ghost use Rattle.cpg_tree.specs.TreeNode.{TreeNode};
ghost use Rattle.cpg_tree_columns.specs.Along.{AreForksAlong};
ghost use Rattle.cpg_tree_columns.specs.Columns.{columns_of_paths};

use cpg_base::{Order, OutOfMemory, Problem};
use cpg_cube::{VARIABLES, places_along};
use cpg_tree::{OptionalTime, Top, Tree, TreeItem, top_of};

/// How many places of the order are left at its first variable: it has a place for each of 256 numbers.
const ALL_PLACES: u16 = 256;

/// Whether the forks stand along the order on each way down. `places` has how many places of the order are left at
/// each variable, 0 for none of the graph's; `left` is how many are left at the fork before. Callers rely only on the
/// answer yes.
fn are_along<T: Copy>(items: &[TreeItem<T>], places: &[u16; VARIABLES], left: u16) -> bool
    requires { IsFlat items.now }
    ensures { OnTrue result ((n : TreeNode T) → items.now ≡ flat n → AreForksAlong places.now left n) }
{
    match top_of(items) {
        Top::Value(_) => true,
        Top::Cut {
            variable,
            below,
            above,
            ..
        } => {
            let own = places[variable as usize];
            // the variable isn't one of the graph's
            if own == 0 {
                return false;
            }
            // the variable comes earlier in the order than that of the fork before
            if own > left {
                return false;
            }
            if !are_along(below, places, own) {
                return false;
            }
            if !are_along(above, places, own) {
                return false;
            }
            true
        }
    }
}

/// Whether the columns of a tree are known to stand by their least scenarios along the order, as they are found from
/// left to right. False says nothing. The one error is `OutOfMemory`.
pub(crate) fn stand_along(
    tree: &Tree<OptionalTime>,
    problem: &Problem,
    order: &Order,
) -> Result<bool, OutOfMemory>
    requires { IsPermutation (numbers_below (process_count problem.now)) order.now }
    ensures { IfOk result (λ r. OnTrue r (AreByLows (λ c. c.cube) problem.now order.now (columns_of_paths tree.now.paths))) }
{
    let places = places_along(tree.alloc(), problem, order)?;
    Ok(are_along(tree.items(), &places, ALL_PLACES))
}
