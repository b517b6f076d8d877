//! The value that a tree has in a scenario, and how many leaves it has.
ghost use Rattle.std.specs.Prelude.{◌≡◌, ℕ, List, length};
ghost use Rattle.cpg_cube.specs.declared.literal.Literal.{Literal};
ghost use Rattle.cpg_tree.specs.TreeNode.{TreeNode};
ghost use Rattle.cpg_tree.specs.Decision.{value_at};
ghost use Rattle.cpg_tree.specs.Flat.{IsFlat, flat};
ghost use Rattle.cpg_tree.specs.Paths.{paths_from};

use crate::item::TreeItem;
use crate::top::{Top, top_of};
use cpg_base::Scenario;

/// Returns the value at the leaf that a scenario comes to in a tree, given as its list.
pub(crate) fn at_items<T: Copy>(items: &[TreeItem<T>], scenario: &Scenario) -> T
    requires { IsFlat items.now }
    ensures { (n : TreeNode T) → items.now ≡ flat n → result ≡ value_at n scenario.now }
{
    match top_of(items) {
        Top::Value(value) => value,
        Top::Cut {
            variable,
            cut,
            below,
            above,
        } => {
            if scenario.number(variable) <= cut {
                at_items(below, scenario)
            } else {
                at_items(above, scenario)
            }
        }
    }
}

/// Returns how many leaves a tree has, which is how many paths it has.
pub(crate) fn leaf_count<T: Copy>(items: &[TreeItem<T>]) -> usize
    requires { IsFlat items.now }
    ensures { (n : TreeNode T) (k : ℕ) (cube : List Literal) → items.now ≡ flat n → result ≡ length (paths_from k cube n) }
{
    // n leaves and n - 1 forks are 2n - 1 items, half of which, rounded down, are forks
    items.len() - items.len() / 2
}
