//! The greatest number that a tree has where another tree is true, found without a tree of both.
ghost use Rattle.std.specs.Prelude.{◌≡◌, ℕ, Bool, Option, Some, false, true, IfNone, IfSome};
ghost use Rattle.std.specs.Bool.{OnFalse, OnTrue};
ghost use Rattle.cpg_base.specs.Scenario.{Scenario};
ghost use Rattle.cpg_tree.specs.Space.{IsInSpace};
ghost use Rattle.cpg_tree.specs.Decision.{value_at};
ghost use Rattle.cpg_tree.specs.Flat.{IsFlat, flat};
ghost use Rattle.cpg_tree.specs.TreeNode.{TreeNode};
ghost use Rattle.cpg_tree_columns.specs.Meeting.{IsMetIn, IsMostInSpace, IsUpTo, IsMostWhere, IsNowhere};

use cpg_tree::{OptionalTime, Space, Top, Tree, TreeItem, top_of};

/// Whether the tree is true in some scenario of the space. The space is narrowed on the way down and is as before in
/// the end.
fn holds_in(items: &[TreeItem<bool>], space: &mut Space) -> bool
    requires { IsFlat items.now }
    ensures back { space.new ≡ space.old }
    ensures met { OnTrue result ((n : TreeNode Bool) → items.now ≡ flat n → IsMetIn space.old n n (λ s. value_at n s ≡ true)) }
    ensures never { OnFalse result ((n : TreeNode Bool) → items.now ≡ flat n → (s : Scenario) → IsInSpace space.old s → value_at n s ≡ false) }
{
    match top_of(items) {
        Top::Value(is) => is,
        Top::Cut {
            variable,
            cut,
            below,
            above,
        } => {
            // no scenario of the space goes below the cut
            if !space.is_open_below(variable, cut) {
                return holds_in(above, space);
            }
            // none goes above it
            if !space.is_open_above(variable, cut) {
                return holds_in(below, space);
            }
            let most = space.close_above(variable, cut);
            let holds_below = holds_in(below, space);
            space.reopen_above(variable, most);
            // true on the side below is enough
            if holds_below {
                return true;
            }
            let least = space.close_below(variable, cut);
            let holds_above = holds_in(above, space);
            space.reopen_below(variable, least);
            holds_above
        }
    }
}

/// Whether there is a number and it is greater than the best one so far, if there is one.
fn is_greater(number: Option<u64>, best: Option<u64>) -> bool
    ensures none { OnFalse result ((n : ℕ) → number ≡ Some n → IsUpTo best n) }
    ensures some { OnTrue result ((n : ℕ) → IsUpTo best n → IsUpTo number n) }
{
    let Some(number) = number else {
        return false;
    };
    match best {
        Some(best) => best < number,
        None => true,
    }
}

/// Returns the greater of `best` and of the greatest number that the tree has in a scenario of the space in which
/// `wanted` is true; `None` exactly if there is neither. The space is narrowed on the way down and is as before in the
/// end.
fn most_in_space(
    items: &[TreeItem<OptionalTime>],
    space: &mut Space,
    wanted: &[TreeItem<bool>],
    best: Option<u64>,
) -> Option<u64>
    requires flat { IsFlat items.now }
    requires wanted { IsFlat wanted.now }
    ensures back { space.new ≡ space.old }
    ensures most { (n : TreeNode (Option ℕ)) (w : TreeNode Bool) → items.now ≡ flat n → wanted.now ≡ flat w → IsMostInSpace space.old n w best result }
{
    match top_of(items) {
        Top::Value(number) => {
            // the number would change nothing, so the other tree isn't asked
            let number = number.get();
            if !is_greater(number, best) {
                return best;
            }
            if holds_in(wanted, space) {
                number
            } else {
                best
            }
        }
        Top::Cut {
            variable,
            cut,
            below,
            above,
        } => {
            // no scenario of the space goes below the cut
            if !space.is_open_below(variable, cut) {
                return most_in_space(above, space, wanted, best);
            }
            // none goes above it
            if !space.is_open_above(variable, cut) {
                return most_in_space(below, space, wanted, best);
            }
            let most = space.close_above(variable, cut);
            let with_below = most_in_space(below, space, wanted, best);
            space.reopen_above(variable, most);
            let least = space.close_below(variable, cut);
            let with_both = most_in_space(above, space, wanted, with_below);
            space.reopen_below(variable, least);
            with_both
        }
    }
}

/// Returns the greatest number that `tree` has in a scenario in which `wanted` is true; `None` exactly if there is
/// none.
pub fn most_where(tree: &Tree<OptionalTime>, wanted: &Tree<bool>) -> Option<u64>
    requires same { tree.now.faults ≡ wanted.now.faults }
    ensures none { IfNone result (IsNowhere tree.now wanted.now) }
    ensures some { IfSome result (IsMostWhere tree.now wanted.now) }
{
    let mut space = Space::whole(tree.faults());
    most_in_space(tree.items(), &mut space, wanted.items(), None)
}
