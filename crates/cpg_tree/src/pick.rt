//! The tree that has in each scenario the value of the one of two trees that a chooser picks there.
ghost use Rattle.std.specs.Prelude.{◌≡◌, ◌≤◌, ℕ, Bool, All, true, IfOk, vec_len};
ghost use Rattle.cpg_tree.specs.TreeNode.{TreeNode};
ghost use Rattle.cpg_tree.specs.Added.{AddsTree, IsRestricted, IsPicked};
ghost use Rattle.cpg_tree.specs.Flat.{IsFlat, flat};
ghost use Rattle.cpg_tree.specs.Tree.{DoPathsPass, HasOnePathEach, IsPick, IsTidyPath};

use crate::Tree;
use crate::fork::fork;
use crate::item::TreeItem;
use crate::join::fill_items;
use crate::part::part_in;
use crate::space::Space;
use crate::top::{Top, top_of};
use cpg_base::OutOfMemory;

/// Adds a tree for the scenarios of a space.
pub fn within_items<T: Copy + Eq>(
    items: &[TreeItem<T>],
    space: &mut Space,
    out: &mut Vec<TreeItem<T>>,
) -> Result<(), OutOfMemory>
    requires equal { (x y : T) → T.eq x y ≡ true → x ≡ y }
    requires flat { IsFlat items.now }
    ensures long { IfOk result (λ _. vec_len out.old ≤ vec_len out.new) }
    ensures back { IfOk result (λ _. space.new ≡ space.old) }
    ensures made { IfOk result (λ _. (n : TreeNode T) → items.now ≡ flat n → AddsTree (IsRestricted space.old n) out.old.items out.new.items) }
{
    fill_items(items, space, (), &|_own: (), value: T| value, out)
}

/// Adds the tree of the values of `on` if the chooser, whose list is `items`, is true, and otherwise of `off`, for the
/// scenarios of a space.
fn pick_items<T: Copy + Eq>(
    items: &[TreeItem<bool>],
    space: &mut Space,
    on: &[TreeItem<T>],
    off: &[TreeItem<T>],
    out: &mut Vec<TreeItem<T>>,
) -> Result<(), OutOfMemory>
    requires equal { (x y : T) → T.eq x y ≡ true → x ≡ y }
    requires flat { IsFlat items.now }
    requires on_flat { IsFlat on.now }
    requires off_flat { IsFlat off.now }
    ensures long { IfOk result (λ _. vec_len out.old ≤ vec_len out.new) }
    ensures back { IfOk result (λ _. space.new ≡ space.old) }
    ensures made { IfOk result (λ _. (n : TreeNode Bool) (a b : TreeNode T) → items.now ≡ flat n → on.now ≡ flat a → off.now ≡ flat b →
        AddsTree (IsPicked space.old n a b) out.old.items out.new.items) }
{
    // both are cut down on the way, so that no leaf of the chooser walks through them from their tops
    let on = part_in(on, space);
    let off = part_in(off, space);
    match top_of(items) {
        Top::Value(is_on) => {
            if is_on {
                within_items(on, space, out)
            } else {
                within_items(off, space, out)
            }
        }
        Top::Cut {
            variable,
            cut,
            below,
            above,
        } => {
            // all scenarios of the space go above the cut
            if !space.is_open_below(variable, cut) {
                return pick_items(above, space, on, off, out);
            }
            // all scenarios of the space go below the cut
            if !space.is_open_above(variable, cut) {
                return pick_items(below, space, on, off, out);
            }
            // the answers of both sides are added, each for its part of the space, and then a fork of the two
            let start = out.len();
            let most = space.close_above(variable, cut);
            pick_items(below, space, on, off, out)?;
            space.reopen_above(variable, most);
            let middle = out.len();
            let least = space.close_below(variable, cut);
            pick_items(above, space, on, off, out)?;
            space.reopen_below(variable, least);
            fork(out, start, middle, variable, cut)
        }
    }
}

impl<T: Copy + Eq> Tree<T> {
    /// Returns the tree that has in each scenario the value of `yes` if the chooser is true there, and otherwise that of `no`.
    /// The one error is `OutOfMemory`.
    pub fn pick(chooser: &Tree<bool>, yes: &Tree<T>, no: &Tree<T>) -> Result<Tree<T>, OutOfMemory>
        requires equal { (x y : T) → T.eq x y ≡ true → x ≡ y }
        requires first { chooser.now.faults ≡ yes.now.faults }
        requires second { chooser.now.faults ≡ no.now.faults }
        ensures is { IfOk result (IsPick chooser.now yes.now no.now) }
        ensures each { IfOk result (λ t. HasOnePathEach t.faults t.paths) }
        ensures tidy { IfOk result (λ t. All (IsTidyPath t.faults) t.paths) }
        ensures pass { IfOk result (λ t. (test : ℕ → Bool) → DoPathsPass test chooser.now.paths → DoPathsPass test yes.now.paths →
            DoPathsPass test no.now.paths → DoPathsPass test t.paths) }
    {
        let faults = chooser.faults();
        let mut space = Space::whole(faults);
        let on = yes.items();
        let off = no.items();
        // a guess: the answer mostly has about as many items as the larger tree
        let mut made = Vec::with_capacity(chooser.alloc(), on.len().max(off.len()))?;
        pick_items(chooser.items(), &mut space, on, off, &mut made)?;
        Ok(Tree::of(chooser.alloc(), faults, made))
    }
}
