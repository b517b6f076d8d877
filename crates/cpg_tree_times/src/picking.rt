//! The tree of the numbers that a chooser picks from two trees: from the first as its leaves are read, from the second as
//! they are.
ghost use Rattle.std.specs.Prelude.{◌≡◌, ◌≤◌, ℕ, Bool, All, IfOk, vec_len};
ghost use Rattle.cpg_tree.specs.Added.{AddsTree, IsPicked};
ghost use Rattle.cpg_tree.specs.Flat.{IsFlat, flat};
ghost use Rattle.cpg_tree.specs.Read.{later_by, read_by};
ghost use Rattle.cpg_tree.specs.Tree.{DoPathsPass, HasOnePathEach, IsPick, IsTidyPath};
ghost use Rattle.cpg_tree.specs.TreeNode.{TreeNode};

use crate::greater::at_least;
use cpg_base::OutOfMemory;
use cpg_tree::fork::fork;
use cpg_tree::{
    Later, OptionalTime, Reading, Space, Top, Tree, TreeItem, part_in, top_of, within_items,
};

/// Adds the tree of the numbers of `on`, as they are read, if the chooser, whose list is `items`, is true, and otherwise of
/// `off`, for the scenarios of a space.
fn pick_read<T: Copy, R: Reading<T>>(
    items: &[TreeItem<bool>],
    space: &mut Space,
    on: &[TreeItem<T>],
    off: &[TreeItem<u64>],
    read: &R,
    out: &mut Vec<TreeItem<u64>>,
) -> Result<(), OutOfMemory>
    requires flat { IsFlat items.now }
    requires on_flat { IsFlat on.now }
    requires off_flat { IsFlat off.now }
    ensures long { IfOk result (λ _. vec_len out.old ≤ vec_len out.new) }
    ensures back { IfOk result (λ _. space.new ≡ space.old) }
    ensures made { IfOk result (λ _. (c : TreeNode Bool) (n : TreeNode T) (m : TreeNode ℕ) → items.now ≡ flat c → on.now ≡ flat n → off.now ≡ flat m →
        AddsTree (IsPicked space.old c (read_by (R.number read.now) n) m) out.old.items out.new.items) }
{
    // both are cut down on the way, so that no leaf of the chooser walks through them from their tops
    let on = part_in(on, space);
    let off = part_in(off, space);
    match top_of(items) {
        Top::Value(is_on) => {
            if is_on {
                // each number is at least 0, so this is the number itself
                at_least(on, space, 0, read, &|number: u64| number, out)
            } else {
                within_items(off, space, out)
            }
        }
        Top::Cut {
            variable,
            cut,
            below,
            above,
        } => {
            // all scenarios of the space go above the cut
            if !space.is_open_below(variable, cut) {
                return pick_read(above, space, on, off, read, out);
            }
            // all scenarios of the space go below the cut
            if !space.is_open_above(variable, cut) {
                return pick_read(below, space, on, off, read, out);
            }
            // the answers of both sides are added, each for its part of the space, and then a fork of the two
            let start = out.len();
            let most = space.close_above(variable, cut);
            pick_read(below, space, on, off, read, out)?;
            space.reopen_above(variable, most);
            let middle = out.len();
            let least = space.close_below(variable, cut);
            pick_read(above, space, on, off, read, out)?;
            space.reopen_below(variable, least);
            fork(out, start, middle, variable, cut)
        }
    }
}

/// Returns a tree that has in each scenario the number of one of two trees. Where a chooser is true, it is the time of
/// the first with a delay added (`time_later`; no time counts as 0). Elsewhere it is the number of the second.
pub fn pick_later(
    chooser: &Tree<bool>,
    times: &Tree<OptionalTime>,
    delay: u64,
    no: &Tree<u64>,
) -> Result<Tree<u64>, OutOfMemory>
    requires first { chooser.now.faults ≡ times.now.faults }
    requires second { chooser.now.faults ≡ no.now.faults }
    ensures is { IfOk result (IsPick chooser.now (later_by delay times.now) no.now) }
    ensures each { IfOk result (λ t. HasOnePathEach t.faults t.paths) }
    ensures tidy { IfOk result (λ t. All (IsTidyPath t.faults) t.paths) }
    ensures pass { IfOk result (λ t. (test : ℕ → Bool) → DoPathsPass test chooser.now.paths → DoPathsPass test times.now.paths →
        DoPathsPass test no.now.paths → DoPathsPass test t.paths) }
{
    let faults = chooser.faults();
    let mut space = Space::whole(faults);
    let read = Later { delay };
    let on = times.items();
    let off = no.items();
    let mut made = Vec::new(chooser.alloc());
    pick_read(chooser.items(), &mut space, on, off, &read, &mut made)?;
    Ok(Tree::of(chooser.alloc(), faults, made))
}
