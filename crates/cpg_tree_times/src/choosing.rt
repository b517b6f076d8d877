//! The greater number of two trees in the scenarios in which a chooser is true.
ghost use Rattle.std.specs.Prelude.{◌≡◌, ◌≤◌, max, ℕ, Bool, All, IfOk, true, vec_len};
ghost use Rattle.cpg_tree.specs.Added.{AddsTree};
ghost use Rattle.cpg_tree_times.specs.AddedInBoth.{IsJoinedWhere};
ghost use Rattle.cpg_tree_times.specs.Bounds.{IsBounded};
ghost use Rattle.cpg_tree.specs.Flat.{IsFlat, flat};
ghost use Rattle.cpg_tree.specs.Tree.{DoPathsPass, HasOnePathEach, IsJoinWhere, IsTidyPath};
ghost use Rattle.cpg_tree.specs.TreeNode.{TreeNode};

use crate::asked::SpacePair;
use crate::bounds::{BoundedTree, push_bounds};
use crate::greater::{Greater, greater_by};
use cpg_base::OutOfMemory;
use cpg_tree::fork::fork;
use cpg_tree::{Reading, Space, Top, Tree, TreeItem, put, top_of};

/// Two trees with the spans of their forks.
#[derive(Clone, Copy)]
struct TreePair<'a, T, U> {
    /// The first tree.
    own: BoundedTree<'a, T>,
    /// The second tree.
    other: BoundedTree<'a, U>,
}

/// Adds the tree of what is made of the greater number of two trees if a chooser is true, and otherwise of the value `none`,
/// for the scenarios of two spaces. The chooser's forks narrow only the space asked for, so the answer has the forks that
/// the two trees' answer has in the whole space.
fn greater_where<T: Copy, U: Copy, V: Copy + Eq, R: Reading<T>, S: Reading<U>, F: Fn(u64) -> V>(
    chooser: &[TreeItem<bool>],
    pair: &TreePair<'_, T, U>,
    spaces: &mut SpacePair,
    how: &Greater<'_, R, S, F>,
    none: V,
    out: &mut Vec<TreeItem<V>>,
) -> Result<(), OutOfMemory>
    requires callable { F.IsAlwaysCallable how.now.made.now }
    requires equal { (x y : V) → V.eq x y ≡ true → x ≡ y }
    requires flat { IsFlat chooser.now }
    requires own { IsBounded (R.number how.now.read.now) pair.now.own.items.now pair.now.own.bounds.now }
    requires others { IsBounded (S.number how.now.other_reading.now) pair.now.other.items.now pair.now.other.bounds.now }
    ensures long { IfOk result (λ _. vec_len out.old ≤ vec_len out.new) }
    ensures back { IfOk result (λ _. spaces.new ≡ spaces.old) }
    ensures made { IfOk result (λ _. (c : TreeNode Bool) (n : TreeNode T) (m : TreeNode U) → chooser.now ≡ flat c → pair.now.own.items.now ≡ flat n →
        pair.now.other.items.now ≡ flat m →
        AddsTree (IsJoinedWhere (λ x y z. F.post how.now.made.now (max (R.number how.now.read.now x) (S.number how.now.other_reading.now y)) z) none spaces.old c n m)
        out.old.items out.new.items) }
{
    match top_of(chooser) {
        Top::Value(is_on) => {
            if is_on {
                return greater_by(pair.own, pair.other, spaces, how, out);
            }
            put(out, TreeItem::Value(none))
        }
        Top::Cut {
            variable,
            cut,
            below,
            above,
        } => {
            // all scenarios asked for go above the cut
            if !spaces.asked.is_open_below(variable, cut) {
                return greater_where(above, pair, spaces, how, none, out);
            }
            // all scenarios asked for go below the cut
            if !spaces.asked.is_open_above(variable, cut) {
                return greater_where(below, pair, spaces, how, none, out);
            }
            // the answers of both sides are added, each for its part of the space, and then a fork of the two
            let start = out.len();
            let highs = spaces.ask_below(variable, cut);
            greater_where(below, pair, spaces, how, none, out)?;
            spaces.reopen_above(variable, highs);
            let middle = out.len();
            let lows = spaces.ask_above(variable, cut);
            greater_where(above, pair, spaces, how, none, out)?;
            spaces.reopen_below(variable, lows);
            fork(out, start, middle, variable, cut)
        }
    }
}

/// Returns a tree that has, in each scenario in which a given tree is true, what a function makes of the greater number
/// of two trees whose leaves are read as numbers. In the other scenarios it has one value, and nothing is made of the
/// two others. The one error is `OutOfMemory`.
pub(crate) fn greater_of_where<
    T: Copy,
    U: Copy,
    V: Copy + Eq,
    R: Reading<T>,
    S: Reading<U>,
    F: Fn(u64) -> V,
>(
    chooser: &Tree<bool>,
    tree: &Tree<T>,
    read: &R,
    other: &Tree<U>,
    other_reading: &S,
    made: &F,
    none: V,
) -> Result<Tree<V>, OutOfMemory>
    requires callable { F.IsAlwaysCallable made.now }
    requires equal { (x y : V) → V.eq x y ≡ true → x ≡ y }
    requires first { chooser.now.faults ≡ tree.now.faults }
    requires second { chooser.now.faults ≡ other.now.faults }
    ensures is { IfOk result (IsJoinWhere (λ x y z. F.post made.now (max (R.number read.now x) (S.number other_reading.now y)) z) none
        chooser.now tree.now other.now) }
    ensures each { IfOk result (λ t. HasOnePathEach t.faults t.paths) }
    ensures tidy { IfOk result (λ t. All (IsTidyPath t.faults) t.paths) }
    ensures pass { IfOk result (λ t. (test : ℕ → Bool) → DoPathsPass test chooser.now.paths → DoPathsPass test tree.now.paths →
        DoPathsPass test other.now.paths → DoPathsPass test t.paths) }
{
    let alloc = chooser.alloc();
    let own_items = tree.items();
    let other_items = other.items();
    // one list for both takes fewer and larger blocks than two
    let mut bounds = Vec::with_capacity(alloc, own_items.len() / 2 + other_items.len() / 2)?;
    push_bounds(own_items, read, &mut bounds)?;
    let forks = bounds.len();
    push_bounds(other_items, other_reading, &mut bounds)?;
    let (own_bounds, other_bounds) = bounds.split_at(forks);
    let pair = TreePair {
        own: BoundedTree {
            items: own_items,
            bounds: own_bounds,
        },
        other: BoundedTree {
            items: other_items,
            bounds: other_bounds,
        },
    };
    let how = Greater {
        read,
        other_reading,
        made,
    };
    let faults = chooser.faults();
    let space = Space::whole(faults);
    let mut spaces = SpacePair {
        asked: space,
        walked: space,
    };
    let mut items = Vec::new(alloc);
    greater_where(chooser.items(), &pair, &mut spaces, &how, none, &mut items)?;
    Ok(Tree::of(alloc, faults, items))
}
