//! The tree of a function's answers to the values of two trees.
ghost use Rattle.std.specs.Prelude.{◌≡◌, ◌≤◌, true, IfOk, length, vec_len};
ghost use Rattle.cpg_tree.specs.TreeNode.{TreeNode};
ghost use Rattle.cpg_tree.specs.Flat.{IsFlat, flat};
ghost use Rattle.cpg_tree.specs.Added.{AddsTree, IsFilled, IsJoined};

use crate::fork::fork;
use crate::item::{TreeItem, put};
use crate::part::part_in;
use crate::space::Space;
use crate::top::{Top, top_of};
use cpg_base::OutOfMemory;

/// Adds the tree of the answers that `f` gives to `value` and the values of a tree, for the scenarios of a space.
#[cycle(fill)]
#[inline(always)]
pub fn fill_items<T: Copy, U: Copy, V: Copy + Eq, F: Fn(T, U) -> V>(
    items: &[TreeItem<U>],
    space: &mut Space,
    value: T,
    f: &F,
    out: &mut Vec<TreeItem<V>>,
) -> Result<(), OutOfMemory>
    requires callable { F.IsAlwaysCallable f.now }
    requires equal { (x y : V) → V.eq x y ≡ true → x ≡ y }
    requires flat { IsFlat items.now }
    ensures long { IfOk result (λ _. vec_len out.old ≤ vec_len out.new) }
    ensures back { IfOk result (λ _. space.new ≡ space.old) }
    ensures made { IfOk result (λ _. (n : TreeNode U) → items.now ≡ flat n → AddsTree (IsFilled (F.post f.now) space.old value n) out.old.items out.new.items) }
{
    match top_of(items) {
        Top::Value(other) => put(out, TreeItem::Value(f(value, other))),
        Top::Cut { .. } => fill_fork(items, space, value, f, out),
    }
}

/// Does what `fill_items` does. That function is inlined where it is called, so that values take no call.
#[cycle(fill)]
fn fill_fork<T: Copy, U: Copy, V: Copy + Eq, F: Fn(T, U) -> V>(
    items: &[TreeItem<U>],
    space: &mut Space,
    value: T,
    f: &F,
    out: &mut Vec<TreeItem<V>>,
) -> Result<(), OutOfMemory>
    requires callable { F.IsAlwaysCallable f.now }
    requires equal { (x y : V) → V.eq x y ≡ true → x ≡ y }
    requires flat { IsFlat items.now }
    ensures long { IfOk result (λ _. vec_len out.old ≤ vec_len out.new) }
    ensures back { IfOk result (λ _. space.new ≡ space.old) }
    ensures made { IfOk result (λ _. (n : TreeNode U) → items.now ≡ flat n → AddsTree (IsFilled (F.post f.now) space.old value n) out.old.items out.new.items) }
{
    match top_of(items) {
        Top::Value(other) => put(out, TreeItem::Value(f(value, other))),
        Top::Cut {
            variable,
            cut,
            below,
            above,
        } => {
            // all scenarios of the space go above the cut
            if !space.is_open_below(variable, cut) {
                return fill_fork(above, space, value, f, out);
            }
            // all scenarios of the space go below the cut
            if !space.is_open_above(variable, cut) {
                return fill_fork(below, space, value, f, out);
            }
            // the answers of both sides are added, each for its part of the space, and then a fork of the two
            let start = out.len();
            let most = space.close_above(variable, cut);
            fill_items(below, space, value, f, out)?;
            space.reopen_above(variable, most);
            let middle = out.len();
            let least = space.close_below(variable, cut);
            fill_items(above, space, value, f, out)?;
            space.reopen_below(variable, least);
            fork(out, start, middle, variable, cut)
        }
    }
}

/// Adds the tree of the answers that `f` gives to the values of two trees, for the scenarios of a space. It walks down the
/// first tree, and from each of its leaves on down the second.
#[cycle(join)]
pub(crate) fn join_items<T: Copy, U: Copy, V: Copy + Eq, F: Fn(T, U) -> V>(
    items: &[TreeItem<T>],
    other: &[TreeItem<U>],
    space: &mut Space,
    f: &F,
    out: &mut Vec<TreeItem<V>>,
) -> Result<(), OutOfMemory>
    requires callable { F.IsAlwaysCallable f.now }
    requires equal { (x y : V) → V.eq x y ≡ true → x ≡ y }
    requires flat { IsFlat items.now }
    requires other_flat { IsFlat other.now }
    ensures long { IfOk result (λ _. vec_len out.old ≤ vec_len out.new) }
    ensures back { IfOk result (λ _. space.new ≡ space.old) }
    ensures made { IfOk result (λ _. (n : TreeNode T) (m : TreeNode U) → items.now ≡ flat n → other.now ≡ flat m →
        AddsTree (IsJoined (F.post f.now) space.old n m) out.old.items out.new.items) }
{
    // the other tree is cut down on the way, so that no leaf walks through it from its top
    let other = part_in(other, space);
    match top_of(items) {
        Top::Value(value) => fill_items(other, space, value, f, out),
        Top::Cut {
            variable,
            cut,
            below,
            above,
        } => {
            // all scenarios of the space go above the cut
            if !space.is_open_below(variable, cut) {
                return join_items(above, other, space, f, out);
            }
            // all scenarios of the space go below the cut
            if !space.is_open_above(variable, cut) {
                return join_items(below, other, space, f, out);
            }
            // the answers of both sides are added, each for its part of the space, and then a fork of the two
            let start = out.len();
            let most = space.close_above(variable, cut);
            join_side(below, other, space, f, out)?;
            space.reopen_above(variable, most);
            let middle = out.len();
            let least = space.close_below(variable, cut);
            join_side(above, other, space, f, out)?;
            space.reopen_below(variable, least);
            fork(out, start, middle, variable, cut)
        }
    }
}

/// Does what `join_items` does, inlined where it is called, so that values take no call.
#[cycle(join)]
#[inline(always)]
fn join_side<T: Copy, U: Copy, V: Copy + Eq, F: Fn(T, U) -> V>(
    items: &[TreeItem<T>],
    other: &[TreeItem<U>],
    space: &mut Space,
    f: &F,
    out: &mut Vec<TreeItem<V>>,
) -> Result<(), OutOfMemory>
    requires callable { F.IsAlwaysCallable f.now }
    requires equal { (x y : V) → V.eq x y ≡ true → x ≡ y }
    requires flat { IsFlat items.now }
    requires other_flat { IsFlat other.now }
    ensures long { IfOk result (λ _. vec_len out.old ≤ vec_len out.new) }
    ensures back { IfOk result (λ _. space.new ≡ space.old) }
    ensures made { IfOk result (λ _. (n : TreeNode T) (m : TreeNode U) → items.now ≡ flat n → other.now ≡ flat m →
        AddsTree (IsJoined (F.post f.now) space.old n m) out.old.items out.new.items) }
{
    match top_of(items) {
        Top::Value(value) => {
            // no leaf of the other tree outside the space is looked at
            let other = part_in(other, space);
            fill_items(other, space, value, f, out)
        }
        Top::Cut { .. } => join_items(items, other, space, f, out),
    }
}
