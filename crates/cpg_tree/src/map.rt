//! The tree of a function's answers to the values of a tree.
ghost use Rattle.std.specs.Prelude.{◌≡◌, ◌≤◌, true, IfOk, length, vec_len};
ghost use Rattle.cpg_tree.specs.TreeNode.{TreeNode};
ghost use Rattle.cpg_tree.specs.Flat.{IsFlat, flat};
ghost use Rattle.cpg_tree.specs.Added.{AddsTree, IsMapped};

use crate::fork::fork;
use crate::item::{TreeItem, put};
use crate::top::{Top, top_of};
use cpg_base::OutOfMemory;

/// Adds the tree of the answers that `f` gives to the values of a tree.
#[cycle(map)]
#[inline(always)]
pub fn map_items<T: Copy, U: Copy + Eq, F: Fn(T) -> U>(
    items: &[TreeItem<T>],
    f: &F,
    out: &mut Vec<TreeItem<U>>,
) -> Result<(), OutOfMemory>
    requires callable { F.IsAlwaysCallable f.now }
    requires equal { (x y : U) → U.eq x y ≡ true → x ≡ y }
    requires flat { IsFlat items.now }
    ensures long { IfOk result (λ _. vec_len out.old ≤ vec_len out.new) }
    ensures made { IfOk result (λ _. (n : TreeNode T) → items.now ≡ flat n → AddsTree (IsMapped (F.post f.now) n) out.old.items out.new.items) }
{
    match top_of(items) {
        Top::Value(value) => put(out, TreeItem::Value(f(value))),
        Top::Cut { .. } => map_fork(items, f, out),
    }
}

/// Does what `map_items` does. That function is inlined where it is called, so that values take no call.
#[cycle(map)]
fn map_fork<T: Copy, U: Copy + Eq, F: Fn(T) -> U>(
    items: &[TreeItem<T>],
    f: &F,
    out: &mut Vec<TreeItem<U>>,
) -> Result<(), OutOfMemory>
    requires callable { F.IsAlwaysCallable f.now }
    requires equal { (x y : U) → U.eq x y ≡ true → x ≡ y }
    requires flat { IsFlat items.now }
    ensures long { IfOk result (λ _. vec_len out.old ≤ vec_len out.new) }
    ensures made { IfOk result (λ _. (n : TreeNode T) → items.now ≡ flat n → AddsTree (IsMapped (F.post f.now) n) out.old.items out.new.items) }
{
    match top_of(items) {
        Top::Value(value) => put(out, TreeItem::Value(f(value))),
        Top::Cut {
            variable,
            cut,
            below,
            above,
        } => {
            // the answers of both sides are added, and then a fork of the two
            let start = out.len();
            map_items(below, f, out)?;
            let middle = out.len();
            map_items(above, f, out)?;
            fork(out, start, middle, variable, cut)
        }
    }
}
