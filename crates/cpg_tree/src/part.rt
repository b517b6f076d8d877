//! The part of a tree that the scenarios of a space come to.
ghost use Rattle.std.specs.Prelude.{◌≡◌};
ghost use Rattle.cpg_tree.specs.TreeNode.{TreeNode};
ghost use Rattle.cpg_tree.specs.Added.{IsPartList};
ghost use Rattle.cpg_tree.specs.Flat.{IsFlat, flat};

use crate::item::TreeItem;
use crate::space::Space;
use crate::top::{Top, top_of};

/// Does what `part_in` does. That function is inlined where it is called, and calls this one to go on below a fork.
#[cycle(part)]
fn part_of<'a, T: Copy>(items: &'a [TreeItem<T>], space: &Space) -> &'a [TreeItem<T>]
    requires { IsFlat items.now }
    ensures part { (n : TreeNode T) → items.now ≡ flat n → IsPartList space.now n result.now }
    ensures flat { IsFlat result.now }
{
    part_in(items, space)
}

/// Returns the part of a tree that all scenarios of a space come to: from the top it leaves out each fork of which the space
/// closes one side, down to the first fork that is open on both sides.
#[cycle(part)]
#[inline(always)]
pub fn part_in<'a, T: Copy>(items: &'a [TreeItem<T>], space: &Space) -> &'a [TreeItem<T>]
    requires { IsFlat items.now }
    ensures part { (n : TreeNode T) → items.now ≡ flat n → IsPartList space.now n result.now }
    ensures flat { IsFlat result.now }
{
    match top_of(items) {
        Top::Value(_) => items,
        Top::Cut {
            variable,
            cut,
            below,
            above,
        } => {
            // all scenarios of the space go above the cut
            if !space.is_open_below(variable, cut) {
                return part_of(above, space);
            }
            // all scenarios of the space go below the cut
            if !space.is_open_above(variable, cut) {
                return part_of(below, space);
            }
            items
        }
    }
}
