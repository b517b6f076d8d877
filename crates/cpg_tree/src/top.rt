//! The top of a tree that is given as its list.
ghost use Rattle.cpg_tree.specs.Flat.{HasVariable, IsFlat, IsLess, ShowsTop};

use crate::item::TreeItem;

/// What stands at the top of a tree.
#[derive(Clone, Copy)]
pub enum Top<'a, T> {
    /// The tree is one leaf with this value.
    Value(T),
    /// A fork: scenarios whose number of `variable` is at most `cut` go to `below`, the others to `above`.
    Cut {
        variable: u8,
        cut: u8,
        below: &'a [TreeItem<T>],
        above: &'a [TreeItem<T>],
    },
}

/// Returns the top of a tree. It takes the last item of the list, so a walk down needs no search.
#[inline]
pub fn top_of<T: Copy>(items: &[TreeItem<T>]) -> Top<'_, T>
    requires { IsFlat items.now }
    ensures shows { ShowsTop items.now result }
    ensures less { IsLess items.now result }
    ensures variable { HasVariable result }
{
    // a tree's list isn't empty
    let Some((last, sides)) = items.split_last() else {
        unreachable!();
    };
    // a list of one item is a value: its length says so, and the test doesn't wait for the item
    if sides.is_empty() {
        return match *last {
            TreeItem::Value(value) => Top::Value(value),
            // items of both sides stand before a cut
            TreeItem::Cut { .. } => unreachable!(),
        };
    }
    let item = *last;
    match item {
        // no item stands before a value
        TreeItem::Value(_) => unreachable!(),
        TreeItem::Cut {
            variable,
            cut,
            below,
        } => {
            // the side below is within the list, so `min` only shows that the split is in range
            let (below, above) = sides.split_at((below as usize).min(sides.len()));
            Top::Cut {
                variable,
                cut,
                below,
                above,
            }
        }
    }
}
