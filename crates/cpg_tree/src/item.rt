//! The items of a tree's list.
ghost use Rattle.std.specs.Prelude.{◌≡◌, ◌++◌, ◌∷◌, [], true, IfOk};
ghost use Rattle.std.specs.Bool.{OnTrue};

use cpg_base::OutOfMemory;

/// An item of a tree's list. That of a fork stands behind the items of its side below and those of its side above.
#[derive(Clone, Copy)]
pub enum TreeItem<T> {
    /// A leaf with its value.
    Value(T),
    /// A fork: scenarios whose number of `variable` is at most `cut` go to the side below, which has `below` items.
    Cut { variable: u8, cut: u8, below: u32 },
}

impl<T: Copy + Eq> TreeItem<T> {
    /// Whether two items are equal.
    #[inline]
    pub(crate) fn is_same(self, other: TreeItem<T>) -> bool
        requires { (x y : T) → T.eq x y ≡ true → x ≡ y }
        ensures { OnTrue result (self ≡ other) }
    {
        match self {
            TreeItem::Value(value) => match other {
                TreeItem::Value(other) => value == other,
                TreeItem::Cut { .. } => false,
            },
            TreeItem::Cut {
                variable,
                cut,
                below,
            } => match other {
                TreeItem::Value(_) => false,
                TreeItem::Cut {
                    variable: other_variable,
                    cut: other_cut,
                    below: other_below,
                } => variable == other_variable && cut == other_cut && below == other_below,
            },
        }
    }
}

/// Whether two lists of items are equal.
pub(crate) fn are_same_items<T: Copy + Eq>(one: &[TreeItem<T>], other: &[TreeItem<T>]) -> bool
    requires { (x y : T) → T.eq x y ≡ true → x ≡ y }
    ensures { OnTrue result (one.now ≡ other.now) }
{
    // lists of different lengths differ
    if one.len() != other.len() {
        return false;
    }
    for i in 0..one.len() {
        if !one[i].is_same(other[i]) {
            return false;
        }
    }
    true
}

/// Adds an item to a list. There is usually room for it, which is asked first, so that the list is rarely asked to grow.
#[inline(always)]
pub fn put<T: Copy>(list: &mut Vec<T>, item: T) -> Result<(), OutOfMemory>
    ensures { IfOk result (λ _. list.new.items ≡ list.old.items ++ (item ∷ [])) }
{
    if list.len() < list.capacity() {
        list.push_reserved(item);
        return Ok(());
    }
    list.push(item)?;
    Ok(())
}
