//! The span, which is the least and the greatest number, below each fork of a tree whose leaves are read as numbers.
ghost use Rattle.std.specs.Prelude.{◌≡◌, ◌++◌, ℕ, max, min, nat_le, IfOk};
ghost use Rattle.std.specs.Bool.{OnTrue};
ghost use Rattle.cpg_tree_times.specs.Bounds.{AreSpansOfSides, IsBounded, bounds_in, span_in};
ghost use Rattle.cpg_tree.specs.Flat.{IsFlat, flat};
ghost use Rattle.cpg_tree_times.specs.Greater.{IsAtLeast, are_from, most_from};
ghost use Rattle.cpg_tree.specs.TreeNode.{TreeNode, Fork};

use cpg_base::OutOfMemory;
use cpg_tree::{Reading, Top, TreeItem, put, top_of};

/// The least and the greatest of the numbers that a tree's leaves are read as.
#[derive(Clone, Copy)]
pub(crate) struct Span {
    /// The least number.
    least: u64,
    /// The greatest number.
    most: u64,
}

impl Span {
    /// Returns the span of one number.
    pub(crate) fn of(number: u64) -> Span
        ensures { result ≡ record { least = number; most = number } }
    {
        Span {
            least: number,
            most: number,
        }
    }

    /// Returns the span of two trees together.
    fn with(self, other: Span) -> Span
        ensures { result ≡ record { least = min self.least other.least; most = max self.most other.most } }
    {
        Span {
            least: self.least.min(other.least),
            most: self.most.max(other.most),
        }
    }

    /// Whether each number of this span's tree is at least each number of the other's.
    pub(crate) fn is_at_least(self, other: Span) -> bool
        ensures { result ≡ nat_le other.most self.least }
    {
        other.most <= self.least
    }
}

/// The items of a tree, and the span of each fork in the order of the items.
#[derive(Clone, Copy)]
pub(crate) struct BoundedTree<'a, T> {
    /// The tree's list.
    pub(crate) items: &'a [TreeItem<T>],
    /// The span of each fork.
    pub(crate) bounds: &'a [Span],
}

/// Splits the spans of a fork into those of its side below, which are the first `forks`, and those of its side above.
fn bounds_of_sides(bounds: &[Span], forks: usize) -> (&[Span], &[Span])
    ensures { AreSpansOfSides bounds.now forks result.0.now result.1.now }
{
    // the last span is that of the fork itself; without spans there is no fork, and nothing to split
    let Some((_, sides)) = bounds.split_last() else {
        return (bounds, bounds);
    };
    // the side below has no more forks than both sides, so `min` only shows that the split is in range
    sides.split_at(forks.min(sides.len()))
}

/// Returns the two sides of a fork with their spans, given their lists and the spans of the whole.
pub(crate) fn sides<'a, T: Copy>(
    bounds: &'a [Span],
    below: &'a [TreeItem<T>],
    above: &'a [TreeItem<T>],
) -> (BoundedTree<'a, T>, BoundedTree<'a, T>)
    ensures below { result.0.items.now ≡ below.now }
    ensures above { result.1.items.now ≡ above.now }
    ensures bounds { (number : T → ℕ) (v cut : ℕ) (x y : TreeNode T) → below.now ≡ flat x → bounds.now ≡ bounds_in number (Fork v cut x y) →
        (result.0.bounds.now ≡ bounds_in number x) × (result.1.bounds.now ≡ bounds_in number y) }
{
    // a tree has one leaf more than forks, so half of its items are forks, rounded down
    let (low, high) = bounds_of_sides(bounds, below.len() / 2);
    (
        BoundedTree {
            items: below,
            bounds: low,
        },
        BoundedTree {
            items: above,
            bounds: high,
        },
    )
}

/// Adds the span of each fork of a tree to `bounds`, behind those of its sides, and returns the span of the tree.
#[cycle(bounds)]
#[inline(always)]
pub(crate) fn push_bounds<T: Copy, R: Reading<T>>(
    items: &[TreeItem<T>],
    read: &R,
    bounds: &mut Vec<Span>,
) -> Result<Span, OutOfMemory>
    requires { IsFlat items.now }
    ensures bounds { IfOk result (λ _. (n : TreeNode T) → items.now ≡ flat n → bounds.new.items ≡ bounds.old.items ++ bounds_in (R.number read.now) n) }
    ensures span { IfOk result (λ r. (n : TreeNode T) → items.now ≡ flat n → r ≡ span_in (R.number read.now) n) }
{
    match top_of(items) {
        Top::Value(value) => Ok(Span::of(read.number(value))),
        Top::Cut { .. } => push_fork_bounds(items, read, bounds),
    }
}

/// Does what `push_bounds` does. That function is inlined where it is called, so that values take no call.
#[cycle(bounds)]
fn push_fork_bounds<T: Copy, R: Reading<T>>(
    items: &[TreeItem<T>],
    read: &R,
    bounds: &mut Vec<Span>,
) -> Result<Span, OutOfMemory>
    requires { IsFlat items.now }
    ensures bounds { IfOk result (λ _. (n : TreeNode T) → items.now ≡ flat n → bounds.new.items ≡ bounds.old.items ++ bounds_in (R.number read.now) n) }
    ensures span { IfOk result (λ r. (n : TreeNode T) → items.now ≡ flat n → r ≡ span_in (R.number read.now) n) }
{
    match top_of(items) {
        Top::Value(value) => Ok(Span::of(read.number(value))),
        Top::Cut { below, above, .. } => {
            let low = push_bounds(below, read, bounds)?;
            let high = push_bounds(above, read, bounds)?;
            let span = low.with(high);
            put(bounds, span)?;
            Ok(span)
        }
    }
}

/// Returns the span of a tree, without a look at its leaves if it has a fork.
pub(crate) fn span_of<T: Copy, R: Reading<T>>(tree: BoundedTree<'_, T>, read: &R) -> Span
    requires { IsBounded (R.number read.now) tree.items.now tree.bounds.now }
    ensures { (n : TreeNode T) → tree.entry.items.now ≡ flat n → result ≡ span_in (R.number read.now) n }
{
    // the last span is that of the topmost fork; a tree without spans is one value
    match tree.bounds.split_last() {
        Some((span, _)) => *span,
        None => match top_of(tree.items) {
            Top::Value(value) => Span::of(read.number(value)),
            // a fork has a span
            Top::Cut { .. } => unreachable!(),
        },
    }
}

/// Returns the greatest of `number` and of the numbers of a tree's leaves.
fn most_from<T: Copy, R: Reading<T>>(items: &[TreeItem<T>], read: &R, number: u64) -> u64
    ensures { result ≡ most_from (R.number read.now) number items.now }
{
    let mut most = number;
    for item in items {
        if let TreeItem::Value(value) = *item {
            most = read.number(value).max(most);
        }
    }
    most
}

/// Whether the number of each leaf of a tree is at least `least`.
fn are_from<T: Copy, R: Reading<T>>(items: &[TreeItem<T>], read: &R, least: u64) -> bool
    ensures { result ≡ are_from (R.number read.now) least items.now }
{
    for item in items {
        if let TreeItem::Value(value) = *item {
            if read.number(value) < least {
                return false;
            }
        }
    }
    true
}

/// Whether each number of a tree is at least each number of another, by the other's greatest number.
pub(crate) fn is_at_least<T: Copy, U: Copy, R: Reading<T>, S: Reading<U>>(
    own: &[TreeItem<T>],
    read: &R,
    other: &[TreeItem<U>],
    other_reading: &S,
) -> bool
    requires flat { IsFlat own.now }
    requires other_flat { IsFlat other.now }
    ensures { OnTrue result ((n : TreeNode T) (m : TreeNode U) → own.now ≡ flat n → other.now ≡ flat m →
        IsAtLeast (R.number read.now) (S.number other_reading.now) n m) }
{
    are_from(own, read, most_from(other, other_reading, 0))
}
