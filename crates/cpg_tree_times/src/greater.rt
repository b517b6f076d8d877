//! The greater number of two trees whose leaves are read as numbers.
ghost use Rattle.std.specs.Prelude.{◌≡◌, ◌≤◌, max, ℕ, Bool, All, IfOk, true, vec_len};
ghost use Rattle.cpg_tree.specs.Added.{AddsTree, IsFilled, IsJoined, IsMapped};
ghost use Rattle.cpg_tree_times.specs.AddedInBoth.{IsBoundedPartList, IsJoinedIn};
ghost use Rattle.cpg_tree_times.specs.Bounds.{IsBounded, bounds_in};
ghost use Rattle.cpg_tree.specs.Decision.{IsFit};
ghost use Rattle.cpg_tree.specs.Flat.{IsFlat, flat};
ghost use Rattle.cpg_tree.specs.Later.{time_later};
ghost use Rattle.cpg_tree.specs.Tree.{DoPathsPass, HasOnePathEach, IsJoin, IsTidyPath};
ghost use Rattle.cpg_tree.specs.TreeNode.{TreeNode};

use crate::asked::{SpacePair, Way};
use crate::bounds::{BoundedTree, is_at_least, push_bounds, sides, span_of};
use cpg_base::OutOfMemory;
use cpg_tree::fork::fork;
use cpg_tree::{
    AsIs, Later, OptionalTime, Reading, Space, Top, Tree, TreeItem, fill_items, map_items, top_of,
};

/// How the leaves of two trees are read as numbers, and what is made of the greater one.
#[derive(Clone, Copy)]
pub(crate) struct Greater<'a, R, S, F> {
    /// How the leaves of the first tree are read.
    pub(crate) read: &'a R,
    /// How those of the other tree are read.
    pub(crate) other_reading: &'a S,
    /// What is made of the greater number.
    pub(crate) made: &'a F,
}

/// Returns the part of a tree that all scenarios of a space come to, with its spans.
fn bounded_part<'a, T: Copy>(tree: BoundedTree<'a, T>, space: &Space) -> BoundedTree<'a, T>
    requires { IsFlat tree.items.now }
    ensures part { (n : TreeNode T) → tree.entry.items.now ≡ flat n → IsBoundedPartList space.now n tree.entry.bounds.now result.items.now result.bounds.now }
    ensures flat { IsFlat result.items.now }
{
    match top_of(tree.items) {
        Top::Value(_) => tree,
        Top::Cut {
            variable,
            cut,
            below,
            above,
        } => {
            // all scenarios of the space go above the cut
            if !space.is_open_below(variable, cut) {
                return bounded_part(sides(tree.bounds, below, above).1, space);
            }
            // all scenarios of the space go below the cut
            if !space.is_open_above(variable, cut) {
                return bounded_part(sides(tree.bounds, below, above).0, space);
            }
            tree
        }
    }
}

/// Adds the tree of what is made of `value` or a tree's number, whichever is greater, for the scenarios of a space.
pub(crate) fn at_least<T: Copy, V: Copy + Eq, R: Reading<T>, F: Fn(u64) -> V>(
    items: &[TreeItem<T>],
    space: &mut Space,
    value: u64,
    read: &R,
    made: &F,
    out: &mut Vec<TreeItem<V>>,
) -> Result<(), OutOfMemory>
    requires callable { F.IsAlwaysCallable made.now }
    requires equal { (x y : V) → V.eq x y ≡ true → x ≡ y }
    requires flat { IsFlat items.now }
    ensures long { IfOk result (λ _. vec_len out.old ≤ vec_len out.new) }
    ensures back { IfOk result (λ _. space.new ≡ space.old) }
    ensures made { IfOk result (λ _. (n : TreeNode T) → items.now ≡ flat n →
        AddsTree (IsFilled (λ x y z. F.post made.now (max x (R.number read.now y)) z) space.old value n) out.old.items out.new.items) }
{
    fill_items(
        items,
        space,
        value,
        &|first: u64, second: T| made(first.max(read.number(second))),
        out,
    )
}

/// Adds the tree of what is made of the greater number of two trees, for the scenarios of two spaces. If one tree's numbers
/// are at least the other's everywhere, the other plays no part. The answer fits the space asked for. The space walked is
/// what the forks on the way have left, and only says which parts of the trees are compared.
pub(crate) fn greater_by<
    T: Copy,
    U: Copy,
    V: Copy + Eq,
    R: Reading<T>,
    S: Reading<U>,
    F: Fn(u64) -> V,
>(
    own: BoundedTree<'_, T>,
    other: BoundedTree<'_, U>,
    spaces: &mut SpacePair,
    how: &Greater<'_, R, S, F>,
    out: &mut Vec<TreeItem<V>>,
) -> Result<(), OutOfMemory>
    requires callable { F.IsAlwaysCallable how.now.made.now }
    requires equal { (x y : V) → V.eq x y ≡ true → x ≡ y }
    requires own { IsBounded (R.number how.now.read.now) own.items.now own.bounds.now }
    requires others { IsBounded (S.number how.now.other_reading.now) other.items.now other.bounds.now }
    ensures long { IfOk result (λ _. vec_len out.old ≤ vec_len out.new) }
    ensures back { IfOk result (λ _. spaces.new ≡ spaces.old) }
    ensures made { IfOk result (λ _. (n : TreeNode T) (m : TreeNode U) → own.entry.items.now ≡ flat n → other.entry.items.now ≡ flat m →
        AddsTree (IsJoinedIn (λ x y z. F.post how.now.made.now (max (R.number how.now.read.now x) (S.number how.now.other_reading.now y)) z) spaces.old n m)
        out.old.items out.new.items) }
{
    // only the part of the other tree that the walk can come to counts
    let other = bounded_part(other, &spaces.walked);
    let own_span = span_of(own, how.read);
    let other_span = span_of(other, how.other_reading);
    // no number of the other tree is above one of the first tree: the first tree's numbers are the answer, and 0 raises none
    if own_span.is_at_least(other_span) {
        return at_least(own.items, &mut spaces.asked, 0, how.read, how.made, out);
    }
    // no number of the first tree is above one of the other: the other's numbers are the answer
    if other_span.is_at_least(own_span) {
        return at_least(
            other.items,
            &mut spaces.asked,
            0,
            how.other_reading,
            how.made,
            out,
        );
    }
    match top_of(own.items) {
        // one number is left of the first tree, so it is filled in below the other's
        Top::Value(value) => {
            let number = how.read.number(value);
            at_least(
                other.items,
                &mut spaces.asked,
                number,
                how.other_reading,
                how.made,
                out,
            )
        }
        Top::Cut {
            variable,
            cut,
            below,
            above,
        } => {
            let (below, above) = sides(own.bounds, below, above);
            // if all scenarios go one way, the fork is left out
            match spaces.way(variable, cut) {
                Way::Above(lows) => {
                    greater_by(above, other, spaces, how, out)?;
                    spaces.reopen_below(variable, lows);
                    Ok(())
                }
                Way::Below(highs) => {
                    greater_by(below, other, spaces, how, out)?;
                    spaces.reopen_above(variable, highs);
                    Ok(())
                }
                // the answers of both sides are added, and then a fork of the two
                Way::Both => {
                    let start = out.len();
                    let highs = spaces.close_above(variable, cut);
                    greater_by(below, other, spaces, how, out)?;
                    spaces.reopen_above(variable, highs);
                    let middle = out.len();
                    let lows = spaces.close_below(variable, cut);
                    greater_by(above, other, spaces, how, out)?;
                    spaces.reopen_below(variable, lows);
                    fork(out, start, middle, variable, cut)
                }
            }
        }
    }
}

/// Adds the tree of what is made of `value` or a tree's number, whichever is greater, for all scenarios.
fn at_least_everywhere<T: Copy, V: Copy + Eq, R: Reading<T>, F: Fn(u64) -> V>(
    items: &[TreeItem<T>],
    value: u64,
    read: &R,
    made: &F,
    out: &mut Vec<TreeItem<V>>,
) -> Result<(), OutOfMemory>
    requires callable { F.IsAlwaysCallable made.now }
    requires equal { (x y : V) → V.eq x y ≡ true → x ≡ y }
    requires flat { IsFlat items.now }
    ensures long { IfOk result (λ _. vec_len out.old ≤ vec_len out.new) }
    ensures made { IfOk result (λ _. (n : TreeNode T) → items.now ≡ flat n →
        AddsTree (IsMapped (λ y z. F.post made.now (max value (R.number read.now y)) z) n) out.old.items out.new.items) }
{
    // the answer has no more items than the tree
    out.reserve(items.len())?;
    map_items(items, &|leaf: T| made(value.max(read.number(leaf))), out)
}

/// Adds the tree of what is made of the greater number of two trees, for the scenarios of a space that both trees fit.
fn greater_items<T: Copy, U: Copy, V: Copy + Eq, R: Reading<T>, S: Reading<U>, F: Fn(u64) -> V>(
    own: &[TreeItem<T>],
    other: &[TreeItem<U>],
    space: &Space,
    how: &Greater<'_, R, S, F>,
    out: &mut Vec<TreeItem<V>>,
) -> Result<(), OutOfMemory>
    requires callable { F.IsAlwaysCallable how.now.made.now }
    requires equal { (x y : V) → V.eq x y ≡ true → x ≡ y }
    requires flat { IsFlat own.now }
    requires other_flat { IsFlat other.now }
    requires fit { (n : TreeNode T) → own.now ≡ flat n → IsFit space.now n }
    requires other_fit { (m : TreeNode U) → other.now ≡ flat m → IsFit space.now m }
    ensures long { IfOk result (λ _. vec_len out.old ≤ vec_len out.new) }
    ensures made { IfOk result (λ _. (n : TreeNode T) (m : TreeNode U) → own.now ≡ flat n → other.now ≡ flat m →
        AddsTree (IsJoined (λ x y z. F.post how.now.made.now (max (R.number how.now.read.now x) (S.number how.now.other_reading.now y)) z) space.now n m)
        out.old.items out.new.items) }
{
    // one of the trees is one number: the other is mapped, without a look at the space
    if let Top::Value(value) = top_of(own) {
        let number = how.read.number(value);
        return at_least_everywhere(other, number, how.other_reading, how.made, out);
    }
    if let Top::Value(value) = top_of(other) {
        let number = how.other_reading.number(value);
        return at_least_everywhere(own, number, how.read, how.made, out);
    }
    // One tree is at least the other everywhere, and 0 raises none of its numbers. This looks at the leaves alone, before any
    // span of a fork is kept.
    if is_at_least(own, how.read, other, how.other_reading) {
        return at_least_everywhere(own, 0, how.read, how.made, out);
    }
    if is_at_least(other, how.other_reading, own, how.read) {
        return at_least_everywhere(other, 0, how.other_reading, how.made, out);
    }
    greater_by_bounds(own, other, space, how, out)
}

/// Does what `greater_items` does, by the spans of the forks of both trees.
fn greater_by_bounds<T: Copy, U: Copy, V: Copy + Eq, R: Reading<T>, S: Reading<U>, F: Fn(u64) -> V>(
    own: &[TreeItem<T>],
    other: &[TreeItem<U>],
    space: &Space,
    how: &Greater<'_, R, S, F>,
    out: &mut Vec<TreeItem<V>>,
) -> Result<(), OutOfMemory>
    requires callable { F.IsAlwaysCallable how.now.made.now }
    requires equal { (x y : V) → V.eq x y ≡ true → x ≡ y }
    requires flat { IsFlat own.now }
    requires other_flat { IsFlat other.now }
    ensures long { IfOk result (λ _. vec_len out.old ≤ vec_len out.new) }
    ensures made { IfOk result (λ _. (n : TreeNode T) (m : TreeNode U) → own.now ≡ flat n → other.now ≡ flat m →
        AddsTree (IsJoined (λ x y z. F.post how.now.made.now (max (R.number how.now.read.now x) (S.number how.now.other_reading.now y)) z) space.now n m)
        out.old.items out.new.items) }
{
    // one list for the spans of both takes fewer and larger blocks than two; half of a tree's items are forks
    let mut bounds = Vec::with_capacity(*out.allocator(), own.len() / 2 + other.len() / 2)?;
    push_bounds(own, how.read, &mut bounds)?;
    let forks = bounds.len();
    push_bounds(other, how.other_reading, &mut bounds)?;
    let (own_bounds, other_bounds) = bounds.split_at(forks);
    let own = BoundedTree {
        items: own,
        bounds: own_bounds,
    };
    let other = BoundedTree {
        items: other,
        bounds: other_bounds,
    };
    let mut spaces = SpacePair {
        asked: *space,
        walked: *space,
    };
    // a guess: the answer mostly has about as many items as the larger tree
    out.reserve(own.items.len().max(other.items.len()))?;
    greater_by(own, other, &mut spaces, how, out)
}

/// Returns what a function makes in each scenario of the greater number of two trees whose leaves are read as numbers.
/// If one tree's numbers are at least the other's everywhere, nothing of the other is tested; no clause asks for this.
/// The one error is `OutOfMemory`.
pub(crate) fn greater_of<
    T: Copy,
    U: Copy,
    V: Copy + Eq,
    R: Reading<T>,
    S: Reading<U>,
    F: Fn(u64) -> V,
>(
    tree: &Tree<T>,
    read: &R,
    other: &Tree<U>,
    other_reading: &S,
    made: &F,
) -> Result<Tree<V>, OutOfMemory>
    requires callable { F.IsAlwaysCallable made.now }
    requires equal { (x y : V) → V.eq x y ≡ true → x ≡ y }
    requires same { tree.now.faults ≡ other.now.faults }
    ensures is { IfOk result (IsJoin (λ x y z. F.post made.now (max (R.number read.now x) (S.number other_reading.now y)) z) tree.now other.now) }
    ensures each { IfOk result (λ t. HasOnePathEach t.faults t.paths) }
    ensures tidy { IfOk result (λ t. All (IsTidyPath t.faults) t.paths) }
    ensures pass { IfOk result (λ t. (test : ℕ → Bool) → DoPathsPass test tree.now.paths → DoPathsPass test other.now.paths → DoPathsPass test t.paths) }
{
    let faults = tree.faults();
    let space = Space::whole(faults);
    let how = Greater {
        read,
        other_reading,
        made,
    };
    let others = other.items();
    let mut items = Vec::new(tree.alloc());
    greater_items(tree.items(), others, &space, &how, &mut items)?;
    Ok(Tree::of(tree.alloc(), faults, items))
}

/// Returns a tree that has in each scenario the greater of the values of two trees.
pub fn max_of(tree: &Tree<u64>, other: &Tree<u64>) -> Result<Tree<u64>, OutOfMemory>
    requires same { tree.now.faults ≡ other.now.faults }
    ensures is { IfOk result (IsJoin (λ x y z. z ≡ max x y) tree.now other.now) }
    ensures each { IfOk result (λ t. HasOnePathEach t.faults t.paths) }
    ensures tidy { IfOk result (λ t. All (IsTidyPath t.faults) t.paths) }
    ensures pass { IfOk result (λ t. (test : ℕ → Bool) → DoPathsPass test tree.now.paths → DoPathsPass test other.now.paths → DoPathsPass test t.paths) }
{
    greater_of(tree, &AsIs, other, &AsIs, &|number: u64| number)
}

/// Returns a tree that has in each scenario the greater of two numbers: that of `tree`, and that of `other` with the
/// delay added (`time_later`). A scenario in which `other` has no number counts as 0 before the delay is added.
pub fn max_later(
    tree: &Tree<u64>,
    other: &Tree<OptionalTime>,
    delay: u64,
) -> Result<Tree<u64>, OutOfMemory>
    requires same { tree.now.faults ≡ other.now.faults }
    ensures is { IfOk result (IsJoin (λ x y z. z ≡ max x (time_later delay y)) tree.now other.now) }
    ensures each { IfOk result (λ t. HasOnePathEach t.faults t.paths) }
    ensures tidy { IfOk result (λ t. All (IsTidyPath t.faults) t.paths) }
    ensures pass { IfOk result (λ t. (test : ℕ → Bool) → DoPathsPass test tree.now.paths → DoPathsPass test other.now.paths → DoPathsPass test t.paths) }
{
    greater_of(tree, &AsIs, other, &Later { delay }, &|number: u64| number)
}
