//! Walks down trees of places that ask whether a test passes at each place that scenarios of a space come to.
ghost use Rattle.std.specs.Prelude.{◌≡◌, ℕ, All, Option};
ghost use Rattle.std.specs.Bool.{OnTrue};
ghost use Rattle.cpg_base.specs.Scenario.{Scenario};
ghost use Rattle.cpg_tree.specs.Space.{IsInSpace};
ghost use Rattle.cpg_tree.specs.Decision.{value_at};
ghost use Rattle.cpg_tree.specs.Flat.{IsFlat, flat};
ghost use Rattle.cpg_tree.specs.TreeNode.{TreeNode};
ghost use Rattle.cpg_row_trees.specs.Places.{IsThere};

use cpg_tree::{Space, Top, TreeItem, part_in, top_of};

/// A test of a place that scenarios come to in a tree, and what it guarantees of a place and a scenario if it passes.
pub trait Test {
    // what the test guarantees of a place and a scenario that comes to it
    ghost guarantees: { Self → Option ℕ → Scenario → Type 0 };

    /// Whether the test passes for a place, or for none, and the scenarios of a space: true guarantees it for each of them.
    fn passes(&self, place: Option<u32>, space: &Space) -> bool
        ensures { OnTrue result ((s : Scenario) → IsInSpace space.now s → guarantees self.now place s) };
}

/// A test of the places that scenarios come to in two trees, and what it guarantees of both and a scenario if it passes.
pub trait PairTest {
    // what the test guarantees of the places in both trees and a scenario that comes to them
    ghost guarantees: { Self → Option ℕ → Option ℕ → Scenario → Type 0 };

    /// Whether the test passes for a place of the first tree, whatever the second tree has: true guarantees it for every
    /// scenario. This saves a walk down the second tree.
    fn passes_with_any(&self, first: Option<u32>) -> bool
        ensures { OnTrue result ((second : Option ℕ) (s : Scenario) → guarantees self.now first second s) };

    /// Whether the test passes for a place of each tree and the scenarios of a space: true guarantees it for each of them.
    fn passes(&self, first: Option<u32>, second: Option<u32>, space: &Space) -> bool
        ensures { OnTrue result ((s : Scenario) → IsInSpace space.now s → guarantees self.now first second s) };
}

/// A test of the second tree's places alone: that of a pair, with the first tree's place fixed.
#[derive(Drop)]
struct Beside<'a, J> {
    /// The test of a pair.
    test: &'a J,
    /// The place of the first tree.
    first: Option<u32>,
}

impl<'a, J: PairTest> Test for Beside<'a, J> {
    ghost guarantees = { λ beside second s. J.guarantees beside.test.now beside.first second s };

    fn passes(&self, place: Option<u32>, space: &Space) -> bool {
        self.test.passes(self.first, place, space)
    }
}

/// Whether an item isn't a leaf without a place.
fn is_there(item: TreeItem<Option<u32>>) -> bool
    ensures { OnTrue result (IsThere item) }
{
    match item {
        TreeItem::Value(place) => place.is_some(),
        TreeItem::Cut { .. } => true,
    }
}

/// Whether no item is a leaf without a place.
pub(crate) fn are_all_there(items: &[TreeItem<Option<u32>>]) -> bool
    ensures { OnTrue result (All IsThere items.now) }
{
    for item in items {
        if !is_there(*item) {
            return false;
        }
    }
    true
}

/// Whether a test passes at each place that scenarios of a space come to. The space is narrowed on the way, and is as before
/// if the test passes at each.
#[cycle(do_pass_each)]
#[inline(never)]
fn do_pass_each<J: Test>(items: &[TreeItem<Option<u32>>], space: &mut Space, test: &J) -> bool
    requires { IsFlat items.now }
    // on true, the test's guarantee holds in each scenario of the space, at the value that the tree has
    ensures passed { OnTrue result ((n : TreeNode (Option ℕ)) → items.now ≡ flat n → (s : Scenario) → IsInSpace space.old s → J.guarantees test.now (value_at n s) s) }
    ensures same { OnTrue result (space.new ≡ space.old) }
{
    match top_of(items) {
        Top::Value(place) => test.passes(place, space),
        Top::Cut {
            variable,
            cut,
            below,
            above,
        } => {
            // no scenario of the space goes to the lower side
            if !space.is_open_below(variable, cut) {
                return do_pass_each(above, space, test);
            }
            // no scenario of the space goes to the upper side
            if !space.is_open_above(variable, cut) {
                return do_pass_each(below, space, test);
            }
            // both sides are open: the space is narrowed to each of them in turn, and reopened after it
            let old_high = space.close_above(variable, cut);
            if !do_pass_side(below, space, test) {
                return false;
            }
            space.reopen_above(variable, old_high);
            let old_low = space.close_below(variable, cut);
            if !do_pass_side(above, space, test) {
                return false;
            }
            space.reopen_below(variable, old_low);
            true
        }
    }
}

/// Does what `do_pass_each` does, without a call if the tree is one value.
#[cycle(do_pass_each)]
#[inline(always)]
fn do_pass_side<J: Test>(items: &[TreeItem<Option<u32>>], space: &mut Space, test: &J) -> bool
    requires { IsFlat items.now }
    // on true, the test's guarantee holds in each scenario of the space, at the value that the tree has
    ensures passed { OnTrue result ((n : TreeNode (Option ℕ)) → items.now ≡ flat n → (s : Scenario) → IsInSpace space.old s → J.guarantees test.now (value_at n s) s) }
    ensures same { OnTrue result (space.new ≡ space.old) }
{
    match top_of(items) {
        Top::Value(place) => test.passes(place, space),
        Top::Cut { .. } => do_pass_each(items, space, test),
    }
}

/// Does what `do_pass_each` does, with a space of its own to change. It is a function of its own, since that space is copied
/// at each call.
fn do_pass_in_all<J: Test>(items: &[TreeItem<Option<u32>>], space: &Space, test: &J) -> bool
    requires { IsFlat items.now }
    // on true, the test's guarantee holds in each scenario of the space, at the value that the tree has
    ensures { OnTrue result ((n : TreeNode (Option ℕ)) → items.now ≡ flat n → (s : Scenario) → IsInSpace space.now s → J.guarantees test.now (value_at n s) s) }
{
    let mut own = *space;
    do_pass_each(items, &mut own, test)
}

/// Whether a test passes at each place that scenarios of a space come to. The space isn't copied as long as one side of
/// each fork is closed, which is the usual case.
pub(crate) fn do_pass<J: Test>(items: &[TreeItem<Option<u32>>], space: &Space, test: &J) -> bool
    requires { IsFlat items.now }
    // on true, the test's guarantee holds in each scenario of the space, at the value that the tree has
    ensures { OnTrue result ((n : TreeNode (Option ℕ)) → items.now ≡ flat n → (s : Scenario) → IsInSpace space.now s → J.guarantees test.now (value_at n s) s) }
{
    match top_of(items) {
        Top::Value(place) => test.passes(place, space),
        Top::Cut {
            variable,
            cut,
            below,
            above,
        } => {
            // no scenario of the space goes to the lower side
            if !space.is_open_below(variable, cut) {
                return do_pass(above, space, test);
            }
            // no scenario of the space goes to the upper side
            if !space.is_open_above(variable, cut) {
                return do_pass(below, space, test);
            }
            // both sides are open: only now the space is copied
            do_pass_in_all(items, space, test)
        }
    }
}

/// Whether a test passes at a place of the first tree with each place of the second that scenarios of a space come to. The
/// space is narrowed on the way, and is as before if the test passes with each.
fn do_pass_at<J: PairTest>(
    first: Option<u32>,
    second: &[TreeItem<Option<u32>>],
    space: &mut Space,
    test: &J,
) -> bool
    requires { IsFlat second.now }
    // on true, the test's guarantee holds in each scenario of the space, at `first` and the value of `second`
    ensures passed { OnTrue result ((n : TreeNode (Option ℕ)) → second.now ≡ flat n → (s : Scenario) → IsInSpace space.old s → J.guarantees test.now first (value_at n s) s) }
    ensures same { OnTrue result (space.new ≡ space.old) }
{
    // the second tree needn't be walked
    if test.passes_with_any(first) {
        return true;
    }
    let beside = Beside { test, first };
    do_pass_each(second, space, &beside)
}

/// Whether a test passes at each pair of places to which a scenario of a space comes in two trees. The second tree is walked
/// down with the first. The space is narrowed on the way, and is as before if the test passes at each pair.
#[cycle(do_pass_both)]
#[inline(never)]
fn do_pass_both<J: PairTest>(
    first: &[TreeItem<Option<u32>>],
    second: &[TreeItem<Option<u32>>],
    space: &mut Space,
    test: &J,
) -> bool
    requires first { IsFlat first.now }
    requires second { IsFlat second.now }
    // on true, the test's guarantee holds in each scenario of the space, at the values of both trees
    ensures passed { OnTrue result ((n m : TreeNode (Option ℕ)) → first.now ≡ flat n → second.now ≡ flat m → (s : Scenario) → IsInSpace space.old s →
        J.guarantees test.now (value_at n s) (value_at m s) s) }
    ensures same { OnTrue result (space.new ≡ space.old) }
{
    match top_of(first) {
        Top::Value(place) => do_pass_at(place, second, space, test),
        Top::Cut {
            variable,
            cut,
            below,
            above,
        } => {
            // of the second tree only the part that the space leads to is walked from here on
            let part = part_in(second, space);
            // no scenario of the space goes to the lower side
            if !space.is_open_below(variable, cut) {
                return do_pass_both(above, part, space, test);
            }
            // no scenario of the space goes to the upper side
            if !space.is_open_above(variable, cut) {
                return do_pass_both(below, part, space, test);
            }
            // both sides of the first tree are open: the space is narrowed to each of them in turn, and reopened after it
            let old_high = space.close_above(variable, cut);
            if !do_pass_beside(below, part, space, test) {
                return false;
            }
            space.reopen_above(variable, old_high);
            let old_low = space.close_below(variable, cut);
            if !do_pass_beside(above, part, space, test) {
                return false;
            }
            space.reopen_below(variable, old_low);
            true
        }
    }
}

/// Does what `do_pass_both` does, without a call if the first tree is one value.
#[cycle(do_pass_both)]
#[inline(always)]
fn do_pass_beside<J: PairTest>(
    first: &[TreeItem<Option<u32>>],
    second: &[TreeItem<Option<u32>>],
    space: &mut Space,
    test: &J,
) -> bool
    requires first { IsFlat first.now }
    requires second { IsFlat second.now }
    // on true, the test's guarantee holds in each scenario of the space, at the values of both trees
    ensures passed { OnTrue result ((n m : TreeNode (Option ℕ)) → first.now ≡ flat n → second.now ≡ flat m → (s : Scenario) → IsInSpace space.old s →
        J.guarantees test.now (value_at n s) (value_at m s) s) }
    ensures same { OnTrue result (space.new ≡ space.old) }
{
    match top_of(first) {
        Top::Value(place) => do_pass_at(place, second, space, test),
        Top::Cut { .. } => do_pass_both(first, second, space, test),
    }
}

/// Whether a test passes at each pair of places to which a scenario of a space comes in two trees.
pub(crate) fn do_pass_with<J: PairTest>(
    first: &[TreeItem<Option<u32>>],
    second: &[TreeItem<Option<u32>>],
    space: &Space,
    test: &J,
) -> bool
    requires first { IsFlat first.now }
    requires second { IsFlat second.now }
    // on true, the test's guarantee holds in each scenario of the space, at the values of both trees
    ensures { OnTrue result ((n m : TreeNode (Option ℕ)) → first.now ≡ flat n → second.now ≡ flat m → (s : Scenario) → IsInSpace space.now s →
        J.guarantees test.now (value_at n s) (value_at m s) s) }
{
    let mut own = *space;
    do_pass_both(first, second, &mut own, test)
}
