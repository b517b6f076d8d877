//! Forks of the two trees that a list ends in: the first begins at `start` in the list, and the second at `middle`.
ghost use Rattle.std.specs.Prelude.{◌≡◌, ◌≤◌, ◌<◌, ◌+◌, ◌-◌, ◌++◌, ◌∷◌, [], true, take, drop, length, IfOk, List};
ghost use Rattle.std.specs.Bool.{OnTrue};
ghost use Rattle.cpg_tree.specs.declared.item.TreeItem.{TreeItem};
ghost use Rattle.cpg_tree.specs.declared.item.TreeItem.TheVariants.{Cut};
ghost use Rattle.cpg_tree.specs.Added.{ForksEnd, RepeatsBelow};

use crate::item::{TreeItem, are_same_items, put};
use cpg_base::OutOfMemory;

/// Whether the two trees that a list ends in are equal.
fn sides_are_same<T: Copy + Eq>(items: &[TreeItem<T>], start: usize, middle: usize) -> bool
    requires equal { (x y : T) → T.eq x y ≡ true → x ≡ y }
    requires order { start ≤ middle }
    requires long { middle ≤ length items.now }
    ensures { OnTrue result (drop start (take middle items.now) ≡ drop middle items.now) }
{
    let (front, above) = items.split_at(middle);
    are_same_items(front.split_at(start).1, above)
}

/// Whether `above` is a fork on the same variable at a greater cut, whose side below is equal to `below`. Then a fork of
/// `below` and `above` has the values of `above` alone.
fn repeats_below<T: Copy + Eq>(
    below: &[TreeItem<T>],
    above: &[TreeItem<T>],
    variable: u8,
    cut: u8,
) -> bool
    requires { (x y : T) → T.eq x y ≡ true → x ≡ y }
    ensures { OnTrue result (RepeatsBelow below.now above.now variable cut) }
{
    // a tree's list isn't empty, but no clause says so here
    let Some((last, sides)) = above.split_last() else {
        return false;
    };
    // the side above is one value
    let TreeItem::Cut {
        variable: next,
        cut: far,
        below: count,
    } = *last
    else {
        return false;
    };
    // the side above is a fork on another variable
    if next != variable {
        return false;
    }
    // its cut isn't farther up
    if far <= cut {
        return false;
    }
    // its side below isn't as long as the side to compare
    if count as usize != below.len() {
        return false;
    }
    // the fork's own count fits its list, so this only shows that the split is in range
    if sides.len() < below.len() {
        return false;
    }
    are_same_items(below, sides.split_at(below.len()).0)
}

/// Whether `repeats_below` is true of the two trees that a list ends in.
fn above_repeats_below<T: Copy + Eq>(
    items: &[TreeItem<T>],
    start: usize,
    middle: usize,
    variable: u8,
    cut: u8,
) -> bool
    requires equal { (x y : T) → T.eq x y ≡ true → x ≡ y }
    requires order { start ≤ middle }
    requires long { middle ≤ length items.now }
    ensures { OnTrue result (RepeatsBelow (drop start (take middle items.now)) (drop middle items.now) variable cut) }
{
    let (front, above) = items.split_at(middle);
    repeats_below(front.split_at(start).1, above, variable, cut)
}

/// Takes `count` items out of a list, from the place `from` on.
fn take_out<T: Copy>(out: &mut Vec<TreeItem<T>>, from: usize, count: usize)
    requires { from + count ≤ length out.old.items }
    ensures { out.new.items ≡ take from out.old.items ++ drop (from + count) out.old.items }
{
    let left = out.len() - count;
    // the items behind those that are taken out move into their place
    for i in from..left {
        out[i] = out[i + count];
    }
    out.truncate(left);
}

/// Adds the item of a fork whose side below has `count` items.
#[inline(always)]
fn push_cut<T: Copy>(
    out: &mut Vec<TreeItem<T>>,
    variable: u8,
    cut: u8,
    count: usize,
) -> Result<(), OutOfMemory>
    ensures { IfOk result (λ _. out.new.items ≡ out.old.items ++ (Cut variable cut count ∷ [])) }
{
    // a side of more items than a `u32` counts is taken as out of memory
    let Ok(below) = u32::try_from(count) else {
        return Err(OutOfMemory);
    };
    let item = TreeItem::Cut {
        variable,
        cut,
        below,
    };
    put(out, item)
}

/// Makes a fork of the two trees that a list ends in, with its cut behind both lists. The one error is `OutOfMemory`.
#[inline(always)]
pub fn plain_fork<T: Copy>(
    out: &mut Vec<TreeItem<T>>,
    start: usize,
    middle: usize,
    variable: u8,
    cut: u8,
) -> Result<(), OutOfMemory>
    requires order { start ≤ middle }
    requires long { middle ≤ length out.old.items }
    ensures long { IfOk result (λ _. start ≤ length out.new.items) }
    ensures made { IfOk result (λ _. ForksEnd start middle variable cut out.old.items out.new.items) }
{
    push_cut(out, variable, cut, middle - start)
}

/// Whether the last items of two trees show that neither the trees are equal, nor the second is a fork on `variable` whose
/// side below is the first. No clause speaks of this: it only saves time.
fn are_apart<T: Copy + Eq>(below: TreeItem<T>, above: TreeItem<T>, variable: u8) -> bool {
    match above {
        // a value is equal to a value alone
        TreeItem::Value(high) => match below {
            TreeItem::Value(low) => low != high,
            TreeItem::Cut { .. } => true,
        },
        TreeItem::Cut {
            variable: next,
            cut,
            ..
        } => match below {
            // a fork isn't equal to a value, and must be on the variable to have it below
            TreeItem::Value(_) => next != variable,
            TreeItem::Cut {
                variable: own,
                cut: own_cut,
                ..
            } => next != variable && (own != next || own_cut != cut),
        },
    }
}

/// Whether `are_apart` is true of the last items of the two trees that a list ends in.
#[inline(always)]
fn sides_are_apart<T: Copy + Eq>(items: &[TreeItem<T>], middle: usize, variable: u8) -> bool {
    // a tree's list isn't empty, so this doesn't occur; it shows that the places are in range
    if middle == 0 || middle >= items.len() {
        return false;
    }
    are_apart(items[middle - 1], items[items.len() - 1], variable)
}

/// Makes a fork of the two trees that a list ends in. If both are equal, one of them stays instead. If the second is a fork
/// on `variable` at a greater cut, whose side below is equal to the first, the second alone stays. The one error is
/// `OutOfMemory`.
#[inline(always)]
pub fn fork<T: Copy + Eq>(
    out: &mut Vec<TreeItem<T>>,
    start: usize,
    middle: usize,
    variable: u8,
    cut: u8,
) -> Result<(), OutOfMemory>
    requires equal { (x y : T) → T.eq x y ≡ true → x ≡ y }
    requires order { start ≤ middle }
    requires long { middle ≤ length out.old.items }
    ensures long { IfOk result (λ _. start ≤ length out.new.items) }
    ensures made { IfOk result (λ _. ForksEnd start middle variable cut out.old.items out.new.items) }
{
    // the last items show that nothing can be left out, so the lists needn't be compared
    if sides_are_apart(out.as_slice(), middle, variable) {
        return plain_fork(out, start, middle, variable, cut);
    }
    fork_by_sides(out, start, middle, variable, cut)
}

/// Does what `fork` does, by comparing the whole of both lists.
#[inline(never)]
fn fork_by_sides<T: Copy + Eq>(
    out: &mut Vec<TreeItem<T>>,
    start: usize,
    middle: usize,
    variable: u8,
    cut: u8,
) -> Result<(), OutOfMemory>
    requires equal { (x y : T) → T.eq x y ≡ true → x ≡ y }
    requires order { start ≤ middle }
    requires long { middle ≤ length out.old.items }
    ensures long { IfOk result (λ _. start ≤ length out.new.items) }
    ensures made { IfOk result (λ _. ForksEnd start middle variable cut out.old.items out.new.items) }
{
    // both sides are equal, so one of them stays, without a fork
    if sides_are_same(out.as_slice(), start, middle) {
        out.truncate(middle);
        return Ok(());
    }
    // the fork above has the side below too, so that fork alone stays
    if above_repeats_below(out.as_slice(), start, middle, variable, cut) {
        take_out(out, start, middle - start);
        return Ok(());
    }
    plain_fork(out, start, middle, variable, cut)
}
