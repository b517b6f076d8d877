//! Walks down a tree of places that gather the places that scenarios of a space come to.
ghost use Rattle.std.specs.Prelude.{◌≡◌, ℕ, Option, Contains, IfOk};
ghost use Rattle.std.specs.Bool.{OnTrue};
ghost use Rattle.cpg_base.specs.Scenario.{Scenario};
ghost use Rattle.cpg_tree.specs.Space.{IsInSpace};
ghost use Rattle.cpg_tree.specs.Decision.{value_at};
ghost use Rattle.cpg_tree.specs.Flat.{IsFlat, flat};
ghost use Rattle.cpg_tree.specs.TreeNode.{TreeNode};
ghost use Rattle.cpg_row_trees.specs.Places.{IsAmong};

use crate::walk::Test;
use cpg_base::OutOfMemory;
use cpg_tree::{Space, Top, TreeItem, part_in, top_of};

/// Adds a place to `found`, if there is one, and returns whether there is.
fn add_place(place: Option<u32>, found: &mut Vec<u32>) -> Result<bool, OutOfMemory>
    ensures kept { IfOk result (λ _. (i : ℕ) → Contains found.old.items i → Contains found.new.items i) }
    ensures found { IfOk result (λ there. OnTrue there (IsAmong found.new.items place)) }
{
    // no cube matches there, so there is no place to add
    let Some(one) = place else {
        return Ok(false);
    };
    found.push(one)?;
    Ok(true)
}

/// Adds to `found` the places that scenarios of a space come to. It stops with false at the first leaf without a place
/// or at which a test fails. The space is narrowed on the way, and is as before on true.
fn gather_each<J: Test>(
    items: &[TreeItem<Option<u32>>],
    space: &mut Space,
    test: &J,
    found: &mut Vec<u32>,
) -> Result<bool, OutOfMemory>
    requires { IsFlat items.now }
    ensures kept { IfOk result (λ _. (i : ℕ) → Contains found.old.items i → Contains found.new.items i) }
    // if all passed: in each scenario of the space the guarantee holds at the place, which has been found
    ensures found { IfOk result (λ all. OnTrue all ((n : TreeNode (Option ℕ)) → items.now ≡ flat n → (s : Scenario) → IsInSpace space.old s →
        J.guarantees test.now (value_at n s) s × IsAmong found.new.items (value_at n s))) }
    ensures same { IfOk result (λ all. OnTrue all (space.new ≡ space.old)) }
{
    match top_of(items) {
        Top::Value(place) => {
            // a leaf: all scenarios of the space come to this place
            if !test.passes(place, space) {
                return Ok(false);
            }
            let there = add_place(place, found)?;
            Ok(there)
        }
        Top::Cut {
            variable,
            cut,
            below,
            above,
        } => {
            // no scenario of the space goes to the lower side
            if !space.is_open_below(variable, cut) {
                let all = gather_each(above, space, test, found)?;
                return Ok(all);
            }
            // no scenario of the space goes to the upper side
            if !space.is_open_above(variable, cut) {
                let all = gather_each(below, space, test, found)?;
                return Ok(all);
            }
            // both sides are open: the space is narrowed to each of them in turn, and reopened after it
            let old_high = space.close_above(variable, cut);
            let all_below = gather_each(below, space, test, found)?;
            if !all_below {
                return Ok(false);
            }
            space.reopen_above(variable, old_high);
            let old_low = space.close_below(variable, cut);
            let all_above = gather_each(above, space, test, found)?;
            if !all_above {
                return Ok(false);
            }
            space.reopen_below(variable, old_low);
            Ok(true)
        }
    }
}

/// Does what `gather_each` does, with a space of its own to change. It is a function of its own, since that space is copied
/// at each call.
fn gather_in_all<J: Test>(
    items: &[TreeItem<Option<u32>>],
    space: &Space,
    test: &J,
    found: &mut Vec<u32>,
) -> Result<bool, OutOfMemory>
    requires { IsFlat items.now }
    ensures kept { IfOk result (λ _. (i : ℕ) → Contains found.old.items i → Contains found.new.items i) }
    // if all passed: in each scenario of the space the guarantee holds at the place, which has been found
    ensures found { IfOk result (λ all. OnTrue all ((n : TreeNode (Option ℕ)) → items.now ≡ flat n → (s : Scenario) → IsInSpace space.now s →
        J.guarantees test.now (value_at n s) s × IsAmong found.new.items (value_at n s))) }
{
    let mut own = *space;
    let all = gather_each(items, &mut own, test, found)?;
    Ok(all)
}

/// Adds to `found` the place that scenarios of a space come to, if there is one and a test passes there, and returns
/// whether it did.
fn gather_one<J: Test>(
    place: Option<u32>,
    space: &Space,
    test: &J,
    found: &mut Vec<u32>,
) -> Result<bool, OutOfMemory>
    ensures kept { IfOk result (λ _. (i : ℕ) → Contains found.old.items i → Contains found.new.items i) }
    // if all passed: in each scenario of the space the guarantee holds at the place, which has been found
    ensures found { IfOk result (λ all. OnTrue all ((s : Scenario) → IsInSpace space.now s → J.guarantees test.now place s × IsAmong found.new.items place)) }
{
    if !test.passes(place, space) {
        return Ok(false);
    }
    let there = add_place(place, found)?;
    Ok(there)
}

/// Adds to `found` the places that scenarios of a space come to. It stops with false at the first leaf without a place
/// or at which a test fails. The space isn't copied if all scenarios come to one leaf.
pub(crate) fn gather<J: Test>(
    items: &[TreeItem<Option<u32>>],
    space: &Space,
    test: &J,
    found: &mut Vec<u32>,
) -> Result<bool, OutOfMemory>
    requires { IsFlat items.now }
    ensures kept { IfOk result (λ _. (i : ℕ) → Contains found.old.items i → Contains found.new.items i) }
    // if all passed: in each scenario of the space the guarantee holds at the place, which has been found
    ensures found { IfOk result (λ all. OnTrue all ((n : TreeNode (Option ℕ)) → items.now ≡ flat n → (s : Scenario) → IsInSpace space.now s →
        J.guarantees test.now (value_at n s) s × IsAmong found.new.items (value_at n s))) }
{
    // mostly all scenarios come to one leaf, and then the space isn't copied
    let part = part_in(items, space);
    match top_of(part) {
        Top::Value(place) => {
            let there = gather_one(place, space, test, found)?;
            Ok(there)
        }
        Top::Cut { .. } => {
            let all = gather_in_all(part, space, test, found)?;
            Ok(all)
        }
    }
}
