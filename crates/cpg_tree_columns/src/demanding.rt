//! How many columns a tree has, and their demands, without a list of the columns. A demand is a column's time with how
//! much it asks: the sum of the lows of its literals, as a byte.
ghost use Rattle.std.specs.Prelude.{◌≡◌, ◌++◌, [], ℕ, Option, IfOk, IfSome, IsPermutation, OnOk, filter, length, map, reverse};
ghost use Rattle.std.specs.Bool.{OnTrue};
ghost use Rattle.cpg_base.specs.Graph.{process_count};
ghost use Rattle.cpg_base.specs.Numbers.{numbers_below};
ghost use Rattle.cpg_cube.specs.Keys.{AreByLows};
ghost use Rattle.cpg_merging.specs.Demands.{demand_of};
ghost use Rattle.cpg_tree.specs.Flat.{flat};
ghost use Rattle.cpg_tree.specs.TreeNode.{TreeNode};
ghost use Rattle.cpg_tree_columns.specs.Along.{AreForksAlong};
ghost use Rattle.cpg_tree_columns.specs.Columns.{columns_of_paths};
ghost use Rattle.cpg_tree_columns.specs.Counted.{is_time};
ghost use Rattle.cpg_tree_columns.specs.Demanded.{demands_at, demands_by, first_side, sides_of};

use cpg_base::{Order, OutOfMemory, Problem};
use cpg_cube::{VARIABLES, places_along};
use cpg_merging::demand;
use cpg_tree::{OptionalTime, Tree, TreeItem};

/// Whether an item of a tree's list is a value that is a time.
fn is_time(item: &TreeItem<OptionalTime>) -> bool
    ensures { result ≡ is_time item.now }
{
    match item {
        TreeItem::Value(time) => time.get().is_some(),
        TreeItem::Cut { .. } => false,
    }
}

/// Returns how many items are values that are times.
fn time_count(items: &[TreeItem<OptionalTime>]) -> usize
    ensures { result ≡ length (filter is_time items.now) }
{
    items.iter().filter(|item| is_time(item)).count()
}

/// Returns how many columns the tree has: one for each leaf with a time.
pub(crate) fn column_count(tree: &Tree<OptionalTime>) -> usize
    ensures { result ≡ length (columns_of_paths tree.now.paths) }
{
    time_count(tree.items())
}

/// What the way down to a place of the tree says, if the forks stand along an order.
#[derive(Clone, Copy)]
struct ForkSide {
    /// How many places of the order are left at the variable of the last fork; it tells the variable.
    left: u16,
    /// The least number that the way leaves to that variable.
    low: u16,
    /// The sum of the lows that the way leaves to all variables, as a byte.
    asked: u8,
}

/// What the way to each side of a fork says.
#[derive(Clone, Copy)]
struct BothSides {
    /// The way to the numbers up to the cut.
    below: ForkSide,
    /// The way to the numbers behind the cut.
    above: ForkSide,
}

/// Returns what the ways to the sides of a fork say, given the way to the fork: `left` places of the order are left at
/// its variable, and the side above begins behind `cut`. `None` exactly if the fork doesn't stand along the order.
fn sides_of(side: ForkSide, left: u16, cut: u8) -> Option<BothSides>
    ensures { result ≡ sides_of side left cut }
{
    // the variable isn't one of the graph's
    if left == 0 {
        return None;
    }
    // the variable comes earlier in the order than that of the last fork
    if left > side.left {
        return None;
    }
    // another variable than the last one is new, since forks on one variable follow each other, so its low is 0 so far
    let low = if left == side.left { side.low } else { 0 };
    let next = low.max(u16::from(cut) + 1);
    // the sum of the lows counts modulo 256, so what is added is cut down to a byte
    let below = ForkSide {
        left,
        low,
        asked: side.asked,
    };
    let above = ForkSide {
        left,
        low: next,
        asked: side.asked.wrapping_add(((next - low) % 256) as u8),
    };
    Some(BothSides { below, above })
}

/// Adds the demand of a leaf if it has a time.
fn push_demand(time: OptionalTime, asked: u8, demands: &mut Vec<u64>) -> Result<(), OutOfMemory>
    ensures { OnOk result (demands.new.items ≡ demands.old.items ++ demands_at time asked) }
{
    if let Some(time) = time.get() {
        demands.push(demand(time, asked))?;
    }
    Ok(())
}

/// Adds the demands of the leaves from right to left and returns true if the forks stand along the order; `places` has
/// how many places are left at each variable. False says nothing of the forks, and `demands` may then have some of the
/// demands. A fork is behind its sides in the list, so items are read from last to first; what the way to the side
/// below says waits in `later`.
fn push_along(
    items: &[TreeItem<OptionalTime>],
    places: &[u16; VARIABLES],
    later: &mut Vec<ForkSide>,
    demands: &mut Vec<u64>,
) -> Result<bool, OutOfMemory>
    requires { later.old.items ≡ [] }
    ensures along { IfOk result (λ r. OnTrue r ((n : TreeNode (Option ℕ)) → items.now ≡ flat n → AreForksAlong places.now 256 n)) }
    ensures demands { IfOk result (λ r. OnTrue r ((n : TreeNode (Option ℕ)) → items.now ≡ flat n →
        demands.new.items ≡ demands.old.items ++ demands_by places.now first_side n)) }
{
    let mut unread = items;
    // no fork has come yet, so all places are left
    let mut side = ForkSide {
        left: 256,
        low: 0,
        asked: 0,
    };
    while let Some((last, others)) = unread.split_last() {
        unread = others;
        match *last {
            TreeItem::Value(time) => {
                push_demand(time, side.asked, demands)?;
                let Some(next) = later.pop() else {
                    // nothing waits, so this was the leftmost leaf
                    return Ok(true);
                };
                side = next;
            }
            TreeItem::Cut { variable, cut, .. } => {
                // this fork doesn't stand along the order
                let Some(sides) = sides_of(side, places[variable as usize], cut) else {
                    return Ok(false);
                };
                later.push(sides.below)?;
                side = sides.above;
            }
        }
    }
    Ok(false)
}

/// Returns the demands of the columns from right to left, if the columns are known to stand by their least scenarios
/// along the order. `None` guarantees nothing. The one error is `OutOfMemory`.
pub(crate) fn demands_along(
    tree: &Tree<OptionalTime>,
    problem: &Problem,
    order: &Order,
) -> Result<Option<Vec<u64>>, OutOfMemory>
    requires { IsPermutation (numbers_below (process_count problem.now)) order.now }
    ensures along { IfOk result (λ r. IfSome r (λ _. AreByLows (λ c. c.cube) problem.now order.now (columns_of_paths tree.now.paths))) }
    ensures demands { IfOk result (λ r. IfSome r (λ demands. demands.items ≡ reverse (map demand_of (columns_of_paths tree.now.paths)))) }
{
    let places = places_along(tree.alloc(), problem, order)?;
    let mut later = Vec::new(tree.alloc());
    let mut demands = Vec::new(tree.alloc());
    demands.reserve(tree.leaves() as usize)?;
    if push_along(tree.items(), &places, &mut later, &mut demands)? {
        return Ok(Some(demands));
    }
    Ok(None)
}
