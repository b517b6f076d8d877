//! The views of items, and items that are too wide by them.
ghost use Rattle.std.specs.Prelude.{◌≡◌, ◌<◌, ◌≤◌, IfOk, IfSome, IfNone, true};
ghost use Rattle.cpg_base.specs.Graph.{item_count, item_at, process_count};
ghost use Rattle.cpg_order.specs.Urgency.{IsTopological};
ghost use Rattle.cpg_order.specs.Reach.{rows_of_item};
ghost use Rattle.cpg_reach.specs.Counter.{IsCounterFor};
ghost use Rattle.cpg_reach.specs.Wide.{HasViews, HasLoads, is_wide_by, IsLeastWide, IsNarrow};

use crate::counting::Counter;
use crate::reaches::reaches;
use crate::variables::Variables;
use cpg_base::{Item, MOST_COLUMNS, MOST_LOAD, Order, OutOfMemory, Problem};
use cpg_rules::Admitted;
use std::alloc::Global;

/// Returns in how many rows an item stands: a start in one, an item that is sent in one at its sender and in one at
/// each receiver, and an item that is never sent in none.
pub fn rows_of_item(problem: &Problem, item: u32) -> u64
    requires { item < item_count problem.now }
    ensures rows { result ≡ rows_of_item problem.now (item_at problem.now item) }
    ensures few { result ≤ 16 }
{
    match problem.item(item) {
        Item::Start(_) => 1,
        Item::Message(edge) => { if problem.is_message(edge) { 2 } else { 0 } }
        Item::Broadcast(_) => {
            let nodes = problem.nodes().len() as u64;
            if nodes > 1 { nodes } else { 0 }
        }
    }
}

/// Returns the load of all items so far, of which `loads` is that of those before this one. `None` exactly if this
/// item has too many views, or the load becomes too great.
fn loads_with(
    admitted: &Admitted,
    order: &Order,
    counter: &mut Counter,
    reached: &Variables,
    item: u32,
    loads: u64,
) -> Option<u64>
    requires order { IsTopological admitted.now.graph order.now }
    requires counter { IsCounterFor admitted.now.graph order.now counter.old }
    requires item { item < item_count admitted.now.graph }
    requires loads { loads ≤ MOST_LOAD }
    ensures some { IfSome result (HasLoads admitted.now.graph reached.now item loads) }
    ensures none { IfNone result (is_wide_by admitted.now.graph reached.now item loads ≡ true) }
    ensures counter { IsCounterFor admitted.now.graph order.now counter.new }
{
    let rows = rows_of_item(admitted.problem(), item);
    // the item is never sent, so it needs no columns
    if rows == 0 {
        return Some(loads);
    }
    // more views than one too many needn't be counted
    let views = counter.views(admitted, order, reached, MOST_COLUMNS + 1);
    // a row with a column for each view would have too many
    if views > MOST_COLUMNS {
        return None;
    }
    let sum = loads + views * rows;
    if sum > MOST_LOAD { None } else { Some(sum) }
}

/// Returns how many views an item has under an order: the scenarios in which each value that the item's time doesn't
/// depend on, and each value of an inactive process, is false, and each such fault count is 0. The one error is
/// `OutOfMemory`.
pub fn views(
    alloc: Global,
    admitted: &Admitted,
    order: &Order,
    item: u32,
) -> Result<u64, OutOfMemory>
    requires order { IsTopological admitted.now.graph order.now }
    requires item { item < item_count admitted.now.graph }
    ensures { IfOk result (HasViews admitted.now.graph order.now item) }
{
    let problem = admitted.problem();
    let reaches = reaches(alloc, admitted, order)?;
    let mut counter = Counter::of(alloc, problem, order)?;
    let views = counter.views(admitted, order, &reaches[item as usize], u64::MAX);
    Ok(views)
}

/// Returns the least item that is too wide under an order; `None` exactly if there is none. It has more than 16,384
/// views, or the items up to it have a load of more than 524,288 together; an item's load is its views, once for each
/// of its rows. The one error is `OutOfMemory`.
pub fn too_wide(
    alloc: Global,
    admitted: &Admitted,
    order: &Order,
) -> Result<Option<u32>, OutOfMemory>
    requires { IsTopological admitted.now.graph order.now }
    ensures some { IfOk result (λ found. IfSome found (IsLeastWide admitted.now.graph order.now)) }
    ensures none { IfOk result (λ found. IfNone found (IsNarrow admitted.now.graph order.now)) }
{
    let problem = admitted.problem();
    let reaches = reaches(alloc, admitted, order)?;
    let mut counter = Counter::of(alloc, problem, order)?;
    let mut loads = 0;
    for item in 0..reaches.len() as u32 {
        let reached = &reaches[item as usize];
        match loads_with(admitted, order, &mut counter, reached, item, loads) {
            Some(sum) => loads = sum,
            None => return Ok(Some(item)),
        }
    }
    Ok(None)
}
