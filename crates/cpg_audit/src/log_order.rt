//! The order in which an audit goes over the items.
ghost use Rattle.std.specs.Prelude.{IfOk, IsPermutation, map};
ghost use Rattle.cpg_base.specs.Graph.{item_count};
ghost use Rattle.cpg_base.specs.Numbers.{numbers_below};

use cpg_base::{OutOfMemory, Problem};
use cpg_log::Log;
use std::alloc::Global;

/// An item, with when a log names it.
#[derive(Drop)]
pub struct TimedItem {
    /// The time at which the log names the item; the greatest of 64 bits if it doesn't.
    time: u64,
    /// The number of the item.
    pub item: u32,
}

/// All items, those that a log names first, by time, and then the others. A column's literals are about what was before
/// it, which the items before it have shown by then. The one error is `OutOfMemory`.
pub fn in_log_order(
    alloc: Global,
    problem: &Problem,
    log: &Log,
) -> Result<Vec<TimedItem>, OutOfMemory>
    ensures { IfOk result (λ ordered. IsPermutation (numbers_below (item_count problem.now)) (map (λ t. t.item) ordered.items)) }
{
    let mut ordered = Vec::new(alloc);
    for item in 0..problem.item_count() {
        // what isn't named comes last
        let time = log.time_of(item).unwrap_or(u64::MAX);
        ordered.push(TimedItem { time, item })?;
    }
    ordered.sort_by_key(|timed| timed.time)?;
    Ok(ordered)
}
