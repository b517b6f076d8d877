//! Topological orders from lists of process numbers.
ghost use Rattle.std.specs.Prelude.{◌≡◌, ◌≤◌, ◌↔◌, IfOk, IfSome, IfNone, IsTrue, length, IsPermutation, Contains, ℕ};
ghost use Rattle.cpg_base.specs.Numbers.{numbers_below};
ghost use Rattle.cpg_base.specs.Graph.{process_count, edge_count, source, target};
ghost use Rattle.cpg_order.specs.Urgency.{IsTopological};
ghost use Rattle.cpg_base.specs.Order.{comes_before};

use cpg_base::{Order, OutOfMemory, Problem};
use std::alloc::Global;

/// Returns whether a list has each number below its length exactly once.
fn has_each(alloc: Global, list: &[u32]) -> Result<bool, OutOfMemory>
    ensures { IfOk result (λ has. IsTrue has ↔ IsPermutation (numbers_below (length list.now)) list.now) }
{
    let mut seen = vec![in alloc; false; list.len()]?;
    for number in list {
        let place = *number as usize;
        // no number below the length
        if place >= list.len() {
            return Ok(false);
        }
        // a number that was there before
        if seen[place] {
            return Ok(false);
        }
        seen[place] = true;
    }
    // as many different numbers below the length as there are
    Ok(true)
}

/// Whether each edge leads from an earlier place in the order to a later one.
fn is_forward(problem: &Problem, order: &Order) -> bool
    requires { length order.now ≡ process_count problem.now }
    ensures { IsTrue result ↔ ((e : ℕ) → Contains (numbers_below (edge_count problem.now)) e →
        IsTrue (comes_before order.now (source problem.now e) (target problem.now e))) }
{
    for edge in problem.edges() {
        // this edge doesn't lead forward
        if order.place(edge.from) >= order.place(edge.to) {
            return false;
        }
    }
    true
}

/// Returns a copy of a list.
fn copied(alloc: Global, list: &[u32]) -> Result<Vec<u32>, OutOfMemory>
    ensures { IfOk result (λ copy. copy.items ≡ list.now) }
{
    let mut copy = Vec::new(alloc);
    copy.extend_from_slice(list)?;
    Ok(copy)
}

/// Returns the order of a list of process numbers, and `None` exactly if the list isn't a topological order of all
/// processes.
pub fn ordered(alloc: Global, problem: &Problem, list: &[u32]) -> Result<Option<Order>, OutOfMemory>
    ensures order { IfOk result (λ found. IfSome found (λ order. order ≡ list.now)) }
    ensures topological { IfOk result (λ found. IfSome found (IsTopological problem.now)) }
    // a list without an order isn't topological
    ensures refused { IfOk result (λ found. IfNone found (IsTopological problem.now list.now → ⊥)) }
{
    // too few or too many numbers
    if list.len() != problem.processes().len() {
        return Ok(None);
    }
    // a number twice, or one that is no process
    if !has_each(alloc, list)? {
        return Ok(None);
    }
    let order = Order::new(copied(alloc, list)?)?;
    // an edge that doesn't lead forward
    if !is_forward(problem, &order) {
        return Ok(None);
    }
    Ok(Some(order))
}
