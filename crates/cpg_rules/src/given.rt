//! The order that a graph gives.
ghost use Rattle.std.specs.Prelude.{◌≡◌, ◌<◌, ℕ, List, IfOk, IfErr, IfSome, IfNone, false, length};
ghost use Rattle.cpg_base.specs.Graph.{process_count};
ghost use Rattle.cpg_base.specs.Limits.{IsWithinLimits};
ghost use Rattle.cpg_base.specs.Order.{IsOrder};
ghost use Rattle.cpg_order.specs.Reach.{is_in};
ghost use Rattle.cpg_order.specs.Urgency.{IsTopological};
ghost use Rattle.cpg_rules.specs.Given.{LacksNone, IsLacking, is_early, IsFirstEarly, GivesTopological, ShowsGivenFault};

use cpg_base::{Order, OutOfMemory, Problem};
use std::alloc::Global;

/// Why `given_order` returns no order although the graph may give one.
#[derive(Clone, Copy, Debug, PartialEq, Eq)]
pub enum GivenFault {
    /// The order that the graph gives lacks this process, or has it before the source of one of its inputs.
    Bad(u32),
    /// Out of memory.
    OutOfMemory,
}

impl From<OutOfMemory> for GivenFault {
    ghost use Rattle.std.specs.Prelude.{◌≡◌};
    ghost use Rattle.cpg_rules.specs.declared.given.GivenFault.{GivenFault};

    ghost from_gives = { λ _ fault. fault ≡ GivenFault.OutOfMemory };

    fn from(_: OutOfMemory) -> Self {
        GivenFault::OutOfMemory
    }
}

/// Whether a process is in a list.
fn is_in(list: &[u32], process: u32) -> bool
    ensures { result ≡ is_in list.now process }
{
    list.iter().any(|other| *other == process)
}

/// Returns the least process of the graph that a list lacks, and `None` exactly if it lacks none.
fn lacking(problem: &Problem, list: &[u32]) -> Option<u32>
    ensures none { IfNone result (LacksNone problem.now list.now) }
    ensures within { IsWithinLimits problem.now }
    ensures some { IfSome result (IsLacking problem.now list.now) }
{
    // a graph has at most 128 processes, so their numbers fit a `u32`
    for process in 0..problem.processes().len() as u32 {
        // processes are met by number, so this is the least
        if !is_in(list, process) {
            return Some(process);
        }
    }
    None
}

/// Whether a process stands before the source of one of its inputs.
fn is_early(problem: &Problem, order: &Order, process: u32) -> bool
    requires order { length order.now ≡ process_count problem.now }
    requires process { process < process_count problem.now }
    ensures { result ≡ is_early problem.now order.now process }
{
    let place = order.place(process);
    for edge in problem.edges() {
        if edge.to == process {
            // the source comes later than the process
            if place < order.place(edge.from) {
                return true;
            }
        }
    }
    false
}

/// Returns the first process in an order that stands before the source of one of its inputs, and `None` exactly if none
/// does.
fn first_early(problem: &Problem, order: &Order) -> Option<u32>
    requires { length order.now ≡ process_count problem.now }
    ensures none { IfNone result ((p : ℕ) → p < process_count problem.now → is_early problem.now order.now p ≡ false) }
    ensures some { IfSome result (IsFirstEarly problem.now order.now) }
{
    for process in order.processes() {
        // processes are met along the order, so this is the first
        if is_early(problem, order, *process) {
            return Some(*process);
        }
    }
    None
}

/// Returns the order of a list that has each number below its length once.
fn order_of(alloc: Global, list: &[u32]) -> Result<Order, OutOfMemory>
    requires { IsOrder list.now }
    ensures { IfOk result (λ order. order ≡ list.now) }
{
    let order = Order::new(Vec::from_slice(alloc, list)?)?;
    Ok(order)
}

/// Returns the order that a graph without a cycle gives, and `None` if it gives none. The order has all processes, each
/// after the sources of its inputs.
///
/// `Bad` comes only if the given order isn't topological, and `Ok` only if it is. `Bad` names the least process that the
/// order lacks or, if it lacks none, the first in it that stands before the source of one of its inputs.
pub fn given_order(alloc: Global, problem: &Problem) -> Result<Option<Order>, GivenFault>
    requires { (order : List ℕ) × IsTopological problem.now order }
    ensures given { IfOk result (λ given. given ≡ problem.now.order) }
    ensures topological { IfOk result (λ _. GivesTopological problem.now) }
    ensures fault { IfErr result (ShowsGivenFault problem.now) }
{
    let Some(list) = problem.given_order() else {
        return Ok(None);
    };
    // an order has to have every process
    if let Some(process) = lacking(problem, list) {
        return Err(GivenFault::Bad(process));
    }
    // the list is known to have numbers of processes only, none twice, and it lacks none: so it is an order
    let order = order_of(alloc, list)?;
    // an order has to have each process after the sources of its inputs
    if let Some(process) = first_early(problem, &order) {
        return Err(GivenFault::Bad(process));
    }
    Ok(Some(order))
}
