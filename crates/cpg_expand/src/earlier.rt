//! The processes that stand before another one on its node, and what their guards test.
ghost use Rattle.std.specs.Prelude.{◌+◌, ◌≡◌, ◌==◌, ◌&&◌, ◌<◌, ◌≤◌, IfOk, length, nat_le, nat_lt};
ghost use Rattle.cpg_base.specs.Graph.{condition_count, node_of, process_count};
ghost use Rattle.cpg_base.specs.Order.{place};
ghost use Rattle.cpg_tree.specs.GraphTrees.{IsTree};
ghost use Rattle.cpg_expand.specs.Earlier.{AreAlong, IsAskedTree, IsCut, is_always};

use crate::guarded::tested_on;
use cpg_base::{Order, OutOfMemory, Problem};
use cpg_rules::{GuardTop, GuardTree, GuardTrees};
use cpg_tree::Tree;
use std::alloc::Global;

/// The processes of a node from the place `from` of an order on, with the guards of the graph.
#[derive(Clone, Copy)]
pub struct NodeSpan<'a> {
    /// The graph.
    pub(crate) problem: &'a Problem,
    /// The guard of each process of the graph.
    pub(crate) guards: &'a GuardTrees,
    /// The order of the processes.
    pub(crate) order: &'a Order,
    /// The node whose processes are in the span.
    pub(crate) node: u32,
    /// The first place of the order that the span covers.
    pub(crate) from: u32,
}

/// Whether process `other` is on the node of the span, and stands at the place `from` of the order or later and before
/// `to`. The span's own `from` doesn't count here.
pub(crate) fn stands_between(span: &NodeSpan<'_>, from: u32, to: u32, other: u32) -> bool
    requires other { other < process_count span.now.problem.now }
    requires order { length span.now.order.now ≡ process_count span.now.problem.now }
    ensures { result ≡ (node_of span.now.problem.now other == span.now.node && (nat_le from (place span.now.order.now other) && nat_lt
        (place span.now.order.now other) to)) }
{
    let at = span.order.place(other);
    span.problem.node_of(other) == span.node && (from <= at && at < to)
}

/// Whether every leaf of a guard is active, so that its process is active in every outcome.
fn is_always(guard: &GuardTree) -> bool
    ensures { result ≡ is_always guard.now }
{
    match guard.top() {
        GuardTop::Leaf(activation) => activation.is_active(),
        GuardTop::Test {
            condition: _,
            no,
            yes,
        } => is_always(no) && is_always(yes),
    }
}

/// Returns the place of process `other` if it is always active, is on the span's node, and stands at `from` or later
/// and before `to`; otherwise `from`. What stands before such a process on the node has ended once it has.
fn later_cut(span: &NodeSpan<'_>, from: u32, to: u32, other: u32) -> u32
    requires along { AreAlong span.now.problem.now span.now.guards.now span.now.order.now }
    requires other { other < process_count span.now.problem.now }
    ensures { IsCut span.now.problem.now span.now.order.now span.now.guards.now span.now.node from to →
        IsCut span.now.problem.now span.now.order.now span.now.guards.now span.now.node result to }
{
    if !stands_between(span, from, to, other) {
        return from;
    }
    if !is_always(span.guards.guard_of(other)) {
        return from;
    }
    span.order.place(other)
}

/// Returns a place such that of the node's processes before `to` only those from there on have to be looked at: what
/// stands before it has ended by the end of an always active process from there on. It is 0 if there is no such
/// process.
fn cut(span: &NodeSpan<'_>, to: u32) -> u32
    requires along { AreAlong span.now.problem.now span.now.guards.now span.now.order.now }
    ensures { IsCut span.now.problem.now span.now.order.now span.now.guards.now span.now.node result to }
{
    let mut from = 0;
    for other in 0..span.problem.processes().len() as u32 {
        from = later_cut(span, from, to, other);
    }
    from
}

/// Returns a span of the node that has all its processes before the place `to` that have to be looked at: its `from` is
/// as in `cut`.
pub fn span_before<'a>(
    problem: &'a Problem,
    guards: &'a GuardTrees,
    order: &'a Order,
    node: u32,
    to: u32,
) -> NodeSpan<'a>
    requires along { AreAlong problem.now guards.now order.now }
    ensures problem { result.problem.now ≡ problem.now }
    ensures guards { result.guards.now ≡ guards.now }
    ensures order { result.order.now ≡ order.now }
    ensures node { result.node ≡ node }
    ensures cut { IsCut problem.now order.now guards.now node result.from to }
{
    // the whole node, to look for the cut in
    let span = NodeSpan {
        problem,
        guards,
        order,
        node,
        from: 0,
    };
    NodeSpan {
        problem,
        guards,
        order,
        node,
        from: cut(&span, to),
    }
}

/// Returns a tree that is true where `asked` is, or where the guard of process `other` tests the condition on the
/// scenario's way. If `other` isn't in the span or not before `to`, `asked` itself is returned.
fn or_asked(
    alloc: Global,
    span: &NodeSpan<'_>,
    to: u32,
    condition: u32,
    other: u32,
    asked: Tree<bool>,
) -> Result<Tree<bool>, OutOfMemory>
    requires along { AreAlong span.now.problem.now span.now.guards.now span.now.order.now }
    requires other { other < process_count span.now.problem.now }
    requires tree { IsTree span.now.problem.now asked }
    requires asked { IsAskedTree span.now.problem.now span.now.order.now span.now.guards.now span.now.node span.now.from to condition other asked }
    ensures tree { IfOk result (IsTree span.now.problem.now) }
    ensures asked { IfOk result (IsAskedTree span.now.problem.now span.now.order.now span.now.guards.now span.now.node span.now.from to condition (other + 1)) }
{
    if !stands_between(span, span.from, to, other) {
        return Ok(asked);
    }
    let problem = span.problem;
    let tested = tested_on(alloc, problem, span.guards.guard_of(other), condition)?;
    let always = Tree::constant(alloc, true, problem.faults())?;
    let either = Tree::pick(&tested, &always, &asked)?;
    Ok(either)
}

/// Returns a tree that is true where the guard of some process in the span and before `to` tests the condition on the
/// scenario's way, and false elsewhere.
pub(crate) fn asked(
    alloc: Global,
    span: &NodeSpan<'_>,
    to: u32,
    condition: u32,
) -> Result<Tree<bool>, OutOfMemory>
    requires along { AreAlong span.now.problem.now span.now.guards.now span.now.order.now }
    ensures tree { IfOk result (IsTree span.now.problem.now) }
    ensures asked { IfOk result
        (IsAskedTree span.now.problem.now span.now.order.now span.now.guards.now span.now.node span.now.from to condition
        (process_count span.now.problem.now)) }
{
    let mut asked = Tree::constant(alloc, false, span.problem.faults())?;
    for other in 0..span.problem.processes().len() as u32 {
        // it is asked for everywhere, and no further process changes that
        if asked.is_true() {
            return Ok(asked);
        }
        asked = or_asked(alloc, span, to, condition, other, asked)?;
    }
    Ok(asked)
}
