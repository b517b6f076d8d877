//! The check of V10: a hear row has the sender's columns, each later by the sender's slot.
ghost use Rattle.std.specs.Prelude.{◌≡◌, ◌≤◌, ◌<◌, ◌↔◌, ◌==◌, ℕ, IfNone, IfOk, IfSome, IsSomeAnd, IsTrue, length, map, position};
ghost use Rattle.cpg_base.specs.declared.limits.TheConstants.{MOST_LOAD};
ghost use Rattle.cpg_base.specs.Bus.{slot_length};
ghost use Rattle.cpg_base.specs.Graph.{home, item_count, producer};
ghost use Rattle.cpg_base.specs.WellFormed.{WellFormed};
ghost use Rattle.cpg_table.specs.Table.{table_at};
ghost use Rattle.cpg_table.specs.Valid.{later_by};
ghost use Rattle.cpg_table.specs.Found.{row_columns};
ghost use Rattle.cpg_violation.specs.Heads.{IsHeadFor};
ghost use Rattle.cpg_check_rows.specs.Hears.{DifferFirstAt, HearsAt, HearsHold, IsFirstHear, IsFirstHearFault};

use cpg_base::{OutOfMemory, Scenario};
use cpg_cube::{Column, Literal};
use cpg_rules::Admitted;
use cpg_table::{Fault, Rule, Tables, row_columns};
use std::alloc::Global;

/// Whether two literals are the same.
fn is_same(literal: &Literal, other: &Literal) -> bool
    ensures { IsTrue result ↔ (literal.now ≡ other.now) }
{
    literal.variable == other.variable && literal.low == other.low && literal.high == other.high
}

/// Whether two lists of literals are the same, place by place.
fn are_same(literals: &[Literal], others: &[Literal]) -> bool
    ensures { IsTrue result ↔ (literals.now ≡ others.now) }
{
    if literals.len() != others.len() {
        return false;
    }
    for place in 0..literals.len() {
        if !is_same(&literals[place], &others[place]) {
            return false;
        }
    }
    true
}

/// Whether a column that is heard is the one that is sent, later by a delay: it has the same literals.
fn is_later(heard: &Column, sent: &Column, delay: u64) -> bool
    ensures { IsTrue result ↔ (heard.now ≡ later_by delay sent.now) }
{
    // no sent column is heard so early, and there is no difference to take
    if heard.time < delay {
        return false;
    }
    if heard.time - delay != sent.time {
        return false;
    }
    are_same(heard.cube.literals(), sent.cube.literals())
}

/// The first place at which the columns that are heard aren't the sender's, each later by the delay: if one list begins
/// with the other, the length of the shorter one. `None` exactly if there is none.
fn first_difference(heard: &[Column], sent: &[Column], delay: u64) -> Option<u32>
    requires { length sent.now ≤ MOST_LOAD }
    ensures same { IfNone result (heard.now ≡ map (later_by delay) sent.now) }
    ensures differ { IfSome result (DifferFirstAt heard.now (map (later_by delay) sent.now)) }
{
    let common = heard.len().min(sent.len());
    for place in 0..common {
        if !is_later(&heard[place], &sent[place], delay) {
            // `MOST_LOAD` is far below 2^32
            return Some(place as u32);
        }
    }
    if heard.len() == sent.len() {
        return None;
    }
    // one list goes on behind the other; the shorter has at most `MOST_LOAD` columns, far below 2^32
    Some(common as u32)
}

/// The first place at which an item's hear row at a node doesn't have the sender's column, later by the delay. `None`
/// exactly if there is none, or the node has no such row. `sent` are the sender's columns.
fn difference_at(tables: &Tables, node: u32, item: u32, sent: &[Column], delay: u64) -> Option<u32>
    requires node { node < length tables.now.head.nodes }
    requires few { length sent.now ≤ MOST_LOAD }
    ensures same { IfNone result (HearsAt tables.now.nodes item (map (later_by delay) sent.now) node) }
    ensures differ { IfSome result (λ place. IsSomeAnd (row_columns (table_at tables.now.nodes node).hears item)
        (λ cs. DifferFirstAt cs (map (later_by delay) sent.now) place)) }
{
    let table = tables.node(node);
    // the node doesn't hear the item
    let Some(heard) = row_columns(table.hears(), item) else {
        return None;
    };
    first_difference(heard, sent, delay)
}

/// The first place at which the hear row of an item doesn't have the sender's column, later by the delay, at the least
/// node whose row has such a place. `None` exactly if no node's row has one. `nodes` is how many nodes there are, and
/// `sent` are the sender's columns.
fn first_hear(tables: &Tables, nodes: u32, item: u32, sent: &[Column], delay: u64) -> Option<u32>
    requires nodes { nodes ≡ length tables.now.head.nodes }
    requires few { length sent.now ≤ MOST_LOAD }
    ensures same { IfNone result ((node : ℕ) → node < length tables.now.head.nodes → HearsAt tables.now.nodes item (map (later_by delay) sent.now) node) }
    ensures differ { IfSome result (IsFirstHear tables.now.nodes (length tables.now.head.nodes) item (map (later_by delay) sent.now)) }
{
    for node in 0..nodes {
        if let Some(place) = difference_at(tables, node, item, sent, delay) {
            return Some(place);
        }
    }
    None
}

/// The first violation of V10: the least item that some node hears by other columns than the sender's, each later by
/// the sender's slot, with the first column that differs at the least such node, and the scenario without faults in
/// which every value is false. `None` exactly if the rule holds. The one error is `OutOfMemory`.
pub fn check_hears(
    alloc: Global,
    admitted: &Admitted,
    tables: &Tables,
) -> Result<Option<Fault>, OutOfMemory>
    requires { IsHeadFor admitted.now.graph tables.now.head }
    ensures none { IfOk result (λ r. IfNone r (HearsHold admitted.now.graph tables.now.nodes)) }
    ensures first { IfOk result (λ r. IfSome r (IsFirstHearFault admitted.now.graph tables.now.nodes)) }
{
    let problem = admitted.problem();
    // there are at most 16 nodes, so the cast keeps their number
    let nodes = tables.head().nodes().len() as u32;
    for item in 0..problem.item_count() {
        let sent = tables.columns_of(item);
        let delay = problem.slot_length(problem.home(item));
        if let Some(place) = first_hear(tables, nodes, item, sent, delay) {
            let scenario = Scenario::zero(alloc, problem)?;
            return Ok(Some(Fault {
                rule: Rule::Hears.number(),
                item,
                column: Some(place),
                scenario,
            }));
        }
    }
    Ok(None)
}
