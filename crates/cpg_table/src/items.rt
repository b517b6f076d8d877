//! Whether rows begin with those of the items that a node starts, sends or hears under a head. Items are numbered: first
//! the processes, then the edges (messages), then the conditions (broadcasts).
ghost use Rattle.std.specs.Prelude.{◌≡◌, ◌<◌, ◌≤◌, ◌+◌, ◌∷◌, [], ◌==◌, ◌&&◌, not, if◌then◌else◌, length, option_map, option_and_then, ℕ};
ghost use Rattle.cpg_head.specs.Head.{IsHead};
ghost use Rattle.cpg_table.specs.Items.{numbers_where, head_node_of, leaves, enters, first_message, first_broadcast, conditioned, starts_of, sends_of, hears_of, after_items};

use crate::Row;
use cpg_head::{Head, HeadProcess};

/// Returns the rows after that of an item, or all of them if its row isn't wanted, or `None` if it is wanted and
/// doesn't come first.
fn after_row(rows: &[Row], item: u32, wanted: bool) -> Option<&[Row]>
    ensures { option_map (λ r. r.now) result ≡ after_items (if wanted then item ∷ [] else []) rows.now }
{
    if !wanted {
        return Some(rows);
    }
    let Some((row, rest)) = rows.split_first() else {
        return None;
    };
    if row.item() == item { Some(rest) } else { None }
}

/// Returns the rows after those of the items that a node starts, or `None` if the rows don't begin with these.
pub fn after_starts<'a>(head: &Head, node: u32, rows: &'a [Row]) -> Option<&'a [Row]>
    ensures { option_map (λ r. r.now) result ≡ after_items (starts_of head.now node) rows.now }
{
    let mut rest = rows;
    let mut item: u32 = 0;
    for process in head.processes() {
        let Some(next) = after_row(rest, item, process.node == node) else {
            return None;
        };
        rest = next;
        item += 1;
    }
    Some(rest)
}

/// Returns whether an edge crosses between a node and another: from the node if `out`, to it if not.
pub fn is_crossing(head: &Head, node: u32, edge: (u32, u32), out: bool) -> bool
    requires from { edge.0 < length head.now.processes }
    requires to { edge.1 < length head.now.processes }
    ensures { result ≡ (if out then leaves head.now node edge else enters head.now node edge) }
{
    let from = head.processes()[edge.0 as usize].node;
    let to = head.processes()[edge.1 as usize].node;
    if out {
        from == node && to != node
    } else {
        from != node && to == node
    }
}

/// Returns the rows after those of the messages from a node to others if `out`, or to it from others if not; `None` exactly
/// if the rows don't begin with these.
fn after_messages<'a>(head: &Head, node: u32, out: bool, rows: &'a [Row]) -> Option<&'a [Row]>
    ensures { option_map (λ r. r.now) result ≡ after_items (numbers_where (λ e.
        if out then leaves head.now node e else enters head.now node e) (first_message head.now) head.now.edges) rows.now }
{
    let mut rest = rows;
    // the number of the first message: messages are numbered after the processes, of which a head has at most 128
    let mut item = head.processes().len() as u32;
    for edge in head.edges() {
        let Some(next) = after_row(rest, item, is_crossing(head, node, *edge, out)) else {
            return None;
        };
        rest = next;
        item += 1;
    }
    Some(rest)
}

/// Returns the item number of the first condition's broadcast.
pub fn first_broadcast(head: &Head) -> u32
    ensures { result ≡ first_broadcast head.now }
{
    // a head has at most 128 processes and 256 edges, so this fits a `u32`
    (head.processes().len() + head.edges().len()) as u32
}

/// Returns whether a process that is on the node `place` is on a given node if `own`, or on another if not.
fn is_chosen(place: u32, node: u32, own: bool) -> bool
    ensures { result ≡ (if own then place == node else not (place == node)) }
{
    if own { place == node } else { place != node }
}

/// Returns whether a process has a condition, and is on the node if `own`, or on another if not.
pub fn is_wanted(process: &HeadProcess, node: u32, own: bool) -> bool
    ensures { result ≡ (process.now.condition && (if own then process.now.node == node else not (process.now.node == node))) }
{
    process.condition && is_chosen(process.node, node, own)
}

/// Returns the number that the next condition gets after a process, which takes `number` if it has a condition.
pub fn next_number(number: u32, condition: bool) -> u32
    requires { number < 1000 }
    ensures { result ≡ (if condition then number + 1 else number) }
{
    if condition { number + 1 } else { number }
}

/// Returns the rows after those of the broadcasts of a node's own conditions if `own`, or of all other conditions if not;
/// `None` exactly if the rows don't begin with these.
fn after_broadcasts<'a>(head: &Head, node: u32, own: bool, rows: &'a [Row]) -> Option<&'a [Row]>
    ensures { option_map (λ r. r.now) result ≡ after_items (numbers_where (λ p.
        if own then p.node == node else not (p.node == node)) (first_broadcast head.now) (conditioned head.now)) rows.now }
{
    let mut rest = rows;
    let mut item = first_broadcast(head);
    for process in head.processes() {
        let Some(next) = after_row(rest, item, is_wanted(process, node, own)) else {
            return None;
        };
        rest = next;
        item = next_number(item, process.condition);
    }
    Some(rest)
}

/// Returns the rows after those of the items that a node sends, or `None` if the rows don't begin with these.
pub fn after_sends<'a>(head: &Head, node: u32, rows: &'a [Row]) -> Option<&'a [Row]>
    ensures { option_map (λ r. r.now) result ≡ after_items (sends_of head.now node) rows.now }
{
    let Some(rest) = after_messages(head, node, true, rows) else {
        return None;
    };
    // a node that is alone sends no broadcasts
    if head.nodes().len() > 1 {
        return after_broadcasts(head, node, true, rest);
    }
    Some(rest)
}

/// Returns the rows after those of the items that a node hears, or `None` if the rows don't begin with these.
pub fn after_hears<'a>(head: &Head, node: u32, rows: &'a [Row]) -> Option<&'a [Row]>
    ensures { option_map (λ r. r.now) result ≡ after_items (hears_of head.now node) rows.now }
{
    let Some(rest) = after_messages(head, node, false, rows) else {
        return None;
    };
    after_broadcasts(head, node, false, rest)
}
