//! How the rows of a node divide into those of what it starts, sends and hears.
ghost use Rattle.std.specs.Prelude.{◌≡◌, ◌≢◌, ◌↔◌, ◌++◌, IsTrue, IfSome, IfNone, length};
ghost use Rattle.cpg_table.specs.Shape.{items_of};
ghost use Rattle.cpg_table.specs.Items.{starts_of, sends_of, hears_of};

use crate::Row;
use crate::items::{after_hears, after_sends, after_starts};
use cpg_head::Head;

/// How many rows a node has of what it starts and sends. The others are of what it hears.
#[derive(Clone, Copy, Debug)]
pub struct RowCounts {
    /// How many are of what it starts.
    pub starts: usize,
    /// How many are of what it sends.
    pub sends: usize,
}

/// Returns how many of a node's rows are of what it starts and sends, or `None` if the rows aren't those of its items
/// in their order: starts, sends, hears.
pub fn counts_of(head: &Head, node: u32, rows: &[Row]) -> Option<RowCounts>
    ensures items { IfSome result (λ _. items_of rows.now ≡ starts_of head.now node ++ (sends_of head.now node ++ hears_of head.now node)) }
    ensures starts { IfSome result (λ c. c.starts ≡ length (starts_of head.now node)) }
    ensures sends { IfSome result (λ c. c.sends ≡ length (sends_of head.now node)) }
    ensures other { IfNone result (items_of rows.now ≢ starts_of head.now node ++ (sends_of head.now node ++ hears_of head.now node)) }
{
    let Some(sends) = after_starts(head, node, rows) else {
        return None;
    };
    let Some(hears) = after_sends(head, node, sends) else {
        return None;
    };
    let Some(rest) = after_hears(head, node, hears) else {
        return None;
    };
    // rows after those of the node's items
    if !rest.is_empty() {
        return None;
    }
    Some(RowCounts {
        starts: rows.len() - sends.len(),
        sends: sends.len() - hears.len(),
    })
}

/// Returns whether these are the rows of the items that a node starts, all of them in their order, and no others.
pub fn have_starts(head: &Head, node: u32, rows: &[Row]) -> bool
    ensures { IsTrue result ↔ (items_of rows.now ≡ starts_of head.now node) }
{
    match after_starts(head, node, rows) {
        Some(rest) => rest.is_empty(),
        None => false,
    }
}

/// Returns whether these are the rows of the items that a node sends, all of them in their order, and no others.
pub fn have_sends(head: &Head, node: u32, rows: &[Row]) -> bool
    ensures { IsTrue result ↔ (items_of rows.now ≡ sends_of head.now node) }
{
    match after_sends(head, node, rows) {
        Some(rest) => rest.is_empty(),
        None => false,
    }
}

/// Returns whether these are the rows of the items that a node hears, all of them in their order, and no others.
pub fn have_hears(head: &Head, node: u32, rows: &[Row]) -> bool
    ensures { IsTrue result ↔ (items_of rows.now ≡ hears_of head.now node) }
{
    match after_hears(head, node, rows) {
        Some(rest) => rest.is_empty(),
        None => false,
    }
}
