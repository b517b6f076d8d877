//! Sifts the rows that V4 may ask: those of what a node starts or hears, from the first column on no later than the
//! last column of some item of the node that isn't marked as sure. What begins later tells that item nothing.
ghost use Rattle.std.specs.Prelude.{ℕ, IfOk};
ghost use Rattle.cpg_violation.specs.SievedRows.{AreSievedRows};

use cpg_base::{OutOfMemory, Problem};
use cpg_table::{NodeItems, Tables};
use cpg_violation::{SievedRow, is_marked, sift};
use std::alloc::Global;

/// The greatest time in the rows of those of some items that aren't marked; `None` if none of these has a row.
fn last_unmarked(rows: &[SievedRow<'_>], items: &[u32], marks: &[bool]) -> Option<u64> {
    let mut last: Option<u64> = None;
    for item in items {
        if is_marked(marks, *item) {
            continue;
        }
        // 0 is the least of all times, so the first row sets the time
        if let Some(row) = rows.get(*item as usize) {
            last = Some(last.unwrap_or(0).max(row.last));
        }
    }
    last
}

/// Whether an item has a row, and its first column is no later than a time.
fn begins_by(rows: &[SievedRow<'_>], item: u32, time: u64) -> bool {
    match rows.get(item as usize) {
        Some(row) => row.first <= time,
        None => false,
    }
}

/// Sifts the rows of those of some items whose first columns are no later than a time.
fn sift_by(
    alloc: Global,
    tables: &Tables,
    rows: &mut [SievedRow<'_>],
    items: &[u32],
    time: u64,
) -> Result<(), OutOfMemory>
    ensures { IfOk result (λ _. (count : ℕ) → AreSievedRows tables.now.nodes count rows.old → AreSievedRows tables.now.nodes count rows.new) }
{
    for item in items {
        if !begins_by(rows, *item, time) {
            continue;
        }
        sift(alloc, tables, rows, *item)?;
    }
    Ok(())
}

/// Sifts the rows that V4 may ask at the unmarked items of a node.
fn sift_of_node(
    alloc: Global,
    tables: &Tables,
    rows: &mut [SievedRow<'_>],
    node: u32,
    marks: &[bool],
) -> Result<(), OutOfMemory>
    ensures { IfOk result (λ _. (count : ℕ) → AreSievedRows tables.now.nodes count rows.old → AreSievedRows tables.now.nodes count rows.new) }
{
    let items = NodeItems::of(alloc, tables.head(), node)?;
    let starts = last_unmarked(rows, items.starts(), marks);
    let sends = last_unmarked(rows, items.sends(), marks);
    // all items of the node are marked
    let Some(last) = starts.max(sends) else {
        return Ok(());
    };
    sift_by(alloc, tables, rows, items.starts(), last)?;
    sift_by(alloc, tables, rows, items.hears(), last)?;
    Ok(())
}

/// Sifts the rows that V4 may ask at items at which it isn't marked as sure. Others are left as they are. The one error
/// is `OutOfMemory`.
pub fn sift_heard(
    alloc: Global,
    problem: &Problem,
    tables: &Tables,
    rows: &mut [SievedRow<'_>],
    marks: &[bool],
) -> Result<(), OutOfMemory>
    ensures { IfOk result (λ _. (count : ℕ) → AreSievedRows tables.now.nodes count rows.old → AreSievedRows tables.now.nodes count rows.new) }
{
    // there are at most 16 nodes, so the cast keeps their number
    for node in 0..problem.nodes().len() as u32 {
        sift_of_node(alloc, tables, rows, node, marks)?;
    }
    Ok(())
}
