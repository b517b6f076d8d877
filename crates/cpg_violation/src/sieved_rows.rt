//! The rows of all items, each with a sieve of its columns and bounds of their times. The sieve parts the columns only
//! of rows that may be asked. Most rows aren't asked even in a faulty pack, and to part all would take most of the time
//! of a check.
ghost use Rattle.std.specs.Prelude.{◌≡◌, ◌≤◌, ℕ, All, IfOk, length};
ghost use Rattle.cpg_base.specs.declared.limits.TheConstants.{MOST_LOAD};
ghost use Rattle.cpg_base.specs.Graph.{item_count};
ghost use Rattle.cpg_violation.specs.SievedRows.{AreSievedRows, IsSievedRow, first_time, last_time};

use crate::sieve::Sieve;
use cpg_base::{OutOfMemory, Problem};
use cpg_cube::Column;
use cpg_table::Tables;
use std::alloc::Global;

/// The columns of an item, with a sieve of them, and bounds of their times.
#[derive(Drop)]
pub struct SievedRow<'a> {
    /// The columns of the item, in their order.
    pub columns: &'a [Column],
    /// The places of the columns, by which those that may match with a cube are found.
    pub sieve: Sieve,
    /// Whether `sift` has made the sieve. Before, it has all columns in one leaf.
    is_sifted: bool,
    /// No column is at an earlier time.
    pub first: u64,
    /// No column is at a later time.
    pub last: u64,
}

/// The least time of these columns; the greatest number of 64 bits if there are none.
pub fn first_time(columns: &[Column]) -> u64
    ensures first { result ≡ first_time columns.now }
    ensures all { All (λ d. result ≤ d.time) columns.now }
{
    let mut first = u64::MAX;
    for column in columns {
        first = first.min(column.time);
    }
    first
}

/// The greatest time of these columns; 0 if there are none.
pub fn last_time(columns: &[Column]) -> u64
    ensures last { result ≡ last_time columns.now }
    ensures all { All (λ d. d.time ≤ result) columns.now }
{
    let mut last: u64 = 0;
    for column in columns {
        last = last.max(column.time);
    }
    last
}

/// The sieved row of these columns, not sifted yet.
fn sieved_row_of<'a>(alloc: Global, columns: &'a [Column]) -> Result<SievedRow<'a>, OutOfMemory>
    requires { length columns.now ≤ MOST_LOAD }
    ensures { IfOk result (IsSievedRow columns.now) }
{
    let sieve = Sieve::whole(alloc, columns)?;
    Ok(SievedRow {
        columns,
        sieve,
        is_sifted: false,
        first: first_time(columns),
        last: last_time(columns),
    })
}

/// The sieved rows of all items, by number, none of them sifted yet. The one error is `OutOfMemory`.
pub fn sieved_rows_of<'a>(
    alloc: Global,
    problem: &Problem,
    tables: &'a Tables,
) -> Result<Vec<SievedRow<'a>>, OutOfMemory>
    ensures { IfOk result (λ rows. AreSievedRows tables.now.nodes (item_count problem.now) rows.items) }
{
    let count = problem.item_count();
    let mut rows = Vec::new(alloc);
    rows.reserve(count as usize)?;
    for item in 0..count {
        let row = sieved_row_of(alloc, tables.columns_of(item))?;
        rows.push(row)?;
    }
    Ok(rows)
}

impl SievedRow<'_> {
    /// Makes a sieve that parts these columns, which are the row's, unless an earlier call has made it.
    fn sift(&mut self, alloc: Global, columns: &[Column]) -> Result<(), OutOfMemory>
        requires { length columns.now ≤ MOST_LOAD }
        ensures { IfOk result (λ _. IsSievedRow columns.now self.old → IsSievedRow columns.now self.new) }
    {
        if self.is_sifted {
            return Ok(());
        }
        self.sieve = Sieve::of(alloc, columns)?;
        self.is_sifted = true;
        Ok(())
    }
}

/// Makes the sieve of an item's row part its columns, so that asking the row is quick. If there is no row of the item,
/// nothing is done. The one error is `OutOfMemory`.
pub fn sift(
    alloc: Global,
    tables: &Tables,
    rows: &mut [SievedRow<'_>],
    item: u32,
) -> Result<(), OutOfMemory>
    ensures { IfOk result (λ _. (items : ℕ) → AreSievedRows tables.now.nodes items rows.old → AreSievedRows tables.now.nodes items rows.new) }
{
    if item as usize >= rows.len() {
        return Ok(());
    }
    rows[item as usize].sift(alloc, tables.columns_of(item))?;
    Ok(())
}
