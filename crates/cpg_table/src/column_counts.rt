//! How many columns rows have.
ghost use Rattle.std.specs.Prelude.{◌≡◌, ◌≤◌, ◌+◌, ◌^◌, IfSome, IfNone};
ghost use Rattle.cpg_table.specs.Lawful.{column_count, rows_of};

use crate::{NodeTable, Row};

/// Returns how many columns these rows have and the rows before them, which have `earlier`; `None` exactly if that is 2^64
/// or more.
pub fn count_columns(rows: &[Row], earlier: usize) -> Option<usize>
    ensures count { IfSome result (λ count. count ≡ earlier + column_count rows.now) }
    ensures many { IfNone result (2 ^ 64 ≤ earlier + column_count rows.now) }
{
    let mut count = earlier;
    for row in rows {
        count = count.checked_add(row.columns().len())?;
    }
    Some(count)
}

/// Returns how many columns a table has and the rows before it, which have `earlier`; `None` exactly if that is 2^64 or
/// more.
pub fn count_table(table: &NodeTable, earlier: usize) -> Option<usize>
    ensures count { IfSome result (λ count. count ≡ earlier + column_count (rows_of table.now)) }
    ensures many { IfNone result (2 ^ 64 ≤ earlier + column_count (rows_of table.now)) }
{
    let count = count_columns(table.starts(), earlier)?;
    let count = count_columns(table.sends(), count)?;
    count_columns(table.hears(), count)
}
