//! Counting the columns of tables.
ghost use Rattle.std.specs.Prelude.{◌≡◌, ◌+◌, ◌≤◌};
ghost use Rattle.cpg_base.specs.declared.limits.TheConstants.{MOST_LOAD};
ghost use Rattle.cpg_table.specs.Lawful.{column_count, rows_of};
ghost use Rattle.cpg_app.specs.Trial.{columns_in};

use cpg_table::{NodeTable, Row, Tables};

/// Returns the count with that of the columns of these rows added.
fn add_columns(before: u64, rows: &[Row]) -> u64
    requires { before + column_count rows.now ≤ MOST_LOAD }
    ensures { result ≡ before + column_count rows.now }
{
    let mut count = before;
    for row in rows {
        count += row.columns().len() as u64;
    }
    count
}

/// Returns the count with that of the columns of a node's table added.
fn add_table(before: u64, table: &NodeTable) -> u64
    requires { before + column_count (rows_of table.now) ≤ MOST_LOAD }
    ensures { result ≡ before + column_count (rows_of table.now) }
{
    let count = add_columns(before, table.starts());
    let count = add_columns(count, table.sends());
    add_columns(count, table.hears())
}

/// Returns how many columns all tables have, those of hear rows too.
pub(crate) fn column_total(tables: &Tables) -> u64
    ensures { result ≡ columns_in tables.now.nodes }
{
    let mut count = 0;
    // there are at most 16 nodes, so the cast keeps their number
    for node in 0..tables.head().nodes().len() as u32 {
        count = add_table(count, tables.node(node));
    }
    count
}
