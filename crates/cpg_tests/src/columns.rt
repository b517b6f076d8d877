//! Rows as plain numbers, so that tests can write them down.
use cpg_cube::Column;
use cpg_table::Row;

/// A column's time, with the low and the high of its first literal. Both are 9 if it has no literal; no fault count is 9.
pub type ColumnParts = (u64, u8, u8);

/// Returns the parts of a column.
fn parts_of(column: &Column) -> ColumnParts {
    match column.cube.literals().first() {
        Some(literal) => (column.time, literal.low, literal.high),
        None => (column.time, 9, 9),
    }
}

/// Whether a row has just the columns of `want`, in order.
fn is_row(row: &Row, want: &[ColumnParts]) -> bool {
    let columns = row.columns();
    if columns.len() != want.len() {
        return false;
    }
    for at in 0..columns.len() {
        if parts_of(&columns[at]) != want[at] {
            return false;
        }
    }
    true
}

/// Whether there are as many rows as in `want`, and each has just its columns there, in order.
pub fn are_rows(rows: &[Row], want: &[&[ColumnParts]]) -> bool {
    if rows.len() != want.len() {
        return false;
    }
    for at in 0..rows.len() {
        if !is_row(&rows[at], want[at]) {
            return false;
        }
    }
    true
}
