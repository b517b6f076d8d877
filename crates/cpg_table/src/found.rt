//! The columns of an item.
ghost use Rattle.std.specs.Prelude.{◌≡◌, option_map};
ghost use Rattle.cpg_table.specs.Found.{row_columns};

use crate::Row;
use cpg_cube::Column;

/// Returns the columns of the first row of an item, or `None` if no row is of it.
pub fn row_columns(rows: &[Row], item: u32) -> Option<&[Column]>
    ensures { option_map (λ c. c.now) result ≡ row_columns rows.now item }
{
    for row in rows {
        if row.item() == item {
            return Some(row.columns());
        }
    }
    None
}
