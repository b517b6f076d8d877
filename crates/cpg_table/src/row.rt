//! A row of a table.
ghost use Rattle.std.specs.Prelude.{◌≡◌, IfOk};

use cpg_base::OutOfMemory;
use cpg_cube::Column;
use std::alloc::AllocError;
use std::marker::Model;

/// A row: the number of an item, and the columns that say when it is started, sent or heard; seen as both.
#[derive(Drop)]
pub struct Row {
    /// The number of the item.
    item: u32,
    /// When it is started, sent or heard, and in which scenarios.
    columns: Vec<Column>,
}

impl Model for Row {
    ghost use Rattle.cpg_table.specs.Table.{Row};

    ghost Value = { Row };

    ghost view = { λ r. record { item = r.item; columns = r.columns.items } };
}

impl Row {
    /// Returns the row of an item with these columns.
    pub fn new(item: u32, columns: Vec<Column>) -> Row
        ensures { result ≡ record { item = item; columns = columns.items } }
    {
        Row { item, columns }
    }

    /// Returns the number of the item.
    pub fn item(&self) -> u32
        ensures { result ≡ self.now.item }
    {
        self.item
    }

    /// Returns the columns.
    pub fn columns(&self) -> &[Column]
        ensures { result.now ≡ self.now.columns }
    {
        self.columns.as_slice()
    }

    /// Returns an equal row; `Err` only if memory runs out.
    pub fn copy(&self) -> Result<Row, OutOfMemory>
        ensures { IfOk result (λ row. row ≡ self.now) }
    {
        Ok(Row {
            item: self.item,
            columns: self.columns.clone()?,
        })
    }
}

/// A clone is an equal row.
impl Clone for Row {
    ghost is_clone = { λ row copy. copy ≡ row };

    fn clone(&self) -> Result<Row, AllocError> {
        Ok(self.copy()?)
    }
}
