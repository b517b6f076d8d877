//! Rows as they are made: each has a list of columns, or the tree that lists them.
ghost use Rattle.std.specs.Prelude.{◌≡◌, ◌<◌, All, IfOk, List, Option, length};
ghost use Rattle.cpg_cube.specs.declared.column.Column.{Column};
ghost use Rattle.cpg_tree_columns.specs.Sources.{ShowsSource};
ghost use Rattle.cpg_tree_columns.specs.Columns.{columns_of_paths};

use crate::listing::columns_as_found;
use cpg_base::OutOfMemory;
use cpg_cube::Column;
use cpg_table::Row;
use cpg_tree::{OptionalTime, Tree};
use std::alloc::Global;
use std::marker::Model;

/// The columns of a row.
#[derive(Drop)]
enum MadeColumns {
    /// A list of them.
    Listed(Vec<Column>),
    /// A tree in place of the list.
    Kept {
        /// The tree that lists them, from left to right.
        tree: Tree<OptionalTime>,
        /// How many columns the tree lists.
        count: usize,
    },
}

/// When an item is started or sent: its number and its columns. A contract sees it as the row of the item. Most rows
/// keep a tree, which is far smaller than the list.
#[derive(Drop)]
pub struct MadeRow {
    /// The number of the item.
    item: u32,
    /// When the item is started or sent.
    columns: MadeColumns,
}

impl Model for MadeRow {
    ghost use Rattle.cpg_table.specs.Table.{Row};
    ghost use Rattle.cpg_tree_columns.specs.MadeColumns.{made_columns, HasCount};

    ghost Value = { Row };

    ghost view = { λ r. record { item = r.item; columns = made_columns r.columns } };

    // the count of a kept tree is that of the columns it lists
    ghost invariant = { λ r. HasCount r.columns };
}

/// What the columns of a row are read from.
#[derive(Clone, Copy)]
pub enum RowSource<'a> {
    /// A list of them.
    Listed(&'a [Column]),
    /// The tree that lists them, from left to right.
    Kept(&'a Tree<OptionalTime>),
}

impl MadeRow {
    /// Returns the row of an item that has these columns.
    pub(crate) fn listed(item: u32, columns: Vec<Column>) -> MadeRow
        ensures { result ≡ record { item = item; columns = columns.items } }
    {
        MadeRow {
            item,
            columns: MadeColumns::Listed(columns),
        }
    }

    /// Returns the row of an item that has the columns of a tree; `count` is how many these are.
    pub(crate) fn kept(item: u32, tree: Tree<OptionalTime>, count: usize) -> MadeRow
        requires { count ≡ length (columns_of_paths tree.paths) }
        ensures { result ≡ record { item = item; columns = columns_of_paths tree.paths } }
    {
        MadeRow {
            item,
            columns: MadeColumns::Kept { tree, count },
        }
    }

    /// Returns the number of the item.
    pub fn item(&self) -> u32
        ensures { result ≡ self.now.item }
    {
        self.item
    }

    /// Returns how many columns the row has.
    pub fn count(&self) -> usize
        ensures { result ≡ length self.now.columns }
    {
        match &self.columns {
            MadeColumns::Listed(columns) => columns.len(),
            MadeColumns::Kept { count, .. } => *count,
        }
    }

    /// Returns what the columns are read from: their list or their tree.
    pub fn source(&self) -> RowSource<'_>
        ensures { ShowsSource result self.now.columns }
    {
        match &self.columns {
            MadeColumns::Listed(columns) => RowSource::Listed(columns.as_slice()),
            MadeColumns::Kept { tree, .. } => RowSource::Kept(tree),
        }
    }

    /// Returns the row with its columns in a list. The one error is `OutOfMemory`.
    fn list(self) -> Result<Row, OutOfMemory>
        ensures { IfOk result (λ row. row ≡ self) }
    {
        let MadeRow { item, columns } = self;
        match columns {
            MadeColumns::Listed(columns) => Ok(Row::new(item, columns)),
            MadeColumns::Kept { tree, count } => {
                let columns = columns_as_found(&tree, count)?;
                Ok(Row::new(item, columns))
            }
        }
    }
}

/// Returns the rows with their columns listed. The one error is `OutOfMemory`.
pub fn listed_rows(alloc: Global, made: Vec<MadeRow>) -> Result<Vec<Row>, OutOfMemory>
    ensures { IfOk result (λ rows. rows.items ≡ made.items) }
{
    let mut rows = Vec::new(alloc);
    rows.reserve(made.len())?;
    for row in made {
        let row = row.list()?;
        rows.push(row)?;
    }
    Ok(rows)
}
