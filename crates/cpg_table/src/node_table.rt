//! The table of a node.
ghost use Rattle.std.specs.Prelude.{◌≡◌, ◌↔◌, ◌++◌, ◌<◌, IsTrue, IfOk, IfSome, IfNone, length, All};
ghost use Rattle.cpg_table.specs.Shape.{items_of};
ghost use Rattle.cpg_table.specs.Items.{first_broadcast, own_of, starts_of, sends_of, hears_of};
ghost use Rattle.cpg_table.specs.Table.{columns_in};
ghost use Rattle.cpg_table.specs.Lawful.{IsTable, IsTableOf, AreRowsOf, IsLawfulRow, rows_of, space_of};

use crate::counts::{RowCounts, counts_of, have_hears, have_sends, have_starts};
use crate::found::row_columns;
use crate::items::first_broadcast;
use crate::own::{is_own_of, own_of};
use crate::space::{VariableSpace, are_rows, space_of};
use crate::{Own, Row};
use cpg_base::OutOfMemory;
use cpg_cube::Column;
use cpg_head::Head;
use std::alloc::{AllocError, Global};
use std::marker::Model;

/// When a node starts, sends and hears its items, with what it needs of the head to act by that: the most faults, the
/// item number of the first broadcast, and its own processes. Starts and sends have the time of the act, hears that of
/// the arrival.
#[derive(Drop)]
pub struct NodeTable {
    /// The most faults.
    faults: u8,
    /// The item number of the first broadcast.
    first_broadcast: u32,
    /// The node's own processes.
    own: Vec<Own>,
    /// The rows of what it starts.
    starts: Vec<Row>,
    /// The rows of what it sends.
    sends: Vec<Row>,
    /// The rows of what it hears.
    hears: Vec<Row>,
}

impl Model for NodeTable {
    ghost use Rattle.cpg_table.specs.Table.{NodeTable};
    ghost use Rattle.cpg_table.specs.Lawful.{IsTable};

    ghost Value = { NodeTable };

    ghost view = { λ t. record {
      faults = t.faults;
      first_broadcast = t.first_broadcast;
      own = t.own.items;
      starts = t.starts.items;
      sends = t.sends.items;
      hears = t.hears.items;
    } };

    ghost invariant = { λ t. IsTable (record {
      faults = t.faults;
      first_broadcast = t.first_broadcast;
      own = t.own.items;
      starts = t.starts.items;
      sends = t.sends.items;
      hears = t.hears.items;
    }) };
}

impl NodeTable {
    /// Returns the table of a node with the lawful rows of its items: `counts.starts` of starts, `counts.sends` of sends,
    /// and the others of hears. `Err` only if memory runs out.
    pub(crate) fn of(
        alloc: Global,
        head: &Head,
        node: u32,
        counts: RowCounts,
        rows: Vec<Row>,
    ) -> Result<NodeTable, OutOfMemory>
        requires rows { AreRowsOf head.now node rows.items }
        requires starts { counts.starts ≡ length (starts_of head.now node) }
        requires sends { counts.sends ≡ length (sends_of head.now node) }
        ensures table { IfOk result (λ t. IsTableOf head.now node t) }
        ensures rows { IfOk result (λ t. rows_of t ≡ rows.items) }
    {
        let mut starts = rows;
        let mut sends = starts.split_off(counts.starts)?;
        let hears = sends.split_off(counts.sends)?;
        let own = own_of(alloc, head, node)?;
        Ok(NodeTable {
            faults: head.faults(),
            first_broadcast: first_broadcast(head),
            own,
            starts,
            sends,
            hears,
        })
    }

    /// Returns the table of a node with these rows: for each item that it starts, then for each that it sends, then for
    /// each that it hears (docs/FORMATS.md). `None` exactly if the rows aren't those of the node's items, or one isn't
    /// lawful; `Err` only if memory runs out.
    pub fn new(
        alloc: Global,
        head: &Head,
        node: u32,
        rows: Vec<Row>,
    ) -> Result<Option<NodeTable>, OutOfMemory>
        ensures table { IfOk result (λ r. IfSome r (λ t. IsTableOf head.now node t)) }
        ensures rows { IfOk result (λ r. IfSome r (λ t. rows_of t ≡ rows.items)) }
        ensures refused { IfOk result (λ r. IfNone r (¬ AreRowsOf head.now node rows.items)) }
    {
        if !are_rows(space_of(head), rows.as_slice()) {
            return Ok(None);
        }
        let Some(counts) = counts_of(head, node, rows.as_slice()) else {
            return Ok(None);
        };
        let table = NodeTable::of(alloc, head, node, counts, rows)?;
        Ok(Some(table))
    }

    /// Returns the table of a node with the lawful rows of its items; that they are so was checked before. `Err` only if
    /// memory runs out.
    pub fn of_rows(
        alloc: Global,
        head: &Head,
        node: u32,
        rows: Vec<Row>,
    ) -> Result<NodeTable, OutOfMemory>
        requires { AreRowsOf head.now node rows.items }
        ensures table { IfOk result (λ t. IsTableOf head.now node t) }
        ensures rows { IfOk result (λ t. rows_of t ≡ rows.items) }
    {
        match counts_of(head, node, rows.as_slice()) {
            Some(counts) => NodeTable::of(alloc, head, node, counts, rows),
            // the rows are those of the node's items
            None => unreachable!(),
        }
    }

    /// Returns the most faults that a cycle may have.
    pub fn faults(&self) -> u8
        ensures faults { result ≡ self.now.faults }
        ensures made { IsTable self.now }
    {
        self.faults
    }

    /// Returns the item number of the first broadcast.
    pub fn first_broadcast(&self) -> u32
        ensures first_broadcast { result ≡ self.now.first_broadcast }
        ensures made { IsTable self.now }
    {
        self.first_broadcast
    }

    /// Returns the node's own processes, by number.
    pub fn own(&self) -> &[Own]
        ensures own { result.now ≡ self.now.own }
        ensures made { IsTable self.now }
    {
        self.own.as_slice()
    }

    /// Returns the rows of what the node starts: its own processes, by number.
    pub fn starts(&self) -> &[Row]
        ensures starts { result.now ≡ self.now.starts }
        ensures made { IsTable self.now }
    {
        self.starts.as_slice()
    }

    /// Returns the rows of what the node sends, by number.
    pub fn sends(&self) -> &[Row]
        ensures sends { result.now ≡ self.now.sends }
        ensures made { IsTable self.now }
    {
        self.sends.as_slice()
    }

    /// Returns the rows of what the node hears, by number.
    pub fn hears(&self) -> &[Row]
        ensures hears { result.now ≡ self.now.hears }
        ensures made { IsTable self.now }
    {
        self.hears.as_slice()
    }

    /// Returns the columns of an item that the node hears; none if it doesn't hear it.
    pub fn heard_columns(&self, item: u32) -> &[Column]
        ensures { result.now ≡ columns_in self.now.hears item }
    {
        match row_columns(self.hears(), item) {
            Some(columns) => columns,
            None => &[],
        }
    }

    /// Returns an equal table; `Err` only if memory runs out.
    pub fn copy(&self) -> Result<NodeTable, OutOfMemory>
        ensures { IfOk result (λ table. table ≡ self.now) }
    {
        Ok(NodeTable {
            faults: self.faults,
            first_broadcast: self.first_broadcast,
            own: self.own.clone()?,
            starts: self.starts.clone()?,
            sends: self.sends.clone()?,
            hears: self.hears.clone()?,
        })
    }
}

/// A clone is an equal table.
impl Clone for NodeTable {
    ghost is_clone = { λ table copy. copy ≡ table };

    fn clone(&self) -> Result<NodeTable, AllocError> {
        Ok(self.copy()?)
    }
}

/// Returns whether all rows of a table are lawful.
fn are_table_rows(space: VariableSpace, table: &NodeTable) -> bool
    ensures { IsTrue result ↔ All (IsLawfulRow space) (rows_of table.now) }
{
    if !are_rows(space, table.starts()) {
        return false;
    }
    if !are_rows(space, table.sends()) {
        return false;
    }
    are_rows(space, table.hears())
}

/// Returns whether the rows of a table are those of what a node starts, sends and hears.
fn has_items(head: &Head, node: u32, table: &NodeTable) -> bool
    ensures { IsTrue result ↔ ((items_of table.now.starts ≡ starts_of head.now node) × (items_of table.now.sends ≡ sends_of head.now node) ×
        (items_of table.now.hears ≡ hears_of head.now node)) }
{
    if !have_starts(head, node, table.starts()) {
        return false;
    }
    if !have_sends(head, node, table.sends()) {
        return false;
    }
    have_hears(head, node, table.hears())
}

/// Returns whether a table says of the head what its node needs: the most faults, the first broadcast, its processes.
fn has_numbers(head: &Head, node: u32, table: &NodeTable) -> bool
    ensures { IsTrue result ↔ ((table.now.faults ≡ head.now.faults) × (table.now.first_broadcast ≡ first_broadcast head.now) ×
        (table.now.own ≡ own_of head.now node)) }
{
    if table.faults() != head.faults() {
        return false;
    }
    if table.first_broadcast() != first_broadcast(head) {
        return false;
    }
    is_own_of(head, node, table.own())
}

/// Returns whether a table is one of a node under a head.
pub fn is_table_of(head: &Head, node: u32, table: &NodeTable) -> bool
    ensures { IsTrue result ↔ IsTableOf head.now node table.now }
{
    if !has_numbers(head, node, table) {
        return false;
    }
    if !has_items(head, node, table) {
        return false;
    }
    are_table_rows(space_of(head), table)
}
