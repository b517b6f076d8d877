//! The tables of all nodes.
ghost use Rattle.std.specs.Prelude.{◌≡◌, ◌↔◌, ◌≤◌, ◌<◌, ℕ, IsTrue, IfOk, IfSome, IfNone, length, sum_by};
ghost use Rattle.cpg_table.specs.Table.{columns_of, table_at};
ghost use Rattle.cpg_table.specs.Lawful.{IsTableOf, AreTablesOf, column_count, rows_of};

use crate::NodeTable;
use crate::column_counts::count_table;
use crate::found::row_columns;
use crate::node_table::is_table_of;
use cpg_base::{MOST_LOAD, MOST_NODES, OutOfMemory};
use cpg_cube::Column;
use cpg_head::Head;
use std::marker::Model;

/// What a pack holds: a head, and the table of each node under it; seen as both.
#[derive(Drop)]
pub struct Tables {
    head: Head,
    nodes: Vec<NodeTable>,
}

impl Model for Tables {
    ghost use Rattle.cpg_table.specs.Lawful.{Tables, AreTablesOf};

    ghost Value = { Tables };

    ghost view = { λ t. record { head = t.head; nodes = t.nodes.items } };

    ghost invariant = { λ t. AreTablesOf t.head t.nodes.items };
}

/// Returns whether each table is one of its node.
fn are_tables_of(head: &Head, nodes: &[NodeTable]) -> bool
    requires { length nodes.now ≤ MOST_NODES }
    ensures { IsTrue result ↔ ((node : ℕ) → node < length nodes.now → IsTableOf head.now node (table_at nodes.now node)) }
{
    let mut node: u32 = 0;
    for table in nodes {
        if !is_table_of(head, node, table) {
            return false;
        }
        node += 1;
    }
    true
}

/// Returns whether the tables together have at most `MOST_LOAD` columns, which is 524,288.
fn are_columns_few(nodes: &[NodeTable]) -> bool
    ensures { IsTrue result ↔ (sum_by (λ t. column_count (rows_of t)) nodes.now ≤ MOST_LOAD) }
{
    let mut total = 0;
    for table in nodes {
        // 2^64 or more are too many
        let Some(count) = count_table(table, total) else {
            return false;
        };
        total = count;
    }
    total as u64 <= MOST_LOAD
}

impl Tables {
    /// Returns a head and the tables of its nodes; that they are so was checked before.
    pub fn of(head: Head, nodes: Vec<NodeTable>) -> Tables
        requires { AreTablesOf head nodes.items }
        ensures { result ≡ record { head = head; nodes = nodes.items } }
    {
        Tables { head, nodes }
    }

    /// Returns these tables under this head, or `None` if there isn't one for each node, one isn't of its node under
    /// this head, or all together have more than 524,288 columns.
    pub fn new(head: Head, nodes: Vec<NodeTable>) -> Option<Tables>
        ensures tables { IfSome result (λ t. t ≡ record { head = head; nodes = nodes.items }) }
        ensures lawful { IfSome result (λ _. AreTablesOf head nodes.items) }
        ensures refused { IfNone result (¬ AreTablesOf head nodes.items) }
    {
        // there isn't one table for each node
        if nodes.len() != head.nodes().len() {
            return None;
        }
        if !are_tables_of(&head, nodes.as_slice()) {
            return None;
        }
        if !are_columns_few(nodes.as_slice()) {
            return None;
        }
        Some(Tables { head, nodes })
    }

    /// Returns the head that the tables are under.
    pub fn head(&self) -> &Head
        ensures head { result.now ≡ self.now.head }
        ensures lawful { AreTablesOf self.now.head self.now.nodes }
    {
        &self.head
    }

    /// Returns the table of a node.
    pub fn node(&self, number: u32) -> &NodeTable
        requires { number < length self.now.head.nodes }
        ensures table { result.now ≡ table_at self.now.nodes number }
        ensures lawful { IsTableOf self.now.head number result.now }
    {
        &self.nodes[number as usize]
    }

    /// Returns the columns of an item's start row or send row, whichever node has it; none if no node does.
    pub fn columns_of(&self, item: u32) -> &[Column]
        ensures columns { result.now ≡ columns_of self.now.nodes item }
        ensures lawful { AreTablesOf self.now.head self.now.nodes }
    {
        // the columns in the first table that has such a row
        for table in self.nodes.as_slice() {
            if let Some(columns) = row_columns(table.starts(), item) {
                return columns;
            }
            if let Some(columns) = row_columns(table.sends(), item) {
                return columns;
            }
        }
        &[]
    }

    /// Returns the tables of the nodes, by node.
    pub fn into_nodes(self) -> Vec<NodeTable>
        ensures nodes { result.items ≡ self.nodes }
    {
        self.nodes
    }

    /// Returns the head, and the table of a node.
    pub fn into_node(self, number: u32) -> (Head, NodeTable)
        requires { number < length self.head.nodes }
        ensures head { result.0 ≡ self.head }
        ensures table { result.1 ≡ table_at self.nodes number }
    {
        let Tables { head, nodes } = self;
        let mut tables = nodes;
        // the others are dropped, so their order doesn't matter
        let table = tables.swap_remove(number as usize);
        (head, table)
    }

    /// Returns equal tables; `Err` only if memory runs out.
    pub fn copy(&self) -> Result<Tables, OutOfMemory>
        ensures { IfOk result (λ tables. tables ≡ self.now) }
    {
        Ok(Tables {
            head: self.head.copy()?,
            nodes: self.nodes.clone()?,
        })
    }
}
