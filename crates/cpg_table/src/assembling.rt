//! Making the tables of all nodes of one row for each item. Every error here is `OutOfMemory`.
ghost use Rattle.std.specs.Prelude.{◌≡◌, ◌<◌, ◌^◌, ◌++◌, All, IfOk, length, map};
ghost use Rattle.cpg_base.specs.Graph.{item_count};
ghost use Rattle.cpg_base.specs.Numbers.{numbers_below};
ghost use Rattle.cpg_base.specs.WellFormed.{WellFormed};
ghost use Rattle.cpg_head.specs.GraphHead.{head_of};
ghost use Rattle.cpg_table.specs.Lawful.{AreRowsOf, IsTableOf, rows_of};
ghost use Rattle.cpg_table.specs.Valid.{later_by};
ghost use Rattle.cpg_table.specs.Writing.{heard_row, hears_at, has_own, own_rows, other_rows, AreWritable, AreNodeTables, AreTablesWith};

use crate::counts::RowCounts;
use crate::{NodeItems, NodeTable, Row, Tables};
use cpg_base::{OutOfMemory, Problem};
use cpg_cube::Column;
use cpg_head::{Head, head_of};
use std::alloc::Global;

/// Returns copies of the columns, each later by a delay.
fn later(alloc: Global, columns: &[Column], delay: u64) -> Result<Vec<Column>, OutOfMemory>
    requires times { All (λ e. e.time < 2 ^ 59) columns.now }
    requires delay { delay < 2 ^ 59 }
    ensures { IfOk result (λ later. later.items ≡ map (later_by delay) columns.now) }
{
    let mut later = Vec::new(alloc);
    later.reserve(columns.len())?;
    for column in columns {
        later.push(Column {
            time: column.time + delay,
            cube: column.cube.copy()?,
        })?;
    }
    Ok(later)
}

/// Returns the row of an item at a node that hears it: its columns, each later by the sender's slot.
fn heard(alloc: Global, problem: &Problem, rows: &[Row], item: u32) -> Result<Row, OutOfMemory>
    requires formed { WellFormed problem.now }
    requires rows { AreWritable problem.now rows.now }
    requires item { item < item_count problem.now }
    ensures { IfOk result (λ row. row ≡ heard_row problem.now rows.now item) }
{
    // called for its contract: the graph keeps its limits
    let _nodes = problem.nodes();
    let delay = problem.slot_length(problem.home(item));
    let columns = later(alloc, rows[item as usize].columns(), delay)?;
    Ok(Row::new(item, columns))
}

/// Returns the rows of these items at a node that hears them.
fn all_heard(
    alloc: Global,
    problem: &Problem,
    rows: &[Row],
    items: &[u32],
) -> Result<Vec<Row>, OutOfMemory>
    requires formed { WellFormed problem.now }
    requires rows { AreWritable problem.now rows.now }
    requires items { All (λ x. x < item_count problem.now) items.now }
    ensures { IfOk result (λ heard. heard.items ≡ map (heard_row problem.now rows.now) items.now) }
{
    let mut all = Vec::new(alloc);
    all.reserve(items.len())?;
    for item in items {
        let row = heard(alloc, problem, rows, *item)?;
        all.push(row)?;
    }
    Ok(all)
}

/// Returns the rows of all that a node hears.
fn node_hears(
    alloc: Global,
    problem: &Problem,
    head: &Head,
    rows: &[Row],
    node: u32,
) -> Result<Vec<Row>, OutOfMemory>
    requires formed { WellFormed problem.now }
    requires head { head.now ≡ head_of problem.now }
    requires rows { AreWritable problem.now rows.now }
    requires node { node < length problem.now.nodes }
    ensures { IfOk result (λ heard. heard.items ≡ hears_at problem.now rows.now node) }
{
    // called for its contract: the graph keeps its limits
    let _nodes = problem.nodes();
    let items = NodeItems::of(alloc, head, node)?;
    let heard = all_heard(alloc, problem, rows, items.hears())?;
    Ok(heard)
}

/// Returns for each node the rows of all that it hears.
fn hears_of(
    alloc: Global,
    problem: &Problem,
    head: &Head,
    rows: &[Row],
) -> Result<Vec<Vec<Row>>, OutOfMemory>
    requires formed { WellFormed problem.now }
    requires head { head.now ≡ head_of problem.now }
    requires rows { AreWritable problem.now rows.now }
    ensures { IfOk result (λ all. map (λ heard. heard.items) all.items ≡ map (hears_at problem.now rows.now) (numbers_below (length problem.now.nodes))) }
{
    let count = problem.nodes().len();
    let mut all = Vec::new(alloc);
    all.reserve(count)?;
    // a graph has at most 16 nodes, so their numbers fit a `u32`
    for node in 0..count as u32 {
        let heard = node_hears(alloc, problem, head, rows, node)?;
        all.push(heard)?;
    }
    Ok(all)
}

/// Returns whether a node starts or sends an item.
fn has_own(problem: &Problem, node: u32, item: u32) -> bool
    requires { item < item_count problem.now }
    ensures { result ≡ has_own problem.now node item }
{
    if problem.home(item) != node {
        return false;
    }
    // items are numbered from the processes on, and a node starts all of its own
    if (item as usize) < problem.processes().len() {
        return true;
    }
    problem.is_sent(item)
}

/// Rows in two groups: those of the items that a node starts or sends, and the others.
#[derive(Drop)]
struct RowParts {
    /// The rows of the items that the node starts or sends.
    own: Vec<Row>,
    /// The rows of all other items.
    others: Vec<Row>,
}

/// Parts the rows of the items that a node starts or sends from the others.
fn parted(
    alloc: Global,
    problem: &Problem,
    node: u32,
    rows: Vec<Row>,
) -> Result<RowParts, OutOfMemory>
    requires { All (λ row. row.item < item_count problem.now) rows.items }
    ensures own { IfOk result (λ p. p.own.items ≡ own_rows problem.now node rows.items) }
    ensures others { IfOk result (λ p. p.others.items ≡ other_rows problem.now node rows.items) }
{
    let mut own = Vec::new(alloc);
    let mut others = Vec::new(alloc);
    for row in rows {
        if has_own(problem, node, row.item()) {
            own.push(row)?;
        } else {
            others.push(row)?;
        }
    }
    Ok(RowParts { own, others })
}

/// Returns the table of a node: `own` are the rows of what it starts and sends, `hears` those of what it hears.
fn node_table(
    alloc: Global,
    head: &Head,
    node: u32,
    own: Vec<Row>,
    hears: Vec<Row>,
) -> Result<NodeTable, OutOfMemory>
    requires { AreRowsOf head.now node (own.items ++ hears.items) }
    ensures table { IfOk result (λ t. IsTableOf head.now node t) }
    ensures rows { IfOk result (λ t. rows_of t ≡ own.items ++ hears.items) }
{
    let items = NodeItems::of(alloc, head, node)?;
    let counts = RowCounts {
        starts: items.starts().len(),
        sends: items.sends().len(),
    };
    let mut rows = own;
    rows.reserve(hears.len())?;
    for row in hears {
        rows.push(row)?;
    }
    NodeTable::of(alloc, head, node, counts, rows)
}

/// Returns the tables of the nodes. Each takes its own rows out of `rows`, and its hear rows from `hears`.
fn node_tables(
    alloc: Global,
    problem: &Problem,
    head: &Head,
    hears: Vec<Vec<Row>>,
    rows: Vec<Row>,
) -> Result<Vec<NodeTable>, OutOfMemory>
    requires formed { WellFormed problem.now }
    requires head { head.now ≡ head_of problem.now }
    requires rows { AreWritable problem.now rows.items }
    requires hears { map (λ heard. heard.items) hears.items ≡ map (hears_at problem.now rows.items) (numbers_below (length problem.now.nodes)) }
    ensures { IfOk result (λ tables. AreNodeTables problem.now rows.items (length problem.now.nodes) tables.items) }
{
    // called for its contract: the graph keeps its limits
    let _nodes = problem.nodes();
    let mut tables = Vec::new(alloc);
    tables.reserve(hears.len())?;
    // the rows that no node so far starts or sends
    let mut left = rows;
    let mut node: u32 = 0;
    for heard in hears {
        let RowParts { own, others } = parted(alloc, problem, node, left)?;
        left = others;
        let table = node_table(alloc, head, node, own, heard)?;
        tables.push(table)?;
        node += 1;
    }
    Ok(tables)
}

/// Returns the tables of all nodes with these rows, one for each item by number. The hear row of an item has its columns,
/// each later by the sender's slot.
pub fn tables_of(alloc: Global, problem: &Problem, rows: Vec<Row>) -> Result<Tables, OutOfMemory>
    requires formed { WellFormed problem.now }
    requires rows { AreWritable problem.now rows.items }
    ensures { IfOk result (AreTablesWith problem.now rows.items) }
{
    // called for its contract: the graph keeps its limits
    let _nodes = problem.nodes();
    let head = head_of(alloc, problem)?;
    let hears = hears_of(alloc, problem, &head, rows.as_slice())?;
    let nodes = node_tables(alloc, problem, &head, hears, rows)?;
    Ok(Tables::of(head, nodes))
}
