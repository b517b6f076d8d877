//! The text of a node's table: its name, and the rows of what it starts, sends and hears. Every error is `OutOfMemory`, but
//! for the last function, which also fails if the sink meets a fault.
ghost use Rattle.std.specs.Prelude.{◌≡◌, ◌<◌, ◌≤◌, ◌++◌, Err, IfOk, OnOk, codes, flat_map, length, string_bytes};
ghost use Rattle.cpg_io.specs.Causes.{Rose};
ghost use Rattle.cpg_io.specs.Sink.{Took, TookPrefix};
ghost use Rattle.cpg_label.specs.ItemText.{act_text, hear_text, item_of};
ghost use Rattle.cpg_show.specs.NodeText.{act_row, hear_row, name_line, node_text, rows_text};
ghost use Rattle.cpg_show.specs.Sheet.{part_text, sheet_text};

use crate::sheet::{Sheet, SheetPart, write_sheet};
use cpg_base::OutOfMemory;
use cpg_codec::WriteFault;
use cpg_head::Head;
use cpg_io::Sink;
use cpg_label::{Labels, write_act, write_heard};
use cpg_table::{NodeTable, Row, Tables};
use cpg_tree_columns::RowSource;
use std::alloc::Global;

/// Returns the line of an item that a node starts or sends: what is done with it.
fn act_line(alloc: Global, labels: &Labels<'_>, item: u32) -> Result<String, OutOfMemory>
    ensures { IfOk result (λ line. string_bytes line ≡ act_text labels.now (item_of labels.now item) ++ codes "\n") }
{
    let mut line = String::new(alloc);
    write_act(&mut line, labels, labels.item(item))?;
    line.push_str("\n")?;
    Ok(line)
}

/// Returns the line of an item that a node hears: what is heard.
fn hear_line(alloc: Global, labels: &Labels<'_>, item: u32) -> Result<String, OutOfMemory>
    ensures { IfOk result (λ line. string_bytes line ≡ hear_text labels.now (item_of labels.now item) ++ codes "\n") }
{
    let mut line = String::new(alloc);
    write_heard(&mut line, labels, labels.item(item))?;
    line.push_str("\n")?;
    Ok(line)
}

/// Adds a part for each row of what a node starts or sends: its line, and its columns.
fn add_acts<'a>(
    parts: &mut Vec<SheetPart<'a>>,
    labels: &Labels<'_>,
    rows: &'a [Row],
) -> Result<(), OutOfMemory>
    ensures { OnOk result (flat_map (part_text labels.now) parts.new.items ≡ flat_map (part_text labels.now) parts.old.items
        ++ flat_map (act_row labels.now) rows.entry.now) }
{
    let alloc = *parts.allocator();
    for row in rows {
        parts.push(SheetPart {
            head: act_line(alloc, labels, row.item())?,
            columns: RowSource::Listed(row.columns()),
        })?;
    }
    Ok(())
}

/// Adds a part for each row of what a node hears: its line, and its columns.
fn add_hears<'a>(
    parts: &mut Vec<SheetPart<'a>>,
    labels: &Labels<'_>,
    rows: &'a [Row],
) -> Result<(), OutOfMemory>
    ensures { OnOk result (flat_map (part_text labels.now) parts.new.items ≡ flat_map (part_text labels.now) parts.old.items
        ++ flat_map (hear_row labels.now) rows.entry.now) }
{
    let alloc = *parts.allocator();
    for row in rows {
        parts.push(SheetPart {
            head: hear_line(alloc, labels, row.item())?,
            columns: RowSource::Listed(row.columns()),
        })?;
    }
    Ok(())
}

/// Returns a part for each row of a node's table: starts, then sends, then hears.
fn rows_of<'a>(
    alloc: Global,
    labels: &Labels<'_>,
    table: &'a NodeTable,
) -> Result<Vec<SheetPart<'a>>, OutOfMemory>
    ensures { IfOk result (λ parts. flat_map (part_text labels.now) parts.items ≡ rows_text labels.now table.entry.now) }
{
    let mut parts = Vec::new(alloc);
    add_acts(&mut parts, labels, table.starts())?;
    add_acts(&mut parts, labels, table.sends())?;
    add_hears(&mut parts, labels, table.hears())?;
    Ok(parts)
}

/// Returns the line of the name of the node with this number.
fn name_line(alloc: Global, head: &Head, node: u32) -> Result<String, OutOfMemory>
    requires { node < length head.now.nodes }
    ensures { IfOk result (λ line. string_bytes line ≡ name_line head.now node) }
{
    let name = head.nodes()[node as usize].as_str();
    let mut line = String::new(alloc);
    write!(line, "node {name}\n")?;
    Ok(line)
}

/// Returns the text of a node's table as a sheet: the line of the node's name, and a part for each row.
fn sheet_of<'a>(alloc: Global, tables: &'a Tables, node: u32) -> Result<Sheet<'a>, OutOfMemory>
    requires { node < length tables.now.head.nodes }
    ensures { IfOk result (λ sheet. sheet_text sheet ≡ node_text tables.entry.now node) }
{
    let labels = Labels::of_head(alloc, tables.head())?;
    let front = name_line(alloc, tables.head(), node)?;
    let parts = rows_of(alloc, &labels, tables.node(node))?;
    Ok(Sheet {
        labels,
        front,
        parts,
    })
}

/// Writes the name of a node, and the rows of what it starts, sends and hears.
///
/// `Failed` only if the sink met a fault. It has taken a proper prefix of the text then. On `OutOfMemory` the sink is as
/// it was.
pub fn write_node<O: Sink>(
    alloc: Global,
    tables: &Tables,
    node: u32,
    sink: &mut O,
) -> Result<(), WriteFault>
    requires { node < length tables.now.head.nodes }
    ensures whole { OnOk result (Took (O.state sink.old).taken (O.state sink.new).taken (node_text tables.now node)) }
    ensures part { result ≡ Err WriteFault.Failed → TookPrefix (O.state sink.old).taken (O.state sink.new).taken (node_text tables.now node) }
    ensures kept { OnOk result ((O.state sink.new).faults ≡ (O.state sink.old).faults) }
    ensures cause { result ≡ Err WriteFault.Failed → Rose (O.state sink.old).faults (O.state sink.new).faults }
    ensures same { result ≡ Err WriteFault.OutOfMemory → sink.new ≡ sink.old }
    ensures later { (O.state sink.old).faults ≤ (O.state sink.new).faults }
{
    let sheet = sheet_of(alloc, tables, node)?;
    write_sheet(alloc, &sheet, sink)
}
