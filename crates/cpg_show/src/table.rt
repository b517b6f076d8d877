//! The text of tables: the order, the greatest finish, and the rows of what is started and sent. Every error says that
//! memory ran out, but for the last function, which also fails if the sink meets a fault.
ghost use Rattle.std.specs.Prelude.{◌≡◌, ◌<◌, ◌≤◌, ◌++◌, Err, IfOk, OnOk, codes, flat_map, string_bytes};
ghost use Rattle.cpg_base.specs.Graph.{item_count};
ghost use Rattle.cpg_base.specs.Numbers.{numbers_below};
ghost use Rattle.cpg_tree_columns.specs.Sources.{ShowsSource};
ghost use Rattle.cpg_io.specs.Causes.{Rose};
ghost use Rattle.cpg_io.specs.Sink.{Took, TookPrefix};
ghost use Rattle.cpg_label.specs.Labels.{labels_of, process_name};
ghost use Rattle.cpg_show.specs.Sheet.{part_text, sheet_text};
ghost use Rattle.cpg_show.specs.TableText.{head_line, is_shown, lines_of_row, order_line, text_of_rows, worst_line};
ghost use Rattle.cpg_table.specs.Writing.{row_for};

use crate::sheet::{Sheet, SheetPart, write_sheet};
use cpg_base::{Item, Order, OutOfMemory, Problem};
use cpg_codec::WriteFault;
use cpg_io::Sink;
use cpg_label::{Labels, write_act};
use cpg_rules::Admitted;
use cpg_tree_columns::{MadeRow, RowSource};
use std::alloc::{AllocError, Global};

/// Returns whether an item has lines: it is started or sent.
fn is_shown(problem: &Problem, item: u32) -> bool
    requires { item < item_count problem.now }
    ensures { result ≡ is_shown problem.now item }
{
    match problem.item(item) {
        Item::Start(_) => true,
        Item::Message(_) | Item::Broadcast(_) => problem.is_sent(item),
    }
}

/// Writes the names of the processes along an order, each after a blank.
fn write_names(out: &mut String, labels: &Labels<'_>, order: &[u32]) -> Result<(), AllocError>
    ensures { OnOk result (string_bytes out.new ≡ string_bytes out.old ++ flat_map (λ p. codes " " ++ process_name labels.now p) order.now) }
{
    for process in order {
        let name = labels.process(*process);
        write!(out, " {name}")?;
    }
    Ok(())
}

/// Writes the line of the order: the word `order`, and the names of the processes along it, each after a blank.
fn write_order(out: &mut String, labels: &Labels<'_>, order: &[u32]) -> Result<(), AllocError>
    ensures { OnOk result (string_bytes out.new ≡ string_bytes out.old
        ++ (codes "order" ++ flat_map (λ p. codes " " ++ process_name labels.now p) order.now ++ codes "\n")) }
{
    out.push_str("order")?;
    write_names(out, labels, order)?;
    out.push_str("\n")
}

/// Writes the line that says what is done with an item, and on which node. `labels` are those of the graph.
fn write_head_line(
    out: &mut String,
    problem: &Problem,
    labels: &Labels<'_>,
    item: u32,
) -> Result<(), AllocError>
    requires item { item < item_count problem.now }
    requires labels { labels.now ≡ labels_of problem.now }
    ensures { OnOk result (string_bytes out.new ≡ string_bytes out.old ++ head_line problem.now item) }
{
    write_act(out, labels, problem.item(item))?;
    let node = problem.home(item);
    let name = problem.nodes()[node as usize].as_str();
    write!(out, " on {name}\n")
}

/// Returns the line that says what is done with an item, and on which node. `labels` are those of the graph.
fn head_line_of(
    alloc: Global,
    problem: &Problem,
    labels: &Labels<'_>,
    item: u32,
) -> Result<String, OutOfMemory>
    requires item { item < item_count problem.now }
    requires labels { labels.now ≡ labels_of problem.now }
    ensures { IfOk result (λ line. string_bytes line ≡ head_line problem.now item) }
{
    let mut line = String::new(alloc);
    write_head_line(&mut line, problem, labels, item)?;
    Ok(line)
}

/// Returns what an item's columns are read from: an empty list if it has no row.
fn source_of(rows: &[MadeRow], item: u32) -> RowSource<'_>
    ensures { ShowsSource result (row_for rows.now item).columns }
{
    match rows.get(item as usize) {
        // each row is at the number of its item
        Some(row) => row.source(),
        None => RowSource::Listed(&[]),
    }
}

/// Returns a part for each item that is started or sent, by number. `labels` are those of the graph, and `rows` has the row
/// of each item at its number; an item beyond them has no columns.
fn parts_of<'a>(
    alloc: Global,
    problem: &Problem,
    labels: &Labels<'_>,
    rows: &'a [MadeRow],
) -> Result<Vec<SheetPart<'a>>, OutOfMemory>
    requires { labels.now ≡ labels_of problem.now }
    ensures { IfOk result (λ parts. flat_map (part_text labels.now) parts.items ≡ flat_map (lines_of_row problem.now rows.entry.now)
        (numbers_below (item_count problem.now))) }
{
    let mut parts = Vec::new(alloc);
    for item in 0..problem.item_count() {
        // an edge within a node isn't sent, nor is a broadcast on the only node: they have no part
        if is_shown(problem, item) {
            parts.push(SheetPart {
                head: head_line_of(alloc, problem, labels, item)?,
                columns: source_of(rows, item),
            })?;
        }
    }
    Ok(parts)
}

/// Returns the line of the order, and then that of the greatest finish, `worst`, in time units.
fn front_of(
    alloc: Global,
    labels: &Labels<'_>,
    order: &[u32],
    worst: u64,
) -> Result<String, OutOfMemory>
    ensures { IfOk result (λ front. string_bytes front ≡ codes "order" ++ flat_map (λ p. codes " " ++ process_name labels.now p) order.now
        ++ codes "\n" ++ worst_line worst) }
{
    let mut front = String::new(alloc);
    write_order(&mut front, labels, order)?;
    write!(front, "worst {worst}\n")?;
    Ok(front)
}

/// Returns the text of the tables that have these rows, as a sheet: the order, the greatest finish `worst`, and a part for
/// each item that is started or sent.
fn sheet_of<'a>(
    alloc: Global,
    problem: &'a Problem,
    order: &Order,
    rows: &'a [MadeRow],
    worst: u64,
) -> Result<Sheet<'a>, OutOfMemory>
    ensures { IfOk result (λ sheet. sheet_text sheet ≡ text_of_rows problem.entry.now order.now rows.entry.now worst) }
{
    let labels = Labels::of(alloc, problem)?;
    let front = front_of(alloc, &labels, order.processes(), worst)?;
    let parts = parts_of(alloc, problem, &labels, rows)?;
    Ok(Sheet {
        labels,
        front,
        parts,
    })
}

/// Writes the text of the tables that have these rows: the order, the greatest finish `worst` in time units, and the rows of
/// what is started and sent, by number of the item. An item beyond the rows has no columns, and a process of the order that
/// isn't in the graph an empty name.
///
/// `Failed` only if the sink met a fault. It has taken a proper prefix of the text then. On `OutOfMemory` the sink is as
/// it was.
pub fn write_table<O: Sink>(
    alloc: Global,
    admitted: &Admitted,
    order: &Order,
    rows: &[MadeRow],
    worst: u64,
    sink: &mut O,
) -> Result<(), WriteFault>
    ensures whole { OnOk result (Took (O.state sink.old).taken (O.state sink.new).taken (text_of_rows admitted.now.graph order.now rows.now worst)) }
    ensures part { result ≡ Err WriteFault.Failed →
        TookPrefix (O.state sink.old).taken (O.state sink.new).taken (text_of_rows admitted.now.graph order.now rows.now worst) }
    ensures kept { OnOk result ((O.state sink.new).faults ≡ (O.state sink.old).faults) }
    ensures cause { result ≡ Err WriteFault.Failed → Rose (O.state sink.old).faults (O.state sink.new).faults }
    ensures same { result ≡ Err WriteFault.OutOfMemory → sink.new ≡ sink.old }
    ensures later { (O.state sink.old).faults ≤ (O.state sink.new).faults }
{
    let sheet = sheet_of(alloc, admitted.problem(), order, rows, worst)?;
    write_sheet(alloc, &sheet, sink)
}
