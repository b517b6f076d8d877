//! Writing the pack of rows: the head of the graph, and the rows of each node, through a buffer.
ghost use Rattle.std.specs.Prelude.{◌≡◌, ◌≤◌, ◌++◌, [], All, Err, IfOk, OnErr, OnOk, length, map};
ghost use Rattle.std.specs.List.{flat_map};
ghost use Rattle.cpg_base.specs.Graph.{item_count};
ghost use Rattle.cpg_base.specs.Numbers.{numbers_below};
ghost use Rattle.cpg_base.specs.WellFormed.{WellFormed};
ghost use Rattle.cpg_codec.specs.Spelling.{head_bytes};
ghost use Rattle.cpg_codec.specs.Writing.{Puts};
ghost use Rattle.cpg_head.specs.GraphHead.{head_of};
ghost use Rattle.cpg_io.specs.Causes.{HasCause, Rose};
ghost use Rattle.cpg_io.specs.Sink.{Took, TookPrefix};
ghost use Rattle.cpg_packing.specs.Packable.{IsPackableRow};
ghost use Rattle.cpg_packing.specs.PackBytes.{items_of_nodes, node_bytes, pack_bytes, AreItemsWithin};
ghost use Rattle.cpg_table.specs.Items.{lists_of};
ghost use Rattle.cpg_table.specs.Writing.{AreWritable};

use crate::items::put_node;
use cpg_base::{OutOfMemory, Problem};
use cpg_codec::{Buffer, WriteFault, put_head};
use cpg_head::{Head, head_of};
use cpg_io::{Failed, Sink};
use cpg_table::NodeItems;
use cpg_tree_columns::{MadeRow, PathCube};
use std::alloc::Global;

/// Returns for each of the first `count` nodes what it starts, sends and hears; `Err` only if memory runs out.
fn items_of(alloc: Global, head: &Head, count: u32) -> Result<Vec<NodeItems>, OutOfMemory>
    ensures { IfOk result (λ nodes. nodes.items ≡ map (lists_of head.now) (numbers_below count)) }
{
    let mut nodes = Vec::new(alloc);
    for node in 0..count {
        let items = NodeItems::of(alloc, head, node)?;
        nodes.push(items)?;
    }
    Ok(nodes)
}

/// What is made before the first byte is written: the head, and the items of each node.
#[derive(Drop)]
struct Outline {
    /// The head of the graph.
    head: Head,
    /// What each node starts, sends and hears, by node.
    nodes: Vec<NodeItems>,
}

/// Returns the head of a graph, and the items of its nodes; `Err` only if memory runs out.
fn outline_of(alloc: Global, problem: &Problem) -> Result<Outline, OutOfMemory>
    ensures head { IfOk result (λ outline. outline.head ≡ head_of problem.now) }
    ensures nodes { IfOk result (λ outline. outline.nodes.items ≡ items_of_nodes problem.now) }
{
    let head = head_of(alloc, problem)?;
    // there are at most 16 nodes, so the cast keeps their number
    let nodes = items_of(alloc, &head, problem.nodes().len() as u32)?;
    Ok(Outline { head, nodes })
}

/// Puts the rows of each node; `Err` only if the sink meets a fault. Here and below, `rows` has the row of each item at its
/// number, and `path` is at the root of a tree.
fn put_nodes<O: Sink>(
    buffer: &mut Buffer,
    sink: &mut O,
    problem: &Problem,
    rows: &[MadeRow],
    nodes: &[NodeItems],
    path: &mut PathCube,
) -> Result<(), Failed>
    requires formed { WellFormed problem.now }
    requires packable { All IsPackableRow rows.now }
    requires long { length rows.now ≡ item_count problem.now }
    requires path { path.old ≡ [] }
    requires items { All (AreItemsWithin problem.now) nodes.now }
    ensures put { Puts (O.state sink.old).taken (O.state sink.new).taken buffer.old buffer.new result (flat_map (node_bytes problem.now rows.now) nodes.now) }
    ensures cause { HasCause (O.state sink.old).faults (O.state sink.new).faults result }
{
    for items in nodes {
        put_node(buffer, sink, problem, rows, items, path)?;
    }
    Ok(())
}

/// Puts the head, and then the rows of each node; `Err` only if the sink meets a fault. `outline` is that of the graph.
fn put_all<O: Sink>(
    buffer: &mut Buffer,
    sink: &mut O,
    problem: &Problem,
    rows: &[MadeRow],
    outline: &Outline,
    path: &mut PathCube,
) -> Result<(), Failed>
    requires formed { WellFormed problem.now }
    requires packable { All IsPackableRow rows.now }
    requires long { length rows.now ≡ item_count problem.now }
    requires path { path.old ≡ [] }
    requires head { outline.now.head ≡ head_of problem.now }
    requires nodes { outline.now.nodes.items ≡ items_of_nodes problem.now }
    ensures put { Puts (O.state sink.old).taken (O.state sink.new).taken buffer.old buffer.new result (pack_bytes problem.now rows.now) }
    ensures cause { HasCause (O.state sink.old).faults (O.state sink.new).faults result }
{
    // called for its contract: the graph keeps its limits
    let _nodes = problem.nodes();
    put_head(buffer, sink, &outline.head)?;
    put_nodes(buffer, sink, problem, rows, outline.nodes.as_slice(), path)
}

/// Writes the head and the rows of each node through an empty buffer; `Err` only if the sink meets a fault. `outline` is that
/// of the graph.
fn write_through<O: Sink>(
    buffer: &mut Buffer,
    sink: &mut O,
    problem: &Problem,
    rows: &[MadeRow],
    outline: &Outline,
    path: &mut PathCube,
) -> Result<(), Failed>
    requires formed { WellFormed problem.now }
    requires packable { All IsPackableRow rows.now }
    requires long { length rows.now ≡ item_count problem.now }
    requires path { path.old ≡ [] }
    requires head { outline.now.head ≡ head_of problem.now }
    requires nodes { outline.now.nodes.items ≡ items_of_nodes problem.now }
    requires empty { buffer.old ≡ [] }
    ensures whole { OnOk result (Took (O.state sink.old).taken (O.state sink.new).taken (pack_bytes problem.now rows.now)) }
    ensures part { OnErr result (TookPrefix (O.state sink.old).taken (O.state sink.new).taken (pack_bytes problem.now rows.now)) }
    ensures cause { HasCause (O.state sink.old).faults (O.state sink.new).faults result }
{
    put_all(buffer, sink, problem, rows, outline, path)?;
    // the buffer still holds the end of the pack
    buffer.write(sink)
}

/// Writes the pack of rows (`pack_bytes`), which is the spelling of the tables that have them. `rows` has the row of each
/// item at its number.
///
/// `Failed` only if the sink met a fault. It has taken a proper prefix of the pack then. All memory is taken before the
/// first write, so on `OutOfMemory` the sink is as it was.
pub fn write_made<O: Sink>(
    alloc: Global,
    problem: &Problem,
    rows: &[MadeRow],
    sink: &mut O,
) -> Result<(), WriteFault>
    requires formed { WellFormed problem.now }
    requires rows { AreWritable problem.now rows.now }
    ensures whole { OnOk result (Took (O.state sink.old).taken (O.state sink.new).taken (pack_bytes problem.now rows.now)) }
    ensures part { result ≡ Err WriteFault.Failed →
        TookPrefix (O.state sink.old).taken (O.state sink.new).taken (pack_bytes problem.now rows.now) }
    ensures kept { OnOk result ((O.state sink.new).faults ≡ (O.state sink.old).faults) }
    ensures cause { result ≡ Err WriteFault.Failed → Rose (O.state sink.old).faults (O.state sink.new).faults }
    ensures same { result ≡ Err WriteFault.OutOfMemory → sink.new ≡ sink.old }
    ensures later { (O.state sink.old).faults ≤ (O.state sink.new).faults }
{
    // called for its contract: the graph keeps its limits
    let _nodes = problem.nodes();
    let outline = outline_of(alloc, problem)?;
    let mut path = PathCube::whole(alloc)?;
    let mut buffer = Buffer::new(alloc)?;
    write_through(&mut buffer, sink, problem, rows, &outline, &mut path)?;
    Ok(())
}
