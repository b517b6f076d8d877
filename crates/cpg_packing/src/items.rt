//! Putting the rows of a node's items into a buffer. `Err` only if the sink meets a fault; `path` is at the root of a tree.
ghost use Rattle.std.specs.Prelude.{◌≡◌, ◌<◌, [], All, OnOk, length};
ghost use Rattle.std.specs.List.{flat_map};
ghost use Rattle.cpg_base.specs.Graph.{item_count};
ghost use Rattle.cpg_base.specs.WellFormed.{WellFormed};
ghost use Rattle.cpg_codec.specs.Writing.{Puts};
ghost use Rattle.cpg_io.specs.Causes.{HasCause};
ghost use Rattle.cpg_packing.specs.Packable.{IsPackableRow};
ghost use Rattle.cpg_packing.specs.PackBytes.{heard_bytes, node_bytes, own_bytes, AreItemsWithin};

use crate::rows::put_row;
use cpg_base::Problem;
use cpg_codec::Buffer;
use cpg_io::{Failed, Sink};
use cpg_table::NodeItems;
use cpg_tree_columns::{MadeRow, PathCube};

/// Puts the rows of these items, which a node starts or sends, as they are. `rows` has the row of each item at its number.
fn put_own<O: Sink>(
    buffer: &mut Buffer,
    sink: &mut O,
    rows: &[MadeRow],
    items: &[u32],
    path: &mut PathCube,
) -> Result<(), Failed>
    requires packable { All IsPackableRow rows.now }
    requires path { path.old ≡ [] }
    requires items { All (λ x. x < length rows.now) items.now }
    ensures put { Puts (O.state sink.old).taken (O.state sink.new).taken buffer.old buffer.new result (flat_map (own_bytes rows.now) items.now) }
    ensures path { OnOk result (path.new ≡ []) }
    ensures cause { HasCause (O.state sink.old).faults (O.state sink.new).faults result }
{
    for item in items {
        // without a delay
        put_row(buffer, sink, &rows[*item as usize], 0, path)?;
    }
    Ok(())
}

/// Puts the rows of these items at a node that hears them: each column is later by the sender's slot. `rows` has the row of
/// each item at its number.
fn put_heard<O: Sink>(
    buffer: &mut Buffer,
    sink: &mut O,
    problem: &Problem,
    rows: &[MadeRow],
    items: &[u32],
    path: &mut PathCube,
) -> Result<(), Failed>
    requires formed { WellFormed problem.now }
    requires packable { All IsPackableRow rows.now }
    requires path { path.old ≡ [] }
    requires long { length rows.now ≡ item_count problem.now }
    requires items { All (λ x. x < item_count problem.now) items.now }
    ensures put { Puts (O.state sink.old).taken (O.state sink.new).taken buffer.old buffer.new result (flat_map (heard_bytes problem.now rows.now) items.now) }
    ensures path { OnOk result (path.new ≡ []) }
    ensures cause { HasCause (O.state sink.old).faults (O.state sink.new).faults result }
{
    // called for its contract: the graph keeps its limits
    let _nodes = problem.nodes();
    for item in items {
        let delay = problem.slot_length(problem.home(*item));
        put_row(buffer, sink, &rows[*item as usize], delay, path)?;
    }
    Ok(())
}

/// Puts the rows of what a node starts, then of what it sends, then of what it hears. `items` are the node's, and `rows` has
/// the row of each item at its number.
pub(crate) fn put_node<O: Sink>(
    buffer: &mut Buffer,
    sink: &mut O,
    problem: &Problem,
    rows: &[MadeRow],
    items: &NodeItems,
    path: &mut PathCube,
) -> Result<(), Failed>
    requires formed { WellFormed problem.now }
    requires packable { All IsPackableRow rows.now }
    requires path { path.old ≡ [] }
    requires long { length rows.now ≡ item_count problem.now }
    requires items { AreItemsWithin problem.now items.now }
    ensures put { Puts (O.state sink.old).taken (O.state sink.new).taken buffer.old buffer.new result (node_bytes problem.now rows.now items.now) }
    ensures path { OnOk result (path.new ≡ []) }
    ensures cause { HasCause (O.state sink.old).faults (O.state sink.new).faults result }
{
    put_own(buffer, sink, rows, items.starts(), path)?;
    put_own(buffer, sink, rows, items.sends(), path)?;
    put_heard(buffer, sink, problem, rows, items.hears(), path)
}
