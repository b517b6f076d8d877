//! What a command puts out, and writing it.
ghost use Rattle.std.specs.Prelude.{◌<◌, length};
ghost use Rattle.cpg_show.specs.NodeText.{node_text};
ghost use Rattle.cpg_app.specs.Outputs.{packed_by, shown_by};
ghost use Rattle.cpg_table.specs.Writing.{AreWritable};
ghost use Rattle.cpg_outputs.specs.Told.{IsWritten, sent};

use cpg_codec::WriteFault;
use cpg_core::BuiltRows;
use cpg_io::Sink;
use cpg_live::Follower;
use cpg_packing::write_made;
use cpg_rules::Admitted;
use cpg_show::{write_node, write_table};
use cpg_table::Tables;
use cpg_words::Word;
use std::alloc::Global;
use std::mem::forget;

/// A compiled graph. Its tables aren't assembled: they are written from their rows.
#[derive(Drop)]
pub struct Made {
    /// The graph, as it is admitted.
    pub admitted: Admitted,
    /// The rows of its tables, with the order and the greatest finish of the compile.
    pub rows: BuiltRows,
}

/// What a command puts out.
#[derive(Drop)]
pub enum Output {
    /// A text that is ready.
    Lines(String),
    /// The tables of a compiled graph, to be written as a text.
    Table(Made),
    /// The table of a node, to be written as a text.
    NodeTable {
        /// The tables of all nodes.
        tables: Tables,
        /// The node's number.
        node: u32,
    },
    /// The tables of a compiled graph, to be written as a pack.
    Pack(Made),
    /// A node that is to follow a stream; its lines are written as it goes.
    Stream {
        /// The node, before its stream.
        follower: Follower,
        /// The name of the stream's file.
        stream: Word,
    },
}

// The run ends when it has written its output, and the system then takes back its memory at once. So tables and rows
// are forgotten rather than dropped, which would go over all they hold.

/// Writes the tables of a compiled graph as a text. An error is a fault of the sink, or that memory runs out.
pub fn put_tables<O: Sink>(alloc: Global, made: Made, out: &mut O) -> Result<(), WriteFault>
    ensures { IsWritten (sent (O.state out.old) (O.state out.new)) result (shown_by made.admitted.graph made.rows) }
{
    let written = write_table(
        alloc,
        &made.admitted,
        &made.rows.order,
        made.rows.rows.as_slice(),
        made.rows.worst.time,
        out,
    );
    forget(made);
    written
}

/// Writes the table of the node number `node` as a text. An error is a fault of the sink, or that memory runs out.
pub fn put_node_table<O: Sink>(
    alloc: Global,
    tables: Tables,
    node: u32,
    out: &mut O,
) -> Result<(), WriteFault>
    requires { node < length tables.head.nodes }
    ensures { IsWritten (sent (O.state out.old) (O.state out.new)) result (node_text tables node) }
{
    let written = write_node(alloc, &tables, node, out);
    forget(tables);
    written
}

/// Writes the tables of a compiled graph as a pack. An error is a fault of the sink, or that memory runs out.
pub fn put_pack<O: Sink>(alloc: Global, made: Made, out: &mut O) -> Result<(), WriteFault>
    requires { AreWritable made.admitted.graph made.rows.rows.items }
    ensures { IsWritten (sent (O.state out.old) (O.state out.new)) result (packed_by made.admitted.graph made.rows) }
{
    let problem = made.admitted.problem();
    let written = write_made(alloc, problem, made.rows.rows.as_slice(), out);
    // the run ends now, so the memory isn't given back piece by piece
    forget(made);
    written
}
