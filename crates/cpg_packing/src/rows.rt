//! Putting rows as they are made into a buffer. `Err` only if the sink meets a fault.
ghost use Rattle.std.specs.Prelude.{◌≡◌, ◌^◌, ◌<◌, [], All, OnOk, map};
ghost use Rattle.cpg_codec.specs.Spelling.{row_bytes};
ghost use Rattle.cpg_codec.specs.Writing.{Puts};
ghost use Rattle.cpg_io.specs.Causes.{HasCause};
ghost use Rattle.cpg_packing.specs.Packable.{IsPackable, IsPackableRow};
ghost use Rattle.cpg_packing.specs.PackBytes.{later_bytes};
ghost use Rattle.cpg_table.specs.Valid.{later_by};

use crate::walking::put_paths;
use cpg_codec::{Buffer, put_column, put_short};
use cpg_cube::Column;
use cpg_io::{Failed, Sink};
use cpg_tree_columns::{MadeRow, PathCube, RowSource};

/// Puts columns, one after another, each later by `delay` time units.
fn put_later<O: Sink>(
    buffer: &mut Buffer,
    sink: &mut O,
    columns: &[Column],
    delay: u64,
) -> Result<(), Failed>
    requires packable { All IsPackable columns.now }
    requires delay { delay < 2 ^ 59 }
    ensures put { Puts (O.state sink.old).taken (O.state sink.new).taken buffer.old buffer.new result (later_bytes delay columns.now) }
    ensures cause { HasCause (O.state sink.old).faults (O.state sink.new).faults result }
{
    for column in columns {
        put_column(buffer, sink, column.time + delay, column.cube.literals())?;
    }
    Ok(())
}

/// Puts the columns of a row, each later by `delay` time units. `path` is at the root of a tree.
fn put_columns<O: Sink>(
    buffer: &mut Buffer,
    sink: &mut O,
    row: &MadeRow,
    delay: u64,
    path: &mut PathCube,
) -> Result<(), Failed>
    requires packable { All IsPackable row.now.columns }
    requires delay { delay < 2 ^ 59 }
    requires path { path.old ≡ [] }
    ensures put { Puts (O.state sink.old).taken (O.state sink.new).taken buffer.old buffer.new result (later_bytes delay row.now.columns) }
    ensures path { OnOk result (path.new ≡ []) }
    ensures cause { HasCause (O.state sink.old).faults (O.state sink.new).faults result }
{
    match row.source() {
        RowSource::Listed(columns) => put_later(buffer, sink, columns, delay),
        RowSource::Kept(tree) => put_paths(buffer, sink, tree.items(), tree.faults(), delay, path),
    }
}

/// Puts a row: how many columns it has, and then these, each later by `delay` time units. `path` is at the root of a tree.
pub(crate) fn put_row<O: Sink>(
    buffer: &mut Buffer,
    sink: &mut O,
    row: &MadeRow,
    delay: u64,
    path: &mut PathCube,
) -> Result<(), Failed>
    requires packable { IsPackableRow row.now }
    requires delay { delay < 2 ^ 59 }
    requires path { path.old ≡ [] }
    ensures put { Puts (O.state sink.old).taken (O.state sink.new).taken buffer.old buffer.new result (row_bytes (record { item = row.now.item; columns = map (later_by delay) row.now.columns })) }
    ensures path { OnOk result (path.new ≡ []) }
    ensures cause { HasCause (O.state sink.old).faults (O.state sink.new).faults result }
{
    // at most 16,384 columns, so their number fits two bytes
    put_short(buffer, sink, row.count() as u16)?;
    put_columns(buffer, sink, row, delay, path)
}
