//! Texts of rows, which are written row by row through a buffer, so the whole text is never in memory. The functions that
//! take a buffer fail only if the sink meets a fault.
ghost use Rattle.std.specs.Prelude.{◌≡◌, ◌≤◌, ◌++◌, [], Err, OnErr, OnOk, flat_map};
ghost use Rattle.cpg_io.specs.Causes.{HasCause, Rose};
ghost use Rattle.cpg_io.specs.Sink.{Took, TookPrefix};
ghost use Rattle.cpg_codec.specs.Writing.{Puts};
ghost use Rattle.cpg_label.specs.Lines.{IsLine};
ghost use Rattle.cpg_label.specs.CubeText.{columns_text};
ghost use Rattle.cpg_show.specs.Sheet.{columns_of_source, part_text, sheet_text};

use crate::putting::{put_columns, put_text};
use crate::walking::put_paths;
use cpg_codec::{Buffer, WriteFault};
use cpg_io::{Failed, Sink};
use cpg_label::{Labels, Line};
use cpg_tree_columns::{PathCube, RowSource};
use std::alloc::Global;

/// A line, and the columns whose lines come below it.
#[derive(Drop)]
pub(crate) struct SheetPart<'a> {
    /// The line, with its end.
    pub head: String,
    /// Where the columns are read.
    pub columns: RowSource<'a>,
}

/// A text of rows, of which all but the lines of the columns is made already.
#[derive(Drop)]
pub(crate) struct Sheet<'a> {
    /// The names of processes, conditions and edges.
    pub labels: Labels<'a>,
    /// What comes before the parts.
    pub front: String,
    /// The rows, in the order of the text.
    pub parts: Vec<SheetPart<'a>>,
}

/// Puts the lines of the columns of a source: of a list, or of a tree. Here and below, `Err` only if the sink meets a fault;
/// `line` is that of any column before, and `path` is at the root of a tree.
fn put_source<O: Sink>(
    buffer: &mut Buffer,
    sink: &mut O,
    labels: &Labels<'_>,
    line: &mut Line,
    source: RowSource<'_>,
    path: &mut PathCube,
) -> Result<(), Failed>
    requires line { IsLine labels.now line.old }
    requires path { path.old ≡ [] }
    ensures line { OnOk result (IsLine labels.now line.new) }
    ensures path { OnOk result (path.new ≡ []) }
    ensures put { Puts (O.state sink.old).taken (O.state sink.new).taken buffer.old buffer.new result (columns_text labels.now (columns_of_source source.entry)) }
    ensures cause { HasCause (O.state sink.old).faults (O.state sink.new).faults result }
{
    match source {
        RowSource::Listed(columns) => put_columns(buffer, sink, labels, line, columns),
        RowSource::Kept(tree) => {
            put_paths(
                buffer,
                sink,
                labels,
                line,
                tree.items(),
                tree.faults(),
                path,
            )
        }
    }
}

/// Puts a part: its line, and then the lines of its columns.
fn put_part<O: Sink>(
    buffer: &mut Buffer,
    sink: &mut O,
    labels: &Labels<'_>,
    line: &mut Line,
    part: &SheetPart<'_>,
    path: &mut PathCube,
) -> Result<(), Failed>
    requires line { IsLine labels.now line.old }
    requires path { path.old ≡ [] }
    ensures line { OnOk result (IsLine labels.now line.new) }
    ensures path { OnOk result (path.new ≡ []) }
    ensures put { Puts (O.state sink.old).taken (O.state sink.new).taken buffer.old buffer.new result (part_text labels.now part.now) }
    ensures cause { HasCause (O.state sink.old).faults (O.state sink.new).faults result }
{
    put_text(buffer, sink, part.head.as_str())?;
    put_source(buffer, sink, labels, line, part.columns, path)
}

/// Puts the parts of a sheet, one after another.
fn put_sheet_parts<O: Sink>(
    buffer: &mut Buffer,
    sink: &mut O,
    labels: &Labels<'_>,
    line: &mut Line,
    parts: &[SheetPart<'_>],
    path: &mut PathCube,
) -> Result<(), Failed>
    requires line { IsLine labels.now line.old }
    requires path { path.old ≡ [] }
    ensures put { Puts (O.state sink.old).taken (O.state sink.new).taken buffer.old buffer.new result (flat_map (part_text labels.now) parts.now) }
    ensures cause { HasCause (O.state sink.old).faults (O.state sink.new).faults result }
{
    for part in parts {
        put_part(buffer, sink, labels, line, part, path)?;
    }
    Ok(())
}

/// Puts a sheet: its front, and then its parts.
fn put_sheet<O: Sink>(
    buffer: &mut Buffer,
    sink: &mut O,
    line: &mut Line,
    sheet: &Sheet<'_>,
    path: &mut PathCube,
) -> Result<(), Failed>
    requires line { IsLine sheet.now.labels line.old }
    requires path { path.old ≡ [] }
    ensures put { Puts (O.state sink.old).taken (O.state sink.new).taken buffer.old buffer.new result (sheet_text sheet.now) }
    ensures cause { HasCause (O.state sink.old).faults (O.state sink.new).faults result }
{
    put_text(buffer, sink, sheet.front.as_str())?;
    put_sheet_parts(
        buffer,
        sink,
        &sheet.labels,
        line,
        sheet.parts.as_slice(),
        path,
    )
}

/// Writes a sheet through an empty buffer: puts it, and then writes what the buffer still holds.
fn write_through<O: Sink>(
    buffer: &mut Buffer,
    sink: &mut O,
    line: &mut Line,
    sheet: &Sheet<'_>,
    path: &mut PathCube,
) -> Result<(), Failed>
    requires empty { buffer.old ≡ [] }
    requires line { IsLine sheet.now.labels line.old }
    requires path { path.old ≡ [] }
    ensures whole { OnOk result (Took (O.state sink.old).taken (O.state sink.new).taken (sheet_text sheet.now)) }
    ensures part { OnErr result (TookPrefix (O.state sink.old).taken (O.state sink.new).taken (sheet_text sheet.now)) }
    ensures cause { HasCause (O.state sink.old).faults (O.state sink.new).faults result }
{
    put_sheet(buffer, sink, line, sheet, path)?;
    // the end of the text is still in the buffer
    buffer.write(sink)
}

/// Writes a sheet.
///
/// `Failed` only if the sink met a fault. It has taken a proper prefix of the text then. The buffer, the line of a column
/// and the cube of a path are made before the first write, so on `OutOfMemory` the sink is as it was.
pub(crate) fn write_sheet<O: Sink>(
    alloc: Global,
    sheet: &Sheet<'_>,
    sink: &mut O,
) -> Result<(), WriteFault>
    ensures whole { OnOk result (Took (O.state sink.old).taken (O.state sink.new).taken (sheet_text sheet.now)) }
    ensures part { result ≡ Err WriteFault.Failed → TookPrefix (O.state sink.old).taken (O.state sink.new).taken (sheet_text sheet.now) }
    ensures kept { OnOk result ((O.state sink.new).faults ≡ (O.state sink.old).faults) }
    ensures cause { result ≡ Err WriteFault.Failed → Rose (O.state sink.old).faults (O.state sink.new).faults }
    ensures same { result ≡ Err WriteFault.OutOfMemory → sink.new ≡ sink.old }
    ensures later { (O.state sink.old).faults ≤ (O.state sink.new).faults }
{
    // all memory is asked for here, before anything is written
    let mut buffer = Buffer::new(alloc)?;
    let mut line = Line::new(alloc)?;
    let mut path = PathCube::whole(alloc)?;
    write_through(&mut buffer, sink, &mut line, sheet, &mut path)?;
    Ok(())
}
