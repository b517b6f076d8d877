//! Putting the text of columns into a buffer, which writes it to the sink whenever it is full. No memory is asked for. Each
//! function that returns a `Result` fails only if the sink meets a fault.
ghost use Rattle.std.specs.Prelude.{◌≡◌, ◌+◌, ◌≤◌, ◌++◌, OnOk, codes, length};
ghost use Rattle.std.specs.Fmt.{decimal};
ghost use Rattle.cpg_cube.specs.Cube.{IsRising};
ghost use Rattle.cpg_io.specs.Causes.{HasCause};
ghost use Rattle.cpg_codec.specs.Writing.{Puts};
ghost use Rattle.cpg_label.specs.CubeText.{column_line, columns_text, cube_text};
ghost use Rattle.cpg_label.specs.Lines.{IsLine, IsLineOf};

use cpg_codec::Buffer;
use cpg_cube::{Column, Literal};
use cpg_io::{Failed, Sink};
use cpg_label::{Labels, Line};
use itoa::Buffer as Digits;

/// The most bytes that a line has beside the text of its literals: two blanks, a time of at most 20 digits, a colon with a
/// blank, and the end of the line.
const MOST_BESIDE: usize = 25;

/// Puts a text.
pub(crate) fn put_text<O: Sink>(buffer: &mut Buffer, sink: &mut O, text: &str) -> Result<(), Failed>
    ensures put { Puts (O.state sink.old).taken (O.state sink.new).taken buffer.old buffer.new result text.now }
    ensures cause { HasCause (O.state sink.old).faults (O.state sink.new).faults result }
{
    buffer.put_any(sink, text.as_bytes())
}

/// Puts two texts, one after the other.
fn put_two<O: Sink>(
    buffer: &mut Buffer,
    sink: &mut O,
    first: &str,
    second: &str,
) -> Result<(), Failed>
    ensures put { Puts (O.state sink.old).taken (O.state sink.new).taken buffer.old buffer.new result (first.now ++ second.now) }
    ensures cause { HasCause (O.state sink.old).faults (O.state sink.new).faults result }
{
    put_text(buffer, sink, first)?;
    put_text(buffer, sink, second)
}

/// Puts three texts, one after another.
fn put_three<O: Sink>(
    buffer: &mut Buffer,
    sink: &mut O,
    first: &str,
    second: &str,
    third: &str,
) -> Result<(), Failed>
    ensures put { Puts (O.state sink.old).taken (O.state sink.new).taken buffer.old buffer.new result (first.now ++ second.now ++ third.now) }
    ensures cause { HasCause (O.state sink.old).faults (O.state sink.new).faults result }
{
    put_two(buffer, sink, first, second)?;
    put_text(buffer, sink, third)
}

/// Returns the text of a column's literals, of which `line` is the line; `always` if there are none. `labels` is there for
/// the contract alone.
fn cube_text<'a>(labels: &Labels<'_>, line: &'a Line, literals: &[Literal]) -> &'a [u8]
    requires { IsLineOf labels.now literals.now line.now }
    ensures { result.now ≡ cube_text labels.now literals.now }
{
    // a column without literals matches in every scenario
    if literals.is_empty() {
        return b"always";
    }
    line.text(labels, literals)
}

/// Puts what comes before the literals of a column: two blanks, its time, a colon and a blank.
fn put_time<O: Sink>(buffer: &mut Buffer, sink: &mut O, time: u64) -> Result<(), Failed>
    ensures put { Puts (O.state sink.old).taken (O.state sink.new).taken buffer.old buffer.new result (codes "  " ++ decimal time ++ codes ": ") }
    ensures cause { HasCause (O.state sink.old).faults (O.state sink.new).faults result }
{
    let mut digits = Digits::new();
    let text = digits.format(time);
    put_three(buffer, sink, "  ", text, ": ")
}

/// Puts the line of a column without its end: its time, and the text of its literals.
fn put_timed<O: Sink>(
    buffer: &mut Buffer,
    sink: &mut O,
    time: u64,
    text: &[u8],
) -> Result<(), Failed>
    ensures put { Puts (O.state sink.old).taken (O.state sink.new).taken buffer.old buffer.new result (codes "  " ++ decimal time ++ codes ": "
        ++ text.now) }
    ensures cause { HasCause (O.state sink.old).faults (O.state sink.new).faults result }
{
    put_time(buffer, sink, time)?;
    buffer.put_any(sink, text)
}

/// Puts the line of a column, its time and the text of its literals, part by part: the line needn't fit the buffer.
fn put_parts<O: Sink>(
    buffer: &mut Buffer,
    sink: &mut O,
    time: u64,
    text: &[u8],
) -> Result<(), Failed>
    ensures put { Puts (O.state sink.old).taken (O.state sink.new).taken buffer.old buffer.new result (codes "  " ++ decimal time ++ codes ": "
        ++ text.now ++ codes "\n") }
    ensures cause { HasCause (O.state sink.old).faults (O.state sink.new).faults result }
{
    put_timed(buffer, sink, time, text)?;
    put_text(buffer, sink, "\n")
}

/// Adds the line of a column, its time and the text of its literals, to a buffer that has room for all of it.
fn hold_line(buffer: &mut Buffer, time: u64, text: &[u8])
    requires { length buffer.old + (length text.now + MOST_BESIDE) ≤ 65536 }
    ensures { buffer.new ≡ buffer.old ++ (codes "  " ++ decimal time ++ codes ": " ++ text.now ++ codes "\n") }
{
    let mut digits = Digits::new();
    buffer.hold(b"  ");
    buffer.hold(digits.format(time).as_bytes());
    buffer.hold(b": ");
    buffer.hold(text);
    buffer.hold(b"\n");
}

/// Puts a column's line: its time, and the text of its literals, which `line` holds. If the whole line fits, it is added at
/// once.
fn put_column<O: Sink>(
    buffer: &mut Buffer,
    sink: &mut O,
    labels: &Labels<'_>,
    line: &Line,
    time: u64,
    literals: &[Literal],
) -> Result<(), Failed>
    requires { IsLineOf labels.now literals.now line.now }
    ensures put { Puts (O.state sink.old).taken (O.state sink.new).taken buffer.old buffer.new result (column_line labels.now (record { time = time; cube = literals.now })) }
    ensures cause { HasCause (O.state sink.old).faults (O.state sink.new).faults result }
{
    let text = cube_text(labels, line, literals);
    // the whole line fits; if the room is at most `MOST_BESIDE`, the difference is 0, which no text is below
    if text.len() < buffer.room().saturating_sub(MOST_BESIDE) {
        hold_line(buffer, time, text);
        return Ok(());
    }
    // it may not fit: each part is put by itself, and the buffer is written when it is full
    put_parts(buffer, sink, time, text)
}

/// Puts the line of a column of this time and these literals. `line` is that of any column before, and becomes that of this
/// one; what both have in common isn't made again.
pub(crate) fn put_next<O: Sink>(
    buffer: &mut Buffer,
    sink: &mut O,
    labels: &Labels<'_>,
    line: &mut Line,
    time: u64,
    literals: &[Literal],
) -> Result<(), Failed>
    requires line { IsLine labels.now line.old }
    requires rising { IsRising literals.now }
    ensures line { IsLine labels.now line.new }
    ensures put { Puts (O.state sink.old).taken (O.state sink.new).taken buffer.old buffer.new result (column_line labels.now (record { time = time; cube = literals.now })) }
    ensures cause { HasCause (O.state sink.old).faults (O.state sink.new).faults result }
{
    line.turn_into(labels, literals);
    put_column(buffer, sink, labels, line, time, literals)
}

/// Puts the lines of columns, one after another. `line` is that of any column before them, and becomes that of the last, if
/// there is one.
pub(crate) fn put_columns<O: Sink>(
    buffer: &mut Buffer,
    sink: &mut O,
    labels: &Labels<'_>,
    line: &mut Line,
    columns: &[Column],
) -> Result<(), Failed>
    requires { IsLine labels.now line.old }
    ensures line { OnOk result (IsLine labels.now line.new) }
    ensures put { Puts (O.state sink.old).taken (O.state sink.new).taken buffer.old buffer.new result (columns_text labels.now columns.now) }
    ensures cause { HasCause (O.state sink.old).faults (O.state sink.new).faults result }
{
    for column in columns {
        let literals = column.cube.literals();
        put_next(buffer, sink, labels, line, column.time, literals)?;
    }
    Ok(())
}
