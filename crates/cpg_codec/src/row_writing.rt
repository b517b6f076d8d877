//! Writing columns, and numbers of two and eight bytes.
//!
//! Each function puts bytes into the buffer, which writes them to the sink whenever it is full. It fails only if the
//! sink meets a fault.
ghost use Rattle.std.specs.Prelude.{◌≤◌, ◌++◌, length};
ghost use Rattle.std.specs.List.{flat_map};
ghost use Rattle.std.specs.Int.{w16, w64, to_be_bytes};
ghost use Rattle.cpg_io.specs.Causes.{HasCause};
ghost use Rattle.cpg_codec.specs.Spelling.{byte, literal_bytes};
ghost use Rattle.cpg_codec.specs.Writing.{Puts};

use crate::buffer::Buffer;
use cpg_cube::Literal;
use cpg_io::{Failed, Sink};

/// Puts a number of eight bytes, the highest first.
pub fn put_long<O: Sink>(buffer: &mut Buffer, sink: &mut O, number: u64) -> Result<(), Failed>
    ensures put { Puts (O.state sink.old).taken (O.state sink.new).taken buffer.old buffer.new result (to_be_bytes w64 number) }
    ensures cause { HasCause (O.state sink.old).faults (O.state sink.new).faults result }
{
    buffer.put(sink, &number.to_be_bytes())
}

/// Puts a number of two bytes, the highest first.
pub fn put_short<O: Sink>(buffer: &mut Buffer, sink: &mut O, number: u16) -> Result<(), Failed>
    ensures put { Puts (O.state sink.old).taken (O.state sink.new).taken buffer.old buffer.new result (to_be_bytes w16 number) }
    ensures cause { HasCause (O.state sink.old).faults (O.state sink.new).faults result }
{
    buffer.put(sink, &number.to_be_bytes())
}

/// Puts literals, one after another.
fn put_each<O: Sink>(buffer: &mut Buffer, sink: &mut O, literals: &[Literal]) -> Result<(), Failed>
    ensures put { Puts (O.state sink.old).taken (O.state sink.new).taken buffer.old buffer.new result (flat_map literal_bytes literals.now) }
    ensures cause { HasCause (O.state sink.old).faults (O.state sink.new).faults result }
{
    for literal in literals {
        buffer.put(sink, &[literal.variable, literal.low, literal.high])?;
    }
    Ok(())
}

/// Puts how many literals a column has, and these.
fn put_counted<O: Sink>(
    buffer: &mut Buffer,
    sink: &mut O,
    literals: &[Literal],
) -> Result<(), Failed>
    requires { length literals.now ≤ 255 }
    ensures put { Puts (O.state sink.old).taken (O.state sink.new).taken buffer.old buffer.new result (byte (length literals.now)
        ++ flat_map literal_bytes literals.now) }
    ensures cause { HasCause (O.state sink.old).faults (O.state sink.new).faults result }
{
    // at most 255 literals, so their number fits a byte
    buffer.put(sink, &[literals.len() as u8])?;
    put_each(buffer, sink, literals)
}

/// Puts a column of this time and these literals, part by part.
fn put_parts<O: Sink>(
    buffer: &mut Buffer,
    sink: &mut O,
    time: u64,
    literals: &[Literal],
) -> Result<(), Failed>
    requires { length literals.now ≤ 255 }
    ensures put { Puts (O.state sink.old).taken (O.state sink.new).taken buffer.old buffer.new result (to_be_bytes w64 time
        ++ byte (length literals.now) ++ flat_map literal_bytes literals.now) }
    ensures cause { HasCause (O.state sink.old).faults (O.state sink.new).faults result }
{
    put_long(buffer, sink, time)?;
    put_counted(buffer, sink, literals)
}

/// Puts a column of this time and these literals: at once if the buffer has room for it, which it usually has, and part
/// by part otherwise.
pub fn put_column<O: Sink>(
    buffer: &mut Buffer,
    sink: &mut O,
    time: u64,
    literals: &[Literal],
) -> Result<(), Failed>
    requires { length literals.now ≤ 255 }
    ensures put { Puts (O.state sink.old).taken (O.state sink.new).taken buffer.old buffer.new result (to_be_bytes w64 time
        ++ byte (length literals.now) ++ flat_map literal_bytes literals.now) }
    ensures cause { HasCause (O.state sink.old).faults (O.state sink.new).faults result }
{
    // eight bytes of the time, one of the count, and three for each literal
    if 9 + 3 * literals.len() <= buffer.room() {
        buffer.hold_column(time, literals);
        return Ok(());
    }
    put_parts(buffer, sink, time, literals)
}
