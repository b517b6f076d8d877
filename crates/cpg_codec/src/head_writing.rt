//! Writing the head of a pack.
//!
//! Each function that takes a buffer puts bytes into it, which writes them to the sink whenever it is full. It fails
//! only if the sink meets a fault.
ghost use Rattle.std.specs.Prelude.{◌≡◌, ◌<◌, ◌≤◌, ◌++◌, All, length};
ghost use Rattle.std.specs.List.{flat_map};
ghost use Rattle.std.specs.Int.{w16, w64, to_be_bytes};
ghost use Rattle.cpg_io.specs.Causes.{HasCause};
ghost use Rattle.cpg_head.specs.Head.{extra_at};
ghost use Rattle.cpg_codec.specs.Spelling.{byte, bit, name_bytes, deadline_number, extra_bytes, written, process_bytes, edge_bytes, head_bytes};
ghost use Rattle.cpg_codec.specs.Writing.{Puts, IsShortEdge};

use crate::buffer::Buffer;
use crate::row_writing::{put_long, put_short};
use cpg_base::Name;
use cpg_head::{Extra, Head, HeadProcess};
use cpg_io::{Failed, Sink};

/// Puts the letters of a name, after their number.
fn put_text<O: Sink>(buffer: &mut Buffer, sink: &mut O, text: &[u8]) -> Result<(), Failed>
    requires { length text.now ≤ 32 }
    ensures put { Puts (O.state sink.old).taken (O.state sink.new).taken buffer.old buffer.new result (name_bytes text.now) }
    ensures cause { HasCause (O.state sink.old).faults (O.state sink.new).faults result }
{
    // at most 32 letters, so their number fits a byte
    buffer.put(sink, &[text.len() as u8])?;
    buffer.put(sink, text)
}

/// Puts a name.
fn put_name<O: Sink>(buffer: &mut Buffer, sink: &mut O, name: &Name) -> Result<(), Failed>
    ensures put { Puts (O.state sink.old).taken (O.state sink.new).taken buffer.old buffer.new result (name_bytes name.now) }
    ensures cause { HasCause (O.state sink.old).faults (O.state sink.new).faults result }
{
    put_text(buffer, sink, name.as_str().as_bytes())
}

/// Puts names, one after another.
fn put_names<O: Sink>(buffer: &mut Buffer, sink: &mut O, names: &[Name]) -> Result<(), Failed>
    ensures put { Puts (O.state sink.old).taken (O.state sink.new).taken buffer.old buffer.new result (flat_map name_bytes names.now) }
    ensures cause { HasCause (O.state sink.old).faults (O.state sink.new).faults result }
{
    for name in names {
        put_name(buffer, sink, name)?;
    }
    Ok(())
}

/// Puts times, one after another.
fn put_times<O: Sink>(buffer: &mut Buffer, sink: &mut O, times: &[u64]) -> Result<(), Failed>
    ensures put { Puts (O.state sink.old).taken (O.state sink.new).taken buffer.old buffer.new result (flat_map (to_be_bytes w64) times.now) }
    ensures cause { HasCause (O.state sink.old).faults (O.state sink.new).faults result }
{
    for time in times {
        put_long(buffer, sink, *time)?;
    }
    Ok(())
}

/// Returns the number that is written for an own deadline; without one the greatest, eight bytes ff.
fn deadline_number(deadline: Option<u64>) -> u64
    ensures { result ≡ deadline_number deadline }
{
    match deadline {
        Some(deadline) => deadline,
        None => u64::MAX,
    }
}

/// Puts what version 2 adds to a process: its release and its own deadline. For `None` it puts nothing.
fn put_extra<O: Sink>(buffer: &mut Buffer, sink: &mut O, extra: Option<Extra>) -> Result<(), Failed>
    ensures put { Puts (O.state sink.old).taken (O.state sink.new).taken buffer.old buffer.new result (extra_bytes extra) }
    ensures cause { HasCause (O.state sink.old).faults (O.state sink.new).faults result }
{
    let Some(extra) = extra else {
        return Ok(());
    };
    put_long(buffer, sink, extra.release)?;
    put_long(buffer, sink, deadline_number(extra.deadline))
}

/// Returns 1 if a process has a condition, and 0 if not.
fn bit_of(condition: bool) -> u8
    ensures { result ≡ bit condition }
{
    if condition { 1 } else { 0 }
}

/// Puts how long the executions of a process take, and what version 2 adds to it.
fn put_timing<O: Sink>(
    buffer: &mut Buffer,
    sink: &mut O,
    times: &[u64],
    extra: Option<Extra>,
) -> Result<(), Failed>
    ensures put { Puts (O.state sink.old).taken (O.state sink.new).taken buffer.old buffer.new result (flat_map (to_be_bytes w64)
        times.now ++ extra_bytes extra) }
    ensures cause { HasCause (O.state sink.old).faults (O.state sink.new).faults result }
{
    put_times(buffer, sink, times)?;
    put_extra(buffer, sink, extra)
}

/// Puts a process, with what version 2 adds to it.
fn put_process<O: Sink>(
    buffer: &mut Buffer,
    sink: &mut O,
    process: &HeadProcess,
    extra: Option<Extra>,
) -> Result<(), Failed>
    requires { process.now.node < 256 }
    ensures put { Puts (O.state sink.old).taken (O.state sink.new).taken buffer.old buffer.new result (process_bytes (record {
      process = process.now;
      extra = extra;
    })) }
    ensures cause { HasCause (O.state sink.old).faults (O.state sink.new).faults result }
{
    put_name(buffer, sink, &process.name)?;
    // a node's number fits a byte
    buffer.put(sink, &[process.node as u8, bit_of(process.condition)])?;
    put_timing(buffer, sink, process.times.times(), extra)
}

/// Returns what version 2 adds to a process; `None` if the head is of version 1.
fn extra_of(head: &Head, process: u32) -> Option<Extra>
    requires { process < length head.now.processes }
    ensures { result ≡ extra_at head.now process }
{
    match head.extra(process) {
        Some(extra) => Some(*extra),
        None => None,
    }
}

/// Puts the processes of a head, one after another.
fn put_processes<O: Sink>(buffer: &mut Buffer, sink: &mut O, head: &Head) -> Result<(), Failed>
    ensures put { Puts (O.state sink.old).taken (O.state sink.new).taken buffer.old buffer.new result (flat_map process_bytes (written head.now)) }
    ensures cause { HasCause (O.state sink.old).faults (O.state sink.new).faults result }
{
    let processes = head.processes();
    // at most 128 processes, so their number fits a `u32`
    let count = processes.len() as u32;
    for number in 0..count {
        let extra = extra_of(head, number);
        put_process(buffer, sink, &processes[number as usize], extra)?;
    }
    Ok(())
}

/// Puts edges, one after another.
fn put_edges<O: Sink>(buffer: &mut Buffer, sink: &mut O, edges: &[(u32, u32)]) -> Result<(), Failed>
    requires { All IsShortEdge edges.now }
    ensures put { Puts (O.state sink.old).taken (O.state sink.new).taken buffer.old buffer.new result (flat_map edge_bytes edges.now) }
    ensures cause { HasCause (O.state sink.old).faults (O.state sink.new).faults result }
{
    for (from, to) in edges {
        // both are numbers of processes, so they fit a byte
        buffer.put(sink, &[*from as u8, *to as u8])?;
    }
    Ok(())
}

/// Puts how many edges there are, and these.
fn put_counted_edges<O: Sink>(
    buffer: &mut Buffer,
    sink: &mut O,
    edges: &[(u32, u32)],
) -> Result<(), Failed>
    requires few { length edges.now ≤ 256 }
    requires short { All IsShortEdge edges.now }
    ensures put { Puts (O.state sink.old).taken (O.state sink.new).taken buffer.old buffer.new result (to_be_bytes w16 (length edges.now)
        ++ flat_map edge_bytes edges.now) }
    ensures cause { HasCause (O.state sink.old).faults (O.state sink.new).faults result }
{
    // at most 256 edges, so their number fits two bytes
    put_short(buffer, sink, edges.len() as u16)?;
    put_edges(buffer, sink, edges)
}

/// Puts the processes and the edges of a head, each list after its length.
fn put_graph<O: Sink>(buffer: &mut Buffer, sink: &mut O, head: &Head) -> Result<(), Failed>
    ensures put { Puts (O.state sink.old).taken (O.state sink.new).taken buffer.old buffer.new result (byte (length head.now.processes) ++
        (flat_map process_bytes (written head.now) ++ (to_be_bytes w16 (length head.now.edges) ++ flat_map edge_bytes head.now.edges))) }
    ensures cause { HasCause (O.state sink.old).faults (O.state sink.new).faults result }
{
    // at most 128 processes, so their number fits a byte
    buffer.put(sink, &[head.processes().len() as u8])?;
    put_processes(buffer, sink, head)?;
    put_counted_edges(buffer, sink, head.edges())
}

/// Puts a head.
pub fn put_head<O: Sink>(buffer: &mut Buffer, sink: &mut O, head: &Head) -> Result<(), Failed>
    ensures put { Puts (O.state sink.old).taken (O.state sink.new).taken buffer.old buffer.new result (head_bytes head.now) }
    ensures cause { HasCause (O.state sink.old).faults (O.state sink.new).faults result }
{
    let nodes = head.nodes();
    // at most 16 nodes, so their number fits a byte
    let count = nodes.len() as u8;
    buffer.put(
        sink,
        &[b'C', b'P', b'G', b'T', head.version(), head.faults(), count],
    )?;
    put_names(buffer, sink, nodes)?;
    put_graph(buffer, sink, head)
}
