//! Writes what ends a run: its output, or the line that says why it stops, and gives the status.
ghost use Rattle.std.specs.Prelude.{◌≡◌, ◌≢◌, ◌⊎◌, Err, OnOk, string_bytes};
ghost use Rattle.cpg_refusal.specs.Lines.{line_of, status_of, write_fault_line, IsNamed};
ghost use Rattle.cpg_outputs.specs.Said.{IsEnded, IsStopped};
ghost use Rattle.cpg_outputs.specs.Told.{IsWritten, Part, Sent, Whole, sent};

use cpg_codec::WriteFault;
use cpg_io::{Failed, Sink, write_all};
use cpg_refusal::{Halt, line};
use std::alloc::Global;

/// The status of a run in which a sink met a fault.
pub(crate) const WRITE_FAULT: u8 = 3;

/// Writes bytes to a sink. Returns the given status, or `WRITE_FAULT` if the sink meets a fault.
pub(crate) fn send_line<O: Sink>(status: u8, bytes: &[u8], sink: &mut O) -> u8
    requires { status ≢ WRITE_FAULT }
    ensures { Sent (sent (O.state sink.old) (O.state sink.new)) result status bytes.now }
{
    match write_all(sink, bytes) {
        Ok(()) => status,
        Err(Failed) => WRITE_FAULT,
    }
}

/// Tries once to write the line that reports a fault of `out`.
fn tell_fault<E: Sink>(err: &mut E)
    ensures { Whole (sent (E.state err.old) (E.state err.new)) write_fault_line ⊎ Part (sent (E.state err.old) (E.state err.new)) write_fault_line }
{
    // a second fault, that of `err`, doesn't change the status
    let _tried = write_all(err, b"cpgc: write fault\n");
}

/// Writes a text to `out`. The one error is `WriteFault::Failed`, if `out` meets a fault.
pub fn put<O: Sink>(text: &str, out: &mut O) -> Result<(), WriteFault>
    ensures { IsWritten (sent (O.state out.old) (O.state out.new)) result text.now }
{
    match write_all(out, text.as_bytes()) {
        Ok(()) => Ok(()),
        Err(Failed) => Err(WriteFault::Failed),
    }
}

/// Ends a run in which `out` met a fault: tries once to write the line that reports it. Returns the status.
pub(crate) fn end_at_write_fault<E: Sink>(err: &mut E) -> u8
    ensures status { result ≡ WRITE_FAULT }
    ensures told { Whole (sent (E.state err.old) (E.state err.new)) write_fault_line ⊎ Part (sent (E.state err.old) (E.state err.new)) write_fault_line }
{
    tell_fault(err);
    WRITE_FAULT
}

/// Ends a run in which the shelf met a fault: writes the line that reports it. Returns the status.
pub(crate) fn end_at_read_fault<E: Sink>(err: &mut E) -> u8
    ensures { Sent (sent (E.state err.old) (E.state err.new)) result (status_of Halt.Read) (line_of Halt.Read) }
{
    send_line(Halt::Read.status(), b"cpgc: read fault\n", err)
}

/// Ends a run in which memory ran out: writes the line that reports it, which needs none. Returns the status.
fn end_out_of_memory<E: Sink>(err: &mut E) -> u8
    ensures { Sent (sent (E.state err.old) (E.state err.new)) result (status_of Halt.Memory) (line_of Halt.Memory) }
{
    send_line(Halt::Memory.status(), b"cpgc: memory\n", err)
}

/// Ends a run that stops: makes its line and writes it, or the line of out of memory if there is none to make it. Returns
/// the status.
fn end_with_line<E: Sink>(alloc: Global, halt: &Halt, err: &mut E) -> u8
    requires { IsNamed halt.now }
    ensures { Sent (sent (E.state err.old) (E.state err.new)) result (status_of halt.now) (line_of halt.now) ⊎
        Sent (sent (E.state err.old) (E.state err.new)) result (status_of Halt.Memory) (line_of Halt.Memory) }
{
    match line(alloc, halt) {
        Ok(line) => send_line(halt.status(), line.as_bytes(), err),
        Err(_) => end_out_of_memory(err),
    }
}

/// Ends a run that stops: writes its line, or the line of out of memory if there is none to make it. Returns the status.
pub fn stop<E: Sink>(alloc: Global, halt: &Halt, err: &mut E) -> u8
    requires { IsNamed halt.now }
    ensures { IsStopped halt.now (sent (E.state err.old) (E.state err.new)) result }
{
    // these three lines are constant, so that they need no memory
    match halt {
        Halt::Words => send_line(Halt::Words.status(), b"cpgc: words\n", err),
        Halt::Read => end_at_read_fault(err),
        Halt::Memory => end_out_of_memory(err),
        other => end_with_line(alloc, other, err),
    }
}

/// Ends a run that has come to its output, given whether that was written. If not, writes the line that says why. Returns
/// the status.
pub fn end<E: Sink>(written: Result<(), WriteFault>, err: &mut E) -> u8
    ensures { IsEnded written (sent (E.state err.old) (E.state err.new)) result }
{
    match written {
        Ok(()) => 0,
        Err(WriteFault::Failed) => end_at_write_fault(err),
        Err(WriteFault::OutOfMemory) => end_out_of_memory(err),
    }
}
