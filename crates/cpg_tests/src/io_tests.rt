//! The shelf of files over a real file, and the sink over a writer that fails.

ghost use Rattle.cpg_io.specs.Shelf.{SameAccess};

use cpg_io::{Failed, FileShelf, ReadAll, Shelf, Sink, StreamSink, read_all, write_all};
use std::alloc::Global;
use std::io::{ErrorKind, Write};
use std::{fs, io};

/// Whether the file under a name is read whole, with at most `limit` bytes, and has the bytes `want`.
fn reads<S: Shelf>(alloc: Global, shelf: &mut S, name: &str, limit: usize, want: &[u8]) -> bool
    requires { S.may_fetch shelf.old name.now }
    ensures { SameAccess (S.may_fetch shelf.old) (S.may_fetch shelf.new) }
{
    match read_all(alloc, shelf, name, limit) {
        Ok(bytes) => bytes.as_slice() == want,
        Err(_) => false,
    }
}

/// Whether the file under a name isn't read with at most `limit` bytes, for the reason `want`.
fn is_fault<S: Shelf>(alloc: Global, shelf: &mut S, name: &str, limit: usize, want: ReadAll) -> bool
    requires { S.may_fetch shelf.old name.now }
    ensures { SameAccess (S.may_fetch shelf.old) (S.may_fetch shelf.new) }
{
    match read_all(alloc, shelf, name, limit) {
        Ok(_) => false,
        Err(fault) => fault == want,
    }
}

/// Whether the shelf has nothing left to read.
fn is_at_end<S: Shelf>(shelf: &mut S) -> bool
    ensures { SameAccess (S.may_fetch shelf.old) (S.may_fetch shelf.new) }
{
    shelf.read(&mut [0; 1]) == Ok(0)
}

/// A writer that keeps what it takes.
#[derive(Drop)]
struct Stream {
    /// What it has taken.
    bytes: Vec<u8>,
    /// How many bytes it takes in one write, at most.
    room: usize,
    /// At how many bytes a write fails.
    end: usize,
    /// How often it was flushed.
    flushes: usize,
    /// Whether a flush succeeds.
    can_flush: bool,
}

impl Write for Stream {
    fn write(&mut self, buf: &[u8]) -> io::Result<usize> {
        if self.bytes.len() >= self.end {
            return Err(io::Error::from(ErrorKind::StorageFull));
        }
        let count = buf.len().min(self.room);
        self.bytes.extend_from_slice(&buf[..count])?;
        Ok(count)
    }

    fn flush(&mut self) -> io::Result<()> {
        if !self.can_flush {
            return Err(io::Error::from(ErrorKind::StorageFull));
        }
        self.flushes = self.flushes.saturating_add(1);
        Ok(())
    }
}

/// Returns an empty stream that takes at most four bytes a write, and none once it has `end`. `can_flush` is whether a flush
/// succeeds.
fn empty_stream(alloc: Global, end: usize, can_flush: bool) -> Stream {
    Stream {
        bytes: Vec::new(alloc),
        room: 4,
        end,
        flushes: 0,
        can_flush,
    }
}

/// Whether the sink over a stream takes a first piece whole and fails in a second.
fn writes_both(stream: &mut Stream) -> bool {
    let mut sink = StreamSink::new(stream);
    write_all(&mut sink, b"order A\n") == Ok(()) && write_all(&mut sink, b"worst") == Err(Failed)
}

/// Whether a stream has these bytes, and was flushed so often.
fn has_taken(stream: &Stream, bytes: &[u8], flushes: usize) -> bool {
    stream.bytes.as_slice() == bytes && stream.flushes == flushes
}

/// Whether the sink writes 8 bytes in two writes, and 4 of 5 more in a third, with a flush after each write. The fourth
/// write fails, since the stream is past its end of 10 bytes.
fn writes_and_flushes(alloc: Global) -> bool {
    let mut stream = empty_stream(alloc, 10, true);
    writes_both(&mut stream) && has_taken(&stream, b"order A\nwors", 3)
}

#[test]
fn writes_and_flushes_a_stream(rt: HostRuntime) {
    assert!(rt; writes_and_flushes(rt.alloc()));
}

/// Whether a write fails if the stream can't be flushed.
fn fails_without_a_flush(alloc: Global) -> bool {
    let mut stream = empty_stream(alloc, 10, false);
    StreamSink::new(&mut stream).write(b"t") == Err(Failed)
}

#[test]
fn fails_where_a_flush_does(rt: HostRuntime) {
    assert!(rt; fails_without_a_flush(rt.alloc()));
}

/// Whether a file with 200,000 bytes, which come in more than one piece, is read at this limit and is too long for one
/// less. Before it is fetched, nothing is there to read.
fn is_file<S: Shelf>(alloc: Global, shelf: &mut S, path: &str, bytes: &[u8]) -> bool
    requires { S.may_fetch shelf.old path.now }
{
    is_at_end(shelf)
        && reads(alloc, shelf, path, 200_000, bytes)
        && is_fault(alloc, shelf, path, 199_999, ReadAll::TooLong)
}

/// Whether reading a path with no file fails, after which nothing is left to read, and reading a folder fails too.
fn are_faults<S: Shelf>(alloc: Global, shelf: &mut S, path: &str, folder: &str) -> bool
    requires path { S.may_fetch shelf.old path.now }
    requires folder { S.may_fetch shelf.old folder.now }
{
    is_fault(alloc, shelf, path, 10, ReadAll::Failed)
        && is_at_end(shelf)
        && is_fault(alloc, shelf, folder, 10, ReadAll::Failed)
}

/// Whether a file is read before it is removed, and reading it fails after.
fn is_read_and_missed(rt: &HostRuntime, path: &str, bytes: &[u8]) -> bool {
    let mut shelf = FileShelf::new(rt);
    is_file(rt.alloc(), &mut shelf, path, bytes)
        && fs::remove_file(rt, path).is_ok()
        && are_faults(rt.alloc(), &mut shelf, path, "/")
}

/// Writes a file with so many bytes, and returns whether it is then read, and fails once removed.
fn is_written_and_read(rt: &HostRuntime, path: &str, count: usize) -> bool {
    match vec![in rt.alloc(); 7u8; count] {
        Ok(bytes) => {
            fs::write(rt, path, bytes.as_slice()).is_ok()
                && is_read_and_missed(rt, path, bytes.as_slice())
        }
        Err(_) => false,
    }
}

#[test]
fn reads_a_file(rt: HostRuntime) {
    assert!(rt; is_written_and_read(&rt, "cpg_tests_reads_a_file.tmp", 200_000));
}
