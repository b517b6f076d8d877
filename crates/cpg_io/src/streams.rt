//! A sink over a writer of std.
ghost use Rattle.std.specs.Prelude.{◌≡◌, ◌<◌, ◌≤◌, [], IfOk, MatchResult, length, take};
ghost use Rattle.std.specs.Io.KnownBytes.{Appends};
ghost use Rattle.cpg_io.specs.Adapters.{sink_of};
ghost use Rattle.cpg_io.specs.Causes.{HasCause, counted};
ghost use Rattle.cpg_io.specs.Sink.{WriteTook};

use crate::{Failed, Sink};
use cpg_history::Taken;
use std::io::Write;
use std::marker::Model;

/// A sink over a writer of std, which it flushes after each write. It reports the bytes that a write took and the flush after
/// it acknowledged. If a write or its flush fails, the writer may still have taken some of that piece; the sink doesn't report
/// those bytes.
#[derive(Drop)]
pub struct StreamSink<W: Write> {
    // where the bytes go
    writer: W,
    // the bytes that it reports, for proofs alone
    taken: Taken,
    // how many writes have failed; the count stops at its greatest number
    faults: u64,
}

impl<W: Write> Model for StreamSink<W> {
    ghost use Rattle.cpg_io.specs.Adapters.{StreamSinkState};

    ghost Value = { StreamSinkState };

    ghost view = { λ s. record { contents = W.contents s.writer; taken = s.taken; faults = s.faults } };
}

impl<W: Write> StreamSink<W> {
    /// Returns a sink over the writer, which has taken nothing and met no fault so far.
    pub fn new(writer: W) -> StreamSink<W>
        ensures { result ≡ record { contents = W.contents writer; taken = []; faults = 0 } }
    {
        StreamSink {
            writer,
            taken: Taken::new(),
            faults: 0,
        }
    }
}

impl<W: Write> Sink for StreamSink<W> {
    ghost state = { sink_of };

    /// Writes and flushes once. An error of either, or a write of nothing, is a fault.
    fn write(&mut self, piece: &[u8]) -> Result<usize, Failed>
        requires { 0 < length piece.now }
        ensures some { IfOk result (λ n. 0 < n) }
        ensures bound { IfOk result (λ n. n ≤ length piece.now) }
        ensures bytes { WriteTook self.old.taken self.new.taken result piece.now }
        ensures passed { IfOk result (λ n. Appends self.old.contents self.new.contents (take n piece.now)) }
        ensures cause { HasCause self.old.faults self.new.faults result }
        ensures faults { MatchResult result (λ _. self.new.faults ≡ self.old.faults) (λ _. self.new.faults ≡ counted self.old.faults 1) }
    {
        // an error counts like a write of nothing, which would never come to the end of a piece
        let count = self.writer.write(piece).unwrap_or(0);
        if count == 0 || self.writer.flush().is_err() {
            self.faults = self.faults.saturating_add(1);
            return Err(Failed);
        }
        self.taken = self.taken.then(&piece[..count]);
        Ok(count)
    }
}
