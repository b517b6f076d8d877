//! A sink in memory, with which runs are tested.
ghost use Rattle.std.specs.Prelude.{◌≡◌, ◌-◌, ◌<◌, ◌≤◌, ◌↔◌, [], min, IfOk, IsErr, MatchResult, length};
ghost use Rattle.cpg_io.specs.Causes.{HasCause, counted};
ghost use Rattle.cpg_io.specs.MemorySink.{sink_of};
ghost use Rattle.cpg_io.specs.Sink.{WriteTook};

use crate::{Failed, Sink};
use cpg_base::OutOfMemory;
use std::alloc::Global;
use std::marker::Model;

/// A sink that takes up to `room` bytes altogether and keeps them.
#[derive(Drop)]
pub struct MemorySink {
    // what it took; all of the room is reserved
    bytes: Vec<u8>,
    // how many bytes it takes altogether
    room: usize,
    // how many writes have failed; the count stops at its greatest number
    faults: u64,
}

impl Model for MemorySink {
    ghost use Rattle.std.specs.Prelude.{◌≤◌, vec_len, vec_capacity};
    ghost use Rattle.cpg_io.specs.MemorySink.{MemorySinkState};

    ghost Value = { MemorySinkState };

    ghost view = { λ s. record { taken = s.bytes.items; room = s.room; faults = s.faults } };

    ghost invariant = { λ s. (vec_len s.bytes ≤ s.room) × (s.room ≤ vec_capacity s.bytes) };
}

impl MemorySink {
    /// Returns an empty sink with room for `room` bytes, all of which it reserves.
    pub fn new(alloc: Global, room: usize) -> Result<MemorySink, OutOfMemory>
        ensures { IfOk result (λ s. s ≡ record { taken = []; room = room; faults = 0 }) }
    {
        let bytes = Vec::with_capacity(alloc, room)?;
        Ok(MemorySink {
            bytes,
            room,
            faults: 0,
        })
    }

    /// Returns the bytes taken so far.
    pub fn taken(&self) -> &[u8]
        ensures { result.now ≡ self.now.taken }
    {
        self.bytes.as_slice()
    }
}

impl Sink for MemorySink {
    ghost state = { sink_of };

    /// Takes as many bytes as there is room for. `Failed` exactly if no room is left.
    fn write(&mut self, piece: &[u8]) -> Result<usize, Failed>
        requires { 0 < length piece.now }
        ensures some { IfOk result (λ n. 0 < n) }
        ensures bound { IfOk result (λ n. n ≤ length piece.now) }
        ensures bytes { WriteTook self.old.taken self.new.taken result piece.now }
        ensures cause { HasCause self.old.faults self.new.faults result }
        ensures full { IsErr result ↔ (length self.old.taken ≡ self.old.room) }
        ensures fits { IfOk result (λ n. n ≡ min (self.old.room - length self.old.taken) (length piece.now)) }
        ensures room { self.new.room ≡ self.old.room }
        ensures faults { MatchResult result (λ _. self.new.faults ≡ self.old.faults) (λ _. self.new.faults ≡ counted self.old.faults 1) }
    {
        // the room is reserved, so extending within it takes no memory and doesn't fail
        let free = self.room - self.bytes.len();
        let count = free.min(piece.len());
        if count == 0 || self.bytes.extend_from_slice(&piece[..count]).is_err() {
            self.faults = self.faults.saturating_add(1);
            return Err(Failed);
        }
        Ok(count)
    }
}
