//! Where bytes go.
ghost use Rattle.std.specs.Prelude.{◌<◌, ◌≤◌, length, IfOk};
ghost use Rattle.cpg_io.specs.Causes.{HasCause};
ghost use Rattle.cpg_io.specs.Sink.{WriteTook};
ghost use Rattle.cpg_io.specs.State.{SinkState};

use crate::Failed;

/// Takes bytes, and counts its faults in 64 bits; the count stops at its greatest number.
pub trait Sink {
    /// What the sink reports: the bytes that it took, and the count of faults.
    ghost state: { Self → SinkState };

    /// Takes at least one byte from the front of `piece`. Returns how many.
    ///
    /// `Failed` only if the count of faults rose, or has come to its greatest number. Nothing is taken then.
    fn write(&mut self, piece: &[u8]) -> Result<usize, Failed>
        requires { 0 < length piece.now }
        ensures some { IfOk result (λ n. 0 < n) }
        ensures bound { IfOk result (λ n. n ≤ length piece.now) }
        ensures bytes { WriteTook (state self.old).taken (state self.new).taken result piece.now }
        ensures cause { HasCause (state self.old).faults (state self.new).faults result };
}
