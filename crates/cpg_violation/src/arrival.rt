//! Whether a frame or an execution is over by a time.
ghost use Rattle.std.specs.Prelude.{◌≡◌, ◌+◌, ◌≤◌, nat_le};
ghost use Rattle.std.specs.Bool.{OnTrue};

/// Whether what begins at `start` and takes `delay`, as a frame or an execution does, is over by `time`. The sum of the
/// first two may be too great for 64 bits.
pub fn has_come(start: u64, delay: u64, time: u64) -> bool
    ensures is { result ≡ nat_le (start + delay) time }
    ensures come { OnTrue result (start + delay ≤ time) }
{
    // it begins later, and there is no difference to take
    if start > time {
        return false;
    }
    delay <= time - start
}
