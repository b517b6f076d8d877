//! Readings: how the leaves of a tree are read as numbers.
ghost use Rattle.std.specs.Prelude.{ℕ, ◌≡◌};
ghost use Rattle.cpg_tree.specs.Later.{time_later};

use crate::optional_time::OptionalTime;

/// A way to read the leaf of a tree as a number.
pub trait Reading<T> {
    // the number that a leaf is read as
    ghost number: { Self → T → ℕ };

    /// Returns the number that a leaf is read as.
    fn number(&self, leaf: T) -> u64
        ensures { result ≡ number self.now leaf };
}

/// Reads a number as it is.
#[derive(Clone, Copy)]
pub struct AsIs;

impl Reading<u64> for AsIs {
    ghost number = { λ _ x. x };

    fn number(&self, leaf: u64) -> u64 {
        leaf
    }
}

/// Reads a time (0 if there is none) put off by a delay.
#[derive(Clone, Copy)]
pub struct Later {
    /// The delay, in time units of the graph file.
    pub delay: u64,
}

impl Reading<OptionalTime> for Later {
    ghost number = { λ r x. time_later r.delay x };

    fn number(&self, leaf: OptionalTime) -> u64 {
        time_later(leaf.get(), self.delay)
    }
}

/// Returns a time (0 if there is none) put off by a delay, or the greatest `u64` if the sum is above it.
pub fn time_later(time: Option<u64>, delay: u64) -> u64
    ensures { result ≡ time_later delay time }
{
    time.unwrap_or(0).saturating_add(delay)
}
