//! Pseudo-random draws, each from the number after the one before.
ghost use Rattle.std.specs.Prelude.{◌≡◌, ◌<◌};
ghost use Rattle.cpg_base.specs.Draws.{next_number};
ghost use Rattle.cpg_gen.specs.Draws.{draw_of};

use cpg_base::next_number;

/// The draws that follow a number.
#[derive(Drop)]
pub(crate) struct Draws {
    /// The number of the last draw, or the one from which the draws start.
    pub(crate) number: u64,
}

impl Draws {
    /// Returns the next draw, below a bound.
    pub(crate) fn next(&mut self, bound: u64) -> u64
        requires { 0 < bound }
        ensures draw { result ≡ draw_of (next_number self.old.number) bound }
        ensures below { result < bound }
        ensures number { self.new.number ≡ next_number self.old.number }
    {
        self.number = next_number(self.number);
        // the low bits repeat soon, so the draw is by the others
        (self.number >> 33) % bound
    }
}
