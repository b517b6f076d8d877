//! Literals: a range of one variable each.
ghost use Rattle.std.specs.Prelude.{◌≡◌, ◌==◌, ◌<◌, ◌≤◌, ◌+◌, ◌↔◌, ◌⊎◌, IsTrue};
ghost use Rattle.std.specs.List.{list_all};
ghost use Rattle.cpg_cube.specs.Cube.{holds};
ghost use Rattle.cpg_cube.specs.Fit.{asked_of_literal, is_open};
ghost use Rattle.cpg_cube.specs.Narrow.{meet_literal};

use cpg_base::{FIRST_VALUE, Scenario, top};

/// A variable with the range that its number is in, ends included. The order is by variable, then low, then high.
#[derive(Clone, Copy, Debug, Default, PartialEq, Eq, PartialOrd, Ord, Hash)]
pub struct Literal {
    /// The number of a process for its fault count, or 128 and the number of a condition for its value.
    pub variable: u8,
    /// The least number that is in range.
    pub low: u8,
    /// The greatest number that is in range.
    pub high: u8,
}

/// How many literals `begin_at_zero` looks at together.
pub const BLOCK: usize = 4;

/// Whether the ranges of all literals begin at 0, as most do. It never stops early, so that it compiles to one test.
pub fn begin_at_zero(literals: &[Literal; BLOCK]) -> bool
    ensures { result ≡ list_all (λ l. l.low == 0) literals.now }
{
    let [a, b, c, d] = *literals;
    (a.low == 0) & (b.low == 0) & (c.low == 0) & (d.low == 0)
}

impl Literal {
    /// Whether the literal holds in a scenario: the number of its variable is in its range.
    pub(crate) fn holds(&self, scenario: &Scenario) -> bool
        ensures { result ≡ holds scenario.now self.now }
    {
        let number = scenario.number(self.variable);
        self.low <= number && number <= self.high
    }

    /// Whether the literal's variable is one of a graph with `processes` processes and `conditions` conditions.
    pub(crate) fn is_known(&self, processes: usize, conditions: u32) -> bool
        ensures { IsTrue result ↔ (self.now.variable < processes) ⊎ ((128 ≤ self.now.variable) × (self.now.variable < 128 + conditions)) }
    {
        if (self.variable as usize) < processes {
            return true;
        }
        self.variable >= FIRST_VALUE && u32::from(self.variable - FIRST_VALUE) < conditions
    }

    /// Whether the range has a number that the variable can be in scenarios of at most `k` faults.
    pub(crate) fn is_open(&self, k: u8) -> bool
        ensures { result ≡ is_open k self.now }
    {
        self.low <= self.high && self.low <= top(k, self.variable)
    }

    /// Returns how many faults a scenario needs for the literal to hold: the low for a fault count, and none for a value.
    pub(crate) fn asked(&self) -> u8
        ensures { result ≡ asked_of_literal self.now }
    {
        if self.variable < FIRST_VALUE {
            self.low
        } else {
            0
        }
    }

    /// Returns what this range and that of another literal on the same variable have in common. If that is nothing, the low
    /// is above the high.
    pub fn met(&self, other: Literal) -> Literal
        ensures { result ≡ meet_literal self.now other }
    {
        Literal {
            variable: other.variable,
            low: self.low.max(other.low),
            high: self.high.min(other.high),
        }
    }
}
