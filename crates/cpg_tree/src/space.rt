//! Spaces: the scenarios that come to a place of a tree.
ghost use Rattle.std.specs.Prelude.{◌≡◌, ◌≤◌, ◌<◌, ◌+◌, ◌||◌, IfNone, IfSome, false, nat_le, nat_lt, true, get_or};
ghost use Rattle.std.specs.Bool.{OnFalse, OnTrue};
ghost use Rattle.cpg_cube.specs.Cube.{IsRising, holds, matches};
ghost use Rattle.cpg_base.specs.Scenario.{Scenario, number_of};
ghost use Rattle.cpg_tree.specs.Space.{IsInSpace, IsWhole, HasAtMostFaults, is_open_below, is_open_above, below_cut, above_cut, reopened_below, faults_of};

use cpg_base::FIRST_VALUE;
use cpg_cube::{Literal, VARIABLES};

/// Returns how many faults it takes to raise a variable by `count`: as many for a fault count, and none for a value.
fn faults_of(variable: u8, count: u8) -> u8
    ensures { result ≡ faults_of variable count }
{
    if variable < FIRST_VALUE { count } else { 0 }
}

/// The scenarios whose numbers are in a range for each variable, and whose faults beyond the lows are at most those left.
#[derive(Clone, Copy)]
pub struct Space {
    /// The least number of each variable.
    pub low: [u8; VARIABLES],
    /// The greatest number of each variable, though the faults left may not suffice for it.
    pub high: [u8; VARIABLES],
    /// How many faults there may be beyond the lows.
    left: u8,
}

/// What the low of a variable and the faults left were before the low was raised.
#[derive(Clone, Copy)]
pub struct Lifted {
    /// The low.
    low: u8,
    /// The faults left.
    left: u8,
}

impl Space {
    /// Returns the space of all scenarios of at most `k` faults.
    pub fn whole(k: u8) -> Space
        ensures is { IsWhole k result }
        ensures lies { (s : Scenario) → HasAtMostFaults k s → IsInSpace result s }
    {
        // a value is at most 1, and a fault count at most `k`
        let mut high = [1; VARIABLES];
        for variable in 0..FIRST_VALUE {
            high[variable as usize] = k;
        }
        Space {
            low: [0; VARIABLES],
            high,
            left: k,
        }
    }

    /// Whether the variable can be at most the cut: if not, all scenarios of the space are above it.
    pub fn is_open_below(&self, variable: u8, cut: u8) -> bool
        ensures is { result ≡ is_open_below self.now variable cut }
        ensures none { OnFalse result ((s : Scenario) → IsInSpace self.now s → cut < number_of s variable) }
    {
        self.low[variable as usize] <= cut
    }

    /// Whether the faults left allow a number of the variable above the cut.
    fn allows_above(&self, variable: u8, cut: u8) -> bool
        ensures { result ≡ (nat_le 128 variable || nat_lt cut (get_or self.now.low variable 0 + self.now.left)) }
    {
        // a value takes no faults
        if variable >= FIRST_VALUE {
            return true;
        }
        u16::from(cut) < u16::from(self.low[variable as usize]) + u16::from(self.left)
    }

    /// Whether the variable can be above the cut, by its range and the faults left: if not, no scenario of the space is.
    pub fn is_open_above(&self, variable: u8, cut: u8) -> bool
        ensures is { result ≡ is_open_above self.now variable cut }
        ensures none { OnFalse result ((s : Scenario) → IsInSpace self.now s → number_of s variable ≤ cut) }
    {
        cut < self.high[variable as usize] && self.allows_above(variable, cut)
    }

    /// Returns the greatest number that a variable can have, by its range and the faults left.
    pub fn most(&self, variable: u8) -> u8
        ensures { (s : Scenario) → IsInSpace self.now s → number_of s variable ≤ result }
    {
        let high = self.high[variable as usize];
        let low = self.low[variable as usize];
        // a value takes no faults, so its high is reached
        if variable >= FIRST_VALUE {
            return high;
        }
        // the range has one number, or none
        if high <= low {
            return high;
        }
        // the faults left reach the high
        if high - low <= self.left {
            return high;
        }
        // below the high, so it fits a byte
        low + self.left
    }

    /// Returns the least number that a variable can have.
    pub fn least(&self, variable: u8) -> u8
        ensures { (s : Scenario) → IsInSpace self.now s → result ≤ number_of s variable }
    {
        self.low[variable as usize]
    }

    /// The high of a variable, for `reopen_above`.
    pub fn highest(&self, variable: u8) -> u8
        ensures { below_cut self.now variable result ≡ self.now }
    {
        self.high[variable as usize]
    }

    /// The low of a variable and the faults left, for `reopen_below`.
    pub fn lowest(&self, variable: u8) -> Lifted
        ensures { reopened_below self.now variable result ≡ self.now }
    {
        Lifted {
            low: self.low[variable as usize],
            left: self.left,
        }
    }

    /// Makes the cut the high of a variable, and returns the high from before, which `reopen_above` puts back.
    pub fn close_above(&mut self, variable: u8, cut: u8) -> u8
        ensures is { self.new ≡ below_cut self.old variable cut }
        ensures back { below_cut self.new variable result ≡ self.old }
        ensures lies { (s : Scenario) → IsInSpace self.old s → number_of s variable ≤ cut → IsInSpace self.new s }
    {
        let high = self.highest(variable);
        self.high[variable as usize] = cut;
        high
    }

    /// Puts back the high of a variable that `close_above` returned.
    pub fn reopen_above(&mut self, variable: u8, high: u8)
        ensures { self.new ≡ below_cut self.old variable high }
    {
        self.high[variable as usize] = high;
    }

    /// Makes `cut + 1` the low of a variable and takes the faults for it from those left. It returns what was before, which
    /// `reopen_below` puts back.
    pub fn close_below(&mut self, variable: u8, cut: u8) -> Lifted
        requires below { is_open_below self.old variable cut ≡ true }
        requires above { is_open_above self.old variable cut ≡ true }
        ensures is { self.new ≡ above_cut self.old variable cut }
        ensures back { reopened_below self.new variable result ≡ self.old }
        ensures lies { (s : Scenario) → IsInSpace self.old s → cut < number_of s variable → IsInSpace self.new s }
    {
        let was = self.lowest(variable);
        self.raise(variable, cut);
        was
    }

    /// Puts back the low of a variable and the faults left that `close_below` returned.
    pub fn reopen_below(&mut self, variable: u8, was: Lifted)
        ensures { self.new ≡ reopened_below self.old variable was }
    {
        self.low[variable as usize] = was.low;
        self.left = was.left;
    }

    /// Narrows the space to the scenarios in which a variable is at least `low`. It returns false only if there are none, and
    /// then leaves the space as it is.
    fn lift(&mut self, variable: u8, low: u8) -> bool
        ensures lies { OnTrue result ((s : Scenario) → IsInSpace self.old s → low ≤ number_of s variable → IsInSpace self.new s) }
        ensures none { OnFalse result ((s : Scenario) → IsInSpace self.old s → number_of s variable < low) }
    {
        // each number is at least 0
        if low == 0 {
            return true;
        }
        let cut = low - 1;
        // no number from `low` on is left
        if !self.is_open_above(variable, cut) {
            return false;
        }
        // all numbers left are from `low` on
        if !self.is_open_below(variable, cut) {
            return true;
        }
        self.raise(variable, cut);
        true
    }

    /// Narrows the space to the scenarios in which a variable is at most `high`. It returns false only if there are none, and
    /// then leaves the space as it is.
    fn lower(&mut self, variable: u8, high: u8) -> bool
        ensures lies { OnTrue result ((s : Scenario) → IsInSpace self.old s → number_of s variable ≤ high → IsInSpace self.new s) }
        ensures none { OnFalse result ((s : Scenario) → IsInSpace self.old s → high < number_of s variable) }
    {
        // no number up to `high` is left
        if !self.is_open_below(variable, high) {
            return false;
        }
        // all numbers left are up to `high`
        if self.high[variable as usize] <= high {
            return true;
        }
        self.high[variable as usize] = high;
        true
    }

    /// Narrows the space to the scenarios in which a literal holds. It returns false only if there are none, and then the
    /// space may be half narrowed.
    fn narrow(&mut self, literal: Literal) -> bool
        ensures lies { OnTrue result ((s : Scenario) → IsInSpace self.old s → holds s literal ≡ true → IsInSpace self.new s) }
        ensures none { OnFalse result ((s : Scenario) → IsInSpace self.old s → holds s literal ≡ false) }
    {
        if !self.lift(literal.variable, literal.low) {
            return false;
        }
        self.lower(literal.variable, literal.high)
    }

    /// Makes `cut + 1` the low of a variable, and takes the faults for it from those left.
    fn raise(&mut self, variable: u8, cut: u8)
        requires below { is_open_below self.old variable cut ≡ true }
        requires above { is_open_above self.old variable cut ≡ true }
        ensures is { self.new ≡ above_cut self.old variable cut }
        ensures lies { (s : Scenario) → IsInSpace self.old s → cut < number_of s variable → IsInSpace self.new s }
    {
        // read for the proof: the high is a byte and above the cut, so `cut + 1` fits a byte too
        let _high = self.high[variable as usize];
        let low = cut + 1;
        self.left -= faults_of(variable, low - self.low[variable as usize]);
        self.low[variable as usize] = low;
    }

    /// Whether a literal holds in the whole space; true only if it does.
    pub fn implies(&self, literal: &Literal) -> bool
        ensures { OnTrue result ((s : Scenario) → IsInSpace self.now s → holds s literal.now ≡ true) }
    {
        // the low itself isn't in the literal's range
        if self.low[literal.variable as usize] < literal.low {
            return false;
        }
        // the whole range lies in that of the literal
        if self.high[literal.variable as usize] <= literal.high {
            return true;
        }
        // the faults left don't suffice for a number above the literal's range
        self.most(literal.variable) <= literal.high
    }

    /// Whether the faults left suffice for the lows of literals from the place `from` on: if not, no scenario of the space
    /// matches the literals.
    pub fn affords(&self, literals: &[Literal], from: usize) -> bool
        requires { IsRising literals.now }
        ensures { OnFalse result ((s : Scenario) → IsInSpace self.now s → matches literals.now s ≡ false) }
    {
        let mut left = self.left;
        // each literal takes the faults between the low of its variable and its own low
        for at in from..literals.len() {
            let literal = literals[at];
            let low = self.low[literal.variable as usize];
            let more = faults_of(literal.variable, literal.low.saturating_sub(low));
            if left < more {
                return false;
            }
            left -= more;
        }
        true
    }

    /// Narrows the space to the scenarios that literals match. It returns false only if there are none, and then the space
    /// may be half narrowed.
    pub fn narrow_to(&mut self, literals: &[Literal]) -> bool
        ensures lies { OnTrue result ((s : Scenario) → IsInSpace self.old s → matches literals.now s ≡ true → IsInSpace self.new s) }
        ensures none { OnFalse result ((s : Scenario) → IsInSpace self.old s → matches literals.now s ≡ false) }
    {
        for literal in literals {
            if !self.narrow(*literal) {
                return false;
            }
        }
        true
    }

    /// Returns the space of this space's scenarios that literals match; `None` only if there are none.
    pub fn within(&self, literals: &[Literal]) -> Option<Space>
        ensures lies { IfSome result (λ r. (s : Scenario) → IsInSpace self.now s → matches literals.now s ≡ true → IsInSpace r s) }
        ensures none { IfNone result ((s : Scenario) → IsInSpace self.now s → matches literals.now s ≡ false) }
    {
        let mut space = *self;
        if !space.narrow_to(literals) {
            return None;
        }
        Some(space)
    }

    /// Returns the space of the scenarios of at most `k` faults that literals match; `None` only if there are none.
    pub fn of(k: u8, literals: &[Literal]) -> Option<Space>
        ensures lies { IfSome result (λ r. (s : Scenario) → HasAtMostFaults k s → matches literals.now s ≡ true → IsInSpace r s) }
        ensures none { IfNone result ((s : Scenario) → HasAtMostFaults k s → matches literals.now s ≡ false) }
    {
        let mut space = Space::whole(k);
        if !space.narrow_to(literals) {
            return None;
        }
        Some(space)
    }
}
