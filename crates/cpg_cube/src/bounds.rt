//! The ranges of a cube by variable, and which literals fit beside them.
ghost use Rattle.std.specs.Prelude.{◌≡◌, ◌≤◌, get_or, is_some, length, map, nat_lt};
ghost use Rattle.std.specs.List.{list_all};
ghost use Rattle.cpg_base.specs.Graph.{condition_count, process_count, value_variable};
ghost use Rattle.cpg_base.specs.Limits.{IsWithinLimits};
ghost use Rattle.cpg_base.specs.Numbers.{numbers_below};
ghost use Rattle.cpg_cube.specs.Cube.{IsRising};
ghost use Rattle.cpg_cube.specs.Fit.{asked_of_literal, is_open, scenario_of};
ghost use Rattle.cpg_cube.specs.Bounds.{AreBounds, AreRaised, budget_left, touches, more_asked, spans};

use crate::Literal;
use cpg_base::{FIRST_VALUE, Problem, Scenario};

/// How many variables there may be: the number of a variable is a byte.
pub const VARIABLES: usize = 256;

/// A range of numbers for each variable: that of a cube (`of`), whose lows may then be raised to those of another (`raise`).
#[derive(Drop)]
pub struct Bounds {
    /// The least number of each variable; 0 if no literal is on it.
    pub low: [u8; VARIABLES],
    /// The greatest number of each variable; 255 if no literal is on it.
    pub high: [u8; VARIABLES],
}

/// Returns what is left of `k` faults after those that the literals ask for; `None` exactly if some literal can't hold with
/// at most `k` faults, or all together ask for more. So a cube with `None` matches no scenario of at most `k` faults.
pub fn budget_left(k: u8, literals: &[Literal]) -> Option<u8>
    ensures { result ≡ budget_left (is_open k) asked_of_literal k literals.now }
{
    let mut left = k;
    for literal in literals {
        // no scenario of at most `k` faults has a number in its range
        if !literal.is_open(k) {
            return None;
        }
        // the literal asks for more faults than are left
        if literal.asked() > left {
            return None;
        }
        left -= literal.asked();
    }
    Some(left)
}

impl Bounds {
    /// Returns the ranges of a cube, given as its literals.
    pub fn of(literals: &[Literal]) -> Bounds
        requires { IsRising literals.now }
        ensures { AreBounds literals.now result.low result.high }
    {
        let mut low = [0; VARIABLES];
        let mut high = [u8::MAX; VARIABLES];
        for literal in literals {
            low[literal.variable as usize] = literal.low;
            high[literal.variable as usize] = literal.high;
        }
        Bounds { low, high }
    }

    /// Whether a literal can hold with at most `k` faults, and its range shares a number with its variable's range here.
    fn touches(&self, k: u8, literal: &Literal) -> bool
        ensures { result ≡ touches k self.now.low self.now.high literal.now }
    {
        let low = self.low[literal.variable as usize];
        let high = self.high[literal.variable as usize];
        literal.is_open(k) && low <= literal.high && literal.low <= high
    }

    /// Returns how many faults a literal asks for beyond the low of its variable here.
    fn more_asked(&self, literal: &Literal) -> u8
        ensures { result ≡ more_asked self.now.low literal.now }
    {
        literal
            .asked()
            .saturating_sub(self.low[literal.variable as usize])
    }

    /// Whether all literals share a number with the ranges here, and ask together for no more than `room` faults beyond the
    /// lows. So the cube of these ranges, which leaves `room` faults, matches some scenario together with them.
    pub fn fits(&self, k: u8, room: u8, literals: &[Literal]) -> bool
        ensures { result ≡ is_some (budget_left (touches k self.now.low self.now.high) (more_asked self.now.low) room literals.now) }
    {
        let mut left = room;
        for literal in literals {
            // the variable has no number in both ranges
            if !self.touches(k, literal) {
                return false;
            }
            let more = self.more_asked(literal);
            // the literal asks for more faults than are left
            if more > left {
                return false;
            }
            left -= more;
        }
        true
    }

    /// Whether a literal's range has all numbers that its variable can have here if `left` faults are left.
    pub fn spans(&self, left: u8, literal: &Literal) -> bool
        ensures { result ≡ spans self.now.low self.now.high left literal.now }
    {
        let low = self.low[literal.variable as usize];
        let high = self.high[literal.variable as usize];
        // a count can be as many faults above its low as are left, and a value is at most 1
        let most = if literal.variable < FIRST_VALUE {
            low.saturating_add(left)
        } else {
            1
        };
        literal.low <= low && high.min(most) <= literal.high
    }

    /// Whether the range of each literal has all numbers that its variable can have here if `left` faults are left.
    pub(crate) fn span_all(&self, left: u8, literals: &[Literal]) -> bool
        ensures { result ≡ list_all (spans self.now.low self.now.high left) literals.now }
    {
        literals.iter().all(|literal| self.spans(left, literal))
    }

    /// Raises each low to that of a cube, if the cube's is greater.
    pub(crate) fn raise(&mut self, literals: &[Literal])
        requires { IsRising literals.now }
        ensures { AreRaised literals.now self.old.low self.new.low }
    {
        for literal in literals {
            let place = literal.variable as usize;
            self.low[place] = self.low[place].max(literal.low);
        }
    }

    /// Writes the low of each process's variable to `least`, as its fault count.
    fn write_faults(&self, least: &mut Scenario, processes: u32)
        requires few { processes ≤ 128 }
        requires counts { length least.old.faults ≡ processes }
        ensures { least.new ≡ record least.old { faults = map (λ p. get_or self.now.low p 0) (numbers_below processes) } }
    {
        for process in 0..processes {
            least.set_fault(process, self.low[process as usize]);
        }
    }

    /// Writes the value of each condition to `least`: true if the low of its variable is above 0.
    fn write_values(&self, least: &mut Scenario, conditions: u32)
        requires few { conditions ≤ 32 }
        requires values { length least.old.values ≡ conditions }
        ensures { least.new ≡ record least.old { values = map (λ c. nat_lt 0 (get_or self.now.low (value_variable c) 0)) (numbers_below conditions) } }
    {
        for condition in 0..conditions {
            let variable = FIRST_VALUE as usize + condition as usize;
            least.set_value(condition, self.low[variable] > 0);
        }
    }

    /// Writes to `least` the scenario in which each variable has the low of its range.
    pub(crate) fn write_lows(&self, problem: &Problem, least: &mut Scenario)
        requires values { length least.old.values ≡ condition_count problem.now }
        requires faults { length least.old.faults ≡ process_count problem.now }
        ensures lows { least.new ≡ scenario_of problem.now (λ v. get_or self.now.low v 0) }
        ensures within { IsWithinLimits problem.now }
    {
        // at most 128 processes, so the cast keeps their count
        self.write_faults(least, problem.processes().len() as u32);
        self.write_values(least, problem.conditions());
    }
}
