//! Bounds of variables: a literal sets one by each end of its range.
ghost use Rattle.std.specs.Prelude.{◌≡◌};
ghost use Rattle.std.specs.List.{list_any};
ghost use Rattle.cpg_check_heard.specs.Bounds.{high_of, is_free, low_of, range_of, tells, variable_of};

use cpg_base::top;
use cpg_cube::Literal;

/// A bound of a variable, which a node hears by itself: it may hear the two ends of a literal's range from different
/// columns.
#[derive(Clone, Copy)]
pub(crate) enum LiteralBound {
    /// The variable is at least this number.
    Low { variable: u8, least: u8 },
    /// The variable is at most this number.
    High { variable: u8, most: u8 },
}

impl LiteralBound {
    /// The bound that the low of a literal sets.
    pub(crate) fn low_of(literal: &Literal) -> LiteralBound
        ensures { result ≡ low_of literal.now }
    {
        LiteralBound::Low {
            variable: literal.variable,
            least: literal.low,
        }
    }

    /// The bound that the high of a literal sets.
    pub(crate) fn high_of(literal: &Literal) -> LiteralBound
        ensures { result ≡ high_of literal.now }
    {
        LiteralBound::High {
            variable: literal.variable,
            most: literal.high,
        }
    }

    /// The variable that it bounds.
    pub(crate) fn variable(&self) -> u8
        ensures { result ≡ variable_of self.now }
    {
        match self {
            LiteralBound::Low { variable, .. } => *variable,
            LiteralBound::High { variable, .. } => *variable,
        }
    }

    /// Whether it leaves out no number that the variable may have in a scenario of at most `k` faults.
    pub(crate) fn is_free(&self, k: u8) -> bool
        ensures { result ≡ is_free k self.now }
    {
        match self {
            LiteralBound::Low { least, .. } => *least == 0,
            LiteralBound::High { variable, most } => top(k, *variable) <= *most,
        }
    }

    /// Whether a literal implies it: it is on the same variable, and its range is within the bound.
    pub(crate) fn is_told_by(&self, literal: &Literal) -> bool
        ensures { result ≡ tells self.now literal.now }
    {
        match self {
            LiteralBound::Low { variable, least } => {
                literal.variable == *variable && *least <= literal.low
            }
            LiteralBound::High { variable, most } => {
                literal.variable == *variable && literal.high <= *most
            }
        }
    }

    /// Whether one of these literals implies it, as `is_told_by` says.
    pub(crate) fn is_told_by_any(&self, literals: &[Literal]) -> bool
        ensures { result ≡ list_any (tells self.now) literals.now }
    {
        literals.iter().any(|literal| self.is_told_by(literal))
    }

    /// The numbers within it that the variable may have in scenarios of at most `k` faults, as a literal.
    pub(crate) fn range(&self, k: u8) -> Literal
        ensures { result ≡ range_of k self.now }
    {
        match self {
            LiteralBound::Low { variable, least } => Literal {
                variable: *variable,
                low: *least,
                high: top(k, *variable),
            },
            LiteralBound::High { variable, most } => Literal {
                variable: *variable,
                low: 0,
                high: *most,
            },
        }
    }
}
