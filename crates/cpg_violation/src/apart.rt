//! Cubes that no scenario matches together.
ghost use Rattle.std.specs.Prelude.{◌≡◌, ◌&&◌, false};
ghost use Rattle.std.specs.Bool.{OnFalse};
ghost use Rattle.cpg_base.specs.Scenario.{Scenario};
ghost use Rattle.cpg_cube.specs.Cube.{matches};
ghost use Rattle.cpg_violation.specs.Sieves.{touch};

use cpg_cube::Literal;

/// Whether the ranges of two literals have a number in common.
fn touch(literal: &Literal, other: &Literal) -> bool
    ensures { result ≡ touch literal.now other.now }
{
    literal.low <= other.high && other.low <= literal.high
}

/// Whether a scenario may match both of two lists of literals, whose variables rise. It can't if their ranges of some
/// variable have no number in common. True guarantees nothing: the ranges may ask for more faults than there are.
pub(crate) fn may_meet(literals: &[Literal], others: &[Literal]) -> bool
    ensures { OnFalse result ((s : Scenario) → (matches literals.now s && matches others.now s) ≡ false) }
{
    // once a list has ended, no variable is left that both ask for
    let (Some((literal, later)), Some((other, later_others))) = (
        literals.split_first(),
        others.split_first(),
    ) else {
        return true;
    };
    // the variables rise, so no other literal is on this one's variable
    if literal.variable < other.variable {
        return may_meet(later, others);
    }
    // no literal of the first list is on the other one's variable
    if literal.variable > other.variable {
        return may_meet(literals, later_others);
    }
    // both are on one variable
    touch(literal, other) && may_meet(later, later_others)
}
