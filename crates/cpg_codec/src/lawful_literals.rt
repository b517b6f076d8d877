//! Checking the literals of a column, first all together by a quick test that most pass.
ghost use Rattle.std.specs.Prelude.{◌≡◌, ◌<◌, IsTrue, All};
ghost use Rattle.std.specs.Bool.{OnTrue};
ghost use Rattle.cpg_cube.specs.Cube.{IsRising};
ghost use Rattle.cpg_table.specs.Lawful.{IsCountLiteral, IsLawfulLiteral};
ghost use Rattle.cpg_codec.specs.Grammar.{IsSpace};

use crate::space::{is_range, is_variable};
use cpg_cube::Literal;
use cpg_table::VariableSpace;

/// Returns whether a literal's range, as that of a fault count, has some of the numbers from 0 to the most faults, but
/// not all; `true` guarantees it. The variable isn't looked at.
fn is_part(space: &VariableSpace, literal: Literal) -> bool
    ensures { IsTrue result → literal.variable < space.now.processes → IsCountLiteral space.now literal }
{
    // `&` and `|`, unlike `&&` and `||`, don't branch
    let within = (literal.low <= literal.high) & (literal.high <= space.faults);
    let part = (literal.high < space.faults) | (literal.low > 0);
    within & part
}

/// Returns whether `is_part` holds of each literal; `true` guarantees it. The loop never ends early, so that the compiler
/// can test several literals at once.
fn are_parts(space: &VariableSpace, literals: &[Literal]) -> bool
    ensures { OnTrue result (All (λ l. l.variable < space.now.processes → IsCountLiteral space.now l) literals.now) }
{
    let mut all_parts = true;
    for literal in literals {
        all_parts &= is_part(space, *literal);
    }
    all_parts
}

/// Returns whether the last variable is below `end`, and so, as variables rise, all are; `true` guarantees it, and is
/// the answer without literals.
fn are_below(literals: &[Literal], end: u32) -> bool
    requires { IsRising literals.now }
    ensures { OnTrue result (All (λ l. l.variable < end) literals.now) }
{
    match literals.last() {
        Some(last) => (last.variable as u32) < end,
        None => true,
    }
}

/// Returns whether all literals are on fault counts, and lawful; `true` guarantees it.
fn are_counts(space: &VariableSpace, literals: &[Literal]) -> bool
    requires { IsRising literals.now }
    ensures { OnTrue result (All (IsCountLiteral space.now) literals.now) }
{
    if !are_below(literals, space.processes) {
        return false;
    }
    are_parts(space, literals)
}

/// Returns whether a literal is on a variable of the space, and its range is one that literals on it may have; `true`
/// guarantees it.
fn is_lawful(space: &VariableSpace, literal: Literal) -> bool
    requires { IsSpace space.now }
    ensures { IsTrue result → IsLawfulLiteral space.now literal }
{
    is_variable(space, literal.variable as u32) && is_range(space, literal)
}

/// Returns whether each literal is lawful, looking at one after another; `true` guarantees it.
fn is_each_lawful(space: &VariableSpace, literals: &[Literal]) -> bool
    requires { IsSpace space.now }
    ensures { OnTrue result (All (IsLawfulLiteral space.now) literals.now) }
{
    for literal in literals {
        if !is_lawful(space, *literal) {
            return false;
        }
    }
    true
}

/// Returns whether all of the literals, whose variables rise, are lawful; `true` guarantees it, `false` nothing.
pub fn are_lawful(space: &VariableSpace, literals: &[Literal]) -> bool
    requires space { IsSpace space.now }
    requires rising { IsRising literals.now }
    ensures { OnTrue result (All (IsLawfulLiteral space.now) literals.now) }
{
    // most cubes have literals on fault counts alone
    if are_counts(space, literals) {
        return true;
    }
    is_each_lawful(space, literals)
}
