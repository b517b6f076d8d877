//! Narrows cubes by literals.
ghost use Rattle.std.specs.Prelude.{◌≡◌, ◌++◌, ◌∷◌, [], ℕ, List, OnOk};
ghost use Rattle.cpg_base.specs.Scenario.{IsScenario};
ghost use Rattle.cpg_cube.specs.Cube.{IsRising};
ghost use Rattle.cpg_cube.specs.Narrow.{meet_literal};
ghost use Rattle.cpg_run.specs.Carried.{number_known};
ghost use Rattle.cpg_list.specs.Narrowing.{met, IsNarrowed};
ghost use Rattle.cpg_run.specs.Rows.{IsCubeOf};

use cpg_base::{OutOfMemory, Problem, Scenario};
use cpg_cube::{Cube, Literal};
use std::alloc::Global;

/// Returns the literal of the numbers that two literals on one variable both allow.
fn both(literal: Literal, other: Literal) -> Literal
    ensures { result ≡ meet_literal literal other }
{
    Literal {
        variable: other.variable,
        low: literal.low.max(other.low),
        high: literal.high.min(other.high),
    }
}

/// Adds literals to a cube. They are in the order of their variables, which are above those of the cube.
fn push_all(cube: &mut Cube, literals: &[Literal]) -> Result<(), OutOfMemory>
    requires { IsRising (cube.old ++ literals.now) }
    ensures { OnOk result (cube.new ≡ cube.old ++ literals.now) }
{
    for literal in literals {
        cube.push(*literal)?;
    }
    Ok(())
}

/// Adds to `cube` the literals `first` and `second` of two cubes, in the order of their variables, which are above those of
/// `cube`. Of two literals on one variable it adds the one of the numbers that both allow.
fn push_met(cube: &mut Cube, first: &[Literal], second: &[Literal]) -> Result<(), OutOfMemory>
    requires first { IsRising first.now }
    requires second { IsRising second.now }
    requires both { IsRising (cube.old ++ met first.now second.now) }
    ensures { OnOk result (cube.new ≡ cube.old ++ met first.now second.now) }
{
    let mut ones = first;
    let mut others = second;
    loop {
        // if one cube is used up, the rest of the other follows as it is
        let Some((one, ones_left)) = ones.split_first() else {
            push_all(cube, others)?;
            return Ok(());
        };
        let Some((other, others_left)) = others.split_first() else {
            push_all(cube, ones)?;
            return Ok(());
        };
        // the literal on the lower variable comes first
        if one.variable < other.variable {
            cube.push(*one)?;
            ones = ones_left;
        } else if other.variable < one.variable {
            cube.push(*other)?;
            others = others_left;
        } else {
            cube.push(both(*other, *one))?;
            ones = ones_left;
            others = others_left;
        }
    }
}

/// Narrows a cube by literals in the order of their variables, such as those of another cube.
pub(crate) fn narrow(
    alloc: Global,
    cube: &mut Cube,
    literals: &[Literal],
) -> Result<(), OutOfMemory>
    requires { IsRising literals.now }
    ensures { OnOk result (cube.new ≡ met cube.old literals.now) }
{
    let mut narrowed = Cube::whole(alloc);
    push_met(&mut narrowed, cube.literals(), literals)?;
    *cube = narrowed;
    Ok(())
}

/// Narrows a cube to the number that a variable has in a scenario.
pub(crate) fn narrow_to_number(
    alloc: Global,
    problem: &Problem,
    scenario: &Scenario,
    variable: u8,
    cube: &mut Cube,
) -> Result<(), OutOfMemory>
    requires { IsScenario problem.now scenario.now }
    ensures { OnOk result (IsNarrowed problem.now.faults (number_known scenario.now variable ∷ []) cube.old cube.new) }
{
    // called for its contract: the graph is within its limits
    let _processes = problem.processes();
    let number = scenario.number(variable);
    let literal = Literal {
        variable,
        low: number,
        high: number,
    };
    narrow(alloc, cube, [literal].as_slice())?;
    Ok(())
}

/// Narrows a cube by another one.
pub(crate) fn narrow_by_cube(
    alloc: Global,
    other: &Cube,
    cube: &mut Cube,
) -> Result<(), OutOfMemory>
    ensures { OnOk result ((k : ℕ) (literals : List Literal) → IsCubeOf k literals other.now → IsNarrowed k literals cube.old cube.new) }
{
    narrow(alloc, cube, other.literals())?;
    Ok(())
}
