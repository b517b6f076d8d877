//! The least scenario in which a process is active, or isn't, of those that one cube matches and none of a list does.
ghost use Rattle.std.specs.Prelude.{◌≡◌, ◌<◌, ◌&&◌, All, IfOk, map};
ghost use Rattle.cpg_base.specs.declared.limits.TheConstants.{MOST_CONDITIONS};
ghost use Rattle.cpg_base.specs.Graph.{IsVariable, condition_count};
ghost use Rattle.cpg_rules.specs.Trees.{TestsBelow};
ghost use Rattle.cpg_base.specs.First.{IsFirst};
ghost use Rattle.cpg_cube.specs.Cube.{holds};
ghost use Rattle.cpg_cover.specs.Cover.{is_left};
ghost use Rattle.cpg_cube.specs.Fit.{IsKnown};
ghost use Rattle.cpg_violation.specs.Activity.{comes_to, value_literal};

use cpg_base::{FIRST_VALUE, OutOfMemory, Scenario};
use cpg_cover::{earlier, uncovered};
use cpg_cube::{Cube, Literal};
use cpg_rules::{Admitted, GuardTop, GuardTree};
use std::alloc::Global;

/// The literal that says that a condition has a value: false is the number 0, true is 1.
pub fn value_literal(condition: u32, value: bool) -> Literal
    requires { condition < MOST_CONDITIONS }
    ensures { result ≡ value_literal condition value }
{
    let number = u8::from(value);
    // there are at most 32 conditions, whose variables begin at 128, so the number of the variable fits a byte
    Literal {
        variable: FIRST_VALUE + condition as u8,
        low: number,
        high: number,
    }
}

/// What `least_at` answers of the scenarios in which a literal holds as well: the value of a condition by which a test
/// leads to this side of the guard.
#[cycle(activity)]
fn least_where(
    alloc: Global,
    admitted: &Admitted,
    tree: &GuardTree,
    wanted: bool,
    cube: &Cube,
    literal: Literal,
    by: &[&Cube],
) -> Result<Option<Scenario>, OutOfMemory>
    requires tree { TestsBelow (condition_count admitted.now.graph) tree.now }
    requires cube { IsKnown admitted.now.graph cube.now }
    requires literal { IsVariable admitted.now.graph literal.variable }
    requires list { All (λ b. IsKnown admitted.now.graph b.now) by.now }
    ensures { IfOk result (IsFirst admitted.now.graph admitted.now.order (λ s.
        holds s literal && (is_left (map (λ b. b.now) by.now) cube.now s && comes_to tree.now wanted s))) }
{
    // no scenario of the cube has this value of the condition
    let Some(part) = cube.with(literal)? else {
        return Ok(None);
    };
    let found = least_at(alloc, admitted, tree, wanted, &part, by)?;
    Ok(found)
}

/// The least scenario that `cube` matches and none of the cubes `by` does, and in which the process of a guard is
/// active, if `wanted` is true, or inactive, if it is false. `None` exactly if there is none.
#[cycle(activity)]
pub fn least_at(
    alloc: Global,
    admitted: &Admitted,
    tree: &GuardTree,
    wanted: bool,
    cube: &Cube,
    by: &[&Cube],
) -> Result<Option<Scenario>, OutOfMemory>
    requires tree { TestsBelow (condition_count admitted.now.graph) tree.now }
    requires cube { IsKnown admitted.now.graph cube.now }
    requires list { All (λ b. IsKnown admitted.now.graph b.now) by.now }
    ensures { IfOk result (IsFirst admitted.now.graph admitted.now.order
        (λ s. is_left (map (λ b. b.now) by.now) cube.now s && comes_to tree.now wanted s)) }
{
    let problem = admitted.problem();
    let order = admitted.order();
    match tree.top() {
        GuardTop::Leaf(activation) => {
            // in every scenario of the cube the process is what isn't wanted
            if activation.is_active() != wanted {
                return Ok(None);
            }
            let found = uncovered(alloc, problem, order, cube, by)?;
            Ok(found)
        }
        GuardTop::Test { condition, no, yes } => {
            // every scenario is on one side, so the least of all is the earlier of the two sides' least ones
            let off = value_literal(condition, false);
            let on = value_literal(condition, true);
            let first = least_where(alloc, admitted, no, wanted, cube, off, by)?;
            let second = least_where(alloc, admitted, yes, wanted, cube, on, by)?;
            Ok(earlier(problem, order, first, second))
        }
    }
}
