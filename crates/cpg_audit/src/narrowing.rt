//! What is left of all scenarios once cubes are taken off one by one, as far as ranges of the variables can say.
ghost use Rattle.std.specs.Prelude.{◌≡◌, ◌≤◌, ◌<◌, ◌||◌, ℕ, All, IfOk, IfSome, false, length, true};
ghost use Rattle.std.specs.Bool.{OnTrue};
ghost use Rattle.std.specs.List.{list_any};
ghost use Rattle.cpg_base.specs.Graph.{Graph, IsVariable};
ghost use Rattle.cpg_base.specs.Scenario.{Scenario};
ghost use Rattle.cpg_cube.specs.Cube.{holds, matches};
ghost use Rattle.cpg_cube.specs.Fit.{IsKnown};
ghost use Rattle.cpg_tree.specs.Space.{IsInSpace};
ghost use Rattle.cpg_audit.specs.Narrowing.{IsExtent, IsRange, Leaves};

use cpg_base::{FIRST_VALUE, OutOfMemory, Problem, top};
use cpg_cube::{Cube, Literal};
use cpg_tree::Space;
use std::alloc::Global;

/// Which scenarios of a space a cube matches, as far as it depends on one variable.
#[derive(Drop)]
enum Extent {
    /// It matches none.
    Nowhere,
    /// It matches just those in which this literal holds.
    Where(Literal),
    /// It may match any.
    Unknown,
}

/// Whether a literal holds in no scenario of a space: its range has no number that the space leaves the variable.
fn is_apart(space: &Space, literal: &Literal) -> bool
    ensures { OnTrue result ((s : Scenario) → IsInSpace space.now s → holds s literal.now ≡ false) }
{
    space.most(literal.variable) < literal.low || literal.high < space.least(literal.variable)
}

/// Which scenarios of a space a cube with these literals matches.
fn extent_of(space: &Space, literals: &[Literal]) -> Extent
    ensures { IsExtent space.now literals.now result }
{
    // the literal so far that doesn't hold in the whole space
    let mut open = None;
    for literal in literals {
        if !space.implies(literal) {
            if is_apart(space, literal) {
                return Extent::Nowhere;
            }
            // it depends on two variables
            if open.is_some() {
                return Extent::Unknown;
            }
            open = Some(*literal);
        }
    }
    match open {
        Some(literal) => Extent::Where(literal),
        // the cube matches all of the space, and taking it off would leave nothing: no range says that
        None => Extent::Unknown,
    }
}

/// A range that a literal's variable is in, in all scenarios of a space in which the literal doesn't hold. `None` if the
/// space leaves the variable numbers on both sides of the literal's range, or only numbers in it.
fn range_outside(space: &Space, literal: Literal) -> Option<Literal>
    ensures { IfSome result (λ l. (s : Scenario) → IsInSpace space.now s → holds s literal ≡ false → holds s l ≡ true) }
{
    let variable = literal.variable;
    let least = space.least(variable);
    let most = space.most(variable);
    // only what is above the literal is left
    if literal.low <= least && literal.high < most {
        return Some(Literal {
            variable,
            low: literal.high + 1,
            high: most,
        });
    }
    // only what is below the literal is left
    if least < literal.low && most <= literal.high {
        return Some(Literal {
            variable,
            low: least,
            high: literal.low - 1,
        });
    }
    // the literal leaves numbers on both sides, or none
    None
}

/// Narrows a space to the scenarios in which a literal doesn't hold, if these have one range of its variable. Otherwise
/// the space stays as it is.
fn exclude(space: &mut Space, literal: Literal)
    ensures { (s : Scenario) → IsInSpace space.old s → holds s literal ≡ false → IsInSpace space.new s }
{
    let Some(range) = range_outside(space, literal) else {
        return;
    };
    // the range is within the space's, so there is a rest
    if let Some(rest) = space.within(&[range]) {
        *space = rest;
    }
}

/// Narrows a space to the scenarios that a cube doesn't match, if that depends on one variable, and adds the cube to
/// `kept`, unless it matches nothing of the space. The one error is `OutOfMemory`.
fn take_off<'a>(
    space: &mut Space,
    cube: &'a Cube,
    kept: &mut Vec<&'a Cube>,
) -> Result<(), OutOfMemory>
    ensures same { IfOk result (λ _. (s : Scenario) → Leaves space.old kept.old.items s →
        list_any (λ b. matches b.now s) kept.new.items ≡ (list_any (λ b. matches b.now s) kept.old.items || matches cube.now s)) }
    ensures space { IfOk result (λ _. (s : Scenario) → Leaves space.old kept.old.items s → Leaves space.new kept.new.items s) }
    ensures grows { IfOk result (λ _. length kept.old.items ≤ length kept.new.items) }
    ensures known { IfOk result (λ _. (g : Graph) → IsKnown g cube.now → All (λ b. IsKnown g b.now) kept.old.items →
        All (λ b. IsKnown g b.now) kept.new.items) }
{
    match extent_of(space, cube.literals()) {
        Extent::Nowhere => return Ok(()),
        Extent::Where(literal) => exclude(space, literal),
        Extent::Unknown => {}
    }
    kept.push(cube)?;
    Ok(())
}

/// Narrows a space to the scenarios that none of these cubes matches, as far as each depends on one variable, and adds
/// to `kept` those that match something of what is left at their turn. It goes from the last cube back: if an item's
/// cubes rise by the number of faults, each then takes off the greatest number that is left, down to the one that the
/// log gives. The one error is `OutOfMemory`.
pub fn take_off_all<'a>(
    space: &mut Space,
    by: &[&'a Cube],
    kept: &mut Vec<&'a Cube>,
) -> Result<(), OutOfMemory>
    ensures same { IfOk result (λ _. (s : Scenario) → Leaves space.old kept.old.items s →
        list_any (λ b. matches b.now s) kept.new.items ≡ (list_any (λ b. matches b.now s) kept.old.items || list_any (λ b. matches b.now s) by.now)) }
    ensures space { IfOk result (λ _. (s : Scenario) → Leaves space.old kept.old.items s → Leaves space.new kept.new.items s) }
    ensures grows { IfOk result (λ _. length kept.old.items ≤ length kept.new.items) }
    ensures known { IfOk result (λ _. (g : Graph) → All (λ b. IsKnown g b.now) by.now → All (λ b. IsKnown g b.now) kept.old.items →
        All (λ b. IsKnown g b.now) kept.new.items) }
{
    let mut place = by.len();
    while place > 0 {
        place -= 1;
        take_off(space, by[place], kept)?;
    }
    Ok(())
}

/// Narrows a space to the scenarios that none of these cubes matches, as far as each depends on one variable. It goes
/// from the last cube back: of cubes that `take_off_all` has kept, which are in reverse, each then takes off the least
/// number that is left.
pub fn narrow(space: &mut Space, by: &[&Cube])
    ensures { (s : Scenario) → list_any (λ b. matches b.now s) by.now ≡ false → IsInSpace space.old s → IsInSpace space.new s }
{
    let mut place = by.len();
    while place > 0 {
        place -= 1;
        if let Extent::Where(literal) = extent_of(space, by[place].literals()) {
            exclude(space, literal);
        }
    }
}

/// Adds to a cube the space's ranges of the variables from `first` up to `end`, `end` itself left out, except those ranges
/// that have all numbers of the variable. The one error is `OutOfMemory`.
fn push_ranges(
    problem: &Problem,
    space: &Space,
    first: u8,
    end: u8,
    cube: &mut Cube,
) -> Result<(), OutOfMemory>
    requires order { first ≤ end }
    requires known { (v : ℕ) → first ≤ v → v < end → IsVariable problem.now v }
    requires before { All (IsRange problem.now space.now first) cube.old }
    ensures { IfOk result (λ _. All (IsRange problem.now space.now end) cube.new) }
{
    let k = problem.faults();
    for variable in first..end {
        let low = space.least(variable);
        let high = space.most(variable);
        if low > 0 || high < top(k, variable) {
            cube.push(Literal {
                variable,
                low,
                high,
            })?;
        }
    }
    Ok(())
}

/// A cube that matches all scenarios of a space: it has the space's ranges of all variables, except those that have all
/// numbers. The one error is `OutOfMemory`.
pub fn cube_of(alloc: Global, problem: &Problem, space: &Space) -> Result<Cube, OutOfMemory>
    ensures matches { IfOk result (λ cube. (s : Scenario) → IsInSpace space.now s → matches cube s ≡ true) }
    ensures known { IfOk result (IsKnown problem.now) }
{
    let mut cube = Cube::whole(alloc);
    // the fault counts of at most 128 processes are numbered from 0 on, the values of at most 32 conditions from
    // `FIRST_VALUE` (128) on, so all numbers fit a byte
    let processes = problem.processes().len() as u8;
    let end = FIRST_VALUE + problem.conditions() as u8;
    push_ranges(problem, space, 0, processes, &mut cube)?;
    push_ranges(problem, space, FIRST_VALUE, end, &mut cube)?;
    Ok(cube)
}
