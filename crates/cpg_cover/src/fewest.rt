//! How many faults a scenario has at least if no cube of a list matches it: a lower bound that a search finds. A scenario is
//! taken to be any choice of numbers whose values are 0 or 1.
ghost use Rattle.std.specs.Prelude.{◌≡◌, ◌≤◌, ◌<◌, ℕ, IfOk, false};
ghost use Rattle.cpg_cover.specs.Fewest.{Needs, NeedsOutside, NeedsWithout, holds_at};

use crate::frequency::count_in;
use crate::memory::{Fact, Memory};
use crate::parting::{are_all, has_apart, joined_variables, mark_all, parted};
use crate::stepping::{SearchStep, stepped};
use cpg_base::{FIRST_VALUE, OutOfMemory};
use cpg_cube::{Cube, Literal};
use std::alloc::Global;

/// How many calls of a search may be within one another. Each settles one of at most 160 variables, takes one of at most 8
/// faults, or parts the cubes by their variables, so this many are enough for most lists.
pub(crate) const DEPTH: u32 = 256;

/// What a search for the fewest faults is bounded by.
#[derive(Clone, Copy)]
pub(crate) struct SearchBound {
    /// The most faults that are of interest: of a greater bound no one asks how much greater it is.
    pub(crate) budget: u8,
    /// How many more calls may be within one another.
    pub(crate) depth: u32,
}

/// Returns how many faults a scenario has at least if a literal doesn't hold in it.
fn fewest_of_literal(literal: &Literal) -> u8
    ensures count { 0 < result → literal.now.variable < 128 }
    ensures fewest { (n : ℕ → ℕ) → holds_at n literal.now ≡ false → result ≤ n literal.now.variable }
{
    // the number 0 already fails it, or it is on a value, which takes no fault
    if literal.low > 0 || literal.variable >= FIRST_VALUE {
        return 0;
    }
    literal.high.saturating_add(1)
}

/// Returns how many faults a scenario has at least if a cube doesn't match it: the least of its literals' numbers, and 255 for
/// the cube without literals, which always matches.
fn fewest_of_cube(cube: &Cube) -> u8
    ensures { NeedsOutside cube.now result }
{
    let mut fewest = u8::MAX;
    for literal in cube.literals() {
        fewest = fewest.min(fewest_of_literal(literal));
    }
    fewest
}

/// Returns a lower bound of the faults of scenarios that none of the cubes matches: the greatest that one cube alone gives.
fn fewest_of_each(cubes: &[Cube]) -> u8
    ensures { Needs cubes.now result }
{
    let mut most = 0;
    for cube in cubes {
        most = most.max(fewest_of_cube(cube));
    }
    most
}

/// Returns a lower bound of the faults of scenarios that none of the cubes matches: the sum over some cubes that have no
/// variable in common, chosen in the order of the list.
fn fewest_of_apart(cubes: &[Cube]) -> u8
    ensures { Needs cubes.now result }
{
    let mut marks = [false; 256];
    let mut sum = 0u8;
    for cube in cubes {
        let least_faults = fewest_of_cube(cube);
        // faults are summed up only if they are on other variables than those before
        if least_faults > 0 && are_all(cube.literals(), &marks, false) {
            sum = sum.saturating_add(least_faults);
            mark_all(cube.literals(), &mut marks);
        }
    }
    sum
}

/// Whether a cube matches the scenario in which all numbers are 0.
fn matches_zero(cube: &Cube) -> bool {
    cube.literals().iter().all(|literal| literal.low == 0)
}

/// Returns the variable that most cubes have a literal on, and of several the least one; 0 if no cube has a literal.
fn most_frequent(cubes: &[Cube]) -> u8 {
    let mut counts = [0; 256];
    for cube in cubes {
        count_in(&mut counts, cube.literals());
    }
    let mut best = 0;
    for variable in 0..=u8::MAX {
        if counts[variable as usize] > counts[best as usize] {
            best = variable;
        }
    }
    best
}

/// Returns a lower bound for the cubes by a condition's value: the lesser of those with it false and with it true.
#[cycle(fewest)]
fn fewest_by_value(
    alloc: Global,
    cubes: &[Cube],
    variable: u8,
    bound: SearchBound,
    memory: &mut Memory,
) -> Result<u8, OutOfMemory>
    requires { 128 ≤ variable }
    ensures { IfOk result (Needs cubes.now) }
{
    let budget = bound.budget;
    let zero = stepped(alloc, cubes, SearchStep::zero(variable), budget)?;
    let without = fewest(alloc, zero.as_slice(), bound, memory)?;
    let one = stepped(alloc, cubes, SearchStep::more(variable), budget)?;
    let with = fewest(alloc, one.as_slice(), bound, memory)?;
    let fewer = without.min(with);
    // a step leaves out scenarios with a count above the budget, which have at least one fault more than that
    Ok(fewer.min(budget.saturating_add(1)))
}

/// Returns a lower bound for the cubes by the fault count of a process: the lesser of `without`, the bound if the process has
/// no fault, and one more than the bound after one fault is taken from it.
#[cycle(fewest)]
fn fewest_with(
    alloc: Global,
    cubes: &[Cube],
    variable: u8,
    without: u8,
    bound: SearchBound,
    memory: &mut Memory,
) -> Result<u8, OutOfMemory>
    requires count { variable < 128 }
    requires without { NeedsWithout cubes.now variable bound.budget without }
    ensures { IfOk result (Needs cubes.now) }
{
    // more faults than this are of no interest: they are above the budget, or `without` is no greater
    let most = bound.budget.min(without.saturating_sub(1));
    // with a fault of the process there is one at least, so the lesser of `without` and 1 bounds both cases
    if most == 0 {
        return Ok(without.min(1));
    }
    // one fault is taken from the process, so `most - 1` are left of the budget
    let more = stepped(alloc, cubes, SearchStep::more(variable), most - 1)?;
    let bound = SearchBound {
        budget: most - 1,
        depth: bound.depth,
    };
    let with = fewest(alloc, more.as_slice(), bound, memory)?;
    let least_faults = with.saturating_add(1);
    // scenarios that the step leaves out have a count of at least `most` after it, so at least `most + 1` faults in all
    Ok(least_faults.min(most + 1))
}

/// Returns a lower bound for the cubes by the fault count of a process: first if it has no fault, then if it has some.
#[cycle(fewest)]
fn fewest_by_count(
    alloc: Global,
    cubes: &[Cube],
    variable: u8,
    bound: SearchBound,
    memory: &mut Memory,
) -> Result<u8, OutOfMemory>
    requires { variable < 128 }
    ensures { IfOk result (Needs cubes.now) }
{
    let zero = stepped(alloc, cubes, SearchStep::zero(variable), bound.budget)?;
    let without = fewest(alloc, zero.as_slice(), bound, memory)?;
    let least_faults = fewest_with(alloc, cubes, variable, without, bound, memory)?;
    Ok(least_faults)
}

/// Returns a lower bound for the cubes as the sum of two: that of the cubes whose variables are marked, and that of the
/// others, which have no variable in common with them.
#[cycle(fewest)]
fn fewest_by_parts(
    alloc: Global,
    cubes: &[Cube],
    joined: &[bool; 256],
    bound: SearchBound,
    memory: &mut Memory,
) -> Result<u8, OutOfMemory>
    ensures { IfOk result (Needs cubes.now) }
{
    let first = parted(alloc, cubes, joined, true)?;
    let first_faults = fewest(alloc, first.as_slice(), bound, memory)?;
    let others = parted(alloc, cubes, joined, false)?;
    let bound = SearchBound {
        budget: bound.budget.saturating_sub(first_faults),
        depth: bound.depth,
    };
    let other_faults = fewest(alloc, others.as_slice(), bound, memory)?;
    Ok(first_faults.saturating_add(other_faults))
}

/// Returns a lower bound for cubes that are joined by variables: the one kept in memory, or else one by the numbers of their
/// most frequent variable, which is then kept.
#[cycle(fewest)]
fn fewest_of_joined(
    alloc: Global,
    cubes: &[Cube],
    bound: SearchBound,
    memory: &mut Memory,
) -> Result<u8, OutOfMemory>
    ensures { IfOk result (Needs cubes.now) }
{
    if let Some(known) = memory.recall(cubes, bound.budget) {
        return Ok(known);
    }
    // the steps look at each of these cubes
    memory.spend(cubes.len());
    let variable = most_frequent(cubes);
    let least_faults = if variable < FIRST_VALUE {
        fewest_by_count(alloc, cubes, variable, bound, memory)?
    } else {
        fewest_by_value(alloc, cubes, variable, bound, memory)?
    };
    // a bound above the budget says enough even if the search was cut short, and any other one is exact if it wasn't
    if least_faults > bound.budget || !memory.is_spent() {
        let fact = Fact::new(alloc, cubes, least_faults, least_faults <= bound.budget)?;
        memory.keep(fact)?;
    }
    Ok(least_faults)
}

/// Returns a lower bound of the faults of scenarios that none of the cubes matches. It is the fewest that such a scenario has
/// if these are within the budget and the search isn't cut short; no clause says so.
#[cycle(fewest)]
pub(crate) fn fewest(
    alloc: Global,
    cubes: &[Cube],
    bound: SearchBound,
    memory: &mut Memory,
) -> Result<u8, OutOfMemory>
    ensures { IfOk result (Needs cubes.now) }
{
    let alone = fewest_of_each(cubes);
    // one cube alone gives a bound above the budget, or there is but one
    if alone > bound.budget || cubes.len() == 1 {
        return Ok(alone);
    }
    let apart = fewest_of_apart(cubes);
    // cubes without common variables give a bound above the budget
    if apart > bound.budget {
        return Ok(apart);
    }
    // the search is cut short, so nothing is known; or no cube matches the scenario of zeros, which has no faults
    if bound.depth == 0 || memory.is_spent() || !cubes.iter().any(matches_zero) {
        return Ok(0);
    }
    let bound = SearchBound {
        budget: bound.budget,
        depth: bound.depth - 1,
    };
    let joined = joined_variables(cubes);
    // some cubes have no variable in common with the others: the faults of both parts add up
    if has_apart(cubes, &joined) {
        let least_faults = fewest_by_parts(alloc, cubes, &joined, bound, memory)?;
        return Ok(least_faults);
    }
    let least_faults = fewest_of_joined(alloc, cubes, bound, memory)?;
    Ok(least_faults)
}
