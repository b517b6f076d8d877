//! What a list of cubes leaves of a cube: the least scenario that the cube matches and none of the list does. A first search
//! splits the cube by the literals of the list. If that takes too long, a second one goes along the order of the variables.
ghost use Rattle.std.specs.Prelude.{◌≡◌, ◌≤◌, ◌<◌, ◌&&◌, All, IfNone, IfOk, IfSome, IsTrue, None, Some, false, length, map, not, true, vec_len};
ghost use Rattle.std.specs.Bool.{OnTrue};
ghost use Rattle.std.specs.List.{list_any};
ghost use Rattle.cpg_base.specs.Graph.{IsVariable, process_count};
ghost use Rattle.cpg_base.specs.First.{IsFirst, earlier};
ghost use Rattle.cpg_base.specs.Scenario.{Scenario, IsScenario, IsLeast};
ghost use Rattle.cpg_cube.specs.Cube.{IsRising, matches};
ghost use Rattle.cpg_cube.specs.declared.literal.Literal.{Literal};
ghost use Rattle.cpg_cube.specs.Fit.{IsKnown};
ghost use Rattle.cpg_cube.specs.Narrow.{narrowed_by};
ghost use Rattle.cpg_cover.specs.Cover.{is_left};
ghost use Rattle.cpg_cover.specs.Late.{IsLate};
ghost use Rattle.cpg_cover.specs.Parts.{range_below, range_above};

use crate::covering::is_surely_covered;
use crate::effort::{Effort, Stop};
use crate::frequency::by_frequency;
use crate::memory::Memory;
use crate::parting::mark_all;
use cpg_base::{Order, OutOfMemory, Problem, Scenario, is_before, top};
use cpg_cube::{Bounds, Cube, Literal, budget_left, variables_along};
use std::alloc::Global;

/// Returns the earlier of two scenarios along the order, or the one that there is; `None` if there is none.
pub fn earlier(
    problem: &Problem,
    order: &Order,
    first: Option<Scenario>,
    second: Option<Scenario>,
) -> Option<Scenario>
    requires order { length order.now ≡ process_count problem.now }
    requires first { IfSome first (IsScenario problem.now) }
    requires second { IfSome second (IsScenario problem.now) }
    ensures { result ≡ earlier problem.now order.now first second }
{
    let Some(first) = first else {
        return second;
    };
    let Some(second) = second else {
        return Some(first);
    };
    if is_before(problem, order, &second, &first) {
        Some(second)
    } else {
        Some(first)
    }
}

/// Returns the place of the first cube that matches a scenario; `None` exactly if none does.
fn place_of_match(by: &[&Cube], scenario: &Scenario) -> Option<usize>
    ensures none { IfNone result (list_any (λ b. matches b.now scenario.now) by.now ≡ false) }
    ensures within { IfSome result (λ place. place < length by.now) }
{
    for (place, cube) in by.iter().enumerate() {
        if cube.matches(scenario) {
            return Some(place);
        }
    }
    None
}

/// Returns those cubes of a list that match some scenario together with `cube`: they leave the same of it as the whole list.
/// The one error is `OutOfMemory`.
fn meeting<'a>(
    alloc: Global,
    problem: &Problem,
    cube: &Cube,
    by: &[&'a Cube],
) -> Result<Vec<&'a Cube>, OutOfMemory>
    requires cube { IsKnown problem.now cube.now }
    requires list { All (λ b. IsKnown problem.now b.now) by.now }
    ensures same { IfOk result (λ kept. (s : Scenario) → IsScenario problem.now s →
        is_left (map (λ b. b.now) kept.items) cube.now s ≡ is_left (map (λ b. b.now) by.now) cube.now s) }
    ensures known { IfOk result (λ kept. All (λ b. IsKnown problem.now b.now) kept.items) }
    ensures few { IfOk result (λ kept. vec_len kept ≤ length by.now) }
{
    let mut kept = Vec::new(alloc);
    let k = problem.faults();
    // the cube matches no scenario, so no cube is needed to leave nothing of it
    let Some(left) = budget_left(k, cube.literals()) else {
        return Ok(kept);
    };
    let bounds = Bounds::of(cube.literals());
    for other in by {
        let literals = other.literals();
        if bounds.fits(k, left, literals) {
            kept.push(*other)?;
        }
    }
    Ok(kept)
}

/// Returns those of the literals that may fail in some scenario that the cube matches. The others hold in all of these
/// scenarios.
fn cutting(
    alloc: Global,
    problem: &Problem,
    cube: &Cube,
    literals: &[Literal],
) -> Result<Vec<Literal>, OutOfMemory>
    requires cube { IsKnown problem.now cube.now }
    requires literals { IsKnown problem.now literals.now }
    requires rising { IsRising literals.now }
    ensures same { IfOk result (λ kept. (s : Scenario) → IsScenario problem.now s → matches cube.now s ≡ true → matches kept.items s ≡ matches literals.now s) }
    ensures known { IfOk result (λ kept. IsKnown problem.now kept.items) }
    ensures few { IfOk result (λ kept. length kept.items ≤ 256) }
{
    let mut kept = Vec::new(alloc);
    let k = problem.faults();
    // the cube matches no scenario, so no literal fails in one
    let Some(left) = budget_left(k, cube.literals()) else {
        return Ok(kept);
    };
    let bounds = Bounds::of(cube.literals());
    for literal in literals {
        if !bounds.spans(left, literal) {
            kept.push(*literal)?;
        }
    }
    Ok(kept)
}

/// Returns the numbers below a literal's range, as a literal; `None` if the range begins at 0.
fn below(literal: &Literal) -> Option<Literal>
    ensures { result ≡ range_below literal.now }
{
    if literal.low == 0 {
        return None;
    }
    Some(Literal {
        variable: literal.variable,
        low: 0,
        high: literal.low - 1,
    })
}

/// Returns the numbers above a literal's range, as a literal; `None` if the range reaches the greatest number that the
/// variable has in scenarios of at most `k` faults.
fn above(k: u8, literal: &Literal) -> Option<Literal>
    ensures { result ≡ range_above k literal.now }
{
    let top = top(k, literal.variable);
    if literal.high >= top {
        return None;
    }
    Some(Literal {
        variable: literal.variable,
        low: literal.high + 1,
        high: top,
    })
}

/// Returns the least scenario that a list leaves of a cube narrowed by a literal; `None` if it leaves none, or there is no
/// literal.
#[cycle(cover)]
fn left_of_part(
    alloc: Global,
    problem: &Problem,
    order: &Order,
    cube: &Cube,
    literal: Option<Literal>,
    by: &[&Cube],
    effort: &mut Effort,
) -> Result<Option<Scenario>, Stop>
    requires order { length order.now ≡ process_count problem.now }
    requires cube { IsKnown problem.now cube.now }
    requires literal { IfSome literal (λ l. IsVariable problem.now l.variable) }
    requires list { All (λ b. IsKnown problem.now b.now) by.now }
    ensures part { IfOk result (λ r. IfSome literal (λ l. IsFirst problem.now order.now (is_left (map (λ b. b.now) by.now) (narrowed_by l cube.now)) r)) }
    ensures none { IfOk result (λ r. IfNone literal (r ≡ None)) }
{
    // no number is on this side of the range that the literal would be for
    let Some(literal) = literal else {
        return Ok(None);
    };
    // the cube allows none of these numbers
    let Some(part) = cube.with(literal)? else {
        return Ok(None);
    };
    let kept = meeting(alloc, problem, &part, by)?;
    let found = left_of(alloc, problem, order, &part, kept, effort)?;
    Ok(found)
}

/// Returns the least scenario that a cube matches, in which one of the literals fails, and that none of the list matches;
/// `None` if there is no such scenario.
#[cycle(cover)]
fn left_outside(
    alloc: Global,
    problem: &Problem,
    order: &Order,
    cube: &Cube,
    literals: &[Literal],
    by: &[&Cube],
    effort: &mut Effort,
) -> Result<Option<Scenario>, Stop>
    requires order { length order.now ≡ process_count problem.now }
    requires cube { IsKnown problem.now cube.now }
    requires literals { IsKnown problem.now literals.now }
    requires short { length literals.now ≤ 256 }
    requires list { All (λ b. IsKnown problem.now b.now) by.now }
    ensures { IfOk result (λ r. IsFirst problem.now order.now (λ s. is_left (map (λ b. b.now) by.now) cube.now s && not (matches literals.now s)) r) }
{
    // without literals none can fail
    let Some((literal, rest)) = literals.split_first() else {
        return Ok(None);
    };
    let k = problem.faults();
    let low = left_of_part(alloc, problem, order, cube, below(literal), by, effort)?;
    let high = left_of_part(alloc, problem, order, cube, above(k, literal), by, effort)?;
    // the least one in which the first literal fails; in any other it holds, and one of the rest fails
    let beside = earlier(problem, order, low, high);
    if rest.is_empty() {
        return Ok(beside);
    }
    // the literal holds in no scenario of the cube
    let Some(inside) = cube.with(*literal)? else {
        return Ok(beside);
    };
    let kept = meeting(alloc, problem, &inside, by)?;
    let found = left_outside(
        alloc,
        problem,
        order,
        &inside,
        rest,
        kept.as_slice(),
        effort,
    )?;
    Ok(earlier(problem, order, beside, found))
}

/// Returns the least scenario that a list leaves of a cube; `None` if it leaves none. It fails with `Effort` if it would take
/// more splittings than are left.
#[cycle(cover)]
fn left_of(
    alloc: Global,
    problem: &Problem,
    order: &Order,
    cube: &Cube,
    by: Vec<&Cube>,
    effort: &mut Effort,
) -> Result<Option<Scenario>, Stop>
    requires order { length order.now ≡ process_count problem.now }
    requires cube { IsKnown problem.now cube.now }
    requires list { All (λ b. IsKnown problem.now b.now) by.items }
    ensures { IfOk result (λ r. IsFirst problem.now order.now (is_left (map (λ b. b.now) by.entry.items) cube.now) r) }
{
    effort.spend()?;
    // the cube matches no scenario
    let Some(least) = cube.least(alloc, problem)? else {
        return Ok(None);
    };
    // no cube of the list matches the least scenario, so this one is left
    let Some(place) = place_of_match(by.as_slice(), &least) else {
        return Ok(Some(least));
    };
    // what is left is outside the cube of the list that matches, so one of its literals fails, and outside the others
    let mut others = by;
    let matching = others.remove(place);
    let cutting = cutting(alloc, problem, cube, matching.literals())?;
    let literals = by_frequency(alloc, cutting.as_slice(), others.as_slice())?;
    let found = left_outside(
        alloc,
        problem,
        order,
        cube,
        literals.as_slice(),
        others.as_slice(),
        effort,
    )?;
    Ok(found)
}

/// Returns the least scenario that a list leaves of a cube, with as many splittings as that takes; `None` if it leaves none.
fn left_at_last(
    alloc: Global,
    problem: &Problem,
    order: &Order,
    cube: &Cube,
    by: Vec<&Cube>,
) -> Result<Option<Scenario>, OutOfMemory>
    requires order { length order.now ≡ process_count problem.now }
    requires cube { IsKnown problem.now cube.now }
    requires list { All (λ b. IsKnown problem.now b.now) by.items }
    ensures { IfOk result (λ r. IsFirst problem.now order.now (is_left (map (λ b. b.now) by.entry.items) cube.now) r) }
{
    let mut effort = Effort::endless();
    match left_of(alloc, problem, order, cube, by, &mut effort) {
        Ok(found) => Ok(found),
        // the effort is endless, so only memory can have run out
        Err(_) => Err(OutOfMemory),
    }
}

/// Returns marks of the variables on which some cube has a literal.
fn marked(by: &[&Cube]) -> [bool; 256] {
    let mut marks = [false; 256];
    for other in by {
        mark_all(other.literals(), &mut marks);
    }
    marks
}

/// Returns the variables on which some cube has a literal, in the order of the processes. The one error is `OutOfMemory`.
fn variables_of(
    alloc: Global,
    problem: &Problem,
    order: &Order,
    by: &[&Cube],
) -> Result<Vec<u8>, OutOfMemory>
    requires { length order.now ≡ process_count problem.now }
    ensures { IfOk result (λ variables. All (IsVariable problem.now) variables.items) }
{
    let marks = marked(by);
    let mut variables = Vec::new(alloc);
    let all = variables_along(alloc, problem, order.processes())?;
    for variable in all.as_slice() {
        if marks[*variable as usize] {
            variables.push(*variable)?;
        }
    }
    Ok(variables)
}

/// Says whether the part needn't be searched: true only if a scenario is found, and none that the part matches comes before it.
/// The one error is `OutOfMemory`.
fn is_late(
    alloc: Global,
    problem: &Problem,
    order: &Order,
    part: &Cube,
    found: &Option<Scenario>,
) -> Result<bool, OutOfMemory>
    requires order { length order.now ≡ process_count problem.now }
    requires part { IsKnown problem.now part.now }
    requires found { IfSome found.now (IsScenario problem.now) }
    ensures { IfOk result (λ late. OnTrue late (IsLate problem.now order.now part.now found.now)) }
{
    // nothing is found yet
    let Some(found) = found else {
        return Ok(false);
    };
    // the part matches no scenario, so its search ends at once anyway
    let Some(least) = part.least(alloc, problem)? else {
        return Ok(false);
    };
    Ok(!is_before(problem, order, &least, found))
}

/// Returns the least scenario that a list leaves of a part of the cube in question; `None` if it leaves none.
#[cycle(along)]
fn least_of_part(
    alloc: Global,
    problem: &Problem,
    order: &Order,
    part: &Cube,
    by: &[&Cube],
    variables: &[u8],
    memory: &mut Memory,
) -> Result<Option<Scenario>, OutOfMemory>
    requires order { length order.now ≡ process_count problem.now }
    requires cube { IsKnown problem.now part.now }
    requires list { All (λ b. IsKnown problem.now b.now) by.now }
    requires variables { All (IsVariable problem.now) variables.now }
    ensures { IfOk result (λ r. IsFirst problem.now order.now (is_left (map (λ b. b.now) by.now) part.now) r) }
{
    let kept = meeting(alloc, problem, part, by)?;
    let found = least_along(alloc, problem, order, part, kept, variables, memory)?;
    Ok(found)
}

/// Returns the least scenario that a list leaves of a cube; `None` if it leaves none. It searches the parts of the cube with
/// each number of the first variable, from 0 on, by the other variables.
#[cycle(along)]
fn least_by_number(
    alloc: Global,
    problem: &Problem,
    order: &Order,
    cube: &Cube,
    by: Vec<&Cube>,
    variables: &[u8],
    memory: &mut Memory,
) -> Result<Option<Scenario>, OutOfMemory>
    requires order { length order.now ≡ process_count problem.now }
    requires cube { IsKnown problem.now cube.now }
    requires list { All (λ b. IsKnown problem.now b.now) by.items }
    requires variables { All (IsVariable problem.now) variables.now }
    ensures { IfOk result (λ r. IsFirst problem.now order.now (is_left (map (λ b. b.now) by.entry.items) cube.now) r) }
{
    let Some((variable, others)) = variables.split_first() else {
        // no variable is left to split by
        let found = left_at_last(alloc, problem, order, cube, by)?;
        return Ok(found);
    };
    let mut found = None;
    for number in 0..u32::from(top(problem.faults(), *variable)) + 1 {
        // at most 8 or 1, so the casts keep the number
        let literal = Literal {
            variable: *variable,
            low: number as u8,
            high: number as u8,
        };
        // a number that the cube excludes makes no part
        if let Some(part) = cube.with(literal)? {
            let late = is_late(alloc, problem, order, &part, &found)?;
            if !late {
                let list = by.as_slice();
                let next = least_of_part(alloc, problem, order, &part, list, others, memory)?;
                found = earlier(problem, order, found, next);
            }
        }
    }
    Ok(found)
}

/// Returns the least scenario that a list (`by`) leaves of a cube; `None` if it leaves none. It splits the cube along the order by
/// `variables`, those by which it isn't split yet, unless the cube is found to be covered, so most cubes that it splits are ones
/// of which something is left. `memory` has what was found about lists of cubes before.
#[cycle(along)]
fn least_along(
    alloc: Global,
    problem: &Problem,
    order: &Order,
    cube: &Cube,
    by: Vec<&Cube>,
    variables: &[u8],
    memory: &mut Memory,
) -> Result<Option<Scenario>, OutOfMemory>
    requires order { length order.now ≡ process_count problem.now }
    requires cube { IsKnown problem.now cube.now }
    requires list { All (λ b. IsKnown problem.now b.now) by.items }
    requires variables { All (IsVariable problem.now) variables.now }
    ensures { IfOk result (λ r. IsFirst problem.now order.now (is_left (map (λ b. b.now) by.entry.items) cube.now) r) }
{
    // the cube matches no scenario
    let Some(least) = cube.least(alloc, problem)? else {
        return Ok(None);
    };
    // no cube of the list matches the least scenario, so this one is left
    let Some(_) = place_of_match(by.as_slice(), &least) else {
        return Ok(Some(least));
    };
    let covered = is_surely_covered(alloc, problem, cube, by.as_slice(), memory)?;
    if covered {
        return Ok(None);
    }
    let found = least_by_number(alloc, problem, order, cube, by, variables, memory)?;
    Ok(found)
}

/// Returns the least scenario that a list leaves of a cube, by a search along the order; `None` if it leaves none. The one
/// error is `OutOfMemory`.
fn left_along(
    alloc: Global,
    problem: &Problem,
    order: &Order,
    cube: &Cube,
    by: &[&Cube],
) -> Result<Option<Scenario>, OutOfMemory>
    requires order { length order.now ≡ process_count problem.now }
    requires cube { IsKnown problem.now cube.now }
    requires list { All (λ b. IsKnown problem.now b.now) by.now }
    ensures { IfOk result (λ r. IsFirst problem.now order.now (is_left (map (λ b. b.now) by.now) cube.now) r) }
{
    let kept = meeting(alloc, problem, cube, by)?;
    let variables = variables_of(alloc, problem, order, kept.as_slice())?;
    let mut memory = Memory::new(alloc);
    let found = least_along(
        alloc,
        problem,
        order,
        cube,
        kept,
        variables.as_slice(),
        &mut memory,
    )?;
    Ok(found)
}

/// Returns the least scenario along an order that a cube matches and no cube of a list does; `None` exactly if the list
/// matches every scenario within the problem's faults that the cube matches. The one error is `OutOfMemory`.
pub fn uncovered(
    alloc: Global,
    problem: &Problem,
    order: &Order,
    cube: &Cube,
    by: &[&Cube],
) -> Result<Option<Scenario>, OutOfMemory>
    requires order { length order.now ≡ process_count problem.now }
    requires cube { IsKnown problem.now cube.now }
    requires list { All (λ b. IsKnown problem.now b.now) by.now }
    ensures first { IfOk result (λ r. IsFirst problem.now order.now (is_left (map (λ b. b.now) by.now) cube.now) r) }
{
    let kept = meeting(alloc, problem, cube, by)?;
    let mut effort = Effort::for_cubes(kept.len());
    match left_of(alloc, problem, order, cube, kept, &mut effort) {
        Ok(found) => Ok(found),
        Err(Stop::Memory) => Err(OutOfMemory),
        // the search takes too long by the literals of the list, so it is made along the order
        Err(Stop::Effort) => left_along(alloc, problem, order, cube, by),
    }
}

/// Returns a reference to each cube, in their order. The one error is `OutOfMemory`.
fn lent<'a>(alloc: Global, by: &'a [Cube]) -> Result<Vec<&'a Cube>, OutOfMemory>
    ensures { IfOk result (λ cubes. map (λ b. b.now) cubes.items ≡ by.now) }
{
    let mut cubes = Vec::new(alloc);
    cubes.reserve(by.len())?;
    for cube in by {
        cubes.push(cube)?;
    }
    Ok(cubes)
}

/// Says whether a list covers a cube. It returns `None` exactly if each scenario within the problem's faults that the cube
/// matches is matched by one of the list, and otherwise the least along the order that isn't. The one error is `OutOfMemory`.
pub fn covers(
    alloc: Global,
    problem: &Problem,
    order: &Order,
    cube: &Cube,
    by: &[Cube],
) -> Result<Option<Scenario>, OutOfMemory>
    requires order { length order.now ≡ process_count problem.now }
    requires cube { IsKnown problem.now cube.now }
    requires list { All (IsKnown problem.now) by.now }
    ensures covered { IfOk result (λ r. IfNone r ((s : Scenario) → IsScenario problem.now s → matches cube.now s ≡ true →
        list_any (λ b. matches b s) by.now ≡ true)) }
    ensures least { IfOk result (λ r. IfSome r (IsLeast problem.now order.now (λ s. IsTrue (matches cube.now s && not (list_any (λ b. matches b s) by.now))))) }
{
    let cubes = lent(alloc, by)?;
    let found = uncovered(alloc, problem, order, cube, cubes.as_slice())?;
    Ok(found)
}
