//! What cubes still ask after a step of a search: it takes one variable to be 0, or to be more and then takes one from it.
ghost use Rattle.std.specs.Prelude.{◌≡◌, ◌≤◌, ◌<◌, ◌||◌, ℕ, IfOk, IfSome, false, length, true};
ghost use Rattle.cpg_cover.specs.Fewest.{IsStep, after, holds_at, is_any_at, matches_at, rest_holds};

use cpg_base::{FIRST_VALUE, OutOfMemory};
use cpg_cube::{Cube, Literal};
use std::alloc::Global;
use std::cmp::Ordering;

/// From this many cubes on a list is no longer kept sorted, since it takes too long to find places in it.
const LONG_LIST: usize = 256;

/// A step of a search by a variable.
#[derive(Clone, Copy)]
pub(crate) struct SearchStep {
    /// The variable.
    pub(crate) variable: u8,
    /// Whether it is taken to be more than 0; if not, it is taken to be 0.
    pub(crate) more: bool,
}

impl SearchStep {
    /// Returns the step that takes the variable to be 0.
    pub(crate) fn zero(variable: u8) -> SearchStep
        ensures variable { result.variable ≡ variable }
        ensures more { result.more ≡ false }
    {
        SearchStep {
            variable,
            more: false,
        }
    }

    /// Returns the step that takes the variable to be more than 0.
    pub(crate) fn more(variable: u8) -> SearchStep
        ensures variable { result.variable ≡ variable }
        ensures more { result.more ≡ true }
    {
        SearchStep {
            variable,
            more: true,
        }
    }
}

/// What a literal still asks after a step.
enum Rest {
    /// Nothing: it holds.
    Held,
    /// It can't hold.
    Missed,
    /// That this literal holds.
    Asked(Literal),
}

/// Returns what a literal still asks if no fault count is above the budget.
fn within_budget(literal: Literal, budget: u8) -> Rest
    ensures { (n : ℕ → ℕ) → ((v : ℕ) → v < 128 → n v ≤ budget) → rest_holds n result ≡ true → holds_at n literal ≡ true }
{
    // the budget bounds counts of faults, not values
    if literal.variable >= FIRST_VALUE {
        return Rest::Asked(literal);
    }
    // it asks for more faults than the budget has
    if literal.low > budget {
        return Rest::Missed;
    }
    // each count within the budget is in its range
    if literal.low == 0 && literal.high >= budget {
        return Rest::Held;
    }
    Rest::Asked(Literal {
        variable: literal.variable,
        low: literal.low,
        high: literal.high.min(budget),
    })
}

/// Returns what a literal on the step's variable still asks of that, after the step has taken one from it.
fn after_more(literal: Literal, budget: u8) -> Rest
    ensures { (n : ℕ → ℕ) → IsStep literal.variable true budget n → rest_holds (after literal.variable n) result ≡ true → holds_at n literal ≡ true }
{
    // it asks for 0, and the variable is more
    if literal.high == 0 {
        return Rest::Missed;
    }
    // a value that is more than 0 is 1
    if literal.variable >= FIRST_VALUE {
        return if literal.low > 1 {
            Rest::Missed
        } else {
            Rest::Held
        };
    }
    // of a count one fault is taken, so the range moves down by one
    let less = Literal {
        variable: literal.variable,
        low: literal.low.saturating_sub(1),
        high: literal.high - 1,
    };
    within_budget(less, budget)
}

/// Returns what a literal still asks after a step, if no fault count is above the budget then.
fn rest_of(literal: Literal, step: SearchStep, budget: u8) -> Rest
    ensures { (n : ℕ → ℕ) → IsStep step.variable step.more budget n → rest_holds (after step.variable n) result ≡ true → holds_at n literal ≡ true }
{
    // the step says nothing of another variable
    if literal.variable != step.variable {
        return within_budget(literal, budget);
    }
    if step.more {
        return after_more(literal, budget);
    }
    // the variable is 0
    if literal.low > 0 {
        Rest::Missed
    } else {
        Rest::Held
    }
}

/// Returns what literals still ask after a step; `None` if one of them can't hold. The one error is `OutOfMemory`.
fn asked_after(
    alloc: Global,
    literals: &[Literal],
    step: SearchStep,
    budget: u8,
) -> Result<Option<Vec<Literal>>, OutOfMemory>
    ensures { IfOk result (λ r. IfSome r (λ asked. (n : ℕ → ℕ) → IsStep step.variable step.more budget n →
        matches_at (after step.variable n) asked.items ≡ true → matches_at n literals.now ≡ true)) }
{
    let mut asked = Vec::new(alloc);
    for literal in literals {
        match rest_of(*literal, step, budget) {
            Rest::Held => {}
            Rest::Missed => return Ok(None),
            Rest::Asked(rest) => asked.push(rest)?,
        }
    }
    Ok(Some(asked))
}

/// Returns where a cube belongs in a sorted list, or `None` if the list has it already. In a long list it belongs at the end.
fn sorted_place(cubes: &[Cube], cube: &Cube) -> Option<usize>
    ensures { IfSome result (λ place. place ≤ length cubes.now) }
{
    let mut place = cubes.len();
    if place >= LONG_LIST {
        return Some(place);
    }
    // from the end to the front: cubes that stood in order before a step come nearly in order after it
    while place > 0 {
        match cubes[place - 1].literals().cmp(&cube.literals()) {
            Ordering::Less => return Some(place),
            Ordering::Equal => return None,
            Ordering::Greater => {}
        }
        place -= 1;
    }
    Some(0)
}

/// Adds a cube to a list, unless it is found there already. The one error is `OutOfMemory`.
pub(crate) fn add(cubes: &mut Vec<Cube>, cube: Cube) -> Result<(), OutOfMemory>
    ensures { IfOk result (λ _. (n : ℕ → ℕ) → is_any_at n cubes.new.items ≡ true → (is_any_at n cubes.old.items || matches_at n cube) ≡ true) }
{
    if let Some(place) = sorted_place(cubes.as_slice(), &cube) {
        cubes.insert(place, cube)?;
    }
    Ok(())
}

/// Adds the cube of these literals to a list, if their variables rise. The one error is `OutOfMemory`.
pub(crate) fn add_asked(
    alloc: Global,
    cubes: &mut Vec<Cube>,
    asked: &[Literal],
) -> Result<(), OutOfMemory>
    ensures { IfOk result (λ _. (n : ℕ → ℕ) → is_any_at n cubes.new.items ≡ true → (is_any_at n cubes.old.items || matches_at n asked.now) ≡ true) }
{
    if let Some(cube) = Cube::new(alloc, asked)? {
        add(cubes, cube)?;
    }
    Ok(())
}

/// Returns the cubes of what some cubes still ask after a step, without those that can't match. The one error is
/// `OutOfMemory`.
pub(crate) fn stepped(
    alloc: Global,
    cubes: &[Cube],
    step: SearchStep,
    budget: u8,
) -> Result<Vec<Cube>, OutOfMemory>
    ensures { IfOk result (λ rest. (n : ℕ → ℕ) → IsStep step.variable step.more budget n →
        is_any_at (after step.variable n) rest.items ≡ true → is_any_at n cubes.now ≡ true) }
{
    let mut rest = Vec::new(alloc);
    for cube in cubes {
        if let Some(asked) = asked_after(alloc, cube.literals(), step, budget)? {
            add_asked(alloc, &mut rest, asked.as_slice())?;
        }
    }
    Ok(rest)
}
