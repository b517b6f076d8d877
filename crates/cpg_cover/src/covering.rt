//! Whether a list of cubes covers a cube, by how many faults a scenario has at least if the cube matches it and none of the
//! list does: if these are more than there may be, the cube is covered.
ghost use Rattle.std.specs.Prelude.{◌≡◌, ◌≤◌, ◌-◌, ◌||◌, ◌∷◌, [], ℕ, IfOk, IfSome, false, get_or, true};
ghost use Rattle.std.specs.Bool.{OnTrue};
ghost use Rattle.std.specs.List.{list_any};
ghost use Rattle.cpg_base.specs.Scenario.{Scenario, IsScenario};
ghost use Rattle.cpg_cube.specs.Cube.{matches};
ghost use Rattle.cpg_cube.specs.Fit.{IsKnown};
ghost use Rattle.cpg_cover.specs.Fewest.{IsNarrow, IsOn, beyond, holds_at, is_any_at, matches_at};

use crate::fewest::{DEPTH, SearchBound, fewest};
use crate::memory::Memory;
use crate::stepping::{add, add_asked};
use cpg_base::{FIRST_VALUE, OutOfMemory, Problem};
use cpg_cube::{Bounds, Cube, Literal, budget_left};
use std::alloc::Global;

/// Returns the cube of one literal.
fn single(alloc: Global, literal: Literal) -> Result<Cube, OutOfMemory>
    ensures { IfOk result (λ cube. cube ≡ literal ∷ []) }
{
    let mut cube = Cube::whole(alloc);
    cube.push(literal)?;
    Ok(cube)
}

/// What is known of the cube that is to be covered. A scenario that it matches is given by how far each number is beyond the
/// low of its variable.
#[derive(Drop)]
struct Ground {
    /// The cube's ranges.
    bounds: Bounds,
    /// How many faults are left beyond the cube's lows.
    left: u8,
}

impl Ground {
    /// Returns what a literal asks of the number beyond the low of its variable; `None` if it holds nowhere in the cube, as
    /// the low is above its range.
    fn beyond(&self, literal: &Literal) -> Option<Literal>
        ensures { IfSome result (λ l. (s : ℕ → ℕ) → get_or self.now.bounds.low literal.now.variable 0 ≤ s literal.now.variable →
            holds_at (beyond self.now.bounds.low s) l ≡ true → holds_at s literal.now ≡ true) }
    {
        let low = self.bounds.low[literal.variable as usize];
        // each number of the variable in the cube is above the literal's range
        if literal.high < low {
            return None;
        }
        let mut high = literal.high - low;
        // no count of faults goes further beyond its low than there are faults left
        if literal.variable < FIRST_VALUE {
            high = high.min(self.left);
        }
        Some(Literal {
            variable: literal.variable,
            low: literal.low.saturating_sub(low),
            high,
        })
    }

    /// Returns what literals ask of the numbers beyond the lows, without those that hold everywhere in the cube; `None` if one
    /// holds nowhere.
    fn asked(
        &self,
        alloc: Global,
        literals: &[Literal],
    ) -> Result<Option<Vec<Literal>>, OutOfMemory>
        ensures { IfOk result (λ r. IfSome r (λ asked. (s : ℕ → ℕ) → IsOn self.now.bounds.low self.now.bounds.high self.now.left s →
            matches_at (beyond self.now.bounds.low s) asked.items ≡ true → matches_at s literals.now ≡ true)) }
    {
        let mut asked = Vec::new(alloc);
        for literal in literals {
            // a literal that spans all numbers of its variable asks nothing
            if !self.bounds.spans(self.left, literal) {
                let Some(beyond) = self.beyond(literal) else {
                    return Ok(None);
                };
                asked.push(beyond)?;
            }
        }
        Ok(Some(asked))
    }

    /// Adds to `cubes` the cube of what another one asks beyond the lows, unless a literal of it holds nowhere.
    fn add_cube(
        &self,
        alloc: Global,
        other: &Cube,
        cubes: &mut Vec<Cube>,
    ) -> Result<(), OutOfMemory>
        ensures { IfOk result (λ _. (s : ℕ → ℕ) → IsOn self.now.bounds.low self.now.bounds.high self.now.left s →
            is_any_at (beyond self.now.bounds.low s) cubes.new.items ≡ true →
            (is_any_at (beyond self.now.bounds.low s) cubes.old.items || matches_at s other.now) ≡ true) }
    {
        if let Some(asked) = self.asked(alloc, other.literals())? {
            add_asked(alloc, cubes, asked.as_slice())?;
        }
        Ok(())
    }

    /// Returns the cubes of what the cubes of a list ask beyond the lows.
    fn cubes(&self, alloc: Global, by: &[&Cube]) -> Result<Vec<Cube>, OutOfMemory>
        ensures { IfOk result (λ cubes. (s : ℕ → ℕ) → IsOn self.now.bounds.low self.now.bounds.high self.now.left s →
            is_any_at (beyond self.now.bounds.low s) cubes.items ≡ true → list_any (λ b. matches_at s b.now) by.now ≡ true) }
    {
        let mut cubes = Vec::new(alloc);
        for other in by {
            self.add_cube(alloc, other, &mut cubes)?;
        }
        Ok(cubes)
    }

    /// Returns the numbers beyond a low that lie outside a literal's range, as a literal on its variable; `None` if nothing needs
    /// to be said of these.
    fn over(&self, literal: &Literal) -> Option<Literal>
        ensures { IfSome result (λ l. (n : ℕ → ℕ) → n literal.now.variable ≤ literal.now.high - literal.now.low → holds_at n l ≡ false) }
    {
        let width = literal.high.saturating_sub(literal.low);
        // For a range of one number it isn't needed: no literal that is left to ask holds at that. A range at least as wide as
        // the faults left leaves no number outside, and neither does that of a value.
        if width == 0 || width >= self.left || literal.variable >= FIRST_VALUE {
            return None;
        }
        Some(Literal {
            variable: literal.variable,
            low: width + 1,
            high: self.left,
        })
    }

    /// Adds a cube for the numbers outside the range of each literal of the cube to be covered: scenarios there needn't be
    /// covered, so they count as matched.
    fn add_over(
        &self,
        alloc: Global,
        literals: &[Literal],
        cubes: &mut Vec<Cube>,
    ) -> Result<(), OutOfMemory>
        ensures { IfOk result (λ _. (s : ℕ → ℕ) → IsNarrow self.now.bounds.low s literals.now →
            is_any_at (beyond self.now.bounds.low s) cubes.new.items ≡ true → is_any_at (beyond self.now.bounds.low s) cubes.old.items ≡ true) }
    {
        for literal in literals {
            if let Some(over) = self.over(literal) {
                add(cubes, single(alloc, over)?)?;
            }
        }
        Ok(())
    }
}

/// Whether a list is found to cover a cube. True only if it does; false says nothing.
pub(crate) fn is_surely_covered(
    alloc: Global,
    problem: &Problem,
    cube: &Cube,
    by: &[&Cube],
    memory: &mut Memory,
) -> Result<bool, OutOfMemory>
    requires { IsKnown problem.now cube.now }
    ensures { IfOk result (λ covered. OnTrue covered ((s : Scenario) → IsScenario problem.now s → matches cube.now s ≡ true →
        list_any (λ b. matches b.now s) by.now ≡ true)) }
{
    // the cube matches no scenario, which callers have ruled out: that it is covered isn't worth a proof
    let Some(left) = budget_left(problem.faults(), cube.literals()) else {
        return Ok(false);
    };
    let bounds = Bounds::of(cube.literals());
    let ground = Ground { bounds, left };
    let mut cubes = ground.cubes(alloc, by)?;
    ground.add_over(alloc, cube.literals(), &mut cubes)?;
    let bound = SearchBound {
        budget: left,
        depth: DEPTH,
    };
    memory.begin();
    let least_faults = fewest(alloc, cubes.as_slice(), bound, memory)?;
    // what isn't covered would take more faults than the cube leaves
    Ok(least_faults > left)
}
