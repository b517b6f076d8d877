//! Literals sorted by how many cubes have a literal on their variable, so that a search splits by the most frequent first.
ghost use Rattle.std.specs.Prelude.{◌≡◌, IfOk, IsPermutation, map};

use cpg_base::OutOfMemory;
use cpg_cube::{Cube, Literal};
use std::alloc::Global;
use std::cmp::Reverse;

/// A literal, and how many cubes have one on its variable: ranks compare by the count, the greatest first.
#[derive(Clone, Copy, Debug, PartialEq, Eq, PartialOrd, Ord)]
struct LiteralRank {
    /// How many cubes have a literal on the variable; reversed, so that the greatest count comes first.
    count: Reverse<u32>,
    /// The literal; ranks with equal counts compare by it.
    literal: Literal,
}

/// Adds 1 to the count of each literal's variable.
pub(crate) fn count_in(counts: &mut [u32; 256], literals: &[Literal]) {
    for literal in literals {
        let place = literal.variable as usize;
        counts[place] = counts[place].saturating_add(1);
    }
}

/// Returns by variable how many of the cubes have a literal on it.
fn frequencies(by: &[&Cube]) -> [u32; 256] {
    let mut counts = [0; 256];
    for cube in by {
        count_in(&mut counts, cube.literals());
    }
    counts
}

/// Returns the literals in their order, each with the count of its variable.
fn ranks(
    alloc: Global,
    literals: &[Literal],
    counts: &[u32; 256],
) -> Result<Vec<LiteralRank>, OutOfMemory>
    ensures { IfOk result (λ ranks. map (λ r. r.literal) ranks.items ≡ literals.now) }
{
    let mut ranks = Vec::new(alloc);
    ranks.reserve(literals.len())?;
    for literal in literals {
        ranks.push(LiteralRank {
            count: Reverse(counts[literal.variable as usize]),
            literal: *literal,
        })?;
    }
    Ok(ranks)
}

/// Returns the literals of ranks alone.
fn unranked(alloc: Global, ranks: &[LiteralRank]) -> Result<Vec<Literal>, OutOfMemory>
    ensures { IfOk result (λ literals. literals.items ≡ map (λ r. r.literal) ranks.now) }
{
    let literals = ranks.iter().map(|rank| rank.literal).collect(alloc)?;
    Ok(literals)
}

/// Returns the literals, those on the variables first that most cubes of `by` have a literal on. The one error is
/// `OutOfMemory`.
pub fn by_frequency(
    alloc: Global,
    literals: &[Literal],
    by: &[&Cube],
) -> Result<Vec<Literal>, OutOfMemory>
    ensures { IfOk result (λ ranked. IsPermutation literals.now ranked.items) }
{
    let counts = frequencies(by);
    let mut ranks = ranks(alloc, literals, &counts)?;
    ranks.sort_unstable();
    let ranked = unranked(alloc, ranks.as_slice())?;
    Ok(ranked)
}
