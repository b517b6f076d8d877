//! Cubes parted by their variables, so that those of one part have none in common with those of the other.
ghost use Rattle.std.specs.Prelude.{◌≡◌, ℕ, IfOk, false, get_or, true};
ghost use Rattle.std.specs.List.{list_all};
ghost use Rattle.cpg_base.specs.Numbers.{same_bool};
ghost use Rattle.cpg_cover.specs.Fewest.{AreMarked, AreMore, is_any_at};

use cpg_base::OutOfMemory;
use cpg_cube::{Cube, Literal};
use std::alloc::Global;

/// Whether the mark of each literal's variable is `wanted`.
pub(crate) fn are_all(literals: &[Literal], marks: &[bool; 256], wanted: bool) -> bool
    ensures { result ≡ list_all (λ l. same_bool (get_or marks.now l.variable false) wanted) literals.now }
{
    literals
        .iter()
        .all(|literal| marks[literal.variable as usize] == wanted)
}

/// Marks the variables of literals.
pub(crate) fn mark_all(literals: &[Literal], marks: &mut [bool; 256])
    ensures { AreMore literals.now marks.old marks.new }
{
    for literal in literals {
        marks[literal.variable as usize] = true;
    }
}

/// Marks all variables of each cube that has a marked one, and returns whether a mark was added.
fn mark_more(cubes: &[Cube], marks: &mut [bool; 256]) -> bool {
    let mut more = false;
    for cube in cubes {
        let literals = cube.literals();
        // the cube has marked variables and unmarked ones
        if !are_all(literals, marks, false) && !are_all(literals, marks, true) {
            mark_all(literals, marks);
            more = true;
        }
    }
    more
}

/// Returns marks of the variables that the first cube has, or that are joined with these by cubes that have both.
pub(crate) fn joined_variables(cubes: &[Cube]) -> [bool; 256] {
    let mut marks = [false; 256];
    if let Some(first) = cubes.first() {
        mark_all(first.literals(), &mut marks);
    }
    // each round but the last marks at least one more of the 256 variables, so this many rounds are enough
    for _ in 0..256u32 {
        if !mark_more(cubes, &mut marks) {
            return marks;
        }
    }
    marks
}

/// Whether some cube has no marked variable.
pub(crate) fn has_apart(cubes: &[Cube], marks: &[bool; 256]) -> bool {
    cubes
        .iter()
        .any(|cube| are_all(cube.literals(), marks, false))
}

/// Returns copies of the cubes whose variables are all marked (`wanted` true) or all unmarked (`wanted` false).
pub(crate) fn parted(
    alloc: Global,
    cubes: &[Cube],
    marks: &[bool; 256],
    wanted: bool,
) -> Result<Vec<Cube>, OutOfMemory>
    ensures marked { IfOk result (λ part. AreMarked marks.now wanted part.items) }
    ensures kept { IfOk result (λ part. (n : ℕ → ℕ) → is_any_at n part.items ≡ true → is_any_at n cubes.now ≡ true) }
{
    let mut part = Vec::new(alloc);
    for cube in cubes {
        if are_all(cube.literals(), marks, wanted) {
            part.push(cube.copy()?)?;
        }
    }
    Ok(part)
}
