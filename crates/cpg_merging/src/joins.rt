//! Joining columns: two of them become one if they have one time and differ in one variable alone, of which their
//! ranges touch.
ghost use Rattle.std.specs.Prelude.{◌≡◌, ◌+◌, ◌<◌, IfOk, length};
ghost use Rattle.std.specs.List.{list_any};
ghost use Rattle.std.specs.Cmp.Lexicographic.{slice_cmp};
ghost use Rattle.cpg_cube.specs.Cube.{low_in, high_in, is_whole, IsRising};
ghost use Rattle.cpg_merging.specs.Merging.{without, literal_cmp, beside_cmp, column_cmp, is_followed, is_any_followed, shorn, raised, joined, walked_over, all_shorn};

use cpg_base::{OutOfMemory, top};
use cpg_cube::{Column, Cube, Literal};
use std::alloc::Global;
use std::cmp::Ordering;
use std::mem;

/// Returns the least number that the literals allow a variable; 0 if none is on it.
fn low_of(literals: &[Literal], variable: u8) -> u8
    ensures { result ≡ low_in literals.now variable }
{
    for literal in literals {
        if literal.variable == variable {
            return literal.low;
        }
    }
    // without a literal the variable has its whole range, which begins at 0
    0
}

/// Returns the greatest number that the literals allow a variable; the top of its whole range if none is on it.
fn high_of(faults: u8, literals: &[Literal], variable: u8) -> u8
    ensures { result ≡ high_in faults literals.now variable }
{
    for literal in literals {
        if literal.variable == variable {
            return literal.high;
        }
    }
    // without a literal the variable has its whole range
    top(faults, variable)
}

/// Compares two lists of literals, leaving out those on the variable. The first literals that differ decide; if there
/// are none, the shorter list is less.
fn compare_others(variable: u8, a: &[Literal], b: &[Literal]) -> Ordering
    ensures { result ≡ slice_cmp literal_cmp (without variable a.now) (without variable b.now) }
{
    // mostly the first literals are equal, whatever their variable, so this comes first
    if let (Some((first, rest)), Some((other, others))) = (a.split_first(), b.split_first()) {
        if first == other {
            return compare_others(variable, rest, others);
        }
    }
    // a literal on the variable itself is passed over, on either side
    match (a.split_first(), b.split_first()) {
        (Some((first, rest)), _) if first.variable == variable => compare_others(variable, rest, b),
        (_, Some((first, rest))) if first.variable == variable => compare_others(variable, a, rest),
        (None, None) => Ordering::Equal,
        (None, Some(_)) => Ordering::Less,
        (Some(_), None) => Ordering::Greater,
        (Some((first, rest)), Some((other, others))) => match first.cmp(other) {
            Ordering::Equal => compare_others(variable, rest, others),
            unequal => unequal,
        },
    }
}

/// Compares columns by time, then by their literals on variables other than this one.
fn compare_beside(variable: u8, a: &Column, b: &Column) -> Ordering
    ensures { result ≡ beside_cmp variable a.now b.now }
{
    match a.time.cmp(&b.time) {
        Ordering::Equal => compare_others(variable, a.cube.literals(), b.cube.literals()),
        unequal => unequal,
    }
}

/// Compares columns by time, then by their literals on other variables, then by the low of this one. So columns that
/// touch at the variable stand side by side when they are sorted.
pub(crate) fn compare(variable: u8, a: &Column, b: &Column) -> Ordering
    ensures { result ≡ column_cmp variable a.now b.now }
{
    match compare_beside(variable, a, b) {
        Ordering::Equal => {
            low_of(a.cube.literals(), variable).cmp(&low_of(b.cube.literals(), variable))
        }
        unequal => unequal,
    }
}

/// Whether `b` follows `a`: they have one time and the same literals on other variables, and `b`'s range of this one
/// begins right behind the end of `a`'s.
fn is_followed(faults: u8, variable: u8, a: &Column, b: &Column) -> bool
    ensures { result ≡ is_followed faults variable a.now b.now }
{
    // in 32 bits, since the high may be the greatest byte
    let next = u32::from(high_of(faults, a.cube.literals(), variable)) + 1;
    next == u32::from(low_of(b.cube.literals(), variable)) && compare_beside(variable, a, b).is_eq()
}

/// Whether a literal has the whole range of its variable, and so says nothing.
fn is_whole(faults: u8, literal: &Literal) -> bool
    ensures { result ≡ is_whole faults literal.now }
{
    literal.low == 0 && literal.high == top(faults, literal.variable)
}

/// Returns a copy of the cube without the literals that have the whole range of their variable.
fn shorn_cube(alloc: Global, faults: u8, cube: &Cube) -> Result<Cube, OutOfMemory>
    ensures { IfOk result (λ shorn_cube. shorn_cube ≡ shorn faults cube.now) }
{
    let mut shorn = Cube::whole(alloc);
    for literal in cube.literals() {
        if !is_whole(faults, literal) {
            shorn.push(*literal)?;
        }
    }
    Ok(shorn)
}

/// Returns a copy of the cube with `high` as the end of the variable's range. If no literal is on the variable, it is
/// an equal cube.
fn raised_cube(alloc: Global, variable: u8, high: u8, cube: &Cube) -> Result<Cube, OutOfMemory>
    ensures { IfOk result (λ raised_cube. raised_cube ≡ raised variable high cube.now) }
{
    let mut raised = Cube::whole(alloc);
    for literal in cube.literals() {
        let high = if literal.variable == variable {
            high
        } else {
            literal.high
        };
        raised.push(Literal { high, ..*literal })?;
    }
    Ok(raised)
}

/// Returns `a` with its range of the variable extended to the end of `b`'s, and without literals that have the whole
/// range of their variable. If `b` follows `a`, this is the two made one. `b`'s other literals and its time aren't
/// looked at.
fn join(
    alloc: Global,
    faults: u8,
    variable: u8,
    a: &Column,
    b: &Column,
) -> Result<Column, OutOfMemory>
    ensures { IfOk result (λ column. column ≡ joined faults variable a.now b.now) }
{
    let high = high_of(faults, b.cube.literals(), variable);
    let raised = raised_cube(alloc, variable, high, &a.cube)?;
    Ok(Column {
        time: a.time,
        cube: shorn_cube(alloc, faults, &raised)?,
    })
}

/// Whether some literal of the cube has the whole range of its variable.
fn has_whole(faults: u8, cube: &Cube) -> bool
    ensures { result ≡ list_any (is_whole faults) cube.now }
{
    cube.literals()
        .iter()
        .any(|literal| is_whole(faults, literal))
}

/// Whether some literal of a column has the whole range of its variable.
fn has_any_whole(faults: u8, columns: &[Column]) -> bool
    ensures { result ≡ list_any (λ c. list_any (is_whole faults) c.cube) columns.now }
{
    columns.iter().any(|column| has_whole(faults, &column.cube))
}

/// Returns copies of the columns without the literals that have the whole range of their variable.
fn shorn_copies(alloc: Global, faults: u8, columns: &[Column]) -> Result<Vec<Column>, OutOfMemory>
    ensures { IfOk result (λ r. r.items ≡ all_shorn faults columns.now) }
{
    let mut shorn = Vec::new(alloc);
    shorn.reserve(columns.len())?;
    for column in columns {
        shorn.push(Column {
            time: column.time,
            cube: shorn_cube(alloc, faults, &column.cube)?,
        })?;
    }
    Ok(shorn)
}

/// Returns the columns without the literals that have the whole range of their variable. Usually there are none, and
/// the columns are returned as they are.
pub(crate) fn shorn_columns(
    alloc: Global,
    faults: u8,
    columns: Vec<Column>,
) -> Result<Vec<Column>, OutOfMemory>
    ensures { IfOk result (λ r. r.items ≡ all_shorn faults columns.items) }
{
    // nothing has to be taken out
    if !has_any_whole(faults, columns.as_slice()) {
        return Ok(columns);
    }
    shorn_copies(alloc, faults, columns.as_slice())
}

/// Whether some column follows the one before it at the variable; false if there are fewer than two.
fn is_any_followed(faults: u8, variable: u8, columns: &[Column]) -> bool
    ensures { result ≡ is_any_followed faults variable columns.now }
{
    let Some((first, rest)) = columns.split_first() else {
        return false;
    };
    let mut last = first;
    for next in rest {
        if is_followed(faults, variable, last, next) {
            return true;
        }
        last = next;
    }
    false
}

/// Returns the columns with neighbours made one where the second follows the first. A column that was joined may be
/// joined with the next one too.
fn join_neighbours(
    alloc: Global,
    faults: u8,
    variable: u8,
    columns: Vec<Column>,
) -> Result<Vec<Column>, OutOfMemory>
    ensures { IfOk result (λ r. r.items ≡ walked_over faults variable columns.items) }
{
    let mut joined = Vec::new(alloc);
    joined.reserve(columns.len())?;
    let mut rest = columns.into_iter();
    // there are no columns
    let Some(first) = rest.next() else {
        return Ok(joined);
    };
    let mut current = first;
    // `current` is the last column so far, with those that it was joined with
    for next in rest {
        if is_followed(faults, variable, &current, &next) {
            current = join(alloc, faults, variable, &current, &next)?;
        } else {
            joined.push(mem::replace(&mut current, next))?;
        }
    }
    joined.push(current)?;
    Ok(joined)
}

/// Returns the columns with neighbours made one where the second follows the first. If none does, they are returned as
/// they are.
pub(crate) fn joined_columns(
    alloc: Global,
    faults: u8,
    variable: u8,
    columns: Vec<Column>,
) -> Result<Vec<Column>, OutOfMemory>
    ensures { IfOk result (λ r. r.items ≡ walked_over faults variable columns.items) }
{
    // nothing has to be joined
    if !is_any_followed(faults, variable, columns.as_slice()) {
        return Ok(columns);
    }
    join_neighbours(alloc, faults, variable, columns)
}
