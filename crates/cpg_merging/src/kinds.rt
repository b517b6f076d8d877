//! Kinds of columns. Columns that touch are of one kind and ask different amounts, so usually few columns are left
//! that have to be looked at.
ghost use Rattle.std.specs.Prelude.{ℕ, ◌≡◌, ◌%◌, ◌^◌, ◌<◌, IfOk, filter, get_or, length, map, sum_by};
ghost use Rattle.cpg_merging.specs.Demands.{low_of};
ghost use Rattle.cpg_merging.specs.Kinds.{AreTold, HoldCandidates, IsTold, is_candidate, kind_by, kind_of, variable_of};
ghost use Rattle.cpg_merging.specs.Totals.{IsMarked, place_in};

use crate::totals::{mixed, place_in};
use cpg_base::OutOfMemory;
use cpg_cube::{Column, Literal};
use std::alloc::Global;

/// How many places a table has for each column, so that kinds that differ seldom share a place.
const PLACES_PER_COLUMN: usize = 8;

/// What columns that touch have in common, and how much the column asks.
#[derive(Clone, Copy)]
struct ColumnKind {
    /// A number for the time, for how many literals there are and for the sum of their variables.
    number: u64,
    /// How much the column asks: the sum of the lows of its literals, as a byte.
    asked: u8,
}

/// Returns the kind of a column with this time and these literals.
fn kind_by(time: u64, literals: &[Literal]) -> ColumnKind
    ensures { result ≡ kind_by time literals.now }
{
    let mut variables: u8 = 0;
    let mut asked: u8 = 0;
    for literal in literals {
        variables = variables.wrapping_add(literal.variable);
        asked = asked.wrapping_add(literal.low);
    }
    let hash = mixed(mixed(0, time), literals.len() as u64);
    ColumnKind {
        number: mixed(hash, u64::from(variables)),
        asked,
    }
}

/// Returns the kinds of the columns. The one error is `OutOfMemory`.
fn kinds(alloc: Global, columns: &[Column]) -> Result<Vec<ColumnKind>, OutOfMemory>
    ensures { IfOk result (λ kinds. kinds.items ≡ map kind_of columns.now) }
{
    let mut kinds = Vec::new(alloc);
    kinds.reserve(columns.len())?;
    for column in columns {
        kinds.push(kind_by(column.time, column.cube.literals()))?;
    }
    Ok(kinds)
}

/// Returns, for each of `count` places, how much the last column of the place asks; 0 if it has none.
fn last_asked(alloc: Global, count: usize, kinds: &[ColumnKind]) -> Result<Vec<u8>, OutOfMemory>
    requires { 0 < count }
    ensures { IfOk result (λ amounts. length amounts.items ≡ count) }
{
    let mut amounts = vec![in alloc; 0u8; count]?;
    for kind in kinds {
        let place = place_in(count, kind.number);
        amounts.as_mut_slice()[place] = kind.asked;
    }
    Ok(amounts)
}

/// Notes a difference at the place of a column if it doesn't ask what the last column of the place does, which `amounts`
/// has.
fn note(amounts: &[u8], kind: ColumnKind, differing: &mut [bool])
    requires some { 0 < length amounts.now }
    requires long { length differing.old ≡ length amounts.now }
    ensures long { length differing.new ≡ length amounts.now }
    ensures kept { (p : ℕ) → IsMarked differing.old p → IsMarked differing.new p }
    ensures noted { IsTold amounts.now differing.new kind }
{
    let place = place_in(amounts.len(), kind.number);
    // it asks what the last column of the place asks
    if amounts[place] == kind.asked {
        return;
    }
    differing[place] = true;
}

/// Returns at which places some column doesn't ask what the last one of the place does, which `amounts` has.
fn differing(alloc: Global, amounts: &[u8], kinds: &[ColumnKind]) -> Result<Vec<bool>, OutOfMemory>
    requires { 0 < length amounts.now }
    ensures long { IfOk result (λ differing. length differing.items ≡ length amounts.now) }
    ensures told { IfOk result (λ differing. AreTold amounts.now differing.items kinds.now) }
{
    let mut differing = vec![in alloc; false; amounts.len()]?;
    for kind in kinds {
        note(amounts, *kind, differing.as_mut_slice());
    }
    Ok(differing)
}

/// Returns the columns whose place has a difference. `kinds` are their kinds.
fn chosen<'a>(
    alloc: Global,
    differing: &[bool],
    kinds: &[ColumnKind],
    columns: &'a [Column],
) -> Result<Vec<&'a Column>, OutOfMemory>
    requires some { 0 < length differing.now }
    requires kinds { kinds.now ≡ map kind_of columns.now }
    ensures { IfOk result (λ chosen. map (λ b. b.now) chosen.items ≡ filter (is_candidate differing.now) columns.now) }
{
    let mut chosen = Vec::new(alloc);
    for (place, column) in columns.iter().enumerate() {
        if differing[place_in(differing.len(), kinds[place].number)] {
            chosen.push(column)?;
        }
    }
    Ok(chosen)
}

/// Returns the columns whose place has columns that ask differently. All columns that touch another one are among
/// them. The one error is `OutOfMemory`.
pub(crate) fn candidates<'a>(
    alloc: Global,
    columns: &'a [Column],
) -> Result<Vec<&'a Column>, OutOfMemory>
    ensures { IfOk result (λ candidates. HoldCandidates columns.now (map (λ b. b.now) candidates.items)) }
{
    let kinds = kinds(alloc, columns)?;
    // one column more than there are, so that there is a place if there are none
    let count = kinds
        .len()
        .saturating_add(1)
        .saturating_mul(PLACES_PER_COLUMN);
    let amounts = last_asked(alloc, count, kinds.as_slice())?;
    let differing = differing(alloc, amounts.as_slice(), kinds.as_slice())?;
    let chosen = chosen(alloc, differing.as_slice(), kinds.as_slice(), columns)?;
    Ok(chosen)
}
