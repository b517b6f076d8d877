//! Marks of the variables at which two columns of a row may touch. A mark may be wrong, but at a variable without one
//! no two columns touch.
ghost use Rattle.std.specs.Prelude.{ℕ, ◌≡◌, Contains, IfOk, map};
ghost use Rattle.cpg_cube.specs.declared.literal.Literal.{Literal};
ghost use Rattle.cpg_merging.specs.Totals.{AreMarked, AreMarkedBy, AreSums, HasNoPartner, IsMarked, total_of};
ghost use Rattle.cpg_merging.specs.Merging.{IsShorn};

use crate::demands::do_amounts_differ;
use crate::kinds::candidates;
use crate::totals::{Sums, has_partner, sieve_of, totals};
use cpg_base::{OutOfMemory, Problem};
use cpg_cube::{BLOCK, Column, Listing, Literal, VARIABLES, begin_at_zero};
use std::alloc::Global;

/// Marks the variable of a literal if a column with this total may follow another one at the literal.
fn mark_at(sums: Sums<'_>, total: u64, literal: Literal, marks: &mut [bool; VARIABLES])
    requires { AreSums sums.sorted.now sums.sieve.now }
    ensures kept { (v : ℕ) → IsMarked marks.old v → IsMarked marks.new v }
    ensures marked { ¬ IsMarked marks.new literal.variable → HasNoPartner sums.entry.sorted.now total literal }
{
    // mostly a literal begins at 0; then no column follows another one at it, as no range ends before 0
    if literal.low == 0 {
        return;
    }
    let place = literal.variable as usize;
    // the variable is marked already
    if marks[place] {
        return;
    }
    marks[place] = has_partner(sums, total, literal);
}

/// Marks the variable of each of these literals at which a column with this total may follow another one.
fn mark_each(sums: Sums<'_>, total: u64, literals: &[Literal], marks: &mut [bool; VARIABLES])
    requires { AreSums sums.sorted.now sums.sieve.now }
    ensures kept { (v : ℕ) → IsMarked marks.old v → IsMarked marks.new v }
    ensures marked { (l : Literal) → Contains literals.now l → ¬ IsMarked marks.new l.variable → HasNoPartner sums.entry.sorted.now total l }
{
    for literal in literals {
        mark_at(sums, total, *literal, marks);
    }
}

/// Does what `mark_each` does for a block of literals; if all of them begin at 0, as they mostly do, by one test.
fn mark_block(
    sums: Sums<'_>,
    total: u64,
    literals: &[Literal; BLOCK],
    marks: &mut [bool; VARIABLES],
)
    requires { AreSums sums.sorted.now sums.sieve.now }
    ensures kept { (v : ℕ) → IsMarked marks.old v → IsMarked marks.new v }
    ensures marked { (l : Literal) → Contains literals.now l → ¬ IsMarked marks.new l.variable → HasNoPartner sums.entry.sorted.now total l }
{
    // no range ends before 0, so none of the block is marked
    if begin_at_zero(literals) {
        return;
    }
    mark_each(sums, total, literals, marks);
}

/// Does what `mark_each` does, block by block.
fn mark(sums: Sums<'_>, total: u64, literals: &[Literal], marks: &mut [bool; VARIABLES])
    requires { AreSums sums.sorted.now sums.sieve.now }
    ensures kept { (v : ℕ) → IsMarked marks.old v → IsMarked marks.new v }
    ensures marked { (l : Literal) → Contains literals.now l → ¬ IsMarked marks.new l.variable → HasNoPartner sums.entry.sorted.now total l }
{
    let mut left = literals;
    while let Some((block, rest)) = left.split_first_chunk::<BLOCK>() {
        mark_block(sums, total, block, marks);
        left = rest;
    }
    // fewer literals than a block has are left
    mark_each(sums, total, left, marks);
}

/// Returns at which variables some column may follow one whose total is among those of `sums`, by number. `totals` has
/// those of the columns.
fn marks_by(sums: Sums<'_>, totals: &[u64], columns: &[&Column]) -> [bool; VARIABLES]
    requires sums { AreSums sums.sorted.now sums.sieve.now }
    requires totals { totals.now ≡ map total_of (map (λ b. b.now) columns.now) }
    ensures { AreMarkedBy sums.entry.sorted.now result (map (λ b. b.now) columns.now) }
{
    let mut marks = [false; VARIABLES];
    for (place, column) in columns.iter().enumerate() {
        mark(sums, totals[place], column.cube.literals(), &mut marks);
    }
    marks
}

/// Returns at which variables some column may follow another one, judged by their totals, by number.
fn marks_over(alloc: Global, columns: &[&Column]) -> Result<[bool; VARIABLES], OutOfMemory>
    ensures { IfOk result (λ marks. AreMarkedBy (map total_of (map (λ b. b.now) columns.now)) marks (map (λ b. b.now) columns.now)) }
{
    let totals = totals(alloc, columns)?;
    let mut sorted = Vec::new(alloc);
    sorted.extend_from_slice(totals.as_slice())?;
    sorted.sort_unstable();
    let sieve = sieve_of(alloc, sorted.as_slice())?;
    let sums = Sums {
        sorted: sorted.as_slice(),
        sieve: sieve.as_slice(),
    };
    Ok(marks_by(sums, totals.as_slice(), columns))
}

/// Returns at which variables some column may follow another one, by number; false says that none does there. The one
/// error is `OutOfMemory`.
fn marks_of(
    alloc: Global,
    problem: &Problem,
    columns: &[Column],
) -> Result<[bool; VARIABLES], OutOfMemory>
    requires { IsShorn problem.now columns.now }
    ensures { IfOk result (λ marks. AreMarked problem.now marks columns.now) }
{
    // asked only for its clause: the graph is within its limits
    let _processes = problem.processes();
    // usually no two columns of one time ask differently, so none touch
    let differ = do_amounts_differ(alloc, columns)?;
    if !differ {
        return Ok([false; VARIABLES]);
    }
    let candidates = candidates(alloc, columns)?;
    // no two columns of one kind ask differently, so none touch
    if candidates.is_empty() {
        return Ok([false; VARIABLES]);
    }
    let marks = marks_over(alloc, candidates.as_slice())?;
    Ok(marks)
}

/// Columns, with marks of the variables at which two of them may touch.
#[derive(Drop)]
pub(crate) struct Marked {
    /// The columns, and whether they are known to stand by their least scenarios.
    pub(crate) listing: Listing,
    /// For each variable by number, whether two columns may touch at it.
    pub(crate) marks: [bool; VARIABLES],
}

impl Marked {
    /// Returns the columns with their marks. The one error is `OutOfMemory`.
    pub(crate) fn of(
        alloc: Global,
        problem: &Problem,
        listing: Listing,
    ) -> Result<Marked, OutOfMemory>
        requires { IsShorn problem.now listing.columns.items }
        ensures listing { IfOk result (λ marked. marked.listing ≡ listing) }
        ensures marks { IfOk result (λ marked. AreMarked problem.now marked.marks marked.listing.columns.items) }
    {
        let marks = marks_of(alloc, problem, listing.columns.as_slice())?;
        Ok(Marked { listing, marks })
    }
}
