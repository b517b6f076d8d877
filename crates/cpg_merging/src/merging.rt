//! Joining the columns of a row, variable by variable, until no two touch.
ghost use Rattle.std.specs.Prelude.{ℕ, ◌≡◌, ◌<◌, ◌≤◌, IfOk, IsPermutation, false};
ghost use Rattle.cpg_base.specs.Numbers.{numbers_below};
ghost use Rattle.cpg_base.specs.Graph.{IsVariable, process_count};
ghost use Rattle.cpg_merging.specs.Merged.{AreMergeable, HaveNoWhole, IsMergeOf};
ghost use Rattle.cpg_cube.specs.Keys.{AreByLows};
ghost use Rattle.cpg_merging.specs.Merging.{IsShorn, IsPassed, IsBetween, IsSortedAs, AreSettled};
ghost use Rattle.std.specs.Bool.{OnTrue};
ghost use Rattle.cpg_merging.specs.Totals.{AreMarked};

use crate::joins::{compare, joined_columns, shorn_columns};
use crate::marks::Marked;
use cpg_base::{FIRST_VALUE, Order, OutOfMemory, Problem};
use cpg_cube::{Column, Listing};
use std::alloc::Global;

/// Returns the columns with those joined that touch at the variable. They are sorted for that.
fn joined_on(
    alloc: Global,
    problem: &Problem,
    variable: u8,
    columns: Vec<Column>,
) -> Result<Vec<Column>, OutOfMemory>
    requires shorn { IsShorn problem.now columns.items }
    requires known { IsVariable problem.now variable }
    ensures { IfOk result (λ r. IsPassed problem.now (λ v. v ≡ variable) columns.items r.items) }
{
    let k = problem.faults();
    // the sort is stable and makes use of runs that are sorted already, as most columns stand in such
    let mut columns = columns;
    columns.sort_by(|a, b| compare(variable, a, b))?;
    joined_columns(alloc, k, variable, columns)
}

/// Returns the columns as a listing that isn't known to be sorted by least scenarios.
fn unsorted(columns: Vec<Column>) -> Listing
    ensures { result ≡ record { columns = columns; is_sorted = false } }
{
    Listing {
        columns,
        is_sorted: false,
    }
}

/// Joins columns that touch at the variable. If it isn't marked, none do, and nothing changes.
fn joined_at(
    alloc: Global,
    problem: &Problem,
    variable: u8,
    marked: Marked,
) -> Result<Marked, OutOfMemory>
    requires shorn { IsShorn problem.now marked.listing.columns.items }
    requires marked { AreMarked problem.now marked.marks marked.listing.columns.items }
    requires known { IsVariable problem.now variable }
    ensures passed { IfOk result (λ r. IsPassed problem.now (λ v. v ≡ variable) marked.listing.columns.items r.listing.columns.items) }
    ensures marked { IfOk result (λ r. AreMarked problem.now r.marks r.listing.columns.items) }
    ensures sorted { IfOk result (λ r. IsSortedAs marked.listing r.listing) }
{
    // asked only for its clause: the graph is within its limits
    let _processes = problem.processes();
    // no two columns touch at this variable
    if !marked.marks[variable as usize] {
        return Ok(marked);
    }
    let Marked { listing, marks } = marked;
    let count = listing.columns.len();
    let columns = joined_on(alloc, problem, variable, listing.columns)?;
    // none was joined, so the marks stay right, but the sort has moved columns
    if columns.len() == count {
        return Ok(Marked {
            listing: unsorted(columns),
            marks,
        });
    }
    // joined columns may touch at other variables, so the marks are found anew
    Marked::of(alloc, problem, unsorted(columns))
}

/// Joins columns that touch at any of the variables from `first` on and below `end`, one variable after another.
fn joined_over(
    alloc: Global,
    problem: &Problem,
    first: u8,
    end: u8,
    marked: Marked,
) -> Result<Marked, OutOfMemory>
    requires shorn { IsShorn problem.now marked.listing.columns.items }
    requires marked { AreMarked problem.now marked.marks marked.listing.columns.items }
    requires known { (v : ℕ) → first ≤ v → v < end → IsVariable problem.now v }
    ensures passed { IfOk result (λ r. IsPassed problem.now (IsBetween first end) marked.listing.columns.items r.listing.columns.items) }
    ensures marked { IfOk result (λ r. AreMarked problem.now r.marks r.listing.columns.items) }
    ensures sorted { IfOk result (λ r. IsSortedAs marked.listing r.listing) }
{
    let mut marked = marked;
    for variable in first..end {
        marked = joined_at(alloc, problem, variable, marked)?;
    }
    Ok(marked)
}

/// Joins columns that touch, going over all variables once. Joined columns may touch again at a variable gone over
/// before.
fn joined_once(alloc: Global, problem: &Problem, marked: Marked) -> Result<Marked, OutOfMemory>
    requires shorn { IsShorn problem.now marked.listing.columns.items }
    requires marked { AreMarked problem.now marked.marks marked.listing.columns.items }
    ensures passed { IfOk result (λ r. IsPassed problem.now (IsVariable problem.now) marked.listing.columns.items r.listing.columns.items) }
    ensures marked { IfOk result (λ r. AreMarked problem.now r.marks r.listing.columns.items) }
    ensures sorted { IfOk result (λ r. IsSortedAs marked.listing r.listing) }
{
    // usually no variable is marked
    if !marked.marks.contains(&true) {
        return Ok(marked);
    }
    // the variables are the fault counts, from 0 on, and the values, from `FIRST_VALUE` on; there are at most 128 and 32 of
    // them, so the casts keep their counts
    let processes = problem.processes().len() as u8;
    let marked = joined_over(alloc, problem, 0, processes, marked)?;
    let end = FIRST_VALUE + problem.conditions() as u8;
    joined_over(alloc, problem, FIRST_VALUE, end, marked)
}

/// Joins columns until no two of one time touch at any variable. The result is known to be sorted only if the columns
/// were, and none was joined or moved.
fn settled(alloc: Global, problem: &Problem, listing: Listing) -> Result<Listing, OutOfMemory>
    requires { IsShorn problem.now listing.columns.items }
    ensures settled { IfOk result (λ r. AreSettled problem.now listing.columns.items r.columns.items) }
    ensures sorted { IfOk result (λ r. IsSortedAs listing r) }
{
    let mut marked = Marked::of(alloc, problem, listing)?;
    loop {
        let count = marked.listing.columns.len();
        marked = joined_once(alloc, problem, marked)?;
        if marked.listing.columns.len() == count {
            return Ok(marked.listing);
        }
    }
}

/// Returns the columns of a row, merged: they have the times of the given ones in every scenario of at most as many
/// faults as the problem has, and no two have one time, equal ranges of all variables but one, and ranges of that one
/// which touch. Each allows all that a given column allows which matches together with it. No literal has the whole
/// range of its variable, and the columns stand by the least scenario along the order that each matches.
pub fn merged(
    alloc: Global,
    problem: &Problem,
    order: &Order,
    columns: Vec<Column>,
) -> Result<Vec<Column>, OutOfMemory>
    requires order { IsPermutation (numbers_below (process_count problem.now)) order.now }
    requires columns { AreMergeable problem.now columns.items }
    ensures { IfOk result (λ r. IsMergeOf problem.now order.now columns.items r.items) }
{
    let shorn = shorn_columns(alloc, problem.faults(), columns)?;
    let listing = settled(alloc, problem, unsorted(shorn))?;
    listing.sorted(alloc, problem, order)
}

/// Returns what `merged` returns, for columns of which no literal has the whole range of its variable. They aren't
/// sorted again if they are known to stand by the least scenario that each matches and none is joined. The one error
/// is `OutOfMemory`.
pub fn merged_tidy(
    alloc: Global,
    problem: &Problem,
    order: &Order,
    listing: Listing,
) -> Result<Vec<Column>, OutOfMemory>
    requires order { IsPermutation (numbers_below (process_count problem.now)) order.now }
    requires columns { AreMergeable problem.now listing.columns.items }
    requires tidy { HaveNoWhole problem.now.faults listing.columns.items }
    requires sorted { OnTrue listing.is_sorted (AreByLows (λ c. c.cube) problem.now order.now listing.columns.items) }
    ensures { IfOk result (λ r. IsMergeOf problem.now order.now listing.columns.items r.items) }
{
    // asked only for its clause: the graph is within its limits
    let _processes = problem.processes();
    let listing = settled(alloc, problem, listing)?;
    listing.sorted(alloc, problem, order)
}
