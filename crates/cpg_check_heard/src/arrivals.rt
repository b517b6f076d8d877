//! The columns whose frames a node may have heard by the time of a column that is judged. They are found once for that
//! column, and then asked what they tell of each of its literals.
ghost use Rattle.std.specs.Prelude.{◌≡◌, ◌≤◌, ◌||◌, All, Contains, IfOk, false, true};
ghost use Rattle.std.specs.Bool.{OnFalse, OnTrue};
ghost use Rattle.std.specs.List.{list_any};
ghost use Rattle.cpg_base.specs.Graph.{Graph, IsVariable};
ghost use Rattle.cpg_base.specs.Scenario.{Scenario, IsScenario};
ghost use Rattle.cpg_cube.specs.Cube.{matches};
ghost use Rattle.cpg_cube.specs.Fit.{IsKnown};
ghost use Rattle.cpg_table.specs.Shape.{heard_by};
ghost use Rattle.cpg_cube.specs.declared.column.Column.{Column};
ghost use Rattle.cpg_violation.specs.SievedRows.{IsSievedRow};
ghost use Rattle.cpg_check_heard.specs.Arrivals.{AreArrivals, IsArrival, do_tell};
ghost use Rattle.cpg_check_heard.specs.Bounds.{variable_of};
ghost use Rattle.cpg_check_heard.specs.Hearings.{IsHearing};
ghost use Rattle.cpg_check_heard.specs.TellingRows.{CanTell, is_telling, is_telling_at, row_tells};
ghost use Rattle.cpg_check_heard.specs.declared.bound.LiteralBound.{LiteralBound};

use crate::bound::LiteralBound;
use crate::hearing::Hearing;
use crate::parts::{add, part_of};
use crate::telling_rows::{Means, TellingRow};
use cpg_base::{OutOfMemory, Problem};
use cpg_cube::{Column, Cube};
use cpg_violation::has_come;
use std::alloc::Global;

/// A column that may tell something by the time of the column that is judged, and by what means it does.
#[derive(Clone, Copy)]
pub(crate) struct Arrival<'a> {
    /// A column of a row that tells the node something.
    pub(crate) column: &'a Column,
    /// By what means the column tells it.
    pub(crate) means: Means,
}

/// Whether what a column at `start`, or a later one, begins may have come by `time`: false only if the end or the frame
/// comes later in every scenario.
pub(crate) fn may_have_come(means: Means, start: u64, time: u64) -> bool
    ensures { OnFalse result ((g : Graph) (b : LiteralBound) (s : Scenario) (c : Column) → start ≤ c.time → is_telling g means time b s c ≡ false) }
{
    match means {
        // an execution may end as soon as it starts, for all that is known here
        Means::End { .. } => start <= time,
        Means::Frame { delay, .. } => has_come(start, delay, time),
    }
}

/// Adds to `arrivals` the column at `place`, if there is one and what it begins may have come by `time`. `means` are
/// those of its row.
fn add_column<'a>(
    means: Means,
    columns: &'a [Column],
    place: u32,
    time: u64,
    arrivals: &mut Vec<Arrival<'a>>,
) -> Result<(), OutOfMemory>
    ensures each { IfOk result (λ _. (g : Graph) → All (λ c. IsKnown g c.cube) columns.now → ((b : LiteralBound) → CanTell g b means)
        → All (IsArrival g) arrivals.old.items → All (IsArrival g) arrivals.new.items) }
    ensures told { IfOk result (λ _. (g : Graph) (b : LiteralBound) (s : Scenario)
        → do_tell g time b arrivals.new.items s ≡ (do_tell g time b arrivals.old.items s
        || is_telling_at g means time b columns.now s place)) }
{
    let Some(column) = columns.get(place as usize) else {
        return Ok(());
    };
    // it comes too late to tell anything
    if !may_have_come(means, column.time, time) {
        return Ok(());
    }
    arrivals.push(Arrival { column, means })?;
    Ok(())
}

/// Adds to `arrivals` the columns of a row that may match together with a cube, and whose ends or frames may have come
/// by a time. Where the cube matches, they tell just what the whole row tells (`told`).
fn add_row<'a>(
    alloc: Global,
    row: &TellingRow<'a>,
    cube: &Cube,
    time: u64,
    arrivals: &mut Vec<Arrival<'a>>,
) -> Result<(), OutOfMemory>
    requires { IsSievedRow row.now.sieved.now.columns.now row.now.sieved.now }
    ensures each { IfOk result (λ _. (g : Graph) → All (λ c. IsKnown g c.cube) row.now.sieved.now.columns.now
        → ((b : LiteralBound) → CanTell g b row.now.means) → All (IsArrival g) arrivals.old.items
        → All (IsArrival g) arrivals.new.items) }
    ensures told { IfOk result (λ _. (g : Graph) (b : LiteralBound) (s : Scenario) → matches cube.now s ≡ true
        → do_tell g time b arrivals.new.items s ≡ (do_tell g time b arrivals.old.items s
        || row_tells g row.now.means time b row.now.sieved.now.columns.now s)) }
{
    let sieved = row.sieved;
    // even the first column comes too late
    if !may_have_come(row.means, sieved.first, time) {
        return Ok(());
    }
    // each column that matches together with the cube is at one of these places
    let places = sieved.sieve.candidates(alloc, sieved.columns, cube)?;
    for place in places.as_slice() {
        add_column(row.means, sieved.columns, *place, time, arrivals)?;
    }
    Ok(())
}

impl<'a> Hearing<'a> {
    /// The columns of these items' rows that may match together with a cube, and whose frames may have come by a time.
    /// A node hears all the items; only the contract names `node`.
    pub(crate) fn arrivals(
        &self,
        alloc: Global,
        node: u32,
        items: &[u32],
        cube: &Cube,
        time: u64,
    ) -> Result<Vec<Arrival<'a>>, OutOfMemory>
        requires hearing { IsHearing self.now }
        requires items { All (Contains (heard_by self.now.admitted.now.graph node)) items.now }
        ensures { IfOk result (λ arrivals. AreArrivals self.now.admitted.now.graph self.now.tables.now.nodes time cube.now items.now arrivals.items) }
    {
        let mut arrivals = Vec::new(alloc);
        for item in items {
            let row = &self.telling_rows[*item as usize];
            add_row(alloc, row, cube, time, &mut arrivals)?;
        }
        Ok(arrivals)
    }
}

/// Whether wherever a cube matches, a column does, and its frame has come by a time and tells a bound by a literal of
/// the column. False guarantees nothing.
fn tells_whole(
    problem: &Problem,
    arrival: &Arrival<'_>,
    cube: &Cube,
    time: u64,
    bound: LiteralBound,
) -> bool
    requires cube { IsKnown problem.now cube.now }
    requires column { IsKnown problem.now arrival.now.column.now.cube }
    ensures { OnTrue result ((s : Scenario) → IsScenario problem.now s → matches cube.now s ≡ true
        → is_telling problem.now arrival.now.means time bound s arrival.now.column.now ≡ true) }
{
    // when an execution ends depends on its faults: that is left to the full search
    let Means::Frame { delay, .. } = arrival.means else {
        return false;
    };
    let column = arrival.column;
    if !has_come(column.time, delay, time) {
        return false;
    }
    // if at most the value that it carries tells the bound, that is left to the full search, too
    if !bound.is_told_by_any(column.cube.literals()) {
        return false;
    }
    cube.within(&column.cube, problem)
}

/// Whether one of these columns tells a bound by a time, by a literal of its frame, wherever a cube matches. False
/// guarantees nothing.
pub(crate) fn tells_one_whole(
    problem: &Problem,
    arrivals: &[Arrival<'_>],
    cube: &Cube,
    time: u64,
    bound: LiteralBound,
) -> bool
    requires cube { IsKnown problem.now cube.now }
    requires arrivals { All (IsArrival problem.now) arrivals.now }
    ensures { OnTrue result ((s : Scenario) → IsScenario problem.now s → matches cube.now s ≡ true
        → do_tell problem.now time bound arrivals.now s ≡ true) }
{
    arrivals
        .iter()
        .any(|arrival| tells_whole(problem, arrival, cube, time, bound))
}

/// Adds to `told` for each of these columns the part of its cube in which it tells a bound by a time, if there is one.
pub(crate) fn add_told(
    problem: &Problem,
    arrivals: &[Arrival<'_>],
    time: u64,
    bound: LiteralBound,
    told: &mut Vec<Cube>,
) -> Result<(), OutOfMemory>
    requires variable { IsVariable problem.now (variable_of bound) }
    requires arrivals { All (IsArrival problem.now) arrivals.now }
    requires told { All (IsKnown problem.now) told.old.items }
    ensures known { IfOk result (λ _. All (IsKnown problem.now) told.new.items) }
    ensures told { IfOk result (λ _. (s : Scenario) → IsScenario problem.now s
        → list_any (λ b. matches b s) told.new.items
        ≡ (list_any (λ b. matches b s) told.old.items || do_tell problem.now time bound arrivals.now s)) }
{
    for arrival in arrivals {
        let part = part_of(problem, arrival.means, arrival.column, time, bound)?;
        add(told, part)?;
    }
    Ok(())
}
