//! Rows whose columns are searched by time.
ghost use Rattle.std.specs.Prelude.{◌≡◌, ◌<◌, ◌≤◌, ℕ, [], IfOk, IsTrue, Some, get_or, length, map};
ghost use Rattle.cpg_list.specs.TimeOrder.{TimedColumn, IsTimeOrder, StartsAt, FindsHit};

use cpg_base::{OutOfMemory, Scenario};
use cpg_cube::Column;
use cpg_table::Row;
use std::alloc::Global;
use std::marker::Model;

/// How many columns, from the likely place on, are tried before the search by time.
const NEAR: usize = 4;

/// The time of a column, and its place in the row.
#[derive(Clone, Copy, Debug, PartialEq, Eq, PartialOrd, Ord)]
pub(crate) struct TimedColumn {
    /// The time of the column. It comes first, so that an earlier time is less.
    pub(crate) time: u64,
    /// The place of the column in the row's list.
    pub(crate) place: usize,
}

/// The row of an item, which can be searched by time.
#[derive(Drop)]
pub(crate) struct TimedRow {
    /// The number of the item.
    item: u32,
    /// The columns of the row, in the order of the row.
    columns: Vec<Column>,
    /// The time and the place of each column, the earlier times first.
    by_time: Vec<TimedColumn>,
}

impl Model for TimedRow {
    ghost use Rattle.cpg_table.specs.Table.{Row};
    ghost use Rattle.cpg_list.specs.TimeOrder.{IsTimeOrder};

    ghost Value = { Row };

    ghost view = { λ r. record { item = r.item; columns = r.columns.items } };

    // `by_time` lists just the columns of the row, the earlier times first
    ghost invariant = { λ r. IsTimeOrder r.columns.items r.by_time.items };
}

/// Returns the first place of `by_time` whose time is at least `time`, or the length of `by_time` if there is none.
fn first_at(by_time: &[TimedColumn], time: u64) -> usize
    requires { (i j : ℕ) (d : TimedColumn) → i ≤ j → j < length by_time.now → (get_or by_time.now i d).time ≤ (get_or by_time.now j d).time }
    ensures { StartsAt by_time.now time result }
{
    by_time.partition_point(|timed| timed.time < time)
}

/// Returns the time and the place of each column, the earlier times first.
fn ordered_by_time(alloc: Global, columns: &[Column]) -> Result<Vec<TimedColumn>, OutOfMemory>
    ensures { IfOk result (λ by_time. IsTimeOrder columns.now by_time.items) }
{
    let mut by_time = Vec::new(alloc);
    by_time.reserve(columns.len())?;
    for place in 0..columns.len() {
        by_time.push(TimedColumn {
            time: columns[place].time,
            place,
        })?;
    }
    by_time.sort_by_key(|timed| timed.time)?;
    Ok(by_time)
}

/// For each item the place of the column that matched last, at which a search begins. A wrong place costs time only.
#[derive(Drop)]
pub(crate) struct Hints {
    /// The place to begin at, by item; 0 until a column of the item has matched.
    places: Vec<usize>,
}

impl Hints {
    /// Returns hints for `count` items, with the place 0 for each.
    pub(crate) fn new(alloc: Global, count: usize) -> Result<Hints, OutOfMemory> {
        Ok(Hints {
            places: vec![in alloc; 0usize; count]?,
        })
    }

    /// Returns the place at which a column of an item matched last, or 0 if none has or the item has no hint.
    pub(crate) fn last(&self, item: u32) -> usize {
        self.places.get(item as usize).copied().unwrap_or(0)
    }

    /// Notes the place at which a column of an item matches. An item without a hint is passed over.
    pub(crate) fn note(&mut self, item: u32, place: usize) {
        if (item as usize) < self.places.len() {
            self.places[item as usize] = place;
        }
    }
}

/// Whether there is a column at a place that has this time and matches in a scenario. The contract says only that true is
/// right: after a wrong false the column would be found by its time.
fn is_hit(columns: &[Column], place: usize, time: u64, scenario: &Scenario) -> bool
    ensures { IsTrue result → FindsHit columns.now time scenario.now (Some place) }
{
    match columns.get(place) {
        Some(column) => column.time == time && column.cube.matches(scenario),
        None => false,
    }
}

/// Returns the place of a column that has this time and matches in a scenario, and `None` exactly if there is none.
/// `by_time` has the time and the place of each column, the earlier times first.
fn hit(columns: &[Column], by_time: &[TimedColumn], time: u64, scenario: &Scenario) -> Option<usize>
    requires { IsTimeOrder columns.now by_time.now }
    ensures { FindsHit columns.now time scenario.now result }
{
    let first = first_at(by_time, time);
    for at in first..by_time.len() {
        let timed = by_time[at];
        // the columns of one time follow each other in `by_time`, so all of this time are tried by now
        if timed.time != time {
            return None;
        }
        if columns[timed.place].cube.matches(scenario) {
            return Some(timed.place);
        }
    }
    None
}

impl TimedRow {
    /// Returns the row of the item with the number `item`, with these columns.
    pub(crate) fn new(
        alloc: Global,
        item: u32,
        columns: Vec<Column>,
    ) -> Result<TimedRow, OutOfMemory>
        ensures { IfOk result (λ row. row ≡ record { item = item; columns = columns.items }) }
    {
        let by_time = ordered_by_time(alloc, columns.as_slice())?;
        Ok(TimedRow {
            item,
            columns,
            by_time,
        })
    }

    /// Returns the columns of the row, in its order.
    pub(crate) fn columns(&self) -> &[Column]
        ensures { result.now ≡ self.now.columns }
    {
        self.columns.as_slice()
    }

    /// Returns the place of a column that has this time and matches in a scenario, and `None` exactly if there is none. It
    /// tries some columns from the place `likely` on first, since scenarios that follow each other mostly match columns that
    /// do. Any place may be given.
    pub(crate) fn find(&self, time: u64, scenario: &Scenario, likely: usize) -> Option<usize>
        ensures { FindsHit self.now.columns time scenario.now result }
    {
        // a sum past the greatest number would be no place anyway
        for place in likely..likely.saturating_add(NEAR) {
            if is_hit(self.columns.as_slice(), place, time, scenario) {
                return Some(place);
            }
        }
        hit(
            self.columns.as_slice(),
            self.by_time.as_slice(),
            time,
            scenario,
        )
    }

    /// Returns the row as tables have it, with a copy of the columns.
    pub(crate) fn to_row(&self) -> Result<Row, OutOfMemory>
        ensures { IfOk result (λ row. row ≡ self.now) }
    {
        let columns = self.columns.clone()?;
        Ok(Row::new(self.item, columns))
    }
}

/// Returns the rows as tables have them, with copies of the columns.
pub(crate) fn to_rows(alloc: Global, rows: &[TimedRow]) -> Result<Vec<Row>, OutOfMemory>
    ensures { IfOk result (λ r. r.items ≡ rows.now) }
{
    let mut copy = Vec::new(alloc);
    copy.reserve(rows.len())?;
    for row in rows {
        copy.push(row.to_row()?)?;
    }
    Ok(copy)
}
