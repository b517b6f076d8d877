//! What a node may do, in order of time: the entries of its plan, each a column of a send or a start. The errors are those
//! of memory.
ghost use Rattle.std.specs.Prelude.{◌≡◌, ◌≤◌, ◌<◌, ◌+◌, ◌^◌, ◌++◌, ◌∷◌, [], ℕ, Some, None, IsPermutation, slice_get, IfOk, OnOk, All, length, map, filter, get_or, slice_index, slice_index_or};
ghost use Rattle.cpg_base.specs.declared.limits.TheConstants.{MOST_COLUMNS};
ghost use Rattle.std.specs.List.Sorted.{IsNonDecreasingBy};
ghost use Rattle.std.specs.Vec.{vec_len, vec_capacity};
ghost use Rattle.cpg_table.specs.Lawful.{IsTable};
ghost use Rattle.cpg_node.specs.Dispatcher.{times_in, no_column};
ghost use Rattle.cpg_node.specs.Plan.{plan_of_columns, plan_from, plan_of, no_row, act_of, takes, fixed_times, SameAtEachTime};

use crate::Act;
use crate::heard::have_heard;
use crate::range::Range;
use cpg_base::OutOfMemory;
use cpg_cube::{Column, Literal};
use cpg_table::{NodeTable, Row};
use std::alloc::Global;

/// A column of an item that a node sends or starts: its time and its place in the table.
#[derive(Clone, Copy, Debug, PartialEq, Eq)]
pub struct Planned {
    /// Its time, in time units of the graph file.
    pub time: u64,
    /// The place of its row in the table's sends, and after them its starts.
    pub row: usize,
    /// The item of the row.
    pub item: u32,
    /// The place of the column in its row.
    pub column: u32,
}

/// Adds the entries of a row's columns; `row` is the place of the row. Here and below, `Err` only if memory runs out.
fn plan_columns(
    plan: &mut Vec<Planned>,
    row: usize,
    item: u32,
    columns: &[Column],
) -> Result<(), OutOfMemory>
    requires { length columns.now ≤ MOST_COLUMNS }
    ensures { OnOk result (plan.new.items ≡ plan.old.items ++ plan_of_columns row item 0 columns.now) }
{
    let mut column: u32 = 0;
    for entry in columns {
        plan.push(Planned {
            time: entry.time,
            row,
            item,
            column,
        })?;
        column += 1;
    }
    Ok(())
}

/// Adds the entries of rows, the first of which has the place `first`.
fn plan_rows(plan: &mut Vec<Planned>, first: usize, rows: &[Row]) -> Result<(), OutOfMemory>
    requires few { All (λ row. length row.columns ≤ MOST_COLUMNS) rows.now }
    requires place { first + length rows.now < 2 ^ 64 }
    ensures { OnOk result (plan.new.items ≡ plan.old.items ++ plan_from first rows.now) }
{
    let mut place = first;
    for row in rows {
        plan_columns(plan, place, row.item(), row.columns())?;
        place += 1;
    }
    Ok(())
}

/// Returns the entries of all that a node sends and starts, in order of time; those of one time in the order of the table.
pub fn plan_of(alloc: Global, table: &NodeTable) -> Result<Vec<Planned>, OutOfMemory>
    ensures same { IfOk result (λ plan. SameAtEachTime plan.items (plan_of table.now)) }
    ensures rises { IfOk result (λ plan. IsNonDecreasingBy (λ p. p.time) plan.items) }
{
    let mut plan = Vec::new(alloc);
    // sends first, then starts: the sort is stable, so it keeps this order at each time
    plan_rows(&mut plan, 0, table.sends())?;
    plan_rows(&mut plan, table.sends().len(), table.starts())?;
    plan.sort_by_key(|planned| planned.time)?;
    Ok(plan)
}

/// Adds the times of columns.
pub fn add_times(times: &mut Vec<u64>, columns: &[Column]) -> Result<(), OutOfMemory>
    ensures { OnOk result (times.new.items ≡ times.old.items ++ map (λ c. c.time) columns.now) }
{
    for entry in columns {
        times.push(entry.time)?;
    }
    Ok(())
}

/// Adds the times of all columns of rows.
fn add_times_in(times: &mut Vec<u64>, rows: &[Row]) -> Result<(), OutOfMemory>
    ensures { OnOk result (times.new.items ≡ times.old.items ++ times_in rows.now) }
{
    for row in rows {
        add_times(times, row.columns())?;
    }
    Ok(())
}

/// Returns the times of all columns of a table, in order.
pub fn times_of(alloc: Global, table: &NodeTable) -> Result<Vec<u64>, OutOfMemory>
    ensures same { IfOk result (λ times. IsPermutation (fixed_times table.now) times.items) }
    ensures rises { IfOk result (λ times. IsNonDecreasingBy (λ t. t) times.items) }
{
    let mut times = Vec::new(alloc);
    add_times_in(&mut times, table.starts())?;
    add_times_in(&mut times, table.sends())?;
    add_times_in(&mut times, table.hears())?;
    times.sort_unstable();
    Ok(times)
}

/// Returns the time at a place, or `None` if there is none.
pub fn time_at(times: &[u64], place: usize) -> Option<u64>
    ensures { result ≡ slice_get times.now place }
{
    times.get(place).copied()
}

/// Returns the place of the first time from `from` on that is after `time`; how many times there are if none is.
pub fn past_times(times: &[u64], from: usize, time: u64) -> usize
    requires within { from ≤ length times.now }
    ensures within { (from ≤ result) × (result ≤ length times.now) }
    ensures before { (i d : ℕ) → from ≤ i → i < result → slice_index_or times.now i d ≤ time }
    ensures here { (d : ℕ) → result < length times.now → time < slice_index_or times.now result d }
{
    let mut place = from;
    // one after another, as a turn passes few
    while place < times.len() {
        if times[place] > time {
            return place;
        }
        place += 1;
    }
    place
}

/// Returns the place of the first entry from `from` on that is after `time`; the plan's length if none is.
pub fn past_entries(plan: &[Planned], from: usize, time: u64) -> usize
    requires within { from ≤ length plan.now }
    ensures within { (from ≤ result) × (result ≤ length plan.now) }
    ensures before { (i : ℕ) (d : Planned) → from ≤ i → i < result → (slice_index_or plan.now i d).time ≤ time }
    ensures here { (d : Planned) → result < length plan.now → time < (slice_index_or plan.now result d).time }
{
    let mut place = from;
    // one after another, as a turn passes few
    while place < plan.len() {
        if plan[place].time > time {
            return place;
        }
        place += 1;
    }
    place
}

/// Returns the columns of the row at a place; none if there is no row.
fn columns_at(rows: &[Row], place: usize) -> &[Column]
    ensures { result.now ≡ (get_or rows.now place no_row).columns }
{
    let Some(row) = rows.get(place) else {
        return &[];
    };
    row.columns()
}

/// Returns the columns of the row at a place in the table's sends, and after them its starts; none if there is no row.
fn columns_of(table: &NodeTable, place: usize) -> &[Column]
    ensures { result.now ≡ (get_or (table.now.sends ++ table.now.starts) place no_row).columns }
{
    let sends = table.sends();
    // places of starts count on from those of sends
    if place < sends.len() {
        return columns_at(sends, place);
    }
    columns_at(table.starts(), place - sends.len())
}

/// Returns the literals of the column at a place; none if there is no column.
fn literals_at(columns: &[Column], place: usize) -> &[Literal]
    ensures { result.now ≡ (get_or columns.now place no_column).cube }
{
    let Some(entry) = columns.get(place) else {
        return &[];
    };
    entry.cube.literals()
}

/// Returns whether all literals of an entry follow from what has been heard.
fn takes(table: &NodeTable, heard: &[Range], planned: &Planned) -> bool
    ensures { result ≡ takes (table.now.sends ++ table.now.starts) heard.now planned.now }
{
    let columns = columns_of(table, planned.row);
    have_heard(heard, literals_at(columns, planned.column as usize))
}

/// Adds the act of an entry, if its literals all follow from what has been heard.
fn add_act(table: &NodeTable, heard: &[Range], planned: &Planned, acts: &mut Vec<Act>)
    requires { vec_len acts.old < vec_capacity acts.old }
    ensures added { acts.new.items ≡ acts.old.items ++ map act_of (filter (takes (table.now.sends ++ table.now.starts) heard.now) (planned.now ∷ [])) }
    ensures one { vec_len acts.new ≤ vec_len acts.old + 1 }
    ensures room { vec_capacity acts.new ≡ vec_capacity acts.old }
{
    if takes(table, heard, planned) {
        acts.push_reserved(Act {
            time: planned.time,
            item: planned.item,
            column: planned.column,
        });
    }
}

/// Puts the acts of those entries whose literals all follow from what has been heard in place of what `acts` had.
pub fn gather_acts(table: &NodeTable, heard: &[Range], plan: &[Planned], acts: &mut Vec<Act>)
    requires room { length plan.now ≤ vec_capacity acts.old }
    ensures acts { acts.new.items ≡ map act_of (filter (takes (table.now.sends ++ table.now.starts) heard.now) plan.now) }
    ensures room { vec_capacity acts.new ≡ vec_capacity acts.old }
{
    acts.clear();
    for planned in plan {
        add_act(table, heard, planned, acts);
    }
}
