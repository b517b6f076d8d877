//! What a node has heard: the numbers that each variable may still have.
ghost use Rattle.std.specs.Prelude.{◌≡◌, ◌==◌, IfOk, not, fold, get_or, map, length};
ghost use Rattle.std.specs.List.{list_all, list_any};
ghost use Rattle.std.specs.Bool.{OnTrue, OnFalse};
ghost use Rattle.cpg_base.specs.Graph.{value_variable};
ghost use Rattle.cpg_base.specs.Numbers.{numbers_below};
ghost use Rattle.cpg_node.specs.Dispatcher.{know, cut, cut_all, has_heard, own_of, hear_end, hear_frame, is_contradicted, no_column, whole_range, variable_count};
ghost use Rattle.cpg_node.specs.State.{arrives};

use crate::own::own_of;
use crate::range::Range;
use crate::{Ended, Frame};
use cpg_base::{FIRST_VALUE, MOST_CONDITIONS, OutOfMemory, top};
use cpg_cube::{Column, Literal};
use cpg_table::NodeTable;
use std::alloc::Global;

/// How many variables there may be: those of fault counts, and after them those of values. With 128 and 32 of them the sum
/// fits a byte.
const VARIABLES: u8 = FIRST_VALUE + MOST_CONDITIONS as u8;

/// Returns the range of a variable of which nothing has been heard.
fn whole_range(faults: u8, variable: u8) -> Range
    ensures { result ≡ whole_range faults variable }
{
    let high = top(faults, variable);
    Range { low: 0, high }
}

/// Returns the ranges of all variables before anything is heard: a count may be any number up to `faults`, a value 0 or 1.
/// `Err` only if memory runs out.
pub fn whole_ranges(alloc: Global, faults: u8) -> Result<Vec<Range>, OutOfMemory>
    ensures { IfOk result (λ heard. heard.items ≡ map (whole_range faults) (numbers_below variable_count)) }
{
    let mut heard = Vec::new(alloc);
    heard.reserve(usize::from(VARIABLES))?;
    for variable in 0..VARIABLES {
        heard.push(whole_range(faults, variable))?;
    }
    Ok(heard)
}

/// Notes that a variable's number is known, whatever was heard of it.
fn know(heard: &mut [Range], variable: usize, number: u8)
    ensures { heard.new ≡ know heard.old variable number }
{
    // for a variable that isn't there nothing changes
    if variable < heard.len() {
        heard[variable] = Range {
            low: number,
            high: number,
        };
    }
}

/// Notes that a variable's number is in a range: what was heard of it is cut to that.
fn cut(heard: &mut [Range], variable: usize, low: u8, high: u8)
    ensures { heard.new ≡ cut heard.old (record { variable = variable; low = low; high = high }) }
{
    // for a variable that isn't there nothing changes
    if variable < heard.len() {
        let range = heard[variable];
        heard[variable] = Range {
            low: range.low.max(low),
            high: range.high.min(high),
        };
    }
}

/// Notes that literals hold.
fn cut_all(heard: &mut [Range], literals: &[Literal])
    ensures { heard.new ≡ cut_all heard.old literals.now }
{
    for literal in literals {
        cut(heard, literal.variable as usize, literal.low, literal.high);
    }
}

/// Returns whether a literal follows from what has been heard.
fn has_heard(heard: &[Range], literal: &Literal) -> bool
    ensures { result ≡ has_heard heard.now literal.now }
{
    // for a variable without a range; no literal of a table is on one
    let unknown = Range { low: 0, high: 0 };
    let range = heard
        .get(literal.variable as usize)
        .copied()
        .unwrap_or(unknown);
    literal.low <= range.low && range.high <= literal.high
}

/// Returns whether literals all follow from what has been heard.
pub fn have_heard(heard: &[Range], literals: &[Literal]) -> bool
    ensures { result ≡ list_all (has_heard heard.now) literals.now }
{
    literals.iter().all(|literal| has_heard(heard, literal))
}

/// Returns the condition of a process, or `None` if it has none or is of another node.
fn condition_of(table: &NodeTable, process: u32) -> Option<u32>
    ensures { result ≡ (own_of table.now process).condition }
{
    let own = own_of(table, process)?;
    own.condition
}

/// Returns the place of the range of a condition's value: those of fault counts come first.
fn value_place(condition: u32) -> usize
    ensures { result ≡ value_variable condition }
{
    usize::from(FIRST_VALUE) + condition as usize
}

/// Hears an end, which makes known the fault count and the value of its process.
fn hear_end(table: &NodeTable, heard: &mut [Range], ended: &Ended)
    ensures { heard.new ≡ hear_end table.now heard.old ended.now }
{
    // a fault count has the number of its process as variable
    know(heard, ended.process as usize, ended.faults);
    if let Some(condition) = condition_of(table, ended.process) {
        let number = u8::from(ended.value);
        know(heard, value_place(condition), number);
    }
}

/// Hears ends, one after another.
fn hear_ends(table: &NodeTable, heard: &mut [Range], ended: &[Ended])
    ensures { heard.new ≡ fold (hear_end table.now) heard.old ended.now }
{
    for end in ended {
        hear_end(table, heard, end);
    }
}

/// Notes that the literals of the column with this number hold. If there is no such column, nothing changes.
fn cut_column(heard: &mut [Range], columns: &[Column], column: u32)
    ensures { heard.new ≡ cut_all heard.old (get_or columns.now column no_column).cube }
{
    if let Some(entry) = columns.get(column as usize) {
        cut_all(heard, entry.cube.literals());
    }
}

/// Hears a frame, which makes known the literals of its column and, for a broadcast, the value.
fn hear_frame(table: &NodeTable, heard: &mut [Range], frame: &Frame)
    ensures { heard.new ≡ hear_frame table.now heard.old frame.now }
{
    let columns = table.heard_columns(frame.item);
    cut_column(heard, columns, frame.column);
    // a broadcast: after the literals of its column, its value
    if frame.item >= table.first_broadcast() {
        let condition = frame.item - table.first_broadcast();
        let number = u8::from(frame.value);
        cut(heard, value_place(condition), number, number);
    }
}

/// Hears frames, one after another.
fn hear_frames(table: &NodeTable, heard: &mut [Range], frames: &[Frame])
    ensures { heard.new ≡ fold (hear_frame table.now) heard.old frames.now }
{
    for frame in frames {
        hear_frame(table, heard, frame);
    }
}

/// Hears what a turn takes: ends, reports and then frames.
pub fn hear_all(
    table: &NodeTable,
    heard: &mut [Range],
    ended: &[Ended],
    due: &[Ended],
    frames: &[Frame],
)
    // first `ended` is heard, then `due`, then `frames`, each in the order of the list
    ensures { heard.new ≡ fold (hear_frame table.now) (fold (hear_end table.now) (fold (hear_end table.now) heard.old ended.now) due.now) frames.now }
{
    hear_ends(table, heard, ended);
    hear_ends(table, heard, due);
    hear_frames(table, heard, frames);
}

/// Returns whether some variable has no number left.
fn are_contradicted(heard: &[Range]) -> bool
    ensures { result ≡ list_any is_contradicted heard.now }
{
    heard.iter().any(|range| range.high < range.low)
}

/// Returns whether a frame arrives at this time: the node has a hear row of the frame's item, and the frame's column in
/// this row has this time.
pub fn arrives(table: &NodeTable, arrival: u64, frame: &Frame) -> bool
    ensures { result ≡ arrives table.now arrival frame.now }
{
    match table.heard_columns(frame.item).get(frame.column as usize) {
        Some(entry) => entry.time == arrival,
        None => false,
    }
}

/// Hears a frame and returns true, unless it contradicts what has been heard: then nothing changes, and it returns false.
/// `saved` has as many ranges as `heard`; what has been heard is copied into them, and what they were is lost.
pub fn hears(table: &NodeTable, heard: &mut [Range], saved: &mut [Range], frame: &Frame) -> bool
    requires { length heard.old ≡ length saved.old }
    ensures fits { result ≡ not (list_any is_contradicted (hear_frame table.now heard.old frame.now)) }
    ensures heard { OnTrue result (heard.new ≡ hear_frame table.now heard.old frame.now) }
    ensures same { OnFalse result (heard.new ≡ heard.old) }
{
    // what was heard is kept, so that a frame that contradicts it can be taken back
    saved.copy_from_slice(heard);
    hear_frame(table, heard, frame);
    if are_contradicted(heard) {
        heard.copy_from_slice(saved);
        return false;
    }
    true
}
