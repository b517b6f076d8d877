//! Sifts the rows that V5, V6 and V7 may ask at items at which they aren't marked as sure: those of what the item waits
//! for, and those of lower items of its node and its kind that may overlap it in time. Other rows are asked nothing.
ghost use Rattle.std.specs.Prelude.{◌<◌, ℕ, IfOk};
ghost use Rattle.cpg_base.specs.Graph.{edge_count, item_count};
ghost use Rattle.cpg_violation.specs.SievedRows.{AreSievedRows};

use cpg_base::{OutOfMemory, Problem};
use cpg_table::Tables;
use cpg_violation::{SievedRow, TimeMarks, is_marked, sift};
use std::alloc::Global;

/// The item that the target of an edge waits for: the edge's message, or the start of its source if the edge isn't a
/// message.
fn awaited(problem: &Problem, edge: u32) -> u32
    requires { edge < edge_count problem.now }
{
    if problem.is_message(edge) {
        problem.message_item(edge)
    } else {
        problem.source(edge)
    }
}

/// Sifts the rows that V5 may ask at starts: those of what the inputs of each unmarked process come by.
fn sift_inputs(
    alloc: Global,
    problem: &Problem,
    tables: &Tables,
    rows: &mut [SievedRow<'_>],
    marks: &[bool],
) -> Result<(), OutOfMemory>
    ensures { IfOk result (λ _. (count : ℕ) → AreSievedRows tables.now.nodes count rows.old → AreSievedRows tables.now.nodes count rows.new) }
{
    // there are at most 256 edges, so the cast keeps their number
    for edge in 0..problem.edges().len() as u32 {
        // a quick check has shown that the target keeps V5, so it asks no row
        if is_marked(marks, problem.target(edge)) {
            continue;
        }
        sift(alloc, tables, rows, awaited(problem, edge))?;
    }
    Ok(())
}

/// Sifts the rows that V5 may ask at sends: that of the producer of each unmarked message and broadcast.
fn sift_producers(
    alloc: Global,
    problem: &Problem,
    tables: &Tables,
    rows: &mut [SievedRow<'_>],
    marks: &[bool],
) -> Result<(), OutOfMemory>
    ensures { IfOk result (λ _. (count : ℕ) → AreSievedRows tables.now.nodes count rows.old → AreSievedRows tables.now.nodes count rows.new) }
{
    // messages and broadcasts are numbered behind the starts, of which there are at most 128
    for item in problem.processes().len() as u32..problem.item_count() {
        // a quick check has shown that the item keeps V5
        if is_marked(marks, item) {
            continue;
        }
        sift(alloc, tables, rows, problem.producer(item))?;
    }
    Ok(())
}

/// How long an execution of an item takes at most; 0 for a send.
fn longest(problem: &Problem, item: u32) -> u64 {
    // two sends clash only at one time
    if item as usize >= problem.processes().len() {
        return 0;
    }
    problem.duration(item, problem.faults())
}

/// Whether the first column of an item is no later than the latest end of what the columns of another begin. False if
/// one of the two has no row.
fn begins_within(problem: &Problem, rows: &[SievedRow<'_>], item: u32, other: u32) -> bool {
    // an item without a row clashes with none
    let (Some(row), Some(beside)) = (rows.get(item as usize), rows.get(other as usize)) else {
        return false;
    };
    row.first <= beside.last.saturating_add(longest(problem, other))
}

/// Whether two items are of one node, and their rows overlap in time.
fn may_clash(problem: &Problem, rows: &[SievedRow<'_>], item: u32, other: u32) -> bool
    requires first { item < item_count problem.now }
    requires second { other < item_count problem.now }
{
    // on different nodes they share neither processor nor slots
    if problem.home(item) != problem.home(other) {
        return false;
    }
    begins_within(problem, rows, item, other) && begins_within(problem, rows, other, item)
}

/// Sifts the rows of the items from `from` up to `item`, this one left out, that may clash with `item`.
fn sift_lower(
    alloc: Global,
    problem: &Problem,
    tables: &Tables,
    rows: &mut [SievedRow<'_>],
    from: u32,
    item: u32,
) -> Result<(), OutOfMemory>
    requires { item < item_count problem.now }
    ensures { IfOk result (λ _. (count : ℕ) → AreSievedRows tables.now.nodes count rows.old → AreSievedRows tables.now.nodes count rows.new) }
{
    // of two items that clash, the one with the higher number breaks the rule, so only lower ones are asked
    for other in from..item {
        if !may_clash(problem, rows, item, other) {
            continue;
        }
        sift(alloc, tables, rows, other)?;
    }
    Ok(())
}

/// Sifts the rows that V6 may ask: for each unmarked process those of lower processes with which it may clash.
fn sift_starts(
    alloc: Global,
    problem: &Problem,
    tables: &Tables,
    rows: &mut [SievedRow<'_>],
    marks: &[bool],
) -> Result<(), OutOfMemory>
    ensures { IfOk result (λ _. (count : ℕ) → AreSievedRows tables.now.nodes count rows.old → AreSievedRows tables.now.nodes count rows.new) }
{
    // there are at most 128 processes, so the cast keeps their number
    for item in 0..problem.processes().len() as u32 {
        // a quick check has shown that the process keeps V6
        if is_marked(marks, item) {
            continue;
        }
        sift_lower(alloc, problem, tables, rows, 0, item)?;
    }
    Ok(())
}

/// Sifts the rows that V7 may ask: for each unmarked message and broadcast those of lower ones with which it may clash.
fn sift_sends(
    alloc: Global,
    problem: &Problem,
    tables: &Tables,
    rows: &mut [SievedRow<'_>],
    marks: &[bool],
) -> Result<(), OutOfMemory>
    ensures { IfOk result (λ _. (count : ℕ) → AreSievedRows tables.now.nodes count rows.old → AreSievedRows tables.now.nodes count rows.new) }
{
    // messages and broadcasts are numbered behind the starts, of which there are at most 128
    let from = problem.processes().len() as u32;
    for item in from..problem.item_count() {
        // a quick check has shown that the item keeps V7
        if is_marked(marks, item) {
            continue;
        }
        sift_lower(alloc, problem, tables, rows, from, item)?;
    }
    Ok(())
}

/// Sifts the rows that V5, V6 and V7 may ask at items at which they aren't marked as sure. Others are left as they are.
/// The one error is `OutOfMemory`.
pub fn sift_time(
    alloc: Global,
    problem: &Problem,
    tables: &Tables,
    rows: &mut [SievedRow<'_>],
    marks: &TimeMarks,
) -> Result<(), OutOfMemory>
    ensures { IfOk result (λ _. (count : ℕ) → AreSievedRows tables.now.nodes count rows.old → AreSievedRows tables.now.nodes count rows.new) }
{
    // two passes for V5, one for V6 and one for V7
    sift_inputs(alloc, problem, tables, rows, marks.inputs.as_slice())?;
    sift_producers(alloc, problem, tables, rows, marks.inputs.as_slice())?;
    sift_starts(alloc, problem, tables, rows, marks.processor.as_slice())?;
    sift_sends(alloc, problem, tables, rows, marks.slot.as_slice())?;
    Ok(())
}
