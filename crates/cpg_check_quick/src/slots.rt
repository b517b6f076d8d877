//! The quick test of V7: each send is at the start of a slot of its own node, and no two items of a node share one.
ghost use Rattle.std.specs.Prelude.{◌≡◌, ◌<◌, ◌==◌, ◌&&◌, All, IfOk, filter, true};
ghost use Rattle.std.specs.Bool.{OnTrue};
ghost use Rattle.cpg_base.specs.Bus.{next_slot};
ghost use Rattle.cpg_base.specs.Graph.{home, is_sent, item_count};
ghost use Rattle.cpg_base.specs.Numbers.{numbers_below};
ghost use Rattle.cpg_bus.specs.Share.{HasSlot};
ghost use Rattle.cpg_cube.specs.Cube.{matches};
ghost use Rattle.cpg_base.specs.Scenario.{Scenario, IsScenario};
ghost use Rattle.cpg_table.specs.Table.{columns_of};
ghost use Rattle.cpg_table.specs.declared.rule.Rule.{Rule};
ghost use Rattle.cpg_violation.specs.Sure.{AreSure, IsSure};
ghost use Rattle.cpg_violation.specs.Violation.{AllHold, row_rules};
ghost use Rattle.cpg_check_quick.specs.Order.{sending};
ghost use Rattle.cpg_row_trees.specs.Trees.{AreRowTrees};
ghost use Rattle.cpg_check_quick.specs.Sequences.{AreSequences};

use crate::sequences::{Sequences, processes_on};
use crate::spanned_rows::sends;
use cpg_base::{OutOfMemory, Problem};
use cpg_bus::is_slot_start;
use cpg_cube::Column;
use cpg_row_trees::Places;
use cpg_rules::Admitted;
use cpg_table::Tables;
use cpg_tree::Space;
use std::alloc::Global;

/// Whether a slot of a node starts at the time of a column, or no scenario matches the column.
fn is_in_slot(problem: &Problem, node: u32, column: &Column) -> bool
    requires { HasSlot problem.now node }
    ensures { OnTrue result ((s : Scenario) → IsScenario problem.now s → matches column.now.cube s ≡ true →
        next_slot problem.now node column.now.time ≡ column.now.time) }
{
    if is_slot_start(problem, node, column.time) {
        return true;
    }
    // no scenario matches the column, so its time doesn't matter
    let Some(_space) = Space::of(problem.faults(), column.cube.literals()) else {
        return true;
    };
    false
}

/// Whether for each of these columns a slot of a node starts at its time, or no scenario matches it.
fn are_in_slots(problem: &Problem, node: u32, columns: &[Column]) -> bool
    requires { HasSlot problem.now node }
    ensures { OnTrue result (All (λ c. (s : Scenario) → IsScenario problem.now s → matches c.cube s ≡ true →
        next_slot problem.now node c.time ≡ c.time) columns.now) }
{
    for column in columns {
        if !is_in_slot(problem, node, column) {
            return false;
        }
    }
    true
}

/// Adds to `items` the messages and broadcasts that a process sends over the bus, by number.
fn push_sent(problem: &Problem, process: u32, items: &mut Vec<u32>) -> Result<(), OutOfMemory> {
    for item in 0..problem.item_count() {
        if problem.is_sent(item) && problem.producer(item) == process {
            items.push(item)?;
        }
    }
    Ok(())
}

/// The items that a node sends, by the urgency order of their producers.
fn sent_by(alloc: Global, admitted: &Admitted, node: u32) -> Result<Vec<u32>, OutOfMemory> {
    let problem = admitted.problem();
    let processes = processes_on(alloc, admitted, node)?;
    let mut items = Vec::new(alloc);
    for process in processes {
        push_sent(problem, process, &mut items)?;
    }
    Ok(items)
}

/// For each node, by number, the items that it sends, by the urgency order of their producers: mostly they are sent in
/// that order.
fn sent_by_node(alloc: Global, admitted: &Admitted) -> Result<Vec<Vec<u32>>, OutOfMemory> {
    let mut groups = Vec::new(alloc);
    // there are at most 16 nodes, so the cast keeps their number
    for node in 0..admitted.problem().nodes().len() as u32 {
        let items = sent_by(alloc, admitted, node)?;
        groups.push(items)?;
    }
    Ok(groups)
}

/// The rows of all items, each send taken to last 1, and for each node the order in which its sends follow one another,
/// if one is known.
fn send_sequences<'a>(
    alloc: Global,
    admitted: &Admitted,
    tables: &'a Tables,
    trees: &'a [Option<Places>],
) -> Result<Sequences<'a>, OutOfMemory>
    requires rules { AllHold admitted.now.graph tables.now.nodes row_rules }
    requires trees { AreRowTrees admitted.now.graph tables.now.nodes trees.now }
    ensures { IfOk result (AreSequences sending admitted.now.graph tables.now.nodes) }
{
    let rows = sends(alloc, admitted, tables, trees)?;
    let groups = sent_by_node(alloc, admitted)?;
    let sequences = Sequences::of(alloc, rows, groups.as_slice())?;
    Ok(sequences)
}

/// Whether an item is sent over the bus, and by this node.
fn is_sent_from(problem: &Problem, node: u32, item: u32) -> bool
    requires { item < item_count problem.now }
    ensures { result ≡ (is_sent problem.now item && (home problem.now item == node)) }
{
    if !problem.is_sent(item) {
        return false;
    }
    problem.home(item) == node
}

/// The items with lower numbers that the node of an item sends, by number.
fn lower_sent(alloc: Global, problem: &Problem, item: u32) -> Result<Vec<u32>, OutOfMemory>
    requires { item < item_count problem.now }
    ensures { IfOk result (λ lower. lower.items ≡ filter (λ y. is_sent problem.now y && (home problem.now y == home problem.now item)) (numbers_below item)) }
{
    let node = problem.home(item);
    let mut lower = Vec::new(alloc);
    for other in 0..item {
        if is_sent_from(problem, node, other) {
            lower.push(other)?;
        }
    }
    Ok(lower)
}

/// Whether V7 is known to hold at an item: it isn't sent, or each of its sends is at the start of a slot that no item
/// of a lower number shares. False guarantees nothing. `sequences` are those of the sends.
fn has_own_slots(
    alloc: Global,
    admitted: &Admitted,
    tables: &Tables,
    sequences: &Sequences<'_>,
    item: u32,
) -> Result<bool, OutOfMemory>
    requires sequences { AreSequences sending admitted.now.graph tables.now.nodes sequences.now }
    requires item { item < item_count admitted.now.graph }
    ensures { IfOk result (λ r. OnTrue r (IsSure admitted.now.graph tables.now.nodes Rule.Slot item)) }
{
    let problem = admitted.problem();
    // an item that isn't sent takes no slot
    if !problem.is_sent(item) {
        return Ok(true);
    }
    let node = problem.home(item);
    if !are_in_slots(problem, node, tables.columns_of(item)) {
        return Ok(false);
    }
    // of two items that share a slot, the one with the higher number breaks the rule
    let lower = lower_sent(alloc, problem, item)?;
    let is_alone = sequences.are_apart(alloc, node, lower.as_slice(), item)?;
    Ok(is_alone)
}

/// A mark for each item, by number: whether V7 is known to hold there. It may hold at one that isn't marked, too.
pub(crate) fn slot_marks(
    alloc: Global,
    admitted: &Admitted,
    tables: &Tables,
    trees: &[Option<Places>],
) -> Result<Vec<bool>, OutOfMemory>
    requires rules { AllHold admitted.now.graph tables.now.nodes row_rules }
    requires trees { AreRowTrees admitted.now.graph tables.now.nodes trees.now }
    ensures { IfOk result (λ marks. AreSure admitted.now.graph tables.now.nodes Rule.Slot marks.items) }
{
    let sequences = send_sequences(alloc, admitted, tables, trees)?;
    let count = admitted.problem().item_count();
    let mut marks = Vec::new(alloc);
    marks.reserve(count as usize)?;
    for item in 0..count {
        let is_sure = has_own_slots(alloc, admitted, tables, &sequences, item)?;
        marks.push(is_sure)?;
    }
    Ok(marks)
}
