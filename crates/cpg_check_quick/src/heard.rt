//! The quick test of V4: each literal of a column that matches is heard at its node by its time.
ghost use Rattle.std.specs.Prelude.{◌≡◌, ◌<◌, IfOk, List, true};
ghost use Rattle.std.specs.Bool.{OnTrue};
ghost use Rattle.cpg_base.specs.Graph.{item_count};
ghost use Rattle.cpg_table.specs.Table.{NodeTable, columns_of};
ghost use Rattle.cpg_table.specs.declared.rule.Rule.{Rule};
ghost use Rattle.cpg_violation.specs.Sure.{AreSure, IsSure};
ghost use Rattle.cpg_violation.specs.Violation.{AllHold, row_rules};
ghost use Rattle.cpg_check_quick.specs.SpannedRows.{AreSpannedRows};
ghost use Rattle.cpg_check_quick.specs.Order.{execution, frame};
ghost use Rattle.cpg_check_quick.specs.Sequences.{AreSequences};

use crate::heard_rows::heard_rows;
use crate::listening::{Listener, are_all_known, own_ended};
use crate::sequences::Sequences;
use crate::spanned_rows::SpannedRows;
use cpg_base::{Item, OutOfMemory, Problem};
use cpg_cube::Column;
use cpg_rules::Admitted;
use cpg_table::Tables;
use cpg_violation::is_marked;
use std::alloc::Global;
use std::cmp::Reverse;

/// An item, in an order by which those with longer cubes come first, and then the lower items.
#[derive(Clone, Copy, PartialEq, Eq, PartialOrd, Ord)]
struct LengthRank {
    /// How many literals its longest cube has.
    literals: Reverse<usize>,
    /// The item's number.
    item: u32,
}

/// How many literals the longest cube of these columns has; 0 if there are no columns.
fn most_literals(columns: &[Column]) -> usize {
    let mut most = 0;
    for column in columns {
        most = column.cube.literals().len().max(most);
    }
    most
}

/// All items that have a row, those with the longest cubes first. A frame tells the literals of its column, so an item
/// with many mostly tells all that a column asks for, and no other need be asked.
fn longest_first(
    alloc: Global,
    problem: &Problem,
    frames: &SpannedRows<'_>,
) -> Result<Vec<u32>, OutOfMemory> {
    let mut ranks = Vec::new(alloc);
    ranks.reserve(frames.list.len())?;
    for item in 0..problem.item_count() {
        if let Some(row) = frames.list.get(item as usize) {
            let literals = Reverse(most_literals(row.columns));
            ranks.push(LengthRank { literals, item })?;
        }
    }
    ranks.sort_unstable();
    let mut items = Vec::new(alloc);
    items.reserve(ranks.len())?;
    for rank in ranks.as_slice() {
        items.push(rank.item)?;
    }
    Ok(items)
}

/// Whether an item is a message to a process.
fn is_input(problem: &Problem, process: u32, item: u32) -> bool {
    // no clause says that the items are the graph's
    if item >= problem.item_count() {
        return false;
    }
    match problem.item(item) {
        Item::Message(edge) => problem.target(edge) == process,
        Item::Start(_) | Item::Broadcast(_) => false,
    }
}

/// Adds to `sorted` the items that are messages to a process, if `are_inputs`, or those that aren't, if not.
fn push_inputs(
    problem: &Problem,
    process: u32,
    are_inputs: bool,
    items: &[u32],
    sorted: &mut Vec<u32>,
) -> Result<(), OutOfMemory> {
    for item in items {
        if is_input(problem, process, *item) == are_inputs {
            sorted.push(*item)?;
        }
    }
    Ok(())
}

/// These items, the messages to a process first: the columns of the process mostly have the literals of the messages'
/// columns.
fn inputs_first(
    alloc: Global,
    problem: &Problem,
    process: u32,
    items: &[u32],
) -> Result<Vec<u32>, OutOfMemory> {
    let mut sorted = Vec::new(alloc);
    sorted.reserve(items.len())?;
    push_inputs(problem, process, true, items, &mut sorted)?;
    push_inputs(problem, process, false, items, &mut sorted)?;
    Ok(sorted)
}

/// What all nodes may hear.
#[derive(Drop)]
struct Audible<'a> {
    /// The graph of the rows.
    admitted: &'a Admitted,
    /// The rows of all executions, and which follow one another on each node.
    sequences: &'a Sequences<'a>,
    /// The rows of all items, with how long their frames take.
    frames: &'a SpannedRows<'a>,
    /// All items, those with the longest cubes first.
    items: Vec<u32>,
}

impl<'a> Audible<'a> {
    /// Whether V4 is known to hold at an item, which has these columns. False guarantees nothing. `is_sent_in_time` is
    /// true only if V5 is known to hold there.
    fn is_sure(
        &self,
        alloc: Global,
        item: u32,
        is_sent_in_time: bool,
        columns: &[Column],
    ) -> Result<bool, OutOfMemory>
        requires item { item < item_count self.now.admitted.now.graph }
        ensures { IfOk result (λ sure. OnTrue sure ((tables : List NodeTable) →
            AreSequences (execution self.now.admitted.now.graph) self.now.admitted.now.graph tables self.now.sequences.now →
            AreSpannedRows (frame self.now.admitted.now.graph) self.now.admitted.now.graph tables self.now.frames.now →
            AllHold self.now.admitted.now.graph tables row_rules → (is_sent_in_time ≡ true →
            IsSure self.now.admitted.now.graph tables Rule.Inputs item) → columns.now ≡ columns_of tables item →
            IsSure self.now.admitted.now.graph tables Rule.Heard item)) }
    {
        let problem = self.admitted.problem();
        let known = own_ended(self.admitted, self.sequences, item, is_sent_in_time);
        // all literals are about processes that have ended on the node itself, so no frame is needed
        if are_all_known(&known, columns) {
            return Ok(true);
        }
        let node = problem.home(item);
        let process = problem.producer(item);
        // for a message or a broadcast the process is its producer
        let items = inputs_first(alloc, problem, process, self.items.as_slice())?;
        let heard_rows = heard_rows(alloc, problem, self.frames, node, items.as_slice())?;
        let listener = Listener {
            admitted: self.admitted,
            sequences: self.sequences,
            node,
            known,
            heard_rows,
        };
        let heard = listener.hears_all(alloc, columns)?;
        Ok(heard)
    }
}

/// A mark for each item, by number: whether V4 is known to hold there. It may hold at one that isn't marked, too.
/// `sequences` are those of all executions, `frames` are the rows of all items, with how long their frames take, and
/// `inputs` are marks of V5.
pub(crate) fn heard_marks(
    alloc: Global,
    admitted: &Admitted,
    tables: &Tables,
    sequences: &Sequences<'_>,
    frames: &SpannedRows<'_>,
    inputs: &[bool],
) -> Result<Vec<bool>, OutOfMemory>
    requires rules { AllHold admitted.now.graph tables.now.nodes row_rules }
    requires sequences { AreSequences (execution admitted.now.graph) admitted.now.graph tables.now.nodes sequences.now }
    requires frames { AreSpannedRows (frame admitted.now.graph) admitted.now.graph tables.now.nodes frames.now }
    requires inputs { AreSure admitted.now.graph tables.now.nodes Rule.Inputs inputs.now }
    ensures { IfOk result (λ marks. AreSure admitted.now.graph tables.now.nodes Rule.Heard marks.items) }
{
    let items = longest_first(alloc, admitted.problem(), frames)?;
    let audible = Audible {
        admitted,
        sequences,
        frames,
        items,
    };
    let count = admitted.problem().item_count();
    let mut marks = Vec::new(alloc);
    marks.reserve(count as usize)?;
    for item in 0..count {
        let is_in_time = is_marked(inputs, item);
        let sure = audible.is_sure(alloc, item, is_in_time, tables.columns_of(item))?;
        marks.push(sure)?;
    }
    Ok(marks)
}
