//! The order in which the items of a node begin in every scenario, each after the one before it is over.
ghost use Rattle.std.specs.Prelude.{◌≡◌, if◌then◌else◌, ℕ, All, IfOk, List, length};
ghost use Rattle.std.specs.Bool.{OnTrue};
ghost use Rattle.cpg_base.specs.Graph.{Graph, process_count};
ghost use Rattle.cpg_base.specs.Scenario.{Scenario};
ghost use Rattle.cpg_table.specs.Table.{NodeTable};
ghost use Rattle.cpg_table.specs.declared.rule.Rule.{Rule};
ghost use Rattle.cpg_violation.specs.Violation.{AllHold, Holds, row_rules};
ghost use Rattle.cpg_check_quick.specs.SpannedRows.{AreSpannedRows};
ghost use Rattle.cpg_check_quick.specs.Sequences.{AreSequences};
ghost use Rattle.cpg_check_quick.specs.Order.{IsInSequence, IsOver, StandsBefore, execution};
ghost use Rattle.cpg_row_trees.specs.Trees.{AreRowTrees};

use crate::spanned_rows::{SpannedRows, executions};
use cpg_base::OutOfMemory;
use cpg_row_trees::Places;
use cpg_rules::Admitted;
use cpg_table::Tables;
use std::alloc::Global;

/// An item, in an order by the first times of rows, and then by number.
#[derive(Clone, Copy, PartialEq, Eq, PartialOrd, Ord)]
struct TimeRank {
    /// A time before which the item's row has no column.
    first: u64,
    /// The item's number.
    item: u32,
}

/// From which place on the item after `place` is compared with those before it: from `place`, if the item there is
/// active in every scenario (`is_always`), and otherwise from `start`, as the item at `place` was.
fn next_start(is_always: bool, place: usize, start: usize) -> usize
    ensures { result ≡ (if is_always then place else start) }
{
    if is_always { place } else { start }
}

impl<'a> SpannedRows<'a> {
    /// Whether each of these items is over before each later one. False guarantees nothing. An item is compared only
    /// with those from the last before it on that is active in every scenario, since all others are over before that
    /// one begins.
    fn are_in_sequence(&self, items: &[u32]) -> bool
        ensures { OnTrue result ((g : Graph) (tables : List NodeTable) (lasts : ℕ → Scenario → ℕ) → AreSpannedRows lasts g tables self.now →
            Holds g tables Rule.Present → IsInSequence lasts g tables items.now) }
    {
        // the place of the last item so far that is known to be active in every scenario; 0 if there is none yet
        let mut start = 0;
        for (place, item) in items.iter().enumerate() {
            // nothing is known of an item without a row
            let Some(row) = self.list.get(*item as usize) else {
                return false;
            };
            // those before `start` are over before the item at `start`, and so before this one
            if !self.precede(&items[start..place], row) {
                return false;
            }
            start = next_start(row.is_always, place, start);
        }
        true
    }
}

/// Whether item `first` comes before item `second` in an order that has no item twice. False if one of them isn't in
/// it.
fn stands_before(order: &[u32], first: u32, second: u32) -> bool
    ensures { OnTrue result (StandsBefore order.now first second) }
{
    // whether the first has been passed
    let mut is_past = false;
    for item in order {
        if *item == second {
            return is_past;
        }
        if *item == first {
            is_past = true;
        }
    }
    false
}

impl<'a> SpannedRows<'a> {
    /// Those of these items that have a row, by their first times, and then by number.
    fn by_time(&self, alloc: Global, items: &[u32]) -> Result<Vec<u32>, OutOfMemory> {
        let mut ranks = Vec::new(alloc);
        ranks.reserve(items.len())?;
        for item in items {
            if let Some(row) = self.list.get(*item as usize) {
                ranks.push(TimeRank {
                    first: row.first,
                    item: *item,
                })?;
            }
        }
        ranks.sort_unstable();
        let mut sorted = Vec::new(alloc);
        sorted.reserve(ranks.len())?;
        for rank in &ranks {
            sorted.push(rank.item)?;
        }
        Ok(sorted)
    }

    /// These items in an order in which each is over before each later one: as they are, or by their first times. Empty
    /// if neither is known to be such an order.
    fn in_sequence(&self, alloc: Global, items: &[u32]) -> Result<Vec<u32>, OutOfMemory>
        ensures { IfOk result (λ order. (g : Graph) (tables : List NodeTable) (lasts : ℕ → Scenario → ℕ) →
            AreSpannedRows lasts g tables self.now → Holds g tables Rule.Present → IsInSequence lasts g tables order.items) }
    {
        let mut order = Vec::new(alloc);
        if self.are_in_sequence(items) {
            order.extend_from_slice(items)?;
            return Ok(order);
        }
        let sorted = self.by_time(alloc, items)?;
        if self.are_in_sequence(sorted.as_slice()) {
            return Ok(sorted);
        }
        // still empty
        Ok(order)
    }

    /// For each of these groups of items an order in which each item is over before each later one; empty if none is
    /// known.
    fn orders(&self, alloc: Global, groups: &[Vec<u32>]) -> Result<Vec<Vec<u32>>, OutOfMemory>
        ensures { IfOk result (λ orders. (g : Graph) (tables : List NodeTable) (lasts : ℕ → Scenario → ℕ) →
            AreSpannedRows lasts g tables self.now → Holds g tables Rule.Present → All (λ order. IsInSequence lasts g tables order.items) orders.items) }
    {
        let mut orders = Vec::new(alloc);
        orders.reserve(groups.len())?;
        for group in groups {
            let order = self.in_sequence(alloc, group.as_slice())?;
            orders.push(order)?;
        }
        Ok(orders)
    }
}

/// The rows of items, and which of them follow one another on each node.
#[derive(Drop)]
pub(crate) struct Sequences<'a> {
    /// The rows of the items, by number.
    pub(crate) rows: SpannedRows<'a>,
    /// For each node, by number, its items in an order in which each is over before each later one; empty if none is
    /// known.
    pub(crate) orders: Vec<Vec<u32>>,
}

impl<'a> Sequences<'a> {
    /// These rows, with an order of the items of each node. `groups` has the items of each node, by the node's number.
    pub(crate) fn of(
        alloc: Global,
        rows: SpannedRows<'a>,
        groups: &[Vec<u32>],
    ) -> Result<Sequences<'a>, OutOfMemory>
        ensures sequences { IfOk result (λ sequences. (g : Graph) (tables : List NodeTable) (lasts : ℕ → Scenario → ℕ) →
            AreSpannedRows lasts g tables rows.entry → Holds g tables Rule.Present → AreSequences lasts g tables sequences) }
        ensures count { IfOk result (λ sequences. sequences.rows ≡ rows.entry) }
    {
        let orders = rows.orders(alloc, groups)?;
        Ok(Sequences { rows, orders })
    }

    /// Whether the first of two items of a node is known to be over by the time of the second, wherever a column of
    /// each matches. False guarantees nothing.
    pub(crate) fn is_before(&self, node: u32, first: u32, second: u32) -> bool
        ensures { OnTrue result ((g : Graph) (tables : List NodeTable) (lasts : ℕ → Scenario → ℕ) → AreSequences lasts g tables self.now →
            IsOver lasts g tables first second) }
    {
        match self.orders.get(node as usize) {
            Some(order) => stands_before(order.as_slice(), first, second),
            None => false,
        }
    }
}

/// The processes of a node, in the urgency order.
pub(crate) fn processes_on(
    alloc: Global,
    admitted: &Admitted,
    node: u32,
) -> Result<Vec<u32>, OutOfMemory> {
    let problem = admitted.problem();
    let order = admitted.order();
    let mut processes = Vec::new(alloc);
    // the order has each process once, at most 128, so the cast keeps their number
    for place in 0..order.len() as u32 {
        let process = order.at(place);
        if problem.node_of(process) == node {
            processes.push(process)?;
        }
    }
    Ok(processes)
}

/// For each node, by number, its processes, in the urgency order: mostly they run in that order.
fn processes_by_node(alloc: Global, admitted: &Admitted) -> Result<Vec<Vec<u32>>, OutOfMemory> {
    let mut groups = Vec::new(alloc);
    // there are at most 16 nodes, so the cast keeps their number
    for node in 0..admitted.problem().nodes().len() as u32 {
        let processes = processes_on(alloc, admitted, node)?;
        groups.push(processes)?;
    }
    Ok(groups)
}

/// The rows of all processes, with how long they execute, and for each node the order in which its executions follow
/// one another, if one is known.
pub(crate) fn execution_sequences<'a>(
    alloc: Global,
    admitted: &Admitted,
    tables: &'a Tables,
    trees: &'a [Option<Places>],
) -> Result<Sequences<'a>, OutOfMemory>
    requires rules { AllHold admitted.now.graph tables.now.nodes row_rules }
    requires trees { AreRowTrees admitted.now.graph tables.now.nodes trees.now }
    ensures sequences { IfOk result (AreSequences (execution admitted.now.graph) admitted.now.graph tables.now.nodes) }
    ensures count { IfOk result (λ sequences. length sequences.rows.list.items ≡ process_count admitted.now.graph) }
{
    let rows = executions(alloc, admitted, tables, trees)?;
    let groups = processes_by_node(alloc, admitted)?;
    let sequences = Sequences::of(alloc, rows, groups.as_slice())?;
    Ok(sequences)
}
