//! The rows of items, with how long the items last, bounds of their times, and trees of their columns.
ghost use Rattle.std.specs.Prelude.{◌≡◌, ◌<◌, ℕ, IfOk, length};
ghost use Rattle.cpg_base.specs.Graph.{item_count, process_count};
ghost use Rattle.cpg_base.specs.Scenario.{Scenario};
ghost use Rattle.cpg_check_quick.specs.SpannedRows.{AreSpannedRows, IsSpannedRow, IsSpan};
ghost use Rattle.cpg_check_quick.specs.Order.{execution, frame, sending};
ghost use Rattle.cpg_row_trees.specs.Trees.{AreRowTrees};

use crate::span::ItemSpan;
use cpg_base::OutOfMemory;
use cpg_cube::Column;
use cpg_row_trees::Places;
use cpg_rules::Admitted;
use cpg_table::Tables;
use cpg_tree::Space;
use cpg_violation::{first_time, is_item_running, last_time};
use std::alloc::Global;

/// The row of an item.
#[derive(Clone, Copy)]
pub(crate) struct SpannedRow<'a> {
    /// The columns of the item.
    pub(crate) columns: &'a [Column],
    /// The tree of the places of columns, by which it is found which match in a space; `None` if none was made.
    pub(crate) tree: &'a Option<Places>,
    /// No column is at an earlier time.
    pub(crate) first: u64,
    /// No column is at a later time.
    pub(crate) last: u64,
    /// How long the item lasts at most, by the number of a variable.
    pub(crate) span: ItemSpan,
    /// True only if the item is active in every scenario.
    pub(crate) is_always: bool,
}

/// The rows of the first items, by number.
#[derive(Drop)]
pub(crate) struct SpannedRows<'a> {
    /// The space of all scenarios, which takes long to make.
    pub(crate) everywhere: Space,
    /// The row of each item, at its number.
    pub(crate) list: Vec<SpannedRow<'a>>,
}

/// The row of an item that lasts as long as `span` says. `trees` are those of all rows, by item.
fn spanned_row_of<'a>(
    admitted: &Admitted,
    tables: &'a Tables,
    trees: &'a [Option<Places>],
    item: u32,
    span: ItemSpan,
) -> SpannedRow<'a>
    requires trees { AreRowTrees admitted.now.graph tables.now.nodes trees.now }
    requires item { item < item_count admitted.now.graph }
    ensures { (lasts : Scenario → ℕ) → IsSpan admitted.now.graph lasts span → IsSpannedRow admitted.now.graph tables.now.nodes lasts item result }
{
    let columns = tables.columns_of(item);
    let everywhere = Space::whole(admitted.problem().faults());
    SpannedRow {
        columns,
        tree: &trees[item as usize],
        first: first_time(columns),
        last: last_time(columns),
        span,
        is_always: is_item_running(admitted, item, &everywhere),
    }
}

/// The rows of all processes, with how long their executions last.
pub(crate) fn executions<'a>(
    alloc: Global,
    admitted: &Admitted,
    tables: &'a Tables,
    trees: &'a [Option<Places>],
) -> Result<SpannedRows<'a>, OutOfMemory>
    requires trees { AreRowTrees admitted.now.graph tables.now.nodes trees.now }
    ensures rows { IfOk result (AreSpannedRows (execution admitted.now.graph) admitted.now.graph tables.now.nodes) }
    ensures count { IfOk result (λ c. length c.list.items ≡ process_count admitted.now.graph) }
{
    let problem = admitted.problem();
    // there are at most 128 processes, so the cast keeps their number
    let count = problem.processes().len() as u32;
    let mut list = Vec::new(alloc);
    list.reserve(count as usize)?;
    for process in 0..count {
        let span = ItemSpan::of_execution(problem, process);
        list.push(spanned_row_of(admitted, tables, trees, process, span))?;
    }
    Ok(SpannedRows {
        everywhere: Space::whole(problem.faults()),
        list,
    })
}

/// The rows of all items, each send taken to last one time unit. Starts have rows as well, so that the place of a row
/// is the number of its item.
pub(crate) fn sends<'a>(
    alloc: Global,
    admitted: &Admitted,
    tables: &'a Tables,
    trees: &'a [Option<Places>],
) -> Result<SpannedRows<'a>, OutOfMemory>
    requires trees { AreRowTrees admitted.now.graph tables.now.nodes trees.now }
    ensures rows { IfOk result (AreSpannedRows sending admitted.now.graph tables.now.nodes) }
    ensures count { IfOk result (λ c. length c.list.items ≡ item_count admitted.now.graph) }
{
    let problem = admitted.problem();
    let count = problem.item_count();
    let mut list = Vec::new(alloc);
    list.reserve(count as usize)?;
    for item in 0..count {
        list.push(spanned_row_of(admitted, tables, trees, item, ItemSpan::one()))?;
    }
    Ok(SpannedRows {
        everywhere: Space::whole(problem.faults()),
        list,
    })
}

/// The rows of all items, with how long their frames last. Starts have rows as well, so that the place of a row is the
/// number of its item.
pub(crate) fn frames<'a>(
    alloc: Global,
    admitted: &Admitted,
    tables: &'a Tables,
    trees: &'a [Option<Places>],
) -> Result<SpannedRows<'a>, OutOfMemory>
    requires trees { AreRowTrees admitted.now.graph tables.now.nodes trees.now }
    ensures rows { IfOk result (AreSpannedRows (frame admitted.now.graph) admitted.now.graph tables.now.nodes) }
{
    let problem = admitted.problem();
    let count = problem.item_count();
    let mut list = Vec::new(alloc);
    list.reserve(count as usize)?;
    for item in 0..count {
        let span = ItemSpan::fixed(problem.slot_length(problem.home(item)));
        list.push(spanned_row_of(admitted, tables, trees, item, span))?;
    }
    Ok(SpannedRows {
        everywhere: Space::whole(problem.faults()),
        list,
    })
}
