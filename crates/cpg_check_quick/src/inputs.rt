//! The quick test of V5: at a start the release has come and the live inputs are there; at a send the producer has
//! ended.
ghost use Rattle.std.specs.Prelude.{◌≡◌, ◌<◌, IfOk, List};
ghost use Rattle.std.specs.Bool.{OnTrue};
ghost use Rattle.cpg_base.specs.Graph.{item_count, process_count};
ghost use Rattle.cpg_order.specs.Links.{links_of};
ghost use Rattle.cpg_table.specs.Table.{NodeTable, columns_of};
ghost use Rattle.cpg_table.specs.declared.rule.Rule.{Rule};
ghost use Rattle.cpg_violation.specs.Sure.{AreSure, IsSure};
ghost use Rattle.cpg_violation.specs.Violation.{AllHold, row_rules};
ghost use Rattle.cpg_check_quick.specs.SpannedRows.{AreSpannedRows};
ghost use Rattle.cpg_check_quick.specs.Inputs.{AreInputRows};
ghost use Rattle.cpg_check_quick.specs.Order.{execution, frame};
ghost use Rattle.cpg_check_quick.specs.Sequences.{AreSequences};

use crate::input_rows::InputRows;
use crate::sequences::Sequences;
use crate::spanned_rows::SpannedRows;
use cpg_base::OutOfMemory;
use cpg_cube::Column;
use cpg_order::Links;
use cpg_rules::Admitted;
use cpg_table::Tables;
use std::alloc::Global;

/// Whether V5 is known to hold at the start of a process, which has these columns. False guarantees nothing.
fn is_start_sure(
    alloc: Global,
    input_rows: &InputRows<'_>,
    process: u32,
    columns: &[Column],
) -> Result<bool, OutOfMemory>
    requires links { input_rows.now.links ≡ links_of input_rows.now.admitted.now.graph }
    requires process { process < process_count input_rows.now.admitted.now.graph }
    ensures { IfOk result (λ sure. OnTrue sure ((tables : List NodeTable) → AreInputRows input_rows.now.admitted.now.graph tables input_rows.now →
        AllHold input_rows.now.admitted.now.graph tables row_rules → columns.now ≡ columns_of tables process →
        IsSure input_rows.now.admitted.now.graph tables Rule.Inputs process)) }
{
    let edges = input_rows.links.inputs(process);
    let others = input_rows.others(alloc, edges, process)?;
    let release = input_rows.admitted.problem().release(process);
    Ok(input_rows.are_late_enough(others.as_slice(), release, columns))
}

/// Whether V5 is known to hold at an item, which has these columns. False guarantees nothing.
fn is_sure(
    alloc: Global,
    input_rows: &InputRows<'_>,
    item: u32,
    columns: &[Column],
) -> Result<bool, OutOfMemory>
    requires links { input_rows.now.links ≡ links_of input_rows.now.admitted.now.graph }
    requires item { item < item_count input_rows.now.admitted.now.graph }
    ensures { IfOk result (λ sure. OnTrue sure ((tables : List NodeTable) → AreInputRows input_rows.now.admitted.now.graph tables input_rows.now →
        AllHold input_rows.now.admitted.now.graph tables row_rules → columns.now ≡ columns_of tables item →
        IsSure input_rows.now.admitted.now.graph tables Rule.Inputs item)) }
{
    // a message or a broadcast waits for its producer alone
    if item as usize >= input_rows.admitted.problem().processes().len() {
        return Ok(input_rows.is_after_producer(item));
    }
    let sure = is_start_sure(alloc, input_rows, item, columns)?;
    Ok(sure)
}

/// A mark for each item, by number: whether V5 is known to hold there. It may hold at one that isn't marked, too.
/// `sequences` are those of all executions, and `frames` are the rows of all items, with how long their frames take.
pub(crate) fn inputs_marks(
    alloc: Global,
    admitted: &Admitted,
    tables: &Tables,
    sequences: &Sequences<'_>,
    frames: &SpannedRows<'_>,
) -> Result<Vec<bool>, OutOfMemory>
    requires rules { AllHold admitted.now.graph tables.now.nodes row_rules }
    requires sequences { AreSequences (execution admitted.now.graph) admitted.now.graph tables.now.nodes sequences.now }
    requires frames { AreSpannedRows (frame admitted.now.graph) admitted.now.graph tables.now.nodes frames.now }
    ensures { IfOk result (λ marks. AreSure admitted.now.graph tables.now.nodes Rule.Inputs marks.items) }
{
    let links = Links::of(alloc, admitted.problem())?;
    let input_rows = InputRows {
        admitted,
        links,
        sequences,
        frames,
    };
    let count = admitted.problem().item_count();
    let mut marks = Vec::new(alloc);
    marks.reserve(count as usize)?;
    for item in 0..count {
        let sure = is_sure(alloc, &input_rows, item, tables.columns_of(item))?;
        marks.push(sure)?;
    }
    Ok(marks)
}
