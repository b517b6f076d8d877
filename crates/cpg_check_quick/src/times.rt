//! The marks of V4 to V9.
ghost use Rattle.std.specs.Prelude.{IfOk};
ghost use Rattle.cpg_violation.specs.Violation.{AllHold, row_rules};
ghost use Rattle.cpg_violation.specs.Sure.{AreTimeMarks};
ghost use Rattle.cpg_row_trees.specs.Trees.{AreRowTrees};

use crate::heard::heard_marks;
use crate::inputs::inputs_marks;
use crate::processor::processor_marks;
use crate::sequences::execution_sequences;
use crate::slots::slot_marks;
use crate::spanned_rows::frames;
use cpg_base::OutOfMemory;
use cpg_row_trees::Places;
use cpg_rules::Admitted;
use cpg_table::Tables;
use cpg_violation::{TimeMarks, due_marks, frozen_marks};
use std::alloc::Global;

/// For each rule from V4 to V9 a mark for each item: whether the rule is known to hold there in every scenario. The
/// tables have to keep V1 to V3; `trees` are those of all rows. A rule may hold at an item that isn't marked, too. The
/// one error is `OutOfMemory`.
pub fn time_marks(
    alloc: Global,
    admitted: &Admitted,
    tables: &Tables,
    trees: &[Option<Places>],
) -> Result<TimeMarks, OutOfMemory>
    requires rules { AllHold admitted.now.graph tables.now.nodes row_rules }
    requires trees { AreRowTrees admitted.now.graph tables.now.nodes trees.now }
    ensures { IfOk result (AreTimeMarks admitted.now.graph tables.now.nodes) }
{
    let sequences = execution_sequences(alloc, admitted, tables, trees)?;
    let frames = frames(alloc, admitted, tables, trees)?;
    let inputs = inputs_marks(alloc, admitted, tables, &sequences, &frames)?;
    let heard = heard_marks(
        alloc,
        admitted,
        tables,
        &sequences,
        &frames,
        inputs.as_slice(),
    )?;
    let processor = processor_marks(alloc, admitted.problem(), &sequences)?;
    let slot = slot_marks(alloc, admitted, tables, trees)?;
    let frozen = frozen_marks(alloc, admitted, tables)?;
    let due = due_marks(alloc, admitted, tables)?;
    Ok(TimeMarks {
        heard,
        inputs,
        processor,
        slot,
        frozen,
        due,
    })
}
