//! The marks of V1 to V3.
ghost use Rattle.std.specs.Prelude.{IfOk};
ghost use Rattle.cpg_violation.specs.Heads.{IsHeadFor};
ghost use Rattle.cpg_violation.specs.Sure.{AreRowMarks};
ghost use Rattle.cpg_row_trees.specs.Trees.{AreRowTrees};

use crate::quick_activity::activity_marks;
use crate::quick_present::present_marks;
use crate::quick_single::single_marks;
use cpg_base::OutOfMemory;
use cpg_row_trees::Places;
use cpg_rules::Admitted;
use cpg_table::Tables;
use cpg_violation::RowMarks;
use std::alloc::Global;

/// For each of V1, V2 and V3 a mark for each item: whether the rule is known to hold there in every scenario. `trees`
/// are those of all rows. A rule may hold at an item that isn't marked, too. The one error is `OutOfMemory`.
pub fn row_marks(
    alloc: Global,
    admitted: &Admitted,
    tables: &Tables,
    trees: &[Option<Places>],
) -> Result<RowMarks, OutOfMemory>
    requires head { IsHeadFor admitted.now.graph tables.now.head }
    requires trees { AreRowTrees admitted.now.graph tables.now.nodes trees.now }
    ensures { IfOk result (AreRowMarks admitted.now.graph tables.now.nodes) }
{
    let activity = activity_marks(alloc, admitted, tables)?;
    let single = single_marks(alloc, trees)?;
    let present = present_marks(alloc, admitted, trees)?;
    Ok(RowMarks {
        activity,
        single,
        present,
    })
}
