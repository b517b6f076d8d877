//! The check of V1, V2 and V3, one rule after another.
ghost use Rattle.std.specs.Prelude.{◌≡◌, IfNone, IfOk, IfSome};
ghost use Rattle.cpg_violation.specs.Heads.{IsHeadFor};
ghost use Rattle.cpg_violation.specs.Sure.{AreRowMarks};
ghost use Rattle.cpg_violation.specs.Violation.{AllHold, IsFirstOf, row_rules};

use crate::activity::check_activity;
use crate::present::check_present;
use crate::single::check_single;
use cpg_base::OutOfMemory;
use cpg_rules::Admitted;
use cpg_table::{Fault, Tables};
use cpg_violation::RowMarks;
use std::alloc::Global;

/// The first violation of V1, V2 and V3, by rule, item and column, with the least scenario in the urgency order in
/// which it occurs. `None` exactly if the three rules hold. A rule isn't looked at where it is marked as sure. The one
/// error is `OutOfMemory`.
pub fn check_rows(
    alloc: Global,
    admitted: &Admitted,
    tables: &Tables,
    marks: &RowMarks,
) -> Result<Option<Fault>, OutOfMemory>
    requires head { IsHeadFor admitted.now.graph tables.now.head }
    requires marks { AreRowMarks admitted.now.graph tables.now.nodes marks.now }
    ensures none { IfOk result (λ r. IfNone r (AllHold admitted.now.graph tables.now.nodes row_rules)) }
    ensures first { IfOk result (λ r. IfSome r (IsFirstOf admitted.now.graph admitted.now.order tables.now.nodes row_rules)) }
{
    let idle = check_activity(alloc, admitted, tables, marks.activity.as_slice())?;
    if let Some(fault) = idle {
        return Ok(Some(fault));
    }
    let double = check_single(alloc, admitted, tables, marks.single.as_slice())?;
    if let Some(fault) = double {
        return Ok(Some(fault));
    }
    let absent = check_present(alloc, admitted, tables, marks.present.as_slice())?;
    Ok(absent)
}
