//! The check of V5 to V9, one rule after another.
ghost use Rattle.std.specs.Prelude.{◌≡◌, ◌++◌, ◌∷◌, [], IfNone, IfOk, IfSome};
ghost use Rattle.cpg_base.specs.Graph.{item_count};
ghost use Rattle.cpg_table.specs.declared.rule.Rule.{Rule};
ghost use Rattle.cpg_violation.specs.Heads.{IsHeadFor};
ghost use Rattle.cpg_violation.specs.Violation.{AllHold, IsFirstOf, row_rules, time_rules};
ghost use Rattle.cpg_violation.specs.SievedRows.{AreSievedRows};
ghost use Rattle.cpg_violation.specs.Sure.{AreTimeMarks};

use crate::due::check_due;
use crate::frozen::check_frozen;
use crate::inputs::WaitedInputs;
use crate::judge::first_violation;
use crate::processor::Processors;
use crate::slots::Slots;
use cpg_base::OutOfMemory;
use cpg_order::Links;
use cpg_rules::Admitted;
use cpg_table::{Fault, Rule, Tables};
use cpg_violation::{SievedRow, TimeMarks};
use std::alloc::Global;

/// The first violation of the first of V5 to V9 that is broken, by item and column, with the least scenario in the
/// urgency order in which it occurs. `None` exactly if all five hold. V1 to V4 have to hold, and `rows` to be those of
/// all items. A rule isn't looked at where it is marked as sure. The one error is `OutOfMemory`.
pub fn check_time(
    alloc: Global,
    admitted: &Admitted,
    tables: &Tables,
    rows: &[SievedRow<'_>],
    marks: &TimeMarks,
) -> Result<Option<Fault>, OutOfMemory>
    requires head { IsHeadFor admitted.now.graph tables.now.head }
    requires rules { AllHold admitted.now.graph tables.now.nodes (row_rules ++ Rule.Heard ∷ []) }
    requires rows { AreSievedRows tables.now.nodes (item_count admitted.now.graph) rows.now }
    requires marks { AreTimeMarks admitted.now.graph tables.now.nodes marks.now }
    ensures none { IfOk result (λ r. IfNone r (AllHold admitted.now.graph tables.now.nodes time_rules)) }
    ensures first { IfOk result (λ r. IfSome r (IsFirstOf admitted.now.graph admitted.now.order tables.now.nodes time_rules)) }
{
    // V5
    let links = Links::of(alloc, admitted.problem())?;
    let inputs = WaitedInputs { links, rows };
    let sure = marks.inputs.as_slice();
    if let Some(fault) = first_violation(alloc, admitted, tables, Rule::Inputs, &inputs, sure)? {
        return Ok(Some(fault));
    }
    // V6
    let processors = Processors { rows };
    let sure = marks.processor.as_slice();
    if let Some(fault) = first_violation(
        alloc,
        admitted,
        tables,
        Rule::Processor,
        &processors,
        sure,
    )? {
        return Ok(Some(fault));
    }
    // V7
    let slots = Slots { rows };
    let sure = marks.slot.as_slice();
    if let Some(fault) = first_violation(alloc, admitted, tables, Rule::Slot, &slots, sure)? {
        return Ok(Some(fault));
    }
    // V8
    if let Some(fault) = check_frozen(alloc, admitted, tables, marks.frozen.as_slice())? {
        return Ok(Some(fault));
    }
    // V9
    let found = check_due(alloc, admitted, tables, marks.due.as_slice())?;
    Ok(found)
}
