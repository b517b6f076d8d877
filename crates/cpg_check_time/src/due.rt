//! V9: every execution ends by its due.
ghost use Rattle.std.specs.Prelude.{◌≡◌, IfNone, IfOk, IfSome, ⊤};
ghost use Rattle.std.proofs.Common.{refl};
ghost use Rattle.cpg_table.specs.declared.rule.Rule.{Rule};
ghost use Rattle.cpg_violation.specs.Heads.{IsHeadFor};
ghost use Rattle.cpg_violation.specs.Sure.{AreSure};
ghost use Rattle.cpg_violation.specs.Violation.{Holds, IsFirstViolation};

use crate::judge::{TimeJudge, first_violation};
use crate::lateness::late_part;
use cpg_base::{OutOfMemory, Scenario};
use cpg_cube::Column;
use cpg_rules::Admitted;
use cpg_table::{Fault, Rule, Tables};
use std::alloc::Global;

/// Judges V9 by the graph and the column alone.
struct Due;

impl TimeJudge for Due {
    ghost rule = { Rule.Due };

    // nothing has to be known of a graph and its tables
    ghost suits = { λ _ _ _. ⊤ };

    /// The least scenario in which the execution that a column starts ends after its process's due. `None` exactly if
    /// there is none. Only the contract names `tables`.
    fn least(
        &self,
        alloc: Global,
        admitted: &Admitted,
        tables: &Tables,
        item: u32,
        column: &Column,
    ) -> Result<Option<Scenario>, OutOfMemory> {
        let problem = admitted.problem();
        // a message or a broadcast, which has no due
        if item as usize >= problem.processes().len() {
            return Ok(None);
        }
        let due = problem.due(item);
        // no scenario of the column has enough faults to end after the due
        let Some(part) = late_part(problem, &column.cube, item, column.time, due)? else {
            return Ok(None);
        };
        let least = part.least(alloc, problem)?;
        Ok(least)
    }

    // V9 is neither V2 nor V3
    ghost alone = { refl };
}

/// The first violation of V9, by item and column, with the least scenario in the urgency order in which it occurs: the
/// column matches, and the execution that it starts ends after the lesser of the graph's deadline and the process's
/// own. `None` exactly if the rule holds. Items at which it is marked as sure are left out.
pub(crate) fn check_due(
    alloc: Global,
    admitted: &Admitted,
    tables: &Tables,
    marks: &[bool],
) -> Result<Option<Fault>, OutOfMemory>
    requires head { IsHeadFor admitted.now.graph tables.now.head }
    requires marks { AreSure admitted.now.graph tables.now.nodes Rule.Due marks.now }
    ensures none { IfOk result (λ r. IfNone r (Holds admitted.now.graph tables.now.nodes Rule.Due)) }
    ensures first { IfOk result (λ r. IfSome r (IsFirstViolation admitted.now.graph admitted.now.order tables.now.nodes Rule.Due)) }
{
    let found = first_violation(alloc, admitted, tables, Rule::Due, &Due, marks)?;
    Ok(found)
}
