//! The check of V4: the first column with a literal that its node hasn't heard.
ghost use Rattle.std.specs.Prelude.{◌≡◌, ◌≤◌, ◌<◌, ℕ, All, IfNone, IfOk, IfSome, false, length};
ghost use Rattle.cpg_base.specs.declared.limits.TheConstants.{MOST_LOAD};
ghost use Rattle.cpg_base.specs.Graph.{item_count};
ghost use Rattle.cpg_base.specs.Scenario.{Scenario, IsScenario};
ghost use Rattle.cpg_cube.specs.Fit.{IsKnown};
ghost use Rattle.cpg_check_heard.specs.Ended.{HasActive};
ghost use Rattle.cpg_check_heard.specs.Hearings.{IsHearing};
ghost use Rattle.cpg_check_heard.specs.Unheard.{is_unheard};
ghost use Rattle.cpg_table.specs.declared.rule.Rule.{Rule};
ghost use Rattle.cpg_violation.specs.Heads.{IsHeadFor};
ghost use Rattle.cpg_violation.specs.SievedRows.{AreSievedRows};
ghost use Rattle.cpg_violation.specs.Sure.{AreSure};
ghost use Rattle.cpg_violation.specs.Violation.{AllHold, Holds, IsFirstColumn, IsFirstViolation, row_rules};

use crate::hearing::Hearing;
use crate::telling_rows::telling_rows;
use cpg_base::{OutOfMemory, Scenario};
use cpg_cube::Column;
use cpg_rules::Admitted;
use cpg_table::{Fault, NodeItems, Rule, Tables};
use cpg_violation::{SievedRow, is_marked};
use std::alloc::Global;

/// The place of the first column of an item's row that matches in a scenario in which the item's node hasn't heard one
/// of the column's literals by its time, with the least such scenario. `None` exactly if there is none.
fn first_unheard(
    alloc: Global,
    hearing: &Hearing<'_>,
    item: u32,
    columns: &[Column],
) -> Result<Option<(u32, Scenario)>, OutOfMemory>
    requires hearing { IsHearing hearing.now }
    requires item { item < item_count hearing.now.admitted.now.graph }
    requires columns { All (λ c. IsKnown hearing.now.admitted.now.graph c.cube) columns.now }
    requires active { All (HasActive hearing.now.admitted.now.graph) columns.now }
    requires few { length columns.now ≤ MOST_LOAD }
    ensures none { IfOk result (λ r. IfNone r ((i : ℕ) (s : Scenario) → IsScenario hearing.now.admitted.now.graph s
        → is_unheard hearing.now.admitted.now.graph hearing.now.tables.now.nodes item columns.now i s ≡ false)) }
    ensures first { IfOk result (λ r. IfSome r (IsFirstColumn hearing.now.admitted.now.graph hearing.now.admitted.now.order
        (is_unheard hearing.now.admitted.now.graph hearing.now.tables.now.nodes item columns.now))) }
{
    let problem = hearing.admitted.problem();
    let node = problem.home(item);
    let items = NodeItems::of(alloc, hearing.tables.head(), node)?;
    let hears = items.hears();
    let ranks = hearing.ranks(alloc, node, hears)?;
    for (place, column) in columns.iter().enumerate() {
        let unheard = hearing.least_unheard(alloc, node, hears, ranks.as_slice(), column)?;
        if let Some(scenario) = unheard {
            // `MOST_LOAD` is far below 2^32
            return Ok(Some((place as u32, scenario)));
        }
    }
    Ok(None)
}

/// The first violation of V4, by item and column, with the least scenario in the urgency order in which it occurs: the
/// column matches, and one of its literals isn't heard at the item's node by the column's time. `None` exactly if the
/// rule holds. V1 to V3 have to hold, and `rows` to be those of all items. Items at which the rule is marked as sure
/// are left out. The one error is `OutOfMemory`.
pub fn check_heard(
    alloc: Global,
    admitted: &Admitted,
    tables: &Tables,
    rows: &[SievedRow<'_>],
    marks: &[bool],
) -> Result<Option<Fault>, OutOfMemory>
    requires head { IsHeadFor admitted.now.graph tables.now.head }
    requires rules { AllHold admitted.now.graph tables.now.nodes row_rules }
    requires rows { AreSievedRows tables.now.nodes (item_count admitted.now.graph) rows.now }
    requires marks { AreSure admitted.now.graph tables.now.nodes Rule.Heard marks.now }
    ensures none { IfOk result (λ r. IfNone r (Holds admitted.now.graph tables.now.nodes Rule.Heard)) }
    ensures first { IfOk result (λ r. IfSome r (IsFirstViolation admitted.now.graph admitted.now.order tables.now.nodes Rule.Heard)) }
{
    let problem = admitted.problem();
    let telling_rows = telling_rows(alloc, admitted, rows)?;
    let hearing = Hearing {
        admitted,
        tables,
        telling_rows,
    };
    for item in 0..problem.item_count() {
        // the rule holds here
        if is_marked(marks, item) {
            continue;
        }
        let columns = tables.columns_of(item);
        let unheard = first_unheard(alloc, &hearing, item, columns)?;
        if let Some((column, scenario)) = unheard {
            return Ok(Some(Fault {
                rule: Rule::Heard.number(),
                item,
                column: Some(column),
                scenario,
            }));
        }
    }
    Ok(None)
}
