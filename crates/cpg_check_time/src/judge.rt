//! The search for the first violation of a rule that judges each column by itself.
ghost use Rattle.std.specs.Prelude.{◌≡◌, ◌<◌, ℕ, Contains, IfNone, IfOk, IfSome, List, Some, false, true};
ghost use Rattle.cpg_base.specs.Graph.{Graph, item_count};
ghost use Rattle.cpg_base.specs.First.{IsFirst};
ghost use Rattle.cpg_base.specs.Scenario.{Scenario, IsScenario};
ghost use Rattle.cpg_rules.specs.Admission.{IsAdmitted};
ghost use Rattle.cpg_head.specs.GraphHead.{head_of};
ghost use Rattle.cpg_table.specs.Lawful.{AreTablesOf};
ghost use Rattle.cpg_table.specs.Table.{NodeTable, columns_of};
ghost use Rattle.cpg_table.specs.Valid.{breaks};
ghost use Rattle.cpg_table.specs.declared.rule.Rule.{Rule};
ghost use Rattle.cpg_violation.specs.Heads.{IsHeadFor};
ghost use Rattle.cpg_violation.specs.Sure.{AreSure};
ghost use Rattle.cpg_violation.specs.Violation.{Holds, IsFirstColumn, IsFirstViolation};
ghost use Rattle.cpg_check_time.specs.Columns.{IsColumn, breaks_column, is_alone};

use cpg_base::{OutOfMemory, Scenario};
use cpg_cube::Column;
use cpg_rules::Admitted;
use cpg_table::{Fault, Rule, Tables};
use cpg_violation::is_marked;
use std::alloc::Global;

/// Judges one of V5 to V9, each of which judges a column by itself.
pub(crate) trait TimeJudge {
    // the rule that it judges
    ghost rule: { Rule };

    // what the judge has to know of a graph and its tables
    ghost suits: { Self → Graph → List NodeTable → Type 0 };

    /// The least scenario in which a column of an item breaks the rule. `None` exactly if there is none.
    fn least(
        &self,
        alloc: Global,
        admitted: &Admitted,
        tables: &Tables,
        item: u32,
        column: &Column,
    ) -> Result<Option<Scenario>, OutOfMemory>
        requires suits { suits self.now admitted.now.graph tables.now.nodes }
        requires lawful { AreTablesOf (head_of admitted.now.graph) tables.now.nodes }
        requires item { item < item_count admitted.now.graph }
        requires place { Contains (columns_of tables.now.nodes item) column.now }
        requires column { IsColumn admitted.now.graph column.now }
        ensures { IfOk result (IsFirst admitted.now.graph admitted.now.order (breaks_column rule admitted.now.graph tables.now.nodes item column.now)) };

    // the rule is neither V2 nor V3
    ghost alone: { is_alone rule ≡ true };
}

/// The place of the first column of an item that breaks the judge's rule in some scenario, with the least such
/// scenario. `None` exactly if none does.
fn first_in_row<J: TimeJudge>(
    alloc: Global,
    admitted: &Admitted,
    tables: &Tables,
    judge: &J,
    item: u32,
) -> Result<Option<(u32, Scenario)>, OutOfMemory>
    requires head { IsHeadFor admitted.now.graph tables.now.head }
    requires admitted { IsAdmitted admitted.now.graph admitted.now.order admitted.now.guards }
    requires suits { J.suits judge.now admitted.now.graph tables.now.nodes }
    requires item { item < item_count admitted.now.graph }
    ensures none { IfOk result (λ r. IfNone r ((i : ℕ) (s : Scenario) → IsScenario admitted.now.graph s
        → breaks J.rule admitted.now.graph tables.now.nodes s item (Some i) ≡ false)) }
    ensures first { IfOk result (λ r. IfSome r (IsFirstColumn admitted.now.graph admitted.now.order
        (λ i s. breaks J.rule admitted.now.graph tables.now.nodes s item (Some i)))) }
{
    let columns = tables.columns_of(item);
    for (place, column) in columns.iter().enumerate() {
        let least = judge.least(alloc, admitted, tables, item, column)?;
        if let Some(scenario) = least {
            // a row has far fewer columns than 2^32
            return Ok(Some((place as u32, scenario)));
        }
    }
    Ok(None)
}

/// The first violation of the judge's rule, by item and column, with the least scenario in the urgency order in which
/// it occurs. `None` exactly if the rule holds. Items at which it is marked as sure are left out. `rule` is that rule.
pub(crate) fn first_violation<J: TimeJudge>(
    alloc: Global,
    admitted: &Admitted,
    tables: &Tables,
    rule: Rule,
    judge: &J,
    marks: &[bool],
) -> Result<Option<Fault>, OutOfMemory>
    requires rule { rule ≡ J.rule }
    requires head { IsHeadFor admitted.now.graph tables.now.head }
    requires suits { J.suits judge.now admitted.now.graph tables.now.nodes }
    requires marks { AreSure admitted.now.graph tables.now.nodes J.rule marks.now }
    ensures none { IfOk result (λ r. IfNone r (Holds admitted.now.graph tables.now.nodes J.rule)) }
    ensures first { IfOk result (λ r. IfSome r (IsFirstViolation admitted.now.graph admitted.now.order tables.now.nodes J.rule)) }
{
    for item in 0..admitted.problem().item_count() {
        // the rule holds here
        if is_marked(marks, item) {
            continue;
        }
        let found = first_in_row(alloc, admitted, tables, judge, item)?;
        if let Some((column, scenario)) = found {
            return Ok(Some(Fault {
                rule: rule.number(),
                item,
                column: Some(column),
                scenario,
            }));
        }
    }
    Ok(None)
}
