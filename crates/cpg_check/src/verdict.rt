//! The verdict on tables for a graph: first their head is compared with the graph's, and then V1 to V10 are checked,
//! one rule after another.
ghost use Rattle.std.specs.Prelude.{◌≡◌, ◌∷◌, IfNone, IfOk, IfSome};
ghost use Rattle.cpg_base.specs.Graph.{item_count};
ghost use Rattle.cpg_table.specs.declared.rule.Rule.{Rule};
ghost use Rattle.cpg_violation.specs.Heads.{IsHeadFor};
ghost use Rattle.cpg_violation.specs.SievedRows.{AreSievedRows};
ghost use Rattle.cpg_violation.specs.Sure.{AreTimeMarks};
ghost use Rattle.cpg_violation.specs.Violation.{AllHold, IsFirstOf, row_rules, time_rules};
ghost use Rattle.cpg_row_trees.specs.Trees.{AreRowTrees};
ghost use Rattle.cpg_check.specs.Verdict.{ShowsFault, ShowsVerdict};

use cpg_base::OutOfMemory;
use cpg_check_heard::{check_heard, sift_heard};
use cpg_check_quick::time_marks;
use cpg_check_rows::{check_hears, check_rows, row_marks};
use cpg_check_time::{check_time, sift_time};
use cpg_row_trees::{Places, row_trees};
use cpg_rules::Admitted;
use cpg_table::{Fault, Tables};
use cpg_violation::{HeadPart, SievedRow, TimeMarks, first_difference, sieved_rows_of};
use std::alloc::Global;

/// What a check of tables for a graph answers.
#[derive(Drop)]
pub enum Verdict {
    /// The tables are valid for the graph.
    Yes,
    /// The head isn't the graph's: this is the first part that differs.
    Other(HeadPart),
    /// The head is the graph's, but a rule is broken: this is the first violation, by rule, item and column, with its
    /// least scenario.
    No(Fault),
}

/// The first violation of V1 to V3, by rule, item and column, with its least scenario. `None` exactly if they hold.
/// `trees` are those of all rows.
fn row_fault(
    alloc: Global,
    admitted: &Admitted,
    tables: &Tables,
    trees: &[Option<Places>],
) -> Result<Option<Fault>, OutOfMemory>
    requires head { IsHeadFor admitted.now.graph tables.now.head }
    requires trees { AreRowTrees admitted.now.graph tables.now.nodes trees.now }
    ensures none { IfOk result (λ r. IfNone r (AllHold admitted.now.graph tables.now.nodes row_rules)) }
    ensures first { IfOk result (λ r. IfSome r (IsFirstOf admitted.now.graph admitted.now.order tables.now.nodes row_rules)) }
{
    let problem = admitted.problem();
    let marks = row_marks(alloc, admitted, tables, trees)?;
    // mostly the quick tests show that the rules hold at every item
    if marks.are_all(problem.item_count()) {
        return Ok(None);
    }
    let fault = check_rows(alloc, admitted, tables, &marks)?;
    Ok(fault)
}

/// The first violation of V4 to V9, by rule, item and column, with its least scenario. `None` exactly if they hold. V1
/// to V3 have to hold, and `rows` to be those of all items: of these, the ones that may be asked are sifted. `marks`
/// says at which items the rules are known to hold.
fn later_fault(
    alloc: Global,
    admitted: &Admitted,
    tables: &Tables,
    rows: &mut [SievedRow<'_>],
    marks: &TimeMarks,
) -> Result<Option<Fault>, OutOfMemory>
    requires head { IsHeadFor admitted.now.graph tables.now.head }
    requires rules { AllHold admitted.now.graph tables.now.nodes row_rules }
    requires rows { AreSievedRows tables.now.nodes (item_count admitted.now.graph) rows.old }
    requires marks { AreTimeMarks admitted.now.graph tables.now.nodes marks.now }
    ensures none { IfOk result (λ r. IfNone r (AllHold admitted.now.graph tables.now.nodes (Rule.Heard ∷ time_rules))) }
    ensures first { IfOk result (λ r. IfSome r (IsFirstOf admitted.now.graph admitted.now.order tables.now.nodes (Rule.Heard ∷ time_rules))) }
{
    let problem = admitted.problem();
    let heard = marks.heard.as_slice();
    sift_heard(alloc, problem, tables, rows, heard)?;
    if let Some(fault) = check_heard(alloc, admitted, tables, rows, heard)? {
        return Ok(Some(fault));
    }
    sift_time(alloc, problem, tables, rows, marks)?;
    let fault = check_time(alloc, admitted, tables, rows, marks)?;
    Ok(fault)
}

/// The first violation of V4 to V9, by rule, item and column, with its least scenario. `None` exactly if they hold. V1
/// to V3 have to hold. `trees` are those of all rows.
fn time_fault(
    alloc: Global,
    admitted: &Admitted,
    tables: &Tables,
    trees: &[Option<Places>],
) -> Result<Option<Fault>, OutOfMemory>
    requires head { IsHeadFor admitted.now.graph tables.now.head }
    requires rules { AllHold admitted.now.graph tables.now.nodes row_rules }
    requires trees { AreRowTrees admitted.now.graph tables.now.nodes trees.now }
    ensures none { IfOk result (λ r. IfNone r (AllHold admitted.now.graph tables.now.nodes (Rule.Heard ∷ time_rules))) }
    ensures first { IfOk result (λ r. IfSome r (IsFirstOf admitted.now.graph admitted.now.order tables.now.nodes (Rule.Heard ∷ time_rules))) }
{
    let problem = admitted.problem();
    let marks = time_marks(alloc, admitted, tables, trees)?;
    // mostly the quick tests show that the rules hold at every item, and then no sieves need be made
    if marks.are_all(problem.item_count()) {
        return Ok(None);
    }
    let mut rows = sieved_rows_of(alloc, problem, tables)?;
    let fault = later_fault(alloc, admitted, tables, rows.as_mut_slice(), &marks)?;
    Ok(fault)
}

/// The first violation of V1 to V10 by tables whose head is the graph's. `None` exactly if they are valid. `trees` are
/// those of all rows.
fn fault_by(
    alloc: Global,
    admitted: &Admitted,
    tables: &Tables,
    trees: &[Option<Places>],
) -> Result<Option<Fault>, OutOfMemory>
    requires head { IsHeadFor admitted.now.graph tables.now.head }
    requires trees { AreRowTrees admitted.now.graph tables.now.nodes trees.now }
    ensures { IfOk result (ShowsFault admitted.now.graph admitted.now.order tables.now.nodes) }
{
    if let Some(fault) = row_fault(alloc, admitted, tables, trees)? {
        return Ok(Some(fault));
    }
    if let Some(fault) = time_fault(alloc, admitted, tables, trees)? {
        return Ok(Some(fault));
    }
    let fault = check_hears(alloc, admitted, tables)?;
    Ok(fault)
}

/// The first violation of V1 to V10 by tables whose head is the graph's. `None` exactly if they are valid.
fn first_fault(
    alloc: Global,
    admitted: &Admitted,
    tables: &Tables,
) -> Result<Option<Fault>, OutOfMemory>
    requires { IsHeadFor admitted.now.graph tables.now.head }
    ensures { IfOk result (ShowsFault admitted.now.graph admitted.now.order tables.now.nodes) }
{
    let trees = row_trees(alloc, admitted.problem(), tables)?;
    let fault = fault_by(alloc, admitted, tables, trees.as_slice())?;
    Ok(fault)
}

/// Whether tables are valid for an admitted graph: `Other` exactly if the head isn't the graph's, `Yes` exactly if
/// it is and the tables keep the ten rules of valid tables in every scenario, and otherwise `No` with the first
/// violation (docs/RULES.md). Scenarios aren't gone over one by one. The one error is `OutOfMemory`.
pub fn check(alloc: Global, admitted: &Admitted, tables: &Tables) -> Result<Verdict, OutOfMemory>
    ensures { IfOk result (ShowsVerdict admitted.now.graph admitted.now.order tables.now) }
{
    if let Some(part) = first_difference(alloc, admitted.problem(), tables.head())? {
        return Ok(Verdict::Other(part));
    }
    match first_fault(alloc, admitted, tables)? {
        Some(fault) => Ok(Verdict::No(fault)),
        None => Ok(Verdict::Yes),
    }
}
