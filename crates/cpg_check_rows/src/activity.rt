//! The check of V1: wherever a column matches, its item and the processes of its literals are active.
ghost use Rattle.std.specs.Prelude.{◌≡◌, ◌≤◌, ◌<◌, ◌&&◌, ℕ, List, All, IfNone, IfOk, IfSome, false, length, not, true};
ghost use Rattle.std.specs.List.{list_any};
ghost use Rattle.cpg_base.specs.declared.limits.TheConstants.{MOST_LOAD};
ghost use Rattle.cpg_base.specs.Activity.{active, item_active, live};
ghost use Rattle.cpg_base.specs.Graph.{IsVariable, condition_of, edge_at, edge_count, item_at, item_count, process_count, process_of_variable, source};
ghost use Rattle.cpg_rules.specs.Guards.{is_passed, test_of};
ghost use Rattle.cpg_base.specs.First.{IsFirst};
ghost use Rattle.cpg_base.specs.Scenario.{Scenario, IsScenario};
ghost use Rattle.cpg_cube.specs.Cube.{holds, matches};
ghost use Rattle.cpg_cube.specs.Fit.{IsKnown};
ghost use Rattle.cpg_table.specs.declared.rule.Rule.{Rule};
ghost use Rattle.cpg_table.specs.Valid.{breaks_activity};
ghost use Rattle.cpg_check_rows.specs.Active.{is_idle};
ghost use Rattle.cpg_violation.specs.Heads.{IsHeadFor};
ghost use Rattle.cpg_violation.specs.Sure.{AreSure};
ghost use Rattle.cpg_violation.specs.Violation.{Holds, IsFirstColumn, IsFirstViolation};

use cpg_base::{OutOfMemory, Problem, Scenario};
use cpg_cover::earlier;
use cpg_cube::{Column, Cube, Literal};
use cpg_rules::Admitted;
use cpg_table::{Fault, Rule, Tables};
use cpg_violation::{ItemSource, is_marked, item_source, least_at, value_literal};
use std::alloc::Global;

/// The least scenario that a cube matches and in which a process isn't active. `None` exactly if there is none.
fn least_idle(
    alloc: Global,
    admitted: &Admitted,
    process: u32,
    cube: &Cube,
) -> Result<Option<Scenario>, OutOfMemory>
    requires process { process < process_count admitted.now.graph }
    requires cube { IsKnown admitted.now.graph cube.now }
    ensures { IfOk result (IsFirst admitted.now.graph admitted.now.order (λ s. matches cube.now s && not (active admitted.now.graph s.values process))) }
{
    let tree = admitted.guards().guard_of(process);
    let found = least_at(alloc, admitted, tree, false, cube, &[])?;
    Ok(found)
}

/// The literal of the value that an edge doesn't ask for. `None` if the edge asks for no value.
fn other_value(problem: &Problem, edge: u32) -> Option<Literal>
    requires edge { edge < edge_count problem.now }
    requires source { source problem.now edge < process_count problem.now }
    ensures known { IfSome result (λ l. IsVariable problem.now l.variable) }
    ensures none { IfNone result ((s : Scenario) → is_passed
        (test_of (condition_of problem.now (source problem.now edge)) (edge_at problem.now edge).when) s.values ≡ true) }
    ensures some { IfSome result (λ l. (s : Scenario) → holds s l
        ≡ not (is_passed (test_of (condition_of problem.now (source problem.now edge))
        (edge_at problem.now edge).when) s.values)) }
{
    let edge = problem.edges()[edge as usize];
    // a source without a condition has no value that could be asked for
    let Some(condition) = problem.condition_of(edge.from) else {
        return None;
    };
    // the edge asks for no value
    let Some(value) = edge.when else {
        return None;
    };
    Some(value_literal(condition, !value))
}

/// The least scenario that a cube matches and in which a literal holds. `None` exactly if there is none.
fn least_with(
    alloc: Global,
    problem: &Problem,
    cube: &Cube,
    literal: Literal,
) -> Result<Option<Scenario>, OutOfMemory>
    requires cube { IsKnown problem.now cube.now }
    requires literal { IsVariable problem.now literal.variable }
    ensures { IfOk result (λ r. (order : List ℕ) → IsFirst problem.now order (λ s. matches cube.now s && holds s literal) r) }
{
    // no number of the variable is in the ranges of both
    let Some(part) = cube.with(literal)? else {
        return Ok(None);
    };
    let found = part.least(alloc, problem)?;
    Ok(found)
}

/// The least scenario that a cube matches and in which an edge isn't live: its source isn't active, or has the other
/// value. `None` exactly if there is none.
fn least_unlive(
    alloc: Global,
    admitted: &Admitted,
    edge: u32,
    cube: &Cube,
) -> Result<Option<Scenario>, OutOfMemory>
    requires edge { edge < edge_count admitted.now.graph }
    requires cube { IsKnown admitted.now.graph cube.now }
    ensures { IfOk result (IsFirst admitted.now.graph admitted.now.order (λ s. matches cube.now s && not (live admitted.now.graph s.values edge))) }
{
    let problem = admitted.problem();
    let order = admitted.order();
    let process = problem.source(edge);
    let idle = least_idle(alloc, admitted, process, cube)?;
    // if the edge asks for no value, it is live wherever its source is active
    let Some(literal) = other_value(problem, edge) else {
        return Ok(idle);
    };
    let other = least_with(alloc, problem, cube, literal)?;
    Ok(earlier(problem, order, idle, other))
}

/// The least scenario that a cube matches and in which an item isn't active. `None` exactly if there is none.
fn least_inactive(
    alloc: Global,
    admitted: &Admitted,
    item: u32,
    cube: &Cube,
) -> Result<Option<Scenario>, OutOfMemory>
    requires item { item < item_count admitted.now.graph }
    requires cube { IsKnown admitted.now.graph cube.now }
    ensures { IfOk result (IsFirst admitted.now.graph admitted.now.order (λ s. matches cube.now s
        && not (item_active admitted.now.graph s.values (item_at admitted.now.graph item)))) }
{
    let problem = admitted.problem();
    match item_source(problem, item) {
        // the item is never sent, so it is active in no scenario
        ItemSource::Nothing => cube.least(alloc, problem),
        ItemSource::Process(process) => least_idle(alloc, admitted, process, cube),
        ItemSource::Edge(edge) => least_unlive(alloc, admitted, edge, cube),
    }
}

/// The least scenario that a cube matches and in which the process of one of its literals isn't active. `None` exactly
/// if there is none.
fn least_unrun(
    alloc: Global,
    admitted: &Admitted,
    cube: &Cube,
) -> Result<Option<Scenario>, OutOfMemory>
    requires { IsKnown admitted.now.graph cube.now }
    ensures { IfOk result (IsFirst admitted.now.graph admitted.now.order (λ s. matches cube.now s
        && list_any (λ l. not (active admitted.now.graph s.values
        (process_of_variable admitted.now.graph l.variable))) cube.now)) }
{
    let problem = admitted.problem();
    let order = admitted.order();
    // the least scenario of the literals so far
    let mut found: Option<Scenario> = None;
    for literal in cube.literals() {
        let process = problem.process_of_variable(literal.variable);
        let next = least_idle(alloc, admitted, process, cube)?;
        found = earlier(problem, order, found, next);
    }
    Ok(found)
}

/// The least scenario in which a column breaks V1: it matches, and its item, or the process of one of its literals,
/// isn't active. `None` exactly if there is none.
fn least_unlawful(
    alloc: Global,
    admitted: &Admitted,
    item: u32,
    column: &Column,
) -> Result<Option<Scenario>, OutOfMemory>
    requires item { item < item_count admitted.now.graph }
    requires cube { IsKnown admitted.now.graph column.now.cube }
    ensures { IfOk result (IsFirst admitted.now.graph admitted.now.order (λ s. matches column.now.cube s
        && breaks_activity admitted.now.graph s item column.now)) }
{
    let inactive = least_inactive(alloc, admitted, item, &column.cube)?;
    let unrun = least_unrun(alloc, admitted, &column.cube)?;
    Ok(earlier(admitted.problem(), admitted.order(), inactive, unrun))
}

/// The place of the first column of an item's row that breaks V1 in some scenario, with the least such scenario. `None`
/// exactly if there is none.
fn first_idle(
    alloc: Global,
    admitted: &Admitted,
    item: u32,
    columns: &[Column],
) -> Result<Option<(u32, Scenario)>, OutOfMemory>
    requires item { item < item_count admitted.now.graph }
    requires columns { All (λ c. IsKnown admitted.now.graph c.cube) columns.now }
    requires few { length columns.now ≤ MOST_LOAD }
    ensures none { IfOk result (λ r. IfNone r ((i : ℕ) (s : Scenario) → IsScenario admitted.now.graph s
        → is_idle admitted.now.graph item columns.now i s ≡ false)) }
    ensures first { IfOk result (λ r. IfSome r (IsFirstColumn admitted.now.graph admitted.now.order (is_idle admitted.now.graph item columns.now))) }
{
    for (place, column) in columns.iter().enumerate() {
        let unlawful = least_unlawful(alloc, admitted, item, column)?;
        if let Some(scenario) = unlawful {
            // `MOST_LOAD` is far below 2^32
            return Ok(Some((place as u32, scenario)));
        }
    }
    Ok(None)
}

/// The first violation of V1, by item and column, with the least scenario in the urgency order in which it occurs: the
/// column matches, and the item or the process of one of the column's literals isn't active. `None` exactly if the
/// rule holds. Items at which it is marked as sure are left out.
pub(crate) fn check_activity(
    alloc: Global,
    admitted: &Admitted,
    tables: &Tables,
    marks: &[bool],
) -> Result<Option<Fault>, OutOfMemory>
    requires head { IsHeadFor admitted.now.graph tables.now.head }
    requires marks { AreSure admitted.now.graph tables.now.nodes Rule.Activity marks.now }
    ensures none { IfOk result (λ r. IfNone r (Holds admitted.now.graph tables.now.nodes Rule.Activity)) }
    ensures first { IfOk result (λ r. IfSome r (IsFirstViolation admitted.now.graph admitted.now.order tables.now.nodes Rule.Activity)) }
{
    for item in 0..admitted.problem().item_count() {
        // the rule holds here
        if is_marked(marks, item) {
            continue;
        }
        let columns = tables.columns_of(item);
        let idle = first_idle(alloc, admitted, item, columns)?;
        if let Some((column, scenario)) = idle {
            return Ok(Some(Fault {
                rule: Rule::Activity.number(),
                item,
                column: Some(column),
                scenario,
            }));
        }
    }
    Ok(None)
}
