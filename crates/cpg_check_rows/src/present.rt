//! The check of V3: an active item has a column that matches.
ghost use Rattle.std.specs.Prelude.{◌≡◌, ◌<◌, ◌&&◌, ℕ, All, IfNone, IfOk, IfSome, map};
ghost use Rattle.cpg_base.specs.Activity.{active, live};
ghost use Rattle.cpg_base.specs.Graph.{edge_count, item_count, process_count};
ghost use Rattle.cpg_base.specs.First.{IsFirst};
ghost use Rattle.cpg_base.specs.Scenario.{Scenario};
ghost use Rattle.cpg_cube.specs.Cube.{matches};
ghost use Rattle.cpg_cover.specs.Cover.{is_left};
ghost use Rattle.cpg_cube.specs.Fit.{IsKnown};
ghost use Rattle.cpg_check_rows.specs.Present.{has_none, is_absent};
ghost use Rattle.cpg_table.specs.declared.rule.Rule.{Rule};
ghost use Rattle.cpg_violation.specs.Heads.{IsHeadFor};
ghost use Rattle.cpg_violation.specs.Sure.{AreSure};
ghost use Rattle.cpg_violation.specs.Violation.{Holds, IsFirstViolation};

use cpg_base::{OutOfMemory, Scenario};
use cpg_cube::{Column, Cube, cubes_of};
use cpg_rules::Admitted;
use cpg_table::{Fault, Rule, Tables};
use cpg_violation::{ItemSource, edge_cube, is_marked, item_source, least_at};
use std::alloc::Global;

/// The least scenario that a cube matches and none of these columns does, and in which a process is active. `None`
/// exactly if there is none.
fn least_without(
    alloc: Global,
    admitted: &Admitted,
    process: u32,
    cube: &Cube,
    columns: &[Column],
) -> Result<Option<Scenario>, OutOfMemory>
    requires process { process < process_count admitted.now.graph }
    requires cube { IsKnown admitted.now.graph cube.now }
    requires columns { All (λ c. IsKnown admitted.now.graph c.cube) columns.now }
    ensures { IfOk result (IsFirst admitted.now.graph admitted.now.order (λ s. is_left (map (λ c. c.cube) columns.now) cube.now s
        && active admitted.now.graph s.values process)) }
{
    let tree = admitted.guards().guard_of(process);
    let by = cubes_of(alloc, columns)?;
    let found = least_at(alloc, admitted, tree, true, cube, by.as_slice())?;
    Ok(found)
}

/// The least scenario in which an edge is live and none of these columns matches. `None` exactly if there is none.
fn least_uncarried(
    alloc: Global,
    admitted: &Admitted,
    edge: u32,
    columns: &[Column],
) -> Result<Option<Scenario>, OutOfMemory>
    requires edge { edge < edge_count admitted.now.graph }
    requires columns { All (λ c. IsKnown admitted.now.graph c.cube) columns.now }
    ensures { IfOk result (IsFirst admitted.now.graph admitted.now.order (λ s. live admitted.now.graph s.values edge && has_none columns.now s)) }
{
    let problem = admitted.problem();
    // an edge is live where its source is active and has the value that the edge asks for
    let cube = edge_cube(alloc, problem, edge)?;
    let process = problem.source(edge);
    let found = least_without(alloc, admitted, process, &cube, columns)?;
    Ok(found)
}

/// The least scenario in which a process is active and none of these columns matches. `None` exactly if there is none.
fn least_unstarted(
    alloc: Global,
    admitted: &Admitted,
    process: u32,
    columns: &[Column],
) -> Result<Option<Scenario>, OutOfMemory>
    requires process { process < process_count admitted.now.graph }
    requires columns { All (λ c. IsKnown admitted.now.graph c.cube) columns.now }
    ensures { IfOk result (IsFirst admitted.now.graph admitted.now.order (λ s. active admitted.now.graph s.values process && has_none columns.now s)) }
{
    let whole = Cube::whole(alloc);
    let found = least_without(alloc, admitted, process, &whole, columns)?;
    Ok(found)
}

/// The least scenario in which an item is active and none of these columns matches. `None` exactly if there is none.
fn least_absent(
    alloc: Global,
    admitted: &Admitted,
    item: u32,
    columns: &[Column],
) -> Result<Option<Scenario>, OutOfMemory>
    requires item { item < item_count admitted.now.graph }
    requires columns { All (λ c. IsKnown admitted.now.graph c.cube) columns.now }
    ensures { IfOk result (IsFirst admitted.now.graph admitted.now.order (is_absent admitted.now.graph columns.now item)) }
{
    match item_source(admitted.problem(), item) {
        // the item is never sent, so it is active in no scenario
        ItemSource::Nothing => Ok(None),
        ItemSource::Process(process) => least_unstarted(alloc, admitted, process, columns),
        ItemSource::Edge(edge) => least_uncarried(alloc, admitted, edge, columns),
    }
}

/// The first violation of V3, by item, with the least scenario in the urgency order in which it occurs: the item is
/// active and no column of its row matches. `None` exactly if the rule holds. Items at which it is marked as sure are
/// left out.
pub(crate) fn check_present(
    alloc: Global,
    admitted: &Admitted,
    tables: &Tables,
    marks: &[bool],
) -> Result<Option<Fault>, OutOfMemory>
    requires head { IsHeadFor admitted.now.graph tables.now.head }
    requires marks { AreSure admitted.now.graph tables.now.nodes Rule.Present marks.now }
    ensures none { IfOk result (λ r. IfNone r (Holds admitted.now.graph tables.now.nodes Rule.Present)) }
    ensures first { IfOk result (λ r. IfSome r (IsFirstViolation admitted.now.graph admitted.now.order tables.now.nodes Rule.Present)) }
{
    let problem = admitted.problem();
    for item in 0..problem.item_count() {
        // the rule holds here
        if is_marked(marks, item) {
            continue;
        }
        let columns = tables.columns_of(item);
        let absent = least_absent(alloc, admitted, item, columns)?;
        if let Some(scenario) = absent {
            return Ok(Some(Fault {
                rule: Rule::Present.number(),
                item,
                column: None,
                scenario,
            }));
        }
    }
    Ok(None)
}
