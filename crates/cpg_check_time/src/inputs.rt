//! V5: at a start the release has come and the live inputs are there, and at a send the producer has ended.
ghost use Rattle.std.specs.Prelude.{◌≡◌, ◌≤◌, ◌<◌, ◌&&◌, All, IfNone, IfOk, IfSome, false};
ghost use Rattle.std.specs.List.{list_any};
ghost use Rattle.std.proofs.Common.{refl};
ghost use Rattle.cpg_base.specs.Graph.{Graph, edge_count, item_count};
ghost use Rattle.cpg_cube.specs.Cube.{matches};
ghost use Rattle.cpg_cube.specs.Fit.{IsKnown};
ghost use Rattle.cpg_base.specs.First.{IsFirst};
ghost use Rattle.cpg_base.specs.Scenario.{Scenario};
ghost use Rattle.cpg_table.specs.declared.rule.Rule.{Rule};
ghost use Rattle.cpg_head.specs.GraphHead.{head_of};
ghost use Rattle.cpg_table.specs.Lawful.{AreTablesOf};
ghost use Rattle.cpg_check_time.specs.Columns.{IsColumn};
ghost use Rattle.cpg_check_time.specs.Inputs.{lacks_input};
ghost use Rattle.cpg_violation.specs.SievedRows.{AreSievedRows};
ghost use Rattle.cpg_check_time.specs.Ready.{IsReady};

use crate::delays::{Delay, least_delay};
use crate::judge::TimeJudge;
use cpg_base::{OutOfMemory, Scenario};
use cpg_cover::earlier;
use cpg_cube::{Column, Cube};
use cpg_order::Links;
use cpg_rules::Admitted;
use cpg_table::Tables;
use cpg_violation::{SievedRow, edge_cube};
use std::alloc::Global;

/// The cube that matches where two cubes both do; `None` exactly if their ranges of some variable have no number in
/// common.
fn common(cube: &Cube, other: &Cube) -> Result<Option<Cube>, OutOfMemory>
    ensures both { IfOk result (λ r. IfSome r (λ part. (s : Scenario) → matches part s ≡ (matches cube.now s && matches other.now s))) }
    ensures known { IfOk result (λ r. IfSome r (λ part. (g : Graph) → IsKnown g cube.now → IsKnown g other.now → IsKnown g part)) }
    ensures none { IfOk result (λ r. IfNone r ((s : Scenario) → (matches cube.now s && matches other.now s) ≡ false)) }
{
    let mut part = cube.copy()?;
    for literal in other.literals() {
        // the literal leaves its variable no number
        let Some(next) = part.with(*literal)? else {
            return Ok(None);
        };
        part = next;
    }
    Ok(Some(part))
}

/// The least scenario in which a column matches, and input `edge` is there only after the column's time. `None` exactly
/// if there is none. `rows` are those of all items.
fn least_lacking(
    alloc: Global,
    admitted: &Admitted,
    tables: &Tables,
    rows: &[SievedRow<'_>],
    edge: u32,
    column: &Column,
) -> Result<Option<Scenario>, OutOfMemory>
    requires lawful { AreTablesOf (head_of admitted.now.graph) tables.now.nodes }
    requires rows { AreSievedRows tables.now.nodes (item_count admitted.now.graph) rows.now }
    requires edge { edge < edge_count admitted.now.graph }
    requires column { IsColumn admitted.now.graph column.now }
    ensures { IfOk result (IsFirst admitted.now.graph admitted.now.order (lacks_input admitted.now.graph tables.now.nodes column.now edge)) }
{
    let problem = admitted.problem();
    // a message is there a slot after it was sent
    if problem.is_message(edge) {
        // messages are numbered behind the starts, of which there are at most 128
        let item = problem.processes().len() as u32 + edge;
        let slot = Delay::Slot(problem.slot_length(problem.home(item)));
        let found = least_delay(alloc, admitted, tables, rows, item, column, slot)?;
        return Ok(found);
    }
    // any other input is there when its source, on the same node, has ended
    let process = problem.source(edge);
    let execution = Delay::Execution(process);
    let asked = edge_cube(alloc, problem, edge)?;
    // in no scenario of the column the source has the value that the edge asks for
    let Some(part) = common(&column.cube, &asked)? else {
        return Ok(None);
    };
    let part = Column {
        time: column.time,
        cube: part,
    };
    let found = least_delay(alloc, admitted, tables, rows, process, &part, execution)?;
    Ok(found)
}

/// The least scenario in which a column matches, and one of these inputs is there only after the column's time. `None`
/// exactly if there is none. `rows` are those of all items.
fn least_of_lacking(
    alloc: Global,
    admitted: &Admitted,
    tables: &Tables,
    rows: &[SievedRow<'_>],
    edges: &[u32],
    column: &Column,
) -> Result<Option<Scenario>, OutOfMemory>
    requires lawful { AreTablesOf (head_of admitted.now.graph) tables.now.nodes }
    requires rows { AreSievedRows tables.now.nodes (item_count admitted.now.graph) rows.now }
    requires edges { All (λ e. e < edge_count admitted.now.graph) edges.now }
    requires column { IsColumn admitted.now.graph column.now }
    ensures { IfOk result (IsFirst admitted.now.graph admitted.now.order
        (λ s. list_any (λ e. lacks_input admitted.now.graph tables.now.nodes column.now e s) edges.now)) }
{
    let problem = admitted.problem();
    let order = admitted.order();
    // the least scenario of the edges so far
    let mut found: Option<Scenario> = None;
    for edge in edges {
        let next = least_lacking(alloc, admitted, tables, rows, *edge, column)?;
        found = earlier(problem, order, found, next);
    }
    Ok(found)
}

/// Judges V5, by the inputs of each process and the rows of all items.
#[derive(Drop)]
pub(crate) struct WaitedInputs<'a> {
    /// The inputs of each process.
    pub(crate) links: Links,
    /// The rows of all items, by number.
    pub(crate) rows: &'a [SievedRow<'a>],
}

impl<'a> TimeJudge for WaitedInputs<'a> {
    ghost rule = { Rule.Inputs };

    // the inputs and the rows are those of the graph and its tables
    ghost suits = { λ judge g tables. IsReady g tables judge };

    /// The least scenario in which a column of an item is earlier than the release of its process or something that the
    /// item waits for. `None` exactly if there is none.
    fn least(
        &self,
        alloc: Global,
        admitted: &Admitted,
        tables: &Tables,
        item: u32,
        column: &Column,
    ) -> Result<Option<Scenario>, OutOfMemory> {
        let problem = admitted.problem();
        let rows = self.rows;
        // a message or a broadcast waits for its producer's end
        if item as usize >= problem.processes().len() {
            let process = problem.producer(item);
            let end = Delay::Execution(process);
            let least = least_delay(alloc, admitted, tables, rows, process, column, end)?;
            return Ok(least);
        }
        // before the release it breaks the rule in each scenario that it matches
        if column.time < problem.release(item) {
            let least = column.cube.least(alloc, problem)?;
            return Ok(least);
        }
        let edges = self.links.inputs(item);
        let least = least_of_lacking(alloc, admitted, tables, rows, edges, column)?;
        Ok(least)
    }

    // V5 is neither V2 nor V3
    ghost alone = { refl };
}
