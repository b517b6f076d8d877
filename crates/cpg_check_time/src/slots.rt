//! V7: each send is at the start of a slot of its own node, and no two items of a node share one.
ghost use Rattle.std.proofs.Common.{refl};
ghost use Rattle.cpg_base.specs.Graph.{item_count};
ghost use Rattle.cpg_cube.specs.Fit.{IsKnown};
ghost use Rattle.cpg_table.specs.declared.rule.Rule.{Rule};
ghost use Rattle.cpg_check_time.specs.Clashes.{shares, shares_some};
ghost use Rattle.cpg_violation.specs.SievedRows.{AreSievedRows};

use crate::judge::TimeJudge;
use crate::pairs::{ColumnPairs, least_of_lower};
use crate::questions::{Question, least_near};
use cpg_base::{OutOfMemory, Problem, Scenario};
use cpg_bus::is_slot_start;
use cpg_cube::Column;
use cpg_rules::Admitted;
use cpg_table::Tables;
use cpg_violation::{SievedRow, met};
use std::alloc::Global;

/// Asks of a column whether it matches together with another, `column`, and has its time.
#[derive(Drop)]
pub(crate) struct Shared<'a> {
    /// The column that another is to match together with, at the same time.
    pub(crate) column: &'a Column,
}

impl<'a> Question for Shared<'a> {
    ghost fits = { λ shared g. IsKnown g shared.column.now.cube };

    ghost asks = { λ shared g. shares shared.column.now };

    fn least(
        &self,
        problem: &Problem,
        beside: &Column,
        room: &mut Scenario,
    ) -> Result<Option<Scenario>, OutOfMemory> {
        let column = self.column;
        // sends of a node at different times are in different slots
        if beside.time != column.time {
            return Ok(None);
        }
        let found = met(problem, &column.cube, &beside.cube, room)?;
        Ok(found)
    }
}

/// Judges V7, by the rows of all items.
#[derive(Drop)]
pub(crate) struct Slots<'a> {
    /// The rows of all items, by number.
    pub(crate) rows: &'a [SievedRow<'a>],
}

impl<'a> ColumnPairs for Slots<'a> {
    // the rows are those of the graph's tables
    ghost fits = { λ pairs g tables. AreSievedRows tables (item_count g) pairs.rows.now };

    // it is for all items
    ghost count = { item_count };

    // two items of one node are sent at one time
    ghost clash = { shares_some };

    /// The least scenario in which a column of `item` matches together with one of `other` at the same time, if the
    /// node of `item` sends `other`. `None` exactly if there is none, or the node doesn't send it. Only columns that
    /// may match together with this one are looked at, and none if all are earlier or later. Only the contract names
    /// `tables`.
    fn least_with(
        &self,
        alloc: Global,
        admitted: &Admitted,
        tables: &Tables,
        item: u32,
        column: &Column,
        other: u32,
    ) -> Result<Option<Scenario>, OutOfMemory> {
        let rows = self.rows;
        let row = &rows[other as usize];
        // the other row begins later
        if column.time < row.first {
            return Ok(None);
        }
        // the other row has ended earlier
        if row.last < column.time {
            return Ok(None);
        }
        let problem = admitted.problem();
        // an item that isn't sent over the bus takes no slot
        if !problem.is_sent(other) {
            return Ok(None);
        }
        // nodes have different slots
        if problem.home(other) != problem.home(item) {
            return Ok(None);
        }
        let shared = Shared { column };
        let found = least_near(alloc, admitted, row, &column.cube, &shared)?;
        Ok(found)
    }
}

impl<'a> TimeJudge for Slots<'a> {
    ghost rule = { Rule.Slot };

    // the rows are those of the graph's tables
    ghost suits = { λ judge g tables. AreSievedRows tables (item_count g) judge.rows.now };

    /// The least scenario in which a column of an item breaks V7: it isn't at the start of a slot of the node, or
    /// shares its slot with a lower item of the node. `None` exactly if there is none.
    fn least(
        &self,
        alloc: Global,
        admitted: &Admitted,
        tables: &Tables,
        item: u32,
        column: &Column,
    ) -> Result<Option<Scenario>, OutOfMemory> {
        let problem = admitted.problem();
        // an item that isn't sent over the bus takes no slot
        if !problem.is_sent(item) {
            return Ok(None);
        }
        // no slot of the node starts then, so the column breaks the rule in each scenario that it matches
        if !is_slot_start(problem, problem.home(item), column.time) {
            let least = column.cube.least(alloc, problem)?;
            return Ok(least);
        }
        // of two items that share a slot, the one with the higher number breaks the rule
        let least = least_of_lower(alloc, admitted, tables, self, item, column)?;
        Ok(least)
    }

    // V7 is neither V2 nor V3
    ghost alone = { refl };
}
