//! V6: no two executions on a processor overlap.
ghost use Rattle.std.proofs.Common.{refl};
ghost use Rattle.cpg_base.specs.Graph.{item_count, process_count};
ghost use Rattle.cpg_table.specs.declared.rule.Rule.{Rule};
ghost use Rattle.cpg_check_time.specs.Clashes.{overlaps, overlaps_some};
ghost use Rattle.cpg_check_time.specs.Questions.{FitsOverlap};
ghost use Rattle.cpg_violation.specs.SievedRows.{AreSievedRows};

use crate::judge::TimeJudge;
use crate::lateness::least_late;
use crate::pairs::{ColumnPairs, least_of_lower};
use crate::questions::{Question, least_near};
use cpg_base::{OutOfMemory, Problem, Scenario};
use cpg_cube::Column;
use cpg_rules::Admitted;
use cpg_table::Tables;
use cpg_violation::SievedRow;
use std::alloc::Global;

/// Asks of a column of process `other` whether the execution that it starts overlaps the one that `column` of `process`
/// starts.
#[derive(Drop)]
pub(crate) struct Overlap<'a> {
    /// The process that `column` starts.
    pub(crate) process: u32,
    /// A column of `process`.
    pub(crate) column: &'a Column,
    /// The process whose columns are asked.
    pub(crate) other: u32,
}

impl<'a> Question for Overlap<'a> {
    ghost fits = { λ overlap g. FitsOverlap g overlap };

    ghost asks = { λ overlap g. overlaps g overlap.process overlap.column.now overlap.other };

    fn least(
        &self,
        problem: &Problem,
        beside: &Column,
        room: &mut Scenario,
    ) -> Result<Option<Scenario>, OutOfMemory> {
        let column = self.column;
        // the other execution starts first: the two overlap if it ends after this one's start
        if beside.time <= column.time {
            let found = least_late(problem, &column.cube, beside, self.other, column.time, room)?;
            return Ok(found);
        }
        // this one starts first: the two overlap if it ends after the other's start
        let found = least_late(
            problem,
            &beside.cube,
            column,
            self.process,
            beside.time,
            room,
        )?;
        Ok(found)
    }
}

/// Judges V6, by the rows of all items.
#[derive(Drop)]
pub(crate) struct Processors<'a> {
    /// The rows of all items, by number.
    pub(crate) rows: &'a [SievedRow<'a>],
}

impl<'a> ColumnPairs for Processors<'a> {
    // the rows are those of the graph's tables
    ghost fits = { λ pairs g tables. AreSievedRows tables (item_count g) pairs.rows.now };

    // it is for processes
    ghost count = { process_count };

    // two executions of one node overlap
    ghost clash = { overlaps_some };

    /// The least scenario in which the execution of process `item` that a column starts overlaps one of process
    /// `other`, if that is on the same node. `None` exactly if there is none, or it is on another node. Only columns
    /// that may match together with this one are looked at, and none if all are too early or too late. Only the
    /// contract names `tables`.
    fn least_with(
        &self,
        alloc: Global,
        admitted: &Admitted,
        tables: &Tables,
        item: u32,
        column: &Column,
        other: u32,
    ) -> Result<Option<Scenario>, OutOfMemory> {
        let problem = admitted.problem();
        let rows = self.rows;
        let row = &rows[other as usize];
        // they run on different processors
        if problem.node_of(other) != problem.node_of(item) {
            return Ok(None);
        }
        // all of the other row starts when this execution has ended, with any faults
        if row.first >= column.time + problem.duration(item, problem.faults()) {
            return Ok(None);
        }
        let longest = problem.duration(other, problem.faults());
        // all of the other row has ended before this execution starts
        if row.last.saturating_add(longest) <= column.time {
            return Ok(None);
        }
        let overlap = Overlap {
            process: item,
            column,
            other,
        };
        let found = least_near(alloc, admitted, row, &column.cube, &overlap)?;
        Ok(found)
    }
}

impl<'a> TimeJudge for Processors<'a> {
    ghost rule = { Rule.Processor };

    // the rows are those of the graph's tables
    ghost suits = { λ judge g tables. AreSievedRows tables (item_count g) judge.rows.now };

    /// The least scenario in which the execution that a column starts overlaps one of a lower process of its node.
    /// `None` exactly if there is none.
    fn least(
        &self,
        alloc: Global,
        admitted: &Admitted,
        tables: &Tables,
        item: u32,
        column: &Column,
    ) -> Result<Option<Scenario>, OutOfMemory> {
        // a send takes no time on a processor
        if item as usize >= admitted.problem().processes().len() {
            return Ok(None);
        }
        let least = least_of_lower(alloc, admitted, tables, self, item, column)?;
        Ok(least)
    }

    // V6 is neither V2 nor V3
    ghost alone = { refl };
}
