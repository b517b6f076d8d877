//! V5 asks whether what a column waits for is done only after its time: an execution, or the slot of a frame.
ghost use Rattle.std.specs.Prelude.{◌<◌, ◌^◌, ◌&&◌, IfOk};
ghost use Rattle.std.specs.List.{list_any};
ghost use Rattle.cpg_base.specs.Graph.{item_count};
ghost use Rattle.cpg_cube.specs.Cube.{matches};
ghost use Rattle.cpg_cube.specs.Fit.{IsKnown};
ghost use Rattle.cpg_base.specs.First.{IsFirst};
ghost use Rattle.cpg_head.specs.GraphHead.{head_of};
ghost use Rattle.cpg_table.specs.Lawful.{AreTablesOf};
ghost use Rattle.cpg_table.specs.Table.{columns_of};
ghost use Rattle.cpg_check_time.specs.Delays.{IsDelay, IsMost, delays, is_late};
ghost use Rattle.cpg_check_time.specs.Questions.{FitsLate};
ghost use Rattle.cpg_violation.specs.SievedRows.{AreSievedRows};

use crate::lateness::least_late;
use crate::questions::{Question, least_near};
use cpg_base::{OutOfMemory, Problem, Scenario};
use cpg_cube::{Column, Cube};
use cpg_rules::Admitted;
use cpg_table::Tables;
use cpg_violation::{SievedRow, met};
use std::alloc::Global;

/// What a column begins, and so how long after the column's time that is done.
#[derive(Clone, Copy)]
pub(crate) enum Delay {
    /// An execution of the process with this number: its duration depends on its faults.
    Execution(u32),
    /// A frame in a slot of this many time units.
    Slot(u64),
}

/// How long a delay is at most, in any scenario.
fn most(problem: &Problem, delay: Delay) -> u64
    requires { IsDelay problem.now delay }
    ensures most { IsMost problem.now delay result }
    ensures short { result < 2 ^ 40 }
{
    match delay {
        Delay::Execution(process) => problem.duration(process, problem.faults()),
        Delay::Slot(length) => length,
    }
}

/// Asks of a column whether it matches together with a cube, and what it begins is done only after a time.
#[derive(Drop)]
pub(crate) struct Late<'a> {
    /// The cube of the column that waits.
    pub(crate) cube: &'a Cube,
    /// What the column that is asked begins.
    pub(crate) delay: Delay,
    /// The time of the column that waits.
    pub(crate) time: u64,
}

impl<'a> Question for Late<'a> {
    ghost fits = { λ late g. FitsLate g late };

    ghost asks = { λ late g. delays g late.cube.now late.delay late.time };

    fn least(
        &self,
        problem: &Problem,
        beside: &Column,
        room: &mut Scenario,
    ) -> Result<Option<Scenario>, OutOfMemory> {
        let (cube, time) = (self.cube, self.time);
        match self.delay {
            // how long an execution takes depends on the faults
            Delay::Execution(process) => {
                let found = least_late(problem, cube, beside, process, time, room)?;
                Ok(found)
            }
            // a slot is equally long in each scenario, so only the cubes are left to ask
            Delay::Slot(length) => {
                // the frame is there by then
                if beside.time + length <= time {
                    return Ok(None);
                }
                let found = met(problem, cube, &beside.cube, room)?;
                Ok(found)
            }
        }
    }
}

/// The least scenario in which `column` and some column of `item` both match, and what the latter begins is done only
/// after the time of the former. `None` exactly if there is none. `delay` is what a column of `item` begins, and `rows`
/// are those of all items. Only the contract names `tables`.
pub(crate) fn least_delay(
    alloc: Global,
    admitted: &Admitted,
    tables: &Tables,
    rows: &[SievedRow<'_>],
    item: u32,
    column: &Column,
    delay: Delay,
) -> Result<Option<Scenario>, OutOfMemory>
    requires lawful { AreTablesOf (head_of admitted.now.graph) tables.now.nodes }
    requires rows { AreSievedRows tables.now.nodes (item_count admitted.now.graph) rows.now }
    requires item { item < item_count admitted.now.graph }
    requires cube { IsKnown admitted.now.graph column.now.cube }
    requires delay { IsDelay admitted.now.graph delay }
    requires time { column.now.time < 2 ^ 60 }
    ensures { IfOk result (IsFirst admitted.now.graph admitted.now.order (λ s. matches column.now.cube s
        && list_any (λ d. is_late admitted.now.graph delay column.now.time d s) (columns_of tables.now.nodes item))) }
{
    let problem = admitted.problem();
    let (cube, time) = (&column.cube, column.time);
    let row = &rows[item as usize];
    // even what the last column of the item begins is done by then, with any faults
    if row.last.saturating_add(most(problem, delay)) <= time {
        return Ok(None);
    }
    let late = Late { cube, delay, time };
    let found = least_near(alloc, admitted, row, cube, &late)?;
    Ok(found)
}
