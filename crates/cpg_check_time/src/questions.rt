//! The least scenario in which one of several columns is as a question asks.
ghost use Rattle.std.specs.Prelude.{◌≡◌, ℕ, Bool, All, IfOk, List, length, map, true};
ghost use Rattle.std.specs.List.{list_any};
ghost use Rattle.cpg_base.specs.Graph.{Graph, process_count};
ghost use Rattle.cpg_base.specs.First.{IsFirst};
ghost use Rattle.cpg_base.specs.Scenario.{Scenario};
ghost use Rattle.cpg_cube.specs.Cube.{matches};
ghost use Rattle.cpg_cube.specs.declared.column.Column.{Column};
ghost use Rattle.cpg_violation.specs.SievedRows.{IsSievedRow};
ghost use Rattle.cpg_violation.specs.Room.{HasRoom};
ghost use Rattle.cpg_check_time.specs.Columns.{IsColumn};

use crate::meeting::meeting;
use cpg_base::{Order, OutOfMemory, Problem, Scenario};
use cpg_cover::earlier;
use cpg_cube::{Column, Cube};
use cpg_rules::Admitted;
use cpg_violation::SievedRow;
use std::alloc::Global;

/// A question about a column in a scenario.
pub(crate) trait Question {
    // all that the question names is the graph's
    ghost fits: { Self → Graph → Type 0 };

    // whether the column is as asked in the scenario
    ghost asks: { Self → Graph → Column → Scenario → Bool };

    /// The least scenario in which column `beside` is as asked. `None` exactly if there is none. Any scenario of the
    /// graph may be passed as `room`, and is overwritten.
    fn least(
        &self,
        problem: &Problem,
        beside: &Column,
        room: &mut Scenario,
    ) -> Result<Option<Scenario>, OutOfMemory>
        requires fits { fits self.now problem.now }
        requires beside { IsColumn problem.now beside.now }
        requires room { HasRoom problem.now room.old }
        ensures room { HasRoom problem.now room.new }
        ensures first { IfOk result (λ r. (order : List ℕ) → IsFirst problem.now order (asks self.now problem.now beside.now) r) };
}

/// The least scenario in which one of several columns is as asked. `None` exactly if there is none.
fn least_of<Q: Question>(
    alloc: Global,
    problem: &Problem,
    order: &Order,
    question: &Q,
    columns: &[&Column],
) -> Result<Option<Scenario>, OutOfMemory>
    requires order { length order.now ≡ process_count problem.now }
    requires fits { Q.fits question.now problem.now }
    requires columns { All (λ b. IsColumn problem.now b.now) columns.now }
    ensures { IfOk result (IsFirst problem.now order.now
        (λ s. list_any (λ d. Q.asks question.now problem.now d s) (map (λ b. b.now) columns.now))) }
{
    // one scenario to work in for all columns
    let mut room = Scenario::zero(alloc, problem)?;
    // the least scenario of the columns so far
    let mut found: Option<Scenario> = None;
    for beside in columns {
        let next = question.least(problem, beside, &mut room)?;
        found = earlier(problem, order, found, next);
    }
    Ok(found)
}

/// The least scenario in which some column of a row is as asked. `None` exactly if there is none. Only a column that
/// matches together with `cube` can be as asked (`near`), so only those that may match with it are looked at.
pub(crate) fn least_near<Q: Question>(
    alloc: Global,
    admitted: &Admitted,
    row: &SievedRow<'_>,
    cube: &Cube,
    question: &Q,
) -> Result<Option<Scenario>, OutOfMemory>
    requires row { IsSievedRow row.now.columns.now row.now }
    requires columns { All (IsColumn admitted.now.graph) row.now.columns.now }
    requires fits { Q.fits question.now admitted.now.graph }
    requires near { (s : Scenario) (d : Column) → Q.asks question.now admitted.now.graph d s ≡ true
        → (matches cube.now s ≡ true) × (matches d.cube s ≡ true) }
    ensures { IfOk result (IsFirst admitted.now.graph admitted.now.order
        (λ s. list_any (λ d. Q.asks question.now admitted.now.graph d s) row.now.columns.now)) }
{
    let problem = admitted.problem();
    let order = admitted.order();
    let near = meeting(alloc, row, cube)?;
    let found = least_of(alloc, problem, order, question, near.as_slice())?;
    Ok(found)
}
