//! Bounds that single frames tell wherever a column matches. The rows that a node hears are asked one after another:
//! first those with long cubes, which tell most. Once no bound is left, no other row is looked at.
ghost use Rattle.std.specs.Prelude.{◌≡◌, ℕ, Bool, All, Contains, IfOk, false, true};
ghost use Rattle.std.specs.List.{list_any};
ghost use Rattle.cpg_base.specs.Graph.{IsVariable};
ghost use Rattle.cpg_base.specs.Scenario.{Scenario, IsScenario};
ghost use Rattle.cpg_cube.specs.Cube.{matches};
ghost use Rattle.cpg_cube.specs.Fit.{IsKnown};
ghost use Rattle.cpg_table.specs.Shape.{heard_by};
ghost use Rattle.cpg_check_heard.specs.Arrivals.{IsArrival, do_tell};
ghost use Rattle.cpg_check_heard.specs.Bounds.{variable_of};
ghost use Rattle.cpg_check_heard.specs.Hearings.{IsHearing};
ghost use Rattle.cpg_check_heard.specs.Unheard.{is_one_untold};

use crate::arrivals::{Arrival, tells_one_whole};
use crate::bound::LiteralBound;
use crate::hearing::Hearing;
use cpg_base::{OutOfMemory, Problem};
use cpg_cube::Column;
use std::alloc::Global;
use std::cmp::Reverse;

/// A row that a node hears, in an order by which rows with longer cubes come first, and then the lower items.
#[derive(Clone, Copy, PartialEq, Eq, PartialOrd, Ord)]
pub(crate) struct RowRank {
    /// How many literals its longest cube has.
    most_literals: Reverse<usize>,
    /// The item of the row.
    item: u32,
}

/// Those of some bounds that none of `arrivals` is found to tell wherever a column matches, by the column's time. Those
/// left out are told there, so a test that is false of told bounds passes at one that is left exactly where it does at
/// one of all (`left`).
fn left_open(
    alloc: Global,
    problem: &Problem,
    arrivals: &[Arrival<'_>],
    column: &Column,
    bounds: &[LiteralBound],
) -> Result<Vec<LiteralBound>, OutOfMemory>
    requires cube { IsKnown problem.now column.now.cube }
    requires arrivals { All (IsArrival problem.now) arrivals.now }
    requires bounds { All (λ b. IsVariable problem.now (variable_of b)) bounds.now }
    ensures known { IfOk result (λ left. All (λ b. IsVariable problem.now (variable_of b)) left.items) }
    ensures left { IfOk result (λ left. (s : Scenario) (test : LiteralBound → Bool) → IsScenario problem.now s
        → matches column.now.cube s ≡ true → ((b : LiteralBound) → IsVariable problem.now (variable_of b)
        → do_tell problem.now column.now.time b arrivals.now s ≡ true → test b ≡ false)
        → list_any test left.items ≡ list_any test bounds.now) }
{
    let mut left = Vec::new(alloc);
    for bound in bounds {
        if tells_one_whole(problem, arrivals, &column.cube, column.time, *bound) {
            continue;
        }
        left.push(*bound)?;
    }
    Ok(left)
}

impl Hearing<'_> {
    /// The rows of these items, all of which a node hears: those with long cubes first. Only the contract names `node`.
    pub(crate) fn ranks(
        &self,
        alloc: Global,
        node: u32,
        items: &[u32],
    ) -> Result<Vec<RowRank>, OutOfMemory>
        requires hearing { IsHearing self.now }
        requires items { All (Contains (heard_by self.now.admitted.now.graph node)) items.now }
        ensures { IfOk result (λ ranks. All (λ r. Contains (heard_by self.now.admitted.now.graph node) r.item) ranks.items) }
    {
        let mut ranks = Vec::new(alloc);
        for item in items {
            let row = &self.telling_rows[*item as usize];
            ranks.push(RowRank {
                most_literals: Reverse(row.most_literals),
                item: *item,
            })?;
        }
        ranks.sort_unstable();
        Ok(ranks)
    }

    /// Those of some bounds that no single frame is found to tell by a column's time wherever the column matches. So
    /// where it matches, one of these is untold exactly if one of all is (`untold`).
    pub(crate) fn unframed(
        &self,
        alloc: Global,
        node: u32,
        ranks: &[RowRank],
        column: &Column,
        bounds: Vec<LiteralBound>,
    ) -> Result<Vec<LiteralBound>, OutOfMemory>
        requires hearing { IsHearing self.now }
        requires ranks { All (λ r. Contains (heard_by self.now.admitted.now.graph node) r.item) ranks.now }
        requires cube { IsKnown self.now.admitted.now.graph column.now.cube }
        requires bounds { All (λ b. IsVariable self.now.admitted.now.graph (variable_of b)) bounds.items }
        ensures known { IfOk result (λ left. All (λ b. IsVariable self.now.admitted.now.graph (variable_of b)) left.items) }
        ensures untold { IfOk result (λ left. (s : Scenario) → IsScenario self.now.admitted.now.graph s
            → matches column.now.cube s ≡ true
            → is_one_untold self.now.admitted.now.graph self.now.tables.now.nodes node column.now.time left.items s
            ≡ is_one_untold self.now.admitted.now.graph self.now.tables.now.nodes node column.now.time bounds.items s) }
    {
        let problem = self.admitted.problem();
        let (cube, time) = (&column.cube, column.time);
        let mut left = bounds;
        for rank in ranks {
            // the other rows need not be asked
            if left.is_empty() {
                return Ok(left);
            }
            let arrivals = self.arrivals(alloc, node, &[rank.item], cube, time)?;
            left = left_open(alloc, problem, arrivals.as_slice(), column, left.as_slice())?;
        }
        Ok(left)
    }
}
