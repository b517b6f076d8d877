//! The check of V2: no two columns of a row match in one scenario.
ghost use Rattle.std.specs.Prelude.{◌≡◌, ◌≤◌, ◌<◌, ◌&&◌, ℕ, All, IfNone, IfOk, IfSome, List, false, length};
ghost use Rattle.std.specs.Bool.{OnTrue};
ghost use Rattle.std.specs.List.{list_any};
ghost use Rattle.cpg_base.specs.declared.limits.TheConstants.{MOST_LOAD};
ghost use Rattle.cpg_base.specs.Graph.{item_count, process_count};
ghost use Rattle.cpg_base.specs.First.{IsFirst};
ghost use Rattle.cpg_base.specs.Scenario.{Scenario, IsScenario};
ghost use Rattle.cpg_cube.specs.Cube.{matches};
ghost use Rattle.cpg_cube.specs.Fit.{IsKnown};
ghost use Rattle.cpg_table.specs.declared.rule.Rule.{Rule};
ghost use Rattle.cpg_violation.specs.Room.{HasRoom};
ghost use Rattle.cpg_violation.specs.Sieves.{IsSieveOf, is_at};
ghost use Rattle.cpg_violation.specs.Heads.{IsHeadFor};
ghost use Rattle.cpg_violation.specs.Sure.{AreSure};
ghost use Rattle.cpg_violation.specs.Violation.{Holds, IsFirstColumn, IsFirstViolation};
ghost use Rattle.cpg_check_rows.specs.Single.{is_double};

use cpg_base::{Order, OutOfMemory, Problem, Scenario};
use cpg_cover::earlier;
use cpg_cube::{Column, Cube};
use cpg_row_trees::tree_of;
use cpg_rules::Admitted;
use cpg_table::{Fault, Rule, Tables};
use cpg_violation::{Sieve, is_marked, met};
use std::alloc::Global;

/// The least scenario that a cube matches together with the column at `place`. `None` exactly if there is none, or no
/// column is there. Any scenario of the graph may be passed as `room`, and is overwritten.
fn met_at(
    problem: &Problem,
    cube: &Cube,
    columns: &[Column],
    place: u32,
    room: &mut Scenario,
) -> Result<Option<Scenario>, OutOfMemory>
    requires cube { IsKnown problem.now cube.now }
    requires columns { All (λ d. IsKnown problem.now d.cube) columns.now }
    requires room { HasRoom problem.now room.old }
    ensures room { HasRoom problem.now room.new }
    ensures first { IfOk result (λ r. (order : List ℕ) → IsFirst problem.now order (λ s. matches cube.now s && is_at columns.now s place) r) }
{
    let Some(column) = columns.get(place as usize) else {
        return Ok(None);
    };
    let found = met(problem, cube, &column.cube, room)?;
    Ok(found)
}

/// The least scenario that a cube matches together with the column at one of these places. `None` exactly if there is
/// none. A place may be past the end: no column is there.
fn shared(
    alloc: Global,
    problem: &Problem,
    order: &Order,
    cube: &Cube,
    columns: &[Column],
    places: &[u32],
) -> Result<Option<Scenario>, OutOfMemory>
    requires order { length order.now ≡ process_count problem.now }
    requires cube { IsKnown problem.now cube.now }
    requires columns { All (λ d. IsKnown problem.now d.cube) columns.now }
    ensures { IfOk result (IsFirst problem.now order.now (λ s. matches cube.now s && list_any (is_at columns.now s) places.now)) }
{
    // one scenario to work in for all places
    let mut room = Scenario::zero(alloc, problem)?;
    // the least scenario of the places so far
    let mut found: Option<Scenario> = None;
    for place in places {
        let next = met_at(problem, cube, columns, *place, &mut room)?;
        found = earlier(problem, order, found, next);
    }
    Ok(found)
}

/// The least scenario that a column of a row matches together with an earlier one. `None` exactly if there is none.
/// `column` is its place, and `sieve` is the sieve of the row.
fn shared_before(
    alloc: Global,
    problem: &Problem,
    order: &Order,
    sieve: &Sieve,
    columns: &[Column],
    column: usize,
) -> Result<Option<Scenario>, OutOfMemory>
    requires order { length order.now ≡ process_count problem.now }
    requires columns { All (λ d. IsKnown problem.now d.cube) columns.now }
    requires sieve { IsSieveOf columns.now sieve.now }
    requires column { column < length columns.now }
    ensures { IfOk result (IsFirst problem.now order.now (is_double columns.now column)) }
{
    let cube = &columns[column].cube;
    // each column that matches together with the cube is at one of these places
    let places = sieve.candidates(alloc, columns, cube)?;
    // later columns don't count: with the row cut off here, nothing is at their places
    let others = &columns[..column];
    let found = shared(alloc, problem, order, cube, others, places.as_slice())?;
    Ok(found)
}

/// Whether a tree is made of the first `count` columns of a row: then no two of them match together. False guarantees
/// nothing.
fn have_tree(
    alloc: Global,
    problem: &Problem,
    columns: &[Column],
    count: usize,
) -> Result<bool, OutOfMemory>
    requires within { count ≤ length columns.now }
    requires few { length columns.now ≤ MOST_LOAD }
    ensures { IfOk result (λ have. OnTrue have ((i : ℕ) (s : Scenario) → i < count → IsScenario problem.now s → is_double columns.now i s ≡ false)) }
{
    let tree = tree_of(alloc, problem, &columns[..count])?;
    Ok(tree.is_some())
}

/// How many first columns of a row are found, by halving, to have a tree, so that no two of them match together. It is
/// never all of them, since no tree of the whole row is tried. Mostly the next column is the first that matches
/// together with an earlier one, so that a long row's columns needn't all be compared.
fn count_with_tree(
    alloc: Global,
    problem: &Problem,
    columns: &[Column],
) -> Result<usize, OutOfMemory>
    requires { length columns.now ≤ MOST_LOAD }
    ensures { IfOk result (λ count. (i : ℕ) (s : Scenario) → i < count → IsScenario problem.now s → is_double columns.now i s ≡ false) }
{
    // the first `count` columns have a tree, and the first `end` aren't known to
    let mut count = 0;
    let mut end = columns.len();
    while end - count > 1 {
        let middle = count + (end - count) / 2;
        let have = have_tree(alloc, problem, columns, middle)?;
        if have {
            count = middle;
            continue;
        }
        end = middle;
    }
    Ok(count)
}

/// The place of the first column of a row that matches together with an earlier one in some scenario, with the least
/// such scenario. `None` exactly if there is none.
fn first_double(
    alloc: Global,
    problem: &Problem,
    order: &Order,
    columns: &[Column],
) -> Result<Option<(u32, Scenario)>, OutOfMemory>
    requires order { length order.now ≡ process_count problem.now }
    requires columns { All (λ c. IsKnown problem.now c.cube) columns.now }
    requires few { length columns.now ≤ MOST_LOAD }
    ensures none { IfOk result (λ r. IfNone r ((i : ℕ) (s : Scenario) → IsScenario problem.now s → is_double columns.now i s ≡ false)) }
    ensures first { IfOk result (λ r. IfSome r (IsFirstColumn problem.now order.now (is_double columns.now))) }
{
    // no column before this one matches together with an earlier one
    let first = count_with_tree(alloc, problem, columns)?;
    let sieve = Sieve::of(alloc, columns)?;
    for column in first..columns.len() {
        let met = shared_before(alloc, problem, order, &sieve, columns, column)?;
        if let Some(scenario) = met {
            // `MOST_LOAD` is far below 2^32
            return Ok(Some((column as u32, scenario)));
        }
    }
    Ok(None)
}

/// The first violation of V2, by item and column, with the least scenario in the urgency order in which it occurs: the
/// column and an earlier one of its row both match. `None` exactly if the rule holds. Items at which it is marked as
/// sure are left out.
pub(crate) fn check_single(
    alloc: Global,
    admitted: &Admitted,
    tables: &Tables,
    marks: &[bool],
) -> Result<Option<Fault>, OutOfMemory>
    requires head { IsHeadFor admitted.now.graph tables.now.head }
    requires marks { AreSure admitted.now.graph tables.now.nodes Rule.Single marks.now }
    ensures none { IfOk result (λ r. IfNone r (Holds admitted.now.graph tables.now.nodes Rule.Single)) }
    ensures first { IfOk result (λ r. IfSome r (IsFirstViolation admitted.now.graph admitted.now.order tables.now.nodes Rule.Single)) }
{
    let problem = admitted.problem();
    let order = admitted.order();
    for item in 0..problem.item_count() {
        // the rule holds here
        if is_marked(marks, item) {
            continue;
        }
        let columns = tables.columns_of(item);
        let double = first_double(alloc, problem, order, columns)?;
        if let Some((column, scenario)) = double {
            return Ok(Some(Fault {
                rule: Rule::Single.number(),
                item,
                column: Some(column),
                scenario,
            }));
        }
    }
    Ok(None)
}
