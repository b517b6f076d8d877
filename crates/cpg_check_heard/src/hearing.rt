//! The least scenario in which a column matches, and its node hasn't heard all its literals by its time.
ghost use Rattle.std.specs.Prelude.{◌≡◌, ◌&&◌, ◌||◌, All, Contains, IfOk, not, true};
ghost use Rattle.std.specs.Bool.{OnFalse, OnTrue};
ghost use Rattle.std.specs.List.{list_any};
ghost use Rattle.cpg_base.specs.Graph.{IsVariable};
ghost use Rattle.cpg_base.specs.First.{IsFirst};
ghost use Rattle.cpg_base.specs.Scenario.{Scenario, IsScenario};
ghost use Rattle.cpg_cover.specs.Cover.{is_left};
ghost use Rattle.cpg_cube.specs.Cube.{matches};
ghost use Rattle.cpg_cube.specs.Fit.{IsKnown};
ghost use Rattle.cpg_table.specs.Shape.{heard_by};
ghost use Rattle.cpg_check_heard.specs.Arrivals.{AreArrivals};
ghost use Rattle.cpg_check_heard.specs.Bounds.{is_told, variable_of};
ghost use Rattle.cpg_check_heard.specs.Ended.{HasActive};
ghost use Rattle.cpg_check_heard.specs.Hearings.{IsHearing};
ghost use Rattle.cpg_check_heard.specs.Unheard.{is_column_unheard, is_literal_unheard, is_one_untold};
ghost use Rattle.cpg_check_heard.specs.Untold.{own_tells};

use crate::arrivals::{Arrival, add_told, tells_one_whole};
use crate::bound::LiteralBound;
use crate::frames::RowRank;
use crate::parts::add_row;
use crate::telling_rows::TellingRow;
use cpg_base::{OutOfMemory, Problem, Scenario};
use cpg_cover::{covers, earlier};
use cpg_cube::{Column, Cube, Literal};
use cpg_rules::Admitted;
use cpg_table::Tables;
use std::alloc::Global;

/// The rows of a graph's tables, ready to be asked what they tell.
#[derive(Drop)]
pub(crate) struct Hearing<'a> {
    /// The graph of the tables.
    pub(crate) admitted: &'a Admitted,
    /// The tables, which keep V1 to V3.
    pub(crate) tables: &'a Tables,
    /// For each item, by number, its row and by what means that tells.
    pub(crate) telling_rows: Vec<TellingRow<'a>>,
}

/// The least scenario that a cube matches and none of the cubes `told` does. `None` exactly if there is none.
fn least_left(
    alloc: Global,
    admitted: &Admitted,
    cube: &Cube,
    told: &[Cube],
) -> Result<Option<Scenario>, OutOfMemory>
    requires cube { IsKnown admitted.now.graph cube.now }
    requires told { All (IsKnown admitted.now.graph) told.now }
    ensures { IfOk result (IsFirst admitted.now.graph admitted.now.order (is_left told.now cube.now)) }
{
    let problem = admitted.problem();
    let order = admitted.order();
    let found = covers(alloc, problem, order, cube, told)?;
    Ok(found)
}

/// Whether one of the cubes `told` alone matches wherever a cube does. If not, several of them together may.
fn is_within_one(problem: &Problem, cube: &Cube, told: &[Cube]) -> bool
    requires cube { IsKnown problem.now cube.now }
    requires told { All (IsKnown problem.now) told.now }
    ensures { OnTrue result ((s : Scenario) → IsScenario problem.now s → matches cube.now s ≡ true → list_any (λ b. matches b s) told.now ≡ true) }
{
    told.iter().any(|part| cube.within(part, problem))
}

/// Whether some scenario that a cube matches is matched by none of the cubes `told`. Mostly a single one of them leaves
/// none, so that is asked first.
fn may_leave(
    alloc: Global,
    admitted: &Admitted,
    cube: &Cube,
    told: &[Cube],
) -> Result<bool, OutOfMemory>
    requires cube { IsKnown admitted.now.graph cube.now }
    requires told { All (IsKnown admitted.now.graph) told.now }
    ensures { IfOk result (λ left. OnFalse left ((s : Scenario) → IsScenario admitted.now.graph s → matches cube.now s ≡ true
        → list_any (λ b. matches b s) told.now ≡ true)) }
{
    if is_within_one(admitted.problem(), cube, told) {
        return Ok(false);
    }
    let left = least_left(alloc, admitted, cube, told)?;
    Ok(left.is_some())
}

impl Hearing<'_> {
    /// Adds to `told` cubes such that, where `cube` matches, one of the added ones does exactly where an end on the
    /// node tells a bound by a time. Only the process of the bound's variable may tell it by its end, and only if it is
    /// on the node.
    fn add_own(
        &self,
        alloc: Global,
        node: u32,
        cube: &Cube,
        time: u64,
        bound: LiteralBound,
        told: &mut Vec<Cube>,
    ) -> Result<(), OutOfMemory>
        requires hearing { IsHearing self.now }
        requires variable { IsVariable self.now.admitted.now.graph (variable_of bound) }
        requires told { All (IsKnown self.now.admitted.now.graph) told.old.items }
        ensures known { IfOk result (λ _. All (IsKnown self.now.admitted.now.graph) told.new.items) }
        ensures told { IfOk result (λ _. (s : Scenario) → IsScenario self.now.admitted.now.graph s → matches cube.now s ≡ true
            → list_any (λ b. matches b s) told.new.items
            ≡ (list_any (λ b. matches b s) told.old.items
            || own_tells self.now.admitted.now.graph self.now.tables.now.nodes node time bound s)) }
    {
        let problem = self.admitted.problem();
        let process = problem.process_of_variable(bound.variable());
        // no end on this node is about the variable
        if problem.node_of(process) != node {
            return Ok(());
        }
        let row = &self.telling_rows[process as usize];
        add_row(alloc, problem, row, cube, time, bound, told)?;
        Ok(())
    }

    /// Whether a bound is open for a node by its own ends: somewhere that a cube matches, no end has told it by a time.
    /// False if the bound leaves out no number.
    fn is_open(
        &self,
        alloc: Global,
        node: u32,
        cube: &Cube,
        time: u64,
        bound: LiteralBound,
    ) -> Result<bool, OutOfMemory>
        requires hearing { IsHearing self.now }
        requires variable { IsVariable self.now.admitted.now.graph (variable_of bound) }
        requires cube { IsKnown self.now.admitted.now.graph cube.now }
        ensures { IfOk result (λ left. OnFalse left ((s : Scenario) → IsScenario self.now.admitted.now.graph s
            → matches cube.now s ≡ true → is_told self.now.admitted.now.graph self.now.tables.now.nodes node time bound s
            ≡ true)) }
    {
        // no number is left out, so the node need not be told
        if bound.is_free(self.admitted.problem().faults()) {
            return Ok(false);
        }
        // the cubes where an end tells the bound
        let mut told = Vec::new(alloc);
        self.add_own(alloc, node, cube, time, bound, &mut told)?;
        // no end tells it anywhere
        if told.is_empty() {
            return Ok(true);
        }
        let left = may_leave(alloc, self.admitted, cube, told.as_slice())?;
        Ok(left)
    }

    /// Adds a bound to `bounds`, if the node's own ends leave it open where a column matches, at its time.
    fn add_open(
        &self,
        alloc: Global,
        node: u32,
        column: &Column,
        bound: LiteralBound,
        bounds: &mut Vec<LiteralBound>,
    ) -> Result<(), OutOfMemory>
        requires hearing { IsHearing self.now }
        requires variable { IsVariable self.now.admitted.now.graph (variable_of bound) }
        requires cube { IsKnown self.now.admitted.now.graph column.now.cube }
        requires bounds { All (λ b. IsVariable self.now.admitted.now.graph (variable_of b)) bounds.old.items }
        ensures known { IfOk result (λ _. All (λ b. IsVariable self.now.admitted.now.graph (variable_of b)) bounds.new.items) }
        ensures untold { IfOk result (λ _. (s : Scenario) → IsScenario self.now.admitted.now.graph s
            → matches column.now.cube s ≡ true
            → is_one_untold self.now.admitted.now.graph self.now.tables.now.nodes node column.now.time bounds.new.items s
            ≡ (is_one_untold self.now.admitted.now.graph self.now.tables.now.nodes node column.now.time bounds.old.items s
            || not (is_told self.now.admitted.now.graph self.now.tables.now.nodes node column.now.time bound s))) }
    {
        if self.is_open(alloc, node, &column.cube, column.time, bound)? {
            bounds.push(bound)?;
        }
        Ok(())
    }

    /// Adds to `bounds` the bounds of a column's literal that the node's own ends leave open where the column matches,
    /// at its time. So one of `bounds` is untold exactly where one was before, or the literal isn't heard (`unheard`).
    fn add_literal(
        &self,
        alloc: Global,
        node: u32,
        column: &Column,
        literal: &Literal,
        bounds: &mut Vec<LiteralBound>,
    ) -> Result<(), OutOfMemory>
        requires hearing { IsHearing self.now }
        requires cube { IsKnown self.now.admitted.now.graph column.now.cube }
        requires active { HasActive self.now.admitted.now.graph column.now }
        requires literal { Contains column.now.cube literal.now }
        requires variable { IsVariable self.now.admitted.now.graph literal.now.variable }
        requires bounds { All (λ b. IsVariable self.now.admitted.now.graph (variable_of b)) bounds.old.items }
        ensures known { IfOk result (λ _. All (λ b. IsVariable self.now.admitted.now.graph (variable_of b)) bounds.new.items) }
        ensures unheard { IfOk result (λ _. (s : Scenario) → IsScenario self.now.admitted.now.graph s
            → matches column.now.cube s ≡ true
            → is_one_untold self.now.admitted.now.graph self.now.tables.now.nodes node column.now.time bounds.new.items s
            ≡ (is_one_untold self.now.admitted.now.graph self.now.tables.now.nodes node column.now.time bounds.old.items s
            || is_literal_unheard self.now.admitted.now.graph self.now.tables.now.nodes node column.now.time s literal.now)) }
    {
        // the process of the variable has ended on this node by then, so its number is known
        if self.has_ended(node, literal.variable, column.time) {
            return Ok(());
        }
        // the literal is heard exactly if both of its bounds are
        self.add_open(alloc, node, column, LiteralBound::low_of(literal), bounds)?;
        self.add_open(alloc, node, column, LiteralBound::high_of(literal), bounds)?;
        Ok(())
    }

    /// The bounds of a column's literals that the node's own ends leave open where the column matches, at its time. So
    /// one of them is untold exactly where a literal isn't heard (`untold`).
    fn open_bounds(
        &self,
        alloc: Global,
        node: u32,
        column: &Column,
    ) -> Result<Vec<LiteralBound>, OutOfMemory>
        requires hearing { IsHearing self.now }
        requires cube { IsKnown self.now.admitted.now.graph column.now.cube }
        requires active { HasActive self.now.admitted.now.graph column.now }
        ensures known { IfOk result (λ bounds. All (λ b. IsVariable self.now.admitted.now.graph (variable_of b)) bounds.items) }
        ensures untold { IfOk result (λ bounds. (s : Scenario) → IsScenario self.now.admitted.now.graph s
            → matches column.now.cube s ≡ true
            → is_one_untold self.now.admitted.now.graph self.now.tables.now.nodes node column.now.time bounds.items s
            ≡ is_column_unheard self.now.admitted.now.graph self.now.tables.now.nodes node s column.now) }
    {
        let mut bounds = Vec::new(alloc);
        for literal in column.cube.literals() {
            self.add_literal(alloc, node, column, literal, &mut bounds)?;
        }
        Ok(bounds)
    }

    /// The least scenario that a column matches and in which a node hasn't been told a bound by its time. `None`
    /// exactly if there is none. `items`, which only the contract names, are all that the node hears, and `arrivals`
    /// are those of their columns that may tell something by this column's time.
    fn least_untold(
        &self,
        alloc: Global,
        node: u32,
        items: &[u32],
        arrivals: &[Arrival<'_>],
        column: &Column,
        bound: LiteralBound,
    ) -> Result<Option<Scenario>, OutOfMemory>
        requires hearing { IsHearing self.now }
        requires items { items.now ≡ heard_by self.now.admitted.now.graph node }
        requires arrivals { AreArrivals self.now.admitted.now.graph self.now.tables.now.nodes column.now.time column.now.cube items.now arrivals.now }
        requires variable { IsVariable self.now.admitted.now.graph (variable_of bound) }
        requires cube { IsKnown self.now.admitted.now.graph column.now.cube }
        ensures { IfOk result (IsFirst self.now.admitted.now.graph self.now.admitted.now.order (λ s. matches column.now.cube s
            && not (is_told self.now.admitted.now.graph self.now.tables.now.nodes node column.now.time bound s))) }
    {
        let problem = self.admitted.problem();
        let (cube, time) = (&column.cube, column.time);
        // no number is left out, so the node need not be told
        if bound.is_free(problem.faults()) {
            return Ok(None);
        }
        // mostly one frame tells the bound wherever the column matches
        if tells_one_whole(problem, arrivals, cube, time, bound) {
            return Ok(None);
        }
        // the cubes where an end or a frame tells the bound: what they leave of the column's cube are violations
        let mut told = Vec::new(alloc);
        self.add_own(alloc, node, cube, time, bound, &mut told)?;
        add_told(problem, arrivals, time, bound, &mut told)?;
        let found = least_left(alloc, self.admitted, cube, told.as_slice())?;
        Ok(found)
    }

    /// The least scenario that a column matches and in which a node hasn't been told one of these bounds by its time.
    /// `None` exactly if there is none. `items` are all that the node hears, and `arrivals` are those of their columns
    /// that may tell something by this column's time.
    fn least_of_bounds(
        &self,
        alloc: Global,
        node: u32,
        items: &[u32],
        arrivals: &[Arrival<'_>],
        column: &Column,
        bounds: &[LiteralBound],
    ) -> Result<Option<Scenario>, OutOfMemory>
        requires hearing { IsHearing self.now }
        requires items { items.now ≡ heard_by self.now.admitted.now.graph node }
        requires arrivals { AreArrivals self.now.admitted.now.graph self.now.tables.now.nodes column.now.time column.now.cube items.now arrivals.now }
        requires cube { IsKnown self.now.admitted.now.graph column.now.cube }
        requires bounds { All (λ b. IsVariable self.now.admitted.now.graph (variable_of b)) bounds.now }
        ensures { IfOk result (IsFirst self.now.admitted.now.graph self.now.admitted.now.order (λ s. matches column.now.cube s
            && is_one_untold self.now.admitted.now.graph self.now.tables.now.nodes node column.now.time bounds.now s)) }
    {
        let problem = self.admitted.problem();
        let order = self.admitted.order();
        // the least scenario of the bounds so far
        let mut found: Option<Scenario> = None;
        for bound in bounds {
            let next = self.least_untold(alloc, node, items, arrivals, column, *bound)?;
            found = earlier(problem, order, found, next);
        }
        Ok(found)
    }

    /// The least scenario that a column matches and in which a node hasn't heard one of its literals by its time.
    /// `None` exactly if there is none. `items` are all that the node hears, and `ranks` are rows of them in the order
    /// in which they are tried.
    pub(crate) fn least_unheard(
        &self,
        alloc: Global,
        node: u32,
        items: &[u32],
        ranks: &[RowRank],
        column: &Column,
    ) -> Result<Option<Scenario>, OutOfMemory>
        requires hearing { IsHearing self.now }
        requires items { items.now ≡ heard_by self.now.admitted.now.graph node }
        requires ranks { All (λ r. Contains (heard_by self.now.admitted.now.graph node) r.item) ranks.now }
        requires cube { IsKnown self.now.admitted.now.graph column.now.cube }
        requires active { HasActive self.now.admitted.now.graph column.now }
        ensures { IfOk result (IsFirst self.now.admitted.now.graph self.now.admitted.now.order (λ s. matches column.now.cube s
            && is_column_unheard self.now.admitted.now.graph self.now.tables.now.nodes node s column.now)) }
    {
        // first the quick ways: the node's own ends, then single frames; the full search is for what they leave
        let bounds = self.open_bounds(alloc, node, column)?;
        let left = self.unframed(alloc, node, ranks, column, bounds)?;
        // every bound is told wherever the column matches
        if left.is_empty() {
            return Ok(None);
        }
        let arrivals = self.arrivals(alloc, node, items, &column.cube, column.time)?;
        let heard = arrivals.as_slice();
        let found = self.least_of_bounds(alloc, node, items, heard, column, left.as_slice())?;
        Ok(found)
    }
}
