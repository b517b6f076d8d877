//! Whether what items wait for is there by the times of their columns, by the rows of executions and frames.
ghost use Rattle.std.specs.Prelude.{◌≡◌, ◌<◌, ◌⊎◌, ℕ, All, Contains, IfOk, IfSome, List, true};
ghost use Rattle.std.specs.Bool.{OnTrue};
ghost use Rattle.cpg_base.specs.Activity.{live};
ghost use Rattle.cpg_base.specs.Graph.{edge_count, item_count, process_count, producer};
ghost use Rattle.cpg_base.specs.Scenario.{Scenario, IsScenario};
ghost use Rattle.cpg_table.specs.Table.{NodeTable};
ghost use Rattle.cpg_tree.specs.Space.{IsInSpace};
ghost use Rattle.cpg_violation.specs.Violation.{AllHold, row_rules};
ghost use Rattle.cpg_check_quick.specs.Inputs.{IsFromBefore, IsInputRow, IsInputOver, IsInputThere, IsLateEnough, AreInputRows};
ghost use Rattle.cpg_check_quick.specs.Order.{IsBefore};

use crate::sequences::Sequences;
use crate::spanned_rows::{SpannedRow, SpannedRows};
use cpg_base::OutOfMemory;
use cpg_cube::Column;
use cpg_order::Links;
use cpg_rules::Admitted;
use cpg_tree::Space;
use cpg_violation::is_refused;
use std::alloc::Global;

/// The inputs of each process, with the rows of what they come by.
#[derive(Drop)]
pub(crate) struct InputRows<'a> {
    /// The graph of the rows.
    pub(crate) admitted: &'a Admitted,
    /// The inputs of each process.
    pub(crate) links: Links,
    /// The rows of all executions, and which follow one another on each node.
    pub(crate) sequences: &'a Sequences<'a>,
    /// The rows of all items, with how long their frames take.
    pub(crate) frames: &'a SpannedRows<'a>,
}

impl<'a> InputRows<'a> {
    /// The row of what an input comes by: its message if it has one, and otherwise the execution of its source, on the
    /// same node. `None` only if there are too few rows.
    fn row(&self, edge: u32) -> Option<&SpannedRow<'a>>
        requires edge { edge < edge_count self.now.admitted.now.graph }
        ensures { (tables : List NodeTable) → AreInputRows self.now.admitted.now.graph tables self.now →
            IfSome result (λ c. IsInputRow self.now.admitted.now.graph tables edge c.now) }
    {
        let problem = self.admitted.problem();
        // messages are numbered after the starts
        if problem.is_message(edge) {
            let item = problem.processes().len() + edge as usize;
            return self.frames.list.get(item);
        }
        self.sequences.rows.list.get(problem.source(edge) as usize)
    }

    /// Whether what an input comes by is over by a time even if it begins by its last column and lasts longest. False
    /// guarantees nothing.
    fn is_early(&self, edge: u32, time: u64) -> bool
        requires edge { edge < edge_count self.now.admitted.now.graph }
        ensures { OnTrue result ((tables : List NodeTable) (s : Scenario) → AreInputRows self.now.admitted.now.graph tables self.now →
            IsScenario self.now.admitted.now.graph s → IsInputOver self.now.admitted.now.graph tables edge time s) }
    {
        match self.row(edge) {
            Some(row) => row.is_early(time),
            None => false,
        }
    }

    /// Whether what an input comes by is over by a time in those scenarios of a space in which the input is live. False
    /// guarantees nothing.
    fn is_over(&self, edge: u32, space: &Space, time: u64) -> bool
        requires edge { edge < edge_count self.now.admitted.now.graph }
        ensures { OnTrue result ((tables : List NodeTable) (s : Scenario) → AreInputRows self.now.admitted.now.graph tables self.now →
            IsScenario self.now.admitted.now.graph s → IsInSpace space.now s → live self.now.admitted.now.graph s.values edge ≡ true →
            IsInputOver self.now.admitted.now.graph tables edge time s) }
    {
        // the edge is live in no scenario of the space
        if is_refused(self.admitted.problem(), edge, space) {
            return true;
        }
        match self.row(edge) {
            Some(row) => row.is_over(space, time),
            None => false,
        }
    }

    /// Whether what each of these inputs comes by is over by a time even if it begins by its last column and lasts
    /// longest. False guarantees nothing.
    fn are_early(&self, edges: &[u32], time: u64) -> bool
        requires edges { All (λ e. e < edge_count self.now.admitted.now.graph) edges.now }
        ensures { OnTrue result ((tables : List NodeTable) (s : Scenario) → AreInputRows self.now.admitted.now.graph tables self.now →
            IsScenario self.now.admitted.now.graph s → All (λ e. IsInputOver self.now.admitted.now.graph tables e time s) edges.now) }
    {
        for edge in edges {
            if !self.is_early(*edge, time) {
                return false;
            }
        }
        true
    }

    /// Whether what each of these inputs comes by is over by a time in those scenarios of a space in which the input is
    /// live. False guarantees nothing.
    fn are_over(&self, edges: &[u32], space: &Space, time: u64) -> bool
        requires edges { All (λ e. e < edge_count self.now.admitted.now.graph) edges.now }
        ensures { OnTrue result ((tables : List NodeTable) (s : Scenario) → AreInputRows self.now.admitted.now.graph tables self.now →
            IsScenario self.now.admitted.now.graph s → IsInSpace space.now s → All (λ e. live self.now.admitted.now.graph s.values e ≡ true →
            IsInputOver self.now.admitted.now.graph tables e time s) edges.now) }
    {
        for edge in edges {
            if !self.is_over(*edge, space, time) {
                return false;
            }
        }
        true
    }

    /// Whether each of these inputs is there by the time of a column wherever the column matches and the input is live.
    /// False guarantees nothing.
    fn are_there(&self, edges: &[u32], column: &Column) -> bool
        requires edges { All (λ e. e < edge_count self.now.admitted.now.graph) edges.now }
        ensures { OnTrue result ((tables : List NodeTable) → AreInputRows self.now.admitted.now.graph tables self.now →
            AllHold self.now.admitted.now.graph tables row_rules → All (IsInputThere self.now.admitted.now.graph tables column.now) edges.now) }
    {
        // called for its clause alone that the graph is admitted
        let _problem = self.admitted.problem();
        // mostly the times alone show it
        if self.are_early(edges, column.time) {
            return true;
        }
        let mut space = self.frames.everywhere;
        // no scenario matches the column
        if !space.narrow_to(column.cube.literals()) {
            return true;
        }
        self.are_over(edges, &space, column.time)
    }

    /// Whether each of these columns is no earlier than a release, and each of these inputs is there by then wherever
    /// the column matches and the input is live. False guarantees nothing.
    pub(crate) fn are_late_enough(&self, edges: &[u32], release: u64, columns: &[Column]) -> bool
        requires edges { All (λ e. e < edge_count self.now.admitted.now.graph) edges.now }
        ensures { OnTrue result ((tables : List NodeTable) → AreInputRows self.now.admitted.now.graph tables self.now →
            AllHold self.now.admitted.now.graph tables row_rules → All (IsLateEnough self.now.admitted.now.graph tables edges.now release) columns.now) }
    {
        for column in columns {
            if column.time < release {
                return false;
            }
            if !self.are_there(edges, column) {
                return false;
            }
        }
        true
    }

    /// Whether an input of a process comes from the same node, and its source is known to be over always before the
    /// process begins. False guarantees nothing.
    fn is_from_before(&self, edge: u32, process: u32) -> bool
        requires edge { edge < edge_count self.now.admitted.now.graph }
        requires process { process < process_count self.now.admitted.now.graph }
        ensures { OnTrue result ((tables : List NodeTable) → AreInputRows self.now.admitted.now.graph tables self.now →
            IsFromBefore self.now.admitted.now.graph tables edge process) }
    {
        let problem = self.admitted.problem();
        // the input's source is on another node
        if problem.is_message(edge) {
            return false;
        }
        let node = problem.node_of(process);
        self.sequences
            .is_before(node, problem.source(edge), process)
    }

    /// Those of these inputs of a process that aren't known to come from the same node by a source that is always over
    /// before the process begins, as `is_from_before` finds out.
    pub(crate) fn others(
        &self,
        alloc: Global,
        edges: &[u32],
        process: u32,
    ) -> Result<Vec<u32>, OutOfMemory>
        requires edges { All (λ e. e < edge_count self.now.admitted.now.graph) edges.now }
        requires process { process < process_count self.now.admitted.now.graph }
        ensures edges { IfOk result (λ others. All (λ e. e < edge_count self.now.admitted.now.graph) others.items) }
        ensures known { IfOk result (λ others. (tables : List NodeTable) (e : ℕ) → AreInputRows self.now.admitted.now.graph tables self.now →
            Contains edges.now e → Contains others.items e ⊎ IsFromBefore self.now.admitted.now.graph tables e process) }
    {
        let mut others = Vec::new(alloc);
        for edge in edges {
            if self.is_from_before(*edge, process) {
                continue;
            }
            others.push(*edge)?;
        }
        Ok(others)
    }

    /// Whether the producer of a send has ended by the time of the send, wherever a column of each matches. False
    /// guarantees nothing.
    pub(crate) fn is_after_producer(&self, item: u32) -> bool
        requires item { item < item_count self.now.admitted.now.graph }
        ensures { OnTrue result ((tables : List NodeTable) → AreInputRows self.now.admitted.now.graph tables self.now →
            IsBefore self.now.admitted.now.graph tables (producer self.now.admitted.now.graph item) item) }
    {
        let producer = self.admitted.problem().producer(item);
        let Some(row) = self.frames.list.get(item as usize) else {
            return false;
        };
        self.sequences.rows.precede(&[producer], row)
    }
}
