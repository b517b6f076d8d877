//! From an order to its trees, then to rows and tables.
ghost use Rattle.std.specs.Prelude.{ℕ, ◌≡◌, IfOk, IfErr, None};
ghost use Rattle.cpg_core.specs.GrownFor.{IsGrownFor, IsWidth};
ghost use Rattle.cpg_expand.specs.Large.{HasLargeTree, ShowsLarge};
ghost use Rattle.cpg_core.specs.BuiltRows.{AreBuiltRows};
ghost use Rattle.cpg_core.specs.WideRows.{HaveWideRows};
ghost use Rattle.cpg_expand.specs.Grown.{IsGrown};
ghost use Rattle.cpg_base.specs.Graph.{process_count};
ghost use Rattle.cpg_order.specs.Urgency.{IsTopological};
ghost use Rattle.cpg_reach.specs.Wide.{IsLeastWide, IsNarrow};
ghost use Rattle.cpg_run.specs.Built.{IsBuiltFor, ShowsBuildFault};

use crate::BuiltRows;
use crate::growing::{GrownForest, grown};
use crate::rows::rows;
use cpg_base::{Order, OutOfMemory};
use cpg_reach::too_wide;
use cpg_rules::Admitted;
use cpg_run::{BuildFault, Built};
use cpg_tree_columns::{Peak, excess, tops_of, worst};
use std::alloc::Global;

/// All that is found under an order before its rows: the trees that they are made from, and how good the order is.
#[derive(Drop)]
pub(crate) struct Grown {
    /// The order of the processes.
    pub(crate) order: Order,
    /// The least item that is too wide under it by its views; `None` if none is.
    pub(crate) wide: Option<u32>,
    /// The trees of all processes and items, with the frozen times.
    pub(crate) trees: GrownForest,
    /// The greatest finish of all runs, in time units, with the least scenario that has it by the urgency order and
    /// the least process that ends then.
    pub(crate) worst: Peak,
    /// The greatest excess of all runs, in time units, with the least scenario that has it by the urgency order and
    /// the least process that is so late there; 0 without a process if none is late.
    pub(crate) excess: Peak,
}

/// Returns all that is found under an order: its trees, with the greatest finish and the greatest excess that they
/// tell. `wide` is the least item that is too wide under the order by its views, or `None` if none is.
fn measured(
    alloc: Global,
    admitted: &Admitted,
    order: Order,
    wide: Option<u32>,
    trees: GrownForest,
) -> Result<Grown, OutOfMemory>
    requires topological { IsTopological admitted.now.graph order }
    requires wide { IsWidth admitted.now.graph order wide }
    requires grown { IsGrown admitted.now.graph order (process_count admitted.now.graph) trees.frozen trees.forest }
    ensures { IfOk result (IsGrownFor admitted.now.graph admitted.now.order order) }
{
    let problem = admitted.problem();
    let urgency = admitted.order();
    let ends = trees.forest.ends();
    let tops = tops_of(alloc, ends)?;
    let worst = worst(alloc, problem, urgency, ends, tops.as_slice())?;
    let excess = excess(alloc, problem, urgency, ends, tops.as_slice())?;
    Ok(Grown {
        order,
        wide,
        trees,
        worst,
        excess,
    })
}

/// Returns the trees under an order, and how good it is. `wide` is the least item that is too wide under the order by
/// its views, or `None` if none is. If there is one, leaves are counted: `TooWide` names it if a tree on the way has
/// too many. If there is none, the one error is `OutOfMemory`.
fn grow_with(
    alloc: Global,
    admitted: &Admitted,
    order: Order,
    wide: Option<u32>,
) -> Result<Grown, BuildFault>
    requires topological { IsTopological admitted.now.graph order }
    requires wide { IsWidth admitted.now.graph order wide }
    ensures grown { IfOk result (IsGrownFor admitted.now.graph admitted.now.order order) }
    ensures fault { IfErr result (ShowsLarge wide (HasLargeTree admitted.now.graph admitted.now.order order)) }
{
    let trees = grown(alloc, admitted, &order, wide)?;
    let grown = measured(alloc, admitted, order, wide, trees)?;
    Ok(grown)
}

/// Returns the trees under an order, and how good it is, as `grow` does. No item may be too wide under the order by its
/// views, so the one error is `OutOfMemory`.
pub(crate) fn grow_narrow(
    alloc: Global,
    admitted: &Admitted,
    order: Order,
) -> Result<Grown, OutOfMemory>
    requires topological { IsTopological admitted.now.graph order }
    requires narrow { IsNarrow admitted.now.graph order }
    ensures { IfOk result (IsGrownFor admitted.now.graph admitted.now.order order) }
{
    match grow_with(alloc, admitted, order, None) {
        Ok(grown) => Ok(grown),
        // without an item to name no leaves are counted, so no tree is refused as too wide
        Err(BuildFault::TooWide(_)) => unreachable!(),
        Err(BuildFault::OutOfMemory) => Err(OutOfMemory),
    }
}

/// Returns the trees under an order, and how good it is. `TooWide` has the least item that is too wide by its views;
/// it comes before any tree is made.
pub(crate) fn grow(alloc: Global, admitted: &Admitted, order: Order) -> Result<Grown, BuildFault>
    requires topological { IsTopological admitted.now.graph order }
    ensures grown { IfOk result (IsGrownFor admitted.now.graph admitted.now.order order) }
    ensures narrow { IfOk result (λ _. IsNarrow admitted.now.graph order) }
    ensures fault { IfErr result (ShowsBuildFault (IsLeastWide admitted.now.graph order)) }
{
    if let Some(item) = too_wide(alloc, admitted, &order)? {
        return Err(BuildFault::TooWide(item));
    }
    let grown = grow_narrow(alloc, admitted, order)?;
    Ok(grown)
}

/// Returns the trees under an order, and how good it is. Unlike `grow`, it refuses no item for its views alone: if some
/// item is too wide by them, the leaves of trees are counted on the way, and `TooWide` has the least such item if a
/// tree has more than 147,456.
pub(crate) fn grow_bounded(
    alloc: Global,
    admitted: &Admitted,
    order: Order,
) -> Result<Grown, BuildFault>
    requires topological { IsTopological admitted.now.graph order }
    ensures grown { IfOk result (IsGrownFor admitted.now.graph admitted.now.order order) }
    ensures fault { IfErr result
        (ShowsBuildFault (λ x. IsLeastWide admitted.now.graph order x × HasLargeTree admitted.now.graph admitted.now.order order)) }
{
    let wide = too_wide(alloc, admitted, &order)?;
    let grown = grow_with(alloc, admitted, order, wide)?;
    Ok(grown)
}

impl Grown {
    /// Returns the rows, with the frozen times and the measures. A row keeps the tree that it is made from, or lists
    /// the columns, and the tree is dropped. If an item is too wide by its views, columns are counted as rows are made:
    /// `TooWide` has the least such item if a row has more than 16,384, or all rows of all tables more than 524,288.
    pub(crate) fn build_bounded(
        self,
        alloc: Global,
        admitted: &Admitted,
    ) -> Result<BuiltRows, BuildFault>
        requires topological { IsTopological admitted.now.graph self.order }
        requires grown { IsGrownFor admitted.now.graph admitted.now.order self.order self }
        ensures rows { IfOk result (AreBuiltRows admitted.now.graph admitted.now.order self.order) }
        ensures measures { IfOk result (λ r. (r.excess ≡ self.excess) × (r.worst ≡ self.worst)) }
        ensures fault { IfErr result (ShowsBuildFault
            (λ x. IsLeastWide admitted.now.graph self.order x × HaveWideRows admitted.now.graph admitted.now.order self.trees.forest.times)) }
    {
        let problem = admitted.problem();
        let urgency = admitted.order();
        let Grown {
            order,
            wide,
            trees,
            worst,
            excess,
        } = self;
        let GrownForest { frozen, forest } = trees;
        let times = forest.into_times();
        let rows = rows(alloc, problem, urgency, times, wide)?;
        Ok(BuiltRows {
            order,
            rows,
            frozen,
            worst,
            excess,
        })
    }

    /// Returns the rows, with the frozen times and the measures, as `build_bounded` does. No item may be too wide under
    /// the order by its views, so the one error is `OutOfMemory`.
    pub(crate) fn build(self, alloc: Global, admitted: &Admitted) -> Result<BuiltRows, OutOfMemory>
        requires topological { IsTopological admitted.now.graph self.order }
        requires narrow { IsNarrow admitted.now.graph self.order }
        requires grown { IsGrownFor admitted.now.graph admitted.now.order self.order self }
        ensures rows { IfOk result (AreBuiltRows admitted.now.graph admitted.now.order self.order) }
        ensures measures { IfOk result (λ r. (r.excess ≡ self.excess) × (r.worst ≡ self.worst)) }
    {
        match self.build_bounded(alloc, admitted) {
            Ok(rows) => Ok(rows),
            // no item is too wide by its views, so `TooWide` has no item to name
            Err(BuildFault::TooWide(_)) => unreachable!(),
            Err(BuildFault::OutOfMemory) => Err(OutOfMemory),
        }
    }
}

/// Returns the tables of a graph under an order, with the frozen times and, in time units, the greatest finish and the
/// greatest excess of all runs, each with its least scenario by the urgency order. `TooWide` has the least item that
/// is too wide by its views; it comes before any tree is made.
pub fn expand(alloc: Global, admitted: &Admitted, order: &Order) -> Result<Built, BuildFault>
    requires topological { IsTopological admitted.now.graph order.now }
    ensures built { IfOk result (λ built. IsBuiltFor admitted.now.graph admitted.now.order order.now built) }
    ensures narrow { IfOk result (λ _. IsNarrow admitted.now.graph order.now) }
    ensures fault { IfErr result (ShowsBuildFault (IsLeastWide admitted.now.graph order.now)) }
{
    // called for its contract: the graph is admitted
    let _problem = admitted.problem();
    let grown = grow(alloc, admitted, order.copy()?)?;
    let rows = grown.build(alloc, admitted)?;
    let built = rows.assemble(alloc, admitted)?;
    Ok(built)
}
