//! The least scenario in which a column clashes with one of another item of its node: V6 and V7 ask for it.
ghost use Rattle.std.specs.Prelude.{◌<◌, ℕ, Bool, IfOk, List};
ghost use Rattle.std.specs.List.{list_any};
ghost use Rattle.cpg_base.specs.First.{IsFirst};
ghost use Rattle.cpg_base.specs.Graph.{Graph};
ghost use Rattle.cpg_base.specs.Numbers.{numbers_below};
ghost use Rattle.cpg_base.specs.Scenario.{Scenario};
ghost use Rattle.cpg_cube.specs.declared.column.Column.{Column};
ghost use Rattle.cpg_head.specs.GraphHead.{head_of};
ghost use Rattle.cpg_table.specs.Lawful.{AreTablesOf};
ghost use Rattle.cpg_table.specs.Table.{NodeTable};
ghost use Rattle.cpg_check_time.specs.Columns.{IsColumn};

use cpg_base::{OutOfMemory, Scenario};
use cpg_cover::earlier;
use cpg_cube::Column;
use cpg_rules::Admitted;
use cpg_table::Tables;
use std::alloc::Global;

/// Judges whether the columns of two items clash.
pub(crate) trait ColumnPairs {
    // what the judge has to know of a graph and its tables
    ghost fits: { Self → Graph → List NodeTable → Type 0 };

    // how many of the items, from the first on, it is for
    ghost count: { Graph → ℕ };

    // whether a column of the first item clashes with one of the second in a scenario
    ghost clash: { Graph → List NodeTable → ℕ → Column → ℕ → Scenario → Bool };

    /// The least scenario in which a column of `item` clashes with some column of `other`. `None` exactly if there is
    /// none. Only the contract names `tables`.
    fn least_with(
        &self,
        alloc: Global,
        admitted: &Admitted,
        tables: &Tables,
        item: u32,
        column: &Column,
        other: u32,
    ) -> Result<Option<Scenario>, OutOfMemory>
        requires fits { fits self.now admitted.now.graph tables.now.nodes }
        requires lawful { AreTablesOf (head_of admitted.now.graph) tables.now.nodes }
        requires item { item < count admitted.now.graph }
        requires column { IsColumn admitted.now.graph column.now }
        requires other { other < count admitted.now.graph }
        ensures { IfOk result (IsFirst admitted.now.graph admitted.now.order (clash admitted.now.graph tables.now.nodes item column.now other)) };
}

/// The least scenario in which a column of an item clashes with some column of an item with a lower number, as `pairs`
/// judges. `None` exactly if there is none.
pub(crate) fn least_of_lower<P: ColumnPairs>(
    alloc: Global,
    admitted: &Admitted,
    tables: &Tables,
    pairs: &P,
    item: u32,
    column: &Column,
) -> Result<Option<Scenario>, OutOfMemory>
    requires fits { P.fits pairs.now admitted.now.graph tables.now.nodes }
    requires lawful { AreTablesOf (head_of admitted.now.graph) tables.now.nodes }
    requires item { item < P.count admitted.now.graph }
    requires column { IsColumn admitted.now.graph column.now }
    ensures { IfOk result (IsFirst admitted.now.graph admitted.now.order
        (λ s. list_any (λ y. P.clash admitted.now.graph tables.now.nodes item column.now y s) (numbers_below item))) }
{
    let problem = admitted.problem();
    let order = admitted.order();
    // the least scenario of the lower items so far
    let mut found: Option<Scenario> = None;
    for other in 0..item {
        let next = pairs.least_with(alloc, admitted, tables, item, column, other)?;
        found = earlier(problem, order, found, next);
    }
    Ok(found)
}
