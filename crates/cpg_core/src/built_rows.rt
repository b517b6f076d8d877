//! The rows that tables are assembled from.
ghost use Rattle.std.specs.Prelude.{IfOk};
ghost use Rattle.cpg_core.specs.BuiltRows.{IsAssembledOf};
ghost use Rattle.cpg_table.specs.Writing.{AreTablesWith, AreWritable};

use cpg_base::{Order, OutOfMemory};
use cpg_rules::Admitted;
use cpg_run::{Built, FrozenTimes};
use cpg_table::{Tables, tables_of};
use cpg_tree_columns::{MadeRow, Peak, listed_rows};
use std::alloc::Global;

/// All that is built under an order except its tables, which repeat a row on each node that sends or hears its item.
#[derive(Drop)]
pub struct BuiltRows {
    /// The order of the processes.
    pub order: Order,
    /// The row of each item, by number.
    pub rows: Vec<MadeRow>,
    /// The frozen times, by item.
    pub frozen: FrozenTimes,
    /// The greatest finish of all runs, in time units, with the least scenario that has it by the urgency order and
    /// the least process that ends then.
    pub worst: Peak,
    /// The greatest excess of all runs, in time units, with the least scenario that has it by the urgency order and
    /// the least process that is so late there; 0 without a process if none is late.
    pub excess: Peak,
}

/// Returns the tables that are assembled from rows. The one error is `OutOfMemory`.
fn tables_from(
    alloc: Global,
    admitted: &Admitted,
    rows: Vec<MadeRow>,
) -> Result<Tables, OutOfMemory>
    requires { AreWritable admitted.now.graph rows.items }
    ensures { IfOk result (AreTablesWith admitted.now.graph rows.items) }
{
    let rows = listed_rows(alloc, rows)?;
    let tables = tables_of(alloc, admitted.problem(), rows)?;
    Ok(tables)
}

impl BuiltRows {
    /// Returns the tables that are assembled from the rows, with the frozen times and the measures. The one error is
    /// `OutOfMemory`.
    pub fn assemble(self, alloc: Global, admitted: &Admitted) -> Result<Built, OutOfMemory>
        requires { AreWritable admitted.now.graph self.rows.items }
        ensures { IfOk result (IsAssembledOf admitted.now.graph self) }
    {
        let BuiltRows {
            rows,
            frozen,
            worst,
            excess,
            ..
        } = self;
        let tables = tables_from(alloc, admitted, rows)?;
        Ok(Built {
            tables,
            frozen,
            worst: worst.time,
            worst_in: worst.scenario,
            worst_by: worst.process,
            excess: excess.time,
            excess_in: excess.scenario,
            excess_by: excess.process,
        })
    }
}
