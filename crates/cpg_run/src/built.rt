//! What a builder of tables answers: the tables, with the greatest finish and excess, or why there are none.

use crate::FrozenTimes;
use cpg_base::{OutOfMemory, Scenario};
use cpg_table::Tables;
use std::alloc::{AllocError, AllocFailed};

/// The tables of a graph under an order, with the frozen times, the greatest finish and the greatest excess.
#[derive(Drop)]
pub struct Built {
    /// The tables of all nodes, with the head that names the graph's sizes.
    pub tables: Tables,
    /// The times of the frozen items under the order.
    pub frozen: FrozenTimes,
    /// The greatest finish of all scenarios, in time units.
    pub worst: u64,
    /// The least scenario, by the urgency order, that has this finish.
    pub worst_in: Scenario,
    /// The least process that ends at this finish in that scenario; `None` exactly if the graph has no process.
    pub worst_by: Option<u32>,
    /// How far an end is past its due at most, in time units: 0 if all end in time.
    pub excess: u64,
    /// The least scenario, by the urgency order, that has this excess.
    pub excess_in: Scenario,
    /// The least process that has this excess in that scenario; `None` exactly if the excess is 0.
    pub excess_by: Option<u32>,
}

/// Why no tables were built.
#[derive(Clone, Copy, Debug, PartialEq, Eq)]
pub enum BuildFault {
    /// This item is too wide: its row, or all rows up to it together, might need more columns than are allowed.
    TooWide(u32),
    /// Memory ran out.
    OutOfMemory,
}

impl From<OutOfMemory> for BuildFault {
    ghost use Rattle.std.specs.Prelude.{◌≡◌};
    ghost use Rattle.cpg_run.specs.declared.built.BuildFault.TheVariants.{OutOfMemory};

    ghost from_gives = { λ _ fault. fault ≡ OutOfMemory };

    fn from(_: OutOfMemory) -> Self {
        BuildFault::OutOfMemory
    }
}

impl From<AllocError> for BuildFault {
    ghost use Rattle.std.specs.Prelude.{◌≡◌};
    ghost use Rattle.cpg_run.specs.declared.built.BuildFault.TheVariants.{OutOfMemory};

    ghost from_gives = { λ _ fault. fault ≡ OutOfMemory };

    fn from(_: AllocError) -> Self {
        BuildFault::OutOfMemory
    }
}

impl<T: Drop> From<AllocFailed<T>> for BuildFault {
    ghost use Rattle.std.specs.Prelude.{◌≡◌};
    ghost use Rattle.cpg_run.specs.declared.built.BuildFault.TheVariants.{OutOfMemory};

    ghost from_gives = { λ _ fault. fault ≡ OutOfMemory };

    fn from(_failed: AllocFailed<T>) -> Self {
        BuildFault::OutOfMemory
    }
}
