//! Why a graph isn't compiled.

use cpg_base::{OutOfMemory, Scenario};

/// Why a graph isn't compiled. If the graph gives no order, the first of these that holds is shown. If it gives one, a tree
/// that is too large comes before a late process, and rows with too many columns come after it.
#[derive(Drop)]
pub enum CompileFault {
    /// An item is too wide by its views under the first order: the least such item. If the graph gives an order, what is made
    /// under it is too large as well.
    TooWide(u32),
    /// Some process ends past its due under the first order, and no track order is taken that helps.
    Late {
        /// The least scenario with the greatest excess.
        scenario: Scenario,
        /// The least process that has this excess there.
        process: u32,
        /// The end of that process there, in time units.
        finish: u64,
    },
    /// Out of memory.
    OutOfMemory,
}

impl From<OutOfMemory> for CompileFault {
    ghost use Rattle.std.specs.Prelude.{◌≡◌};
    ghost use Rattle.cpg_core.specs.declared.fault.CompileFault.TheVariants.{OutOfMemory};

    ghost from_gives = { λ _ fault. fault ≡ OutOfMemory };

    fn from(_: OutOfMemory) -> Self {
        CompileFault::OutOfMemory
    }
}
