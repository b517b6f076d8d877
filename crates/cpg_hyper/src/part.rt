//! Parts, each a graph with a period, and why they may make no common graph.

use cpg_base::{OutOfMemory, Problem};
use cpg_reader::What;

/// A graph whose work is done once in each period.
#[derive(Drop)]
pub struct Part {
    /// The period, in the time units of the graph file.
    pub period: u64,
    /// The graph.
    pub problem: Problem,
}

/// Why parts make no common graph. The number, if there is one, is that of a part.
#[derive(Clone, Copy, Debug, PartialEq, Eq)]
pub enum HyperFault {
    /// The part's period isn't from 1 to 10^9.
    Range(u32),
    /// The part has other faults, nodes or slots than the first one.
    Differ(u32),
    /// The part's deadline or a release in it is above its period.
    Over(u32),
    /// The hyperperiod of all parts is above 10^9.
    Period,
    /// The common graph has too many of these.
    Count(What),
    /// A name made for the part has more than 32 bytes.
    LongName(u32),
    /// The part gives an order to compile under.
    Order(u32),
    /// Out of memory.
    OutOfMemory,
}

impl From<OutOfMemory> for HyperFault {
    ghost use Rattle.std.specs.Prelude.{◌≡◌};
    ghost use Rattle.cpg_hyper.specs.declared.part.HyperFault.TheVariants.{OutOfMemory};

    ghost from_gives = { λ _ e. e ≡ OutOfMemory };

    fn from(_: OutOfMemory) -> Self {
        HyperFault::OutOfMemory
    }
}
