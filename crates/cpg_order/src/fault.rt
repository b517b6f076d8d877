//! Why a graph has no order.
ghost use Rattle.std.specs.Prelude.{◌≡◌};

use cpg_base::OutOfMemory;
use std::marker::Model;

/// Processes along edges, seen as their numbers. In a fault it is a cycle: all are different, and the last has an edge to
/// the first.
#[derive(Debug, Drop)]
pub struct Walk {
    /// The numbers of the processes, along the edges.
    processes: Vec<u32>,
}

impl Model for Walk {
    ghost use Rattle.std.specs.Prelude.{List, ℕ};

    ghost Value = { List ℕ };

    ghost view = { λ w. w.processes.items };
}

impl Walk {
    /// Returns the walk through these processes, which are listed along edges.
    pub(crate) fn through(processes: Vec<u32>) -> Walk
        ensures { result ≡ processes.items }
    {
        Walk { processes }
    }

    /// Returns the numbers of the processes.
    pub fn processes(&self) -> &[u32]
        ensures { result.now ≡ self.now }
    {
        self.processes.as_slice()
    }
}

/// Why no urgency order is returned for a graph.
#[derive(Debug, Drop)]
pub enum OrderFault {
    /// The edges lead around in a cycle: this one, which begins with its least process.
    Cycle(Walk),
    /// Out of memory.
    OutOfMemory,
}

impl From<OutOfMemory> for OrderFault {
    ghost use Rattle.std.specs.Prelude.{◌≡◌};
    ghost use Rattle.cpg_order.specs.declared.fault.OrderFault.TheVariants.{OutOfMemory};

    ghost from_gives = { λ _ e. e ≡ OutOfMemory };

    fn from(_: OutOfMemory) -> Self {
        OrderFault::OutOfMemory
    }
}
