//! The parts of a graph: processes, edges and slots.

ghost use Rattle.std.specs.Prelude.{◌≡◌, ◌<◌, ◌≤◌, ◌^◌, ℕ, IfOk};
ghost use Rattle.cpg_base.specs.Duration.{duration_of};
ghost use Rattle.cpg_base.specs.Limits.{IsProcessWithin};

use crate::{Name, OutOfMemory};
use std::alloc::AllocError;

/// A process, with the node that it runs on. Times are in the time units of the graph file.
#[derive(Drop)]
pub struct Process {
    /// What the process is called.
    pub name: Name,
    /// The number of its node.
    pub node: u32,
    /// The longest time of its work alone, without detections, checkpoints and faults; at least 1.
    pub wcet: u64,
    /// Into how many parts an execution is cut, at least 1. Each has a detection and a checkpoint.
    pub parts: u32,
    /// The time to detect a fault, in each part.
    pub alpha: u64,
    /// The time to save a checkpoint, in each part.
    pub chi: u64,
    /// The time to recover from a fault.
    pub mu: u64,
    /// Whether it is a join (conjunction process): it takes one live input instead of all.
    pub join: bool,
    /// Whether it starts at one time in all scenarios in which it is active.
    pub frozen: bool,
    /// The time before which it doesn't start.
    pub release: u64,
    /// The time by which it has to have ended, if it has a deadline of its own; the graph's holds too.
    pub deadline: Option<u64>,
}

/// An edge between two processes. It is a message if they are on two nodes.
#[derive(Clone, Copy, Debug, PartialEq, Eq)]
pub struct Edge {
    /// The number of the process that it leads away from.
    pub from: u32,
    /// The number of the process that it leads to.
    pub to: u32,
    /// The size of its message in bytes, at least 1.
    pub size: u32,
    /// The value of the source's condition for which it is live; `None` if it is live whenever its source is active.
    pub when: Option<bool>,
    /// Whether its message is sent at one time in all scenarios in which it is live. Without effect within a node.
    pub frozen: bool,
}

/// A node's slot in the round of the bus.
#[derive(Clone, Copy, Debug, PartialEq, Eq)]
pub struct Slot {
    /// The number of the node that sends in it.
    pub node: u32,
    /// Its length in time units, at least 1.
    pub length: u64,
    /// How many bytes a frame in it holds, at least 1.
    pub bytes: u32,
}

impl Process {
    /// Returns how long an execution with `faults` faults lasts at most, in time units.
    pub fn duration(&self, faults: u8) -> u64
        requires within { (nodes : ℕ) × IsProcessWithin nodes self.now }
        requires faults { faults ≤ 8 }
        ensures duration { result ≡ duration_of self.now faults }
        ensures short { result < 2 ^ 40 }
    {
        // the detections and checkpoints of all parts
        let checked = u64::from(self.parts) * (self.alpha + self.chi);
        // what one fault costs: a recovery, and one part, rounded up, with its detection once more
        let again = self.mu + self.wcet.div_ceil(u64::from(self.parts)) + self.alpha;
        self.wcet + checked + u64::from(faults) * again
    }

    /// Returns a copy of the process.
    pub fn copy(&self) -> Result<Process, OutOfMemory>
        ensures { IfOk result (λ process. process ≡ self.now) }
    {
        Ok(Process {
            name: self.name.copy()?,
            node: self.node,
            wcet: self.wcet,
            parts: self.parts,
            alpha: self.alpha,
            chi: self.chi,
            mu: self.mu,
            join: self.join,
            frozen: self.frozen,
            release: self.release,
            deadline: self.deadline,
        })
    }
}

/// A clone is an equal process.
impl Clone for Process {
    ghost is_clone = { λ process copy. copy ≡ process };

    fn clone(&self) -> Result<Process, AllocError> {
        Ok(self.copy()?)
    }
}
