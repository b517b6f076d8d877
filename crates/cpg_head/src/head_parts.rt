//! What a pack's head says of each process.
ghost use Rattle.std.specs.Prelude.{◌≡◌, IfOk};

use crate::Durations;
use cpg_base::{Name, OutOfMemory};
use std::alloc::AllocError;

/// What a head says of a process.
#[derive(Drop)]
pub struct HeadProcess {
    /// The name of the process.
    pub name: Name,
    /// The number of its node.
    pub node: u32,
    /// Whether it has a condition.
    pub condition: bool,
    /// How long its executions last at most, by number of faults.
    pub times: Durations,
}

/// What a head of version 2 adds for a process. Times are in time units of the graph file.
#[derive(Clone, Copy, Debug, PartialEq, Eq)]
pub struct Extra {
    /// The time before which it doesn't start, at most 10^9.
    pub release: u64,
    /// Its own deadline, if it has one, at most 10^9.
    pub deadline: Option<u64>,
}

impl HeadProcess {
    /// Returns an equal value. The one error is `OutOfMemory`.
    pub fn copy(&self) -> Result<HeadProcess, OutOfMemory>
        ensures { IfOk result (λ process. process ≡ self.now) }
    {
        Ok(HeadProcess {
            name: self.name.copy()?,
            node: self.node,
            condition: self.condition,
            times: self.times.copy()?,
        })
    }
}

/// A clone is an equal value, as `copy` makes it.
impl Clone for HeadProcess {
    ghost is_clone = { λ process copy. copy ≡ process };

    fn clone(&self) -> Result<HeadProcess, AllocError> {
        Ok(self.copy()?)
    }
}
