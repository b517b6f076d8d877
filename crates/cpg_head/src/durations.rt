//! How long an execution of a process lasts, by its number of faults.
ghost use Rattle.std.specs.Prelude.{◌≡◌, IfOk};

use cpg_base::OutOfMemory;
use std::marker::Model;

/// How long an execution lasts at most with 0, 1, .. faults, in time units of the graph file. It is seen as the list of these
/// times.
#[derive(Drop)]
pub struct Durations {
    /// The times, by number of faults.
    times: Vec<u64>,
}

impl Model for Durations {
    ghost use Rattle.std.specs.Prelude.{List, ℕ};

    ghost Value = { List ℕ };

    ghost view = { λ d. d.times.items };
}

impl Durations {
    /// Returns the durations of these times, the one without faults first.
    pub fn new(times: Vec<u64>) -> Durations
        ensures { result ≡ times.items }
    {
        Durations { times }
    }

    /// Returns all times, the one without faults first.
    pub fn times(&self) -> &[u64]
        ensures { result.now ≡ self.now }
    {
        self.times.as_slice()
    }

    /// Returns equal durations. The one error is `OutOfMemory`.
    pub fn copy(&self) -> Result<Durations, OutOfMemory>
        ensures { IfOk result (λ durations. durations ≡ self.now) }
    {
        Ok(Durations {
            times: self.times.clone()?,
        })
    }
}
