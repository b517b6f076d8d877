//! How long the executions of a scenario take.
ghost use Rattle.std.specs.Prelude.{◌≡◌, ◌<◌, IfOk, length, slice_set, get_or};
ghost use Rattle.cpg_base.specs.Scenario.{IsScenario, full_lengths};

use crate::{OutOfMemory, Problem, Scenario};
use std::alloc::Global;
use std::marker::Model;

/// The length of the execution of each process, in time units, seen as a list.
#[derive(Drop)]
pub struct Lengths {
    /// By process number, how long its execution lasts.
    lengths: Vec<u64>,
}

impl Model for Lengths {
    ghost use Rattle.std.specs.Prelude.{List, ℕ};

    ghost Value = { List ℕ };

    ghost view = { λ l. l.lengths.items };
}

impl Lengths {
    /// Returns the longest executions of a scenario: for each process, its duration with its fault count in the scenario.
    pub fn full(
        alloc: Global,
        problem: &Problem,
        scenario: &Scenario,
    ) -> Result<Lengths, OutOfMemory>
        requires { IsScenario problem.now scenario.now }
        ensures { IfOk result (λ lengths. lengths ≡ full_lengths problem.now scenario.now) }
    {
        let count = problem.processes().len();
        let mut lengths = Vec::new(alloc);
        lengths.reserve(count)?;
        // there are at most 128 processes, so the cast keeps their count
        for process in 0..count as u32 {
            lengths.push(problem.duration(process, scenario.fault(process)))?;
        }
        Ok(Lengths { lengths })
    }

    /// Returns the length of the execution of a process, in time units.
    pub fn length_of(&self, process: u32) -> u64
        requires { process < length self.now }
        ensures { result ≡ get_or self.now process 0 }
    {
        self.lengths[process as usize]
    }

    /// Gives the execution of a process another length.
    pub fn set(&mut self, process: u32, time: u64)
        requires { process < length self.old }
        ensures { self.new ≡ slice_set self.old process time }
    {
        self.lengths[process as usize] = time;
    }

    /// Returns a copy of the lengths.
    pub fn copy(&self) -> Result<Lengths, OutOfMemory>
        ensures { IfOk result (λ lengths. lengths ≡ self.now) }
    {
        Ok(Lengths {
            lengths: self.lengths.clone()?,
        })
    }
}
