//! Scenarios, and how long executions take in them.
ghost use Rattle.std.specs.Prelude.{◌≡◌, ◌<◌, ◌≤◌, IfOk, length, sum, slice_get, slice_index, slice_set, Some, false, get_or};
ghost use Rattle.cpg_base.specs.Graph.{process_count, condition_count};
ghost use Rattle.cpg_base.specs.Scenario.{IsScenario, zero_scenario, full_lengths, fault_of, number_of};

use crate::{OutOfMemory, Problem};
use std::alloc::Global;
use std::marker::Model;

/// A value for each condition and a fault count for each process, seen as these two lists.
#[derive(Drop)]
pub struct Scenario {
    /// The value of each condition, by its number.
    values: Vec<bool>,
    /// The fault count of each process, by its number.
    faults: Vec<u8>,
}

impl Model for Scenario {
    ghost use Rattle.std.specs.Prelude.{◌≤◌, length};
    ghost use Rattle.cpg_base.specs.Scenario.{Scenario};

    ghost Value = { Scenario };

    ghost view = { λ s. record { values = s.values.items; faults = s.faults.items } };

    // a graph has at most 32 conditions and 128 processes
    ghost invariant = { λ s. (length s.values.items ≤ 32) × (length s.faults.items ≤ 128) };
}

/// Returns the sum of these fault counts.
fn total_of(faults: &[u8]) -> u32
    requires { length faults.now ≤ 128 }
    ensures { result ≡ sum faults.now }
{
    faults.iter().map(|count| u32::from(*count)).sum()
}

impl Scenario {
    /// Returns the scenario without faults, in which every value is false.
    pub fn zero(alloc: Global, problem: &Problem) -> Result<Scenario, OutOfMemory>
        ensures { IfOk result (λ s. s ≡ zero_scenario problem.now) }
    {
        let values = vec![in alloc; false; problem.conditions() as usize]?;
        let faults = vec![in alloc; 0u8; problem.processes().len()]?;
        Ok(Scenario { values, faults })
    }

    /// Returns the value of a condition.
    pub fn value(&self, condition: u32) -> bool
        requires { condition < length self.now.values }
        ensures { result ≡ get_or self.now.values condition false }
    {
        self.values[condition as usize]
    }

    /// Returns the fault count of a process.
    pub fn fault(&self, process: u32) -> u8
        requires { process < length self.now.faults }
        ensures { result ≡ fault_of self.now process }
    {
        self.faults[process as usize]
    }

    /// Returns the number that a variable has: below 128 it is the fault count of the process of that number, and from 128
    /// on the value of a condition, 0 or 1. A variable that the scenario doesn't have is 0.
    pub fn number(&self, variable: u8) -> u8
        ensures { result ≡ number_of self.now variable }
    {
        if variable < 128 {
            return self.faults.get(variable as usize).copied().unwrap_or(0);
        }
        // 128 is the number of the first condition's variable
        let condition = (variable - 128) as usize;
        u8::from(self.values.get(condition).copied().unwrap_or(false))
    }

    /// Gives a condition another value.
    pub fn set_value(&mut self, condition: u32, value: bool)
        requires { condition < length self.old.values }
        ensures { self.new ≡ record self.old { values = slice_set self.old.values condition value } }
    {
        self.values[condition as usize] = value;
    }

    /// Gives a process another fault count.
    pub fn set_fault(&mut self, process: u32, faults: u8)
        requires { process < length self.old.faults }
        ensures { self.new ≡ record self.old { faults = slice_set self.old.faults process faults } }
    {
        self.faults[process as usize] = faults;
    }

    /// Returns the sum of all fault counts.
    pub fn total(&self) -> u32
        ensures { result ≡ sum self.now.faults }
    {
        total_of(self.faults.as_slice())
    }

    /// Returns a copy of the scenario.
    pub fn copy(&self) -> Result<Scenario, OutOfMemory>
        ensures { IfOk result (λ s. s ≡ self.now) }
    {
        Ok(Scenario {
            values: self.values.clone()?,
            faults: self.faults.clone()?,
        })
    }
}
