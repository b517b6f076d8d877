//! Orders of processes.
ghost use Rattle.std.specs.Prelude.{◌≡◌, ◌<◌, IfOk, length, get_or};
ghost use Rattle.cpg_base.specs.Order.{place, IsOrder, ArePlaces};

use crate::OutOfMemory;
use std::marker::Model;

/// All processes of a graph in some order, seen as the list of their numbers.
#[derive(Drop)]
pub struct Order {
    /// The numbers of the processes, in this order.
    processes: Vec<u32>,
    /// Under each process number the place of the process, from 0, so that no call has to look for it.
    places: Vec<u32>,
}

impl Model for Order {
    ghost use Rattle.std.specs.Prelude.{List, ℕ};
    ghost use Rattle.cpg_base.specs.Order.{ArePlaces};

    ghost Value = { List ℕ };

    ghost view = { λ o. o.processes.items };

    ghost invariant = { λ o. ArePlaces o.processes.items o.places.items };
}

/// Returns for each process number the place at which the process stands.
fn places_of(processes: &Vec<u32>) -> Result<Vec<u32>, OutOfMemory>
    requires { IsOrder processes.now.items }
    ensures { IfOk result (λ places. ArePlaces processes.now.items places.items) }
{
    let mut places = vec![in *processes.allocator(); 0u32; processes.len()]?;
    for (i, process) in processes.as_slice().iter().enumerate() {
        // there are at most 128 places, so the cast keeps this one
        places[*process as usize] = i as u32;
    }
    Ok(places)
}

impl Order {
    /// Returns the order of this list. The list has to have each of the numbers below its length once, and at most 128.
    pub fn new(processes: Vec<u32>) -> Result<Order, OutOfMemory>
        requires { IsOrder processes.items }
        ensures { IfOk result (λ order. order ≡ processes.items) }
    {
        let places = places_of(&processes)?;
        Ok(Order { processes, places })
    }

    /// Returns how many processes there are.
    pub fn len(&self) -> usize
        ensures length { result ≡ length self.now }
        ensures order { IsOrder self.now }
    {
        self.processes.len()
    }

    /// Returns the numbers of the processes, in this order.
    pub fn processes(&self) -> &[u32]
        ensures processes { result.now ≡ self.now }
        ensures order { IsOrder self.now }
    {
        self.processes.as_slice()
    }

    /// Returns the place of a process, counted from 0.
    pub fn place(&self, process: u32) -> u32
        requires { process < length self.now }
        ensures place { result ≡ place self.now process }
        ensures within { result < length self.now }
        ensures there { get_or self.now result 0 ≡ process }
        ensures order { IsOrder self.now }
    {
        self.places[process as usize]
    }

    /// Returns the process that stands at the place `at`, counted from 0.
    pub fn at(&self, at: u32) -> u32
        requires { at < length self.now }
        ensures process { result ≡ get_or self.now at 0 }
        ensures within { result < length self.now }
        ensures back { place self.now result ≡ at }
        ensures order { IsOrder self.now }
    {
        self.processes[at as usize]
    }

    /// Returns a copy of the order.
    pub fn copy(&self) -> Result<Order, OutOfMemory>
        ensures { IfOk result (λ order. order ≡ self.now) }
    {
        Ok(Order {
            processes: self.processes.clone()?,
            places: self.places.clone()?,
        })
    }
}
